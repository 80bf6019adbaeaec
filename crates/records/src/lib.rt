// The record of a run as numbers, a list of 17 whole numbers and one of 8 reals, for callers that hold no struct of Rattle's: read, and put at their places. Each number is a u64, so that counts go by `as`: a usize is no `Into<u64>`.
#![tactic(auto)]

pub mod from;
pub mod lists;
pub mod putting;
