// The matrix, row by row.
#![tactic(auto)]

pub mod matrix;
pub mod row;
