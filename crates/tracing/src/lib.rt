// The spiral as it is laid down: the points of its crossings, where the path stands behind each, and its length.
#![tactic(auto)]

pub mod path;
