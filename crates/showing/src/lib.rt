// What a run shows: its field, norms, gradients and points as parts of the lent buffers, and the length of its path.
#![tactic(auto)]

mod parts;
mod path;

pub use parts::{Part, Shown, field, gradients, norms};
pub use path::{length, points};
