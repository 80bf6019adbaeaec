// The run: opening a sheet, the four calls, and what they show.
#![tactic(auto)]

mod replaying;

pub use advancing::advance;
pub use calls::{back, mark, return_to_mark};
pub use image::Call;
pub use opening::open;
pub use replaying::{make, perform, replay};
pub use showing::{field, gradients, length, norms, points};
