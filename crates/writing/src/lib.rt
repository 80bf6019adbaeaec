// The steps of writing a sheet: what refuses a content, and its sections, put down one behind the other.
#![tactic(auto)]

pub mod putting;
pub mod refusing;

ghost use Rattle.std.specs.Prelude.{◌≡◌, length};
ghost use Rattle.format.specs.Refusal.{present};
ghost use Rattle.writing.specs.Write.{given_in};

use format::{Setting, Settings};

// The six settings by rising kind, each where it is given.
fn slots(s: Settings) -> [Option<Setting>; 6]
    ensures { given_in result ≡ present s }
{
    [
        s.limit.map(Setting::Limit),
        s.tolerance.map(Setting::Tolerance),
        s.step.map(Setting::Step),
        s.x.map(Setting::StartX),
        s.y.map(Setting::StartY),
        s.room.map(Setting::Room),
    ]
}

// How many settings are given.
pub fn present_count(s: Settings) -> usize
    ensures { result ≡ length (present s) }
{
    slots(s).iter().filter(|slot| slot.is_some()).count()
}
