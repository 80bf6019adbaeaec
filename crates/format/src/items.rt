// Settings: an item of section 5 is read into a Setting, and that is taken apart.
ghost use Rattle.std.specs.Prelude.{◌≡◌};
ghost use Rattle.refusal.specs.Refusal.{fault};
ghost use Rattle.format.specs.Setting.{said, read_of};
ghost use Rattle.format.specs.Refusal.{setting_fault, missing};
ghost use Rattle.format.specs.Sheet.{setting_of, kind_of, value_of, adding};

use crate::faults::{coordinate_fault, finite_fault, number_of, pattern, step_fault, whole_fault};
use crate::{Setting, Settings};
use refusal::Refusal;

// A kind and a value, as section 5 has them. The kind is a byte of the file; what it says is an enum from here on.
impl TryFrom<(u8, u64)> for Setting {
    type Error = Refusal;

    ghost try_from_gives = { λ item r. r ≡ read_of (setting_of item.0 item.1) };

    #[tactic(auto, unfolding(crate::specs::Sheet::setting_of))]
    fn try_from(item: (u8, u64)) -> Result<Setting, Refusal> {
        let (kind, value) = item;
        match kind {
            1 => Ok(Setting::Limit(value)),
            2 => Ok(Setting::Tolerance(number_of(value)?)),
            3 => Ok(Setting::Step(number_of(value)?)),
            4 => Ok(Setting::StartX(number_of(value)?)),
            5 => Ok(Setting::StartY(number_of(value)?)),
            6 => Ok(Setting::Room(value)),
            _ => Err(Refusal::Setting),
        }
    }
}

impl Setting {
    // The kind byte, by which `try_from` reads it.
    #[tactic(auto, unfolding(crate::specs::Sheet::kind_of))]
    pub fn kind(self) -> u8
        ensures { result ≡ kind_of (said self) }
    {
        match self {
            Setting::Limit(_) => 1,
            Setting::Tolerance(_) => 2,
            Setting::Step(_) => 3,
            Setting::StartX(_) => 4,
            Setting::StartY(_) => 5,
            Setting::Room(_) => 6,
        }
    }

    // The value, as section 5 has it.
    #[tactic(auto, unfolding(crate::specs::Sheet::value_of))]
    pub fn value(self) -> u64
        ensures { result ≡ value_of (said self) }
    {
        match self {
            Setting::Limit(v) | Setting::Room(v) => v,
            Setting::Tolerance(x) | Setting::Step(x) | Setting::StartX(x) | Setting::StartY(x) =>
                pattern(x),
        }
    }

    #[tactic(auto, unfolding(crate::specs::Refusal::setting_fault))]
    pub fn fault(self) -> Result<(), Refusal>
        ensures { fault result ≡ setting_fault (said self) }
    {
        match self {
            Setting::Limit(v) => whole_fault(0, crate::MAX_LIMIT, v),
            Setting::Tolerance(x) => finite_fault(x),
            Setting::Step(x) => step_fault(x),
            Setting::StartX(x) | Setting::StartY(x) => coordinate_fault(x),
            Setting::Room(v) => whole_fault(1, crate::MAX_ROOM, v),
        }
    }
}

impl Settings {
    // The settings with one more.
    #[tactic(auto, unfolding(crate::specs::Sheet::adding))]
    pub fn with(self, one: Setting) -> Settings
        ensures { result ≡ adding self (said one) }
    {
        match one {
            Setting::Limit(v) => Settings {
                limit: Some(v),
                ..self
            },
            Setting::Tolerance(x) => Settings {
                tolerance: Some(x),
                ..self
            },
            Setting::Step(x) => Settings {
                step: Some(x),
                ..self
            },
            Setting::StartX(x) => Settings { x: Some(x), ..self },
            Setting::StartY(x) => Settings { y: Some(x), ..self },
            Setting::Room(v) => Settings {
                room: Some(v),
                ..self
            },
        }
    }

    // A step, a room or half a start is missing.
    #[tactic(auto, unfolding(crate::specs::Refusal::missing))]
    pub fn missing_fault(self) -> Result<(), Refusal>
        ensures { fault result ≡ missing self }
    {
        if self.step.is_some() && self.room.is_some() && self.x.is_some() == self.y.is_some() {
            Ok(())
        } else {
            Err(Refusal::Setting)
        }
    }
}
