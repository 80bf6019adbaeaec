// What refuses a sheet or a call, with the numbers by which callers know it.
#![tactic(auto)]

ghost use Rattle.std.specs.Prelude.{◌≡◌};

use std::error::Error;
use std::fmt;

#[derive(Clone, Copy, Debug, PartialEq, Eq, Hash)]
pub enum Refusal {
    // a sheet that is too short, or has bytes left over
    Length = 1,
    // a count over its limit
    TooMany = 2,
    // a count that does not fit the counts before it
    Mismatch = 3,
    // a vertex number, a neighbour or a tag outside its set
    OutsideSet = 4,
    // a setting of an unknown kind or out of order, or one that is missing
    Setting = 5,
    NotANumber = 6,
    // infinite, or outside its range
    OutOfRange = 7,
    // lent space that is too short
    Space = 8,
    // a return with no mark
    NoMark = 9,
    // an index or a count of the record or the work outside its range, or too many passes
    Record = 10,
}

impl Refusal {
    ghost use Rattle.refusal.specs.Refusal.{number_of};

    pub fn number(self) -> u32
        ensures { result ≡ number_of self }
    {
        self as u32
    }
}

impl fmt::Display for Refusal {
    fn fmt<W: fmt::Write>(&self, f: &mut fmt::Formatter<W>) -> fmt::Result {
        write!(f, "refused {}", self.number())
    }
}

// For a caller whose own errors are any type's: `?` makes a `Box<dyn Error>` or an `anyhow::Error` of a refusal.
impl Error for Refusal {}

ghost use Rattle.refusal.specs.Refusal.{fault};

// The number of what refused, 0 where nothing did.
pub fn number(outcome: Result<(), Refusal>) -> u32
    ensures { result ≡ fault outcome }
{
    match outcome {
        Ok(()) => 0,
        Err(refusal) => refusal.number(),
    }
}
