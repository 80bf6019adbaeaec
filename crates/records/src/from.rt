// A record from its numbers. A flag is 0 or 1 (`flagged`); what is read of another is not used.
ghost use Rattle.std.specs.Prelude.{◌≡◌};
ghost use Rattle.records.specs.Numbers as Numbers;
ghost use Rattle.records.specs.Numbers.{listed_in};

use crate::lists::{Lists, get_or};
use pde::Walk;
use plane::Point;
use work::{Kept, Plan, Run, Stand};

// Whether lists of these lengths hold a record.
pub fn fits(wholes: usize, reals: usize) -> bool
    ensures { result ≡ Numbers.fitting wholes reals }
{
    17 <= wholes && 8 <= reals
}

// Whether both flags are 0 or 1.
pub fn flagged(wholes: &[u64]) -> bool
    ensures { result ≡ Numbers.flags wholes.now }
{
    let start = get_or(wholes, 4, 0);
    let mark = get_or(wholes, 13, 0);
    start <= 1 && mark <= 1
}

// The parts of a record; specs/Numbers.antt says which number each place holds. Methods, and no `From`: five parts are read of the same lists, two of them options, and what is read is a record only where the lists are `flagged`.
// No `TryFrom` that tests this: what refuses a record comes before its flags (`held_fault` of controls), so it is read with any flags.
impl Lists<'_> {
    // Not by `given`, here and in `mark`: what is absent is not read, which a call that is refused early would pay for.
    fn start(&self) -> Option<Point>
        ensures { result ≡ Numbers.start_from (listed_in self.now) }
    {
        if self.whole(4) == 0 {
            return None;
        }
        let x = self.real(2);
        let y = self.real(3);
        Some(Point { x, y })
    }

    #[tactic(auto, unfolding(crate::specs::Numbers::plan_from))]
    fn plan(&self) -> Plan
        ensures { result ≡ Numbers.plan_from (listed_in self.now) }
    {
        Plan {
            n: self.whole(0) as usize,
            t: self.whole(1) as usize,
            limit: self.whole(2) as usize,
            room: self.whole(3) as usize,
            tolerance: self.real(0),
            step: self.real(1),
            start: self.start(),
        }
    }

    #[tactic(auto, unfolding(crate::specs::Numbers::walk_from))]
    fn walk(&self) -> Walk
        ensures { result ≡ Numbers.walk_from (listed_in self.now) }
    {
        let x = self.real(5);
        let y = self.real(6);
        Walk {
            position: Point { x, y },
            triangle: self.whole(8) as usize,
            edge: self.whole(9) as usize,
            points: self.whole(10) as usize,
            end: self.whole(11) as usize,
        }
    }

    #[tactic(auto, unfolding(crate::specs::Numbers::stand_from))]
    fn stand(&self) -> Stand
        ensures { result ≡ Numbers.stand_from (listed_in self.now) }
    {
        Stand {
            place: self.whole(5) as usize,
            rs: self.real(4),
            norms: self.whole(6) as usize,
            end: self.whole(7) as usize,
            walk: self.walk(),
            crossings: self.whole(12) as usize,
        }
    }

    fn mark(&self) -> Option<Kept>
        ensures { result ≡ Numbers.mark_from (listed_in self.now) }
    {
        if self.whole(13) == 0 {
            return None;
        }
        let kept = Kept {
            place: self.whole(14) as usize,
            rs: self.real(7),
            norms: self.whole(15) as usize,
        };
        Some(kept)
    }

    // Whether the lists hold a record.
    #[tactic(auto, unfolding(crate::specs::Numbers::fits))]
    pub fn fits(&self) -> bool
        ensures { result ≡ Numbers.fits (listed_in self.now) }
    {
        fits(self.wholes.len(), self.reals.len())
    }

    // Whether both flags are 0 or 1.
    #[tactic(auto, unfolding(crate::specs::Numbers::flagged))]
    pub fn flagged(&self) -> bool
        ensures { result ≡ Numbers.flagged (listed_in self.now) }
    {
        flagged(self.wholes)
    }

    #[tactic(auto, unfolding(crate::specs::Numbers::run_from))]
    pub fn run(&self) -> Run
        ensures { result ≡ Numbers.run_from (listed_in self.now) }
    {
        Run {
            plan: self.plan(),
            stand: self.stand(),
            mark: self.mark(),
            passes: self.whole(16),
        }
    }
}
