// The records of a run, the layout of the three lent buffers, and the vectors of place 0.
#![tactic(auto)]

mod laid;
mod layout;
pub mod place;
pub mod vectors;

ghost use Rattle.std.specs.Prelude.{◌≡◌, ◌≤◌, ◌||◌, ltb, true, false};
ghost use Rattle.model.specs.Space.{farthest};
ghost use Rattle.work.specs.Memory.{kept_of};
ghost use Rattle.work.specs.Record.{new_run, no_run};

pub use laid::Laid;
pub use layout::Counted;
use pde::Walk;
use plane::Point;

// What a sheet says that a pass needs: its counts and settings, with the given start, if there is one.
#[derive(Clone, Copy)]
pub struct Plan {
    pub n: usize,
    pub t: usize,
    pub limit: usize,
    pub room: usize,
    pub tolerance: f64,
    pub step: f64,
    pub start: Option<Point>,
}

// How many places of each lent buffer: how many a run needs, by the space rule. Three counts, and no offsets.
#[derive(Clone, Copy)]
pub struct Space {
    pub floats: usize,
    pub words: usize,
    pub path: usize,
}

impl Plan {
    // The greatest place that a run of this plan can reach. It asks for T and limit alone, so it is no method of `Counted`.
    pub fn farthest(&self) -> usize
        requires { (self.now.t ≤ 8192) × (self.now.limit ≤ 100000) }
        ensures { result ≡ farthest self.now.t self.now.limit }
    {
        self.limit + 1 + Run::FACTOR * self.t
    }
}

impl Space {
    // Whether one of three buffers of these lengths is too short.
    pub fn lacks(&self, floats: usize, words: usize, path: usize) -> bool
        ensures { result ≡ (ltb floats self.now.floats || (ltb words self.now.words || ltb path self.now.path)) }
    {
        (floats < self.floats) | ((words < self.words) | (path < self.path))
    }
}

// The scalars of a place: how many passes led to it, r·r, how many norms there are, the field's end, where the path stands, and how many crossings were made.
// Numbers for ends (0 is none) and for the edge that the path came in by (3 is none), and no enums: a record is whatever numbers C hands over, and what they are is tested after the lengths of the lent buffers, so any number has to fit.
#[derive(Clone, Copy)]
pub struct Stand {
    pub place: usize,
    pub rs: f64,
    pub norms: usize,
    pub end: usize,
    pub walk: Walk,
    pub crossings: usize,
}

impl Stand {
    // The field's ends: the tolerance reached, p·Ap too small, the limit used up.
    pub const REACHED: usize = 1;

    pub const HALTED: usize = 2;

    pub const USED_UP: usize = 3;

    // Whether the field has its end.
    #[inline(always)]
    pub fn is_solved(&self) -> bool
        ensures yes { result ≡ true → self.now.end ≡ 0 → ⊥ }
        ensures no { result ≡ false → self.now.end ≡ 0 }
    {
        self.end != 0
    }

    // Whether the path has its end.
    #[inline(always)]
    pub fn is_over(&self) -> bool
        ensures yes { result ≡ true → self.now.walk.end ≡ 0 → ⊥ }
        ensures no { result ≡ false → self.now.walk.end ≡ 0 }
    {
        self.walk.end != 0
    }
}

// What a pass gives to be written behind what is there: nothing, a norm, or points of the path. An Option of the other three would be no plainer: both are matched at once.
#[derive(Clone, Copy)]
pub enum Gives {
    Nothing,
    Norm(f64),
    First(Point),
    Crossed(pde::Crossing),
}

// A pass: where it leads, and what it gives.
#[derive(Clone, Copy)]
pub struct Step {
    pub stand: Stand,
    pub gives: Gives,
}

// What is kept of a marked place beside its vectors.
#[derive(Clone, Copy)]
pub struct Kept {
    pub place: usize,
    pub rs: f64,
    pub norms: usize,
}

impl From<Stand> for Kept {
    ghost from_gives = { λ stand kept. kept ≡ kept_of stand };

    fn from(stand: Stand) -> Kept
        ensures { result ≡ kept_of stand }
    {
        Kept {
            place: stand.place,
            rs: stand.rs,
            norms: stand.norms,
        }
    }
}

// From where a place is sought: on from here, from where the path started, from where the field ended, from the kept vectors, or from place 0.
#[derive(Clone, Copy)]
pub enum Origin {
    Here,
    Started,
    Solved,
    Kept(Kept),
    Zero,
}

// The record of a run: its plan, where it stands, its mark, if there is one, and how many passes advances have made.
#[derive(Clone, Copy)]
pub struct Run {
    pub plan: Plan,
    pub stand: Stand,
    pub mark: Option<Kept>,
    pub passes: u64,
}

impl Run {
    // p·Ap, and twice a triangle's area, count as zero below this.
    pub const TINY: f64 = 1e-30;
    // A gradient is too small below this, and an exit too near up to this.
    pub const DULL: f64 = 1e-12;
    // The path ends where the field is above this.
    pub const ABOVE: f64 = 0.99;
    // The longest piece of the path.
    pub const SPACING: f64 = 0.2;
    // Crossings for each triangle.
    pub const FACTOR: usize = 20;

    // Place 0, where r·r is rs.
    pub fn new(plan: Plan, rs: f64) -> Run
        ensures { result ≡ new_run plan rs }
    {
        let stand = place::pathless(0, rs, 1, place::first_end(plan.limit));
        Run {
            plan,
            stand,
            mark: None,
            passes: 0,
        }
    }

    // No run, where a sheet is refused: the record that definitions give for one (`answer_of no_run`). `open` answers a `Result`, so no program calls this; it stays as a public function with its promise.
    pub fn nothing() -> Run
        ensures { result ≡ no_run }
    {
        let plan = Plan {
            n: 0,
            t: 0,
            limit: 0,
            room: 0,
            tolerance: 0.0,
            step: 0.0,
            start: None,
        };
        let stand = place::pathless(0, 0.0, 0, 0);
        Run {
            plan,
            stand,
            mark: None,
            passes: 0,
        }
    }
}
