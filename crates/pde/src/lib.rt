// The spiral: where it leaves a triangle, and one crossing.
#![tactic(auto)]

ghost use Rattle.std.specs.Prelude.{◌≡◌};

pub mod cross;
pub mod edges;

use plane::Point;

// `Entry`, `Exit` and `Side` hold an edge's number and no `Edge`: the definitions build them over numbers, and the edge of an entry may be `NO_EDGE`, which no `Edge` is.

// A point in a triangle, and the edge by which the path came in, or `NO_EDGE`. A number and no Option, since it is handed on from a `Walk` and back to one.
#[derive(Clone, Copy)]
pub struct Entry {
    pub point: Point,
    pub triangle: usize,
    pub edge: usize,
}

// Where a ray leaves a triangle: the edge, and the point on it.
#[derive(Clone, Copy)]
pub struct Exit {
    pub edge: usize,
    pub point: Point,
}

// The nearest exit so far, and the square of how far it is: infinity where there is none, since an exit that is infinitely far is no exit either.
#[derive(Clone, Copy)]
pub struct Candidate {
    pub square: f64,
    pub exit: Option<Exit>,
}

// An edge of a triangle.
#[derive(Clone, Copy)]
pub struct Side {
    pub triangle: usize,
    pub edge: usize,
}

// Why a path ends in a triangle: the gradient is too small, or the ray leaves by no edge.
#[derive(Clone, Copy)]
pub enum Halt {
    Dull,
    Stuck,
}

impl Halt {
    ghost use Rattle.pde.specs.Outcome.{halt_number};

    // The end's number in the record.
    pub fn number(self) -> usize
        ensures { result ≡ halt_number self }
    {
        match self {
            Halt::Dull => 1,
            Halt::Stuck => 2,
        }
    }
}

// Why a path ends at an exit: the border, a neighbour that does not name us back, or a value above the threshold.
#[derive(Clone, Copy)]
pub enum Barrier {
    Border,
    Unnamed,
    Above,
}

impl Barrier {
    ghost use Rattle.pde.specs.Outcome.{barrier_number};

    // The end's number in the record.
    pub fn number(self) -> usize
        ensures { result ≡ barrier_number self }
    {
        match self {
            Barrier::Border => 3,
            Barrier::Unnamed => 4,
            Barrier::Above => 5,
        }
    }
}

// Beyond an exit: the next triangle and the edge it is entered by, or what ends the path there.
pub type Beyond = Result<Side, Barrier>;

// A triangle left: by which point, in how many pieces the way to it is laid, and what lies beyond it.
#[derive(Clone, Copy)]
pub struct Leaving {
    pub point: Point,
    pub pieces: usize,
    pub beyond: Beyond,
}

// What a crossing comes to before the room is looked at.
pub type Crossing = Result<Leaving, Halt>;

// The thresholds: the least magnitude of a gradient and distance of an exit, the value at which the path ends, and the longest piece.
#[derive(Clone, Copy)]
pub struct Rule {
    pub dull: f64,
    pub above: f64,
    pub spacing: f64,
}

// No edge, as a number of `Entry` and `Walk`.
pub const NO_EDGE: usize = 3;

// Where the path stands: its position and triangle, how many points it has, the edge by which it came into the triangle, or none, and its end (0: none yet).
// Edge and end are numbers, and triangle and edge no `Side`, since a run's record is whatever numbers C hands over, and a stand is tested only after the lengths of the lent buffers: any number has to fit.
#[derive(Clone, Copy)]
pub struct Walk {
    pub position: Point,
    pub triangle: usize,
    pub points: usize,
    pub edge: usize,
    pub end: usize,
}

// Where the path stands in its triangle.
impl From<Walk> for Entry {
    ghost use Rattle.pde.specs.Standing.{entry_at};

    ghost from_gives = { λ walk entry. entry ≡ entry_at walk };

    fn from(walk: Walk) -> Entry
        ensures { result ≡ entry_at walk }
    {
        Entry {
            point: walk.position,
            triangle: walk.triangle,
            edge: walk.edge,
        }
    }
}
