// The scalars of a place with no path yet, and of one whose path found no start. Ends and the edge are numbers, as in `Stand`.
ghost use Rattle.std.specs.Prelude.{◌≡◌, leb};
ghost use Rattle.binary64.specs.Number.{pick};
ghost use Rattle.pde.specs.Path.{ended};
ghost use Rattle.model.specs.Run.{nowhere};
ghost use Rattle.work.specs.Memory as Memory;
ghost use Rattle.work.specs.Record.{first_end};

use crate::Stand;
use pde::{NO_EDGE, Walk};
use plane::Point;

// No path, with an end or none (0).
pub fn lost(end: usize) -> Walk
    ensures { result ≡ ended nowhere end }
{
    Walk {
        position: Point { x: 0.0, y: 0.0 },
        triangle: 0,
        edge: NO_EDGE,
        points: 0,
        end,
    }
}

pub fn pathless(place: usize, rs: f64, norms: usize, end: usize) -> Stand
    ensures { result ≡ Memory.pathless place rs norms end }
{
    let walk = lost(0);
    Stand {
        place,
        rs,
        norms,
        end,
        walk,
        crossings: 0,
    }
}

// The field's end where so many norms stand behind the first: none (0), but where the limit is used up.
pub fn limit_end(limit: usize, norms: usize) -> usize
    ensures { result ≡ pick (leb limit norms) 3 0 }
{
    if limit <= norms { Stand::USED_UP } else { 0 }
}

// The field's end at place 0.
pub fn first_end(limit: usize) -> usize
    ensures { result ≡ first_end limit }
{
    limit_end(limit, 0)
}
