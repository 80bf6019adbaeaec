// The numbers of a record put at their places. One function for each part, of like form: each puts numbers of its own at places of its own, and one over a table of places would say what specs/Numbers.antt says. Ends and edge are numbers, as in `Stand` of crate work.
// The two lists stay two parameters: in a struct of two `&mut` each contract says besides that its lists stay where they are, which is no plainer.
ghost use Rattle.std.specs.Prelude.{◌≡◌};
ghost use Rattle.records.specs.Numbers as Numbers;
ghost use Rattle.records.specs.Numbers.{listed};

use crate::lists::put;
use pde::Walk;
use plane::Point;
use work::{Kept, Plan, Run, Stand};

fn put_start(start: Option<Point>, wholes: &mut [u64], reals: &mut [f64])
    ensures { listed wholes.new reals.new ≡ Numbers.start_put start (listed wholes.old reals.old) }
{
    match start {
        None => put(wholes, 4, 0),
        Some(p) => {
            put(wholes, 4, 1);
            put(reals, 2, p.x);
            put(reals, 3, p.y);
        }
    }
}

#[tactic(auto, unfolding(crate::specs::Numbers::plan_put))]
fn put_plan(plan: Plan, wholes: &mut [u64], reals: &mut [f64])
    ensures { listed wholes.new reals.new ≡ Numbers.plan_put plan (listed wholes.old reals.old) }
{
    put(wholes, 0, plan.n as u64);
    put(wholes, 1, plan.t as u64);
    put(wholes, 2, plan.limit as u64);
    put(wholes, 3, plan.room as u64);
    put(reals, 0, plan.tolerance);
    put(reals, 1, plan.step);
    put_start(plan.start, wholes, reals);
}

#[tactic(auto, unfolding(crate::specs::Numbers::walk_put))]
fn put_walk(walk: Walk, wholes: &mut [u64], reals: &mut [f64])
    ensures { listed wholes.new reals.new ≡ Numbers.walk_put walk (listed wholes.old reals.old) }
{
    put(reals, 5, walk.position.x);
    put(reals, 6, walk.position.y);
    put(wholes, 8, walk.triangle as u64);
    put(wholes, 9, walk.edge as u64);
    put(wholes, 10, walk.points as u64);
    put(wholes, 11, walk.end as u64);
}

#[tactic(auto, unfolding(crate::specs::Numbers::stand_put))]
fn put_stand(stand: Stand, wholes: &mut [u64], reals: &mut [f64])
    ensures { listed wholes.new reals.new ≡ Numbers.stand_put stand (listed wholes.old reals.old) }
{
    put(wholes, 5, stand.place as u64);
    put(reals, 4, stand.rs);
    put(wholes, 6, stand.norms as u64);
    put(wholes, 7, stand.end as u64);
    put(wholes, 12, stand.crossings as u64);
    put_walk(stand.walk, wholes, reals);
}

fn put_mark(mark: Option<Kept>, wholes: &mut [u64], reals: &mut [f64])
    ensures { listed wholes.new reals.new ≡ Numbers.mark_put mark (listed wholes.old reals.old) }
{
    match mark {
        None => put(wholes, 13, 0),
        Some(k) => {
            put(wholes, 13, 1);
            put(wholes, 14, k.place as u64);
            put(reals, 7, k.rs);
            put(wholes, 15, k.norms as u64);
        }
    }
}

#[tactic(auto, unfolding(crate::specs::Numbers::run_put))]
pub fn put_run(run: Run, wholes: &mut [u64], reals: &mut [f64])
    ensures { listed wholes.new reals.new ≡ Numbers.run_put run (listed wholes.old reals.old) }
{
    put(wholes, 16, run.passes);
    put_plan(run.plan, wholes, reals);
    put_stand(run.stand, wholes, reals);
    put_mark(run.mark, wholes, reals);
}
