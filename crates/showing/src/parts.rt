// What a run shows of its field: parts of the lent floats, empty where n or T is past its most or the part past the buffer's end.
ghost use Rattle.std.specs.Prelude.{◌≡◌};
ghost use Rattle.image.specs.Parts as Parts;
ghost use Rattle.showing.specs.Shown as Places;

use work::{Counted, Run};

// What a run shows of its floats.
#[derive(Clone, Copy)]
pub enum Shown {
    // the n values of the field
    Field,
    // the norms so far
    Norms,
    // x and y of each triangle's gradient
    Gradients,
}

// Where a part of the floats starts, and how many places it has. C is told the place in its buffer, so a part is a place and a count.
#[derive(Clone, Copy)]
pub struct Part {
    pub at: usize,
    pub count: usize,
}

// What stands at a part of the floats. A start and a count of a record may have a sum that does not fit: so they are cut one after the other. Two `let else`, and no chain of `and_then` and `unwrap_or`: what the chain's closure gives, the search does not find.
fn within(floats: &[f64], part: Part) -> &[f64]
    ensures { result.now ≡ Parts.within floats.now part.at part.count }
{
    let Some(rest) = floats.get(part.at..) else {
        return &floats[..0];
    };
    let Some(shown) = rest.get(..part.count) else {
        return &floats[..0];
    };
    shown
}

impl Shown {
    // None at 0 for counts that no sheet has.
    #[tactic(auto, unfolding(crate::specs::Shown::part_of))]
    pub fn part(self, run: Run) -> Part
        ensures { result ≡ Places.part_of self run }
    {
        let plan = run.plan;
        let Some(places) = Counted::of(plan) else {
            return Part { at: 0, count: 0 };
        };
        match self {
            Shown::Field => Part {
                at: places.at_x(),
                count: plan.n,
            },
            Shown::Norms => Part {
                at: places.at_norms(),
                count: run.stand.norms,
            },
            Shown::Gradients => Part {
                at: places.at_gradients(),
                count: 2 * plan.t,
            },
        }
    }

    // What stands there.
    #[tactic(auto, using(crate::proofs::LawsParts::shown_within))]
    pub fn of(self, run: Run, floats: &[f64]) -> &[f64]
        ensures { result.now ≡ Places.shown_of self run floats.now }
    {
        within(floats, self.part(run))
    }
}

// The three by name, as callers and contracts know them. The record and the buffer are two, as C lends them: what is shown is a part of the buffer alone.
pub fn field(run: Run, floats: &[f64]) -> &[f64]
    ensures { result.now ≡ Parts.field_of run floats.now }
{
    Shown::Field.of(run, floats)
}

pub fn norms(run: Run, floats: &[f64]) -> &[f64]
    ensures { result.now ≡ Parts.norms_of run floats.now }
{
    Shown::Norms.of(run, floats)
}

pub fn gradients(run: Run, floats: &[f64]) -> &[f64]
    ensures { result.now ≡ Parts.gradients_of run floats.now }
{
    Shown::Gradients.of(run, floats)
}
