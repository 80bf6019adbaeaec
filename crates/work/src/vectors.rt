// The vectors of place 0, by counts and words that need no sound mesh yet, as where a sheet is opened.
ghost use Rattle.std.specs.Prelude.{◌≡◌, ◌*◌, ◌≤◌, length, take, drop};
ghost use Rattle.sparse.specs.Stored as Stored;
ghost use Rattle.conjugate.specs.Placed as Placed;
ghost use Rattle.work.specs.Layout as Layout;

use crate::Counted;

// At the front of `behind`, by the matrix and the right side that stand before them. Answers r·r.
fn begin_behind(front: &[f64], behind: &mut [f64], words: &[u32], counted: Counted) -> f64
    requires sound { Stored.Sound words.now (Layout.matrix_at counted.plan.n counted.plan.t) }
    requires long { (length front.now ≡ Layout.at_x counted.plan.n counted.plan.t) × (4 * counted.plan.n ≤ length behind.old) }
    ensures begun { Placed.Begun (take (4 * counted.plan.n) behind.old) (take (4 * counted.plan.n) behind.new) counted.plan.n (Placed.row_of counted.plan.n)
        (Placed.start_of words.now front.now (Layout.matrix_at counted.plan.n counted.plan.t) (Layout.at_right counted.plan.n counted.plan.t)) result }
    ensures kept { drop (4 * counted.plan.n) behind.new ≡ drop (4 * counted.plan.n) behind.old }
{
    let n = counted.plan.n;
    let a = counted.matrix(front, words);
    let at = counted.places();
    conjugate::begin_in_row(&a, &front[at.right..at.row], &mut behind[..4 * n])
}

// Begun in their place. Answers r·r.
pub fn begin(floats: &mut [f64], words: &[u32], counted: Counted) -> f64
    requires starts { Placed.Starts words.now (length floats.old) (Layout.matrix_at counted.plan.n counted.plan.t) (Layout.vectors_at counted.plan.n counted.plan.t) (Layout.at_right counted.plan.n counted.plan.t) }
    ensures { Placed.Begun floats.old floats.new counted.plan.n (Layout.vectors_at counted.plan.n counted.plan.t)
        (Placed.start_of words.now floats.old (Layout.matrix_at counted.plan.n counted.plan.t) (Layout.at_right counted.plan.n counted.plan.t)) result }
{
    let (front, behind) = floats.split_at_mut(counted.at_x());
    begin_behind(front, behind, words, counted)
}
