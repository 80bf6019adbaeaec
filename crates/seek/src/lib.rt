// The way to another place: from where it is sought, what stands there, and passes up to it.
// Floats and path are two parameters, so that `&` and `&mut` say which of them a function writes (work's `Laid`). What is asked of the stand that C hands over stands in clauses (`Erasable`). `keep` reads no words and takes the counts alone.
// Ends are numbers, as in `work::Stand`; the front is cut out of the floats, which are lent whole.
#![tactic(auto)]

ghost use Rattle.std.specs.Prelude.{◌≡◌, ◌++◌, ◌+◌, ◌*◌, ◌≤◌, length};
ghost use Rattle.model.specs.SolvedPlace.{solved_at};
ghost use Rattle.work.specs.Layout.{at_x, at_norms, at_kept};
ghost use Rattle.work.specs.Memory as Memory;
ghost use Rattle.work.specs.Memory.{work, origin_of, from_mark, pathless, gradients_erased, norms_erased, path_erased, kept_floats};
ghost use Rattle.work.specs.Ready.{Ready, Comes};
ghost use Rattle.work.specs.Seek.{Erasable, Rewinds, Seeks};

use work::{Counted, Kept, Laid, Origin, Stand, place};

// The place at which solving ended: each pass adds a norm to the first, but for the one that halts.
fn solved_at(norms: usize, end: usize) -> usize
    requires { 1 ≤ norms }
    ensures { result ≡ solved_at norms end }
{
    if end == Stand::HALTED {
        norms
    } else {
        norms - 1
    }
}

// The kept vectors serve where they are not past the target and their field had no end.
fn from_mark(limit: usize, mark: Option<Kept>, target: usize) -> Origin
    ensures { result ≡ from_mark limit mark target }
{
    match mark {
        Some(k) if k.place <= target && k.norms <= limit => Origin::Kept(k),
        _ => Origin::Zero,
    }
}

// On from here; a place after the start pass from there, and one at the field's end from there; else from the kept vectors; else from place 0.
#[tactic(auto, unfolding(work::specs::Memory::origin_of))]
fn origin(limit: usize, stand: Stand, mark: Option<Kept>, target: usize) -> Origin
    requires { 1 ≤ stand.norms }
    ensures { result ≡ origin_of limit stand mark target }
{
    if stand.place <= target {
        return Origin::Here;
    }
    if !stand.is_solved() {
        return from_mark(limit, mark, target);
    }
    let at = solved_at(stand.norms, stand.end);
    // By two tests, which the answer names as they are: a `match` on `cmp` proves too, but an answer that names a fact would first have to turn its order into a comparison, by a law.
    if at < target {
        return Origin::Started;
    }
    if at <= target {
        return Origin::Solved;
    }
    from_mark(limit, mark, target)
}

// The path's filled places are +0 again.
fn erase_path(path: &mut [f64], stand: Stand)
    requires { 2 * stand.walk.points ≤ length path.old }
    ensures { path.new ≡ path_erased stand path.old }
{
    stretch::fill(path, 0, 2 * stand.walk.points, 0.0);
}

fn erase_gradients(floats: &mut [f64], laid: &Laid)
    requires { at_norms laid.now.counted.plan.n laid.now.counted.plan.t ≤ length floats.old }
    ensures { floats.new ≡ gradients_erased laid.now.counted.plan floats.old }
{
    stretch::fill(
        floats,
        laid.counted.at_gradients(),
        2 * laid.counted.plan.t,
        0.0,
    );
}

// The norms from k on are +0 again.
fn erase_norms(floats: &mut [f64], laid: &Laid, stand: Stand, k: usize)
    requires { at_norms laid.now.counted.plan.n laid.now.counted.plan.t + stand.norms ≤ length floats.old }
    ensures { floats.new ≡ norms_erased laid.now.counted.plan stand k floats.old }
{
    if k < stand.norms {
        stretch::fill(floats, laid.counted.at_norms() + k, stand.norms - k, 0.0);
    }
}

// The stand where the field ended, with no path.
fn at_field_end(stand: Stand) -> Stand
    requires { 1 ≤ stand.norms }
    ensures { result ≡ pathless (solved_at stand.norms stand.end) stand.rs stand.norms stand.end }
{
    let at = solved_at(stand.norms, stand.end);
    place::pathless(at, stand.rs, stand.norms, stand.end)
}

// Back to where the field ended.
#[tactic(auto, unfolding(work::specs::Memory::to_solved))]
fn to_solved(floats: &mut [f64], path: &mut [f64], laid: &Laid, stand: Stand) -> Stand
    requires { Erasable laid.now.counted.plan stand floats.old path.old }
    ensures { Comes (Memory.to_solved laid.now.counted.plan (work floats.old path.old stand)) result floats.new path.new }
{
    erase_gradients(floats, laid);
    erase_path(path, stand);
    at_field_end(stand)
}

// Back to where the path started: the start is found again, and the gradients stand as they are.
fn to_started(floats: &mut [f64], path: &mut [f64], laid: &Laid, stand: Stand) -> Stand
    requires { Erasable laid.now.counted.plan stand floats.old path.old }
    ensures { Comes (Memory.to_started laid.now.counted.plan laid.now.words.now (work floats.old path.old stand)) result floats.new path.new }
{
    erase_path(path, stand);
    let s = at_field_end(stand);
    let f = laid.counted.at_norms();
    let d = kinds::start_step(&floats[..f], laid, s);
    pass::deliver(floats, path, laid.counted, s, d.gives);
    d.stand
}

// Back to the kept vectors, whose field had no end.
fn to_kept(floats: &mut [f64], path: &mut [f64], laid: &Laid, stand: Stand, k: Kept) -> Stand
    requires { Erasable laid.now.counted.plan stand floats.old path.old }
    ensures { Comes (Memory.to_kept laid.now.counted.plan k (work floats.old path.old stand)) result floats.new path.new }
{
    let counted = laid.counted;
    let from = counted.at_kept();
    let to = counted.at_x();
    stretch::copy(floats, from, to, 3 * counted.plan.n);
    erase_gradients(floats, laid);
    erase_norms(floats, laid, stand, k.norms);
    erase_path(path, stand);
    place::pathless(k.place, k.rs, k.norms, 0)
}

// The floats of place 0; answers r·r. Apart from opening's `begin`, which has the same tail: this erases norms in between.
fn rewind(floats: &mut [f64], laid: &Laid, stand: Stand) -> f64
    requires { (1 ≤ stand.norms) × (at_norms laid.now.counted.plan.n laid.now.counted.plan.t + stand.norms ≤ length floats.old) }
    ensures { Rewinds laid.now.counted.plan laid.now.words.now stand floats.old result floats.new }
{
    let rs = work::vectors::begin(floats, laid.words, laid.counted);
    erase_gradients(floats, laid);
    erase_norms(floats, laid, stand, 0);
    let k = laid.counted.at_norms();
    floats[k] = root::sqrt(rs);
    rs
}

// Back to place 0: the vectors are begun again.
#[tactic(auto, unfolding(work::specs::Memory::to_zero))]
fn to_zero(floats: &mut [f64], path: &mut [f64], laid: &Laid, stand: Stand) -> Stand
    requires { Erasable laid.now.counted.plan stand floats.old path.old }
    ensures { Comes (Memory.to_zero laid.now.counted.plan laid.now.words.now (work floats.old path.old stand)) result floats.new path.new }
{
    let rs = rewind(floats, laid, stand);
    erase_path(path, stand);
    place::pathless(0, rs, 1, place::first_end(laid.counted.plan.limit))
}

// Each of the ways back, no chain of calls: which is next depends on the stand that the last one left.
fn from_origin(floats: &mut [f64], path: &mut [f64], laid: &Laid, stand: Stand, o: Origin) -> Stand
    requires { Erasable laid.now.counted.plan stand floats.old path.old }
    ensures { Comes (Memory.from_origin laid.now.counted.plan laid.now.words.now o (work floats.old path.old stand)) result floats.new path.new }
{
    match o {
        Origin::Here => stand,
        Origin::Started => to_started(floats, path, laid, stand),
        Origin::Solved => to_solved(floats, path, laid, stand),
        Origin::Kept(k) => to_kept(floats, path, laid, stand, k),
        Origin::Zero => to_zero(floats, path, laid, stand),
    }
}

// The place sought, or the path's end before it, by passes from its origin.
pub fn seek(
    floats: &mut [f64],
    path: &mut [f64],
    laid: &Laid,
    stand: Stand,
    mark: Option<Kept>,
    target: usize,
) -> Stand
    requires { Seeks laid.now.counted.plan laid.now.words.now stand mark target floats.old path.old }
    ensures { Comes (Memory.seek laid.now.counted.plan laid.now.words.now mark target (work floats.old path.old stand)) result floats.new path.new }
{
    let o = origin(laid.counted.plan.limit, stand, mark, target);
    let s = from_origin(floats, path, laid, stand, o);
    let k = target - s.place;
    pass::go(floats, path, laid, s, k)
}

// The mark's copy of the vectors.
#[tactic(auto, unfolding(work::specs::Memory::kept_floats))]
pub fn keep(floats: &mut [f64], counted: Counted)
    requires { (counted.plan.limit ≤ 100000) × (at_kept counted.plan.n counted.plan.t counted.plan.limit + 3 * counted.plan.n ≤ length floats.old) }
    ensures { floats.new ≡ kept_floats counted.plan floats.old }
{
    let src = counted.at_x();
    let at = counted.at_kept();
    stretch::copy(floats, src, at, 3 * counted.plan.n);
}
