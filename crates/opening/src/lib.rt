// Opening: a sheet is checked, its content is laid out in the lent buffers, and a run of it stands at place 0.
// The lent buffers are three parameters: `&` and `&mut` say which of them a function writes.
#![tactic(auto)]

ghost use Rattle.std.specs.Prelude.{◌≡◌, ◌+◌, ◌*◌, ◌≤◌, ◌<◌, ℕ, length, get_or};
ghost use Rattle.stretch.specs.Stretch.{splice};
ghost use Rattle.format.specs.Bytes.{Bytes};
ghost use Rattle.format.specs.Sheet.{content_of};
ghost use Rattle.sheet.specs.ItemLaws.{IsAccepted};
ghost use Rattle.model.specs.Machine.{needs};
ghost use Rattle.model.specs.Task.{both_given, task};
ghost use Rattle.work.specs.Record.{no_run};
ghost use Rattle.image.specs.Calls.{buffers, answer_of};
ghost use Rattle.image.specs.CallLaws.{Enough};
ghost use Rattle.image.specs.Opening as Opening;
ghost use Rattle.image.specs.Replay.{Opens};
ghost use Rattle.image.specs.Shown.{lengths_of};

use plane::Point;
use refusal::Refusal;
use sheet::Header;
use work::{Counted, Plan, Run};

// ---- the settings

// A start that has both coordinates.
fn start_of(x: Option<f64>, y: Option<f64>) -> Option<Point>
    ensures { result ≡ both_given x y }
{
    x.zip(y).map(|(x, y)| Point { x, y })
}

// The counts and settings of an accepted sheet, with what an absent setting means. No `From`: both types stand in other crates. `as usize`: a u32 is no `Into<usize>`.
fn plan_of(h: Header) -> Plan
    ensures { result ≡ Opening.plan_by h }
{
    let s = h.settings;
    Plan {
        n: h.n,
        t: h.t,
        limit: s.limit.map_or(1000, |v| v as usize),
        room: s.room.map_or(0, |v| v as usize),
        tolerance: s.tolerance.unwrap_or(1e-8),
        step: s.step.unwrap_or(0.0),
        start: start_of(s.x, s.y),
    }
}

// ---- the sections, each through the part of the sheet that starts after its count

// What `item` gives for 0, 1 and so on, at the places in turn.
fn put_items<T: Copy, F: Fn(usize) -> T>(places: &mut [T], item: F)
    requires { F.IsAlwaysCallable item }
    ensures long { length places.new ≡ length places.old }
    ensures given { (none : T) → (i : ℕ) → i < length places.old → F.post item i (get_or places.new i none) }
{
    for (i, place) in places.iter_mut().enumerate() {
        *place = item(i);
    }
}

// ---- the matrix, the right side and place 0

// Place 0 of the field: no gradients, nothing kept, the vectors begun, and the first norm. Answers r·r.
fn begin(counted: Counted, floats: &mut [f64], words: &[u32]) -> f64
    requires { Opening.Begins counted.plan words.now (length floats.old) }
    ensures { Opening.Begun counted.plan words.now floats.old result floats.new }
{
    let plan = counted.plan;
    let gradients = counted.at_gradients();
    stretch::fill(
        floats,
        gradients,
        2 * plan.t + (plan.limit + 1) + 3 * plan.n,
        0.0,
    );
    let rs = work::vectors::begin(floats, words, counted);
    let norms = counted.at_norms();
    floats[norms] = root::sqrt(rs);
    rs
}

// ---- an accepted sheet, laid out

// An accepted sheet, with its header.
#[derive(Clone, Copy)]
struct Accepted<'a> {
    bytes: &'a [u8],
    header: Header,
    ghost below: { Bytes bytes.now },
    ghost is: { IsAccepted bytes.now header },
}

impl<'a> Accepted<'a> {
    // The mesh, at the front of the floats and of the words: parts cut out of the lent buffers, one behind the other, since there is no heap. The ends are sums, and not by `Counted::places`: that has no place for the neighbours, and only the end of theirs, `tags`, would be read from it.
    #[tactic(auto, using(crate::proofs::LawsPlace::accepted_within))]
    fn load(&self, floats: &mut [f64], words: &mut [u32])
        requires { Opening.Fits self.now.header (length floats.old) (length words.old) }
        ensures { Opening.Loaded (task (content_of self.now.bytes.now)) floats.old words.old floats.new words.new }
    {
        let h = self.header;
        let n = h.n;
        let t = h.t;
        let vertices = &self.bytes[h.vertices..];
        put_items(
            &mut floats[..2 * n],
            |k| sheet::items::coordinate(vertices, k),
        );
        let triangles = &self.bytes[h.triangles..];
        put_items(&mut words[..3 * t], |i| sheet::items::corner(triangles, i));
        let neighbours = &self.bytes[h.neighbours..];
        put_items(
            &mut words[3 * t..6 * t],
            |i| sheet::items::corner(neighbours, i),
        );
        let tags = &self.bytes[h.tags..];
        put_items(
            &mut words[6 * t..6 * t + n],
            |i| u32::from(sheet::items::tag(tags, i)),
        );
    }

    // The mesh, with its matrix and its right side.
    fn lay_out(&self, counted: Counted, floats: &mut [f64], words: &mut [u32])
        requires { (counted.plan ≡ Opening.plan_by self.now.header) × Opening.Fits self.now.header (length floats.old) (length words.old) }
        ensures { Opening.LaidOut (task (content_of self.now.bytes.now)) floats.old words.old floats.new words.new }
    {
        self.load(floats, words);
        let h = self.header;
        assembly::assemble(floats, words, h.n, h.t, counted.places(), Run::TINY);
    }

    // At place 0, in buffers that suffice.
    fn place_zero(
        &self,
        counted: Counted,
        floats: &mut [f64],
        words: &mut [u32],
        path: &mut [f64],
    ) -> Run
        requires { (counted.plan ≡ Opening.plan_by self.now.header) × Enough (needs (task (content_of self.now.bytes.now))) (lengths_of (buffers floats.old words.old path.old)) }
        ensures { Opening.Stands (task (content_of self.now.bytes.now)) (buffers floats.old words.old path.old) result (buffers floats.new words.new path.new) }
    {
        self.lay_out(counted, floats, words);
        let rs = begin(counted, floats, words);
        let plan = counted.plan;
        stretch::fill(path, 0, 2 * plan.room, 0.0);
        Run::new(plan, rs)
    }
}

// ---- all of it

// The run of a sheet at place 0; or the sheet's refusal, then that of the space, with every lent place as it was.
pub fn open(
    sheet: &[u8],
    floats: &mut [f64],
    words: &mut [u32],
    path: &mut [f64],
) -> Result<Run, Refusal>
    ensures { Opens sheet.now (buffers floats.old words.old path.old) (answer_of no_run result) (buffers floats.new words.new path.new) }
{
    // No `?`: that a refused sheet is answered with its own refusal is a value here, which a wrong program changes (must-fail/open_answers_8_for_a_refused_sheet).
    let h = match sheet::check_sheet(sheet) {
        Ok(h) => h,
        Err(refusal) => return Err(refusal),
    };
    let plan = plan_of(h);
    let counted = Counted { plan };
    if counted.space().lacks(floats.len(), words.len(), path.len()) {
        return Err(Refusal::Space);
    }
    let accepted = Accepted {
        bytes: sheet,
        header: h,
    };
    let run = accepted.place_zero(counted, floats, words, path);
    Ok(run)
}
