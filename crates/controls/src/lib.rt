// Opening, the four calls and what a run shows, for callers that hold a run's record as two lists of numbers: the two lent lists, wholes and reals, are what the C interface has.
// Lists that are read are one `Lists`. Where they are written they are two parameters, and the three buffers are three: `&` and `&mut` say which of them a function writes. Counts come and go as C's u64, by `as`: a usize is no `Into<u64>`.
#![tactic(auto)]

ghost use Rattle.std.specs.Prelude.{◌≡◌, length};
ghost use Rattle.refusal.specs.Refusal.{number_of, fault};
ghost use Rattle.image.specs.Call.{machine_call};
ghost use Rattle.image.specs.Calls.{buffers};
ghost use Rattle.image.specs.Points.{points_of};
ghost use Rattle.showing.specs.Shown.{shown_of};
ghost use Rattle.sheet.specs.Answer.{checked_of};
ghost use Rattle.format.specs.Sheet.{parse};
ghost use Rattle.records.specs.Numbers.{listed, listed_in, run_from};
ghost use Rattle.controls.specs.Controls as Controls;

use format::faults::whole_fault;
use records::lists::Lists;
use refusal::Refusal;
use run::Call;
use showing::Shown;
use work::{Counted, Plan};

// What refuses a record whose flags are not 0 or 1, from what refuses it else.
fn flag_refusal(found: Result<(), Refusal>) -> Refusal
    ensures { number_of result ≡ Controls.flag_fault (fault found) }
{
    match found {
        Err(Refusal::Space) => Refusal::Space,
        _ => Refusal::Record,
    }
}

// What refuses lists without the places of a record, or a record whose flags are not 0 or 1.
fn flags_fault(floats: &[f64], words: &[u32], path: &[f64], lists: &Lists) -> Result<(), Refusal>
    ensures { fault result ≡ Controls.flags_fault (listed_in lists.now) (buffers floats.now words.now path.now) }
{
    if !lists.fits() {
        return Err(Refusal::Space);
    }
    if lists.flagged() {
        return Ok(());
    }
    let found = gate::held_fault(lists.run(), floats, words, path);
    Err(flag_refusal(found))
}

// What refuses any call.
fn held_fault(floats: &[f64], words: &[u32], path: &[f64], lists: &Lists) -> Result<(), Refusal>
    ensures { fault result ≡ Controls.held_fault_in (listed_in lists.now) (buffers floats.now words.now path.now) }
{
    flags_fault(floats, words, path, lists)?;
    gate::held_fault(lists.run(), floats, words, path)
}

// Makes a call on the run of the lists, and puts the record's numbers.
pub fn call(
    call: Call,
    floats: &mut [f64],
    words: &[u32],
    path: &mut [f64],
    wholes: &mut [u64],
    reals: &mut [f64],
) -> Result<(), Refusal>
    ensures { Controls.Called (machine_call call) (listed wholes.old reals.old) (buffers floats.old words.now path.old) (fault result) (listed wholes.new reals.new) (buffers floats.new words.now path.new) }
{
    let lists = Lists { wholes, reals };
    flags_fault(floats, words, path, &lists)?;
    let before = lists.run();
    let after = run::perform(before, call, floats, words, path)?;
    records::putting::put_run(after, wholes, reals);
    Ok(())
}

// What refuses to open a sheet where there is no place for a record: its own refusal comes first.
fn sheet_refusal(sheet: &[u8]) -> Refusal
    ensures { number_of result ≡ Controls.refusal_or8 (checked_of (parse sheet.now)) }
{
    match sheet::check_sheet(sheet) {
        Err(refusal) => refusal,
        Ok(_) => Refusal::Space,
    }
}

// Opens a sheet, and puts the record's numbers.
pub fn open(
    sheet: &[u8],
    floats: &mut [f64],
    words: &mut [u32],
    path: &mut [f64],
    wholes: &mut [u64],
    reals: &mut [f64],
) -> Result<(), Refusal>
    ensures { Controls.OpenedIn sheet.now (listed wholes.old reals.old) (buffers floats.old words.old path.old) (fault result) (listed wholes.new reals.new) (buffers floats.new words.new path.new) }
{
    let lists = Lists { wholes, reals };
    if !lists.fits() {
        return Err(sheet_refusal(sheet));
    }
    let run = opening::open(sheet, floats, words, path)?;
    records::putting::put_run(run, wholes, reals);
    Ok(())
}

// The length of the path's points.
pub fn length(
    floats: &[f64],
    words: &[u32],
    path: &[f64],
    lists: &Lists,
    out: &mut [f64],
) -> Result<(), Refusal>
    ensures { Controls.Measured (listed_in lists.now) (buffers floats.now words.now path.now) out.old (fault result) out.new }
{
    held_fault(floats, words, path, lists)?;
    if out.is_empty() {
        return Err(Refusal::Space);
    }
    out[0] = showing::length(showing::points(lists.run(), path));
    Ok(())
}

// Where a part starts that is not empty; 0 for an empty one, since C is told a number.
fn start_by(at: usize, count: usize) -> usize
    ensures { result ≡ Controls.start_by at count }
{
    if count == 0 { 0 } else { at }
}

// ---- what a run shows: where each part starts in its buffer, and how many doubles it has

// Hands out where a part starts and how many doubles it has; `Space` where the answer has no two places or the lists hold no record. The place is beside the part, since C is told where it stands in its buffer.
fn hand(at: usize, part: &[f64], lists: &Lists, out: &mut [u64]) -> Result<(), Refusal>
    ensures { Controls.Handed at part.now (listed_in lists.now) out.old (fault result) out.new }
{
    if !(lists.fits() && 2 <= out.len()) {
        return Err(Refusal::Space);
    }
    out[0] = start_by(at, part.len()) as u64;
    out[1] = part.len() as u64;
    Ok(())
}

// Where field, norms or gradients start in the floats, and how many doubles they have.
pub fn show(shown: Shown, floats: &[f64], lists: &Lists, out: &mut [u64]) -> Result<(), Refusal>
    ensures { Controls.Handed (Controls.shown_at shown (run_from (listed_in lists.now))) (shown_of shown (run_from (listed_in lists.now)) floats.now) (listed_in lists.now) out.old (fault result) out.new }
{
    let run = lists.run();
    let at = shown.part(run).at;
    hand(at, shown.of(run, floats), lists, out)
}

// Where the path's points start in its buffer, and how many doubles they have.
pub fn points(path: &[f64], lists: &Lists, out: &mut [u64]) -> Result<(), Refusal>
    ensures { Controls.Handed 0 (points_of (run_from (listed_in lists.now)) path.now) (listed_in lists.now) out.old (fault result) out.new }
{
    hand(0, showing::points(lists.run(), path), lists, out)
}

// What refuses to tell the space of these counts and settings, for an answer of so many places.
#[tactic(auto, unfolding(crate::specs::Controls::needed_by))]
fn needed_fault(plan: &Plan, places: usize) -> Result<(), Refusal>
    ensures { fault result ≡ Controls.needed_by plan.now.n plan.now.t plan.now.limit plan.now.room places }
{
    Counted::of(*plan).ok_or(Refusal::TooMany)?;
    whole_fault(0, format::MAX_LIMIT, plan.limit as u64)?;
    whole_fault(1, format::MAX_ROOM, plan.room as u64)?;
    if 3 <= places {
        Ok(())
    } else {
        Err(Refusal::Space)
    }
}

// The space that a run needs: floats, words, places of the path. Tolerance, step and start are in no space.
pub fn space_needed(n: u64, t: u64, limit: u64, room: u64, out: &mut [u64]) -> Result<(), Refusal>
    ensures { Controls.Needed n t limit room out.old (fault result) out.new }
{
    let plan = Plan {
        n: n as usize,
        t: t as usize,
        limit: limit as usize,
        room: room as usize,
        tolerance: 0.0,
        step: 0.0,
        start: None,
    };
    needed_fault(&plan, out.len())?;
    let space = Counted { plan }.space();
    out[0] = space.floats as u64;
    out[1] = space.words as u64;
    out[2] = space.path as u64;
    Ok(())
}
