// What `spiral` prints of a sheet (document 01, Length, writer, program): the text of its run at the last place, or of the refusal.
#![tactic(auto)]

ghost use Rattle.std.specs.Prelude.{◌≤◌, length, take};
ghost use Rattle.image.specs.Calls.{buffers};
ghost use Rattle.text.specs.Put.{Printed};
ghost use Rattle.printing.specs.Printed as Text;
ghost use Rattle.printing.specs.Steps as Steps;

use refusal::Refusal;
use text::Shown;
use work::Run;

// The most bytes of a sheet, and the places of the buffers: floats, whole numbers, x and y of each point.
pub const SHEET: usize = 65536;

// One byte more is read, to find out whether there are too many.
pub const READ: usize = 65537;

pub const FLOATS: usize = 8192;

pub const WORDS: usize = 16384;

pub const PATH: usize = 8192;

// More than the text of lists that stand in such buffers: 67 + 37 · (8,192 + 8,192) bytes at the most.
pub const TEXT: usize = 655360;

// What a run shows, its ends by their numbers, as the text has them. Counts by `as`: no `From` makes a u64 of a usize.
fn put_shown(out: &mut [u8], run: Run, floats: &[f64], path: &[f64]) -> usize
    requires { Steps.Room floats.now path.now out.old }
    ensures { Printed out.old 0 (Steps.shown_text run floats.now path.now) result out.new }
{
    let shown = Shown {
        place: run.stand.place as u64,
        field_end: run.stand.end as u64,
        path_end: run.stand.walk.end as u64,
        field: showing::field(run, floats),
        norms: showing::norms(run, floats),
        gradients: showing::gradients(run, floats),
        points: showing::points(run, path),
    };
    text::put_run(out, 0, shown)
}

// Three buffers, not one struct of them: `&` and `&mut` say here and above which of them is written.
// At the last place: no run has more places than an advance may ask for.
fn put_last(
    out: &mut [u8],
    opened: Run,
    floats: &mut [f64],
    words: &[u32],
    path: &mut [f64],
) -> usize
    requires { Steps.Room floats.old path.old out.old }
    ensures { Steps.PutsLast opened (buffers floats.old words.now path.old) out.old result (buffers floats.new words.now path.new) out.new }
{
    let answer = advancing::advance(opened, u32::MAX, floats, words, path);
    match answer {
        Ok(last) => put_shown(out, last, floats, path),
        Err(refusal) => text::put_refusal(out, 0, refusal),
    }
}

// The text, from the front of the lent bytes on. Answers how many bytes it has.
// The buffers are lent alike here and in `print_read` alone: a struct of references would need a clause that they stay the same ones, a struct of arrays all of them in one place.
pub fn print_sheet(
    sheet: &[u8],
    floats: &mut [f64; FLOATS],
    words: &mut [u32; WORDS],
    path: &mut [f64; PATH],
    out: &mut [u8; TEXT],
) -> usize
    ensures { Text.Prints sheet.now (buffers floats.old words.old path.old) out.old result (buffers floats.new words.new path.new) out.new }
{
    if SHEET < sheet.len() {
        return text::put_refusal(out, 0, Refusal::Space);
    }
    match opening::open(sheet, floats, words, path) {
        Ok(run) => put_last(out, run, floats, words, path),
        Err(refusal) => text::put_refusal(out, 0, refusal),
    }
}

// The same of what was read, into a space for one byte more than a sheet may have: the array's length is the promise that so many were asked for.
pub fn print_read(
    space: &[u8; READ],
    got: usize,
    floats: &mut [f64; FLOATS],
    words: &mut [u32; WORDS],
    path: &mut [f64; PATH],
    out: &mut [u8; TEXT],
) -> usize
    ensures { Text.PrintsRead space.now got (buffers floats.old words.old path.old) out.old result (buffers floats.new words.new path.new) out.new }
{
    print_sheet(&space[..got.min(READ)], floats, words, path, out)
}
