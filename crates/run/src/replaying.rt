// A list of calls written as numbers, made one after the other from place 0. The three lent buffers are three parameters: `&` and `&mut` say which of them a function writes, and a call is lent a front of each.
ghost use Rattle.std.specs.Prelude.{◌≡◌};
ghost use Rattle.work.specs.Record.{no_run};
ghost use Rattle.image.specs.Call.{machine_call};
ghost use Rattle.image.specs.Calls.{buffers, answer_of, Does};
ghost use Rattle.image.specs.Replay.{lent_at, Turned, Performs, Replayed};

use image::Call;
use refusal::Refusal;
use work::Run;

// Which call is made is known when its numbers are read, so that a `match` on it is the plain form.
pub fn perform(
    run: Run,
    call: Call,
    floats: &mut [f64],
    words: &[u32],
    path: &mut [f64],
) -> Result<Run, Refusal>
    ensures { Does (machine_call call) run (buffers floats.old words.now path.old) (answer_of run result) (buffers floats.new words.now path.new) }
{
    match call {
        Call::Advance(k) => advancing::advance(run, k, floats, words, path),
        Call::Back(k) => calls::back(run, k, floats, words, path),
        Call::Mark => calls::mark(run, floats, words, path),
        Call::Return => calls::return_to_mark(run, floats, words, path),
    }
}

// A call of six numbers, lent the front of each buffer that they say. `as usize`: a u32 is no `Into<usize>`.
fn turn(
    run: Run,
    numbers: &[u32; 6],
    floats: &mut [f64],
    words: &[u32],
    path: &mut [f64],
) -> Result<Run, Refusal>
    ensures { Turned (lent_at numbers.now 0) run (buffers floats.old words.now path.old) (answer_of run result) (buffers floats.new words.now path.new) }
{
    let &[kind, k, _, f, w, p] = numbers;
    let f = (f as usize).min(floats.len());
    let w = (w as usize).min(words.len());
    let p = (p as usize).min(path.len());
    let call = Call::from((kind, k));
    perform(run, call, &mut floats[..f], &words[..w], &mut path[..p])
}

// A list of calls, six numbers each: kind, k, one that is not read, and how many floats, words and places of the path are lent. Each call's refusal goes to its place of said by its number, 0 for none, as a list of calls is answered; the place is found by index: of what a zip with `iter_mut` writes a proof knows nothing.
pub fn make(
    run: Run,
    calls: &[u32],
    said: &mut [u32],
    floats: &mut [f64],
    words: &[u32],
    path: &mut [f64],
) -> Run
    ensures { Performs calls.now run said.old (buffers floats.old words.now path.old) result said.new (buffers floats.new words.now path.new) }
{
    let mut held = run;
    let (rows, _) = calls.as_chunks::<6>();
    let count = said.len().min(rows.len());
    for (i, numbers) in rows[..count].iter().enumerate() {
        match turn(held, numbers, floats, words, path) {
            Ok(next) => {
                said[i] = 0;
                held = next;
            }
            Err(refusal) => said[i] = refusal.number(),
        }
    }
    held
}

// A sheet is opened and a list of calls made: what stands then is what the counter machine says, and what the uninterrupted run holds there.
pub fn replay(
    sheet: &[u8],
    calls: &[u32],
    said: &mut [u32],
    floats: &mut [f64],
    words: &mut [u32],
    path: &mut [f64],
) -> Result<Run, Refusal>
    ensures { Replayed sheet.now calls.now said.old (buffers floats.old words.old path.old) (answer_of no_run result) said.new (buffers floats.new words.new path.new) }
{
    let run = opening::open(sheet, floats, words, path)?;
    let last = make(run, calls, said, floats, words, path);
    Ok(last)
}
