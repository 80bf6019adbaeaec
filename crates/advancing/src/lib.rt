// The call that goes on. What is wrong is refused with a number, and then nothing has changed.
// The three lent buffers are three parameters, as C lends them: `&` and `&mut` say which of them a function writes. `as u64`: a usize is no `Into<u64>`; `as usize`: a u32 is no `Into<usize>`.
#![tactic(auto)]

ghost use Rattle.std.specs.Prelude.{◌≡◌, ◌+◌, ◌-◌, ◌≤◌, ltb};
ghost use Rattle.model.specs.Machine as Machine;
ghost use Rattle.work.specs.Dry.{Counts, gain};
ghost use Rattle.refusal.specs.Refusal.{fault};
ghost use Rattle.image.specs.Calls.{buffers, answer_of, Does};
ghost use Rattle.image.specs.Exits.{over_fault};

use refusal::Refusal;
use work::{Counted, Laid, Run};

// Whether a gain would carry passes beyond the most that are counted, 2^64 − 1.
fn over(passes: u64, gain: usize) -> bool
    ensures { result ≡ ltb Machine.most (passes + gain) }
{
    passes.checked_add(gain as u64).is_none()
}

// An advance to the target may carry passes too far. Only near that bound are the passes counted, with nothing written.
fn passes_fault(run: Run, target: usize, floats: &[f64], words: &[u32]) -> Result<(), Refusal>
    requires { Counts run.plan words.now run.stand (target - run.stand.place) floats.now × (run.stand.place ≤ target) }
    ensures { fault result ≡ over_fault run.passes (gain run.plan words.now (target - run.stand.place) floats.now run.stand) }
{
    let k = target - run.stand.place;
    if !over(run.passes, k) {
        return Ok(());
    }
    let laid = Laid {
        counted: Counted { plan: run.plan },
        words,
    };
    let more = dry::dry_gain(floats, &laid, run.stand, k);
    if over(run.passes, more) {
        Err(Refusal::Record)
    } else {
        Ok(())
    }
}

pub fn advance(
    run: Run,
    k: u32,
    floats: &mut [f64],
    words: &[u32],
    path: &mut [f64],
) -> Result<Run, Refusal>
    ensures { Does (Machine.advance k) run (buffers floats.old words.now path.old) (answer_of run result) (buffers floats.new words.now path.new) }
{
    gate::held_fault(run, floats, words, path)?;
    let plan = run.plan;
    let place = run.stand.place;
    let target = (place + k as usize).min(plan.farthest());
    // the test and its `?` apart, so that a wrong program in which the `?` comes too late fails for what it has written
    let late = passes_fault(run, target, floats, words);
    late?;
    let stand = gate::seek(run, target, floats, words, path);
    let gain = stand.place - place;
    let ahead = gate::moved(run, stand, run.passes + gain as u64);
    Ok(ahead)
}
