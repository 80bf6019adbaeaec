// The calls that go back, mark and return. What is wrong is refused with a number, and then nothing has changed.
// The three lent buffers are three parameters, as C lends them: `&` and `&mut` say which of them a call writes, and a mark writes the floats alone.
#![tactic(auto)]

ghost use Rattle.model.specs.Machine as Machine;
ghost use Rattle.image.specs.Calls.{buffers, answer_of, Does};

use refusal::Refusal;
use work::{Counted, Kept, Run};

// `as usize`: a u32 is no `Into<usize>`.
pub fn back(
    run: Run,
    k: u32,
    floats: &mut [f64],
    words: &[u32],
    path: &mut [f64],
) -> Result<Run, Refusal>
    ensures { Does (Machine.back k) run (buffers floats.old words.now path.old) (answer_of run result) (buffers floats.new words.now path.new) }
{
    gate::held_fault(run, floats, words, path)?;
    let before = run.stand.place.saturating_sub(k as usize);
    let stand = gate::seek(run, before, floats, words, path);
    let earlier = gate::moved(run, stand, run.passes);
    Ok(earlier)
}

pub fn mark(run: Run, floats: &mut [f64], words: &[u32], path: &[f64]) -> Result<Run, Refusal>
    ensures { Does Machine.mark run (buffers floats.old words.now path.now) (answer_of run result) (buffers floats.new words.now path.now) }
{
    gate::held_fault(run, floats, words, path)?;
    seek::keep(floats, Counted { plan: run.plan });
    let kept = Kept::from(run.stand);
    let marked = Run {
        mark: Some(kept),
        ..run
    };
    Ok(marked)
}

// As `back`, to the place of a mark, which there may not be. What both do then is two calls, `gate::seek` and `gate::moved`; what differs is the target.
pub fn return_to_mark(
    run: Run,
    floats: &mut [f64],
    words: &[u32],
    path: &mut [f64],
) -> Result<Run, Refusal>
    ensures { Does Machine.return run (buffers floats.old words.now path.old) (answer_of run result) (buffers floats.new words.now path.new) }
{
    gate::held_fault(run, floats, words, path)?;
    let Some(k) = run.mark else {
        return Err(Refusal::NoMark);
    };
    let stand = gate::seek(run, k.place, floats, words, path);
    let returned = gate::moved(run, stand, run.passes);
    Ok(returned)
}
