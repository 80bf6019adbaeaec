// Replays a fixed list of sheets and contents (src/tables.rt). The reader has to answer each sheet as the list says, and what it accepts has to be
// written again byte for byte; the writer has to answer each content as the list says, and to leave the buffer so. Prints for each answer how many agree.
#![tactic(auto)]

mod contents;
mod sheets;
mod tables;

use sheets::Counts;
use std::io;

// Writes a line, and answers whether all agree.
fn line(rt: &impl Print, word: &str, answer: u32, counts: Counts) -> io::Result<bool> {
    let Counts { agree, all } = counts;
    println!(rt; "{word} {answer}: {agree} of {all}")?;
    Ok(agree == all)
}

// Writes a line for each answer, and answers whether all agree.
fn replay<F: Fn(u32) -> Counts>(
    rt: &impl Print,
    word: &str,
    answers: &[u32],
    counts: F,
) -> io::Result<bool>
    requires { F.IsAlwaysCallable counts }
{
    let mut all = true;
    for answer in answers {
        all &= line(rt, word, *answer, counts(*answer))?;
    }
    Ok(all)
}

fn main(rt: HostRuntime) -> io::Result<()> {
    let sheets = replay(&rt, "read", &[0, 1, 2, 3, 4, 5, 6, 7], |answer| {
        sheets::replayed(&tables::SHEETS, answer)
    })?;
    // No content is refused by 1, and one that is refused by 2 is too long for a list.
    let contents = replay(&rt, "written", &[0, 3, 4, 5, 6, 7, 8], |answer| {
        contents::replayed(&tables::WRITES, answer)
    })?;
    if sheets && contents {
        println!(rt; "all agree")
    } else {
        println!(rt; "some differ")
    }
}
