// Replays sheets with lists of calls: each is opened, its calls are made, and one line says what stands then. Standard input has for each sheet how many
// bytes it has, its bytes, how many calls there are, and the six numbers of each call as `run::replay` takes them; a number is four bytes, the least first.
// `compare/run --runs` writes that input, and the lines as the original Rust and the counter machine give them.
#![tactic(auto)]

mod digest;
mod lines;

ghost use Rattle.std.specs.Prelude.{◌<◌, IfSome, length};
ghost use Rattle.std.specs.Iterator.{at_most};

use std::io;

// At most so many calls of a sheet are replayed.
const CALLS: usize = 40;

// The numbers of a call.
const NUMBERS: usize = 6;

// The bytes of a call.
const BYTES: usize = 4 * NUMBERS;

// On buffers that suffice for small sheets.
fn replay(rt: &impl Print, sheet: &[u8], calls: &[u32]) -> io::Result<()> {
    let mut said = [0u32; CALLS];
    let Some(said) = said.get_mut(..calls.len() / NUMBERS) else {
        return Ok(());
    };
    let mut floats = [0.0; 4096];
    let mut words = [0u32; 4096];
    let mut path = [0.0; 1024];
    match run::replay(sheet, calls, said, &mut floats, &mut words, &mut path) {
        Ok(run) => lines::opened(rt, run, said, &floats, &path),
        Err(refusal) => lines::refused(rt, refusal),
    }
}

// The calls by their bytes.
fn replay_one(rt: &impl Print, sheet: &[u8], bytes: &[u8]) -> io::Result<()> {
    let (numbers, _) = bytes.as_chunks::<4>();
    let mut calls = [0u32; NUMBERS * CALLS];
    let Some(calls) = calls.get_mut(..numbers.len()) else {
        return Ok(());
    };
    for (call, number) in calls.iter_mut().zip(numbers) {
        *call = u32::from_le_bytes(*number);
    }
    replay(rt, sheet, calls)
}

// The number at the front of the input, and what stands behind it.
fn number(input: &[u8]) -> Option<(u32, &[u8])>
    ensures { IfSome result (λ found. length found.1.now < length input.now) }
{
    let (bytes, rest) = input.split_first_chunk::<4>()?;
    Some((u32::from_le_bytes(*bytes), rest))
}

// What an input has left.
#[derive(Clone, Copy)]
struct Sheets<'a>(&'a [u8]);

impl<'a> Iterator for Sheets<'a> {
    type Item = (&'a [u8], &'a [u8]);

    ghost remaining = { λ s. at_most (length s.0.now) };

    // The bytes of the next sheet and those of its calls; none where the input ends before they do. By `as`: no `From` makes a usize of a u32.
    fn next(&mut self) -> Option<(&'a [u8], &'a [u8])> {
        let (size, rest) = number(self.0)?;
        let (sheet, rest) = rest.split_at_checked(size as usize)?;
        let (count, rest) = number(rest)?;
        let (calls, rest) = rest.split_at_checked(BYTES * count as usize)?;
        self.0 = rest;
        Some((sheet, calls))
    }
}

// At most 1,000 sheets.
fn replay_all(rt: &impl Print, input: &[u8]) -> io::Result<()> {
    for (sheet, calls) in Sheets(input).take(1000) {
        replay_one(rt, sheet, calls)?;
    }
    Ok(())
}

fn main(rt: HostRuntime) -> io::Result<()> {
    let mut input = reading::zeros::<163840>();
    let got = reading::read_full(&mut rt.stdin(), &mut input)?;
    replay_all(&rt, &input[..got])
}
