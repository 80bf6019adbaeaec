// What `spiral` does, run on one byte more than a sheet may have: that is refused before any other refusal.
// A program of its own with the same `main`: the gate runs a program on one input.
#![tactic(auto)]

use std::io;

fn main(rt: HostRuntime) -> io::Result<()> {
    stream::print_input(&rt)
}
