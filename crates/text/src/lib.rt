// The text that `spiral` prints (document 01, Length, writer, program), put into lent bytes. Callers show the room.
#![tactic(auto)]

mod digits;
mod lines;
mod raw;

ghost use Rattle.std.specs.Prelude.{◌+◌, ◌*◌, ◌≤◌, length};
ghost use Rattle.refusal.specs.Refusal.{number_of};
ghost use Rattle.text.specs.Put.{Adds, Printed, Room, text_of};
ghost use Rattle.text.specs.Text as Text;

pub use raw::Output;
use refusal::Refusal;
pub use std::num::f64_to_bits_with_nan as pattern;

// What is printed of a run: its place and the ends of field and path; field values, norms, x and y of the gradients, x and y of the points.
#[derive(Clone, Copy)]
pub struct Shown<'a> {
    pub place: u64,
    pub field_end: u64,
    pub path_end: u64,
    pub field: &'a [f64],
    pub norms: &'a [f64],
    pub gradients: &'a [f64],
    pub points: &'a [f64],
}

impl Output<'_> {
    // The line of the place and the ends.
    pub fn end(&mut self, place: u64, field: u64, path: u64)
        requires { Room self.old (Text.end_line place field path) }
        ensures { Adds self.old self.new (Text.end_line place field path) }
    {
        self.bytes(b"end");
        self.word(place);
        self.word(field);
        self.word(path);
        self.byte(b'\n');
    }

    // The whole text of a refusal.
    pub fn refused(&mut self, refusal: Refusal)
        requires { Room self.old (Text.refused_text (number_of refusal)) }
        ensures { Adds self.old self.new (Text.refused_text (number_of refusal)) }
    {
        self.refused_by(u64::from(refusal.number()));
    }

    // The same by any number.
    pub fn refused_by(&mut self, k: u64)
        requires { Room self.old (Text.refused_text k) }
        ensures { Adds self.old self.new (Text.refused_text k) }
    {
        self.bytes(b"refused");
        self.word(k);
        self.byte(b'\n');
    }

    // The whole text of a run at its last place.
    pub fn run(&mut self, shown: Shown)
        requires { Room self.old (text_of shown) }
        ensures { Adds self.old self.new (text_of shown.entry) }
    {
        self.end(shown.place, shown.field_end, shown.path_end);
        self.lines(b'u', 1, shown.field);
        self.lines(b'r', 1, shown.norms);
        self.lines(b'g', 2, shown.gradients);
        self.lines(b'p', 2, shown.points);
    }
}

// Below: bytes and a place beside them, as a caller lends them; within, both are an `Output`. One function of the three would take a closure, and a contract that states once more what each puts.

// The text of a refusal, from a place of lent bytes on. Answers the place behind it.
pub fn put_refusal(out: &mut [u8], at: usize, refusal: Refusal) -> usize
    requires { at + 29 ≤ length out.old }
    ensures { Printed out.old at (Text.refused_text (number_of refusal)) result out.new }
{
    put_refused(out, at, u64::from(refusal.number()))
}

// The same by any number.
pub fn put_refused(out: &mut [u8], at: usize, k: u64) -> usize
    requires { at + 29 ≤ length out.old }
    ensures { Printed out.old at (Text.refused_text k) result out.new }
{
    let mut output = Output { bytes: out, at };
    output.refused_by(k);
    output.at
}

// The same of a run at its last place.
pub fn put_run(out: &mut [u8], at: usize, shown: Shown) -> usize
    requires { at + (67 + (19 * (length shown.field.now + length shown.norms.now) + 18 * (length shown.gradients.now + length shown.points.now))) ≤ length out.old }
    ensures { Printed out.old at (text_of shown.entry) result out.new }
{
    let mut output = Output { bytes: out, at };
    output.run(shown);
    output.at
}
