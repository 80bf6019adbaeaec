// Lines of text.
ghost use Rattle.std.specs.Prelude.{◌+◌, ◌≤◌, ◌<◌, length};
ghost use Rattle.text.specs.Put.{Adds, Room};
ghost use Rattle.text.specs.Text as Text;

use crate::raw::Output;

impl Output<'_> {
    // A space and a whole number.
    pub(crate) fn word(&mut self, n: u64)
        requires { Room self.old (Text.word n) }
        ensures { Adds self.old self.new (Text.word n) }
    {
        self.byte(b' ');
        self.decimal(n);
    }

    // Numbers, a space before each.
    fn numbers(&mut self, xs: &[f64])
        requires { Room self.old (Text.numbers xs.now) }
        ensures { Adds self.old self.new (Text.numbers xs.now) }
    {
        for x in xs {
            self.byte(b' ');
            self.hex(*x);
        }
    }

    // A line of numbers.
    fn line(&mut self, letter: u8, xs: &[f64])
        requires { Room self.old (Text.line letter xs.now) }
        ensures { Adds self.old self.new (Text.line letter xs.now) }
    {
        self.byte(letter);
        self.numbers(xs);
        self.byte(b'\n');
    }

    // As many lines of so many numbers as there are numbers for; what is left of them has no line.
    pub fn lines(&mut self, letter: u8, width: usize, xs: &[f64])
        requires { (0 < width) × (Room self.old (Text.lines letter width xs.now)) }
        ensures { Adds self.old self.new (Text.lines letter width xs.now) }
    {
        for part in xs.chunks_exact(width) {
            self.line(letter, part);
        }
    }
}
