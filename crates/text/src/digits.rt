// Numbers as text.
ghost use Rattle.std.specs.Prelude.{◌≡◌, ◌+◌, ◌≤◌, ◌<◌, length};
ghost use Rattle.text.specs.Put.{Adds, Room};
ghost use Rattle.text.specs.Text as Text;

use crate::raw::Output;

// A digit is below 16, and `as` loses nothing: `try_from` would have a refusal that cannot come. `char::from_digit` takes and gives more than a byte, and has a None that cannot come.
fn glyph(d: u64) -> u8
    requires { d < 16 }
    ensures { result ≡ Text.glyph d }
{
    if d < 10 { 48 + d as u8 } else { 87 + d as u8 }
}

// How many digits n has in decimal.
fn places(n: u64) -> usize
    ensures { (result ≡ Text.places n) × (result ≤ 20) }
{
    if n == 0 { 1 } else { n.ilog10() as usize + 1 }
}

// The last digits of n in a base, as many as there is room for, from the last one to the first.
// By index: nothing is known of what is written through `iter_mut().rev()`.
fn fill_digits(out: &mut [u8], base: u64, n: u64)
    requires { (0 < base) × (base ≤ 16) }
    ensures { out.new ≡ Text.digits base (length out.old) n }
{
    let mut rest = n;
    for i in (0..out.len()).rev() {
        out[i] = glyph(rest % base);
        rest /= base;
    }
}

impl Output<'_> {
    // The last k digits of n in a base.
    fn digits(&mut self, base: u64, k: usize, n: u64)
        requires { (self.old.at + k ≤ length self.old.bytes.now) × (0 < base) × (base ≤ 16) }
        ensures { Adds self.old self.new (Text.digits base k n) }
    {
        let end = self.at + k;
        fill_digits(&mut self.bytes[self.at..end], base, n);
        self.at = end;
    }

    // A whole number in decimal.
    pub(crate) fn decimal(&mut self, n: u64)
        requires { Room self.old (Text.decimal n) }
        ensures { Adds self.old self.new (Text.decimal n) }
    {
        self.digits(10, places(n), n);
    }

    // A number's pattern.
    pub(crate) fn hex(&mut self, x: f64)
        requires { Room self.old (Text.hex_of x) }
        ensures { Adds self.old self.new (Text.hex_of x) }
    {
        let bits = std::num::f64_to_bits_with_nan(x);
        self.digits(16, 16, bits);
    }
}
