// The square root of an f64 (IEEE 754-2019, 5.4.1): a guess in floats, returned where a remainder
// shows that it is the root. Elsewhere the root is found on bit patterns, from the guess by a
// remainder, or digit by digit. Exponent and significand stay plain numbers: each of the three calls of
// `is_root` and `root_pattern` works them out anew, so that a struct of them would be made for that call alone.
// `root` is the definition; the double that it gives is the nearest one (specs/RootTheorems.antt).
#![tactic(auto)]

ghost use Rattle.std.specs.Prelude.{IfSome, ◌≡◌, ◌+◌, ◌*◌, ◌/◌, ◌%◌, ◌^◌, ◌<◌, ◌≤◌, true};
ghost use Rattle.binary64.specs.Root.{root, root_of, root_pattern, whole_root};

// The weight of the exponent's field in a pattern, and of a significand's leading digit: 2^52.
const LEADING: u64 = 1 << (f64::MANTISSA_DIGITS - 1);

// The pattern of -0: the sign's bit alone, 2^63.
const SIGN: u64 = 1 << (u64::BITS - 1);

// Less half the pattern of x, this is the pattern of y with x · y² from 1.484 to 1.670.
const MAGIC: u64 = 0x5feb_e000_0000_0000;

// The weight of the upper part of the root's 53 digits: 2^26.
const HALF: u64 = 1 << 26;

// The bound of what 26 zeros can follow in 63 digits: 2^37.
const ROOM: u64 = 1 << 37;

// A guess in floats at x's root: the root, or one above or below it in the last digit. Nothing is
// claimed of it: `is_root` and `nearest_root` test it. w is x · y², z = y · w^(−1/2) nears 1 / sqrt(x)
// by a polynomial of degree 5 in w, to 3 parts in 10^10, and r = x · z nears the root by one step of
// Newton's.
fn guess(x: f64, bits: u64) -> f64
    requires { bits < 2047 * 2 ^ 52 }
{
    let y = f64::from_bits(MAGIC - bits / 2);
    let w = x * y * y;
    let v = w * w;
    let low = y * (2.1573255930123936 - 2.2829490008516924 * w);
    let middle = y * v * (1.738835389907407 - 0.78806270621754 * w);
    let high = y * (v * v) * (0.194386496374889 - 0.020168578408001552 * w);
    let z = low + middle + high;
    let r = x * z;
    r + 0.5 * r * (1.0 - r * z)
}

// The digits whose root is taken.
#[derive(Clone, Copy)]
struct Operand {
    digits: u64,
    ghost below: { digits < 2 ^ 54 },
}

impl Operand {
    // At an even exponent m, twice m at an odd one.
    fn of(g: u64, m: u64) -> Operand
        requires { m < 2 ^ 53 }
        ensures { result.digits ≡ m * 2 ^ (g % 2) }
    {
        let digits = if g % 2 == 0 { m } else { 2 * m };
        Operand { digits }
    }

    // The whole part of the root of the digits followed by 54 zeros. Each turn brings down two digits
    // of them and settles one of the root: it is 1 where 4 · root + 1 is within the remainder.
    fn digit_root(self) -> u64
        ensures { result ≡ whole_root 54 (self.digits * 2 ^ 54) }
    {
        let mut rest = self.digits;
        let mut remainder: u64 = 0;
        let mut root: u64 = 0;
        for _ in 0..54u64 {
            remainder = remainder * 4 + rest / LEADING;
            rest = rest % LEADING * 4;
            let trial = 4 * root + 1;
            root *= 2;
            if trial <= remainder {
                remainder -= trial;
                root += 1;
            }
        }
        root
    }

    // The whole number nearest to the root of the digits followed by 52 zeros: of 54 digits the last rounds.
    fn digits_rounded(self) -> u64
        ensures { result ≡ (whole_root 54 (self.digits * 2 ^ 54) + 1) / 2 }
    {
        (self.digit_root() + 1) / 2
    }

    // What the square of q leaves of the digits followed by 52 zeros; none where it is above that or
    // leaves much. q is a · 2^26 + b, and a², 2ab and b² are taken off in turn.
    fn remainder(self, q: u64) -> Option<u64>
        requires { q < 2 ^ 53 }
        ensures { IfSome result (λ rest. q * q + rest ≡ self.digits * 2 ^ 52) }
    {
        let a = q / HALF;
        let b = q % HALF;
        // `checked_sub` with `?` in place of these tests takes 1.07 times as long
        let high = a * a;
        if self.digits < high {
            return None;
        }
        let first = self.digits - high;
        if ROOM <= first {
            return None;
        }
        let cross = 2 * a * b;
        if first * HALF < cross {
            return None;
        }
        let second = first * HALF - cross;
        if ROOM <= second {
            return None;
        }
        let low = b * b;
        if second * HALF < low {
            return None;
        }
        Some(second * HALF - low)
    }

    // `digits_rounded` from a guess, where that is one to three below it. The square of what lies half way
    // between q + k and the next is q² + (2k + 1) q + k (k + 1) and a quarter.
    fn nearest_root(self, q: u64) -> u64
        ensures { result ≡ (whole_root 54 (self.digits * 2 ^ 54) + 1) / 2 }
    {
        if 2 * LEADING <= q {
            return self.digits_rounded();
        }
        let Some(rest) = self.remainder(q) else {
            return self.digits_rounded();
        };
        if rest <= q {
            return self.digits_rounded();
        }
        if 7 * q + 12 < rest {
            return self.digits_rounded();
        }
        q + 1 + u64::from(3 * q + 2 < rest) + u64::from(5 * q + 6 < rest)
    }
}

// Whether `pattern` is that of the root of m · 2^(g − 2098); nothing is claimed of a no. Its digits
// are q + 1, which is nearest to the root where what q² leaves is above q and at most 3q + 2.
fn is_root(g: u64, m: u64, pattern: u64) -> bool
    requires { (2 ≤ g) × (g < 4096) × (m < 2 ^ 53) }
    ensures { result ≡ true → root_pattern g m ≡ pattern }
{
    let operand = Operand::of(g, m);
    let base = (g / 2 - 1) * LEADING;
    let q = pattern.wrapping_sub(base + 1);
    if 2 * LEADING <= q {
        return false;
    }
    let Some(rest) = operand.remainder(q) else {
        return false;
    };
    (q < rest) & (rest <= 3 * q + 2)
}

// The pattern of the root of m · 2^(g − 2098), from a guess at it: half the exponent, and the whole
// number nearest to the root of the digits.
fn root_pattern(g: u64, m: u64, guessed: u64) -> u64
    requires { (2 ≤ g) × (g < 4096) × (m < 2 ^ 53) }
    ensures { result ≡ root_pattern g m }
{
    let operand = Operand::of(g, m);
    let base = (g / 2 - 1) * LEADING;
    let q = guessed.wrapping_sub(base);
    base + operand.nearest_root(q)
}

// The digits of a subnormal are moved up to 53 first; nothing is guessed.
fn root_of_subnormal(digits: u64) -> u64
    requires { (0 < digits) × (digits < 2 ^ 52) }
    ensures { result ≡ root_of 0 digits }
{
    let z = digits.leading_zeros() - 11;
    root_pattern(1024 - u64::from(z), digits << z, 0)
}

fn root_of_ordinary(field: u64, digits: u64, guessed: u64) -> u64
    requires { (0 < field) × (field < 2047) × (digits < 2 ^ 52) }
    ensures { result ≡ root_of field digits }
{
    root_pattern(1023 + field, LEADING + digits, guessed)
}

// The double nearest to the square root of x: zeros and +infinity return themselves, NaN and
// negatives give NaN. A NaN (the sort `blank`) has no pattern to sort by, so it leaves first.
pub fn sqrt(x: f64) -> f64
    ensures { result ≡ root x }
{
    if x.is_nan() {
        return x;
    }
    let bits = x.to_bits();
    if SIGN < bits {
        return f64::NAN;
    }
    let field = bits / LEADING % 2048;
    let digits = bits % LEADING;
    match field {
        // zero, then subnormal
        0 => {
            if digits == 0 {
                return x;
            }
            f64::from_bits(root_of_subnormal(digits))
        }
        // ordinary
        1..=2046 => {
            let s = guess(x, bits);
            if s.is_nan() {
                return f64::from_bits(root_of_ordinary(field, digits, 0));
            }
            let pattern = s.to_bits();
            if is_root(1023 + field, LEADING + digits, pattern) {
                // as it is: a processor can go on with it before the test is done
                return s;
            }
            // `nearest_root` wants a guess one to three below
            f64::from_bits(root_of_ordinary(field, digits, pattern.wrapping_sub(2)))
        }
        // infinite
        _ => x,
    }
}
