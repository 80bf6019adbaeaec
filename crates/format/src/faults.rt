// What refuses a single number, by document 01's table. A u32 becomes a usize by `as`: there is no `From` for the two, and `try_from` would have a refusal that cannot come.
ghost use Rattle.std.specs.Prelude.{◌≡◌};
ghost use Rattle.std.specs.Float.{binary64};
ghost use Rattle.std.specs.Float.Ieee.{is_nan, of_bits};
ghost use Rattle.binary64.specs.Number.{pick};
ghost use Rattle.refusal.specs.Refusal.{fault};
ghost use Rattle.format.specs.Setting.{number_read};
ghost use Rattle.format.specs.Refusal.{finite, positive, real_fault, coordinate_fault, whole_fault, vertex_fault, neighbour_fault, tag_fault};
ghost use Rattle.format.specs.Tries.{Tries};
ghost use Rattle.std.specs.Fn.{FnReturnsAt};

use refusal::Refusal;
use std::num::f64_from_bits_with_nan;
// The pattern of a number; of a NaN, that of the quiet one.
pub use std::num::f64_to_bits_with_nan as pattern;

pub fn vertex_fault(x: u32, n: usize) -> Result<(), Refusal>
    ensures { fault result ≡ vertex_fault n x }
{
    if (x as usize) < n {
        Ok(())
    } else {
        Err(Refusal::OutsideSet)
    }
}

// −1, or the number of a triangle, which is tested as a vertex's is.
pub fn neighbour_fault(x: u32, t: usize) -> Result<(), Refusal>
    ensures { fault result ≡ neighbour_fault t x }
{
    if x == crate::NO_NEIGHBOUR {
        return Ok(());
    }
    vertex_fault(x, t)
}

pub fn tag_fault(x: u8) -> Result<(), Refusal>
    ensures { fault result ≡ tag_fault x }
{
    if x <= crate::MAX_TAG {
        Ok(())
    } else {
        Err(Refusal::OutsideSet)
    }
}

pub fn whole_fault(low: u64, high: u64, v: u64) -> Result<(), Refusal>
    ensures { fault result ≡ whole_fault low high v }
{
    if low <= v && v <= high {
        Ok(())
    } else {
        Err(Refusal::OutOfRange)
    }
}

// A NaN is refused first, and then a number that is not as it should be. `good` is the answer of the test, which a NaN fails too: a closure would say no more.
fn real_fault(x: f64, good: bool) -> Result<(), Refusal>
    ensures { fault result ≡ pick (is_nan x) 6 (pick good 0 7) }
{
    match (x.is_nan(), good) {
        (true, _) => Err(Refusal::NotANumber),
        (false, true) => Ok(()),
        (false, false) => Err(Refusal::OutOfRange),
    }
}

#[tactic(auto, unfolding(crate::specs::Refusal::coordinate))]
pub fn coordinate_fault(x: f64) -> Result<(), Refusal>
    ensures { fault result ≡ coordinate_fault x }
{
    real_fault(x, -1048576.0 <= x && x <= 1048576.0)
}

// Finite, as a tolerance has to be.
pub fn finite_fault(x: f64) -> Result<(), Refusal>
    ensures { fault result ≡ real_fault finite x }
{
    real_fault(x, x.is_finite())
}

// Finite and above 0, as a step has to be.
pub fn step_fault(x: f64) -> Result<(), Refusal>
    ensures { fault result ≡ real_fault positive x }
{
    real_fault(x, x.is_finite() && 0.0 < x)
}

// The number of a pattern: a NaN's is refused.
pub fn number_of(bits: u64) -> Result<f64, Refusal>
    ensures { result ≡ number_read bits }
{
    let x = f64_from_bits_with_nan(bits);
    if x.is_nan() {
        return Err(Refusal::NotANumber);
    }
    Ok(x)
}

// A coordinate by its pattern.
pub fn pattern_fault(bits: u64) -> Result<(), Refusal>
    ensures { fault result ≡ coordinate_fault (of_bits binary64 bits) }
{
    coordinate_fault(number_of(bits)?)
}

// The first refusal among a list's elements, each in turn.
pub fn each<T, F: Fn(&T) -> Result<(), Refusal>>(xs: &[T], test: F) -> Result<(), Refusal>
    requires { F.IsAlwaysCallable test }
    ensures { Tries (FnReturnsAt F.Fn test) xs.now result }
{
    for x in xs {
        test(x)?;
    }
    Ok(())
}
