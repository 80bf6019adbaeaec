// Kernels on stretches of one lent buffer, each named by where it starts and how many places it has, since the buffers are lent whole; and the dot product of two slices.
#![tactic(auto)]

ghost use Rattle.std.specs.Prelude.{◌≡◌, ◌+◌, ◌≤◌, length, replicate};
ghost use Rattle.stretch.specs.Stretch.{part, splice};
ghost use Rattle.stretch.specs.Vec as Vec;

// v at the n places from `at`. Callers do not write `s[at..at + n].fill(v)`: their definitions say `splice`, and each would have to lead what the library says of the part to it.
pub fn fill<T: Copy>(s: &mut [T], at: usize, n: usize, v: T)
    requires { at + n ≤ length s.old }
    ensures { s.new ≡ splice s.old at (replicate n v) }
{
    // The library's `fill` clones, and of a type that is `Copy` it is not known that a clone is the value.
    s[at..at + n].fill_with(|| v);
}

// The n elements from src, copied to the n places from `at`; the two stretches may overlap.
pub fn copy<T: Copy>(s: &mut [T], src: usize, at: usize, n: usize)
    requires { (src + n ≤ length s.old) × (at + n ≤ length s.old) }
    ensures { s.new ≡ splice s.old at (part s.old src n) }
{
    s.copy_within(src..src + n, at);
}

// The dot product, summed from the left, from +0. The solver's sums are taken in the loops that make their vectors.
pub fn dot(a: &[f64], b: &[f64]) -> f64
    ensures { result ≡ Vec.dot a.now b.now }
{
    a.iter().zip(b).fold(0.0, |sum, (x, y)| sum + *x * *y)
}
