// Whether a row's function answers as the row says. A row is the patterns of the inputs, in the order of the parameters, and then of the answer.
ghost use Rattle.std.specs.Prelude.{◌<◌, ◌≤◌, length};

use plane::Point;
pub use std::num::f64_from_bits_with_nan as number;

// How many rows agree.
pub fn agreeing<R, F: Fn(&R) -> bool>(rows: &[R], agrees: F) -> usize
    requires { F.IsAlwaysCallable agrees }
    ensures { result ≤ length rows.now }
{
    rows.iter().filter(|row| agrees(row)).count()
}

// Whether a number has the pattern, with one for every NaN.
pub fn is(x: f64, expected: u64) -> bool {
    std::num::f64_to_bits_with_nan(x) == expected
}

pub fn point(x: u64, y: u64) -> Point {
    Point {
        x: number(x),
        y: number(y),
    }
}

// The four points that the rows of these functions begin with.
fn points(first: &[u64; 8]) -> [Point; 4] {
    let &[px, py, qx, qy, rx, ry, sx, sy] = first;
    [point(px, py), point(qx, qy), point(rx, ry), point(sx, sy)]
}

pub fn point_in_triangle_agrees(row: &[u64; 9]) -> bool {
    let [p, a, b, c] = points(row.first_chunk().unwrap());
    let &[.., expected] = row;
    u64::from(plane::point_in_triangle(p, a, b, c)) == expected
}

// A hit is 1 and the point's two numbers, none is 0.
pub fn ray_agrees(row: &[u64; 11]) -> bool {
    let [o, d, a, b] = points(row.first_chunk().unwrap());
    let &[.., found, x, y] = row;
    match plane::get_ray_line_intersection(o, d, a, b) {
        Some(p) => found == 1 && is(p.x, x) && is(p.y, y),
        None => found == 0,
    }
}

pub fn weights_agree(row: &[u64; 11]) -> bool {
    let [p, a, b, c] = points(row.first_chunk().unwrap());
    let &[.., r, s, t] = row;
    let w = plane::get_barycentric_weights(p, a, b, c);
    is(w.r, r) && is(w.s, s) && is(w.t, t)
}

pub fn interpolate_agrees(row: &[u64; 12]) -> bool {
    let [p, a, b, c] = points(row.first_chunk().unwrap());
    let &[.., ua, ub, uc, expected] = row;
    let value = plane::barycentric_interpolate(p, a, b, c, number(ua), number(ub), number(uc));
    is(value, expected)
}
