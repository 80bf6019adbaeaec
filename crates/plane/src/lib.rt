// Points of the plane and the predicates under the spiral, each operation in the order in which the Rust has it.
// A triangle's corners, its values and an edge's ends are parameters of their own: the definitions name each number, and an array would be indexed in each clause.
#![tactic(auto)]

ghost use Rattle.std.specs.Prelude.{◌≡◌};
ghost use Rattle.plane.specs.Plane as Plane;

use std::ops::Sub;

#[derive(Clone, Copy)]
pub struct Point {
    pub x: f64,
    pub y: f64,
}

// The weights of a triangle's three corners.
#[derive(Clone, Copy)]
pub struct Weights {
    pub r: f64,
    pub s: f64,
    pub t: f64,
}

impl Sub for Point {
    type Output = Point;

    ghost sub_gives = { λ p q r. r ≡ Plane.minus p q };

    fn sub(self, q: Point) -> Point {
        Point {
            x: self.x - q.x,
            y: self.y - q.y,
        }
    }
}

impl Point {
    pub fn dot(self, q: Point) -> f64
        ensures { result ≡ Plane.dot_of self q }
    {
        self.x * q.x + self.y * q.y
    }

    pub fn length_squared(self) -> f64
        ensures { result ≡ Plane.length_squared self }
    {
        self.dot(self)
    }
}

// Twice the signed area of p, a, b.
pub fn sign(p: Point, a: Point, b: Point) -> f64
    ensures { result ≡ Plane.sign_of p a b }
{
    (p.x - b.x) * (a.y - b.y) - (a.x - b.x) * (p.y - b.y)
}

// p is not strictly on both sides of the triangle's edges.
pub fn point_in_triangle(p: Point, a: Point, b: Point, c: Point) -> bool
    ensures { result ≡ Plane.point_in_triangle p a b c }
{
    let signs = [sign(p, a, b), sign(p, b, c), sign(p, c, a)];
    let has_negative = signs.iter().any(|d| *d < 0.0);
    let has_positive = signs.iter().any(|d| *d > 0.0);
    !(has_negative && has_positive)
}

// The point, if its projection lies on the segment from a along e, whose squared length is len2.
fn on_segment(at: Point, len2: f64, e: Point, a: Point) -> Option<Point>
    ensures { result ≡ Plane.on_segment at len2 e a }
{
    let d = (at - a).dot(e);
    // strictly between the ends the quotient is from 0 to 1
    if (0.0 < d) & (d < len2) {
        return Some(at);
    }
    let proj = d / len2;
    if -1e-12 <= proj && proj <= 1.0 + 1e-12 {
        return Some(at);
    }
    None
}

// The point at t along the ray, if it lies ahead and on the segment.
fn along_ray(origin: Point, dir: Point, t: f64, len2: f64, e: Point, a: Point) -> Option<Point>
    ensures { result ≡ Plane.along_ray origin dir t len2 e a }
{
    if t <= 1e-12 {
        return None;
    }
    let at = Point {
        x: origin.x + t * dir.x,
        y: origin.y + t * dir.y,
    };
    on_segment(at, len2, e, a)
}

// Where the ray from `origin` along `dir` meets the segment from a to b.
pub fn get_ray_line_intersection(origin: Point, dir: Point, a: Point, b: Point) -> Option<Point>
    ensures { result ≡ Plane.ray_line_intersection origin dir a b }
{
    let e = b - a;
    let len2 = e.length_squared();
    if len2 < 1e-24 {
        return None;
    }
    let normal = Point { x: e.y, y: -e.x };
    let ndotd = normal.dot(dir);
    if binary64::abs(ndotd) < 1e-24 {
        return None;
    }
    let t = normal.dot(a - origin) / ndotd;
    along_ray(origin, dir, t, len2, e, a)
}

// The barycentric weights of p, unclamped; all +0 where the triangle is flat.
pub fn get_barycentric_weights(p: Point, va: Point, vb: Point, vc: Point) -> Weights
    ensures { result ≡ Plane.barycentric_weights p va vb vc }
{
    let v0 = vc - va;
    let v1 = vb - va;
    let v2 = p - va;
    let d00 = v0.length_squared();
    let d01 = v0.dot(v1);
    let d11 = v1.length_squared();
    let d20 = v2.dot(v0);
    let d21 = v2.dot(v1);
    let denom = d00 * d11 - d01 * d01;
    if binary64::abs(denom) < 1e-24 {
        return Weights {
            r: 0.0,
            s: 0.0,
            t: 0.0,
        };
    }
    let inv = 1.0 / denom;
    let s = (d00 * d21 - d01 * d20) * inv;
    let t = (d11 * d20 - d01 * d21) * inv;
    Weights {
        r: 1.0 - s - t,
        s,
        t,
    }
}

// The value at p of the field that is ua, ub, uc at the corners.
pub fn barycentric_interpolate(
    p: Point,
    va: Point,
    vb: Point,
    vc: Point,
    ua: f64,
    ub: f64,
    uc: f64,
) -> f64
    ensures { result ≡ Plane.interpolated p va vb vc ua ub uc }
{
    let w = get_barycentric_weights(p, va, vb, vc);
    let sum = w.r + w.s + w.t;
    if binary64::abs(sum) < 1e-24 {
        return (ua + ub + uc) / 3.0;
    }
    let r = binary64::clamp(w.r);
    let s = binary64::clamp(w.s);
    let t = binary64::clamp(w.t);
    (r * ua + s * ub + t * uc) / binary64::at_least(1e-24, r + s + t)
}
