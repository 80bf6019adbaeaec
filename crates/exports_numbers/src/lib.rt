// The library's functions under C names, for programs that compare them with the Rust. The C interface is why a point comes as its two numbers, why numbers are put into places of which there may be too few, which is tested first,
// why an answer is a number, and why one function stands for each name.
#![tactic(auto)]

ghost use Rattle.std.specs.Prelude.{◌≡◌};
ghost use Rattle.binary64.specs.Root.{root};
ghost use Rattle.binary64.specs.Number.{abs_of, clamp_of, at_least, ceil_count};
ghost use Rattle.plane.specs.Plane.{point, dot_of, length_squared, sign_of, point_in_triangle, ray_line_intersection, barycentric_weights, interpolated};
ghost use Rattle.exports_numbers.specs.Answers.{flag, hit_number, hit_put, weights_put, Answers};

use plane::Point;

#[unsafe(no_mangle)]
pub extern "C" fn cintrok_abs(x: f64) -> f64
    ensures { result ≡ abs_of x }
{
    binary64::abs(x)
}

#[unsafe(no_mangle)]
pub extern "C" fn cintrok_clamp(x: f64) -> f64
    ensures { result ≡ clamp_of x }
{
    binary64::clamp(x)
}

#[unsafe(no_mangle)]
pub extern "C" fn cintrok_at_least(floor: f64, x: f64) -> f64
    ensures { result ≡ at_least floor x }
{
    binary64::at_least(floor, x)
}

#[unsafe(no_mangle)]
pub extern "C" fn cintrok_ceil_count(x: f64) -> usize
    ensures { result ≡ ceil_count x }
{
    binary64::ceil_count(x)
}

#[unsafe(no_mangle)]
pub extern "C" fn cintrok_dot(px: f64, py: f64, qx: f64, qy: f64) -> f64
    ensures { result ≡ dot_of (point px py) (point qx qy) }
{
    Point { x: px, y: py }.dot(Point { x: qx, y: qy })
}

#[unsafe(no_mangle)]
pub extern "C" fn cintrok_length_squared(px: f64, py: f64) -> f64
    ensures { result ≡ length_squared (point px py) }
{
    Point { x: px, y: py }.length_squared()
}

#[unsafe(no_mangle)]
pub extern "C" fn cintrok_sign(px: f64, py: f64, ax: f64, ay: f64, bx: f64, by: f64) -> f64
    ensures { result ≡ sign_of (point px py) (point ax ay) (point bx by) }
{
    plane::sign(
        Point { x: px, y: py },
        Point { x: ax, y: ay },
        Point { x: bx, y: by },
    )
}

// 1 if the triangle has p, else 0.
#[unsafe(no_mangle)]
pub extern "C" fn cintrok_point_in_triangle(
    px: f64,
    py: f64,
    ax: f64,
    ay: f64,
    bx: f64,
    by: f64,
    cx: f64,
    cy: f64,
) -> u32
    ensures { result ≡ flag (point_in_triangle (point px py) (point ax ay) (point bx by) (point cx cy)) }
{
    let p = Point { x: px, y: py };
    let a = Point { x: ax, y: ay };
    let b = Point { x: bx, y: by };
    let c = Point { x: cx, y: cy };
    u32::from(plane::point_in_triangle(p, a, b, c))
}

// 1 if the ray meets the segment, with the point's two numbers in `out`; 0 if not, and 2 if `out` has fewer than two places, with `out` as it was.
#[unsafe(no_mangle)]
pub extern "C" fn cintrok_ray(
    ox: f64,
    oy: f64,
    dx: f64,
    dy: f64,
    ax: f64,
    ay: f64,
    bx: f64,
    by: f64,
    out: &mut [f64],
) -> u32
    ensures { Answers 2 (hit_number (ray_line_intersection (point ox oy) (point dx dy) (point ax ay) (point bx by)))
        (hit_put (ray_line_intersection (point ox oy) (point dx dy) (point ax ay) (point bx by)) out.old) out.old out.new result }
{
    if out.len() < 2 {
        return 2;
    }
    let origin = Point { x: ox, y: oy };
    let dir = Point { x: dx, y: dy };
    let a = Point { x: ax, y: ay };
    let b = Point { x: bx, y: by };
    let hit = plane::get_ray_line_intersection(origin, dir, a, b);
    let Some(p) = hit else {
        return 0;
    };
    out[0] = p.x;
    out[1] = p.y;
    1
}

// 1 with the three weights in `out`; 2 if `out` has fewer than three places, with `out` as it was.
#[unsafe(no_mangle)]
pub extern "C" fn cintrok_weights(
    px: f64,
    py: f64,
    ax: f64,
    ay: f64,
    bx: f64,
    by: f64,
    cx: f64,
    cy: f64,
    out: &mut [f64],
) -> u32
    ensures { Answers 3 1 (weights_put (barycentric_weights (point px py) (point ax ay) (point bx by) (point cx cy)) out.old) out.old out.new result }
{
    if out.len() < 3 {
        return 2;
    }
    let p = Point { x: px, y: py };
    let va = Point { x: ax, y: ay };
    let vb = Point { x: bx, y: by };
    let vc = Point { x: cx, y: cy };
    let w = plane::get_barycentric_weights(p, va, vb, vc);
    out[0] = w.r;
    out[1] = w.s;
    out[2] = w.t;
    1
}

#[unsafe(no_mangle)]
pub extern "C" fn cintrok_interpolate(
    px: f64,
    py: f64,
    ax: f64,
    ay: f64,
    bx: f64,
    by: f64,
    cx: f64,
    cy: f64,
    ua: f64,
    ub: f64,
    uc: f64,
) -> f64
    ensures { result ≡ interpolated (point px py) (point ax ay) (point bx by) (point cx cy) ua ub uc }
{
    let p = Point { x: px, y: py };
    let va = Point { x: ax, y: ay };
    let vb = Point { x: bx, y: by };
    let vc = Point { x: cx, y: cy };
    plane::barycentric_interpolate(p, va, vb, vc, ua, ub, uc)
}

#[unsafe(no_mangle)]
pub extern "C" fn cintrok_sqrt(x: f64) -> f64
    ensures { result ≡ root x }
{
    root::sqrt(x)
}
