// Replays a fixed list of inputs and answers (src/tables.rt): each function has to answer as the Rust did, bit for bit, where any NaN
// counts as any other. Prints for each function how many of its rows agree.
#![tactic(auto)]

mod rows;
mod tables;

use rows::{is, number, point};
use std::io;

// Writes a function's line, and answers whether all rows agree.
fn replay<R, F: Fn(&R) -> bool>(
    rt: &impl Print,
    name: &str,
    rows: &[R],
    agrees: F,
) -> io::Result<bool>
    requires { F.IsAlwaysCallable agrees }
{
    let all = rows.len();
    let agree = rows::agreeing(rows, agrees);
    println!(rt; "{name} {agree} of {all}")?;
    Ok(agree == all)
}

// A count is a pattern by `as`: no `From` makes a u64 of a usize.
fn replay_numbers(rt: &impl Print) -> io::Result<bool> {
    let mut all = replay(rt, "sqrt", &tables::SQRT, |&[x, y]: &[u64; 2]| {
        is(root::sqrt(number(x)), y)
    })?;
    all &= replay(rt, "abs", &tables::ABS, |&[x, y]: &[u64; 2]| {
        is(binary64::abs(number(x)), y)
    })?;
    all &= replay(rt, "clamp", &tables::CLAMP, |&[x, y]: &[u64; 2]| {
        is(binary64::clamp(number(x)), y)
    })?;
    all &= replay(rt, "at_least", &tables::AT_LEAST, |&[x, y]: &[u64; 2]| {
        is(binary64::at_least(1e-24, number(x)), y)
    })?;
    all &= replay(
        rt,
        "ceil_count",
        &tables::CEIL_COUNT,
        |&[x, y]: &[u64; 2]| { binary64::ceil_count(number(x)) as u64 == y },
    )?;
    Ok(all)
}

fn replay_plane(rt: &impl Print) -> io::Result<bool> {
    let mut all = replay(rt, "dot", &tables::DOT, |&[px, py, qx, qy, y]: &[u64; 5]| {
        is(point(px, py).dot(point(qx, qy)), y)
    })?;
    all &= replay(
        rt,
        "length_squared",
        &tables::LENGTH_SQUARED,
        |&[px, py, y]: &[u64; 3]| { is(point(px, py).length_squared(), y) },
    )?;
    all &= replay(
        rt,
        "sign",
        &tables::SIGN,
        |&[px, py, ax, ay, bx, by, y]: &[u64; 7]| {
            is(plane::sign(point(px, py), point(ax, ay), point(bx, by)), y)
        },
    )?;
    all &= replay(
        rt,
        "point_in_triangle",
        &tables::POINT_IN_TRIANGLE,
        rows::point_in_triangle_agrees,
    )?;
    Ok(all)
}

fn replay_rays_and_weights(rt: &impl Print) -> io::Result<bool> {
    let mut all = replay(
        rt,
        "get_ray_line_intersection",
        &tables::GET_RAY_LINE_INTERSECTION,
        rows::ray_agrees,
    )?;
    all &= replay(
        rt,
        "get_barycentric_weights",
        &tables::GET_BARYCENTRIC_WEIGHTS,
        rows::weights_agree,
    )?;
    all &= replay(
        rt,
        "barycentric_interpolate",
        &tables::BARYCENTRIC_INTERPOLATE,
        rows::interpolate_agrees,
    )?;
    Ok(all)
}

fn main(rt: HostRuntime) -> io::Result<()> {
    let numbers = replay_numbers(&rt)?;
    let plane = replay_plane(&rt)?;
    let rays_and_weights = replay_rays_and_weights(&rt)?;
    if numbers && plane && rays_and_weights {
        println!(rt; "all agree")
    } else {
        println!(rt; "some differ")
    }
}
