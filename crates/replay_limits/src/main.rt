// The limits of the printing program: sheets that use their bytes or places to the last, and sheets of one more. Prints the first line of each text, and how many bytes the text has.
// Large arrays stand in functions of their own: beside one another in one function a check can run out of stack.
#![tactic(auto)]

use format::{Content, Settings};
use refusal::Refusal;
use std::io;

// How many bytes the first line has: no place here is above 9.
const LINE: usize = 9;

// The text's first line, and how many bytes it has.
fn print_front(rt: &impl Print, text: &[u8]) -> io::Result<()> {
    let Some(front) = text.get(..LINE) else {
        return Ok(());
    };
    rt.write_all(front)?;
    println!(rt; " {}", text.len())
}

// The printer answers how many of the lent bytes have the text.
fn print_lent(
    rt: &impl Print,
    sheet: &[u8],
    floats: &mut [f64; printing::FLOATS],
    words: &mut [u32; printing::WORDS],
    path: &mut [f64; printing::PATH],
    out: &mut [u8; printing::TEXT],
) -> io::Result<()> {
    let end = printing::print_sheet(sheet, floats, words, path, out);
    print_front(rt, &out[..end])
}

// On buffers of its own, as `stream` has them: one function for both would take a closure of four arrays, and the contract that `stream` owes of it.
fn print_of(rt: &impl Print, sheet: &[u8]) -> io::Result<()> {
    let mut out = [0u8; printing::TEXT];
    let mut floats = [0.0; printing::FLOATS];
    let mut words = [0u32; printing::WORDS];
    let mut path = [0.0; printing::PATH];
    print_lent(rt, sheet, &mut floats, &mut words, &mut path, &mut out)
}

// The sheet is the first `count` bytes: a number, as the writer answers it.
fn print_first(rt: &impl Print, sheet: &[u8], count: usize) -> io::Result<()> {
    match sheet.get(..count) {
        Some(front) => print_of(rt, front),
        None => Ok(()),
    }
}

// So many bytes, all the same.
fn print_same(rt: &impl Print, byte: u8, count: usize) -> io::Result<()> {
    let sheet = [byte; 65537];
    print_first(rt, &sheet, count)
}

// A step of 1, a start at (0, 0).
fn settings(limit: u64, room: u64) -> Settings {
    Settings {
        limit: Some(limit),
        tolerance: None,
        step: Some(1.0),
        x: Some(0.0),
        y: Some(0.0),
        room: Some(room),
    }
}

// The sheet of the first n vertices and tags and the first t triangles; none where they are not all there. `replay_sheets` cuts its lists too, but neighbours by a number of their own: one function for both would be a public one of `sheet`, with a contract, for two programs.
fn write(n: usize, t: usize, all: &Content, out: &mut [u8]) -> Option<Result<usize, Refusal>> {
    let content = Content {
        vertices: all.vertices.get(..n.checked_mul(2)?)?,
        triangles: all.triangles.get(..t.checked_mul(3)?)?,
        neighbours: all.neighbours.get(..t.checked_mul(3)?)?,
        tags: all.tags.get(..n)?,
        settings: all.settings,
    };
    Some(sheet::write_sheet(&content, out))
}

// A sheet of n vertices, all at (0, 0) and free, and of t triangles, all of the first vertex: the numbers of a line of `main`.
fn print_counts(rt: &impl Print, n: usize, t: usize, limit: u64, room: u64) -> io::Result<()> {
    let all = Content {
        vertices: &[0.0; 1362],
        triangles: &[0u32; 1533],
        neighbours: &[4294967295; 1533],
        tags: &[0u8; 681],
        settings: settings(limit, room),
    };
    let mut sheet = [0u8; 32768];
    let Some(written) = write(n, t, &all, &mut sheet) else {
        return Ok(());
    };
    match written {
        Ok(size) => print_first(rt, &sheet, size),
        Err(refusal) => println!(rt; "{refusal}"),
    }
}

fn main(rt: HostRuntime) -> io::Result<()> {
    // 12 n + 12 t + limit + 32 floats: 8,192, and more
    print_counts(&rt, 680, 0, 0, 1)?;
    print_counts(&rt, 680, 0, 1, 1)?;
    print_counts(&rt, 681, 0, 0, 1)?;
    print_counts(&rt, 0, 0, 8160, 1)?;
    print_counts(&rt, 0, 0, 8161, 1)?;
    // 8 n + 32 t + 32 whole numbers: 16,384, and more
    print_counts(&rt, 4, 510, 0, 1)?;
    print_counts(&rt, 5, 510, 0, 1)?;
    print_counts(&rt, 4, 511, 0, 1)?;
    // 4,096 points, and one more
    print_counts(&rt, 0, 0, 0, 4096)?;
    print_counts(&rt, 0, 0, 0, 4097)?;
    // 65,536 bytes, and one more: five counts of 0 and bytes left over; a count over its limit. The limits stand as numbers here, so that a constant that moved is seen.
    print_same(&rt, 0, 65536)?;
    print_same(&rt, 0, 65537)?;
    print_same(&rt, 255, 65536)?;
    print_same(&rt, 255, 65537)
}
