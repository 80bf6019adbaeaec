// The library that a controller links: the sheet and the run under C names, as include/cintrok.h declares them. A run's record is two lists of numbers (crate records), settings and a sheet's head are lists of numbers (crate heads).
// Each function is one call; what it does is proved in the crates below. The C interface is why they answer a refusal's number, take lists of numbers, three buffers and an index beside a slice, and stand one for each name where they differ in a call alone.
#![tactic(auto)]

ghost use Rattle.std.specs.Prelude.{◌≡◌, get_or, set};
ghost use Rattle.sheet.specs.Items.{vertex_in, whole_in, corners_in};
ghost use Rattle.model.specs.Machine as Machine;
ghost use Rattle.image.specs.Calls.{buffers};
ghost use Rattle.image.specs.Parts.{field_of, norms_of, gradients_of};
ghost use Rattle.image.specs.Points.{points_of};
ghost use Rattle.showing.specs.declared.parts.Shown.TheVariants.{Field, Norms, Gradients};
ghost use Rattle.records.specs.Numbers.{listed, run_from, whole};
ghost use Rattle.heads.specs.Heads as Heads;
ghost use Rattle.controls.specs.Controls as Controls;

use image::Call;
use records::lists::Lists;
use showing::Shown;

// ---- the sheet

#[unsafe(no_mangle)]
pub extern "C" fn cintrok_raw_check(
    sheet: &[u8],
    head: &mut [u64],
    wholes: &mut [u64],
    reals: &mut [f64],
) -> u32
    ensures { Heads.Checks sheet.now head.old (listed wholes.old reals.old) result head.new (listed wholes.new reals.new) }
{
    refusal::number(heads::check(sheet, head, wholes, reals))
}

#[unsafe(no_mangle)]
pub extern "C" fn cintrok_raw_vertex(items: &[u8], i: usize, out: &mut [f64])
    ensures { out.new ≡ set (set out.old 0 (vertex_in items.now i).x) 1 (vertex_in items.now i).y }
{
    heads::items::vertex(items, i, out);
}

#[unsafe(no_mangle)]
pub extern "C" fn cintrok_raw_corners(items: &[u8], i: usize, out: &mut [u32])
    ensures { out.new ≡ set (set (set out.old 0 (corners_in items.now i).a) 1 (corners_in items.now i).b) 2 (corners_in items.now i).c }
{
    heads::items::corners(items, i, out);
}

#[unsafe(no_mangle)]
pub extern "C" fn cintrok_raw_neighbour(items: &[u8], i: usize) -> u32
    ensures { result ≡ whole_in items.now i }
{
    sheet::items::neighbour(items, i)
}

#[unsafe(no_mangle)]
pub extern "C" fn cintrok_raw_tag(items: &[u8], i: usize) -> u32
    ensures { result ≡ get_or items.now i 0 }
{
    u32::from(sheet::items::tag(items, i))
}

#[unsafe(no_mangle)]
pub extern "C" fn cintrok_raw_write_sheet(
    vertices: &[f64],
    triangles: &[u32],
    neighbours: &[u32],
    tags: &[u8],
    wholes: &[u64],
    reals: &[f64],
    out: &mut [u8],
    written: &mut [u64],
) -> u32
    ensures { Heads.WritesFrom vertices.now triangles.now neighbours.now tags.now (listed wholes.now reals.now) out.old written.old result out.new written.new }
{
    refusal::number(heads::write(
        vertices,
        triangles,
        neighbours,
        tags,
        &Lists { wholes, reals },
        out,
        written,
    ))
}

// ---- the run

#[unsafe(no_mangle)]
pub extern "C" fn cintrok_raw_open(
    sheet: &[u8],
    floats: &mut [f64],
    words: &mut [u32],
    path: &mut [f64],
    wholes: &mut [u64],
    reals: &mut [f64],
) -> u32
    ensures { Controls.OpenedIn sheet.now (listed wholes.old reals.old) (buffers floats.old words.old path.old) result (listed wholes.new reals.new) (buffers floats.new words.new path.new) }
{
    refusal::number(controls::open(sheet, floats, words, path, wholes, reals))
}

#[unsafe(no_mangle)]
pub extern "C" fn cintrok_raw_advance(
    k: u32,
    floats: &mut [f64],
    words: &[u32],
    path: &mut [f64],
    wholes: &mut [u64],
    reals: &mut [f64],
) -> u32
    ensures { Controls.Called (Machine.advance k) (listed wholes.old reals.old) (buffers floats.old words.now path.old) result (listed wholes.new reals.new) (buffers floats.new words.now path.new) }
{
    refusal::number(controls::call(Call::Advance(k), floats, words, path, wholes, reals))
}

#[unsafe(no_mangle)]
pub extern "C" fn cintrok_raw_back(
    k: u32,
    floats: &mut [f64],
    words: &[u32],
    path: &mut [f64],
    wholes: &mut [u64],
    reals: &mut [f64],
) -> u32
    ensures { Controls.Called (Machine.back k) (listed wholes.old reals.old) (buffers floats.old words.now path.old) result (listed wholes.new reals.new) (buffers floats.new words.now path.new) }
{
    refusal::number(controls::call(Call::Back(k), floats, words, path, wholes, reals))
}

#[unsafe(no_mangle)]
pub extern "C" fn cintrok_raw_mark(
    floats: &mut [f64],
    words: &[u32],
    path: &mut [f64],
    wholes: &mut [u64],
    reals: &mut [f64],
) -> u32
    ensures { Controls.Called Machine.mark (listed wholes.old reals.old) (buffers floats.old words.now path.old) result (listed wholes.new reals.new) (buffers floats.new words.now path.new) }
{
    refusal::number(controls::call(Call::Mark, floats, words, path, wholes, reals))
}

#[unsafe(no_mangle)]
pub extern "C" fn cintrok_raw_return(
    floats: &mut [f64],
    words: &[u32],
    path: &mut [f64],
    wholes: &mut [u64],
    reals: &mut [f64],
) -> u32
    ensures { Controls.Called Machine.return (listed wholes.old reals.old) (buffers floats.old words.now path.old) result (listed wholes.new reals.new) (buffers floats.new words.now path.new) }
{
    refusal::number(controls::call(Call::Return, floats, words, path, wholes, reals))
}

#[unsafe(no_mangle)]
pub extern "C" fn cintrok_raw_length(
    floats: &[f64],
    words: &[u32],
    path: &[f64],
    wholes: &[u64],
    reals: &[f64],
    out: &mut [f64],
) -> u32
    ensures { Controls.Measured (listed wholes.now reals.now) (buffers floats.now words.now path.now) out.old result out.new }
{
    refusal::number(controls::length(floats, words, path, &Lists { wholes, reals }, out))
}

// ---- what a run shows

#[unsafe(no_mangle)]
pub extern "C" fn cintrok_raw_place(wholes: &[u64]) -> u64
    ensures { result ≡ whole wholes.now 5 }
{
    records::lists::get_or(wholes, 5, 0)
}

#[unsafe(no_mangle)]
pub extern "C" fn cintrok_raw_passes(wholes: &[u64]) -> u64
    ensures { result ≡ whole wholes.now 16 }
{
    records::lists::get_or(wholes, 16, 0)
}

#[unsafe(no_mangle)]
pub extern "C" fn cintrok_raw_field_end(wholes: &[u64]) -> u64
    ensures { result ≡ whole wholes.now 7 }
{
    records::lists::get_or(wholes, 7, 0)
}

#[unsafe(no_mangle)]
pub extern "C" fn cintrok_raw_path_end(wholes: &[u64]) -> u64
    ensures { result ≡ whole wholes.now 11 }
{
    records::lists::get_or(wholes, 11, 0)
}

#[unsafe(no_mangle)]
pub extern "C" fn cintrok_raw_field(
    floats: &[f64],
    wholes: &[u64],
    reals: &[f64],
    out: &mut [u64],
) -> u32
    ensures { Controls.Handed (Controls.shown_at Field (run_from (listed wholes.now reals.now))) (field_of (run_from (listed wholes.now reals.now)) floats.now) (listed wholes.now reals.now) out.old result out.new }
{
    refusal::number(controls::show(Shown::Field, floats, &Lists { wholes, reals }, out))
}

#[unsafe(no_mangle)]
pub extern "C" fn cintrok_raw_norms(
    floats: &[f64],
    wholes: &[u64],
    reals: &[f64],
    out: &mut [u64],
) -> u32
    ensures { Controls.Handed (Controls.shown_at Norms (run_from (listed wholes.now reals.now))) (norms_of (run_from (listed wholes.now reals.now)) floats.now) (listed wholes.now reals.now) out.old result out.new }
{
    refusal::number(controls::show(Shown::Norms, floats, &Lists { wholes, reals }, out))
}

#[unsafe(no_mangle)]
pub extern "C" fn cintrok_raw_gradients(
    floats: &[f64],
    wholes: &[u64],
    reals: &[f64],
    out: &mut [u64],
) -> u32
    ensures { Controls.Handed (Controls.shown_at Gradients (run_from (listed wholes.now reals.now))) (gradients_of (run_from (listed wholes.now reals.now)) floats.now) (listed wholes.now reals.now) out.old result out.new }
{
    refusal::number(controls::show(Shown::Gradients, floats, &Lists { wholes, reals }, out))
}

#[unsafe(no_mangle)]
pub extern "C" fn cintrok_raw_points(
    path: &[f64],
    wholes: &[u64],
    reals: &[f64],
    out: &mut [u64],
) -> u32
    ensures { Controls.Handed 0 (points_of (run_from (listed wholes.now reals.now)) path.now) (listed wholes.now reals.now) out.old result out.new }
{
    refusal::number(controls::points(path, &Lists { wholes, reals }, out))
}

#[unsafe(no_mangle)]
pub extern "C" fn cintrok_raw_space_needed(
    n: u64,
    t: u64,
    limit: u64,
    room: u64,
    out: &mut [u64],
) -> u32
    ensures { Controls.Needed n t limit room out.old result out.new }
{
    refusal::number(controls::space_needed(n, t, limit, room, out))
}
