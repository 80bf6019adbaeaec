// Assembly of the matrix and the right side. Both buffers are lent whole, so a mesh stands in them by its counts and places.
#![tactic(auto)]

ghost use Rattle.std.specs.Prelude.{◌≡◌, length, replicate};
ghost use Rattle.laplace.specs.Mesh.{held_value};
ghost use Rattle.laplace.specs.Assembly as Assembly;
ghost use Rattle.laplace.specs.Elements.{pushes_of};
ghost use Rattle.laplace.specs.Laid.{LaidFloats, LaidWords};
ghost use Rattle.laplace.specs.Row.{tags_in};
ghost use Rattle.laplace.specs.Rows as Rows;
ghost use Rattle.laplace.specs.Whole as Whole;
ghost use Rattle.assembly.specs.Fields.{Fits, PutsMatrix, Clears, Lengths, Filled};

use laplace::Places;
use laplace::corners::link;
use laplace::element::Elements;
use right::right_side;
use rows::matrix::Builder;
use rows::row::{Corners, Row};

// The matrix of a mesh, into an empty one, and its right side; a row to build in, and heads and links, are lent.
// What is lent and what is written are parameters: `fill_slices`, which alone calls it, has the slices as parameters itself, and heads and links become a `Corners` only once they are written.
fn fill(
    matrix: &mut Builder,
    right: &mut [f64],
    row: &mut Row,
    heads: &mut [u32],
    links: &mut [u32],
    mesh: &Elements,
)
    requires { Fits mesh.now matrix.old right.old row.old heads.old links.old }
    ensures put { PutsMatrix matrix.old matrix.new (Rows.room_of mesh.now) (Rows.rows_of mesh.now (length mesh.now.tags.now)) }
    ensures side { right.new ≡ Assembly.right_side held_value mesh.now.tags.now (pushes_of mesh.now) (length mesh.now.tags.now) }
    ensures row { Clears row.old row.new (length mesh.now.tags.now) }
    ensures corners { (heads.new ≡ replicate (length mesh.now.tags.now) 0) × (links.new ≡ replicate (length mesh.now.triangles.now) 0) }
{
    row.values.fill(0.0);
    row.cols.fill(0);
    matrix.values.fill(0.0);
    matrix.cols.fill(0);
    link(mesh.triangles, heads, links);
    let corners = Corners {
        mesh: *mesh,
        heads,
        links,
    };
    matrix.fill(row, &corners);
    heads.fill(0);
    links.fill(0);
    right_side(right, mesh);
}

// The same into slices, each a parameter: where a struct takes parts of a buffer that is split, the proof loses what they hold at the end. Answers how many entries the matrix has.
fn fill_slices(
    mesh: &Elements,
    right: &mut [f64],
    row: &mut [f64],
    values: &mut [f64],
    starts: &mut [u32],
    cols: &mut [u32],
    heads: &mut [u32],
    links: &mut [u32],
    rowcols: &mut [u32],
) -> usize
    requires { Lengths mesh.now (length right.old) (length row.old) (length values.old) (length starts.old) (length cols.old) (length heads.old) (length links.old) (length rowcols.old) }
    ensures { Filled mesh.now.flat mesh.now.vertices.now mesh.now.triangles.now mesh.now.tags.now starts.old right.new row.new values.new starts.new cols.new heads.new links.new rowcols.new result }
{
    let mut matrix = Builder {
        starts,
        cols,
        values,
        count: 0,
    };
    let mut row = Row {
        values: row,
        cols: rowcols,
        count: 0,
    };
    fill(&mut matrix, right, &mut row, heads, links, mesh);
    matrix.count
}

// The matrix and the right side of the mesh that stands in the buffers; a triangle is skipped where twice its area is below `flat` in magnitude. Answers how many entries the matrix has.
// `n` and `t` stand beside `at` and not in it, since the definition of a list takes the count that it needs alone (`tags_in`, `corners_in`).
pub fn assemble(
    floats: &mut [f64],
    words: &mut [u32],
    n: usize,
    t: usize,
    at: Places,
    flat: f64,
) -> usize
    requires { LaidFloats floats.old n t at × LaidWords words.old n t at }
    ensures { Whole.Assembled floats.old words.old floats.new words.new n t at result
        (Whole.rows_for flat floats.old words.old n t at n)
        (Assembly.right_side held_value (tags_in words.old n at) (Whole.pushes_in flat floats.old words.old n t at) n) }
{
    let room = 9 * t + n;
    let (front, floats) = floats.split_at_mut(at.right);
    let (right, floats) = floats.split_at_mut(at.row - at.right);
    let (row, values) = floats.split_at_mut(at.values - at.row);
    let (mesh_words, words) = words.split_at_mut(at.starts);
    let (starts, words) = words.split_at_mut(at.cols - at.starts);
    let (cols, words) = words.split_at_mut(at.heads - at.cols);
    let (heads, words) = words.split_at_mut(at.links - at.heads);
    let (links, rowcols) = words.split_at_mut(at.rowcols - at.links);
    let mesh = Elements {
        vertices: &front[at.vertices..at.vertices + 2 * n],
        triangles: &mesh_words[at.triangles..at.triangles + 3 * t],
        tags: &mesh_words[at.tags..at.tags + n],
        flat,
    };
    fill_slices(
        &mesh,
        &mut right[..n],
        &mut row[..n],
        &mut values[..room],
        &mut starts[..n + 1],
        &mut cols[..room],
        &mut heads[..n],
        &mut links[..3 * t],
        &mut rowcols[..n],
    )
}
