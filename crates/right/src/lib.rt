// The right side: what the held vertices push on the free ones, and their own values.
// Vertex numbers and tags are words of the lent lists; an index is widened by `as usize`, since no `From` leads from u32 to usize.
// A tag is a number, as it stands in the words; `held_at` says what a vertex with it is.
// The numbers, the tags or the mesh, and a triangle are parameters: a struct round the numbers would carry their length, and owe in each function a clause that it lends the same ones.
#![tactic(auto)]

ghost use Rattle.std.specs.Prelude.{◌≡◌, ◌<◌, length};
ghost use Rattle.laplace.specs.Mesh.{held_value};
ghost use Rattle.laplace.specs.Assembly as Assembly;
ghost use Rattle.laplace.specs.Element as Element;
ghost use Rattle.laplace.specs.Elements.{AreElements, pushes_of};
ghost use Rattle.laplace.specs.Matrix.{AllBelow};
ghost use Rattle.laplace.specs.Right as Right;

use laplace::element::{Elements, Side, Stiff, Triangle};
use mesh::{FREE, OUTER};

// The value at which a tag holds a vertex.
#[tactic(auto, unfolding(mesh::specs::Mesh::held_value))]
pub fn held_value(tag: u32) -> f64
    ensures { result ≡ held_value tag }
{
    if tag == OUTER {
        return 1.0;
    }
    0.0
}

// The same, and none where the vertex is free.
#[tactic(auto, unfolding(laplace::specs::Right::held_at))]
fn held_at(tag: u32) -> Option<f64>
    ensures { result ≡ Right.held_at tag }
{
    if tag == FREE {
        return None;
    }
    Some(held_value(tag))
}

// A push of vertex i on vertex j: where one is free and the other held, it lowers the free one's number, for one of the two places of the pair.
fn couple(right: &mut [f64], tags: &[u32], i: u32, j: u32, v: f64)
    requires { (i < length tags.now) × (j < length tags.now) × (length right.old ≡ length tags.now) }
    ensures { right.new ≡ Right.coupled_by tags.now (Assembly.push i j v) right.old }
{
    if i > j {
        return;
    }
    let p = i as usize;
    let q = j as usize;
    // Each arm by its name: an arm `_` has no fact of the two.
    match (held_at(tags[p]), held_at(tags[q])) {
        (None, Some(x)) => right[p] = right[p] - v * x,
        (Some(x), None) => right[q] = right[q] - v * x,
        (None, None) => {}
        (Some(_), Some(_)) => {}
    }
}

// The three pushes of one corner, which is vertex v.
fn couple_side(right: &mut [f64], tags: &[u32], v: u32, q: Triangle, s: Side)
    requires { (v < length tags.now) × AllBelow (length tags.now) q × (length right.old ≡ length tags.now) }
    ensures { right.new ≡ Assembly.all_coupled held_value tags.now (Right.side_pushes v q s) right.old }
{
    for (&j, &x) in q.iter().zip(&s) {
        couple(right, tags, v, j, x);
    }
}

// The nine pushes of a triangle.
fn couple_sides(right: &mut [f64], tags: &[u32], q: Triangle, s: Stiff)
    requires { AllBelow (length tags.now) q × (length right.old ≡ length tags.now) }
    ensures { right.new ≡ Assembly.all_coupled held_value tags.now (Right.stiff_pushes q (Some s)) right.old }
{
    for (corner, &v) in q.iter().enumerate() {
        couple_side(right, tags, v, q, s.side(corner));
    }
}

// Whether the corners of a triangle are free.
#[tactic(auto, using(laplace::proofs::LawsCorners::below_at))]
fn is_free(tags: &[u32], q: Triangle) -> bool
    requires { AllBelow (length tags.now) q }
    ensures { result ≡ Right.all_free tags.now q }
{
    // All three are read and compared, without a branch. No fold over the corners: its closure asks at each turn that the corner has a tag, and that was not proved (`CallableAtEachTurn`).
    let (i, j, k) = (
        tags[q[0] as usize],
        tags[q[1] as usize],
        tags[q[2] as usize],
    );
    (i == FREE) & (j == FREE) & (k == FREE)
}

// Those of the triangle q of the mesh: nothing where its corners are free, or where it is skipped.
fn couple_triangle(right: &mut [f64], mesh: &Elements, q: Triangle)
    requires { AreElements mesh.now × AllBelow (length mesh.now.tags.now) q × (length right.old ≡ length mesh.now.tags.now) }
    ensures { right.new ≡ Assembly.all_coupled held_value mesh.now.tags.now (Right.stiff_pushes q (Element.stiff_in mesh.now.flat mesh.now.vertices.now q)) right.old }
{
    if is_free(mesh.tags, q) {
        return;
    }
    if let Some(s) = mesh.stiff(q) {
        couple_sides(right, mesh.tags, q, s);
    }
}

// Those of all triangles.
fn couple_all(right: &mut [f64], mesh: &Elements)
    requires { AreElements mesh.now × (length right.old ≡ length mesh.now.tags.now) }
    ensures { right.new ≡ Assembly.all_coupled held_value mesh.now.tags.now (pushes_of mesh.now) right.old }
{
    for &q in mesh.triangles.as_chunks().0 {
        couple_triangle(right, mesh, q);
    }
}

// The number of a free vertex, and the value of a held one.
#[tactic(auto, unfolding(laplace::specs::Right::settled_value, laplace::specs::Right::held_at))]
fn settled_value(tag: u32, y: f64) -> f64
    ensures { result ≡ Right.settled_value tag y }
{
    held_at(tag).unwrap_or(y)
}

// Held vertices have their value.
fn settle(right: &mut [f64], tags: &[u32])
    requires { length right.old ≡ length tags.now }
    ensures { right.new ≡ Assembly.settled held_value tags.now right.old }
{
    // A tag by its index: of what a zip with `iter_mut` writes, only the length is known.
    for (i, value) in right.iter_mut().enumerate() {
        *value = settled_value(tags[i], *value);
    }
}

// The whole right side.
#[tactic(auto, unfolding(laplace::specs::Assembly::right_side))]
pub fn right_side(right: &mut [f64], mesh: &Elements)
    requires { AreElements mesh.now × (length right.old ≡ length mesh.now.tags.now) }
    ensures { right.new ≡ Assembly.right_side held_value mesh.now.tags.now (pushes_of mesh.now) (length mesh.now.tags.now) }
{
    right.fill(0.0);
    couple_all(right, mesh);
    settle(right, mesh.tags);
}
