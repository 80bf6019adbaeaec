// Where a ray leaves a triangle, and which edge is entered beyond.
// `t < triangle_count` stands in the contracts, as in mesh, whose lib.rt says what a struct of a mesh and a triangle came to.
ghost use Rattle.std.specs.Prelude.{◌≡◌, ◌+◌, ◌*◌, ◌<◌, length};
ghost use Rattle.mesh.specs.Mesh.{triangle_count};
ghost use Rattle.pde.specs.Exit as Exits;

use super::{Candidate, Entry, Exit, Side};
use mesh::{Edge, Mesh};
use plane::Point;

// The square of the distance of two points.
#[tactic(auto, unfolding(plane::specs::Plane::minus, plane::specs::Plane::dot_of, plane::specs::Plane::length_squared))]
fn squared(p: Point, q: Point) -> f64
    ensures { result ≡ Exits.squared p q }
{
    (q - p).length_squared()
}

#[tactic(auto, unfolding(crate::specs::Exit::distance))]
pub fn distance(p: Point, q: Point) -> f64
    ensures { result ≡ Exits.distance p q }
{
    root::sqrt(squared(p, q))
}

// The nearer of a hit on an edge, if it is farther than the least, and the best so far.
fn offered(from: Point, edge: usize, hit: Option<Point>, best: Candidate, least: f64) -> Candidate
    ensures { Exits.rooted result ≡ Exits.offered least from edge hit (Exits.rooted best) }
{
    let Some(point) = hit else {
        return best;
    };
    let square = squared(from, point);
    if distance::is_nearer(square, best.square, least) {
        return Candidate {
            square,
            exit: Some(Exit { edge, point }),
        };
    }
    best
}

// Edge e, unless it is the entry edge.
fn considered(
    mesh: &Mesh,
    entry: Entry,
    dir: Point,
    e: Edge,
    best: Candidate,
    least: f64,
) -> Candidate
    requires { entry.triangle < triangle_count mesh.now.triangles.now }
    ensures { Exits.rooted result ≡ Exits.considered least mesh.now.vertices.now mesh.now.triangles.now entry.triangle entry.point dir entry.edge e.number (Exits.rooted best) }
{
    if e.number == entry.edge {
        return best;
    }
    let a = mesh.corner_point(entry.triangle, e);
    let b = mesh.corner_point(entry.triangle, e.onward());
    let hit = plane::get_ray_line_intersection(entry.point, dir, a, b);
    offered(entry.point, e.number, hit, best, least)
}

// The nearest edge that the ray from an entry's point along `dir` meets in its triangle farther than the least, with the point and the square of how far it is.
pub fn find_exit_edge(mesh: &Mesh, entry: Entry, dir: Point, least: f64) -> Candidate
    requires { entry.triangle < triangle_count mesh.now.triangles.now }
    ensures { Exits.rooted result ≡ Exits.nearest_of least mesh.now.vertices.now mesh.now.triangles.now entry.triangle entry.point dir entry.edge 3 }
{
    let none = Candidate {
        square: f64::INFINITY,
        exit: None,
    };
    (0..3).fold(
        none,
        |best, e| considered(mesh, entry, dir, Edge::of(e), best, least),
    )
}

// The first edge of triangle t whose neighbour is `prev`, by the words: `prev` may be any number, also the one that stands for no neighbour.
// From here on a search asks for the lists that it reads, and not for a mesh, whose vertices it does not need.
pub fn entry_edge_of(neighbours: &[u32], t: usize, prev: usize) -> Option<Side>
    requires { 3 * t + 2 < length neighbours.now }
    ensures { result ≡ Exits.entry_edge neighbours.now t prev }
{
    (0..3)
        .find(|e| mesh::neighbour_word(neighbours, t, *e) as usize == prev)
        .map(|edge| Side { triangle: t, edge })
}

// Edge e of triangle t has no neighbour and joins b to a.
fn is_cut(triangles: &[u32], neighbours: &[u32], a: usize, b: usize, t: usize, e: Edge) -> bool
    requires { (length neighbours.now ≡ length triangles.now) × (t < triangle_count triangles.now) }
    ensures { result ≡ Exits.is_cut triangles.now neighbours.now a b t e.number }
{
    mesh::neighbour(neighbours, t, e.number).is_none()
        && mesh::corner(triangles, t, e.number) == b
        && mesh::corner(triangles, t, e.onward().number) == a
}

// The first edge of triangle t that has no neighbour and joins b to a.
fn cut_edge_of(triangles: &[u32], neighbours: &[u32], a: usize, b: usize, t: usize) -> Option<Side>
    requires { (length neighbours.now ≡ length triangles.now) × (t < triangle_count triangles.now) }
    ensures { result ≡ Exits.cut_edge_of triangles.now neighbours.now a b t }
{
    (0..3)
        .find(|e| is_cut(triangles, neighbours, a, b, t, Edge::of(*e)))
        .map(|edge| Side { triangle: t, edge })
}

// The same, where t is another triangle than the one that is left.
fn cut_edge_beside(
    triangles: &[u32],
    neighbours: &[u32],
    here: usize,
    a: usize,
    b: usize,
    t: usize,
) -> Option<Side>
    requires { (length neighbours.now ≡ length triangles.now) × (t < triangle_count triangles.now) }
    ensures { result ≡ Exits.cut_triangle triangles.now neighbours.now here a b t }
{
    if t == here {
        return None;
    }
    cut_edge_of(triangles, neighbours, a, b, t)
}

// Over a cut edge: the first other triangle, then the first edge, that has no neighbour and the corners reversed.
pub fn find_cut_edge_match(
    triangles: &[u32],
    neighbours: &[u32],
    here: usize,
    e: Edge,
) -> Option<Side>
    requires { (length neighbours.now ≡ length triangles.now) × (here < triangle_count triangles.now) }
    ensures { result ≡ Exits.cut_match triangles.now neighbours.now (triangle_count triangles.now) here e.number }
{
    let a = mesh::corner(triangles, here, e.number);
    let b = mesh::corner(triangles, here, e.onward().number);
    (0..triangles.len() / 3).find_map(|t| cut_edge_beside(triangles, neighbours, here, a, b, t))
}
