// A mesh: vertices, triangles, neighbours and tags, each a slice. Neighbours and tags are words as the lists hold them, and a word that is an index is widened by `as usize`: no `From` leads from u32 to usize.
// The lists are flat, with triangle t's numbers from `3 * t` on and vertex i's from `2 * i` on, and no slices of arrays: the definitions speak of flat lists, and the sheet numbers an edge by `3 * t + e`.
#![tactic(auto)]

ghost use Rattle.std.specs.Prelude.{ℕ, ◌≡◌, ◌+◌, ◌*◌, ◌<◌, ◌≤◌, length, get_or};
ghost use Rattle.std.specs.Float.{nan};
ghost use Rattle.plane.specs.Plane.{point};
ghost use Rattle.mesh.specs.Mesh as Lists;
ghost use Rattle.mesh.specs.Work.{IsMesh, Corner, Below};

mod edge;
mod field;

pub use edge::Edge;
pub use field::Field;
use plane::Point;

// x and y of each vertex; the three corners of each triangle; the neighbour over each edge, or none; the tag of each vertex.
#[derive(Clone, Copy)]
pub struct Mesh<'a> {
    pub vertices: &'a [f64],
    pub triangles: &'a [u32],
    pub neighbours: &'a [u32],
    pub tags: &'a [u32],
    pub ghost whole: { IsMesh vertices.now triangles.now neighbours.now tags.now },
}

// The word of an edge with no neighbour, a number of the sheet and of the lent words: −1, as the bits of an i32.
pub const NONE: u32 = 4294967295;

// The tags, numbers of the sheet and of the lent words. Of a free vertex:
pub const FREE: u32 = 0;

// Of an outer one, which is held at 1:
pub const OUTER: u32 = 1;

// Of an inner one, which is held at 0:
pub const INNER: u32 = 2;

// The gradient of a corner's shape function times twice the area.
#[derive(Clone, Copy)]
pub struct Slope {
    pub b: f64,
    pub c: f64,
}

impl Slope {
    ghost use Rattle.mesh.specs.Element as Element;

    // The slope of the corner that faces the edge from p to q.
    pub fn facing(p: Point, q: Point) -> Slope
        ensures { result ≡ Element.slope p q }
    {
        Slope {
            b: p.y - q.y,
            c: q.x - p.x,
        }
    }

    // Twice the signed area of a triangle, from the slopes of its first two corners.
    pub fn area2(self, next: Slope) -> f64
        ensures { result ≡ Element.area2 self next }
    {
        self.b * next.c - next.b * self.c
    }
}

// ---- what is read of a list by itself: each asks of its own list alone, for whoever has no whole mesh; the methods call them

// Point i of a list that holds x and y of each: vertices, or gradients.
pub fn point_in(list: &[f64], i: usize) -> Point
    requires { 2 * i + 1 < length list.now }
    ensures { result ≡ point (get_or list.now (2 * i) nan) (get_or list.now (2 * i + 1) nan) }
{
    Point {
        x: list[2 * i],
        y: list[2 * i + 1],
    }
}

// Vertex i of a list of vertices.
#[tactic(auto, unfolding(crate::specs::Mesh::vertex))]
pub fn vertex(vertices: &[f64], i: usize) -> Point
    requires { 2 * i + 1 < length vertices.now }
    ensures { result ≡ Lists.vertex vertices.now i }
{
    point_in(vertices, i)
}

// The tag of vertex i in a list of tags.
#[tactic(auto, unfolding(crate::specs::Mesh::tag_of))]
pub fn tag(tags: &[u32], i: usize) -> u32
    requires { i < length tags.now }
    ensures { result ≡ Lists.tag_of tags.now i }
{
    tags[i]
}

// The vertex number at corner e of triangle t in a list of triangles.
#[tactic(auto, unfolding(crate::specs::Mesh::corner))]
pub fn corner(triangles: &[u32], t: usize, e: usize) -> usize
    requires { 3 * t + e < length triangles.now }
    ensures is { result ≡ Lists.corner triangles.now t e }
    ensures below { (n : ℕ) → Below n triangles.now → result < n }
{
    triangles[3 * t + e] as usize
}

// The word of the neighbour over edge e of triangle t in a list of neighbours.
#[tactic(auto, unfolding(crate::specs::Mesh::neighbour))]
pub fn neighbour_word(neighbours: &[u32], t: usize, e: usize) -> u32
    requires { 3 * t + e < length neighbours.now }
    ensures { result ≡ Lists.neighbour neighbours.now t e }
{
    neighbours[3 * t + e]
}

// The triangle over edge e of triangle t in a list of neighbours.
pub fn neighbour(neighbours: &[u32], t: usize, e: usize) -> Option<usize>
    requires { 3 * t + e < length neighbours.now }
    ensures { result ≡ Lists.triangle_of (Lists.neighbour neighbours.now t e) }
{
    let word = neighbour_word(neighbours, t, e);
    if word == NONE {
        return None;
    }
    Some(word as usize)
}

// `t < triangle_count` stands in each contract of a triangle. A struct of a mesh, a number and this bound as a ghost field was tried in starts: its methods prove, but a search makes one in its closure,
// which then needs a `requires` with the same bound, while without the struct the check finds it. `of` takes buffers and counts as a run has them, the buffers whole (`Laid` of work).
impl<'a> Mesh<'a> {
    ghost use Rattle.mesh.specs.Work.{Meshed, first_at};
    ghost use Rattle.mesh.specs.Stands.{Stands};

    // The mesh of n vertices and t triangles whose lists stand first in two buffers, which are lent whole: here counts become slices.
    pub fn of(floats: &'a [f64], words: &'a [u32], n: usize, t: usize) -> Mesh<'a>
        requires { Meshed floats.now words.now (first_at n t) }
        ensures { Stands floats.now words.now (first_at n t) result }
    {
        Mesh {
            vertices: &floats[..2 * n],
            triangles: &words[..3 * t],
            neighbours: &words[3 * t..6 * t],
            tags: &words[6 * t..6 * t + n],
        }
    }

    pub fn vertex_count(&self) -> usize
        ensures { result ≡ length self.now.tags.now }
    {
        self.tags.len()
    }

    pub fn triangle_count(&self) -> usize
        ensures { result ≡ Lists.triangle_count self.now.triangles.now }
    {
        self.triangles.len() / 3
    }

    pub fn vertex(&self, i: usize) -> Point
        requires { i < length self.now.tags.now }
        ensures { result ≡ Lists.vertex self.now.vertices.now i }
    {
        vertex(self.vertices, i)
    }

    // The vertex number at corner e of triangle t.
    pub fn corner(&self, t: usize, e: Edge) -> usize
        requires { t < Lists.triangle_count self.now.triangles.now }
        ensures { Corner result (length self.now.tags.now) (Lists.corner self.now.triangles.now t e.number) }
    {
        corner(self.triangles, t, e.number)
    }

    // The vertex at corner e of triangle t.
    pub fn corner_point(&self, t: usize, e: Edge) -> Point
        requires { t < Lists.triangle_count self.now.triangles.now }
        ensures { result ≡ Lists.vertex self.now.vertices.now (Lists.corner self.now.triangles.now t e.number) }
    {
        let i = self.corner(t, e);
        self.vertex(i)
    }

    // The vertex numbers at the three corners of triangle t. Each crossing reads them, and an array's `map` would put its elements in an `IntoIter` first.
    pub fn triangle(&self, t: usize) -> [usize; 3]
        requires { t < Lists.triangle_count self.now.triangles.now }
        ensures is { result ≡ Lists.triangle self.now.triangles.now t }
        ensures below { Below (length self.now.tags.now) result }
    {
        let a = self.corner(t, Edge::of(0));
        let b = self.corner(t, Edge::of(1));
        let c = self.corner(t, Edge::of(2));
        [a, b, c]
    }

    // The vertices at the three corners of triangle t.
    pub fn corners(&self, t: usize) -> [Point; 3]
        requires { t < Lists.triangle_count self.now.triangles.now }
        ensures { result ≡ Lists.corners self.now.vertices.now self.now.triangles.now t }
    {
        // `map` over the numbers was tried: it asks that each turn may call the closure, and the check doesn't find the bound of a vertex number there.
        let [a, b, c] = self.triangle(t);
        [self.vertex(a), self.vertex(b), self.vertex(c)]
    }

    // The word of the neighbour at edge e of triangle t.
    pub fn neighbour_word(&self, t: usize, e: Edge) -> u32
        requires { t < Lists.triangle_count self.now.triangles.now }
        ensures { result ≡ Lists.neighbour self.now.neighbours.now t e.number }
    {
        neighbour_word(self.neighbours, t, e.number)
    }

    // The triangle over edge e of triangle t.
    pub fn neighbour(&self, t: usize, e: Edge) -> Option<usize>
        requires { t < Lists.triangle_count self.now.triangles.now }
        ensures { result ≡ Lists.triangle_of (Lists.neighbour self.now.neighbours.now t e.number) }
    {
        neighbour(self.neighbours, t, e.number)
    }

    // The tag of vertex i, a word and no Option or enum: any word may stand in a sheet, and the definitions compare it with the constants above, as right does.
    pub fn tag(&self, i: usize) -> u32
        requires { i < length self.now.tags.now }
        ensures { result ≡ Lists.tag_of self.now.tags.now i }
    {
        tag(self.tags, i)
    }
}
