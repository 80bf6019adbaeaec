// The linear triangle (the P1 element): what its corners push on each other. Vertex numbers are words of the lent lists, and an index is widened by `as usize`, since no `From` leads from u32 to usize.
ghost use Rattle.std.specs.Prelude.{ℕ, ◌≡◌, ◌+◌, ◌*◌, ◌/◌, ◌<◌, length};
ghost use Rattle.laplace.specs.Mesh.{vertex};
ghost use Rattle.laplace.specs.Matrix.{AllBelow};
ghost use Rattle.laplace.specs.Assembly as Assembly;
ghost use Rattle.laplace.specs.Element as Element;
ghost use Rattle.laplace.specs.Row as Row;

use mesh::Slope;
use plane::Point;

pub fn stiffness(inv: f64, s: Slope, t: Slope) -> f64
    ensures { result ≡ Assembly.stiffness inv s t }
{
    (s.b * t.b + s.c * t.c) * inv * 0.5
}

// What the corners of a triangle push on each other: a pair has one number for both its places. Named and not three rows, which would hold three of the numbers twice and be read by index, where a branch is quicker (docs/PROVING.md, Speed).
#[derive(Clone, Copy)]
pub struct Stiff {
    pub ii: f64,
    pub ij: f64,
    pub ik: f64,
    pub jj: f64,
    pub jk: f64,
    pub kk: f64,
}

// Nothing where the triangle is skipped, since twice its area is below `flat` in magnitude.
pub fn stiff_of(flat: f64, a: Point, b: Point, c: Point) -> Option<Stiff>
    ensures { result ≡ Element.stiff_of flat a b c }
{
    let si = Slope::facing(b, c);
    let sj = Slope::facing(c, a);
    let sk = Slope::facing(a, b);
    let area = binary64::abs(si.area2(sj));
    if area < flat {
        return None;
    }
    let inv = 1.0 / area;
    Some(Stiff {
        ii: stiffness(inv, si, si),
        ij: stiffness(inv, si, sj),
        ik: stiffness(inv, si, sk),
        jj: stiffness(inv, sj, sj),
        jk: stiffness(inv, sj, sk),
        kk: stiffness(inv, sk, sk),
    })
}

// The vertices of a triangle, as words of the lent lists.
pub type Triangle = [u32; 3];

// What one corner pushes on each of the three.
pub type Side = [f64; 3];

impl Stiff {
    #[tactic(auto, unfolding(crate::specs::Row::side_of))]
    pub fn side(self, corner: usize) -> Side
        ensures { result ≡ Row.side_of self corner }
    {
        match corner {
            0 => [self.ii, self.ij, self.ik],
            1 => [self.ij, self.jj, self.jk],
            _ => [self.ik, self.jk, self.kk],
        }
    }
}

// A mesh that is assembled: x and y of each vertex, three corners of each triangle, a tag of each vertex, and twice the area in magnitude below which a triangle is skipped.
// No `mesh::Mesh`: that one has neighbours, and its ghost field says what those are, too, which `assemble` would then ask of its callers; and a Mesh with these three lists as a struct within would put one more name before each list that a definition or a function reads.
// No ghost field says that the lists are those of a mesh (`AreElements`, in three contracts and four records): `vertex`, `triangle` and `stiff` ask less, so each would stand a second time, as a function of lists, for a caller who has no whole mesh.
#[derive(Clone, Copy)]
pub struct Elements<'a> {
    pub vertices: &'a [f64],
    pub triangles: &'a [u32],
    pub tags: &'a [u32],
    pub flat: f64,
}

impl Elements<'_> {
    pub fn vertex(&self, i: usize) -> Point
        requires { 2 * i + 1 < length self.now.vertices.now }
        ensures { result ≡ vertex self.now.vertices.now i }
    {
        mesh::vertex(self.vertices, i)
    }

    // Triangle q.
    pub fn triangle(&self, q: usize) -> Triangle
        requires { 3 * q + 2 < length self.now.triangles.now }
        ensures is { result ≡ Element.triangle_of self.now.triangles.now q }
        ensures below { (n : ℕ) → AllBelow n self.now.triangles.now → AllBelow n result }
    {
        let (triangles, _) = self.triangles.as_chunks::<3>();
        triangles[q]
    }

    // What the corners of a triangle push on each other.
    #[tactic(auto, unfolding(crate::specs::Element::stiff_in), using(crate::proofs::LawsCorners::below_at))]
    pub fn stiff(&self, q: Triangle) -> Option<Stiff>
        requires { AllBelow (length self.now.vertices.now / 2) q }
        ensures { result ≡ Element.stiff_in self.now.flat self.now.vertices.now q }
    {
        let a = self.vertex(q[0] as usize);
        let b = self.vertex(q[1] as usize);
        let c = self.vertex(q[2] as usize);
        stiff_of(self.flat, a, b, c)
    }
}
