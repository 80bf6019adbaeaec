// One row of the matrix, built by insertion. Vertex numbers, columns, heads and links are words of the lent lists, and an index is widened by `as usize`, since no `From` leads from u32 to usize.
ghost use Rattle.std.specs.Prelude.{◌≡◌, [], ◌+◌, ◌<◌, ◌≤◌, length, nat_le, position, replicate, slice_set, take};
ghost use Rattle.std.specs.List.{copy_within};
ghost use Rattle.binary64.specs.Constants.{plus_zero};
ghost use Rattle.stretch.specs.Stretch.{splice};
ghost use Rattle.laplace.specs.Row.{Linked};

use laplace::element::{Elements, Side, Triangle};
use mesh::FREE;

// The row that is built: its entries' values and columns at the front of the two, and how many there are. Two lent stretches and a count, since there is no heap.
#[derive(Drop)]
pub struct Row<'a> {
    pub values: &'a mut [f64],
    pub cols: &'a mut [u32],
    pub count: usize,
    pub ghost within: { (count ≤ length values.now) × (count ≤ length cols.now) },
}

// A mesh and the corners of each vertex of it, by heads and links.
#[derive(Clone, Copy)]
pub struct Corners<'a> {
    pub mesh: Elements<'a>,
    pub heads: &'a [u32],
    pub links: &'a [u32],
    pub ghost linked: { Linked mesh heads.now links.now },
}

// Where the first column stands that is j or behind it.
fn first_from(cols: &[u32], j: u32) -> Option<usize>
    ensures { result ≡ position (λ c. nat_le j c) cols.now }
{
    cols.iter().position(|&c| c >= j)
}

// `IsBuilt` is of a row and a mesh, and no ghost field: between the writes of `open_at` the columns do not rise. An entry's column and value are two parameters, as a triangle and its side hold them.
impl Row<'_> {
    ghost use Rattle.laplace.specs.Assembly as Assembly;
    ghost use Rattle.laplace.specs.Matrix.{AllBelow};
    ghost use Rattle.laplace.specs.Elements.{pushes_of};
    ghost use Rattle.laplace.specs.Row as Entries;
    ghost use Rattle.rows.specs.Buffers.{entries_of, IsBuilt, SameRow, Writes};

    // The place of the column j, or else where it goes, as `binary_search` of a slice answers. That one asks that the columns rise, which would then stand in the contracts of `find` and `insert`; a row has about seven entries.
    fn find(&self, j: u32) -> Result<usize, usize>
        ensures { Entries.Finds j self.now.count self.now.cols.now result }
    {
        let p = first_from(&self.cols[..self.count], j).unwrap_or(self.count);
        if p < self.count && self.cols[p] == j {
            return Ok(p);
        }
        Err(p)
    }

    // The value v at the column j: added to the one that stands there, or inserted.
    #[tactic(auto, using(laplace::proofs::LawsInsert::found_within))]
    fn insert(&mut self, j: u32, v: f64)
        requires { Entries.Room self.old.values.now self.old.cols.now (Assembly.insert j v (entries_of self.old)) }
        ensures { Writes self.old self.new (Assembly.insert j v (entries_of self.old)) }
    {
        match self.find(j) {
            Ok(p) => self.values[p] = self.values[p] + v,
            Err(p) => self.open_at(p, j, v),
        }
    }

    // The value v at the column j, put at place p; those from there on move up by one.
    fn open_at(&mut self, p: usize, j: u32, v: f64)
        requires { (p ≤ self.old.count) × (self.old.count < length self.old.values.now) × (self.old.count < length self.old.cols.now) }
        ensures same { SameRow self.old self.new }
        ensures values { self.new.values.now ≡ slice_set (copy_within self.old.values.now p self.old.count (p + 1)) p v }
        ensures cols { self.new.cols.now ≡ slice_set (copy_within self.old.cols.now p self.old.count (p + 1)) p j }
        ensures count { self.new.count ≡ self.old.count + 1 }
    {
        let k = self.count;
        self.values.copy_within(p..k, p + 1);
        self.cols.copy_within(p..k, p + 1);
        self.values[p] = v;
        self.cols[p] = j;
        self.count = k + 1;
    }

    // The same where the column is free.
    fn place(&mut self, mesh: &Elements, j: u32, v: f64)
        requires { IsBuilt mesh.now self.old × (j < length mesh.now.tags.now) }
        ensures { Writes self.old self.new (Entries.placed mesh.now.tags.now j v (entries_of self.old)) }
    {
        if mesh.tags[j as usize] == FREE {
            self.insert(j, v);
        }
    }

    // An entry for each corner of a triangle.
    fn place_three(&mut self, mesh: &Elements, q: Triangle, s: Side)
        requires { IsBuilt mesh.now self.old × AllBelow (length mesh.now.tags.now) q }
        ensures { Writes self.old self.new (Entries.three_placed mesh.now.tags.now q s (entries_of self.old)) }
    {
        for (&j, &v) in q.iter().zip(&s) {
            self.place(mesh, j, v);
        }
    }

    // The entries of corner c of the mesh: nothing where its triangle is skipped.
    fn add_corner(&mut self, mesh: &Elements, c: usize)
        requires { IsBuilt mesh.now self.old × (c < length mesh.now.triangles.now) }
        ensures { Writes self.old self.new (Entries.added mesh.now.tags.now mesh.now.flat mesh.now.vertices.now mesh.now.triangles.now c (entries_of self.old)) }
    {
        let q = mesh.triangle(c / 3);
        if let Some(s) = mesh.stiff(q) {
            let side = s.side(c % 3);
            self.place_three(mesh, q, side);
        }
    }

    // The entries of the free vertex r: those of its corners, in rising order.
    fn build(&mut self, corners: &Corners, r: usize)
        requires { IsBuilt corners.now.mesh self.old × (self.old.count ≡ 0) × (r < length corners.now.mesh.tags.now) }
        ensures { Writes self.old self.new (Assembly.inserted corners.now.mesh.tags.now r (pushes_of corners.now.mesh) []) }
    {
        let mut c = corners.heads[r] as usize;
        // By hand: `std::iter::successors` has no end that the check knows, so a `for` over it is proved only with a `take`, which would owe that a vertex has no more corners than there are; and its closure would test each index by `get`.
        while 0 < c {
            self.add_corner(&corners.mesh, c - 1);
            c = corners.links[c - 1] as usize;
        }
    }

    // The row of vertex r: a held one has the lone entry 1.
    pub(crate) fn fill(&mut self, corners: &Corners, r: usize)
        requires { IsBuilt corners.now.mesh self.old × (self.old.count ≡ 0) × (r < length corners.now.mesh.tags.now) }
        ensures { Writes self.old self.new (Assembly.row corners.now.mesh.tags.now (pushes_of corners.now.mesh) r) }
    {
        if corners.mesh.tags[r] == FREE {
            self.build(corners, r);
            return;
        }
        self.values[0] = 1.0;
        self.cols[0] = r as u32;
        self.count = 1;
    }

    // The values and the columns of its entries.
    pub(crate) fn entries(&self) -> (&[f64], &[u32])
        ensures values { result.0.now ≡ take self.now.count self.now.values.now }
        ensures cols { result.1.now ≡ take self.now.count self.now.cols.now }
    {
        (&self.values[..self.count], &self.cols[..self.count])
    }

    // Zeros in place of its entries.
    pub(crate) fn clear(&mut self)
        ensures same { SameRow self.old self.new }
        ensures values { self.new.values.now ≡ splice self.old.values.now 0 (replicate self.old.count plus_zero) }
        ensures cols { self.new.cols.now ≡ splice self.old.cols.now 0 (replicate self.old.count 0) }
        ensures count { self.new.count ≡ 0 }
    {
        self.values[..self.count].fill(0.0);
        self.cols[..self.count].fill(0);
        self.count = 0;
    }
}
