// A plan whose vertices and triangles are no more than a sheet may have: where each list of its run stands in the lent buffers, its matrix, and what it needs of each buffer. Each place is a sum of its own.
ghost use Rattle.std.specs.Prelude.{◌≡◌, ◌+◌, ◌*◌, ◌≤◌, ◌&&◌, leb, IfSome, is_some, length};
ghost use Rattle.format.specs.Content.{max_vertices, max_triangles};
ghost use Rattle.stretch.specs.Stretch.{part};
ghost use Rattle.sparse.specs.Matrix.{matrix_of, rows};
ghost use Rattle.sparse.specs.Stored as Stored;
ghost use Rattle.model.specs.Space.{float_space, word_space, path_space};
ghost use Rattle.work.specs.Layout as Layout;

use crate::{Plan, Space};
use laplace::Places;
use sparse::Matrix;

// Limit and room may be any numbers: the two methods that add them ask for their bounds, and where only the field is shown nobody tests them.
#[derive(Clone, Copy)]
pub struct Counted {
    pub plan: Plan,
    pub ghost n_most: { plan.n ≤ 4096 },
    pub ghost t_most: { plan.t ≤ 8192 },
}

impl Counted {
    // The plan, where its counts are ones that a sheet may have.
    pub fn of(plan: Plan) -> Option<Counted>
        ensures counts { is_some result ≡ (leb plan.n max_vertices && leb plan.t max_triangles) }
        ensures same { IfSome result (λ c. c.plan ≡ plan) }
    {
        if plan.n <= format::MAX_VERTICES && plan.t <= format::MAX_TRIANGLES {
            Some(Counted { plan })
        } else {
            None
        }
    }

    pub fn at_x(&self) -> usize
        ensures { result ≡ Layout.at_x self.now.plan.n self.now.plan.t }
    {
        5 * self.plan.n + 9 * self.plan.t
    }

    pub fn at_gradients(&self) -> usize
        ensures { result ≡ Layout.at_gradients self.now.plan.n self.now.plan.t }
    {
        9 * self.plan.n + 9 * self.plan.t
    }

    pub fn at_norms(&self) -> usize
        ensures { result ≡ Layout.at_norms self.now.plan.n self.now.plan.t }
    {
        9 * self.plan.n + 11 * self.plan.t
    }

    pub fn at_kept(&self) -> usize
        requires { self.now.plan.limit ≤ 100000 }
        ensures { result ≡ Layout.at_kept self.now.plan.n self.now.plan.t self.now.plan.limit }
    {
        9 * self.plan.n + 11 * self.plan.t + (self.plan.limit + 1)
    }

    // The other places, as `assemble` asks for them. Offsets, since both buffers are lent whole: no heap, and one order of lists in each.
    pub fn places(&self) -> Places
        ensures { result ≡ Layout.places_at self.now.plan.n self.now.plan.t }
    {
        let n = self.plan.n;
        let t = self.plan.t;
        Places {
            vertices: 0,
            right: 2 * n,
            row: 3 * n,
            values: 4 * n,
            triangles: 0,
            tags: 6 * t,
            starts: n + 6 * t,
            cols: 2 * n + 6 * t + 1,
            heads: 3 * n + 15 * t + 1,
            links: 4 * n + 15 * t + 1,
            rowcols: 4 * n + 18 * t + 1,
        }
    }

    // How many entries the matrix has room for.
    pub fn entries(&self) -> usize
        ensures { result ≡ 9 * self.now.plan.t + self.now.plan.n }
    {
        9 * self.plan.t + self.plan.n
    }

    // The matrix's words: its row starts, and its columns.
    pub fn row_words<'a>(&self, words: &'a [u32]) -> (&'a [u32], &'a [u32])
        requires { Layout.at_columns self.now.plan.n self.now.plan.t + (9 * self.now.plan.t + self.now.plan.n) ≤ length words.now }
        ensures starts { result.0.now ≡ part words.now (Layout.at_starts self.now.plan.n self.now.plan.t) (self.now.plan.n + 1) }
        ensures columns { result.1.now ≡ part words.now (Layout.at_columns self.now.plan.n self.now.plan.t) (9 * self.now.plan.t + self.now.plan.n) }
    {
        let at = self.places();
        let end = at.cols + self.entries();
        (&words[at.starts..at.cols], &words[at.cols..end])
    }

    // The matrix of n rows, with the values that stand in the floats.
    pub fn matrix<'a>(&self, floats: &'a [f64], words: &'a [u32]) -> Matrix<'a>
        requires sound { Stored.Sound words.now (Layout.matrix_at self.now.plan.n self.now.plan.t) }
        requires values { Layout.at_x self.now.plan.n self.now.plan.t ≤ length floats.now }
        ensures is { matrix_of result ≡ Stored.matrix words.now floats.now (Layout.matrix_at self.now.plan.n self.now.plan.t) }
        ensures long { rows result ≡ self.now.plan.n }
    {
        let (starts, cols) = self.row_words(words);
        let values = self.places().values;
        let end = values + self.entries();
        Matrix {
            starts,
            cols,
            values: &floats[values..end],
        }
    }

    // What a run of this plan needs.
    pub fn space(&self) -> Space
        requires { (self.now.plan.limit ≤ 100000) × (self.now.plan.room ≤ 1000000) }
        ensures floats { result.floats ≡ float_space self.now.plan.n self.now.plan.t self.now.plan.limit }
        ensures words { result.words ≡ word_space self.now.plan.n self.now.plan.t }
        ensures path { result.path ≡ path_space self.now.plan.room }
    {
        let p = self.plan;
        Space {
            floats: 12 * p.n + 12 * p.t + p.limit + 32,
            words: 8 * p.n + 32 * p.t + 32,
            path: 2 * p.room,
        }
    }
}
