// A plan with the words that are laid out for it: its matrix and its field over the floats.
// Floats and path stay parameters beside it: `&` and `&mut` say which of the lent buffers a function writes (a crossing the path alone, `keep` the floats alone, a test none). A struct of `&mut` slices would leave that to clauses of every contract, and add a clause that its slices stay the same ones.
// The lent buffers are lent whole, so the parts of a list are cut out where it is read, by the places of the layout.
ghost use Rattle.std.specs.Prelude.{◌≡◌, ◌+◌, ◌*◌, ◌≤◌, length};
ghost use Rattle.sparse.specs.Matrix.{matrix_of, rows};
ghost use Rattle.sparse.specs.Stored as Stored;
ghost use Rattle.mesh.specs.Stands.{FieldStands};
ghost use Rattle.work.specs.Layout.{at_x, matrix_at, mesh_at};
ghost use Rattle.work.specs.Laid.{Laying};

use crate::Counted;
use mesh::Field;
use sparse::Matrix;

#[derive(Clone, Copy)]
pub struct Laid<'a> {
    pub counted: Counted,
    pub words: &'a [u32],
    pub ghost ready: { Laying counted.plan words.now },
}

impl<'a> Laid<'a> {
    // The matrix, with the values that stand in the floats.
    pub fn matrix<'b>(&self, floats: &'b [f64]) -> Matrix<'b>
    where
        'a: 'b,
        requires { at_x self.now.counted.plan.n self.now.counted.plan.t ≤ length floats.now }
        ensures is { matrix_of result ≡ Stored.matrix self.now.words.now floats.now (matrix_at self.now.counted.plan.n self.now.counted.plan.t) }
        ensures long { rows result ≡ self.now.counted.plan.n }
    {
        self.counted.matrix(floats, self.words)
    }

    // The mesh, with the values from u on: the vertices stand first in the floats.
    pub fn field<'b>(&self, floats: &'b [f64], u: usize) -> Field<'b>
    where
        'a: 'b,
        requires { (2 * self.now.counted.plan.n ≤ length floats.now) × (u + self.now.counted.plan.n ≤ length floats.now) }
        ensures { FieldStands floats.now self.now.words.now (mesh_at self.now.counted.plan.n self.now.counted.plan.t) u result }
    {
        let plan = self.counted.plan;
        Field::of(floats, self.words, plan.n, plan.t, u)
    }
}
