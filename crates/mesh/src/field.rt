// A mesh with a value at each of its vertices.
ghost use Rattle.std.specs.Prelude.{◌≡◌, ◌≤◌, ◌<◌, length, take};
ghost use Rattle.mesh.specs.Mesh as Lists;

use crate::Mesh;
use plane::Point;

#[derive(Clone, Copy)]
pub struct Field<'a> {
    pub mesh: Mesh<'a>,
    pub values: &'a [f64],
    pub ghost one_each: { length values.now ≡ length mesh.tags.now },
}

impl<'a> Field<'a> {
    ghost use Rattle.mesh.specs.Work.{first_at, Fielded};
    ghost use Rattle.mesh.specs.Stands.{FieldStands};

    // The mesh of n vertices and t triangles whose lists stand first in two buffers, with the n values from u on.
    pub fn of(floats: &'a [f64], words: &'a [u32], n: usize, t: usize, u: usize) -> Field<'a>
        requires { Fielded floats.now words.now (first_at n t) u }
        ensures { FieldStands floats.now words.now (first_at n t) u result }
    {
        Field {
            mesh: Mesh::of(floats, words, n, t),
            values: &floats[u..u + n],
        }
    }

    // A mesh with the first of a list of values, one for each vertex.
    pub fn over(mesh: Mesh<'a>, values: &'a [f64]) -> Field<'a>
        requires { length mesh.tags.now ≤ length values.now }
        ensures mesh { result.mesh ≡ mesh.entry }
        ensures values { result.values.now ≡ take (length mesh.entry.tags.now) values.now }
    {
        let n = mesh.vertex_count();
        Field {
            mesh,
            values: &values[..n],
        }
    }

    // The corners of triangle t, and the values at them. Not by `corners`, so that the numbers are read once, and not by `map`, as in `corners`.
    pub fn on(&self, t: usize) -> ([Point; 3], [f64; 3])
        requires { t < Lists.triangle_count self.now.mesh.triangles.now }
        ensures corners { result.0 ≡ Lists.corners self.now.mesh.vertices.now self.now.mesh.triangles.now t }
        ensures values { result.1 ≡ Lists.values self.now.values.now self.now.mesh.triangles.now t }
    {
        let [a, b, c] = self.mesh.triangle(t);
        let mesh = &self.mesh;
        let corners = [mesh.vertex(a), mesh.vertex(b), mesh.vertex(c)];
        (corners, [self.values[a], self.values[b], self.values[c]])
    }
}
