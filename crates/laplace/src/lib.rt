// The field: what its assembly works on, the linear triangle and the corners of each vertex.
#![tactic(auto)]

pub mod corners;
pub mod element;

// Where the stretches of a mesh of n vertices and t triangles, of its matrix and of its right side start. Places and not slices: both buffers are lent whole, in one order.
#[derive(Clone, Copy)]
pub struct Places {
    // In the floats: 2n coordinates, n of the right side, n of a row that is built, and 9t + n values of the matrix.
    pub vertices: usize,
    pub right: usize,
    pub row: usize,
    pub values: usize,
    // In the words: 3t corners, n tags, n + 1 row starts, 9t + n columns, the first corner of each of n vertices, the next of each of 3t corners, and n columns of a row that is built.
    pub triangles: usize,
    pub tags: usize,
    pub starts: usize,
    pub cols: usize,
    pub heads: usize,
    pub links: usize,
    pub rowcols: usize,
}
