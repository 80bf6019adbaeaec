// What a sheet's first four sections hand on. A file of its own: the struct has ghost fields, and specs/Steps.antt, which the other file names, is over it.
ghost use Rattle.std.specs.Prelude.{◌≤◌};

// Sections 1 to 4 that are not refused: n vertices, t triangles, and the sheet from section 5 on.
#[derive(Clone, Copy)]
pub struct Mesh<'a> {
    pub n: usize,
    pub t: usize,
    pub behind: &'a [u8],
    pub ghost n_most: { n ≤ 4096 },
    pub ghost t_most: { t ≤ 8192 },
}
