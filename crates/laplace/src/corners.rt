// The corners of each vertex: a vertex has a head, its first corner, and a corner a link, the next one of its vertex. Each is a word of the lent lists, the corner's number + 1, and 0 for none.
ghost use Rattle.std.specs.Prelude.{◌≡◌, length};
ghost use Rattle.laplace.specs.Corners.{heads_of, links_of, Linkable};

// Heads and links, by one scan of the corners from the last to the first, so that a vertex has its corners in rising order.
pub fn link(triangles: &[u32], heads: &mut [u32], links: &mut [u32])
    requires { Linkable triangles.now (length heads.old) (length links.old) }
    ensures first { heads.new ≡ heads_of triangles.now (length heads.old) }
    ensures next { links.new ≡ links_of triangles.now }
{
    heads.fill(0);
    for (c, &v) in triangles.iter().enumerate().rev() {
        let v = v as usize;
        links[c] = heads[v];
        heads[v] = c as u32 + 1;
    }
}
