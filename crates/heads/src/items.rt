// The items of a sheet that have more than one number, put at the front of a list; what has no place is left out. The lists and the index are C's. Two functions, since a vertex is two doubles and the corners three words.
ghost use Rattle.std.specs.Prelude.{◌≡◌, set};
ghost use Rattle.sheet.specs.Items.{vertex_in, corners_in};

use records::lists::put;

pub fn vertex(items: &[u8], i: usize, out: &mut [f64])
    ensures { out.new ≡ set (set out.old 0 (vertex_in items.now i).x) 1 (vertex_in items.now i).y }
{
    let p = sheet::items::vertex(items, i);
    put(out, 0, p.x);
    put(out, 1, p.y);
}

pub fn corners(items: &[u8], i: usize, out: &mut [u32])
    ensures { out.new ≡ set (set (set out.old 0 (corners_in items.now i).a) 1 (corners_in items.now i).b) 2 (corners_in items.now i).c }
{
    let c = sheet::items::corners(items, i);
    put(out, 0, c.a);
    put(out, 1, c.b);
    put(out, 2, c.c);
}
