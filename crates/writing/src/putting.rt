// A sheet is put down section by section, each behind the one before it. Callers show the space.

ghost use Rattle.std.specs.Prelude.{◌≡◌, ◌++◌, ℕ, List, length};
ghost use Rattle.std.specs.Float.{binary64};
ghost use Rattle.std.specs.Float.Ieee.{to_bits};
ghost use Rattle.format.specs.Bytes.{bytes};
ghost use Rattle.format.specs.Place.{placed};
ghost use Rattle.format.specs.Sheet.{bytes_of};
ghost use Rattle.writing.specs.Write.{lent, laid_all, slot_bytes, Fits, HasRoom, Adds};

use format::faults::pattern;
use format::{Content, Setting};

// The bytes that are lent, and the place behind what stands in them. Text has a type of its own, since a method stands only in the crate of its type.
#[derive(Drop)]
struct Output<'a> {
    bytes: &'a mut [u8],
    at: usize,
}

impl Output<'_> {
    fn put(&mut self, bytes: &[u8])
        requires { HasRoom self.old bytes.now }
        ensures { Adds self.old self.new bytes.now }
    {
        format::bytes::put(self.bytes, self.at, bytes);
        self.at += bytes.len();
    }

    // A count, and the items behind it.
    fn section<T: Item>(&mut self, count: u32, items: &[T])
        requires { HasRoom self.old (bytes 4 count ++ laid_all T.laid items.now) }
        ensures { Adds self.old self.new (bytes 4 count ++ laid_all T.laid items.now) }
    {
        self.put(&count.to_le_bytes());
        for item in items {
            item.put(self);
        }
    }
}

// What a section holds, laid down as bytes. Each type has an impl of its own: `to_le_bytes` is no method of a trait.
trait Item: Copy {
    ghost laid: { Self → List ℕ };

    fn put(self, out: &mut Output)
        requires { HasRoom out.old (laid self) }
        ensures { Adds out.old out.new (laid self) };
}

impl Item for f64 {
    ghost laid = { λ x. bytes 8 (to_bits binary64 x) };

    #[tactic(auto, unfolding(format::specs::Bytes::bytes))]
    fn put(self, out: &mut Output) {
        out.put(&pattern(self).to_le_bytes());
    }
}

impl Item for u32 {
    ghost laid = { λ x. bytes 4 x };

    #[tactic(auto, unfolding(format::specs::Bytes::bytes))]
    fn put(self, out: &mut Output) {
        out.put(&self.to_le_bytes());
    }
}

impl Item for u8 {
    ghost laid = { λ x. bytes 1 x };

    #[tactic(auto, unfolding(format::specs::Bytes::bytes))]
    fn put(self, out: &mut Output) {
        out.put(&[self]);
    }
}

// A setting that is not given takes no place.
impl Item for Option<Setting> {
    ghost laid = { slot_bytes };

    #[tactic(auto, unfolding(format::specs::Bytes::bytes))]
    fn put(self, out: &mut Output) {
        if let Some(setting) = self {
            out.put(&[setting.kind()]);
            out.put(&setting.value().to_le_bytes());
        }
    }
}

// The sheet of a content. Its counts are u32 by `Fits`: `try_from` would have to refuse what cannot be.
pub fn put_sheet(content: &Content, out: &mut [u8])
    requires { Fits (lent content.now) (length out.old) }
    ensures { out.new ≡ placed out.old 0 (bytes_of (lent content.now)) }
{
    let n = content.vertex_count() as u32;
    let t = content.triangle_count() as u32;
    let k = content.neighbours.len() as u32;
    let g = content.tags.len() as u32;
    let m = crate::present_count(content.settings) as u32;
    let mut output = Output { bytes: out, at: 0 };
    output.section(n, content.vertices);
    output.section(t, content.triangles);
    output.section(k, content.neighbours);
    output.section(g, content.tags);
    output.section(m, &crate::slots(content.settings));
}
