// The items of a sheet, one by one, for whoever opens it. A part is the sheet from where the items of a section start, as the header says.
// C hands a part and an index, so these are functions of both, and answer the numbers of the file.
// Where a part has no such item, and where a coordinate would be a NaN, the answer is 0; neither is so in an accepted sheet.

ghost use Rattle.std.specs.Prelude.{◌≡◌, get_or};
ghost use Rattle.format.specs.Bytes.{number};
ghost use Rattle.sheet.specs.Items.{real_in, vertex_in, coordinate_in, whole_in, corners_in};

use plane::Point;

// The corners of a triangle.
#[derive(Clone, Copy)]
pub struct Triple {
    pub a: u32,
    pub b: u32,
    pub c: u32,
}

// The number of a pattern.
fn real(bits: &[u8; 8]) -> f64
    ensures { result ≡ real_in (number 8 bits.now) }
{
    format::faults::number_of(u64::from_le_bytes(*bits)).unwrap_or(0.0)
}

// Vertex i, from section 1.
pub fn vertex(part: &[u8], i: usize) -> Point
    ensures { result ≡ vertex_in part.now i }
{
    let (items, _) = part.as_chunks::<16>();
    match items.get(i) {
        Some(item) => {
            let x = real(item.first_chunk().unwrap());
            let y = real(item[8..].first_chunk().unwrap());
            Point { x, y }
        }
        None => Point { x: 0.0, y: 0.0 },
    }
}

// The number at k, from section 1: x of vertex k / 2, or its y.
pub fn coordinate(part: &[u8], k: usize) -> f64
    ensures { result ≡ coordinate_in part.now k }
{
    let (items, _) = part.as_chunks::<8>();
    match items.get(k) {
        Some(item) => real(item),
        None => 0.0,
    }
}

// The number at i, from section 2: corner i % 3 of triangle i / 3.
// The definition is unfolded, so that a wrong program that answers 0 too early is refused for the number.
#[tactic(auto, unfolding(crate::specs::Items::whole_in))]
pub fn corner(part: &[u8], i: usize) -> u32
    ensures { result ≡ whole_in part.now i }
{
    let (items, _) = part.as_chunks();
    match items.get(i) {
        Some(item) => u32::from_le_bytes(*item),
        None => 0,
    }
}

// The corners of triangle t, from section 2.
pub fn corners(part: &[u8], t: usize) -> Triple
    ensures { result ≡ corners_in part.now t }
{
    let (items, _) = part.as_chunks::<12>();
    match items.get(t) {
        Some(item) => {
            let a = corner(item, 0);
            let b = corner(item, 1);
            let c = corner(item, 2);
            Triple { a, b, c }
        }
        None => Triple { a: 0, b: 0, c: 0 },
    }
}

// The number at i, from section 3, read as a corner is: the neighbour over edge i % 3 of triangle i / 3, −1 as the u32 with its bits.
pub fn neighbour(part: &[u8], i: usize) -> u32
    ensures { result ≡ whole_in part.now i }
{
    corner(part, i)
}

// The tag of vertex i, from section 4.
pub fn tag(part: &[u8], i: usize) -> u8
    ensures { result ≡ get_or part.now i 0 }
{
    part.get(i).copied().unwrap_or(0)
}
