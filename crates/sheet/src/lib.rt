// The archive's sheet (document 01, section Sheet): a sheet is checked, its items are handed out, and a sheet is written.
#![tactic(auto)]

pub mod items;

ghost use Rattle.std.specs.Prelude.{◌≡◌, ◌+◌, ◌*◌, ◌≤◌, ◌<◌, length};
ghost use Rattle.format.specs.Sheet.{bytes_of, parse};
ghost use Rattle.sheet.specs.Answer.{header_by, checked, checked_of, ended};
ghost use Rattle.sheet.specs.Write.{lent, written, Small, Writes};

use format::{Content, Settings};
use refusal::Refusal;
use sections::{Last, Mesh};
use writing::present_count;
use writing::putting::put_sheet;
use writing::refusing::content_refusal;

// What an accepted sheet has: n vertices, t triangles, where the items of sections 1 to 4 start, and its settings. The four places are what C is told in the head, and C cuts the parts there.
#[derive(Clone, Copy)]
pub struct Header {
    pub n: usize,
    pub t: usize,
    pub vertices: usize,
    pub triangles: usize,
    pub neighbours: usize,
    pub tags: usize,
    pub settings: Settings,
}

fn header_of(mesh: Mesh, settings: Settings) -> Header
    ensures { result ≡ header_by mesh.entry.n mesh.entry.t settings }
{
    let Mesh { n, t, .. } = mesh;
    Header {
        n,
        t,
        vertices: 4,
        triangles: 8 + 16 * n,
        neighbours: 12 + 16 * n + 12 * t,
        tags: 16 + 16 * n + 24 * t,
        settings,
    }
}

// The last tests: nothing is left behind section 5, and no setting is missing.
fn finish(mesh: Mesh, last: Last) -> Result<Header, Refusal>
    ensures { checked result ≡ ended mesh.entry.n mesh.entry.t last.entry.settings last.entry.behind.now }
{
    if !last.behind.is_empty() {
        return Err(Refusal::Length);
    }
    last.settings.missing_fault()?;
    Ok(header_of(mesh, last.settings))
}

// Whether s is a sheet.
pub fn check_sheet(s: &[u8]) -> Result<Header, Refusal>
    ensures { checked result ≡ checked_of (parse s.now) }
{
    let mesh = sections::mesh_fault(s)?;
    let last = sections::settings(mesh.behind)?;
    finish(mesh, last)
}

// How many bytes the sheet of a content has.
fn size_of(content: &Content) -> usize
    requires { Small (lent content.now) }
    ensures { result ≡ length (bytes_of (lent content.now)) }
{
    20 + 8 * content.vertices.len()
        + 4 * content.triangles.len()
        + 4 * content.neighbours.len()
        + content.tags.len()
        + 9 * present_count(content.settings)
}

// The sheet of a content, from the front of out, and how many bytes it has.
pub fn write_sheet(content: &Content, out: &mut [u8]) -> Result<usize, Refusal>
    ensures { Writes (lent content.now) out.old (written result) out.new }
{
    content_refusal(content)?;
    let size = size_of(content);
    if out.len() < size {
        return Err(Refusal::Space);
    }
    put_sheet(content, out);
    Ok(size)
}
