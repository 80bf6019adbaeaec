// What refuses a content, in the reader's order. The four lists differ in limit, in how many entries one of them takes, and in the test of an entry: one function of three more parameters would be no plainer.

ghost use Rattle.std.specs.Prelude.{◌≡◌, ◌≤◌};
ghost use Rattle.refusal.specs.Refusal.{fault};
ghost use Rattle.format.specs.Refusal.{each, setting_fault, present, refusal_of};
ghost use Rattle.writing.specs.Write.{lent, slot_fault, vertices_refusal, triangles_refusal, neighbours_refusal, tags_refusal, mesh_refusal};

use format::faults::{coordinate_fault, each, neighbour_fault, tag_fault, vertex_fault};
use format::{Content, Setting, Settings};
use refusal::Refusal;

fn vertices_refusal(xs: &[f64]) -> Result<(), Refusal>
    ensures { fault result ≡ vertices_refusal xs.now }
{
    let n = xs.len() / 2;
    if format::MAX_VERTICES < n {
        return Err(Refusal::TooMany);
    }
    if xs.len() != 2 * n {
        return Err(Refusal::Mismatch);
    }
    each(xs, |x| coordinate_fault(*x))
}

fn triangles_refusal(xs: &[u32], n: usize) -> Result<(), Refusal>
    ensures { fault result ≡ triangles_refusal n xs.now }
{
    let t = xs.len() / 3;
    if format::MAX_TRIANGLES < t {
        return Err(Refusal::TooMany);
    }
    if xs.len() != 3 * t {
        return Err(Refusal::Mismatch);
    }
    each(xs, |x| vertex_fault(*x, n))
}

// t is a count that was not refused, so that 3t is no more than a usize.
fn neighbours_refusal(xs: &[u32], t: usize) -> Result<(), Refusal>
    requires { t ≤ 8192 }
    ensures { fault result ≡ neighbours_refusal t xs.now }
{
    if xs.len() != 3 * t {
        return Err(Refusal::Mismatch);
    }
    each(xs, |x| neighbour_fault(*x, t))
}

fn tags_refusal(xs: &[u8], n: usize) -> Result<(), Refusal>
    ensures { fault result ≡ tags_refusal n xs.now }
{
    if xs.len() != n {
        return Err(Refusal::Mismatch);
    }
    each(xs, |x| tag_fault(*x))
}

fn mesh_refusal(content: &Content) -> Result<(), Refusal>
    ensures { let c = content.now in fault result ≡ mesh_refusal c.vertices.now c.triangles.now c.neighbours.now c.tags.now }
{
    let n = content.vertex_count();
    let t = content.triangle_count();
    vertices_refusal(content.vertices)?;
    triangles_refusal(content.triangles, n)?;
    neighbours_refusal(content.neighbours, t)?;
    tags_refusal(content.tags, n)
}

fn slot_fault(slot: Option<Setting>) -> Result<(), Refusal>
    ensures { fault result ≡ slot_fault slot }
{
    match slot {
        Some(setting) => setting.fault(),
        None => Ok(()),
    }
}

// The settings that are given, by rising kind.
fn values_refusal(s: Settings) -> Result<(), Refusal>
    ensures { fault result ≡ each setting_fault (present s) }
{
    each(&crate::slots(s), |slot| slot_fault(*slot))
}

// What refuses a content.
pub fn content_refusal(content: &Content) -> Result<(), Refusal>
    ensures { fault result ≡ refusal_of (lent content.now) }
{
    mesh_refusal(content)?;
    values_refusal(content.settings)?;
    content.settings.missing_fault()
}
