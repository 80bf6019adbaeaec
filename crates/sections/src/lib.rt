// The sections of a sheet: each is tested from its count on, its items are read through the part behind the count, and it hands on the sheet behind it.
#![tactic(auto)]

mod mesh;

ghost use Rattle.std.specs.Prelude.{◌≡◌, ◌+◌, ◌*◌, ◌≤◌, ◌<◌, ◌^◌, IfOk, map, length};
ghost use Rattle.refusal.specs.Refusal.{fault};
ghost use Rattle.format.specs.Bytes.{number};
ghost use Rattle.format.specs.Sheet.{behind, head_fault, vertices_fault, triangles_fault, neighbours_fault, tags_fault};
ghost use Rattle.sections.specs.Steps.{rule_of, most, Follows, Holds, items_of, last_of, items_read, mesh_fault, settings_read};

use format::faults::{each, neighbour_fault, pattern_fault, tag_fault, vertex_fault};
use format::{Setting, Settings};
pub use mesh::Mesh;
use refusal::Refusal;

// What a section's count has to be.
#[derive(Clone, Copy)]
enum Rule {
    AtMost(usize),
    Exactly(usize),
}

// A section that is not refused: how many items its count says, their bytes, and the sheet behind them.
#[derive(Clone, Copy)]
struct Section<'a> {
    count: usize,
    items: &'a [u8],
    behind: &'a [u8],
}

// Section 5 that is not refused: its settings, and the sheet behind it.
#[derive(Clone, Copy)]
pub struct Last<'a> {
    pub settings: Settings,
    pub behind: &'a [u8],
}

// A u32 becomes a usize by `as`: there is no `From` for the two, and `try_from` would have a refusal that cannot come.
pub fn count(s: &[u8]) -> usize
    requires { 4 ≤ length s.now }
    ensures read { result ≡ number 4 s.now }
    ensures small { result < 2 ^ 32 }
{
    format::bytes::first_u32(s) as usize
}

impl Rule {
    fn fault(self, k: usize) -> Result<(), Refusal>
        ensures { fault result ≡ rule_of self k }
    {
        match self {
            Rule::AtMost(limit) if limit < k => Err(Refusal::TooMany),
            Rule::Exactly(expected) if k != expected => Err(Refusal::Mismatch),
            _ => Ok(()),
        }
    }
}

// A section before its items are read; an item has `size` bytes.
fn head(s: &[u8], rule: Rule, size: usize) -> Result<Section, Refusal>
    requires { size ≤ 16 }
    ensures refused { fault result ≡ head_fault (rule_of rule) size s.now }
    ensures follows { IfOk result (λ r. Follows (most rule) size s.now r) }
{
    let Some((_, rest)) = s.split_first_chunk::<4>() else {
        return Err(Refusal::Length);
    };
    let count = count(s);
    rule.fault(count)?;
    match rest.split_at_checked(size * count) {
        Some((items, behind)) => Ok(Section {
            count,
            items,
            behind,
        }),
        None => Err(Refusal::Length),
    }
}

// The four sections of the mesh are a head and a test of each number; they differ in rule, width and test. One function over these would ask for `F: Fn(&[u8; N])`, and Rattle's borrow checker does not cover a bound of Fn that names a const parameter.

fn vertices_fault(s: &[u8]) -> Result<Section, Refusal>
    ensures refused { fault result ≡ vertices_fault s.now }
    ensures follows { IfOk result (λ r. Follows 4096 16 s.now r) }
{
    let section = head(s, Rule::AtMost(format::MAX_VERTICES), 16)?;
    each(section.items.as_chunks().0, |x| {
        pattern_fault(u64::from_le_bytes(*x))
    })?;
    Ok(section)
}

fn triangles_fault(s: &[u8], n: usize) -> Result<Section, Refusal>
    ensures refused { fault result ≡ triangles_fault n s.now }
    ensures follows { IfOk result (λ r. Follows 8192 12 s.now r) }
{
    let section = head(s, Rule::AtMost(format::MAX_TRIANGLES), 12)?;
    each(section.items.as_chunks().0, |x| {
        vertex_fault(u32::from_le_bytes(*x), n)
    })?;
    Ok(section)
}

// t is a count that was not refused, so that 3t is no more than a usize.
fn neighbours_fault(s: &[u8], t: usize) -> Result<Section, Refusal>
    requires { t ≤ 8192 }
    ensures refused { fault result ≡ neighbours_fault t s.now }
    ensures follows { IfOk result (λ r. Follows (3 * t) 4 s.now r) }
{
    let section = head(s, Rule::Exactly(3 * t), 4)?;
    each(section.items.as_chunks().0, |x| {
        neighbour_fault(u32::from_le_bytes(*x), t)
    })?;
    Ok(section)
}

fn tags_fault(s: &[u8], n: usize) -> Result<Section, Refusal>
    ensures refused { fault result ≡ tags_fault n s.now }
    ensures follows { IfOk result (λ r. Follows n 1 s.now r) }
{
    let section = head(s, Rule::Exactly(n), 1)?;
    each(section.items.as_chunks().0, |x: &[u8; 1]| tag_fault(x[0]))?;
    Ok(section)
}

// Sections 1 to 4.
pub fn mesh_fault(s: &[u8]) -> Result<Mesh, Refusal>
    ensures refused { fault result ≡ mesh_fault s.now }
    ensures holds { IfOk result (λ m. Holds s.now m) }
{
    let first = vertices_fault(s)?;
    let second = triangles_fault(first.behind, first.count)?;
    let third = neighbours_fault(second.behind, second.count)?;
    let fourth = tags_fault(third.behind, first.count)?;
    Ok(Mesh {
        n: first.count,
        t: second.count,
        behind: fourth.behind,
    })
}

// The items of section 5, each read into a Setting and taken apart. Kinds rise as the bytes that they are, so they are compared before they are read.
fn read_items(items: &[[u8; 9]]) -> Result<Settings, Refusal>
    ensures { items_of result ≡ items_read (map (number 9) items.now) }
{
    let mut settings = Settings::default();
    let mut last = 0;
    for item in items {
        let kind = item[0];
        if kind <= last {
            return Err(Refusal::Setting);
        }
        let setting = Setting::try_from((kind, u64::from_le_bytes(*item.last_chunk().unwrap())))?;
        setting.fault()?;
        settings = settings.with(setting);
        last = kind;
    }
    Ok(settings)
}

// Section 5.
pub fn settings(s: &[u8]) -> Result<Last, Refusal>
    ensures read { last_of result ≡ settings_read s.now }
    ensures behind { IfOk result (λ r. r.behind.now ≡ behind 9 s.now) }
{
    let section = head(s, Rule::AtMost(format::MAX_SETTINGS), 9)?;
    let settings = read_items(section.items.as_chunks().0)?;
    Ok(Last {
        settings,
        behind: section.behind,
    })
}
