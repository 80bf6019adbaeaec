// An accepted sheet's head and settings as lists of numbers, and a sheet written from them, for callers that hold no struct of Rattle's: a setting is a presence and a number.
// The lists, their lengths and the places in them are C's: each number goes to its place, a usize as the u64 of the same value.
#![tactic(auto)]

pub mod items;

ghost use Rattle.std.specs.Prelude.{◌≡◌, set};
ghost use Rattle.refusal.specs.Refusal.{fault};
ghost use Rattle.records.specs.Numbers.{listed, listed_in};
ghost use Rattle.heads.specs.Heads as Heads;

use format::{Content, Settings};
use records::lists::{Lists, given, put};
use refusal::Refusal;
use sheet::Header;

#[tactic(auto, unfolding(crate::specs::Heads::settings_from))]
pub fn settings_from(lists: &Lists) -> Settings
    ensures { result ≡ Heads.settings_from (listed_in lists.now) }
{
    let limit = given(lists.whole(0), lists.whole(1));
    let tolerance = given(lists.whole(2), lists.real(0));
    let step = given(lists.whole(3), lists.real(1));
    let x = given(lists.whole(4), lists.real(2));
    let y = given(lists.whole(5), lists.real(3));
    let room = given(lists.whole(6), lists.whole(7));
    Settings {
        limit,
        tolerance,
        step,
        x,
        y,
        room,
    }
}

// A setting's presence goes to one place, and its number, where it has one, to another.

fn put_presence<T: Copy>(given: Option<T>, out: &mut [u64], at: usize)
    ensures { out.new ≡ set out.old at (Heads.presence given) }
{
    put(out, at, u64::from(given.is_some()));
}

fn put_number<T: Copy>(given: Option<T>, out: &mut [T], at: usize)
    ensures { out.new ≡ Heads.number_put given at out.old }
{
    if let Some(number) = given {
        put(out, at, number);
    }
}

#[tactic(auto, unfolding(crate::specs::Heads::settings_put))]
pub fn put_settings(s: Settings, wholes: &mut [u64], reals: &mut [f64])
    ensures { listed wholes.new reals.new ≡ Heads.settings_put s (listed wholes.old reals.old) }
{
    put_presence(s.limit, wholes, 0);
    put_number(s.limit, wholes, 1);
    put_presence(s.tolerance, wholes, 2);
    put_number(s.tolerance, reals, 0);
    put_presence(s.step, wholes, 3);
    put_number(s.step, reals, 1);
    put_presence(s.x, wholes, 4);
    put_number(s.x, reals, 2);
    put_presence(s.y, wholes, 5);
    put_number(s.y, reals, 3);
    put_presence(s.room, wholes, 6);
    put_number(s.room, wholes, 7);
}

// Each number by its place: a zip with `iter_mut` is known by its length alone, and a loop by index takes an invariant for six lines.
#[tactic(auto, unfolding(crate::specs::Heads::head_numbers))]
pub fn put_head(h: Header, head: &mut [u64])
    ensures { head.new ≡ Heads.head_numbers h head.old }
{
    put(head, 0, h.n as u64);
    put(head, 1, h.t as u64);
    put(head, 2, h.vertices as u64);
    put(head, 3, h.triangles as u64);
    put(head, 4, h.neighbours as u64);
    put(head, 5, h.tags as u64);
}

// Puts the head and the settings of an accepted sheet; or refuses with nothing put, with `Space` where a list has too few places.
pub fn check(
    sheet: &[u8],
    head: &mut [u64],
    wholes: &mut [u64],
    reals: &mut [f64],
) -> Result<(), Refusal>
    ensures { Heads.Checks sheet.now head.old (listed wholes.old reals.old) (fault result) head.new (listed wholes.new reals.new) }
{
    let header = sheet::check_sheet(sheet)?;
    let lists = Lists { wholes, reals };
    // `&`: by `&&` the lists are asked on one way alone, and the answer has to part the two ways again.
    let fits = (6 <= head.len()) & lists.placed(8, 4);
    if !fits {
        return Err(Refusal::Space);
    }
    put_head(header, head);
    put_settings(header.settings, wholes, reals);
    Ok(())
}

// Puts the sheet at the front of `out` and its length in `written`; or refuses with nothing written.
pub fn write(
    vertices: &[f64],
    triangles: &[u32],
    neighbours: &[u32],
    tags: &[u8],
    lists: &Lists,
    out: &mut [u8],
    written: &mut [u64],
) -> Result<(), Refusal>
    ensures { Heads.WritesFrom vertices.now triangles.now neighbours.now tags.now (listed_in lists.now) out.old written.old (fault result) out.new written.new }
{
    let fits = lists.placed(8, 4) && 1 <= written.len();
    if !fits {
        return Err(Refusal::Space);
    }
    let settings = settings_from(lists);
    let content = Content {
        vertices,
        triangles,
        neighbours,
        tags,
        settings,
    };
    let size = sheet::write_sheet(&content, out)?;
    put(written, 0, size as u64);
    Ok(())
}
