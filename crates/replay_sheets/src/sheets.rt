// Whether the reader answers as a list's rows say. A row is the answer, 0 where the sheet is accepted, the sheet's length, how many changes of the base there are, and each change. All are numbers of the table, answers too.
ghost use Rattle.std.specs.Prelude.{length};
ghost use Rattle.std.specs.Iterator.{at_most, IsFinite};

use crate::contents::Accepted;
use crate::tables::BASE;

// More than the longest sheet of the list has.
pub const SPACE: usize = 160;

// How many rows have an answer, and how many of them agree.
#[derive(Clone, Copy)]
pub struct Counts {
    pub all: usize,
    pub agree: usize,
}

impl Counts {
    // Of rows, by whether each agrees. The counts saturate, so that no bound on the rows is asked.
    pub fn of<I: Iterator<Item = bool>>(rows: I) -> Counts
        requires can { I.can_next rows }
        requires ends { IsFinite (I.remaining rows) }
    {
        let mut counts = Counts { all: 0, agree: 0 };
        for agrees in rows {
            counts.all = counts.all.saturating_add(1);
            counts.agree = counts.agree.saturating_add(usize::from(agrees));
        }
        counts
    }
}

// `changes` is none where the table ends before them.
#[derive(Clone, Copy)]
struct Row<'a> {
    answer: u32,
    length: usize,
    changes: Option<&'a [u32]>,
}

// The rows that a table has left. A table is a flat list with a length before each run of changes: `[(u32, usize, &[u32]); 238]` proves but for the function that names the table, whose check runs out of steps.
#[derive(Clone, Copy)]
struct Rows<'a>(&'a [u32]);

impl<'a> Iterator for Rows<'a> {
    type Item = Row<'a>;

    ghost remaining = { λ s. at_most (length s.0.now) };

    fn next(&mut self) -> Option<Row<'a>> {
        let (head, behind) = self.0.split_first_chunk::<3>()?;
        let count = head[2] as usize;
        self.0 = behind.get(count..).unwrap_or(&behind[..0]);
        Some(Row {
            answer: head[0],
            length: head[1] as usize,
            changes: behind.get(..count),
        })
    }
}

// A change is place * 256 + byte.
fn put_changes(out: &mut [u8], changes: &[u32]) {
    for change in changes {
        if let Some(place) = out.get_mut((*change / 256) as usize) {
            *place = (*change % 256) as u8;
        }
    }
}

// An accepted sheet is written again too.
fn is_answered(sheet: &[u8], answer: u32) -> bool {
    match Accepted::check(sheet) {
        Err(refusal) => refusal.number() == answer,
        Ok(sheet) => answer == 0 && sheet.is_written_again(),
    }
}

fn agrees(row: Row) -> bool {
    let Some(changes) = row.changes else {
        return false;
    };
    let mut sheet = [0u8; SPACE];
    sheet[..BASE.len()].copy_from_slice(&BASE);
    put_changes(&mut sheet, changes);
    let front = sheet.get(..row.length);
    front.is_some_and(|front| is_answered(front, row.answer))
}

// How many rows have this answer, and how many of them agree.
pub fn replayed(table: &[u32], answer: u32) -> Counts {
    Counts::of(Rows(table).filter(|row| row.answer == answer).map(agrees))
}
