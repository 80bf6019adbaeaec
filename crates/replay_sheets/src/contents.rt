// Whether the writer answers as a list's rows say. A row is the answer, 0 where the content is written, two numbers that the base is spoiled by, and the space. All are numbers of the table, answers too.
use crate::sheets::{Counts, SPACE};
use crate::tables::BASE;
use format::{Content, Settings};
use refusal::Refusal;
use sheet::{Header, items};
use std::array::from_fn;

// ---- the lists of a sheet of three vertices and a triangle; 0 for what a sheet has not

#[derive(Clone, Copy)]
struct Lists {
    vertices: [f64; 6],
    triangles: [u32; 3],
    neighbours: [u32; 3],
    tags: [u8; 3],
}

// The coordinates and corners one by one would be `from_fn` of `items::coordinate` and `items::corner`, but then no program would replay `items::vertex` and `items::corners`.
fn vertices_of(section: &[u8]) -> [f64; 6] {
    let a = items::vertex(section, 0);
    let b = items::vertex(section, 1);
    let c = items::vertex(section, 2);
    [a.x, a.y, b.x, b.y, c.x, c.y]
}

fn triangle_of(section: &[u8]) -> [u32; 3] {
    let corners = items::corners(section, 0);
    [corners.a, corners.b, corners.c]
}

// ---- a content, spoiled so that a number refuses it, as compare/src/list_sheets.rs spoils it

// The numbers that a content is spoiled by, 0 for none.
#[derive(Clone, Copy)]
struct Spoiling([u32; 2]);

impl Spoiling {
    fn has(self, refusal: Refusal) -> bool {
        self.0.contains(&refusal.number())
    }

    fn lists(self, lists: Lists) -> Lists {
        let mut spoiled = lists;
        if self.has(Refusal::NotANumber) {
            spoiled.vertices[2] = f64::NAN;
        }
        if self.has(Refusal::OutOfRange) {
            spoiled.vertices[1] = f64::INFINITY;
        }
        if self.has(Refusal::OutsideSet) {
            spoiled.tags[0] = 3;
        }
        spoiled
    }

    fn settings(self, settings: Settings) -> Settings {
        if self.has(Refusal::Setting) {
            return Settings {
                room: None,
                ..settings
            };
        }
        settings
    }

    // How many neighbours are listed of a triangle, or of none.
    fn edges(self, t: usize) -> usize {
        match (t, self.has(Refusal::Mismatch)) {
            (0, _) => 0,
            (_, true) => 2,
            (_, false) => 3,
        }
    }
}

// ---- writing

// A sheet that is accepted, with its header.
#[derive(Clone, Copy)]
pub struct Accepted<'a> {
    sheet: &'a [u8],
    header: Header,
}

impl<'a> Accepted<'a> {
    pub fn check(sheet: &'a [u8]) -> Result<Accepted<'a>, Refusal> {
        let header = sheet::check_sheet(sheet)?;
        Ok(Accepted { sheet, header })
    }

    fn part(self, at: usize) -> &'a [u8] {
        self.sheet.get(at..).unwrap_or_default()
    }

    fn lists(self) -> Lists {
        let header = self.header;
        Lists {
            vertices: vertices_of(self.part(header.vertices)),
            triangles: triangle_of(self.part(header.triangles)),
            neighbours: from_fn(|i| items::neighbour(self.part(header.neighbours), i)),
            tags: from_fn(|i| items::tag(self.part(header.tags), i)),
        }
    }

    // Writes its n vertices with their tags and its t triangles, spoiled, to the front of out; none where they are not all there.
    fn write(self, by: Spoiling, out: &mut [u8]) -> Option<Result<usize, Refusal>> {
        let header = self.header;
        let lists = by.lists(self.lists());
        let content = Content {
            vertices: lists.vertices.get(..header.n.checked_mul(2)?)?,
            triangles: lists.triangles.get(..header.t.checked_mul(3)?)?,
            neighbours: lists.neighbours.get(..by.edges(header.t))?,
            tags: lists.tags.get(..header.n)?,
            settings: by.settings(header.settings),
        };
        Some(sheet::write_sheet(&content, out))
    }

    // Whether it is written byte for byte.
    pub fn is_written_again(self) -> bool {
        let mut out = [0u8; SPACE];
        let Some(front) = out.get_mut(..self.sheet.len()) else {
            return false;
        };
        let written = self.write(Spoiling([0, 0]), front);
        matches!(written, Some(Ok(size)) if size == self.sheet.len()) && out.starts_with(self.sheet)
    }
}

// Whether the base is answered so. A buffer that nothing is written to has to be as it was, and so has what is behind the sheet.
fn is_answered(answer: u32, base: Accepted, by: Spoiling, space: usize) -> bool {
    let mut out = [170u8; SPACE];
    let mut expected = [170u8; SPACE];
    let Some(front) = out.get_mut(..space) else {
        return false;
    };
    match base.write(by, front) {
        Some(Err(refusal)) => refusal.number() == answer && out == expected,
        Some(Ok(k)) => {
            expected[..BASE.len()].copy_from_slice(&BASE);
            answer == 0 && k == BASE.len() && out == expected
        }
        None => false,
    }
}

fn agrees(row: &[u32; 4]) -> bool {
    let [answer, first, second, space] = *row;
    Accepted::check(&BASE).is_ok_and(|base| is_answered(
        answer,
        base,
        Spoiling([first, second]),
        space as usize,
    ))
}

// How many rows have this answer, and how many of them agree.
pub fn replayed(table: &[[u32; 4]], answer: u32) -> Counts {
    Counts::of(table.iter().filter(|row| row[0] == answer).map(agrees))
}
