// The matrix: each row is built in a row and put behind the rows before it. Row starts are words of the lent lists.
ghost use Rattle.std.specs.Prelude.{◌≡◌, ◌+◌, ◌<◌, ◌≤◌, length, replicate, take};
ghost use Rattle.binary64.specs.Constants.{plus_zero};
ghost use Rattle.stretch.specs.Stretch.{splice};
ghost use Rattle.laplace.specs.Rows as Rows;
ghost use Rattle.rows.specs.Buffers.{SameRow, SameBuilder, IsReady, Restores, PutsRow, PutsRows};

use crate::row::{Corners, Row};

// A matrix that is built, row behind row: where each row starts among the entries, and the columns and the values of the `count` entries.
// Two lists and not one of entries, since columns are lent among the words and values among the floats; a count and no `Vec`, since there is no heap.
#[derive(Drop)]
pub struct Builder<'a> {
    pub starts: &'a mut [u32],
    pub cols: &'a mut [u32],
    pub values: &'a mut [f64],
    pub count: usize,
}

// The elements of `from`, put at the places from `at` on. By a loop: of `copy_from_slice` between two slices of a lent buffer the compiler makes `memmove`, which the archive for C would need from outside.
fn put_behind<T: Copy>(to: &mut [T], at: usize, from: &[T])
    requires { at + length from.now ≤ length to.old }
    ensures { to.new ≡ splice to.old at from.now }
{
    for i in 0..from.len() {
        let k = at + i;
        to[k] = from[i];
    }
}

impl Builder<'_> {
    // The entries of a row, put behind the others; the row is clear then.
    fn append(&mut self, row: &mut Row)
        requires { Rows.Appends (length self.old.values.now) (length self.old.cols.now) row.old.count self.old.count }
        ensures same { SameBuilder self.old self.new × SameRow row.old row.new }
        ensures values { self.new.values.now ≡ splice self.old.values.now self.old.count (take row.old.count row.old.values.now) }
        ensures cols { self.new.cols.now ≡ splice self.old.cols.now self.old.count (take row.old.count row.old.cols.now) }
        ensures count { self.new.count ≡ self.old.count + row.old.count }
        ensures starts { self.new.starts.now ≡ self.old.starts.now }
        ensures clear { (row.new.values.now ≡ splice row.old.values.now 0 (replicate row.old.count plus_zero)) × (row.new.cols.now ≡ splice row.old.cols.now 0 (replicate row.old.count 0)) × (row.new.count ≡ 0) }
    {
        let end = self.count + row.count;
        let (values, cols) = row.entries();
        put_behind(self.values, self.count, values);
        put_behind(self.cols, self.count, cols);
        row.clear();
        self.count = end;
    }

    // Row r put behind the others.
    fn put_row(&mut self, row: &mut Row, corners: &Corners, r: usize)
        requires { IsReady corners.now.mesh row.old self.old × (r < length corners.now.mesh.tags.now) × (self.old.count + length (Rows.row_of corners.now.mesh r) ≤ Rows.room_of corners.now.mesh) }
        ensures row { Restores row.old row.new }
        ensures put { PutsRow self.old self.new r (Rows.row_of corners.now.mesh r) }
    {
        row.fill(corners, r);
        self.append(row);
        self.starts[r + 1] = self.count as u32;
    }

    // All rows, into an empty matrix.
    pub fn fill(&mut self, row: &mut Row, corners: &Corners)
        requires { IsReady corners.now.mesh row.old self.old × (self.old.count ≡ 0) }
        ensures row { Restores row.old row.new }
        ensures put { PutsRows self.old self.new (Rows.rows_of corners.now.mesh (length corners.now.mesh.tags.now)) }
    {
        self.starts[0] = 0;
        // By number, since a row is built for a vertex's number.
        for r in 0..corners.mesh.tags.len() {
            self.put_row(row, corners, r);
        }
    }
}
