// A sparse matrix by rows, its product with a vector, and scans that decide whether stored lists are such a matrix.
// Stored numbers are u32 and become indices by `as`: no `From` leads from u32 to usize.
#![tactic(auto)]

ghost use Rattle.std.specs.Prelude.{◌≡◌, ◌+◌, ◌-◌, ◌<◌, ◌≤◌, length, get_or};
ghost use Rattle.std.specs.Float.{nan};
ghost use Rattle.binary64.specs.Arith.{◌⊕◌, ◌⊗◌};
ghost use Rattle.stretch.specs.Stretch.{part};
ghost use Rattle.sparse.specs.Sparse.{row_from, row_product, entries};
ghost use Rattle.sparse.specs.ByRows.{IsByRows, IsRow};
ghost use Rattle.sparse.specs.Scan as Scan;

// Compressed sparse rows, whole and only read, where a `rows::matrix::Builder` is one that is put down: row i has the entries from starts[i] up to starts[i + 1], the columns and values side by side.
#[derive(Clone, Copy)]
pub struct Matrix<'a> {
    pub starts: &'a [u32],
    pub cols: &'a [u32],
    pub values: &'a [f64],
    pub ghost by_rows: { IsByRows starts.now cols.now values.now },
}

// Whether the words are below n.
pub fn all_below(words: &[u32], n: u32) -> bool
    ensures { result ≡ Scan.all_below n words.now }
{
    // No early end, so that several words are compared at once.
    words.iter().fold(true, |good, w| good & (*w < n))
}

// Whether row starts never fall, and the last is at most `count`.
pub fn starts_rise(starts: &[u32], count: usize) -> bool
    ensures { result ≡ Scan.rises count starts.now }
{
    let mut good = true;
    let mut low = 0;
    for next in starts {
        good = good & (low <= *next);
        low = *next;
    }
    good & (low as usize <= count)
}

// The product of an entry with x, added to a sum.
fn term(value: f64, column: u32, x: &[f64], sum: f64) -> f64
    requires { column < length x.now }
    ensures { result ≡ sum ⊕ value ⊗ get_or x.now column nan }
{
    sum + value * x[column as usize]
}

// A sum, and the products of the entries from `from` up to `to` with x. Columns and values are lent whole, with numbers for a row: parts made anew for each row take more registers than the loop over the rows has (docs/PROVING.md, Speed). A struct of them would be made again for each shorter rest.
fn rest(cols: &[u32], values: &[f64], x: &[f64], from: usize, to: usize, partial: f64) -> f64
    requires { (from ≤ to) × (to ≤ length cols.now) × IsRow cols.now (length values.now) (length x.now) }
    ensures { result ≡ row_from partial (entries (part cols.now from (to - from)) (part values.now from (to - from))) x.now }
{
    let mut sum = partial;
    for e in from..to {
        sum = term(values[e], cols[e], x, sum);
    }
    sum
}

// The same; two entries are taken before the loop, and most rows have no more.
fn rest_of_few(cols: &[u32], values: &[f64], x: &[f64], from: usize, to: usize, partial: f64) -> f64
    requires { (from ≤ to) × (to ≤ length cols.now) × IsRow cols.now (length values.now) (length x.now) }
    ensures { result ≡ row_from partial (entries (part cols.now from (to - from)) (part values.now from (to - from))) x.now }
{
    if from == to {
        return partial;
    }
    let a = term(values[from], cols[from], x, partial);
    let second = from + 1;
    if second == to {
        return a;
    }
    let b = term(values[second], cols[second], x, a);
    rest(cols, values, x, second + 1, to, b)
}

// The product of a row with x: five entries without a loop, then two, since a loop takes longer (docs/PROVING.md, Speed).
fn row(cols: &[u32], values: &[f64], x: &[f64], from: usize, to: usize) -> f64
    requires { (from ≤ to) × (to ≤ length cols.now) × IsRow cols.now (length values.now) (length x.now) }
    ensures { result ≡ row_product (entries (part cols.now from (to - from)) (part values.now from (to - from))) x.now }
{
    if 5 <= to - from {
        let a = term(values[from], cols[from], x, 0.0);
        let b = term(values[from + 1], cols[from + 1], x, a);
        let c = term(values[from + 2], cols[from + 2], x, b);
        let d = term(values[from + 3], cols[from + 3], x, c);
        let e = term(values[from + 4], cols[from + 4], x, d);
        return rest_of_few(cols, values, x, from + 5, to, e);
    }
    rest(cols, values, x, from, to, 0.0)
}

impl<'a> Matrix<'a> {
    ghost use Rattle.sparse.specs.Sparse.{mat_vec};
    ghost use Rattle.sparse.specs.Matrix.{matrix_of, rows, Multiplied};

    // How many rows it has.
    pub fn rows(&self) -> usize
        ensures { result ≡ rows self.now }
    {
        self.starts.len() - 1
    }

    // Element i of the product with x.
    pub fn row_product(&self, i: usize, x: &[f64]) -> f64
        requires { (i < rows self.now) × (length x.now ≡ rows self.now) }
        ensures { result ≡ get_or (mat_vec (matrix_of self.now) x.now) i nan }
    {
        let from = self.starts[i] as usize;
        let to = self.starts[i + 1] as usize;
        rest(self.cols, self.values, x, from, to, 0.0)
    }

    // The product with x, and what it sums to with x.
    pub fn product(&self, x: &[f64], out: &mut [f64]) -> f64
        requires { (length x.now ≡ rows self.now) × (length out.old ≡ rows self.now) }
        ensures { Multiplied self.now x.now out.new result }
    {
        // Locals, since a store to `out` could be one to the struct. By number, since what is written through a zip with `iter_mut` is known by its length alone.
        let starts = self.starts;
        let cols = self.cols;
        let values = self.values;
        let mut from = starts[0] as usize;
        let mut total = 0.0;
        for (i, at_i) in x.iter().enumerate() {
            let to = starts[i + 1] as usize;
            let y = row(cols, values, x, from, to);
            total = total + *at_i * y;
            out[i] = y;
            from = to;
        }
        total
    }
}
