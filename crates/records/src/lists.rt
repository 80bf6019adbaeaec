// Lists of numbers: what has no place reads as a given one and is left out when it is put. A place is an index into a list that C lends, of any length.
ghost use Rattle.std.specs.Prelude.{◌≡◌, get_or, set};
ghost use Rattle.binary64.specs.Constants.{plus_zero};
ghost use Rattle.records.specs.Numbers.{given_by, listed_in, placed};

#[inline]
pub fn get_or<T: Copy>(list: &[T], at: usize, absent: T) -> T
    ensures { result ≡ get_or list.now at absent }
{
    list.get(at).copied().unwrap_or(absent)
}

#[inline]
pub fn put<T: Copy>(out: &mut [T], at: usize, v: T)
    ensures { out.new ≡ set out.old at v }
{
    // Not by `get_mut`, whose contract says nothing of what the list ends as.
    if at < out.len() {
        out[at] = v;
    }
}

// A value with its presence before it: there is none where the presence is 0.
#[inline]
pub fn given<T: Copy>(presence: u64, value: T) -> Option<T>
    ensures { result ≡ given_by presence value }
{
    (presence != 0).then_some(value)
}

// The two lists that a record or settings are read from, where what has no place is 0.
#[derive(Clone, Copy)]
pub struct Lists<'a> {
    pub wholes: &'a [u64],
    pub reals: &'a [f64],
}

// One for each type: what has no place differs too.
impl Lists<'_> {
    #[inline]
    pub fn whole(&self, at: usize) -> u64
        ensures { result ≡ get_or self.now.wholes.now at 0 }
    {
        get_or(self.wholes, at, 0)
    }

    #[inline]
    pub fn real(&self, at: usize) -> f64
        ensures { result ≡ get_or self.now.reals.now at plus_zero }
    {
        get_or(self.reals, at, 0.0)
    }

    // Whether the lists have so many places.
    pub fn placed(&self, wholes: usize, reals: usize) -> bool
        ensures { result ≡ placed wholes reals (listed_in self.now) }
    {
        wholes <= self.wholes.len() && reals <= self.reals.len()
    }
}
