// What refuses a call: the record's counts, the lent space, and every index and count that a pass would use; and what the calls that are not refused share.
// A record is whatever numbers C hands over, and its place is tested only after the lengths of the lent buffers: so its ends, edge, triangle and counts are numbers here, and any have to fit.
// The lent buffers are three parameters: `&` and `&mut` say which of them a function writes.
#![tactic(auto)]

ghost use Rattle.std.specs.Prelude.{◌≡◌, ◌+◌, ◌*◌, ◌≤◌, IfOk, eqb, length};
ghost use Rattle.binary64.specs.Number.{pick};
ghost use Rattle.model.specs.Space as Space;
ghost use Rattle.image.specs.Calls as Calls;
ghost use Rattle.refusal.specs.Refusal.{fault};
ghost use Rattle.image.specs.Calls.{buffers, sought_at};
ghost use Rattle.image.specs.Accepted.{Accepted};
ghost use Rattle.image.specs.Exits.{moved_run};
ghost use Rattle.work.specs.Ready.{Comes};

use refusal::Refusal;
use work::{Counted, Kept, Laid, Plan, Run, Stand};

// Whether the words are −1's or below t: a word is 32 bits that C lends, so none is a number.
fn all_none_or_below(words: &[u32], t: u32) -> bool
    ensures { result ≡ Calls.all_none_or_below t words.now }
{
    // No early end, so that several words are compared at once.
    words.iter().fold(
        true,
        |good, w| good & ((*w == format::NO_NEIGHBOUR) | (*w < t)),
    )
}

// A plan whose counts are all in their ranges: limit and room, too.
#[derive(Clone, Copy)]
struct Ranged {
    counted: Counted,
    ghost limit_most: { counted.plan.limit ≤ 100000 },
    ghost room_most: { counted.plan.room ≤ 1000000 },
}

// The plan, where its counts are in their ranges. `as usize`: a u64 is no `Into<usize>`.
impl TryFrom<Plan> for Ranged {
    type Error = Refusal;

    ghost try_from_gives = { λ plan r. (fault r ≡ Calls.counts_fault plan) × IfOk r (λ c. c.counted.plan ≡ plan) };

    fn try_from(plan: Plan) -> Result<Ranged, Refusal> {
        let counted = Counted::of(plan).ok_or(Refusal::Record)?;
        let good = (plan.limit <= format::MAX_LIMIT as usize)
            && (1 <= plan.room)
            && (plan.room <= format::MAX_ROOM as usize);
        if good {
            Ok(Ranged { counted })
        } else {
            Err(Refusal::Record)
        }
    }
}

impl Ranged {
    // A buffer of these lengths may be too short.
    fn space_fault(&self, floats: usize, words: usize, path: usize) -> Result<(), Refusal>
        ensures { fault result ≡ Calls.short_fault self.now.counted.plan floats words path }
    {
        let needed = self.counted.space();
        let short = needed.lacks(floats, words, path);
        if short { Err(Refusal::Space) } else { Ok(()) }
    }

    // How many norms there may be: one more than the limit where the field has its end.
    fn norms_most(&self, end: usize) -> usize
        ensures { result ≡ self.now.counted.plan.limit + pick (eqb end 0) 0 1 }
    {
        if end == 0 {
            self.counted.plan.limit
        } else {
            self.counted.plan.limit + 1
        }
    }

    // The counts of a place.
    fn stand_sound(&self, s: Stand) -> bool
        ensures { result ≡ Calls.stand_sound self.now.counted.plan s }
    {
        let p = self.counted.plan;
        let most = Run::FACTOR * p.t;
        let w = s.walk;
        let norms = self.norms_most(s.end);
        let left = (w.end != 0) | (s.crossings < most);
        let walking = (w.points == 0) | ((w.triangle < p.t) & left);
        let path = (w.points <= p.room) & ((s.crossings <= most) & walking);
        let within = (w.triangle == 0) | (w.triangle < p.t);
        let ends = (s.end <= 3) & ((w.end <= 9) & ((w.edge <= pde::NO_EDGE) & (within & path)));
        let far = p.farthest();
        (s.place <= far) & ((1 <= s.norms) & ((s.norms <= norms) & ends))
    }

    // The counts of a mark.
    #[tactic(auto, unfolding(image::specs::Calls::mark_sound))]
    fn mark_sound(&self, mark: Option<Kept>) -> bool
        ensures { result ≡ Calls.mark_sound self.now.counted.plan mark }
    {
        let p = self.counted.plan;
        let far = p.farthest();
        let norms = p.limit + 1;
        mark.is_none_or(|k| (k.place <= far) & ((1 <= k.norms) & (k.norms <= norms)))
    }

    // The indices in the words. The casts keep n and t, which are below 2^32 as the words are. `3 * t`, where the neighbours start, is in no field of `places`.
    fn words_sound(&self, words: &[u32]) -> bool
        requires { Space.word_space self.now.counted.plan.n self.now.counted.plan.t ≤ length words.now }
        ensures { result ≡ Calls.words_sound self.now.counted.plan words.now }
    {
        let n = self.counted.plan.n as u32;
        let t = self.counted.plan.t;
        let (starts, columns) = self.counted.row_words(words);
        let corners = sparse::all_below(&words[..3 * t], n);
        let tags = self.counted.places().tags;
        let neighbours = all_none_or_below(&words[3 * t..tags], t as u32);
        let rising = sparse::starts_rise(starts, self.counted.entries());
        let within = sparse::all_below(columns, n);
        corners & (neighbours & (rising & within))
    }
}

// What refuses any call on this record and these buffers.
pub fn held_fault(run: Run, floats: &[f64], words: &[u32], path: &[f64]) -> Result<(), Refusal>
    ensures { fault result ≡ Calls.held_fault run (buffers floats.now words.now path.now) }
{
    let p: Ranged = run.plan.try_into()?;
    p.space_fault(floats.len(), words.len(), path.len())?;
    let sound = p.stand_sound(run.stand) & (p.mark_sound(run.mark) & p.words_sound(words));
    if sound { Ok(()) } else { Err(Refusal::Record) }
}

// The record at another place, with another count.
pub fn moved(run: Run, stand: Stand, passes: u64) -> Run
    ensures { result ≡ moved_run run stand passes }
{
    Run {
        stand,
        passes,
        ..run
    }
}

// The way to another place of this run.
pub fn seek(run: Run, target: usize, floats: &mut [f64], words: &[u32], path: &mut [f64]) -> Stand
    requires { Accepted run (buffers floats.old words.now path.old) × (target ≤ Space.farthest run.plan.t run.plan.limit) }
    ensures { Comes (sought_at run (buffers floats.old words.now path.old) target) result floats.new path.new }
{
    let laid = Laid {
        counted: Counted { plan: run.plan },
        words,
    };
    seek::seek(floats, path, &laid, run.stand, run.mark, target)
}
