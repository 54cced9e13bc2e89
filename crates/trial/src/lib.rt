// One trial of a search and its unwinding, trials that only raise the next atom, and the record of a listed member
// (document 01, "The search, trial by trial").
#![tactic(auto)]

ghost use Rattle.std.specs.Prelude.{◌≡◌, ◌&&◌, ◌||◌, [], ◌∷◌, ◌++◌, suc, ◌+◌, ◌≤◌, length, take, drop, eqb};
ghost use Rattle.enumeration.specs.Run.{limit, record_of};
ghost use Rattle.trial.specs.Parts.{HeldWithRoom, Counting, Acted, ToUnwind, Unwound, Stale, AtomAhead, Gap, Idle};
ghost use Rattle.trial.specs.Parts.{skip, spot_of};

use fields::LIMIT;
use openness::Plan;
use search::Search;

// The place of a search but for its beginning's atoms, and its counts.
#[derive(Clone, Copy)]
pub struct Spot {
    pub len: usize,
    pub next: usize,
    pub trials: u64,
    pub extensions: u64,
    pub listed: u64,
}

// The length of a beginning and the next atom.
#[derive(Clone, Copy)]
pub struct Place {
    pub len: usize,
    pub next: usize,
}

// Whether the next trial needs a new plan: the beginning has changed.
pub fn is_stale(before: usize, after: usize) -> bool
    ensures { Stale before after result }
{
    before != after
}

// How many atoms from c on, the last one left out, neither make a member nor open a beginning, by the plan.
fn gap(found: Plan, c: usize, n: usize) -> usize
    requires { AtomAhead c n }
    ensures { Gap found c n result }
{
    let either = atomset::union(found.members, found.opens);
    let ahead = atomset::range(c - 1, n);
    let next = atomset::intersection(either, ahead);
    if atomset::is_empty(next) {
        return n - c;
    }
    atomset::lowest(next) - c
}

impl Spot {
    // The place and the counts of a search.
    // No `From`: its contract would stand in a ghost member, away from the other methods.
    pub fn of(q: Search) -> Spot
        ensures { result ≡ spot_of q }
    {
        Spot {
            len: q.len,
            next: q.next,
            trials: q.trials,
            extensions: q.extensions,
            listed: q.listed,
        }
    }

    // Whether the search is done: its beginning is empty and the next atom is n + 1.
    pub fn is_done(self, n: usize) -> bool
        requires { n ≤ 128 }
        ensures { result ≡ (eqb self.len 0 && eqb self.next (suc n)) }
    {
        self.len == 0 && self.next == n + 1
    }

    // Whether a count stands at the limit.
    pub fn at_limit(self) -> bool
        ensures { result ≡ (eqb self.trials limit || eqb self.extensions limit || eqb self.listed limit) }
    {
        self.trials == LIMIT || self.extensions == LIMIT || self.listed == LIMIT
    }

    // How many trials from the next atom on only raise it, by the plan: no more than the budget and the limit leave.
    pub fn idle_trials(self, found: Plan, n: usize, left: u64) -> usize
        requires { (1 ≤ self.next) × (n ≤ 128) }
        ensures { Idle found self n left result }
    {
        if n < self.next || self.at_limit() {
            return 0;
        }
        let k = gap(found, self.next, n);
        if left < k as u64 || LIMIT - 128 < self.trials {
            return 0;
        }
        k
    }

    // The place after k such trials.
    pub fn skipped(self, k: usize) -> Spot
        requires { (self.next ≤ 129) × (self.trials ≤ limit) × (k ≤ 128) }
        ensures { result ≡ skip k self }
    {
        Spot {
            next: self.next + k,
            trials: self.trials + k as u64,
            ..self
        }
    }
}

// As long as the next atom is n + 1 and the beginning is not empty, its last atom is dropped, and the next atom is that
// atom + 1.
pub fn unwind(prefix: &mut [u8; 128], from: usize, first: usize, n: usize) -> Place
    requires { ToUnwind n prefix.old from }
    ensures { Unwound n prefix.old from first prefix.new result }
{
    let mut len = from;
    let mut c = first;
    // no `for`: `len` is the place that is returned, and would be one more than the counter
    while 0 < len {
        if c != n + 1 {
            return Place { len, next: c };
        }
        len -= 1;
        c = usize::from(prefix[len]) + 1;
        prefix[len] = 0;
    }
    Place { len, next: c }
}

// One trial with the unwinding after it, by whether the word is a member and whether it is open.
pub fn act(prefix: &mut [u8; 128], at: Spot, n: usize, member: bool, extends: bool) -> Spot
    requires { HeldWithRoom prefix.old at.len × Counting n at }
    ensures { Acted n prefix.old at member extends prefix.new result }
{
    if extends && !member {
        prefix[at.len] = at.next as u8;
        return Spot {
            len: at.len + 1,
            next: 1,
            trials: at.trials + 1,
            extensions: at.extensions + 1,
            ..at
        };
    }
    let Place { len, next } = unwind(prefix, at.len, at.next + 1, n);
    Spot {
        len,
        next,
        trials: at.trials + 1,
        listed: at.listed + u64::from(member),
        ..at
    }
}

// Writes the record of the beginning with c added at the start of `part`.
pub fn put_record(part: &mut [u8], beginning: &[u8], c: usize)
    requires { (length beginning.now ≤ 127) × (c ≤ 128) × (length beginning.now + 2 ≤ length part.old) }
    ensures { part.new ≡
        record_of (beginning.now ++ c ∷ []) ++ drop (length beginning.now + 2) part.old }
{
    let len = beginning.len();
    part[0] = (len + 1) as u8;
    part[1..len + 1].copy_from_slice(beginning);
    part[len + 1] = c as u8;
}
