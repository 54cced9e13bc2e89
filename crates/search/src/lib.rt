// The search of document 01 and what a run of it returns. What they mean, and what the entries on it answer, is in
// specs/.
#![tactic(auto)]

ghost use Rattle.std.specs.Prelude.{◌≡◌};
ghost use Rattle.search.specs.Place.{lists_paths, fresh_search, bound_kept};
ghost use Rattle.search.specs.Entries.{ended_number};

use enumeration::Stop;
use refusal::Refusal;

// Kind 0 lists rings, kind 1 paths from s to t, kind 2 rings of at most s atoms, kind 3 shortest paths from s to t.
// The present beginning is the first `len` places of `prefix`; the places past it hold 0.
// `kind` is a number, not an enum: rules 12 and 16 refuse every other number in a search or a mark that is handed in.
// Document 01 names the array; the memory is fixed.
#[derive(Clone, Copy)]
pub struct Search {
    pub kind: usize,
    pub s: usize,
    pub t: usize,
    pub len: usize,
    pub prefix: [u8; 128],
    pub next: usize,
    pub trials: u64,
    pub extensions: u64,
    pub listed: u64,
}

// What a run that was not refused returns.
#[derive(Clone, Copy)]
pub struct Ran {
    pub stop: Stop,
    pub search: Search,
    pub used: usize,
    pub made: u64,
}

// The form of a mark: old, without bond lines, as it was before request F-5, or new.
#[derive(Clone, Copy, Debug, PartialEq, Eq)]
pub enum Form {
    Old,
    New,
}

// The fresh search: no beginning, next atom 1, counts 0.
pub fn fresh_search(kind: usize, s: usize, t: usize) -> Search
    ensures { result ≡ fresh_search kind s t }
{
    Search {
        kind,
        s,
        t,
        len: 0,
        prefix: [0u8; 128],
        next: 1,
        trials: 0,
        extensions: 0,
        listed: 0,
    }
}

// Whether a search of the kind lists paths from s to t.
pub fn lists_paths(kind: usize) -> bool
    ensures { result ≡ lists_paths kind }
{
    matches!(kind, 1 | 3)
}

// Rule 21: whether k may be the largest size of a ring.
#[tactic(auto, unfolding(crate::specs::Place::bound_kept))]
pub fn bound_kept(k: usize) -> bool
    ensures { result ≡ bound_kept k }
{
    matches!(k, 3..=128)
}

// The number of how a run ended: of its stop or of its refusal.
pub fn ended_number(ended: Result<Stop, Refusal>) -> u32
    ensures { result ≡ ended_number ended }
{
    match ended {
        Ok(stop) => enumeration::stop_number(stop),
        Err(r) => refusal::number(r),
    }
}
