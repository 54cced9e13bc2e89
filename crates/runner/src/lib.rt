// The run of a search past rules 9 and 12 (document 01, "The search, trial by trial"): trials until done, limit, spent
// or full.
#![tactic(auto)]

ghost use Rattle.std.specs.Prelude.{◌≡◌, true, ◌<◌, ◌≤◌, Ok};
ghost use Rattle.std.specs.Option.{ForSome};
ghost use Rattle.molecule.specs.Record.{well_formed};
ghost use Rattle.search.specs.Place.{restorable};
ghost use Rattle.search.specs.Entries.{run_search, run_output};
ghost use Rattle.openness.specs.Plan.{family_wanted, Planning, Ahead};
ghost use Rattle.trial.specs.Parts.{search_held};
ghost use Rattle.dive.specs.Levels.{LevelRoom};
ghost use Rattle.runner.specs.Parts.{Ready, stop_before, Finds, outcome_by, Yields};

use dive::{Dived, Level};
use enumeration::Stop;
use molecule::Molecule;
use openness::{FirstPlan, Found, Plan, Wanted};
use search::{Ran, Search};
use trial::Spot;

// The search of q at a place.
fn search_at(q: Search, prefix: [u8; 128], at: Spot) -> Search
    ensures { result ≡ search_held q.kind q.s q.t prefix at }
{
    Search {
        len: at.len,
        prefix,
        next: at.next,
        trials: at.trials,
        extensions: at.extensions,
        listed: at.listed,
        ..q
    }
}

// Why a run that has made so many trials makes no further one, if it does not.
fn stop_before(at: Spot, n: usize, made: u64, budget: u64) -> Option<Stop>
    requires { n ≤ 128 }
    ensures { result ≡ stop_before at n made budget }
{
    if at.is_done(n) {
        return Some(Stop::Done);
    }
    if at.at_limit() {
        return Some(Stop::Limit);
    }
    if made == budget {
        return Some(Stop::Spent);
    }
    None
}

// What a trial finds at a beginning, by its plan where that is known, or by a new one.
fn found_at(
    wanted: Wanted<'_>,
    beginning: &[u8],
    c: usize,
    plan: Option<Plan>,
    first: Option<FirstPlan>,
) -> Found
    requires { Planning wanted.n wanted.table.now wanted.kind wanted.s wanted.t beginning.now c first ×
        ForSome plan (Ahead (family_wanted wanted) beginning.now c) }
    ensures { Finds (family_wanted wanted.entry) beginning.now c result }
{
    match plan {
        Some(plan) => Found { plan, first },
        None => openness::plan_at(wanted, beginning, c, first),
    }
}

// The run of a search that rule 12 allows, over the table of the search; `levels` is for the fast loop.
// Each record is written at the start of what is left of the output (document 01), so `used` goes beside `out`.
fn run_trials(
    wanted: Wanted<'_>,
    q: Search,
    budget: u64,
    levels: &mut [Level],
    out: &mut [u8],
) -> Ran
    requires { Ready wanted q × LevelRoom wanted.n levels.old }
    ensures { Yields q (outcome_by wanted.entry q budget out.old) out.old result out.new }
{
    let mut prefix = q.prefix;
    let mut at = Spot::of(q);
    // what is known of the present beginning, and of one of one atom
    let mut plan: Option<Plan> = None;
    let mut first: Option<FirstPlan> = None;
    let mut used: usize = 0;
    let mut made: u64 = 0;
    let stop = loop {
        let idle = match plan {
            Some(found) => at.idle_trials(found, wanted.n, budget - made),
            None => 0,
        };
        at = at.skipped(idle);
        made += idle as u64;
        if let Some(stop) = stop_before(at, wanted.n, made, budget) {
            break stop;
        }
        let beginning = &prefix[..at.len];
        let found = found_at(wanted, beginning, at.next, plan, first);
        first = found.first;
        let lists = atomset::contains(found.plan.members, at.next);
        if lists {
            if out.len() - used < at.len + 2 {
                break Stop::Full;
            }
            trial::put_record(&mut out[used..], beginning, at.next);
            used += at.len + 2;
        }
        let opens = atomset::contains(found.plan.opens, at.next);
        let spot = trial::act(&mut prefix, at, wanted.n, lists, opens);
        made += 1;
        let left = budget - made;
        plan = if trial::is_stale(at.len, spot.len) {
            None
        } else {
            Some(found.plan)
        };
        let from = Dived { at: spot, used };
        let dived = dive::descend(wanted, from, left, first, &mut prefix, levels, out);
        at = dived.at;
        used = dived.used;
        made += at.trials - spot.trials;
    };
    let search = search_at(q, prefix, at);
    Ran {
        stop,
        search,
        used,
        made,
    }
}

// The same with N levels for the fast loop.
fn run_with<const N: usize>(wanted: Wanted<'_>, q: Search, budget: u64, out: &mut [u8]) -> Ran
    requires { Ready wanted q × (wanted.n < N) × (N ≤ 129) }
    ensures { Yields q (outcome_by wanted.entry q budget out.old) out.old result out.new }
{
    let mut levels = [Level::empty(); N];
    run_trials(wanted, q, budget, &mut levels, out)
}

// The same: a small molecule needs few levels, which are cheaper to make.
fn run_over(wanted: Wanted<'_>, q: Search, budget: u64, out: &mut [u8]) -> Ran
    requires { Ready wanted q }
    ensures { Yields q (outcome_by wanted.entry q budget out.old) out.old result out.new }
{
    if wanted.n < 32 {
        return run_with::<32>(wanted, q, budget, out);
    }
    run_with::<129>(wanted, q, budget, out)
}

// The run of a search that rule 12 allows on a molecule that rule 9 allows: trials until done, limit, spent or full.
// Rules 9 and 12 are clauses and no type: `docs/DECISIONS.md`, 10, names this function with the record and the search.
pub fn run_checked(m: Molecule, q: Search, budget: u64, out: &mut [u8]) -> Ran
    requires { (well_formed m ≡ true) × (restorable m q ≡ true) }
    ensures { (Ok result ≡ run_search m q budget out.old) ×
        (out.new ≡ run_output m q budget out.old) }
{
    let words = atomset::words_of(&m.rows);
    let wanted = Wanted {
        table: &words,
        n: m.atoms,
        kind: q.kind,
        s: q.s,
        t: q.t,
    };
    // Of shortest paths the search goes by the bonds that lead one nearer to t.
    if q.kind == 3 {
        let near = distance::nearing(&words, m.atoms, q.t);
        let nearer = Wanted {
            table: &near,
            ..wanted
        };
        return run_over(nearer, q, budget, out);
    }
    run_over(wanted, q, budget, out)
}
