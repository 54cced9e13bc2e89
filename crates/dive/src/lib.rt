// The fast loop of a run (document 02, F-3): trials below an open beginning of which none can stop the run. The sets of
// each beginning on the way are kept by its length, so that a shorter one finds its own again.
#![tactic(auto)]

ghost use Rattle.std.specs.Prelude.{◌≡◌, true, suc, ◌-◌, ◌≤◌, ◌<◌, length};
ghost use Rattle.enumeration.specs.Run.{limit};
ghost use Rattle.atomset.specs.Set.{linked_by};
ghost use Rattle.openness.specs.Plan.{family_wanted, most_atoms, first_length, BothWays};
ghost use Rattle.dive.specs.Levels.{no_level, aim_of, rest_of, with_aim, with_rest};
ghost use Rattle.dive.specs.Levels.{LevelRoom, LevelPlanned, LevelAdded};
ghost use Rattle.dive.specs.Parts.{Rising, listed_at, extended_at, dropped_at, Room, Added, Starting};
ghost use Rattle.dive.specs.Parts.{StartPlanned, Descent, Left, Entering, Descended};

use fields::LIMIT;
use openness::{Aim, FirstPlan, Plan, Wanted};
use trial::Spot;

// One more than the trials of a turn of the fast loop.
const NEAR: u64 = 129;

// A word of each set of a level.
#[derive(Clone, Copy)]
pub struct LevelWords {
    pub goal: u64,
    pub free: u64,
    pub rest: u64,
}

// What is kept for the beginnings of one length: the two sets that steer them, and the atoms still to be tried.
// The lower words of the sets stand together, and the upper ones: the two words of one set beside each other would be
// joined to one load of 16 bytes, which waits for the two stores before it (`docs/DECISIONS.md`, 40).
#[derive(Clone, Copy)]
pub struct Level {
    pub low: LevelWords,
    pub high: LevelWords,
}

impl Level {
    // No atoms.
    pub fn empty() -> Level
        ensures { result ≡ no_level }
    {
        let none = LevelWords {
            goal: 0,
            free: 0,
            rest: 0,
        };
        Level {
            low: none,
            high: none,
        }
    }

    // The two sets that steer.
    fn aim(self) -> Aim
        ensures { result ≡ aim_of self }
    {
        Aim {
            goal: [self.low.goal, self.high.goal],
            free: [self.low.free, self.high.free],
        }
    }

    // The atoms still to be tried.
    fn rest(self) -> [u64; 2]
        ensures { result ≡ rest_of self }
    {
        [self.low.rest, self.high.rest]
    }

    // Keeps two sets that steer.
    fn keep_aim(&mut self, aim: Aim)
        ensures { self.new ≡ with_aim self.old aim }
    {
        self.low.goal = aim.goal[0];
        self.low.free = aim.free[0];
        self.high.goal = aim.goal[1];
        self.high.free = aim.free[1];
    }

    // Keeps atoms to be tried.
    fn keep_rest(&mut self, rest: [u64; 2])
        ensures { self.new ≡ with_rest self.old rest }
    {
        self.low.rest = rest[0];
        self.high.rest = rest[1];
    }
}

// Where the fast loop enters or has left the search, and the bytes used.
#[derive(Clone, Copy)]
pub struct Dived {
    pub at: Spot,
    pub used: usize,
}

// Plans the beginning of `len` atoms with the last atom x, past which so many steps are left: keeps the atoms to be
// tried, and the sets of the beginnings that have an atom more.
fn plan_level(wanted: Wanted<'_>, levels: &mut [Level], len: usize, x: usize, steps: usize)
    requires { BothWays wanted.kind (linked_by wanted.table.now) × (len ≤ 127) × (1 ≤ x) × (x ≤ 128) ×
        LevelRoom (suc len) levels.old }
    ensures { LevelPlanned (linked_by wanted.entry.table.now) wanted.entry.kind x len steps levels.old levels.new }
{
    let aim = levels[len].aim();
    let next = openness::aim_after(wanted.table, aim, x);
    let plan = openness::plan_by(wanted.table, wanted.kind, aim, next, x, steps);
    let rest = atomset::union(plan.members, plan.opens);
    levels[len + 1].keep_aim(next);
    levels[len].keep_rest(rest);
}

// Plans the beginning that has got its last atom x. The sets of a longer one were handed on; those of the shortest that
// two sets steer are made here.
fn plan_added(wanted: Wanted<'_>, beginning: &[u8], levels: &mut [Level], x: usize)
    requires { Added wanted beginning.now levels.old x }
    ensures { LevelAdded (family_wanted wanted.entry) (linked_by wanted.entry.table.now)
        (most_atoms wanted.entry.kind wanted.entry.s) (first_length wanted.entry.kind) x (length beginning.now)
        beginning.now levels.old levels.new }
{
    let len = beginning.len();
    if len == openness::first_length(wanted.kind) {
        let aim = openness::first_aim(wanted, beginning);
        levels[len].keep_aim(aim);
    }
    let steps = openness::steps_left(wanted.kind, wanted.s, len);
    plan_level(wanted, levels, len, x, steps);
}

// The place after the trials from the next atom up to v, of which the last lists its word.
fn listed(at: Spot, v: usize) -> Spot
    requires { Rising at v × (at.listed ≤ limit) }
    ensures { result ≡ listed_at at v }
{
    Spot {
        next: v + 1,
        trials: at.trials + (v + 1 - at.next) as u64,
        listed: at.listed + 1,
        ..at
    }
}

// The place after the trials from the next atom up to v, of which the last adds v to the beginning.
fn extended(at: Spot, v: usize) -> Spot
    requires { Rising at v × (at.len ≤ 128) × (at.extensions ≤ limit) }
    ensures { result ≡ extended_at at v }
{
    Spot {
        len: at.len + 1,
        next: 1,
        trials: at.trials + (v + 1 - at.next) as u64,
        extensions: at.extensions + 1,
        ..at
    }
}

// The place after the trials from the next atom up to n, where the last atom is dropped.
fn dropped(at: Spot, n: usize, last: usize) -> Spot
    requires { Rising at n × (1 ≤ at.len) × (last ≤ 255) }
    ensures { result ≡ dropped_at at n last }
{
    Spot {
        len: at.len - 1,
        next: last + 1,
        trials: at.trials + (n + 1 - at.next) as u64,
        ..at
    }
}

// Trials below the beginning of `from`, as long as none of them can stop the run: up to 128 trials before the count of
// trials is `most`, and before a record that does not fit.
fn dive(
    wanted: Wanted<'_>,
    most: u64,
    from: Dived,
    prefix: &mut [u8; 128],
    levels: &mut [Level],
    out: &mut [u8],
) -> Dived
    requires { Descent wanted most from prefix.old levels.old out.old }
    ensures { Left (family_wanted wanted.entry) wanted.entry.n most prefix.old from out.old
        prefix.new out.new result }
{
    let Dived { mut at, mut used } = from;
    let base = at.len;
    while base <= at.len {
        if most - at.trials < NEAR {
            break;
        }
        let len = at.len;
        let level = levels[len];
        let rest = level.rest();
        if atomset::is_empty(rest) {
            let last = usize::from(prefix[len - 1]);
            prefix[len - 1] = 0;
            at = dropped(at, wanted.n, last);
        } else {
            let v = atomset::lowest(rest);
            let others = atomset::without_lowest(rest);
            levels[len].keep_rest(others);
            let aim = level.aim();
            if atomset::lowest_in(rest, others, aim.goal) {
                if out.len() - used < len + 2 {
                    break;
                }
                trial::put_record(&mut out[used..], &prefix[..len], v);
                used += len + 2;
                at = listed(at, v);
            } else {
                prefix[len] = v as u8;
                at = extended(at, v);
                plan_added(wanted, &prefix[..len + 1], levels, v);
            }
        }
    }
    Dived { at, used }
}

// How many trials, of at most `left`, take no count past the limit.
fn room_for(at: Spot, left: u64) -> u64
    requires { (at.trials ≤ limit) × (at.extensions ≤ limit) × (at.listed ≤ limit) }
    ensures { Room at left result }
{
    left.min(LIMIT - at.trials)
        .min(LIMIT - at.extensions)
        .min(LIMIT - at.listed)
}

// Plans a beginning for the fast loop, if it can be: by its two sets, or, where it is too short for them, as the first
// plan tells of its one atom. Whether it is planned.
fn plan_start(
    wanted: Wanted<'_>,
    beginning: &[u8],
    first: Option<FirstPlan>,
    levels: &mut [Level],
) -> bool
    requires { Starting wanted beginning.now first levels.old }
    ensures { result ≡ true → StartPlanned wanted.entry beginning.now levels.new }
{
    let len = beginning.len();
    if openness::first_length(wanted.kind) <= len {
        let aim = openness::aim_at(wanted, beginning);
        levels[len].keep_aim(aim);
        let steps = openness::steps_left(wanted.kind, wanted.s, len);
        plan_level(wanted, levels, len, usize::from(beginning[len - 1]), steps);
        return true;
    }
    match first {
        Some(kept) if len == 1 && beginning[0] == kept.atom => {
            let Plan { members, opens } = kept.plan;
            let aim = Aim {
                goal: members,
                free: opens,
            };
            let rest = atomset::union(members, opens);
            levels[len].keep_aim(aim);
            levels[len].keep_rest(rest);
            true
        }
        _ => false,
    }
}

// The trials below an open beginning that is planned, as long as none of them can stop the run; then the unwinding.
fn below(
    wanted: Wanted<'_>,
    most: u64,
    from: Dived,
    prefix: &mut [u8; 128],
    levels: &mut [Level],
    out: &mut [u8],
) -> Dived
    requires { Descent wanted most from prefix.old levels.old out.old }
    ensures { Descended (family_wanted wanted.entry) prefix.old from (most - from.at.trials)
        out.old prefix.new out.new result }
{
    let Dived { at: end, used } = dive(wanted, most, from, prefix, levels, out);
    let place = trial::unwind(prefix, end.len, end.next, wanted.n);
    Dived {
        at: Spot {
            len: place.len,
            next: place.next,
            ..end
        },
        used,
    }
}

// The trials that the fast loop makes from a place of a run, if it pays, of at most `left`: the last trial has added an
// atom, and some hundred trials are left. The first plan tells of a beginning that is too short for two sets.
// No struct of `prefix`, `levels` and `out`: the run uses each alone between two calls, and would make one at each.
pub fn descend(
    wanted: Wanted<'_>,
    from: Dived,
    left: u64,
    first: Option<FirstPlan>,
    prefix: &mut [u8; 128],
    levels: &mut [Level],
    out: &mut [u8],
) -> Dived
    requires { Entering wanted from first prefix.old levels.old out.old }
    ensures { Descended (family_wanted wanted.entry) prefix.old from left
        out.old prefix.new out.new result }
{
    let at = from.at;
    if left < 256 || at.next != 1 || !plan_start(wanted, &prefix[..at.len], first, levels) {
        return from;
    }
    let most = at.trials + room_for(at, left);
    below(wanted, most, from, prefix, levels, out)
}
