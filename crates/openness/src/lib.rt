// Members and open beginnings by sets of atoms (lemma 2 of document 003). Two sets steer a search below a beginning,
// and are handed on to each longer one; a kind of search supplies the first two, and the most atoms of a member, which
// leaves so many steps past an atom added.
#![tactic(auto)]

ghost use Rattle.std.specs.Prelude.{ℕ, ◌-◌, ◌≤◌, ◌<◌, ◌≡◌, true, List, [], ◌∷◌, ◌++◌, length, take, get_or};
ghost use Rattle.std.specs.Option.{ForSome};
ghost use Rattle.enumeration.specs.Words.{Family, is_open};
ghost use Rattle.chordless.specs.Reach.{Symmetric};
ghost use Rattle.chordless.specs.Steers.{Steers};
ghost use Rattle.atomset.specs.Set.{has, linked_by};
ghost use Rattle.sweep.specs.Swept.{Reached};
ghost use Rattle.search.specs.Place.{kind_kept};
ghost use Rattle.openness.specs.Plan.{rings_by, paths_by, most_atoms, steps_left, first_length};
ghost use Rattle.openness.specs.Plan.{Words, SearchTable, Planning, FoundAt, Everywhere, Steered};
ghost use Rattle.openness.specs.Plan.{family_wanted, Begins};
ghost use Rattle.openness.specs.Plan.{HandedOn, BothWays, EachOpens, PlansBy};
ghost use Rattle.openness.specs.Parts.{OneAtom, TwoAtoms, TwoEnds, BesideLast, Stepping};
ghost use Rattle.openness.specs.Parts.{FirstOf, FirstAhead, ShortRing, PathFirsts, begins_first};

// The atoms that make a member of a beginning, and those that open it.
#[derive(Clone, Copy)]
pub struct Plan {
    pub members: [u64; 2],
    pub opens: [u64; 2],
}

// What a search wants: the kind of its members, s and t, among n atoms, over the table of their bonds (of shortest
// paths the bonds that lead nearer to t).
// Its kind is a number, and its facts stay clauses: `words-answer-openness` speaks of any kind, and docs/TRACE.md names
// `plan_at`, `is_open` and `aim_at`, which may ask for no narrower type.
#[derive(Clone, Copy)]
pub struct Wanted<'a> {
    pub table: &'a [u64; 256],
    pub n: usize,
    pub kind: usize,
    pub s: usize,
    pub t: usize,
}

// The plan of a beginning of one atom, and that atom.
#[derive(Clone, Copy)]
pub struct FirstPlan {
    pub plan: Plan,
    pub atom: u8,
}

// What a trial finds at a beginning, and the plan of a beginning of one atom that is kept, if there is one.
#[derive(Clone, Copy)]
pub struct Found {
    pub plan: Plan,
    pub first: Option<FirstPlan>,
}

// The two sets that steer a search below a beginning, but for what is bonded to its last atom: the atoms that may close
// a member, and those that may stand between.
#[derive(Clone, Copy)]
pub struct Aim {
    pub goal: [u64; 2],
    pub free: [u64; 2],
}

// The atoms beside the last one of a beginning that make a member, and those that may open it.
#[derive(Clone, Copy)]
struct Beside {
    pub members: [u64; 2],
    pub want: [u64; 2],
}

// The length of the shortest beginnings that two sets steer: of rings 2, of paths 1.
pub fn first_length(kind: usize) -> usize
    ensures { result ≡ first_length kind }
{
    if search::lists_paths(kind) {
        return 1;
    }
    2
}

// The most atoms that a member of the kind may have.
fn most_atoms(kind: usize, s: usize) -> usize
    ensures { result ≡ most_atoms kind s }
{
    if kind <= 1 || kind == 3 {
        return 128;
    }
    s
}

// The steps that are left past an atom added to a beginning of `len` atoms.
pub fn steps_left(kind: usize, s: usize, len: usize) -> usize
    requires { len < most_atoms kind s }
    ensures { result ≡ steps_left kind s len }
{
    most_atoms(kind, s) - 1 - len
}

// The sets handed on past the last atom x: less the atoms bonded to it.
pub fn aim_after(table: &[u64; 256], aim: Aim, x: usize) -> Aim
    requires { (1 ≤ x) × (x ≤ 128) }
    ensures { HandedOn (linked_by table.now) x aim result }
{
    let row = atomset::row(table, x);
    Aim {
        goal: atomset::minus(aim.goal, row),
        free: atomset::minus(aim.free, row),
    }
}

// The first sets of a ring that begins with s and a: above a and bonded to s; above s and not bonded to it.
fn ring_aim(table: &[u64; 256], n: usize, s: usize, a: usize) -> Aim
    requires { TwoAtoms n table.now s a }
    ensures { (most : ℕ) →
        Steers (rings_by n table.now most) (linked_by table.now) most (s ∷ a ∷ []) a
        (has result.goal) (has result.free) }
{
    let row = atomset::row(table, s);
    let above = atomset::range(a, n);
    let low = atomset::range(s, n);
    let goal = atomset::intersection(above, row);
    let free = atomset::minus(low, row);
    Aim { goal, free }
}

// The first sets of a path from s to t: t; every atom but s.
fn path_aim(wanted: Wanted<'_>) -> Aim
    requires { TwoEnds wanted.n wanted.table.now wanted.s wanted.t }
    ensures { let w = wanted.entry in
        Steers (paths_by w.n w.table.now w.s w.t) (linked_by w.table.now) 128 (w.s ∷ []) w.s
        (has result.goal) (has result.free) }
{
    let goal = atomset::single(wanted.t);
    let all = atomset::up_to(wanted.n);
    let free = atomset::without_atom(all, wanted.s);
    Aim { goal, free }
}

// The first sets of a beginning, by its kind and its first atoms.
pub fn first_aim(wanted: Wanted<'_>, beginning: &[u8]) -> Aim
    requires { Begins wanted (take (first_length wanted.kind) beginning.now) ×
        (first_length wanted.kind ≤ length beginning.now) }
    ensures { Steered (family_wanted wanted.entry) (linked_by wanted.entry.table.now)
        (most_atoms wanted.entry.kind wanted.entry.s) (take (first_length wanted.entry.kind) beginning.now)
        (get_or beginning.now (first_length wanted.entry.kind - 1) 0) result }
{
    if search::lists_paths(wanted.kind) {
        return path_aim(wanted);
    }
    ring_aim(
        wanted.table,
        wanted.n,
        usize::from(beginning[0]),
        usize::from(beginning[1]),
    )
}

// The sets of an open beginning, handed on from the first ones.
pub fn aim_at(wanted: Wanted<'_>, beginning: &[u8]) -> Aim
    requires { Begins wanted beginning.now × (first_length wanted.kind ≤ length beginning.now) }
    ensures { Steered (family_wanted wanted.entry) (linked_by wanted.entry.table.now)
        (most_atoms wanted.entry.kind wanted.entry.s) beginning.now
        (get_or beginning.now (length beginning.now - 1) 0) result }
{
    let mut aim = first_aim(wanted, beginning);
    for i in first_length(wanted.kind)..beginning.len() {
        aim = aim_after(wanted.table, aim, usize::from(beginning[i - 1]));
    }
    aim
}

// Of the candidates `want` at an open beginning with these members, those that open it: one sweep tells. Of shortest
// paths every bond of the table leads nearer to t, and each candidate that makes no member opens.
fn openers(
    table: &[u64; 256],
    kind: usize,
    next: Aim,
    members: [u64; 2],
    want: [u64; 2],
    steps: usize,
) -> [u64; 2]
    requires { BothWays kind (linked_by table.now) }
    ensures { (F : Family) (most : ℕ) (p : List ℕ) (x : ℕ) (aim : Aim) →
        Stepping F (linked_by table.now) kind most p x aim next steps members want →
        (v : ℕ) → has result v ≡ is_open F (p ++ v ∷ []) }
{
    if kind != 3 {
        return sweep::reached(table, next.free, next.goal, want, steps);
    }
    atomset::minus(want, members)
}

// The same for the fast loop, which leaves the sweep out where it can. Where nothing may close a member later, or there
// is no candidate, none opens; where the beginning has no member, a sole candidate opens it, in every family. It calls
// the sweep itself, so that this is compiled into the loop.
fn opening(
    table: &[u64; 256],
    kind: usize,
    next: Aim,
    members: [u64; 2],
    want: [u64; 2],
    steps: usize,
) -> [u64; 2]
    requires { BothWays kind (linked_by table.now) }
    ensures { (F : Family) (most : ℕ) (p : List ℕ) (x : ℕ) (aim : Aim) →
        Stepping F (linked_by table.now) kind most p x aim next steps members want →
        (v : ℕ) → has result v ≡ is_open F (p ++ v ∷ []) }
{
    let goal = next.goal;
    if atomset::is_empty(goal) {
        return goal;
    }
    if atomset::is_empty(want) {
        return want;
    }
    if atomset::is_empty(members) {
        if atomset::at_most_one(want) {
            return want;
        }
    }
    if kind == 3 {
        return atomset::minus(want, members);
    }
    let free = next.free;
    sweep::reached(table, free, goal, want, steps)
}

// What the two sets have beside the last atom x: the atoms that make a member, and the candidates.
fn beside_last(table: &[u64; 256], aim: Aim, x: usize) -> Beside
    requires { (1 ≤ x) × (x ≤ 128) }
    ensures { BesideLast (linked_by table.now) x aim result }
{
    let row = atomset::row(table, x);
    Beside {
        members: atomset::intersection(aim.goal, row),
        want: atomset::intersection(aim.free, row),
    }
}

// The plan of an open beginning that the sets steer, with the last atom x; `next` are the sets handed on, and `steps`
// are left past an atom added.
pub fn plan_by(table: &[u64; 256], kind: usize, aim: Aim, next: Aim, x: usize, steps: usize) -> Plan
    requires { BothWays kind (linked_by table.now) × HandedOn (linked_by table.now) x aim next × (1 ≤ x) × (x ≤ 128) }
    ensures { PlansBy (linked_by table.now) kind x aim steps result }
{
    let Beside { members, want } = beside_last(table, aim, x);
    let opens = opening(table, kind, next, members, want, steps);
    Plan { members, opens }
}

// The same plan by `openers`, whatever the candidates: for the places where single beginnings are planned. The fast
// loop alone calls `plan_by`, so that it is compiled into the loop.
// One function for both was tried: shared with the loop, it made cage compounds take half as long again (`make bench`).
fn swept_plan(table: &[u64; 256], kind: usize, aim: Aim, next: Aim, x: usize, steps: usize) -> Plan
    requires { BothWays kind (linked_by table.now) × HandedOn (linked_by table.now) x aim next × (1 ≤ x) × (x ≤ 128) }
    ensures { PlansBy (linked_by table.now) kind x aim steps result }
{
    let Beside { members, want } = beside_last(table, aim, x);
    let opens = openers(table, kind, next, members, want, steps);
    Plan { members, opens }
}

// The plan of an open beginning that is long enough for its two sets.
fn steered_plan(wanted: Wanted<'_>, beginning: &[u8]) -> Plan
    requires { Begins wanted beginning.now × (first_length wanted.kind ≤ length beginning.now) }
    ensures { Everywhere (family_wanted wanted.entry) beginning.now result }
{
    let len = beginning.len();
    let aim = aim_at(wanted, beginning);
    let x = usize::from(beginning[len - 1]);
    let next = aim_after(wanted.table, aim, x);
    let steps = steps_left(wanted.kind, wanted.s, len);
    swept_plan(wanted.table, wanted.kind, aim, next, x, steps)
}

// Whether the beginning s, v of a ring of at most `most` atoms is open.
// No Wanted: a bound on the size is all that rings need of one.
fn pair_opens(table: &[u64; 256], n: usize, most: usize, s: usize, v: usize) -> bool
    requires { TwoAtoms n table.now s v × (3 ≤ most) }
    ensures { result ≡ is_open (rings_by n table.now most) (s ∷ v ∷ []) }
{
    if v <= s {
        return false;
    }
    let first = atomset::row(table, s);
    if !atomset::contains(first, v) {
        return false;
    }
    let above = atomset::range(v, n);
    let low = atomset::range(s, n);
    let targets = atomset::intersection(above, first);
    let free = atomset::minus(low, first);
    let alone = atomset::single(v);
    let swept = sweep::reached(table, free, targets, alone, most - 2);
    atomset::contains(swept, v)
}

// Of the atoms of `want`, those from which a target is reached through free atoms in at most `steps` steps; no sweep
// where none is wanted.
fn reached_from(
    table: &[u64; 256],
    free: [u64; 2],
    targets: [u64; 2],
    want: [u64; 2],
    steps: usize,
) -> [u64; 2]
    requires { Symmetric (linked_by table.now) }
    ensures { Reached (linked_by table.now) (has free) (has targets) steps (has want) (has result) }
{
    if atomset::is_empty(want) {
        return want;
    }
    sweep::reached(table, free, targets, want, steps)
}

// The atoms that open the beginning s of a ring of at most `most` atoms: those above s, bonded to it, from which a
// higher one is reached through the atoms above s that are not bonded to it, in as many steps as are left. Each of them
// is taken as the last atom of a ring, from the lowest on.
fn second_atoms(table: &[u64; 256], n: usize, most: usize, s: usize) -> [u64; 2]
    requires { OneAtom n table.now most s }
    ensures { (v : ℕ) → has result v ≡ is_open (rings_by n table.now most) (s ∷ v ∷ []) }
{
    let row = atomset::row(table, s);
    let low = atomset::range(s, n);
    let between = atomset::minus(low, row);
    // those not yet taken, the lower ones that no atom taken has opened, and those that one has
    let mut left = atomset::intersection(low, row);
    let mut shut = atomset::empty();
    let mut found = atomset::empty();
    while !atomset::is_empty(left) {
        let rest = atomset::without_lowest(left);
        let last = atomset::lowest_alone(left, rest);
        let more = reached_from(table, between, last, shut, most - 2);
        // tried, and not proved: `found = atomset::union(..)`; the check covers no call's result in such a variable
        let opened = atomset::union(found, more);
        found = opened;
        let with_last = atomset::union(atomset::minus(shut, more), last);
        shut = with_last;
        left = rest;
    }
    found
}

// Whether some ring of at most `most` atoms begins with c.
fn ring_starts(table: &[u64; 256], n: usize, most: usize, c: usize) -> bool
    requires { OneAtom n table.now most c }
    ensures { result ≡ is_open (rings_by n table.now most) (c ∷ []) }
{
    !atomset::is_empty(second_atoms(table, n, most, c))
}

// The plan of the beginning of one atom, of rings of at most `most` atoms.
fn first_plan(table: &[u64; 256], n: usize, most: usize, atom: u8) -> FirstPlan
    requires { OneAtom n table.now most atom }
    ensures { FirstOf n table.now most atom result }
{
    let members = atomset::empty();
    let opens = second_atoms(table, n, most, usize::from(atom));
    FirstPlan {
        plan: Plan { members, opens },
        atom,
    }
}

// The atom from c on that is the first to begin a ring of at most `most` atoms, and its plan; none where no atom does.
fn first_ahead(table: &[u64; 256], n: usize, most: usize, c: usize) -> Option<FirstPlan>
    requires { OneAtom n table.now most c }
    ensures { FirstAhead n table.now most c result }
{
    let members = atomset::empty();
    for a in c..=n {
        let opens = second_atoms(table, n, most, a);
        if !atomset::is_empty(opens) {
            return Some(FirstPlan {
                plan: Plan { members, opens },
                atom: a as u8,
            });
        }
    }
    None
}

// The atom of a first plan as a set; the empty set where there is none.
fn atom_alone(first: Option<FirstPlan>) -> [u64; 2]
    requires { ForSome first (λ plan. (1 ≤ plan.atom) × (plan.atom ≤ 128)) }
    ensures { (v : ℕ) → has result v ≡ begins_first first v }
{
    match first {
        Some(plan) => atomset::single(usize::from(plan.atom)),
        None => atomset::empty(),
    }
}

// The atom that begins a path from s to t: s where t is reached from it, otherwise none. Of shortest paths t is
// reached where any bond of the table leads on from s.
fn path_firsts(wanted: Wanted<'_>) -> [u64; 2]
    requires { TwoEnds wanted.n wanted.table.now wanted.s wanted.t ×
        SearchTable wanted.n wanted.table.now wanted.kind wanted.t }
    ensures { let w = wanted.entry in PathFirsts w.n w.table.now w.s w.t result }
{
    let alone = atomset::single(wanted.s);
    if wanted.kind == 3 {
        let row = atomset::row(wanted.table, wanted.s);
        if atomset::is_empty(row) {
            return row;
        }
        return alone;
    }
    let all = atomset::up_to(wanted.n);
    let goal = atomset::single(wanted.t);
    sweep::reached(wanted.table, all, goal, alone, 127)
}

// Whether some path from s to t begins with c.
fn path_starts(wanted: Wanted<'_>, c: usize) -> bool
    requires { TwoEnds wanted.n wanted.table.now wanted.s wanted.t ×
        SearchTable wanted.n wanted.table.now wanted.kind wanted.t }
    ensures { let w = wanted.entry in result ≡ is_open (paths_by w.n w.table.now w.s w.t) (c ∷ []) }
{
    c == wanted.s && atomset::contains(path_firsts(wanted), wanted.s)
}

// What a trial finds at an open beginning of one atom or none, of rings of at most `most` atoms: the plan of one atom
// is made anew only where the kept one is not of this atom.
fn short_ring(
    table: &[u64; 256],
    n: usize,
    most: usize,
    beginning: &[u8],
    c: usize,
    first: Option<FirstPlan>,
) -> Found
    requires { ShortRing n table.now most beginning.now c first }
    ensures { FoundAt (rings_by n table.now most) beginning.now c result }
{
    if beginning.is_empty() {
        let members = atomset::empty();
        let ahead = first_ahead(table, n, most, c);
        let opens = atom_alone(ahead);
        return Found {
            plan: Plan { members, opens },
            first: ahead,
        };
    }
    if let Some(kept) = first {
        if beginning[0] == kept.atom {
            return Found {
                plan: kept.plan,
                first,
            };
        }
    }
    let made = first_plan(table, n, most, beginning[0]);
    Found {
        plan: made.plan,
        first: Some(made),
    }
}

// What a trial finds at an open beginning: of every atom from the next atom c up to the first that opens, and of every
// atom where the beginning has an atom or more.
pub fn plan_at(wanted: Wanted<'_>, beginning: &[u8], c: usize, first: Option<FirstPlan>) -> Found
    requires { Planning wanted.n wanted.table.now wanted.kind wanted.s wanted.t beginning.now c first }
    ensures { FoundAt (family_wanted wanted.entry) beginning.now c result }
{
    if first_length(wanted.kind) <= beginning.len() {
        let plan = steered_plan(wanted, beginning);
        return Found { plan, first };
    }
    if !search::lists_paths(wanted.kind) {
        let most = most_atoms(wanted.kind, wanted.s);
        return short_ring(wanted.table, wanted.n, most, beginning, c, first);
    }
    let members = atomset::empty();
    let opens = path_firsts(wanted);
    Found {
        plan: Plan { members, opens },
        first,
    }
}

// Whether the number v opens, by the plan; one that is no atom opens nothing.
fn opens_by(found: Plan, v: usize) -> bool
    ensures { result ≡ has found.opens v }
{
    molecule::is_atom(128, v) && atomset::contains(found.opens, v)
}

// Whether some ring of at most `most` atoms begins with the first atom of the beginning.
fn one_opens(table: &[u64; 256], n: usize, most: usize, beginning: &[u8]) -> bool
    requires { Words n table.now × (3 ≤ most) × (1 ≤ length beginning.now) }
    ensures { result ≡ is_open (rings_by n table.now most) (take 1 beginning.now) }
{
    let a = usize::from(beginning[0]);
    molecule::is_atom(n, a) && ring_starts(table, n, most, a)
}

// Whether the shortest beginning that two sets steer is open: of a ring the first two atoms, of a path the first one.
fn first_opens(wanted: Wanted<'_>, beginning: &[u8]) -> bool
    requires { SearchTable wanted.n wanted.table.now wanted.kind wanted.t ×
        (kind_kept wanted.n wanted.kind wanted.s wanted.t ≡ true) × (first_length wanted.kind ≤ length beginning.now) }
    ensures { result ≡ is_open (family_wanted wanted.entry)
        (take (first_length wanted.entry.kind) beginning.now) }
{
    let a = usize::from(beginning[0]);
    if search::lists_paths(wanted.kind) {
        return path_starts(wanted, a);
    }
    if !molecule::is_atom(wanted.n, a) {
        return false;
    }
    let b = usize::from(beginning[1]);
    if !molecule::is_atom(wanted.n, b) {
        return false;
    }
    let most = most_atoms(wanted.kind, wanted.s);
    pair_opens(wanted.table, wanted.n, most, a, b)
}

// Whether the beginning is open, where its first atoms, which two sets steer, are: the sets are handed on past each
// further atom.
fn goes_on_open(wanted: Wanted<'_>, beginning: &[u8]) -> bool
    requires { Begins wanted (take (first_length wanted.kind) beginning.now) ×
        (first_length wanted.kind ≤ length beginning.now) × (length beginning.now ≤ 127) }
    ensures { result ≡ is_open (family_wanted wanted.entry) beginning.now }
{
    let mut aim = first_aim(wanted, beginning);
    for i in first_length(wanted.kind)..beginning.len() {
        let x = usize::from(beginning[i - 1]);
        let next = aim_after(wanted.table, aim, x);
        let steps = steps_left(wanted.kind, wanted.s, i);
        let plan = swept_plan(wanted.table, wanted.kind, aim, next, x, steps);
        if !opens_by(plan, usize::from(beginning[i])) {
            return false;
        }
        aim = next;
    }
    true
}

// Whether a beginning of one atom or more is open, over the table of the search.
fn is_open_by(wanted: Wanted<'_>, beginning: &[u8]) -> bool
    requires { SearchTable wanted.n wanted.table.now wanted.kind wanted.t ×
        (kind_kept wanted.n wanted.kind wanted.s wanted.t ≡ true) × (length beginning.now ≤ 127) ×
        (1 ≤ length beginning.now) }
    ensures { result ≡ is_open (family_wanted wanted.entry) beginning.now }
{
    if beginning.len() < first_length(wanted.kind) {
        let most = most_atoms(wanted.kind, wanted.s);
        return one_opens(wanted.table, wanted.n, most, beginning);
    }
    first_opens(wanted, beginning) && goes_on_open(wanted, beginning)
}

// Whether a beginning is open, over the word table of a molecule's rows. The empty one is, and needs no distances.
pub fn is_open(wanted: Wanted<'_>, beginning: &[u8]) -> bool
    requires { Words wanted.n wanted.table.now × (kind_kept wanted.n wanted.kind wanted.s wanted.t ≡ true) ×
        (length beginning.now ≤ 127) }
    ensures { result ≡ is_open (family_wanted wanted.entry) beginning.now }
{
    if beginning.is_empty() {
        return true;
    }
    if wanted.kind == 3 {
        let near = distance::nearing(wanted.table, wanted.n, wanted.t);
        return is_open_by(
            Wanted {
                table: &near,
                ..wanted
            },
            beginning,
        );
    }
    is_open_by(wanted, beginning)
}
