// Distances over bonds, layer by layer from an atom: which bonds lead one nearer to it, and how many lists of as few
// bonds as can be join it to another.
#![tactic(auto)]

ghost use Rattle.std.specs.Prelude.{◌+◌, ◌≡◌, ◌≤◌, ◌&&◌, ℕ, eqb, leb, length, not};
ghost use Rattle.chordless.specs.Distance.{Nearing};
ghost use Rattle.atomset.specs.Set.{has, linked_by};
ghost use Rattle.distance.specs.Layers.{Measured, NextLayer, RowsKept};
ghost use Rattle.distance.specs.Capped.{capped, sum_over, SumsAsked, SumsKept, MeasuredEnds, Numbered};

use fields::LIMIT;

// Atoms by their distance from one of them: `front` are those at one distance, and `unseen` those further away.
#[derive(Clone, Copy)]
struct Layer {
    front: [u64; 2],
    unseen: [u64; 2],
}

impl Layer {
    // Atom t alone, among n atoms.
    fn first(n: usize, t: usize) -> Layer
        requires few { n ≤ 128 }
        requires atom { (1 ≤ t) × (t ≤ 128) }
        ensures front { (a : ℕ) → has result.front a ≡ eqb a t }
        ensures unseen { (a : ℕ) → has result.unseen a ≡ ((leb 1 a && leb a n) && not (eqb a t)) }
    {
        let front = atomset::single(t);
        let all = atomset::up_to(n);
        let unseen = atomset::without_atom(all, t);
        Layer { front, unseen }
    }

    // The atoms of `unseen` that are bonded to an atom of `front`.
    fn next(self, table: &[u64; 256]) -> Layer
        ensures front { NextLayer (linked_by table.now) (has self.front) (has self.unseen) (has result.front) }
        ensures unseen { (a : ℕ) → has result.unseen a ≡ (has self.unseen a && not (has result.front a)) }
    {
        let low = sweep::near_word(table, self.front[0], 0);
        let high = sweep::near_word(table, self.front[1], 1);
        let near = atomset::union(low, high);
        let front = atomset::intersection(self.unseen, near);
        let unseen = atomset::minus(self.unseen, front);
        Layer { front, unseen }
    }
}

// The row of each atom of `found` becomes its bonds to atoms of `front`; the other rows stay.
fn keep_rows(rows: &mut [u64; 256], table: &[u64; 256], front: [u64; 2], found: [u64; 2])
    requires { length rows.old ≡ 256 }
    ensures { RowsKept (linked_by table.now) (has front) (has found)
        rows.old rows.new }
{
    let mut left = found;
    while !atomset::is_empty(left) {
        let v = atomset::lowest(left);
        let rest = atomset::without_lowest(left);
        let row = atomset::row(table, v);
        let near = atomset::intersection(row, front);
        let i = 2 * (v - 1);
        rows[i] = near[0];
        rows[i + 1] = near[1];
        left = rest;
    }
}

// The bonds that lead one nearer to t, as rows. A turn goes on to the next distance from t, and keeps the bonds from
// there to the layer before.
// `number` goes by the same layers: a closure for the step would hold the array that the loop fills.
pub fn nearing(table: &[u64; 256], n: usize, t: usize) -> [u64; 256]
    requires { Measured n (linked_by table.now) t }
    ensures { Nearing n (linked_by table.now) t (linked_by result) }
{
    let mut rows = [0u64; 256];
    let mut layer = Layer::first(n, t);
    while !atomset::is_empty(layer.front) {
        let next = layer.next(table);
        keep_rows(&mut rows, table, layer.front, next.front);
        layer = next;
    }
    rows
}

// The sum of two numbers, where it is at most the limit of a count; one above the limit otherwise.
#[tactic(auto, unfolding(crate::specs::Capped::capped))]
fn added(a: u64, b: u64) -> u64
    ensures { result ≡ capped (a + b) }
{
    match a.checked_add(b) {
        Some(sum) if sum <= LIMIT => sum,
        _ => LIMIT + 1,
    }
}

// The sum of the numbers of the atoms of a set, up to one above the limit.
fn sum_over(numbers: &[u64; 129], set: [u64; 2]) -> u64
    ensures { result ≡ capped (sum_over (has set) numbers.now) }
{
    let mut sum = 0;
    let mut left = set;
    while !atomset::is_empty(left) {
        let v = atomset::lowest(left);
        let rest = atomset::without_lowest(left);
        let more = added(sum, numbers[v]);
        sum = more;
        left = rest;
    }
    sum
}

// The number of each atom of `found` becomes the sum of those of the atoms of `front` that it is bonded to; the other
// numbers stay.
fn keep_sums(numbers: &mut [u64; 129], table: &[u64; 256], front: [u64; 2], found: [u64; 2])
    requires { SumsAsked (has front) (has found) numbers.old }
    ensures { SumsKept (linked_by table.now) (has front) (has found)
        numbers.old numbers.new }
{
    let mut left = found;
    while !atomset::is_empty(left) {
        let v = atomset::lowest(left);
        let rest = atomset::without_lowest(left);
        let row = atomset::row(table, v);
        let before = atomset::intersection(row, front);
        let sum = sum_over(numbers, before);
        numbers[v] = sum;
        left = rest;
    }
}

// How many lists of as few bonds as can be join s to t, up to one above the limit of a count; 0 where none does. The
// layers are those of `nearing`, from s on; an atom's number is the sum of those of the atoms before it.
pub fn number(table: &[u64; 256], n: usize, s: usize, t: usize) -> u64
    requires { MeasuredEnds n (linked_by table.now) s t }
    ensures { Numbered n (linked_by table.now) s t result }
{
    let mut numbers = [0u64; 129];
    numbers[s] = 1;
    let mut layer = Layer::first(n, s);
    while !atomset::is_empty(layer.front) {
        let next = layer.next(table);
        keep_sums(&mut numbers, table, layer.front, next.front);
        layer = next;
    }
    numbers[t]
}
