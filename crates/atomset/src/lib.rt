// Sets of atoms as two words, and the rows of a molecule as sets.
#![tactic(auto)]

ghost use Rattle.std.specs.Prelude.{◌≡◌, false, ◌&&◌, ◌||◌, not, ℕ, ◌+◌, ◌-◌, ◌*◌, ◌/◌, ◌%◌, ◌^◌, ◌≤◌, ◌<◌, leb, ltb, eqb};
ghost use Rattle.atomset.specs.Set.{has, holds_none, linked_by, Emptiness, Lowest, LowestBit, LowestLeft};
ghost use Rattle.atomset.specs.Set.{AtMostOne, Reads, WordsOf};

// The set without atoms.
// A set is two words and an atom a number in every contract here: a type would ask callers for more.
pub fn empty() -> [u64; 2]
    ensures { (a : ℕ) → has result a ≡ false }
{
    [0, 0]
}

// Whether atom a is in the set.
pub fn contains(x: [u64; 2], a: usize) -> bool
    requires { (1 ≤ a) × (a ≤ 128) }
    ensures { result ≡ has x a }
{
    (x[(a - 1) / 64] >> ((a - 1) % 64)) % 2 == 1
}

// The atoms of either set.
pub fn union(x: [u64; 2], y: [u64; 2]) -> [u64; 2]
    ensures { (a : ℕ) → has result a ≡ (has x a || has y a) }
{
    [x[0] | y[0], x[1] | y[1]]
}

// The atoms of both sets.
pub fn intersection(x: [u64; 2], y: [u64; 2]) -> [u64; 2]
    ensures { (a : ℕ) → has result a ≡ (has x a && has y a) }
{
    [x[0] & y[0], x[1] & y[1]]
}

// The atoms of x that are not in y.
pub fn minus(x: [u64; 2], y: [u64; 2]) -> [u64; 2]
    ensures { (a : ℕ) → has result a ≡ (has x a && not (has y a)) }
{
    [x[0] - (x[0] & y[0]), x[1] - (x[1] & y[1])]
}

// Atom v alone.
pub fn single(v: usize) -> [u64; 2]
    requires { (1 ≤ v) × (v ≤ 128) }
    ensures { (a : ℕ) → has result a ≡ eqb a v }
{
    if v <= 64 {
        return [1u64 << (v - 1), 0];
    }
    [0, 1u64 << (v - 65)]
}

// The set and atom v.
pub fn with_atom(x: [u64; 2], v: usize) -> [u64; 2]
    requires { (1 ≤ v) × (v ≤ 128) }
    ensures { (a : ℕ) → has result a ≡ (has x a || eqb a v) }
{
    union(x, single(v))
}

// The set without atom v.
pub fn without_atom(x: [u64; 2], v: usize) -> [u64; 2]
    requires { (1 ≤ v) × (v ≤ 128) }
    ensures { (a : ℕ) → has result a ≡ (has x a && not (eqb a v)) }
{
    minus(x, single(v))
}

// The k low bits of a word.
fn low_bits(k: usize) -> u64
    requires { k ≤ 64 }
    ensures { result ≡ 2 ^ k - 1 }
{
    if k == 64 {
        return u64::MAX;
    }
    (1u64 << k) - 1
}

// The atoms from 1 to n.
pub fn up_to(n: usize) -> [u64; 2]
    requires { n ≤ 128 }
    ensures { (a : ℕ) → has result a ≡ (leb 1 a && leb a n) }
{
    if n <= 64 {
        return [low_bits(n), 0];
    }
    [low_bits(64), low_bits(n - 64)]
}

// The atoms above `low`, at most n.
pub fn range(low: usize, n: usize) -> [u64; 2]
    requires { (low ≤ 128) × (n ≤ 128) }
    ensures { (a : ℕ) → has result a ≡ (ltb low a && leb a n) }
{
    minus(up_to(n), up_to(low))
}

// Whether the set has no atom.
pub fn is_empty(x: [u64; 2]) -> bool
    ensures { Emptiness x result }
{
    x == [0, 0]
}

// The place of the lowest bit of a word that is not 0.
pub fn lowest_bit(word: u64) -> usize
    requires { word ≡ 0 → ⊥ }
    ensures { LowestBit word result }
{
    word.trailing_zeros() as usize
}

// The lowest atom of a set that has one.
// Loops over a set take its lowest atom and the rest: an iterator would give the atom alone, and `lowest_in` goes by
// the rest, which is faster.
pub fn lowest(x: [u64; 2]) -> usize
    requires { holds_none x ≡ false }
    ensures { Lowest x result }
{
    if x[0] != 0 {
        return lowest_bit(x[0]) + 1;
    }
    lowest_bit(x[1]) + 65
}

// The set without its lowest atom.
pub fn without_lowest(x: [u64; 2]) -> [u64; 2]
    requires { holds_none x ≡ false }
    ensures { LowestLeft x result }
{
    if x[0] != 0 {
        return [x[0] & (x[0] - 1), x[1]];
    }
    [0, x[1] & (x[1] - 1)]
}

// The lowest atom of x alone; `rest` is x without it.
pub fn lowest_alone(x: [u64; 2], rest: [u64; 2]) -> [u64; 2]
    requires { LowestLeft x rest }
    ensures { (v : ℕ) → Lowest x v → (a : ℕ) → has result a ≡ eqb a v }
{
    minus(x, rest)
}

// Whether the lowest atom of x is in y; `rest` is x without it. By words alone: it is faster than by the atom.
pub fn lowest_in(x: [u64; 2], rest: [u64; 2], y: [u64; 2]) -> bool
    requires { LowestLeft x rest }
    ensures { (v : ℕ) → Lowest x v → result ≡ has y v }
{
    let alone = lowest_alone(x, rest);
    let shared = intersection(y, alone);
    !is_empty(shared)
}

// Whether the set has at most one atom.
pub fn at_most_one(x: [u64; 2]) -> bool
    ensures { AtMostOne x result }
{
    is_empty(x) || is_empty(without_lowest(x))
}

// Eight bytes as a word, the lowest first.
// Byte by byte: a slice turned into an array would be an `unwrap` to be proved.
fn word_at(rows: &[u8; 2048], at: usize) -> u64
    requires { at < 2041 }
    ensures { Reads rows.now at 64 result }
{
    u64::from_le_bytes([
        rows[at],
        rows[at + 1],
        rows[at + 2],
        rows[at + 3],
        rows[at + 4],
        rows[at + 5],
        rows[at + 6],
        rows[at + 7],
    ])
}

// The word table of a molecule's rows.
pub fn words_of(rows: &[u8; 2048]) -> [u64; 256]
    ensures { WordsOf rows.now result }
{
    let mut table = [0u64; 256];
    for i in 0..256 {
        table[i] = word_at(rows, 8 * i);
    }
    table
}

// The row of atom a: the atoms bonded to it.
pub fn row(table: &[u64; 256], a: usize) -> [u64; 2]
    requires { (1 ≤ a) × (a ≤ 128) }
    ensures { (b : ℕ) → has result b ≡ linked_by table.now a b }
{
    let i = 2 * (a - 1);
    let first = table[i];
    let second = table[i + 1];
    [first, second]
}
