// The molecule record of document 01 and its check, rule 9; rules 10 and 11 on the ends of a path.
#![tactic(auto)]

ghost use Rattle.std.specs.Prelude.{◌≡◌, ◌+◌, ◌*◌, ◌/◌, ◌%◌, ◌≤◌, ◌<◌, length};
ghost use Rattle.molecule.specs.Record.{is_atom, cell, fresh_molecule, neighbours, well_formed};
ghost use Rattle.molecule.specs.Ends.{ends_answer};
ghost use Rattle.molecule.specs.Parts.{mirrored, bit_sound, byte_sound, rows_sound, CountedOnes};

use refusal::Refusal;

// Atoms, bonds, and for each of 128 atoms a row of 16 bytes.
// Document 01 names the rows; the memory is fixed.
#[derive(Clone, Copy)]
pub struct Molecule {
    pub atoms: usize,
    pub bonds: usize,
    pub rows: [u8; 2048],
}

// No atoms and no bonds.
#[tactic(auto, unfolding(crate::specs::Record::fresh_molecule))]
pub fn fresh() -> Molecule
    ensures { result ≡ fresh_molecule }
{
    Molecule {
        atoms: 0,
        bonds: 0,
        rows: [0; 2048],
    }
}

// Whether a number is an atom: from 1 to n.
pub fn is_atom(n: usize, a: usize) -> bool
    ensures { result ≡ is_atom n a }
{
    1 <= a && a <= n
}

// Rules 10 and 11 of the ends of a path: s and t are atoms, and differ.
#[tactic(auto, unfolding(crate::specs::Ends::with_ends))]
pub fn check_ends(n: usize, s: usize, t: usize) -> Result<(), Refusal>
    ensures { result ≡ ends_answer n s t }
{
    if !is_atom(n, s) || !is_atom(n, t) {
        return Err(Refusal::PathEnd);
    }
    if s == t {
        return Err(Refusal::SameEnds);
    }
    Ok(())
}

// Whether row i has the bit of column j; atoms counted from 0.
#[tactic(auto, unfolding(crate::specs::Record::cell))]
pub fn linked(rows: &[u8; 2048], i: usize, j: usize) -> bool
    requires { (i < 128) × (j < 128) }
    ensures { result ≡ cell rows.now i j }
{
    (rows[16 * i + j / 8] >> (j % 8)) % 2 == 1
}

// Whether a bit in row i and column j is allowed and has its mirror image.
#[tactic(auto, unfolding(crate::specs::Parts::mirrored))]
fn is_mirrored(rows: &[u8; 2048], n: usize, i: usize, j: usize) -> bool
    requires { (i < 128) × (j < 128) }
    ensures { result ≡ mirrored rows.now n i j }
{
    i < n && j < n && i != j && linked(rows, j, i)
}

// Whether bit k of the byte at `at` is clear, or is allowed and has its mirror image.
#[tactic(auto, unfolding(crate::specs::Parts::bit_sound))]
fn bit_sound(rows: &[u8; 2048], n: usize, at: usize, k: usize) -> bool
    requires { (at < 2048) × (k < 8) }
    ensures { result ≡ bit_sound rows.now n at k }
{
    (rows[at] >> k) % 2 != 1 || is_mirrored(rows, n, at / 16, at % 16 * 8 + k)
}

// The same of each bit of the byte.
fn byte_sound(rows: &[u8; 2048], n: usize, at: usize) -> bool
    requires { at < 2048 }
    ensures { result ≡ byte_sound rows.now n at }
{
    rows[at] == 0 || (0..8).all(|k| bit_sound(rows, n, at, k))
}

// Whether the rows are symmetric, with no atom bonded to itself and no bit beyond n.
fn rows_sound(rows: &[u8; 2048], n: usize) -> bool
    ensures { result ≡ rows_sound rows.now n }
{
    (0..2048).all(|at| byte_sound(rows, n, at))
}

// How many bits of rows are one.
fn ones_of(rows: &[u8]) -> usize
    requires { length rows.now ≤ 2048 }
    ensures { CountedOnes rows.now result }
{
    rows.iter().map(|b| b.count_ones() as usize).sum()
}

// How many neighbours the atom of row i has, counted from 0.
pub fn neighbours(rows: &[u8], i: usize) -> usize
    requires { 16 * i + 16 ≤ length rows.now }
    ensures { result ≡ neighbours rows.now i }
{
    let at = 16 * i;
    ones_of(&rows[at..at + 16])
}

// Rule 9: whether a molecule record follows every rule of its section.
pub fn well_formed(m: Molecule) -> bool
    ensures { result ≡ well_formed m }
{
    m.atoms <= 128
        && m.bonds <= 1024
        && rows_sound(&m.rows, m.atoms)
        && ones_of(&m.rows) == 2 * m.bonds
}
