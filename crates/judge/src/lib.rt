// The judge of document 01: whether an atom list is a ring, or a path from s to t.
#![tactic(auto)]

ghost use Rattle.std.specs.Prelude.{◌≡◌, ◌≤◌, ◌<◌, length};
ghost use Rattle.graph.specs.Chordless.{in_range, induces, along_ring, is_ring, is_path};
ghost use Rattle.molecule.specs.Record.{bonded};
ghost use Rattle.judge.specs.Verdict.{judge_ring, judge_path};
ghost use Rattle.judge.specs.Parts.{Atoms, OnePlace, TwoPlaces, pair_fits, fits_before, lowest_first};

use molecule::Molecule;
use refusal::Refusal;

// Whether every atom is from 1 to n.
fn in_range(n: usize, xs: &[u8]) -> bool
    ensures { result ≡ in_range n xs.now }
{
    xs.iter().all(|a| molecule::is_atom(n, usize::from(*a)))
}

// Whether places i < j are joined along a ring of k atoms, or along a path where k is 0.
// 0 and no Option, and rows and n apart: `along_ring` and `bonded` in specs/ take them so.
fn joined(k: usize, i: usize, j: usize) -> bool
    requires { i < j }
    ensures { result ≡ along_ring k i j }
{
    j == i + 1 || (i == 0 && k != 0 && j == k - 1)
}

// Whether the atoms at places i < j differ, and are bonded exactly when the places are joined.
fn pair_fits(rows: &[u8; 2048], n: usize, k: usize, xs: &[u8], i: usize, j: usize) -> bool
    requires { TwoPlaces n xs.now i j }
    ensures { result ≡ pair_fits (bonded n rows.now) k xs.now j i }
{
    let a = usize::from(xs[i]);
    let b = usize::from(xs[j]);
    a != b && molecule::linked(rows, a - 1, b - 1) == joined(k, i, j)
}

// The same of place j with every place before it.
fn fits_before(rows: &[u8; 2048], n: usize, k: usize, xs: &[u8], j: usize) -> bool
    requires { OnePlace n xs.now j }
    ensures { result ≡ fits_before (bonded n rows.now) k xs.now j }
{
    (0..j).all(|i| pair_fits(rows, n, k, xs, i, j))
}

// The same of every two places.
fn fits(rows: &[u8; 2048], n: usize, k: usize, xs: &[u8]) -> bool
    requires { Atoms n xs.now }
    ensures { result ≡ induces (bonded n rows.now) (along_ring k) xs.now }
{
    (0..xs.len()).all(|j| fits_before(rows, n, k, xs, j))
}

// Whether the first atom is lower than each other one.
fn lowest_first(xs: &[u8]) -> bool
    requires { 0 < length xs.now }
    ensures { result ≡ lowest_first xs.now }
{
    let first = xs[0];
    xs[1..].iter().all(|a| first < *a)
}

// Whether the list is a ring.
fn is_ring(rows: &[u8; 2048], n: usize, xs: &[u8]) -> bool
    requires { n ≤ 128 }
    ensures { result ≡ is_ring n (bonded n rows.now) xs.now }
{
    xs.len() >= 3
        && in_range(n, xs)
        && fits(rows, n, xs.len(), xs)
        && lowest_first(xs)
        && xs[1] < xs[xs.len() - 1]
}

// Judges an atom list as a ring.
pub fn judge_ring(m: Molecule, xs: &[u8]) -> Result<bool, Refusal>
    ensures { result ≡ judge_ring m xs.now }
{
    if !molecule::well_formed(m) {
        return Err(Refusal::Record);
    }
    Ok(is_ring(&m.rows, m.atoms, xs))
}

// Whether the list is a path from s to t.
fn is_path(rows: &[u8; 2048], n: usize, s: usize, t: usize, xs: &[u8]) -> bool
    requires { n ≤ 128 }
    ensures { result ≡ is_path n (bonded n rows.now) s t xs.now }
{
    xs.len() >= 1
        && in_range(n, xs)
        && usize::from(xs[0]) == s
        && usize::from(xs[xs.len() - 1]) == t
        && fits(rows, n, 0, xs)
}

// Judges an atom list as a path from s to t.
pub fn judge_path(m: Molecule, s: usize, t: usize, xs: &[u8]) -> Result<bool, Refusal>
    ensures { result ≡ judge_path m s t xs.now }
{
    if !molecule::well_formed(m) {
        return Err(Refusal::Record);
    }
    molecule::check_ends(m.atoms, s, t)?;
    Ok(is_path(&m.rows, m.atoms, s, t, xs))
}
