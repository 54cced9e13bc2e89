// Rules 12, 16 and 17 on a search (document 01, "Turned back by number"), on a molecule that rule 9 allows.
#![tactic(auto)]

ghost use Rattle.std.specs.Prelude.{◌≡◌, true, ◌≤◌, length};
ghost use Rattle.molecule.specs.Record.{well_formed};
ghost use Rattle.search.specs.Place.{family, beginning, ends_kept, kind_kept, place_kept, restorable};
ghost use Rattle.search_rules.specs.Parts.{padded, next_kept, counts_kept};

use fields::LIMIT;
use molecule::Molecule;
use openness::Wanted;
use search::Search;

// Whether the places past the length hold 0.
fn is_padded(prefix: &[u8; 128], len: usize) -> bool
    ensures { result ≡ padded prefix.now len }
{
    prefix.iter().skip(len).all(|&a| a == 0)
}

// Rules 10 and 11: whether s and t are atoms, and differ.
fn ends_kept(n: usize, s: usize, t: usize) -> bool
    ensures { result ≡ ends_kept n s t }
{
    molecule::check_ends(n, s, t).is_ok()
}

// Rule 16: whether kind, s and t go together.
pub fn kind_kept(n: usize, kind: usize, s: usize, t: usize) -> bool
    ensures { result ≡ kind_kept n kind s t }
{
    match kind {
        0 => s == 0 && t == 0,
        1 | 3 => ends_kept(n, s, t),
        2 => t == 0 && search::bound_kept(s),
        _ => false,
    }
}

// Whether the next atom is from 1 to n, or n + 1 after an empty beginning.
fn next_kept(n: usize, len: usize, c: usize) -> bool
    requires { n ≤ 128 }
    ensures { result ≡ next_kept n len c }
{
    molecule::is_atom(n, c) || len == 0 && c == n + 1
}

// Whether no count is above the limit.
fn counts_kept(trials: u64, extensions: u64, listed: u64) -> bool
    ensures { result ≡ counts_kept trials extensions listed }
{
    trials <= LIMIT && extensions <= LIMIT && listed <= LIMIT
}

// Rule 17, of a search whose mark keeps the rules before it.
pub fn place_kept(m: Molecule, q: Search) -> bool
    requires { (well_formed m ≡ true) × (kind_kept m.atoms q.kind q.s q.t ≡ true) ×
        (q.len ≤ 127) × (length q.prefix ≡ 128) }
    ensures { result ≡ place_kept (family m q) (beginning q) q.next }
{
    let table = atomset::words_of(&m.rows);
    let wanted = Wanted {
        table: &table,
        n: m.atoms,
        kind: q.kind,
        s: q.s,
        t: q.t,
    };
    next_kept(m.atoms, q.len, q.next) && openness::is_open(wanted, &q.prefix[..q.len])
}

// Rule 12: whether the search could be restored from a mark on this molecule.
// Rule 9 is a clause and no type: `docs/TRACE.md` names this function with the record.
pub fn check_search(m: Molecule, q: Search) -> bool
    requires { well_formed m ≡ true }
    ensures { result ≡ restorable m q }
{
    q.len <= 127
        && is_padded(&q.prefix, q.len)
        && kind_kept(m.atoms, q.kind, q.s, q.t)
        && counts_kept(q.trials, q.extensions, q.listed)
        && place_kept(m, q)
}
