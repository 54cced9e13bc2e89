// Reading a mark (document 01, "Marks", and requests F-5 and F-6): what bytes restore to on a molecule that rule 9
// allows, rules 14 to 17, in the new form or in the old one from before F-5.
#![tactic(auto)]

ghost use Rattle.std.specs.Prelude.{◌≡◌, true, map, ◌+◌, ◌*◌, ◌≤◌, length};
ghost use Rattle.fields.specs.Field.{value_at};
ghost use Rattle.molecule.specs.Record.{bonded, well_formed};
ghost use Rattle.search.specs.Place.{held};
ghost use Rattle.search.specs.Mark.{fields_kept, three_lines_kept, values_at, placed_search, restore_mark};
ghost use Rattle.search.specs.OldMark.{restore_old_mark};
ghost use Rattle.search.specs.Forms.{restore_in};
ghost use Rattle.mark_reader.specs.Parts.{AtomsFit, low, search_of, Placeable, names_own, own_search};
ghost use Rattle.mark_reader.specs.Bonds.{kept_at, line_at, followed, BondsIn, bonds_read};

use molecule::Molecule;
use refusal::Refusal;
use search::{Form, Search};

// The most atoms of a beginning.
const LONGEST: usize = 127;

// The value of a field of 4 columns.
fn small_at(bytes: &[u8], at: usize) -> usize
    requires { at + 4 ≤ length bytes.now }
    ensures { result ≡ value_at 4 bytes.now at }
{
    fields::value_at(bytes, 4, at) as usize
}

// Whether k fields from a place on are number fields that zeros do not fill.
fn fields_kept(bytes: &[u8], columns: usize, at: usize, k: usize) -> bool
    requires { at + columns * k ≤ length bytes.now }
    ensures { result ≡ fields_kept columns bytes.now at k }
{
    for i in 0..k {
        if !fields::blanks_only(fields::number_at(bytes, columns, at + columns * i)) {
            return false;
        }
    }
    true
}

// Whether the bytes are three lines of such fields, and past them so many bytes for each bond: 9, or 0 in marks before
// request F-5.
fn three_lines_kept(bytes: &[u8], per_bond: usize) -> bool
    requires { per_bond ≤ 9 }
    ensures { result ≡ three_lines_kept per_bond bytes.now }
{
    if bytes.len() < 91 {
        return false;
    }
    let k = small_at(bytes, 20);
    fields_kept(bytes, 4, 0, 7)
        && bytes[28] == b'\n'
        && fields_kept(bytes, 20, 29, 3)
        && bytes[89] == b'\n'
        && k <= LONGEST
        && bytes.len() == 91 + 4 * k + per_bond * small_at(bytes, 16)
        && fields_kept(bytes, 4, 90, k)
        && bytes[90 + 4 * k] == b'\n'
}

// The value of a field of 4 columns that zeros do not fill; none where it is no such field.
fn kept_at(bytes: &[u8], at: usize) -> Option<usize>
    requires { at + 4 ≤ length bytes.now }
    ensures { result ≡ kept_at bytes.now at }
{
    match fields::number_at(bytes, 4, at) {
        Some(x) if !x.zeros => Some(x.value as usize),
        _ => None,
    }
}

// The bond line at a place: two such fields, its atoms, and a line feed.
fn bond_line(bytes: &[u8], at: usize) -> Option<(usize, usize)>
    requires { at + 9 ≤ length bytes.now }
    ensures { result ≡ line_at bytes.now at }
{
    let left = kept_at(bytes, at)?;
    let right = kept_at(bytes, at + 4)?;
    if bytes[at + 8] != b'\n' {
        return None;
    }
    Some((left, right))
}

// Whether a bond has its lower atom first and comes after the one above it in dictionary order.
fn follows(above: (usize, usize), bond: (usize, usize)) -> bool
    ensures { result ≡ followed above bond }
{
    bond.0 < bond.1 && above < bond
}

// Whether a and b are atoms that are bonded.
fn bonded(rows: &[u8; 2048], n: usize, a: usize, b: usize) -> bool
    requires { n ≤ 128 }
    ensures { result ≡ bonded n rows.now a b }
{
    molecule::is_atom(n, a) && molecule::is_atom(n, b) && molecule::linked(rows, a - 1, b - 1)
}

// So many bond lines from a place on, in one pass: none where one is not right or not in order; otherwise whether each
// is a bond of the molecule.
fn read_bonds(rows: &[u8; 2048], n: usize, bytes: &[u8], from: usize, count: usize) -> Option<bool>
    requires { BondsIn n bytes.now from count }
    ensures { result ≡ bonds_read n rows.now bytes.now from count }
{
    let mut above = (0, 0);
    let mut own = true;
    for i in 0..count {
        let bond = bond_line(bytes, from + 9 * i)?;
        if !follows(above, bond) {
            return None;
        }
        own = own && bonded(rows, n, bond.0, bond.1);
        above = bond;
    }
    Some(own)
}

// An atom in a byte. Above 255 it is 255, which is no atom either.
fn low_byte(v: usize) -> u8
    ensures { result ≡ low v }
{
    u8::try_from(v).unwrap_or(255)
}

// The k atoms of a mark in their array.
fn atoms_of(bytes: &[u8], k: usize) -> [u8; 128]
    requires { AtomsFit bytes.now k }
    ensures { result ≡ held (map low (values_at bytes.now 90 k)) }
{
    let mut prefix = [0u8; 128];
    // By index, which says where an atom's field is too.
    for i in 0..k {
        prefix[i] = low_byte(small_at(bytes, 90 + 4 * i));
    }
    prefix
}

// The search that a mark names, with its atoms in their array.
fn search_of(bytes: &[u8], prefix: [u8; 128]) -> Search
    requires { 91 ≤ length bytes.now }
    ensures { result ≡ search_of bytes.now prefix }
{
    Search {
        kind: small_at(bytes, 0),
        s: small_at(bytes, 4),
        t: small_at(bytes, 8),
        len: small_at(bytes, 20),
        prefix,
        next: small_at(bytes, 24),
        trials: fields::value_at(bytes, 20, 29),
        extensions: fields::value_at(bytes, 20, 49),
        listed: fields::value_at(bytes, 20, 69),
    }
}

// Rule 15: whether a mark names n atoms and m bonds and, as `own` says, only bonds that the molecule has.
fn is_own(n: usize, m: usize, bytes: &[u8], own: bool) -> bool
    requires { 91 ≤ length bytes.now }
    ensures { result ≡ names_own n m bytes.now own }
{
    small_at(bytes, 12) == n && small_at(bytes, 16) == m && own
}

// Rules 16 and 17: the search that three lines name, on a molecule that rule 9 allows.
fn placed_search(m: Molecule, bytes: &[u8]) -> Result<Search, Refusal>
    requires { Placeable m bytes.now }
    ensures { result ≡ placed_search m bytes.now }
{
    let q = search_of(bytes, atoms_of(bytes, small_at(bytes, 20)));
    if !search_rules::kind_kept(m.atoms, q.kind, q.s, q.t) {
        return Err(Refusal::MarkKind);
    }
    if !search_rules::place_kept(m, q) {
        return Err(Refusal::MarkPlace);
    }
    Ok(q)
}

// Rules 15, 16 and 17 on three lines that keep rule 14; `own` says whether the bonds named are the molecule's.
fn own_search(m: Molecule, bytes: &[u8], own: bool) -> Result<Search, Refusal>
    requires { Placeable m bytes.now }
    ensures { result ≡ own_search m bytes.now own }
{
    if !is_own(m.atoms, m.bonds, bytes, own) {
        return Err(Refusal::MarkMolecule);
    }
    placed_search(m, bytes)
}

// Restores a search from a mark, on a molecule that rule 9 allows: rules 14, 15, 16, 17.
// Rule 9 is a clause and no type: `docs/DECISIONS.md`, 10, names this function with the record.
pub fn restore_checked(m: Molecule, bytes: &[u8]) -> Result<Search, Refusal>
    requires { well_formed m ≡ true }
    ensures { result ≡ restore_mark m bytes.now }
{
    if !three_lines_kept(bytes, 9) {
        return Err(Refusal::MarkBytes);
    }
    let from = 91 + 4 * small_at(bytes, 20);
    let Some(own) = read_bonds(&m.rows, m.atoms, bytes, from, small_at(bytes, 16)) else {
        return Err(Refusal::MarkBytes);
    };
    own_search(m, bytes, own)
}

// Restores a search from an old mark, on a molecule that rule 9 allows: rules 14, 15, 16, 17. It names no bonds, so
// rule 15 compares n and m.
fn restore_old(m: Molecule, bytes: &[u8]) -> Result<Search, Refusal>
    requires { well_formed m ≡ true }
    ensures { result ≡ restore_old_mark m bytes.now }
{
    if !three_lines_kept(bytes, 0) {
        return Err(Refusal::MarkBytes);
    }
    own_search(m, bytes, true)
}

// Restores a search from a mark in either form, on a molecule that rule 9 allows: rules 14, 15, 16, 17.
// By its form, as `restore_in` in specs/.
pub fn restore_in(m: Molecule, bytes: &[u8], form: Form) -> Result<Search, Refusal>
    requires { well_formed m ≡ true }
    ensures { result ≡ restore_in form m bytes.now }
{
    match form {
        Form::Old => restore_old(m, bytes),
        Form::New => restore_checked(m, bytes),
    }
}
