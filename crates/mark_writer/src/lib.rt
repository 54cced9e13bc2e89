// The text of a mark (document 01, "Marks", and requests F-5 and F-6), and saving a search that rules 9 and 12 allow:
// rule 13, in the new form or in the old one from before F-5.
#![tactic(auto)]

ghost use Rattle.std.specs.Prelude.{◌≡◌, true, ◌+◌, ◌*◌, ◌≤◌, length, drop};
ghost use Rattle.molecule.specs.Record.{well_formed};
ghost use Rattle.search.specs.Place.{restorable};
ghost use Rattle.search.specs.Mark.{fields_text, three_lines, bonds_from, mark_text};
ghost use Rattle.search.specs.Mark.{write_answer, written_bytes, save_answer, save_output};
ghost use Rattle.search.specs.OldMark.{old_mark_text};
ghost use Rattle.search.specs.Forms.{mark_in};
ghost use Rattle.bond_writer.specs.Parts.{spliced};
ghost use Rattle.mark_writer.specs.Parts.{CopyFits, LinesFit, MarkFits, OwnLines};

use molecule::Molecule;
use refusal::Refusal;
use search::{Form, Search};

// Numbers, each in a field of so many columns.
// The place goes on by a width: of `columns * i` each step would have to be multiplied out.
fn put_fields(out: &mut [u8], at: usize, columns: usize, values: &[u64])
    requires { at + columns * length values.now ≤ length out.old }
    ensures { out.new ≡ spliced at (fields_text columns values.now) out.old }
{
    let mut place = at;
    for &v in values {
        bond_writer::put_field(out, place, columns, v);
        place += columns;
    }
}

// The bond lines of a mark, copied to a place.
fn copy_bonds(out: &mut [u8], at: usize, mark: &[u8])
    requires { CopyFits mark.now out.old at }
    ensures { let bytes = mark.now in
        out.new ≡ spliced at (drop (bonds_from bytes) bytes) out.old }
{
    let from = 91 + 4 * (fields::value_at(mark, 4, 20) as usize);
    let lines = &mark[from..];
    out[at..at + lines.len()].copy_from_slice(lines);
}

// The three lines of a mark, of a search that need not keep rule 12.
fn put_three_lines(m: Molecule, q: Search, out: &mut [u8])
    requires { LinesFit q out.old }
    ensures { out.new ≡ spliced 0 (three_lines m q) out.old }
{
    let len = q.len;
    let head = [
        q.kind as u64,
        q.s as u64,
        q.t as u64,
        m.atoms as u64,
        m.bonds as u64,
        len as u64,
        q.next as u64,
    ];
    let counts = [q.trials, q.extensions, q.listed];
    // Of the beginning alone: to widen all 128 places by `map` was most of the fixed cost of a call.
    let mut atoms = [0; 128];
    for i in 0..len {
        atoms[i] = u64::from(q.prefix[i]);
    }
    put_fields(out, 0, 4, &head);
    bond_writer::put_feed(out, 28);
    put_fields(out, 29, 20, &counts);
    bond_writer::put_feed(out, 89);
    put_fields(out, 90, 4, &atoms[..len]);
    bond_writer::put_feed(out, 90 + 4 * len);
}

// The mark of a search: its three lines, and then a line for each bond. The search need not keep rule 12.
// The bond lines of `mark`, a mark of the same molecule, are copied, which is faster than to make them; where it has no
// bytes they are made. (No bytes, and not an Option: the host hands on the slice that C lends, and clause `OwnLines`
// and edit copied_where_no_mark_is speak of no bytes.)
// Built into its callers: as a function of its own it copies the record, 2 kB. The rows are copied where they are
// needed: to lend them from `m` would copy them before the test.
#[inline(always)]
pub fn put_mark(m: Molecule, q: Search, mark: &[u8], out: &mut [u8])
    requires { MarkFits m q out.old × OwnLines m mark.now }
    ensures { out.new ≡ spliced 0 (mark_text m q) out.old }
{
    let past = 91 + 4 * q.len;
    put_three_lines(m, q, out);
    if mark.is_empty() {
        let rows = m.rows;
        bond_writer::put_bonds(out, past, &rows, m.atoms);
    } else {
        copy_bonds(out, past, mark);
    }
}

// Saves a search that rules 9 and 12 allow as a mark: rule 13. Only the mark's bytes are written. The bond lines are
// copied from `mark` or made, as in `put_mark`.
// Rules 9 and 12 are clauses and no type: `docs/DECISIONS.md`, 10, names this function with the record and the search.
pub fn save_checked(m: Molecule, q: Search, mark: &[u8], out: &mut [u8]) -> Result<usize, Refusal>
    requires { (well_formed m ≡ true) × (restorable m q ≡ true) × OwnLines m mark.now }
    ensures { (result ≡ save_answer m q out.old) ×
        (out.new ≡ save_output m q out.old) }
{
    let size = 91 + 4 * q.len + 9 * m.bonds;
    if out.len() < size {
        return Err(Refusal::MarkRoom);
    }
    put_mark(m, q, mark, out);
    Ok(size)
}

// Saves a search that rules 9 and 12 allow as an old mark, which has no bond lines: rule 13.
fn save_old(m: Molecule, q: Search, out: &mut [u8]) -> Result<usize, Refusal>
    requires { (well_formed m ≡ true) × (restorable m q ≡ true) }
    ensures { (result ≡ write_answer (old_mark_text m q) out.old) ×
        (out.new ≡ written_bytes result (old_mark_text m q) out.old) }
{
    let end = 91 + 4 * q.len;
    if out.len() < end {
        return Err(Refusal::MarkRoom);
    }
    put_three_lines(m, q, out);
    Ok(end)
}

// Saves a search that rules 9 and 12 allow as a mark in either form: rule 13. Only the mark's bytes are written.
// By its form, as `mark_in` in specs/.
pub fn save_in(m: Molecule, q: Search, form: Form, out: &mut [u8]) -> Result<usize, Refusal>
    requires { (well_formed m ≡ true) × (restorable m q ≡ true) }
    ensures { (result ≡ write_answer (mark_in form m q) out.old) ×
        (out.new ≡ written_bytes result (mark_in form m q) out.old) }
{
    match form {
        Form::Old => save_old(m, q, out),
        Form::New => save_checked(m, q, &[], out),
    }
}
