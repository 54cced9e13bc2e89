// The sheet of a molfile (document 02, F-1): the blank-filled sheet of its record, its bonds lower atom first, in
// dictionary order. Rules 18, 3, 4, 19, 6, 7, 8, 20, and 13.
#![tactic(auto)]

ghost use Rattle.std.specs.Prelude.{◌≡◌, true};
ghost use Rattle.molecule.specs.Record.{well_formed};
ghost use Rattle.sheet.specs.Text.{record_sheet};
ghost use Rattle.search.specs.Mark.{write_answer, written_bytes};
ghost use Rattle.molfile.specs.Elements.{built_in};
ghost use Rattle.molsheet.specs.Sheet.{sheet_answer, sheet_output};

use molecule::Molecule;
use refusal::Refusal;

// Writes the sheet of a record that rule 9 allows: rule 13.
fn write_record(m: Molecule, out: &mut [u8]) -> Result<usize, Refusal>
    requires { well_formed m ≡ true }
    ensures { (result ≡ write_answer (record_sheet m) out.old) ×
        (out.new ≡ written_bytes result (record_sheet m) out.old) }
{
    let size = 9 * (m.bonds + 1);
    if out.len() < size {
        return Err(Refusal::MarkRoom);
    }
    bond_writer::put_bond(out, 0, m.atoms, m.bonds);
    bond_writer::put_bonds(out, 9, &m.rows, m.atoms);
    Ok(size)
}

// Reads a molfile and writes the sheet of its record. Only the sheet's bytes are written.
pub fn write_sheet(molfile: &[u8], sheet: &mut [u8]) -> Result<usize, Refusal>
    ensures { (result ≡ sheet_answer built_in molfile.now sheet.old) ×
        (sheet.new ≡ sheet_output built_in molfile.now sheet.old) }
{
    write_record(molfile::read_molfile(molfile)?, sheet)
}
