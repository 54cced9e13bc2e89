// Number fields, line feeds and bond lines (document 01, "Bond sheet"; request F-5) written over a buffer from a place
// on.
// A place goes beside `out`: in a struct that holds both, a contract would speak of a field behind two borrows.
#![tactic(auto)]

ghost use Rattle.std.specs.Prelude.{◌≡◌, [], ◌∷◌, ◌+◌, ◌≤◌, ◌<◌, length};
ghost use Rattle.fields.specs.Field.{field_text};
ghost use Rattle.molecule.specs.BondList.{bond_list};
ghost use Rattle.search.specs.Mark.{bond_lines};
ghost use Rattle.bond_writer.specs.Parts.{spliced, cell_bonds, byte_bonds, row_bonds, LinesPut};
ghost use Rattle.bond_writer.specs.Parts.{CellFits, ByteFits, RowFits, BondsFit};

// A number in a field of so many columns.
pub fn put_field(out: &mut [u8], at: usize, columns: usize, v: u64)
    requires { at + columns ≤ length out.old }
    ensures { out.new ≡ spliced at (field_text columns v) out.old }
{
    fields::write_number(&mut out[at..at + columns], v);
}

// A line feed.
pub fn put_feed(out: &mut [u8], at: usize)
    requires { at < length out.old }
    ensures { out.new ≡ spliced at (10 ∷ []) out.old }
{
    out[at] = b'\n';
}

// The line of one bond.
pub fn put_bond(out: &mut [u8], at: usize, a: usize, b: usize)
    requires { at + 9 ≤ length out.old }
    ensures { out.new ≡ spliced at (bond_lines ((a, b) ∷ [])) out.old }
{
    // `as`: u64 has no From<usize>.
    put_field(out, at, 4, a as u64);
    put_field(out, at + 4, 4, b as u64);
    put_feed(out, at + 8);
}

// The line of the bond in cell k of a byte of the rows, where it has one above the diagonal, and the place past it.
fn put_cell(out: &mut [u8], place: usize, rows: &[u8; 2048], at: usize, k: usize) -> usize
    requires { CellFits rows.now at k out.old place }
    ensures { LinesPut (cell_bonds rows.now at k) place out.old out.new result }
{
    if (rows[at] >> k) % 2 != 1 {
        return place;
    }
    let row = at / 16;
    let column = at % 16 * 8 + k;
    if column <= row {
        return place;
    }
    put_bond(out, place, row + 1, column + 1);
    place + 9
}

// The lines of the bonds in the 8 cells of a byte, and the place past them.
fn put_byte(out: &mut [u8], place: usize, rows: &[u8; 2048], at: usize) -> usize
    requires { ByteFits rows.now at out.old place }
    ensures { LinesPut (byte_bonds rows.now at) place out.old out.new result }
{
    if rows[at] == 0 {
        return place;
    }
    let mut end = place;
    for k in 0..8 {
        end = put_cell(out, end, rows, at, k);
    }
    end
}

// The lines of the bonds in one row of n atoms, and the place past them. Bytes before the diagonal or past n have none.
fn put_row(out: &mut [u8], place: usize, rows: &[u8; 2048], n: usize, row: usize) -> usize
    requires { RowFits rows.now n row out.old place }
    ensures { LinesPut (row_bonds rows.now row) place out.old out.new result }
{
    let last = n.div_ceil(8);
    let mut end = place;
    for i in row / 8..last {
        end = put_byte(out, end, rows, 16 * row + i);
    }
    end
}

// The lines of the bonds of n atoms.
pub fn put_bonds(out: &mut [u8], at: usize, rows: &[u8; 2048], n: usize)
    requires { BondsFit rows.now n out.old at }
    ensures { out.new ≡ spliced at (bond_lines (bond_list rows.now)) out.old }
{
    let mut place = at;
    for row in 0..n {
        place = put_row(out, place, rows, n, row);
    }
}
