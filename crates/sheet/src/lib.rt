// The bond sheet reader of document 01: bytes to a molecule record, or one refusal.
#![tactic(auto)]

ghost use Rattle.std.specs.Prelude.{◌≡◌, ◌+◌, ◌*◌, ◌≤◌, length};
ghost use Rattle.sheet.specs.Read.{length_kept, read_sheet};
ghost use Rattle.sheet.specs.Parts.{numbers_at, Decodable, ReadsLines, WholeLines};

use molecule::Molecule;
use refusal::Refusal;

// The byte that ends a line.
const LINE_FEED: u8 = b'\n';

// The two numbers of line i, whose 9 bytes are there, or none where a byte is wrong; blanks or zeros fill each field.
fn line(s: &[u8], i: usize) -> Option<(u16, u16)>
    requires { 9 * i + 9 ≤ length s.now }
    ensures { result ≡ numbers_at s.now i }
{
    let at = 9 * i;
    let left = fields::number_at(s, 4, at)?;
    let right = fields::number_at(s, 4, at + 4)?;
    if s[at + 8] != LINE_FEED {
        return None;
    }
    Some((left.value as u16, right.value as u16))
}

// Rule 2: every line of a sheet. The numbers of the first 1,025 are put into values; later lines share a place that is
// not read.
fn decode(s: &[u8], values: &mut [(u16, u16)]) -> Result<(), Refusal>
    requires { Decodable s.now values.old }
    ensures { ReadsLines s.now result values.new }
{
    for i in 0..s.len() / 9 {
        let place = i.min(1025);
        values[place] = line(s, i).ok_or(Refusal::SheetBytes)?;
    }
    Ok(())
}

// Rules 2 to 8 of a sheet of whole lines; values takes the numbers of the first 1,025.
fn read_lines(s: &[u8], values: &mut [(u16, u16)]) -> Result<Molecule, Refusal>
    requires { WholeLines s.now values.old }
    ensures { result ≡ read_sheet s.now }
{
    decode(s, values)?;
    let (atoms, bonds) = values[0];
    let n = usize::from(atoms);
    let m = usize::from(bonds);
    if 128 < n {
        return Err(Refusal::TooManyAtoms);
    }
    if 1024 < m {
        return Err(Refusal::TooManyBonds);
    }
    if s.len() != 9 * (m + 1) {
        return Err(Refusal::SheetSize);
    }
    bonds::read_bonds(n, &values[1..m + 1])
}

// Rule 1: one line of 9 bytes or more, and no part of one.
#[tactic(auto, unfolding(crate::specs::Read::length_kept))]
fn is_whole(s: &[u8]) -> bool
    ensures { result ≡ length_kept s.now }
{
    !s.is_empty() && s.len() % 9 == 0
}

// Reads a bond sheet: any bytes give the molecule record of exactly its bonds, or one refusal.
pub fn read_sheet(s: &[u8]) -> Result<Molecule, Refusal>
    ensures { result ≡ read_sheet s.now }
{
    if !is_whole(s) {
        return Err(Refusal::SheetLength);
    }
    // The numbers of 128 lines fit a small array, which is cheaper to make.
    if s.len() <= 1152 {
        let mut few = [(0, 0); 128];
        return read_lines(s, &mut few);
    }
    let mut values = [(0, 0); 1026];
    read_lines(s, &mut values)
}
