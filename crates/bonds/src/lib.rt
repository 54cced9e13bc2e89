// Listed bonds (document 01, "Turned back by number", rules 6, 7 and 8), and the molecule record that has just these.
#![tactic(auto)]

ghost use Rattle.std.specs.Prelude.{◌≡◌, ◌≤◌, length};
ghost use Rattle.bonds.specs.Bonds.{with_cell};
ghost use Rattle.bonds.specs.Reading.{read_bonds};
ghost use Rattle.bonds.specs.Parts.{listed, bonds_answer, Fillable, CellIn};

use molecule::{Molecule, is_atom, linked};
use refusal::Refusal;

// Rules 6 and 7, in one pass: every bond's atoms are from 1 to n, and no bond joins an atom to itself.
fn check_bonds(n: usize, bonds: &[(u16, u16)]) -> Result<(), Refusal>
    ensures { result ≡ bonds_answer n (listed bonds.now) (length bonds.now) }
{
    let mut apart = true;
    for &(left, right) in bonds {
        if !is_atom(n, usize::from(left)) || !is_atom(n, usize::from(right)) {
            return Err(Refusal::BondAtom);
        }
        if left == right {
            apart = false;
        }
    }
    if !apart {
        return Err(Refusal::SelfBond);
    }
    Ok(())
}

// Sets the bit of row i and column j, both counted from 0.
fn link(rows: &mut [u8], i: usize, j: usize)
    requires { CellIn rows.old i j }
    ensures { rows.new ≡ with_cell rows.old i j }
{
    rows[16 * i + j / 8] |= 1 << (j % 8);
}

// Rule 8, and the record with bonds that keep rules 6 and 7.
fn fill(n: usize, bonds: &[(u16, u16)]) -> Result<Molecule, Refusal>
    requires { Fillable n (listed bonds.now) (length bonds.now) }
    ensures { result ≡ read_bonds n (listed bonds.now) (length bonds.now) }
{
    let mut rows = molecule::fresh().rows;
    for &(left, right) in bonds {
        let (i, j) = (usize::from(left) - 1, usize::from(right) - 1);
        if linked(&rows, i, j) {
            return Err(Refusal::RepeatedBond);
        }
        link(&mut rows, i, j);
        link(&mut rows, j, i);
    }
    Ok(Molecule {
        atoms: n,
        bonds: bonds.len(),
        rows,
    })
}

// Rules 6, 7 and 8 on some bonds, and the record of n atoms with them.
pub fn read_bonds(n: usize, bonds: &[(u16, u16)]) -> Result<Molecule, Refusal>
    requires { n ≤ 128 }
    ensures { result ≡ read_bonds n (listed bonds.now) (length bonds.now) }
{
    check_bonds(n, bonds)?;
    fill(n, bonds)
}
