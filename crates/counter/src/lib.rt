// The number of shortest paths between two atoms past rule 9 (document 02, F-14): rules 10, 11 and 26.
#![tactic(auto)]

ghost use Rattle.std.specs.Prelude.{◌≡◌, true};
ghost use Rattle.molecule.specs.Record.{well_formed};
ghost use Rattle.counter.specs.Count.{count_shortest};

use fields::LIMIT;
use molecule::Molecule;
use refusal::Refusal;

// The number of shortest paths from s to t on a record that rule 9 allows: rules 10 and 11, and 26 where it is above
// the limit of the counts.
// Rule 9 is a clause and no type: `docs/DECISIONS.md`, 10, names this function with the record.
pub fn count_checked(m: Molecule, s: usize, t: usize) -> Result<u64, Refusal>
    requires { well_formed m ≡ true }
    ensures { result ≡ count_shortest m s t }
{
    molecule::check_ends(m.atoms, s, t)?;
    let table = atomset::words_of(&m.rows);
    let number = distance::number(&table, m.atoms, s, t);
    if LIMIT < number {
        return Err(Refusal::TooManyPaths);
    }
    Ok(number)
}
