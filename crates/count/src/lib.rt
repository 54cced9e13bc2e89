// The number of shortest paths between two atoms (document 02, F-14).
#![tactic(auto)]

ghost use Rattle.std.specs.Prelude.{◌≡◌};
ghost use Rattle.counter.specs.Count.{count_shortest};

use molecule::Molecule;
use refusal::Refusal;

// The number of shortest paths from s to t: rules 9, 10 and 11, and 26 where it is above the limit of the counts.
pub fn count_shortest(m: Molecule, s: usize, t: usize) -> Result<u64, Refusal>
    ensures { result ≡ count_shortest m s t }
{
    if !molecule::well_formed(m) {
        return Err(Refusal::Record);
    }
    counter::count_checked(m, s, t)
}
