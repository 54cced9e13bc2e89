// The resumable run of a search (document 01, "The search, trial by trial"): trials up to a budget, records into an
// output.
#![tactic(auto, unfolding(search::specs::Entries::run_search, search::specs::Entries::run_output))]

ghost use Rattle.std.specs.Prelude.{◌≡◌};
ghost use Rattle.search.specs.Entries.{run_search, run_output};

use molecule::Molecule;
use refusal::Refusal;
use search::{Ran, Search};

// Runs a search: rule 9, then rule 12, then the run.
pub fn run(m: Molecule, q: Search, budget: u64, out: &mut [u8]) -> Result<Ran, Refusal>
    ensures { (result ≡ run_search m q budget out.old) ×
        (out.new ≡ run_output m q budget out.old) }
{
    if !molecule::well_formed(m) {
        return Err(Refusal::Record);
    }
    if !search_rules::check_search(m, q) {
        return Err(Refusal::Search);
    }
    Ok(runner::run_checked(m, q, budget, out))
}
