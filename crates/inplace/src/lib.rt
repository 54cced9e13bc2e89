// The entry on a search that is kept in place (document 01, "The instrument keeps one search and each run moves it
// forward").
#![tactic(auto)]

ghost use Rattle.std.specs.Prelude.{◌≡◌};
ghost use Rattle.search.specs.Entries.{run_search, run_output, search_after};
ghost use Rattle.inplace.specs.Answer.{answer_of};

use enumeration::Stop;
use molecule::Molecule;
use refusal::Refusal;
use search::Search;

// What a run in place returns; the search is stored where it stood.
#[derive(Clone, Copy)]
pub struct Advanced {
    pub stop: Stop,
    pub used: usize,
    pub made: u64,
}

// Runs a search where it stands: the search that the run returns is stored back, and a refused run leaves it.
pub fn advance(
    q: &mut Search,
    m: Molecule,
    budget: u64,
    out: &mut [u8],
) -> Result<Advanced, Refusal>
    ensures { (q.new ≡ search_after q.old (run_search m q.old budget out.old)) ×
        (result ≡ answer_of (run_search m q.old budget out.old)) ×
        (out.new ≡ run_output m q.old budget out.old) }
{
    let ran = run::run(m, *q, budget, out)?;
    *q = ran.search;
    Ok(Advanced {
        stop: ran.stop,
        used: ran.used,
        made: ran.made,
    })
}
