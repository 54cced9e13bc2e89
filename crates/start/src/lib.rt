// Starting a search (document 01, "The search, trial by trial"; document 02, F-4 and F-14): a fresh search of any
// kind, rule 9 and then those of its kind, s and t. A start of one kind is one of any kind.
#![tactic(auto)]

ghost use Rattle.std.specs.Prelude.{◌≡◌};
ghost use Rattle.search.specs.Entries.{fresh_paths, fresh_rings_up_to, fresh_of_kind};
ghost use Rattle.search.specs.Entries.{start_rings, start_paths, start_shortest, start_rings_up_to, start_search};

use molecule::Molecule;
use refusal::Refusal;
use search::Search;

// A kind that lists paths from s to t among n atoms: rules 10, 11.
fn fresh_paths(n: usize, kind: usize, s: usize, t: usize) -> Result<Search, Refusal>
    ensures { result ≡ fresh_paths n kind s t }
{
    molecule::check_ends(n, s, t)?;
    Ok(search::fresh_search(kind, s, t))
}

// The rings of at most k atoms: rule 21.
#[tactic(auto, unfolding(search::specs::Entries::fresh_rings_up_to))]
fn fresh_rings_up_to(k: usize) -> Result<Search, Refusal>
    ensures { result ≡ fresh_rings_up_to k }
{
    if !search::bound_kept(k) {
        return Err(Refusal::RingSize);
    }
    Ok(search::fresh_search(2, k, 0))
}

// A kind, s and t among n atoms: rule 16, and then the rules of the kind. Rings have neither s nor t, and rings up to a
// size no t.
#[tactic(auto, unfolding(search::specs::Entries::fresh_of_kind))]
fn fresh_of_kind(n: usize, kind: usize, s: usize, t: usize) -> Result<Search, Refusal>
    ensures { result ≡ fresh_of_kind n kind s t }
{
    match (kind, s, t) {
        (0, 0, 0) => Ok(search::fresh_search(0, 0, 0)),
        (1 | 3, _, _) => fresh_paths(n, kind, s, t),
        (2, _, 0) => fresh_rings_up_to(s),
        _ => Err(Refusal::MarkKind),
    }
}

// A fresh search of any kind: rule 9, and then those of the kind, s and t.
#[tactic(auto, unfolding(search::specs::Entries::start_search))]
pub fn start_search(m: Molecule, kind: usize, s: usize, t: usize) -> Result<Search, Refusal>
    ensures { result ≡ start_search m kind s t }
{
    if !molecule::well_formed(m) {
        return Err(Refusal::Record);
    }
    fresh_of_kind(m.atoms, kind, s, t)
}

// A fresh ring search: rule 9.
pub fn start_rings(m: Molecule) -> Result<Search, Refusal>
    ensures { result ≡ start_rings m }
{
    start_search(m, 0, 0, 0)
}

// A fresh search for the paths from s to t: rules 9, 10, 11.
pub fn start_paths(m: Molecule, s: usize, t: usize) -> Result<Search, Refusal>
    ensures { result ≡ start_paths m s t }
{
    start_search(m, 1, s, t)
}

// A fresh search for the shortest paths from s to t: rules 9, 10, 11.
pub fn start_shortest(m: Molecule, s: usize, t: usize) -> Result<Search, Refusal>
    ensures { result ≡ start_shortest m s t }
{
    start_search(m, 3, s, t)
}

// A fresh search for the rings of at most k atoms: rules 9, 21.
pub fn start_rings_up_to(m: Molecule, k: usize) -> Result<Search, Refusal>
    ensures { result ≡ start_rings_up_to m k }
{
    start_search(m, 2, k, 0)
}
