// Marks (document 01): a search is saved as bytes, rules 9, 12, 13;
// bytes restore a search, rules 9, 14, 15, 16, 17.
#![tactic(auto)]

ghost use Rattle.std.specs.Prelude.{◌≡◌};
ghost use Rattle.search.specs.Mark.{save_answer, save_output, restore_mark};

use molecule::Molecule;
use refusal::Refusal;
use search::Search;

// Saves a search as a mark: rules 9, 12, 13.
pub fn save(m: Molecule, q: Search, out: &mut [u8]) -> Result<usize, Refusal>
    ensures { (result ≡ save_answer m q out.old) ×
        (out.new ≡ save_output m q out.old) }
{
    if !molecule::well_formed(m) {
        return Err(Refusal::Record);
    }
    if !search_rules::check_search(m, q) {
        return Err(Refusal::Search);
    }
    mark_writer::save_checked(m, q, &[], out)
}

// Restores a search from a mark: rules 9, 14, 15, 16, 17.
pub fn restore(m: Molecule, bytes: &[u8]) -> Result<Search, Refusal>
    ensures { result ≡ restore_mark m bytes.now }
{
    if molecule::well_formed(m) {
        mark_reader::restore_checked(m, bytes)
    } else {
        Err(Refusal::Record)
    }
}
