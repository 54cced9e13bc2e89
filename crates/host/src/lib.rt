// The entries for the C host, declared in include/ringlist.h: numbers, slices, and a number for a refusal, as C takes
// them; entries of one shape stay apart, since C knows each by its name.
#![tactic(auto)]

ghost use Rattle.std.specs.Prelude.{◌≡◌, true, ◌+◌, ◌≤◌, length};
ghost use Rattle.molecule.specs.Record.{well_formed};
ghost use Rattle.search.specs.Place.{restorable};
ghost use Rattle.search.specs.declared.Form.TheVariants.{Old, New};
ghost use Rattle.mark_writer.specs.Parts.{OwnLines};
ghost use Rattle.host.specs.Parts.{code, filled_value};
ghost use Rattle.host.specs.Gate.{room_asked};
ghost use Rattle.host.specs.Resume.{search_for, run_and_save, resume, mark_size, listed_in};
ghost use Rattle.host.specs.Start.{start_mark};
ghost use Rattle.host.specs.Count.{count_sheet};
ghost use Rattle.host.specs.Written.{saved_number, saved_length};
ghost use Rattle.host.specs.Carry.{carry_sheet};
ghost use Rattle.host.specs.Molfile.{molfile_sheet};

use molecule::Molecule;
use refusal::Refusal;
use search::Search;

// The bytes that a mark output has at least (document 02, F-5).
const MARK_ROOM: usize = 9815;

// The number that an entry returns: what it answers, or the number of the rule that refuses the call.
fn code(answer: Result<u32, Refusal>) -> u32
    ensures { result ≡ code answer }
{
    match answer {
        Ok(k) => k,
        Err(r) => refusal::number(r),
    }
}

// Rule 13: whether a mark output of so many bytes has room for every mark.
fn ask_room(len: usize) -> Result<(), Refusal>
    ensures { result ≡ room_asked len }
{
    if len < MARK_ROOM {
        return Err(Refusal::MarkRoom);
    }
    Ok(())
}

// The search that a mark names; no bytes mean a fresh ring search.
fn search_for(m: Molecule, mark: &[u8]) -> Result<Search, Refusal>
    requires { well_formed m ≡ true }
    ensures { result ≡ search_for m mark.now }
{
    if mark.is_empty() {
        return Ok(search::fresh_search(0, 0, 0));
    }
    mark_reader::restore_checked(m, mark)
}

// Runs a search and saves the one that the run returns, with the bond lines of the mark handed, if one was.
fn run_and_save(
    m: Molecule,
    q: Search,
    mark: &[u8],
    budget: u64,
    rings: &mut [u8],
    next_mark: &mut [u8],
) -> u32
    requires { (well_formed m ≡ true) × (restorable m q ≡ true) × OwnLines m mark.now }
    ensures { let x = run_and_save m q budget rings.old next_mark.old in
        (result ≡ x.number) × (rings.new ≡ x.rings) × (next_mark.new ≡ x.next_mark) }
{
    let ran = runner::run_checked(m, q, budget, rings);
    // An output too short for the mark is left as it was; the entry has asked for room.
    let _ = mark_writer::save_checked(m, ran.search, mark, next_mark);
    search::ended_number(Ok(ran.stop))
}

// What `ringlist_resume` does.
fn resume(
    sheet: &[u8],
    mark: &[u8],
    budget: u64,
    rings: &mut [u8],
    next_mark: &mut [u8],
) -> Result<u32, Refusal>
    ensures { let x = resume sheet.now mark.now budget rings.old next_mark.old in
        (code result ≡ x.number) × (rings.new ≡ x.rings) × (next_mark.new ≡ x.next_mark) }
{
    let m = sheet::read_sheet(sheet)?;
    let q = search_for(m, mark)?;
    ask_room(next_mark.len())?;
    Ok(run_and_save(m, q, mark, budget, rings, next_mark))
}

// Reads a sheet, restores a mark, runs within a budget and saves: rules 1 to 8, 14 to 17, 13.
#[unsafe(no_mangle)]
pub extern "C" fn ringlist_resume(
    sheet: &[u8],
    mark: &[u8],
    budget: u64,
    rings: &mut [u8],
    next_mark: &mut [u8],
) -> u32
    ensures { let x =
        resume sheet.now mark.now budget rings.old next_mark.old in
        (result ≡ x.number) × (rings.new ≡ x.rings) × (next_mark.new ≡ x.next_mark) }
{
    code(resume(sheet, mark, budget, rings, next_mark))
}

// What `ringlist_start` does.
fn start(
    sheet: &[u8],
    kind: usize,
    s: usize,
    t: usize,
    next_mark: &mut [u8],
) -> Result<u32, Refusal>
    ensures { let x = start_mark sheet.now kind s t next_mark.old in
        (code result ≡ x.number) × (next_mark.new ≡ x.next_mark) }
{
    let m = sheet::read_sheet(sheet)?;
    let q = start::start_search(m, kind, s, t)?;
    ask_room(next_mark.len())?;
    mark_writer::put_mark(m, q, &[], next_mark);
    Ok(0)
}

// Reads a sheet, starts a search of a kind, s and t on it and writes its mark: rules 1 to 8, 16, 10, 11, 21, 13.
#[unsafe(no_mangle)]
pub extern "C" fn ringlist_start(
    sheet: &[u8],
    kind: u64,
    s: u64,
    t: u64,
    next_mark: &mut [u8],
) -> u32
    ensures { let x = start_mark sheet.now kind s t next_mark.old in
        (result ≡ x.number) × (next_mark.new ≡ x.next_mark) }
{
    code(start(sheet, kind as usize, s as usize, t as usize, next_mark))
}

// What `ringlist_count_shortest` does.
fn count_shortest(sheet: &[u8], s: usize, t: usize, count: &mut u64) -> Result<u32, Refusal>
    ensures { let x = count_sheet sheet.now s t count.old in
        (code result ≡ x.number) × (count.new ≡ x.count) }
{
    let m = sheet::read_sheet(sheet)?;
    *count = counter::count_checked(m, s, t)?;
    Ok(0)
}

// Reads a sheet and writes the number of shortest paths from s to t: rules 1 to 8, 10, 11, 26.
#[unsafe(no_mangle)]
pub extern "C" fn ringlist_count_shortest(sheet: &[u8], s: u64, t: u64, count: &mut u64) -> u32
    ensures { let x = count_sheet sheet.now s t count.old in
        (result ≡ x.number) × (count.new ≡ x.count) }
{
    code(count_shortest(sheet, s as usize, t as usize, count))
}

// What a save answered: the number of bytes written is put into `length`.
fn put_length(saved: Result<usize, Refusal>, length: &mut usize) -> Result<u32, Refusal>
    ensures { (code result ≡ saved_number saved) ×
        (length.new ≡ saved_length saved length.old) }
{
    *length = saved?;
    Ok(0)
}

// Reads a sheet and an old mark and writes the mark of the same search: rules 1 to 8, 14 to 17, 13.
#[unsafe(no_mangle)]
pub extern "C" fn ringlist_carry_over(
    sheet: &[u8],
    old_mark: &[u8],
    mark: &mut [u8],
    length: &mut usize,
) -> u32
    ensures { let x =
        carry_sheet Old New sheet.now old_mark.now mark.old length.old in
        (result ≡ x.number) × (mark.new ≡ x.bytes) × (length.new ≡ x.length) }
{
    code(put_length(carry::carry_over(sheet, old_mark, mark), length))
}

// Reads a sheet and a mark and writes the old mark of the same search: rules 1 to 8, 14 to 17, 13.
#[unsafe(no_mangle)]
pub extern "C" fn ringlist_carry_back(
    sheet: &[u8],
    mark: &[u8],
    old_mark: &mut [u8],
    length: &mut usize,
) -> u32
    ensures { let x =
        carry_sheet New Old sheet.now mark.now old_mark.old length.old in
        (result ≡ x.number) × (old_mark.new ≡ x.bytes) × (length.new ≡ x.length) }
{
    code(put_length(carry::carry_back(sheet, mark, old_mark), length))
}

// Reads a molfile and writes the sheet of its record: rules 18, 3, 4, 19, 6, 7, 8, 20, 13.
#[unsafe(no_mangle)]
pub extern "C" fn ringlist_molfile(molfile: &[u8], sheet: &mut [u8], length: &mut usize) -> u32
    ensures { let x = molfile_sheet molfile.now sheet.old length.old in
        (result ≡ x.number) × (sheet.new ≡ x.bytes) × (length.new ≡ x.length) }
{
    code(put_length(molsheet::write_sheet(molfile, sheet), length))
}

// The value of a field that blanks fill.
// `mark_reader::kept_at` is the same of a place: one function for both would narrow or widen at each call.
fn filled_value(bytes: &[u8], columns: usize, at: usize) -> Option<u64>
    requires { at + columns ≤ length bytes.now }
    ensures { result ≡ filled_value columns bytes.now at }
{
    let field = fields::number_at(bytes, columns, at)?;
    if field.zeros {
        return None;
    }
    Some(field.value)
}

// The bytes of the mark at the start of a buffer, by the bonds and the length of p that it names;
// 0 where the buffer holds no such mark.
#[unsafe(no_mangle)]
pub extern "C" fn ringlist_mark_length(mark: &[u8]) -> usize
    ensures { result ≡ mark_size mark.now }
{
    if mark.len() < 91 {
        return 0;
    }
    let Some(bonds) = filled_value(mark, 4, 16) else {
        return 0;
    };
    let Some(len) = filled_value(mark, 4, 20) else {
        return 0;
    };
    let size = 91 + 4 * len as usize + 9 * bonds as usize;
    if mark.len() < size {
        return 0;
    }
    size
}

// The listed count of the mark at the start of a buffer; 0 where there is none.
#[unsafe(no_mangle)]
pub extern "C" fn ringlist_listed(mark: &[u8]) -> u64
    ensures { result ≡ listed_in mark.now }
{
    if mark.len() < 91 {
        return 0;
    }
    filled_value(mark, 20, 69).unwrap_or(0)
}
