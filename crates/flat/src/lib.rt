// A test-only boundary: the entries on flat byte buffers, for tests in C and Rust. Declared in include/flat.h: numbers
// and slices, as C takes them; entries of one shape stay apart, since C knows each by its name.
#![tactic(auto)]

ghost use Rattle.std.specs.Prelude.{◌≡◌, ◌≤◌, ◌++◌, length, drop, Result};
ghost use Rattle.refusal.specs.declared.Refusal.{Refusal};
ghost use Rattle.search.specs.declared.Search.{Search};
ghost use Rattle.fields.specs.Field.{read_field, field_text};
ghost use Rattle.sheet.specs.Read.{read_sheet};
ghost use Rattle.molfile.specs.Elements.{built_in};
ghost use Rattle.molfile.specs.Molfile.{read_molfile};
ghost use Rattle.search.specs.Entries.{start_rings, start_paths, start_shortest, start_rings_up_to};
ghost use Rattle.search.specs.Mark.{restore_mark};
ghost use Rattle.flat.specs.Codes.{verdict_code, field_code, zeros_code, head_bytes, flat_bytes, molecule};
ghost use Rattle.flat.specs.Codes.{read_code, read_output, check_code, ring_code, path_code};
ghost use Rattle.flat.specs.Codes.{count_code, count_output};
ghost use Rattle.flat.specs.Searches.{SizesTold, SearchSize, search_from, Packed, MadeStored, RanStored};
ghost use Rattle.flat.specs.Searches.{MadeLeft, RunLeft, SaveLeft};

use molecule::Molecule;
use refusal::Refusal;
use search::{Ran, Search};

// What an entry returns where a buffer or the rows have another length than they must have.
const WRONG_LENGTH: u32 = 10000;

fn verdict_code(v: Result<bool, Refusal>) -> u32
    ensures { result ≡ verdict_code v }
{
    match v {
        Ok(yes) => u32::from(yes),
        Err(r) => refusal::number(r),
    }
}

// A record from its parts.
fn assemble(atoms: usize, bonds: usize, rows: &[u8]) -> Molecule
    requires { length rows.now ≡ 2048 }
    ensures { result ≡ molecule atoms bonds rows.now }
{
    let mut local = [0u8; 2048];
    local.copy_from_slice(rows);
    Molecule {
        atoms,
        bonds,
        rows: local,
    }
}

// Writes atoms and bonds into the first four bytes, by hand: `to_le_bytes` would give eight bytes of each.
fn head(out: &mut [u8], atoms: usize, bonds: usize)
    requires { 4 ≤ length out.old }
    ensures { out.new ≡ head_bytes atoms bonds ++ drop 4 out.old }
{
    out[0] = (atoms % 256) as u8;
    out[1] = (atoms / 256 % 256) as u8;
    out[2] = (bonds % 256) as u8;
    out[3] = (bonds / 256 % 256) as u8;
}

// Writes a record as bytes.
fn flatten(m: Molecule, out: &mut [u8])
    requires { length out.old ≡ 2052 }
    ensures { out.new ≡ flat_bytes m }
{
    head(out, m.atoms, m.bonds);
    out[4..].copy_from_slice(&m.rows);
}

// Puts what a text was read as into a record of 2,052 bytes.
fn put_reading(read: Result<Molecule, Refusal>, record: &mut [u8]) -> u32
    ensures value { result ≡ read_code read «record».old }
    ensures record_after { «record».new ≡ read_output read «record».old }
{
    if record.len() != 2052 {
        return WRONG_LENGTH;
    }
    match read {
        Ok(m) => {
            flatten(m, record);
            0
        }
        Err(r) => refusal::number(r),
    }
}

// Reads a sheet into a record of 2,052 bytes.
#[unsafe(no_mangle)]
pub extern "C" fn flat_read_sheet(sheet: &[u8], record: &mut [u8]) -> u32
    ensures value { result ≡ read_code (read_sheet sheet.now) «record».old }
    ensures record_after { «record».new ≡ read_output (read_sheet sheet.now) «record».old }
{
    put_reading(sheet::read_sheet(sheet), record)
}

// Reads a molfile into a record of 2,052 bytes.
#[unsafe(no_mangle)]
pub extern "C" fn flat_read_molfile(molfile: &[u8], record: &mut [u8]) -> u32
    ensures value { result ≡ read_code (read_molfile built_in molfile.now) «record».old }
    ensures record_after { let read = read_molfile built_in molfile.now in
        «record».new ≡ read_output read «record».old }
{
    put_reading(molfile::read_molfile(molfile), record)
}

// Rule 9.
#[unsafe(no_mangle)]
pub extern "C" fn flat_check_record(atoms: usize, bonds: usize, rows: &[u8]) -> u32
    ensures { result ≡ check_code atoms bonds rows.now }
{
    if rows.len() != 2048 {
        return WRONG_LENGTH;
    }
    if molecule::well_formed(assemble(atoms, bonds, rows)) {
        return 0;
    }
    refusal::number(Refusal::Record)
}

// The judge of rings.
#[unsafe(no_mangle)]
pub extern "C" fn flat_judge_ring(atoms: usize, bonds: usize, rows: &[u8], list: &[u8]) -> u32
    ensures { result ≡ ring_code atoms bonds rows.now list.now }
{
    if rows.len() != 2048 {
        return WRONG_LENGTH;
    }
    verdict_code(judge::judge_ring(assemble(atoms, bonds, rows), list))
}

// The judge of paths.
#[unsafe(no_mangle)]
pub extern "C" fn flat_judge_path(
    atoms: usize,
    bonds: usize,
    rows: &[u8],
    s: usize,
    t: usize,
    list: &[u8],
) -> u32
    ensures { result ≡ path_code atoms bonds rows.now s t list.now }
{
    if rows.len() != 2048 {
        return WRONG_LENGTH;
    }
    verdict_code(judge::judge_path(assemble(atoms, bonds, rows), s, t, list))
}

// The number of shortest paths from s to t.
#[unsafe(no_mangle)]
pub extern "C" fn flat_count_shortest(
    atoms: usize,
    bonds: usize,
    rows: &[u8],
    s: usize,
    t: usize,
    count: &mut u64,
) -> u32
    ensures value { result ≡ count_code atoms bonds rows.now s t }
    ensures count_after { count.new ≡ count_output atoms bonds rows.now s t count.old }
{
    if rows.len() != 2048 {
        return WRONG_LENGTH;
    }
    match count::count_shortest(assemble(atoms, bonds, rows), s, t) {
        Ok(k) => {
            *count = k;
            0
        }
        Err(r) => refusal::number(r),
    }
}

// A number field; the largest number where it is none.
#[unsafe(no_mangle)]
pub extern "C" fn flat_read_field(field: &[u8]) -> u64
    ensures { result ≡ field_code (read_field field.now) }
{
    fields::read_number(field).map_or(u64::MAX, |x| x.value)
}

// Whether the bytes are a number field that zeros fill: 1, or 0.
#[unsafe(no_mangle)]
pub extern "C" fn flat_zero_filled(field: &[u8]) -> u32
    ensures { result ≡ zeros_code (read_field field.now) }
{
    u32::from(fields::read_number(field).is_some_and(|x| x.zeros))
}

#[unsafe(no_mangle)]
pub extern "C" fn flat_write_field(field: &mut [u8], value: u64)
    ensures { field.new ≡ field_text (length field.old) value }
{
    fields::write_number(field, value)
}

// ---- searches

// Whether the rows, the numbers and the array have their lengths. Slices are tested and not turned into arrays: each
// entry would turn both buffers by itself, and return the same number where either fails.
#[tactic(auto, unfolding(crate::specs::Searches::sizes_kept))]
fn sizes_kept(rows: &[u8], numbers: &[u64], prefix: &[u8]) -> bool
    ensures { SizesTold rows.now numbers.now prefix.now result }
{
    rows.len() == 2048 && numbers.len() == 10 && prefix.len() == 128
}

// The search that numbers and an array name.
fn unpack(numbers: &[u64], prefix: &[u8]) -> Search
    requires { SearchSize numbers.now prefix.now }
    ensures { result ≡ search_from numbers.now prefix.now }
{
    let mut local = [0u8; 128];
    local.copy_from_slice(prefix);
    Search {
        kind: numbers[0] as usize,
        s: numbers[1] as usize,
        t: numbers[2] as usize,
        len: numbers[3] as usize,
        prefix: local,
        next: numbers[4] as usize,
        trials: numbers[5],
        extensions: numbers[6],
        listed: numbers[7],
    }
}

// Writes a search, used and made over the buffers.
fn pack(q: Search, used: usize, made: u64, numbers: &mut [u64], prefix: &mut [u8])
    requires { SearchSize numbers.old prefix.old }
    ensures { Packed q used made numbers.new prefix.new }
{
    let all = [
        q.kind as u64,
        q.s as u64,
        q.t as u64,
        q.len as u64,
        q.next as u64,
        q.trials,
        q.extensions,
        q.listed,
        used as u64,
        made,
    ];
    numbers.copy_from_slice(&all);
    prefix.copy_from_slice(&q.prefix);
}

// Writes a made search where it was accepted.
fn store_made(made: Result<Search, Refusal>, numbers: &mut [u64], prefix: &mut [u8]) -> u32
    requires { SearchSize numbers.old prefix.old }
    ensures { MadeStored made numbers.old prefix.old
        result numbers.new prefix.new }
{
    match made {
        Ok(q) => {
            pack(q, 0, 0, numbers, prefix);
            0
        }
        Err(r) => refusal::number(r),
    }
}

// Makes a search on a record, and writes it where it was accepted.
fn store_from<F: FnOnce(Molecule) -> Result<Search, Refusal>>(
    atoms: usize,
    bonds: usize,
    rows: &[u8],
    numbers: &mut [u64],
    prefix: &mut [u8],
    make: F,
) -> u32
    requires { F.pre make (molecule atoms bonds rows.now) }
    ensures { (made : Result Search Refusal) →
        ((x : Result Search Refusal) → F.post make (molecule atoms bonds rows.now) x → x ≡ made) →
        MadeLeft rows.now numbers.old prefix.old made result numbers.new prefix.new }
{
    if !sizes_kept(rows, numbers, prefix) {
        return WRONG_LENGTH;
    }
    store_made(make(assemble(atoms, bonds, rows)), numbers, prefix)
}

// Writes a run's search, used and made where it stopped.
fn store_ran(ran: Result<Ran, Refusal>, numbers: &mut [u64], prefix: &mut [u8]) -> u32
    requires { SearchSize numbers.old prefix.old }
    ensures { RanStored ran numbers.old prefix.old
        result numbers.new prefix.new }
{
    match ran {
        Ok(ran) => {
            pack(ran.search, ran.used, ran.made, numbers, prefix);
            enumeration::stop_number(ran.stop)
        }
        Err(r) => refusal::number(r),
    }
}

// A fresh ring search.
#[unsafe(no_mangle)]
pub extern "C" fn flat_start_rings(
    atoms: usize,
    bonds: usize,
    rows: &[u8],
    numbers: &mut [u64],
    prefix: &mut [u8],
) -> u32
    ensures { MadeLeft rows.now numbers.old prefix.old
        (start_rings (molecule atoms bonds rows.now))
        result numbers.new prefix.new }
{
    store_from(
        atoms,
        bonds,
        rows,
        numbers,
        prefix,
        |m| start::start_rings(m),
    )
}

// A fresh search for the paths from s to t.
#[unsafe(no_mangle)]
pub extern "C" fn flat_start_paths(
    atoms: usize,
    bonds: usize,
    rows: &[u8],
    s: usize,
    t: usize,
    numbers: &mut [u64],
    prefix: &mut [u8],
) -> u32
    ensures { MadeLeft rows.now numbers.old prefix.old
        (start_paths (molecule atoms bonds rows.now) s t)
        result numbers.new prefix.new }
{
    store_from(
        atoms,
        bonds,
        rows,
        numbers,
        prefix,
        |m| start::start_paths(m, s, t),
    )
}

// A fresh search for the shortest paths from s to t.
#[unsafe(no_mangle)]
pub extern "C" fn flat_start_shortest(
    atoms: usize,
    bonds: usize,
    rows: &[u8],
    s: usize,
    t: usize,
    numbers: &mut [u64],
    prefix: &mut [u8],
) -> u32
    ensures { MadeLeft rows.now numbers.old prefix.old
        (start_shortest (molecule atoms bonds rows.now) s t)
        result numbers.new prefix.new }
{
    store_from(
        atoms,
        bonds,
        rows,
        numbers,
        prefix,
        |m| start::start_shortest(m, s, t),
    )
}

// A fresh search for the rings of at most `size` atoms.
#[unsafe(no_mangle)]
pub extern "C" fn flat_start_rings_up_to(
    atoms: usize,
    bonds: usize,
    rows: &[u8],
    size: usize,
    numbers: &mut [u64],
    prefix: &mut [u8],
) -> u32
    ensures { MadeLeft rows.now numbers.old prefix.old
        (start_rings_up_to (molecule atoms bonds rows.now) size)
        result numbers.new prefix.new }
{
    store_from(
        atoms,
        bonds,
        rows,
        numbers,
        prefix,
        |m| start::start_rings_up_to(m, size),
    )
}

// Runs a search; used and made are not read.
#[unsafe(no_mangle)]
pub extern "C" fn flat_run(
    atoms: usize,
    bonds: usize,
    rows: &[u8],
    numbers: &mut [u64],
    prefix: &mut [u8],
    budget: u64,
    out: &mut [u8],
) -> u32
    ensures { RunLeft atoms bonds rows.now numbers.old prefix.old budget out.old
        result numbers.new prefix.new out.new }
{
    if !sizes_kept(rows, numbers, prefix) {
        return WRONG_LENGTH;
    }
    let q = unpack(numbers, prefix);
    store_ran(
        run::run(assemble(atoms, bonds, rows), q, budget, out),
        numbers,
        prefix,
    )
}

// Saves a search as a mark.
#[unsafe(no_mangle)]
pub extern "C" fn flat_save(
    atoms: usize,
    bonds: usize,
    rows: &[u8],
    numbers: &[u64],
    prefix: &[u8],
    mark: &mut [u8],
) -> u32
    ensures { SaveLeft atoms bonds rows.now numbers.now prefix.now mark.old
        result mark.new }
{
    if !sizes_kept(rows, numbers, prefix) {
        return WRONG_LENGTH;
    }
    let q = unpack(numbers, prefix);
    match marks::save(assemble(atoms, bonds, rows), q, mark) {
        Ok(k) => k as u32,
        Err(r) => refusal::number(r),
    }
}

// Restores a search from a mark.
#[unsafe(no_mangle)]
pub extern "C" fn flat_restore(
    atoms: usize,
    bonds: usize,
    rows: &[u8],
    mark: &[u8],
    numbers: &mut [u64],
    prefix: &mut [u8],
) -> u32
    ensures { MadeLeft rows.now numbers.old prefix.old
        (restore_mark (molecule atoms bonds rows.now) mark.now)
        result numbers.new prefix.new }
{
    store_from(
        atoms,
        bonds,
        rows,
        numbers,
        prefix,
        |m| marks::restore(m, mark),
    )
}
