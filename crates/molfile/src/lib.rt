// The molfile reader of request F-1 (document 02): bytes of a V2000 connection table to a molecule record, or one
// refusal. Rules 18, 3, 4, 19, 6, 7, 8, 20.
// Lines are found by place, as `ReadsFileLine` in specs/ says; what is filled goes beside n and m, since rules 3 and 4
// try them only when all lines are read.
#![tactic(auto)]

ghost use Rattle.std.specs.Prelude.{◌≡◌, ◌+◌, ◌*◌, ◌≤◌, ◌<◌, [], ◌∷◌, length, drop};
ghost use Rattle.graph.specs.Every.{all_below};
ghost use Rattle.bonds.specs.Parts.{listed};
ghost use Rattle.molfile.specs.Elements.{built_in, limit_of};
ghost use Rattle.molfile.specs.Molfile.{is_end, has_end, symbols_kept, neighbours_kept, read_atoms, read_molfile};
ghost use Rattle.molfile.specs.Parts.{lines_from, between, no_feed_at, NoFeed, FindsFeed, ReadsFileLine, ReadsLongLine};
ghost use Rattle.molfile.specs.Parts.{SkipsLines, ReadsPair, ReadsCounts, held_limit, ReadsAtomLines, ReadsBondLines};
ghost use Rattle.molfile.specs.Parts.{ListsFit, ReadsFileLines};

use molecule::Molecule;
use refusal::Refusal;

// The bytes that end a line: a line feed, and the carriage return that may stand before it.
const LINE_FEED: u8 = b'\n';

const RETURN: u8 = b'\r';

// A line: where its text ends, and where the next one begins.
#[derive(Clone, Copy)]
struct Line {
    pub end: usize,
    pub next: usize,
}

// The fourth line: n, m, and where the next one begins.
#[derive(Clone, Copy)]
struct Counts {
    pub atoms: usize,
    pub bonds: usize,
    pub next: usize,
}

// Whether none of 16 bytes is a line feed. The loop looks at each, so that the compiler can compare them at once.
// Tried: `position` finds the line feeds of 17,547 bytes in 13.4 µs, blocks in 3.8; `make bench` asks for 8 for a file.
fn block_clear(s: &[u8], at: usize) -> bool
    requires { at + 16 ≤ length s.now }
    ensures { result ≡ all_below 16 (no_feed_at s.now at) }
{
    let mut clear = true;
    for j in 0..16 {
        if s[at + j] == LINE_FEED {
            clear = false;
        }
    }
    clear
}

// A place up to which no line feed stands: as many blocks of 16 bytes on as have none.
fn clear_from(s: &[u8], from: usize) -> usize
    requires { from ≤ length s.now }
    ensures { NoFeed s.now from result }
{
    let mut i = from;
    // By place: of a chain over `chunks_exact(16)` the place would have to be counted again.
    while 16 <= s.len() - i && block_clear(s, i) {
        i += 16;
    }
    i
}

// The first line feed from a place on.
fn feed_from(s: &[u8], from: usize) -> Option<usize>
    requires { from ≤ length s.now }
    ensures { FindsFeed s.now from result }
{
    let start = clear_from(s, from);
    for i in start..s.len() {
        if s[i] == LINE_FEED {
            return Some(i);
        }
    }
    None
}

// The line that begins at a place; its text ends before its line feed, or before the carriage return there.
fn line_at(s: &[u8], from: usize) -> Option<Line>
    requires { from ≤ length s.now }
    ensures { ReadsFileLine s.now from result }
{
    let feed = feed_from(s, from)?;
    let next = feed + 1;
    if from < feed && s[feed - 1] == RETURN {
        return Some(Line {
            end: feed - 1,
            next,
        });
    }
    Some(Line { end: feed, next })
}

// The line that begins at a place, if it reaches so many columns.
fn long_line_at(s: &[u8], from: usize, columns: usize) -> Option<Line>
    requires { (from ≤ length s.now) × (0 < columns) }
    ensures { ReadsLongLine s.now from columns result }
{
    let line = line_at(s, from)?;
    if line.end - from < columns {
        return None;
    }
    Some(line)
}

// Where the line after the first lines of the bytes begins, so many.
fn skip_lines(s: &[u8], count: usize) -> Option<usize>
    ensures { SkipsLines s.now count result }
{
    let mut at = 0;
    for _ in 0..count {
        at = line_at(s, at)?.next;
    }
    Some(at)
}

// The numbers of three columns each that begin at a place.
fn pair_at(s: &[u8], at: usize) -> Option<(u16, u16)>
    requires { at + 6 ≤ length s.now }
    ensures { ReadsPair (drop at s.now) result }
{
    let left = fields::after_blanks(&s[at..at + 3], true)?;
    let right = fields::after_blanks(&s[at + 3..at + 6], true)?;
    Some((left.value as u16, right.value as u16))
}

// The counts line that begins at a place: n, m and V2000.
fn read_counts(s: &[u8], from: usize) -> Option<Counts>
    requires { from ≤ length s.now }
    ensures { ReadsCounts s.now from result }
{
    let line = long_line_at(s, from, 39)?;
    let (atoms, bonds) = pair_at(s, from)?;
    if !s[from + 34..].starts_with(b"V2000") {
        return None;
    }
    Some(Counts {
        atoms: usize::from(atoms),
        bonds: usize::from(bonds),
        next: line.next,
    })
}

// The most neighbours of the element with a symbol of three bytes, by the built-in table; 0 where it has none.
// 0 and no Option: `limit_of` and `symbols_kept` in specs/ are over numbers.
#[tactic(auto, unfolding(crate::specs::Elements::limit_of, crate::specs::Lines::stands))]
fn limit_of(a: u8, b: u8, c: u8) -> u8
    ensures { result ≡ limit_of built_in (a ∷ b ∷ c ∷ []) }
{
    match (a, b, c) {
        (b'H' | b'F', b' ', b' ') => 1,
        (b'O', b' ', b' ') => 3,
        (b'C' | b'N', b' ', b' ') => 4,
        (b'P' | b'S', b' ', b' ') => 6,
        _ => 0,
    }
}

// n atom lines from a place on; `limits` takes the most neighbours of each.
// Apart from `bond_lines`: a closure for what is kept of a line would hold the slice that it fills.
fn atom_lines(s: &[u8], from: usize, n: usize, limits: &mut [u8]) -> Option<usize>
    requires { (from ≤ length s.now) × (n ≤ length limits.old) }
    ensures { ReadsAtomLines s.now from n result limits.new }
{
    let mut at = from;
    for i in 0..n {
        let line = long_line_at(s, at, 34)?;
        limits[i] = limit_of(s[at + 31], s[at + 32], s[at + 33]);
        at = line.next;
    }
    Some(at)
}

// m bond lines from a place on; `bonds` takes the two atoms of each.
fn bond_lines(s: &[u8], from: usize, m: usize, bonds: &mut [(u16, u16)]) -> Option<usize>
    requires { (from ≤ length s.now) × (m ≤ length bonds.old) }
    ensures { ReadsBondLines s.now from m result bonds.new }
{
    let mut at = from;
    for k in 0..m {
        let line = long_line_at(s, at, 6)?;
        bonds[k] = pair_at(s, at)?;
        at = line.next;
    }
    Some(at)
}

// Whether the bytes between two places are exactly M  END.
fn is_end(s: &[u8], from: usize, end: usize) -> bool
    requires { (from ≤ end) × (end ≤ length s.now) }
    ensures { result ≡ is_end (between s.now from end) }
{
    &s[from..end] == b"M  END".as_slice()
}

// Whether one of the lines from a place on is exactly M  END; what follows the first is not read.
fn has_end(s: &[u8], from: usize) -> bool
    requires { from ≤ length s.now }
    ensures { result ≡ has_end (lines_from s.now from) }
{
    let mut at = from;
    while let Some(line) = line_at(s, at) {
        if is_end(s, at, line.end) {
            return true;
        }
        at = line.next;
    }
    false
}

// Rule 18: n and m; `limits` takes the most neighbours of each atom and `bonds` the atoms of each bond.
fn read_lines(s: &[u8], limits: &mut [u8], bonds: &mut [(u16, u16)]) -> Option<(usize, usize)>
    requires { (999 ≤ length limits.old) × (999 ≤ length bonds.old) }
    ensures { ReadsFileLines s.now result limits.new bonds.new }
{
    let header = skip_lines(s, 3)?;
    let counts = read_counts(s, header)?;
    let atoms = atom_lines(s, counts.next, counts.atoms, limits)?;
    let joined = bond_lines(s, atoms, counts.bonds, bonds)?;
    if !has_end(s, joined) {
        return None;
    }
    Some((counts.atoms, counts.bonds))
}

// Rule 19: whether the symbols of n atoms are in the table.
fn symbols_kept(limits: &[u8], n: usize) -> bool
    requires { n ≤ length limits.now }
    ensures { result ≡ symbols_kept (held_limit limits.now) n }
{
    (0..n).all(|i| limits[i] != 0)
}

// Rule 20: whether none of n atoms has more neighbours than its element allows.
fn neighbours_kept(limits: &[u8], n: usize, rows: &[u8]) -> bool
    requires { (n ≤ length limits.now) × (16 * n ≤ length rows.now) }
    ensures { result ≡ neighbours_kept (held_limit limits.now) n rows.now }
{
    (0..n).all(|i| molecule::neighbours(rows, i) <= usize::from(limits[i]))
}

// Rules 3, 4, 19, 6, 7, 8 and 20 on what the lines name.
fn read_atoms(n: usize, m: usize, limits: &[u8], bonds: &[(u16, u16)]) -> Result<Molecule, Refusal>
    requires { ListsFit n m limits.now bonds.now }
    ensures { result ≡ read_atoms n m (held_limit limits.now) (listed bonds.now) }
{
    if 128 < n {
        return Err(Refusal::TooManyAtoms);
    }
    if 1024 < m {
        return Err(Refusal::TooManyBonds);
    }
    if !symbols_kept(limits, n) {
        return Err(Refusal::UnknownSymbol);
    }
    let molecule = bonds::read_bonds(n, &bonds[..m])?;
    if !neighbours_kept(limits, n, &molecule.rows) {
        return Err(Refusal::TooManyNeighbours);
    }
    Ok(molecule)
}

// All rules; `limits` takes the most neighbours of each atom and `bonds` the atoms of each bond.
fn read_parts(s: &[u8], limits: &mut [u8], bonds: &mut [(u16, u16)]) -> Result<Molecule, Refusal>
    requires { (999 ≤ length limits.old) × (999 ≤ length bonds.old) }
    ensures { result ≡ read_molfile built_in s.now }
{
    let (n, m) = read_lines(s, limits, bonds).ok_or(Refusal::MolfileLines)?;
    read_atoms(n, m, limits, bonds)
}

// Reads a molfile: any bytes give the molecule record of exactly its atoms and bonds, or one refusal.
pub fn read_molfile(s: &[u8]) -> Result<Molecule, Refusal>
    ensures { result ≡ read_molfile built_in s.now }
{
    let mut limits = [0u8; 999];
    let mut bonds = [(0, 0); 999];
    read_parts(s, &mut limits, &mut bonds)
}
