// The text that `ringlist` prints for a sheet (document 01, "Judge, host entry and `ringlist`") and `molrings` for a
// molfile (document 02, F-1), piece by piece: each turn writes the next piece into a buffer, so that the text needs no
// more memory than one run of the search. The texts of the turns, joined, are `reading_text` (specs/Text.antt), by
// `reading-prints` (proofs/Joined.antt).
// `print` hands the texts to a writer, and `read_full` takes the input from a reader; what a reader gives and a writer
// holds is known by their own contracts, and of standard input and output no contract says it.
#![tactic(auto)]

ghost use Rattle.std.specs.Prelude.{List, ℕ, ◌≡◌, ◌<◌, ◌≤◌, length, take, OnOk};
ghost use Rattle.std.specs.Fn.{FnOnceReturnsAt};
ghost use Rattle.std.specs.Io.KnownBytes.{Appends, Consumes, IsAtEnd};
ghost use Rattle.listing.specs.Turns.{begun_reading, output, after_stop, last_turn};
ghost use Rattle.listing.specs.Sound.{Sound};
ghost use Rattle.listing.specs.Printing.{piece, AppendsPart, PrintsOn, PrintsPart, ListedWhole, ListedPart};
ghost use Rattle.listing.specs.declared.Listing.{Listing};
ghost use Rattle.listing.specs.Turns.{rings_turn, rings_on, turned, turned_text};

use enumeration::Stop;
use molecule::Molecule;
use refusal::Refusal;
use search::Search;
use std::io;
use std::io::{Read, Write};

// A listing by what comes next: the line of a refusal, the lines of the rings of one more run of a search on a
// molecule, or the line of its counts.
#[derive(Clone, Copy)]
pub enum Listing {
    Refused(Refusal),
    Rings(Molecule, Search),
    Counts(Search),
}

// What a turn leaves: the bytes of the piece, and the listing of the next one, if it was not the last.
#[derive(Clone, Copy)]
pub struct Turn {
    pub size: usize,
    pub next: Option<Listing>,
}

// What comes after a run that stopped.
fn after_stop(m: Molecule, q: Search, stop: Stop) -> Listing
    ensures { result ≡ after_stop m q stop }
{
    match stop {
        Stop::Done | Stop::Limit => Listing::Counts(q),
        Stop::Spent | Stop::Full => Listing::Rings(m, q),
    }
}

// The listing of what a text was read as, before its first piece.
pub fn open(read: Result<Molecule, Refusal>) -> Listing
    ensures { result ≡ begun_reading read }
{
    match read {
        Ok(m) => Listing::Rings(m, search::fresh_search(0, 0, 0)),
        Err(r) => Listing::Refused(r),
    }
}

// 16,384 bytes for the records of a run.
// Of the size that the definition `output` names, as `piece` is of its own.
fn output() -> [u8; 16384]
    ensures { result ≡ output }
{
    [0; 16384]
}

// The turn of the last piece.
fn last(size: usize) -> Turn
    ensures { result ≡ last_turn size }
{
    Turn { size, next: None }
}

// One more run of the search, and the lines of the rings that it lists.
fn list_more(m: Molecule, q: Search, text: &mut [u8]) -> Turn
    ensures { (result ≡ rings_turn m q text.old)
        × (text.new ≡ rings_on m q text.old) }
{
    let mut out = output();
    match run::run(m, q, 1_048_576, &mut out) {
        Ok(ran) => Turn {
            size: report::ring_lines(&out[..ran.used], text),
            next: Some(after_stop(m, ran.search, ran.stop)),
        },
        Err(_) => Turn {
            size: 0,
            next: Some(Listing::Counts(q)),
        },
    }
}

// The next piece of the text, at the start of `text`.
pub fn take_turn(listing: Listing, text: &mut [u8]) -> Turn
    ensures { (result ≡ turned listing text.old)
        × (text.new ≡ turned_text listing text.old) }
{
    match listing {
        Listing::Refused(r) => last(report::refusal_line(refusal::number(r), text)),
        Listing::Rings(m, q) => list_more(m, q, text),
        Listing::Counts(q) => last(report::count_line(q.listed, q.extensions, q.trials, text)),
    }
}

// 65,536 bytes for a piece.
fn piece() -> [u8; 65536]
    ensures { result ≡ piece }
{
    [0; 65536]
}

// Writes all of `text`, or stops at the first write that takes nothing or fails, when some of it may be written.
// std's `write_all` says nothing of what a failed call has written, and the clause `some` of `print` tells it.
fn write_all<W: Write>(out: &mut W, text: &[u8]) -> io::Result<()>
    ensures all { OnOk result (Appends (W.contents out.old) (W.contents out.new) text.now) }
    ensures some { AppendsPart (W.contents out.old) (W.contents out.new) text.now }
{
    let mut done = 0;
    while done < text.len() {
        match out.write(&text[done..]) {
            Ok(0) => return Err(io::Error::from(io::ErrorKind::WriteZero)),
            Ok(n) => done += n,
            Err(e) => return Err(e),
        }
    }
    Ok(())
}

// Prints the text of a listing that stands: all of it, or its beginning where a write fails.
pub fn print<W: Write>(begun: Listing, out: &mut W) -> io::Result<()>
    requires { Sound begun }
    ensures all { OnOk result (PrintsOn begun (W.contents out.old) (W.contents out.new)) }
    ensures some { PrintsPart begun (W.contents out.old) (W.contents out.new) }
{
    let mut listing = begun;
    let mut piece = piece();
    loop {
        let turn = take_turn(listing, &mut piece);
        write_all(out, &piece[..turn.size])?;
        let Some(next) = turn.next else {
            return Ok(());
        };
        listing = next;
    }
}

// Reads until `input` is full, the reader ends or a read fails: the bytes read, and that failure. No method of std's
// tells how many bytes came before one.
pub fn read_full<R: Read>(reader: &mut R, input: &mut [u8]) -> (usize, io::Result<()>)
    ensures within { result.0 ≤ length input.new }
    ensures bytes { Consumes (R.remaining reader.old) (R.remaining reader.new) (take result.0 input.new) }
    ensures end { OnOk result.1 (result.0 < length input.new → IsAtEnd (R.remaining reader.new)) }
{
    let mut done = 0;
    while done < input.len() {
        match reader.read(&mut input[done..]) {
            Ok(0) => return (done, Ok(())),
            Ok(n) => done += n,
            Err(e) => return (done, Err(e)),
        }
    }
    (done, Ok(()))
}

// Lists what a reader gives: it is read into `input` until that is full, `open` says which listing the bytes have, and
// its text is printed; then a failure of the reader's is returned, if there was one.
pub fn list<R: Read, W: Write, F: FnOnce(&[u8]) -> Listing>(
    open: F,
    input: &mut [u8],
    reader: &mut R,
    out: &mut W,
) -> io::Result<()>
    requires callable { F.IsAlwaysCallable «open» }
    requires sound { (bytes : List ℕ) (l : Listing) → FnOnceReturnsAt F.FnOnce «open» bytes l → Sound l }
    ensures all { OnOk result (ListedWhole (FnOnceReturnsAt F.FnOnce «open») (length input.old)
        (R.remaining reader.old) (R.remaining reader.new) (W.contents out.old) (W.contents out.new)) }
    ensures some { ListedPart (FnOnceReturnsAt F.FnOnce «open») (length input.old)
        (R.remaining reader.old) (R.remaining reader.new) (W.contents out.old) (W.contents out.new) }
{
    let (size, read) = read_full(reader, input);
    print(open(&input[..size]), out)?;
    read
}
