// The listing of an input that `ringlist` reads as a sheet (document 01, "Judge, host entry and `ringlist`").
ghost use Rattle.std.specs.Prelude.{◌≡◌, length, IfSome, OnOk};
ghost use Rattle.std.specs.Io.KnownBytes.{Appends};
ghost use Rattle.listing.specs.Printing.{ListsPart};
ghost use Rattle.ringlist.specs.Text.{input_read, printed_text, opened};

use listing::Listing;
use molecule::Molecule;
use refusal::Refusal;
use std::io;
use std::io::{Read, Write};

// What an input is read as; one above 65,529 bytes is refused by rule 1.
fn read(input: &[u8]) -> Result<Molecule, Refusal>
    ensures { result ≡ input_read input.now }
{
    if 65_529 < input.len() {
        return Err(Refusal::SheetLength);
    }
    sheet::read_sheet(input)
}

// The listing of an input, before its first piece.
pub fn open(input: &[u8]) -> Listing
    ensures { result ≡ opened input.now }
{
    listing::open(read(input))
}

// 65,536 bytes for the input.
// A function of its own, as in `molrings`, where the check did not end over the zeros written out in `list`.
pub fn buffer() -> [u8; 65536]
    ensures { length result ≡ 65536 }
{
    [0; 65536]
}

// Prints the text of what the reader gives, of which 65,536 bytes are enough, and then returns a failure of the
// reader's, if there was one.
pub fn list<R: Read, W: Write>(reader: &mut R, out: &mut W) -> io::Result<()>
    ensures all { OnOk result (IfSome (R.remaining reader.old)
        (λ input. Appends (W.contents out.old) (W.contents out.new) (printed_text input))) }
    ensures some { ListsPart printed_text (R.remaining reader.old) (R.remaining reader.new)
        (W.contents out.old) (W.contents out.new) }
{
    let mut input = buffer();
    listing::list(|bytes| open(bytes), &mut input, reader, out)
}
