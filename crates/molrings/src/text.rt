// The listing of an input that `molrings` reads as a molfile (document 02, F-1).
ghost use Rattle.std.specs.Prelude.{◌≡◌, length, IfSome, OnOk};
ghost use Rattle.std.specs.Io.KnownBytes.{Appends};
ghost use Rattle.listing.specs.Printing.{ListsPart};
ghost use Rattle.molrings.specs.Text.{molrings_text, molrings_listing};

use listing::Listing;
use std::io;
use std::io::{Read, Write};

// The listing of an input, before its first piece.
pub fn open(input: &[u8]) -> Listing
    ensures { result ≡ molrings_listing input.now }
{
    listing::open(molfile::read_molfile(input))
}

// 262,144 bytes for the input.
// A function of its own: over the zeros written out in `list` the check did not end.
pub fn buffer() -> [u8; 262144]
    ensures { length result ≡ 262144 }
{
    [0; 262144]
}

// Prints the text of what the reader gives, of which the first 262,144 bytes are read, and then returns a failure of
// the reader's, if there was one.
pub fn list<R: Read, W: Write>(reader: &mut R, out: &mut W) -> io::Result<()>
    ensures all { OnOk result (IfSome (R.remaining reader.old)
        (λ input. Appends (W.contents out.old) (W.contents out.new) (molrings_text input))) }
    ensures some { ListsPart molrings_text (R.remaining reader.old) (R.remaining reader.new)
        (W.contents out.old) (W.contents out.new) }
{
    let mut input = buffer();
    listing::list(|bytes| open(bytes), &mut input, reader, out)
}
