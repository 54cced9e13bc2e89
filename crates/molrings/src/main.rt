// `molrings` (document 02, F-1): reads a molfile from standard input and prints what `ringlist` prints for its sheet,
// or the line of the refusal. What it prints for an input is `molrings_text` of it (specs/Text.antt): `text::list`
// promises it of any reader and writer whose bytes are known.
// No contract says what standard input gives and standard output takes, so one sentence rests on reading `main`: it
// lists what standard input gives, up to its end, a read that fails, or 262,144 bytes.
#![tactic(auto)]

mod text;

use std::io;

fn main(rt: HostRuntime) -> io::Result<()> {
    text::list(&mut rt.stdin(), &mut rt.stdout())
}
