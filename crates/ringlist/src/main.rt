// `ringlist` (document 01): reads a bond sheet from standard input and prints each ring on a line of its own, and then
// the counts. What it prints for an input is `printed_text` of it (specs/Text.antt): `text::list` promises it of any
// reader and writer whose bytes are known.
// No contract says what standard input gives and standard output takes, so one sentence rests on reading `main`: it
// lists what standard input gives, up to its end, a read that fails, or 65,536 bytes, which decide the text
// (`first-bytes`).
#![tactic(auto)]

mod text;

use std::io;

fn main(rt: HostRuntime) -> io::Result<()> {
    text::list(&mut rt.stdin(), &mut rt.stdout())
}
