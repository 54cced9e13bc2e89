// The text that `ringlist` prints (document 01, "Judge, host entry and `ringlist`"), written at the start of a buffer.
#![tactic(auto)]

ghost use Rattle.std.specs.Prelude.{◌≡◌, ◌+◌, ◌*◌, length};
ghost use Rattle.report.specs.Lines.{ring_line, count_line, refusal_line, ring_lines, PrintedInto};

// The three counts of a search: 61 bytes.
// 0 where there is no room, as `PrintedInto` says; plain numbers, as no narrower type may be asked for; and no Display,
// which writes into no slice.
pub fn count_line(listed: u64, extensions: u64, trials: u64, text: &mut [u8]) -> usize
    ensures { PrintedInto 61 (count_line listed extensions trials) text.old result text.new }
{
    if text.len() < 61 {
        return 0;
    }
    fields::write_number(&mut text[0..20], listed);
    fields::write_number(&mut text[20..40], extensions);
    fields::write_number(&mut text[40..60], trials);
    text[60] = b'\n';
    61
}

// A refusal: 12 bytes.
pub fn refusal_line(number: u32, text: &mut [u8]) -> usize
    ensures { PrintedInto 12 (refusal_line number) text.old result text.new }
{
    if text.len() < 12 {
        return 0;
    }
    text[..7].copy_from_slice(b"refused");
    fields::write_number(&mut text[7..11], u64::from(number));
    text[11] = b'\n';
    12
}

// One ring: 4 bytes an atom, and 1.
pub fn ring_line(atoms: &[u8], text: &mut [u8]) -> usize
    ensures { PrintedInto (4 * length atoms.now + 1) (ring_line atoms.now)
        text.old result text.new }
{
    if text.len() / 4 < atoms.len() {
        return 0;
    }
    let end = 4 * atoms.len();
    if end == text.len() {
        return 0;
    }
    for (i, &atom) in atoms.iter().enumerate() {
        let at = 4 * i;
        let next = at + 4;
        fields::write_number(&mut text[at..next], u64::from(atom));
    }
    text[end] = b'\n';
    end + 1
}

// The ring of each record, a line each: at most 4 bytes for each byte of the records.
pub fn ring_lines(records: &[u8], text: &mut [u8]) -> usize
    ensures { PrintedInto (4 * length records.now) (ring_lines records.now)
        text.old result text.new }
{
    if text.len() / 4 < records.len() {
        return 0;
    }
    let mut used = 0;
    let mut left = records;
    while let Some((&size, rest)) = left.split_first() {
        let k = usize::from(size);
        if rest.len() < k {
            return used;
        }
        let (ring, next) = rest.split_at(k);
        used += ring_line(ring, &mut text[used..]);
        left = next;
    }
    used
}
