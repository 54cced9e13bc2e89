// Number fields (document 01, "Bond sheet" and "Marks"), of any number of columns.
#![tactic(auto)]

ghost use Rattle.std.specs.Prelude.{◌≡◌, ◌+◌, ◌≤◌, length, drop};
ghost use Rattle.fields.specs.Field.{is_digit, may_follow, digits, after_blanks, zero_first, read_field};
ghost use Rattle.fields.specs.Field.{column, field_text, field_at, blanks_only, value_at};

// The limit of a count, and so of what a field may hold.
pub const LIMIT: u64 = 9_999_999_999_999_999_999;

// A blank.
const BLANK: u8 = b' ';

// What a number field holds: its value, and whether zeros fill the field.
#[derive(Clone, Copy, Debug, PartialEq, Eq)]
pub struct Number {
    pub value: u64,
    pub zeros: bool,
}

// Whether a byte is a digit.
// Its worth is taken apart from this: with an `Option` of that, reading a sheet takes a tenth more instructions.
fn is_digit(b: u8) -> bool
    ensures { result ≡ is_digit b }
{
    matches!(b, b'0'..=b'9')
}

// Whether a digit may follow digits worth v: unless leading zeros are allowed, a 0 stands alone.
fn may_follow(v: u64, zeros: bool) -> bool
    ensures { result ≡ may_follow zeros v }
{
    zeros || 0 < v
}

// The digits from `from` on, after digits that came to `first`.
// By index: over a slice of the rest the compiler does not write out the few turns that a field of 4 columns has, and
// reading a sheet took a quarter longer.
#[inline]
fn more_digits(s: &[u8], from: usize, first: u64, zeros: bool) -> Option<Number>
    ensures { result ≡ digits zeros first (drop from s.now) }
{
    let mut value = first;
    for i in from..s.len() {
        let b = s[i];
        if !is_digit(b) {
            return None;
        }
        if !may_follow(value, zeros) {
            return None;
        }
        if 999_999_999_999_999_999 < value {
            return None;
        }
        value = value * 10 + u64::from(b - b'0');
    }
    Some(Number { value, zeros })
}

// Whether zeros fill a field: a digit 0 in its first column.
fn zero_first(s: &[u8]) -> bool
    ensures { result ≡ zero_first s.now }
{
    s.first() == Some(&b'0')
}

// Reads a whole slice as blanks and then one digit or more; `zeros` says whether leading zeros are allowed, and is
// handed on with the value.
#[inline]
pub fn after_blanks(s: &[u8], zeros: bool) -> Option<Number>
    ensures { result ≡ after_blanks zeros s.now }
{
    for (i, &b) in s.iter().enumerate() {
        if b != BLANK {
            if !is_digit(b) {
                return None;
            }
            return more_digits(s, i + 1, u64::from(b - b'0'), zeros);
        }
    }
    None
}

// Reads a whole slice as one number field.
#[tactic(auto, unfolding(crate::specs::Field::read_field))]
#[inline]
pub fn read_number(s: &[u8]) -> Option<Number>
    ensures { result ≡ read_field s.now }
{
    after_blanks(s, zero_first(s))
}

// The byte of a column where v is what is left of the number: its last digit, or a blank where nothing is left.
#[tactic(auto, unfolding(crate::specs::Field::column))]
fn column_byte(v: u64) -> u8
    ensures { result ≡ column v }
{
    if v == 0 {
        return BLANK;
    }
    b'0' + (v % 10) as u8
}

// Writes a number into the whole slice, right-justified, blanks in front.
// Of a number with more digits than columns the lowest digits are kept.
pub fn write_number(out: &mut [u8], value: u64)
    ensures { out.new ≡ field_text (length out.old) value }
{
    let Some(last) = out.len().checked_sub(1) else {
        return;
    };
    out[last] = b'0' + (value % 10) as u8;
    let mut v = value / 10;
    // By index: of what is written through `iter_mut().rev()` a proof knows nothing.
    for i in (0..last).rev() {
        out[i] = column_byte(v);
        v /= 10;
    }
}

// The field of so many columns at a place.
#[inline]
pub fn number_at(bytes: &[u8], columns: usize, at: usize) -> Option<Number>
    requires { at + columns ≤ length bytes.now }
    ensures { result ≡ field_at columns bytes.now at }
{
    read_number(&bytes[at..at + columns])
}

// Its value, 0 where it is no number field.
pub fn value_at(bytes: &[u8], columns: usize, at: usize) -> u64
    requires { at + columns ≤ length bytes.now }
    ensures { result ≡ value_at columns bytes.now at }
{
    number_at(bytes, columns, at).map_or(0, |x| x.value)
}

// Whether it is a number field that zeros do not fill.
pub fn blanks_only(x: Option<Number>) -> bool
    ensures { result ≡ blanks_only x }
{
    x.is_some_and(|x| !x.zeros)
}
