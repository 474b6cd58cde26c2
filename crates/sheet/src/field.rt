//! Fields of a line.
ghost use Rattle.std.specs.Prelude.{◌≡◌, ◌&&◌, drop, if◌then◌else◌, Some, None};
ghost use Rattle.sheet.specs.Fields.{Read, numeral, value_after, sort, sort_of, text_of, place_of};

use crate::line::split;

/// A field of a line: a verb, a number or a stray word, each the bytes of the sheet that it is,
/// and the place in its line where they begin.
#[derive(Clone, Copy, PartialEq, Eq, Debug)]
pub enum Field<'a> {
    Verb(&'a [u8], usize),
    Number(&'a [u8], usize),
    Word(&'a [u8], usize),
}

/// Reads the field of a line that begins at place `at`, counted from 0. The field runs to the next
/// blank or the line's end; the rest begins with that blank. Behind the line's end there is nothing
/// but an empty word.
pub fn read_field<'a>(line: &'a [u8], at: usize) -> (Field<'a>, &'a [u8])
    ensures { Read line.now at result.0 result.1.now }
{
    let (text, rest) = split(tail(line, at), b' ');
    (classify(text, at), rest)
}

// The bytes of a line from place `at` on.
fn tail(line: &[u8], at: usize) -> &[u8]
    ensures { result.now ≡ drop at line.now }
{
    line.get(at..).unwrap_or(&[])
}

// The field that the bytes are.
fn classify<'a>(text: &'a [u8], at: usize) -> Field<'a>
    ensures text { text_of result ≡ text.now }
    ensures kind { sort_of result ≡ sort text.now }
    ensures place { place_of result ≡ at }
{
    match text {
        [b'N' | b'J' | b'C' | b'S' | b'O' | b'L' | b'K'] => Field::Verb(text, at),
        _ if number(text).is_some() => Field::Number(text, at),
        _ => Field::Word(text, at),
    }
}

// The number that the bytes write, where they are a number.
pub(crate) fn number(text: &[u8]) -> Option<u16>
    ensures { result ≡ (if numeral text.now then Some (value_after 0 text.now) else None) }
{
    // Digit by digit: `str::from_utf8` and `from_str_radix` were tried, and a line took twice the time.
    if text.is_empty() || text.len() > 5 || matches!(text, [b'0', _, ..]) {
        return None;
    }
    let mut value: u32 = 0;
    for b in text {
        if !b.is_ascii_digit() {
            return None;
        }
        value = value * 10 + u32::from(*b - b'0');
    }
    u16::try_from(value).ok()
}
