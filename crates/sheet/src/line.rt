//! Lines of a sheet, each ended by byte 10, which the last may lack.
ghost use Rattle.std.specs.Prelude.{◌≡◌, ◌-◌, ◌≤◌, length, drop};
ghost use Rattle.std.specs.Iterator.{YieldsFirstRef, item_count};
ghost use Rattle.sheet.specs.Lines.{front, back, lines};

// The bytes before the first `stop`, and the rest, which begins with it.
pub(crate) fn split(bytes: &[u8], stop: u8) -> (&[u8], &[u8])
    ensures front { result.0.now ≡ front stop bytes.now }
    ensures back { result.1.now ≡ back stop bytes.now }
{
    let n = bytes.iter().position(|b| *b == stop).unwrap_or(bytes.len());
    bytes.split_at(n)
}

/// The first line of what is left of a sheet, without its byte 10, and what is left behind that
/// byte.
pub fn next_line(sheet: &[u8]) -> (&[u8], &[u8])
    ensures line { result.0.now ≡ front 10 sheet.now }
    ensures rest { result.1.now ≡ drop 1 (back 10 sheet.now) }
    ensures shorter { length result.1.now ≤ length sheet.now - 1 }
{
    let (line, rest) = split(sheet, b'\n');
    (line, rest.get(1..).unwrap_or(rest))
}

/// The lines of a sheet from the first on, each without its byte 10.
#[derive(Drop)]
pub struct Lines<'a> {
    rest: &'a [u8],
}

impl<'a> Lines<'a> {
    /// All lines of a sheet.
    pub fn new(sheet: &'a [u8]) -> Lines<'a>
        ensures { result.rest.now ≡ sheet.now }
    {
        Lines { rest: sheet }
    }
}

impl<'a> Iterator for Lines<'a> {
    type Item = &'a [u8];

    ghost next_gives = { YieldsFirstRef (λ s. lines s.rest.now) };

    ghost remaining = { item_count (λ s. lines s.rest.now) };

    fn next(&mut self) -> Option<&'a [u8]> {
        if self.rest.is_empty() {
            return None;
        }
        let (line, rest) = next_line(self.rest);
        self.rest = rest;
        Some(line)
    }
}
