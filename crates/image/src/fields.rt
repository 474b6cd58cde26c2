//! The fields of an image: 16 bits each, low byte first.
ghost use Rattle.std.specs.Prelude.{◌≡◌, ◌+◌, ◌*◌, ◌<◌, [], ◌∷◌, length};
ghost use Rattle.image.specs.Images.{bytes_of, field};

/// The field of these two bytes.
pub(crate) fn number(low: u8, high: u8) -> u16
    ensures { result ≡ low + 256 * high }
{
    u16::from_le_bytes([low, high])
}

/// The field whose low byte stands at index `at`.
pub(crate) fn read(bytes: &[u8], at: usize) -> u16
    requires { at + 1 < length bytes.now }
    ensures { result ≡ field bytes.now at }
{
    number(bytes[at], bytes[at + 1])
}

/// Writes a field into its two bytes.
pub(crate) fn put(part: &mut [u8], x: u16)
    requires { length part.old ≡ 2 }
    ensures { part.new ≡ bytes_of (x ∷ []) }
{
    part.copy_from_slice(&x.to_le_bytes());
}

/// Writes fields into their stretch, one behind another.
pub(crate) fn put_all(part: &mut [u8], fields: &[u16])
    requires { length part.old ≡ 2 * length fields.now }
    ensures { part.new ≡ bytes_of fields.now }
{
    // By index: of chunks that were lent a proof knows the length alone afterwards.
    for (i, x) in fields.iter().enumerate() {
        put(&mut part[2 * i..2 * i + 2], *x);
    }
}
