//! Which bytes a line may hold. A reader asks it of each line before it looks at the line's tokens, so that a fault of a
//! byte comes before every other fault of its line.

ghost use Rattle.std.specs.Prelude.{◌≡◌};
ghost use Rattle.st_text.specs.AllowedBytes.{is_allowed_byte, has_allowed_bytes};

/// Whether a line may hold the byte: the printable bytes of ASCII, 32 to 126, and tab, 9.
fn is_allowed_byte(byte: u8) -> bool
    ensures { result ≡ is_allowed_byte byte }
{
    matches!(byte, b' '..=b'~' | b'\t')
}

/// Whether each byte of the line is one that a line may hold: 32 to 126, or tab. The line is given without its LF and
/// without the CR before it, as `lines` cuts it; a CR elsewhere is not allowed. Takes time in its bytes.
pub fn has_allowed_bytes(line: &[u8]) -> bool
    ensures { result ≡ has_allowed_bytes line.now }
{
    line.iter().all(|byte| is_allowed_byte(*byte))
}
