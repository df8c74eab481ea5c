//! Numbers in digits, as tokens spell them. `printing` writes them, and this module reads them.

ghost use Rattle.std.specs.Prelude.{◌≡◌};
ghost use Rattle.st_text.specs.Numbers.{has_leading_zero, number_of};

/// The most digits of a number.
const MAX_DIGITS: usize = 10;

/// Whether a zero is the first of several bytes.
fn has_leading_zero(token: &[u8]) -> bool
    ensures { result ≡ has_leading_zero token.now }
{
    token.len() > 1 && token[0] == b'0'
}

/// The number that the token spells: 1 to 10 digits with no leading zero, unless it is `0` alone, and at most
/// 4294967295. `None` exactly where the token is no such number; a sign, a space or any other byte makes it none.
pub fn number(token: &[u8]) -> Option<u32>
    ensures { result ≡ number_of token.now }
{
    if token.is_empty() || token.len() > MAX_DIGITS || has_leading_zero(token) {
        return None;
    }
    // Ten digits fit 64 bits, so the sum does not wrap, and one test at the end tells whether it fits 32.
    let mut value: u64 = 0;
    for digit in token {
        if !digit.is_ascii_digit() {
            return None;
        }
        value = value * 10 + u64::from(*digit - b'0');
    }
    u32::try_from(value).ok()
}
