//! How many tokens stand behind a line's first word.

ghost use Rattle.std.specs.Prelude.{◌≡◌, All, map};
ghost use Rattle.st_text.specs.Tokens.{token_in, IsTokenOf};
ghost use Rattle.st_token.specs.Steps.{Gives};
ghost use Rattle.st_token.specs.Counts.{one_of, two_of, three_of, four_of};

use crate::fault::{FaultKind, LineError};
use st_text::Token;

/// The one token behind the first word.
pub fn one_of<'a>(line: &'a [u8], tokens: &[Token]) -> Result<&'a [u8], LineError>
    requires { All (IsTokenOf line.now) tokens.now }
    ensures { Gives (λ word. word.now) result (one_of (map (token_in line.now) tokens.now)) }
{
    if tokens.len() != 1 {
        return Err(LineError::Bad(FaultKind::Count));
    }
    Ok(&line[tokens[0].start..tokens[0].end])
}

/// The two tokens behind the first word.
pub fn two_of<'a>(line: &'a [u8], tokens: &[Token]) -> Result<(&'a [u8], &'a [u8]), LineError>
    requires { All (IsTokenOf line.now) tokens.now }
    ensures { Gives (λ words. (words.0.now, words.1.now)) result (two_of (map (token_in line.now) tokens.now)) }
{
    if tokens.len() != 2 {
        return Err(LineError::Bad(FaultKind::Count));
    }
    Ok((
        &line[tokens[0].start..tokens[0].end],
        &line[tokens[1].start..tokens[1].end],
    ))
}

/// The three tokens behind the first word.
pub fn three_of<'a>(
    line: &'a [u8],
    tokens: &[Token],
) -> Result<(&'a [u8], &'a [u8], &'a [u8]), LineError>
    requires { All (IsTokenOf line.now) tokens.now }
    ensures { Gives (λ words. (words.0.now, words.1.now, words.2.now)) result (three_of (map (token_in line.now) tokens.now)) }
{
    if tokens.len() != 3 {
        return Err(LineError::Bad(FaultKind::Count));
    }
    Ok((
        &line[tokens[0].start..tokens[0].end],
        &line[tokens[1].start..tokens[1].end],
        &line[tokens[2].start..tokens[2].end],
    ))
}

/// The four tokens behind the first word.
pub fn four_of<'a>(
    line: &'a [u8],
    tokens: &[Token],
) -> Result<(&'a [u8], &'a [u8], &'a [u8], &'a [u8]), LineError>
    requires { All (IsTokenOf line.now) tokens.now }
    ensures { Gives (λ words. (words.0.now, words.1.now, words.2.now, words.3.now)) result (four_of (map (token_in line.now) tokens.now)) }
{
    if tokens.len() != 4 {
        return Err(LineError::Bad(FaultKind::Count));
    }
    Ok((
        &line[tokens[0].start..tokens[0].end],
        &line[tokens[1].start..tokens[1].end],
        &line[tokens[2].start..tokens[2].end],
        &line[tokens[3].start..tokens[3].end],
    ))
}
