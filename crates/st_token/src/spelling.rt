//! How names, numbers and fixed words are read: each token gives what it stands for, or the kind of its fault.

ghost use Rattle.std.specs.Prelude.{◌≡◌, ◌<◌, ◌^◌, length, option_map};
ghost use Rattle.st_net.specs.Names.{place_of};
ghost use Rattle.st_token.specs.Places.{cut_at};
ghost use Rattle.st_token.specs.Steps.{Gives};
ghost use Rattle.st_token.specs.Spelling.{name_in, new_name_in, known_name_in, number_in, number_within, number_from, number_above, prio_in, word_in, is_comment};

use crate::fault::{FaultKind, LineError};
use st_net::{Name, NameIndex, Prio};
use st_text::number;
use std::alloc::Global;

/// What stands before the first such byte, and behind it.
pub fn cut_at(byte: u8, token: &[u8]) -> Option<(&[u8], &[u8])>
    ensures { option_map (λ p. (p.0.now, p.1.now)) result ≡ cut_at byte token.now }
{
    for (at, other) in token.iter().enumerate() {
        if *other == byte {
            return Some((&token[..at], &token[at + 1..]));
        }
    }
    None
}

/// The place of the first name that is spelled by these bytes.
fn place_among(names: &[Name], bytes: &[u8]) -> Option<u32>
    requires { length names.now < 2 ^ 32 }
    ensures { result ≡ place_of bytes.now names.now }
{
    for (place, name) in names.iter().enumerate() {
        if bytes == name.bytes() {
            return Some(place as u32);
        }
    }
    None
}

/// A name.
pub fn name_in(alloc: Global, token: &[u8]) -> Result<Name, LineError>
    ensures { Gives (λ name. name) result (name_in token.now) }
{
    match Name::read(alloc, token)? {
        Some(name) => Ok(name),
        None => Err(LineError::Bad(FaultKind::Name)),
    }
}

/// A new name, which is taken already or not.
#[tactic(auto, unfolding(crate::specs::Spelling::new_name_in))]
pub fn new_name_in(alloc: Global, taken: bool, token: &[u8]) -> Result<Name, LineError>
    ensures { Gives (λ name. name) result (new_name_in taken token.now) }
{
    let name = name_in(alloc, token)?;
    if taken {
        Err(LineError::Bad(FaultKind::Twice))
    } else {
        Ok(name)
    }
}

/// The place of a declared name, from 0. A name is copied only to say what is wrong with it.
#[tactic(auto, unfolding(crate::specs::Spelling::known_name_in))]
pub fn known_name_in(alloc: Global, names: &NameIndex, token: &[u8]) -> Result<u32, LineError>
    requires { length names.now < 2 ^ 32 }
    ensures { Gives (λ place. place) result (known_name_in names.now token.now) }
{
    match names.find(token) {
        Some(place) => Ok(place as u32),
        None => {
            let _name = name_in(alloc, token)?;
            Err(LineError::Bad(FaultKind::Unknown))
        }
    }
}

/// The place of a declared name among few, which are looked through, from 0.
#[tactic(auto, unfolding(crate::specs::Spelling::known_name_in))]
pub fn known_name_among(alloc: Global, names: &[Name], token: &[u8]) -> Result<u32, LineError>
    requires { length names.now < 2 ^ 32 }
    ensures { Gives (λ place. place) result (known_name_in names.now token.now) }
{
    let name = name_in(alloc, token)?;
    match place_among(names, name.bytes()) {
        Some(place) => Ok(place),
        None => Err(LineError::Bad(FaultKind::Unknown)),
    }
}

/// A number.
pub fn number_in(token: &[u8]) -> Result<u32, LineError>
    ensures { Gives (λ n. n) result (number_in token.now) }
{
    match number(token) {
        Some(n) => Ok(n),
        None => Err(LineError::Bad(FaultKind::Number)),
    }
}

/// A number of a range.
#[tactic(auto, unfolding(crate::specs::Spelling::number_within))]
pub fn number_within(low: u32, high: u32, token: &[u8]) -> Result<u32, LineError>
    ensures { Gives (λ n. n) result (number_within low high token.now) }
{
    let n = number_in(token)?;
    if low <= n && n <= high {
        Ok(n)
    } else {
        Err(LineError::Bad(FaultKind::Number))
    }
}

/// A number that is at least this one.
#[tactic(auto, unfolding(crate::specs::Spelling::number_from))]
pub fn number_from(low: u32, token: &[u8]) -> Result<u32, LineError>
    ensures { Gives (λ n. n) result (number_from low token.now) }
{
    let n = number_in(token)?;
    if low <= n {
        Ok(n)
    } else {
        Err(LineError::Bad(FaultKind::Number))
    }
}

/// A number that is above this one.
#[tactic(auto, unfolding(crate::specs::Spelling::number_above))]
pub fn number_above(low: u32, token: &[u8]) -> Result<u32, LineError>
    ensures { Gives (λ n. n) result (number_above low token.now) }
{
    let n = number_in(token)?;
    if low < n {
        Ok(n)
    } else {
        Err(LineError::Bad(FaultKind::Number))
    }
}

/// A lock, by its word.
pub fn prio_in(token: &[u8]) -> Result<Prio, LineError>
    ensures { Gives (λ prio. prio) result (prio_in token.now) }
{
    if token == b"low".as_slice() {
        Ok(Prio::Low)
    } else if token == b"high".as_slice() {
        Ok(Prio::High)
    } else {
        Err(LineError::Bad(FaultKind::Value))
    }
}

/// Tells that this fixed word stands here.
pub fn word_in(word: &[u8], token: &[u8]) -> Result<(), LineError>
    ensures { Gives (λ _. tt) result (word_in word.now token.now) }
{
    if token == word {
        Ok(())
    } else {
        Err(LineError::Bad(FaultKind::Value))
    }
}

/// Whether a line that begins with this word is skipped.
pub fn is_comment(word: &[u8]) -> bool
    ensures { result ≡ is_comment word.now }
{
    !word.is_empty() && word[0] == b'#'
}
