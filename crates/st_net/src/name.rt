//! Names of groups, devices, links and applications.

ghost use Rattle.std.specs.Prelude.{◌≡◌, IfOk, IfSome, IfNone, bytes_eq, true, false};
ghost use Rattle.st_net.specs.Names.{is_letter as is_letter_lem, is_name_byte as is_name_byte_lem, is_name as is_name_lem};

use std::alloc::{AllocError, Global};
use std::marker::Model;

/// The most bytes that a name has.
pub const MAX_NAME_BYTES: usize = 32;

/// The number of this limit, as a law: it does nothing.
pub fn most_name_bytes()
    ensures { MAX_NAME_BYTES ≡ 32 }
{}

/// A name: 1 to 32 bytes, first a letter `a` to `z` or `A` to `Z`, then letters, digits, `_` and `-`. Contracts see the list
/// of its bytes.
#[derive(Drop)]
pub struct Name {
    bytes: Vec<u8>,
}

impl Model for Name {
    ghost use Rattle.std.specs.Prelude.{◌≡◌, ℕ, List, true};
    ghost use Rattle.st_net.specs.Names.{is_name};

    ghost Value = { List ℕ };

    ghost view = { λ n. n.bytes.items };

    ghost invariant = { λ n. is_name n.bytes.items ≡ true };
}

fn is_letter(byte: u8) -> bool
    ensures { result ≡ is_letter_lem byte }
{
    (byte >= b'a' && byte <= b'z') || (byte >= b'A' && byte <= b'Z')
}

fn is_name_byte(byte: u8) -> bool
    ensures { result ≡ is_name_byte_lem byte }
{
    is_letter(byte) || (byte >= b'0' && byte <= b'9') || byte == b'_' || byte == b'-'
}

/// Whether the bytes are spelled as a name.
fn is_name(bytes: &[u8]) -> bool
    ensures { result ≡ is_name_lem bytes.now }
{
    if bytes.is_empty() || bytes.len() > MAX_NAME_BYTES || !is_letter(bytes[0]) {
        return false;
    }
    for byte in bytes {
        if !is_name_byte(*byte) {
            return false;
        }
    }
    true
}

impl Name {
    /// The name of these bytes: None exactly where they are not spelled as a name.
    pub fn read(alloc: Global, bytes: &[u8]) -> Result<Option<Name>, AllocError>
        ensures some { IfOk result (λ read. IfSome read (λ name. name ≡ bytes.now)) }
        ensures none { IfOk result (λ read. IfNone read (is_name_lem bytes.now ≡ false)) }
    {
        if !is_name(bytes) {
            return Ok(None);
        }
        Ok(Some(Name {
            bytes: bytes.to_vec(alloc)?,
        }))
    }

    /// The bytes of the name.
    pub fn bytes(&self) -> &[u8]
        ensures bytes { result.now ≡ self.now }
        ensures spelling { is_name_lem result.now ≡ true }
    {
        self.bytes.as_slice()
    }

    /// An equal name.
    pub fn copy(&self, alloc: Global) -> Result<Name, AllocError>
        ensures { IfOk result (λ copy. copy ≡ self.now) }
    {
        Ok(Name {
            bytes: self.bytes.as_slice().to_vec(alloc)?,
        })
    }

    /// Whether two names are one.
    pub fn is_same(&self, other: &Name) -> bool
        ensures { result ≡ bytes_eq self.now other.now }
    {
        self.bytes.as_slice() == other.bytes.as_slice()
    }
}
