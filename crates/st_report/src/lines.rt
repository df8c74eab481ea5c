//! The texts that a report has of its lines, each with a space before each word. No byte of them needs an escape in JSON.

ghost use Rattle.std.specs.Prelude.{◌≡◌, ◌++◌, ◌∷◌, [], OnOk, drop, true};
ghost use Rattle.std.specs.List.{list_all};
ghost use Rattle.st_entry.specs.Plain.{is_plain};

use st_text::Text;
use std::alloc::{AllocError, Global};
use std::marker::Model;

/// Texts in order. Contracts see the list of their bytes.
#[derive(Drop)]
pub(crate) struct Lines {
    texts: Vec<Text>,
}

impl Model for Lines {
    ghost use Rattle.std.specs.Prelude.{◌≡◌, ℕ, List, true};
    ghost use Rattle.std.specs.List.{list_all};
    ghost use Rattle.st_entry.specs.Plain.{is_plain};

    ghost Value = { List (List ℕ) };

    ghost view = { λ l. l.texts.items };

    ghost invariant = { λ l. list_all is_plain l.texts.items ≡ true };
}

impl Lines {
    /// No text. It takes no memory.
    pub(crate) fn new(alloc: Global) -> Lines
        ensures { result ≡ [] }
    {
        Lines {
            texts: Vec::new(alloc),
        }
    }

    /// Adds a text at the end.
    pub(crate) fn add(&mut self, text: Text) -> Result<(), AllocError>
        requires { is_plain text ≡ true }
        ensures { OnOk result (self.new ≡ self.old ++ text ∷ []) }
    {
        self.texts.push(text)?;
        Ok(())
    }

    /// The texts, in order.
    pub(crate) fn as_slice(&self) -> &[Text]
        ensures value { result.now ≡ self.now }
        ensures plain { list_all is_plain result.now ≡ true }
    {
        self.texts.as_slice()
    }
}

/// The bytes of a text without the space that it begins with.
pub(crate) fn without_space(text: &Text) -> &[u8]
    ensures { result.now ≡ drop 1 text.now }
{
    match text.bytes().split_first() {
        Some((_space, rest)) => rest,
        None => b"",
    }
}
