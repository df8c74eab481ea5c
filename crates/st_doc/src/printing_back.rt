//! The law on a document that is printed and read again. The function does nothing: its contract is the law, for the proofs
//! of the crates that print a document and claim that it reads as what was printed.

ghost use Rattle.st_doc.specs.ReadingBack.{PrintsBack};

/// A sound document that is printed is read as the document, without the place of its journals.
pub fn prints_back()
    ensures { PrintsBack }
{}
