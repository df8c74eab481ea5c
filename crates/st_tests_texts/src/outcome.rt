//! How a test ends: what it found has to hold.

use std::alloc::AllocError;
use std::test::Fail;

/// Succeeds where what was found holds. An `assert!` in each test would take the checker longer.
pub fn holds(found: Result<bool, AllocError>) -> Result<(), Fail> {
    if found? {
        Ok(())
    } else {
        Err(Fail::new("it does not hold"))
    }
}

/// The same of a row of a table, which is named where it does not hold.
pub fn row_holds(row: &str, found: Result<bool, AllocError>) -> Result<(), Fail> {
    if found? { Ok(()) } else { Err(Fail::new(row)) }
}
