//! Laws on what is printed of tokens and read again. Each function does nothing: its contract is the law, for proofs that a
//! document or a journal reads as what was printed.

ghost use Rattle.st_token.specs.ReadingBack.{ReadsNamesAgain, ReadsNumbersAgain, ReadsLocksAgain, ReadsEntitiesAgain, ReadsVariablesAgain, ReadsAssignmentsAgain, ReadsValuesAgain, ReadsOwnValuesAgain, FindsByName, ReadsRowsAgain};

/// Declared names, numbers of 32 bits and the words of locks are words, and are read back.
pub fn reads_tokens_again()
    ensures names { ReadsNamesAgain }
    ensures numbers { ReadsNumbersAgain }
    ensures locks { ReadsLocksAgain }
{}

/// Entities, their variables and assignments to these are words, and are read back, whatever finds an entity by its name. In a
/// group that is built each entity's name finds it.
pub fn reads_variables_again()
    ensures entities { ReadsEntitiesAgain }
    ensures variables { ReadsVariablesAgain }
    ensures assignments { ReadsAssignmentsAgain }
    ensures values { ReadsValuesAgain }
    ensures own_values { ReadsOwnValuesAgain }
    ensures finds { FindsByName }
{}

/// Assignments of rows on different variables are read back as the rows.
pub fn reads_rows_again()
    ensures { ReadsRowsAgain }
{}
