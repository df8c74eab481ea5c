//! Laws on what is printed and read again. Each function does nothing: its contract is the law, for proofs that a text
//! reads as what was printed.

ghost use Rattle.st_text.specs.ReadingBack.{CutsLinesAgain, CutsTokensAgain, ReadsNumbersAgain, ReadsPrintedAlone, PrintsNumbersAsWords, CutsWordLinesAgain, CutsWordsAgain, AllowsWords};

/// Lines with an LF behind each are cut again as they were, if none holds an LF or ends in a CR.
pub fn cuts_lines_again()
    ensures { CutsLinesAgain }
{}

/// Tokens with a space between each two are cut again as they were, if none is empty or holds a space or a tab.
pub fn cuts_tokens_again()
    ensures { CutsTokensAgain }
{}

/// A number of 32 bits that was printed in decimal is read back, and nothing else is read as that number.
pub fn reads_numbers_again()
    ensures again { ReadsNumbersAgain }
    ensures alone { ReadsPrintedAlone }
{}

/// A text of lines of words, with a space between each two words and an LF behind each line, is cut into these lines, each
/// line into these words, and holds allowed bytes alone. A word is one byte or more of 33 to 126, as a printed number is.
pub fn reads_words_again()
    ensures lines { CutsWordLinesAgain }
    ensures words { CutsWordsAgain }
    ensures allowed { AllowsWords }
    ensures numbers { PrintsNumbersAsWords }
{}
