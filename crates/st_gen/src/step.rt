//! The steps to a device or a link of a fat tree. Its name is spelled from them.

ghost use Rattle.std.specs.Prelude.{◌≡◌, ◌++◌, OnOk, decimal};
ghost use Rattle.st_gen.specs.TreeNames.{step_text};

use st_text::Text;
use std::alloc::AllocError;

/// One step: a pod, a ToR or an aggregation switch of a pod, or a core switch, each by its number from 0.
#[derive(Clone, Copy, Debug, PartialEq, Eq)]
pub enum Step {
    Pod(u32),
    Tor(u32),
    Aggregation(u32),
    Core(u32),
}

/// Adds a letter and a number.
fn print_numbered(letter: &[u8], number: u32, out: &mut Text) -> Result<(), AllocError>
    ensures { OnOk result (out.new ≡ out.old ++ (letter.now ++ decimal number)) }
{
    out.word(letter)?;
    out.num(u64::from(number))
}

impl Step {
    /// Adds the text of the step.
    pub fn print(self, out: &mut Text) -> Result<(), AllocError>
        ensures { OnOk result (out.new ≡ out.old ++ step_text self) }
    {
        match self {
            Step::Pod(p) => print_numbered(b"p", p, out),
            Step::Tor(i) => print_numbered(b"e", i, out),
            Step::Aggregation(j) => print_numbered(b"a", j, out),
            Step::Core(n) => print_numbered(b"c", n, out),
        }
    }
}
