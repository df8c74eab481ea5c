//! What the words can ask for. `command_line` finds it, and the top call carries it out.

ghost use Rattle.std.specs.Prelude.{◌≡◌};
ghost use Rattle.st_words.specs.Jobs.{pod_count};

/// What the program is to do, with all that the words say of it.
#[derive(Clone, Copy, Debug, PartialEq, Eq)]
pub enum Job {
    /// Run the scripts of a document on one thread, and report in this form.
    Serial(Form),
    /// Run the scripts of a document by threads, and report in this form.
    Run(Form),
    /// Go through the journals of a document again, and report in this form.
    Replay(Form),
    /// Read a document, and count its parts.
    Check,
    /// Plan the upgrade of all devices of each group to this firmware, on what a document's scripts leave.
    Roll(u32),
    /// Lead each group back to this version of its target, after the scripts of a document.
    Revert(u32),
    /// Write the document that is generated for this fat tree.
    Gen(FatTree),
    /// Run the scripts of that document on one thread, and sum up.
    Demo(FatTree),
}

/// How a report is written.
#[derive(Clone, Copy, Debug, PartialEq, Eq)]
pub enum Form {
    /// Lines of text.
    Text,
    /// One object of JSON.
    Json,
    /// The document, and the journal of each group.
    Replay,
}

/// The fat tree that a document is generated for, and what its scripts are made from.
#[derive(Clone, Copy, Debug, PartialEq, Eq)]
pub struct FatTree {
    /// How many pods it has.
    pub pods: Pods,
    /// What the scripts are made from: any number of 32 bits.
    pub seed: u32,
}

/// How many pods a fat tree can have.
#[derive(Clone, Copy, Debug, PartialEq, Eq)]
pub enum Pods {
    Four,
    Six,
    Eight,
    Ten,
}

impl Pods {
    /// How many pods there are: 4, 6, 8 or 10.
    pub fn count(self) -> u32
        ensures { result ≡ pod_count self }
    {
        match self {
            Pods::Four => 4,
            Pods::Six => 6,
            Pods::Eight => 8,
            Pods::Ten => 10,
        }
    }
}
