//! What can be done on a document, and on what the source gives, and which of it a job asks for.

ghost use Rattle.std.specs.Prelude.{◌≡◌};
ghost use Rattle.st_top.specs.Ways.{way_to as way_to_lem};

use st_words::{FatTree, Form, Job};

/// How what came of scripts is shown.
#[derive(Clone, Copy, Debug, PartialEq, Eq)]
pub enum Showing {
    /// In a form of a report.
    In(Form),
    /// Summed up: it came of the document of this fat tree.
    Sums(FatTree),
    /// As a plan, for each group as it stands then, of the upgrade of its devices to this firmware.
    Roll(u32),
}

/// What is done on a document, whether it was read or made.
#[derive(Clone, Copy, Debug, PartialEq, Eq)]
pub enum Task {
    /// Run its scripts on one thread, and show what came of them.
    Serial(Showing),
    /// Run its scripts on one thread, lead each group back to this version of its target, and show what came of that.
    Revert(u32),
    /// Count its parts.
    Count,
    /// Print it.
    Print,
}

/// What is done on what the source gives.
#[derive(Clone, Copy, Debug, PartialEq, Eq)]
pub enum Reading {
    /// A task on the document that it is.
    Doc(Task),
    /// The scripts of the document that it is are run by threads, and what came of them is shown in this form.
    Run(Form),
    /// Its journals are gone through again, and what came of them is shown in this form.
    Journals(Form),
}

/// What words ask for.
#[derive(Clone, Copy, Debug, PartialEq, Eq)]
pub enum Way {
    /// Nothing that the program does.
    Nothing,
    /// What is done on what the source gives.
    Reads(Reading),
    /// A task on the document that is generated for a fat tree.
    Makes(Task, FatTree),
}

/// The way to a job.
pub fn way_to(job: Job) -> Way
    ensures { result ≡ way_to_lem job }
{
    match job {
        Job::Serial(form) => Way::Reads(Reading::Doc(Task::Serial(Showing::In(form)))),
        Job::Run(form) => Way::Reads(Reading::Run(form)),
        Job::Replay(form) => Way::Reads(Reading::Journals(form)),
        Job::Roll(firmware) => Way::Reads(Reading::Doc(Task::Serial(Showing::Roll(firmware)))),
        Job::Revert(version) => Way::Reads(Reading::Doc(Task::Revert(version))),
        Job::Check => Way::Reads(Reading::Doc(Task::Count)),
        Job::Gen(tree) => Way::Makes(Task::Print, tree),
        Job::Demo(tree) => Way::Makes(Task::Serial(Showing::Sums(tree)), tree),
    }
}
