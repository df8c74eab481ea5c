//! What the texts of the options and of the command mean, and which of them go together. `command_line` has them from
//! `clap`, which knows them as texts alone.

ghost use Rattle.std.specs.Prelude.{◌≡◌, []};
ghost use Rattle.st_words.specs.CommandLine.{given};
ghost use Rattle.st_words.specs.Jobs.{form_named as form_named_lem, pods_named as pods_named_lem, only, form_alone, tree_alone, to_alone, job_named as job_named_lem};

use crate::job::{FatTree, Form, Job, Pods};
use st_text::number;

/// The values of the options. One that the words do not give is `None`.
#[derive(Clone, Copy)]
pub struct Options<'a> {
    pub form: Option<&'a str>,
    pub pods: Option<&'a str>,
    pub seed: Option<&'a str>,
    pub to: Option<&'a str>,
}

/// The form of this name.
fn form_named(name: &str) -> Option<Form>
    ensures { result ≡ form_named_lem name.now }
{
    match name {
        "text" => Some(Form::Text),
        "json" => Some(Form::Json),
        "replay" => Some(Form::Replay),
        _ => None,
    }
}

/// The number of pods that is written so.
fn pods_named(name: &str) -> Option<Pods>
    ensures { result ≡ pods_named_lem name.now }
{
    match name {
        "4" => Some(Pods::Four),
        "6" => Some(Pods::Six),
        "8" => Some(Pods::Eight),
        "10" => Some(Pods::Ten),
        _ => None,
    }
}

impl Options<'_> {
    /// Whether no option is given.
    fn is_empty(self) -> bool
        ensures { result ≡ only [] (given self.entry) }
    {
        self.form.is_none() && self.pods.is_none() && self.seed.is_none() && self.to.is_none()
    }

    /// The form, `Text` where none is given. None where the value names no form, or where another option is given too.
    fn form(self) -> Option<Form>
        ensures { result ≡ form_alone (given self.entry) }
    {
        let others = Options { form: None, ..self };
        if !others.is_empty() {
            return None;
        }
        match self.form {
            Some(name) => form_named(name),
            None => Some(Form::Text),
        }
    }

    /// The fat tree, with 4 pods and the seed 0 where these are not given. None where a value is no such number, or where
    /// another option is given too.
    fn tree(self) -> Option<FatTree>
        ensures { result ≡ tree_alone (given self.entry) }
    {
        let others = Options {
            pods: None,
            seed: None,
            ..self
        };
        if !others.is_empty() {
            return None;
        }
        let pods = match self.pods {
            Some(name) => pods_named(name)?,
            None => Pods::Four,
        };
        let seed = match self.seed {
            Some(text) => number(text.as_bytes())?,
            None => 0,
        };
        Some(FatTree { pods, seed })
    }

    /// The number of `to`. None where it is not given or its value is no number, or where another option is given too.
    fn to(self) -> Option<u32>
        ensures { result ≡ to_alone (given self.entry) }
    {
        let others = Options { to: None, ..self };
        if !others.is_empty() {
            return None;
        }
        number(self.to?.as_bytes())
    }
}

/// The job of this command with these options. None where no command has this name, and where the options do not go with it,
/// one that it needs is not given, or their values mean nothing.
pub fn job_named(command: &str, options: Options) -> Option<Job>
    ensures { result ≡ job_named_lem command.now (given options.entry) }
{
    match command {
        "serial" => options.form().map(Job::Serial),
        "run" => options.form().map(Job::Run),
        "replay" => options.form().map(Job::Replay),
        "check" => options.is_empty().then_some(Job::Check),
        "roll" => options.to().map(Job::Roll),
        "revert" => options.to().map(Job::Revert),
        "gen" => options.tree().map(Job::Gen),
        "demo" => options.tree().map(Job::Demo),
        _ => None,
    }
}
