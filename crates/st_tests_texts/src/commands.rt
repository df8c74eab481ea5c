//! The words after the program's name: the job that they ask for, or that they ask for none.

use crate::outcome::{holds, row_holds};
use st_words::{FatTree, Form, Job, Pods, read_words};
use std::alloc::{AllocError, Global};
use std::test::Fail;

/// What these words ask for.
fn asked(alloc: Global, words: &[&str]) -> Result<Option<Job>, AllocError> {
    let mut list = Vec::new(alloc);
    for word in words {
        list.push(String::from_str(alloc, *word)?)?;
    }
    read_words(alloc, list.as_slice())
}

/// What the words between the spaces of this line ask for.
fn asked_by(alloc: Global, line: &str) -> Result<Option<Job>, AllocError> {
    let words: Vec<&str> = line.split_whitespace().collect(alloc)?;
    asked(alloc, words.as_slice())
}

/// Whether the words between the spaces of a line ask for this.
fn is_asked(alloc: Global, line: &str, job: Option<Job>) -> Result<bool, AllocError> {
    Ok(asked_by(alloc, line)? == job)
}

const FOUR: FatTree = FatTree {
    pods: Pods::Four,
    seed: 0,
};

/// Words, and what they ask for.
const ASKED: [(&str, Job); 13] = [
    ("serial", Job::Serial(Form::Text)),
    ("run", Job::Run(Form::Text)),
    ("replay", Job::Replay(Form::Text)),
    ("check", Job::Check),
    ("roll --to 2", Job::Roll(2)),
    ("--to=0 revert", Job::Revert(0)),
    ("revert --to 4294967295", Job::Revert(4294967295)),
    ("gen", Job::Gen(FOUR)),
    ("demo", Job::Demo(FOUR)),
    ("--form json serial", Job::Serial(Form::Json)),
    ("serial --form=replay", Job::Serial(Form::Replay)),
    ("--form=text -- serial", Job::Serial(Form::Text)),
    ("check --", Job::Check),
];

#[test]
fn each_command_is_read_with_its_options(rt: HostRuntime) -> Result<(), Fail> {
    for (line, job) in ASKED {
        row_holds(line, is_asked(rt.alloc(), line, Some(job)))?;
    }
    Ok(())
}

/// Words, and the pods and the seed that they ask for.
const GENERATED: [(&str, Pods, u32); 5] = [
    ("gen --pods 4 --seed 0", Pods::Four, 0),
    ("gen --seed 7", Pods::Four, 7),
    ("--pods=6 gen", Pods::Six, 0),
    ("gen --seed=42 --pods 8", Pods::Eight, 42),
    ("--pods 10 --seed 4294967295 gen", Pods::Ten, 4294967295),
];

#[test]
fn pods_and_seeds_are_read(rt: HostRuntime) -> Result<(), Fail> {
    for (line, pods, seed) in GENERATED {
        let job = Job::Gen(FatTree { pods, seed });
        row_holds(line, is_asked(rt.alloc(), line, Some(job)))?;
    }
    Ok(())
}

/// Words that ask for nothing.
const REFUSED: [&str; 45] = [
    "",
    "serial --pods 4",
    "serial serial",
    "--form xml serial",
    "--help",
    "--version",
    "-h",
    "help",
    "-",
    "status",
    "serial --form",
    "serial --form -",
    "serial --form=",
    "serial --for=text",
    "serial -f text",
    "serial --form text --form text",
    "serial -- --form=text",
    "serial -- --",
    "serial --form -- text",
    "check --form text",
    "gen --form text",
    "gen --pods 5",
    "gen --seed 4294967296",
    "gen --seed 007",
    "gen --seed -1",
    "demo --seed +1",
    "--",
    "--form text",
    "--form -- serial",
    "--pods 4 --form text gen",
    "-- --form=text serial",
    "roll",
    "revert",
    "roll 2",
    "roll --to",
    "roll --to=",
    "roll --to 4294967296",
    "revert --to 02",
    "revert --to -1",
    "roll --to 1 --to 1",
    "revert --to=1 --to 2",
    "roll --to 1 --form text",
    "revert --to 1 --pods 4",
    "roll --to 1 --seed 0",
    "roll revert --to 1",
];

#[test]
fn other_words_are_refused(rt: HostRuntime) -> Result<(), Fail> {
    for line in REFUSED {
        row_holds(line, is_asked(rt.alloc(), line, None))?;
    }
    Ok(())
}

/// Commands, and of each whether a form may stand, whether pods and a seed may, and whether a number to go to does.
const COMMANDS: [(&str, bool, bool, bool); 9] = [
    ("serial", true, false, false),
    ("run", true, false, false),
    ("replay", true, false, false),
    ("check", false, false, false),
    ("roll", false, false, true),
    ("revert", false, false, true),
    ("gen", false, true, false),
    ("demo", false, true, false),
    ("Serial", false, false, false),
];

/// Options, and of each whether it is a form, whether it is one of pods or a seed, and whether it is a number to go to.
const OPTIONS: [(&str, bool, bool, bool); 17] = [
    ("--form=text", true, false, false),
    ("--form=json", true, false, false),
    ("--form=replay", true, false, false),
    ("--pods=4", false, true, false),
    ("--seed=0", false, true, false),
    ("--seed=4294967295", false, true, false),
    ("--to=0", false, false, true),
    ("--to=4294967295", false, false, true),
    ("--form=xml", false, false, false),
    ("--pods=5", false, false, false),
    ("--pods=04", false, false, false),
    ("--seed=x", false, false, false),
    ("--seed=4294967296", false, false, false),
    ("--to=x", false, false, false),
    ("--to=4294967296", false, false, false),
    ("--help", false, false, false),
    ("check", false, false, false),
];

/// Whether these words ask for something just where they are to.
fn is_taken(alloc: Global, words: &[&str], fits: bool) -> Result<bool, AllocError> {
    Ok(asked(alloc, words)?.is_some() == fits)
}

#[test]
fn each_command_takes_its_own_options_alone(rt: HostRuntime) -> Result<(), Fail> {
    for (command, formed, sized, goes) in COMMANDS {
        for (option, is_form, is_size, is_to) in OPTIONS {
            let fits = formed && is_form || sized && is_size || goes && is_to;
            row_holds(option, is_taken(rt.alloc(), &[option, command], fits))?;
        }
    }
    Ok(())
}

#[test]
fn an_empty_word_is_a_word(rt: HostRuntime) -> Result<(), Fail> {
    holds(is_taken(rt.alloc(), &["serial", ""], false))?;
    holds(is_taken(rt.alloc(), &["gen", "--seed", ""], false))
}

#[test]
fn pods_are_counted(rt: HostRuntime) {
    assert_eq!(rt;
        [
            Pods::Four.count(),
            Pods::Six.count(),
            Pods::Eight.count(),
            Pods::Ten.count()
        ],
        [4, 6, 8, 10]
    );
}
