//! Three groups at their openings: the two-path group, and two of one switch, b1.

use st_net::{GroupTopo, Name};
use st_samples::{TWO_PATH, groups};
use std::alloc::Global;
use std::test::Fail;

/// Three groups, and the names of two applications.
#[derive(Drop)]
pub struct Setting {
    pub alloc: Global,
    pub topos: Vec<GroupTopo>,
    pub apps: Vec<Name>,
}

/// A name.
fn name(alloc: Global, text: &str) -> Result<Name, Fail> {
    Ok(Name::read(alloc, text.as_bytes())?.ok_or("no name")?)
}

pub fn three_groups(alloc: Global) -> Result<Setting, Fail> {
    let text = format!(in alloc;
        "{TWO_PATH}group dc2\ndevice b1 switch\ngroup dc3\ndevice b1 switch\n"
    )?;
    let topos = groups(alloc, text.as_str())?;
    let mut apps = Vec::new(alloc);
    apps.push(name(alloc, "te")?)?;
    apps.push(name(alloc, "up")?)?;
    Ok(Setting { alloc, topos, apps })
}
