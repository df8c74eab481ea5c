//! Numbers that look random, and documents of small groups that are drawn by them.

use std::alloc::{AllocError, Global};

const TORS: u32 = 3;

const DEVICES: u32 = 10;

/// Numbers that look random, and are the same in each run.
#[derive(Clone, Copy)]
pub(crate) struct Dice {
    pub(crate) state: u64,
}

impl Dice {
    /// The next number below 256.
    pub(crate) fn roll(&mut self) -> u32 {
        self.state = self
            .state
            .wrapping_mul(6_364_136_223_846_793_005)
            .wrapping_add(1_442_695_040_888_963_407);
        ((self.state >> 40) % 256) as u32
    }

    /// True once in so many rolls.
    pub(crate) fn is_one_in(&mut self, many: u32) -> bool {
        many > 0 && self.roll() % many == 0
    }
}

/// Three ToRs and seven switches.
fn add_devices(alloc: Global, text: &mut String) -> Result<(), AllocError> {
    for device in 0..DEVICES {
        let kind = if device < TORS { "tor" } else { "switch" };
        text.push_str(format!(in alloc; "device d{device} {kind}\n")?.as_str())?;
    }
    Ok(())
}

/// Links of capacities from 1 to 4, which join each ToR to most of the switches.
fn add_links(alloc: Global, dice: &mut Dice, text: &mut String) -> Result<(), AllocError> {
    for tor in 0..TORS {
        for switch in TORS..DEVICES {
            if !dice.is_one_in(4) {
                let capacity = 1 + dice.roll() % 4;
                let line = format!(in alloc; "link l{tor}x{switch} d{tor} d{switch} {capacity}\n")?;
                text.push_str(line.as_str())?;
            }
        }
    }
    Ok(())
}

/// A promise of 50, 90 or 100 percent between each two of the ToRs.
fn add_promises(alloc: Global, dice: &mut Dice, text: &mut String) -> Result<(), AllocError> {
    for (a, b) in [(0, 1), (0, 2), (1, 2)] {
        let percent = match dice.roll() % 3 {
            0 => 50,
            1 => 90,
            _ => 100,
        };
        text.push_str(format!(in alloc; "promise d{a} d{b} {percent}\n")?.as_str())?;
    }
    Ok(())
}

/// Some devices open with the new firmware, or without power.
fn add_openings(alloc: Global, dice: &mut Dice, text: &mut String) -> Result<(), AllocError> {
    for device in 0..DEVICES {
        if dice.is_one_in(8) {
            text.push_str(format!(in alloc; "open d{device}.firmware=2\n")?.as_str())?;
        }
        if dice.is_one_in(16) {
            text.push_str(format!(in alloc; "open d{device}.power=0\n")?.as_str())?;
        }
    }
    Ok(())
}

/// Some work less than well.
fn add_healths(alloc: Global, dice: &mut Dice, text: &mut String) -> Result<(), AllocError> {
    for device in 0..DEVICES {
        if dice.is_one_in(12) {
            let health = dice.roll() % 5;
            text.push_str(format!(in alloc; "health d{device} {health}\n")?.as_str())?;
        }
    }
    Ok(())
}

/// A document of a group that is drawn.
pub(crate) fn drawn_document(alloc: Global, dice: &mut Dice) -> Result<String, AllocError> {
    let mut text = String::from_str(alloc, "statesman 1\ngroup g\n")?;
    add_devices(alloc, &mut text)?;
    add_links(alloc, dice, &mut text)?;
    add_promises(alloc, dice, &mut text)?;
    add_openings(alloc, dice, &mut text)?;
    add_healths(alloc, dice, &mut text)?;
    Ok(text)
}
