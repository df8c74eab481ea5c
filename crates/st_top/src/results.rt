//! The journals and the logs that a run hands back.

ghost use Rattle.std.specs.Prelude.{◌≡◌, ◌<◌, ◌^◌, length, IfOk};
ghost use Rattle.st_serial.specs.Serial.{states_of, journals_from, logs_from};
ghost use Rattle.st_replay.specs.Again.{AreKeptStates};

use st_event::{Journal, Log, LogEntry};
use st_net::{AppId, Items};
use st_world::World;
use std::alloc::{AllocError, Global};

/// The journals of groups, in order.
pub fn journals_of(alloc: Global, worlds: Vec<World>) -> Result<Items<Journal>, AllocError>
    requires { length worlds.items < 2 ^ 32 }
    ensures journals { IfOk result (λ journals. journals ≡ journals_from 0 (states_of worlds.items)) }
    ensures kept { IfOk result (λ journals. AreKeptStates (states_of worlds.items)) }
{
    let mut journals = Vec::new(alloc);
    for world in worlds {
        world.is_legal();
        world.keeps_promises();
        let group = journals.len() as u32;
        journals.push(world.into_journal(group))?;
    }
    Ok(Items::new(journals))
}

/// The logs of applications, in order.
pub fn logs_of(alloc: Global, logs: Vec<Items<LogEntry>>) -> Result<Items<Log>, AllocError>
    requires { length logs.items < 2 ^ 32 }
    ensures { IfOk result (λ all. all ≡ logs_from 0 logs.items) }
{
    let mut all = Vec::new(alloc);
    for entries in logs {
        let app = AppId(all.len() as u32);
        all.push(Log { app, entries })?;
    }
    Ok(Items::new(all))
}
