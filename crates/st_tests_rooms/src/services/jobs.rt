//! Jobs of applications on a service: each does its acts in order.

use super::stage::Stage;
use st_crew::{Gate, Job};
use st_event::Act;
use st_service::{Naming, Pass};
use std::sync::Wait;
use std::sync::ledger::Ledger;
use std::thread::Threads;

/// A pass, and the acts that it is to do on a stage.
#[derive(Drop)]
pub struct Script<'a, J: Naming, L: Ledger, H: Wait + Drop> {
    pub stage: &'a Stage<'a, J, L, H>,
    pub pass: Pass<J, L>,
    pub acts: &'a [Act],
}

/// What is left of a script: its pass, and whether each act was done.
#[derive(Drop)]
pub struct Played<J: Naming, L: Ledger> {
    pub pass: Pass<J, L>,
    pub is_done: bool,
}

impl<'a, J: Naming + Send + Sync, L: Ledger + Send + Sync, H: Wait + Drop + Send + Sync> Job
    for Script<'a, J, L, H> {
    ghost use Rattle.std.specs.Prelude.{⊤};

    type End = Played<J, L>;

    ghost promises = { λ job end. ⊤ };

    fn work<R: Threads + Wait + Sync, G: Gate>(self, rt: &R, gate: &G) -> Played<J, L> {
        let Script {
            stage,
            mut pass,
            acts,
        } = self;
        let is_done = stage.do_all(rt, &mut pass, acts, gate).is_ok();
        Played { pass, is_done }
    }
}
