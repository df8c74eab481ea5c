//! Which calls of a source or a sink in memory are to fail, so that a test can place each fault.
ghost use Rattle.std.specs.Prelude.{◌≡◌, ◌↔◌, ◌+◌, IsTrue, if◌then◌else◌};
ghost use Rattle.st_io.specs.Memory.{CountsCall, FailsNext, faults_of};

use std::marker::Model;

/// The numbers, from 1, of the calls that fail, in any order, and how many calls were made. The number of calls
/// stands still at `u32::MAX`: the list can name no later call, so none fails.
#[derive(Drop)]
pub struct FaultPlan {
    fails: Vec<u32>,
    calls: u32,
}

impl Model for FaultPlan {
    ghost use Rattle.st_io.specs.Memory.{Plan};

    ghost Value = { Plan };

    ghost view = { λ s. record { fails = s.fails.items; calls = s.calls } };
}

impl FaultPlan {
    /// The plan by which the calls of these numbers, from 1, fail. No call was made yet.
    pub fn new(fails: Vec<u32>) -> FaultPlan
        ensures fails { result.fails ≡ fails.items }
        ensures calls { result.calls ≡ 0 }
        ensures faults { faults_of result ≡ 0 }
    {
        FaultPlan { fails, calls: 0 }
    }

    /// Counts a call, and says whether it fails.
    pub fn begin(&mut self) -> bool
        ensures fails { IsTrue result ↔ FailsNext self.old }
        ensures counted { CountsCall self.old self.new }
        ensures faults { faults_of self.new ≡
            (if result then faults_of self.old + 1 else faults_of self.old) }
    {
        let Some(number) = self.calls.checked_add(1) else {
            return false;
        };
        self.calls = number;
        self.fails.contains(&number)
    }
}
