//! The words for variables and locks, in documents, journals and reports.

ghost use Rattle.std.specs.Prelude.{◌≡◌};
ghost use Rattle.st_token.specs.Words.{var_word as var_word_lem, prio_word as prio_word_lem};

use st_net::{Prio, Var};

/// The word for a variable.
pub fn var_word(var: Var) -> &'static [u8]
    ensures { result.now ≡ var_word_lem var }
{
    match var {
        Var::Power | Var::LinkPower => b"power",
        Var::Firmware => b"firmware",
        Var::Config => b"config",
        Var::Routing => b"routing",
        Var::Iface => b"iface",
    }
}

/// The word for a lock.
pub fn prio_word(prio: Prio) -> &'static [u8]
    ensures { result.now ≡ prio_word_lem prio }
{
    match prio {
        Prio::Low => b"low",
        Prio::High => b"high",
    }
}
