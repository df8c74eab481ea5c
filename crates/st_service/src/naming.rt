//! The group, the lines and the loss plan of each room of a service, by the room's number. All this stands in proofs alone: under a lock
//! only the type is known.

use std::marker::Brand;

/// The line of each room's journal, the line of its board, its group, and the lines of its loss plan. Each run of a program picks them.
pub trait Naming {
    ghost use Rattle.std.specs.Prelude.{ℕ, List};
    ghost use Rattle.st_line.specs.Lines.{LineName};
    ghost use Rattle.st_net.specs.Groups.{Group};
    ghost use Rattle.st_wire.specs.declared.line.WireLine.{WireLine};

    ghost book: { ℕ → LineName };

    ghost board: { ℕ → LineName };

    ghost group: { ℕ → Group };

    ghost lines: { ℕ → List WireLine };
}

impl Naming for Brand {
    ghost use Rattle.std.specs.Prelude.{[]};
    ghost use Rattle.st_line.specs.Lines.{no_line};
    ghost use Rattle.st_net.specs.Groups.{no_group};

    ghost book = { λ n. no_line };

    ghost board = { λ n. no_line };

    ghost group = { λ n. no_group };

    ghost lines = { λ n. [] };
}
