//! The loss plan of a group: which messages arrive at which turn. A document states its lines, and a round asks it after each
//! message that it sends.

ghost use Rattle.std.specs.Prelude.{◌≡◌, [], IfOk, length};
ghost use Rattle.std.specs.List.{list_any};
ghost use Rattle.st_wire.specs.Deliveries.{deliveries as deliveries_lem, own_delivery as own_delivery_lem, keeps_back as keeps_back_lem, brought_at as brought_at_lem};

use crate::line::{WireKind, WireLine};
use std::alloc::{AllocError, Global};
use std::marker::Model;

/// The wire lines of a group, in the order of the document. Contracts see the list.
#[derive(Drop)]
pub struct LossPlan {
    alloc: Global,
    lines: Vec<WireLine>,
}

impl Model for LossPlan {
    ghost use Rattle.std.specs.Prelude.{List};
    ghost use Rattle.st_wire.specs.declared.line.WireLine.{WireLine};

    ghost Value = { List WireLine };

    ghost view = { λ p. p.lines.items };
}

/// Whether a line keeps message `m` of a kind from its own turn.
fn keeps_back(line: WireLine, kind: WireKind, m: u32) -> bool
    ensures { result ≡ keeps_back_lem kind m line }
{
    match line {
        WireLine::Drop { kind: of, n } | WireLine::Hold { kind: of, n, .. } => of == kind && n == m,
        WireLine::Repeat { .. } => false,
    }
}

/// The message of a kind that a line delivers at turn `m`.
fn brought_at(line: WireLine, kind: WireKind, m: u32) -> Option<u32>
    ensures { result ≡ brought_at_lem kind m line }
{
    match line {
        WireLine::Repeat { kind: of, n, m: at } | WireLine::Hold { kind: of, n, m: at }
            if of == kind && at == m => Some(n),
        _ => None,
    }
}

impl LossPlan {
    /// The plan of these lines.
    pub fn from_lines(alloc: Global, lines: Vec<WireLine>) -> LossPlan
        ensures { result ≡ lines.items }
    {
        LossPlan { alloc, lines }
    }

    /// The plan of no lines: each message arrives at its own turn.
    pub fn none(alloc: Global) -> LossPlan
        ensures { result ≡ [] }
    {
        LossPlan::from_lines(alloc, Vec::new(alloc))
    }

    /// How many lines the plan has. At a turn at most one message more arrives.
    pub fn len(&self) -> usize
        ensures { result ≡ length self.now }
    {
        self.lines.len()
    }

    /// Whether a line keeps message `m` of a kind from its own turn.
    fn is_kept_back(&self, kind: WireKind, m: u32) -> bool
        ensures { result ≡ list_any (keeps_back_lem kind m) self.now }
    {
        self.lines.iter().any(|line| keeps_back(*line, kind, m))
    }

    /// The number of message `m` of a kind, if it arrives at its own turn.
    fn own_delivery(&self, kind: WireKind, m: u32) -> Result<Vec<u32>, AllocError>
        ensures { IfOk result (λ numbers. numbers.items ≡ own_delivery_lem self.now kind m) }
    {
        let mut numbers = Vec::new(self.alloc);
        if !self.is_kept_back(kind, m) {
            numbers.push(m)?;
        }
        Ok(numbers)
    }

    /// The numbers of the messages of a kind that arrive at turn `m`, the moment at which message `m` of the kind was sent: first `m`,
    /// unless a line drops or holds it, and then those that lines repeat or hold to this turn, in the order of the lines. The time
    /// grows with the lines.
    pub fn deliveries(&self, kind: WireKind, m: u32) -> Result<Vec<u32>, AllocError>
        ensures { IfOk result (λ numbers. numbers.items ≡ deliveries_lem self.now kind m) }
    {
        let mut numbers = self.own_delivery(kind, m)?;
        for line in &self.lines {
            if let Some(n) = brought_at(*line, kind, m) {
                numbers.push(n)?;
            }
        }
        Ok(numbers)
    }
}
