//! The wire lines of groups.

ghost use Rattle.std.specs.Prelude.{◌≡◌, ◌++◌, ◌∷◌, [], OnOk, map};
ghost use Rattle.st_text.specs.Words.{text_of};
ghost use Rattle.st_doc.specs.Printed.{wire_words, wires_lines};

use crate::printing::words::{kind_word, print_line};
use st_net::{Items, Parts};
use st_text::{Text, Word};
use st_wire::WireLine;
use std::alloc::AllocError;

/// Adds a wire line of the group of a name.
fn print_wire(group: &[u8], line: WireLine, out: &mut Text) -> Result<(), AllocError>
    ensures { OnOk result (out.new ≡ out.old ++ text_of (wire_words group.now line ∷ [])) }
{
    let group = Word::Plain(group);
    match line {
        WireLine::Drop { kind, n } => print_line(
            b"drop",
            &[
                group,
                Word::Plain(kind_word(kind)),
                Word::Number(u64::from(n)),
            ],
            out,
        ),
        WireLine::Repeat { kind, n, m } => print_line(
            b"repeat",
            &[
                group,
                Word::Plain(kind_word(kind)),
                Word::Number(u64::from(n)),
                Word::Number(u64::from(m)),
            ],
            out,
        ),
        WireLine::Hold { kind, n, m } => print_line(
            b"hold",
            &[
                group,
                Word::Plain(kind_word(kind)),
                Word::Number(u64::from(n)),
                Word::Number(u64::from(m)),
            ],
            out,
        ),
    }
}

/// Adds the wire lines of the group of a name.
fn print_group_wires(group: &[u8], lines: &[WireLine], out: &mut Text) -> Result<(), AllocError>
    ensures { OnOk result (out.new ≡ out.old ++ text_of (map (wire_words group.now) lines.now)) }
{
    for line in lines {
        print_wire(group, *line, out)?;
    }
    Ok(())
}

/// Adds the wire lines of groups, each group with its own.
pub fn print_wires(
    groups: &[Parts],
    wires: &[Items<WireLine>],
    out: &mut Text,
) -> Result<(), AllocError>
    ensures { OnOk result (out.new ≡ out.old ++ text_of (wires_lines groups.now wires.now)) }
{
    for (group, lines) in groups.iter().zip(wires) {
        print_group_wires(group.name.bytes(), lines.as_slice(), out)?;
    }
    Ok(())
}
