//! Names: those of a fat tree are spelled from steps, in one place.

ghost use Rattle.std.specs.Prelude.{◌≡◌, ◌≤◌, true, length, IfOk};
ghost use Rattle.std.specs.List.{AllByRecursion};
ghost use Rattle.st_net.specs.Names.{is_name};
ghost use Rattle.st_gen.specs.TreeNames.{name_at as name_at_lem, IsSmall};

use crate::step::Step;
use st_net::Name;
use st_text::Text;
use std::alloc::{AllocError, Global};

/// The name of these bytes, which are spelled as one.
pub fn name_of(alloc: Global, bytes: &[u8]) -> Result<Name, AllocError>
    requires { is_name bytes.now ≡ true }
    ensures { IfOk result (λ name. name ≡ bytes.now) }
{
    match Name::read(alloc, bytes)? {
        Some(name) => Ok(name),
        None => unreachable!(),
    }
}

/// The name of what stands at the end of these steps: one to three, with numbers below 100.
pub fn name_at(alloc: Global, steps: &[Step]) -> Result<Name, AllocError>
    requires some { 1 ≤ length steps.now }
    requires few { length steps.now ≤ 3 }
    requires small { AllByRecursion IsSmall steps.now }
    ensures { IfOk result (λ name. name ≡ name_at_lem steps.now) }
{
    let mut text = Text::new(alloc);
    for step in steps {
        step.print(&mut text)?;
    }
    name_of(alloc, text.bytes())
}
