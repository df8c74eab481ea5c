//! Tokens over a group that is built, worked by hand.

use st_net::{Entity, GroupTopo, Var};
use st_samples::group;
use st_text::tokens;
use st_token::{FaultKind, LineError, NamedEntities, rows_in, value_in, values_in, variable_in};
use std::alloc::Global;
use std::test::Fail;

/// A group with one device, `a1`.
const SMALL: &str = "\
statesman 1
group dc1
device a1 switch
";

/// Why the assignments of this line are not read.
fn fault_of(alloc: Global, topo: &GroupTopo, line: &[u8]) -> Result<Option<FaultKind>, Fail> {
    let words = tokens(alloc, line)?;
    match rows_in(alloc, topo, line, words.as_slice()) {
        Ok(_) => Ok(None),
        Err(LineError::Bad(kind)) => Ok(Some(kind)),
        Err(LineError::Memory) => Err("memory".into()),
    }
}

/// Assignments, and the first kind of fault that applies to each.
const ROWS: [(&[u8], Option<FaultKind>); 11] = [
    (b"a1.power=0 a1.firmware=4294967295", None),
    (b"a1=3", Some(FaultKind::Name)),
    (b"a2", Some(FaultKind::Unknown)),
    (b"a1", Some(FaultKind::Value)),
    (b"a2.speed=x", Some(FaultKind::Unknown)),
    (b"a1.iface=1", Some(FaultKind::Value)),
    (b"a1.power", Some(FaultKind::Value)),
    (b"a1.config=1=2", Some(FaultKind::Number)),
    (b"a1.firmware=4294967296", Some(FaultKind::Number)),
    (b"a1.routing=2", Some(FaultKind::Value)),
    (b"a1.power=1 a1.power=0", Some(FaultKind::Twice)),
];

/// Why the assignments of this line are not read over the small group.
fn small_fault(alloc: Global, line: &[u8]) -> Result<Option<FaultKind>, Fail> {
    let topo = group(alloc, SMALL)?;
    let fault = fault_of(alloc, &topo, line);
    drop(topo);
    fault
}

#[test]
fn assignments_have_the_first_kind_that_applies(rt: HostRuntime) -> Result<(), Fail> {
    for (line, want) in ROWS {
        assert_eq!(rt; small_fault(rt.alloc(), line)?, want);
    }
    Ok(())
}

/// How many rows a line has, the entity of a name, and the variable of a token.
fn read_over(alloc: Global, topo: &GroupTopo) -> Result<(usize, Entity, (Entity, Var)), LineError> {
    let line = b"a1.power=0 a1.firmware=2".as_slice();
    let words = tokens(alloc, line)?;
    let rows = rows_in(alloc, topo, line, words.as_slice())?.len();
    let entity = topo.entity_in(alloc, b"a1")?;
    let variable = variable_in(alloc, topo, b"a1.routing")?;
    Ok((rows, entity, variable))
}

#[test]
fn tokens_are_read_over_a_built_group(rt: HostRuntime) -> Result<(), Fail> {
    let topo = group(rt.alloc(), SMALL)?;
    let read = read_over(rt.alloc(), &topo);
    drop(topo);
    let a1 = Entity::Device(0);
    assert_eq!(rt; read, Ok((2, a1, (a1, Var::Routing))));
    Ok(())
}

/// How many values a line gives a device.
fn value_count(alloc: Global, line: &[u8]) -> Result<usize, LineError> {
    let words = tokens(alloc, line)?;
    Ok(values_in(alloc, Entity::Device(0), line, words.as_slice())?.len())
}

#[test]
fn values_are_read_of_a_device(rt: HostRuntime) {
    let at = Entity::Device(0);
    let power = value_in(at, Var::Power, b"power=x");
    let config = value_in(at, Var::Power, b"config=x");
    assert_eq!(rt;
        (value_count(rt.alloc(), b"config=7 power=1"), power, config),
        (
            Ok(2),
            Err(LineError::Bad(FaultKind::Number)),
            Err(LineError::Bad(FaultKind::Value))
        )
    );
}
