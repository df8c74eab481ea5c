//! Names, and sets of entities of a group of two devices that are joined by a link, worked by hand.

ghost use Rattle.st_net.specs.Sets.{MarksOf};

use st_net::{Entity, EntitySet, GroupTopo, Name};
use st_samples::group;
use std::alloc::{AllocError, Global};
use std::test::Fail;

/// Two devices that are joined by a link: the second and the link have the value 7.
const JOINED: &str = "statesman 1
group dc1
device d1 switch
device d2 switch
link l d1 d2 10
open d1.firmware=6
open d2.firmware=7
open l.iface=7
";

/// Texts, and whether each is a name.
const NAMES: [(&str, bool); 8] = [
    ("a", true),
    ("Z-_9", true),
    ("abcdefghijklmnopqrstuvwxyzabcdef", true),
    ("abcdefghijklmnopqrstuvwxyzabcdefg", false),
    ("", false),
    ("9a", false),
    ("_a", false),
    ("a/b", false),
];

/// Whether this is read as a name.
fn is_name(alloc: Global, text: &str) -> Result<bool, AllocError> {
    Ok(Name::read(alloc, text.as_bytes())?.is_some())
}

#[test]
fn names_of_1_to_32_bytes(rt: HostRuntime) -> Result<(), Fail> {
    for (text, is_right) in NAMES {
        assert_eq!(rt; is_name(rt.alloc(), text)?, is_right, "{text}");
    }
    Ok(())
}

/// Whether a set has these entities of the group, in order, and no other.
fn has_just(
    alloc: Global,
    topo: &GroupTopo,
    set: &EntitySet,
    expected: &[Entity],
) -> Result<bool, Fail>
    requires { MarksOf topo.now set.now }
{
    let mut members = Vec::new(alloc);
    for place in 0..topo.entity_count() {
        let entity = topo.entity_at(place);
        if set.has(entity) {
            members.push(entity)?;
        }
    }
    Ok(members.as_slice() == expected)
}

/// Whether a set has just the second device and the link, just the device once the link is taken out, and the same once it is taken out again.
fn taken_out(
    alloc: Global,
    topo: &GroupTopo,
    set: &mut EntitySet,
    links: &EntitySet,
) -> Result<[bool; 3], Fail>
    requires set { MarksOf topo.now set.old }
    requires links { MarksOf topo.now links.now }
{
    let (second, link) = (Entity::Device(1), Entity::Link(0));
    let first = has_just(alloc, topo, &*set, &[second, link])?;
    set.remove_all(links);
    let then = has_just(alloc, topo, &*set, &[second])?;
    set.remove_all(links);
    let again = has_just(alloc, topo, &*set, &[second])?;
    Ok([first, then, again])
}

/// The same of the entities of a group that have the value 7, and of its link.
fn passing_taken_out(alloc: Global, topo: &GroupTopo) -> Result<[bool; 3], Fail> {
    let links = EntitySet::passing(alloc, topo, |entity| entity.is_same(Entity::Link(0)))?;
    let mut set = EntitySet::passing(alloc, topo, |entity| topo.opening(entity).v1 == 7)?;
    let taken = taken_out(alloc, topo, &mut set, &links);
    drop(set);
    drop(links);
    taken
}

#[test]
fn entities_that_pass_a_test_are_taken_out_again(rt: HostRuntime) -> Result<(), Fail> {
    let topo = group(rt.alloc(), JOINED)?;
    let taken = passing_taken_out(rt.alloc(), &topo);
    drop(topo);
    assert_eq!(rt; taken?, [true, true, true]);
    Ok(())
}

#[test]
fn devices_stand_before_links(rt: HostRuntime) -> Result<(), Fail> {
    let places = [
        Entity::Device(0),
        Entity::Device(1),
        Entity::Link(0),
        Entity::Link(1),
    ];
    for (place, entity) in (0u32..).zip(places) {
        assert!(rt; Entity::at_place(place, 2).is_same(entity), "{place}");
    }
    Ok(())
}
