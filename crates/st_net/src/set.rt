//! Sets of entities of one group.

ghost use Rattle.std.specs.Prelude.{◌≡◌, ◌&&◌, ℕ, ◌<◌, Bool, not, length, slice_index_or, IfOk, false, true};
ghost use Rattle.st_net.specs.declared.entity.Entity.{Entity};
ghost use Rattle.st_net.specs.Groups.{Group, IsEntityOf};
ghost use Rattle.st_net.specs.Sets.{Marks, is_in, is_of, IsMarkIn, MarksOf, HasSameMarks, set_with, set_without};

use crate::entity::Entity;
use crate::topo::GroupTopo;
use std::alloc::{AllocError, Global};
use std::marker::Model;

/// A set of entities of a group. Contracts see a mark for each entity.
#[derive(Drop)]
pub struct EntitySet {
    devices: Vec<bool>,
    links: Vec<bool>,
}

impl Model for EntitySet {
    ghost use Rattle.st_net.specs.Sets.{Marks};

    ghost Value = { Marks };

    ghost view = { λ s. record { devices = s.devices.items; links = s.links.items } };
}

impl EntitySet {
    /// The empty set of entities of a group.
    pub fn none(alloc: Global, topo: &GroupTopo) -> Result<EntitySet, AllocError>
        ensures of { IfOk result (MarksOf topo.now) }
        ensures none { IfOk result (λ set. is_in set ≡ (λ e. false)) }
    {
        let devices = vec![in alloc; false; topo.device_count() as usize]?;
        let links = vec![in alloc; false; topo.link_count() as usize]?;
        Ok(EntitySet { devices, links })
    }

    /// The entities of a group that pass a test.
    pub fn passing<F: Fn(Entity) -> bool>(
        alloc: Global,
        topo: &GroupTopo,
        test: F,
    ) -> Result<EntitySet, AllocError>
        requires { (e : Entity) → IsEntityOf topo.now e → F.pre test e }
        ensures of { IfOk result (MarksOf topo.now) }
        ensures passing { (p : Entity → Bool) → ((e : Entity) (b : Bool) → IsEntityOf topo.now e → F.post test e b → b ≡ p e) → IfOk result (λ set. is_in set ≡ (λ e. is_of topo.now e && p e)) }
    {
        let mut set = EntitySet::none(alloc, topo)?;
        for place in 0..topo.entity_count() {
            let entity = topo.entity_at(place);
            if test(entity) {
                set.put(entity);
            }
        }
        Ok(set)
    }

    /// An equal set.
    pub fn copy(&self, alloc: Global) -> Result<EntitySet, AllocError>
        ensures { IfOk result (λ copy. copy ≡ self.now) }
    {
        Ok(EntitySet {
            devices: self.devices.as_slice().to_vec(alloc)?,
            links: self.links.as_slice().to_vec(alloc)?,
        })
    }

    /// Whether an entity is in the set.
    pub fn has(&self, e: Entity) -> bool
        requires { IsMarkIn self.now e }
        ensures { result ≡ is_in self.now e }
    {
        match e {
            Entity::Device(i) => self.devices[i as usize],
            Entity::Link(i) => self.links[i as usize],
        }
    }

    /// Adds an entity, and leaves all else.
    pub fn put(&mut self, e: Entity)
        requires { IsMarkIn self.old e }
        ensures members { is_in self.new ≡ set_with (is_in self.old) e }
        ensures same { HasSameMarks self.old self.new }
    {
        match e {
            Entity::Device(i) => self.devices[i as usize] = true,
            Entity::Link(i) => self.links[i as usize] = true,
        }
    }

    /// Takes an entity out, and leaves all else.
    pub fn remove(&mut self, e: Entity)
        requires { IsMarkIn self.old e }
        ensures members { is_in self.new ≡ set_without (is_in self.old) e }
        ensures same { HasSameMarks self.old self.new }
    {
        match e {
            Entity::Device(i) => self.devices[i as usize] = false,
            Entity::Link(i) => self.links[i as usize] = false,
        }
    }

    /// Takes all entities of another set of the group out, and leaves all else.
    pub fn remove_all(&mut self, other: &EntitySet)
        requires { HasSameMarks self.old other.now }
        ensures members { is_in self.new ≡ (λ e. is_in self.old e && not (is_in other.now e)) }
        ensures same { HasSameMarks self.old self.new }
    {
        unmark(self.devices.as_mut_slice(), other.devices.as_slice());
        unmark(self.links.as_mut_slice(), other.links.as_slice());
    }
}

/// Takes away the marks that another list has, which is as long.
fn unmark(marks: &mut [bool], others: &[bool])
    requires { length others.now ≡ length marks.old }
    ensures count { length marks.new ≡ length marks.old }
    ensures left { (k : ℕ) → slice_index_or marks.new k false ≡ (slice_index_or marks.old k false && not (slice_index_or others.now k false)) }
{
    for (i, other) in others.iter().enumerate() {
        if *other {
            marks[i] = false;
        }
    }
}
