//! The links of each device, in chains from the last to the first: a search goes over those of one device alone.

ghost use Rattle.std.specs.Prelude.{◌≡◌, ◌<◌, true, length, slice_index_or, IfOk};
ghost use Rattle.st_net.specs.Groups.{no_link};
ghost use Rattle.st_promise.specs.Incidence.{Chains, has_end, last_at, IsIncidence};

use st_net::GroupTopo;
use std::alloc::{AllocError, Global};
use std::marker::Model;

/// The links before one, at its first end and at its second.
#[derive(Clone, Copy, Debug, PartialEq, Eq)]
pub struct Earlier {
    pub a: Option<u32>,
    pub b: Option<u32>,
}

/// The last link of each device, and for each link those before it at its two ends.
#[derive(Drop)]
pub struct Incidence {
    last: Vec<Option<u32>>,
    earlier: Vec<Earlier>,
}

impl Model for Incidence {
    ghost use Rattle.st_promise.specs.Incidence.{Chains};

    ghost Value = { Chains };

    ghost view = { λ i. record { last = i.last.items; earlier = i.earlier.items } };
}

impl Incidence {
    /// The chains of a group's links. Linear in devices and links.
    pub fn of(alloc: Global, topo: &GroupTopo) -> Result<Incidence, AllocError>
        ensures { IfOk result (IsIncidence (length topo.now.devices) topo.now.links) }
    {
        topo.is_sound();
        let mut last = vec![in alloc; None; topo.device_count() as usize]?;
        let mut earlier = Vec::with_capacity(alloc, topo.link_count() as usize)?;
        for link in 0..topo.link_count() {
            let (a, b) = topo.ends(link);
            earlier.push(Earlier {
                a: last[a as usize],
                b: last[b as usize],
            })?;
            last[a as usize] = Some(link);
            last[b as usize] = Some(link);
        }
        Ok(Incidence { last, earlier })
    }

    /// The last link of a device.
    pub fn last(&self, topo: &GroupTopo, device: u32) -> Option<u32>
        requires incidence { IsIncidence (length topo.now.devices) topo.now.links self.now }
        requires device { device < length topo.now.devices }
        ensures { result ≡ last_at topo.now.links (length topo.now.links) device }
    {
        // Only looked at, for the proof: these are the links whose last is asked for.
        let _links = topo.link_count();
        self.last[device as usize]
    }

    /// The link of a device before one of its links.
    pub fn before(&self, topo: &GroupTopo, link: u32, device: u32) -> Option<u32>
        requires incidence { IsIncidence (length topo.now.devices) topo.now.links self.now }
        requires link { link < length topo.now.links }
        requires end { has_end device (slice_index_or topo.now.links link no_link) ≡ true }
        ensures { result ≡ last_at topo.now.links link device }
    {
        let earlier = self.earlier[link as usize];
        let (a, _) = topo.ends(link);
        if a == device { earlier.a } else { earlier.b }
    }
}
