//! The search from one device over the links of the up graph. It finds each device that a walk from there reaches, and keeps
//! how it came to each: walks and cuts are read off what it found.

ghost use Rattle.std.specs.Prelude.{◌≡◌, ◌<◌, ◌^◌, Bool, length, slice_index_or, IfOk, OnOk, OnErr, IfSome, IfNone, is_some, Some, None};
ghost use Rattle.st_net.specs.Groups.{Group, no_link};
ghost use Rattle.st_net.specs.Sets.{Marks, is_in, MarksOf};
ghost use Rattle.st_net.specs.UpGraph.{is_up_link};
ghost use Rattle.st_net.specs.Cuts.{numbers_in};
ghost use Rattle.st_promise.specs.Search.{Visits, step_at, is_found, IsSearchOfSome, LeadsTo, entered, IsSearch, IsNext, IsOver, IsJoined, IsVisited, IsSettled, Extends};
ghost use Rattle.st_promise.specs.Incidence.{IsIncidence};

use crate::incidence::Incidence;
use crate::up::is_up;
use st_net::{Entity, EntitySet, GroupTopo, Items, Side};
use std::alloc::{AllocError, Global};
use std::marker::Model;

/// The link over which a device was found, and the place of the step that it leads from.
#[derive(Clone, Copy, Debug, PartialEq, Eq)]
pub struct Came {
    pub link: u32,
    pub from: u32,
}

/// A device that was found, and how: the search's start came over no link.
#[derive(Clone, Copy, Debug, PartialEq, Eq)]
pub struct Step {
    pub device: u32,
    pub came: Option<Came>,
}

/// What a search has found: its steps in order, and for each device the place of its step.
#[derive(Drop)]
pub struct Search {
    root: u32,
    places: Vec<Option<u32>>,
    steps: Vec<Step>,
}

impl Model for Search {
    ghost use Rattle.st_promise.specs.Search.{Visits};

    ghost Value = { Visits };

    ghost view = { λ s. record { root = s.root; places = s.places.items; steps = s.steps.items } };
}

impl Search {
    /// A search that has found its start alone.
    fn start(alloc: Global, topo: &GroupTopo, root: u32) -> Result<Search, AllocError>
        requires { root < length topo.now.devices }
        ensures search { (up : Entity → Bool) → IfOk result (IsSearch (length topo.now.devices) topo.now.links up) }
        ensures root { IfOk result (λ s. s.root ≡ root) }
    {
        let mut places = vec![in alloc; None; topo.device_count() as usize]?;
        places[root as usize] = Some(0);
        let first = Step {
            device: root,
            came: None,
        };
        let steps = vec![in alloc; first]?;
        Ok(Search {
            root,
            places,
            steps,
        })
    }

    /// Whether a device was found.
    pub fn has(&self, device: u32) -> bool
        requires { device < length self.now.places }
        ensures { result ≡ is_found self.now device }
    {
        self.places[device as usize].is_some()
    }

    /// The devices that were found.
    pub fn side(&self, alloc: Global) -> Result<Side, AllocError>
        requires { length self.now.places < 2 ^ 32 }
        ensures { IfOk result (λ side. side ≡ numbers_in (length self.now.places) (is_found self.now)) }
    {
        let mut devices = Vec::new(alloc);
        for device in 0..self.places.len() {
            if self.places[device].is_some() {
                devices.push(device as u32)?;
            }
        }
        Side::from_slice(alloc, devices.as_slice())
    }

    /// The links over which a step was come to, from the search's start on.
    fn walk_back(&self, alloc: Global, step: u32) -> Result<Items<u32>, AllocError>
        requires search { IsSearchOfSome self.now }
        requires step { step < length self.now.steps }
        ensures { IfOk result (LeadsTo self.now (step_at self.now step).device) }
    {
        let mut links = Vec::new(alloc);
        let mut at = step;
        while let Some(came) = self.steps[at as usize].came {
            links.push(came.link)?;
            at = came.from;
        }
        links.reverse();
        Ok(Items::new(links))
    }

    /// A walk from the start to a device; None where it was not found.
    pub fn walk_to(&self, alloc: Global, device: u32) -> Result<Option<Items<u32>>, AllocError>
        requires search { IsSearchOfSome self.now }
        requires device { device < length self.now.places }
        ensures none { IfOk result (λ walk. is_some walk ≡ is_found self.now device) }
        ensures walk { IfOk result (λ walk. IfSome walk (LeadsTo self.now device)) }
    {
        match self.places[device as usize] {
            Some(step) => Ok(Some(self.walk_back(alloc, step)?)),
            None => Ok(None),
        }
    }

    /// The step over a link from a device that was found to one that was not; None where the link is down or leads to none.
    fn step_over(&self, topo: &GroupTopo, up: &EntitySet, link: u32) -> Option<Step>
        requires link { link < length topo.now.links }
        requires marks { MarksOf topo.now up.now }
        requires search { IsSearch (length topo.now.devices) topo.now.links (is_in up.now) self.now }
        ensures next { IfSome result (IsNext (length topo.now.devices) topo.now.links (is_in up.now) self.now) }
        ensures over { IfSome result (IsOver topo.now.links self.now link) }
        ensures none { IfNone result (IsJoined topo.now.links (is_in up.now) self.now link) }
    {
        topo.is_sound();
        if !is_up(topo, up, link) {
            return None;
        }
        let (a, b) = topo.ends(link);
        match (self.places[a as usize], self.places[b as usize]) {
            (Some(from), None) => Some(Step {
                device: b,
                came: Some(Came { link, from }),
            }),
            (None, Some(from)) => Some(Step {
                device: a,
                came: Some(Came { link, from }),
            }),
            (Some(_), Some(_)) | (None, None) => None,
        }
    }

    /// Enters a step. After want of memory the search is as it was.
    fn enter(&mut self, step: Step) -> Result<(), AllocError>
        requires device { step.device < length self.old.places }
        requires room { length self.old.steps < 2 ^ 32 }
        ensures ok { OnOk result (self.new ≡ entered self.old step) }
        ensures err { OnErr result (self.new ≡ self.old) }
    {
        let place = self.steps.len() as u32;
        self.steps.push(step)?;
        self.places[step.device as usize] = Some(place);
        Ok(())
    }

    /// Follows a link from an end that was found to one that was not. After want of memory the search is as it was.
    fn follow(&mut self, topo: &GroupTopo, up: &EntitySet, link: u32) -> Result<(), AllocError>
        requires link { link < length topo.now.links }
        requires marks { MarksOf topo.now up.now }
        requires search { IsSearch (length topo.now.devices) topo.now.links (is_in up.now) self.old }
        ensures search { OnOk result (IsSearch (length topo.now.devices) topo.now.links (is_in up.now) self.new) }
        ensures more { OnOk result (Extends self.old self.new) }
        ensures joined { OnOk result (IsJoined topo.now.links (is_in up.now) self.new link) }
        ensures err { OnErr result (self.new ≡ self.old) }
    {
        topo.is_sound();
        match self.step_over(topo, up, link) {
            Some(step) => self.enter(step),
            None => Ok(()),
        }
    }

    /// Follows each link of a step's device. After want of memory some of them are followed, and the search is of no use.
    fn visit(
        &mut self,
        topo: &GroupTopo,
        incidence: &Incidence,
        up: &EntitySet,
        step: usize,
    ) -> Result<(), AllocError>
        requires incidence { IsIncidence (length topo.now.devices) topo.now.links incidence.now }
        requires marks { MarksOf topo.now up.now }
        requires search { IsSearch (length topo.now.devices) topo.now.links (is_in up.now) self.old }
        requires step { step < length self.old.steps }
        ensures search { OnOk result (IsSearch (length topo.now.devices) topo.now.links (is_in up.now) self.new) }
        ensures more { OnOk result (Extends self.old self.new) }
        ensures visited { OnOk result (IsVisited topo.now.links (is_in up.now) self.new (step_at self.old step).device) }
    {
        let device = self.steps[step].device;
        let mut next = incidence.last(topo, device);
        while let Some(link) = next {
            self.follow(topo, up, link)?;
            next = incidence.before(topo, link, device);
        }
        Ok(())
    }

    /// All that walks from a device reach. Linear in devices and links.
    pub fn run(
        alloc: Global,
        topo: &GroupTopo,
        incidence: &Incidence,
        up: &EntitySet,
        root: u32,
    ) -> Result<Search, AllocError>
        requires incidence { IsIncidence (length topo.now.devices) topo.now.links incidence.now }
        requires root { root < length topo.now.devices }
        requires marks { MarksOf topo.now up.now }
        ensures search { IfOk result (IsSearch (length topo.now.devices) topo.now.links (is_in up.now)) }
        ensures root { IfOk result (λ s. s.root ≡ root) }
        ensures settled { IfOk result (IsSettled topo.now.links (is_in up.now)) }
    {
        let mut search = Search::start(alloc, topo, root)?;
        let mut next = 0;
        while next < search.steps.len() {
            search.visit(topo, incidence, up, next)?;
            next += 1;
        }
        Ok(search)
    }
}
