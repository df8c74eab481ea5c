//! Asks judged for one set of entities, by a book that stays as it is: what its kept flows show, and where these show nothing, what
//! the network of the set tells. No run is counted and no flow is kept.

ghost use Rattle.std.specs.Prelude.{◌≡◌, ◌<◌, length, IfOk, IfSome};
ghost use Rattle.st_net.specs.Asks.{ask_count, ask_of};
ghost use Rattle.st_net.specs.Groups.{promise_of};
ghost use Rattle.st_net.specs.Sets.{is_in, MarksOf};
ghost use Rattle.st_net.specs.Promises.{is_kept};
ghost use Rattle.st_promise.specs.UpNetwork.{up_network};
ghost use Rattle.st_promise.specs.Book.{IsBookOf, held_asks};

use crate::book::Book;
use crate::judge::is_marked;
use crate::up_network::UpNetwork;
use st_net::{EntitySet, GroupTopo};
use std::alloc::AllocError;

impl Book {
    /// Whether ask number `i` holds in the network of what is up.
    fn holds_in(
        &self,
        topo: &GroupTopo,
        up: &EntitySet,
        network: &UpNetwork,
        i: u32,
    ) -> Result<bool, AllocError>
        requires book { IsBookOf topo.now self.now.of }
        requires ask { i < ask_count topo.now }
        requires network { network.now ≡ up_network topo.now (is_in up.now) }
        ensures { IfOk result (λ held. held ≡ is_kept topo.now (is_in up.now) (ask_of topo.now i)) }
    {
        let cut = network.failing_cut(self.alloc, topo, i, self.needs[i as usize])?;
        Ok(cut.is_none())
    }

    /// The same of a network that is built where it is not yet there, and stays for the next ask.
    fn holds_once_built(
        &self,
        topo: &GroupTopo,
        up: &EntitySet,
        network: &mut Option<UpNetwork>,
        i: u32,
    ) -> Result<bool, AllocError>
        requires book { IsBookOf topo.now self.now.of }
        requires ask { i < ask_count topo.now }
        requires marks { MarksOf topo.now up.now }
        requires network { IfSome network.old (λ n. n ≡ up_network topo.now (is_in up.now)) }
        ensures network { IfSome network.new (λ n. n ≡ up_network topo.now (is_in up.now)) }
        ensures held { IfOk result (λ held. held ≡ is_kept topo.now (is_in up.now) (ask_of topo.now i)) }
    {
        if network.is_none() {
            *network = Some(UpNetwork::of(self.alloc, topo, up)?);
        }
        match network {
            Some(network) => self.holds_in(topo, up, network, i),
            None => unreachable!(),
        }
    }

    /// Whether promise number `i` holds while these entities are up: by the kept flow, or else by a flow that is not kept.
    pub fn is_held(&self, topo: &GroupTopo, up: &EntitySet, i: u32) -> Result<bool, AllocError>
        requires book { IsBookOf topo.now self.now.of }
        requires promise { i < length topo.now.promises }
        requires marks { MarksOf topo.now up.now }
        ensures { IfOk result (λ held. held ≡ is_kept topo.now (is_in up.now) (promise_of topo.now i)) }
    {
        if self.shows(topo, up, i) {
            return Ok(true);
        }
        let mut network = None;
        self.holds_once_built(topo, up, &mut network, i)
    }

    /// Whether each ask, in order, holds while these entities are up. Their network is built at most once, and not at all where
    /// the kept flows show that all hold.
    pub(crate) fn asks_held_in(
        &self,
        topo: &GroupTopo,
        up: &EntitySet,
    ) -> Result<Vec<bool>, AllocError>
        requires book { IsBookOf topo.now self.now.of }
        requires marks { MarksOf topo.now up.now }
        ensures { IfOk result (λ held. held.items ≡ held_asks topo.now (is_in up.now)) }
    {
        let shown = self.shown_in(topo, up)?;
        let mut network = None;
        let mut held = Vec::with_capacity(self.alloc, topo.ask_count() as usize)?;
        for i in 0..topo.ask_count() {
            if is_marked(shown.as_slice(), i) {
                held.push(true)?;
            } else {
                held.push(self.holds_once_built(topo, up, &mut network, i)?)?;
            }
        }
        Ok(held)
    }
}
