//! Least cuts with everything up: those of all pairs of ToRs from few. Each ToR but the first has the least cut between it and
//! an earlier one. The least value of a pair is at least the least on the way between the two, and at most that of each cut that
//! separates them: where both are one number, that is it. A book takes from here what its asks are shares of.

ghost use Rattle.std.specs.Prelude.{◌≡◌, ◌≢◌, ℕ, ◌-◌, ◌<◌, ◌≤◌, Bool, true, All, length, slice_index_or, IfOk, IfSome};
ghost use Rattle.st_net.specs.Cuts.{cut_value};
ghost use Rattle.st_flow.specs.Network.{has};
ghost use Rattle.st_promise.specs.UpNetwork.{up_network, baseline_of};
ghost use Rattle.st_promise.specs.CutTree.{marked, tor_at, IsBranch, IsCutTree};

use crate::up_network::UpNetwork;
use st_net::GroupTopo;
use std::alloc::{AllocError, Global};

/// The least cut of a ToR and an earlier one: its value, and for each device whether it is on the side of the later.
#[derive(Drop)]
pub(crate) struct Branch {
    pub(crate) parent: usize,
    pub(crate) value: u64,
    pub(crate) side: Vec<bool>,
}

/// ToRs in order, and the branch of each. The branch of the first has no cut, and its own place for the earlier one.
#[derive(Drop)]
pub(crate) struct CutTree {
    pub(crate) tors: Vec<u32>,
    pub(crate) branches: Vec<Branch>,
}

/// The ToRs of which more than 0 percent is asked.
fn asked_tors(alloc: Global, topo: &GroupTopo) -> Result<Vec<u32>, AllocError>
    ensures { IfOk result (λ tors. All (λ d. d < length topo.now.devices) tors.items) }
{
    topo.is_sound();
    let mut marks = vec![in alloc; false; topo.device_count() as usize]?;
    for i in 0..topo.ask_count() {
        let ask = topo.ask(i);
        if ask.percent > 0 {
            marks[ask.a as usize] = true;
            marks[ask.b as usize] = true;
        }
    }
    let mut tors = Vec::new(alloc);
    for device in 0..topo.device_count() {
        if marks[device as usize] {
            tors.push(device)?;
        }
    }
    Ok(tors)
}

/// The marks of a list of devices.
fn marks_of(alloc: Global, devices: u32, side: &[u32]) -> Result<Vec<bool>, AllocError>
    requires { All (λ d. d < devices) side.now }
    ensures count { IfOk result (λ marks. length marks.items ≡ devices) }
    ensures has { IfOk result (λ marks. (d : ℕ) → marked marks.items d ≡ has side.now d) }
{
    let mut marks = vec![in alloc; false; devices as usize]?;
    for device in side {
        marks[*device as usize] = true;
    }
    Ok(marks)
}

/// The branch of ToR number `k`: its least cut from an earlier one.
fn branch_of(
    alloc: Global,
    topo: &GroupTopo,
    whole: &UpNetwork,
    tors: &[u32],
    k: usize,
    parent: usize,
) -> Result<Branch, AllocError>
    requires whole { whole.now ≡ up_network topo.now (λ e. true) }
    requires tors { All (λ d. d < length topo.now.devices) tors.now }
    requires place { k < length tors.now }
    requires parent { parent ≤ k - 1 }
    ensures { IfOk result (IsBranch topo.now tors.now k) }
{
    let later = tors[k];
    let earlier = tors[parent];
    if later == earlier {
        let side = vec![in alloc; false; topo.device_count() as usize]?;
        return Ok(Branch {
            parent,
            value: 0,
            side,
        });
    }
    let cut = whole.least(alloc, topo, later, earlier)?;
    Ok(Branch {
        parent,
        value: cut.value,
        side: marks_of(alloc, topo.device_count(), cut.side.as_slice())?,
    })
}

/// ToRs after `k` that were to be cut from the same one, and are on the side of `k`, are cut from `k`.
fn adopt(parents: &mut [usize], tors: &[u32], k: usize, side: &[bool])
    requires each { length parents.old ≡ length tors.now }
    requires place { k < length tors.now }
    requires tors { All (λ d. d < length side.now) tors.now }
    ensures { length parents.new ≡ length parents.old }
{
    let parent = parents[k];
    for j in k..tors.len() {
        if j > k && parents[j] == parent && side[tors[j] as usize] {
            parents[j] = k;
        }
    }
}

impl CutTree {
    /// The tree of the ToRs of which something is asked; of none where these are more than the asks, so that no more cuts are
    /// found than there are asks.
    pub(crate) fn of(
        alloc: Global,
        topo: &GroupTopo,
        whole: &UpNetwork,
    ) -> Result<CutTree, AllocError>
        requires whole { whole.now ≡ up_network topo.now (λ e. true) }
        ensures { IfOk result (IsCutTree topo.now) }
    {
        let tors = asked_tors(alloc, topo)?;
        let count = if tors.len() > topo.ask_count() as usize {
            0
        } else {
            tors.len()
        };
        let mut parents = vec![in alloc; 0usize; tors.len()]?;
        let mut branches = Vec::with_capacity(alloc, count)?;
        for k in 0..count {
            let parent = parents[k].min(k.saturating_sub(1));
            let branch = branch_of(alloc, topo, whole, tors.as_slice(), k, parent)?;
            adopt(
                parents.as_mut_slice(),
                tors.as_slice(),
                k,
                branch.side.as_slice(),
            );
            branches.push(branch)?;
        }
        Ok(CutTree { tors, branches })
    }

    /// The place of a ToR that has a branch.
    fn place(&self, device: u32) -> Option<usize>
        ensures { IfSome result (λ k. (k < length self.now.branches.items) × (tor_at self.now.tors.items k ≡ device)) }
    {
        for k in 0..self.branches.len().min(self.tors.len()) {
            if self.tors[k] == device {
                return Some(k);
            }
        }
        None
    }

    /// The least value on the way between two ToRs.
    fn low(&self, topo: &GroupTopo, x: usize, y: usize) -> u64
        requires tree { IsCutTree topo.now self.now }
        requires x { x < length self.now.branches.items }
        requires y { y < length self.now.branches.items }
        ensures { (s : ℕ → Bool) → s (tor_at self.now.tors.items x) ≢ s (tor_at self.now.tors.items y) → result ≤ cut_value topo.now.links (λ e. true) s }
    {
        let mut low = u64::MAX;
        let mut x = x;
        let mut y = y;
        while x != y {
            let later = x.max(y);
            let branch = &self.branches[later];
            low = low.min(branch.value);
            y = x.min(y);
            x = branch.parent;
        }
        low
    }

    /// The least value of a cut of the tree that separates two devices.
    fn high(&self, topo: &GroupTopo, a: u32, b: u32) -> u64
        requires tree { IsCutTree topo.now self.now }
        requires a { a < length topo.now.devices }
        requires b { b < length topo.now.devices }
        requires apart { a ≢ b }
        ensures { baseline_of topo.now a b ≤ result }
    {
        topo.is_sound();
        let mut high = u64::MAX;
        for branch in &self.branches {
            if branch.side[a as usize] != branch.side[b as usize] {
                high = high.min(branch.value);
            }
        }
        high
    }

    /// The least value of a cut of two devices: from the tree, where it tells.
    pub(crate) fn least(
        &self,
        alloc: Global,
        topo: &GroupTopo,
        whole: &UpNetwork,
        a: u32,
        b: u32,
    ) -> Result<u64, AllocError>
        requires tree { IsCutTree topo.now self.now }
        requires whole { whole.now ≡ up_network topo.now (λ e. true) }
        requires a { a < length topo.now.devices }
        requires b { b < length topo.now.devices }
        requires apart { a ≢ b }
        ensures { IfOk result (λ value. value ≡ baseline_of topo.now a b) }
    {
        topo.is_sound();
        if let (Some(x), Some(y)) = (self.place(a), self.place(b)) {
            let low = self.low(topo, x, y);
            if low == self.high(topo, a, b) {
                return Ok(low);
            }
        }
        Ok(whole.least(alloc, topo, a, b)?.value)
    }
}
