//! The simulated network of a group: an agent for each entity, in the order of entities. Messages and failures come from the group's
//! machine.

ghost use Rattle.std.specs.Prelude.{◌≡◌, ◌+◌, ◌<◌, ◌^◌, IfOk, Some};
ghost use Rattle.st_net.specs.Groups.{IsEntityOf};
ghost use Rattle.st_net.specs.Agents.{agent_told, agent_finished, agent_failed, agent_counted, agent_report};
ghost use Rattle.st_agent.specs.State.{delivery_of, finish_of};
ghost use Rattle.st_world.specs.Plant.{IsPlantOf, agent_in, agent_set, opening_agent};

use st_agent::{Agent, Delivery, Finish};
use st_net::{Command, Entity, GroupTopo, Report, Vals};
use std::alloc::{AllocError, Global};
use std::marker::Model;

/// The agents of a group's entities. Contracts see their states, in the order of entities.
#[derive(Drop)]
pub struct Plant {
    agents: Vec<Agent>,
}

impl Model for Plant {
    ghost use Rattle.std.specs.Prelude.{List};
    ghost use Rattle.st_agent.specs.State.{AgentState};

    ghost Value = { List AgentState };

    ghost view = { λ p. p.agents.items };
}

/// The agent of an entity at the opening of its group.
fn opening_agent_of(topo: &GroupTopo, entity: Entity) -> Agent
    requires { IsEntityOf topo.now entity }
    ensures { result ≡ record { entity = entity; agent = opening_agent topo.now entity } }
{
    Agent::start(entity, topo.opening(entity), topo.health(entity))
}

impl Plant {
    /// The agents of a group at its opening: none was told anything.
    pub fn start(alloc: Global, topo: &GroupTopo) -> Result<Plant, AllocError>
        ensures plant { IfOk result (IsPlantOf topo.now) }
        ensures opening { IfOk result (λ plant. agent_in topo.now plant ≡ opening_agent topo.now) }
    {
        let mut agents = Vec::new(alloc);
        for place in 0..topo.entity_count() {
            agents.push(opening_agent_of(topo, topo.entity_at(place)))?;
        }
        Ok(Plant { agents })
    }

    /// The agent of an entity of the group that these agents are of.
    pub fn agent(&self, topo: &GroupTopo, entity: Entity) -> &Agent
        requires plant { IsPlantOf topo.now self.now }
        requires entity { IsEntityOf topo.now entity }
        ensures { result.now ≡ record { entity = entity; agent = agent_in topo.now self.now entity } }
    {
        &self.agents[topo.place(entity)]
    }

    /// A command reaches the agent of its entity.
    pub fn deliver(&mut self, topo: &GroupTopo, command: Command) -> Delivery
        requires plant { IsPlantOf topo.now self.old }
        requires entity { IsEntityOf topo.now command.entity }
        ensures answer { result ≡ delivery_of (agent_in topo.now self.old command.entity) command }
        ensures agents { agent_in topo.now self.new ≡ agent_set (agent_in topo.now self.old) command.entity (agent_told (Some command)) }
        ensures plant { IsPlantOf topo.now self.new }
    {
        self.agents[topo.place(command.entity)].deliver(command)
    }

    /// The agent of an entity carries out the command in work, if there is one.
    pub fn finish(&mut self, topo: &GroupTopo, entity: Entity) -> Finish
        requires plant { IsPlantOf topo.now self.old }
        requires entity { IsEntityOf topo.now entity }
        ensures answer { result ≡ finish_of (agent_in topo.now self.old entity) }
        ensures agents { agent_in topo.now self.new ≡ agent_set (agent_in topo.now self.old) entity (λ a. agent_finished a.work a) }
        ensures plant { IsPlantOf topo.now self.new }
    {
        self.agents[topo.place(entity)].finish()
    }

    /// The next report of the agent of an entity.
    pub fn report(&mut self, topo: &GroupTopo, entity: Entity) -> Report
        requires plant { IsPlantOf topo.now self.old }
        requires entity { IsEntityOf topo.now entity }
        requires number { (agent_in topo.now self.old entity).number + 1 < 2 ^ 32 }
        ensures report { result ≡ agent_report entity (agent_in topo.now self.old entity) }
        ensures agents { agent_in topo.now self.new ≡ agent_set (agent_in topo.now self.old) entity agent_counted }
        ensures plant { IsPlantOf topo.now self.new }
    {
        self.agents[topo.place(entity)].report()
    }

    /// An entity changes of itself.
    pub fn fail(&mut self, topo: &GroupTopo, entity: Entity, vals: Vals, health: u32)
        requires plant { IsPlantOf topo.now self.old }
        requires entity { IsEntityOf topo.now entity }
        ensures agents { agent_in topo.now self.new ≡ agent_set (agent_in topo.now self.old) entity (agent_failed vals health) }
        ensures plant { IsPlantOf topo.now self.new }
    {
        self.agents[topo.place(entity)].fail(vals, health);
    }
}
