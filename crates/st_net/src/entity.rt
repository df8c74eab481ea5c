//! Entities, their variables and the values of these, and rows that set one variable. A document names them, applications
//! ask for rows of them, and all definitions speak of them.

ghost use Rattle.std.specs.Prelude.{◌≡◌, ℕ, ◌+◌, ◌<◌, ◌^◌, slice_index_or};
ghost use Rattle.st_net.specs.Entities.{value_of, value_set, is_same_entity, is_same_var, is_same_vals, place_of, power_of};
ghost use Rattle.st_net.specs.InOrder.{entities_among, place_behind as place_behind_lem};

/// A device or a link of a group, by its number from 0 in the order of declaration. Devices come first in the order of
/// entities.
#[derive(Clone, Copy, Debug, PartialEq, Eq)]
pub enum Entity {
    Device(u32),
    Link(u32),
}

/// A variable: the first four are a device's, the last two a link's, each in the order of variables.
#[derive(Clone, Copy, Debug, PartialEq, Eq)]
pub enum Var {
    /// A device's power, 0 or 1.
    Power,
    /// A device's firmware, any number.
    Firmware,
    /// A device's configuration, any number.
    Config,
    /// A device's routing, 0 drained or 1 active.
    Routing,
    /// A link's power, 0 or 1.
    LinkPower,
    /// A link's interface, any number.
    Iface,
}

/// The values of an entity's variables, in their order: power, firmware, config and routing of a device, power and iface of
/// a link, whose last two are 0.
#[derive(Clone, Copy, Debug, PartialEq, Eq)]
pub struct Vals {
    pub v0: u32,
    pub v1: u32,
    pub v2: u32,
    pub v3: u32,
}

/// One variable of one entity, and the value that it is to have.
#[derive(Clone, Copy, Debug, PartialEq, Eq)]
pub struct Row {
    pub entity: Entity,
    pub var: Var,
    pub value: u32,
}

/// An application, by its number from 0 in the order of the document.
#[derive(Clone, Copy, Debug, PartialEq, Eq)]
pub struct AppId(pub u32);

/// The two locks of an entity.
#[derive(Clone, Copy, Debug, PartialEq, Eq)]
pub enum Prio {
    Low,
    High,
}

impl Entity {
    /// Whether two entities are one.
    pub fn is_same(self, other: Entity) -> bool
        ensures { result ≡ is_same_entity self other }
    {
        match (self, other) {
            (Entity::Device(i), Entity::Device(j)) => i == j,
            (Entity::Link(i), Entity::Link(j)) => i == j,
            _ => false,
        }
    }

    /// Where this entity stands in the order of entities, the first of which are so many devices.
    pub fn place_behind(self, devices: usize) -> usize
        requires { place_behind_lem devices self < 2 ^ 64 }
        ensures { result ≡ place_behind_lem devices self }
    {
        match self {
            Entity::Device(i) => i as usize,
            Entity::Link(i) => devices + i as usize,
        }
    }

    /// The entity at a place from 0 in the order of entities, the first of which are so many devices.
    pub fn at_place(place: u32, devices: u32) -> Entity
        ensures { (links : ℕ) → place < devices + links → result ≡ slice_index_or (entities_among devices links) place result }
    {
        if place < devices {
            Entity::Device(place)
        } else {
            Entity::Link(place - devices)
        }
    }

    /// The variable of this entity's power.
    pub fn power(self) -> Var
        ensures { result ≡ power_of self }
    {
        match self {
            Entity::Device(_) => Var::Power,
            Entity::Link(_) => Var::LinkPower,
        }
    }
}

impl Var {
    /// The place of this variable among all, from 0.
    fn place(self) -> u32
        ensures { result ≡ place_of self }
    {
        match self {
            Var::Power => 0,
            Var::Firmware => 1,
            Var::Config => 2,
            Var::Routing => 3,
            Var::LinkPower => 4,
            Var::Iface => 5,
        }
    }

    /// Whether two variables are one.
    pub fn is_same(self, other: Var) -> bool
        ensures { result ≡ is_same_var self other }
    {
        self.place() == other.place()
    }
}

impl Vals {
    /// The value of an entity's variable among these; 0 where the entity has no such variable.
    pub fn get(self, entity: Entity, var: Var) -> u32
        ensures { result ≡ value_of entity self var }
    {
        match (entity, var) {
            (Entity::Device(_), Var::Power) => self.v0,
            (Entity::Device(_), Var::Firmware) => self.v1,
            (Entity::Device(_), Var::Config) => self.v2,
            (Entity::Device(_), Var::Routing) => self.v3,
            (Entity::Link(_), Var::LinkPower) => self.v0,
            (Entity::Link(_), Var::Iface) => self.v1,
            _ => 0,
        }
    }

    /// These values with one variable set; as they are where the entity has no such variable.
    pub fn with(self, entity: Entity, var: Var, value: u32) -> Vals
        ensures { result ≡ value_set entity self var value }
    {
        match (entity, var) {
            (Entity::Device(_), Var::Power) => Vals { v0: value, ..self },
            (Entity::Device(_), Var::Firmware) => Vals { v1: value, ..self },
            (Entity::Device(_), Var::Config) => Vals { v2: value, ..self },
            (Entity::Device(_), Var::Routing) => Vals { v3: value, ..self },
            (Entity::Link(_), Var::LinkPower) => Vals { v0: value, ..self },
            (Entity::Link(_), Var::Iface) => Vals { v1: value, ..self },
            _ => self,
        }
    }

    /// Whether all four values are equal.
    pub fn is_same(self, other: Vals) -> bool
        ensures { result ≡ is_same_vals self other }
    {
        self.v0 == other.v0 && self.v1 == other.v1 && self.v2 == other.v2 && self.v3 == other.v3
    }
}
