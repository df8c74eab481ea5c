//! What became of each entity on the way through a journal: who set its variables last, and its newest failure. It is told where a page begins
//! behind entries.

ghost use Rattle.std.specs.Prelude.{◌≡◌, All, length};
ghost use Rattle.st_net.specs.InOrder.{entity_count};
ghost use Rattle.st_net.specs.Ranges.{RowFits};
ghost use Rattle.st_event.specs.Legal.{Fits, IsNext};
ghost use Rattle.st_event.specs.Proposals.{pending};
ghost use Rattle.st_player.specs.Causes.{app_by as app_by_lem, first_app, next_setter as next_setter_lem, var_place};
ghost use Rattle.st_player.specs.Origins.{failed_origins, no_origin as no_origin_lem, origins_after, set_origins, with_setter as with_setter_lem};

use crate::touched::overlay_of;
use st_event::{Entry, Event};
use st_net::{GroupTopo, Row, Var};
use st_world::World;

/// A version of the target, and the application whose proposal made it; what is withdrawn has none.
#[derive(Clone, Copy)]
pub(crate) struct Setter {
    pub(crate) version: u32,
    pub(crate) app: Option<u32>,
}

/// A failure of an entity: its entry, and the health that it left.
#[derive(Clone, Copy)]
pub(crate) struct Failure {
    pub(crate) entry: u32,
    pub(crate) health: u32,
}

/// Who set each variable of an entity last, in their order, and its newest failure.
#[derive(Clone, Copy)]
pub(crate) struct Origin {
    pub(crate) v0: Option<Setter>,
    pub(crate) v1: Option<Setter>,
    pub(crate) v2: Option<Setter>,
    pub(crate) v3: Option<Setter>,
    pub(crate) failure: Option<Failure>,
}

/// Where nothing was set, and nothing failed.
pub(crate) fn no_origin() -> Origin
    ensures { result ≡ no_origin_lem }
{
    Origin {
        v0: None,
        v1: None,
        v2: None,
        v3: None,
        failure: None,
    }
}

/// The same with another setter of a variable.
fn with_setter(origin: Origin, var: Var, setter: Setter) -> Origin
    ensures { result ≡ with_setter_lem setter (var_place var) origin }
{
    let mut origin = origin;
    match var {
        Var::Power | Var::LinkPower => origin.v0 = Some(setter),
        Var::Firmware | Var::Iface => origin.v1 = Some(setter),
        Var::Config => origin.v2 = Some(setter),
        Var::Routing => origin.v3 = Some(setter),
    }
    origin
}

/// Keeps who set the variables of these rows.
fn keep_rows(topo: &GroupTopo, origins: &mut [Origin], rows: &[Row], setter: Setter)
    requires fit { All (RowFits topo.now) rows.now }
    requires count { length origins.old ≡ entity_count topo.now }
    ensures { origins.new ≡ set_origins topo.now setter rows.now origins.old }
{
    for row in rows {
        let place = topo.place(row.entity);
        origins[place] = with_setter(origins[place], row.var, setter);
    }
}

/// The application whose proposal waits longest.
fn oldest_app(world: &World) -> Option<u32>
    ensures { result ≡ first_app (pending world.now.history.past) }
{
    match world.control().store().oldest() {
        Some(oldest) => Some(oldest.app.0),
        None => None,
    }
}

/// The application that sets what an event overlays the target with, behind the entries of a world: at a check the one whose proposal
/// waits longest, at a withdrawal none.
fn app_by(world: &World, event: &Event) -> Option<u32>
    ensures { result ≡ app_by_lem event.now (pending world.now.history.past) }
{
    match event {
        Event::Check => oldest_app(world),
        _ => None,
    }
}

/// Who sets what the next entry, of this event, overlays the target with: its version, and the application, where one sets it.
fn next_setter(world: &World, event: &Event) -> Setter
    ensures { result ≡ next_setter_lem world.now.history.past event.now }
{
    world.is_legal();
    let store = world.control().store();
    let version = store.version() + 1;
    let app = app_by(world, event);
    Setter { version, app }
}

/// Keeps the failure of an entity.
fn keep_failure(topo: &GroupTopo, origins: &mut [Origin], number: u32, event: &Event)
    requires fits { Fits topo.now event.now }
    requires count { length origins.old ≡ entity_count topo.now }
    ensures { origins.new ≡ failed_origins topo.now event.now number origins.old }
{
    if let Event::Fail { entity, health, .. } = event {
        let place = topo.place(*entity);
        origins[place].failure = Some(Failure {
            entry: number,
            health: *health,
        });
    }
}

/// Keeps what the next entry of a legal journal, which has this number, sets or fails, behind the entries of a world.
pub(crate) fn keep_origins(world: &World, origins: &mut [Origin], number: u32, entry: &Entry)
    requires next { IsNext world.now.history.group world.now.history.past entry.now }
    requires count { length origins.old ≡ entity_count world.now.history.group }
    ensures { origins.new ≡ origins_after world.now.history.group world.now.history.past entry.now number origins.old }
{
    world.is_legal();
    let topo = world.control().topo();
    match overlay_of(world, entry) {
        Some(rows) => keep_rows(topo, origins, rows, next_setter(world, &entry.event)),
        None => keep_failure(topo, origins, number, &entry.event),
    }
}
