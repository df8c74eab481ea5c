//! The names that entries say: of applications and of entities, by their numbers.

ghost use Rattle.std.specs.Prelude.{◌≡◌};
ghost use Rattle.st_net.specs.Groups.{name_of};
ghost use Rattle.st_entry.specs.Words.{app_word, holder_word};

use st_net::{AppId, Entity, GroupTopo, Name};

/// The name of an application; no bytes where there are not so many.
pub fn app_name(apps: &[Name], app: AppId) -> &[u8]
    ensures { result.now ≡ app_word apps.now app }
{
    match apps.get(app.0 as usize) {
        Some(name) => name.bytes(),
        None => b"",
    }
}

/// The name of a lock's holder, or `-` for nobody.
pub fn holder_name(apps: &[Name], holder: Option<AppId>) -> &[u8]
    ensures { result.now ≡ holder_word apps.now holder }
{
    match holder {
        Some(app) => app_name(apps, app),
        None => b"-",
    }
}

/// The name of an entity; no bytes where it is not of the group.
pub fn entity_name(topo: &GroupTopo, entity: Entity) -> &[u8]
    ensures { result.now ≡ name_of topo.now entity }
{
    if topo.has(entity) {
        topo.name_of(entity).bytes()
    } else {
        topo.is_sound();
        b""
    }
}
