//! That each of a list of names is spelled as one. It is asked where the texts are gathered that name applications.

ghost use Rattle.std.specs.Prelude.{◌≡◌, true};
ghost use Rattle.st_net.specs.Groups.{are_names as are_names_lem};

use st_net::Name;

/// Each of these is spelled as a name. They are only looked at, for the proof.
pub(crate) fn are_names(apps: &[Name])
    ensures { are_names_lem apps.now ≡ true }
{
    for app in apps {
        let _spelling = app.bytes();
    }
}
