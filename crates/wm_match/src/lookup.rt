// What an import is bound to.
ghost use Rattle.std.specs.Prelude.{◌≡◌, ◌<◌, ◌≤◌, [], length};
ghost use Rattle.wm_match.specs.Binds.{CanBeBound};
ghost use Rattle.wm_match.specs.Cause.{program};
ghost use Rattle.wm_match.specs.steps.Checking.{IsLookup, IsLookupIn};
ghost use Rattle.wm_match.specs.steps.Directories.{AreDirectories, IsDirectory};

use crate::directory::{Directory, export_named, item_in};
use crate::matching::matches;
use crate::naming::library_named;
use crate::space::is_in;
use crate::{Binding, Library};
use wm_ast::{Import, Items, Module};

/// What the look-up of an import tells.
#[derive(Clone, Copy, Debug)]
pub(crate) enum Lookup {
    Bound(Binding),
    /// No earlier library of the name has an export of the name.
    Unknown,
    /// The export isn't what the import wants.
    Mismatch,
}

/// Looks up an import of module k, by the bindings and the directories of the modules before it.
pub(crate) fn look_up(
    libs: &[Library],
    main: &Module,
    k: usize,
    m: &Module,
    import: &Import,
    done: &[Items<Binding>],
    directories: &[Directory],
) -> Lookup
    requires can { CanBeBound libs.now main.now }
    requires number { k ≤ length libs.now }
    requires few { length libs.now ≤ 16 }
    requires done { length done.now ≡ k }
    requires directories { AreDirectories libs.now main.now done.now directories.now }
    ensures { IsLookup (program libs.now main.now done.now) k m.now import.now result }
{
    let Some(j) = library_named(libs, &import.module) else {
        return Lookup::Unknown;
    };
    if j >= k {
        return Lookup::Unknown;
    }
    let library = &libs[j];
    let part = done[j].as_slice();
    look_in(libs, main, k, m, import, j, library, part, &directories[j])
}

// Looks up the import in library j, which has its name.
fn look_in(
    libs: &[Library],
    main: &Module,
    k: usize,
    m: &Module,
    import: &Import,
    j: usize,
    library: &Library,
    part: &[Binding],
    directory: &Directory,
) -> Lookup
    requires few { length libs.now ≤ 16 }
    requires earlier { j < k }
    requires number { k ≤ length libs.now }
    requires directory { IsDirectory library.now.module part.now directory.now }
    ensures { IsLookupIn (program libs.now main.now []) k m.now import.now j library.now part.now result }
{
    let exports = library.module.exports.as_slice();
    let Some(e) = export_named(directory, exports, &import.name) else {
        return Lookup::Unknown;
    };
    let export = &exports[e];
    if !is_in(export.space, import) {
        return Lookup::Mismatch;
    }
    match item_in(
        directory,
        &library.module,
        j as u32,
        part,
        export.space,
        export.index,
    ) {
        Some(b) => {
            if matches(libs, main, m, import.what, b) {
                Lookup::Bound(b)
            } else {
                Lookup::Mismatch
            }
        }
        None => Lookup::Mismatch,
    }
}
