// Libraries and exports by their names.
ghost use Rattle.std.specs.Prelude.{◌≡◌, ◌<◌, ◌↔◌, AllPairs, IsTrue, IfOk, length, position};
ghost use Rattle.std.specs.Str.{bytes_eq};
ghost use Rattle.wm_match.specs.Cause.{HasSameName};
ghost use Rattle.wm_match.specs.Closed.{HaveOtherNames};

use crate::Library;
use mc_nbt::{Memory, Text};
use std::alloc::Global;
use std::collections::BTreeSet;
use wm_ast::Export;

/// The first library of this name.
pub(crate) fn library_named(libs: &[Library], name: &Text) -> Option<usize>
    ensures { result ≡ position (λ l. bytes_eq l.name name.now) libs.now }
{
    libs.iter().position(|l| l.name == *name)
}

/// Whether an earlier library has the name of library k.
pub(crate) fn has_earlier_name(libs: &[Library], k: usize) -> bool
    requires { k < length libs.now }
    ensures { IsTrue result ↔ HasSameName libs.now k }
{
    let library = &libs[k];
    match library_named(libs, &library.name) {
        Some(j) => j < k,
        None => false,
    }
}

/// Whether the names of the exports differ.
pub(crate) fn names_differ(alloc: Global, exports: &[Export]) -> Result<bool, Memory>
    ensures { IfOk result (λ differ. IsTrue differ ↔ AllPairs HaveOtherNames exports.now) }
{
    let mut names: BTreeSet<&str> = BTreeSet::new(alloc);
    for (index, export) in exports.iter().enumerate() {
        if !names.insert(export.name.as_str())? {
            return Ok(false);
        }
    }
    Ok(true)
}
