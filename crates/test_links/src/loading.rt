//! Modules from the files of the folder.

ghost use Rattle.std.specs.Prelude.{◌≤◌, length, All, IfOk};
ghost use Rattle.wm_match.specs.Lists.{HasListsWithin};
ghost use Rattle.test_links.specs.Libraries.{HasShortLists};

use mc_nbt::Text;
use std::alloc::Global;
use std::fs;
use test_lines::Stop;
use wm_ast::{Items, Module};
use wm_decode::decode;
use wm_match::{Libraries, Library};

/// The most bytes of a module.
const BYTES: usize = 1_048_576;

/// The most libraries of a row.
const LIBRARIES: usize = 16;

/// The module that the bytes spell.
#[tactic(auto, using(crate::proofs::ListLaws::short_lists))]
fn module_of(alloc: Global, bytes: &[u8]) -> Result<Module, Stop>
    ensures { IfOk result (HasListsWithin 1048576) }
{
    if bytes.len() > BYTES {
        return Err(Stop::Line);
    }
    match decode(alloc, bytes) {
        Ok(module) => Ok(module),
        Err(_) => Err(Stop::Line),
    }
}

/// The module of the file of this name.
pub fn load(rt: &HostRuntime, name: &str) -> Result<Module, Stop>
    ensures { IfOk result (HasListsWithin 1048576) }
{
    let path = format!(in rt.alloc(); "{name}.wasm")?;
    let bytes = fs::read(rt, path.as_str())?;
    module_of(rt.alloc(), &bytes)
}

/// The library that a word of the form `NAME=FILE` tells.
fn load_library(rt: &HostRuntime, word: &str) -> Result<Library, Stop>
    ensures { IfOk result HasShortLists }
{
    let Some((name, file)) = word.split_once('=') else {
        return Err(Stop::Line);
    };
    let module = load(rt, file)?;
    let name = Text::new(rt.alloc(), name)?;
    Ok(Library { name, module })
}

/// The libraries that the words tell, in their order.
pub fn load_libraries(rt: &HostRuntime, words: &str) -> Result<Libraries, Stop>
    ensures count { IfOk result (λ libs. 1 ≤ length libs × length libs ≤ 16) }
    ensures short { IfOk result (All HasShortLists) }
{
    let mut libs = Vec::new(rt.alloc());
    for word in words.split(' ') {
        libs.push(load_library(rt, word)?)?;
    }
    if libs.is_empty() || libs.len() > LIBRARIES {
        return Err(Stop::Line);
    }
    Ok(Items::from_vec(libs))
}
