//! From the bytes of a module to the module, or from those of several to what they make together.

ghost use Rattle.std.specs.Prelude.{◌≡◌, ◌≤◌, All, IfOk, length, true};
ghost use Rattle.wm_ast.specs.Profile.{InProfile};
ghost use Rattle.wm_match.specs.Lists.{HasListsWithin};
ghost use Rattle.wm_match.specs.Program.{modules_of};
ghost use Rattle.app_words.specs.Words.{is_library_count};
ghost use Rattle.app_top.specs.steps.JoinRun.{AreLibrariesDecoded, AreSourcesShort, IsDecodedAt, IsJoined};
ghost use Rattle.app_top.specs.steps.JoinRun.{IsLibraryDecoded, IsSourceJoined, IsSourceTakenJoin};
ghost use Rattle.app_top.specs.steps.Run.{IsAccepted, IsSourceTaken, IsTaken};

use crate::inputs::{Sources, copy_of};
use crate::refusal::Refusal;
use app_words::NamedFile;
use mc_nbt::{Bytes, Text};
use std::alloc::Global;
use wm_ast::Module;
use wm_decode::{DecodeFault, decode};
use wm_join::join;
use wm_match::{Libraries, Library, resolve};
use wm_profile::check;
use wm_valid::{Typed, validate};

// The module, where it is valid.
fn validated(alloc: Global, m: Module) -> Result<Typed, Refusal>
    requires { InProfile m }
    ensures same { IfOk result (λ t. t ≡ m) }
    ensures told { IsAccepted m result }
{
    match validate(alloc, m) {
        Ok(typed) => Ok(typed),
        Err((_, fault)) => Err(fault.into()),
    }
}

// The module, where it is in the profile and valid.
fn accepted(alloc: Global, m: Module) -> Result<Typed, Refusal>
    ensures same { IfOk result (λ t. t ≡ m) }
    ensures told { IsTaken m result }
{
    check(&m)?;
    validated(alloc, m)
}

/// The module that the bytes spell.
///
/// # Errors
///
/// The first cause for which the bytes are no module that is taken: `NotDecoded`, `NotInProfile` or `NotValid`; or
/// `Memory` where there was no memory.
pub fn taken(alloc: Global, wasm: &[u8]) -> Result<Typed, Refusal>
    ensures { IsSourceTaken wasm.now result }
{
    let module = decode(alloc, wasm)?;
    accepted(alloc, module)
}

// The module that the bytes of the file at a path spell.
fn decoded_at(alloc: Global, path: &Text, bytes: &[u8]) -> Result<Module, Refusal>
    ensures { IsDecodedAt path.now bytes.now result }
{
    match decode(alloc, bytes) {
        Ok(module) => Ok(module),
        Err(DecodeFault::Memory) => Err(Refusal::Memory),
        Err(fault) => Err(Refusal::NotDecodedAt {
            path: copy_of(path)?,
            fault,
        }),
    }
}

// The library whose file has these bytes.
fn library_of(alloc: Global, named: &NamedFile, bytes: &[u8]) -> Result<Library, Refusal>
    ensures { IsLibraryDecoded named.now bytes.now result }
{
    let module = decoded_at(alloc, &named.file, bytes)?;
    let name = copy_of(&named.name)?;
    Ok(Library { name, module })
}

// The libraries whose files have these bytes, in their order.
fn libraries_of(alloc: Global, named: &[NamedFile], bytes: &[Bytes]) -> Result<Libraries, Refusal>
    requires { length bytes.now ≡ length named.now }
    ensures { AreLibrariesDecoded named.now bytes.now result }
{
    let mut libraries = Libraries::new(alloc);
    for k in 0..named.len() {
        let library = library_of(alloc, &named[k], bytes[k].as_slice())?;
        libraries.push(library)?;
    }
    Ok(libraries)
}

// What the libraries and the main module make together.
fn joined_of(alloc: Global, libraries: &Libraries, main: &Module) -> Result<Module, Refusal>
    requires count { 1 ≤ length libraries.now × length libraries.now ≤ 16 }
    requires short { All (HasListsWithin 1048576) (modules_of libraries.now main.now) }
    ensures { IsJoined libraries.now main.now result }
{
    let bindings = resolve(alloc, libraries, main)?;
    let module = join(alloc, libraries, main, &bindings)?;
    Ok(module)
}

// What the modules in these files make together.
fn joined_source(
    alloc: Global,
    named: &[NamedFile],
    main: &Text,
    sources: &Sources,
) -> Result<Module, Refusal>
    requires count { is_library_count (length named.now) ≡ true }
    requires short { AreSourcesShort named.now sources.now }
    ensures { IsSourceJoined named.now main.now sources.now result }
{
    let libraries = libraries_of(alloc, named, sources.libraries.as_slice())?;
    let main = decoded_at(alloc, main, sources.main.as_slice())?;
    joined_of(alloc, &libraries, &main)
}

/// What the modules in these files make together.
///
/// # Errors
///
/// - `NotDecodedAt` where the bytes of a file spell no module, for the first of them; the main module comes last.
/// - `NotLinked` where the modules aren't linked.
/// - `NotInProfile` or `NotValid` where the joined module is so.
/// - `Memory` where there was no memory.
pub fn joined_typed(
    alloc: Global,
    named: &[NamedFile],
    main: &Text,
    sources: &Sources,
) -> Result<Typed, Refusal>
    requires count { is_library_count (length named.now) ≡ true }
    requires short { AreSourcesShort named.now sources.now }
    ensures { IsSourceTakenJoin named.now main.now sources.now result }
{
    let module = joined_source(alloc, named, main, sources)?;
    accepted(alloc, module)
}
