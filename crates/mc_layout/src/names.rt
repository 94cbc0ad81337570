//! Full names, and short paths.

ghost use Rattle.std.specs.Prelude.{◌≡◌, IfOk, true};
ghost use Rattle.mc_nbt.specs.Path.{is_path};
ghost use Rattle.mc_nbt.specs.View.{parts};
ghost use Rattle.mc_nbt.specs.Word.{is_key};
ghost use Rattle.mc_cmd.specs.Layout as layout;
ghost use Rattle.mc_layout.specs.Paths.{at_first, at_key};

use mc_nbt::{Memory, Path, PathPart, Text};
use std::alloc::Global;

/// The full name of a function or a storage of a namespace.
///
/// # Errors
///
/// `Memory` where there is no room for it.
pub fn full_name(alloc: Global, ns: &Text, name: &str) -> Result<Text, Memory>
    ensures { IfOk result (λ id. id ≡ layout.full_name ns.now name.now) }
{
    Ok(Text::from(format!(in alloc; "{ns}:{name}")?))
}

/// The path to a key.
///
/// # Errors
///
/// `Memory` where there is no room for it.
#[tactic(auto, using(mc_cmd::proofs::NameLemmas::key_path))]
pub fn to_key(alloc: Global, key: &str) -> Result<Path, Memory>
    requires { is_key key.now ≡ true }
    ensures { IfOk result (λ path. parts path ≡ at_key key.now) }
{
    let mut steps = Vec::new(alloc);
    steps.push(PathPart::Key(Text::new(alloc, key)?))?;
    Ok(path_of(steps))
}

/// The path to the first element of the list under a key.
///
/// # Errors
///
/// `Memory` where there is no room for it.
#[tactic(auto, using(mc_cmd::proofs::NameLemmas::key_place_path))]
pub fn to_first(alloc: Global, key: &str) -> Result<Path, Memory>
    requires { is_key key.now ≡ true }
    ensures { IfOk result (λ path. parts path ≡ at_first key.now) }
{
    let mut steps = Vec::new(alloc);
    steps.push(PathPart::Key(Text::new(alloc, key)?))?;
    steps.push(PathPart::Place(0))?;
    Ok(path_of(steps))
}

fn path_of(steps: Vec<PathPart>) -> Path
    requires { is_path (parts steps.items) ≡ true }
    ensures { result ≡ steps.items }
{
    match Path::new(steps) {
        Some(path) => path,
        None => unreachable!(),
    }
}
