// What imports are looked up in, so that each look-up is short: a library's exports by their names, and what its imports
// of functions are bound to.
ghost use Rattle.std.specs.Prelude.{◌≡◌, ◌++◌, IfOk, position, slice_get};
ghost use Rattle.std.specs.Str.{bytes_eq};
ghost use Rattle.wm_ast.specs.declared.module.Space.TheVariants as spaces;
ghost use Rattle.wm_match.specs.Space.{imported_items, items_of, own_items};
ghost use Rattle.wm_match.specs.steps.Directories.{AreNamed, IsDirectory};

use crate::Binding;
use crate::space::{is_in, item_at, own_item};
use mc_nbt::{Memory, Text};
use std::alloc::Global;
use std::collections::BTreeMap;
use wm_ast::{Export, Import, Module, Space};

/// The exports of a module by their names, and what its imports of functions are bound to.
#[derive(Drop)]
pub(crate) struct Directory {
    pub(crate) exports: BTreeMap<Text, usize>,
    pub(crate) functions: Vec<Binding>,
}

/// The directory of a module whose imports are bound to `part`.
pub(crate) fn directory_of(alloc: Global, m: &Module, part: &[Binding]) -> Result<Directory, Memory>
    ensures { IfOk result (λ d. IsDirectory m.now part.now d) }
{
    Ok(Directory {
        exports: exports_by_name(alloc, m.exports.as_slice())?,
        functions: bound_functions(alloc, m.imports.as_slice(), part)?,
    })
}

// From the last export to the first, so that of those of one name the first one stays.
#[tactic(auto, using(crate::proofs::DirectoryLaws::named_steps))]
fn exports_by_name(alloc: Global, exports: &[Export]) -> Result<BTreeMap<Text, usize>, Memory>
    ensures { IfOk result (λ names. AreNamed exports.now names) }
{
    let mut names = BTreeMap::new(alloc);
    for k in 0..exports.len() {
        let at = exports.len() - 1 - k;
        let export = &exports[at];
        names.insert(export.name.clone()?, at)?;
    }
    Ok(names)
}

#[tactic(auto, using(crate::proofs::DirectoryLaws::function_steps))]
fn bound_functions(
    alloc: Global,
    imports: &[Import],
    part: &[Binding],
) -> Result<Vec<Binding>, Memory>
    ensures { IfOk result (λ v. v.items ≡ imported_items spaces.Func imports.now part.now) }
{
    let mut functions = Vec::new(alloc);
    for n in 0..imports.len() {
        if n >= part.len() {
            break;
        }
        if is_in(Space::Func, &imports[n]) {
            functions.push(part[n])?;
        }
    }
    Ok(functions)
}

/// The first of the exports that has this name.
pub(crate) fn export_named(directory: &Directory, exports: &[Export], name: &Text) -> Option<usize>
    requires { AreNamed exports.now directory.now.exports }
    ensures { result ≡ position (λ e. bytes_eq e.name name.now) exports.now }
{
    directory.exports.get(name).copied()
}

/// What an index of module k stands for, where the module's imports are bound to `part`.
pub(crate) fn item_in(
    directory: &Directory,
    m: &Module,
    k: u32,
    part: &[Binding],
    space: Space,
    index: u32,
) -> Option<Binding>
    requires { IsDirectory m.now part.now directory.now }
    ensures { result ≡ slice_get (items_of space k m.now part.now) index }
{
    match space {
        Space::Func => function_among(directory.functions.as_slice(), k, m.funcs.len(), index),
        _ => item_at(m, k, part, space, index),
    }
}

// A function, by what the imports are bound to and how many the module defines.
#[tactic(auto, using(crate::proofs::DirectoryLaws::imported_one, crate::proofs::DirectoryLaws::own_one))]
fn function_among(functions: &[Binding], k: u32, own: usize, index: u32) -> Option<Binding>
    ensures { result ≡ slice_get (functions.now ++ own_items k 0 own) index }
{
    let place = index as usize;
    if place < functions.len() {
        Some(functions[place])
    } else {
        own_item(k, own, (place - functions.len()) as u32)
    }
}
