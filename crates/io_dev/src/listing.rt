ghost use Rattle.std.specs.Prelude.{◌≡◌, ◌++◌, ◌∷◌, [], IfOk, IfSome, IfNone, List, ℕ};
ghost use Rattle.std.specs.Ordering.{nat_cmp};
ghost use Rattle.std.specs.Cmp.Lexicographic.{slice_cmp};
ghost use Rattle.mc_nbt.specs.Finite.{as_map};
ghost use Rattle.io_dev.specs.Names.{IsListing, IsRising, Shows};

use mc_nbt::{Bytes, Memory, Text, Texts};
use std::alloc::Global;
use std::collections::{BTreeMap, BTreeSet};

/// The name of a folder in a listing: the name and `/`.
pub fn folder_name(alloc: Global, name: &str) -> Result<Text, Memory>
    ensures { IfOk result (λ text. text ≡ name.now ++ 47 ∷ []) }
{
    let mut text = String::from_str(alloc, name)?;
    text.push('/')?;
    Ok(Text::from(text))
}

/// What follows `dir` and `/` in the path, if anything does.
fn rest_in<'a>(dir: &str, path: &'a str) -> Option<&'a str>
    ensures some { IfSome result (λ rest. path.now ≡ dir.now ++ 47 ∷ rest.now) }
    ensures has_rest { IfSome result (λ rest. ¬ (rest.now ≡ [])) }
    ensures none { IfNone result
        ((rest : List ℕ) → path.now ≡ dir.now ++ 47 ∷ rest → rest ≡ []) }
{
    let rest = path.strip_prefix(dir)?.strip_prefix('/')?;
    if rest.is_empty() { None } else { Some(rest) }
}

/// The name that the path shows in the folder, if it shows one.
fn name_in(alloc: Global, dir: &str, path: &str) -> Result<Option<Text>, Memory>
    ensures some { IfOk result (λ shown. IfSome shown (λ name. Shows dir.now path.now name)) }
    ensures none { IfOk result
        (λ shown. IfNone shown ((name : List ℕ) → ¬ (Shows dir.now path.now name))) }
{
    let Some(rest) = rest_in(dir, path) else {
        return Ok(None);
    };
    match rest.split_once('/') {
        Some((folder, _)) => Ok(Some(folder_name(alloc, folder)?)),
        None => Ok(Some(Text::new(alloc, rest)?)),
    }
}

/// The names that the paths of the files show in the folder.
pub fn names_in(
    alloc: Global,
    files: &BTreeMap<Text, Bytes>,
    dir: &Text,
) -> Result<BTreeSet<Text>, Memory>
    ensures { IfOk result
        (λ names. IsListing (as_map (slice_cmp nat_cmp) files.now) dir.now names.keys) }
{
    let mut names = BTreeSet::new(alloc);
    for path in files.keys() {
        if let Some(name) = name_in(alloc, dir.as_str(), path.as_str())? {
            names.insert(name)?;
        }
    }
    Ok(names)
}

/// The names of a set, in their order.
pub fn texts_of(alloc: Global, names: BTreeSet<Text>) -> Result<Texts, Memory>
    ensures names { IfOk result (λ texts. texts ≡ names.keys) }
    ensures rising { IfOk result IsRising }
{
    let mut texts = Texts::new(alloc);
    for name in names {
        texts.push(name)?;
    }
    Ok(texts)
}
