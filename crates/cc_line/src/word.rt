// The words of lines: scores, places of storages, functions, and paths.
ghost use Rattle.std.specs.Prelude.{◌≡◌, ◌++◌, ◌∷◌, [], IfOk, OnOk};
ghost use Rattle.std.specs.Fmt.{decimal};
ghost use Rattle.mc_nbt.specs.View.{part, parts};
ghost use Rattle.mc_cmd.specs.Layout.{full_name};
ghost use Rattle.cc_line.specs.Place as names;
ghost use Rattle.cc_line.specs.Sight.{store_id};
ghost use Rattle.cc_line.specs.State as state;
ghost use Rattle.cc_line.specs.View.{below_view, name_text, part_view, site_view, spot_view, store_view};
ghost use Rattle.cc_line.specs.View as spec;

use crate::{Below, Key, Name, Part, Site, Spot, Store};
use mc_nbt::{Memory, Path, PathPart, Text};
use std::alloc::Global;

// A score as commands name it: its holder, and the objective.
#[derive(Drop)]
pub(crate) struct Score {
    pub(crate) holder: Text,
    pub(crate) obj: Text,
}

pub(crate) fn score_of(alloc: Global, spot: Spot, ns: &Text) -> Result<Score, Memory>
    ensures holder { IfOk result (λ s. s.holder ≡ names.spot_name (spot_view spot)) }
    ensures objective { IfOk result (λ s. s.obj ≡ ns.now) }
{
    Ok(Score {
        holder: spot_name(alloc, spot)?,
        obj: ns.clone()?,
    })
}

fn spot_name(alloc: Global, spot: Spot) -> Result<Text, Memory>
    ensures { IfOk result (λ t. t ≡ names.spot_name (spot_view spot)) }
{
    Ok(Text::from(format!(in alloc; "{spot}")?))
}

// What stands at a path, as commands name it: the storage, and the path in it.
#[derive(Drop)]
pub(crate) struct Stored {
    pub(crate) id: Text,
    pub(crate) path: Path,
}

pub(crate) fn stored_at(alloc: Global, site: Site, ns: &Text) -> Result<Stored, Memory>
    ensures storage { IfOk result (λ s. s.id ≡ store_id ns.now (site_view site).store) }
    ensures path { IfOk result (λ s. parts s.path ≡ state.site_path (site_view site)) }
{
    Ok(Stored {
        id: store_name(alloc, site.store, ns)?,
        path: site_path(alloc, site)?,
    })
}

fn store_name(alloc: Global, store: Store, ns: &Text) -> Result<Text, Memory>
    ensures { IfOk result (λ t. t ≡ store_id ns.now (store_view store)) }
{
    Ok(Text::from(format!(in alloc; "{ns}:{store}")?))
}

pub(crate) fn function_name(alloc: Global, name: Name, ns: &Text) -> Result<Text, Memory>
    ensures { IfOk result (λ t. t ≡ full_name ns.now (name_text name)) }
{
    Ok(Text::from(format!(in alloc; "{ns}:{name}")?))
}

// The name of a helper without its namespace.
pub(crate) fn helper_name(alloc: Global, name: Name) -> Result<Text, Memory>
    ensures { IfOk result (λ t. t ≡ name_text name) }
{
    Ok(Text::from(format!(in alloc; "{name}")?))
}

pub(crate) fn key_text(alloc: Global, key: Key) -> Result<Text, Memory>
    ensures { IfOk result (λ t. t ≡ spec.key_text key) }
{
    Text::new(alloc, key.text())
}

fn number_text(alloc: Global, number: u32) -> Result<Text, Memory>
    ensures { IfOk result (λ t. t ≡ decimal number) }
{
    Ok(Text::from(format!(in alloc; "{number}")?))
}

fn site_path(alloc: Global, site: Site) -> Result<Path, Memory>
    ensures { IfOk result (λ p. parts p ≡ state.site_path (site_view site)) }
{
    let mut steps = Vec::new(alloc);
    push_part(alloc, Part::Key(site.key), &mut steps)?;
    push_below(alloc, site.below, &mut steps)?;
    path_of(steps)
}

fn push_below(alloc: Global, below: Below, steps: &mut Vec<PathPart>) -> Result<(), Memory>
    ensures { OnOk result (parts steps.new.items ≡ parts steps.old.items ++ below_view below) }
{
    match below {
        Below::Nothing => Ok(()),
        Below::One(first) => push_part(alloc, first, steps),
        Below::Two(first, second) => {
            push_part(alloc, first, steps)?;
            push_part(alloc, second, steps)
        }
        Below::Three(first, second, third) => {
            push_part(alloc, first, steps)?;
            push_part(alloc, second, steps)?;
            push_part(alloc, third, steps)
        }
    }
}

fn push_part(alloc: Global, step: Part, steps: &mut Vec<PathPart>) -> Result<(), Memory>
    ensures { OnOk result (parts steps.new.items ≡ parts steps.old.items ++ (part_view step ∷ [])) }
{
    steps.push(step_of(alloc, step)?)?;
    Ok(())
}

fn step_of(alloc: Global, step: Part) -> Result<PathPart, Memory>
    ensures { IfOk result (λ p. part p ≡ part_view step) }
{
    match step {
        Part::Key(key) => Ok(PathPart::Key(key_text(alloc, key)?)),
        Part::Number(number) => Ok(PathPart::Key(number_text(alloc, number)?)),
        Part::Place(at) => Ok(PathPart::Place(at)),
    }
}

fn path_of(steps: Vec<PathPart>) -> Result<Path, Memory>
    ensures { IfOk result (λ p. p ≡ steps.items) }
{
    match Path::new(steps) {
        Some(path) => Ok(path),
        None => Err(Memory),
    }
}
