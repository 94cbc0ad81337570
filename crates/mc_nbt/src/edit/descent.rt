// The changes of a tree at a path, by value: what stands below a step is taken out, changed and put back.
ghost use Rattle.std.specs.Prelude.{◌≡◌, [], false};
ghost use Rattle.mc_nbt.specs.Tree as spec;
ghost use Rattle.mc_nbt.specs.View.{view, part, parts};
ghost use Rattle.mc_nbt.specs.steps.Edit.{IsEdit, edited, is_short};

use crate::edit::add::add_to;
use crate::edit::leave::leave_out;
use crate::edit::open::{Opened, add_done, close_field, close_item, open_part};
use crate::edit::put::put_last;
use crate::edit::{Edited, refuse};
use crate::tree::{compound, empty_compound, empty_list};
use crate::{Nbt, PathPart};
use std::alloc::Global;

pub(crate) fn set_at(alloc: Global, tree: Nbt, step: &PathPart, rest: &[PathPart], v: Nbt) -> Edited
    ensures { IsEdit (edited result) (view tree) (spec.set_at (part step.now) (parts rest.now) (view v) (view tree)) }
{
    match rest {
        [] => put_last(tree, step, v),
        [next, more @ ..] => match open_part(tree, step) {
            Opened::Leaf(t) => refuse(t, v),
            Opened::Missing(entries) => add_done(
                entries,
                step,
                set_at(alloc, empty_compound(alloc), next, more, v),
            ),
            Opened::Field(entries, i, child) => close_field(
                entries,
                i,
                set_at(alloc, child, next, more, v),
            ),
            Opened::Item(items, i, child) => close_item(
                items,
                i,
                set_at(alloc, child, next, more, v),
            ),
        },
    }
}

pub(crate) fn append_at(
    alloc: Global,
    tree: Nbt,
    step: &PathPart,
    rest: &[PathPart],
    v: Nbt,
) -> Edited
    ensures { IsEdit (edited result) (view tree) (spec.append_at (part step.now) (parts rest.now) (view v) (view tree)) }
{
    match rest {
        [] => append_last(alloc, tree, step, v),
        [next, more @ ..] => match open_part(tree, step) {
            Opened::Leaf(t) => refuse(t, v),
            Opened::Missing(entries) => add_done(
                entries,
                step,
                append_at(alloc, empty_compound(alloc), next, more, v),
            ),
            Opened::Field(entries, i, child) => close_field(
                entries,
                i,
                append_at(alloc, child, next, more, v),
            ),
            Opened::Item(items, i, child) => close_item(
                items,
                i,
                append_at(alloc, child, next, more, v),
            ),
        },
    }
}

fn append_last(alloc: Global, tree: Nbt, step: &PathPart, v: Nbt) -> Edited
    ensures { IsEdit (edited result) (view tree) (spec.append_at (part step.now) [] (view v) (view tree)) }
{
    match open_part(tree, step) {
        Opened::Leaf(t) => refuse(t, v),
        Opened::Missing(entries) => add_done(entries, step, add_to(alloc, empty_list(alloc), v)),
        Opened::Field(entries, i, child) => close_field(entries, i, add_to(alloc, child, v)),
        Opened::Item(items, i, child) => close_item(items, i, add_to(alloc, child, v)),
    }
}

pub(crate) fn remove_at(tree: Nbt, step: &PathPart, rest: &[PathPart]) -> Edited
    ensures edits { IsEdit (edited result) (view tree) (spec.remove_at (part step.now) (parts rest.now) (view tree)) }
    ensures spares { is_short (edited result) ≡ false }
{
    match rest {
        [] => leave_out(tree, step),
        [next, more @ ..] => match open_part(tree, step) {
            Opened::Leaf(t) => Edited::Failed(t),
            Opened::Missing(entries) => Edited::Failed(compound(entries)),
            Opened::Field(entries, i, child) => close_field(
                entries,
                i,
                remove_at(child, next, more),
            ),
            Opened::Item(items, i, child) => close_item(items, i, remove_at(child, next, more)),
        },
    }
}
