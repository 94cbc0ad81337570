//! What a pack answers.

ghost use Rattle.std.specs.Prelude.{◌≡◌, Some, option_map};
ghost use Rattle.mc_nbt.specs.Tree.{list};
ghost use Rattle.mc_nbt.specs.View.{list_view, sel};
ghost use Rattle.mc_cmd.specs.Layout.{answer as answer_in_world, dead, result_in, trap};
ghost use Rattle.mc_world.specs.WorldView.{seen};
ghost use Rattle.mc_layout.specs.AnswerView.{answer_view};
ghost use Rattle.mc_layout.specs.State.{int_in, state_in};
ghost use Rattle.mc_layout.specs.steps.Numbers.{answer_from, lacks_items, trap_of};

use crate::values::value_of_items;
use crate::{Answer, LayoutNames, TrapKind};
use mc_nbt::{Nbt, NbtList, Sel};
use mc_world::World;

/// What the pack answers in a world; `None` exactly where that isn't of the layout. It takes no memory.
pub fn answer(world: &World, names: &LayoutNames) -> Option<Answer>
    ensures { option_map answer_view result ≡ answer_in_world names.now.ns (seen world.now) }
{
    let value = world.selected(&names.io, &names.result);
    let trap = world.selected(&names.io, &names.trap);
    answer_of(state(world, names), value, int_of(trap))
}

/// The number of the pack's state in a world: 0 new, 1 running, 2 done, 3 trapped and 4 dead; `None` exactly where no
/// int stands there. It takes no memory.
pub fn state(world: &World, names: &LayoutNames) -> Option<i32>
    ensures { result ≡ state_in names.now.ns (seen world.now) }
{
    int_of(world.selected(&names.io, &names.state))
}

fn int_of(selected: Option<Sel>) -> Option<i32>
    ensures { result ≡ int_in (option_map sel selected.entry) }
{
    match selected? {
        Sel::Int(n) => Some(n),
        Sel::Tree(Nbt::Int(n)) => Some(*n),
        Sel::Tree(_) => None,
    }
}

fn answer_of(state: Option<i32>, value: Option<Sel>, trap: Option<i32>) -> Option<Answer>
    ensures { option_map answer_view result ≡ answer_from state (option_map sel value.entry) trap }
{
    match state? {
        0 => Some(Answer::New),
        1 => Some(Answer::Running),
        2 => done(value),
        3 => trapped(trap),
        4 => died(trap),
        _ => None,
    }
}

fn done(selected: Option<Sel>) -> Option<Answer>
    ensures { option_map answer_view result ≡ result_in (option_map sel selected.entry) }
{
    match selected {
        Some(Sel::Tree(Nbt::List(items))) => done_with(items),
        _ => None,
    }
}

fn done_with(items: &NbtList) -> Option<Answer>
    ensures { option_map answer_view result ≡ result_in (Some (list (list_view items.now))) }
{
    if is_empty(items) {
        return Some(Answer::Done(None));
    }
    let value = value_of_items(items)?;
    Some(Answer::Done(Some(value)))
}

fn is_empty(items: &NbtList) -> bool
    ensures { result ≡ lacks_items (list_view items.now) }
{
    match items {
        NbtList::Ints(ints) => ints.is_empty(),
        NbtList::Trees(trees) => trees.is_empty(),
    }
}

fn trapped(number: Option<i32>) -> Option<Answer>
    ensures { option_map answer_view result ≡ trap_of trap number }
{
    TrapKind::from_number(number?).map(Answer::Trap)
}

fn died(number: Option<i32>) -> Option<Answer>
    ensures { option_map answer_view result ≡ trap_of dead number }
{
    TrapKind::from_number(number?).map(Answer::Dead)
}
