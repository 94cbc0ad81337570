//! The names in commands of somebody else.

ghost use Rattle.std.specs.Prelude.{◌≡◌, find, option_map};
ghost use Rattle.mc_cmd.specs.Foreign as spec;
ghost use Rattle.mc_cmd.specs.View.{cmd_view, simple_view};
ghost use Rattle.mc_tick.specs.Naming.{listed, names_listed};

use mc_cmd::{Cmd, Simple};
use mc_layout::LayoutNames;
use mc_nbt::Text;
use mc_world::run_of;

/// The first name in a command that is the pack's own.
pub(crate) fn first_own<'a>(cmd: &'a Cmd, names: &LayoutNames) -> Option<&'a Text>
    ensures { option_map (λ name. name.now) result ≡ spec.first_own names.now.ns (cmd_view cmd.now) }
{
    let (first, second) = names_of(run_of(cmd));
    own(first, names).or(own(second, names))
}

// The name, if it is the pack's own.
fn own<'a>(name: Option<&'a Text>, names: &LayoutNames) -> Option<&'a Text>
    ensures { option_map (λ n. n.now) result
        ≡ find (spec.is_own names.now.ns) (listed (option_map (λ n. n.now) name.entry)) }
{
    let name = name?;
    if is_own(name, names) {
        Some(name)
    } else {
        None
    }
}

/// The names in a command, from left to right: its objectives or its storages, of which there are at most two.
pub fn names_of(simple: &Simple) -> (Option<&Text>, Option<&Text>)
    ensures { names_listed (option_map (λ name. name.now) result.0) (option_map (λ name. name.now) result.1)
        ≡ spec.simple_names (simple_view simple.now) }
{
    match simple {
        Simple::ObjectiveAdd { obj }
        | Simple::ScoreSet { obj, .. }
        | Simple::ScoreAdd { obj, .. }
        | Simple::ScoreRemove { obj, .. }
        | Simple::ScoreGet { obj, .. }
        | Simple::ScoreReset { obj, .. } => (Some(obj), None),
        Simple::ScoreOp { obj, from_obj, .. } => (Some(obj), Some(from_obj)),
        Simple::DataGet { id, .. }
        | Simple::SetValue { id, .. }
        | Simple::AppendValue { id, .. }
        | Simple::DataRemove { id, .. }
        | Simple::FunctionWith { id, .. } => (Some(id), None),
        Simple::SetFrom { id, from_id, .. } | Simple::AppendFrom { id, from_id, .. } => {
            (Some(id), Some(from_id))
        }
        Simple::Function { .. } | Simple::Return { .. } | Simple::ChainLength => (None, None),
    }
}

/// Whether a name is the pack's own: its objective, or one of its three storages.
pub fn is_own(name: &Text, names: &LayoutNames) -> bool
    ensures { result ≡ spec.is_own names.now.ns name.now }
{
    *name == names.ns || *name == names.io || *name == names.memory || *name == names.rest
}
