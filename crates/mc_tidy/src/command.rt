// Whether a command names nothing outside a namespace.
ghost use Rattle.std.specs.Prelude.{◌≡◌, map};
ghost use Rattle.std.specs.List.{list_all};
ghost use Rattle.mc_cmd.specs.Tidy as spec;
ghost use Rattle.mc_cmd.specs.View.{cmd_view, simple_view, sub_view, test_view};

use mc_cmd::{Cmd, CmdKind, Simple, Sub, Test, cut};
use mc_layout::LayoutNames;
use mc_nbt::Text;

fn own_objective(name: &Text, names: &LayoutNames) -> bool
    ensures { result ≡ spec.own_objective names.now.ns name.now }
{
    *name == names.ns
}

fn own_storage(name: &Text, names: &LayoutNames) -> bool
    ensures { result ≡ spec.own_storage names.now.ns name.now }
{
    *name == names.io || *name == names.memory || *name == names.rest
}

fn own_function(name: &Text, names: &LayoutNames) -> bool
    ensures { result ≡ spec.own_function names.now.ns name.now }
{
    match cut(name.as_bytes(), b':') {
        Some((space, _)) => *space == *names.ns.as_bytes(),
        None => false,
    }
}

fn is_tidy_simple(simple: &Simple, names: &LayoutNames) -> bool
    ensures { result ≡ spec.simple_is_tidy names.now.ns (simple_view simple.now) }
{
    match simple {
        Simple::ObjectiveAdd { obj }
        | Simple::ScoreSet { obj, .. }
        | Simple::ScoreAdd { obj, .. }
        | Simple::ScoreRemove { obj, .. }
        | Simple::ScoreGet { obj, .. }
        | Simple::ScoreReset { obj, .. } => own_objective(obj, names),
        Simple::ScoreOp { obj, from_obj, .. } => {
            own_objective(obj, names) && own_objective(from_obj, names)
        }
        Simple::DataGet { id, .. }
        | Simple::SetValue { id, .. }
        | Simple::AppendValue { id, .. }
        | Simple::DataRemove { id, .. } => own_storage(id, names),
        Simple::SetFrom { id, from_id, .. } | Simple::AppendFrom { id, from_id, .. } => {
            own_storage(id, names) && own_storage(from_id, names)
        }
        Simple::Function { name } => own_function(name, names),
        Simple::FunctionWith { name, id, .. } => {
            own_function(name, names) && own_storage(id, names)
        }
        Simple::Return { .. } | Simple::ChainLength => true,
    }
}

fn is_tidy_test(test: &Test, names: &LayoutNames) -> bool
    ensures { result ≡ spec.test_is_tidy names.now.ns (test_view test.now) }
{
    match test {
        Test::Compare { obj, from_obj, .. } => {
            own_objective(obj, names) && own_objective(from_obj, names)
        }
        Test::Matches { obj, .. } => own_objective(obj, names),
        Test::Stored { id, .. } => own_storage(id, names),
    }
}

fn is_tidy_sub(sub: &Sub, names: &LayoutNames) -> bool
    ensures { result ≡ spec.sub_is_tidy names.now.ns (sub_view sub.now) }
{
    match sub {
        Sub::Test { test, .. } => is_tidy_test(test, names),
        Sub::StoreScore { obj, .. } => own_objective(obj, names),
        Sub::StoreData { id, .. } => own_storage(id, names),
    }
}

fn are_tidy_subs(subs: &[Sub], names: &LayoutNames) -> bool
    ensures { result ≡ list_all (spec.sub_is_tidy names.now.ns) (map sub_view subs.now) }
{
    for sub in subs {
        if !is_tidy_sub(sub, names) {
            return false;
        }
    }
    true
}

/// Whether a command names nothing outside the namespace.
pub(crate) fn is_tidy_command(cmd: &Cmd, names: &LayoutNames) -> bool
    ensures { result ≡ spec.cmd_is_tidy names.now.ns (cmd_view cmd.now) }
{
    match cmd.kind() {
        CmdKind::Simple(simple) => is_tidy_simple(simple, names),
        CmdKind::Execute { subs, run } => are_tidy_subs(subs.as_slice(), names)
            && is_tidy_simple(run, names),
    }
}
