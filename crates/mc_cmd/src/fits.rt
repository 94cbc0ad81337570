// Which commands are of the grammar.
ghost use Rattle.std.specs.Prelude.{◌≡◌, ◌&&◌, map, true};
ghost use Rattle.mc_nbt.specs.Path as paths;
ghost use Rattle.mc_nbt.specs.View.{parts};
ghost use Rattle.mc_cmd.specs.Grammar.{any_stores, cmd_fits, data_place, may_run, score, simple_fits, sub_fits, subs_fit, test_fits};
ghost use Rattle.mc_cmd.specs.Grammar as grammar;
ghost use Rattle.mc_cmd.specs.View.{cmd_view, range_view, simple_view, sub_view, test_view};
ghost use Rattle.mc_cmd.specs.Word.{range_fits};
ghost use Rattle.mc_cmd.specs.Word as word;

use crate::word::{is_function, is_holder, is_id, is_number, is_objective};
use crate::{CmdKind, Range, Simple, Sub, Test};
use mc_nbt::{Path, Text, is_tree};

pub(crate) fn is_command(kind: &CmdKind) -> bool
    ensures { result ≡ cmd_fits (cmd_view kind.now) }
{
    match kind {
        CmdKind::Simple(simple) => is_simple(simple),
        CmdKind::Execute { subs, run } => {
            may_run(subs.as_slice(), run) && are_subs(subs.as_slice()) && is_simple(run)
        }
    }
}

fn is_simple(simple: &Simple) -> bool
    ensures { result ≡ simple_fits (simple_view simple.now) }
{
    match simple {
        Simple::ObjectiveAdd { obj } => is_objective(obj.as_bytes()),
        Simple::ScoreSet { holder, obj, value } => is_score(holder, obj) && is_number(*value),
        Simple::ScoreAdd { holder, obj, value } => is_score(holder, obj) && is_natural(*value),
        Simple::ScoreRemove { holder, obj, value } => {
            is_score(holder, obj) && is_natural(*value)
        }
        Simple::ScoreGet { holder, obj } => is_score(holder, obj),
        Simple::ScoreOp {
            holder,
            obj,
            from_holder,
            from_obj,
            ..
        } => is_score(holder, obj) && is_score(from_holder, from_obj),
        Simple::ScoreReset { holder, obj } => is_score(holder, obj),
        Simple::DataGet { id, path } => is_place(id, path),
        Simple::SetValue { id, path, value } => is_place(id, path) && is_tree(value),
        Simple::SetFrom {
            id,
            path,
            from_id,
            from_path,
        } => is_place(id, path) && is_place(from_id, from_path),
        Simple::AppendValue { id, path, value } => is_place(id, path) && is_tree(value),
        Simple::AppendFrom {
            id,
            path,
            from_id,
            from_path,
        } => is_place(id, path) && is_place(from_id, from_path),
        Simple::DataRemove { id, path } => is_place(id, path),
        Simple::Function { name } => is_function(name.as_bytes()),
        Simple::FunctionWith { name, id, path } => {
            is_function(name.as_bytes()) && is_place(id, path)
        }
        Simple::Return { value } => is_number(*value),
        Simple::ChainLength => true,
    }
}

fn is_score(holder: &Text, obj: &Text) -> bool
    ensures { result ≡ score.fits (holder.now, obj.now) }
{
    is_holder(holder.as_bytes()) && is_objective(obj.as_bytes())
}

fn is_place(id: &Text, path: &Path) -> bool
    ensures { result ≡ data_place.fits (id.now, parts path.now) }
{
    is_id(id.as_bytes()) && is_path(path)
}

// Every `Path` is one: its steps tell so.
fn is_path(path: &Path) -> bool
    ensures { result ≡ paths.is_path (parts path.now) }
{
    let _steps = path.parts();
    true
}

fn is_natural(number: i32) -> bool
    ensures { result ≡ word.is_natural number }
{
    number >= 0
}

fn is_range(range: Range) -> bool
    ensures { result ≡ range_fits (range_view range) }
{
    match range {
        Range::One(n) => is_number(n),
        Range::From(n) => is_number(n),
        Range::To(n) => is_number(n),
        Range::Both(n, m) => is_number(n) && is_number(m) && is_at_most(n, m),
    }
}

fn is_at_most(n: i32, m: i32) -> bool
    ensures { result ≡ word.is_at_most n m }
{
    n <= m
}

fn is_test(test: &Test) -> bool
    ensures { result ≡ test_fits (test_view test.now) }
{
    match test {
        Test::Compare {
            holder,
            obj,
            from_holder,
            from_obj,
            ..
        } => is_score(holder, obj) && is_score(from_holder, from_obj),
        Test::Matches { holder, obj, range } => is_score(holder, obj) && is_range(*range),
        Test::Stored { id, path } => is_place(id, path),
    }
}

fn is_sub(sub: &Sub) -> bool
    ensures { result ≡ sub_fits (sub_view sub.now) }
{
    match sub {
        Sub::Test { unless: true, test } => is_test(test),
        Sub::Test {
            unless: false,
            test,
        } => is_test(test),
        Sub::StoreScore { holder, obj } => is_score(holder, obj),
        Sub::StoreData { id, path } => is_place(id, path),
    }
}

fn are_subs(subs: &[Sub]) -> bool
    ensures { result ≡ subs_fit (map sub_view subs.now) }
{
    for sub in subs {
        if !is_sub(sub) {
            return false;
        }
    }
    true
}

// Whether the command may stand behind the sub-commands: there is one, and a store asks for a result.
fn may_run(subs: &[Sub], run: &Simple) -> bool
    ensures { result ≡ grammar.may_run (map sub_view subs.now) (simple_view run.now) }
{
    !subs.is_empty() && (has_result(run) || !any_stores(subs))
}

fn any_stores(subs: &[Sub]) -> bool
    ensures { result ≡ grammar.any_stores (map sub_view subs.now) }
{
    for sub in subs {
        if stores(sub) {
            return true;
        }
    }
    false
}

fn stores(sub: &Sub) -> bool
    ensures { result ≡ grammar.stores (sub_view sub.now) }
{
    match sub {
        Sub::Test { unless: true, .. } => false,
        Sub::Test { unless: false, .. } => false,
        Sub::StoreScore { .. } => true,
        Sub::StoreData { .. } => true,
    }
}

fn has_result(run: &Simple) -> bool
    ensures { result ≡ grammar.has_result (simple_view run.now) }
{
    match run {
        Simple::ScoreGet { .. } => true,
        Simple::DataGet { .. } => true,
        Simple::ChainLength => true,
        _ => false,
    }
}
