// Commands other than `execute`, one function a form.
ghost use Rattle.std.specs.Prelude.{◌≡◌, IfOk, Option, Some, None, option_map};
ghost use Rattle.mc_nbt.specs.View.{parts};
ghost use Rattle.mc_cmd.specs.Command.{call, chain_length, objective_add, return_value};
ghost use Rattle.mc_cmd.specs.Form.{fixed};
ghost use Rattle.mc_cmd.specs.Grammar as grammar;
ghost use Rattle.mc_cmd.specs.View.{simple_view};

use crate::front::{read_modified, read_score_after};
use crate::path::read_path;
use crate::words::{
    read_function, read_holder, read_id, read_natural, read_objective, read_op, read_value,
};
use mc_cmd::{Simple, cut, read_number, strip_back, strip_front};
use mc_nbt::{Memory, Path, Text};
use std::alloc::Global;

// A holder and an objective, which are all of what is left.
fn read_score(alloc: Global, t: &[u8]) -> Result<Option<(Text, Text)>, Memory>
    ensures { IfOk result (λ o. o ≡ grammar.score.read t.now) }
{
    let Some((w, t)) = cut(t, b' ') else {
        return Ok(None);
    };
    let Some(holder) = read_holder(alloc, w)? else {
        return Ok(None);
    };
    match read_objective(alloc, t)? {
        Some(obj) => Ok(Some((holder, obj))),
        None => Ok(None),
    }
}

// A storage's name and a path, which are all of what is left.
fn read_place(alloc: Global, t: &[u8]) -> Result<Option<(Text, Path)>, Memory>
    ensures { IfOk result (λ o. option_map (λ p. (p.0, parts p.1)) o ≡ grammar.data_place.read t.now) }
{
    let Some((w, t)) = cut(t, b' ') else {
        return Ok(None);
    };
    let Some(id) = read_id(alloc, w)? else {
        return Ok(None);
    };
    match read_path(alloc, t)? {
        Some(path) => Ok(Some((id, path))),
        None => Ok(None),
    }
}

fn read_objective_add(alloc: Global, t: &[u8]) -> Result<Option<Simple>, Memory>
    ensures { IfOk result (λ o. option_map simple_view o ≡ option_map objective_add (grammar.objective_add_form.read t.now)) }
{
    let Some(t) = strip_front(t, b"scoreboard objectives add ") else {
        return Ok(None);
    };
    let Some(t) = strip_back(t, b" dummy") else {
        return Ok(None);
    };
    match read_objective(alloc, t)? {
        Some(obj) => Ok(Some(Simple::ObjectiveAdd { obj })),
        None => Ok(None),
    }
}

fn read_score_set(alloc: Global, t: &[u8]) -> Result<Option<Simple>, Memory>
    ensures { IfOk result (λ o. option_map simple_view o ≡ option_map grammar.score_set_of (grammar.score_set_form.read t.now)) }
{
    let Some(((holder, obj), t)) = read_score_after(alloc, t, b"scoreboard players set ")? else {
        return Ok(None);
    };
    match read_number(alloc, t)? {
        Some(value) => Ok(Some(Simple::ScoreSet { holder, obj, value })),
        None => Ok(None),
    }
}

fn read_score_add(alloc: Global, t: &[u8]) -> Result<Option<Simple>, Memory>
    ensures { IfOk result (λ o. option_map simple_view o ≡ option_map grammar.score_add_of (grammar.score_add_form.read t.now)) }
{
    let Some(((holder, obj), t)) = read_score_after(alloc, t, b"scoreboard players add ")? else {
        return Ok(None);
    };
    match read_natural(alloc, t)? {
        Some(value) => Ok(Some(Simple::ScoreAdd { holder, obj, value })),
        None => Ok(None),
    }
}

fn read_score_remove(alloc: Global, t: &[u8]) -> Result<Option<Simple>, Memory>
    ensures { IfOk result (λ o. option_map simple_view o ≡ option_map grammar.score_remove_of (grammar.score_remove_form.read t.now)) }
{
    let Some(((holder, obj), t)) = read_score_after(alloc, t, b"scoreboard players remove ")? else {
        return Ok(None);
    };
    match read_natural(alloc, t)? {
        Some(value) => Ok(Some(Simple::ScoreRemove { holder, obj, value })),
        None => Ok(None),
    }
}

fn read_score_get(alloc: Global, t: &[u8]) -> Result<Option<Simple>, Memory>
    ensures { IfOk result (λ o. option_map simple_view o ≡ option_map grammar.score_get_of (grammar.score_get_form.read t.now)) }
{
    let Some(t) = strip_front(t, b"scoreboard players get ") else {
        return Ok(None);
    };
    match read_score(alloc, t)? {
        Some((holder, obj)) => Ok(Some(Simple::ScoreGet { holder, obj })),
        None => Ok(None),
    }
}

fn read_score_op(alloc: Global, t: &[u8]) -> Result<Option<Simple>, Memory>
    ensures { IfOk result (λ o. option_map simple_view o ≡ option_map grammar.score_op_of (grammar.score_op_form.read t.now)) }
{
    let Some(((holder, obj), t)) = read_score_after(alloc, t, b"scoreboard players operation ")?
    else {
        return Ok(None);
    };
    let Some((w, t)) = cut(t, b' ') else {
        return Ok(None);
    };
    let Some(op) = read_op(w) else {
        return Ok(None);
    };
    match read_score(alloc, t)? {
        Some((from_holder, from_obj)) => Ok(Some(Simple::ScoreOp {
            holder,
            obj,
            op,
            from_holder,
            from_obj,
        })),
        None => Ok(None),
    }
}

fn read_score_reset(alloc: Global, t: &[u8]) -> Result<Option<Simple>, Memory>
    ensures { IfOk result (λ o. option_map simple_view o ≡ option_map grammar.score_reset_of (grammar.score_reset_form.read t.now)) }
{
    let Some(t) = strip_front(t, b"scoreboard players reset ") else {
        return Ok(None);
    };
    match read_score(alloc, t)? {
        Some((holder, obj)) => Ok(Some(Simple::ScoreReset { holder, obj })),
        None => Ok(None),
    }
}

fn read_data_get(alloc: Global, t: &[u8]) -> Result<Option<Simple>, Memory>
    ensures { IfOk result (λ o. option_map simple_view o ≡ option_map grammar.data_get_of (grammar.data_get_form.read t.now)) }
{
    let Some(t) = strip_front(t, b"data get storage ") else {
        return Ok(None);
    };
    match read_place(alloc, t)? {
        Some((id, path)) => Ok(Some(Simple::DataGet { id, path })),
        None => Ok(None),
    }
}

fn read_set_value(alloc: Global, t: &[u8]) -> Result<Option<Simple>, Memory>
    ensures { IfOk result (λ o. option_map simple_view o ≡ option_map grammar.set_value_of (grammar.set_value_form.read t.now)) }
{
    let Some(((id, path), t)) = read_modified(alloc, t, b"set value ")? else {
        return Ok(None);
    };
    match read_value(alloc, t)? {
        Some(value) => Ok(Some(Simple::SetValue { id, path, value })),
        None => Ok(None),
    }
}

fn read_set_from(alloc: Global, t: &[u8]) -> Result<Option<Simple>, Memory>
    ensures { IfOk result (λ o. option_map simple_view o ≡ option_map grammar.set_from_of (grammar.set_from_form.read t.now)) }
{
    let Some(((id, path), t)) = read_modified(alloc, t, b"set from storage ")? else {
        return Ok(None);
    };
    match read_place(alloc, t)? {
        Some((from_id, from_path)) => Ok(Some(Simple::SetFrom {
            id,
            path,
            from_id,
            from_path,
        })),
        None => Ok(None),
    }
}

fn read_append_value(alloc: Global, t: &[u8]) -> Result<Option<Simple>, Memory>
    ensures { IfOk result (λ o. option_map simple_view o ≡ option_map grammar.append_value_of (grammar.append_value_form.read t.now)) }
{
    let Some(((id, path), t)) = read_modified(alloc, t, b"append value ")? else {
        return Ok(None);
    };
    match read_value(alloc, t)? {
        Some(value) => Ok(Some(Simple::AppendValue { id, path, value })),
        None => Ok(None),
    }
}

fn read_append_from(alloc: Global, t: &[u8]) -> Result<Option<Simple>, Memory>
    ensures { IfOk result (λ o. option_map simple_view o ≡ option_map grammar.append_from_of (grammar.append_from_form.read t.now)) }
{
    let Some(((id, path), t)) = read_modified(alloc, t, b"append from storage ")? else {
        return Ok(None);
    };
    match read_place(alloc, t)? {
        Some((from_id, from_path)) => Ok(Some(Simple::AppendFrom {
            id,
            path,
            from_id,
            from_path,
        })),
        None => Ok(None),
    }
}

fn read_data_remove(alloc: Global, t: &[u8]) -> Result<Option<Simple>, Memory>
    ensures { IfOk result (λ o. option_map simple_view o ≡ option_map grammar.data_remove_of (grammar.data_remove_form.read t.now)) }
{
    let Some(t) = strip_front(t, b"data remove storage ") else {
        return Ok(None);
    };
    match read_place(alloc, t)? {
        Some((id, path)) => Ok(Some(Simple::DataRemove { id, path })),
        None => Ok(None),
    }
}

fn read_call(alloc: Global, t: &[u8]) -> Result<Option<Simple>, Memory>
    ensures { IfOk result (λ o. option_map simple_view o ≡ option_map call (grammar.call_form.read t.now)) }
{
    let Some(t) = strip_front(t, b"function ") else {
        return Ok(None);
    };
    match read_function(alloc, t)? {
        Some(name) => Ok(Some(Simple::Function { name })),
        None => Ok(None),
    }
}

fn read_call_with(alloc: Global, t: &[u8]) -> Result<Option<Simple>, Memory>
    ensures { IfOk result (λ o. option_map simple_view o ≡ option_map grammar.call_with_of (grammar.call_with_form.read t.now)) }
{
    let Some(t) = strip_front(t, b"function ") else {
        return Ok(None);
    };
    let Some((w, t)) = cut(t, b' ') else {
        return Ok(None);
    };
    let Some(name) = read_function(alloc, w)? else {
        return Ok(None);
    };
    let Some(t) = strip_front(t, b"with storage ") else {
        return Ok(None);
    };
    match read_place(alloc, t)? {
        Some((id, path)) => Ok(Some(Simple::FunctionWith { name, id, path })),
        None => Ok(None),
    }
}

fn read_return_value(alloc: Global, t: &[u8]) -> Result<Option<Simple>, Memory>
    ensures { IfOk result (λ o. option_map simple_view o ≡ option_map return_value (grammar.return_value_form.read t.now)) }
{
    let Some(t) = strip_front(t, b"return ") else {
        return Ok(None);
    };
    match read_number(alloc, t)? {
        Some(value) => Ok(Some(Simple::Return { value })),
        None => Ok(None),
    }
}

fn read_chain_length(t: &[u8]) -> Option<Simple>
    ensures { option_map simple_view result ≡ fixed grammar.chain_length_text chain_length t.now }
{
    match strip_front(t, b"gamerule maxCommandChainLength") {
        Some([]) => Some(Simple::ChainLength),
        _ => None,
    }
}

pub(crate) fn read_simple(alloc: Global, t: &[u8]) -> Result<Option<Simple>, Memory>
    ensures { IfOk result (λ o. option_map simple_view o ≡ grammar.simple_read t.now) }
{
    if let Some(simple) = read_objective_add(alloc, t)? {
        return Ok(Some(simple));
    }
    if let Some(simple) = read_score_set(alloc, t)? {
        return Ok(Some(simple));
    }
    if let Some(simple) = read_score_add(alloc, t)? {
        return Ok(Some(simple));
    }
    if let Some(simple) = read_score_remove(alloc, t)? {
        return Ok(Some(simple));
    }
    if let Some(simple) = read_score_get(alloc, t)? {
        return Ok(Some(simple));
    }
    if let Some(simple) = read_score_op(alloc, t)? {
        return Ok(Some(simple));
    }
    if let Some(simple) = read_score_reset(alloc, t)? {
        return Ok(Some(simple));
    }
    if let Some(simple) = read_data_get(alloc, t)? {
        return Ok(Some(simple));
    }
    if let Some(simple) = read_set_value(alloc, t)? {
        return Ok(Some(simple));
    }
    if let Some(simple) = read_set_from(alloc, t)? {
        return Ok(Some(simple));
    }
    if let Some(simple) = read_append_value(alloc, t)? {
        return Ok(Some(simple));
    }
    if let Some(simple) = read_append_from(alloc, t)? {
        return Ok(Some(simple));
    }
    if let Some(simple) = read_data_remove(alloc, t)? {
        return Ok(Some(simple));
    }
    if let Some(simple) = read_call(alloc, t)? {
        return Ok(Some(simple));
    }
    if let Some(simple) = read_call_with(alloc, t)? {
        return Ok(Some(simple));
    }
    if let Some(simple) = read_return_value(alloc, t)? {
        return Ok(Some(simple));
    }
    match read_chain_length(t) {
        Some(simple) => Ok(Some(simple)),
        None => Ok(None),
    }
}
