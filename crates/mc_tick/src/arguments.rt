//! The arguments of a call: their kinds, and how they are put into the storage.

ghost use Rattle.std.specs.Prelude.{◌≡◌, ◌↔◌, ◌∷◌, ◌++◌, [], IfOk, IsTrue, OnOk, codes, map, true};
ghost use Rattle.std.specs.List.{list_all};
ghost use Rattle.mc_nbt.specs.Tree.{int, list_of};
ghost use Rattle.mc_nbt.specs.Value.{is_value, kind_of};
ghost use Rattle.mc_nbt.specs.Word.{is_int};
ghost use Rattle.mc_cmd.specs.Command.{plain, set_value};
ghost use Rattle.mc_cmd.specs.Layout.{io_of};
ghost use Rattle.mc_cmd.specs.Pack as pack;
ghost use Rattle.mc_cmd.specs.View.{cmd_view};
ghost use Rattle.mc_layout.specs.Paths.{at_key};

use mc_cmd::{Cmd, CmdKind, Simple, high_half, low_half};
use mc_layout::{LayoutNames, to_key};
use mc_nbt::{Kind, Memory, Nbt, NbtList, Value};
use std::alloc::Global;

/// Whether the arguments are of these kinds.
pub fn are_of_kinds(args: &[Value], kinds: &[Kind]) -> bool
    ensures { IsTrue result ↔ (map kind_of args.now ≡ kinds.now) }
{
    match (args, kinds) {
        ([], []) => true,
        ([arg, args @ ..], [kind, kinds @ ..]) => {
            arg.kind() == *kind && are_of_kinds(args, kinds)
        }
        _ => false,
    }
}

/// The ints of the arguments: an i32 is one, an i64 its low and its high half.
///
/// # Errors
///
/// `Memory` where there is no room for them.
#[tactic(auto, using(crate::proofs::ArgumentLemmas::ints_of_more))]
pub fn ints_of(alloc: Global, args: &[Value]) -> Result<Vec<i32>, Memory>
    ensures ints { IfOk result (λ v. map int v.items ≡ pack.ints_of args.now) }
    ensures fit { IfOk result (λ v. list_all is_int v.items ≡ true) }
    ensures values { OnOk result (list_all is_value args.now ≡ true) }
{
    let mut ints = Vec::new(alloc);
    for arg in args {
        push_ints(&mut ints, *arg)?;
    }
    Ok(ints)
}

fn push_ints(ints: &mut Vec<i32>, arg: Value) -> Result<(), Memory>
    ensures ints { OnOk result (map int ints.new.items ≡ map int ints.old.items ++ pack.ints_of (arg ∷ [])) }
    ensures fit { OnOk result (list_all is_int ints.new.items ≡ list_all is_int ints.old.items) }
    ensures value { OnOk result (is_value arg ≡ true) }
{
    match arg {
        Value::I32(n) => ints.push(n)?,
        Value::I64(n) => {
            ints.push(low_half(n))?;
            ints.push(high_half(n))?;
        }
    }
    Ok(())
}

/// The command that puts these ints into the storage as the arguments of a call.
///
/// # Errors
///
/// `Memory` where there is no room for it.
#[tactic(auto, unfolding(mc_nbt::specs::Word::is_key))]
pub fn set_args(alloc: Global, names: &LayoutNames, ints: Vec<i32>) -> Result<Cmd, Memory>
    requires { list_all is_int ints.items ≡ true }
    ensures { IfOk result (λ c. cmd_view c
        ≡ plain (set_value (io_of names.now.ns) (at_key (codes "args")) (list_of (map int ints.items)))) }
{
    let command = Simple::SetValue {
        id: names.io.clone()?,
        path: to_key(alloc, "args")?,
        value: Nbt::List(NbtList::Ints(ints)),
    };
    match Cmd::new(CmdKind::Simple(command)) {
        Some(cmd) => Ok(cmd),
        None => unreachable!(),
    }
}
