//! Values of WebAssembly, as trees tell them.

ghost use Rattle.std.specs.Prelude.{◌≡◌, map};
ghost use Rattle.mc_nbt.specs.Tree.{int, list, list_of};
ghost use Rattle.mc_nbt.specs.View.{list_view, view};
ghost use Rattle.mc_cmd.specs.Layout.{joined_halves, unsigned_half, value_in};

use mc_nbt::{Nbt, NbtList, Value};

/// The value that a tree tells: a list of an i32, or of the low and the high half of an i64. `None` exactly where it
/// tells none.
pub fn value_of(tree: &Nbt) -> Option<Value>
    ensures { result ≡ value_in (view tree.now) }
{
    match tree {
        Nbt::List(items) => value_of_items(items),
        Nbt::Int(_) | Nbt::Str(_) | Nbt::Compound(_) => None,
    }
}

pub(crate) fn value_of_items(items: &NbtList) -> Option<Value>
    ensures { result ≡ value_in (list (list_view items.now)) }
{
    match items {
        NbtList::Ints(ints) => value_of_ints(ints.as_slice()),
        NbtList::Trees(trees) => value_of_trees(trees.as_slice()),
    }
}

fn value_of_ints(ints: &[i32]) -> Option<Value>
    ensures { result ≡ value_in (list_of (map int ints.now)) }
{
    match ints {
        [n] => Some(Value::I32(*n)),
        [low, high] => Some(Value::I64(joined(*low, *high))),
        _ => None,
    }
}

fn value_of_trees(trees: &[Nbt]) -> Option<Value>
    ensures { result ≡ value_in (list_of (map view trees.now)) }
{
    match trees {
        [Nbt::Int(n)] => Some(Value::I32(*n)),
        [Nbt::Int(low), Nbt::Int(high)] => Some(Value::I64(joined(*low, *high))),
        _ => None,
    }
}

// The number of these two halves.
fn joined(low: i32, high: i32) -> i64
    ensures { result ≡ joined_halves low high }
{
    i64::from(high) * 4_294_967_296 + unsigned(low)
}

// The unsigned number of the same 32 bits.
fn unsigned(n: i32) -> i64
    ensures { result ≡ unsigned_half n }
{
    let n = i64::from(n);
    if n < 0 { n + 4_294_967_296 } else { n }
}
