// The one spelling of each tree.
ghost use Rattle.std.specs.Prelude.{◌≡◌, ◌++◌, ◌∷◌, [], IfOk, OnOk, string_bytes, map, if◌then◌else◌};
ghost use Rattle.std.specs.Fmt.{signed_decimal};
ghost use Rattle.mc_nbt.specs.Tree as spec;
ghost use Rattle.mc_nbt.specs.Spelling.{tree_text, first_item_text, first_field_text};
ghost use Rattle.mc_nbt.specs.View.{view, entry, list_view, map_view};

use crate::{Memory, Nbt, NbtList, NbtMap, Text};
use std::alloc::Global;
use std::fmt::Write;

/// The spelling of the tree, with no space outside its strings.
///
/// # Errors
///
/// `Memory` where there is no room for the text.
pub fn print(alloc: Global, tree: &Nbt) -> Result<Text, Memory>
    ensures { IfOk result (λ t. t ≡ tree_text (view tree.now)) }
{
    let mut out = String::new(alloc);
    print_tree(tree, &mut out)?;
    Ok(Text::from(out))
}

#[cycle(printing)]
fn print_tree(tree: &Nbt, out: &mut String) -> Result<(), Memory>
    ensures { OnOk result (string_bytes out.new ≡ string_bytes out.old ++ tree_text (view tree.now)) }
{
    match tree {
        Nbt::Int(z) => print_int(*z, out),
        Nbt::Str(s) => print_string(s, out),
        Nbt::List(list) => print_list(list, out),
        Nbt::Compound(map) => print_map(map, out),
    }
}

fn print_int(z: i32, out: &mut String) -> Result<(), Memory>
    ensures { OnOk result (string_bytes out.new ≡ string_bytes out.old ++ signed_decimal z) }
{
    write!(out, "{z}")?;
    Ok(())
}

fn print_string(s: &Text, out: &mut String) -> Result<(), Memory>
    ensures { OnOk result (string_bytes out.new ≡ string_bytes out.old ++ (34 ∷ (s.now ++ (34 ∷ [])))) }
{
    out.push('"')?;
    out.push_str(s.as_str())?;
    out.push('"')?;
    Ok(())
}

// The comma before each part of a list or a compound but the first.
fn print_comma(begun: bool, out: &mut String) -> Result<(), Memory>
    ensures { OnOk result (string_bytes out.new ≡ string_bytes out.old ++ (if begun then 44 ∷ [] else [])) }
{
    if begun {
        out.push(',')?;
    }
    Ok(())
}

#[cycle(printing)]
fn print_list(list: &NbtList, out: &mut String) -> Result<(), Memory>
    ensures { OnOk result (string_bytes out.new ≡ string_bytes out.old ++ (91 ∷ first_item_text (list_view list.now))) }
{
    out.push('[')?;
    match list {
        NbtList::Ints(ints) => print_ints(ints.as_slice(), out),
        NbtList::Trees(trees) => print_trees(trees.as_slice(), out),
    }
}

fn print_ints(ints: &[i32], out: &mut String) -> Result<(), Memory>
    ensures { OnOk result (string_bytes out.new ≡ string_bytes out.old ++ first_item_text (spec.items (map spec.int ints.now))) }
{
    let mut begun = false;
    for z in ints {
        print_comma(begun, out)?;
        print_int(*z, out)?;
        begun = true;
    }
    out.push(']')?;
    Ok(())
}

#[cycle(printing)]
fn print_trees(trees: &[Nbt], out: &mut String) -> Result<(), Memory>
    ensures { OnOk result (string_bytes out.new ≡ string_bytes out.old ++ first_item_text (spec.items (map view trees.now))) }
{
    let mut begun = false;
    for tree in trees {
        print_comma(begun, out)?;
        print_tree(tree, out)?;
        begun = true;
    }
    out.push(']')?;
    Ok(())
}

#[cycle(printing)]
fn print_map(map: &NbtMap, out: &mut String) -> Result<(), Memory>
    ensures { OnOk result (string_bytes out.new ≡ string_bytes out.old ++ (123 ∷ first_field_text (map_view map.now))) }
{
    out.push('{')?;
    print_entries(map.entries(), out)
}

#[cycle(printing)]
fn print_entries(entries: &[(Text, Nbt)], out: &mut String) -> Result<(), Memory>
    ensures { OnOk result (string_bytes out.new ≡ string_bytes out.old ++ first_field_text (spec.fields (map entry entries.now))) }
{
    let mut begun = false;
    for entry in entries {
        print_comma(begun, out)?;
        out.push_str(entry.0.as_str())?;
        out.push(':')?;
        print_tree(&entry.1, out)?;
        begun = true;
    }
    out.push('}')?;
    Ok(())
}
