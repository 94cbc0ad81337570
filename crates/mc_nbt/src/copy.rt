// `clone`, written out, since a derived one says nothing of a type that holds itself.
ghost use Rattle.std.specs.Prelude.{◌≡◌, IfOk, map};
ghost use Rattle.mc_nbt.specs.View.{view, entry, list_view};

use crate::tree::compound;
use crate::{Nbt, NbtList, Text};
use std::alloc::AllocError;

impl Clone for Nbt {
    ghost is_clone = { λ t u. view u ≡ view t };

    fn clone(&self) -> Result<Nbt, AllocError> {
        copy(self)
    }
}

#[cycle(copy)]
fn copy(tree: &Nbt) -> Result<Nbt, AllocError>
    ensures { IfOk result (λ t. view t ≡ view tree.now) }
{
    match tree {
        Nbt::Int(z) => Ok(Nbt::Int(*z)),
        Nbt::Str(s) => Ok(Nbt::Str(s.clone()?)),
        Nbt::List(list) => Ok(Nbt::List(copy_list(list)?)),
        Nbt::Compound(map) => Ok(compound(copy_entries(&map.entries)?)),
    }
}

#[cycle(copy)]
fn copy_list(list: &NbtList) -> Result<NbtList, AllocError>
    ensures { IfOk result (λ l. list_view l ≡ list_view list.now) }
{
    match list {
        NbtList::Ints(items) => Ok(NbtList::Ints(Vec::from_slice(
            *items.allocator(),
            items.as_slice(),
        )?)),
        NbtList::Trees(items) => Ok(NbtList::Trees(copy_items(items)?)),
    }
}

#[cycle(copy)]
fn copy_items(items: &Vec<Nbt>) -> Result<Vec<Nbt>, AllocError>
    ensures { IfOk result (λ v. map view v.items ≡ map view items.now.items) }
{
    let mut copies = Vec::with_capacity(*items.allocator(), items.len())?;
    for item in items {
        copies.push(copy(item)?)?;
    }
    Ok(copies)
}

#[cycle(copy)]
fn copy_entries(entries: &Vec<(Text, Nbt)>) -> Result<Vec<(Text, Nbt)>, AllocError>
    ensures { IfOk result (λ v. map entry v.items ≡ map entry entries.now.items) }
{
    let mut copies = Vec::with_capacity(*entries.allocator(), entries.len())?;
    for field in entries {
        copies.push((field.0.clone()?, copy(&field.1)?))?;
    }
    Ok(copies)
}
