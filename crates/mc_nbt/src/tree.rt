ghost use Rattle.std.specs.Prelude.{◌≡◌, map, option_map};
ghost use Rattle.mc_nbt.specs.Tree as spec;
ghost use Rattle.mc_nbt.specs.View.{view, entry, map_view};

use crate::Text;
use std::alloc::Global;

/// A tree of a command storage (NBT): an int, a string, a list or a compound.
///
/// Contracts see it as the tree that `view` gives. Which trees may stand in a storage is told by `IsTree`; the
/// type itself keeps none of that.
#[derive(Drop)]
#[cycle(nbt)]
pub enum Nbt {
    Int(i32),
    Str(Text),
    List(NbtList),
    Compound(NbtMap),
}

/// The elements of a list. A list of ints may be kept either way, and is the same list.
#[derive(Drop)]
#[cycle(nbt)]
pub enum NbtList {
    /// Ints, as they are.
    Ints(Vec<i32>),
    /// Trees of any kind.
    Trees(Vec<Nbt>),
}

/// The keys of a compound with what stands under each, in the order in which they are kept.
#[derive(Drop)]
#[cycle(nbt)]
pub struct NbtMap {
    pub(crate) entries: Vec<(Text, Nbt)>,
}

impl NbtMap {
    /// The fields, as they are handed over.
    pub fn from_entries(entries: Vec<(Text, Nbt)>) -> NbtMap
        ensures { result.entries.items ≡ entries.items }
    {
        NbtMap { entries }
    }

    /// The fields in their order.
    pub fn entries(&self) -> &[(Text, Nbt)]
        ensures { result.now ≡ self.now.entries.items }
    {
        self.entries.as_slice()
    }

    /// The fields in their order.
    pub fn into_entries(self) -> Vec<(Text, Nbt)>
        ensures { result.items ≡ self.entries.items }
    {
        self.entries
    }

    /// What stands under the key; `None` where the compound lacks it.
    #[tactic(auto, using(crate::proofs::ViewLemmas::opened))]
    pub fn get(&self, name: &Text) -> Option<&Nbt>
        ensures { option_map (λ t. view t.now) result ≡ spec.find name.now (spec.of_fields (map_view self.now)) }
    {
        find_entry(self.entries(), name)
    }
}

fn find_entry<'a>(entries: &'a [(Text, Nbt)], name: &Text) -> Option<&'a Nbt>
    ensures { option_map (λ t. view t.now) result ≡ spec.find name.now (map entry entries.now) }
{
    for entry in entries {
        if entry.0 == *name {
            return Some(&entry.1);
        }
    }
    None
}

// A compound of these fields.
pub(crate) fn compound(entries: Vec<(Text, Nbt)>) -> Nbt
    ensures { view result ≡ spec.compound_of (map entry entries.items) }
{
    Nbt::Compound(NbtMap { entries })
}

// A compound without fields.
pub(crate) fn empty_compound(alloc: Global) -> Nbt
    ensures { view result ≡ spec.compound spec.no_fields }
{
    compound(Vec::new(alloc))
}

// A list of these elements.
pub(crate) fn list_of(items: Vec<Nbt>) -> Nbt
    ensures { view result ≡ spec.list_of (map view items.items) }
{
    Nbt::List(NbtList::Trees(items))
}

// A list without elements.
pub(crate) fn empty_list(alloc: Global) -> Nbt
    ensures { view result ≡ spec.list spec.no_items }
{
    ints_of(Vec::new(alloc))
}

// A list of these ints.
pub(crate) fn ints_of(items: Vec<i32>) -> Nbt
    ensures { view result ≡ spec.list_of (map spec.int items.items) }
{
    Nbt::List(NbtList::Ints(items))
}
