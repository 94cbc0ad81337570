// Entries as trees, made as a pack makes them.
ghost use Rattle.std.specs.Prelude.{◌≡◌, ◌<◌, ◌≤◌, ◌∷◌, [], IfOk, IfSome, map, length, pos, codes};
ghost use Rattle.std.specs.List.{insert as insert_item};
ghost use Rattle.mc_nbt.specs.Tree as spec;
ghost use Rattle.mc_nbt.specs.View.{view, entry};
ghost use Rattle.mc_nbt.specs.steps.Edit.{index_of_key, rank_of_key, with_value};
ghost use Rattle.cc_line.specs.Key.{id_tree};
ghost use Rattle.cc_line.specs.Running.{entry_tree, with_places, with_rest};
ghost use Rattle.cc_line.specs.View.{piece_view};
ghost use Rattle.pk_entries.specs.View.{entry_view};

use crate::Entry;
use cc_line::{PieceId, SCORE_PLACES, piece_nbt};
use mc_nbt::{Memory, Nbt, NbtList, NbtMap, Text};
use std::alloc::Global;

// Where a key stands among fields.
#[tactic(auto, using(mc_nbt::proofs::EditLemmas::skip_found))]
fn index_of_key(fields: &[(Text, Nbt)], key: &Text) -> Option<usize>
    ensures is { result ≡ index_of_key key.now (map entry fields.now) }
    ensures within { IfSome result (λ i. i < length fields.now) }
{
    for (i, field) in fields.iter().enumerate() {
        if *key == field.0 {
            return Some(i);
        }
    }
    None
}

// How many fields stand before the first with a greater key.
fn rank_of_key(fields: &[(Text, Nbt)], key: &Text) -> usize
    ensures is { result ≡ rank_of_key key.now (map entry fields.now) }
    ensures within { result ≤ length fields.now }
{
    for (i, field) in fields.iter().enumerate() {
        if *key < field.0 {
            return i;
        }
    }
    fields.len()
}

#[tactic(auto, using(mc_nbt::proofs::EditLemmas::values))]
fn put_value(fields: &mut [(Text, Nbt)], at: usize, value: Nbt)
    requires { at < length fields.old }
    ensures { map entry fields.new ≡ with_value at (view value) (map entry fields.old) }
{
    fields[at].1 = value;
}

fn with_value(mut fields: Vec<(Text, Nbt)>, at: usize, value: Nbt) -> Vec<(Text, Nbt)>
    requires { at < length fields.items }
    ensures { map entry result.items ≡ with_value at (view value) (map entry fields.items) }
{
    put_value(fields.as_mut_slice(), at, value);
    fields
}

fn with_field_at(
    mut fields: Vec<(Text, Nbt)>,
    at: usize,
    key: Text,
    value: Nbt,
) -> Result<Vec<(Text, Nbt)>, Memory>
    requires { at ≤ length fields.items }
    ensures { IfOk result (λ new. new.items ≡ insert_item fields.items at (key, value)) }
{
    fields.insert(at, (key, value))?;
    Ok(fields)
}

// The fields with this value under this key.
fn put(fields: Vec<(Text, Nbt)>, key: Text, value: Nbt) -> Result<Vec<(Text, Nbt)>, Memory>
    ensures { IfOk result (λ new. map entry new.items ≡ spec.put key (view value) (map entry fields.items)) }
{
    match index_of_key(fields.as_slice(), &key) {
        Some(at) => Ok(with_value(fields, at, value)),
        None => {
            let at = rank_of_key(fields.as_slice(), &key);
            let longer = with_field_at(fields, at, key, value)?;
            Ok(longer)
        }
    }
}

// An entry's fields but for its places.
fn bare(alloc: Global, follows: PieceId, saved: u32) -> Result<Vec<(Text, Nbt)>, Memory>
    requires { saved < 1000 }
    ensures { IfOk result (λ v. map entry v.items
        ≡ (codes "p", id_tree (piece_view follows)) ∷ ((codes "z", spec.int (pos saved)) ∷ [])) }
{
    let follows = (Text::new(alloc, "p")?, piece_nbt(alloc, follows)?);
    let saved = (Text::new(alloc, "z")?, Nbt::Int(saved as i32));
    Ok(vec![in alloc; follows, saved]?)
}

// The fields with a place each under its number.
fn put_places(
    alloc: Global,
    places: &[i32],
    mut fields: Vec<(Text, Nbt)>,
) -> Result<Vec<(Text, Nbt)>, Memory>
    ensures { IfOk result (λ new. spec.compound_of (map entry new.items)
        ≡ with_places 0 places.now (spec.compound_of (map entry fields.items))) }
{
    for (index, z) in places.iter().enumerate() {
        let key = Text::from(index.to_string(alloc)?);
        fields = put(fields, key, Nbt::Int(*z))?;
    }
    Ok(fields)
}

// The fields with the further places, where there are such.
fn put_rest(
    alloc: Global,
    places: &[i32],
    fields: Vec<(Text, Nbt)>,
) -> Result<Vec<(Text, Nbt)>, Memory>
    ensures { IfOk result (λ new. spec.compound_of (map entry new.items)
        ≡ with_rest places.now (spec.compound_of (map entry fields.items))) }
{
    if places.len() <= SCORE_PLACES as usize {
        return Ok(fields);
    }
    let (_, further) = places.split_at(SCORE_PLACES as usize);
    let list = Nbt::List(NbtList::Ints(Vec::from_slice(alloc, further)?));
    let longer = put(fields, Text::new(alloc, "f")?, list)?;
    Ok(longer)
}

/// The tree of an entry.
pub(crate) fn entry_nbt(alloc: Global, from: &Entry) -> Result<Nbt, Memory>
    ensures { IfOk result (λ t. view t ≡ entry_tree (entry_view from.now)) }
{
    let places = from.places.as_slice();
    let saved = places.len().min(SCORE_PLACES as usize);
    let (first, _) = places.split_at(saved);
    let fields = bare(alloc, from.follows, saved as u32)?;
    let fields = put_places(alloc, first, fields)?;
    let fields = put_rest(alloc, places, fields)?;
    Ok(Nbt::Compound(NbtMap::from_entries(fields)))
}
