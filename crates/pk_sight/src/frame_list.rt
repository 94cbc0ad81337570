// The list of a frame's tree.
ghost use Rattle.std.specs.Prelude.{◌≡◌, ◌∷◌, [], List, ℤ, IfOk, MatchOption};
ghost use Rattle.mc_nbt.specs.Tree.{fields};
ghost use Rattle.mc_nbt.specs.View.{map_view, view};
ghost use Rattle.cc_line.specs.Key.{key_list};
ghost use Rattle.cc_line.specs.State.{frame_tree, ints};

use crate::ints::ints_in;
use cc_line::Key;
use mc_nbt::{Memory, Nbt, NbtMap};
use std::alloc::Global;

/// The places in the list of a frame's tree; `None` exactly where the tree is none of a frame.
pub(crate) fn listed_places(alloc: Global, frame: &Nbt) -> Result<Option<Vec<i32>>, Memory>
    ensures { IfOk result (λ o. MatchOption o ((zs : List ℤ) → view frame.now ≡ frame_tree zs → ⊥) (λ zs. view frame.now ≡ frame_tree zs.items)) }
{
    match frame {
        Nbt::Compound(map) => list_alone(alloc, map),
        Nbt::Int(_) | Nbt::Str(_) | Nbt::List(_) => Ok(None),
    }
}

// The ints of a list that stands under its key alone.
fn list_alone(alloc: Global, map: &NbtMap) -> Result<Option<Vec<i32>>, Memory>
    ensures { IfOk result (λ o. MatchOption o
        ((zs : List ℤ) → map_view map.now ≡ fields ((key_list, ints zs) ∷ []) → ⊥)
        (λ zs. map_view map.now ≡ fields ((key_list, ints zs.items) ∷ []))) }
{
    match map.entries() {
        [] => Ok(None),
        [(name, list)] => {
            if name.as_str() == Key::List.text() {
                ints_in(alloc, list)
            } else {
                Ok(None)
            }
        }
        [_, _, ..] => Ok(None),
    }
}
