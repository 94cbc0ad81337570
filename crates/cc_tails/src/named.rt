// Which cut items name at their end.
ghost use Rattle.std.specs.Prelude.{◌≡◌, Some, None, if◌then◌else◌, nat_eq};
ghost use Rattle.cc_line.specs.Key.{id_tree};
ghost use Rattle.cc_line.specs.View.{item_view, items_view, key_text, leaf_tree, piece_view, site_view, store_view};
ghost use Rattle.cc_names.specs.Names.{is_next};
ghost use Rattle.cc_tails.specs.Tails.{cut_named, cut_set, cut_told, last_named};

use cc_line::{Act, Below, Item, Leaf, PieceId, Site, Step};
use cc_names::is_next;

// The first numbers in the names of pieces of routines and of instantiation.
const GROUP_SHARED: u32 = 100_000;

const GROUP_INIT: u32 = 100_001;

// The number of a cut, where the name of a piece has these two numbers.
fn numbered(func: u32, named: u32, index: u32) -> Option<u32>
    ensures { result ≡ (if nat_eq named func then Some index else None) }
{
    if named == func { Some(index) } else { None }
}

// The number of the cut of this function that the name of a piece tells.
#[tactic(auto, using(crate::proofs::LeafLemmas::piece_told))]
fn piece_told(func: u32, piece: PieceId) -> Option<u32>
    ensures { result ≡ cut_told func (id_tree (piece_view piece)) }
{
    match piece {
        PieceId::Body { func: named, index } => numbered(func, named, index),
        PieceId::Init { index } => numbered(func, GROUP_INIT, index),
        PieceId::Shared { index } => numbered(func, GROUP_SHARED, index),
        PieceId::End { .. } => None,
    }
}

// That which a leaf tells.
#[tactic(auto, using(crate::proofs::LeafLemmas::leaf_told))]
fn cut_told(func: u32, leaf: Leaf) -> Option<u32>
    ensures { result ≡ cut_told func (leaf_tree leaf) }
{
    match leaf {
        Leaf::Piece(piece) => piece_told(func, piece),
        _ => None,
    }
}

// That which is named where a path gets a tree.
fn cut_set(func: u32, site: Site, leaf: Leaf) -> Option<u32>
    ensures { result ≡ (if is_next (store_view site.store) (key_text site.key)
        then cut_set func (site_view site).parts (leaf_tree leaf) else None) }
{
    if !is_next(site.store, site.key) {
        return None;
    }
    match site.below {
        Below::Nothing => cut_told(func, leaf),
        _ => None,
    }
}

// That which an item names in any case.
fn cut_named(func: u32, item: &Item) -> Option<u32>
    ensures { result ≡ cut_named func (item_view item.now) }
{
    match item {
        Item::Step(Step::Run(Act::SetSite { site, leaf })) => cut_set(func, *site, *leaf),
        _ => None,
    }
}

// The number of the cut of this function that the last item names in any case.
pub(crate) fn last_named(func: u32, items: &[Item]) -> Option<u32>
    ensures { result ≡ last_named func (items_view items.now) }
{
    cut_named(func, items.last()?)
}
