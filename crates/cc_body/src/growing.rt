// Growing the memory: the machine's step, which the piece of a body makes; a shared piece appends the pages then.
ghost use Rattle.std.specs.Prelude.{◌≡◌, ◌++◌, OnOk};
ghost use Rattle.wm_ast.specs.Store.{most_pages};
ghost use Rattle.wm_place.specs.Stop.{visit_told};
ghost use Rattle.cc_pieces.specs.View.{list_view};
ghost use Rattle.cc_body.specs.steps.Emission.{grown_list};
ghost use Rattle.cc_body.specs.steps.PieceBuilder.{ground};

use crate::body::Body;
use crate::width::top;
use cc_bulk::grow;
use cc_line::Item;
use cc_pieces::{push_acts, push_append_next, push_block};
use mc_nbt::Memory;
use wm_ast::{Module, PAGES};
use wm_place::Stop;

// The most pages that the module's memory may have.
fn most_pages(m: &Module) -> u32
    ensures { result ≡ most_pages m.now }
{
    match m.mems.get(0) {
        Some(limits) => match limits.max {
            Some(most) => most.min(PAGES),
            None => PAGES,
        },
        None => 0,
    }
}

/// The last operand becomes the old number of pages, or -1 where the memory may not have so many more. The pages that
/// are missing are appended next, and then the cut behind is.
pub(crate) fn push_grown(
    body: &Body<'_>,
    stop: Stop<'_>,
    items: &mut Vec<Item>,
) -> Result<(), Memory>
    ensures { OnOk result (list_view items.new.items
        ≡ list_view items.old.items ++ grown_list (ground body.now) (visit_told stop.entry)) }
{
    let place = top(body, stop.kinds)?.saturating_sub(1);
    let found = body.indices.behind(body.alloc, stop.path)?;
    let mut acts = Vec::new(body.alloc);
    push_append_next(body.func, found, &mut acts)?;
    let block = grow(body.alloc, most_pages(body.module), place)?;
    push_block(block, items)?;
    push_acts(acts.as_slice(), items)
}
