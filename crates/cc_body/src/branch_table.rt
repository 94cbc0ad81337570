// Branches whose label is looked up.
ghost use Rattle.std.specs.Prelude.{◌≡◌, ◌∷◌, [], ◌++◌, map, reverse, IfOk, OnOk};
ghost use Rattle.wm_place.specs.Stop.{visit_told};
ghost use Rattle.cc_line.specs.Item.{step_item};
ghost use Rattle.cc_line.specs.View.{step_view};
ghost use Rattle.cc_body.specs.Emit.{cut_number, end_step};
ghost use Rattle.cc_pieces.specs.View.{list_view};
ghost use Rattle.cc_body.specs.steps.Emission.{carry_list, jump_list, label_number, label_placer, looked_list};
ghost use Rattle.cc_body.specs.steps.PieceBuilder.{ground};

use crate::act::push_named;
use crate::body::Body;
use crate::labels::label_count;
use crate::width::{last_widths, place_above};
use cc_call::push_hands;
use cc_cut::{block_path, labelled};
use cc_line::{
    Act, Below, Check, Cond, Conds, Item, Key, Part, PieceId, Scratch, Site, Spot, Step, Store,
    int_of,
};
use cc_pieces::{placer_number, push_act, push_acts, push_block, push_steps};
use cc_table::{find, look};
use mc_cmd::Range;
use mc_nbt::Memory;
use wm_ast::ValType;
use wm_place::Stop;

// The number of no cut: the call ends.
const NO_CUT: i32 = -1;

fn cut_number(found: Option<u32>) -> Result<i32, Memory>
    ensures { IfOk result (λ z. z ≡ cut_number found) }
{
    match found {
        Some(index) => int_of(index),
        None => Ok(NO_CUT),
    }
}

// The number of the cut to which a label leads.
fn label_number(body: &Body<'_>, stop: Stop<'_>, label: u32) -> Result<i32, Memory>
    ensures { IfOk result (λ z. z ≡ label_number (ground body.now) (visit_told stop.entry) label) }
{
    let Some(level) = labelled(stop.levels, label) else {
        return Ok(NO_CUT);
    };
    let path = block_path(stop.path, level);
    let found = body.indices.landing(body.alloc, level.block, path)?;
    cut_number(found)
}

// The number of the piece that puts the value of a branch to this label, of so many ints, to its places.
fn label_placer(body: &Body<'_>, stop: Stop<'_>, ints: u32, label: u32) -> Result<i32, Memory>
    ensures { IfOk result (λ z. z ≡ label_placer (ground body.now) ints (visit_told stop.entry) label) }
{
    match labelled(stop.levels, label) {
        Some(level) => placer_number(ints, place_above(body, stop.kinds, level.under)?),
        None => Ok(NO_CUT),
    }
}

// The numbers of the cuts to which these labels lead, and behind them that of the last one.
fn label_numbers(
    body: &Body<'_>,
    stop: Stop<'_>,
    labels: &[u32],
    last: u32,
) -> Result<Vec<i32>, Memory>
    ensures { IfOk result (λ zs. zs.items ≡ map (label_number (ground body.now) (visit_told stop.entry)) labels.now
        ++ label_number (ground body.now) (visit_told stop.entry) last ∷ []) }
{
    let mut numbers = Vec::new(body.alloc);
    for label in labels {
        numbers.push(label_number(body, stop, *label)?)?;
    }
    numbers.push(label_number(body, stop, last)?)?;
    Ok(numbers)
}

// The numbers of the pieces that put their values, of so many ints, to their places.
fn label_placers(
    body: &Body<'_>,
    stop: Stop<'_>,
    ints: u32,
    labels: &[u32],
    last: u32,
) -> Result<Vec<i32>, Memory>
    ensures { IfOk result (λ zs. zs.items ≡ map (label_placer (ground body.now) ints (visit_told stop.entry)) labels.now
        ++ label_placer (ground body.now) ints (visit_told stop.entry) last ∷ []) }
{
    let mut placers = Vec::new(body.alloc);
    for label in labels {
        placers.push(label_placer(body, stop, ints, *label)?)?;
    }
    placers.push(label_placer(body, stop, ints, last)?)?;
    Ok(placers)
}

// Where the number that was found is none the call ends.
fn end_step() -> Step
    ensures { step_view result ≡ end_step }
{
    let found = Spot::Scratch(Scratch::C);
    let end = Act::CopySite {
        to: Site::at(Store::Rest, Key::Next),
        from: Site {
            store: Store::Rest,
            key: Key::Below,
            below: Below::Two(Part::Place(-1), Part::Key(Key::Follows)),
        },
    };
    Step::When(
        Conds::One(Cond::Holds(Check::InRange(found, Range::To(NO_CUT)))),
        end,
    )
}

fn push_end(items: &mut Vec<Item>) -> Result<(), Memory>
    ensures { OnOk result (list_view items.new.items ≡ list_view items.old.items ++ step_item end_step ∷ []) }
{
    push_steps(&[end_step()], items)
}

// To the label's cut, with no value.
fn push_jump(
    body: &Body<'_>,
    stop: Stop<'_>,
    labels: &[u32],
    last: u32,
    items: &mut Vec<Item>,
) -> Result<(), Memory>
    ensures { OnOk result (list_view items.new.items ≡ list_view items.old.items
        ++ jump_list (ground body.now) (visit_told stop.entry) labels.now last) }
{
    let Body { alloc, func, .. } = *body;
    let mut acts = Vec::new(alloc);
    push_named(Key::Next, PieceId::Body { func, index: 0 }, &mut acts)?;
    let numbers = label_numbers(body, stop, labels, last)?;
    push_block(look(alloc, numbers)?, items)?;
    push_acts(acts.as_slice(), items)?;
    push_end(items)?;
    Ok(())
}

// To the label's cut, by way of the piece that puts the value of so many places under the index to its places.
fn push_carried(
    body: &Body<'_>,
    stop: Stop<'_>,
    place: u32,
    labels: &[u32],
    last: u32,
    count: u32,
    items: &mut Vec<Item>,
) -> Result<(), Memory>
    ensures { OnOk result (list_view items.new.items ≡ list_view items.old.items
        ++ carry_list (ground body.now) (visit_told stop.entry) place labels.now last count) }
{
    let Body { alloc, func, .. } = *body;
    let mut follows = Vec::new(alloc);
    push_named(Key::Follows, PieceId::Body { func, index: 0 }, &mut follows)?;
    let mut hands = Vec::new(alloc);
    push_hands(count, place.saturating_sub(count), &mut hands)?;
    push_named(Key::Next, PieceId::Shared { index: 0 }, &mut hands)?;
    let numbers = label_numbers(body, stop, labels, last)?;
    push_block(look(alloc, numbers)?, items)?;
    push_acts(follows.as_slice(), items)?;
    let placers = label_placers(body, stop, count, labels, last)?;
    push_block(find(alloc, placers)?, items)?;
    push_acts(hands.as_slice(), items)?;
    push_end(items)?;
    Ok(())
}

/// By the index in a place, over operands of these types: to one of these labels, or else to the last one.
pub(crate) fn push_looked(
    body: &Body<'_>,
    stop: Stop<'_>,
    kinds: &[ValType],
    place: u32,
    labels: &[u32],
    last: u32,
    items: &mut Vec<Item>,
) -> Result<(), Memory>
    ensures { OnOk result (list_view items.new.items ≡ list_view items.old.items
        ++ looked_list (ground body.now) (visit_told stop.entry) (reverse kinds.now) place labels.now last) }
{
    let count = last_widths(kinds, label_count(body.results, stop, last))?;
    let load = Act::LoadPlace {
        to: Scratch::A,
        place,
    };
    push_act(load, items)?;
    if count == 0 {
        push_jump(body, stop, labels, last, items)
    } else {
        push_carried(body, stop, place, labels, last, count, items)
    }
}
