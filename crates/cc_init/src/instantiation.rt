// The pieces of instantiation.
ghost use Rattle.std.specs.Prelude.{◌≡◌, ◌∷◌, [], ◌++◌, IfOk, OnOk, option_to_list, slice_get};
ghost use Rattle.mc_nbt.specs.Tree.{int, list, no_items};
ghost use Rattle.cc_line.specs.Item.{join, no_more};
ghost use Rattle.cc_line.specs.Key.{id_tree, key_next, key_table};
ghost use Rattle.cc_line.specs.Place.{score_places};
ghost use Rattle.cc_line.specs.Sight.{in_rest};
ghost use Rattle.cc_line.specs.State as state;
ghost use Rattle.cc_line.specs.State.{ints};
ghost use Rattle.cc_line.specs.Step.{set_site};
ghost use Rattle.cc_line.specs.View.{act_view, items_view, key_text, piece_view};
ghost use Rattle.cc_line.specs.View.{store_view};
ghost use Rattle.cc_call.specs.Acts.{acts_then};
ghost use Rattle.cc_call.specs.View.{acts_view};
ghost use Rattle.cc_body.specs.Storage.{global_site};
ghost use Rattle.cc_init.specs.Init.{constants_acts, globals_acts, leave_acts, open_acts};
ghost use Rattle.cc_init.specs.Init.{append_page, list_acts, settle_acts, standing_tables, table_acts, window_acts};
ghost use Rattle.cc_init.specs.steps.Instantiating as spec;

use crate::globals::GLOBALS_OF_PIECE;
use crate::standing::{byte_tables, constants, numbers, shift_tables, window};
use crate::start::Start;
use cc_body::global_site;
use cc_line::{Act, Item, Key, Leaf, PieceId, SCORE_PLACES, Site, Step, Store, sum};
use cc_sched::end_rounds;
use mc_cmd::{high_half, low_half};
use mc_nbt::{Memory, Value};
use std::alloc::Global;

// The items of the piece of this number, where instantiation begins with this.
pub(crate) fn init_items(alloc: Global, start: &Start, number: u32) -> Result<Vec<Item>, Memory>
    ensures { IfOk result (λ v. items_view v.items ≡ acts_then (spec.piece_acts start.now number) no_more) }
{
    let mut items = Vec::new(alloc);
    push_piece(alloc, start, number, &mut items)?;
    Ok(items)
}

fn push_piece(
    alloc: Global,
    start: &Start,
    number: u32,
    items: &mut Vec<Item>,
) -> Result<(), Memory>
    ensures { OnOk result (items_view items.new.items
        ≡ join (items_view items.old.items) (acts_then (spec.piece_acts start.now number) no_more)) }
{
    if number == 0 {
        push_first(start, items)?;
    } else {
        push_later(alloc, start, number - 1, items)?;
    }
    Ok(())
}

// The first piece.
fn push_first(start: &Start, items: &mut Vec<Item>) -> Result<(), Memory>
    ensures { OnOk result (items_view items.new.items
        ≡ join (items_view items.old.items) (acts_then (spec.first_acts start.now) no_more)) }
{
    push_places(items)?;
    push_settled(start.uses_bytes, items)?;
    push_standing(start.pages, items)?;
    push_onward(start, 0, items)?;
    Ok(())
}

// The piece behind the first one and so many others.
fn push_later(
    alloc: Global,
    start: &Start,
    before: u32,
    items: &mut Vec<Item>,
) -> Result<(), Memory>
    ensures { OnOk result (items_view items.new.items
        ≡ join (items_view items.old.items) (acts_then (spec.later_acts start.now before) no_more)) }
{
    push_appended(alloc, start, before, items)?;
    push_onward(start, sum(before, 1)?, items)?;
    Ok(())
}

// Globals, or a page.
fn push_appended(
    alloc: Global,
    start: &Start,
    before: u32,
    items: &mut Vec<Item>,
) -> Result<(), Memory>
    ensures { OnOk result (items_view items.new.items
        ≡ join (items_view items.old.items) (acts_then (spec.appended_acts start.now before) no_more)) }
{
    if before < start.global_pieces {
        push_globals(start.values.as_slice(), before, items)
    } else {
        push_page(alloc, start, before - start.global_pieces, items)
    }
}

// The places that are scores.
fn push_places(items: &mut Vec<Item>) -> Result<(), Memory>
    ensures { OnOk result (items_view items.new.items
        ≡ join (items_view items.old.items) (acts_then (open_acts 0 score_places) no_more)) }
{
    for place in 0..SCORE_PLACES {
        items.push(Item::step(Step::Run(Act::OpenPlace { place })))?;
    }
    Ok(())
}

// The lists, and what stands for routines from now on, with the tables of bytes or without them.
fn push_settled(bytes: bool, items: &mut Vec<Item>) -> Result<(), Memory>
    ensures { OnOk result (items_view items.new.items
        ≡ join (items_view items.old.items) (acts_then (settle_acts bytes) no_more)) }
{
    push_lists(items)?;
    push_acts(&numbers(), items)?;
    push_tables(bytes, items)?;
    Ok(())
}

// The tables that stand.
fn push_tables(bytes: bool, items: &mut Vec<Item>) -> Result<(), Memory>
    ensures { OnOk result (items_view items.new.items
        ≡ join (items_view items.old.items) (acts_then (table_acts (standing_tables bytes)) no_more)) }
{
    if bytes {
        push_acts(&byte_tables(), items)?;
    }
    push_acts(&shift_tables(), items)?;
    Ok(())
}

// No globals, no pages and no frames below.
fn push_lists(items: &mut Vec<Item>) -> Result<(), Memory>
    ensures { OnOk result (items_view items.new.items
        ≡ join (items_view items.old.items) (acts_then list_acts no_more)) }
{
    let lists = [
        no_list(Store::Memory, Key::Globals),
        no_list(Store::Memory, Key::Memory),
        no_list(Store::Rest, Key::Below),
    ];
    push_acts(&lists, items)
}

// What accesses need, where there is a memory.
fn push_standing(pages: Option<u32>, items: &mut Vec<Item>) -> Result<(), Memory>
    ensures { OnOk result (items_view items.new.items
        ≡ join (items_view items.old.items) (acts_then (spec.standing_acts pages) no_more)) }
{
    match pages {
        None => Ok(()),
        Some(_) => push_constants(items),
    }
}

// Standing scores, and the window.
fn push_constants(items: &mut Vec<Item>) -> Result<(), Memory>
    ensures { OnOk result (items_view items.new.items
        ≡ join (items_view items.old.items) (acts_then (constants_acts ++ window_acts) no_more)) }
{
    push_acts(&constants(), items)?;
    push_acts(&window(), items)?;
    Ok(())
}

// The globals behind those of so many pieces.
fn push_globals(values: &[Value], before: u32, items: &mut Vec<Item>) -> Result<(), Memory>
    ensures { OnOk result (items_view items.new.items
        ≡ join (items_view items.old.items) (acts_then (spec.appending_acts values.now before) no_more)) }
{
    let Some(from) = before.checked_mul(GLOBALS_OF_PIECE) else {
        return Err(Memory);
    };
    for index in 0..GLOBALS_OF_PIECE {
        push_at(values, sum(from, index)?, items)?;
    }
    Ok(())
}

// The global of this index, where there is one.
fn push_at(values: &[Value], global: u32, items: &mut Vec<Item>) -> Result<(), Memory>
    ensures { OnOk result (items_view items.new.items ≡ join (items_view items.old.items)
        (acts_then (globals_acts global (option_to_list (slice_get values.now global))) no_more)) }
{
    match values.get(global as usize) {
        Some(value) => push_global(global, *value, items),
        None => Ok(()),
    }
}

// A global is appended, and set.
fn push_global(global: u32, value: Value, items: &mut Vec<Item>) -> Result<(), Memory>
    ensures { OnOk result (items_view items.new.items
        ≡ join (items_view items.old.items) (acts_then (globals_acts global (value ∷ [])) no_more)) }
{
    match value {
        Value::I32(int) => push_acts(&[append_zeros(1), set_int(global, 0, int)?], items),
        Value::I64(long) => {
            let low = set_int(global, 0, low_half(long))?;
            let high = set_int(global, 1, high_half(long))?;
            push_acts(&[append_zeros(2), low, high], items)
        }
    }
}

// An int of a global gets a number.
fn set_int(global: u32, number: u32, value: i32) -> Result<Act, Memory>
    ensures { IfOk result (λ a. act_view a ≡ set_site (global_site global number) (int value)) }
{
    let site = global_site(global, number)?;
    let leaf = Leaf::Int(value);
    Ok(Act::SetSite { site, leaf })
}

// A global of so many ints, which are zeros.
fn append_zeros(ints: u32) -> Act
    ensures { act_view result ≡ spec.append_zeros ints }
{
    Act::AppendLeaf {
        site: Site::at(Store::Memory, Key::Globals),
        leaf: Leaf::Zeros(ints),
    }
}

// A page is appended, where there is one of this number.
fn push_page(alloc: Global, start: &Start, page: u32, items: &mut Vec<Item>) -> Result<(), Memory>
    ensures { OnOk result (items_view items.new.items
        ≡ join (items_view items.old.items) (acts_then (spec.paging_acts start.now page) no_more)) }
{
    match start.page(alloc, page)? {
        Some(words) => push_words(words, start.is_repeated(page), items),
        None => Ok(()),
    }
}

// A page of these words is appended. Where it is the one before it once more, it stands laid down still.
fn push_words(words: Vec<i32>, is_repeated: bool, items: &mut Vec<Item>) -> Result<(), Memory>
    ensures { OnOk result (items_view items.new.items
        ≡ join (items_view items.old.items) (acts_then (spec.words_acts is_repeated words.items) no_more)) }
{
    if is_repeated {
        push_act(append_page(), items)
    } else {
        push_new_page(words, items)
    }
}

// These words are laid down, and appended as a page.
fn push_new_page(words: Vec<i32>, items: &mut Vec<Item>) -> Result<(), Memory>
    ensures { OnOk result (items_view items.new.items ≡ join (items_view items.old.items)
        (acts_then (set_site (state.at_key in_rest key_table) (ints words.items) ∷ (append_page ∷ [])) no_more)) }
{
    items.push(Item::table(words))?;
    push_act(append_page(), items)?;
    Ok(())
}

fn append_page() -> Act
    ensures { act_view result ≡ append_page }
{
    Act::AppendSite {
        to: Site::at(Store::Memory, Key::Memory),
        from: Site::at(Store::Rest, Key::Table),
    }
}

// To the next piece, or to what comes behind all of them.
fn push_onward(start: &Start, number: u32, items: &mut Vec<Item>) -> Result<(), Memory>
    ensures { OnOk result (items_view items.new.items
        ≡ join (items_view items.old.items) (acts_then (spec.onward_acts start.now number) no_more)) }
{
    if number < start.later_pieces()? {
        push_act(to_piece(number + 1), items)?;
    } else {
        push_leave(start.function, items)?;
    }
    Ok(())
}

// The start function is called, which takes no arguments; without one the job ends.
fn push_leave(function: Option<u32>, items: &mut Vec<Item>) -> Result<(), Memory>
    ensures { OnOk result (items_view items.new.items
        ≡ join (items_view items.old.items) (acts_then (leave_acts function) no_more)) }
{
    match function {
        None => push_acts(&[to_end(), end_rounds()], items),
        Some(func) => push_acts(&[no_list(Store::Rest, Key::Args), to_function(func)], items),
    }
}

fn to_piece(index: u32) -> Act
    ensures { act_view result ≡ spec.to_piece index }
{
    to_next(PieceId::Init { index })
}

fn to_function(func: u32) -> Act
    ensures { act_view result ≡ spec.to_function func }
{
    to_next(PieceId::Body { func, index: 0 })
}

fn to_next(piece: PieceId) -> Act
    ensures { act_view result ≡ set_site (state.at_key in_rest key_next) (id_tree (piece_view piece)) }
{
    Act::SetSite {
        site: Site::at(Store::Rest, Key::Next),
        leaf: Leaf::Piece(piece),
    }
}

fn to_end() -> Act
    ensures { act_view result ≡ spec.to_end }
{
    Act::CopySite {
        to: Site::at(Store::Io, Key::State),
        from: Site::at(Store::Rest, Key::End),
    }
}

// An empty list under a key.
fn no_list(store: Store, key: Key) -> Act
    ensures { act_view result ≡ set_site (state.at_key (store_view store) (key_text key)) (list no_items) }
{
    Act::SetSite {
        site: Site::at(store, key),
        leaf: Leaf::EmptyList,
    }
}

fn push_acts(acts: &[Act], items: &mut Vec<Item>) -> Result<(), Memory>
    ensures { OnOk result (items_view items.new.items
        ≡ join (items_view items.old.items) (acts_then (acts_view acts.now) no_more)) }
{
    for act in acts {
        push_act(*act, items)?;
    }
    Ok(())
}

fn push_act(act: Act, items: &mut Vec<Item>) -> Result<(), Memory>
    ensures { OnOk result (items_view items.new.items
        ≡ join (items_view items.old.items) (acts_then (act_view act ∷ []) no_more)) }
{
    items.push(Item::step(Step::Run(act)))?;
    Ok(())
}
