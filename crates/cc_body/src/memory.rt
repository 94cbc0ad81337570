// What instructions on memory add to their piece.
ghost use Rattle.std.specs.Prelude.{◌≡◌, ◌≤◌, ◌++◌, ◌-◌, suc, OnOk};
ghost use Rattle.wm_ast.specs.Operation.{store_type};
ghost use Rattle.cc_access.specs.Known.{loads_by, stores_by};
ghost use Rattle.cc_cut.specs.Law.{width};
ghost use Rattle.cc_mem.specs.Size.{size_items};
ghost use Rattle.cc_body.specs.KnownConstants.{known_last, known_next};
ghost use Rattle.cc_body.specs.Storage.{has_page, least_memory};
ghost use Rattle.cc_body.specs.View.{knowns_view};
ghost use Rattle.cc_pieces.specs.View.{list_view};
ghost use Rattle.cc_pieces.specs.Lists.{listed};

use crate::body::Body;
use crate::known_constants::KnownConstants;
use cc_access::{load_by, store_by};
use cc_line::Item;
use cc_mem::size;
use cc_pieces::push_block;
use mc_nbt::Memory;
use std::alloc::Global;
use wm_ast::{LoadOp, Module, StoreOp};

// How many pages the module's memory has in any case.
fn least_memory(m: &Module) -> u32
    ensures { result ≡ least_memory m.now }
{
    match m.mems.get(0) {
        Some(limits) => limits.min,
        None => 0,
    }
}

/// Whether it has one in any case, so that accesses needn't ask for it.
pub(crate) fn has_page(m: &Module) -> bool
    ensures { result ≡ has_page m.now }
{
    least_memory(m) >= 1
}

// The places of the value that a store writes.
fn stored_width(op: StoreOp) -> u32
    ensures value { result ≡ width (store_type op) }
    ensures low { result ≤ 2 }
{
    match op {
        StoreOp::I32Store | StoreOp::I32Store8 | StoreOp::I32Store16 => 1,
        StoreOp::I64Store | StoreOp::I64Store8 | StoreOp::I64Store16 | StoreOp::I64Store32 => 2,
    }
}

/// A load from the address that is the last operand, which may be known; what is loaded stands from there on then.
pub(crate) fn push_load(
    body: &Body<'_>,
    knowing: &KnownConstants,
    op: LoadOp,
    offset: u32,
    top: u32,
    items: &mut Vec<Item>,
) -> Result<(), Memory>
    ensures { OnOk result (list_view items.new.items ≡ list_view items.old.items
        ++ listed (loads_by (least_memory body.now.module.now) (known_last (knowns_view knowing.now))
        (has_page body.now.module.now)
        op (top - 1) offset)) }
{
    let block = load_by(
        body.alloc,
        least_memory(body.module),
        knowing.last(),
        has_page(body.module),
        op,
        top.saturating_sub(1),
        offset,
    )?;
    push_block(block, items)
}

/// A store of the last operand to the address that is the operand under it, which may be known.
pub(crate) fn push_store(
    body: &Body<'_>,
    knowing: &KnownConstants,
    op: StoreOp,
    offset: u32,
    top: u32,
    items: &mut Vec<Item>,
) -> Result<(), Memory>
    ensures { OnOk result (list_view items.new.items ≡ list_view items.old.items
        ++ listed (stores_by (least_memory body.now.module.now) (known_next (knowns_view knowing.now))
        (has_page body.now.module.now)
        op (top - suc (width (store_type op))) offset)) }
{
    let block = store_by(
        body.alloc,
        least_memory(body.module),
        knowing.next(),
        has_page(body.module),
        op,
        top.saturating_sub(1 + stored_width(op)),
        offset,
    )?;
    push_block(block, items)
}

/// The number of the memory's pages to the place above the operands.
pub(crate) fn push_size(alloc: Global, top: u32, items: &mut Vec<Item>) -> Result<(), Memory>
    ensures { OnOk result (list_view items.new.items ≡ list_view items.old.items ++ listed (size_items top)) }
{
    let block = size(alloc, top)?;
    push_block(block, items)
}
