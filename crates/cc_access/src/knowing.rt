// Loads and stores at a known address.
ghost use Rattle.std.specs.Prelude.{◌≡◌, ◌≤◌, ◌<◌, ◌^◌, codes, IfOk};
ghost use Rattle.mc_cmd.specs.View.{op_view};
ghost use Rattle.wm_ast.specs.Operation.{load_width as width_of_load, store_width as width_of_store};
ghost use Rattle.cc_line.specs.BlockView.{block_items};
ghost use Rattle.cc_line.specs.Item.{steps_items};
ghost use Rattle.cc_line.specs.Step.{load_site, run_act};
ghost use Rattle.cc_line.specs.View.{site_view, step_view};
ghost use Rattle.cc_mem.specs.Address.{no_offset};
ghost use Rattle.cc_access.specs.Known as spec;

use crate::loading::{high, load, low_load};
use crate::storing::{low_store, store};
use cc_line::{Act, Below, Block, Key, Part, Scratch, Site, Step, Store, next_place};
use cc_mem::{makes, scales};
use mc_cmd::Op;
use mc_nbt::Memory;
use std::alloc::Global;
use wm_ast::{LoadOp, StoreOp};

// No address from this one on is known.
const NO_ADDRESS: u64 = 16_777_216;

// So many bytes has a page.
const PAGE_BYTES: u64 = 65_536;

/// The items of a load, as `load` gives them, where the memory has at least `least` pages. Where the operand is known, which is
/// its number without sign, and so is that the bytes lie within the memory, and in one word or two whole ones, they are those of
/// a load that needs no test.
///
/// # Errors
///
/// `Memory` where there is no room for them, or no number for a place.
pub fn load_by(
    alloc: Global,
    least: u32,
    known: Option<u32>,
    sure: bool,
    op: LoadOp,
    place: u32,
    offset: u32,
) -> Result<Block, Memory>
    ensures { IfOk result (λ b. block_items b ≡ spec.loads_by least known sure op place offset) }
{
    match known_address(least, load_width(op), known, offset) {
        Some(address) => known_load(alloc, op, address, place),
        None => load(alloc, sure, op, place, offset),
    }
}

/// The items of a store, as `store` gives them, likewise.
///
/// # Errors
///
/// `Memory` where there is no room for them, or no number for a place.
pub fn store_by(
    alloc: Global,
    least: u32,
    known: Option<u32>,
    sure: bool,
    op: StoreOp,
    place: u32,
    offset: u32,
) -> Result<Block, Memory>
    ensures { IfOk result (λ b. block_items b ≡ spec.stores_by least known sure op place offset) }
{
    match known_address(least, store_width(op), known, offset) {
        Some(address) => known_store(alloc, op, address, place),
        None => store(alloc, sure, op, place, offset),
    }
}

// ---- where

// The address, where it is known, and no test is needed.
fn known_address(least: u32, width: u32, known: Option<u32>, offset: u32) -> Option<u32>
    ensures { result ≡ spec.known_address least width known offset }
{
    match known {
        Some(operand) => {
            let address = u64::from(operand) + u64::from(offset);
            if is_known(least, width, address) {
                Some(address as u32)
            } else {
                None
            }
        }
        None => None,
    }
}

// Whether so many bytes from an address on lie within the memory, and in one word or two whole ones.
fn is_known(least: u32, width: u32, address: u64) -> bool
    requires { address < 2 ^ 33 }
    ensures { result ≡ spec.is_known least width address }
{
    address < NO_ADDRESS
        && address + u64::from(width) <= PAGE_BYTES * u64::from(least)
        && in_words(width, address % 4)
}

fn in_words(width: u32, byte: u64) -> bool
    requires { byte < 4 }
    ensures { result ≡ spec.in_words width byte }
{
    if width == 8 {
        byte == 0
    } else {
        byte + u64::from(width) <= 4
    }
}

fn load_width(op: LoadOp) -> u32
    ensures { result ≡ width_of_load op }
{
    match op {
        LoadOp::I64Load => 8,
        LoadOp::I32Load | LoadOp::I64Load32S | LoadOp::I64Load32U => 4,
        LoadOp::I32Load16S | LoadOp::I32Load16U | LoadOp::I64Load16S | LoadOp::I64Load16U => 2,
        LoadOp::I32Load8S | LoadOp::I32Load8U | LoadOp::I64Load8S | LoadOp::I64Load8U => 1,
    }
}

fn store_width(op: StoreOp) -> u32
    ensures { result ≡ width_of_store op }
{
    match op {
        StoreOp::I64Store => 8,
        StoreOp::I32Store | StoreOp::I64Store32 => 4,
        StoreOp::I32Store16 | StoreOp::I64Store16 => 2,
        StoreOp::I32Store8 | StoreOp::I64Store8 => 1,
    }
}

// The path to the word of an address.
fn word_path(address: u32) -> Site
    ensures { site_view result ≡ spec.word_path address }
{
    Site {
        store: Store::Memory,
        key: Key::Memory,
        below: Below::Two(
            Part::Place((address / 65_536) as i32),
            Part::Place((address / 4 % 16_384) as i32),
        ),
    }
}

// ---- loads

// Into the places from one on.
fn known_load(alloc: Global, op: LoadOp, address: u32, place: u32) -> Result<Block, Memory>
    requires { address < no_offset }
    ensures { IfOk result (λ b. block_items b ≡ spec.known_load op address place) }
{
    let before = high_word(alloc, op, address, place)?;
    let low = word(alloc, low_load(op), address, place)?;
    let high = high(alloc, op, place)?;
    before.join(low.join(high)?)
}

// The high half of eight bytes.
fn high_word(alloc: Global, op: LoadOp, address: u32, place: u32) -> Result<Block, Memory>
    requires { address < no_offset }
    ensures { IfOk result (λ b. block_items b ≡ spec.high_word op address place) }
{
    match op {
        LoadOp::I64Load => word(alloc, LoadOp::I32Load, address + 4, next_place(place)?),
        _ => Block::of_steps(alloc, &[]),
    }
}

// A load of an i32.
fn word(alloc: Global, op: LoadOp, address: u32, to: u32) -> Result<Block, Memory>
    ensures { IfOk result (λ b. block_items b ≡ steps_items (spec.word_steps op address to)) }
{
    let byte = address % 4;
    match op {
        LoadOp::I32Load8U => part(alloc, address, (Op::Divide, byte), (Op::Remainder, 1), to),
        LoadOp::I32Load8S => part(
            alloc,
            address,
            (Op::Multiply, 3 - byte),
            (Op::Divide, 3),
            to,
        ),
        LoadOp::I32Load16U => part(alloc, address, (Op::Divide, byte), (Op::Remainder, 2), to),
        LoadOp::I32Load16S => part(
            alloc,
            address,
            (Op::Multiply, 2_u32.saturating_sub(byte)),
            (Op::Divide, 2),
            to,
        ),
        _ => Block::of_steps(
            alloc,
            &[Step::Run(Act::SiteToPlace {
                place: to,
                site: word_path(address),
            })],
        ),
    }
}

// Of a word an operation by a scale, and then one by another.
fn part(
    alloc: Global,
    address: u32,
    first: (Op, u32),
    last: (Op, u32),
    to: u32,
) -> Result<Block, Memory>
    requires first { first.1 ≤ 3 }
    requires last { last.1 ≤ 3 }
    ensures { IfOk result (λ b. block_items b
        ≡ steps_items (spec.part_steps address (op_view first.0) first.1 (op_view last.0) last.1 to)) }
{
    let steps = [
        load_word_at(address),
        scales(Scratch::U, first.0, first.1),
        scales(Scratch::U, last.0, last.1),
        Step::Run(Act::KeepPlace {
            place: to,
            from: Scratch::U,
        }),
    ];
    Block::of_steps(alloc, &steps)
}

// The word comes to `#u`.
fn load_word_at(address: u32) -> Step
    ensures { step_view result ≡ run_act (load_site (codes "#u") (spec.word_path address)) }
{
    Step::Run(Act::LoadSite {
        to: Scratch::U,
        site: word_path(address),
    })
}

// ---- stores

// From the place behind one on.
fn known_store(alloc: Global, op: StoreOp, address: u32, place: u32) -> Result<Block, Memory>
    requires { address < no_offset }
    ensures { IfOk result (λ b. block_items b ≡ spec.known_store op address place) }
{
    let next = next_place(place)?;
    let before = high_put(alloc, op, address, next)?;
    before.join(put(alloc, low_store(op), address, next)?)
}

// The high half of eight bytes.
fn high_put(alloc: Global, op: StoreOp, address: u32, next: u32) -> Result<Block, Memory>
    requires { address < no_offset }
    ensures { IfOk result (λ b. block_items b ≡ spec.high_put op address next) }
{
    match op {
        StoreOp::I64Store => put(alloc, StoreOp::I32Store, address + 4, next_place(next)?),
        _ => Block::of_steps(alloc, &[]),
    }
}

// A store of an i32.
fn put(alloc: Global, op: StoreOp, address: u32, from: u32) -> Result<Block, Memory>
    ensures { IfOk result (λ b. block_items b ≡ steps_items (spec.put_steps op address from)) }
{
    match op {
        StoreOp::I32Store8 => change(alloc, 1, address, from),
        StoreOp::I32Store16 => change(alloc, 2, address, from),
        _ => Block::of_steps(
            alloc,
            &[Step::Run(Act::PlaceToSite {
                site: word_path(address),
                place: from,
            })],
        ),
    }
}

// The low bytes of the value, less those that stand there, as often as their place says, are added to the word.
fn change(alloc: Global, width: u32, address: u32, from: u32) -> Result<Block, Memory>
    requires { width ≤ 3 }
    ensures { IfOk result (λ b. block_items b ≡ steps_items (spec.change_steps width address from)) }
{
    let byte = address % 4;
    let steps = [
        Step::Run(Act::LoadPlace {
            to: Scratch::S,
            place: from,
        }),
        load_word_at(address),
        makes(Scratch::Y, Op::Assign, Scratch::U),
        scales(Scratch::Y, Op::Divide, byte),
        scales(Scratch::Y, Op::Remainder, width),
        makes(Scratch::Z, Op::Assign, Scratch::S),
        scales(Scratch::Z, Op::Remainder, width),
        makes(Scratch::Z, Op::Subtract, Scratch::Y),
        scales(Scratch::Z, Op::Multiply, byte),
        makes(Scratch::U, Op::Add, Scratch::Z),
        Step::Run(Act::KeepSite {
            site: word_path(address),
            from: Scratch::U,
        }),
    ];
    Block::of_steps(alloc, &steps)
}
