// And, or and xor, and ones, by bytes.
ghost use Rattle.std.specs.Prelude.{◌≡◌, ◌∷◌, IfOk};
ghost use Rattle.cc_line.specs.declared.table.Table.TheVariants.{Ones};
ghost use Rattle.cc_line.specs.BlockView.{block_items};
ghost use Rattle.cc_line.specs.View.{key_text, open_step_view, open_steps_view, scratch_text, step_view, steps_view};
ghost use Rattle.cc_bits.specs.Digit as spec;
ghost use Rattle.cc_bits.specs.Line as lines;

use crate::line::{
    calls, clears, fills, finds, joined, joined_lines, lays, looks, makes, sets, still, takes,
    tells,
};
use cc_line::{Block, Key, OpenBelow, OpenPart, OpenStep, Scratch, Step, Table};
use mc_cmd::Op;
use mc_nbt::Memory;
use std::alloc::Global;

/// The and of the numbers in `#a` and `#b` to `#d`.
pub(crate) fn and(alloc: Global) -> Result<Block, Memory>
    ensures { IfOk result (λ b. block_items b ≡ spec.and_items) }
{
    calls(alloc, "h_cc_bits_and", both(alloc)?)
}

/// The or of them to `#e`.
pub(crate) fn or(alloc: Global) -> Result<Block, Memory>
    ensures { IfOk result (λ b. block_items b ≡ spec.or_items) }
{
    calls(alloc, "h_cc_bits_or", or_body(alloc)?)
}

/// The xor of them to `#e`.
pub(crate) fn xor(alloc: Global) -> Result<Block, Memory>
    ensures { IfOk result (λ b. block_items b ≡ spec.xor_items) }
{
    calls(alloc, "h_cc_bits_xor", xor_body(alloc)?)
}

/// The ones of the number in `#a` to `#d`.
pub(crate) fn popcnt(alloc: Global) -> Result<Block, Memory>
    ensures { IfOk result (λ b. block_items b ≡ spec.popcnt_items) }
{
    let told = bytes(alloc)?;
    let before = Block::of_steps(alloc, told.as_slice())?;
    before.join(fills(alloc, "h_cc_bits_popcnt", ones(alloc)?)?)
}

// ---- two numbers by their bytes

// The or is the sum without the and.
fn or_body(alloc: Global) -> Result<Block, Memory>
    ensures { IfOk result (λ b. block_items b ≡ spec.or_body) }
{
    let sum = Block::of_steps(alloc, &sum())?;
    let less = Block::of_steps(alloc, &[less_both()])?;
    sum.join(both(alloc)?.join(less)?)
}

// The xor is the sum without twice the and.
fn xor_body(alloc: Global) -> Result<Block, Memory>
    ensures { IfOk result (λ b. block_items b ≡ spec.xor_body) }
{
    let sum = Block::of_steps(alloc, &sum())?;
    let less = Block::of_steps(alloc, &[less_both(), less_both()])?;
    sum.join(both(alloc)?.join(less)?)
}

fn sum() -> [Step; 2]
    ensures { steps_view result ≡ spec.sum_steps }
{
    [
        makes(Scratch::E, Op::Assign, Scratch::A),
        makes(Scratch::E, Op::Add, Scratch::B),
    ]
}

fn less_both() -> Step
    ensures { step_view result ≡ spec.less_both }
{
    makes(Scratch::E, Op::Subtract, Scratch::D)
}

// The halves of both numbers are told, then their bytes, and what these have both is put together.
fn both(alloc: Global) -> Result<Block, Memory>
    ensures { IfOk result (λ b. block_items b ≡ spec.both_items) }
{
    let told = both_told(alloc)?;
    let before = Block::of_steps(alloc, told.as_slice())?;
    let bytes = fills(alloc, "h_cc_bits_bytes", split(alloc)?)?;
    let found = fills(alloc, "h_cc_bits_both", found(alloc)?)?;
    before.join(bytes.join(found)?)
}

fn both_told(alloc: Global) -> Result<Vec<Step>, Memory>
    ensures { IfOk result (λ v. steps_view v.items ≡ spec.told_steps) }
{
    joined(
        alloc,
        &[
            &[clears()],
            &halves(Scratch::A, Key::A0, Key::A1),
            &halves(Scratch::B, Key::B0, Key::B1),
        ],
    )
}

// The low half of a score and the high one are told.
fn halves(score: Scratch, low: Key, high: Key) -> [Step; 5]
    ensures { steps_view result ≡ spec.halves (scratch_text score) (key_text low) (key_text high) }
{
    [
        makes(Scratch::C, Op::Assign, score),
        makes(Scratch::C, Op::Remainder, Scratch::HalfWord),
        tells(low, Scratch::C),
        makes(score, Op::Divide, Scratch::HalfWord),
        tells(high, score),
    ]
}

fn split(alloc: Global) -> Result<Vec<OpenStep>, Memory>
    ensures { IfOk result (λ v. open_steps_view v.items ≡ spec.split_steps) }
{
    joined_lines(
        alloc,
        &[
            &bytes_of(Key::A0, Key::A2, Key::A3),
            &bytes_of(Key::A1, Key::A4, Key::A5),
            &bytes_of(Key::B0, Key::B2, Key::B3),
            &bytes_of(Key::B1, Key::B4, Key::B5),
        ],
    )
}

fn bytes_of(half: Key, low: Key, high: Key) -> [OpenStep; 2]
    ensures { open_steps_view result ≡ spec.bytes_of (key_text half) (key_text low) (key_text high) }
{
    [
        takes(Key::LowByte, low, half),
        takes(Key::HighByte, high, half),
    ]
}

// The result in `#d`, from its highest byte down.
fn found(alloc: Global) -> Result<Vec<OpenStep>, Memory>
    ensures { IfOk result (λ v. open_steps_view v.items ≡ spec.found_steps) }
{
    let lines = [
        find_high(Scratch::D, Key::A5, Key::B5),
        find_low(Scratch::C, Key::A4, Key::B4),
        adds_up(),
        still(makes(Scratch::D, Op::Multiply, Scratch::HalfWord)),
        find_high(Scratch::C, Key::A3, Key::B3),
        adds_up(),
        find_low(Scratch::C, Key::A2, Key::B2),
        adds_up(),
    ];
    Ok(Vec::from_slice(alloc, &lines)?)
}

fn find_low(to: Scratch, row: Key, column: Key) -> OpenStep
    ensures { open_step_view result ≡ spec.find_low (scratch_text to) (key_text row) (key_text column) }
{
    let below = OpenBelow::Two(OpenPart::Told(row), OpenPart::Told(column));
    finds(Key::ByteAnd, to, below)
}

fn find_high(to: Scratch, row: Key, column: Key) -> OpenStep
    ensures { open_step_view result ≡ spec.find_high (scratch_text to) (key_text row) (key_text column) }
{
    let below = OpenBelow::Two(OpenPart::Told(row), OpenPart::Told(column));
    finds(Key::RaisedAnd, to, below)
}

fn adds_up() -> OpenStep
    ensures { open_step_view result ≡ spec.adds_up }
{
    still(makes(Scratch::D, Op::Add, Scratch::C))
}

// ---- bytes

// The lowest digit of a score, to the base in `#m`, is told under a key, and the score goes down by a digit.
fn digit(score: Scratch, key: Key) -> [Step; 4]
    ensures { steps_view result ≡ spec.digit (scratch_text score) (key_text key) }
{
    [
        makes(Scratch::C, Op::Assign, score),
        makes(Scratch::C, Op::Remainder, Scratch::M),
        tells(key, Scratch::C),
        makes(score, Op::Divide, Scratch::M),
    ]
}

fn bytes(alloc: Global) -> Result<Vec<Step>, Memory>
    ensures { IfOk result (λ v. steps_view v.items ≡ spec.bytes_steps) }
{
    joined(
        alloc,
        &[
            &[sets(Scratch::M, 256), clears()],
            &digit(Scratch::A, Key::A0),
            &digit(Scratch::A, Key::A1),
            &digit(Scratch::A, Key::A2),
            &[tells(Key::A3, Scratch::A)],
        ],
    )
}

// The table is laid, and the ones of each byte come to those in `#d`.
fn ones(alloc: Global) -> Result<Vec<OpenStep>, Memory>
    ensures { IfOk result (λ v. open_steps_view v.items ≡ lines.still (lines.lays Ones) ∷ spec.ones_steps) }
{
    joined_lines(
        alloc,
        &[
            &[still(lays(Table::Ones)), look_ones(Scratch::D, Key::A3)],
            &more_ones(Key::A2),
            &more_ones(Key::A1),
            &more_ones(Key::A0),
        ],
    )
}

// The ones of one more byte to those in `#d`.
fn more_ones(byte: Key) -> [OpenStep; 2]
    ensures { open_steps_view result ≡ spec.more_ones (key_text byte) }
{
    [
        look_ones(Scratch::C, byte),
        still(makes(Scratch::D, Op::Add, Scratch::C)),
    ]
}

fn look_ones(to: Scratch, byte: Key) -> OpenStep
    ensures { open_step_view result ≡ spec.look_ones (scratch_text to) (key_text byte) }
{
    looks(to, OpenBelow::One(OpenPart::Told(byte)))
}
