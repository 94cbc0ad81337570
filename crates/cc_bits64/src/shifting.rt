// Shifts and rotations of the number in `#a` and `#b` by the count in `#k`.
ghost use Rattle.std.specs.Prelude.{◌≡◌, IfOk, codes, pos};
ghost use Rattle.mc_cmd.specs.Command.{assign, from};
ghost use Rattle.mc_cmd.specs.View.{op_view, range_view};
ghost use Rattle.cc_line.specs.BlockView.{block_items};
ghost use Rattle.cc_line.specs.Place.{scratch};
ghost use Rattle.cc_line.specs.Step.{set_spot};
ghost use Rattle.cc_line.specs.View.{act_view, key_text, scratch_text, step_view, steps_view};
ghost use Rattle.cc_bits.specs.Line as short;
ghost use Rattle.cc_bits64.specs.Shifting as spec;

use cc_bits::{
    choice_site, clears, finds, half, joined, keeps, loads, makes, makes_in, sets, tells, where_in,
};
use cc_line::{
    Act, Block, Check, Cond, Conds, Item, Key, OpenBelow, OpenPart, Part, Scratch, Spot, Step,
    next_place,
};
use mc_cmd::{Op, Range};
use mc_nbt::Memory;
use std::alloc::Global;

/// A shift to the left.
pub(crate) fn shl(alloc: Global, place: u32) -> Result<Block, Memory>
    ensures { IfOk result (λ b. block_items b ≡ spec.shl_items place) }
{
    let before = by_words(alloc, &word_left())?;
    let after = shift_left(alloc)?;
    to_the_left(alloc, place, before.as_slice(), after.as_slice())
}

/// A shift to the right with zeros.
pub(crate) fn shr_u(alloc: Global, place: u32) -> Result<Block, Memory>
    ensures { IfOk result (λ b. block_items b ≡ spec.shr_u_items place) }
{
    let before = by_words(alloc, &word_right())?;
    let after = shift_right(alloc)?;
    to_the_right(alloc, place, before.as_slice(), after.as_slice())
}

/// A shift to the right with the sign.
pub(crate) fn shr_s(alloc: Global, place: u32) -> Result<Block, Memory>
    ensures { IfOk result (λ b. block_items b ≡ spec.shr_s_items place) }
{
    let before = by_words(alloc, &word_right_signed())?;
    let after = shift_right_signed(alloc)?;
    to_the_right(alloc, place, before.as_slice(), after.as_slice())
}

/// A rotation to the left.
pub(crate) fn rotl(alloc: Global, place: u32) -> Result<Block, Memory>
    ensures { IfOk result (λ b. block_items b ≡ spec.rotl_items place) }
{
    let before = by_words(alloc, &word_turned())?;
    let after = turn_left(alloc)?;
    to_the_left(alloc, place, before.as_slice(), after.as_slice())
}

/// A rotation to the right: to the left by the count negated.
pub(crate) fn rotr(alloc: Global, place: u32) -> Result<Block, Memory>
    ensures { IfOk result (λ b. block_items b ≡ spec.rotr_items place) }
{
    let turned = by_words(alloc, &word_turned())?;
    let before = joined(alloc, &[&negate_count(), turned.as_slice()])?;
    let after = turn_left(alloc)?;
    to_the_left(alloc, place, before.as_slice(), after.as_slice())
}

// ---- the count, and a whole word

// The count is taken modulo 64, these steps see whether it is a whole word, and its rest below a word is left.
fn by_words(alloc: Global, steps: &[Step]) -> Result<Vec<Step>, Memory>
    ensures { IfOk result (λ v. steps_view v.items ≡ spec.by_words (steps_view steps.now)) }
{
    joined(alloc, &[&modulo_64(), steps, &modulo_32()])
}

fn modulo_64() -> [Step; 2]
    ensures { steps_view result ≡ spec.modulo_64 }
{
    [
        sets(Scratch::M, 64),
        makes(Scratch::K, Op::Remainder, Scratch::M),
    ]
}

fn modulo_32() -> [Step; 1]
    ensures { steps_view result ≡ spec.modulo_32 }
{
    [makes(Scratch::K, Op::Remainder, Scratch::ThirtyTwo)]
}

fn negate_count() -> [Step; 2]
    ensures { steps_view result ≡ spec.negate_count }
{
    [
        sets(Scratch::M, -1),
        makes(Scratch::K, Op::Multiply, Scratch::M),
    ]
}

// Zeros come in at the low half.
fn word_left() -> [Step; 2]
    ensures { steps_view result ≡ spec.word_left }
{
    [
        far(Scratch::B, Scratch::A),
        where_in(Range::From(32), Scratch::K, puts(Scratch::A, 0)),
    ]
}

// Zeros come in at the high half.
fn word_right() -> [Step; 2]
    ensures { steps_view result ≡ spec.word_right }
{
    [
        far(Scratch::A, Scratch::B),
        where_in(Range::From(32), Scratch::K, puts(Scratch::B, 0)),
    ]
}

// Copies of the sign come in at the high half.
fn word_right_signed() -> [Step; 3]
    ensures { steps_view result ≡ spec.word_right_signed }
{
    [
        far(Scratch::A, Scratch::B),
        where_high(Range::From(0), puts(Scratch::B, 0)),
        where_high(Range::To(-1), puts(Scratch::B, -1)),
    ]
}

// The halves change places.
fn word_turned() -> [Step; 3]
    ensures { steps_view result ≡ spec.word_turned }
{
    [
        makes(Scratch::C, Op::Assign, Scratch::A),
        far(Scratch::A, Scratch::B),
        far(Scratch::B, Scratch::C),
    ]
}

// For a count from 32 on a score gets another one.
fn far(to: Scratch, other: Scratch) -> Step
    ensures { step_view result
        ≡ short.makes_in spec.far (codes "#k") (scratch_text to) assign (scratch_text other) }
{
    makes_in(Range::From(32), Scratch::K, to, Op::Assign, other)
}

fn puts(score: Scratch, value: i32) -> Act
    ensures { act_view result ≡ set_spot (scratch (scratch_text score)) value }
{
    Act::SetSpot {
        spot: Spot::Scratch(score),
        value,
    }
}

fn where_high(range: Range, act: Act) -> Step
    ensures { step_view result ≡ spec.where_high (range_view range) (act_view act) }
{
    Step::When(
        Conds::Two(
            Cond::Holds(Check::InRange(Spot::Scratch(Scratch::K), Range::From(32))),
            Cond::Holds(Check::InRange(Spot::Scratch(Scratch::B), range)),
        ),
        act,
    )
}

// ---- less than a word

// What falls out of the low half comes into the high one.
fn shift_left(alloc: Global) -> Result<Vec<Step>, Memory>
    ensures { IfOk result (λ v. steps_view v.items ≡ spec.shift_left) }
{
    let last = [
        makes(Scratch::C, Op::Divide, Scratch::Q),
        makes(Scratch::A, Op::Multiply, Scratch::P),
        makes(Scratch::B, Op::Multiply, Scratch::P),
        some_in(Scratch::B, Op::Add, Scratch::C),
    ];
    joined(alloc, &[&half(), &last])
}

// What falls out of each half comes into the other one.
fn turn_left(alloc: Global) -> Result<Vec<Step>, Memory>
    ensures { IfOk result (λ v. steps_view v.items ≡ spec.turn_left) }
{
    let last = [
        makes(Scratch::A, Op::Multiply, Scratch::P),
        makes(Scratch::B, Op::Multiply, Scratch::P),
        some_in(Scratch::A, Op::Add, Scratch::D),
        some_in(Scratch::B, Op::Add, Scratch::C),
    ];
    let high_unsigned = [without_sign(Scratch::D)];
    joined(
        alloc,
        &[
            &halve_both(),
            &low_unsigned(),
            &high_unsigned,
            &divide_both(),
            &last,
        ],
    )
}

// What falls out of the high half comes into the low one.
fn shift_right(alloc: Global) -> Result<Vec<Step>, Memory>
    ensures { IfOk result (λ v. steps_view v.items ≡ spec.shift_right) }
{
    let high_unsigned = [without_sign(Scratch::D)];
    joined(
        alloc,
        &[
            &halve_both(),
            &low_unsigned(),
            &high_unsigned,
            &divide_both(),
            &join_right(),
        ],
    )
}

fn shift_right_signed(alloc: Global) -> Result<Vec<Step>, Memory>
    ensures { IfOk result (λ v. steps_view v.items ≡ spec.shift_right_signed) }
{
    joined(
        alloc,
        &[
            &halve_both(),
            &low_unsigned(),
            &divide_both(),
            &join_right(),
        ],
    )
}

// Half of each half to `#c` and `#d`, rounded down.
fn halve_both() -> [Step; 4]
    ensures { steps_view result ≡ spec.halve_both }
{
    [
        makes(Scratch::C, Op::Assign, Scratch::A),
        makes(Scratch::D, Op::Assign, Scratch::B),
        makes(Scratch::C, Op::Divide, Scratch::Two),
        makes(Scratch::D, Op::Divide, Scratch::Two),
    ]
}

fn low_unsigned() -> [Step; 1]
    ensures { steps_view result ≡ spec.low_unsigned }
{
    [without_sign(Scratch::C)]
}

fn without_sign(score: Scratch) -> Step
    ensures { step_view result ≡ spec.without_sign (scratch_text score) }
{
    makes_in(Range::To(-1), score, score, Op::Subtract, Scratch::Least)
}

fn divide_both() -> [Step; 2]
    ensures { steps_view result ≡ spec.divide_both }
{
    [
        makes(Scratch::C, Op::Divide, Scratch::Q),
        makes(Scratch::D, Op::Divide, Scratch::Q),
    ]
}

fn join_right() -> [Step; 4]
    ensures { steps_view result ≡ spec.join_right }
{
    [
        makes(Scratch::B, Op::Multiply, Scratch::P),
        makes(Scratch::C, Op::Add, Scratch::B),
        some_in(Scratch::A, Op::Assign, Scratch::C),
        some_in(Scratch::B, Op::Assign, Scratch::D),
    ]
}

// An operation for a count from 1 on.
fn some_in(to: Scratch, op: Op, other: Scratch) -> Step
    ensures { step_view result
        ≡ short.makes_in (from (pos 1)) (codes "#k") (scratch_text to) (op_view op) (scratch_text other) }
{
    makes_in(Range::From(1), Scratch::K, to, op, other)
}

// ---- on places

fn to_the_left(alloc: Global, place: u32, before: &[Step], after: &[Step]) -> Result<Block, Memory>
    ensures { IfOk result (λ b. block_items b
        ≡ spec.left_items (steps_view before.now) (steps_view after.now) place) }
{
    by_table(
        alloc,
        place,
        "h_cc_bits64_left",
        Key::RotateLeft,
        before,
        after,
    )
}

fn to_the_right(alloc: Global, place: u32, before: &[Step], after: &[Step]) -> Result<Block, Memory>
    ensures { IfOk result (λ b. block_items b
        ≡ spec.right_items (steps_view before.now) (steps_view after.now) place) }
{
    by_table(
        alloc,
        place,
        "h_cc_bits64_right",
        Key::RotateRight,
        before,
        after,
    )
}

// From the places of the number and of the count, and back.
fn by_table(
    alloc: Global,
    place: u32,
    name: &'static str,
    table: Key,
    before: &[Step],
    after: &[Step],
) -> Result<Block, Memory>
    ensures { IfOk result (λ b. block_items b
        ≡ spec.shift_items name.now (key_text table) (steps_view before.now) (steps_view after.now) place) }
{
    let high = next_place(place)?;
    let count = next_place(high)?;
    let operands = [
        loads(Scratch::A, place),
        loads(Scratch::B, high),
        loads(Scratch::K, count),
    ];
    let loaded = Block::of_steps(alloc, &operands)?;
    let begun = Block::of_steps(alloc, before)?;
    let looked = by_count(alloc, name, table, after)?;
    let results = [keeps(place, Scratch::A), keeps(high, Scratch::B)];
    let kept = Block::of_steps(alloc, &results)?;
    loaded.join(begun.join(looked.join(kept)?)?)
}

// The count is told, the helper looks its two numbers up, and steps follow.
fn by_count(alloc: Global, name: &'static str, table: Key, steps: &[Step]) -> Result<Block, Memory>
    ensures { IfOk result (λ b. block_items b ≡ spec.looked_items name.now (key_text table) (steps_view steps.now)) }
{
    let told = OpenPart::Told(Key::Index);
    let first = OpenPart::Part(Part::Place(0));
    let second = OpenPart::Part(Part::Place(1));
    let lines = [
        finds(table, Scratch::P, OpenBelow::Two(told, first)),
        finds(table, Scratch::Q, OpenBelow::Two(told, second)),
    ];
    let mut items = Vec::new(alloc);
    items.push(Item::fill(name, choice_site(), Vec::from_slice(alloc, &lines)?))?;
    let count = [clears(), tells(Key::Index, Scratch::K)];
    let before = Block::of_steps(alloc, &count)?;
    let fill = Block::of(items)?;
    let after = Block::of_steps(alloc, steps)?;
    before.join(fill.join(after)?)
}
