// Shifts and rotations of the number in `#a` by the count in `#b`.
ghost use Rattle.std.specs.Prelude.{◌≡◌, IfOk};
ghost use Rattle.cc_line.specs.BlockView.{block_items};
ghost use Rattle.cc_line.specs.View.{key_text, open_steps_view, steps_view};
ghost use Rattle.cc_bits.specs.Shifting as spec;

use crate::line::{clears, fills, finds, joined, makes, makes_in, tells, where_in};
use cc_line::{Act, Block, Key, OpenBelow, OpenPart, OpenStep, Part, Scratch, Spot, Step};
use mc_cmd::{Op, Range};
use mc_nbt::Memory;
use std::alloc::Global;

/// A shift to the left.
pub(crate) fn shl(alloc: Global) -> Result<Block, Memory>
    ensures { IfOk result (λ b. block_items b ≡ spec.shl_items) }
{
    let steps = [makes(Scratch::A, Op::Multiply, Scratch::P)];
    by_number(alloc, "h_cc_bits_shl", Key::ShiftLeft, &steps)
}

/// A shift to the right with the sign.
pub(crate) fn shr_s(alloc: Global) -> Result<Block, Memory>
    ensures { IfOk result (λ b. block_items b ≡ spec.shr_s_items) }
{
    let steps = [
        makes(Scratch::A, Op::Divide, Scratch::P),
        makes_in(
            Range::One(31),
            Scratch::B,
            Scratch::A,
            Op::Divide,
            Scratch::Two,
        ),
    ];
    by_number(alloc, "h_cc_bits_shr_s", Key::ShiftRightSigned, &steps)
}

/// A shift to the right with zeros.
pub(crate) fn shr_u(alloc: Global) -> Result<Block, Memory>
    ensures { IfOk result (λ b. block_items b ≡ spec.shr_u_items) }
{
    let divided = [
        makes(Scratch::C, Op::Divide, Scratch::P),
        makes_in(
            Range::From(1),
            Scratch::B,
            Scratch::A,
            Op::Assign,
            Scratch::C,
        ),
    ];
    let steps = joined(alloc, &[&half(), &divided])?;
    by_number(alloc, "h_cc_bits_shr_u", Key::ShiftRight, steps.as_slice())
}

/// A rotation to the left.
pub(crate) fn rotl(alloc: Global) -> Result<Block, Memory>
    ensures { IfOk result (λ b. block_items b ≡ spec.rotl_items) }
{
    let steps = rotation(alloc)?;
    by_row(alloc, "h_cc_bits_rotl", Key::RotateLeft, steps.as_slice())
}

/// A rotation to the right.
pub(crate) fn rotr(alloc: Global) -> Result<Block, Memory>
    ensures { IfOk result (λ b. block_items b ≡ spec.rotr_items) }
{
    let steps = rotation(alloc)?;
    by_row(alloc, "h_cc_bits_rotr", Key::RotateRight, steps.as_slice())
}

/// The steps that take half the number in `#a` to `#c`, without its sign.
pub fn half() -> [Step; 3]
    ensures { steps_view result ≡ spec.half_steps }
{
    [
        makes(Scratch::C, Op::Assign, Scratch::A),
        makes(Scratch::C, Op::Divide, Scratch::Two),
        makes_in(
            Range::To(-1),
            Scratch::C,
            Scratch::C,
            Op::Subtract,
            Scratch::Least,
        ),
    ]
}

// What stays, by a factor, and what comes in, half the number by a divisor; nothing comes in where the count is 0.
fn rotation(alloc: Global) -> Result<Vec<Step>, Memory>
    ensures { IfOk result (λ v. steps_view v.items ≡ spec.rotate_steps) }
{
    let nothing = Act::SetSpot {
        spot: Spot::Scratch(Scratch::C),
        value: 0,
    };
    let put_together = [
        makes(Scratch::C, Op::Divide, Scratch::Q),
        where_in(Range::One(0), Scratch::B, nothing),
        makes(Scratch::A, Op::Multiply, Scratch::P),
        makes(Scratch::A, Op::Add, Scratch::C),
    ];
    joined(alloc, &[&half(), &put_together])
}

// ---- with what a standing table has for the count

fn by_number(alloc: Global, name: &'static str, table: Key, steps: &[Step]) -> Result<Block, Memory>
    ensures { IfOk result (λ b. block_items b
        ≡ spec.filled_items name.now (spec.look_number (key_text table)) (steps_view steps.now)) }
{
    let told = OpenPart::Told(Key::Index);
    let lines = [finds(table, Scratch::P, OpenBelow::One(told))];
    by_lines(alloc, name, &lines, steps)
}

fn by_row(alloc: Global, name: &'static str, table: Key, steps: &[Step]) -> Result<Block, Memory>
    ensures { IfOk result (λ b. block_items b
        ≡ spec.filled_items name.now (spec.look_row (key_text table)) (steps_view steps.now)) }
{
    let told = OpenPart::Told(Key::Index);
    let first = OpenPart::Part(Part::Place(0));
    let second = OpenPart::Part(Part::Place(1));
    let lines = [
        finds(table, Scratch::P, OpenBelow::Two(told, first)),
        finds(table, Scratch::Q, OpenBelow::Two(told, second)),
    ];
    by_lines(alloc, name, &lines, steps)
}

// The count modulo 32 is told, the helper is filled, and steps follow.
fn by_lines(
    alloc: Global,
    name: &'static str,
    lines: &[OpenStep],
    steps: &[Step],
) -> Result<Block, Memory>
    ensures { IfOk result (λ b. block_items b
        ≡ spec.filled_items name.now (open_steps_view lines.now) (steps_view steps.now)) }
{
    let count = [
        makes(Scratch::B, Op::Remainder, Scratch::ThirtyTwo),
        clears(),
        tells(Key::Index, Scratch::B),
    ];
    let before = Block::of_steps(alloc, &count)?;
    let fill = fills(alloc, name, Vec::from_slice(alloc, lines)?)?;
    let after = Block::of_steps(alloc, steps)?;
    before.join(fill.join(after)?)
}
