// Lines in short, and what stands round every operation.
ghost use Rattle.std.specs.Prelude.{◌≡◌, IfOk, flat_map};
ghost use Rattle.mc_cmd.specs.View.{op_view, range_view};
ghost use Rattle.cc_line.specs.BlockView.{block_items};
ghost use Rattle.cc_line.specs.Item as item;
ghost use Rattle.cc_line.specs.View.{act_view, key_text, open_below_view, open_step_view, open_steps_view};
ghost use Rattle.cc_line.specs.View.{scratch_text, site_view, step_view, steps_view};
ghost use Rattle.cc_bits.specs.Line as spec;
ghost use Rattle.cc_bits.specs.Operation.{one_items};

use cc_line::{
    Act, Below, Block, Check, Cond, Conds, Item, Key, Leaf, OpenAct, OpenBelow, OpenPart, OpenSite,
    OpenStep, Part, Scratch, Site, Slots, Spot, Step, Store, Table, on_one,
};
use mc_cmd::{Op, Range};
use mc_nbt::Memory;
use std::alloc::Global;

/// A score gets a number.
pub fn sets(score: Scratch, value: i32) -> Step
    ensures { step_view result ≡ spec.sets (scratch_text score) value }
{
    Step::Run(Act::SetSpot {
        spot: Spot::Scratch(score),
        value,
    })
}

/// A score gets what an operation of it and another one gives.
pub fn makes(to: Scratch, op: Op, from: Scratch) -> Step
    ensures { step_view result ≡ spec.makes (scratch_text to) (op_view op) (scratch_text from) }
{
    Step::Run(Act::Combine {
        to: Spot::Scratch(to),
        op,
        from: Spot::Scratch(from),
    })
}

/// An act where a score is in a range.
pub fn where_in(range: Range, score: Scratch, act: Act) -> Step
    ensures { step_view result ≡ spec.where_in (range_view range) (scratch_text score) (act_view act) }
{
    Step::When(
        Conds::One(Cond::Holds(Check::InRange(Spot::Scratch(score), range))),
        act,
    )
}

/// The same of an operation.
pub fn makes_in(range: Range, score: Scratch, to: Scratch, op: Op, from: Scratch) -> Step
    ensures { step_view result
        ≡ spec.makes_in (range_view range) (scratch_text score) (scratch_text to) (op_view op) (scratch_text from) }
{
    let act = Act::Combine {
        to: Spot::Scratch(to),
        op,
        from: Spot::Scratch(from),
    };
    where_in(range, score, act)
}

// ---- looking numbers up

/// The compound that tells where to look.
pub fn choice_site() -> Site
    ensures { site_view result ≡ spec.choice_site }
{
    Site {
        store: Store::Rest,
        key: Key::Choice,
        below: Below::Nothing,
    }
}

/// It has no keys.
pub fn clears() -> Step
    ensures { step_view result ≡ spec.clears }
{
    Step::Run(Act::SetSite {
        site: choice_site(),
        leaf: Leaf::EmptyCompound,
    })
}

/// It has a score under a key.
pub fn tells(key: Key, score: Scratch) -> Step
    ensures { step_view result ≡ spec.tells (key_text key) (scratch_text score) }
{
    Step::Run(Act::KeepSite {
        site: Site {
            store: Store::Rest,
            key: Key::Choice,
            below: Below::One(Part::Key(key)),
        },
        from: score,
    })
}

/// A table stands where numbers are looked up.
pub fn lays(table: Table) -> Step
    ensures { step_view result ≡ spec.lays table }
{
    Step::Run(Act::SetSite {
        site: Site {
            store: Store::Rest,
            key: Key::Table,
            below: Below::Nothing,
        },
        leaf: Leaf::Table(table),
    })
}

/// A score gets what stands there at places, of which some are told.
pub fn looks(to: Scratch, below: OpenBelow) -> OpenStep
    ensures { open_step_view result ≡ spec.looks (scratch_text to) (open_below_view below) }
{
    OpenStep::Run(OpenAct::LoadSite {
        to,
        site: OpenSite {
            store: Store::Rest,
            key: Key::Table,
            below,
        },
    })
}

/// A score gets what stands in a standing table at places, of which some are told.
pub fn finds(table: Key, to: Scratch, below: OpenBelow) -> OpenStep
    ensures { open_step_view result ≡ spec.finds (key_text table) (scratch_text to) (open_below_view below) }
{
    OpenStep::Run(OpenAct::LoadSite {
        to,
        site: OpenSite {
            store: Store::Rest,
            key: table,
            below,
        },
    })
}

/// The compound has under a key what stands in a standing table at the place that it tells under another.
pub(crate) fn takes(table: Key, to: Key, at: Key) -> OpenStep
    ensures { open_step_view result ≡ spec.takes (key_text table) (key_text to) (key_text at) }
{
    OpenStep::Run(OpenAct::CopySite {
        to: OpenSite {
            store: Store::Rest,
            key: Key::Choice,
            below: OpenBelow::One(OpenPart::Part(Part::Key(to))),
        },
        from: OpenSite {
            store: Store::Rest,
            key: table,
            below: OpenBelow::One(OpenPart::Told(at)),
        },
    })
}

/// A line as it stands, among those that are filled.
pub fn still(step: Step) -> OpenStep
    ensures { open_step_view result ≡ spec.still (step_view step) }
{
    OpenStep::Closed(step)
}

// ---- several lines

/// Rows of steps, one behind the other.
///
/// # Errors
///
/// `Memory` where there is no room for them.
pub fn joined(alloc: Global, rows: &[&[Step]]) -> Result<Vec<Step>, Memory>
    ensures { IfOk result (λ v. steps_view v.items ≡ flat_map (λ row. steps_view row.now) rows.now) }
{
    let mut steps = Vec::new(alloc);
    for row in rows {
        steps.extend_from_slice(row)?;
    }
    Ok(steps)
}

/// The same of lines that are filled.
pub(crate) fn joined_lines(alloc: Global, rows: &[&[OpenStep]]) -> Result<Vec<OpenStep>, Memory>
    ensures { IfOk result (λ v. open_steps_view v.items ≡ flat_map (λ row. open_steps_view row.now) rows.now) }
{
    let mut lines = Vec::new(alloc);
    for row in rows {
        lines.extend_from_slice(row)?;
    }
    Ok(lines)
}

// ---- helpers

/// A call of a helper with lines that this compound fills.
pub(crate) fn fills(
    alloc: Global,
    name: &'static str,
    steps: Vec<OpenStep>,
) -> Result<Block, Memory>
    ensures { IfOk result (λ b. block_items b
        ≡ item.first (item.fill_item name.now spec.choice_site (open_steps_view steps.items)) item.no_more) }
{
    let mut items = Vec::new(alloc);
    items.push(Item::fill(name, choice_site(), steps))?;
    Block::of(items)
}

/// A call of a helper with items.
pub(crate) fn calls(alloc: Global, name: &'static str, body: Block) -> Result<Block, Memory>
    ensures { IfOk result (λ b. block_items b ≡ item.first (item.call_item name.now (block_items body)) item.no_more) }
{
    let mut items = Vec::new(alloc);
    items.push(Item::call(name, body.into_items()))?;
    Block::of(items)
}

// ---- operands and result

/// A score gets what stands in a place.
pub fn loads(to: Scratch, place: u32) -> Step
    ensures { step_view result ≡ spec.loads (scratch_text to) place }
{
    Step::Run(Act::LoadPlace { to, place })
}

/// A place gets what stands in a score.
pub fn keeps(place: u32, from: Scratch) -> Step
    ensures { step_view result ≡ spec.keeps place (scratch_text from) }
{
    Step::Run(Act::KeepPlace { place, from })
}

/// Round what makes of the number in `#a` a result in this score.
pub(crate) fn of_one(alloc: Global, s: Slots, middle: Block, from: Scratch) -> Result<Block, Memory>
    ensures { IfOk result (λ b. block_items b ≡ spec.of_one s.a s.r (block_items middle) (scratch_text from)) }
{
    let before = Block::of_steps(alloc, &[loads(Scratch::A, s.a)])?;
    let after = Block::of_steps(alloc, &[keeps(s.r, from)])?;
    before.join(middle.join(after)?)
}

/// Round what makes of the numbers in `#a` and `#b` a result in this score.
pub(crate) fn of_two(alloc: Global, s: Slots, middle: Block, from: Scratch) -> Result<Block, Memory>
    ensures { IfOk result (λ b. block_items b ≡ spec.of_two s.a s.b s.r (block_items middle) (scratch_text from)) }
{
    let before = Block::of_steps(alloc, &[loads(Scratch::A, s.a), loads(Scratch::B, s.b)])?;
    let after = Block::of_steps(alloc, &[keeps(s.r, from)])?;
    before.join(middle.join(after)?)
}

/// A core that is written on `#a`, on the operand wherever it is.
pub(crate) fn on_operand(alloc: Global, s: Slots, core: &[Step]) -> Result<Block, Memory>
    ensures { IfOk result (λ b. block_items b ≡ one_items s.a s.r (steps_view core.now)) }
{
    let mut steps = Vec::new(alloc);
    on_one(core, s, &mut steps)?;
    Block::of_steps(alloc, steps.as_slice())
}
