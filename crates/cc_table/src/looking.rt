// Looking a number up in a table of the program.
ghost use Rattle.std.specs.Prelude.{◌≡◌, ◌+◌, ◌++◌, ◌∷◌, [], length, List, ℤ, IfOk, codes};
ghost use Rattle.mc_nbt.specs.Tree.{compound, no_fields};
ghost use Rattle.cc_line.specs.BlockView.{block_items};
ghost use Rattle.cc_line.specs.Item.{steps_items};
ghost use Rattle.cc_line.specs.Step.{keep_site, run_act, set_site};
ghost use Rattle.cc_line.specs.View.{name_text, open_steps_view, site_view, step_view};
ghost use Rattle.cc_table.specs.Look as spec;

use cc_line::{
    Act, Below, Block, Check, Cond, Conds, Item, Key, Leaf, Name, OpenAct, OpenBelow, OpenPart,
    OpenSite, OpenStep, Part, Scratch, Site, Spot, Step, Store, int_of,
};
use mc_cmd::Range;
use mc_nbt::Memory;
use std::alloc::Global;

/// The items that look the number in `#a`, taken as unsigned, up among these numbers: the one at that index comes to
/// `#c`, or the last one where there is none. The index stays told for `find`.
///
/// # Errors
///
/// `Memory` where there is no room for them, there are no numbers, or there are more than 2^31.
pub fn look(alloc: Global, numbers: Vec<i32>) -> Result<Block, Memory>
    ensures { IfOk result (λ b. (zs : List ℤ) (z : ℤ) → numbers.items ≡ zs ++ z ∷ []
        → block_items b ≡ spec.look_items zs z) }
{
    let told = tell_index(alloc, numbers.as_slice())?;
    told.join(find(alloc, numbers)?)
}

/// The items that look the index up that was told last, by a `look` among as many numbers: the number at it comes to
/// `#c`.
///
/// # Errors
///
/// `Memory` where there is no room for them.
pub fn find(alloc: Global, numbers: Vec<i32>) -> Result<Block, Memory>
    ensures { IfOk result (λ b. block_items b ≡ spec.find_items numbers.items) }
{
    let steps = element_steps(alloc)?;
    let mut items = Vec::new(alloc);
    items.push(Item::table(numbers))?;
    items.push(Item::fill("h_cc_look", choice_site(), steps))?;
    Block::of(items)
}

/// What `look` gives, with the table in a helper of this name.
///
/// # Errors
///
/// As `look`.
pub(crate) fn look_by(alloc: Global, name: Name, numbers: Vec<i32>) -> Result<Block, Memory>
    ensures { IfOk result (λ b. (zs : List ℤ) (z : ℤ) → numbers.items ≡ zs ++ z ∷ []
        → block_items b ≡ spec.look_by (name_text name) zs z) }
{
    let told = tell_index(alloc, numbers.as_slice())?;
    let steps = element_steps(alloc)?;
    let mut items = Vec::new(alloc);
    items.push(Item::look_up(name, choice_site(), numbers, steps))?;
    told.join(Block::of(items)?)
}

// ---- the index

// The number in `#a` tells which of these numbers is looked up.
fn tell_index(alloc: Global, numbers: &[i32]) -> Result<Block, Memory>
    ensures { IfOk result (λ b. (zs : List ℤ) (z : ℤ) → numbers.now ≡ zs ++ z ∷ []
        → block_items b ≡ steps_items (spec.index_steps (length zs))) }
{
    let last = last_index(numbers)?;
    let steps = [clamp(last)?, clear_choice(), tell_number()];
    Block::of_steps(alloc, &steps)
}

// The index of the last of these numbers.
fn last_index(numbers: &[i32]) -> Result<u32, Memory>
    ensures { IfOk result (λ n. n + 1 ≡ length numbers.now) }
{
    let Some(last) = numbers.len().checked_sub(1) else {
        return Err(Memory);
    };
    match u32::try_from(last) {
        Ok(last) => Ok(last),
        Err(_) => Err(Memory),
    }
}

// The number in `#a` becomes this one where, as an unsigned number, it isn't below it.
fn clamp(last: u32) -> Result<Step, Memory>
    ensures { IfOk result (λ x. step_view x ≡ spec.clamp_step last) }
{
    let number = Spot::Scratch(Scratch::A);
    let value = int_of(last)?;
    let act = Act::SetSpot {
        spot: number,
        value,
    };
    if last == 0 {
        return Ok(Step::Run(act));
    }
    let below = Check::InRange(number, Range::Both(0, value - 1));
    Ok(Step::When(Conds::One(Cond::Fails(below)), act))
}

fn choice_site() -> Site
    ensures { site_view result ≡ spec.choice_site }
{
    Site::at(Store::Rest, Key::Choice)
}

// The compound that tells where has no keys.
fn clear_choice() -> Step
    ensures { step_view result ≡ run_act (set_site spec.choice_site (compound no_fields)) }
{
    Step::Run(Act::SetSite {
        site: choice_site(),
        leaf: Leaf::EmptyCompound,
    })
}

// It has the number in `#a` as its index.
fn tell_number() -> Step
    ensures { step_view result ≡ run_act (keep_site spec.index_site (codes "#a")) }
{
    Step::Run(Act::KeepSite {
        site: Site {
            store: Store::Rest,
            key: Key::Choice,
            below: Below::One(Part::Key(Key::A0)),
        },
        from: Scratch::A,
    })
}

// ---- the element

// The line by which the element at the index comes to `#c`.
fn element_steps(alloc: Global) -> Result<Vec<OpenStep>, Memory>
    ensures { IfOk result (λ xs. open_steps_view xs.items ≡ spec.element_steps) }
{
    let mut steps = Vec::new(alloc);
    steps.push(OpenStep::Run(OpenAct::LoadSite {
        to: Scratch::C,
        site: OpenSite {
            store: Store::Rest,
            key: Key::Table,
            below: OpenBelow::One(OpenPart::Told(Key::A0)),
        },
    }))?;
    Ok(steps)
}
