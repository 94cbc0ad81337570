// Growing the memory.
ghost use Rattle.std.specs.Prelude.{◌≡◌, ◌≤◌, ◌+◌, ◌++◌, IfOk, OnOk};
ghost use Rattle.cc_line.specs.BlockView.{block_items};
ghost use Rattle.cc_line.specs.Place.{scratch};
ghost use Rattle.cc_line.specs.Step.{run_act, set_site, set_spot};
ghost use Rattle.cc_line.specs.View.{act_view, conds_view, scratch_text, site_view, step_view, steps_view};
ghost use Rattle.cc_bulk.specs.Grow as spec;

use cc_line::{Act, Block, Check, Cond, Conds, Key, Leaf, Scratch, Site, Spot, Step, Store};
use cc_mem::{is_in, makes, pages};
use mc_cmd::{Cmp, Op, Range};
use mc_nbt::Memory;
use std::alloc::Global;

// What the place gets where the memory doesn't grow.
const REFUSED: i32 = -1;

// So many pages are appended by one run of the grower.
const PAGES_OF_RUN: u32 = 32;

// So many words has a page.
const PAGE_WORDS: u32 = 16_384;

/// The items of `memory.grow`. A place has how many pages more are asked for, and gets the number of those that stand; it gets
/// -1 where the memory would have more than `most`. `#g` tells how many pages are missing then, which the grower appends.
///
/// # Errors
///
/// `Memory` where there is no room for them, or `most` is no int.
pub fn grow(alloc: Global, most: u32, place: u32) -> Result<Block, Memory>
    ensures { IfOk result (λ b. block_items b ≡ spec.grow_items most place) }
{
    let Ok(most) = i32::try_from(most) else {
        return Err(Memory);
    };
    let steps = [
        Step::Run(Act::LoadPlace {
            to: Scratch::G,
            place,
        }),
        Step::Run(Act::LoadSite {
            to: Scratch::C,
            site: pages(),
        }),
        Step::Run(becomes(Scratch::D, most)),
        makes(Scratch::D, Op::Subtract, Scratch::C),
        Step::When(is_below(), becomes(Scratch::C, REFUSED)),
        Step::When(is_more(), becomes(Scratch::C, REFUSED)),
        Step::When(is_refused(), becomes(Scratch::G, 0)),
        Step::Run(Act::KeepPlace {
            place,
            from: Scratch::C,
        }),
    ];
    Block::of_steps(alloc, &steps)
}

/// The items of the grower, a piece by which so many pages of zeros are appended as `#g` tells, at most 32 a run. While pages are
/// missing it stays the next piece, and then the piece is next that follows.
///
/// # Errors
///
/// `Memory` where there is no room for them.
pub fn grower(alloc: Global) -> Result<Block, Memory>
    ensures { IfOk result (λ b. block_items b ≡ spec.grower_items) }
{
    let mut steps = Vec::new(alloc);
    steps.push(bring_page())?;
    push_appends(&mut steps)?;
    push_onward(&mut steps)?;
    Block::of_steps(alloc, steps.as_slice())
}

// ---- steps

// A score gets a number.
fn becomes(score: Scratch, value: i32) -> Act
    ensures { act_view result ≡ set_spot (scratch (scratch_text score)) value }
{
    Act::SetSpot {
        spot: Spot::Scratch(score),
        value,
    }
}

// A page of zeros is at hand.
fn bring_page() -> Step
    ensures { step_view result ≡ run_act (set_site spec.table_site spec.zero_tree) }
{
    Step::Run(Act::SetSite {
        site: page_at_hand(),
        leaf: Leaf::Zeros(PAGE_WORDS),
    })
}

// It is appended as often as pages are missing, at most so often as one run does.
fn push_appends(steps: &mut Vec<Step>) -> Result<(), Memory>
    ensures { OnOk result (steps_view steps.new.items ≡ steps_view steps.old.items
        ++ spec.append_steps 1 spec.pages_of_run) }
{
    for pages in 0..PAGES_OF_RUN {
        steps.push(append_where(pages + 1))?;
    }
    Ok(())
}

// It is appended where at least so many are missing.
fn append_where(missing: u32) -> Step
    requires { missing ≤ spec.pages_of_run }
    ensures { step_view result ≡ spec.append_step missing }
{
    Step::When(
        is_in(Scratch::G, Range::From(missing as i32)),
        Act::AppendSite {
            to: pages(),
            from: page_at_hand(),
        },
    )
}

// So many fewer are missing, and where none is, the piece is next that follows.
fn push_onward(steps: &mut Vec<Step>) -> Result<(), Memory>
    ensures { OnOk result (steps_view steps.new.items ≡ steps_view steps.old.items ++ spec.onward_steps) }
{
    steps.push(Step::Run(Act::Decrease {
        spot: Spot::Scratch(Scratch::G),
        by: PAGES_OF_RUN,
    }))?;
    steps.push(Step::When(is_below(), becomes(Scratch::G, 0)))?;
    steps.push(Step::When(is_in(Scratch::G, Range::One(0)), follow()))?;
    Ok(())
}

fn follow() -> Act
    ensures { act_view result ≡ spec.to_next }
{
    Act::CopySite {
        to: Site::at(Store::Rest, Key::Next),
        from: Site::at(Store::Rest, Key::Follows),
    }
}

// ---- conditions

// The number of pages that are missing has a sign.
fn is_below() -> Conds
    ensures { conds_view result ≡ spec.is_below }
{
    is_in(Scratch::G, Range::To(-1))
}

// It is more than the maximum leaves.
fn is_more() -> Conds
    ensures { conds_view result ≡ spec.is_more }
{
    Conds::One(Cond::Holds(Check::Compare(
        Spot::Scratch(Scratch::G),
        Cmp::Greater,
        Spot::Scratch(Scratch::D),
    )))
}

// The memory doesn't grow.
fn is_refused() -> Conds
    ensures { conds_view result ≡ spec.is_refused }
{
    is_in(Scratch::C, Range::One(REFUSED))
}

// ---- paths

// The page that is appended.
fn page_at_hand() -> Site
    ensures { site_view result ≡ spec.table_site }
{
    Site::at(Store::Rest, Key::Table)
}
