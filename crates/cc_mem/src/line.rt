// Lines in short, and the paths of accesses.
ghost use Rattle.std.specs.Prelude.{◌≡◌, ◌≤◌, ◌∷◌, [], OnOk, codes};
ghost use Rattle.mc_nbt.specs.Tree.{compound, no_fields};
ghost use Rattle.mc_cmd.specs.View.{op_view, range_view};
ghost use Rattle.cc_line.specs.Item.{fill_item, first, join, no_more};
ghost use Rattle.cc_line.specs.Key.{key_memory};
ghost use Rattle.cc_line.specs.OpenStep.{closed_step, open_act, open_combine, open_keep_site, open_load_site};
ghost use Rattle.cc_line.specs.Place.{scratch};
ghost use Rattle.cc_line.specs.Sight.{in_memory};
ghost use Rattle.cc_line.specs.Step.{combine, fails, holds, in_range, keep_site, run_act, set_site};
ghost use Rattle.cc_line.specs.View.{conds_view, items_view, key_text, open_below_view, open_site_view, open_step_view};
ghost use Rattle.cc_line.specs.View.{open_steps_view, scratch_text, site_view, spot_view, stem_text, step_view};
ghost use Rattle.cc_mem.specs.Address as spec;
ghost use Rattle.cc_mem.specs.Load.{scale};

use cc_line::{
    Act, Below, Check, Cond, Conds, Item, Key, Leaf, OpenAct, OpenBelow, OpenPart, OpenSite,
    OpenStep, Part, Scratch, Site, Spot, Stem, Step, Store, push_item,
};
use mc_cmd::{Op, Range};
use mc_nbt::Memory;
use std::alloc::Global;

// ---- steps

/// A score gets what an operation of it and another one gives.
pub fn makes(to: Scratch, op: Op, from: Scratch) -> Step
    ensures { step_view result
        ≡ run_act (combine (scratch (scratch_text to)) (op_view op) (scratch (scratch_text from))) }
{
    Step::Run(Act::Combine {
        to: Spot::Scratch(to),
        op,
        from: Spot::Scratch(from),
    })
}

/// The same with 256 to the power of this number of bytes.
pub fn scales(to: Scratch, op: Op, bytes: u32) -> Step
    requires { bytes ≤ 3 }
    ensures { step_view result ≡ run_act (combine (scratch (scratch_text to)) (op_view op) (scale bytes)) }
{
    Step::Run(Act::Combine {
        to: Spot::Scratch(to),
        op,
        from: scale_of(bytes),
    })
}

/// The standing score of 256 to the power of this number of bytes.
pub(crate) fn scale_of(bytes: u32) -> Spot
    requires { bytes ≤ 3 }
    ensures { spot_view result ≡ scale bytes }
{
    Spot::Scratch(match bytes {
        0 => Scratch::Byte0,
        1 => Scratch::Byte1,
        2 => Scratch::Byte2,
        _ => Scratch::Byte3,
    })
}

/// A path gets what a score has.
pub fn keeps(site: Site, from: Scratch) -> Step
    ensures { step_view result ≡ run_act (keep_site (site_view site) (scratch_text from)) }
{
    Step::Run(Act::KeepSite { site, from })
}

// ---- macro lines

/// A line as it stands, among those that are filled.
pub(crate) fn still(step: Step) -> OpenStep
    ensures { open_step_view result ≡ closed_step (step_view step) }
{
    OpenStep::Closed(step)
}

/// A score gets what an operation of it gives with the standing score of a family whose number is the byte that is told.
pub(crate) fn makes_by(to: Scratch, op: Op, from: Stem) -> OpenStep
    ensures { open_step_view result
        ≡ open_act (open_combine (scratch (scratch_text to)) (op_view op) (stem_text from) (codes "r")) }
{
    OpenStep::Run(OpenAct::Combine {
        to: Spot::Scratch(to),
        op,
        from,
        told: Key::Byte,
    })
}

/// A score gets the number at a path of which places are told.
pub(crate) fn loads(to: Scratch, site: OpenSite) -> OpenStep
    ensures { open_step_view result ≡ open_act (open_load_site (scratch_text to) (open_site_view site)) }
{
    OpenStep::Run(OpenAct::LoadSite { to, site })
}

/// Such a path gets what a score has.
pub(crate) fn keeps_told(site: OpenSite, from: Scratch) -> OpenStep
    ensures { open_step_view result ≡ open_act (open_keep_site (open_site_view site) (scratch_text from)) }
{
    OpenStep::Run(OpenAct::KeepSite { site, from })
}

/// Adds the call of a helper of these lines, which the compound at a path fills.
///
/// # Errors
///
/// `Memory` where there is no room for it.
pub(crate) fn push_fill(
    alloc: Global,
    name: &'static str,
    site: Site,
    steps: &[OpenStep],
    items: &mut Vec<Item>,
) -> Result<(), Memory>
    ensures { OnOk result (items_view items.new.items ≡ join (items_view items.old.items)
        (first (fill_item name.now (site_view site) (open_steps_view steps.now)) no_more)) }
{
    let steps = Vec::from_slice(alloc, steps)?;
    push_item(Item::fill(name, site, steps), items)
}

// ---- conditions

/// A score is in a range.
pub fn is_in(score: Scratch, range: Range) -> Conds
    ensures { conds_view result ≡ holds (in_range (scratch (scratch_text score)) (range_view range)) ∷ [] }
{
    Conds::One(Cond::Holds(Check::InRange(Spot::Scratch(score), range)))
}

/// A score isn't in a range.
pub(crate) fn is_outside(score: Scratch, range: Range) -> Conds
    ensures { conds_view result ≡ fails (in_range (scratch (scratch_text score)) (range_view range)) ∷ [] }
{
    Conds::One(Cond::Fails(Check::InRange(Spot::Scratch(score), range)))
}

// ---- paths

/// What fills the lines of accesses.
pub(crate) fn filling_site() -> Site
    ensures { site_view result ≡ spec.filling_site }
{
    Site::at(Store::Rest, Key::Filling)
}

/// A part of it.
pub(crate) fn filling_at(key: Key) -> Site
    ensures { site_view result ≡ spec.filling_at (key_text key) }
{
    Site {
        store: Store::Rest,
        key: Key::Filling,
        below: Below::One(Part::Key(key)),
    }
}

/// What tells other lines where.
pub(crate) fn choice_site() -> Site
    ensures { site_view result ≡ spec.choice_site }
{
    Site::at(Store::Rest, Key::Choice)
}

/// A part of it.
pub(crate) fn choice_at(key: Key) -> Site
    ensures { site_view result ≡ spec.choice_at (key_text key) }
{
    Site {
        store: Store::Rest,
        key: Key::Choice,
        below: Below::One(Part::Key(key)),
    }
}

/// It has no parts any more.
pub(crate) fn clears_choice() -> Step
    ensures { step_view result ≡ run_act (set_site spec.choice_site (compound no_fields)) }
{
    Step::Run(Act::SetSite {
        site: choice_site(),
        leaf: Leaf::EmptyCompound,
    })
}

/// The memory's first page.
pub(crate) fn first_page() -> Site
    ensures { site_view result ≡ spec.first_page }
{
    Site {
        store: Store::Memory,
        key: Key::Memory,
        below: Below::One(Part::Place(0)),
    }
}

/// The word whose page and place the window's compound tells.
pub(crate) fn window_word() -> OpenSite
    ensures { open_site_view result ≡ spec.window_word }
{
    memory_at(OpenBelow::Two(OpenPart::Told(Key::Page), OpenPart::Told(Key::Place)))
}

/// A page whose number the other compound tells.
pub(crate) fn told_page() -> OpenSite
    ensures { open_site_view result ≡ spec.told_page }
{
    memory_at(OpenBelow::One(OpenPart::Told(Key::A0)))
}

/// A word whose page and place it tells.
pub(crate) fn told_word() -> OpenSite
    ensures { open_site_view result ≡ spec.told_word }
{
    memory_at(OpenBelow::Two(OpenPart::Told(Key::A0), OpenPart::Told(Key::A1)))
}

fn memory_at(below: OpenBelow) -> OpenSite
    ensures { open_site_view result ≡ record { store = in_memory; name = key_memory; parts = open_below_view below } }
{
    OpenSite {
        store: Store::Memory,
        key: Key::Memory,
        below,
    }
}
