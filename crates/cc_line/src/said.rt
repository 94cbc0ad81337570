// What acts say: a command, and what stands before it.
ghost use Rattle.std.specs.Prelude.{◌≡◌, IfOk, pos};
ghost use Rattle.mc_cmd.specs.Command as command;
ghost use Rattle.mc_cmd.specs.View.{op_view, simple_view, sub_view};
ghost use Rattle.cc_line.specs.Place.{home, spot_name};
ghost use Rattle.cc_line.specs.Step.{act_said, set_home};
ghost use Rattle.cc_line.specs.Step as spec;
ghost use Rattle.cc_line.specs.View.{act_view, leaf_tree, site_view, spot_view};
ghost use Rattle.cc_line.specs.steps.SaidView.{copied, end_view, getting, home_end, list_site, putting, said_view};
ghost use Rattle.cc_line.specs.steps.SaidView.{slot_site};

use crate::number::int_of;
use crate::place::{SCORE_PLACES, is_score};
use crate::tree::leaf_nbt;
use crate::word::{Score, Stored, score_of, stored_at};
use crate::{Act, Below, Key, Leaf, Part, Site, Spot, Store};
use mc_cmd::{Op, Simple, Sub};
use mc_nbt::{Memory, Text};
use std::alloc::Global;

// What stands before a command, and the command.
#[derive(Drop)]
pub(crate) struct Said {
    pub(crate) store: Option<Sub>,
    pub(crate) simple: Simple,
}

fn says(simple: Simple) -> Said
    ensures { said_view result ≡ spec.says (simple_view simple) }
{
    Said {
        store: None,
        simple,
    }
}

fn storing(store: Sub, simple: Simple) -> Said
    ensures { said_view result ≡ spec.storing (sub_view store) (simple_view simple) }
{
    Said {
        store: Some(store),
        simple,
    }
}

// What an act says under a namespace.
pub(crate) fn said_of(alloc: Global, act: Act, ns: &Text) -> Result<Said, Memory>
    ensures { IfOk result (λ d. said_view d ≡ act_said ns.now (act_view act)) }
{
    match act {
        Act::SetSpot { spot, value } => set_score(alloc, spot, value, ns),
        Act::Increase { spot, by } => increase(alloc, spot, by, ns),
        Act::Decrease { spot, by } => decrease(alloc, spot, by, ns),
        Act::Combine { to, op, from } => operate(alloc, to, op, from, ns),
        Act::SetPlace { place, value } => set_place(alloc, place, value, ns),
        Act::CopyPlace { to, from } => copy(alloc, end_of(to)?, end_of(from)?, ns),
        Act::LoadPlace { to, place } => copy(
            alloc,
            End::Score(Spot::Scratch(to)),
            end_of(place)?,
            ns,
        ),
        Act::KeepPlace { place, from } => copy(
            alloc,
            end_of(place)?,
            End::Score(Spot::Scratch(from)),
            ns,
        ),
        Act::LoadSite { to, site } => copy(
            alloc,
            End::Score(Spot::Scratch(to)),
            End::Path(site),
            ns,
        ),
        Act::KeepSite { site, from } => copy(
            alloc,
            End::Path(site),
            End::Score(Spot::Scratch(from)),
            ns,
        ),
        Act::PlaceToSite { site, place } => copy(alloc, End::Path(site), end_of(place)?, ns),
        Act::SiteToPlace { place, site } => copy(alloc, end_of(place)?, End::Path(site), ns),
        Act::SetSite { site, leaf } => set_site(alloc, site, leaf, ns),
        Act::CopySite { to, from } => copy_site(alloc, to, from, ns),
        Act::AppendLeaf { site, leaf } => append_leaf(alloc, site, leaf, ns),
        Act::AppendSite { to, from } => append_site(alloc, to, from, ns),
        Act::EraseSite { site } => erase_site(alloc, site, ns),
        Act::OpenPlace { place } => set_score(alloc, Spot::Place(place), 0, ns),
        Act::MakeZeros { count } => set_site(alloc, frame_list(), Leaf::Zeros(count), ns),
        Act::SaveList { site } => copy_site(alloc, site, frame_list(), ns),
        Act::RestoreList { site } => copy_site(alloc, frame_list(), site, ns),
    }
}

// ---- scores and places

fn set_score(alloc: Global, spot: Spot, value: i32, ns: &Text) -> Result<Said, Memory>
    ensures { IfOk result (λ d. said_view d ≡ spec.says
        (command.score_set (spot_name (spot_view spot)) ns.now value)) }
{
    let Score { holder, obj } = score_of(alloc, spot, ns)?;
    Ok(says(Simple::ScoreSet { holder, obj, value }))
}

fn increase(alloc: Global, spot: Spot, by: u32, ns: &Text) -> Result<Said, Memory>
    ensures { IfOk result (λ d. said_view d ≡ spec.says
        (command.score_add (spot_name (spot_view spot)) ns.now (pos by))) }
{
    let value = int_of(by)?;
    let Score { holder, obj } = score_of(alloc, spot, ns)?;
    Ok(says(Simple::ScoreAdd { holder, obj, value }))
}

fn decrease(alloc: Global, spot: Spot, by: u32, ns: &Text) -> Result<Said, Memory>
    ensures { IfOk result (λ d. said_view d ≡ spec.says
        (command.score_remove (spot_name (spot_view spot)) ns.now (pos by))) }
{
    let value = int_of(by)?;
    let Score { holder, obj } = score_of(alloc, spot, ns)?;
    Ok(says(Simple::ScoreRemove { holder, obj, value }))
}

fn operate(alloc: Global, to: Spot, op: Op, from: Spot, ns: &Text) -> Result<Said, Memory>
    ensures { IfOk result (λ d. said_view d ≡ spec.says
        (command.score_op (spot_name (spot_view to)) ns.now (op_view op) (spot_name (spot_view from)) ns.now)) }
{
    let Score { holder, obj } = score_of(alloc, to, ns)?;
    let Score {
        holder: from_holder,
        obj: from_obj,
    } = score_of(alloc, from, ns)?;
    Ok(says(Simple::ScoreOp {
        holder,
        obj,
        op,
        from_holder,
        from_obj,
    }))
}

fn set_place(alloc: Global, place: u32, value: i32, ns: &Text) -> Result<Said, Memory>
    ensures { IfOk result (λ d. said_view d ≡ set_home ns.now (home place) value) }
{
    if is_score(place) {
        return set_score(alloc, Spot::Place(place), value, ns);
    }
    set_site(alloc, slot_at(place - SCORE_PLACES)?, Leaf::Int(value), ns)
}

// ---- copies

// Where a number stands: in a score, or at a path.
#[derive(Clone, Copy)]
enum End {
    Score(Spot),
    Path(Site),
}

fn end_of(place: u32) -> Result<End, Memory>
    ensures { IfOk result (λ e. end_view e ≡ home_end (home place)) }
{
    if is_score(place) {
        return Ok(End::Score(Spot::Place(place)));
    }
    Ok(End::Path(slot_at(place - SCORE_PLACES)?))
}

// An element of the innermost frame's list.
fn slot_at(at: u32) -> Result<Site, Memory>
    ensures { IfOk result (λ p. site_view p ≡ slot_site at) }
{
    Ok(Site {
        store: Store::Rest,
        key: Key::Frame,
        below: Below::Two(Part::Key(Key::List), Part::Place(int_of(at)?)),
    })
}

// That list.
fn frame_list() -> Site
    ensures { site_view result ≡ list_site }
{
    Site {
        store: Store::Rest,
        key: Key::Frame,
        below: Below::One(Part::Key(Key::List)),
    }
}

fn copy(alloc: Global, to: End, from: End, ns: &Text) -> Result<Said, Memory>
    ensures { IfOk result (λ d. said_view d ≡ copied ns.now (end_view to) (end_view from)) }
{
    match (to, from) {
        (End::Score(to), End::Score(from)) => operate(alloc, to, Op::Assign, from, ns),
        (End::Score(to), End::Path(from)) => load_site(alloc, to, from, ns),
        (End::Path(to), End::Score(from)) => keep_site(alloc, to, from, ns),
        (End::Path(to), End::Path(from)) => copy_site(alloc, to, from, ns),
    }
}

// A score gets the number at a path.
fn load_site(alloc: Global, to: Spot, from: Site, ns: &Text) -> Result<Said, Memory>
    ensures { IfOk result (λ d. said_view d ≡ getting ns.now (spot_name (spot_view to)) (site_view from)) }
{
    let Score { holder, obj } = score_of(alloc, to, ns)?;
    let Stored { id, path } = stored_at(alloc, from, ns)?;
    Ok(storing(
        Sub::StoreScore { holder, obj },
        Simple::DataGet { id, path },
    ))
}

// A path gets what a score has.
fn keep_site(alloc: Global, to: Site, from: Spot, ns: &Text) -> Result<Said, Memory>
    ensures { IfOk result (λ d. said_view d ≡ putting ns.now (site_view to) (spot_name (spot_view from))) }
{
    let Stored { id, path } = stored_at(alloc, to, ns)?;
    let Score { holder, obj } = score_of(alloc, from, ns)?;
    Ok(storing(
        Sub::StoreData { id, path },
        Simple::ScoreGet { holder, obj },
    ))
}

// A path gets what stands at another one.
fn copy_site(alloc: Global, to: Site, from: Site, ns: &Text) -> Result<Said, Memory>
    ensures { IfOk result (λ d. said_view d ≡ act_said ns.now (spec.copy_site (site_view to) (site_view from))) }
{
    let Stored { id, path } = stored_at(alloc, to, ns)?;
    let Stored {
        id: from_id,
        path: from_path,
    } = stored_at(alloc, from, ns)?;
    Ok(says(Simple::SetFrom {
        id,
        path,
        from_id,
        from_path,
    }))
}

// ---- paths

fn set_site(alloc: Global, site: Site, leaf: Leaf, ns: &Text) -> Result<Said, Memory>
    ensures { IfOk result (λ d. said_view d ≡ act_said ns.now (spec.set_site (site_view site) (leaf_tree leaf))) }
{
    let Stored { id, path } = stored_at(alloc, site, ns)?;
    let value = leaf_nbt(alloc, leaf)?;
    Ok(says(Simple::SetValue { id, path, value }))
}

fn append_leaf(alloc: Global, site: Site, leaf: Leaf, ns: &Text) -> Result<Said, Memory>
    ensures { IfOk result (λ d. said_view d ≡ act_said ns.now
        (spec.append_value_to (site_view site) (leaf_tree leaf))) }
{
    let Stored { id, path } = stored_at(alloc, site, ns)?;
    let value = leaf_nbt(alloc, leaf)?;
    Ok(says(Simple::AppendValue { id, path, value }))
}

fn append_site(alloc: Global, to: Site, from: Site, ns: &Text) -> Result<Said, Memory>
    ensures { IfOk result (λ d. said_view d ≡ act_said ns.now (spec.append_site (site_view to) (site_view from))) }
{
    let Stored { id, path } = stored_at(alloc, to, ns)?;
    let Stored {
        id: from_id,
        path: from_path,
    } = stored_at(alloc, from, ns)?;
    Ok(says(Simple::AppendFrom {
        id,
        path,
        from_id,
        from_path,
    }))
}

fn erase_site(alloc: Global, site: Site, ns: &Text) -> Result<Said, Memory>
    ensures { IfOk result (λ d. said_view d ≡ act_said ns.now (spec.erase_site (site_view site))) }
{
    let Stored { id, path } = stored_at(alloc, site, ns)?;
    Ok(says(Simple::DataRemove { id, path }))
}
