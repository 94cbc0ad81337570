// Which items speak of the key of the next piece.
ghost use Rattle.std.specs.Prelude.{◌≡◌};
ghost use Rattle.cc_line.specs.View.{act_view, check_view, cond_view, conds_view, item_view, items_view, key_text};
ghost use Rattle.cc_line.specs.View.{open_act_view, open_step_view, open_steps_view, step_view, store_view};
ghost use Rattle.cc_names.specs.Names as spec;
ghost use Rattle.cc_names.specs.steps.Walk.{when_speaks};

use cc_line::{Act, Check, Cond, Conds, Item, Key, OpenAct, OpenStep, Step, Store};

/// Whether a key is that of the next piece.
pub fn is_next(store: Store, key: Key) -> bool
    ensures { result ≡ spec.is_next (store_view store) (key_text key) }
{
    matches!(store, Store::Rest) && matches!(key, Key::Next)
}

fn act_speaks(act: Act) -> bool
    ensures { result ≡ spec.act_speaks (act_view act) }
{
    match act {
        Act::LoadSite { site, .. }
        | Act::KeepSite { site, .. }
        | Act::PlaceToSite { site, .. }
        | Act::SiteToPlace { site, .. }
        | Act::SetSite { site, .. }
        | Act::AppendLeaf { site, .. }
        | Act::EraseSite { site }
        | Act::SaveList { site }
        | Act::RestoreList { site } => is_next(site.store, site.key),
        Act::CopySite { to, from } | Act::AppendSite { to, from } => {
            is_next(to.store, to.key) || is_next(from.store, from.key)
        }
        Act::SetSpot { .. }
        | Act::Increase { .. }
        | Act::Decrease { .. }
        | Act::Combine { .. }
        | Act::SetPlace { .. }
        | Act::CopyPlace { .. }
        | Act::LoadPlace { .. }
        | Act::KeepPlace { .. }
        | Act::OpenPlace { .. }
        | Act::MakeZeros { .. } => false,
    }
}

fn conds_speak(conds: Conds) -> bool
    ensures { result ≡ spec.conds_speak (conds_view conds) }
{
    match conds {
        Conds::One(cond) => cond_speaks(cond),
        Conds::Two(one, other) => cond_speaks(one) || cond_speaks(other),
    }
}

fn cond_speaks(cond: Cond) -> bool
    ensures { result ≡ spec.cond_speaks (cond_view cond) }
{
    match cond {
        Cond::Holds(check) | Cond::Fails(check) => check_speaks(check),
    }
}

fn check_speaks(check: Check) -> bool
    ensures { result ≡ spec.check_speaks (check_view check) }
{
    match check {
        Check::Stands(site) => is_next(site.store, site.key),
        Check::InRange(_, _) | Check::Compare(_, _, _) => false,
    }
}

fn step_speaks(step: Step) -> bool
    ensures { result ≡ spec.step_speaks (step_view step) }
{
    match step {
        Step::Run(act) => act_speaks(act),
        Step::When(conds, act) => conds_speak(conds) || act_speaks(act),
        Step::StopWhen(conds) => conds_speak(conds),
    }
}

fn open_act_speaks(act: OpenAct) -> bool
    ensures { result ≡ spec.open_act_speaks (open_act_view act) }
{
    match act {
        OpenAct::LoadSite { site, .. }
        | OpenAct::KeepSite { site, .. }
        | OpenAct::PlaceToSite { site, .. }
        | OpenAct::SiteToPlace { site, .. }
        | OpenAct::SetSite { site, .. } => is_next(site.store, site.key),
        OpenAct::CopySite { to, from } => {
            is_next(to.store, to.key) || is_next(from.store, from.key)
        }
        OpenAct::SetSpot { .. } | OpenAct::Combine { .. } => false,
    }
}

fn open_step_speaks(step: OpenStep) -> bool
    ensures { result ≡ spec.open_step_speaks (open_step_view step) }
{
    match step {
        OpenStep::Closed(step) => step_speaks(step),
        OpenStep::Run(act) => open_act_speaks(act),
        OpenStep::When(conds, act) => conds_speak(conds) || open_act_speaks(act),
    }
}

fn open_steps_speak(steps: &[OpenStep]) -> bool
    ensures { result ≡ spec.open_steps_speak (open_steps_view steps.now) }
{
    for step in steps {
        if open_step_speaks(*step) {
            return true;
        }
    }
    false
}

// The conditions under which a helper is called.
fn when_speaks(when: Option<Conds>) -> bool
    ensures { result ≡ when_speaks when }
{
    match when {
        None => false,
        Some(conds) => conds_speak(conds),
    }
}

#[cycle(speaks)]
fn items_speak(items: &[Item]) -> bool
    ensures { result ≡ spec.items_speak (items_view items.now) }
{
    for item in items {
        if item_speaks(item) {
            return true;
        }
    }
    false
}

// An item, with its helper and with what fills that.
#[cycle(speaks)]
#[tactic(auto, using(crate::proofs::Walks::call_speaks, crate::proofs::Walks::fill_speaks))]
pub(crate) fn item_speaks(item: &Item) -> bool
    ensures { result ≡ spec.item_speaks (item_view item.now) }
{
    match item {
        Item::Step(step) => step_speaks(*step),
        Item::Call { when, items, .. } => when_speaks(*when) || items_speak(items.as_slice()),
        Item::Fill {
            when,
            site,
            steps,
            ..
        } => {
            when_speaks(*when)
                || is_next(site.store, site.key)
                || open_steps_speak(steps.as_slice())
        }
        // Its first line sets a table, which is under a key of its own.
        Item::LookUp { site, steps, .. } => {
            is_next(site.store, site.key) || open_steps_speak(steps.as_slice())
        }
        Item::Table(_) => false,
    }
}
