// What lines weigh.
ghost use Rattle.std.specs.Prelude.{◌≡◌, IfOk, if◌then◌else◌, pos};
ghost use Rattle.cc_line.specs.Item.{item_most, items_most};
ghost use Rattle.cc_line.specs.OpenStep.{step_with, steps_with};
ghost use Rattle.cc_line.specs.OpenStep as open_spec;
ghost use Rattle.cc_line.specs.Step.{run_act, step_weight, steps_weight};
ghost use Rattle.cc_line.specs.View.{act_view, item_view, items_view, open_act_view, open_step_view, open_steps_view};
ghost use Rattle.cc_line.specs.View.{step_view};
ghost use Rattle.cc_line.specs.steps.CallWeight.{call_weight};

use crate::number::sum;
use crate::place::is_score;
use crate::{Act, Conds, Item, OpenAct, OpenStep, Step};
use mc_nbt::Memory;

/// What the line of a step weighs.
pub fn weight_of(step: Step) -> u32
    ensures { result ≡ step_weight (step_view step) }
{
    match step {
        Step::Run(act) => weight_of_act(act),
        Step::When(_, _) => 2,
        Step::StopWhen(_) => 2,
    }
}

// The most that items weigh; no memory where that is 2^32 or more.
#[cycle(most)]
pub(crate) fn most_of_items(items: &[Item]) -> Result<u32, Memory>
    ensures { IfOk result (λ n. n ≡ items_most (items_view items.now)) }
{
    let mut total = 0u32;
    for item in items {
        total = sum(total, most_of_item(item)?)?;
    }
    Ok(total)
}

#[cycle(most)]
#[tactic(auto, using(crate::proofs::CallLemmas::call_most, crate::proofs::CallLemmas::fill_most,))]
fn most_of_item(item: &Item) -> Result<u32, Memory>
    ensures { IfOk result (λ n. n ≡ item_most (item_view item.now)) }
{
    match item {
        Item::Step(step) => Ok(weight_of(*step)),
        Item::Call { when, items, .. } => {
            sum(weight_of_call(*when), most_of_items(items.as_slice())?)
        }
        Item::Fill { when, steps, .. } => {
            sum(
                weight_of_call(*when),
                weight_of_open_steps(steps.as_slice())?,
            )
        }
        // The call, and the line that sets the table.
        Item::LookUp { steps, .. } => sum(2, weight_of_open_steps(steps.as_slice())?),
        Item::Table(_) => Ok(1),
    }
}

fn weight_of_call(when: Option<Conds>) -> u32
    ensures { result ≡ call_weight when }
{
    match when {
        None => 1,
        Some(_) => 2,
    }
}

fn weight_of_open_steps(steps: &[OpenStep]) -> Result<u32, Memory>
    ensures { IfOk result (λ n. n ≡ steps_weight (steps_with (λ k. pos 0) (open_steps_view steps.now))) }
{
    let mut total = 0u32;
    for step in steps {
        total = sum(total, weight_of_open_step(*step))?;
    }
    Ok(total)
}

fn weight_of_open_step(step: OpenStep) -> u32
    ensures { result ≡ step_weight (step_with (λ k. pos 0) (open_step_view step)) }
{
    match step {
        OpenStep::Closed(step) => weight_of(step),
        OpenStep::Run(act) => weight_of_open_act(act),
        OpenStep::When(_, _) => 2,
    }
}

#[tactic(auto, using(crate::proofs::WeightLemmas::to_site_weighs, crate::proofs::WeightLemmas::to_place_weighs,))]
fn weight_of_open_act(act: OpenAct) -> u32
    ensures { result ≡ step_weight (run_act (open_spec.act_with (λ k. pos 0) (open_act_view act))) }
{
    match act {
        OpenAct::SetSpot { .. } => 1,
        OpenAct::Combine { .. } => 1,
        OpenAct::LoadSite { .. } => 2,
        OpenAct::KeepSite { .. } => 2,
        OpenAct::PlaceToSite { place, .. } => weight_beyond(is_score(place)),
        OpenAct::SiteToPlace { place, .. } => weight_beyond(is_score(place)),
        OpenAct::SetSite { .. } => 1,
        OpenAct::CopySite { .. } => 1,
    }
}

#[tactic(auto, using(crate::proofs::WeightLemmas::acts_weigh,))]
fn weight_of_act(act: Act) -> u32
    ensures { result ≡ step_weight (run_act (act_view act)) }
{
    match act {
        Act::SetSpot { .. } => 1,
        Act::Increase { .. } => 1,
        Act::Decrease { .. } => 1,
        Act::Combine { .. } => 1,
        Act::SetPlace { .. } => 1,
        Act::CopyPlace { to, from } => weight_between(is_score(to), is_score(from)),
        Act::LoadPlace { place, .. } => weight_between(true, is_score(place)),
        Act::KeepPlace { place, .. } => weight_between(is_score(place), true),
        Act::LoadSite { .. } => 2,
        Act::KeepSite { .. } => 2,
        Act::PlaceToSite { place, .. } => weight_beyond(is_score(place)),
        Act::SiteToPlace { place, .. } => weight_beyond(is_score(place)),
        Act::SetSite { .. } => 1,
        Act::CopySite { .. } => 1,
        Act::AppendLeaf { .. } => 1,
        Act::AppendSite { .. } => 1,
        Act::EraseSite { .. } => 1,
        Act::OpenPlace { .. } => 1,
        Act::MakeZeros { .. } => 1,
        Act::SaveList { .. } => 1,
        Act::RestoreList { .. } => 1,
    }
}

// A copy is an `execute` exactly where one of the two is a score and the other stands in the list.
fn weight_between(to: bool, from: bool) -> u32
    ensures { result ≡ (if to then (if from then 1 else 2) else (if from then 2 else 1)) }
{
    match (to, from) {
        (true, true) => 1,
        (true, false) => 2,
        (false, true) => 2,
        (false, false) => 1,
    }
}

// A copy between a place and a path is one exactly where the place is a score.
fn weight_beyond(is_score: bool) -> u32
    ensures { result ≡ (if is_score then 2 else 1) }
{
    if is_score { 2 } else { 1 }
}
