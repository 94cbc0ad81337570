// What changes nothing that is seen of a job whose trap is recorded.
ghost use Rattle.std.specs.Prelude.{◌≡◌, nat_lt};
ghost use Rattle.std.specs.List.{list_all};
ghost use Rattle.cc_line.specs.Key.{is_work};
ghost use Rattle.cc_line.specs.Place.{score_places};
ghost use Rattle.cc_line.specs.View.{act_view, check_view, cond_view, conds_view, item_view, key_text, scratch_text};
ghost use Rattle.cc_line.specs.View.{spot_view, step_view, store_view};
ghost use Rattle.cc_stops.specs.Harmless as spec;

use cc_line::{Act, Check, Cond, Conds, Item, Key, SCORE_PLACES, Scratch, Spot, Step, Store};

pub(crate) fn is_harmless(item: &Item) -> bool
    ensures { result ≡ spec.item_is_harmless (item_view item.now) }
{
    match item {
        Item::Step(step) => step_is_harmless(*step),
        Item::Call { .. } | Item::Fill { .. } | Item::LookUp { .. } => false,
        // The table is under a key that anyone may write.
        Item::Table(_) => true,
    }
}

fn step_is_harmless(step: Step) -> bool
    ensures { result ≡ spec.step_is_harmless (step_view step) }
{
    match step {
        Step::Run(act) => act_is_harmless(act),
        Step::When(conds, act) => conds_stand(conds) && act_is_harmless(act),
        Step::StopWhen(conds) => conds_stand(conds),
    }
}

fn act_is_harmless(act: Act) -> bool
    ensures { result ≡ spec.act_is_harmless (act_view act) }
{
    match act {
        Act::SetSpot { spot, .. } | Act::Increase { spot, .. } | Act::Decrease { spot, .. } => {
            spot_is_unseen(spot)
        }
        Act::Combine { to, from, .. } => spot_is_unseen(to) && spot_stands(from),
        Act::CopyPlace { to, from } => is_score(to) && is_score(from),
        Act::LoadPlace { to, place } => is_work(to) && is_score(place),
        Act::SetPlace { place, .. }
        | Act::KeepPlace { place, .. }
        | Act::SiteToPlace { place, .. } => { is_score(place) }
        Act::LoadSite { to, .. } => is_work(to),
        Act::PlaceToSite { site, place } => is_unseen(site.store, site.key) && is_score(place),
        Act::KeepSite { site, .. }
        | Act::SetSite { site, .. }
        | Act::CopySite { to: site, .. }
        | Act::AppendLeaf { site, .. }
        | Act::AppendSite { to: site, .. }
        | Act::EraseSite { site } => is_unseen(site.store, site.key),
        Act::OpenPlace { .. }
        | Act::MakeZeros { .. }
        | Act::SaveList { .. }
        | Act::RestoreList { .. } => false,
    }
}

fn conds_stand(conds: Conds) -> bool
    ensures { result ≡ list_all spec.cond_stands (conds_view conds) }
{
    match conds {
        Conds::One(cond) => cond_stands(cond),
        Conds::Two(one, other) => cond_stands(one) && cond_stands(other),
    }
}

fn cond_stands(cond: Cond) -> bool
    ensures { result ≡ spec.cond_stands (cond_view cond) }
{
    match cond {
        Cond::Holds(check) | Cond::Fails(check) => check_stands(check),
    }
}

fn check_stands(check: Check) -> bool
    ensures { result ≡ spec.check_stands (check_view check) }
{
    match check {
        Check::InRange(spot, _) => spot_stands(spot),
        Check::Compare(one, _, other) => spot_stands(one) && spot_stands(other),
        Check::Stands(_) => true,
    }
}

// A spot that stands wherever a pack runs.
fn spot_stands(spot: Spot) -> bool
    ensures { result ≡ spec.spot_stands (spot_view spot) }
{
    match spot {
        Spot::Scratch(_) => true,
        Spot::Place(place) => is_score(place),
    }
}

fn spot_is_unseen(spot: Spot) -> bool
    ensures { result ≡ spec.spot_is_unseen (spot_view spot) }
{
    match spot {
        Spot::Scratch(scratch) => is_work(scratch),
        Spot::Place(place) => is_score(place),
    }
}

fn is_score(place: u32) -> bool
    ensures { result ≡ nat_lt place score_places }
{
    place < SCORE_PLACES
}

// Whether a score is anyone's between two instructions.
fn is_work(scratch: Scratch) -> bool
    ensures { result ≡ is_work (scratch_text scratch) }
{
    matches!(
        scratch,
        Scratch::A
            | Scratch::B
            | Scratch::C
            | Scratch::D
            | Scratch::E
            | Scratch::F
            | Scratch::G
            | Scratch::H
            | Scratch::I
            | Scratch::K
            | Scratch::M
            | Scratch::N
            | Scratch::P
            | Scratch::Q
            | Scratch::R
            | Scratch::S
            | Scratch::U
            | Scratch::V
            | Scratch::X
            | Scratch::Y
            | Scratch::Z
    )
}

// Whether nothing is seen of a key behind a trap.
fn is_unseen(store: Store, key: Key) -> bool
    ensures { result ≡ spec.is_unseen (store_view store) (key_text key) }
{
    matches!(store, Store::Rest)
        && matches!(
            key,
            Key::Next | Key::Follows | Key::Table | Key::Choice | Key::Index | Key::Page
        )
}
