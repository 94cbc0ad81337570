// Macro lines: the lines of helpers that a compound fills.
ghost use Rattle.std.specs.Prelude.{◌≡◌, IfOk};
ghost use Rattle.mc_nbt.specs.Spelling.{tree_text};
ghost use Rattle.mc_cmd.specs.View.{op_view};
ghost use Rattle.cc_line.specs.OpenStep.{open_text, slot_site};
ghost use Rattle.cc_line.specs.Place.{home, spot_name};
ghost use Rattle.cc_line.specs.View.{conds_view, key_text, leaf_tree, open_act_view, open_site_view, open_step_view};
ghost use Rattle.cc_line.specs.View.{spot_view, stem_text};
ghost use Rattle.cc_line.specs.steps.OpenWords as spec;
ghost use Rattle.cc_line.specs.steps.WordsView.{words_view};

use crate::number::int_of;
use crate::place::{SCORE_PLACES, is_score};
use crate::printing::print_step;
use crate::tree::leaf_nbt;
use crate::under::{CondsUnder, PlaceUnder};
use crate::{
    Conds, Key, Leaf, OpenAct, OpenBelow, OpenPart, OpenSite, OpenStep, Part, Spot, Stem, Store,
};
use mc_cmd::{Op, op_word};
use mc_nbt::{Memory, Text, print};
use std::alloc::Global;

/// The line of an open step under a namespace.
///
/// # Errors
///
/// `Memory` where there is no room for it, or a place's number or an amount is no int.
#[tactic(auto, using(crate::proofs::OpenWordLemmas::open_written,))]
pub fn print_open_step(alloc: Global, step: OpenStep, ns: &Text) -> Result<Text, Memory>
    ensures { IfOk result (λ t. t ≡ open_text ns.now (open_step_view step)) }
{
    match step {
        OpenStep::Closed(step) => print_step(alloc, step, ns),
        OpenStep::Run(act) => run_line(alloc, words_of(alloc, act, ns)?),
        OpenStep::When(conds, act) => when_line(alloc, conds, words_of(alloc, act, ns)?, ns),
    }
}

// The store before a command, if there is one, and the command.
#[derive(Drop)]
struct Words {
    store: Option<Text>,
    simple: Text,
}

fn run_line(alloc: Global, words: Words) -> Result<Text, Memory>
    ensures { IfOk result (λ t. t ≡ spec.run_line words.store words.simple) }
{
    let Words { store, simple } = words;
    match store {
        None => Ok(Text::from(format!(in alloc; "${simple}")?)),
        Some(store) => Ok(Text::from(format!(in alloc; "$execute {store}run {simple}")?)),
    }
}

fn when_line(alloc: Global, conds: Conds, words: Words, ns: &Text) -> Result<Text, Memory>
    ensures { IfOk result (λ t. t
        ≡ spec.when_line (spec.conds_text ns.now (conds_view conds)) words.store words.simple) }
{
    let Words { store, simple } = words;
    let conds = CondsUnder { ns, conds };
    match store {
        None => Ok(Text::from(format!(in alloc; "$execute {conds}run {simple}")?)),
        Some(store) => Ok(Text::from(format!(in alloc; "$execute {conds}{store}run {simple}")?)),
    }
}

fn words_of(alloc: Global, act: OpenAct, ns: &Text) -> Result<Words, Memory>
    ensures { IfOk result (λ w. words_view w ≡ spec.open_words ns.now (open_act_view act)) }
{
    match act {
        OpenAct::SetSpot { spot, told } => set_told(alloc, spot, told, ns),
        OpenAct::Combine { to, op, from, told } => combine_told(alloc, to, op, from, told, ns),
        OpenAct::LoadSite { to, site } => get_into(alloc, Spot::Scratch(to), site, ns),
        OpenAct::KeepSite { site, from } => put_from(alloc, site, Spot::Scratch(from), ns),
        OpenAct::PlaceToSite { site, place } => place_to_site(alloc, site, place, ns),
        OpenAct::SiteToPlace { place, site } => site_to_place(alloc, place, site, ns),
        OpenAct::SetSite { site, leaf } => set_site(alloc, site, leaf, ns),
        OpenAct::CopySite { to, from } => copy_site(alloc, to, from, ns),
    }
}

fn set_told(alloc: Global, spot: Spot, told: Key, ns: &Text) -> Result<Words, Memory>
    ensures { IfOk result (λ w. words_view w ≡ spec.told_words ns.now (spot_name (spot_view spot)) (key_text told)) }
{
    Ok(Words {
        store: None,
        simple: Text::from(format!(in alloc; "scoreboard players set {spot} {ns} $({told})")?),
    })
}

fn combine_told(
    alloc: Global,
    to: Spot,
    op: Op,
    from: Stem,
    told: Key,
    ns: &Text,
) -> Result<Words, Memory>
    ensures { IfOk result (λ w. words_view w
        ≡ spec.combine_words ns.now (spot_name (spot_view to)) (op_view op) (stem_text from) (key_text told)) }
{
    let op = op_word(op);
    let simple = format!(in alloc;
        "scoreboard players operation {to} {ns} {op} {from}$({told}) {ns}"
    )?;
    Ok(Words {
        store: None,
        simple: Text::from(simple),
    })
}

fn get_into(alloc: Global, to: Spot, site: OpenSite, ns: &Text) -> Result<Words, Memory>
    ensures { IfOk result (λ w. words_view w
        ≡ spec.get_words ns.now (spot_name (spot_view to)) (open_site_view site)) }
{
    let from = PlaceUnder { ns, site };
    let store = Text::from(format!(in alloc; "store result score {to} {ns} ")?);
    let simple = Text::from(format!(in alloc; "data get storage {from}")?);
    Ok(Words {
        store: Some(store),
        simple,
    })
}

fn put_from(alloc: Global, site: OpenSite, from: Spot, ns: &Text) -> Result<Words, Memory>
    ensures { IfOk result (λ w. words_view w
        ≡ spec.put_words ns.now (open_site_view site) (spot_name (spot_view from))) }
{
    let to = PlaceUnder { ns, site };
    let store = Text::from(format!(in alloc; "store result storage {to} int 1 ")?);
    let simple = Text::from(format!(in alloc; "scoreboard players get {from} {ns}")?);
    Ok(Words {
        store: Some(store),
        simple,
    })
}

fn place_to_site(alloc: Global, site: OpenSite, place: u32, ns: &Text) -> Result<Words, Memory>
    ensures { IfOk result (λ w. words_view w ≡ spec.to_site_words ns.now (open_site_view site) (home place)) }
{
    if is_score(place) {
        return put_from(alloc, site, Spot::Place(place), ns);
    }
    copy_site(alloc, site, slot_of(place - SCORE_PLACES)?, ns)
}

fn site_to_place(alloc: Global, place: u32, site: OpenSite, ns: &Text) -> Result<Words, Memory>
    ensures { IfOk result (λ w. words_view w ≡ spec.of_site_words ns.now (home place) (open_site_view site)) }
{
    if is_score(place) {
        return get_into(alloc, Spot::Place(place), site, ns);
    }
    copy_site(alloc, slot_of(place - SCORE_PLACES)?, site, ns)
}

fn set_site(alloc: Global, site: OpenSite, leaf: Leaf, ns: &Text) -> Result<Words, Memory>
    ensures { IfOk result (λ w. words_view w ≡ spec.set_words ns.now (open_site_view site) (leaf_tree leaf)) }
{
    let to = PlaceUnder { ns, site };
    let value = leaf_text(alloc, leaf)?;
    Ok(Words {
        store: None,
        simple: Text::from(format!(in alloc; "data modify storage {to} set value {value}")?),
    })
}

fn copy_site(alloc: Global, to: OpenSite, from: OpenSite, ns: &Text) -> Result<Words, Memory>
    ensures { IfOk result (λ w. words_view w ≡ spec.from_words ns.now (open_site_view to) (open_site_view from)) }
{
    let to = PlaceUnder { ns, site: to };
    let from = PlaceUnder { ns, site: from };
    Ok(Words {
        store: None,
        simple: Text::from(format!(in alloc; "data modify storage {to} set from storage {from}")?),
    })
}

fn leaf_text(alloc: Global, leaf: Leaf) -> Result<Text, Memory>
    ensures { IfOk result (λ t. t ≡ tree_text (leaf_tree leaf)) }
{
    print(alloc, &leaf_nbt(alloc, leaf)?)
}

// An element of the innermost frame's list.
fn slot_of(at: u32) -> Result<OpenSite, Memory>
    ensures { IfOk result (λ p. open_site_view p ≡ slot_site at) }
{
    let list = OpenPart::Part(Part::Key(Key::List));
    let place = OpenPart::Part(Part::Place(int_of(at)?));
    Ok(OpenSite {
        store: Store::Rest,
        key: Key::Frame,
        below: OpenBelow::Two(list, place),
    })
}
