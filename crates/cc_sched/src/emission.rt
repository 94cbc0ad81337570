// The functions of the scheduler, as texts.
ghost use Rattle.std.specs.Prelude.{◌≡◌, ◌≤◌, ◌<◌, ◌++◌, ◌∷◌, [], IfOk, OnOk};
ghost use Rattle.mc_cmd.specs.declared.TheConstants.{PIECE};
ghost use Rattle.mc_cmd.specs.Grammar.{cmd_text};
ghost use Rattle.cc_line.specs.BlockView.{function_view, functions_view};
ghost use Rattle.cc_line.specs.Item.{item_text, steps_items};
ghost use Rattle.cc_line.specs.Sight.{in_rest};
ghost use Rattle.cc_line.specs.State.{at_key};
ghost use Rattle.cc_line.specs.Step.{run_act, set_site, steps_texts};
ghost use Rattle.cc_line.specs.View.{act_view, cond_view, items_view, key_text, leaf_tree, piece_view};
ghost use Rattle.cc_line.specs.View.{site_view, step_view, steps_view};
ghost use Rattle.cc_sched.specs.Functions.{call_functions, chain_functions, function, sched_functions};
ghost use Rattle.cc_sched.specs.Names.{call_name};
ghost use Rattle.cc_sched.specs.Sched as spec;

use crate::command;
use cc_line::{
    Act, Below, Check, Cond, Conds, Function, Functions, Item, Key, Leaf, PieceId, Scratch, Site,
    Spot, Step, Store, print_item, print_items, print_step, print_steps, push_steps,
};
use mc_cmd::Range;
use mc_nbt::{Memory, Text, Texts};
use std::alloc::Global;

/// What a turn weighs besides its piece.
pub const TURN_WEIGHT: u32 = 20;

// What a tick keeps back beside what a piece and its turn may weigh.
const RESERVE: u32 = 10;

// What eight rounds give back of what they paid.
const BACK: u32 = 13;

// What is left of a tick's budget.
const BUDGET: Spot = Spot::Scratch(Scratch::Charge);

// Where the pack answers in which state it is, and which trap was recorded.
const STATE: Site = Site {
    store: Store::Io,
    key: Key::State,
    below: Below::Nothing,
};

const TRAP: Site = Site {
    store: Store::Io,
    key: Key::Trap,
    below: Below::Nothing,
};

/// The functions of the scheduler under a namespace: `load`, `tick`, `go`, `go8`, `h_next`, `h_run` and `h_trap`, and then one
/// for each export, which calls the function of its index. A tick keeps back so much that a piece can be run that weighs
/// `piece` with its turn.
///
/// # Errors
///
/// `Memory` where there is no room for them, or an index is no int.
pub fn emit(alloc: Global, ns: &Text, exports: &[u32], piece: u32) -> Result<Functions, Memory>
    requires { piece ≤ PIECE }
    ensures { IfOk result (λ fs. functions_view fs ≡ sched_functions ns.now piece exports.now) }
{
    let mut functions = chains(alloc, ns, piece)?;
    push_named(alloc, "h_run", run_lines(alloc, ns)?, &mut functions)?;
    push_named(alloc, "h_trap", trap_lines(alloc, ns)?, &mut functions)?;
    push_calls(alloc, ns, exports, &mut functions)?;
    Ok(functions)
}

// The functions that begin chains, and rounds.
fn chains(alloc: Global, ns: &Text, piece: u32) -> Result<Functions, Memory>
    requires { piece ≤ PIECE }
    ensures { IfOk result (λ fs. functions_view fs ≡ chain_functions ns.now piece) }
{
    let mut functions = Functions::new(alloc);
    push_named(alloc, "load", load_lines(alloc, ns)?, &mut functions)?;
    push_named(alloc, "tick", tick_lines(alloc, ns, piece)?, &mut functions)?;
    push_named(alloc, "go", go_lines(alloc, ns)?, &mut functions)?;
    push_named(alloc, "go8", group_lines(alloc, ns, piece)?, &mut functions)?;
    push_named(alloc, "h_next", next_lines(alloc, ns)?, &mut functions)?;
    Ok(functions)
}

fn push_calls(
    alloc: Global,
    ns: &Text,
    exports: &[u32],
    functions: &mut Functions,
) -> Result<(), Memory>
    ensures { OnOk result (functions_view functions.new
        ≡ functions_view functions.old ++ call_functions ns.now 0 exports.now) }
{
    for (number, func) in exports.iter().enumerate() {
        push(call_function(alloc, number, *func, ns)?, functions)?;
    }
    Ok(())
}

fn call_function(alloc: Global, number: usize, func: u32, ns: &Text) -> Result<Function, Memory>
    ensures { IfOk result (λ f. function_view f ≡ function (call_name number) (spec.call_texts ns.now func)) }
{
    let name = Text::from(format!(in alloc; "c{number}")?);
    let lines = call_lines(alloc, func, ns)?;
    Ok(Function { name, lines })
}

// Adds a function of these lines.
fn push_named(
    alloc: Global,
    name: &str,
    lines: Texts,
    functions: &mut Functions,
) -> Result<(), Memory>
    ensures { OnOk result (functions_view functions.new
        ≡ functions_view functions.old ++ (function name.now lines ∷ [])) }
{
    let name = Text::new(alloc, name)?;
    push(Function { name, lines }, functions)
}

#[tactic(auto, using(crate::proofs::EmissionLemmas::view_pushed,))]
fn push(function: Function, functions: &mut Functions) -> Result<(), Memory>
    ensures { OnOk result (functions_view functions.new
        ≡ functions_view functions.old ++ (function_view function ∷ [])) }
{
    functions.push(function)?;
    Ok(())
}

// ---- a turn

fn next_lines(alloc: Global, ns: &Text) -> Result<Texts, Memory>
    ensures { IfOk result (λ t. t ≡ spec.next_texts ns.now) }
{
    let mut lines = guard_lines(alloc, ns)?;
    command::push_run_piece(alloc, ns, &mut lines)?;
    push_end(alloc, ns, &mut lines)?;
    Ok(lines)
}

fn run_lines(alloc: Global, ns: &Text) -> Result<Texts, Memory>
    ensures { IfOk result (λ t. t ≡ spec.run_texts ns.now) }
{
    let mut lines = Texts::new(alloc);
    lines.push(command::run_told(alloc, ns)?)?;
    Ok(lines)
}

fn guard_lines(alloc: Global, ns: &Text) -> Result<Texts, Memory>
    ensures { IfOk result (λ t. t ≡ steps_texts ns.now spec.guard_steps) }
{
    let mut lines = Texts::new(alloc);
    command::push_read_state(alloc, ns, &mut lines)?;
    command::push_stop_unless_running(alloc, ns, &mut lines)?;
    Ok(lines)
}

// Adds the lines that end a turn and a tick.
fn push_end(alloc: Global, ns: &Text, lines: &mut Texts) -> Result<(), Memory>
    ensures { OnOk result (lines.new ≡ lines.old ++ spec.end_texts ns.now) }
{
    command::push_finish(alloc, ns, lines)?;
    push_trap(alloc, ns, lines)
}

fn push_trap(alloc: Global, ns: &Text, lines: &mut Texts) -> Result<(), Memory>
    ensures { OnOk result (lines.new ≡ lines.old ++ (item_text ns.now spec.trap_item ∷ [])) }
{
    let trapped = Conds::One(Cond::Holds(Check::InRange(
        Spot::Scratch(Scratch::Trap),
        Range::From(1),
    )));
    let call = Item::call_when(trapped, "h_trap", trap_items(alloc)?);
    lines.push(print_item(alloc, &call, ns)?)
}

fn trap_lines(alloc: Global, ns: &Text) -> Result<Texts, Memory>
    ensures { IfOk result (λ t. t ≡ spec.trap_texts ns.now) }
{
    let items = trap_items(alloc)?;
    print_items(alloc, items.as_slice(), ns)
}

fn trap_items(alloc: Global) -> Result<Vec<Item>, Memory>
    ensures { IfOk result (λ v. items_view v.items ≡ steps_items spec.trap_steps) }
{
    let mut items = Vec::new(alloc);
    push_steps(&trap_steps(), &mut items)?;
    Ok(items)
}

fn trap_steps() -> [Step; 2]
    ensures { steps_view result ≡ spec.trap_steps }
{
    [
        Step::Run(Act::KeepSite {
            site: TRAP,
            from: Scratch::Trap,
        }),
        Step::Run(Act::CopySite {
            to: STATE,
            from: rest(Key::Fail),
        }),
    ]
}

// ---- a tick

fn tick_lines(alloc: Global, ns: &Text, piece: u32) -> Result<Texts, Memory>
    requires { piece ≤ PIECE }
    ensures { IfOk result (λ t. t ≡ spec.tick_texts ns.now piece) }
{
    let keep_back = Step::Run(Act::Decrease {
        spot: BUDGET,
        by: piece + RESERVE,
    });
    let mut lines = guard_lines(alloc, ns)?;
    command::push_set_budget(alloc, ns, &mut lines)?;
    push_printed(alloc, &[keep_back], ns, &mut lines)?;
    push_left(alloc, 8 * piece, "go8", ns, &mut lines)?;
    push_left(alloc, 0, "go", ns, &mut lines)?;
    push_end(alloc, ns, &mut lines)?;
    Ok(lines)
}

fn go_lines(alloc: Global, ns: &Text) -> Result<Texts, Memory>
    ensures { IfOk result (λ t. t ≡ spec.go_texts ns.now) }
{
    let mut one = Texts::new(alloc);
    push_round(alloc, ns, &mut one)?;
    push_left(alloc, 0, "go", ns, &mut one)?;
    Ok(one)
}

fn group_lines(alloc: Global, ns: &Text, piece: u32) -> Result<Texts, Memory>
    requires { piece ≤ PIECE }
    ensures { IfOk result (λ t. t ≡ spec.group_texts ns.now piece) }
{
    let give_back = Step::Run(Act::Increase {
        spot: BUDGET,
        by: BACK,
    });
    let mut eight = Texts::new(alloc);
    push_rounds(alloc, ns, &mut eight)?;
    push_printed(alloc, &[give_back], ns, &mut eight)?;
    push_left(alloc, 8 * piece, "go8", ns, &mut eight)?;
    Ok(eight)
}

// Adds the lines of eight rounds.
fn push_rounds(alloc: Global, ns: &Text, lines: &mut Texts) -> Result<(), Memory>
    ensures { OnOk result (lines.new ≡ lines.old ++ spec.rounds_texts ns.now 8) }
{
    for _round in 0..8u32 {
        push_round(alloc, ns, lines)?;
    }
    Ok(())
}

// Adds the line of a round.
fn push_round(alloc: Global, ns: &Text, lines: &mut Texts) -> Result<(), Memory>
    ensures { OnOk result (lines.new ≡ lines.old ++ (cmd_text (spec.round_command ns.now) ∷ [])) }
{
    let when = Conds::One(quiet());
    let round = Item::fill_when(when, "h_run", rest(Key::Next), Vec::new(alloc));
    lines.push(print_item(alloc, &round, ns)?)
}

// Adds the line that calls a function of rounds while the job runs and so much of the budget is left.
fn push_left(
    alloc: Global,
    left: u32,
    name: &'static str,
    ns: &Text,
    lines: &mut Texts,
) -> Result<(), Memory>
    requires { left < 2147483648 }
    ensures { OnOk result (lines.new ≡ lines.old ++ (cmd_text (spec.left_command ns.now left name.now) ∷ [])) }
{
    let enough = Cond::Holds(Check::InRange(BUDGET, Range::From(left as i32)));
    let call = Item::call_when(Conds::Two(enough, quiet()), name, Vec::new(alloc));
    lines.push(print_item(alloc, &call, ns)?)
}

// Nothing has trapped, and the job isn't over.
fn quiet() -> Cond
    ensures { cond_view result ≡ spec.is_quiet }
{
    Cond::Holds(Check::InRange(Spot::Scratch(Scratch::Trap), Range::One(0)))
}

/// The act with which a piece ends its job.
pub fn end_rounds() -> Act
    ensures { act_view result ≡ spec.end_rounds }
{
    Act::SetSpot {
        spot: Spot::Scratch(Scratch::Trap),
        value: -1,
    }
}

// ---- loading, and calls from outside

fn load_lines(alloc: Global, ns: &Text) -> Result<Texts, Memory>
    ensures { IfOk result (λ t. t ≡ spec.load_texts ns.now) }
{
    let loaded = Conds::One(Cond::Holds(Check::Stands(STATE)));
    let below = set(rest(Key::Below), Leaf::EmptyList);
    let job = job(0, 4, PieceId::Init { index: 0 });
    let mut lines = print_steps(alloc, &[Step::StopWhen(loaded)], ns)?;
    command::push_add_objective(alloc, ns, &mut lines)?;
    command::push_set_frame(alloc, ns, &mut lines)?;
    push_printed(alloc, &[below], ns, &mut lines)?;
    push_printed(alloc, &job, ns, &mut lines)?;
    Ok(lines)
}

fn call_lines(alloc: Global, func: u32, ns: &Text) -> Result<Texts, Memory>
    ensures { IfOk result (λ t. t ≡ spec.call_texts ns.now func) }
{
    let job = job(2, 3, PieceId::Body { func, index: 0 });
    let mut lines = Texts::new(alloc);
    command::push_read_state(alloc, ns, &mut lines)?;
    command::push_stop_in_state(alloc, 1, ns, &mut lines)?;
    command::push_stop_in_state(alloc, 4, ns, &mut lines)?;
    command::push_take_args(alloc, ns, &mut lines)?;
    push_printed(alloc, &job, ns, &mut lines)?;
    Ok(lines)
}

// A job whose ends are these states begins with this piece.
fn job(end: u16, fail: u16, id: PieceId) -> [Step; 5]
    ensures { steps_view result ≡ spec.job_steps end fail (piece_view id) }
{
    [
        Step::Run(Act::SetSpot {
            spot: Spot::Scratch(Scratch::Trap),
            value: 0,
        }),
        set(rest(Key::End), Leaf::Int(i32::from(end))),
        set(rest(Key::Fail), Leaf::Int(i32::from(fail))),
        set(rest(Key::Next), Leaf::Piece(id)),
        set(STATE, Leaf::Int(1)),
    ]
}

fn set(site: Site, leaf: Leaf) -> Step
    ensures { step_view result ≡ run_act (set_site (site_view site) (leaf_tree leaf)) }
{
    Step::Run(Act::SetSite { site, leaf })
}

// The path to what stands under a key of the pack's own storage.
fn rest(key: Key) -> Site
    ensures { site_view result ≡ at_key in_rest (key_text key) }
{
    Site {
        store: Store::Rest,
        key,
        below: Below::Nothing,
    }
}

// ---- lists of lines

fn push_printed(alloc: Global, steps: &[Step], ns: &Text, lines: &mut Texts) -> Result<(), Memory>
    ensures { OnOk result (lines.new ≡ lines.old ++ steps_texts ns.now (steps_view steps.now)) }
{
    for step in steps {
        lines.push(print_step(alloc, *step, ns)?)?;
    }
    Ok(())
}
