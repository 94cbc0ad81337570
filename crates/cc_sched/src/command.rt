// Lines of the scheduler that no step says: commands that speak of its own scores, of its functions, of the rule and of
// the objective, and macro lines.
ghost use Rattle.std.specs.Prelude.{◌≡◌, ◌∷◌, ◌++◌, [], IfOk, OnOk, codes, map, pos};
ghost use Rattle.mc_nbt.specs.Tree.{key};
ghost use Rattle.mc_nbt.specs.View.{parts, view};
ghost use Rattle.mc_cmd.specs.Command.{data_get, execute, if_test, path_selects, pattern, plain, return_value};
ghost use Rattle.mc_cmd.specs.Command.{score_matches, store_score};
ghost use Rattle.mc_cmd.specs.Grammar.{cmd_text, line_text};
ghost use Rattle.mc_cmd.specs.Layout.{full_name};
ghost use Rattle.mc_cmd.specs.View.{range_view, simple_view, sub_view, test_view};
ghost use Rattle.cc_line.specs.State.{frame_tree};
ghost use Rattle.cc_line.specs.Step.{step_text, stop_when};
ghost use Rattle.cc_sched.specs.Sched as spec;

use mc_cmd::{CmdKind, Range, Simple, Sub, Test, print_kind};
use mc_nbt::{Memory, Nbt, NbtList, NbtMap, Path, PathPart, Text, Texts};
use std::alloc::Global;

// The holders of the scheduler's own scores.
const STATE: &str = "#h_s";

const BUDGET: &str = "#w";

// That in which pieces tell their traps.
const TRAP: &str = "#t";

// ---- the state of the pack

// Adds the line that reads it.
pub(crate) fn push_read_state(alloc: Global, ns: &Text, lines: &mut Texts) -> Result<(), Memory>
    ensures { OnOk result (lines.new ≡ lines.old ++ (step_text ns.now spec.read_state ∷ [])) }
{
    let store = store_in(alloc, STATE, ns)?;
    push_behind(alloc, store, get_state(alloc, ns)?, lines)
}

fn get_state(alloc: Global, ns: &Text) -> Result<Simple, Memory>
    ensures { IfOk result (λ s. simple_view s ≡ data_get (full_name ns.now (codes "io")) (key (codes "state") ∷ [])) }
{
    let id = own_name(alloc, "io", ns)?;
    let path = key_path(alloc, "state")?;
    Ok(Simple::DataGet { id, path })
}

// Adds the line that ends its list in another state than 1.
pub(crate) fn push_stop_unless_running(
    alloc: Global,
    ns: &Text,
    lines: &mut Texts,
) -> Result<(), Memory>
    ensures { OnOk result (lines.new ≡ lines.old ++ (step_text ns.now spec.stop_unless_running ∷ [])) }
{
    let test = test_of(alloc, STATE, Range::One(1), ns)?;
    push_stop(alloc, Sub::Test { unless: true, test }, lines)
}

// Adds the line that ends its list in the state of this number.
pub(crate) fn push_stop_in_state(
    alloc: Global,
    state: i32,
    ns: &Text,
    lines: &mut Texts,
) -> Result<(), Memory>
    ensures { OnOk result (lines.new ≡ lines.old ++ (step_text ns.now (stop_when (spec.is_in_state state ∷ [])) ∷ [])) }
{
    push_stop(alloc, if_in(alloc, STATE, Range::One(state), ns)?, lines)
}

// ---- pieces

// Adds the line that runs the piece that is next.
pub(crate) fn push_run_piece(alloc: Global, ns: &Text, lines: &mut Texts) -> Result<(), Memory>
    ensures { OnOk result (lines.new ≡ lines.old ++ (cmd_text (spec.run_command ns.now) ∷ [])) }
{
    let run = run_next(alloc, ns)?;
    push_plain(alloc, run, lines)
}

// Adds the line that runs it where it ends the job.
pub(crate) fn push_finish(alloc: Global, ns: &Text, lines: &mut Texts) -> Result<(), Memory>
    ensures { OnOk result (lines.new ≡ lines.old ++ (cmd_text (spec.finish_command ns.now) ∷ [])) }
{
    let quiet = if_in(alloc, TRAP, Range::One(0), ns)?;
    let ends = if_ends(alloc, ns)?;
    let run = run_next(alloc, ns)?;
    push_under(alloc, vec![in alloc; quiet, ends]?, run, lines)
}

fn run_next(alloc: Global, ns: &Text) -> Result<Simple, Memory>
    ensures { IfOk result (λ s. simple_view s ≡ spec.run_call ns.now) }
{
    let name = own_name(alloc, "h_run", ns)?;
    let id = own_name(alloc, "c", ns)?;
    let path = key_path(alloc, "n")?;
    Ok(Simple::FunctionWith { name, id, path })
}

// The condition that its name tells that it ends the job.
fn if_ends(alloc: Global, ns: &Text) -> Result<Sub, Memory>
    ensures { IfOk result (λ s. sub_view s
        ≡ if_test (path_selects (full_name ns.now (codes "c")) (key (codes "n") ∷ (key (codes "e") ∷ [])))) }
{
    let id = own_name(alloc, "c", ns)?;
    let next = PathPart::Key(Text::new(alloc, "n")?);
    let ends = PathPart::Key(Text::new(alloc, "e")?);
    let path = path_of(vec![in alloc; next, ends]?)?;
    Ok(Sub::Test {
        unless: false,
        test: Test::Stored { id, path },
    })
}

// ---- a tick

// Adds the line that makes the rule's number the budget.
pub(crate) fn push_set_budget(alloc: Global, ns: &Text, lines: &mut Texts) -> Result<(), Memory>
    ensures { OnOk result (lines.new ≡ lines.old ++ (cmd_text (spec.budget_command ns.now) ∷ [])) }
{
    let store = store_in(alloc, BUDGET, ns)?;
    push_behind(alloc, store, Simple::ChainLength, lines)
}

// ---- loading, and calls from outside

// Adds the line that adds the objective.
pub(crate) fn push_add_objective(alloc: Global, ns: &Text, lines: &mut Texts) -> Result<(), Memory>
    ensures { OnOk result (lines.new ≡ lines.old ++ (cmd_text (spec.load_objective ns.now) ∷ [])) }
{
    let obj = ns.clone()?;
    push_plain(alloc, Simple::ObjectiveAdd { obj }, lines)
}

// Adds the line that sets a frame of no places.
pub(crate) fn push_set_frame(alloc: Global, ns: &Text, lines: &mut Texts) -> Result<(), Memory>
    ensures { OnOk result (lines.new ≡ lines.old ++ (cmd_text (spec.load_frame ns.now) ∷ [])) }
{
    let set = Simple::SetValue {
        id: own_name(alloc, "c", ns)?,
        path: key_path(alloc, "t")?,
        value: empty_frame(alloc)?,
    };
    push_plain(alloc, set, lines)
}

fn empty_frame(alloc: Global) -> Result<Nbt, Memory>
    ensures { IfOk result (λ t. view t ≡ frame_tree []) }
{
    let places = Nbt::List(NbtList::Ints(Vec::new(alloc)));
    let mut entries = Vec::new(alloc);
    entries.push((Text::new(alloc, "f")?, places))?;
    Ok(Nbt::Compound(NbtMap::from_entries(entries)))
}

// Adds the line that takes the arguments of a call.
pub(crate) fn push_take_args(alloc: Global, ns: &Text, lines: &mut Texts) -> Result<(), Memory>
    ensures { OnOk result (lines.new ≡ lines.old ++ (step_text ns.now spec.take_args ∷ [])) }
{
    let id = own_name(alloc, "c", ns)?;
    let path = key_path(alloc, "a")?;
    let from_id = own_name(alloc, "io", ns)?;
    let from_path = key_path(alloc, "args")?;
    let take = Simple::SetFrom {
        id,
        path,
        from_id,
        from_path,
    };
    push_plain(alloc, take, lines)
}

// ---- the macro line

// The line that runs the piece whose two numbers are told.
#[tactic(auto, using(crate::proofs::MacroLemmas::run_spelled,))]
pub(crate) fn run_told(alloc: Global, ns: &Text) -> Result<Text, Memory>
    ensures { IfOk result (λ t. t ≡ line_text (pattern (spec.run_pattern ns.now))) }
{
    Ok(Text::from(format!(in alloc; "$function {ns}:f$(i)_$(j)")?))
}

// ---- words and commands

fn own_name(alloc: Global, name: &str, ns: &Text) -> Result<Text, Memory>
    ensures { IfOk result (λ t. t ≡ full_name ns.now name.now) }
{
    Ok(Text::from(format!(in alloc; "{ns}:{name}")?))
}

// The path to what stands under a key.
fn key_path(alloc: Global, name: &str) -> Result<Path, Memory>
    ensures { IfOk result (λ p. parts p ≡ key name.now ∷ []) }
{
    let mut steps = Vec::new(alloc);
    steps.push(PathPart::Key(Text::new(alloc, name)?))?;
    path_of(steps)
}

fn path_of(steps: Vec<PathPart>) -> Result<Path, Memory>
    ensures { IfOk result (λ p. p ≡ steps.items) }
{
    match Path::new(steps) {
        Some(path) => Ok(path),
        None => Err(Memory),
    }
}

fn store_in(alloc: Global, holder: &str, ns: &Text) -> Result<Sub, Memory>
    ensures { IfOk result (λ s. sub_view s ≡ store_score holder.now ns.now) }
{
    let holder = Text::new(alloc, holder)?;
    let obj = ns.clone()?;
    Ok(Sub::StoreScore { holder, obj })
}

fn test_of(alloc: Global, holder: &str, range: Range, ns: &Text) -> Result<Test, Memory>
    ensures { IfOk result (λ t. test_view t ≡ score_matches holder.now ns.now (range_view range)) }
{
    let holder = Text::new(alloc, holder)?;
    let obj = ns.clone()?;
    Ok(Test::Matches { holder, obj, range })
}

// The condition that a score is in a range.
fn if_in(alloc: Global, holder: &str, range: Range, ns: &Text) -> Result<Sub, Memory>
    ensures { IfOk result (λ s. sub_view s ≡ if_test (score_matches holder.now ns.now (range_view range))) }
{
    let test = test_of(alloc, holder, range, ns)?;
    Ok(Sub::Test {
        unless: false,
        test,
    })
}

fn push_stop(alloc: Global, sub: Sub, lines: &mut Texts) -> Result<(), Memory>
    ensures { OnOk result (lines.new
        ≡ lines.old ++ (cmd_text (execute (sub_view sub ∷ []) (return_value (pos 0))) ∷ [])) }
{
    push_behind(alloc, sub, Simple::Return { value: 0 }, lines)
}

fn push_plain(alloc: Global, simple: Simple, lines: &mut Texts) -> Result<(), Memory>
    ensures { OnOk result (lines.new ≡ lines.old ++ (cmd_text (plain (simple_view simple)) ∷ [])) }
{
    let line = print_plain(alloc, simple)?;
    lines.push(line)
}

fn print_plain(alloc: Global, simple: Simple) -> Result<Text, Memory>
    ensures { IfOk result (λ t. t ≡ cmd_text (plain (simple_view simple))) }
{
    print_kind(alloc, &CmdKind::Simple(simple))
}

fn push_behind(alloc: Global, sub: Sub, run: Simple, lines: &mut Texts) -> Result<(), Memory>
    ensures { OnOk result (lines.new ≡ lines.old ++ (cmd_text (execute (sub_view sub ∷ []) (simple_view run)) ∷ [])) }
{
    let mut subs = Vec::new(alloc);
    subs.push(sub)?;
    push_under(alloc, subs, run, lines)
}

fn push_under(alloc: Global, subs: Vec<Sub>, run: Simple, lines: &mut Texts) -> Result<(), Memory>
    ensures { OnOk result (lines.new
        ≡ lines.old ++ (cmd_text (execute (map sub_view subs.items) (simple_view run)) ∷ [])) }
{
    let line = print_under(alloc, subs, run)?;
    lines.push(line)
}

fn print_under(alloc: Global, subs: Vec<Sub>, run: Simple) -> Result<Text, Memory>
    ensures { IfOk result (λ t. t ≡ cmd_text (execute (map sub_view subs.items) (simple_view run))) }
{
    print_kind(alloc, &CmdKind::Execute { subs, run })
}
