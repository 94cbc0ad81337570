// Laws of the scheduler, which the crates above cite: the contract of each function is the law, and it does nothing.
ghost use Rattle.std.specs.Prelude.{◌≡◌, ◌≤◌, ◌<◌, ◌+◌, ℕ, List, pos, Some, codes, false, length, nat_lt, slice_get};
ghost use Rattle.std.specs.Prelude.{true, ℤ};
ghost use Rattle.std.specs.List.{AllByRecursion, list_all};
ghost use Rattle.mc_nbt.specs.Tree.{Tree, depth, int};
ghost use Rattle.mc_cmd.specs.Chain.{Functions};
ghost use Rattle.mc_cmd.specs.Command.{Cmd};
ghost use Rattle.mc_cmd.specs.Layout.{full_name};
ghost use Rattle.mc_cmd.specs.Pack.{IsBudget, IsForeign};
ghost use Rattle.mc_cmd.specs.Word.{is_function_name, is_namespace};
ghost use Rattle.mc_cmd.specs.World.{World, cmd_effect};
ghost use Rattle.cc_line.specs.Key.{PieceId, key_state};
ghost use Rattle.cc_line.specs.Sight.{Shows, Sight, in_io};
ghost use Rattle.cc_line.specs.State.{State, seen};
ghost use Rattle.mc_cmd.specs.declared.TheConstants.{BMIN, PIECE};
ghost use Rattle.cc_line.specs.Item.{AllTidy, HasAll, Items, ItemsReady, items_fit, items_helpers, items_most};
ghost use Rattle.cc_line.specs.Item.{run_items};
ghost use Rattle.cc_text.specs.Short.{AllShort, items_short};
ghost use Rattle.cc_sched.specs.Charge.{Paid, charge, exits, items_avoid_sched};
ghost use Rattle.cc_sched.specs.Functions.{sched_functions};
ghost use Rattle.cc_sched.specs.Names.{PieceFits, call_name, load_name, next_name, tick_name};
ghost use Rattle.cc_sched.specs.Pieces.{Idle, IsPieceWeight, Named, Stands, Steady, guarded, piece_of, tick_start};
ghost use Rattle.cc_sched.specs.Pieces.{turn_weight};
ghost use Rattle.cc_sched.specs.Sched.{HasSched, call_texts};
ghost use Rattle.cc_sched.specs.Turn.{Begun, LoadsFirst, Ticked, Turned, Whole, called_state, is_refused};

/// Law: in the state 1 a turn runs the piece that is named, behind it one that ends the job, where such a piece is next
/// then, and tells the trap; its chain isn't cut where its quota is what a piece may weigh. Then no piece that ends the
/// job is next. In another state it does nothing but read the state. Nothing outside the namespace differs.
pub fn turns_run_a_piece()
    ensures runs { (functions : Functions) → (ns : List ℕ) → (program : PieceId → Items) → (piece : ℕ)
        → is_namespace ns ≡ true → HasSched functions ns piece → (s : State)
        → s.keys in_io key_state ≡ Some (int (pos 1)) → (p : Named functions ns program piece (guarded s))
        → Stands functions ns program piece (run_items (program p.id) (guarded s)).state
        → (quota : ℕ) → piece ≤ quota → (w : World) → Shows ns w (seen s)
        → Turned functions ns program piece quota w (run_items (program p.id) (guarded s)).state }
    ensures rests { (functions : Functions) → (ns : List ℕ) → (piece : ℕ) → is_namespace ns ≡ true
        → HasSched functions ns piece → (s : State) → Idle s → (quota : ℕ) → 4 ≤ quota → (w : World)
        → Shows ns w (seen s) → Whole functions ns next_name quota w (seen (guarded s)) }
{}

/// Law: in the state 1 a tick with a budget from `least` on, where a piece may weigh 48 less than that, isn't cut. It
/// is rounds, each of which runs the piece that is named and takes its charge, and then the trap is told: at least one
/// round for each whole `least` of the budget, unless the job is over. Then no piece that ends the job is next. In
/// another state it does nothing but read the state. Nothing outside the namespace differs.
pub fn ticks_are_rounds()
    ensures runs { (functions : Functions) → (ns : List ℕ) → (program : PieceId → Items) → (piece : ℕ)
        → is_namespace ns ≡ true → HasSched functions ns piece → (least : ℕ) → turn_weight ≤ piece → piece < 200000000
        → piece + 48 ≤ least
        → (s : State) → (b : ℕ) → s.keys in_io key_state ≡ Some (int (pos 1))
        → Steady functions ns program piece (tick_start piece b s) → least ≤ b → b < 2147483648 → (w : World)
        → Shows ns w (seen s) → w.rule ≡ pos b → Ticked functions ns program piece least b w s }
    ensures rests { (functions : Functions) → (ns : List ℕ) → (piece : ℕ) → is_namespace ns ≡ true
        → HasSched functions ns piece → piece < 200000000 → (s : State) → Idle s → (b : ℕ) → 4 ≤ b → (w : World)
        → Shows ns w (seen s) → Whole functions ns tick_name b w (seen (guarded s)) }
{}

/// Law: where the pack has a state, a reload changes nothing that is seen of the namespace, and nothing outside of it.
/// Nor does a lawful command of somebody else change what is seen of the namespace.
pub fn reloads_and_foreign_commands_change_nothing()
    ensures reload { (functions : Functions) → (ns : List ℕ) → (piece : ℕ) → is_namespace ns ≡ true
        → HasSched functions ns piece → (s : State) → (t : Tree) → s.keys in_io key_state ≡ Some t → (quota : ℕ)
        → 2 ≤ quota → (w : World) → Shows ns w (seen s) → Whole functions ns load_name quota w (seen s) }
    ensures foreign { (ns : List ℕ) → (c : Cmd) → (w : World) → (v : Sight) → IsForeign ns c → Shows ns w v
        → Shows ns (cmd_effect c w).world v }
{}

/// Law: items that name no score of the scheduler do with their charges what they do without them, but for the budget:
/// what they take from it covers what is run. It is exactly that where the items weigh the same in every state. What
/// they need they find.
pub fn charges_cover_what_is_run()
    ensures { (xs : Items) → (s : State) → items_avoid_sched xs ≡ true → ItemsReady xs s → Paid xs s }
{}

/// Law: items with their charges weigh at most one more for each way out, of which there are few; they fit where the
/// items do; and they call the same helpers.
pub fn charges_change_little()
    ensures most { (n : ℕ) → (xs : Items) → items_most (charge n xs) ≡ items_most xs + exits xs }
    ensures few { (xs : Items) → exits xs ≤ items_most xs + 1 }
    ensures fits { (n : ℕ) → (xs : Items) → items_fit xs ≡ true → n + items_most xs ≤ 1000000000
        → items_fit (charge n xs) ≡ true }
    ensures helpers { (ns : List ℕ) → (n : ℕ) → (xs : Items)
        → items_helpers ns (charge n xs) ≡ items_helpers ns xs }
{}

/// Law: what is run for a piece leads where its items lead, and weighs at most one more. It fits, finds what it needs, names
/// no score of the scheduler and is short where they are so.
pub fn pieces_run_their_items()
    ensures leads { (i : PieceId) → (xs : Items) → (s : State)
        → (run_items (piece_of i xs) s).state ≡ (run_items xs s).state }
    ensures ready { (i : PieceId) → (xs : Items) → (s : State) → ItemsReady xs s → ItemsReady (piece_of i xs) s }
    ensures most { (i : PieceId) → (xs : Items) → items_most (piece_of i xs) ≤ items_most xs + 1 }
    ensures fits { (i : PieceId) → (xs : Items) → PieceFits i → items_fit xs ≡ true → items_fit (piece_of i xs) ≡ true }
    ensures avoids { (i : PieceId) → (xs : Items) → items_avoid_sched xs ≡ true
        → items_avoid_sched (piece_of i xs) ≡ true }
    ensures short { (i : PieceId) → (xs : Items) → items_short xs ≡ true → items_short (piece_of i xs) ≡ true }
{}

/// Law: a pack that has the functions of the scheduler by their names has the scheduler, and the function that calls an
/// export has the lines of the call.
pub fn packs_with_its_functions_have_the_scheduler()
    ensures sched { (functions : Functions) → (ns : List ℕ) → (piece : ℕ) → (exports : List ℕ)
        → HasAll functions ns (sched_functions ns piece exports) → HasSched functions ns piece }
    ensures calls { (functions : Functions) → (ns : List ℕ) → (piece : ℕ) → (exports : List ℕ)
        → HasAll functions ns (sched_functions ns piece exports) → (k f : ℕ) → slice_get exports k ≡ Some f
        → functions (full_name ns (call_name k)) ≡ Some (call_texts ns f) }
{}

/// Law: the lines of the scheduler's functions are tidy under every namespace. So each is a line. Their names are names
/// of functions.
pub fn lines_of_the_scheduler_are_tidy()
    ensures lines { (ns : List ℕ) → is_namespace ns ≡ true → (piece : ℕ) → piece < 200000000 → (exports : List ℕ)
        → list_all (λ f. nat_lt f 2147483648) exports ≡ true → AllTidy ns (sched_functions ns piece exports) }
    ensures names { (ns : List ℕ) → (piece : ℕ) → (exports : List ℕ) → length exports < 2147483648
        → list_all (λ h. is_function_name h.name) (sched_functions ns piece exports) ≡ true }
{}

/// Law: where the heaviest piece weighs at most `PIECE` with a turn, this quota is enough for a turn, and the least budget
/// of a tick for one round and what a tick keeps back. So turns, ticks, reloads and calls are as the laws say.
pub fn budgets_are_enough()
    ensures turns { (functions : Functions) → (ns : List ℕ) → is_namespace ns ≡ true → (piece : ℕ)
        → IsPieceWeight piece → HasSched functions ns piece → (program : PieceId → Items) → (s : State)
        → s.keys in_io key_state ≡ Some (int (pos 1)) → (p : Named functions ns program piece (guarded s))
        → Stands functions ns program piece (run_items (program p.id) (guarded s)).state
        → (w : World) → Shows ns w (seen s)
        → Turned functions ns program piece PIECE w (run_items (program p.id) (guarded s)).state }
    ensures waits { (functions : Functions) → (ns : List ℕ) → is_namespace ns ≡ true → (piece : ℕ)
        → IsPieceWeight piece → HasSched functions ns piece → (s : State) → Idle s → (w : World) → Shows ns w (seen s)
        → Whole functions ns next_name PIECE w (seen (guarded s)) }
    ensures ticks { (functions : Functions) → (ns : List ℕ) → is_namespace ns ≡ true → (piece : ℕ)
        → IsPieceWeight piece → HasSched functions ns piece → (program : PieceId → Items) → (s : State) → (b : ℕ)
        → s.keys in_io key_state ≡ Some (int (pos 1)) → Steady functions ns program piece (tick_start piece b s)
        → IsBudget b → (w : World) → Shows ns w (seen s) → w.rule ≡ pos b
        → Ticked functions ns program piece BMIN b w s }
    ensures rests { (functions : Functions) → (ns : List ℕ) → is_namespace ns ≡ true → (piece : ℕ)
        → IsPieceWeight piece → HasSched functions ns piece → (s : State) → Idle s → (b : ℕ) → IsBudget b
        → (w : World) → Shows ns w (seen s) → Whole functions ns tick_name b w (seen (guarded s)) }
    ensures reloads { (functions : Functions) → (ns : List ℕ) → is_namespace ns ≡ true → (piece : ℕ)
        → IsPieceWeight piece → HasSched functions ns piece → (s : State) → (t : Tree)
        → s.keys in_io key_state ≡ Some t → (b : ℕ) → IsBudget b → (w : World) → Shows ns w (seen s)
        → Whole functions ns load_name b w (seen s) }
    ensures calls { (functions : Functions) → (ns : List ℕ) → is_namespace ns ≡ true → (k f : ℕ) → f < 2147483648
        → functions (full_name ns (call_name k)) ≡ Some (call_texts ns f) → (s : State) → (w : World)
        → Shows ns w (seen s) → Whole functions ns (call_name k) BMIN w (seen (called_state f s)) }
{}

/// Law: `load` from the empty world isn't cut, and leaves the objective and a state in which the first piece of
/// instantiation is next.
pub fn loading_begins_instantiation()
    ensures { (functions : Functions) → (ns : List ℕ) → (piece : ℕ) → is_namespace ns ≡ true
        → HasSched functions ns piece → LoadsFirst functions ns }
{}

/// Law: the function of an export runs the lines of its call and isn't cut. In the states 1 and 4 these read the state
/// and do nothing else. In another one they take the arguments, and a job of the function begins.
pub fn calls_begin_a_job()
    ensures runs { (functions : Functions) → (ns : List ℕ) → is_namespace ns ≡ true → (k f : ℕ) → f < 2147483648
        → functions (full_name ns (call_name k)) ≡ Some (call_texts ns f) → (s : State) → (quota : ℕ) → 12 ≤ quota
        → (w : World) → Shows ns w (seen s) → Whole functions ns (call_name k) quota w (seen (called_state f s)) }
    ensures refused { (f : ℕ) → (s : State) → (z : ℤ) → s.keys in_io key_state ≡ Some (int z) → is_refused z ≡ true
        → called_state f s ≡ guarded s }
    ensures begins { (f : ℕ) → (s : State) → (z : ℤ) → (t : Tree) → s.keys in_io key_state ≡ Some (int z)
        → is_refused z ≡ false → s.keys in_io (codes "args") ≡ Some t → depth t ≤ 63 → Begun f t (called_state f s) }
{}

/// Law: under every namespace each of the scheduler's functions can be kept in a file, and items with their charges are
/// short where the items are.
pub fn items_are_short()
    ensures functions { (ns : List ℕ) → is_namespace ns ≡ true → (piece : ℕ) → piece ≤ 1000000 → (exports : List ℕ)
        → AllByRecursion (λ f. f < 2147483648) exports → AllShort (sched_functions ns piece exports) }
    ensures charges { (n : ℕ) → (xs : Items) → items_short xs ≡ true → items_short (charge n xs) ≡ true }
{}
