// Laws of the command language, which the crates above cite: the contract of each function is the law, and it does
// nothing.
ghost use Rattle.std.specs.Prelude.{◌≡◌, ◌<◌, ◌≤◌, ◌-◌, ◌∷◌, ◌++◌, [], ℕ, List, length, false, true, Some, pos, negsuc, nat_le};
ghost use Rattle.std.specs.Str.{bytes_eq};
ghost use Rattle.mc_nbt.specs.Path.{Apart, Outlives};
ghost use Rattle.mc_nbt.specs.Tree.{Part, Tree, list_of, place, select};
ghost use Rattle.mc_cmd.specs.Chain.{Functions, Texts, act, chain, line_of, line_weight, pattern_weight};
ghost use Rattle.mc_cmd.specs.Command as command;
ghost use Rattle.mc_cmd.specs.Fill.{fill, filled};
ghost use Rattle.mc_cmd.specs.Foreign.{IsKept, is_own};
ghost use Rattle.mc_cmd.specs.Grammar.{IsReader, Says, line_fits, line_said, line_text, most};
ghost use Rattle.mc_cmd.specs.Pack.{IsForeign};
ghost use Rattle.mc_cmd.specs.Pattern.{pattern_fits};
ghost use Rattle.mc_cmd.specs.World.{World, changed_at, cmd_effect, effect, put_at, tree_in};

/// Law: a text says at most one line, the one that the reader of `specs/Grammar.antt` answers.
pub fn text_says_one_line()
    ensures { IsReader line_said }
{}

/// Law: a line other than nothing has at most one text.
pub fn line_has_one_text()
    ensures { (t : List ℕ) → (u : List ℕ) → (l : command.Line) → (l ≡ command.nothing → ⊥) → Says t l → Says u l → t ≡ u }
{}

/// Law: what is printed of a line of the grammar says the line, where it isn't too long.
pub fn print_says_the_line()
    ensures { (l : command.Line) → line_fits l ≡ true → nat_le (length (line_text l)) most ≡ true → Says (line_text l) l }
{}

/// Law: a filled line weighs at most what its pattern weighs.
pub fn filled_line_weighs_no_more()
    ensures { (ps : List command.PatternPart) → (v : Tree) → (t : List ℕ) → (l : command.Line) → pattern_fits ps ≡ true → fill ps v ≡ filled t → line_said t ≡ Some l → line_weight l ≤ pattern_weight ps }
{}

/// Law: a line runs exactly where its weight is at most what is left of the quota, and takes that much; else the
/// chain is cut there, and what is left stays. A line that says nothing weighs nothing.
pub fn line_runs_within_its_weight()
    ensures runs { (functions : Functions) → (left : ℕ) → (w : World) → (t : List ℕ) → (c : command.Cmd) → (ts : Texts) → (ps : List Texts) → line_of t ≡ command.command c → line_weight (line_of t) ≤ left → chain functions left w ((t ∷ ts) ∷ ps) ≡ (let a = act functions w c ts ps in chain functions (left - line_weight (line_of t)) a.world a.pending) }
    ensures cut { (functions : Functions) → (left : ℕ) → (w : World) → (t : List ℕ) → (c : command.Cmd) → (ts : Texts) → (ps : List Texts) → line_of t ≡ command.command c → left < line_weight (line_of t) → chain functions left w ((t ∷ ts) ∷ ps) ≡ record { world = w; left = left; cut = true } }
    ensures nothing { (functions : Functions) → (left : ℕ) → (w : World) → (t : List ℕ) → (ts : Texts) → (ps : List Texts) → line_of t ≡ command.nothing → chain functions left w ((t ∷ ts) ∷ ps) ≡ chain functions left w (ts ∷ ps) }
{}

/// Law: a path that parts from the one at which a command puts a value into a storage selects what it selected
/// before.
pub fn values_put_leave_other_paths_alone()
    ensures { (s : command.Simple) → (w : World) → (i : List ℕ) → (ps : List Part) → (qs : List Part) → put_at s ≡ Some (i, ps) → Apart ps qs → select (tree_in (effect s w).world i) qs ≡ select (tree_in w i) qs }
{}

/// Law: a path that outlives the one whose value is removed from a storage selects what it selected before.
pub fn removal_leaves_other_paths_alone()
    ensures { (w : World) → (i : List ℕ) → (ps : List Part) → (qs : List Part) → Outlives ps qs → select (tree_in (effect (command.data_remove i ps) w).world i) qs ≡ select (tree_in w i) qs }
{}

/// Law: what is appended to a list in a storage is its last element, where the command succeeds: the value, or what
/// the other path selects. What stood at a place of it from the front, or inside of it, stands there still.
pub fn appended_elements_are_last()
    ensures value { (w : World) → (i : List ℕ) → (ps : List Part) → (v : Tree)
        → (effect (command.append_value i ps v) w).success ≡ true
        → select (tree_in (effect (command.append_value i ps v) w).world i) (ps ++ place (negsuc 0) ∷ []) ≡ Some v }
    ensures copy { (w : World) → (i : List ℕ) → (ps : List Part) → (j : List ℕ) → (qs : List Part) → (v : Tree)
        → select (tree_in w j) qs ≡ Some v
        → (effect (command.append_from i ps j qs) w).success ≡ true
        → select (tree_in (effect (command.append_from i ps j qs) w).world i) (ps ++ place (negsuc 0) ∷ []) ≡ Some v }
    ensures kept { (w : World) → (i : List ℕ) → (ps : List Part) → (v : Tree) → (u : Tree) → (n : ℕ) → (rs : List Part)
        → select (tree_in w i) (ps ++ place (pos n) ∷ rs) ≡ Some u
        → select (tree_in (effect (command.append_value i ps v) w).world i) (ps ++ place (pos n) ∷ rs) ≡ Some u }
    ensures kept_by_copy { (w : World) → (i : List ℕ) → (ps : List Part) → (j : List ℕ) → (qs : List Part) → (u : Tree)
        → (n : ℕ) → (rs : List Part)
        → select (tree_in w i) (ps ++ place (pos n) ∷ rs) ≡ Some u
        → select (tree_in (effect (command.append_from i ps j qs) w).world i) (ps ++ place (pos n) ∷ rs) ≡ Some u }
{}

/// Law: the removal of the last element of a list in a storage leaves the list without it, where the command succeeds.
/// What stood at a place before it, or inside of that, stands there still.
pub fn removal_of_the_last_leaves_elements_before()
    ensures last { (w : World) → (i : List ℕ) → (ps : List Part) → (ts : List Tree) → (v : Tree)
        → select (tree_in w i) ps ≡ Some (list_of (ts ++ v ∷ []))
        → (effect (command.data_remove i (ps ++ place (negsuc 0) ∷ [])) w).success ≡ true
        → select (tree_in (effect (command.data_remove i (ps ++ place (negsuc 0) ∷ [])) w).world i) ps ≡ Some (list_of ts) }
    ensures before { (w : World) → (i : List ℕ) → (ps : List Part) → (ts : List Tree) → (v : Tree) → (n : ℕ)
        → (rs : List Part)
        → select (tree_in w i) ps ≡ Some (list_of (ts ++ v ∷ []))
        → n < length ts
        → select (tree_in (effect (command.data_remove i (ps ++ place (negsuc 0) ∷ [])) w).world i) (ps ++ place (pos n) ∷ rs)
        ≡ select (tree_in w i) (ps ++ place (pos n) ∷ rs) }
{}

/// Law: a command that changes one storage leaves the others, the objectives, the scores and the rule as they were.
pub fn storages_are_apart()
    ensures storages { (s : command.Simple) → (w : World) → (i : List ℕ) → (ps : List Part) → (j : List ℕ) → changed_at s ≡ Some (i, ps) → bytes_eq i j ≡ false → (effect s w).world.storages j ≡ w.storages j }
    ensures objectives { (s : command.Simple) → (w : World) → (i : List ℕ) → (ps : List Part) → changed_at s ≡ Some (i, ps) → (effect s w).world.objectives ≡ w.objectives }
    ensures scores { (s : command.Simple) → (w : World) → (i : List ℕ) → (ps : List Part) → changed_at s ≡ Some (i, ps) → (effect s w).world.scores ≡ w.scores }
    ensures rule { (s : command.Simple) → (w : World) → (i : List ℕ) → (ps : List Part) → changed_at s ≡ Some (i, ps) → (effect s w).world.rule ≡ w.rule }
{}

/// Law: a command of somebody else leaves each name that is the namespace's own as it was: its objective with the
/// scores, and its three storages.
pub fn foreign_commands_leave_own_names_alone()
    ensures { (ns : List ℕ) → (c : command.Cmd) → (w : World) → (n : List ℕ) → IsForeign ns c → is_own ns n ≡ true → IsKept n w (cmd_effect c w).world }
{}
