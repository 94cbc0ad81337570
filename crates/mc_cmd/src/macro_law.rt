// Laws of macro lines, which the crates above cite: the contract of each function is the law, and it does nothing.
ghost use Rattle.std.specs.Prelude.{◌≡◌, ◌∷◌, [], ◌+◌, ℕ, List, Some, true, nat_le};
ghost use Rattle.mc_nbt.specs.Tree.{Fields, Part, Tree, compound, select};
ghost use Rattle.mc_cmd.specs.Chain.{Functions};
ghost use Rattle.mc_cmd.specs.Command.{call_with, command, pattern, plain};
ghost use Rattle.mc_cmd.specs.Fill.{fill, filled};
ghost use Rattle.mc_cmd.specs.Grammar.{line_said, most};
ghost use Rattle.mc_cmd.specs.steps.MacroBody.{AllReady, BodyLine, body_text, body_with, cmds_text, macro_fits, room};
ghost use Rattle.mc_cmd.specs.steps.OpenText.{Chunk, Gives, Ints, chunks_text, macro_text, pattern_of};
ghost use Rattle.mc_cmd.specs.steps.Straight.{Falls, Runs};
ghost use Rattle.mc_cmd.specs.World.{World, tree_in};

/// Law: the pattern of an open text is filled to the text with the ints that the tree gives.
pub fn open_text_is_filled()
    ensures { (cs : List Chunk) → (v : Tree) → (r : Ints) → Gives v r cs → fill (pattern_of cs) v ≡ filled (chunks_text r cs) }
{}

/// Law: the macro line of an open text says its pattern.
pub fn macro_line_is_a_pattern()
    ensures { (cs : List Chunk) → macro_fits cs ≡ true → nat_le (room cs) most ≡ true → line_said (macro_text cs) ≡ Some (pattern (pattern_of cs)) }
{}

/// Law: the call of a function with macro lines runs the commands with the ints of the compound that it is called
/// with, and weighs one more than they do.
pub fn call_runs_the_filled_lines()
    ensures { (functions : Functions) → (t : List ℕ) → (f : List ℕ) → (i : List ℕ) → (qs : List Part) → (ls : List BodyLine) → (fs : Fields) → (r : Ints) → (w : World) → (u : World) → (k : ℕ)
        → line_said t ≡ Some (command (plain (call_with f i qs)))
        → functions f ≡ Some (body_text ls)
        → select (tree_in w i) qs ≡ Some (compound fs)
        → AllReady (compound fs) r ls
        → Runs functions (cmds_text (body_with r ls)) w k u
        → Falls functions (t ∷ []) w (1 + k) u }
{}
