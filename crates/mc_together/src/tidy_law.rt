// Laws of tidy lines, and of the chains of one tidy pack. They speak of what `mc_cmd` defines and of no second pack,
// and would stand as well in that crate; they stand here since all crates stand on it.
ghost use Rattle.std.specs.Prelude.{◌≡◌, List, ℕ, Some, false, true};
ghost use Rattle.mc_nbt.specs.Tree.{Fields, compound};
ghost use Rattle.mc_cmd.specs.Command as command;
ghost use Rattle.mc_cmd.specs.Fill.{fill, filled};
ghost use Rattle.mc_cmd.specs.Foreign.{IsKept, is_own};
ghost use Rattle.mc_cmd.specs.Grammar.{line_said};
ghost use Rattle.mc_cmd.specs.Pack.{Pack, chain_in};
ghost use Rattle.mc_cmd.specs.Tidy.{cmd_is_tidy, is_tidy};
ghost use Rattle.mc_cmd.specs.Word.{is_namespace};
ghost use Rattle.mc_cmd.specs.World.{World};
ghost use Rattle.mc_together.specs.Bare.{is_bare};
ghost use Rattle.mc_together.specs.Part.{Bare, IsTidyPack};

/// Law: a macro line that is tidy, filled by a compound without strings, says a command that names nothing outside the
/// namespace, if it says one.
pub fn filled_tidy_lines_are_tidy()
    ensures { (ns : List ℕ) → (t : List ℕ) → (ps : List command.PatternPart) → (fs : Fields) → (u : List ℕ)
        → (c : command.Cmd) → line_said t ≡ Some (command.pattern ps) → is_tidy ns t ≡ true
        → is_bare (compound fs) ≡ true → fill ps (compound fs) ≡ filled u → line_said u ≡ Some (command.command c)
        → cmd_is_tidy ns c ≡ true }
{}

/// Law: a chain of a tidy pack's function, over a world in which no string stands in the pack's storages, leaves each
/// name that isn't the pack's own as it was, and brings no string into its storages.
pub fn chains_of_a_tidy_pack_keep_to_its_names()
    ensures kept { (p : Pack) → is_namespace p.index.ns ≡ true → IsTidyPack p → (name : List ℕ) → (q : ℕ)
        → (w : World) → Bare p.index.ns w → (n : List ℕ) → is_own p.index.ns n ≡ false
        → IsKept n w (chain_in p name q w).world }
    ensures bare { (p : Pack) → is_namespace p.index.ns ≡ true → IsTidyPack p → (name : List ℕ) → (q : ℕ)
        → (w : World) → Bare p.index.ns w → Bare p.index.ns (chain_in p name q w).world }
{}
