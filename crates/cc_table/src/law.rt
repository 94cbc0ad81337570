// Laws of looking numbers up, which the crates above cite: the contract of each function is the law, and it does nothing.
ghost use Rattle.std.specs.Prelude.{◌≡◌, ◌++◌, ◌∷◌, [], ℕ, ℤ, List, true};
ghost use Rattle.wm_ast.specs.declared.module.Module.{Module};
ghost use Rattle.wm_flat.specs.Program.{IsProgram};
ghost use Rattle.cc_line.specs.State.{ints};
ghost use Rattle.cc_text.specs.Short.{items_short, tree_short};
ghost use Rattle.cc_table.specs.Law.{LooksAreLines, NumbersAreFound, TargetsAreFound, TargetsAreLines};
ghost use Rattle.cc_table.specs.Look.{find_items, look_items};
ghost use Rattle.cc_table.specs.Target.{target_items};

/// Law: a number is looked up in a table by an index, taken as unsigned, and what tells the index serves for further
/// tables of as many elements.
pub fn numbers_are_found()
    ensures { NumbersAreFound }
{}

/// Law: an element of the module's table is looked up by an index in a place; it leads to a function of the type that
/// is called, or its trap is recorded and ends the items.
pub fn targets_are_found()
    ensures { TargetsAreFound }
{}

/// Law: what looks numbers up are lines under every namespace, and weighs at most so much.
pub fn tables_are_lines()
    ensures looks { LooksAreLines }
    ensures targets { TargetsAreLines }
{}

/// Law: the items of what looks numbers up are short, where the tables are, and the module's always is: under every
/// namespace files of them can be kept.
pub fn items_are_short()
    ensures looks { (zs : List ℤ) → (z : ℤ) → tree_short (ints (zs ++ z ∷ [])) ≡ true
        → items_short (look_items zs z) ≡ true }
    ensures finds { (zs : List ℤ) → tree_short (ints zs) ≡ true → items_short (find_items zs) ≡ true }
    ensures targets { (m : Module) → IsProgram m → (n : ℕ) → (i : ℕ) → items_short (target_items m n i) ≡ true }
{}
