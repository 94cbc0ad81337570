// The law of the helpers that items call: the contract of the function is the law, and it does nothing.
ghost use Rattle.std.specs.Prelude.{◌<◌, ◌≤◌, List, length, ℕ, ℤ};
ghost use Rattle.wm_ast.specs.declared.module.Module.{Module};
ghost use Rattle.cc_text.specs.Tables.{IsOwn, ItemsNamed};
ghost use Rattle.cc_table.specs.Helpers.{call_beginning, call_helpers, look_beginning, look_helpers};
ghost use Rattle.cc_table.specs.Look.{find_items, look_items};
ghost use Rattle.cc_table.specs.Target.{target_items};

/// Law: each helper that looks numbers up has a name of the crate's list, and the lines of this name; and so has one
/// that looks the target of a call up, in the list of the module, for a type that the module has. Both lists are the
/// crate's own.
pub fn helpers_are_named()
    ensures finds { (zs : List ℤ) → ItemsNamed look_helpers (find_items zs) }
    ensures looks { (zs : List ℤ) → (z : ℤ) → ItemsNamed look_helpers (look_items zs z) }
    ensures targets { (m : Module) → length m.types ≤ 2147483648 → (n : ℕ) → (i : ℕ) → n < length m.types
        → ItemsNamed (call_helpers m) (target_items m n i) }
    ensures own { IsOwn look_beginning look_helpers 100 }
    ensures types_own { (m : Module) → IsOwn call_beginning (call_helpers m) (length m.types) }
{}
