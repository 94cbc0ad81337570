// The law of the helpers that items call: the contract of the function is the law, and it does nothing.
ghost use Rattle.std.specs.Prelude.{ℕ};
ghost use Rattle.wm_ast.specs.declared.operator.BinaryOp.{BinaryOp};
ghost use Rattle.cc_text.specs.Tables.{IsOwn, ItemsNamed};
ghost use Rattle.cc_div64.specs.Division.{begin_items, end_items, turns_items};
ghost use Rattle.cc_div64.specs.Helpers.{beginning, helpers};

/// Law: each helper that the items of a division in pieces call, and each that those call, has a name of the crate's
/// list, and the lines of this name; and the list is the crate's own.
pub fn helpers_are_named()
    ensures begin { (op : BinaryOp) → (a : ℕ) → ItemsNamed helpers (begin_items op a) }
    ensures turns { ItemsNamed helpers turns_items }
    ensures ends { (op : BinaryOp) → (a : ℕ) → ItemsNamed helpers (end_items op a) }
    ensures own { IsOwn beginning helpers 100 }
{}
