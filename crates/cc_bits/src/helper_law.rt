// The law of the helpers that items call: the contract of the function is the law, and it does nothing.
ghost use Rattle.std.specs.Prelude.{ℕ};
ghost use Rattle.wm_ast.specs.declared.operation.NumOp.{NumOp};
ghost use Rattle.cc_text.specs.Tables.{IsOwn, ItemsNamed};
ghost use Rattle.cc_bits.specs.Helpers.{beginning, helpers};
ghost use Rattle.cc_bits.specs.Operation.{op_items};

/// Law: each helper that the items of an operation call, and each that those call, has a name of the crate's list, and
/// the lines of this name; and the list is the crate's own.
pub fn helpers_are_named()
    ensures items { (op : NumOp) → (a : ℕ) → (b : ℕ) → (r : ℕ) → ItemsNamed helpers (op_items op a b r) }
    ensures own { IsOwn beginning helpers 100 }
{}
