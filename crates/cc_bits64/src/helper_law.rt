// The law of the helpers that items call: the contract of the function is the law, and it does nothing.
ghost use Rattle.std.specs.Prelude.{◌++◌, ℕ};
ghost use Rattle.wm_ast.specs.declared.operation.NumOp.{NumOp};
ghost use Rattle.cc_text.specs.Tables.{IsOwn, ItemsNamed};
ghost use Rattle.cc_bits.specs.Helpers as words;
ghost use Rattle.cc_bits64.specs.Helpers.{beginning, helpers};
ghost use Rattle.cc_bits64.specs.Operation.{op_items};

/// Law: each helper that the items of an operation call, and each that those call, has a name of the crate's list or of
/// that of `cc_bits`, and the lines of this name; and the crate's list is its own.
pub fn helpers_are_named()
    ensures items { (op : NumOp) → (a : ℕ) → ItemsNamed (words.helpers ++ helpers) (op_items op a) }
    ensures own { IsOwn beginning helpers 100 }
{}
