// The law of the helpers that items call: the contract of the function is the law, and it does nothing.
ghost use Rattle.std.specs.Prelude.{[], ℕ};
ghost use Rattle.wm_ast.specs.declared.operation.NumOp.{NumOp};
ghost use Rattle.cc_text.specs.Tables.{ItemsNamed};
ghost use Rattle.cc_i64.specs.Operation.{op_items};

/// Law: the items of an operation call no helper.
pub fn helpers_are_named()
    ensures { (op : NumOp) → (a : ℕ) → ItemsNamed [] (op_items op a) }
{}
