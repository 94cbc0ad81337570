// The law of the helpers that items call: the contract of the function is the law, and it does nothing.
ghost use Rattle.std.specs.Prelude.{Bool, ℕ};
ghost use Rattle.wm_ast.specs.declared.operation.LoadOp.{LoadOp};
ghost use Rattle.wm_ast.specs.declared.operation.StoreOp.{StoreOp};
ghost use Rattle.cc_text.specs.Tables.{IsOwn, ItemsNamed};
ghost use Rattle.cc_mem.specs.Helpers.{beginning, helpers};
ghost use Rattle.cc_mem.specs.Load.{load_items};
ghost use Rattle.cc_mem.specs.Store.{store_items};

/// Law: each helper that the items of an access call, and each that those call, has a name of the crate's list, and the
/// lines of this name; and the list is the crate's own.
pub fn helpers_are_named()
    ensures loads { (sure : Bool) → (op : LoadOp) → (a : ℕ) → (offset : ℕ) → (r : ℕ)
        → ItemsNamed helpers (load_items sure op a offset r) }
    ensures stores { (sure : Bool) → (op : StoreOp) → (a : ℕ) → (offset : ℕ) → (v : ℕ)
        → ItemsNamed helpers (store_items sure op a offset v) }
    ensures own { IsOwn beginning helpers 10000 }
{}
