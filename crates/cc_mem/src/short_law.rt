// The law of accesses in files, which the crates above cite: the function's contract is the law, and it does nothing.
ghost use Rattle.std.specs.Prelude.{◌≡◌, ℕ, Bool, true};
ghost use Rattle.wm_ast.specs.declared.operation.LoadOp.{LoadOp};
ghost use Rattle.wm_ast.specs.declared.operation.StoreOp.{StoreOp};
ghost use Rattle.cc_text.specs.Short.{items_short};
ghost use Rattle.cc_mem.specs.Load.{load_items};
ghost use Rattle.cc_mem.specs.Size.{size_items};
ghost use Rattle.cc_mem.specs.Store.{store_items};

/// Law: the items of accesses are short on any places and for any offset: under every namespace files of them can be
/// kept.
pub fn items_are_short()
    ensures loads { (sure : Bool) → (op : LoadOp) → (a : ℕ) → (offset : ℕ) → (r : ℕ)
        → items_short (load_items sure op a offset r) ≡ true }
    ensures stores { (sure : Bool) → (op : StoreOp) → (a : ℕ) → (offset : ℕ) → (v : ℕ)
        → items_short (store_items sure op a offset v) ≡ true }
    ensures sizes { (r : ℕ) → items_short (size_items r) ≡ true }
{}
