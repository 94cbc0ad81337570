// The law of the helpers that items call: the contract of the function is the law, and it does nothing.
ghost use Rattle.std.specs.Prelude.{Bool, Option, ℕ};
ghost use Rattle.wm_ast.specs.declared.operation.LoadOp.{LoadOp};
ghost use Rattle.wm_ast.specs.declared.operation.StoreOp.{StoreOp};
ghost use Rattle.cc_text.specs.Tables.{ItemsNamed};
ghost use Rattle.cc_mem.specs.Helpers.{helpers};
ghost use Rattle.cc_access.specs.Known.{loads_by, stores_by};

/// Law: each helper that the items of a load or a store call, at a known address or any other, and each that those
/// call, has a name of the list of `cc_mem`, and the lines of this name.
pub fn helpers_are_named()
    ensures loads { (least : ℕ) → (known : Option ℕ) → (sure : Bool) → (op : LoadOp) → (a : ℕ) → (offset : ℕ)
        → ItemsNamed helpers (loads_by least known sure op a offset) }
    ensures stores { (least : ℕ) → (known : Option ℕ) → (sure : Bool) → (op : StoreOp) → (a : ℕ) → (offset : ℕ)
        → ItemsNamed helpers (stores_by least known sure op a offset) }
{}
