// Laws of accesses whose address may be known: the contract of each function is the law, and it does nothing.
ghost use Rattle.std.specs.Prelude.{◌≡◌, ℕ, Bool, Option, true};
ghost use Rattle.wm_ast.specs.declared.operation.LoadOp.{LoadOp};
ghost use Rattle.wm_ast.specs.declared.operation.StoreOp.{StoreOp};
ghost use Rattle.cc_text.specs.Short.{items_short};
ghost use Rattle.cc_access.specs.Known.{loads_by, stores_by};
ghost use Rattle.cc_access.specs.KnownLaw.{LoadsByAreDone, LoadsByAreLines, StoresByAreDone, StoresByAreLines};

/// Law: a load whose operand may be known does what a load does, where the memory has at least so many pages.
pub fn known_loads_are_done()
    ensures { LoadsByAreDone }
{}

/// Law: a store whose operand may be known does what a store does, likewise.
pub fn known_stores_are_done()
    ensures { StoresByAreDone }
{}

/// Law: such loads and stores are lines under every namespace, and weigh at most so much.
pub fn known_accesses_are_lines()
    ensures loads { LoadsByAreLines }
    ensures stores { StoresByAreLines }
{}

/// Law: the items of loads and stores are short on any places, whether their address is known or not: under every
/// namespace files of them can be kept.
pub fn items_are_short()
    ensures loads { (least : ℕ) → (known : Option ℕ) → (sure : Bool) → (op : LoadOp) → (a : ℕ) → (offset : ℕ)
        → items_short (loads_by least known sure op a offset) ≡ true }
    ensures stores { (least : ℕ) → (known : Option ℕ) → (sure : Bool) → (op : StoreOp) → (a : ℕ) → (offset : ℕ)
        → items_short (stores_by least known sure op a offset) ≡ true }
{}
