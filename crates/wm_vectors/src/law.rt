// A law: the contract of the function is the law, and it does nothing.
ghost use Rattle.std.specs.Prelude.{ℕ, List, length};
ghost use Rattle.wm_ast.specs.declared.module.Module.{Module};
ghost use Rattle.wm_ast.specs.Spelling.{Spells};
ghost use Rattle.wm_vectors.specs.Vectors.{HasVectorsWithin};

/// Law: no vector of a module, inner ones too, has more items than there are bytes that spell the module.
pub fn vectors_are_short()
    ensures { (bytes : List ℕ) (m : Module) → Spells bytes m → HasVectorsWithin (length bytes) m }
{}
