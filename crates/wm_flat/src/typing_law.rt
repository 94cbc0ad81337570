ghost use Rattle.std.specs.Prelude.{◌≡◌, ℕ, List, [], reverse, All, Some, slice_get};
ghost use Rattle.mc_nbt.specs.declared.value.Value.{Value};
ghost use Rattle.wm_ast.specs.declared.module.FuncType.{FuncType};
ghost use Rattle.wm_ast.specs.declared.module.Func.{Func};
ghost use Rattle.wm_ast.specs.declared.module.Module.{Module};
ghost use Rattle.wm_ast.specs.declared.module.ValType.{ValType};
ghost use Rattle.wm_ast.specs.After.{after};
ghost use Rattle.wm_ast.specs.Instance.{first_store, first_config, call_config, exported_functions};
ghost use Rattle.wm_ast.specs.Spelling.{Spells};
ghost use Rattle.wm_ast.specs.Store.{Store};
ghost use Rattle.wm_flat.specs.Flat.{first_flat, call_flat};
ghost use Rattle.wm_flat.specs.FlatTyping.{Are, TypedStore, IsFunction, TypedState, IsMoved};
ghost use Rattle.wm_flat.specs.Program.{IsProgram};
ghost use Rattle.wm_valid.specs.InRange.{IsByte, HasNumbersInRange};
ghost use Rattle.wm_flat.specs.Ranges.{StateInRange};
ghost use Rattle.wm_flat.specs.Runs.{State, Leads, moved};
ghost use Rattle.wm_flat.specs.Sound.{IsSound};

/// A typing of a configuration of a valid module in the profile.
pub fn moves_keep_types()
    // There is a move, and what it leads to has a typing, with results of the same types.
    ensures keeps { (m : Module) (results : List ValType) (c : State)
        → IsProgram m
        → TypedState m results c
        → IsMoved m results (moved m c) }
    // So has each configuration that moves lead to.
    ensures leads { (m : Module) (results : List ValType) (n : ℕ) (c d : State)
        → IsProgram m
        → TypedState m results c
        → Leads m n c d
        → TypedState m results d }
    // Each number in it lies in its range.
    ensures in_range { (m : Module) (results : List ValType) (c : State) → TypedState m results c → StateInRange c }
{}

/// Which configurations of a valid module in the profile have a typing.
pub fn programs_are_typed()
    // The first one.
    ensures first { (m : Module) → IsProgram m → TypedState m [] (record { store = first_store m; flat = first_flat m.start }) }
    // A call of a function over arguments of its types, in their ranges, with a store that has a typing.
    ensures calls { (m : Module) (s : Store) (n : ℕ) (f : Func) (t : FuncType) (arguments : List Value)
        → TypedStore m s
        → IsFunction m n f t
        → Are t.params arguments
        → TypedState m (reverse t.results) (record { store = s; flat = call_flat n arguments }) }
    // Each function that is exported is there, with a type.
    ensures exports { (m : Module) (k n : ℕ)
        → IsProgram m
        → slice_get (exported_functions m) k ≡ Some n
        → (f : Func) × (t : FuncType) × IsFunction m n f t }
{}

/// After any number of steps a valid module in the profile isn't stuck. Where it has ended its results have the types
/// that the function gives, and lie in their ranges; where it has ended or trapped its store has a typing.
pub fn programs_are_sound()
    ensures first { (m : Module) (k : ℕ) → IsProgram m → IsSound m [] (after m (first_config m) k) }
    ensures calls { (m : Module) (s : Store) (n : ℕ) (f : Func) (t : FuncType) (arguments : List Value) (k : ℕ)
        → IsProgram m
        → TypedStore m s
        → IsFunction m n f t
        → Are t.params arguments
        → IsSound m t.results (after m (call_config s n arguments) k) }
{}

/// The constants and the bytes of a module that a file spells lie in their ranges.
pub fn spelled_numbers_are_in_range()
    ensures { (bytes : List ℕ) (m : Module) → All IsByte bytes → Spells bytes m → HasNumbersInRange m }
{}
