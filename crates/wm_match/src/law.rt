// Laws: the contract of each function is the law, and it does nothing.
ghost use Rattle.std.specs.Prelude.{◌≡◌, ◌≢◌, ℕ, List, length, IfErr, Result};
ghost use Rattle.wm_ast.specs.declared.module.Module.{Module};
ghost use Rattle.wm_ast.specs.Spelling.{Spells};
ghost use Rattle.wm_match.specs.Binds.{Binds};
ghost use Rattle.wm_match.specs.Cause.{program, IsResolved};
ghost use Rattle.wm_match.specs.Lists.{HasListsWithin};
ghost use Rattle.wm_match.specs.declared.fault.MatchFault.{MatchFault};
ghost use Rattle.wm_match.specs.declared.fault.MatchFault.TheVariants as faults;
ghost use Rattle.wm_match.specs.declared.library.Binding.{Binding};
ghost use Rattle.wm_match.specs.declared.library.Library.{Library};

/// Law: no list of a module has more items than there are bytes that spell the module.
pub fn lists_are_short()
    ensures { (bytes : List ℕ) (m : Module) → Spells bytes m → HasListsWithin (length bytes) m }
{}

/// Law: modules are linked in one way at most.
pub fn bindings_are_one()
    ensures { (libraries : List Library) (main : Module) (bs cs : List (List Binding))
        → Binds (program libraries main bs) → Binds (program libraries main cs) → bs ≡ cs }
{}

/// Law: of the answers of `resolve`, want of memory aside, at most one is true of the same modules. So no two causes
/// hold of them, and none where bindings link them.
pub fn resolve_has_one_answer()
    ensures { (libraries : List Library) (main : Module) (r s : Result (List (List Binding)) MatchFault)
        → IsResolved libraries main r → IsResolved libraries main s
        → IfErr r (λ fault. fault ≢ faults.Memory) → IfErr s (λ fault. fault ≢ faults.Memory)
        → r ≡ s }
{}
