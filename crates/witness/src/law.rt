// Laws of the example: the contract of each function is the law, and it does nothing.
ghost use Rattle.std.specs.Prelude.{◌≡◌, ℕ, Some, slice_get};
ghost use Rattle.mc_cmd.specs.Pack.{ExportType, Index, Lawful};
ghost use Rattle.wm_ast.specs.Spelling.{Spells};
ghost use Rattle.wm_flat.specs.Program.{IsProgram};
ghost use Rattle.wm_valid.specs.Height.{Low};
ghost use Rattle.witness.specs.Events.{schedule, up_to_call};
ghost use Rattle.witness.specs.Example.{dying, example, example_bytes};

/// Law: the example is a valid module of the profile, its functions are low, its numbers lie in their ranges, and
/// bytes spell it. So is the module that dies. Without this law there might be no such module, and what is said
/// of each of them would say nothing.
pub fn example_is_a_program()
    ensures program { IsProgram example }
    ensures low { Low example }
    ensures spelled { Spells example_bytes example }
    ensures dying_program { IsProgram dying }
    ensures dying_low { Low dying }
{}

/// Law: whatever the index, each of its exports is called in a lawful list of events, which has an event of each
/// kind, and ticks of the least and of the greatest budget. Without this law a list might be lawful only where it
/// calls nothing.
pub fn exports_are_called_lawfully()
    ensures before { (index : Index) (k : ℕ) (e : ExportType) → slice_get index.exports k ≡ Some e
        → Lawful index (up_to_call k e.params) }
    ensures whole { (index : Index) (k : ℕ) (e : ExportType) → slice_get index.exports k ≡ Some e
        → Lawful index (schedule index.ns k e.params) }
{}
