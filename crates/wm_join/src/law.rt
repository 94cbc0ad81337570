// Laws: the contract of each function is the law, and it does nothing.
ghost use Rattle.wm_valid.specs.Valid.{Valid};
ghost use Rattle.wm_match.specs.Program.{Program};
ghost use Rattle.wm_join.specs.Agree.{RunsAlike, BeginsAlike};
ghost use Rattle.wm_join.specs.Joined.{joined};
ghost use Rattle.wm_join.specs.Agree.{CallsFollow, OutcomesAgree};

/// Law: the joined module does what the linked modules do, step by step, from each linked store on. It needs no typing,
/// and whatever the bindings are.
pub fn linked_steps_agree()
    ensures runs { (p : Program) → RunsAlike p }
    ensures outcomes { (p : Program) → OutcomesAgree p }
    ensures follow { (p : Program) → CallsFollow p }
    // The first store, and the call of the start function.
    ensures begins { (p : Program) → Valid (joined p) → BeginsAlike p }
{}
