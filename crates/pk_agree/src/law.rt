// Laws of agreement, which the crates above cite: the contract of each function is the law, and it does nothing.
ghost use Rattle.pk_agree.specs.Law.{LinkedPacksAgree, LinkedPacksAgreeStepwise, LinkedPacksAreResumable, OnlyOneJob};

/// Law: a pack that is linked of a module agrees with it, under every namespace and over every lawful list of events.
pub fn linked_packs_agree()
    ensures { LinkedPacksAgree }
{}

/// Law: a pack that is linked of a module agrees with it piece after piece, over every list of lawful calls and of turns
/// that run one piece each.
pub fn linked_packs_agree_stepwise()
    ensures { LinkedPacksAgreeStepwise }
{}

/// Law: a linked pack that runs stands for what its job has come to, also in the middle of an instruction.
pub fn linked_packs_are_resumable()
    ensures { LinkedPacksAreResumable }
{}

/// Law: only one job stands after a list of events.
pub fn only_one_job_stands()
    ensures { OnlyOneJob }
{}
