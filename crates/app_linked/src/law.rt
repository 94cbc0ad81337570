// Laws of jobs and printed lines, which the crates above cite: the contract of each function is the law, and it does
// nothing.
ghost use Rattle.app_linked.specs.Law.{JoinedJobsAreLinked, LinesTellLinkedModules, OnlyOneLinkedJob};

/// Law: the job that a pack of the joined module is at is the image of the job that the linked modules are at.
pub fn joined_jobs_are_linked()
    ensures { JoinedJobsAreLinked }
{}

/// Law: only one job of linked modules stands after a list of events.
pub fn only_one_linked_job_stands()
    ensures { OnlyOneLinkedJob }
{}

/// Law: where each line of a report is what the reduction of the joined module gives, it is what the reduction of the
/// linked modules gives.
pub fn lines_tell_linked_modules()
    ensures { LinesTellLinkedModules }
{}
