// Laws of moves and ways, which the crates above cite: the contract of each function is the law, and it does nothing.
ghost use Rattle.cc_move.specs.Law.{StandingsShow, PathsTellVisits, OnwardComes, BlockComes, ArmComes, BranchesCome};
ghost use Rattle.cc_move.specs.Law.{ReturnsHaveResults, EndsLeave, CallsCome};
ghost use Rattle.cc_move.specs.Calls.{CallsOpen, IndirectCallsOpen, CallersResume, ResultsHaveTypes, FunctionsStay};
ghost use Rattle.cc_move.specs.Calls.{CalleesCome, TableStays};

/// Law: an activation that stands at a place shows the place's path, code and kinds. Two visits of a function with one
/// path are one.
pub fn standings_show_places()
    ensures shown { StandingsShow }
    ensures one { PathsTellVisits }
{}

/// Law: each move within a call goes by a way of the place at which the activation stands: behind an instruction, into
/// a block, a loop or an arm, out of a block, or by a branch to a label, after one move more where that is a loop's. A
/// branch to the body's own label, the body's end and a `return` end the call with its results.
pub fn moves_follow_ways()
    ensures onward { OnwardComes }
    ensures in_block { BlockComes }
    ensures in_arm { ArmComes }
    ensures branch { BranchesCome }
    ensures returns { ReturnsHaveResults }
    ensures leave { EndsLeave }
{}

/// Law: a function's activation stands at the first place of its body.
pub fn calls_come_to_bodies()
    ensures { CallsCome }
{}

/// Law: in a valid module a call, whether direct or through the table, finds its arguments and opens the function over
/// them, or traps where too many calls haven't returned, or at an element that can't be called.
pub fn calls_open_functions()
    ensures direct { CallsOpen }
    ensures indirect { IndirectCallsOpen }
    ensures callees { CalleesCome }
{}

/// Law: however a call ends, its results have the types that its function gives, and the caller with them over its
/// operands has come by the way behind its instruction. A move within a call stays in its function, and no move changes
/// the table.
pub fn callers_resume_with_results()
    ensures results { ResultsHaveTypes }
    ensures resume { CallersResume }
    ensures functions { FunctionsStay }
    ensures table { TableStays }
{}
