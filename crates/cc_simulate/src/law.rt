// Laws of pieces, which the crates above cite: the contract of each function is the law, and it does nothing.
ghost use Rattle.cc_simulate.specs.Law.{CallsEnter, CutsHavePieces, JobsEnd, PiecesSimulate};

/// Law: from each state that stands for an activation, over any callers, the piece that it names leads to one that
/// stands for where the machine comes: at a cut, at a call's beginning or behind its end, before a cut whose value is
/// on its way, or where the memory still grows or a division goes on; to the end of the outermost call, where the piece
/// that is next tells the results; or to a trap. Each cut has its piece.
pub fn pieces_do_what_the_machine_does()
    ensures simulate { PiecesSimulate }
    ensures ends { JobsEnd }
    ensures pieces { CutsHavePieces }
{}

/// Law: the pieces with which a call from outside begins make the frame of the function's activation.
pub fn calls_enter_bodies()
    ensures { CallsEnter }
{}
