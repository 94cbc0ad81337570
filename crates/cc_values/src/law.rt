// A law of ints, which the crates above cite: the contract of the function is the law, and it does nothing.
ghost use Rattle.cc_values.specs.Law.{HandedTell, LocalsTell, OperandsTell, OperandsTurned, PartsTell};

/// Law: where the types of values are known, their ints tell them, and what stands behind these: as locals, as
/// operands, as both in the places of a frame, and as results in their scores. The ints of operands are those of locals
/// in the other order.
pub fn ints_tell()
    ensures locals { LocalsTell }
    ensures operands { OperandsTell }
    ensures parts { PartsTell }
    ensures turned { OperandsTurned }
    ensures handed { HandedTell }
{}
