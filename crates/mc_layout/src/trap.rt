ghost use Rattle.std.specs.Prelude.{◌≡◌, option_map};
ghost use Rattle.mc_layout.specs.AnswerView.{trap_number};
ghost use Rattle.mc_layout.specs.steps.Numbers.{trap_numbered};

/// Why a call trapped. A pack numbers the traps from 1 to 8, in this order.
#[derive(Clone, Copy, Debug, PartialEq, Eq)]
pub enum TrapKind {
    /// `unreachable` was reached.
    Unreachable,
    /// An integer was divided by 0.
    DivideByZero,
    /// The result of a division is out of range.
    IntegerOverflow,
    /// Memory was used out of its bounds.
    OutOfBoundsMemory,
    /// An indirect call went out of the bounds of its table.
    UndefinedElement,
    /// An indirect call found no function in its table.
    UninitializedElement,
    /// An indirect call found a function of another type.
    CallTypeMismatch,
    /// Calls were nested too deeply.
    StackExhausted,
}

impl TrapKind {
    // The trap of a number; `None` where it is not from 1 to 8.
    pub(crate) fn from_number(number: i32) -> Option<TrapKind>
        ensures { option_map trap_number result ≡ trap_numbered number }
    {
        match number {
            1 => Some(TrapKind::Unreachable),
            2 => Some(TrapKind::DivideByZero),
            3 => Some(TrapKind::IntegerOverflow),
            4 => Some(TrapKind::OutOfBoundsMemory),
            5 => Some(TrapKind::UndefinedElement),
            6 => Some(TrapKind::UninitializedElement),
            7 => Some(TrapKind::CallTypeMismatch),
            8 => Some(TrapKind::StackExhausted),
            _ => None,
        }
    }
}
