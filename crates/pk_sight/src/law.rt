// A law of the states that a world shows: the contract of the function is the law, and it does nothing.
ghost use Rattle.pk_sight.specs.Law.{StatesAgree};

/// Law: all states that a world shows have the same places, the same scores that are no places, and the same trees
/// under all keys but the frame's.
pub fn states_agree()
    ensures { StatesAgree }
{}
