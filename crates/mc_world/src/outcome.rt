ghost use Rattle.std.specs.Prelude.{◌≡◌};
ghost use Rattle.mc_cmd.specs.World as spec;
ghost use Rattle.mc_cmd.specs.World.{fails, gives, leaves};
ghost use Rattle.mc_world.specs.WorldView.{told};

/// What a command answers: its result, and whether it succeeded.
#[derive(Clone, Copy, Debug, PartialEq, Eq)]
pub struct Outcome {
    pub result: i32,
    pub success: bool,
}

pub(crate) fn failed() -> Outcome
    ensures { (w : spec.World) → told result w ≡ fails w }
{
    Outcome {
        result: 0,
        success: false,
    }
}

pub(crate) fn done() -> Outcome
    ensures { (w : spec.World) → told result w ≡ leaves w }
{
    Outcome {
        result: 0,
        success: true,
    }
}

pub(crate) fn given(n: i32) -> Outcome
    ensures { (w : spec.World) → told result w ≡ gives w n }
{
    Outcome {
        result: n,
        success: true,
    }
}
