// Commands of somebody else.
ghost use Rattle.std.specs.Prelude.{◌≡◌, true};
ghost use Rattle.mc_cmd.specs.Foreign as spec;
ghost use Rattle.mc_cmd.specs.Grammar.{cmd_fits};
ghost use Rattle.mc_cmd.specs.View.{cmd_view, simple_view};

use crate::{Cmd, CmdKind, Simple};

/// Whether the command is one of `scoreboard` or of `data`.
pub fn is_foreign(cmd: &Cmd) -> bool
    ensures foreign { result ≡ spec.is_foreign (cmd_view cmd.now) }
    ensures fits { cmd_fits (cmd_view cmd.now) ≡ true }
{
    match cmd.kind() {
        CmdKind::Simple(simple) => is_foreign_kind(simple),
        CmdKind::Execute { .. } => false,
    }
}

fn is_foreign_kind(simple: &Simple) -> bool
    ensures { result ≡ spec.is_foreign_kind (simple_view simple.now) }
{
    !matches!(
        simple,
        Simple::Function { .. }
            | Simple::FunctionWith { .. }
            | Simple::Return { .. }
            | Simple::ChainLength
    )
}
