//! The names in commands of somebody else that are any program's.

ghost use Rattle.std.specs.Prelude.{◌≡◌, find, option_map};
ghost use Rattle.mc_cmd.specs.Foreign.{simple_names};
ghost use Rattle.mc_cmd.specs.View.{cmd_view};
ghost use Rattle.mc_tick.specs.Naming.{listed};
ghost use Rattle.mc_world.specs.WorldView as views;
ghost use Rattle.pk_multi.specs.Counting as counting;
ghost use Rattle.pk_multi.specs.Own.{is_own_under};

use crate::program::Program;
use mc_cmd::Cmd;
use mc_nbt::Text;
use mc_tick::{is_own, names_of};
use mc_world::run_of;

/// The first name in a command that is any program's own.
pub(crate) fn first_own<'a>(cmd: &'a Cmd, programs: &[Program]) -> Option<&'a Text>
    ensures { option_map (λ name. name.now) result
        ≡ find (is_own_under (counting.spaces programs.now)) (simple_names (views.run_of (cmd_view cmd.now))) }
{
    let (first, second) = names_of(run_of(cmd));
    own(first, programs).or(own(second, programs))
}

// The name, if it is any program's own.
fn own<'a>(name: Option<&'a Text>, programs: &[Program]) -> Option<&'a Text>
    ensures { option_map (λ n. n.now) result
        ≡ find (is_own_under (counting.spaces programs.now)) (listed (option_map (λ n. n.now) name.entry)) }
{
    let name = name?;
    if is_any(name, programs) {
        Some(name)
    } else {
        None
    }
}

fn is_any(name: &Text, programs: &[Program]) -> bool
    ensures { result ≡ is_own_under (counting.spaces programs.now) name.now }
{
    for program in programs {
        if is_own(name, &program.names) {
            return true;
        }
    }
    false
}
