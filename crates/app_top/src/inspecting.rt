//! Jobs whose script may ask where the program is.

ghost use Rattle.std.specs.Prelude.{◌≡◌, [], map, true};
ghost use Rattle.io_dev.specs.Names.{IsListingOf};
ghost use Rattle.mc_cmd.specs.Packing as packs;
ghost use Rattle.app_words.specs.View.{line_view};
ghost use Rattle.app_top.specs.Outside.{outside};
ghost use Rattle.app_top.specs.steps.Run.{IsFolderInspected, IsModuleInspected, IsPackInspected};

use crate::linking::taken;
use crate::refusal::Refusal;
use app_inspect::Inspector;
use app_play::play_with;
use app_words::ScriptLine;
use io_dev::{Files, Sink};
use mc_cmd::Pack;
use mc_nbt::Text;
use pk_files::{put_pack, read_pack, see_empty};
use pk_link::link;
use std::alloc::Global;

// Reads the pack that the folder says, and plays the lines of a script over it, which may ask where the program of the
// module is.
fn inspect_folder<F: Files, O: Sink>(
    alloc: Global,
    files: &mut F,
    out: &mut O,
    dir: &Text,
    inspector: &Inspector,
    lines: &[ScriptLine],
) -> Result<(), Refusal>
    ensures { IsFolderInspected
        (outside (F.state files.old) (O.state out.old))
        (outside (F.state files.new) (O.state out.new))
        dir.now inspector.now.typed.now (map line_view lines.now) result }
{
    let pack = read_pack(alloc, files, dir)?;
    play_with(alloc, out, pack, lines, inspector)?;
    Ok(())
}

// Writes the pack of the module into the folder, which is empty, reads it back, and plays the lines of the script over
// it.
fn inspect_pack<F: Files, O: Sink>(
    alloc: Global,
    files: &mut F,
    out: &mut O,
    dir: &Text,
    inspector: &Inspector,
    pack: &Pack,
    lines: &[ScriptLine],
) -> Result<(), Refusal>
    requires { IsListingOf (F.state files.now).content dir.now [] }
    ensures { IsPackInspected
        (outside (F.state files.old) (O.state out.old))
        (outside (F.state files.new) (O.state out.new))
        dir.now inspector.now.typed.now pack.now (map line_view lines.now) result }
{
    put_pack(alloc, files, dir, pack)?;
    inspect_folder(alloc, files, out, dir, inspector, lines)
}

/// Writes the pack of the module into the folder, reads it back, and plays the lines of the script over it, which may
/// ask where the program is.
///
/// # Errors
///
/// The first cause for which not all of this was done, as for a script that may not ask.
pub(crate) fn inspect_module<F: Files, O: Sink>(
    alloc: Global,
    files: &mut F,
    out: &mut O,
    wasm: &[u8],
    dir: &Text,
    ns: &Text,
    lines: &[ScriptLine],
) -> Result<(), Refusal>
    requires { packs.is_pack_namespace ns.now ≡ true }
    ensures { IsModuleInspected
        (outside (F.state files.old) (O.state out.old))
        (outside (F.state files.new) (O.state out.new))
        wasm.now dir.now ns.now (map line_view lines.now) result }
{
    let typed = taken(alloc, wasm)?;
    see_empty(files, dir)?;
    let pack = link(alloc, &typed, ns)?;
    let inspector = Inspector::new(&typed);
    inspect_pack(alloc, files, out, dir, &inspector, &pack, lines)
}
