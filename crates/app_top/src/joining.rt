//! Jobs that join modules.

ghost use Rattle.std.specs.Prelude.{◌≡◌, length, true};
ghost use Rattle.mc_cmd.specs.Packing as packs;
ghost use Rattle.app_words.specs.Words.{is_library_count};
ghost use Rattle.app_top.specs.Joining.{IsJoinAnswered};
ghost use Rattle.app_top.specs.Outside.{outside};

use crate::inputs::{read_lines, read_sources};
use crate::linking::joined_typed;
use crate::program::play_pack;
use crate::refusal::Refusal;
use app_words::NamedFile;
use io_dev::{Files, Sink};
use mc_nbt::Text;
use pk_files::see_empty;
use pk_link::link;
use std::alloc::Global;

/// Joins the main module with the libraries, writes the pack of what they make into the folder, reads it back, and
/// plays the lines of the script over it.
///
/// # Errors
///
/// The first cause for which not all was done, in this order: a file that isn't read, of the script, the libraries in
/// their order, and the main module; `Script`; `NotDecodedAt`; `NotLinked`; `NotInProfile`; `NotValid`; those of a folder
/// that isn't empty; and behind them those of a pack that is written, read back and played. `Memory` may come at any
/// point.
pub fn join_modules<F: Files, O: Sink>(
    alloc: Global,
    files: &mut F,
    out: &mut O,
    main: &Text,
    dir: &Text,
    ns: &Text,
    script: &Text,
    libraries: &[NamedFile],
) -> Result<(), Refusal>
    requires namespace { packs.is_pack_namespace ns.now ≡ true }
    requires count { is_library_count (length libraries.now) ≡ true }
    ensures { IsJoinAnswered main.now dir.now ns.now script.now libraries.now
        (outside (F.state files.old) (O.state out.old))
        (outside (F.state files.new) (O.state out.new))
        result }
{
    let inputs = read_sources(alloc, files, script, libraries, main)?;
    let lines = read_lines(alloc, inputs.script.as_slice())?;
    let typed = joined_typed(alloc, libraries, main, &inputs.sources)?;
    see_empty(files, dir)?;
    let pack = link(alloc, &typed, ns)?;
    play_pack(alloc, files, out, dir, &pack, &lines)
}
