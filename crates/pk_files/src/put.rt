//! Writing of a pack's folder.

ghost use Rattle.std.specs.Prelude.{◌≡◌, ◌<◌, ◌∷◌, [], IfOk, Some, codes, length, map, slice_get, true};
ghost use Rattle.io_dev.specs.Names.{IsListingOf};
ghost use Rattle.serde_json.specs.Written.{compact_text};
ghost use Rattle.mc_cmd.specs.Layout.{full_name};
ghost use Rattle.mc_cmd.specs.Packing.{index_view, is_pack_namespace, is_written};
ghost use Rattle.pk_files.specs.Folder.{IsPackWritten, IsSeen};
ghost use Rattle.pk_files.specs.Json.{index_data, index_said, meta_data, tag_data, tag_said};
ghost use Rattle.pk_files.specs.Paths.{at};
ghost use Rattle.pk_files.specs.Put.{IsReadBack, function_written, last_files, tag_written};
ghost use Rattle.pk_files.specs.steps.Writing.{ArePut, AreListed, file_view};

use crate::PutFault;
use crate::encode::{index_bytes, meta_bytes, tag_bytes};
use crate::lines::file_of;
use crate::paths::{function_path, functions_folder, path_at, tag_name, tags_folder};
use io_dev::{Files, NamesAnswer, WriteAnswer};
use mc_cmd::{Index, Pack};
use mc_nbt::{Memory, Text, Texts};
use std::alloc::Global;

/// A file that is to be written.
#[derive(Drop)]
pub struct FileBytes {
    pub path: Text,
    pub bytes: Vec<u8>,
}

// The names in a folder.
fn names_in<F: Files>(files: &mut F, dir: &Text) -> Result<Texts, PutFault>
    ensures { AreListed (F.state files.old) (F.state files.new) dir.now result }
{
    // Copied first, so that a failed call is told without a need of memory.
    let path = dir.clone()?;
    match files.names(dir) {
        Ok(names) => Ok(names),
        Err(NamesAnswer::Failed) => Err(PutFault::ListFailed { path }),
        Err(NamesAnswer::Memory) => Err(PutFault::Memory),
    }
}

// Puts one file.
fn write_file<F: Files>(files: &mut F, file: &FileBytes) -> Result<(), PutFault>
    ensures { ArePut (F.state files.old) (F.state files.new) (file_view file.now ∷ []) result }
{
    let path = file.path.clone()?;
    match files.write(&file.path, &file.bytes) {
        Ok(()) => Ok(()),
        Err(WriteAnswer::Failed) => Err(PutFault::Failed { path }),
        Err(WriteAnswer::Memory) => Err(PutFault::Memory),
    }
}

// Puts the files, one after the other.
fn write_all<F: Files>(files: &mut F, list: &[FileBytes]) -> Result<(), PutFault>
    ensures { ArePut (F.state files.old) (F.state files.new) (map file_view list.now) result }
{
    for file in list {
        write_file(files, file)?;
    }
    Ok(())
}

// The file of the function at this place of the pack's order.
fn function_file(alloc: Global, folder: &Text, pack: &Pack, at: usize) -> Result<FileBytes, Memory>
    requires written { is_written pack.now ≡ true }
    requires within { at < length pack.now.functions }
    ensures { IfOk result (λ f.
        Some (file_view f) ≡ slice_get (map (function_written folder.now) pack.now.functions) at) }
{
    let name = Text::new(alloc, pack.name(at))?;
    match pack.lines(&name) {
        Some(lines) => Ok(FileBytes {
            path: function_path(alloc, folder, name.as_str())?,
            bytes: file_of(alloc, lines)?,
        }),
        None => unreachable!(),
    }
}

// Puts the functions of the pack.
fn write_functions<F: Files>(
    alloc: Global,
    files: &mut F,
    folder: &Text,
    pack: &Pack,
) -> Result<(), PutFault>
    requires { is_written pack.now ≡ true }
    ensures { ArePut (F.state files.old) (F.state files.new)
        (map (function_written folder.now) pack.now.functions) result }
{
    for at in 0..pack.functions() {
        let file = function_file(alloc, folder, pack, at)?;
        write_file(files, &file)?;
    }
    Ok(())
}

// The file of the tag of this name.
fn tag_of(alloc: Global, dir: &Text, ns: &Text, name: &str) -> Result<FileBytes, Memory>
    ensures file { IfOk result (λ f. file_view f ≡ tag_written dir.now ns.now name.now) }
    ensures said { IfOk result (λ _.
        tag_said (full_name ns.now name.now) (compact_text (tag_data ns.now name.now)) ≡ Some tt) }
{
    let folder = tags_folder(alloc, dir)?;
    let file = tag_name(alloc, name)?;
    let path = path_at(alloc, &folder, file.as_str())?;
    let bytes = tag_bytes(alloc, ns.as_str(), name)?;
    Ok(FileBytes { path, bytes })
}

// The file of the index.
fn index_file(alloc: Global, dir: &Text, index: &Index) -> Result<FileBytes, Memory>
    requires { is_pack_namespace index.now.ns ≡ true }
    ensures file { IfOk result (λ f.
        file_view f ≡ (at dir.now (codes "dpwasm.json"), compact_text (index_data (index_view index.now)))) }
    ensures said { IfOk result (λ _.
        index_said (compact_text (index_data (index_view index.now))) ≡ Some (index_view index.now)) }
{
    let path = path_at(alloc, dir, "dpwasm.json")?;
    let bytes = index_bytes(alloc, index)?;
    Ok(FileBytes { path, bytes })
}

// The file that is written last.
fn meta_file(alloc: Global, dir: &Text) -> Result<FileBytes, Memory>
    ensures { IfOk result (λ f. file_view f ≡ (at dir.now (codes "pack.mcmeta"), compact_text meta_data)) }
{
    let path = path_at(alloc, dir, "pack.mcmeta")?;
    let bytes = meta_bytes(alloc)?;
    Ok(FileBytes { path, bytes })
}

// The files that are written behind the functions, in this order.
fn json_files(alloc: Global, dir: &Text, index: &Index) -> Result<[FileBytes; 4], Memory>
    requires { is_pack_namespace index.now.ns ≡ true }
    ensures files { IfOk result (λ list. map file_view list ≡ last_files dir.now (index_view index.now)) }
    ensures read_back { IfOk result (λ _. IsReadBack (index_view index.now)) }
{
    let load = tag_of(alloc, dir, &index.ns, "load")?;
    let tick = tag_of(alloc, dir, &index.ns, "tick")?;
    let exports = index_file(alloc, dir, index)?;
    let meta = meta_file(alloc, dir)?;
    Ok([load, tick, exports, meta])
}

/// Sees that the folder `dir` is empty.
///
/// # Errors
///
/// - `NotEmpty` exactly where the listing of `dir` gave a name, the first one.
/// - `ListFailed` where that listing failed; the count of faults of reads is then one higher.
/// - `Memory` where there was no memory.
///
/// But for that count nothing has changed.
pub fn see_empty<F: Files>(files: &mut F, dir: &Text) -> Result<(), PutFault>
    ensures { IsSeen (F.state files.old) (F.state files.new) dir.now result }
{
    let names = names_in(files, dir)?;
    if let Some(name) = names.as_slice().first() {
        let name = name.clone()?;
        return Err(PutFault::NotEmpty { name });
    }
    Ok(())
}

/// Puts the files of the pack into the folder `dir`, which is empty: the functions in the pack's order, the tags `load`
/// and `tick`, `dpwasm.json`, and last `pack.mcmeta`, without which a folder holds no pack.
///
/// # Errors
///
/// - `Failed` where the write of this file failed; the count of faults of writes is then one higher. The files before
///   it stand, at its path stands what stood there or a prefix of its bytes, and nothing else has changed.
/// - `Memory` where there was no memory. What stands is as after `Failed`, but for the count.
pub fn put_pack<F: Files>(
    alloc: Global,
    files: &mut F,
    dir: &Text,
    pack: &Pack,
) -> Result<(), PutFault>
    requires { IsListingOf (F.state files.now).content dir.now [] }
    ensures { IsPackWritten (F.state files.old) (F.state files.new) dir.now pack.now result }
{
    let index = pack.index();
    let last = json_files(alloc, dir, index)?;
    let folder = functions_folder(alloc, dir, &index.ns)?;
    write_functions(alloc, files, &folder, pack)?;
    write_all(files, &last)?;
    Ok(())
}

/// Writes the pack into the folder `dir`, which has to be empty: `see_empty`, and then `put_pack`.
///
/// # Errors
///
/// Those of `see_empty`, where nothing has changed, and those of `put_pack`.
pub fn write_pack<F: Files>(
    alloc: Global,
    files: &mut F,
    dir: &Text,
    pack: &Pack,
) -> Result<(), PutFault>
    ensures { IsPackWritten (F.state files.old) (F.state files.new) dir.now pack.now result }
{
    see_empty(files, dir)?;
    put_pack(alloc, files, dir, pack)
}
