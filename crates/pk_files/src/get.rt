//! Reading of a pack's folder.

ghost use Rattle.std.specs.Prelude.{◌≡◌, [], IfOk, None, OnOk, codes, true};
ghost use Rattle.std.specs.List.{list_any};
ghost use Rattle.std.specs.Str.{bytes_eq};
ghost use Rattle.mc_cmd.specs.Packing.{index_view, is_pack_namespace, refusal, with_function};
ghost use Rattle.mc_cmd.specs.Word.{is_function_name};
ghost use Rattle.pk_files.specs.Folder.{IsDone, IsPackRead};
ghost use Rattle.pk_files.specs.Held.{ListsFolder, ReadsEach, ReadsFile, ReadsForm, ReadsFunctions};
ghost use Rattle.pk_files.specs.Held.{ReadsIndex, ReadsLines, ReadsTag, ReadsTags, bad_from};
ghost use Rattle.pk_files.specs.Json.{index_said, meta_said};
ghost use Rattle.pk_files.specs.Paths.{functions_of};
ghost use Rattle.pk_files.specs.declared.fault.GetFault.TheVariants as faults;
ghost use Rattle.pk_files.specs.steps.Reading.{HasRoomFor, itself};

use crate::forms::{index_of, is_meta, is_tag};
use crate::lines::{Lines, lines_of};
use crate::paths::{
    full_name_of, function_path, functions_among, functions_folder, path_at, tag_name, tags_folder,
};
use crate::{GetFault, PACK_CAP};
use io_dev::{Files, NamesAnswer, ReadAnswer};
use mc_cmd::{AddFault, Index, Pack};
use mc_nbt::{Bytes, Memory, Text, Texts};
use std::alloc::Global;

/// The most functions of a pack.
const MAX_FUNCTIONS: usize = 1_000_000;

// The names in a folder.
fn names_in<F: Files>(files: &mut F, dir: &Text) -> Result<Texts, GetFault>
    ensures { IsDone itself (F.state files.old) (F.state files.new)
        (λ content. ListsFolder content dir.now) result }
{
    // Copied first, so that a failed call is told without a need of memory.
    let path = dir.clone()?;
    match files.names(dir) {
        Ok(names) => Ok(names),
        Err(NamesAnswer::Failed) => Err(GetFault::ListFailed { path }),
        Err(NamesAnswer::Memory) => Err(GetFault::Memory),
    }
}

// The bytes of a file.
fn bytes_at<F: Files>(files: &mut F, path: &Text) -> Result<Bytes, GetFault>
    ensures { IsDone itself (F.state files.old) (F.state files.new)
        (λ content. ReadsFile content path.now) result }
{
    let told = path.clone()?;
    match files.read(path, PACK_CAP) {
        Ok(bytes) => Ok(bytes),
        Err(ReadAnswer::Failed) => Err(GetFault::Failed { path: told }),
        Err(ReadAnswer::TooLong) => Err(GetFault::TooLong { path: told }),
        Err(ReadAnswer::Memory) => Err(GetFault::Memory),
    }
}

// Whether a file of this name is listed.
fn is_listed(names: &Texts, name: &str) -> bool
    ensures { result ≡ list_any (bytes_eq name.now) names.now }
{
    names
        .as_slice()
        .iter()
        .any(|listed| name == listed.as_str())
}

// Reads `pack.mcmeta`, which has to be of its form.
fn read_meta<F: Files>(
    alloc: Global,
    files: &mut F,
    dir: &Text,
    names: &Texts,
) -> Result<(), GetFault>
    ensures { IsDone itself (F.state files.old) (F.state files.new)
        (λ content. ReadsForm content dir.now names.now (codes "pack.mcmeta") faults.NoMeta meta_said) result }
{
    if !is_listed(names, "pack.mcmeta") {
        return Err(GetFault::NoMeta);
    }
    let path = path_at(alloc, dir, "pack.mcmeta")?;
    let bytes = bytes_at(files, &path)?;
    if !is_meta(alloc, bytes.as_slice())? {
        return Err(GetFault::NoMeta);
    }
    Ok(())
}

// Reads `dpwasm.json`.
fn read_exports<F: Files>(
    alloc: Global,
    files: &mut F,
    dir: &Text,
    names: &Texts,
) -> Result<Index, GetFault>
    ensures read { IsDone index_view (F.state files.old) (F.state files.new)
        (λ content. ReadsForm content dir.now names.now (codes "dpwasm.json") faults.BadIndex index_said) result }
    ensures namespace { IfOk result (λ i. is_pack_namespace i.ns ≡ true) }
{
    if !is_listed(names, "dpwasm.json") {
        return Err(GetFault::BadIndex);
    }
    let path = path_at(alloc, dir, "dpwasm.json")?;
    let bytes = bytes_at(files, &path)?;
    match index_of(alloc, bytes.as_slice())? {
        Some(index) => Ok(index),
        None => Err(GetFault::BadIndex),
    }
}

// Reads what stands directly in the folder.
fn read_index<F: Files>(alloc: Global, files: &mut F, dir: &Text) -> Result<Index, GetFault>
    ensures read { IsDone index_view (F.state files.old) (F.state files.new)
        (λ content. ReadsIndex content dir.now) result }
    ensures namespace { IfOk result (λ i. is_pack_namespace i.ns ≡ true) }
{
    let names = names_in(files, dir)?;
    read_meta(alloc, files, dir, &names)?;
    let index = read_exports(alloc, files, dir, &names)?;
    Ok(index)
}

// Reads a tag, which has to run the function of its own name.
fn read_tag<F: Files>(
    alloc: Global,
    files: &mut F,
    dir: &Text,
    ns: &Text,
    names: &Texts,
    name: &str,
) -> Result<(), GetFault>
    ensures { IsDone itself (F.state files.old) (F.state files.new)
        (λ content. ReadsTag content dir.now ns.now names.now name.now) result }
{
    let told = Text::new(alloc, name)?;
    let folder = tags_folder(alloc, dir)?;
    let file = tag_name(alloc, name)?;
    let function = full_name_of(alloc, ns.as_str(), name)?;
    if !is_listed(names, file.as_str()) {
        return Err(GetFault::BadTag { name: told });
    }
    let path = path_at(alloc, &folder, file.as_str())?;
    let bytes = bytes_at(files, &path)?;
    if !is_tag(alloc, bytes.as_slice(), &function)? {
        return Err(GetFault::BadTag { name: told });
    }
    Ok(())
}

// Reads the tags.
fn read_tags<F: Files>(alloc: Global, files: &mut F, dir: &Text, ns: &Text) -> Result<(), GetFault>
    ensures { IsDone itself (F.state files.old) (F.state files.new)
        (λ content. ReadsTags content dir.now ns.now) result }
{
    let folder = tags_folder(alloc, dir)?;
    let names = names_in(files, &folder)?;
    read_tag(alloc, files, dir, ns, &names, "load")?;
    read_tag(alloc, files, dir, ns, &names, "tick")?;
    Ok(())
}

// Reads the lines of the function of this name.
fn read_lines<F: Files>(
    alloc: Global,
    files: &mut F,
    folder: &Text,
    name: &Text,
) -> Result<Texts, GetFault>
    ensures read { IsDone itself (F.state files.old) (F.state files.new)
        (λ content. ReadsLines content folder.now name.now) result }
    ensures said { IfOk result (λ lines. bad_from 1 lines ≡ None) }
{
    let told = name.clone()?;
    let path = function_path(alloc, folder, name.as_str())?;
    let bytes = bytes_at(files, &path)?;
    match lines_of(alloc, bytes.as_slice())? {
        Lines::Read(lines) => Ok(lines),
        Lines::Bad(line) => Err(GetFault::BadLine { name: told, line }),
    }
}

// Adds a function of this name, for which the pack has room.
fn add(pack: &mut Pack, name: &Text, lines: Texts) -> Result<(), Memory>
    requires name { is_function_name name.now ≡ true }
    requires lines { bad_from 1 lines ≡ None }
    requires absent { refusal pack.old name.now ≡ None }
    ensures { OnOk result (pack.new ≡ with_function pack.old name.now lines) }
{
    match pack.add(name.clone()?, lines) {
        Ok(()) => Ok(()),
        Err(AddFault::Memory) => Err(Memory),
        Err(AddFault::Twice | AddFault::Full) => unreachable!(),
    }
}

// Reads the functions of these names, for which a pack has room.
fn read_each<F: Files>(
    alloc: Global,
    files: &mut F,
    folder: &Text,
    names: &[Text],
    index: Index,
) -> Result<Pack, GetFault>
    requires namespace { is_pack_namespace index.ns ≡ true }
    requires room { HasRoomFor (record { index = index; functions = [] }) names.now }
    ensures read { IsDone (λ w. w.functions) (F.state files.old) (F.state files.new)
        (λ content. ReadsEach content folder.now names.now) result }
    ensures index { IfOk result (λ w. w.index ≡ index) }
{
    let mut pack = Pack::new(alloc, index);
    for name in names {
        let lines = read_lines(alloc, files, folder, name)?;
        add(&mut pack, name, lines)?;
    }
    Ok(pack)
}

// Reads the functions of the index's namespace.
fn read_functions<F: Files>(
    alloc: Global,
    files: &mut F,
    dir: &Text,
    index: Index,
) -> Result<Pack, GetFault>
    requires { is_pack_namespace index.ns ≡ true }
    ensures read { IsDone (λ w. w.functions) (F.state files.old) (F.state files.new)
        (λ content. ReadsFunctions content (functions_of dir.now index.ns)) result }
    ensures index { IfOk result (λ w. w.index ≡ index) }
{
    let folder = functions_folder(alloc, dir, &index.ns)?;
    let listed = names_in(files, &folder)?;
    let names = functions_among(alloc, &listed)?;
    if names.len() > MAX_FUNCTIONS {
        return Err(GetFault::TooMany {
            found: names.len() as u64,
        });
    }
    let pack = read_each(alloc, files, &folder, names.as_slice(), index)?;
    Ok(pack)
}

/// Reads the pack that the files of the folder `dir` say.
///
/// `dir` is listed, and `pack.mcmeta` and `dpwasm.json` in it are read; then the tags `load` and `tick`, then the
/// functions of the namespace in rising order of their files' names. What is of none of these names is passed over
/// unread. No file is changed, and but for `ListFailed` and `Failed` no count is.
///
/// # Errors
///
/// Each but `Memory` exactly where its step is the first that doesn't go through.
///
/// - `ListFailed` where the listing of this folder failed; the count of faults of reads is then one higher.
/// - `Failed` where the read of this file failed; the count of faults of reads is then one higher.
/// - `TooLong` where this file has more than 16,777,216 bytes.
/// - `NoMeta` where `pack.mcmeta` isn't listed or isn't of its form.
/// - `BadIndex` where `dpwasm.json` isn't.
/// - `BadTag` where the tag of this name isn't.
/// - `TooMany` where more than 1,000,000 functions are listed.
/// - `BadLine` where this line of this function is no line of the grammar.
/// - `Memory` where there was no memory.
pub fn read_pack<F: Files>(alloc: Global, files: &mut F, dir: &Text) -> Result<Pack, GetFault>
    ensures { IsPackRead (F.state files.old) (F.state files.new) dir.now result }
{
    let index = read_index(alloc, files, dir)?;
    read_tags(alloc, files, dir, &index.ns)?;
    let pack = read_functions(alloc, files, dir, index)?;
    Ok(pack)
}
