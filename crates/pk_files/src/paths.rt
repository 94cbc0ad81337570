//! Where the files of a pack lie.

ghost use Rattle.std.specs.Prelude.{◌≡◌, IfOk, IfSome, option_map, string_bytes, true};
ghost use Rattle.mc_cmd.specs.Layout.{full_name};
ghost use Rattle.mc_cmd.specs.Word.{is_function_name};
ghost use Rattle.pk_files.specs.Paths.{at, function_file, function_names};
ghost use Rattle.pk_files.specs.Paths.{function_named, functions_of, tag_file, tags_of};

use mc_cmd::{is_function_name, strip_back};
use mc_nbt::{Memory, Text, Texts};
use std::alloc::Global;

/// What has this name in a folder.
pub fn path_at(alloc: Global, dir: &Text, name: &str) -> Result<Text, Memory>
    ensures { IfOk result (λ path. path ≡ at dir.now name.now) }
{
    Ok(Text::from(format!(in alloc; "{dir}/{name}")?))
}

/// The folder of the tags.
pub fn tags_folder(alloc: Global, dir: &Text) -> Result<Text, Memory>
    ensures { IfOk result (λ path. path ≡ tags_of dir.now) }
{
    path_at(alloc, dir, "data/minecraft/tags/functions")
}

/// The folder of the functions of a namespace.
pub fn functions_folder(alloc: Global, dir: &Text, ns: &Text) -> Result<Text, Memory>
    ensures { IfOk result (λ path. path ≡ functions_of dir.now ns.now) }
{
    Ok(Text::from(format!(in alloc; "{dir}/data/{ns}/functions")?))
}

/// The name of the file of a tag.
pub fn tag_name(alloc: Global, name: &str) -> Result<Text, Memory>
    ensures { IfOk result (λ file. file ≡ tag_file name.now) }
{
    Ok(Text::from(format!(in alloc; "{name}.json")?))
}

/// The path of the file of a function in the folder of its namespace.
pub fn function_path(alloc: Global, folder: &Text, name: &str) -> Result<Text, Memory>
    ensures { IfOk result (λ path. path ≡ at folder.now (function_file name.now)) }
{
    Ok(Text::from(format!(in alloc; "{folder}/{name}.mcfunction")?))
}

/// The function of this name of a namespace.
pub fn full_name_of(alloc: Global, ns: &str, name: &str) -> Result<String, Memory>
    ensures { IfOk result (λ full. string_bytes full ≡ full_name ns.now name.now) }
{
    Ok(format!(in alloc; "{ns}:{name}")?)
}

// The function whose file has this name, if it is the file of one.
fn function_in(file: &[u8]) -> Option<&[u8]>
    ensures name { option_map (λ name. name.now) result ≡ function_named file.now }
    ensures is_name { IfSome result (λ name. is_function_name name.now ≡ true) }
{
    let Some(name) = strip_back(file, b".mcfunction".as_slice()) else {
        return None;
    };
    if is_function_name(name) {
        Some(name)
    } else {
        None
    }
}

// The text of a function's name, which is ASCII.
fn text_of(alloc: Global, name: &[u8]) -> Result<Text, Memory>
    requires { is_function_name name.now ≡ true }
    ensures { IfOk result (λ text. text ≡ name.now) }
{
    match str::from_utf8(name) {
        Ok(text) => Text::new(alloc, text),
        Err(_) => unreachable!(),
    }
}

/// The functions among the files of these names.
pub fn functions_among(alloc: Global, files: &Texts) -> Result<Texts, Memory>
    ensures { IfOk result (λ names. names ≡ function_names files.now) }
{
    let mut names = Texts::new(alloc);
    for file in files.as_slice() {
        if let Some(name) = function_in(file.as_bytes()) {
            names.push(text_of(alloc, name)?)?;
        }
    }
    Ok(names)
}
