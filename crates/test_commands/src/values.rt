//! Trees that are kept in two ways, and the types that trees are made of.

use mc_nbt::{Bytes, Kind, Memory, Nbt, NbtList, Text, Texts, Value, is_same, is_tree, read};
use std::alloc::Global;
use test_lines::Stop;

/// Of a list of one tree that is kept as a tree: whether it is the one that is read, whether that one's copy is it,
/// whether it is one of two elements, and whether it is a tree; then whether a text beyond ASCII is a tree.
pub fn lists_text(alloc: Global) -> Result<String, Stop> {
    let mut trees = Vec::new(alloc);
    trees.push(Nbt::Int(1))?;
    let plain = Nbt::List(NbtList::Trees(trees));
    let Ok(compact) = read(alloc, b"[1]") else {
        return Err(Stop::Line);
    };
    let Ok(two) = read(alloc, b"[1,1]") else {
        return Err(Stop::Line);
    };
    let same = is_same(&plain, &compact);
    let copied = is_same(&compact, &plain.clone()?);
    let other = is_same(&plain, &two);
    let is_plain = is_tree(&plain);
    let is_text = is_tree(&Nbt::Str(Text::new(alloc, "é")?));
    Ok(format!(in alloc; "{same} {copied} {other} {is_plain} {is_text}")?)
}

/// Texts, bytes and lists of texts, copied, compared and shown.
pub fn bases_text(alloc: Global) -> Result<String, Stop> {
    let text = Text::new(alloc, "é{}")?;
    let copied = text.clone()? == text;
    let before = Text::new(alloc, "B")? < Text::new(alloc, "a")?;
    let bytes = Bytes::new(alloc, &[0, 255, 7])?;
    let bytes_copied = bytes.clone()? == bytes;
    let bytes_before = Bytes::new(alloc, &[0])? < bytes;
    let is_long = Value::I64(-1).kind() == Kind::I64;
    let mut shown = format!(in alloc; "<{text}> {text:?} {Memory}")?;
    let mut texts = Texts::new(alloc);
    texts.push(text)?;
    let other = texts != Texts::new(alloc);
    write!(
        shown,
        " {copied} {before} {bytes_copied} {bytes_before} {is_long} {other}"
    )?;
    Ok(shown)
}
