//! Trees read and printed, selected and changed.

ghost use Rattle.mc_nbt.specs.Shape.{IsTree};
ghost use Rattle.mc_nbt.specs.View.{view};
ghost use Rattle.std.specs.Prelude.{IfOk};

use mc_nbt::{
    Changed, Memory, Nbt, Path, PathPart, Sel, SnbtFault, Text, append, get, is_same, print, read,
    remove, set,
};
use std::alloc::Global;
use test_lines::{Stop, many};

fn tree_of(alloc: Global, text: &[u8]) -> Result<Nbt, Stop>
    ensures tree { IfOk result (λ t. IsTree (view t)) }
{
    match read(alloc, text) {
        Ok(tree) => Ok(tree),
        Err(SnbtFault::Memory) => Err(Stop::Memory),
        Err(_) => Err(Stop::Line),
    }
}

fn shown(alloc: Global, tree: &Nbt) -> Result<String, Stop> {
    Ok(String::from_str(alloc, print(alloc, tree)?.as_str())?)
}

// A number is a place, and any other word a key.
fn step_of(alloc: Global, word: &str) -> Result<PathPart, Memory> {
    match word.parse::<i32>() {
        Ok(place) => Ok(PathPart::Place(place)),
        Err(_) => Ok(PathPart::Key(Text::new(alloc, word)?)),
    }
}

/// The path of these words, each of which is a step; none where they make no path.
pub fn path_of(alloc: Global, words: &str) -> Result<Option<Path>, Stop> {
    let mut steps = Vec::new(alloc);
    for word in words.split(' ') {
        steps.push(step_of(alloc, word)?)?;
    }
    Ok(Path::new(steps))
}

/// The tree of the bytes printed again, or why they spell none.
pub fn read_again(alloc: Global, bytes: &[u8]) -> Result<String, Stop> {
    match read(alloc, bytes) {
        Ok(tree) => shown(alloc, &tree),
        Err(fault) => Ok(fault.to_string(alloc)?),
    }
}

fn change(
    alloc: Global,
    word: &str,
    tree: &mut Nbt,
    path: &Path,
    value: Nbt,
) -> Result<Changed, Memory>
    requires tree { IsTree (view tree.old) }
    requires value { IsTree (view value) }
{
    match word {
        "set" => set(alloc, tree, path, value),
        "append" => append(alloc, tree, path, value),
        _ => Ok(remove(tree, path)),
    }
}

/// The tree that a change leaves, or that it fails and leaves the tree as it was.
pub fn changed(alloc: Global, word: &str, words: &str) -> Result<String, Stop> {
    let (path, rest) = words.split_once(" | ").ok_or(Stop::Line)?;
    let (text, value) = rest.split_once(" | ").ok_or(Stop::Line)?;
    let path = path_of(alloc, path)?.ok_or(Stop::Line)?;
    let before = tree_of(alloc, text.as_bytes())?;
    let mut tree = tree_of(alloc, text.as_bytes())?;
    let value = tree_of(alloc, value.as_bytes())?;
    if change(alloc, word, &mut tree, &path, value)? == Changed::Yes {
        shown(alloc, &tree)
    } else if is_same(&tree, &before) {
        Ok(String::from_str(alloc, "as it was")?)
    } else {
        Ok(String::from_str(alloc, "another tree")?)
    }
}

/// What the path before ` | ` selects in the tree behind it.
pub fn selected(alloc: Global, words: &str) -> Result<String, Stop> {
    let (path, tree) = words.split_once(" | ").ok_or(Stop::Line)?;
    let path = path_of(alloc, path)?.ok_or(Stop::Line)?;
    let tree = tree_of(alloc, tree.as_bytes())?;
    Ok(match get(&tree, &path) {
        None => String::from_str(alloc, "nothing")?,
        Some(Sel::Int(z)) => format!(in alloc; "{z}")?,
        Some(Sel::Tree(found)) => shown(alloc, found)?,
    })
}

// Whether the tree of these bytes comes to stand at, or in a list at, a key of the empty tree.
fn is_put(alloc: Global, word: &str, bytes: &[u8]) -> Result<bool, Stop> {
    let path = path_of(alloc, "a")?.ok_or(Stop::Line)?;
    let mut tree = tree_of(alloc, b"{}")?;
    match read(alloc, bytes) {
        Ok(value) => Ok(change(alloc, word, &mut tree, &path, value)? == Changed::Yes),
        Err(SnbtFault::Depth) => Ok(false),
        Err(_) => Err(Stop::Line),
    }
}

/// Whether so many lists, each in the next, round a 1 are read, set at a key, and appended at a key.
pub fn depths(alloc: Global, lists: u64) -> Result<String, Stop> {
    let mut bytes = many(alloc, lists, "[")?;
    bytes.push(b'1')?;
    bytes.extend_from_slice(&many(alloc, lists, "]")?)?;
    let is_read = read(alloc, &bytes).is_ok();
    let is_set = is_put(alloc, "set", &bytes)?;
    let is_appended = is_put(alloc, "append", &bytes)?;
    Ok(format!(in alloc; "{is_read} {is_set} {is_appended}")?)
}

// The path to a place of the list at `a`.
fn place_path(alloc: Global, place: u32) -> Result<Option<Path>, Stop> {
    let words = format!(in alloc; "a {place}")?;
    path_of(alloc, words.as_str())
}

/// Whether a 7 is set at each place of a list of one more zeros than this, one after another.
pub fn is_each_set(alloc: Global, more: u64) -> Result<bool, Stop> {
    let Ok(more) = u32::try_from(more) else {
        return Err(Stop::Line);
    };
    let mut bytes = Vec::from_slice(alloc, b"{a:[0")?;
    bytes.extend_from_slice(&many(alloc, u64::from(more), ",0")?)?;
    bytes.extend_from_slice(b"]}")?;
    let mut tree = tree_of(alloc, &bytes)?;
    for place in 0..=more {
        let path = place_path(alloc, place)?.ok_or(Stop::Line)?;
        if set(alloc, &mut tree, &path, Nbt::Int(7))? != Changed::Yes {
            return Ok(false);
        }
    }
    Ok(true)
}
