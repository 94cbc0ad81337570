// The builder: the tree that a text spells. It goes the scanner's way and keeps what stands there.
ghost use Rattle.std.specs.Prelude.{◌≡◌, ◌∷◌, [], ◌++◌, IfOk, IfSome, List, option_map, map, if◌then◌else◌, ◌==◌, Some, string_bytes};
ghost use Rattle.mc_nbt.specs.Word as word;
ghost use Rattle.mc_nbt.specs.Tree as spec;
ghost use Rattle.mc_nbt.specs.steps.Reading as reading;
ghost use Rattle.mc_nbt.specs.steps.Reading.{Open, given, built};
ghost use Rattle.mc_nbt.specs.steps.ScanView.{number};
ghost use Rattle.mc_nbt.specs.View.{view, entry, list_view};
ghost use Rattle.mc_nbt.specs.steps.BuildView.{open_frames, build_state};

use crate::byte::{is_digit, is_name_byte, is_string_byte};
use crate::digits::{first_negative, more_digits};
use crate::key::{begins_key, comes_after, is_key};
use crate::kind::{TreeKind, allows_kind, kind_of};
use crate::tree::compound;
use crate::{Memory, Nbt, NbtList, Text};
use std::alloc::Global;

// What is open: a list with its elements so far; a compound with its fields so far and the key whose value is read.
#[derive(Drop)]
enum Frame {
    List(Vec<Nbt>),
    Compound(Vec<(Text, Nbt)>, Text),
}

// What the builder has read, and what it wants next.
#[derive(Drop)]
enum BuildState {
    // A value is wanted.
    Start,
    // Behind a `-`.
    Minus,
    // Behind digits, and the `-` before them if there is one.
    Int(i32),
    // In a string, behind these bytes of it.
    Quoted(String),
    // Behind a whole value other than an int.
    Behind(Nbt),
    // In a compound with these fields, behind these bytes of the next key.
    Keyed(Vec<(Text, Nbt)>, String),
}

// The kind that the next value has to have, if it is to have one.
fn wanted(stack: &[Frame]) -> Option<TreeKind>
    ensures { option_map number result ≡ reading.wanted (open_frames stack.now) }
{
    match stack {
        [.., Frame::List(items)] => items.first().map(kind_of),
        _ => None,
    }
}

fn last_key(entries: &[(Text, Nbt)]) -> Option<&[u8]>
    ensures { option_map (λ k. k.now) result ≡ reading.last_key (map entry entries.now) }
{
    match entries {
        [] => None,
        [.., last] => Some(last.0.as_bytes()),
    }
}

// The elements as plain ints, if all of them are ints.
fn ints_in(alloc: Global, items: &[Nbt]) -> Result<Option<Vec<i32>>, Memory>
    ensures { IfOk result (λ o. IfSome o (λ v. map spec.int v.items ≡ map view items.now)) }
{
    let mut ints = Vec::with_capacity(alloc, items.len())?;
    for item in items {
        match item {
            Nbt::Int(z) => ints.push(*z)?,
            _ => return Ok(None),
        }
    }
    Ok(Some(ints))
}

// A list of ints is kept as plain ints.
fn compacted(alloc: Global, items: Vec<Nbt>) -> Result<NbtList, Memory>
    ensures { IfOk result (λ l. list_view l ≡ spec.items (map view items.items)) }
{
    if !matches!(items.first(), Some(Nbt::Int(_))) {
        return Ok(NbtList::Trees(items));
    }
    match ints_in(alloc, items.as_slice())? {
        Some(ints) => Ok(NbtList::Ints(ints)),
        None => Ok(NbtList::Trees(items)),
    }
}

fn compact_list(alloc: Global, items: Vec<Nbt>) -> Result<Nbt, Memory>
    ensures { IfOk result (λ t. view t ≡ spec.list_of (map view items.items)) }
{
    Ok(Nbt::List(compacted(alloc, items)?))
}

// `]` where a value is wanted.
fn close_empty(stack: &mut Vec<Frame>) -> Option<BuildState>
    ensures { option_map (build_state (open_frames stack.new.items)) result ≡ reading.close_empty (open_frames stack.old.items) }
{
    match stack.pop() {
        Some(Frame::List(items)) => {
            if items.is_empty() {
                Some(BuildState::Behind(Nbt::List(NbtList::Trees(items))))
            } else {
                None
            }
        }
        _ => None,
    }
}

// The first byte of a value, or `]` where the list has none.
fn begin(alloc: Global, stack: &mut Vec<Frame>, c: u8) -> Result<Option<BuildState>, Memory>
    ensures { IfOk result (λ o. option_map (build_state (open_frames stack.new.items)) o ≡ reading.begin (open_frames stack.old.items) (reading.wanted (open_frames stack.old.items)) c) }
{
    let wanted = wanted(stack.as_slice());
    match c {
        b'-' => Ok(allows_kind(wanted, TreeKind::Int).then_some(BuildState::Minus)),
        b'"' => Ok(allows_kind(wanted, TreeKind::Str).then_some(BuildState::Quoted(String::new(
            alloc,
        )))),
        b'[' => {
            if !allows_kind(wanted, TreeKind::List) {
                return Ok(None);
            }
            stack.push(Frame::List(Vec::new(alloc)))?;
            Ok(Some(BuildState::Start))
        }
        b'{' => Ok(allows_kind(wanted, TreeKind::Compound).then_some(BuildState::Keyed(
            Vec::new(alloc),
            String::new(alloc),
        ))),
        b']' => Ok(close_empty(stack)),
        _ => {
            if is_digit(c) && allows_kind(wanted, TreeKind::Int) {
                Ok(Some(BuildState::Int((c - b'0') as i32)))
            } else {
                Ok(None)
            }
        }
    }
}

// The byte behind a value.
fn after(
    alloc: Global,
    stack: &mut Vec<Frame>,
    tree: Nbt,
    c: u8,
) -> Result<Option<BuildState>, Memory>
    ensures { IfOk result (λ o. option_map (build_state (open_frames stack.new.items)) o ≡ reading.after (open_frames stack.old.items) (view tree) c) }
{
    match stack.pop() {
        None => Ok(None),
        Some(Frame::List(items)) => after_item(alloc, stack, items, tree, c),
        Some(Frame::Compound(entries, key)) => after_field(alloc, entries, key, tree, c),
    }
}

// The byte behind an element of a list.
fn after_item(
    alloc: Global,
    stack: &mut Vec<Frame>,
    mut items: Vec<Nbt>,
    tree: Nbt,
    c: u8,
) -> Result<Option<BuildState>, Memory>
    ensures { IfOk result (λ o. option_map (build_state (open_frames stack.new.items)) o ≡ reading.after (reading.in_list (map view items.items) ∷ open_frames stack.old.items) (view tree) c) }
{
    items.push(tree)?;
    match c {
        b',' => {
            stack.push(Frame::List(items))?;
            Ok(Some(BuildState::Start))
        }
        b']' => Ok(Some(BuildState::Behind(compact_list(alloc, items)?))),
        _ => Ok(None),
    }
}

// The byte behind what stands under a key.
fn after_field(
    alloc: Global,
    mut entries: Vec<(Text, Nbt)>,
    key: Text,
    tree: Nbt,
    c: u8,
) -> Result<Option<BuildState>, Memory>
    ensures { IfOk result (λ o. (fs : Open) → option_map (build_state fs) o ≡ reading.after (reading.in_compound (map entry entries.items) key ∷ fs) (view tree) c) }
{
    let goes_on = begins_key(Some(key.as_bytes()), &[]);
    entries.push((key, tree))?;
    match c {
        b',' => Ok(goes_on.then_some(BuildState::Keyed(entries, String::new(alloc)))),
        b'}' => Ok(Some(BuildState::Behind(compound(entries)))),
        _ => Ok(None),
    }
}

// The byte of a key, or the one behind it.
fn in_key(
    stack: &mut Vec<Frame>,
    entries: Vec<(Text, Nbt)>,
    key: String,
    c: u8,
) -> Result<Option<BuildState>, Memory>
    ensures { IfOk result (λ o. option_map (build_state (open_frames stack.new.items)) o ≡ reading.in_key (open_frames stack.old.items) (map entry entries.items) (string_bytes key) c) }
{
    match c {
        b':' => {
            if !is_key(key.as_bytes()) || !comes_after(last_key(&entries), key.as_bytes()) {
                return Ok(None);
            }
            stack.push(Frame::Compound(entries, Text::from(key)))?;
            Ok(Some(BuildState::Start))
        }
        b'}' => Ok(
            (entries.is_empty() && key.is_empty()).then_some(BuildState::Behind(compound(entries))),
        ),
        _ => more_key(entries, key, c),
    }
}

// The byte of a key.
fn more_key(entries: Vec<(Text, Nbt)>, mut key: String, c: u8) -> Result<Option<BuildState>, Memory>
    ensures { IfOk result (λ o. (fs : Open) → option_map (build_state fs) o ≡ given (reading.begins_key (reading.last_key (map entry entries.items)) (string_bytes key ++ c ∷ [])) (reading.keyed fs (map entry entries.items) (string_bytes key ++ c ∷ []))) }
{
    if !is_name_byte(c) {
        return Ok(None);
    }
    key.push(c as char)?;
    let begins = begins_key(last_key(&entries), key.as_bytes());
    Ok(begins.then_some(BuildState::Keyed(entries, key)))
}

// The byte of a string, or the one behind it.
fn in_string(mut s: String, c: u8) -> Result<Option<BuildState>, Memory>
    ensures { IfOk result (λ o. (fs : Open) → option_map (build_state fs) o ≡ (if c == 34 then Some (reading.behind fs (spec.string (string_bytes s))) else given (word.is_string_byte c) (reading.quoted fs (string_bytes s ++ c ∷ [])))) }
{
    if c == b'"' {
        return Ok(Some(BuildState::Behind(Nbt::Str(Text::from(s)))));
    }
    if !is_string_byte(c) {
        return Ok(None);
    }
    s.push(c as char)?;
    Ok(Some(BuildState::Quoted(s)))
}

// The state behind one more byte, if that goes on with a spelling.
fn step(
    alloc: Global,
    stack: &mut Vec<Frame>,
    state: BuildState,
    c: u8,
) -> Result<Option<BuildState>, Memory>
    ensures { IfOk result (λ o. option_map (build_state (open_frames stack.new.items)) o ≡ reading.step (build_state (open_frames stack.old.items) state) c) }
{
    match state {
        BuildState::Start => begin(alloc, stack, c),
        BuildState::Minus => Ok(first_negative(c).map(BuildState::Int)),
        BuildState::Int(z) => {
            if is_digit(c) {
                Ok(more_digits(z, c).map(BuildState::Int))
            } else {
                after(alloc, stack, Nbt::Int(z), c)
            }
        }
        BuildState::Quoted(s) => in_string(s, c),
        BuildState::Behind(tree) => after(alloc, stack, tree, c),
        BuildState::Keyed(entries, key) => in_key(stack, entries, key, c),
    }
}

// The tree that has been read, where nothing is open.
fn ended(stack: &[Frame], state: BuildState) -> Option<Nbt>
    ensures { option_map view result ≡ reading.ended (build_state (open_frames stack.now) state) }
{
    if !stack.is_empty() {
        return None;
    }
    match state {
        BuildState::Int(z) => Some(Nbt::Int(z)),
        BuildState::Behind(tree) => Some(tree),
        _ => None,
    }
}

// The tree that the text spells, if it spells one. A tree is dropped by a recursion, so only texts are for it of
// which the scanner has said that they are not deep.
pub(crate) fn build(alloc: Global, bytes: &[u8]) -> Result<Option<Nbt>, Memory>
    ensures { IfOk result (λ o. option_map view o ≡ built bytes.now) }
{
    let mut stack = Vec::new(alloc);
    let mut state = BuildState::Start;
    for c in bytes {
        match step(alloc, &mut stack, state, *c)? {
            Some(next) => state = next,
            None => return Ok(None),
        }
    }
    Ok(ended(stack.as_slice(), state))
}
