// The scanner: whether a text spells a tree, and how far it begins one, with no tree made.
ghost use Rattle.std.specs.Prelude.{◌≡◌, ◌∷◌, [], IfOk, option_map, if◌then◌else◌, ◌==◌, Some};
ghost use Rattle.mc_nbt.specs.Word as word;
ghost use Rattle.mc_nbt.specs.steps.Scanning as scanning;
ghost use Rattle.mc_nbt.specs.steps.Scanning.{Marks, scan_text};
ghost use Rattle.mc_nbt.specs.steps.Reading as reading;
ghost use Rattle.mc_nbt.specs.steps.Reading.{given};
ghost use Rattle.mc_nbt.specs.steps.ScanView.{number, open_marks, scan_state, verdict};

use crate::Memory;
use crate::byte::{is_digit, is_string_byte};
use crate::digits::{first_negative, more_digits};
use crate::key::{begins_key, comes_after, is_key};
use crate::kind::{TreeKind, allows_kind, kind_with};
use std::alloc::Global;

// What is open: a list with the kind of its elements, if it has any; a compound with the key whose value is read.
#[derive(Drop)]
enum Mark {
    List(Option<TreeKind>),
    Compound(Vec<u8>),
}

// What the scanner has read, and what it wants next.
#[derive(Drop)]
enum ScanState {
    // A value is wanted.
    Start,
    // Behind a `-`.
    Minus,
    // Behind digits, and the `-` before them if there is one.
    Int(i32),
    // In a string.
    Quoted,
    // Behind a whole value other than an int.
    Behind(TreeKind),
    // In a compound, with its last key if it has one, behind these bytes of the next one.
    Keyed(Option<Vec<u8>>, Vec<u8>),
}

#[derive(Clone, Copy)]
pub(crate) enum Scanned {
    // The text spells a tree, which is so deep.
    Whole { depth: usize },
    // So many bytes begin a spelling, and no more do.
    Broken { at: usize },
}

// The kind that the next value has to have, if it is to have one.
fn wanted(stack: &[Mark]) -> Option<TreeKind>
    ensures { option_map number result ≡ scanning.wanted (open_marks stack.now) }
{
    match stack {
        [.., Mark::List(kind)] => *kind,
        _ => None,
    }
}

// `]` where a value is wanted.
fn close_empty(stack: &mut Vec<Mark>) -> Option<ScanState>
    ensures { option_map (scan_state (open_marks stack.new.items)) result ≡ scanning.close_empty (open_marks stack.old.items) }
{
    match stack.pop() {
        Some(Mark::List(None)) => Some(ScanState::Behind(TreeKind::List)),
        _ => None,
    }
}

// The first byte of a value, or `]` where the list has none.
fn begin(alloc: Global, stack: &mut Vec<Mark>, c: u8) -> Result<Option<ScanState>, Memory>
    ensures { IfOk result (λ o. option_map (scan_state (open_marks stack.new.items)) o ≡ scanning.begin (open_marks stack.old.items) (scanning.wanted (open_marks stack.old.items)) c) }
{
    let wanted = wanted(stack.as_slice());
    match c {
        b'-' => Ok(allows_kind(wanted, TreeKind::Int).then_some(ScanState::Minus)),
        b'"' => Ok(allows_kind(wanted, TreeKind::Str).then_some(ScanState::Quoted)),
        b'[' => {
            if !allows_kind(wanted, TreeKind::List) {
                return Ok(None);
            }
            stack.push(Mark::List(None))?;
            Ok(Some(ScanState::Start))
        }
        b'{' => Ok(allows_kind(wanted, TreeKind::Compound).then_some(ScanState::Keyed(
            None,
            Vec::new(alloc),
        ))),
        b']' => Ok(close_empty(stack)),
        _ => {
            if is_digit(c) && allows_kind(wanted, TreeKind::Int) {
                Ok(Some(ScanState::Int((c - b'0') as i32)))
            } else {
                Ok(None)
            }
        }
    }
}

// The byte behind a value of this kind.
fn after(
    alloc: Global,
    stack: &mut Vec<Mark>,
    kind: TreeKind,
    c: u8,
) -> Result<Option<ScanState>, Memory>
    ensures { IfOk result (λ o. option_map (scan_state (open_marks stack.new.items)) o ≡ scanning.after (open_marks stack.old.items) (number kind) c) }
{
    match stack.pop() {
        None => Ok(None),
        Some(Mark::List(elements)) => after_item(stack, elements, kind, c),
        Some(Mark::Compound(key)) => Ok(after_field(alloc, key, c)),
    }
}

// The byte behind an element of a list whose elements before it have this kind.
fn after_item(
    stack: &mut Vec<Mark>,
    elements: Option<TreeKind>,
    kind: TreeKind,
    c: u8,
) -> Result<Option<ScanState>, Memory>
    ensures { IfOk result (λ o. option_map (scan_state (open_marks stack.new.items)) o ≡ scanning.after (scanning.of_list (option_map number elements) ∷ open_marks stack.old.items) (number kind) c) }
{
    match c {
        b',' => {
            stack.push(Mark::List(Some(kind_with(elements, kind))))?;
            Ok(Some(ScanState::Start))
        }
        b']' => Ok(Some(ScanState::Behind(TreeKind::List))),
        _ => Ok(None),
    }
}

// The byte behind what stands under a key.
fn after_field(alloc: Global, key: Vec<u8>, c: u8) -> Option<ScanState>
    ensures { (ms : Marks) → option_map (scan_state ms) result ≡ (if c == 44 then given (reading.begins_key (Some key.items) []) (scanning.keyed ms (Some key.items) []) else given (c == 125) (scanning.behind ms 3)) }
{
    match c {
        b',' => begins_key(Some(key.as_slice()), &[]).then_some(ScanState::Keyed(
            Some(key),
            Vec::new(alloc),
        )),
        b'}' => Some(ScanState::Behind(TreeKind::Compound)),
        _ => None,
    }
}

// The byte of a key, or the one behind it.
fn in_key(
    stack: &mut Vec<Mark>,
    last: Option<Vec<u8>>,
    mut key: Vec<u8>,
    c: u8,
) -> Result<Option<ScanState>, Memory>
    ensures { IfOk result (λ o. option_map (scan_state (open_marks stack.new.items)) o ≡ scanning.in_key (open_marks stack.old.items) (option_map (λ v. v.items) last) key.items c) }
{
    match c {
        b':' => {
            if !is_key(&key) || !comes_after(last.as_deref(), &key) {
                return Ok(None);
            }
            stack.push(Mark::Compound(key))?;
            Ok(Some(ScanState::Start))
        }
        b'}' => Ok(
            (last.is_none() && key.is_empty()).then_some(ScanState::Behind(TreeKind::Compound)),
        ),
        _ => {
            key.push(c)?;
            Ok(begins_key(last.as_deref(), &key).then_some(ScanState::Keyed(last, key)))
        }
    }
}

// The state behind one more byte, if that goes on with a spelling.
fn step(
    alloc: Global,
    stack: &mut Vec<Mark>,
    state: ScanState,
    c: u8,
) -> Result<Option<ScanState>, Memory>
    ensures { IfOk result (λ o. option_map (scan_state (open_marks stack.new.items)) o ≡ scanning.step (scan_state (open_marks stack.old.items) state) c) }
{
    match state {
        ScanState::Start => begin(alloc, stack, c),
        ScanState::Minus => Ok(first_negative(c).map(ScanState::Int)),
        ScanState::Int(z) => {
            if is_digit(c) {
                Ok(more_digits(z, c).map(ScanState::Int))
            } else {
                after(alloc, stack, TreeKind::Int, c)
            }
        }
        ScanState::Quoted => Ok(in_string(c)),
        ScanState::Behind(kind) => after(alloc, stack, kind, c),
        ScanState::Keyed(last, key) => in_key(stack, last, key, c),
    }
}

// The byte of a string, or the one behind it.
fn in_string(c: u8) -> Option<ScanState>
    ensures { (ms : Marks) → option_map (scan_state ms) result ≡ (if c == 34 then Some (scanning.behind ms 1) else given (word.is_string_byte c) (scanning.quoted ms)) }
{
    if c == b'"' {
        Some(ScanState::Behind(TreeKind::Str))
    } else {
        is_string_byte(c).then_some(ScanState::Quoted)
    }
}

// How many levels deep the value at hand is.
fn level(stack: &[Mark], state: &ScanState) -> usize
    ensures { result ≡ scanning.level (scan_state (open_marks stack.now) state.now) }
{
    match state {
        ScanState::Start => stack.len(),
        _ => stack.len() + 1,
    }
}

// Whether a whole value has been read, and nothing is open.
fn has_ended(stack: &[Mark], state: &ScanState) -> bool
    ensures { result ≡ scanning.has_ended (scan_state (open_marks stack.now) state.now) }
{
    stack.is_empty() && matches!(state, ScanState::Int(_) | ScanState::Behind(_))
}

// Whether the text spells a tree of any depth. It takes time and room as the text is long.
pub(crate) fn scan(alloc: Global, bytes: &[u8]) -> Result<Scanned, Memory>
    ensures { IfOk result (λ s. verdict s ≡ scan_text bytes.now) }
{
    let mut stack = Vec::new(alloc);
    let mut state = ScanState::Start;
    let mut deepest = 0;
    for (i, c) in bytes.iter().enumerate() {
        match step(alloc, &mut stack, state, *c)? {
            Some(next) => state = next,
            None => return Ok(Scanned::Broken { at: i }),
        }
        deepest = usize::max(deepest, level(stack.as_slice(), &state));
    }
    if has_ended(stack.as_slice(), &state) {
        Ok(Scanned::Whole { depth: deepest })
    } else {
        Ok(Scanned::Broken { at: bytes.len() })
    }
}
