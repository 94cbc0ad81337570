// The sections of a module: section 5.5.2 of the WebAssembly Core Specification 1.0, and their order, 5.5.15.
ghost use Rattle.std.specs.Prelude.{◌≡◌, ◌≢◌, ◌+◌, ◌<◌, ◌≤◌, ℕ, List, length, map, drop, Result, Ok, Err, IfOk, MatchResult, IfSome, IfNone, MatchOption};
ghost use Rattle.wm_ast.specs.Section.{Section, SpellsSection, IsRising, IsFramed};
ghost use Rattle.wm_frame.specs.Framing.{section_of, IsFrameAt, IsFirstAstray, AreFramesOf};
ghost use Rattle.wm_frame.specs.steps.Sections.{AreFramesAfter};
ghost use Rattle.wm_frame.specs.Front.{NoneAtFront};
ghost use Rattle.wm_frame.specs.declared.fault.FrameFault.TheVariants as faults;
ghost use Rattle.wm_frame.specs.declared.fault.FrameFault.{FrameFault as Fault};
ghost use Rattle.wm_frame.specs.declared.section.Frame.{Frame as Bounds};

use crate::{Cursor, FrameFault, read_u32};
use std::alloc::Global;
use wm_ast::Items;

// The magic number and the version.
const HEADER: [u8; 8] = [0x00, 0x61, 0x73, 0x6D, 0x01, 0x00, 0x00, 0x00];

// The id of the data section, the greatest one.
const LAST_ID: u8 = 11;

/// A section of a module: its id, from 0 to 11, and the bounds of its content.
#[derive(Clone, Copy, Debug, PartialEq, Eq)]
pub struct Frame {
    /// 0 is a custom section.
    pub id: u8,
    /// The index of the first byte of the content.
    pub start: usize,
    /// The index after the last byte of the content.
    pub end: usize,
}

/// A list of sections.
pub type Frames = Items<Frame>;

/// The sections of a module, in their order in the bytes. What they hold isn't looked at. The time is linear in
/// the number of bytes.
///
/// # Errors
///
/// In this order:
///
/// - `NotWasm` exactly where the first 8 bytes aren't the header, or there are fewer.
/// - `BadFrame { at }` exactly where after the header and whole sections bytes are left, from `at` on, that begin
///   with no section. A section with an id above 11, or whose size goes past the end, is none.
/// - `BadOrder { index }` exactly where the section at `index` is the first one that isn't custom and whose id
///   isn't above that of the last section before it that isn't custom.
/// - `Memory` where there is no room for the list.
pub fn frames(alloc: Global, bytes: &[u8]) -> Result<Frames, FrameFault>
    // Each answer tells what the bytes are. No two of them can be true of the same bytes: `frames_have_one_answer`.
    ensures answer { AreFramesOf bytes.now result }
    // The frames are the grammar's sections.
    ensures framed { IfOk result (λ fs. IsFramed (map (section_of bytes.now) fs) bytes.now) }
    // Bytes that are sections in order are never refused.
    ensures only { (sections : List Section) → IsFramed sections bytes.now → IsRising 0 sections
        → MatchResult result (λ fs. map (section_of bytes.now) fs ≡ sections) (λ e. e ≡ faults.Memory) }
{
    divide(alloc, bytes)
}

/// Law: of the answers of `frames`, want of memory aside, at most one is true of the same bytes.
pub fn frames_have_one_answer()
    ensures { (bytes : List ℕ) (r s : Result (List Bounds) Fault) → AreFramesOf bytes r
        → AreFramesOf bytes s → r ≢ Err faults.Memory → s ≢ Err faults.Memory → r ≡ s }
{}

// What `frames` answers.
fn divide(alloc: Global, bytes: &[u8]) -> Result<Frames, FrameFault>
    ensures { AreFramesOf bytes.now result }
{
    if !bytes.starts_with(&HEADER) {
        return Err(FrameFault::NotWasm);
    }
    let found = frames_after(alloc, bytes)?;
    match first_astray(&found) {
        None => Ok(found),
        Some(index) => Err(FrameFault::BadOrder {
            index: index as u64,
        }),
    }
}

// The sections after the header, in whatever order.
fn frames_after(alloc: Global, bytes: &[u8]) -> Result<Frames, FrameFault>
    requires { 8 ≤ length bytes.now }
    ensures { AreFramesAfter bytes.now result }
{
    let mut found = Vec::new(alloc);
    let mut at = HEADER.len();
    while at < bytes.len() {
        match frame_at(bytes, at) {
            None => return Err(FrameFault::BadFrame { at: at as u64 }),
            Some(frame) => {
                found.push(frame)?;
                at = frame.end;
            }
        }
    }
    Ok(Items::from_vec(found))
}

// The section at a place.
fn frame_at(bytes: &[u8], at: usize) -> Option<Frame>
    requires { at < length bytes.now }
    ensures found { IfSome result (λ f. IsFrameAt bytes.now at f) }
    ensures past { IfSome result (λ f. at < f.end) }
    ensures none { IfNone result (NoneAtFront SpellsSection (drop at bytes.now)) }
{
    let id = bytes[at];
    if id > LAST_ID {
        return None;
    }
    let mut cursor = Cursor {
        at: at + 1,
        end: bytes.len(),
    };
    let size = read_u32(bytes, &mut cursor)? as usize;
    if size > bytes.len() - cursor.at {
        return None;
    }
    Some(Frame {
        id,
        start: cursor.at,
        end: cursor.at + size,
    })
}

// The place of the first section that is out of order.
fn first_astray(frames: &Frames) -> Option<usize>
    ensures { (bytes : List ℕ) → MatchOption result (IsRising 0 (map (section_of bytes) frames.now))
        (λ index. IsFirstAstray (map (section_of bytes) frames.now) index) }
{
    let mut last = 0;
    let items = frames.as_slice();
    for (index, frame) in items.iter().enumerate() {
        if frame.id != 0 {
            if frame.id <= last {
                return Some(index);
            }
            last = frame.id;
        }
    }
    None
}
