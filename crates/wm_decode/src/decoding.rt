// Modules: section 5.5.15 of the WebAssembly Core Specification 1.0.
ghost use Rattle.std.specs.Prelude.{◌≡◌, ◌≢◌, ◌≤◌, List, ℕ, map, length, slice_range, Some, Result, Ok, Err, MatchResult};
ghost use Rattle.wm_ast.specs.Spelling.{Spells};
ghost use Rattle.wm_ast.specs.declared.module.Module.{Module as Modules};
ghost use Rattle.wm_frame.specs.Framing.{section_of, AreWhole};
ghost use Rattle.wm_decode.specs.Decoding.{IsDecoded};
ghost use Rattle.wm_decode.specs.FaultLine.{fault_line, from_frames};
ghost use Rattle.wm_decode.specs.steps.SectionsReading.{AreGathered};
ghost use Rattle.wm_decode.specs.declared.decoding.DecodeFault.{DecodeFault as Faults};
ghost use Rattle.wm_decode.specs.declared.decoding.DecodeFault.TheVariants as faults;

use crate::fault::Fault;
use crate::section::{Parts, add, module, nothing};
use std::alloc::{AllocError, Global};
use std::fmt;
use wm_ast::Module;
use wm_frame::{Frame, FrameFault, Frames, frames};

/// Why bytes were not decoded.
#[derive(Clone, Copy, Debug, PartialEq, Eq)]
pub enum DecodeFault {
    /// They aren't sections in order. The fault inside is never `Memory`.
    Frame(FrameFault),
    /// A section's content isn't in its grammar (5.5.3 to 5.5.14).
    BadSection {
        /// The place of the first such section, counted from 0 over all sections, custom ones too.
        index: u64,
    },
    /// The function section and the code section speak of different numbers of functions (5.5.15).
    CountMismatch {
        /// The number of types in the function section, 0 where there is none.
        functions: u64,
        /// The number of bodies in the code section, 0 where there is none.
        bodies: u64,
    },
    /// There was no room for the module.
    Memory,
}

impl fmt::Display for DecodeFault {
    ghost output = { λ f. Some (fault_line f) };

    fn fmt<W: fmt::Write>(&self, f: &mut fmt::Formatter<W>) -> fmt::Result {
        match self {
            DecodeFault::Frame(fault) => write!(f, "{fault}"),
            DecodeFault::BadSection { index } => write!(f, "bad section {index}"),
            DecodeFault::CountMismatch { functions, bodies } => {
                write!(f, "{functions} functions, {bodies} bodies")
            }
            DecodeFault::Memory => f.write_str("out of memory"),
        }
    }
}

impl std::error::Error for DecodeFault {}

impl From<FrameFault> for DecodeFault {
    ghost from_gives = { λ f e. e ≡ from_frames f };

    fn from(fault: FrameFault) -> Self {
        match fault {
            FrameFault::Memory => DecodeFault::Memory,
            FrameFault::NotWasm => DecodeFault::Frame(FrameFault::NotWasm),
            FrameFault::BadFrame { at } => DecodeFault::Frame(FrameFault::BadFrame { at }),
            FrameFault::BadOrder { index } => DecodeFault::Frame(FrameFault::BadOrder { index }),
        }
    }
}

impl From<AllocError> for DecodeFault {
    ghost from_gives = { λ _ e. e ≡ faults.Memory };

    fn from(_: AllocError) -> Self {
        DecodeFault::Memory
    }
}

/// The module that the bytes spell. The time is linear in the number of bytes.
///
/// # Errors
///
/// In this order:
///
/// - `Frame` exactly where the bytes aren't sections in order, with the fault of `wm_frame::frames`.
/// - `BadSection { index }` exactly where the section at `index` is the first one whose content isn't in its
///   grammar, all of it.
/// - `CountMismatch { functions, bodies }` exactly where the function section has `functions` types and the code
///   section `bodies` bodies, and these numbers differ. A section that is missing has none.
/// - `Memory` where there is no room for the module.
pub fn decode(alloc: Global, bytes: &[u8]) -> Result<Module, DecodeFault>
    // Each answer tells what the bytes are. No two of them can be true of the same bytes: `decode_has_one_answer`.
    ensures answer { IsDecoded bytes.now result }
    // Bytes that spell a module are never refused.
    ensures only { (m : Modules) → Spells bytes.now m
        → MatchResult result (λ n. n ≡ m) (λ e. e ≡ faults.Memory) }
{
    decode_all(alloc, bytes)
}

/// Law: the same bytes spell at most one module.
pub fn one_module()
    ensures { (bytes : List ℕ) (m n : Modules) → Spells bytes m → Spells bytes n → m ≡ n }
{}

/// Law: of the answers of `decode`, want of memory aside, at most one is true of the same bytes.
pub fn decode_has_one_answer()
    ensures { (bytes : List ℕ) (r s : Result Modules Faults) → IsDecoded bytes r
        → IsDecoded bytes s → r ≢ Err faults.Memory → s ≢ Err faults.Memory → r ≡ s }
{}

// What `decode` answers.
fn decode_all(alloc: Global, bytes: &[u8]) -> Result<Module, DecodeFault>
    ensures { IsDecoded bytes.now result }
{
    let frames = frames(alloc, bytes)?;
    let parts = gather(alloc, bytes, &frames)?;
    let functions = parts.kinds.len();
    let bodies = parts.bodies.len();
    if functions != bodies {
        return Err(DecodeFault::CountMismatch {
            functions: functions as u64,
            bodies: bodies as u64,
        });
    }
    Ok(module(alloc, parts)?)
}

// The content of a section.
fn content(bytes: &[u8], frame: Frame) -> &[u8]
    requires ordered { frame.start ≤ frame.end }
    requires within { frame.end ≤ length bytes.now }
    ensures { result.now ≡ slice_range bytes.now frame.start frame.end }
{
    &bytes[frame.start..frame.end]
}

// What the sections hold together.
fn gather(alloc: Global, bytes: &[u8], frames: &Frames) -> Result<Parts, DecodeFault>
    requires { AreWhole bytes.now frames.now }
    ensures { AreGathered (map (section_of bytes.now) frames.now) result }
{
    let mut parts = nothing(alloc);
    let items = frames.as_slice();
    for (index, frame) in items.iter().enumerate() {
        match add(alloc, &mut parts, frame.id, content(bytes, *frame)) {
            Ok(()) => {}
            Err(Fault::Memory) => return Err(DecodeFault::Memory),
            Err(Fault::Malformed) => {
                return Err(DecodeFault::BadSection {
                    index: index as u64,
                });
            }
        }
    }
    Ok(parts)
}
