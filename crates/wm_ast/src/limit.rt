/// The most function types that a module may have.
pub const MAX_TYPES: u64 = 4_096;

/// The most functions that a module may have.
pub const MAX_FUNCTIONS: u64 = 8_192;

/// The most parameters and locals, counted together, that a function may have.
pub const MAX_LOCALS: u64 = 1_024;

/// The most parameters and locals that all functions together may have.
pub const MAX_ALL_LOCALS: u64 = 262_144;

/// The most instructions that the bodies of all functions together may have. `end` and `else` don't count.
pub const MAX_INSTRUCTIONS: u64 = 262_144;

/// The most labels that a `br_table` may have. The default label doesn't count.
pub const MAX_LABELS: u64 = 4_096;

/// The most globals that a module may have.
pub const MAX_GLOBALS: u64 = 4_096;

/// The greatest least size that a table may have, in entries.
pub const MAX_TABLE: u64 = 16_384;

/// The greatest number of pages that a memory may have. A page has 65,536 bytes.
pub const PAGES: u32 = 256;

/// The most exports that a module may have.
pub const MAX_EXPORTS: u64 = 4_096;

/// The most that the bytes of the names and the parameters of all exported functions may be, counted together once
/// for each export.
pub const MAX_EXPORT_SIZE: u64 = 2_097_152;

/// The greatest number of calls that may be under way at once. One more traps.
pub const MAX_FRAMES: u32 = 1_024;
