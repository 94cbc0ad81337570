ghost use Rattle.std.specs.Prelude.{Some};
ghost use Rattle.wm_profile.specs.FaultLine.{fault_line};

use std::fmt;
use wm_ast::Item;

/// Why a module isn't in the profile. Indices count from 0 among the items of one kind.
#[derive(Clone, Copy, Debug, PartialEq, Eq)]
pub enum ProfileFault {
    /// It has an import.
    Import {
        /// The index of the first import: 0.
        index: u64,
    },
    /// An item has a float type or a float instruction.
    Float {
        /// The kind of the first such item.
        item: Item,
        /// Its index.
        index: u64,
    },
    /// An item has an `i64.mul`.
    Mul64 {
        /// The kind of the first such item.
        item: Item,
        /// Its index.
        index: u64,
    },
    /// A limit is exceeded.
    Limit {
        /// The number of the first such limit, from 1 to 11.
        which: u8,
        /// What was counted, or 2^64 - 1 where that is more.
        found: u64,
        /// The most that it may be.
        limit: u64,
    },
    /// A segment reaches beyond the declared least size of its table or memory.
    SegmentOutside {
        /// The kind of the first such segment, elements or datas.
        item: Item,
        /// Its index.
        index: u64,
    },
}

impl fmt::Display for ProfileFault {
    ghost output = { λ f. Some (fault_line f) };

    fn fmt<W: fmt::Write>(&self, f: &mut fmt::Formatter<W>) -> fmt::Result {
        match self {
            ProfileFault::Import { index } => write!(f, "import {index}"),
            ProfileFault::Float { item, index } => write!(f, "float in {item} {index}"),
            ProfileFault::Mul64 { item, index } => write!(f, "i64.mul in {item} {index}"),
            ProfileFault::Limit {
                which,
                found,
                limit,
            } => write!(f, "limit {which}, {found} over {limit}"),
            ProfileFault::SegmentOutside { item, index } => {
                write!(f, "segment {item} {index} outside")
            }
        }
    }
}

impl std::error::Error for ProfileFault {}
