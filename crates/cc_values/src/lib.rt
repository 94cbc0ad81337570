//! Values from ints, by their types: the way back from what the places of frames hold.
//!
//! A pack keeps an i32 as an int and an i64 as two, its low half first. Whoever looks at a world has ints, and knows
//! the types of locals and operands from the program. Each decoder answers none exactly where no values of these types
//! have such ints.
#![tactic(auto)]

mod law;
mod row;
mod score;
mod value;

pub use law::ints_tell;
pub use row::values_of;
pub use score::value_of_scores;
