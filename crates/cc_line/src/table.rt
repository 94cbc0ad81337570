// Tables in which routines look numbers up.
ghost use Rattle.std.specs.Prelude.{◌≡◌, IfOk};
ghost use Rattle.std.specs.Int.{w32, cast_signed};
ghost use Rattle.mc_nbt.specs.View.{view};
ghost use Rattle.cc_line.specs.Table.{power, rotation_word, rows_tree, table_tree, table_word, words_tree};

use mc_nbt::{Memory, Nbt, NbtList};
use std::alloc::Global;

/// A table in which a routine looks numbers up.
#[derive(Clone, Copy)]
pub enum Table {
    /// At k the low byte of k, k below 65536.
    LowByte,
    /// At k the high byte of k, k below 65536.
    HighByte,
    /// In row i and column j the bits that i and j have both, both below 256.
    ByteAnd,
    /// In row i and column j the same times 256.
    RaisedAnd,
    /// At k the ones of k, k below 256.
    Ones,
    /// At k the factor 2^k, k below 32.
    ShiftLeft,
    /// At k the divisor 2^k; at 31 it is 2^30, for 2^31 is no int.
    ShiftRightSigned,
    /// At k from 1 on the divisor 2^(k - 1); at 0 it is 1.
    ShiftRight,
    /// In row k the factor 2^k and the divisor 2^(31 - k).
    RotateLeft,
    /// In row k the row 32 - k of `RotateLeft`; in row 0 its row 0.
    RotateRight,
}

/// The tree of a table.
///
/// # Errors
///
/// `Memory` where there is no room for it.
#[tactic(auto, unfolding(crate::specs::Table::table_tree))]
pub fn table_nbt(alloc: Global, table: Table) -> Result<Nbt, Memory>
    ensures { IfOk result (λ t. view t ≡ table_tree table) }
{
    match table {
        Table::LowByte => row(alloc, Table::LowByte, 0, 65536),
        Table::HighByte => row(alloc, Table::HighByte, 0, 65536),
        Table::ByteAnd => rows(alloc, Table::ByteAnd, 256, 256),
        Table::RaisedAnd => rows(alloc, Table::RaisedAnd, 256, 256),
        Table::Ones => row(alloc, Table::Ones, 0, 256),
        Table::ShiftLeft => row(alloc, Table::ShiftLeft, 0, 32),
        Table::ShiftRightSigned => row(alloc, Table::ShiftRightSigned, 0, 32),
        Table::ShiftRight => row(alloc, Table::ShiftRight, 0, 32),
        Table::RotateLeft => rows(alloc, Table::RotateLeft, 32, 2),
        Table::RotateRight => rows(alloc, Table::RotateRight, 32, 2),
    }
}

// So many rows of so many numbers.
#[tactic(auto, using(crate::proofs::TableLemmas::values_none))]
fn rows(alloc: Global, table: Table, rows: u32, columns: u32) -> Result<Nbt, Memory>
    ensures { IfOk result (λ t. view t ≡ rows_tree (table_word table) rows columns) }
{
    let mut trees = Vec::new(alloc);
    for index in 0..rows {
        trees.push(row(alloc, table, index, columns)?)?;
    }
    Ok(Nbt::List(NbtList::Trees(trees)))
}

// The numbers of a row, so many of them.
#[tactic(auto, using(crate::proofs::TableLemmas::values_none))]
fn row(alloc: Global, table: Table, row: u32, columns: u32) -> Result<Nbt, Memory>
    ensures { IfOk result (λ t. view t ≡ words_tree (table_word table row) columns) }
{
    let mut numbers = Vec::new(alloc);
    for column in 0..columns {
        numbers.push(table_number(table, row, column))?;
    }
    Ok(Nbt::List(NbtList::Ints(numbers)))
}

/// The number of a table in a row and a column, both counted from 0. A table of one row has all in the row 0.
pub fn table_number(table: Table, row: u32, column: u32) -> i32
    ensures { result ≡ cast_signed w32 (table_word table row column) }
{
    word(table, row, column).cast_signed()
}

fn word(table: Table, row: u32, column: u32) -> u32
    ensures { result ≡ table_word table row column }
{
    match table {
        Table::LowByte => column % 256,
        Table::HighByte => column / 256,
        Table::ByteAnd => row & column,
        Table::RaisedAnd => (row & column) % 256 * 256,
        Table::Ones => column.count_ones(),
        Table::ShiftLeft => two_to(column),
        Table::ShiftRightSigned => two_to(column.min(30)),
        Table::ShiftRight => two_to(column.saturating_sub(1)),
        Table::RotateLeft => rotation(row, column),
        Table::RotateRight => rotation(32u32.saturating_sub(row) % 32, column),
    }
}

fn rotation(count: u32, column: u32) -> u32
    ensures { result ≡ rotation_word count column }
{
    if column == 0 {
        two_to(count)
    } else {
        two_to(31u32.saturating_sub(count))
    }
}

// 2^k, k modulo 32.
fn two_to(exponent: u32) -> u32
    ensures { result ≡ power exponent }
{
    1u32.wrapping_shl(exponent)
}
