// Tables in which routines look numbers up, compared where they stand.
ghost use Rattle.std.specs.Prelude.{◌≡◌, ◌<◌, ◌↔◌, IsTrue, map};
ghost use Rattle.std.specs.Int.{w32, cast_signed};
ghost use Rattle.mc_nbt.specs.Tree.{int, items};
ghost use Rattle.mc_nbt.specs.View.{list_view, view};
ghost use Rattle.cc_line.specs.Table.{rows_tree, table_tree, table_word, values_below, words_tree};

use cc_line::{Table, table_number};
use mc_nbt::{Nbt, NbtList};

/// Whether a tree is a table. It is compared where it stands, so no memory is taken for another one.
pub(crate) fn is_table(tree: &Nbt, table: Table) -> bool
    ensures { IsTrue result ↔ (view tree.now ≡ table_tree table) }
{
    match table {
        Table::LowByte => is_row(tree, Table::LowByte, 0, 65_536),
        Table::HighByte => is_row(tree, Table::HighByte, 0, 65_536),
        Table::ByteAnd => has_rows(tree, Table::ByteAnd, 256, 256),
        Table::RaisedAnd => has_rows(tree, Table::RaisedAnd, 256, 256),
        Table::Ones => is_row(tree, Table::Ones, 0, 256),
        Table::ShiftLeft => is_row(tree, Table::ShiftLeft, 0, 32),
        Table::ShiftRightSigned => is_row(tree, Table::ShiftRightSigned, 0, 32),
        Table::ShiftRight => is_row(tree, Table::ShiftRight, 0, 32),
        Table::RotateLeft => has_rows(tree, Table::RotateLeft, 32, 2),
        Table::RotateRight => has_rows(tree, Table::RotateRight, 32, 2),
    }
}

// Whether a tree has so many rows of a table, one or more, each of so many numbers.
#[inline(always)]
fn has_rows(tree: &Nbt, table: Table, rows: u32, columns: u32) -> bool
    requires { 0 < rows }
    ensures { IsTrue result ↔ (view tree.now ≡ rows_tree (table_word table) rows columns) }
{
    match tree {
        Nbt::List(list) => lists_rows(list, table, rows, columns),
        Nbt::Int(_) | Nbt::Str(_) | Nbt::Compound(_) => false,
    }
}

#[inline(always)]
fn lists_rows(list: &NbtList, table: Table, rows: u32, columns: u32) -> bool
    requires { 0 < rows }
    ensures { IsTrue result
        ↔ (list_view list.now ≡ items (values_below (λ i. words_tree (table_word table i) columns) rows)) }
{
    match list {
        NbtList::Trees(trees) => are_rows(trees.as_slice(), table, rows, columns),
        NbtList::Ints(_) => false,
    }
}

#[inline(always)]
fn are_rows(trees: &[Nbt], table: Table, rows: u32, columns: u32) -> bool
    ensures { IsTrue result
        ↔ (map view trees.now ≡ values_below (λ i. words_tree (table_word table i) columns) rows) }
{
    if trees.len() != rows as usize {
        return false;
    }
    let mut same = true;
    for row in 0..rows {
        same &= is_row(&trees[row as usize], table, row, columns);
    }
    same
}

// Whether a tree is a row of a table, of so many numbers.
#[inline(always)]
fn is_row(tree: &Nbt, table: Table, row: u32, columns: u32) -> bool
    ensures { IsTrue result ↔ (view tree.now ≡ words_tree (table_word table row) columns) }
{
    match tree {
        Nbt::List(list) => lists_row(list, table, row, columns),
        Nbt::Int(_) | Nbt::Str(_) | Nbt::Compound(_) => false,
    }
}

#[inline(always)]
fn lists_row(list: &NbtList, table: Table, row: u32, columns: u32) -> bool
    ensures { IsTrue result
        ↔ (list_view list.now ≡ items (values_below (λ j. int (cast_signed w32 (table_word table row j))) columns)) }
{
    match list {
        NbtList::Ints(numbers) => are_words(numbers.as_slice(), table, row, columns),
        NbtList::Trees(trees) => are_ints(trees.as_slice(), table, row, columns),
    }
}

#[inline(always)]
fn are_words(numbers: &[i32], table: Table, row: u32, columns: u32) -> bool
    ensures { IsTrue result
        ↔ (map int numbers.now ≡ values_below (λ j. int (cast_signed w32 (table_word table row j))) columns) }
{
    if numbers.len() != columns as usize {
        return false;
    }
    let mut same = true;
    for column in 0..columns {
        same &= is_word(&numbers[column as usize], table, row, column);
    }
    same
}

fn are_ints(trees: &[Nbt], table: Table, row: u32, columns: u32) -> bool
    ensures { IsTrue result
        ↔ (map view trees.now ≡ values_below (λ j. int (cast_signed w32 (table_word table row j))) columns) }
{
    if trees.len() != columns as usize {
        return false;
    }
    let mut same = true;
    for column in 0..columns {
        same &= is_int(&trees[column as usize], table, row, column);
    }
    same
}

#[inline(always)]
fn is_word(found: &i32, table: Table, row: u32, column: u32) -> bool
    ensures { IsTrue result ↔ (int found.now ≡ int (cast_signed w32 (table_word table row column))) }
{
    *found == table_number(table, row, column)
}

fn is_int(tree: &Nbt, table: Table, row: u32, column: u32) -> bool
    ensures { IsTrue result ↔ (view tree.now ≡ int (cast_signed w32 (table_word table row column))) }
{
    match tree {
        Nbt::Int(found) => is_word(found, table, row, column),
        Nbt::Str(_) | Nbt::List(_) | Nbt::Compound(_) => false,
    }
}
