// What stands from instantiation on: the constants and tables of routines, and the constants and the window of accesses
// to a memory.
ghost use Rattle.std.specs.Prelude.{◌≡◌, pos};
ghost use Rattle.mc_nbt.specs.Tree.{compound, int, no_fields};
ghost use Rattle.cc_line.specs.Place.{scratch};
ghost use Rattle.cc_line.specs.Step.{set_site, set_spot};
ghost use Rattle.cc_line.specs.View.{act_view, key_text, scratch_text};
ghost use Rattle.cc_call.specs.View.{acts_view};
ghost use Rattle.cc_mem.specs.Address.{filling_at, filling_site};
ghost use Rattle.cc_init.specs.Init.{byte_tables, constants_acts, number_acts, shift_tables, table_act, table_acts};
ghost use Rattle.cc_init.specs.Init.{window_acts};

use cc_line::{Act, Below, Key, Leaf, Part, Scratch, Site, Spot, Store, Table};

/// The constants that routines use.
pub(crate) fn numbers() -> [Act; 4]
    ensures { acts_view result ≡ number_acts }
{
    [
        constant(Scratch::Two, 2),
        constant(Scratch::ThirtyTwo, 32),
        constant(Scratch::HalfWord, 0x1_0000),
        constant(Scratch::Least, i32::MIN),
    ]
}

/// The tables of bytes.
pub(crate) fn byte_tables() -> [Act; 4]
    ensures { acts_view result ≡ table_acts byte_tables }
{
    [
        table(Key::LowByte, Table::LowByte),
        table(Key::HighByte, Table::HighByte),
        table(Key::ByteAnd, Table::ByteAnd),
        table(Key::RaisedAnd, Table::RaisedAnd),
    ]
}

/// The tables of shifts.
pub(crate) fn shift_tables() -> [Act; 5]
    ensures { acts_view result ≡ table_acts shift_tables }
{
    [
        table(Key::ShiftLeft, Table::ShiftLeft),
        table(Key::ShiftRightSigned, Table::ShiftRightSigned),
        table(Key::ShiftRight, Table::ShiftRight),
        table(Key::RotateLeft, Table::RotateLeft),
        table(Key::RotateRight, Table::RotateRight),
    ]
}

fn table(key: Key, table: Table) -> Act
    ensures { act_view result ≡ table_act (key_text key) table }
{
    Act::SetSite {
        site: Site::at(Store::Rest, key),
        leaf: Leaf::Table(table),
    }
}

/// The constants of accesses.
pub(crate) fn constants() -> [Act; 16]
    ensures { acts_view result ≡ constants_acts }
{
    [
        constant(Scratch::Four, 4),
        constant(Scratch::PageWords, 16_384),
        constant(Scratch::Byte0, 1),
        constant(Scratch::Byte1, 0x100),
        constant(Scratch::Byte2, 0x1_0000),
        constant(Scratch::Byte3, 0x100_0000),
        constant(Scratch::Top0, 0x100_0000),
        constant(Scratch::Top1, 0x1_0000),
        constant(Scratch::Top2, 0x100),
        constant(Scratch::Top3, 1),
        constant(Scratch::Half0, 0x1_0000),
        constant(Scratch::Half1, 0x100),
        constant(Scratch::Half2, 1),
        constant(Scratch::Rest1, 0x100_0000),
        constant(Scratch::Rest2, 0x1_0000),
        constant(Scratch::Rest3, 0x100),
    ]
}

/// The first page becomes the window.
pub(crate) fn window() -> [Act; 5]
    ensures { acts_view result ≡ window_acts }
{
    [
        constant(Scratch::Window, 0),
        no_filling(),
        fill_zero(Key::Place),
        fill_zero(Key::Page),
        fill_zero(Key::Byte),
    ]
}

fn constant(score: Scratch, value: i32) -> Act
    ensures { act_view result ≡ set_spot (scratch (scratch_text score)) value }
{
    Act::SetSpot {
        spot: Spot::Scratch(score),
        value,
    }
}

fn no_filling() -> Act
    ensures { act_view result ≡ set_site filling_site (compound no_fields) }
{
    Act::SetSite {
        site: Site {
            store: Store::Rest,
            key: Key::Filling,
            below: Below::Nothing,
        },
        leaf: Leaf::EmptyCompound,
    }
}

fn fill_zero(part: Key) -> Act
    ensures { act_view result ≡ set_site (filling_at (key_text part)) (int (pos 0)) }
{
    Act::SetSite {
        site: Site {
            store: Store::Rest,
            key: Key::Filling,
            below: Below::One(Part::Key(part)),
        },
        leaf: Leaf::Int(0),
    }
}
