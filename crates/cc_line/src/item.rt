// Emitted code: steps, and calls of helpers.
ghost use Rattle.std.specs.Prelude.{◌≡◌};
ghost use Rattle.cc_line.specs.Item as spec;
ghost use Rattle.cc_line.specs.View.{conds_view, item_view, items_view, look_up_steps, name_text, open_steps_view};
ghost use Rattle.cc_line.specs.View.{site_view, step_view, table_step};

use crate::{Conds, Name, OpenStep, Site, Step};

/// An item of emitted code: one line, and the helper that it calls, if it calls one. A helper is named without its namespace.
#[derive(Drop)]
pub enum Item {
    /// A step.
    Step(Step),
    /// A call of a helper that has these items; where there are conditions, one where they hold.
    Call {
        when: Option<Conds>,
        name: Name,
        items: Vec<Item>,
    },
    /// A call of a helper that has these lines, filled by the compound at a path; where there are conditions, one
    /// where they hold.
    Fill {
        when: Option<Conds>,
        name: Name,
        site: Site,
        steps: Vec<OpenStep>,
    },
    /// A call of a helper that looks numbers up in a table of its own: its first line sets these ints under the key
    /// `Table`, and its further lines are these, filled by the compound at a path.
    LookUp {
        name: Name,
        site: Site,
        table: Vec<i32>,
        steps: Vec<OpenStep>,
    },
    /// A line that sets these ints under the key `Table`, as the table in which the lines behind it look numbers up.
    Table(Vec<i32>),
}

impl Item {
    /// A step.
    pub fn step(step: Step) -> Item
        ensures { item_view result ≡ spec.step_item (step_view step) }
    {
        Item::Step(step)
    }

    /// A call of a helper.
    pub fn call(name: &'static str, items: Vec<Item>) -> Item
        ensures { item_view result ≡ spec.call_item name.now (items_view items.items) }
    {
        Item::Call {
            when: None,
            name: Name::Plain(name),
            items,
        }
    }

    /// A call of a helper where conditions hold.
    pub fn call_when(when: Conds, name: &'static str, items: Vec<Item>) -> Item
        ensures { item_view result ≡ spec.call_when (conds_view when) name.now (items_view items.items) }
    {
        Item::call_named_when(when, Name::Plain(name), items)
    }

    /// A call of a helper of any name where conditions hold.
    pub fn call_named_when(when: Conds, name: Name, items: Vec<Item>) -> Item
        ensures { item_view result ≡ spec.call_when (conds_view when) (name_text name) (items_view items.items) }
    {
        Item::Call {
            when: Some(when),
            name,
            items,
        }
    }

    /// A call of a helper whose lines the compound at a path fills.
    pub fn fill(name: &'static str, site: Site, steps: Vec<OpenStep>) -> Item
        ensures { item_view result ≡ spec.fill_item name.now (site_view site) (open_steps_view steps.items) }
    {
        Item::Fill {
            when: None,
            name: Name::Plain(name),
            site,
            steps,
        }
    }

    /// The same where conditions hold.
    pub fn fill_when(when: Conds, name: &'static str, site: Site, steps: Vec<OpenStep>) -> Item
        ensures { item_view result ≡ spec.fill_when (conds_view when) name.now (site_view site)
            (open_steps_view steps.items) }
    {
        Item::Fill {
            when: Some(when),
            name: Name::Plain(name),
            site,
            steps,
        }
    }

    /// A call of a helper that sets these ints as a table, and looks numbers up in it by lines that the compound at a
    /// path fills.
    pub fn look_up(name: Name, site: Site, table: Vec<i32>, steps: Vec<OpenStep>) -> Item
        ensures { item_view result ≡ spec.fill_item (name_text name) (site_view site)
            (look_up_steps table.items (open_steps_view steps.items)) }
    {
        Item::LookUp {
            name,
            site,
            table,
            steps,
        }
    }

    /// A line that sets these ints as the table in which numbers are looked up.
    pub fn table(table: Vec<i32>) -> Item
        ensures { item_view result ≡ spec.step_item (table_step table.items) }
    {
        Item::Table(table)
    }
}
