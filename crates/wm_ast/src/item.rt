ghost use Rattle.std.specs.Prelude.{Some};
ghost use Rattle.wm_ast.specs.ItemWord.{item_word};

use std::fmt;

/// The kinds of items of a module. A cause for which a module is refused names an item by its kind and its index.
///
/// It is printed as one word: `type`, `import`, `function`, `table`, `memory`, `global`, `element`, `data`, `start`
/// or `export`.
#[derive(Clone, Copy, Debug, PartialEq, Eq)]
pub enum Item {
    Types,
    Imports,
    Functions,
    Tables,
    Memories,
    Globals,
    Elements,
    Datas,
    /// The start function. Its index as an item is 0.
    Start,
    Exports,
}

impl fmt::Display for Item {
    ghost output = { λ item. Some (item_word item) };

    fn fmt<W: fmt::Write>(&self, f: &mut fmt::Formatter<W>) -> fmt::Result {
        f.write_str(match self {
            Item::Types => "type",
            Item::Imports => "import",
            Item::Functions => "function",
            Item::Tables => "table",
            Item::Memories => "memory",
            Item::Globals => "global",
            Item::Elements => "element",
            Item::Datas => "data",
            Item::Start => "start",
            Item::Exports => "export",
        })
    }
}
