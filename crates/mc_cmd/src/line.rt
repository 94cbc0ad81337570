ghost use Rattle.std.specs.Prelude.{◌≡◌, MatchOption, false, true};
ghost use Rattle.mc_cmd.specs.Grammar.{cmd_fits};
ghost use Rattle.mc_cmd.specs.View.{cmd_view};

use crate::Pattern;
use crate::fits::is_command;
use mc_nbt::{Nbt, Path, Text};
use std::marker::Model;

/// What a line of a function says.
#[derive(Drop)]
pub enum Line {
    /// An empty line, or a comment.
    Nothing,
    /// A command.
    Plain(Cmd),
    /// A macro line: a pattern that commands are filled from.
    Macro(Pattern),
}

/// A command of the grammar: its words are of their alphabets and lengths, and what it runs may follow its
/// sub-commands. It is seen as its kind.
#[derive(Drop)]
pub struct Cmd {
    kind: CmdKind,
}

impl Model for Cmd {
    ghost use Rattle.std.specs.Prelude.{◌≡◌, true};
    ghost use Rattle.mc_cmd.specs.declared.line.CmdKind.{CmdKind};

    ghost Value = { CmdKind };

    ghost use Rattle.std.specs.Coded.{codes};
    ghost use Rattle.mc_nbt.specs.contracts.tree.Nbt as tree;

    ghost coded = { Prim.hlevel (codes, tree.the_row.coded) };

    ghost use Rattle.mc_cmd.specs.Grammar.{cmd_fits};
    ghost use Rattle.mc_cmd.specs.View.{cmd_view};

    ghost view = { λ c. c.kind };

    ghost invariant = { λ c. cmd_fits (cmd_view c.kind) ≡ true };
}

impl Cmd {
    /// The command of this kind; `None` exactly where it isn't of the grammar: where a word isn't of its alphabet
    /// and length, a number that may not be below 0 is, a tree may not stand in a storage, a range has its ends in
    /// the wrong order, `execute` has no sub-command, or a store stands before a command without a result.
    pub fn new(kind: CmdKind) -> Option<Cmd>
        ensures { MatchOption result (cmd_fits (cmd_view kind) ≡ false) (λ c. c ≡ kind) }
    {
        if is_command(&kind) {
            Some(Cmd { kind })
        } else {
            None
        }
    }

    /// What kind of command it is.
    pub fn kind(&self) -> &CmdKind
        ensures kind { result.now ≡ self.now }
        ensures fits { cmd_fits (cmd_view self.now) ≡ true }
    {
        &self.kind
    }
}

/// The kinds of commands.
#[derive(Drop)]
pub enum CmdKind {
    Simple(Simple),
    /// `execute`: the sub-commands and the command that it runs.
    Execute { subs: Vec<Sub>, run: Simple },
}

/// A command other than `execute`. A score is named by its holder and then its objective, a place of a storage by
/// the storage's name and then a path.
#[derive(Drop)]
pub enum Simple {
    /// `scoreboard objectives add`, of the criterion `dummy`.
    ObjectiveAdd {
        obj: Text,
    },
    /// `scoreboard players set`.
    ScoreSet {
        holder: Text,
        obj: Text,
        value: i32,
    },
    /// `scoreboard players add`, of a number from 0 up.
    ScoreAdd {
        holder: Text,
        obj: Text,
        value: i32,
    },
    /// `scoreboard players remove`, of a number from 0 up.
    ScoreRemove {
        holder: Text,
        obj: Text,
        value: i32,
    },
    /// `scoreboard players get`.
    ScoreGet {
        holder: Text,
        obj: Text,
    },
    /// `scoreboard players operation`: the operation of a score and another one.
    ScoreOp {
        holder: Text,
        obj: Text,
        op: Op,
        from_holder: Text,
        from_obj: Text,
    },
    /// `scoreboard players reset`.
    ScoreReset {
        holder: Text,
        obj: Text,
    },
    /// `data get storage`.
    DataGet {
        id: Text,
        path: Path,
    },
    /// `data modify storage .. set value`.
    SetValue {
        id: Text,
        path: Path,
        value: Nbt,
    },
    /// `data modify storage .. set from storage`.
    SetFrom {
        id: Text,
        path: Path,
        from_id: Text,
        from_path: Path,
    },
    /// `data modify storage .. append value`.
    AppendValue {
        id: Text,
        path: Path,
        value: Nbt,
    },
    /// `data modify storage .. append from storage`.
    AppendFrom {
        id: Text,
        path: Path,
        from_id: Text,
        from_path: Path,
    },
    /// `data remove storage`.
    DataRemove {
        id: Text,
        path: Path,
    },
    /// `function`.
    Function {
        name: Text,
    },
    /// `function .. with storage`: its macro lines are filled by the compound that the path selects.
    FunctionWith {
        name: Text,
        id: Text,
        path: Path,
    },
    /// `return`.
    Return {
        value: i32,
    },
    /// `gamerule maxCommandChainLength`.
    ChainLength,
}

/// The operation of `scoreboard players operation`, of a target and a source.
#[derive(Clone, Copy, Debug, PartialEq, Eq)]
pub enum Op {
    /// `=`
    Assign,
    /// `+=`, modulo 2^32.
    Add,
    /// `-=`, modulo 2^32.
    Subtract,
    /// `*=`, modulo 2^32.
    Multiply,
    /// `/=`, rounded towards minus infinity.
    Divide,
    /// `%=`, with the divisor's sign.
    Remainder,
    /// `<`: the lesser of the two.
    Lower,
    /// `>`: the greater of the two.
    Raise,
    /// `><`: the two change places.
    Swap,
}

/// The comparison of two scores.
#[derive(Clone, Copy, Debug, PartialEq, Eq)]
pub enum Cmp {
    /// `<`
    Less,
    /// `<=`
    LessEqual,
    /// `=`
    Equal,
    /// `>=`
    GreaterEqual,
    /// `>`
    Greater,
}

/// The numbers that a score may match, with the ends among them.
#[derive(Clone, Copy, Debug, PartialEq, Eq)]
pub enum Range {
    /// `n`
    One(i32),
    /// `n..`
    From(i32),
    /// `..n`
    To(i32),
    /// `n..m`, of which the first isn't greater than the second.
    Both(i32, i32),
}

/// What `if` and `unless` test.
#[derive(Drop)]
pub enum Test {
    /// How a score compares with another one.
    Compare {
        holder: Text,
        obj: Text,
        cmp: Cmp,
        from_holder: Text,
        from_obj: Text,
    },
    /// Whether a score is in a range.
    Matches {
        holder: Text,
        obj: Text,
        range: Range,
    },
    /// Whether a path selects something in a storage.
    Stored {
        id: Text,
        path: Path,
    },
}

/// A sub-command of `execute`.
#[derive(Drop)]
pub enum Sub {
    /// `if` a test, or `unless` one.
    Test { unless: bool, test: Test },
    /// `store result score`.
    StoreScore { holder: Text, obj: Text },
    /// `store result storage .. int 1`.
    StoreData { id: Text, path: Path },
}
