//! What the lines of a script do.

ghost use Rattle.std.specs.Prelude.{◌≡◌, ◌≤◌, true};
ghost use Rattle.mc_cmd.specs.Foreign.{is_foreign};
ghost use Rattle.mc_cmd.specs.View.{cmd_view};
ghost use Rattle.app_words.specs.Script.{is_byte_count, only};

use crate::budget::Budget;
use mc_cmd::{Cmd, is_foreign};
use mc_nbt::Text;
use std::marker::Model;

/// What a line of a script does.
#[derive(Drop)]
pub enum Act {
    /// `call NAME ARG ..`: calls the first export of the name. The name has at least one byte and none below 33; an
    /// argument has at most 20 digits.
    Call { name: Text, args: Vec<i128> },
    /// `tick B`: one tick.
    Tick { budget: Budget },
    /// `ticks N B`: from 1 to 1,000,000 ticks.
    Ticks { count: u32, budget: Budget },
    /// `reload B`: a reload.
    Reload { budget: Budget },
    /// `other COMMAND`: a command of somebody else.
    Other { cmd: ForeignCmd },
    /// `show`: prints the answer of the pack.
    Show,
    /// `globals`: prints its globals.
    Globals,
    /// `memory ADDR LEN`: prints so many bytes of its memory from an address on.
    Memory { at: u32, len: ByteCount },
    /// `dump`: prints all three.
    Dump,
    /// `where`: prints where the program is. Only `script_where` gives it.
    Inspect,
}

/// A line of a script that does something.
#[derive(Drop)]
pub struct ScriptLine {
    /// The number of the line; the first one is 1, and lines that do nothing count.
    pub line: u64,
    /// What it does.
    pub act: Act,
}

/// What a line of a script over several programs does.
#[derive(Drop)]
pub enum SharedAct {
    /// What all of them see: `tick B`, `ticks N B`, `reload B` or `other COMMAND`.
    ForAll { act: Act },
    /// `in NS` and what the program of that namespace is asked: `call NAME ARG ..`, `show`, `globals`,
    /// `memory ADDR LEN` or `dump`.
    Within { ns: Text, act: Act },
}

/// A line of a script over several programs that does something.
#[derive(Drop)]
pub struct SharedLine {
    /// The number of the line; the first one is 1, and lines that do nothing count.
    pub line: u64,
    /// What it does.
    pub act: SharedAct,
}

/// How many bytes of memory a line prints: from 1 to 65,536. It is seen as its number.
#[derive(Drop)]
pub struct ByteCount {
    number: u32,
}

impl Model for ByteCount {
    ghost use Rattle.std.specs.Prelude.{ℕ, ◌≤◌};

    ghost Value = { ℕ };

    ghost view = { λ c. c.number };

    ghost invariant = { λ c. (1 ≤ c.number) × (c.number ≤ 65536) };
}

impl ByteCount {
    /// The count of this number; `None` exactly where it isn't in range.
    pub fn new(number: u32) -> Option<ByteCount>
        ensures { result ≡ only is_byte_count number }
    {
        if number >= 1 && number <= 65_536 {
            Some(ByteCount { number })
        } else {
            None
        }
    }

    /// The number.
    pub fn number(&self) -> u32
        ensures number { result ≡ self.now }
        ensures least { 1 ≤ result }
        ensures most { result ≤ 65536 }
    {
        self.number
    }
}

/// A command of `scoreboard` or of `data`. It is seen as its kind.
#[derive(Drop)]
pub struct ForeignCmd {
    cmd: Cmd,
}

impl Model for ForeignCmd {
    ghost use Rattle.std.specs.Prelude.{◌≡◌, true};
    ghost use Rattle.mc_cmd.specs.declared.line.CmdKind.{CmdKind};

    ghost Value = { CmdKind };

    ghost use Rattle.std.specs.Coded.{codes};
    ghost use Rattle.mc_nbt.specs.contracts.tree.Nbt as tree;

    ghost coded = { Prim.hlevel (codes, tree.the_row.coded) };

    ghost use Rattle.mc_cmd.specs.Foreign.{is_foreign};
    ghost use Rattle.mc_cmd.specs.View.{cmd_view};

    ghost view = { λ c. c.cmd };

    ghost invariant = { λ c. is_foreign (cmd_view c.cmd) ≡ true };
}

impl ForeignCmd {
    /// The command; `None` exactly where it is another one than of `scoreboard` or of `data`.
    pub fn new(cmd: Cmd) -> Option<ForeignCmd>
        ensures { result ≡ only (λ c. is_foreign (cmd_view c)) cmd }
    {
        if is_foreign(&cmd) {
            Some(ForeignCmd { cmd })
        } else {
            None
        }
    }

    /// The command.
    pub fn cmd(&self) -> &Cmd
        ensures cmd { result.now ≡ self.now }
        ensures foreign { is_foreign (cmd_view result.now) ≡ true }
    {
        &self.cmd
    }
}
