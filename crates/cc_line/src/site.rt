// Paths under the keys of a pack's storages.
ghost use Rattle.std.specs.Prelude.{◌≡◌, ◌∷◌, [], Some};
ghost use Rattle.mc_cmd.specs.Value.{parts_text, path_text};
ghost use Rattle.cc_line.specs.OpenStep.{parts_chunks, path_chunks};
ghost use Rattle.cc_line.specs.Sight.{store_name};
ghost use Rattle.cc_line.specs.State.{at_key, site_path};
ghost use Rattle.cc_line.specs.View.{below_view, key_text, open_below_view, open_part_view, open_site_view};
ghost use Rattle.cc_line.specs.View.{part_view, site_view, store_view};
ghost use Rattle.cc_line.specs.steps.Written.{written};

use std::fmt;

/// The storages of a namespace. Each is printed as its name without the namespace.
#[derive(Clone, Copy)]
pub enum Store {
    /// `ns:io`: where a pack answers.
    Io,
    /// `ns:m`: its memory and its globals.
    Memory,
    /// `ns:c`: all else that it keeps.
    Rest,
}

impl fmt::Display for Store {
    ghost output = { λ s. Some (store_name (store_view s)) };

    fn fmt<W: fmt::Write>(&self, f: &mut fmt::Formatter<W>) -> fmt::Result {
        f.write_str(match self {
            Store::Io => "io",
            Store::Memory => "m",
            Store::Rest => "c",
        })
    }
}

/// The keys of these storages, and those below them. Each is printed as its text.
#[derive(Clone, Copy)]
pub enum Key {
    /// `state`, in `ns:io`.
    State,
    /// `result`, in `ns:io`.
    Result,
    /// `trap`, in `ns:io`.
    Trap,
    /// `mem`, in `ns:m`: the pages of memory.
    Memory,
    /// `g`, in `ns:m`: the globals.
    Globals,
    /// `t`: the innermost frame. No site is under it.
    Frame,
    /// `f`: the list of the places of a frame that are no scores.
    List,
    /// `b`: the frames below the innermost one.
    Below,
    /// `y`: the next of them, while a call saves its caller's places.
    Entry,
    /// `n`: the piece that is run next.
    Next,
    /// `p`: the piece that follows a routine in pieces, or a call.
    Follows,
    /// `a`: the arguments of a call from outside.
    Args,
    /// `d`: the state in which the job ends without a trap.
    End,
    /// `e`: the state in which it ends with one.
    Fail,
    /// `z`: the list parts of new frames; in a frame below, how many of its places are saved as scores.
    Templates,
    /// `q`: the compound with which a routine fills its macro lines.
    Filling,
    /// `h`: what the scheduler keeps.
    Sched,
    /// `k`: the table in which a routine looks numbers up.
    Table,
    /// `v`: the compound that tells it where.
    Choice,
    /// `low`: the standing table `Table::LowByte`, as those to `rotr` have theirs.
    LowByte,
    HighByte,
    ByteAnd,
    RaisedAnd,
    ShiftLeft,
    ShiftRightSigned,
    ShiftRight,
    RotateLeft,
    RotateRight,
    /// `k`, below a key: an index that is told.
    Index,
    /// `j`, below a key: the number in the name of a piece.
    Number,
    /// `p`, below a key: a page of memory.
    Page,
    /// `i`, below a key: a place in a page.
    Place,
    /// `r`, below a key: a byte in a word.
    Byte,
    /// `a0`, below a key: a number of the first operand, as those to `a5`.
    A0,
    A1,
    A2,
    A3,
    A4,
    A5,
    /// `b0`, below a key: a number of the second operand, as those to `b5`.
    B0,
    B1,
    B2,
    B3,
    B4,
    B5,
}

impl Key {
    /// Its text.
    pub fn text(self) -> &'static str
        ensures { result.now ≡ key_text self }
    {
        match self {
            Key::State => "state",
            Key::Result => "result",
            Key::Trap => "trap",
            Key::Memory => "mem",
            Key::Globals => "g",
            Key::Frame => "t",
            Key::List => "f",
            Key::Below => "b",
            Key::Entry => "y",
            Key::Next => "n",
            Key::Follows => "p",
            Key::Args => "a",
            Key::End => "d",
            Key::Fail => "e",
            Key::Templates => "z",
            Key::Filling => "q",
            Key::Sched => "h",
            Key::Table => "k",
            Key::Choice => "v",
            Key::LowByte => "low",
            Key::HighByte => "high",
            Key::ByteAnd => "and",
            Key::RaisedAnd => "raised",
            Key::ShiftLeft => "shl",
            Key::ShiftRightSigned => "shrs",
            Key::ShiftRight => "shru",
            Key::RotateLeft => "rotl",
            Key::RotateRight => "rotr",
            Key::Index => "k",
            Key::Number => "j",
            Key::Page => "p",
            Key::Place => "i",
            Key::Byte => "r",
            Key::A0 => "a0",
            Key::A1 => "a1",
            Key::A2 => "a2",
            Key::A3 => "a3",
            Key::A4 => "a4",
            Key::A5 => "a5",
            Key::B0 => "b0",
            Key::B1 => "b1",
            Key::B2 => "b2",
            Key::B3 => "b3",
            Key::B4 => "b4",
            Key::B5 => "b5",
        }
    }
}

impl fmt::Display for Key {
    ghost output = { λ k. Some (key_text k) };

    fn fmt<W: fmt::Write>(&self, f: &mut fmt::Formatter<W>) -> fmt::Result {
        f.write_str(self.text())
    }
}

/// A step of a path below its key. It is printed as `.KEY`, `.NUMBER` or `[PLACE]`.
#[derive(Clone, Copy)]
pub enum Part {
    /// To what stands under a key.
    Key(Key),
    /// To what stands under a key that is named by a number, in decimal.
    Number(u32),
    /// To an element of a list: from 0 up from the front, and from -1 down from the end.
    Place(i32),
}

impl fmt::Display for Part {
    ghost output = { λ p. Some (parts_text (part_view p ∷ [])) };

    fn fmt<W: fmt::Write>(&self, f: &mut fmt::Formatter<W>) -> fmt::Result {
        match self {
            Part::Key(key) => write!(f, ".{key}"),
            Part::Number(number) => write!(f, ".{number}"),
            Part::Place(at) => write!(f, "[{at}]"),
        }
    }
}

/// What is below the key of a path: at most three steps, printed one behind the other.
#[derive(Clone, Copy)]
pub enum Below {
    Nothing,
    One(Part),
    Two(Part, Part),
    Three(Part, Part, Part),
}

impl fmt::Display for Below {
    ghost output = { λ b. Some (parts_text (below_view b)) };

    fn fmt<W: fmt::Write>(&self, f: &mut fmt::Formatter<W>) -> fmt::Result {
        match self {
            Below::Nothing => Ok(()),
            Below::One(first) => write!(f, "{first}"),
            Below::Two(first, second) => write!(f, "{first}{second}"),
            Below::Three(first, second, third) => write!(f, "{first}{second}{third}"),
        }
    }
}

/// A path under a key of a storage, which isn't the innermost frame's. It is printed as the path, without its storage.
#[derive(Clone, Copy)]
pub struct Site {
    pub store: Store,
    pub key: Key,
    pub below: Below,
}

impl Site {
    /// All that is under a key.
    pub fn at(store: Store, key: Key) -> Site
        ensures { site_view result ≡ at_key (store_view store) (key_text key) }
    {
        Site {
            store,
            key,
            below: Below::Nothing,
        }
    }
}

impl fmt::Display for Site {
    ghost output = { λ p. Some (path_text (site_path (site_view p))) };

    fn fmt<W: fmt::Write>(&self, f: &mut fmt::Formatter<W>) -> fmt::Result {
        let Site { key, below, .. } = self;
        write!(f, "{key}{below}")
    }
}

/// A step of a path in a macro line. It is printed as the step, or as `[$(KEY)]`.
#[derive(Clone, Copy)]
pub enum OpenPart {
    /// A step as it stands.
    Part(Part),
    /// To the element of a list whose place the compound tells under this key.
    Told(Key),
}

impl fmt::Display for OpenPart {
    ghost output = { λ p. Some (written (parts_chunks (open_part_view p ∷ []))) };

    fn fmt<W: fmt::Write>(&self, f: &mut fmt::Formatter<W>) -> fmt::Result {
        match self {
            OpenPart::Part(part) => write!(f, "{part}"),
            OpenPart::Told(key) => write!(f, "[$({key})]"),
        }
    }
}

/// What is below the key of such a path, printed one step behind the other.
#[derive(Clone, Copy)]
pub enum OpenBelow {
    Nothing,
    One(OpenPart),
    Two(OpenPart, OpenPart),
}

impl fmt::Display for OpenBelow {
    ghost output = { λ b. Some (written (parts_chunks (open_below_view b))) };

    fn fmt<W: fmt::Write>(&self, f: &mut fmt::Formatter<W>) -> fmt::Result {
        match self {
            OpenBelow::Nothing => Ok(()),
            OpenBelow::One(first) => write!(f, "{first}"),
            OpenBelow::Two(first, second) => write!(f, "{first}{second}"),
        }
    }
}

/// A path in a macro line, of which places may be told. It is printed as the path, without its storage.
#[derive(Clone, Copy)]
pub struct OpenSite {
    pub store: Store,
    pub key: Key,
    pub below: OpenBelow,
}

impl fmt::Display for OpenSite {
    ghost output = { λ p. Some (written (path_chunks (open_site_view p))) };

    fn fmt<W: fmt::Write>(&self, f: &mut fmt::Formatter<W>) -> fmt::Result {
        let OpenSite { key, below, .. } = self;
        write!(f, "{key}{below}")
    }
}
