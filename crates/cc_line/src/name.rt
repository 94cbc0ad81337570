// The names of helpers.
ghost use Rattle.std.specs.Prelude.{Some};
ghost use Rattle.cc_line.specs.View.{name_text};

use std::fmt;

/// The name of a helper, without its namespace. It is printed as its text.
#[derive(Clone, Copy)]
pub enum Name {
    /// A name as it stands.
    Plain(&'static str),
    /// A name with a number behind it: `h_cc_call_` and 3 are `h_cc_call_3`.
    Numbered(&'static str, u32),
}

impl fmt::Display for Name {
    ghost output = { λ n. Some (name_text n) };

    fn fmt<W: fmt::Write>(&self, f: &mut fmt::Formatter<W>) -> fmt::Result {
        match self {
            Name::Plain(text) => write!(f, "{text}"),
            Name::Numbered(text, number) => write!(f, "{text}{number}"),
        }
    }
}
