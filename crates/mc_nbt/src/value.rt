ghost use Rattle.std.specs.Prelude.{◌≡◌};
ghost use Rattle.mc_nbt.specs.Value.{kind_of};

/// The kind of a WebAssembly integer.
#[derive(Clone, Copy, Debug, PartialEq, Eq, PartialOrd, Ord, Hash)]
pub enum Kind {
    I32,
    I64,
}

/// A WebAssembly integer. Its bits are told as a signed number.
#[derive(Clone, Copy, Debug, PartialEq, Eq, PartialOrd, Ord, Hash)]
pub enum Value {
    I32(i32),
    I64(i64),
}

impl Value {
    /// The kind of the value.
    pub fn kind(self) -> Kind
        ensures { result ≡ kind_of self }
    {
        match self {
            Value::I32(_) => Kind::I32,
            Value::I64(_) => Kind::I64,
        }
    }
}
