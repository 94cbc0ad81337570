ghost use Rattle.std.specs.Prelude.{◌≡◌};
ghost use Rattle.wm_ast.specs.Operator.{divides};

use mc_nbt::Kind;

/// An operator with one operand and a result of its type.
#[derive(Clone, Copy, Debug, PartialEq, Eq)]
pub enum UnaryOp {
    Clz,
    Ctz,
    Popcnt,
    Extend8S,
    Extend16S,
    Extend32S,
}

/// An operator with two operands and a result of their type.
#[derive(Clone, Copy, Debug, PartialEq, Eq)]
pub enum BinaryOp {
    Add,
    Sub,
    Mul,
    DivS,
    DivU,
    RemS,
    RemU,
    And,
    Or,
    Xor,
    Shl,
    ShrS,
    ShrU,
    Rotl,
    Rotr,
}

impl BinaryOp {
    /// Whether it is one of the divisions: of a quotient or a remainder, with signs or without.
    pub fn divides(self) -> bool
        ensures { result ≡ divides self }
    {
        matches!(
            self,
            BinaryOp::DivS | BinaryOp::DivU | BinaryOp::RemS | BinaryOp::RemU
        )
    }
}

/// A comparison of two operands.
#[derive(Clone, Copy, Debug, PartialEq, Eq)]
pub enum CompareOp {
    Eq,
    Ne,
    LtS,
    LtU,
    GtS,
    GtU,
    LeS,
    LeU,
    GeS,
    GeU,
}

/// What a number operation does, and on operands of which type.
#[derive(Clone, Copy, Debug, PartialEq, Eq)]
pub enum Operator {
    /// Whether the operand is 0.
    Test(Kind),
    Unary(Kind, UnaryOp),
    Binary(Kind, BinaryOp),
    Comparison(Kind, CompareOp),
    /// `i32.wrap_i64`.
    Wrap,
    /// `i64.extend_i32_s`.
    ExtendS,
    /// `i64.extend_i32_u`.
    ExtendU,
}
