//! Operators of two operands.
ghost use Rattle.std.specs.Prelude.{◌≡◌, not, Some};
ghost use Rattle.plan_dsl.specs.Operators.{is_comparison, operator_sign, swapped};

use std::fmt;

/// An operator of two operands.
#[derive(Clone, Copy, PartialEq, Eq, Hash)]
pub enum Operator {
    Eq,
    /// Equality in which null is the same as null, and no other value.
    EqValidity,
    NotEq,
    NotEqValidity,
    Lt,
    LtEq,
    Gt,
    GtEq,
    Plus,
    Minus,
    Multiply,
    /// A quotient, rounded toward 0.
    Divide,
    /// A quotient, rounded down.
    FloorDivide,
    /// What `FloorDivide` leaves.
    Modulus,
    /// Bitwise on integers.
    And,
    Or,
    Xor,
    LogicalAnd,
    LogicalOr,
}

impl Operator {
    /// Whether the operator compares, or combines bits or truth values of integers too.
    pub fn is_comparison(&self) -> bool
        ensures { result ≡ is_comparison self.now }
    {
        matches!(
            self,
            Operator::Eq
                | Operator::EqValidity
                | Operator::NotEq
                | Operator::NotEqValidity
                | Operator::Lt
                | Operator::LtEq
                | Operator::Gt
                | Operator::GtEq
                | Operator::And
                | Operator::Or
                | Operator::Xor
        )
    }

    /// Whether it is no comparison.
    pub fn is_arithmetic(&self) -> bool
        ensures { result ≡ not (is_comparison self.now) }
    {
        !self.is_comparison()
    }

    /// The operator that gives the same of swapped operands, where there is one.
    pub fn swap_operands(self) -> Option<Operator>
        ensures { result ≡ swapped self }
    {
        match self {
            Operator::Eq
            | Operator::EqValidity
            | Operator::NotEq
            | Operator::NotEqValidity
            | Operator::And
            | Operator::Or
            | Operator::Xor
            | Operator::LogicalAnd
            | Operator::LogicalOr => Some(self),
            Operator::Lt => Some(Operator::Gt),
            Operator::LtEq => Some(Operator::GtEq),
            Operator::Gt => Some(Operator::Lt),
            Operator::GtEq => Some(Operator::LtEq),
            Operator::Plus
            | Operator::Minus
            | Operator::Multiply
            | Operator::Divide
            | Operator::FloorDivide
            | Operator::Modulus => None,
        }
    }

    // How it is written.
    fn sign(&self) -> &'static str
        ensures { result.now ≡ operator_sign self.now }
    {
        match self {
            Operator::Eq => "==",
            Operator::EqValidity => "==v",
            Operator::NotEq => "!=",
            Operator::NotEqValidity => "!=v",
            Operator::Lt => "<",
            Operator::LtEq => "<=",
            Operator::Gt => ">",
            Operator::GtEq => ">=",
            Operator::Plus => "+",
            Operator::Minus => "-",
            Operator::Multiply => "*",
            Operator::Divide => "//",
            Operator::FloorDivide => "floor_div",
            Operator::Modulus => "%",
            Operator::And => "&",
            Operator::Or => "|",
            Operator::Xor => "^",
            Operator::LogicalAnd => "&",
            Operator::LogicalOr => "|",
        }
    }
}

impl fmt::Display for Operator {
    ghost output = { λ operator. Some (operator_sign operator) };

    fn fmt<W: fmt::Write>(&self, f: &mut fmt::Formatter<W>) -> fmt::Result {
        f.write_str(self.sign())
    }
}

/// The operators of an inequality.
#[derive(Clone, Copy, PartialEq, Eq, Hash)]
pub enum InequalityOperator {
    Lt,
    LtEq,
    Gt,
    GtEq,
}

impl From<InequalityOperator> for Operator {
    ghost use Rattle.std.specs.Prelude.{◌≡◌};
    ghost use Rattle.plan_dsl.specs.Operators.{inequality};

    ghost from_gives = { λ value operator. operator ≡ inequality value };

    fn from(value: InequalityOperator) -> Operator {
        match value {
            InequalityOperator::Lt => Operator::Lt,
            InequalityOperator::LtEq => Operator::LtEq,
            InequalityOperator::Gt => Operator::Gt,
            InequalityOperator::GtEq => Operator::GtEq,
        }
    }
}
