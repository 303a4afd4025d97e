//! Horizontals over few operands, which are written out.
ghost use Rattle.std.specs.Prelude.{◌≡◌, ◌≤◌, ℕ, [], length, false, true, IfOk, IfErr, MatchOption, Some, slice_get};
ghost use Rattle.plan_types.specs.Errors.{no_memory};
ghost use Rattle.plan_dsl.specs.Aliases.{chained, is_written_out};
ghost use Rattle.plan_dsl.specs.Expressions.{plain_tree};
ghost use Rattle.plan_dsl.specs.Ops.{Op, Expression, FunctionOp};
ghost use Rattle.plan_dsl.specs.Trees.{Trees, no_more, more, top_op, tree_count};
ghost use Rattle.plan_arena.specs.Denotation.{Denotes};
ghost use Rattle.plan_arena.specs.Items.{Grows, HoldsFrom};
ghost use Rattle.plan_lower.specs.Horizontals.{InChain, IsNamedAlone, IsNamedAs, IsWrittenBy, called, is_chain, writes_no_chain};

use plan_arena::aexpr::AExpr;
use plan_arena::arena::{Arena, Node};
use plan_dsl::expr::{Expr, Exprs};
use plan_dsl::function_expr::FunctionExpr;
use plan_dsl::literal::LiteralValue;
use plan_dsl::operator::Operator;
use plan_expand::walks::{count_of, operand_at, plan_operands};
use plan_types::dtype::{CastOptions, DataType};
use plan_types::error::PlanError;

/// What a horizontal is written out by: the operator between its operands, and what it is over none.
#[derive(Clone, Copy)]
pub(crate) struct Chaining {
    operator: Operator,
    nothing: bool,
}

impl Chaining {
    /// What a function over so many operands is written out by, if it is, where horizontals are.
    pub(crate) fn of(function: &FunctionExpr, count: usize, write: bool) -> Option<Chaining>
        ensures { MatchOption result (is_written_out write (FunctionOp function.now []) count ≡ false)
            (λ by. (write ≡ true) × IsWrittenBy function.now count by.operator by.nothing) }
    {
        if !write || count >= 128 {
            return None;
        }
        match function {
            FunctionExpr::AllHorizontal => Some(Chaining {
                operator: Operator::LogicalAnd,
                nothing: true,
            }),
            FunctionExpr::AnyHorizontal => Some(Chaining {
                operator: Operator::LogicalOr,
                nothing: false,
            }),
            _ => None,
        }
    }

    /// Adds the operator between the chain so far, if there is one, and the operand that was added behind it.
    pub(crate) fn put_behind(
        self,
        so_far: Option<Node>,
        operand: Node,
        arena: &mut Arena<AExpr>,
    ) -> Result<Node, PlanError>
        ensures ok { IfOk result (λ node. (from : ℕ) (all left : Trees Op) (tree : Expression) → from ≤ length arena.old → InChain self.operator from arena.old all (more tree left) so_far →
            Denotes (HoldsFrom from arena.old) operand.0 tree → InChain self.operator from arena.new all left (Some node)) }
        ensures grows { Grows arena.old arena.new }
        ensures err { IfErr result (λ error. error ≡ no_memory) }
    {
        match so_far {
            None => Ok(operand),
            Some(left) => {
                let node = arena.add(AExpr::BinaryExpr {
                    left,
                    op: self.operator,
                    right: operand,
                })?;
                Ok(node)
            }
        }
    }

    /// What a chain over so many operands comes to: over none it is a literal, and over one a cast.
    pub(crate) fn whole(
        self,
        so_far: Option<Node>,
        count: usize,
        arena: &mut Arena<AExpr>,
    ) -> Result<Node, PlanError>
        ensures ok { IfOk result (λ node. (from : ℕ) (all : Trees Op) → from ≤ length arena.old → InChain self.operator from arena.old all no_more so_far → tree_count all ≡ count →
            Denotes (HoldsFrom from arena.new) node.0 (chained self.operator self.nothing all)) }
        ensures grows { Grows arena.old arena.new }
        ensures err { IfErr result (λ error. error ≡ no_memory) }
    {
        match so_far {
            None => {
                let node = arena.add(AExpr::Literal(LiteralValue::Boolean(self.nothing)))?;
                Ok(node)
            }
            Some(expr) => {
                if count != 1 {
                    return Ok(expr);
                }
                let node = arena.add(AExpr::Cast {
                    expr,
                    dtype: DataType::Boolean,
                    options: CastOptions::NonStrict,
                })?;
                Ok(node)
            }
        }
    }
}

/// The first operand of a function that is written out, where it has one: its name is the whole's.
pub(crate) fn first_written<'a>(function: &FunctionExpr, input: &'a Exprs) -> Option<&'a Expr>
    ensures { MatchOption result (IsNamedAlone (called function.now input.now))
        (λ first. (slice_get input.now.items.items 0 ≡ Some first.now) × IsNamedAs (called function.now input.now) (plain_tree first.now)) }
{
    let exprs = input.items.as_slice();
    match Chaining::of(function, exprs.len(), true) {
        Some(_) => match exprs.first() {
            Some(first) => Some(first),
            None => None,
        },
        None => None,
    }
}

/// Whether no horizontal in an expression is written out by several operators. Then it is refused as with horizontals as
/// nodes.
#[cycle(writes_no_chain)]
pub(crate) fn writes_no_chain(expr: &Expr) -> bool
    ensures { result ≡ writes_no_chain (plain_tree expr.now) }
{
    let Some(operands) = plan_operands(expr) else {
        return true;
    };
    let count = count_of(operands);
    if is_chain(expr, count) {
        return false;
    }
    for place in 0..count {
        let Some(operand) = operand_at(operands, place) else {
            return true;
        };
        if !writes_no_chain(operand) {
            return false;
        }
    }
    true
}

// Whether an expression over so many operands is written out by several operators.
fn is_chain(expr: &Expr, count: usize) -> bool
    ensures { result ≡ is_chain (top_op (plain_tree expr.now)) count }
{
    match expr {
        Expr::Function { function, .. } => match Chaining::of(function, count, true) {
            Some(_) => 2 < count,
            None => false,
        },
        _ => false,
    }
}
