//! Sums of any length.
ghost use Rattle.std.specs.Prelude.{◌≡◌, [], ◌∷◌, codes, map, IfOk, IfErr};
ghost use Rattle.std.specs.Str.{chars};
ghost use Rattle.plan_types.specs.Errors.{no_memory};
ghost use Rattle.plan_dsl.specs.Expressions.{tree_of};
ghost use Rattle.plan_dsl.specs.Ops.{ColumnOp, BinaryOp};
ghost use Rattle.plan_dsl.specs.declared.operator.Operator.TheVariants.{Plus};
ghost use Rattle.plan_dsl.specs.Sources.{written};
ghost use Rattle.plan_dsl.specs.Trees.{node, no_more, more, tree_depth};
ghost use Rattle.checks.specs.Sums.{sum_tree};

use plan_dsl::expr::Expr;
use plan_dsl::operator::Operator;
use plan_types::error::PlanError;
use plan_types::text::PlSmallStr;
use std::alloc::Global;

/// The column of that name.
pub fn column(alloc: Global, name: &str) -> Result<Expr, PlanError>
    ensures ok { IfOk result (λ expr. tree_of expr ≡ written (node (ColumnOp (chars name.now)) no_more)) }
    ensures err { IfErr result (λ error. error ≡ no_memory) }
{
    let name = PlSmallStr::new(alloc, name)?;
    Ok(Expr::Column(name))
}

/// The column of that name, to which it is added so often.
pub fn sum_of(alloc: Global, name: &str, additions: usize) -> Result<Expr, PlanError>
    ensures ok { IfOk result (λ expr. tree_of expr ≡ written (sum_tree (chars name.now) additions)) }
    ensures err { IfErr result (λ error. error ≡ no_memory) }
{
    let mut sum = column(alloc, name)?;
    for _ in 0..additions {
        let left = Box::new(alloc, sum)?;
        let right = column(alloc, name)?;
        let right = Box::new(alloc, right)?;
        sum = Expr::BinaryExpr {
            left,
            op: Operator::Plus,
            right,
        };
    }
    Ok(sum)
}

// Sums, each worked out by hand.
fn sums()
    ensures alone { sum_tree (codes "a") 0 ≡ node (ColumnOp (codes "a")) no_more }
    ensures twice { sum_tree (codes "a") 1 ≡ node (BinaryOp Plus) (more (node (ColumnOp (codes "a")) no_more) (more (node (ColumnOp (codes "a")) no_more) no_more)) }
    ensures deeper { map (λ additions. tree_depth (sum_tree (codes "a") additions)) (0 ∷ 1 ∷ 2 ∷ 9 ∷ []) ≡ 1 ∷ 2 ∷ 3 ∷ 10 ∷ [] }
{}
