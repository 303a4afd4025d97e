//! The predicate of a filter.
ghost use Rattle.std.specs.Prelude.{◌≡◌, [], ◌∷◌, length, IfOk, IfErr};
ghost use Rattle.plan_types.specs.Schemas.{columns};
ghost use Rattle.plan_dsl.specs.Expressions.{tree_of};
ghost use Rattle.plan_dsl.specs.Registry.{registry};
ghost use Rattle.plan_arena.specs.Items.{named_node};
ghost use Rattle.plan_lower.specs.Nodes.{KeepsExpressions};
ghost use Rattle.plan_lower.specs.Predicates.{HasExpandedPredicate, IsUnfiltered};

use crate::conversion::asked::Asked;
use crate::conversion::projection::project_asked;
use plan_arena::aexpr::AExpr;
use plan_arena::arena::Arena;
use plan_arena::expr_ir::ExprIR;
use plan_dsl::expr::{Expr, Exprs};
use plan_dsl::udfs::Udfs;
use plan_expand::expr_expansion::expand_filter;
use plan_types::error::PlanError;
use plan_types::schema::Schema;

/// Expands a predicate over the schema, adds its nodes, types them over a frame of the schema, asks that it is of the
/// type of truth values, and puts casts round operands.
pub(crate) fn lower_predicate(
    predicate: Expr,
    schema: &Schema,
    arena: &mut Arena<AExpr>,
    udfs: &Udfs,
) -> Result<ExprIR, PlanError>
    ensures ok { IfOk result (λ expr_ir. HasExpandedPredicate (registry udfs.now) (columns schema.now) arena.new
        (tree_of predicate) (named_node expr_ir)) }
    ensures kept { KeepsExpressions arena.old arena.new }
    ensures err { IfErr result (IsUnfiltered (registry udfs.now) (columns schema.now) (tree_of predicate)) }
{
    let expanded = expand_filter(arena.allocator(), predicate, schema, udfs)?;
    let items = vec![in arena.allocator(); expanded]?;
    let lowered = project_asked(Exprs { items }, schema, arena, udfs, Asked::TruthValue)?;
    Ok(only_one(lowered.expr.items))
}

// The only one of some expressions.
fn only_one(exprs: Vec<ExprIR>) -> ExprIR
    requires { length exprs.items ≡ 1 }
    ensures { exprs.items ≡ result ∷ [] }
{
    let mut exprs = exprs;
    match exprs.pop() {
        Some(only) => only,
        None => unreachable!(),
    }
}
