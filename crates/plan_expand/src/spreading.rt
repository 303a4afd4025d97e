//! Inputs of horizontals, in whose place stands all that they are expanded to.
ghost use Rattle.std.specs.Prelude.{◌≡◌, map, true, Ok, IfOk, IfErr, OnOk};
ghost use Rattle.std.specs.List.{list_all};
ghost use Rattle.plan_types.specs.Errors.{IsRefusal};
ghost use Rattle.plan_types.specs.Schemas.{columns};
ghost use Rattle.plan_dsl.specs.Expansion.{expanded_alone, in_place, spread, spreads};
ghost use Rattle.plan_dsl.specs.Expressions.{plain_tree, tree_of};
ghost use Rattle.plan_dsl.specs.Refusals.{joined, with_kinds};
ghost use Rattle.plan_dsl.specs.Sources.{is_plain};
ghost use Rattle.plan_dsl.specs.Trees.{children_from, top_op};
ghost use Rattle.plan_expand.specs.Changes.{own_spread};

use crate::expr_expansion::expanded_alone;
use crate::operands::swap_operand;
use crate::walks::operand_count;
use indexmap::IndexSet;
use plan_dsl::expr::{Expr, Exprs};
use plan_dsl::function_expr::FunctionExpr;
use plan_types::error::PlanError;
use plan_types::schema::Schema;
use plan_types::text::PlSmallStr;
use std::alloc::Global;
use std::mem;

// Expands the inputs of all horizontals in place. What stands inside a marker is its own.
#[cycle(spread_inputs)]
pub(crate) fn spread_inputs(
    alloc: Global,
    expr: &mut Expr,
    schema: &Schema,
    keys: &IndexSet<PlSmallStr>,
) -> Result<(), PlanError>
    ensures ok { OnOk result (in_place keys.now.keys (columns schema.now) (tree_of expr.old) ≡ Ok (tree_of expr.new)) }
    ensures err { IfErr result (IsRefusal (in_place keys.now.keys (columns schema.now) (tree_of expr.old))) }
{
    let Some(count) = operand_count(expr) else {
        return Ok(());
    };
    for place in 0..count {
        let mut operand = Expr::Len;
        swap_operand(expr, place, &mut operand);
        let spread = spread_inputs(alloc, &mut operand, schema, keys);
        swap_operand(expr, place, &mut operand);
        drop(operand);
        spread?;
    }
    spread_own(alloc, expr, schema, keys)?;
    Ok(())
}

// Expands the inputs in place, if the node is a horizontal.
fn spread_own(
    alloc: Global,
    expr: &mut Expr,
    schema: &Schema,
    keys: &IndexSet<PlSmallStr>,
) -> Result<(), PlanError>
    ensures ok { OnOk result (own_spread keys.now.keys (columns schema.now) (tree_of expr.old) ≡ Ok (tree_of expr.new)) }
    ensures err { IfErr result (IsRefusal (own_spread keys.now.keys (columns schema.now) (tree_of expr.old))) }
{
    if !is_horizontal(expr) {
        return Ok(());
    }
    let whole = mem::replace(expr, Expr::Len);
    let spread = horizontal_spread(alloc, whole, schema, keys)?;
    let spare = mem::replace(expr, spread);
    drop(spare);
    Ok(())
}

fn is_horizontal(expr: &Expr) -> bool
    ensures { result ≡ spreads (top_op (tree_of expr.now)) }
{
    match expr {
        Expr::Function { function, .. } => matches!(
            function,
            FunctionExpr::AllHorizontal | FunctionExpr::AnyHorizontal
        ),
        _ => false,
    }
}

// A horizontal over its inputs in place.
fn horizontal_spread(
    alloc: Global,
    expr: Expr,
    schema: &Schema,
    keys: &IndexSet<PlSmallStr>,
) -> Result<Expr, PlanError>
    requires { spreads (top_op (tree_of expr)) ≡ true }
    ensures ok { IfOk result (λ over. own_spread keys.now.keys (columns schema.now) (tree_of expr) ≡ Ok (tree_of over)) }
    ensures err { IfErr result (IsRefusal (own_spread keys.now.keys (columns schema.now) (tree_of expr))) }
{
    match expr {
        Expr::Function { input, function } => {
            let input = spread_each(alloc, input, schema, keys)?;
            Ok(Expr::Function { input, function })
        }
        other => Ok(other),
    }
}

// What each of the inputs is expanded to, in order.
fn spread_each(
    alloc: Global,
    inputs: Exprs,
    schema: &Schema,
    keys: &IndexSet<PlSmallStr>,
) -> Result<Exprs, PlanError>
    ensures ok { IfOk result (λ expanded. spread keys.now.keys (columns schema.now) (children_from (map tree_of inputs.items.items)) ≡ Ok (map plain_tree expanded.items.items)) }
    ensures plain { IfOk result (λ expanded. list_all is_plain (map tree_of expanded.items.items) ≡ true) }
    ensures err { IfErr result (IsRefusal (spread keys.now.keys (columns schema.now) (children_from (map tree_of inputs.items.items)))) }
{
    let items = spread_list(alloc, inputs.items, schema, keys)?;
    Ok(Exprs { items })
}

// What each input of a list is expanded to, in order.
fn spread_list(
    alloc: Global,
    inputs: Vec<Expr>,
    schema: &Schema,
    keys: &IndexSet<PlSmallStr>,
) -> Result<Vec<Expr>, PlanError>
    ensures ok { IfOk result (λ expanded. spread keys.now.keys (columns schema.now) (children_from (map tree_of inputs.items)) ≡ Ok (map plain_tree expanded.items)) }
    ensures plain { IfOk result (λ expanded. list_all is_plain (map tree_of expanded.items) ≡ true) }
    ensures err { IfErr result (IsRefusal (spread keys.now.keys (columns schema.now) (children_from (map tree_of inputs.items)))) }
{
    let mut expanded = Vec::with_capacity(alloc, inputs.len())?;
    for input in inputs {
        add_alone(alloc, &mut expanded, input, schema, keys)?;
    }
    Ok(expanded)
}

// Adds what an input is expanded to behind others.
fn add_alone(
    alloc: Global,
    expanded: &mut Vec<Expr>,
    input: Expr,
    schema: &Schema,
    keys: &IndexSet<PlSmallStr>,
) -> Result<(), PlanError>
    ensures ok { OnOk result (joined (Ok (map plain_tree expanded.old.items)) (with_kinds (expanded_alone keys.now.keys (columns schema.now) (tree_of input))) ≡ Ok (map plain_tree expanded.new.items)) }
    ensures plain { OnOk result (list_all is_plain (map tree_of expanded.new.items) ≡ list_all is_plain (map tree_of expanded.old.items)) }
    ensures err { IfErr result (IsRefusal (expanded_alone keys.now.keys (columns schema.now) (tree_of input))) }
{
    let mut more = expanded_alone(alloc, input, schema, keys)?;
    expanded.append(&mut more)?;
    Ok(())
}
