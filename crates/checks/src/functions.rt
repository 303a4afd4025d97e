//! Functions of any number of inputs, and functions, ternaries and fields at any depth.

use crate::expressions::{Kind, assert_copied, boxed, nested};
use crate::fixtures::{
    LENGTHS, NO_MEMORY, assert_number, column, long_name, numbered, struct_type,
};
use crate::lowering::select;
use crate::plans::scan_of;
use plan_dsl::expr::{Expr, Exprs};
use plan_dsl::function_expr::FunctionExpr;
use plan_dsl::literal::LiteralValue;
use plan_dsl::udfs::Udfs;
use plan_lower::conversion::dsl_to_ir::PlanLowering;
use plan_types::dtype::DataType;
use std::alloc::Global;
use std::process::Abort;

pub(crate) fn function_of(function: FunctionExpr, items: Vec<Expr>) -> Expr {
    Expr::Function {
        input: Exprs { items },
        function,
    }
}

/// So many columns.
pub(crate) fn columns(rt: &impl Abort, alloc: Global, count: usize) -> Vec<Expr> {
    let mut columns = Vec::new(alloc);
    for number in 0..count {
        let name = numbered(rt, alloc, number);
        columns.push(Expr::Column(name)).expect(rt, NO_MEMORY);
    }
    columns
}

#[test]
fn functions_of_any_number_of_inputs_are_copied(rt: HostRuntime) {
    for count in [0, 1, 2, 1_000] {
        let input = columns(&rt, rt.alloc(), count);
        let expr = function_of(FunctionExpr::AnyHorizontal, input);
        assert_copied(&rt, rt.alloc(), expr);
    }
}

#[test]
fn functions_of_long_names_are_copied(rt: HostRuntime) {
    for length in LENGTHS {
        let name = long_name(&rt, rt.alloc(), length);
        let input = columns(&rt, rt.alloc(), 1);
        let expr = function_of(FunctionExpr::FieldByName(name), input);
        assert_copied(&rt, rt.alloc(), expr);
    }
}

// The expression is lowered to so many nodes, over so many columns of the type.
fn assert_nodes(
    rt: &impl Abort,
    alloc: Global,
    expr: Expr,
    columns: usize,
    dtype: &DataType,
    nodes: usize,
) {
    let scan = scan_of(rt, alloc, None, columns, dtype);
    let plan = select(rt, alloc, expr, scan);
    let lowered = plan.to_alp(alloc, &Udfs::new(alloc)).expect(rt, NO_MEMORY);
    assert_number(rt, lowered.expr_arena.len(), nodes);
    drop(lowered);
}

// So many horizontals, each over the one below it and a column.
fn horizontals(rt: &impl Abort, alloc: Global, levels: usize) -> Expr {
    let mut expr = column(rt, alloc, "part 0");
    for _ in 0..levels {
        let other = column(rt, alloc, "part 0");
        let input = vec![in alloc; expr, other].expect(rt, NO_MEMORY);
        expr = function_of(FunctionExpr::AnyHorizontal, input);
    }
    expr
}

#[test]
fn horizontals_of_any_depth_are_lowered(rt: HostRuntime) {
    for (levels, nodes) in &[(0, 1), (1, 3), (2, 5), (500, 1_001)] {
        let expr = horizontals(&rt, rt.alloc(), *levels);
        assert_nodes(&rt, rt.alloc(), expr, 1, &DataType::Boolean, *nodes);
    }
}

/// So many ternaries, each the predicate of the one above it.
pub(crate) fn predicates(rt: &impl Abort, alloc: Global, levels: usize) -> Expr {
    let mut expr = column(rt, alloc, "part 0");
    for _ in 0..levels {
        let truthy = Expr::Literal(LiteralValue::Boolean(true));
        let falsy = Expr::Literal(LiteralValue::Boolean(false));
        expr = Expr::Ternary {
            predicate: boxed(rt, alloc, expr),
            truthy: boxed(rt, alloc, truthy),
            falsy: boxed(rt, alloc, falsy),
        };
    }
    expr
}

#[test]
fn predicates_of_any_depth_are_lowered(rt: HostRuntime) {
    for (levels, nodes) in &[(0, 1), (1, 4), (2, 7), (500, 1_501)] {
        let expr = predicates(&rt, rt.alloc(), *levels);
        assert_nodes(&rt, rt.alloc(), expr, 1, &DataType::Boolean, *nodes);
    }
}

// The last field of the first column.
fn last_field(rt: &impl Abort, alloc: Global) -> Expr {
    let input = vec![in alloc; column(rt, alloc, "part 0")].expect(rt, NO_MEMORY);
    function_of(FunctionExpr::FieldByIndex(-1), input)
}

// In place of nulls stands a number, at each level, for which one with a type is added.
#[test]
fn fields_at_any_depth_are_named(rt: HostRuntime) {
    let record = struct_type(&rt, rt.alloc(), 2, &DataType::Int8);
    for (levels, nodes) in &[(0, 2), (1, 5), (2, 8), (500, 1_502)] {
        let lowest = last_field(&rt, rt.alloc());
        let expr = nested(&rt, rt.alloc(), Kind::Filled, *levels, lowest);
        assert_nodes(&rt, rt.alloc(), expr, 1, &record, *nodes);
    }
    drop(record);
}
