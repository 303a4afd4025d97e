//! Copies of expressions, with a column in place of their markers or as they are.
ghost use Rattle.std.specs.Prelude.{◌≡◌, map, true, false, IfOk, IfErr};
ghost use Rattle.std.specs.Option.{option_map};
ghost use Rattle.plan_dsl.specs.Trees.{top_op};
ghost use Rattle.plan_dsl.specs.Copies.{has_list, has_one, has_several, put, put_below};
ghost use Rattle.plan_dsl.specs.Expansion.{is_marker};
ghost use Rattle.plan_dsl.specs.Expressions.{order_trees, tree_of, trees_of, way_of};
ghost use Rattle.plan_types.specs.Errors.{no_memory};

use crate::aggregate::AggExpr;
use crate::expr::{Expr, Exprs};
use crate::marker::{excluded_copied, names_copied, types_copied};
use crate::sort_options::SortOptions;
use plan_types::error::PlanError;
use plan_types::text::PlSmallStr;
use std::alloc::Global;

// A copy with the column of that name, if there is one, in place of all markers.
#[cycle(expr_copies)]
pub(crate) fn copied(
    expr: &Expr,
    column: Option<&PlSmallStr>,
    alloc: Global,
) -> Result<Expr, PlanError>
    ensures ok { IfOk result (λ copy. tree_of copy ≡ put (option_map (λ name. name.now) column.entry) (tree_of expr.now)) }
    ensures err { IfErr result (λ error. error ≡ no_memory) }
{
    match column {
        None => {
            let copy = node_copied(expr, column, alloc)?;
            Ok(copy)
        }
        Some(name) => {
            if is_marker(expr) {
                let name = name.try_clone(alloc)?;
                Ok(Expr::Column(name))
            } else {
                let copy = node_copied(expr, column, alloc)?;
                Ok(copy)
            }
        }
    }
}

// A copy in a box, with the column of that name, if there is one, in place of all markers.
#[cycle(expr_copies)]
pub(crate) fn boxed_copy(
    expr: &Expr,
    column: Option<&PlSmallStr>,
    alloc: Global,
) -> Result<Box<Expr>, PlanError>
    ensures ok { IfOk result (λ copy. tree_of copy.value ≡ put (option_map (λ name. name.now) column.entry) (tree_of expr.now)) }
    ensures err { IfErr result (λ error. error ≡ no_memory) }
{
    let copy = copied(expr, column, alloc)?;
    let copy = Box::new(alloc, copy)?;
    Ok(copy)
}

// A copy of the node with the column in place of the markers below it. A marker is copied as it is.
#[cycle(expr_copies)]
fn node_copied(expr: &Expr, column: Option<&PlSmallStr>, alloc: Global) -> Result<Expr, PlanError>
    ensures ok { IfOk result (λ copy. tree_of copy ≡ put_below (option_map (λ name. name.now) column.entry) (tree_of expr.now)) }
    ensures err { IfErr result (λ error. error ≡ no_memory) }
{
    if has_one(expr) {
        let copy = one_copied(expr, column, alloc)?;
        return Ok(copy);
    }
    if expr.has_several() {
        let copy = several_copied(expr, column, alloc)?;
        return Ok(copy);
    }
    if has_list(expr) {
        let copy = list_copied(expr, column, alloc)?;
        return Ok(copy);
    }
    let copy = alone_copied(expr, alloc)?;
    Ok(copy)
}

// Whether it has one operand in which a column is put in place of markers.
fn has_one(expr: &Expr) -> bool
    ensures { result ≡ has_one (top_op (tree_of expr.now)) }
{
    matches!(
        expr,
        Expr::Cast { .. }
            | Expr::Explode(_)
            | Expr::Sort { .. }
            | Expr::Alias(_, _)
            | Expr::Agg(_)
            | Expr::KeepName(_)
            | Expr::RenameAlias { .. }
    )
}

// Whether it has a list of operands.
fn has_list(expr: &Expr) -> bool
    ensures { result ≡ has_list (top_op (tree_of expr.now)) }
{
    matches!(
        expr,
        Expr::SortBy { .. } | Expr::Window { .. } | Expr::Function { .. }
    )
}

// A copy of a node with one operand.
#[cycle(expr_copies)]
fn one_copied(expr: &Expr, column: Option<&PlSmallStr>, alloc: Global) -> Result<Expr, PlanError>
    requires one { has_one (top_op (tree_of expr.now)) ≡ true }
    ensures ok { IfOk result (λ copy. tree_of copy ≡ put_below (option_map (λ name. name.now) column.entry) (tree_of expr.now)) }
    ensures err { IfErr result (λ error. error ≡ no_memory) }
{
    match expr {
        Expr::Cast {
            expr,
            dtype,
            options,
        } => {
            let expr = boxed_copy(expr, column, alloc)?;
            Ok(Expr::Cast {
                expr,
                dtype: dtype.try_clone(alloc)?,
                options: *options,
            })
        }
        Expr::Explode(input) => Ok(Expr::Explode(boxed_copy(input, column, alloc)?)),
        Expr::Sort { expr, options } => Ok(Expr::Sort {
            expr: boxed_copy(expr, column, alloc)?,
            options: *options,
        }),
        Expr::Alias(expr, name) => {
            let expr = boxed_copy(expr, column, alloc)?;
            Ok(Expr::Alias(expr, name.try_clone(alloc)?))
        }
        Expr::Agg(aggregate) => {
            let input = boxed_copy(aggregate.as_ref(), column, alloc)?;
            Ok(Expr::Agg(AggExpr::of(aggregate.method(), input)))
        }
        Expr::KeepName(expr) => Ok(Expr::KeepName(boxed_copy(expr, column, alloc)?)),
        Expr::RenameAlias { function, expr } => {
            let expr = boxed_copy(expr, column, alloc)?;
            Ok(Expr::RenameAlias {
                function: function.try_clone(alloc)?,
                expr,
            })
        }
        _ => unreachable!(),
    }
}

// A copy of a node with several operands.
#[cycle(expr_copies)]
fn several_copied(
    expr: &Expr,
    column: Option<&PlSmallStr>,
    alloc: Global,
) -> Result<Expr, PlanError>
    requires several { has_several (top_op (tree_of expr.now)) ≡ true }
    ensures ok { IfOk result (λ copy. tree_of copy ≡ put_below (option_map (λ name. name.now) column.entry) (tree_of expr.now)) }
    ensures err { IfErr result (λ error. error ≡ no_memory) }
{
    match expr {
        Expr::BinaryExpr { left, op, right } => {
            let (left, right) = two_copied(left, right, column, alloc)?;
            Ok(Expr::BinaryExpr {
                left,
                op: *op,
                right,
            })
        }
        Expr::Slice {
            input,
            offset,
            length,
        } => {
            let (input, offset, length) = three_copied(input, offset, length, column, alloc)?;
            Ok(Expr::Slice {
                input,
                offset,
                length,
            })
        }
        Expr::Gather {
            expr,
            idx,
            returns_scalar,
        } => {
            let (expr, idx) = two_copied(expr, idx, column, alloc)?;
            Ok(Expr::Gather {
                expr,
                idx,
                returns_scalar: *returns_scalar,
            })
        }
        Expr::Filter { input, by } => {
            let (input, by) = two_copied(input, by, column, alloc)?;
            Ok(Expr::Filter { input, by })
        }
        Expr::Ternary {
            predicate,
            truthy,
            falsy,
        } => {
            let (truthy, predicate, falsy) = three_copied(truthy, predicate, falsy, column, alloc)?;
            Ok(Expr::Ternary {
                predicate,
                truthy,
                falsy,
            })
        }
        _ => unreachable!(),
    }
}

// A copy of a node with a list of operands.
#[cycle(expr_copies)]
fn list_copied(expr: &Expr, column: Option<&PlSmallStr>, alloc: Global) -> Result<Expr, PlanError>
    requires list { has_list (top_op (tree_of expr.now)) ≡ true }
    ensures ok { IfOk result (λ copy. tree_of copy ≡ put_below (option_map (λ name. name.now) column.entry) (tree_of expr.now)) }
    ensures err { IfErr result (λ error. error ≡ no_memory) }
{
    match expr {
        Expr::SortBy {
            expr,
            by,
            sort_options,
        } => {
            let sort_options = sort_options.try_clone(alloc)?;
            let (expr, by) = listed_copied(expr, by, column, alloc)?;
            Ok(Expr::SortBy {
                expr,
                by,
                sort_options,
            })
        }
        Expr::Window {
            function,
            partition_by,
            order_by,
            options,
        } => {
            let (function, partition_by) = listed_copied(function, partition_by, column, alloc)?;
            let order_by = order_copied(order_by, column, alloc)?;
            Ok(Expr::Window {
                function,
                partition_by,
                order_by,
                options: *options,
            })
        }
        Expr::Function { input, function } => {
            let input = exprs_copied(input, column, alloc)?;
            Ok(Expr::Function {
                input,
                function: function.try_clone(alloc)?,
            })
        }
        _ => unreachable!(),
    }
}

// A copy of a node without operands, or of a marker.
#[cycle(expr_copies)]
fn alone_copied(expr: &Expr, alloc: Global) -> Result<Expr, PlanError>
    requires not_one { has_one (top_op (tree_of expr.now)) ≡ false }
    requires not_several { has_several (top_op (tree_of expr.now)) ≡ false }
    requires not_list { has_list (top_op (tree_of expr.now)) ≡ false }
    ensures ok { IfOk result (λ copy. tree_of copy ≡ tree_of expr.now) }
    ensures err { IfErr result (λ error. error ≡ no_memory) }
{
    match expr {
        Expr::Column(name) => Ok(Expr::Column(name.try_clone(alloc)?)),
        Expr::Literal(value) => Ok(Expr::Literal(value.try_clone(alloc)?)),
        Expr::Len => Ok(Expr::Len),
        Expr::Columns(names) => Ok(Expr::Columns(names_copied(names, alloc)?)),
        Expr::DtypeColumn(types) => Ok(Expr::DtypeColumn(types_copied(types, alloc)?)),
        Expr::IndexColumn(places) => Ok(Expr::IndexColumn(Vec::from_slice(alloc, places)?)),
        Expr::Nth(place) => Ok(Expr::Nth(*place)),
        Expr::Wildcard => Ok(Expr::Wildcard),
        Expr::Exclude(marker, excluded) => {
            let marker = boxed_copy(marker, None, alloc)?;
            Ok(Expr::Exclude(marker, excluded_copied(excluded, alloc)?))
        }
        Expr::Selector(selector) => Ok(Expr::Selector(selector.try_clone(alloc)?)),
        _ => unreachable!(),
    }
}

// Whether it is a marker itself.
fn is_marker(expr: &Expr) -> bool
    ensures { result ≡ is_marker (top_op (tree_of expr.now)) }
{
    matches!(
        expr,
        Expr::Columns(_)
            | Expr::DtypeColumn(_)
            | Expr::IndexColumn(_)
            | Expr::Nth(_)
            | Expr::Wildcard
            | Expr::Exclude(_, _)
            | Expr::Selector(_)
    )
}

// Copies with the column of that name, if there is one, in place of all markers.
#[cycle(expr_copies)]
pub(crate) fn exprs_copied(
    exprs: &Exprs,
    column: Option<&PlSmallStr>,
    alloc: Global,
) -> Result<Exprs, PlanError>
    ensures ok { IfOk result (λ copy. trees_of copy ≡ map (put (option_map (λ name. name.now) column.entry)) (trees_of exprs.now)) }
    ensures err { IfErr result (λ error. error ≡ no_memory) }
{
    let mut items = Vec::with_capacity(alloc, exprs.items.len())?;
    for expr in exprs.items.as_slice() {
        let copy = copied(expr, column, alloc)?;
        items.push(copy)?;
    }
    Ok(Exprs { items })
}

// Copies of two operands, with the column of that name, if there is one, in place of all markers.
#[cycle(expr_copies)]
fn two_copied(
    first: &Expr,
    second: &Expr,
    column: Option<&PlSmallStr>,
    alloc: Global,
) -> Result<(Box<Expr>, Box<Expr>), PlanError>
    ensures first { IfOk result (λ copies. tree_of copies.0.value ≡ put (option_map (λ name. name.now) column.entry) (tree_of first.now)) }
    ensures second { IfOk result (λ copies. tree_of copies.1.value ≡ put (option_map (λ name. name.now) column.entry) (tree_of second.now)) }
    ensures err { IfErr result (λ error. error ≡ no_memory) }
{
    let first = boxed_copy(first, column, alloc)?;
    let second = boxed_copy(second, column, alloc)?;
    Ok((first, second))
}

// Copies of three operands, with that column in place of all markers.
#[cycle(expr_copies)]
fn three_copied(
    first: &Expr,
    second: &Expr,
    third: &Expr,
    column: Option<&PlSmallStr>,
    alloc: Global,
) -> Result<(Box<Expr>, Box<Expr>, Box<Expr>), PlanError>
    ensures first { IfOk result (λ copies. tree_of copies.0.value ≡ put (option_map (λ name. name.now) column.entry) (tree_of first.now)) }
    ensures second { IfOk result (λ copies. tree_of copies.1.value ≡ put (option_map (λ name. name.now) column.entry) (tree_of second.now)) }
    ensures third { IfOk result (λ copies. tree_of copies.2.value ≡ put (option_map (λ name. name.now) column.entry) (tree_of third.now)) }
    ensures err { IfErr result (λ error. error ≡ no_memory) }
{
    let (first, second) = two_copied(first, second, column, alloc)?;
    let third = boxed_copy(third, column, alloc)?;
    Ok((first, second, third))
}

// Copies of an operand and of those in a list, with that column in place of all markers.
#[cycle(expr_copies)]
fn listed_copied(
    first: &Expr,
    rest: &Exprs,
    column: Option<&PlSmallStr>,
    alloc: Global,
) -> Result<(Box<Expr>, Exprs), PlanError>
    ensures first { IfOk result (λ copies. tree_of copies.0.value ≡ put (option_map (λ name. name.now) column.entry) (tree_of first.now)) }
    ensures rest { IfOk result (λ copies. trees_of copies.1 ≡ map (put (option_map (λ name. name.now) column.entry)) (trees_of rest.now)) }
    ensures err { IfErr result (λ error. error ≡ no_memory) }
{
    let first = boxed_copy(first, column, alloc)?;
    let rest = exprs_copied(rest, column, alloc)?;
    Ok((first, rest))
}

// A copy of what orders the groups of a window, if anything does, with that column in place of all markers.
#[cycle(expr_copies)]
fn order_copied(
    order: &Option<(Box<Expr>, SortOptions)>,
    column: Option<&PlSmallStr>,
    alloc: Global,
) -> Result<Option<(Box<Expr>, SortOptions)>, PlanError>
    ensures way { IfOk result (λ copy. way_of copy ≡ way_of order.now) }
    ensures order { IfOk result (λ copy. order_trees copy ≡ map (put (option_map (λ name. name.now) column.entry)) (order_trees order.now)) }
    ensures err { IfErr result (λ error. error ≡ no_memory) }
{
    match order {
        None => Ok(None),
        Some((expr, options)) => {
            let expr = boxed_copy(expr, column, alloc)?;
            Ok(Some((expr, *options)))
        }
    }
}
