//! Walks over expressions, operand by operand: their markers, and their first column.
ghost use Rattle.std.specs.Prelude.{◌≡◌, ◌∷◌, ◌++◌, length, slice_get};
ghost use Rattle.std.specs.List.{list_all};
ghost use Rattle.std.specs.Option.{option_map};
ghost use Rattle.plan_dsl.specs.Expansion.{markers_in, root_name};
ghost use Rattle.plan_dsl.specs.Expressions.{order_trees, plain_tree, tree_of, trees_of};
ghost use Rattle.plan_dsl.specs.Sources.{same_source};
ghost use Rattle.plan_dsl.specs.Trees.{top_op};
ghost use Rattle.plan_expand.specs.Walks.{first_marker, is_of_plans, operand_trees, operands_in, plan_operands_in};

use plan_dsl::expr::{Expr, Exprs};
use plan_dsl::sort_options::SortOptions;
use plan_types::text::PlSmallStr;

/// The operands of an expression, in order.
#[derive(Clone, Copy)]
pub enum Operands<'a> {
    Leaf,
    One(&'a Expr),
    Two(&'a Expr, &'a Expr),
    Three(&'a Expr, &'a Expr, &'a Expr),
    Listed(&'a Expr, &'a Exprs),
    Ordered(&'a Expr, &'a Expr, &'a Exprs),
    Each(&'a Exprs),
}

// The operands of an expression that is no marker. What stands inside a marker is its own.
fn operands_of(expr: &Expr) -> Option<Operands<'_>>
    ensures { option_map operand_trees result ≡ operands_in (tree_of expr.now) }
{
    match expr {
        Expr::Columns(_)
        | Expr::DtypeColumn(_)
        | Expr::IndexColumn(_)
        | Expr::Nth(_)
        | Expr::Wildcard
        | Expr::Exclude(_, _)
        | Expr::Selector(_) => None,
        Expr::Column(_) | Expr::Literal(_) | Expr::Len => Some(Operands::Leaf),
        Expr::Cast { expr, .. } => Some(Operands::One(expr)),
        Expr::Explode(input) => Some(Operands::One(input)),
        Expr::Sort { expr, .. } => Some(Operands::One(expr)),
        Expr::Alias(expr, _) => Some(Operands::One(expr)),
        Expr::Agg(aggregate) => Some(Operands::One(aggregate.as_ref())),
        Expr::KeepName(expr) => Some(Operands::One(expr)),
        Expr::RenameAlias { expr, .. } => Some(Operands::One(expr)),
        Expr::BinaryExpr { left, right, .. } => Some(Operands::Two(left, right)),
        Expr::Gather { expr, idx, .. } => Some(Operands::Two(expr, idx)),
        Expr::Filter { input, by } => Some(Operands::Two(input, by)),
        Expr::Slice {
            input,
            offset,
            length,
        } => Some(Operands::Three(input, offset, length)),
        Expr::SortBy { expr, by, .. } => Some(Operands::Listed(expr, by)),
        Expr::Window {
            function,
            partition_by,
            order_by,
            ..
        } => Some(of_window(function, order_by, partition_by)),
        Expr::Ternary {
            predicate,
            truthy,
            falsy,
        } => Some(Operands::Three(truthy, predicate, falsy)),
        Expr::Function { input, .. } => Some(Operands::Each(input)),
    }
}

// The operands of a window: its function, what orders its groups, if anything does, and its keys.
fn of_window<'a>(
    function: &'a Expr,
    order: &'a Option<(Box<Expr>, SortOptions)>,
    keys: &'a Exprs,
) -> Operands<'a>
    ensures { operand_trees result ≡ tree_of function.now ∷ (order_trees order.now ++ trees_of keys.now) }
{
    match order {
        None => Operands::Listed(function, keys),
        Some((order, _)) => Operands::Ordered(function, order, keys),
    }
}

/// The operands of an expression that has an op of plans, in order.
pub fn plan_operands(expr: &Expr) -> Option<Operands<'_>>
    ensures { option_map operand_trees result ≡ plan_operands_in (tree_of expr.now) }
{
    if is_of_plans(expr) {
        operands_of(expr)
    } else {
        None
    }
}

/// How many operands there are.
pub fn count_of(operands: Operands<'_>) -> usize
    ensures { result ≡ length (operand_trees operands.entry) }
{
    match operands {
        Operands::Leaf => 0,
        Operands::One(_) => 1,
        Operands::Two(_, _) => 2,
        Operands::Three(_, _, _) => 3,
        Operands::Listed(_, others) => 1 + others.items.len(),
        Operands::Ordered(_, _, others) => 2 + others.items.len(),
        Operands::Each(all) => all.items.len(),
    }
}

/// The operand at a place.
pub fn operand_at<'a>(operands: Operands<'a>, place: usize) -> Option<&'a Expr>
    ensures { option_map (λ operand. tree_of operand.now) result ≡ slice_get (operand_trees operands.entry) place }
{
    match operands {
        Operands::Leaf => None,
        Operands::One(first) => [first].get(place).copied(),
        Operands::Two(first, second) => [first, second].get(place).copied(),
        Operands::Three(first, second, third) => [first, second, third].get(place).copied(),
        Operands::Listed(first, others) => listed_at(first, others, place),
        Operands::Ordered(first, second, others) => {
            if place == 0 {
                Some(first)
            } else {
                listed_at(second, others, place - 1)
            }
        }
        Operands::Each(all) => all.items.as_slice().get(place),
    }
}

// The expression at a place in a list behind a first one.
fn listed_at<'a>(first: &'a Expr, others: &'a Exprs, place: usize) -> Option<&'a Expr>
    ensures { option_map (λ operand. tree_of operand.now) result ≡ slice_get (tree_of first.now ∷ trees_of others.now) place }
{
    if place == 0 {
        Some(first)
    } else {
        others.items.as_slice().get(place - 1)
    }
}

// The first marker of an expression.
#[cycle(first_marker)]
pub(crate) fn first_marker(expr: &Expr) -> Option<&Expr>
    ensures { option_map (λ marker. tree_of marker.now) result ≡ first_marker (tree_of expr.now) }
{
    let Some(operands) = operands_of(expr) else {
        return Some(expr);
    };
    for place in 0..count_of(operands) {
        let operand = operand_at(operands, place)?;
        if let Some(marker) = first_marker(operand) {
            return Some(marker);
        }
    }
    None
}

// The name of the first column of an expression, in the order of operands. Nothing is sought in what has
// an op of its own.
#[cycle(root_name)]
pub(crate) fn root_name(expr: &Expr) -> Option<&PlSmallStr>
    ensures { option_map (λ name. name.now) result ≡ root_name (plain_tree expr.now) }
{
    if let Expr::Column(name) = expr {
        return Some(name);
    }
    let operands = plan_operands(expr)?;
    for place in 0..count_of(operands) {
        let operand = operand_at(operands, place)?;
        if let Some(name) = root_name(operand) {
            return Some(name);
        }
    }
    None
}

// Whether its op is one of plans'.
fn is_of_plans(expr: &Expr) -> bool
    ensures { result ≡ is_of_plans (top_op (tree_of expr.now)) }
{
    match expr {
        Expr::Columns(_)
        | Expr::DtypeColumn(_)
        | Expr::IndexColumn(_)
        | Expr::Nth(_)
        | Expr::Wildcard
        | Expr::Exclude(_, _)
        | Expr::Selector(_)
        | Expr::KeepName(_)
        | Expr::RenameAlias { .. } => false,
        Expr::Function { function, .. } => function.is_expanded(),
        _ => true,
    }
}

// Whether all markers of an expression are that one.
#[cycle(has_only)]
pub(crate) fn has_only(expr: &Expr, marker: &Expr) -> bool
    ensures { result ≡ list_all (same_source (tree_of marker.now)) (markers_in (tree_of expr.now)) }
{
    let Some(operands) = operands_of(expr) else {
        return *marker == *expr;
    };
    for place in 0..count_of(operands) {
        let Some(operand) = operand_at(operands, place) else {
            return true;
        };
        if !has_only(operand, marker) {
            return false;
        }
    }
    true
}

// How many operands an expression has that is no marker.
pub(crate) fn operand_count(expr: &Expr) -> Option<usize>
    ensures { result ≡ option_map length (operands_in (tree_of expr.now)) }
{
    let operands = operands_of(expr)?;
    Some(count_of(operands))
}
