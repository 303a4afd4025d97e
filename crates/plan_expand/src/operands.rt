//! Operands of expressions, in place of which others are put.
ghost use Rattle.std.specs.Prelude.{◌≡◌, ◌<◌, ◌∷◌, [], ◌++◌, length, slice_get, slice_set, Some, true};
ghost use Rattle.plan_dsl.specs.Copies.{has_list};
ghost use Rattle.plan_dsl.specs.Expressions.{input_tree, method_of, order_trees, tree_of, trees_of, way_of};
ghost use Rattle.plan_dsl.specs.Trees.{top_op};
ghost use Rattle.plan_expand.specs.Walks.{operand_list, over};

use plan_dsl::aggregate::AggExpr;
use plan_dsl::expr::{Expr, Exprs};
use plan_dsl::sort_options::SortOptions;
use std::mem;

// Puts the other in place of the operand at a place, and that in place of the other.
pub(crate) fn swap_operand(expr: &mut Expr, place: usize, other: &mut Expr)
    requires { place < length (operand_list (tree_of expr.old)) }
    ensures other { Some (tree_of other.new) ≡ slice_get (operand_list (tree_of expr.old)) place }
    ensures expr { tree_of expr.new ≡ over (tree_of expr.old) (slice_set (operand_list (tree_of expr.old)) place (tree_of other.old)) }
{
    match expr {
        Expr::Cast { expr, .. } => mem::swap(&mut **expr, other),
        Expr::Explode(input) => mem::swap(&mut **input, other),
        Expr::Sort { expr, .. } => mem::swap(&mut **expr, other),
        Expr::Alias(expr, _) => mem::swap(&mut **expr, other),
        Expr::KeepName(expr) => mem::swap(&mut **expr, other),
        Expr::RenameAlias { expr, .. } => mem::swap(&mut **expr, other),
        Expr::Agg(aggregate) => swap_input(aggregate, other),
        Expr::BinaryExpr { left, right, .. } => swap_of_two(left, right, place, other),
        Expr::Gather { expr, idx, .. } => swap_of_two(expr, idx, place, other),
        Expr::Filter { input, by } => swap_of_two(input, by, place, other),
        Expr::Slice {
            input,
            offset,
            length,
        } => swap_of_three(input, offset, length, place, other),
        Expr::Ternary {
            predicate,
            truthy,
            falsy,
        } => swap_of_three(truthy, predicate, falsy, place, other),
        Expr::SortBy { .. } => swap_in_list(expr, place, other),
        Expr::Window { .. } => swap_in_list(expr, place, other),
        Expr::Function { .. } => swap_in_list(expr, place, other),
        Expr::Column(_)
        | Expr::Literal(_)
        | Expr::Len
        | Expr::Columns(_)
        | Expr::DtypeColumn(_)
        | Expr::IndexColumn(_)
        | Expr::Nth(_)
        | Expr::Wildcard
        | Expr::Exclude(_, _)
        | Expr::Selector(_) => {}
    }
}

// Exchanges the other and the operand at a place of a node with a list.
fn swap_in_list(expr: &mut Expr, place: usize, other: &mut Expr)
    requires list { has_list (top_op (tree_of expr.old)) ≡ true }
    requires within { place < length (operand_list (tree_of expr.old)) }
    ensures other { Some (tree_of other.new) ≡ slice_get (operand_list (tree_of expr.old)) place }
    ensures expr { tree_of expr.new ≡ over (tree_of expr.old) (slice_set (operand_list (tree_of expr.old)) place (tree_of other.old)) }
{
    let whole = mem::replace(expr, Expr::Len);
    let spare = mem::replace(expr, list_swapped(whole, place, other));
    drop(spare);
}

// A node with a list in which the other is put in place of the operand at a place, and that in place of the other.
fn list_swapped(expr: Expr, place: usize, other: &mut Expr) -> Expr
    requires list { has_list (top_op (tree_of expr)) ≡ true }
    requires within { place < length (operand_list (tree_of expr)) }
    ensures other { Some (tree_of other.new) ≡ slice_get (operand_list (tree_of expr)) place }
    ensures expr { tree_of result ≡ over (tree_of expr) (slice_set (operand_list (tree_of expr)) place (tree_of other.old)) }
{
    match expr {
        Expr::SortBy {
            mut expr,
            by,
            sort_options,
        } => {
            let by = swap_listed(&mut expr, by, place, other);
            Expr::SortBy {
                expr,
                by,
                sort_options,
            }
        }
        Expr::Window {
            mut function,
            partition_by,
            mut order_by,
            options,
        } => {
            let partition_by = swap_of_window(
                &mut function,
                &mut order_by,
                partition_by,
                place,
                other,
            );
            Expr::Window {
                function,
                partition_by,
                order_by,
                options,
            }
        }
        Expr::Function { input, function } => {
            let input = swap_each(input, place, other);
            Expr::Function { input, function }
        }
        other => other,
    }
}

// Exchanges the other and the expression of which an aggregate is made.
fn swap_input(aggregate: &mut AggExpr, other: &mut Expr)
    ensures other { tree_of other.new ≡ input_tree aggregate.old }
    ensures input { input_tree aggregate.new ≡ tree_of other.old }
    ensures method { method_of aggregate.new ≡ method_of aggregate.old }
{
    match aggregate {
        AggExpr::Min { input, .. } => mem::swap(&mut **input, other),
        AggExpr::Max { input, .. } => mem::swap(&mut **input, other),
        AggExpr::NUnique(input) => mem::swap(&mut **input, other),
        AggExpr::First(input) => mem::swap(&mut **input, other),
        AggExpr::Last(input) => mem::swap(&mut **input, other),
        AggExpr::Implode(input) => mem::swap(&mut **input, other),
        AggExpr::Count(input, _) => mem::swap(&mut **input, other),
        AggExpr::Sum(input) => mem::swap(&mut **input, other),
        AggExpr::AggGroups(input) => mem::swap(&mut **input, other),
    }
}

// Exchanges the other and one of two operands.
fn swap_of_two(first: &mut Expr, second: &mut Expr, place: usize, other: &mut Expr)
    requires { place < 2 }
    ensures other { Some (tree_of other.new) ≡ slice_get (tree_of first.old ∷ tree_of second.old ∷ []) place }
    ensures operands { (tree_of first.new ∷ tree_of second.new ∷ []) ≡ slice_set (tree_of first.old ∷ tree_of second.old ∷ []) place (tree_of other.old) }
{
    if place == 0 {
        mem::swap(first, other);
    } else {
        mem::swap(second, other);
    }
}

// Exchanges the other and one of three operands.
fn swap_of_three(
    first: &mut Expr,
    second: &mut Expr,
    third: &mut Expr,
    place: usize,
    other: &mut Expr,
)
    requires { place < 3 }
    ensures other { Some (tree_of other.new) ≡ slice_get (tree_of first.old ∷ tree_of second.old ∷ tree_of third.old ∷ []) place }
    ensures operands { (tree_of first.new ∷ tree_of second.new ∷ tree_of third.new ∷ []) ≡ slice_set (tree_of first.old ∷ tree_of second.old ∷ tree_of third.old ∷ []) place (tree_of other.old) }
{
    if place == 0 {
        mem::swap(first, other);
    } else {
        swap_of_two(second, third, place - 1, other);
    }
}

// Exchanges the other and the operand at a place of a list.
fn swap_each(all: Exprs, place: usize, other: &mut Expr) -> Exprs
    requires { place < length (trees_of all) }
    ensures other { Some (tree_of other.new) ≡ slice_get (trees_of all) place }
    ensures operands { trees_of result ≡ slice_set (trees_of all) place (tree_of other.old) }
{
    let mut items = all.items;
    mem::swap(&mut items[place], other);
    Exprs { items }
}

// Exchanges the other and the first operand, or one of the list behind it.
fn swap_listed(first: &mut Expr, others: Exprs, place: usize, other: &mut Expr) -> Exprs
    requires { place < length (tree_of first.old ∷ trees_of others) }
    ensures other { Some (tree_of other.new) ≡ slice_get (tree_of first.old ∷ trees_of others) place }
    ensures operands { (tree_of first.new ∷ trees_of result) ≡ slice_set (tree_of first.old ∷ trees_of others) place (tree_of other.old) }
{
    if place == 0 {
        mem::swap(first, other);
        others
    } else {
        swap_each(others, place - 1, other)
    }
}

// Exchanges the other and the first operand, the second, or one of the list behind them.
fn swap_ordered(
    first: &mut Expr,
    second: &mut Expr,
    others: Exprs,
    place: usize,
    other: &mut Expr,
) -> Exprs
    requires { place < length (tree_of first.old ∷ tree_of second.old ∷ trees_of others) }
    ensures other { Some (tree_of other.new) ≡ slice_get (tree_of first.old ∷ tree_of second.old ∷ trees_of others) place }
    ensures operands { (tree_of first.new ∷ tree_of second.new ∷ trees_of result) ≡ slice_set (tree_of first.old ∷ tree_of second.old ∷ trees_of others) place (tree_of other.old) }
{
    if place == 0 {
        mem::swap(first, other);
        others
    } else {
        swap_listed(second, others, place - 1, other)
    }
}

// Exchanges the other and an operand of a window: its function, what orders its groups, if anything does, or one of its
// keys.
fn swap_of_window(
    function: &mut Expr,
    order: &mut Option<(Box<Expr>, SortOptions)>,
    keys: Exprs,
    place: usize,
    other: &mut Expr,
) -> Exprs
    requires { place < length (tree_of function.old ∷ (order_trees order.old ++ trees_of keys)) }
    ensures way { way_of order.new ≡ way_of order.old }
    ensures other { Some (tree_of other.new) ≡ slice_get (tree_of function.old ∷ (order_trees order.old ++ trees_of keys)) place }
    ensures operands { (tree_of function.new ∷ (order_trees order.new ++ trees_of result)) ≡ slice_set (tree_of function.old ∷ (order_trees order.old ++ trees_of keys)) place (tree_of other.old) }
{
    match order {
        None => swap_listed(function, keys, place, other),
        Some((order, _)) => swap_ordered(function, order, keys, place, other),
    }
}
