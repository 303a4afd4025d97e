//! Expressions to nodes of an arena.
ghost use Rattle.std.specs.Prelude.{◌≡◌, ◌≢◌, ◌⊎◌, [], length, map, false, true, IfOk, IfErr, IfSome, MatchOption, OnOk};
ghost use Rattle.std.specs.List.{list_all};
ghost use Rattle.std.specs.Option.{option_map_or};
ghost use Rattle.plan_types.specs.Errors.{IsMemoryOr, no_memory};
ghost use Rattle.plan_dsl.specs.Aliases.{all_pruned, chained, pruned, spelled};
ghost use Rattle.plan_dsl.specs.Copies.{has_several};
ghost use Rattle.plan_dsl.specs.Expressions.{order_trees, plain_tree, plain_trees, tree_of, trees_of, way_of};
ghost use Rattle.plan_dsl.specs.Names.{alias_label, label_of};
ghost use Rattle.plan_dsl.specs.Ops.{Expression, FunctionOp};
ghost use Rattle.plan_dsl.specs.Sources.{is_plain, unwritten};
ghost use Rattle.plan_dsl.specs.Trees.{children_from, node, top_op};
ghost use Rattle.plan_arena.specs.Denotation.{Denotes, DenoteAll, DenotesTree};
ghost use Rattle.plan_arena.specs.Items.{named_node, numbers, numbers_named, ordered, ordering, output_label, recorded, HoldsExpression, HoldsFrom, Grows};
ghost use Rattle.plan_lower.specs.Horizontals.{IsNamedAlone, IsNamedUnder};
ghost use Rattle.plan_lower.specs.Nodes.{IsItemOf, IsRarer, over_inputs};
ghost use Rattle.plan_lower.specs.TopNumbers.{settled_at_top, settles_at_top};

use crate::conversion::horizontals::{Chaining, first_written};
use crate::conversion::top_numbers::{settle_at_top, settles_at_top};
use plan_arena::aexpr::AExpr;
use plan_arena::aggregate::IRAggExpr;
use plan_arena::arena::{Arena, Node};
use plan_arena::expr_ir::{ExprIR, ExprIRs, OutputName};
use plan_arena::inputs::NodeList;
use plan_dsl::expr::{Expr, Exprs};
use plan_dsl::function_expr::FunctionExpr;
use plan_dsl::sort_options::SortOptions;
use plan_types::error::{ErrorKind, PlanError};
use plan_types::text::PlSmallStr;
use std::alloc::Global;

/// How an expression's nodes are added.
#[derive(Clone, Copy)]
pub(crate) struct Pruning {
    // Whether its aliases are kept.
    pub(crate) keep: bool,
    // Whether its horizontals over few operands are written out.
    pub(crate) write: bool,
}

/// Adds an expression's nodes without its aliases and with its horizontals written out, and answers the top one with the
/// expression's name. A number without a type at the top stays one. A marker or a renaming form has no node.
pub fn to_expr_ir(expr: Expr, arena: &mut Arena<AExpr>) -> Result<ExprIR, PlanError>
    ensures name { IfOk result (λ expr_ir. (named_node expr_ir).label ≡ label_of (plain_tree expr)) }
    ensures denotes { IfOk result (λ expr_ir. Denotes (HoldsFrom (length arena.old) arena.new) (named_node expr_ir).expression (spelled (plain_tree expr))) }
    ensures grows { Grows arena.old arena.new }
    ensures plain { OnOk result (is_plain (tree_of expr) ≡ true) }
    ensures err { IfErr result (IsMemoryOr ErrorKind.InvalidOperation (is_plain (tree_of expr) ≡ false)) }
{
    if !expr.is_plain() {
        drop(expr);
        return Err(PlanError::at_top(ErrorKind::InvalidOperation));
    }
    let expr_ir = add_under_name(expr, true, arena)?;
    Ok(expr_ir)
}

/// Adds an expression's nodes without its aliases and with its horizontals written out, and answers the top one with the
/// name that it has so. A number without a type at the top, or directly under an alias there, gets the one that it has
/// alone.
pub fn to_expr_ir_ignore_alias(expr: Expr, arena: &mut Arena<AExpr>) -> Result<ExprIR, PlanError>
    ensures name { IfOk result (λ expr_ir. (named_node expr_ir).label ≡ label_of (spelled (plain_tree expr))) }
    ensures denotes { IfOk result (λ expr_ir. Denotes (HoldsFrom (length arena.old) arena.new) (named_node expr_ir).expression (spelled (settled_at_top (plain_tree expr)))) }
    ensures grows { Grows arena.old arena.new }
    ensures plain { OnOk result (is_plain (tree_of expr) ≡ true) }
    ensures typed { OnOk result (settles_at_top (plain_tree expr) ≡ true) }
    ensures err { IfErr result (IsMemoryOr ErrorKind.InvalidOperation ((is_plain (tree_of expr) ≡ false) ⊎ (settles_at_top (plain_tree expr) ≡ false))) }
{
    let pruning = Pruning {
        keep: false,
        write: true,
    };
    let node = add_settled(expr, pruning, arena)?;
    let expr_ir = ExprIR::from_node(arena.allocator(), node, arena)?;
    Ok(expr_ir)
}

/// Adds an expression's nodes with its horizontals written out, and with its aliases, but those below a function, which
/// keeps the names that they give. A number without a type at the top, or directly under an alias there, gets the one that
/// it has alone. A marker or a renaming form has no node.
pub fn to_aexpr(expr: Expr, arena: &mut Arena<AExpr>) -> Result<Node, PlanError>
    ensures denotes { IfOk result (λ node. Denotes (HoldsFrom (length arena.old) arena.new) node.0 (pruned true true (settled_at_top (plain_tree expr)))) }
    ensures grows { Grows arena.old arena.new }
    ensures plain { OnOk result (is_plain (tree_of expr) ≡ true) }
    ensures typed { OnOk result (settles_at_top (plain_tree expr) ≡ true) }
    ensures err { IfErr result (IsMemoryOr ErrorKind.InvalidOperation ((is_plain (tree_of expr) ≡ false) ⊎ (settles_at_top (plain_tree expr) ≡ false))) }
{
    let pruning = Pruning {
        keep: true,
        write: true,
    };
    let node = add_settled(expr, pruning, arena)?;
    Ok(node)
}

/// Adds the nodes of an expression by itself. A number without a type at its top gets one as `to_aexpr` has it.
pub(crate) fn add_settled(
    expr: Expr,
    pruning: Pruning,
    arena: &mut Arena<AExpr>,
) -> Result<Node, PlanError>
    ensures denotes { IfOk result (λ node. Denotes (HoldsFrom (length arena.old) arena.new) node.0 (pruned pruning.keep pruning.write (settled_at_top (plain_tree expr)))) }
    ensures grows { Grows arena.old arena.new }
    ensures plain { OnOk result (is_plain (tree_of expr) ≡ true) }
    ensures typed { OnOk result (settles_at_top (plain_tree expr) ≡ true) }
    ensures err { IfErr result (IsMemoryOr ErrorKind.InvalidOperation ((is_plain (tree_of expr) ≡ false) ⊎ (settles_at_top (plain_tree expr) ≡ false))) }
{
    if !expr.is_plain() {
        drop(expr);
        return Err(PlanError::at_top(ErrorKind::InvalidOperation));
    }
    if !settles_at_top(&expr) {
        drop(expr);
        return Err(PlanError::at_top(ErrorKind::InvalidOperation));
    }
    let mut expr = expr;
    settle_at_top(&mut expr);
    let node = add_nodes(expr, pruning, arena)?;
    Ok(node)
}

// The node under the alias, or under the name of the expression there.
fn under_name(
    node: Node,
    alias: Option<OutputName>,
    arena: &Arena<AExpr>,
) -> Result<ExprIR, PlanError>
    requires set { IfSome alias (λ name. name ≢ OutputName.None) }
    requires tree { DenotesTree (HoldsExpression arena.now) node.0 }
    ensures node { IfOk result (λ expr_ir. (named_node expr_ir).expression ≡ node.0) }
    ensures name { IfOk result (λ expr_ir. (tree : Expression) → Denotes (HoldsExpression arena.now) node.0 tree →
        (named_node expr_ir).label ≡ option_map_or output_label alias (label_of tree)) }
    ensures err { IfErr result (λ error. error ≡ no_memory) }
{
    match alias {
        Some(name) => Ok(ExprIR::new(node, name)),
        None => {
            let expr_ir = ExprIR::from_node(arena.allocator(), node, arena)?;
            Ok(expr_ir)
        }
    }
}

/// The alias that names an expression. One without has the name that it has without aliases.
pub(crate) fn alias_name(expr: &Expr, alloc: Global) -> Result<Option<OutputName>, PlanError>
    ensures ok { IfOk result (λ alias. IsNamedUnder alias (plain_tree expr.now)) }
    ensures set { IfOk result (λ alias. IfSome alias (λ name. name ≢ OutputName.None)) }
    ensures err { IfErr result (λ error. error ≡ no_memory) }
{
    match first_alias(expr) {
        Some(name) => {
            let name = name.try_clone(alloc)?;
            Ok(Some(OutputName::Alias(name)))
        }
        None => Ok(None),
    }
}

// The topmost alias on the way down first operands, but not below a function that is never written out, which keeps its
// operands' names.
fn first_alias(expr: &Expr) -> Option<&PlSmallStr>
    ensures { MatchOption result (IsNamedAlone (plain_tree expr.now)) (λ name. label_of (plain_tree expr.now) ≡ alias_label name.now) }
{
    match expr {
        Expr::Alias(_, name) => Some(name),
        Expr::BinaryExpr { left, .. } => first_alias(left),
        Expr::Cast { expr, .. }
        | Expr::Gather { expr, .. }
        | Expr::Sort { expr, .. }
        | Expr::SortBy { expr, .. } => first_alias(expr),
        Expr::Explode(input) | Expr::Slice { input, .. } | Expr::Filter { input, .. } => {
            first_alias(input)
        }
        Expr::Agg(aggregate) => first_alias(aggregate.as_ref()),
        Expr::Window { function, .. } => first_alias(function),
        Expr::Ternary { truthy, .. } => first_alias(truthy),
        Expr::Function { input, function } => {
            match first_written(function, input) {
                Some(first) => first_alias(first),
                None => None,
            }
        }
        Expr::Column(_)
        | Expr::Literal(_)
        | Expr::Len
        | Expr::Columns(_)
        | Expr::DtypeColumn(_)
        | Expr::IndexColumn(_)
        | Expr::Nth(_)
        | Expr::Wildcard
        | Expr::Exclude(_, _)
        | Expr::Selector(_)
        | Expr::KeepName(_)
        | Expr::RenameAlias { .. } => None,
    }
}

/// Adds an expression's nodes, inputs first.
#[cycle(nodes)]
pub(crate) fn add_nodes(
    expr: Expr,
    pruning: Pruning,
    arena: &mut Arena<AExpr>,
) -> Result<Node, PlanError>
    requires plain { is_plain (tree_of expr) ≡ true }
    ensures denotes { IfOk result (λ node. Denotes (HoldsFrom (length arena.old) arena.new) node.0 (pruned pruning.keep pruning.write (plain_tree expr))) }
    ensures grows { Grows arena.old arena.new }
    ensures err { IfErr result (λ error. error ≡ no_memory) }
{
    // Most expressions are columns and operators. What the others need in wide places is in a function of its own.
    match expr {
        Expr::Column(name) => {
            let node = arena.add(AExpr::Column(name))?;
            Ok(node)
        }
        Expr::BinaryExpr { left, op, right } => {
            let left = add_below(left, pruning, arena)?;
            let right = add_below(right, pruning, arena)?;
            let node = arena.add(AExpr::BinaryExpr { left, op, right })?;
            Ok(node)
        }
        expr => add_rarer(expr, pruning, arena),
    }
}

// Adds the nodes of an expression that is no column and no operator, inputs first.
#[cycle(nodes)]
#[inline(never)]
fn add_rarer(expr: Expr, pruning: Pruning, arena: &mut Arena<AExpr>) -> Result<Node, PlanError>
    requires plain { is_plain (tree_of expr) ≡ true }
    requires rarer { IsRarer expr }
    ensures denotes { IfOk result (λ node. Denotes (HoldsFrom (length arena.old) arena.new) node.0 (pruned pruning.keep pruning.write (plain_tree expr))) }
    ensures grows { Grows arena.old arena.new }
    ensures err { IfErr result (λ error. error ≡ no_memory) }
{
    match expr {
        Expr::Alias(below, name) => {
            let below = add_nodes(Box::into_inner(below), pruning, arena)?;
            if !pruning.keep {
                return Ok(below);
            }
            let node = arena.add(AExpr::Alias(below, name))?;
            Ok(node)
        }
        Expr::Function { input, function } => add_function(input, function, pruning, arena),
        expr => {
            let item = add_inputs(expr, pruning, arena)?;
            let node = arena.add(item)?;
            Ok(node)
        }
    }
}

// The item of an expression by its kind: of those that are listed its inputs are added, and its other fields kept. The
// other kinds are told.
macro_rules! item_over {
    ($expr:ident, $pruning:ident, $arena:ident, [$($pattern:pat => $made:expr),*], $($kind:ident { $($input:ident),* } [$($other:ident),*])*) => {
        match $expr {
            $(Expr::$kind { $($input,)* $($other),* } => {
                $(let $input = add_below($input, $pruning, $arena)?;)*
                Ok(AExpr::$kind { $($input,)* $($other),* })
            })*
            $($pattern => $made),*
        }
    };
}

// Adds the nodes of an expression in a box, so that no caller keeps an expression on the stack.
#[cycle(nodes)]
fn add_below(expr: Box<Expr>, pruning: Pruning, arena: &mut Arena<AExpr>) -> Result<Node, PlanError>
    requires plain { is_plain (tree_of expr.value) ≡ true }
    ensures denotes { IfOk result (λ node. Denotes (HoldsFrom (length arena.old) arena.new) node.0 (pruned pruning.keep pruning.write (plain_tree expr.value))) }
    ensures grows { Grows arena.old arena.new }
    ensures err { IfErr result (λ error. error ≡ no_memory) }
{
    add_nodes(Box::into_inner(expr), pruning, arena)
}

// Adds the nodes of an expression's inputs, and answers its item over them. A marker or a renaming form has none, functions
// are for `add_function`, columns and operators for `add_nodes`.
#[cycle(nodes)]
fn add_inputs(expr: Expr, pruning: Pruning, arena: &mut Arena<AExpr>) -> Result<AExpr, PlanError>
    requires plain { is_plain (tree_of expr) ≡ true }
    requires rarer { IsRarer expr }
    requires other { (input : Exprs) (function : FunctionExpr) → expr ≢ Expr.Function input function }
    ensures ok { IfOk result (IsItemOf (length arena.old) arena.new (over_inputs pruning.keep pruning.write (plain_tree expr))) }
    ensures grows { Grows arena.old arena.new }
    ensures err { IfErr result (λ error. error ≡ no_memory) }
{
    if expr.has_several() {
        add_several(expr, pruning, arena)
    } else {
        add_others(expr, pruning, arena)
    }
}

// The item of an expression over none, over one, or over one and lists, whose inputs are added first.
#[cycle(nodes)]
fn add_others(expr: Expr, pruning: Pruning, arena: &mut Arena<AExpr>) -> Result<AExpr, PlanError>
    requires plain { is_plain (tree_of expr) ≡ true }
    requires rarer { IsRarer expr }
    requires other { (input : Exprs) (function : FunctionExpr) → expr ≢ Expr.Function input function }
    requires few { has_several (top_op (tree_of expr)) ≡ false }
    ensures ok { IfOk result (IsItemOf (length arena.old) arena.new (over_inputs pruning.keep pruning.write (plain_tree expr))) }
    ensures grows { Grows arena.old arena.new }
    ensures err { IfErr result (λ error. error ≡ no_memory) }
{
    item_over!(expr, pruning, arena, [
            Expr::Literal(value) => Ok(AExpr::Literal(value)),
            Expr::Len => Ok(AExpr::Len),
            Expr::Explode(input) => {
                let input = add_below(input, pruning, arena)?;
                Ok(AExpr::Explode(input))
            },
            Expr::Alias(input, name) => {
                let input = add_below(input, pruning, arena)?;
                Ok(AExpr::Alias(input, name))
            },
            Expr::Agg(aggregate) => {
                let method = aggregate.method();
                let input = add_below(aggregate.into_input(), pruning, arena)?;
                Ok(AExpr::Agg(IRAggExpr::of(method, input)))
            },
            Expr::SortBy { expr, by, sort_options } => {
                let expr = add_below(expr, pruning, arena)?;
                let by = add_each(by, pruning, arena)?;
                Ok(AExpr::SortBy { expr, by, sort_options })
            },
            Expr::Window { function, partition_by, order_by, options } => {
                let function = add_below(function, pruning, arena)?;
                let order_by = add_order(order_by, pruning, arena)?;
                let partition_by = add_each(partition_by, pruning, arena)?;
                Ok(AExpr::Window { function, partition_by, order_by, options })
            },
            Expr::Column(_) | Expr::BinaryExpr { .. } | Expr::Slice { .. } | Expr::Gather { .. } | Expr::Filter { .. }
            | Expr::Ternary { .. } | Expr::Columns(_) | Expr::DtypeColumn(_) | Expr::IndexColumn(_) | Expr::Nth(_) | Expr::Wildcard
            | Expr::Exclude(_, _) | Expr::Selector(_) | Expr::KeepName(_) | Expr::RenameAlias { .. }
            | Expr::Function { .. } => unreachable!()
        ],
        Cast { expr } [dtype, options]
        Sort { expr } [options]
    )
}

// The item of an expression over two inputs or three that is no operator, whose inputs are added first.
#[cycle(nodes)]
fn add_several(expr: Expr, pruning: Pruning, arena: &mut Arena<AExpr>) -> Result<AExpr, PlanError>
    requires plain { is_plain (tree_of expr) ≡ true }
    requires rarer { IsRarer expr }
    requires several { has_several (top_op (tree_of expr)) ≡ true }
    ensures ok { IfOk result (IsItemOf (length arena.old) arena.new (over_inputs pruning.keep pruning.write (plain_tree expr))) }
    ensures grows { Grows arena.old arena.new }
    ensures err { IfErr result (λ error. error ≡ no_memory) }
{
    item_over!(expr, pruning, arena, [_ => unreachable!()],
        Slice { input, offset, length } []
        Gather { expr, idx } [returns_scalar]
        Filter { input, by } []
        Ternary { truthy, predicate, falsy } []
    )
}

// Adds the nodes of what orders the groups of a window, if anything does.
#[cycle(nodes)]
fn add_order(
    order: Option<(Box<Expr>, SortOptions)>,
    pruning: Pruning,
    arena: &mut Arena<AExpr>,
) -> Result<Option<(Node, SortOptions)>, PlanError>
    requires plain { list_all is_plain (order_trees order) ≡ true }
    ensures way { IfOk result (λ by. ordered by ≡ way_of order) }
    ensures ok { IfOk result (λ by. DenoteAll (HoldsFrom (length arena.old) arena.new) (ordering by) (all_pruned pruning.keep pruning.write (children_from (map unwritten (order_trees order))))) }
    ensures grows { Grows arena.old arena.new }
    ensures err { IfErr result (λ error. error ≡ no_memory) }
{
    match order {
        None => Ok(None),
        Some((expr, options)) => {
            let node = add_nodes(Box::into_inner(expr), pruning, arena)?;
            Ok(Some((node, options)))
        }
    }
}

// Adds the nodes of expressions, one after the other.
#[cycle(nodes)]
fn add_each(exprs: Exprs, pruning: Pruning, arena: &mut Arena<AExpr>) -> Result<NodeList, PlanError>
    requires plain { list_all is_plain (trees_of exprs) ≡ true }
    ensures ok { IfOk result (λ nodes. DenoteAll (HoldsFrom (length arena.old) arena.new) (numbers nodes.items.items) (all_pruned pruning.keep pruning.write (children_from (plain_trees exprs)))) }
    ensures grows { Grows arena.old arena.new }
    ensures err { IfErr result (λ error. error ≡ no_memory) }
{
    let mut items = Vec::new(arena.allocator());
    for expr in exprs.items {
        let node = add_nodes(expr, pruning, arena)?;
        items.push(node)?;
    }
    Ok(NodeList { items })
}

// Adds the nodes of a function over its operands. A horizontal over few of them is written out, where they are.
#[cycle(nodes)]
fn add_function(
    input: Exprs,
    function: FunctionExpr,
    pruning: Pruning,
    arena: &mut Arena<AExpr>,
) -> Result<Node, PlanError>
    requires plain { list_all is_plain (trees_of input) ≡ true }
    ensures denotes { IfOk result (λ top. Denotes (HoldsFrom (length arena.old) arena.new) top.0 (pruned pruning.keep pruning.write (node (FunctionOp function []) (children_from (plain_trees input))))) }
    ensures grows { Grows arena.old arena.new }
    ensures err { IfErr result (λ error. error ≡ no_memory) }
{
    match Chaining::of(&function, input.items.as_slice().len(), pruning.write) {
        Some(chaining) => add_chained(input, chaining, pruning, arena),
        None => {
            let input = add_recorded(input, pruning.write, arena)?;
            let node = arena.add(AExpr::Function { input, function })?;
            Ok(node)
        }
    }
}

// Adds the nodes of a horizontal that is written out: each operator right behind its second operand.
#[cycle(nodes)]
fn add_chained(
    exprs: Exprs,
    chaining: Chaining,
    pruning: Pruning,
    arena: &mut Arena<AExpr>,
) -> Result<Node, PlanError>
    requires plain { list_all is_plain (trees_of exprs) ≡ true }
    ensures denotes { IfOk result (λ node. Denotes (HoldsFrom (length arena.old) arena.new) node.0 (chained chaining.operator chaining.nothing (all_pruned pruning.keep pruning.write (children_from (plain_trees exprs))))) }
    ensures grows { Grows arena.old arena.new }
    ensures err { IfErr result (λ error. error ≡ no_memory) }
{
    let count = exprs.items.as_slice().len();
    let mut so_far = None;
    for expr in exprs.items {
        let node = add_nodes(expr, pruning, arena)?;
        let top = chaining.put_behind(so_far, node, arena)?;
        so_far = Some(top);
    }
    let node = chaining.whole(so_far, count, arena)?;
    Ok(node)
}

// Adds the nodes of a function's operands without their aliases, one after the other, and keeps their names.
#[cycle(nodes)]
fn add_recorded(exprs: Exprs, write: bool, arena: &mut Arena<AExpr>) -> Result<ExprIRs, PlanError>
    requires plain { list_all is_plain (trees_of exprs) ≡ true }
    ensures names { IfOk result (λ input. recorded input.items.items ≡ map label_of (plain_trees exprs)) }
    ensures ok { IfOk result (λ input. DenoteAll (HoldsFrom (length arena.old) arena.new) (numbers_named input.items.items) (all_pruned false write (children_from (plain_trees exprs)))) }
    ensures grows { Grows arena.old arena.new }
    ensures err { IfErr result (λ error. error ≡ no_memory) }
{
    let mut items = Vec::new(arena.allocator());
    for expr in exprs.items {
        let expr_ir = add_under_name(expr, write, arena)?;
        items.push(expr_ir)?;
    }
    Ok(ExprIRs { items })
}

// Adds an expression's nodes without its aliases, and answers the top one with the expression's name.
#[cycle(nodes)]
fn add_under_name(expr: Expr, write: bool, arena: &mut Arena<AExpr>) -> Result<ExprIR, PlanError>
    requires plain { is_plain (tree_of expr) ≡ true }
    ensures name { IfOk result (λ expr_ir. (named_node expr_ir).label ≡ label_of (plain_tree expr)) }
    ensures denotes { IfOk result (λ expr_ir. Denotes (HoldsFrom (length arena.old) arena.new) (named_node expr_ir).expression (pruned false write (plain_tree expr))) }
    ensures grows { Grows arena.old arena.new }
    ensures err { IfErr result (λ error. error ≡ no_memory) }
{
    match alias_name(&expr, arena.allocator()) {
        Ok(alias) => {
            let pruning = Pruning { keep: false, write };
            let node = add_nodes(expr, pruning, arena)?;
            let expr_ir = under_name(node, alias, arena)?;
            Ok(expr_ir)
        }
        Err(error) => {
            drop(expr);
            Err(error)
        }
    }
}
