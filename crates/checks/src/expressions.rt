//! Literals, operators and expressions.

use crate::fixtures::{LENGTHS, NO_MEMORY, assert_alike, assert_text, column, long_name};
use crate::keys::flags;
use plan_dsl::aggregate::AggExpr;
use plan_dsl::expr::{Expr, Exprs};
use plan_dsl::function_expr::FunctionExpr;
use plan_dsl::literal::LiteralValue;
use plan_dsl::marker::RenameAliasFn;
use plan_dsl::operator::Operator;
use plan_dsl::selector::Selector;
use plan_dsl::sort_options::{SortMultipleOptions, SortOptions};
use plan_dsl::window::WindowType;
use plan_types::dtype::TimeUnit::{Microseconds, Milliseconds, Nanoseconds};
use plan_types::dtype::{CastOptions, DataType};
use plan_types::text::PlSmallStr;
use std::alloc::Global;
use std::process::Abort;

fn assert_literal(rt: &impl Abort, alloc: Global, value: &LiteralValue) {
    let copy = value.try_clone(alloc).expect(rt, NO_MEMORY);
    assert_alike(rt, copy, value);
}

#[test]
fn literals_of_each_kind_are_copied(rt: HostRuntime) {
    for value in &[
        LiteralValue::Null,
        LiteralValue::Boolean(true),
        LiteralValue::Int(5),
        LiteralValue::Int8(-128),
        LiteralValue::Int16(32767),
        LiteralValue::Int32(-1),
        LiteralValue::Int64(1),
        LiteralValue::UInt8(255),
        LiteralValue::UInt16(65535),
        LiteralValue::UInt32(1),
        LiteralValue::UInt64(1),
        LiteralValue::Date(-1),
        LiteralValue::Time(0),
        LiteralValue::DateTime(i64::MIN, Nanoseconds),
        LiteralValue::DateTime(-1, Microseconds),
        LiteralValue::Duration(i64::MAX, Milliseconds),
    ] {
        assert_literal(&rt, rt.alloc(), value);
    }
}

// The operator is written as the sign.
fn assert_sign(rt: &impl Abort, alloc: Global, operator: Operator, sign: &str) {
    let text = operator.to_string(alloc).expect(rt, NO_MEMORY);
    assert_text(rt, text.as_str(), sign);
}

#[test]
fn operators_are_written_as_signs(rt: HostRuntime) {
    for (operator, sign) in &[
        (Operator::Eq, "=="),
        (Operator::EqValidity, "==v"),
        (Operator::NotEq, "!="),
        (Operator::NotEqValidity, "!=v"),
        (Operator::Lt, "<"),
        (Operator::LtEq, "<="),
        (Operator::Gt, ">"),
        (Operator::GtEq, ">="),
        (Operator::Plus, "+"),
        (Operator::Minus, "-"),
        (Operator::Multiply, "*"),
        (Operator::Divide, "//"),
        (Operator::FloorDivide, "floor_div"),
        (Operator::Modulus, "%"),
        (Operator::And, "&"),
        (Operator::Or, "|"),
        (Operator::Xor, "^"),
        (Operator::LogicalAnd, "&"),
        (Operator::LogicalOr, "|"),
    ] {
        assert_sign(&rt, rt.alloc(), *operator, sign);
    }
}

/// A kind of expression, by the operand that is nested.
#[derive(Clone, Copy)]
pub(crate) enum Kind {
    Left,
    Right,
    Cast,
    Slice,
    Explode,
    Gather,
    Index,
    Filter,
    Condition,
    Sort,
    Alias,
    Aggregate,
    Windowed,
    Partition,
    Ordered,
    Key,
    Truthy,
    Predicate,
    Falsy,
    Filled,
    Filling,
    Excluded,
    Selected,
    Kept,
    Renamed,
}

pub(crate) fn boxed(rt: &impl Abort, alloc: Global, expr: Expr) -> Box<Expr> {
    Box::new(alloc, expr).expect(rt, NO_MEMORY)
}

// The literal in a box.
fn literal(rt: &impl Abort, alloc: Global, value: LiteralValue) -> Box<Expr> {
    boxed(rt, alloc, Expr::Literal(value))
}

/// The sum of both.
pub(crate) fn plus(left: Box<Expr>, right: Box<Expr>) -> Expr {
    Expr::BinaryExpr {
        left,
        op: Operator::Plus,
        right,
    }
}

fn gathered(expr: Box<Expr>, idx: Box<Expr>) -> Expr {
    Expr::Gather {
        expr,
        idx,
        returns_scalar: false,
    }
}

fn sorted(expr: Box<Expr>) -> Expr {
    Expr::Sort {
        expr,
        options: SortOptions {
            descending: false,
            nulls_last: true,
        },
    }
}

// Nothing, sorted by the key.
fn sorted_by(rt: &impl Abort, alloc: Global, key: Box<Expr>) -> Expr {
    Expr::SortBy {
        expr: literal(rt, alloc, LiteralValue::Null),
        by: Exprs {
            items: vec![in alloc; Box::into_inner(key)].expect(rt, NO_MEMORY),
        },
        sort_options: SortMultipleOptions {
            descending: flags(rt, alloc, 1),
            nulls_last: flags(rt, alloc, 1),
        },
    }
}

// A function over the groups of a key, in order if something orders them.
fn windowed(
    rt: &impl Abort,
    alloc: Global,
    function: Box<Expr>,
    key: Box<Expr>,
    order: Option<(Box<Expr>, SortOptions)>,
) -> Expr {
    Expr::Window {
        function,
        partition_by: Exprs {
            items: vec![in alloc; Box::into_inner(key)].expect(rt, NO_MEMORY),
        },
        order_by: order,
        options: WindowType::GroupsToRows,
    }
}

fn ordered(rt: &impl Abort, alloc: Global, by: Box<Expr>) -> Expr {
    let options = SortOptions {
        descending: true,
        nulls_last: false,
    };
    let one = literal(rt, alloc, LiteralValue::Null);
    let key = literal(rt, alloc, LiteralValue::Null);
    windowed(rt, alloc, one, key, Some((by, options)))
}

// What is `truthy` where the predicate is true, and `falsy` elsewhere.
fn ternary(predicate: Box<Expr>, truthy: Box<Expr>, falsy: Box<Expr>) -> Expr {
    Expr::Ternary {
        predicate,
        truthy,
        falsy,
    }
}

// The first, and where it is null the second.
fn filled(rt: &impl Abort, alloc: Global, first: Box<Expr>, second: Box<Expr>) -> Expr {
    let items = vec![in alloc; Box::into_inner(first), Box::into_inner(second)];
    Expr::Function {
        input: Exprs {
            items: items.expect(rt, NO_MEMORY),
        },
        function: FunctionExpr::FillNull,
    }
}

// A ternary or a function over the operand, at the place that the kind says.
fn chosen(rt: &impl Abort, alloc: Global, kind: Kind, operand: Box<Expr>) -> Expr {
    let number = literal(rt, alloc, LiteralValue::Int(1));
    let truth = literal(rt, alloc, LiteralValue::Boolean(true));
    match kind {
        Kind::Truthy => ternary(truth, operand, number),
        Kind::Predicate => ternary(operand, truth, number),
        Kind::Falsy => ternary(truth, number, operand),
        Kind::Filled => filled(rt, alloc, operand, number),
        _ => filled(rt, alloc, number, operand),
    }
}

fn text(rt: &impl Abort, alloc: Global) -> PlSmallStr {
    PlSmallStr::new(alloc, "x").expect(rt, NO_MEMORY)
}

// The expression of the kind over the operand.
fn over(rt: &impl Abort, alloc: Global, kind: Kind, operand: Box<Expr>) -> Expr {
    match kind {
        Kind::Left => plus(operand, literal(rt, alloc, LiteralValue::Int(1))),
        Kind::Right => plus(literal(rt, alloc, LiteralValue::Int(1)), operand),
        Kind::Cast => Expr::Cast {
            expr: operand,
            dtype: DataType::Int64,
            options: CastOptions::Strict,
        },
        Kind::Slice => Expr::Slice {
            input: operand,
            offset: literal(rt, alloc, LiteralValue::Int(0)),
            length: literal(rt, alloc, LiteralValue::Int(1)),
        },
        Kind::Explode => Expr::Explode(operand),
        Kind::Gather => gathered(operand, literal(rt, alloc, LiteralValue::Int(0))),
        Kind::Index => gathered(literal(rt, alloc, LiteralValue::Int(1)), operand),
        Kind::Filter => Expr::Filter {
            input: operand,
            by: literal(rt, alloc, LiteralValue::Boolean(true)),
        },
        Kind::Condition => Expr::Filter {
            input: literal(rt, alloc, LiteralValue::Boolean(true)),
            by: operand,
        },
        Kind::Sort => sorted(operand),
        Kind::Alias => Expr::Alias(operand, text(rt, alloc)),
        Kind::Aggregate => Expr::Agg(AggExpr::Last(operand)),
        Kind::Windowed => {
            let key = literal(rt, alloc, LiteralValue::Null);
            windowed(rt, alloc, operand, key, None)
        }
        Kind::Partition => {
            let one = literal(rt, alloc, LiteralValue::Null);
            windowed(rt, alloc, one, operand, None)
        }
        Kind::Ordered => ordered(rt, alloc, operand),
        Kind::Key => sorted_by(rt, alloc, operand),
        Kind::Truthy | Kind::Predicate | Kind::Falsy | Kind::Filled | Kind::Filling => {
            chosen(rt, alloc, kind, operand)
        }
        Kind::Excluded => Expr::Exclude(operand, Vec::new(alloc)),
        Kind::Selected => Expr::Selector(Selector::Root(operand)),
        Kind::Kept => Expr::KeepName(operand),
        Kind::Renamed => Expr::RenameAlias {
            function: RenameAliasFn::Fixed(text(rt, alloc)),
            expr: operand,
        },
    }
}

/// So many expressions of the kind, one over another, and the lowest over that expression.
pub(crate) fn nested(
    rt: &impl Abort,
    alloc: Global,
    kind: Kind,
    levels: usize,
    lowest: Expr,
) -> Expr {
    let mut expr = lowest;
    for _ in 0..levels {
        expr = over(rt, alloc, kind, boxed(rt, alloc, expr));
    }
    expr
}

/// The expression is copied.
pub(crate) fn assert_copied(rt: &impl Abort, alloc: Global, expr: Expr) {
    let copy = expr.try_clone(alloc).expect(rt, NO_MEMORY);
    assert_alike(rt, copy, &expr);
    drop(expr);
}

#[test]
fn columns_and_literals_of_any_length_are_copied(rt: HostRuntime) {
    for length in LENGTHS {
        let expr = Expr::Column(long_name(&rt, rt.alloc(), length));
        assert_copied(&rt, rt.alloc(), expr);
        let expr = Expr::Literal(LiteralValue::String(long_name(&rt, rt.alloc(), length)));
        assert_copied(&rt, rt.alloc(), expr);
    }
}

// So many expressions of the kind, one over another, are copied.
fn assert_nested(rt: &impl Abort, alloc: Global, kind: Kind, levels: usize) {
    let lowest = column(rt, alloc, "a");
    let expr = nested(rt, alloc, kind, levels, lowest);
    assert_copied(rt, alloc, expr);
}

#[test]
fn expressions_of_any_depth_are_copied(rt: HostRuntime) {
    for kind in &[
        Kind::Left,
        Kind::Right,
        Kind::Cast,
        Kind::Slice,
        Kind::Explode,
        Kind::Gather,
        Kind::Index,
        Kind::Filter,
        Kind::Condition,
        Kind::Sort,
        Kind::Alias,
        Kind::Aggregate,
        Kind::Windowed,
        Kind::Partition,
        Kind::Ordered,
        Kind::Key,
        Kind::Truthy,
        Kind::Predicate,
        Kind::Falsy,
        Kind::Filled,
        Kind::Filling,
    ] {
        for levels in [0, 1, 2, 299] {
            assert_nested(&rt, rt.alloc(), *kind, levels);
        }
    }
}

#[test]
fn markers_and_renaming_forms_of_any_depth_are_copied(rt: HostRuntime) {
    for kind in &[Kind::Excluded, Kind::Selected, Kind::Kept, Kind::Renamed] {
        for levels in [0, 1, 2, 100] {
            assert_nested(&rt, rt.alloc(), *kind, levels);
        }
    }
}

#[test]
fn aggregates_are_copied(rt: HostRuntime) {
    let input = boxed(&rt, rt.alloc(), column(&rt, rt.alloc(), "part 0"));
    let aggregate = AggExpr::Count(input, true);
    let copy = aggregate.try_clone(rt.alloc()).expect(&rt, NO_MEMORY);
    assert_alike(&rt, copy, &aggregate);
    drop(aggregate);
}
