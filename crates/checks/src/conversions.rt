//! Expressions that become nodes, with their aliases and without.

use crate::expressions::{Kind, nested};
use crate::fixtures::{NO_MEMORY, assert_number, assert_text, column};
use crate::sums::sum_of;
use plan_arena::aexpr::AExpr;
use plan_arena::arena::{Arena, Node};
use plan_arena::expr_ir::OutputName;
use plan_dsl::expr::Expr;
use plan_dsl::literal::LiteralValue;
use plan_dsl::operator::Operator;
use plan_lower::conversion::expr_to_ir::{to_aexpr, to_expr_ir, to_expr_ir_ignore_alias};
use plan_types::error::{ErrorKind, PlanError};
use std::alloc::Global;
use std::process::Abort;

/// How many aliases stand one over another, and how many nodes they and one below become.
const ALIASES: [(usize, usize); 5] = [(0, 1), (1, 2), (2, 3), (99, 100), (1_000, 1_001)];

/// A number that no type has: one past the greatest of UInt64.
const PAST: i128 = 18_446_744_073_709_551_616;

#[test]
fn sums_of_any_length_are_named(rt: HostRuntime) {
    for additions in [0, 1, 2, 1_000] {
        let mut arena = Arena::new(rt.alloc());
        let sum = sum_of(rt.alloc(), "a", additions).expect(&rt, NO_MEMORY);
        let expr_ir = to_expr_ir(sum, &mut arena).expect(&rt, NO_MEMORY);
        assert!(rt; expr_ir.output_name().as_str() == "a");
        assert!(rt; arena.last_node() == Some(expr_ir.node()));
        drop(expr_ir);
        drop(arena);
    }
}

// The expression and b.
fn plus_b(rt: &impl Abort, alloc: Global, left: Expr) -> Expr {
    let right = column(rt, alloc, "b");
    Expr::BinaryExpr {
        left: Box::new(alloc, left).expect(rt, NO_MEMORY),
        op: Operator::Plus,
        right: Box::new(alloc, right).expect(rt, NO_MEMORY),
    }
}

// So many aliases x of a + b.
fn aliased_sum(rt: &impl Abort, alloc: Global, aliases: usize) -> Expr {
    let left = column(rt, alloc, "a");
    let sum = plus_b(rt, alloc, left);
    nested(rt, alloc, Kind::Alias, aliases, sum)
}

// The node is an alias x.
fn assert_alias(rt: &impl Abort, arena: &Arena<AExpr>, number: usize) {
    assert!(rt; number < arena.len());
    match arena.get(Node(number)) {
        AExpr::Alias(_, name) => assert_text(rt, name.as_str(), "x"),
        _ => panic!(rt; "it is an alias"),
    }
}

// All nodes from that number on are aliases x.
fn assert_aliases(rt: &impl Abort, arena: &Arena<AExpr>, first: usize) {
    for number in first..arena.len() {
        assert_alias(rt, arena, number);
    }
}

// The third of so many nodes is the sum of the first two.
fn assert_sum(rt: &impl Abort, arena: &Arena<AExpr>, nodes: usize) {
    assert_number(rt, arena.len(), nodes);
    assert!(rt; 2 < arena.len());
    match arena.get(Node(2)) {
        AExpr::BinaryExpr {
            left: Node(0),
            op: Operator::Plus,
            right: Node(1),
        } => (),
        _ => panic!(rt; "it is a sum"),
    }
}

#[test]
fn aliases_of_any_number_give_the_name_alone(rt: HostRuntime) {
    for (aliases, _) in ALIASES {
        let mut arena = Arena::new(rt.alloc());
        let expr = aliased_sum(&rt, rt.alloc(), aliases);
        let expr_ir = to_expr_ir(expr, &mut arena).expect(&rt, NO_MEMORY);
        assert!(rt; expr_ir.get_alias().is_some() == (aliases > 0));
        assert!(rt; aliases == 0 || expr_ir.output_name().as_str() == "x");
        drop(expr_ir);
        assert_sum(&rt, &arena, 3);
        drop(arena);
    }
}

#[test]
fn aliases_of_any_number_are_left_out(rt: HostRuntime) {
    for (aliases, _) in ALIASES {
        let mut arena = Arena::new(rt.alloc());
        let expr = aliased_sum(&rt, rt.alloc(), aliases);
        let expr_ir = to_expr_ir_ignore_alias(expr, &mut arena).expect(&rt, NO_MEMORY);
        assert!(rt; matches!(expr_ir.output_name_inner(), OutputName::ColumnLhs(_)));
        assert!(rt; expr_ir.output_name().as_str() == "a");
        drop(expr_ir);
        assert_sum(&rt, &arena, 3);
        drop(arena);
    }
}

#[test]
fn aliases_of_any_number_become_nodes(rt: HostRuntime) {
    for (aliases, nodes) in [(0, 3), (1, 4), (2, 5), (99, 102), (1_000, 1_003)] {
        let mut arena = Arena::new(rt.alloc());
        let expr = aliased_sum(&rt, rt.alloc(), aliases);
        let top = to_aexpr(expr, &mut arena).expect(&rt, NO_MEMORY);
        assert!(rt; arena.last_node() == Some(top));
        assert_sum(&rt, &arena, nodes);
        assert_aliases(&rt, &arena, 3);
        drop(arena);
    }
}

// The first of so many nodes is the literal.
fn assert_literal(rt: &impl Abort, arena: &Arena<AExpr>, nodes: usize, value: &LiteralValue) {
    assert_number(rt, arena.len(), nodes);
    assert!(rt; 0 < arena.len());
    match arena.get(Node(0)) {
        AExpr::Literal(found) => assert!(rt; *found == *value),
        _ => panic!(rt; "it is a literal"),
    }
}

// So many aliases of the number.
fn aliased_number(rt: &impl Abort, alloc: Global, number: i128, aliases: usize) -> Expr {
    let lowest = Expr::Literal(LiteralValue::Int(number));
    nested(rt, alloc, Kind::Alias, aliases, lowest)
}

// The number stays without a type.
fn assert_untyped(rt: &impl Abort, alloc: Global, number: i128, aliases: usize) {
    let mut arena = Arena::new(alloc);
    let expr = aliased_number(rt, alloc, number, aliases);
    drop(to_expr_ir(expr, &mut arena).expect(rt, NO_MEMORY));
    let value = LiteralValue::Int(number);
    assert_literal(rt, &arena, 1, &value);
    drop(value);
    drop(arena);
}

#[test]
fn numbers_stay_without_a_type(rt: HostRuntime) {
    for (aliases, _) in ALIASES {
        assert_untyped(&rt, rt.alloc(), 7, aliases);
        assert_untyped(&rt, rt.alloc(), PAST, aliases);
    }
}

// What becomes of the number 7 under so many aliases: at the top, or directly under one, it gets a type.
fn seven_under(aliases: usize) -> LiteralValue {
    if aliases > 1 {
        LiteralValue::Int(7)
    } else {
        LiteralValue::Int32(7)
    }
}

#[test]
fn a_number_gets_a_type_without_its_aliases(rt: HostRuntime) {
    for (aliases, _) in ALIASES {
        let mut arena = Arena::new(rt.alloc());
        let expr = aliased_number(&rt, rt.alloc(), 7, aliases);
        drop(to_expr_ir_ignore_alias(expr, &mut arena).expect(&rt, NO_MEMORY));
        assert_literal(&rt, &arena, 1, &seven_under(aliases));
        drop(arena);
    }
}

#[test]
fn a_number_gets_a_type_under_its_aliases(rt: HostRuntime) {
    for (aliases, nodes) in ALIASES {
        let mut arena = Arena::new(rt.alloc());
        let expr = aliased_number(&rt, rt.alloc(), 7, aliases);
        to_aexpr(expr, &mut arena).expect(&rt, NO_MEMORY);
        assert_literal(&rt, &arena, nodes, &seven_under(aliases));
        assert_aliases(&rt, &arena, 1);
        drop(arena);
    }
}

// The operation is invalid.
fn assert_invalid<T: Drop>(rt: &impl Abort, answer: Result<T, PlanError>) {
    match answer {
        Ok(_) => panic!(rt; "it is refused"),
        Err(error) => assert!(rt; error.kind == ErrorKind::InvalidOperation),
    }
}

// Where a number gets no type, none is asked for.
#[test]
fn a_number_past_each_type_stays_under_two_aliases(rt: HostRuntime) {
    for (aliases, nodes) in [(2, 3), (99, 100), (1_000, 1_001)] {
        let mut arena = Arena::new(rt.alloc());
        let expr = aliased_number(&rt, rt.alloc(), PAST, aliases);
        drop(to_expr_ir_ignore_alias(expr, &mut arena).expect(&rt, NO_MEMORY));
        assert_literal(&rt, &arena, 1, &LiteralValue::Int(PAST));
        drop(arena);
        let mut arena = Arena::new(rt.alloc());
        let expr = aliased_number(&rt, rt.alloc(), PAST, aliases);
        to_aexpr(expr, &mut arena).expect(&rt, NO_MEMORY);
        assert_literal(&rt, &arena, nodes, &LiteralValue::Int(PAST));
        drop(arena);
    }
}

#[test]
fn a_number_past_each_type_is_refused(rt: HostRuntime) {
    for aliases in [0, 1] {
        let mut arena = Arena::new(rt.alloc());
        let expr = aliased_number(&rt, rt.alloc(), PAST, aliases);
        assert_invalid(&rt, to_expr_ir_ignore_alias(expr, &mut arena));
        let expr = aliased_number(&rt, rt.alloc(), PAST, aliases);
        assert_invalid(&rt, to_aexpr(expr, &mut arena));
        drop(arena);
    }
}

#[test]
fn a_count_of_rows_names_a_sum(rt: HostRuntime) {
    let mut arena = Arena::new(rt.alloc());
    let sum = plus_b(&rt, rt.alloc(), Expr::Len);
    let expr_ir = to_expr_ir_ignore_alias(sum, &mut arena).expect(&rt, NO_MEMORY);
    assert!(rt; matches!(expr_ir.output_name_inner(), OutputName::LiteralLhs(_)));
    assert!(rt; expr_ir.output_name().as_str() == "len");
    drop(expr_ir);
    assert_sum(&rt, &arena, 3);
    drop(arena);
}
