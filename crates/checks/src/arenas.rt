//! Arenas of any size, names of outputs, and expressions of lowered plans.

use crate::fixtures::{LENGTHS, NO_MEMORY, long_name};
use plan_arena::aexpr::AExpr;
use plan_arena::arena::{Arena, Node};
use plan_arena::expr_ir::{ColumnNode, ExprIR, OutputName};
use plan_types::dtype::DataType;
use std::alloc::Global;
use std::process::Abort;

/// How many items the tests put into an arena.
const COUNTS: [usize; 4] = [0, 1, 2, 10_000];

// An arena of the numbers below that one.
fn numbers_below(rt: &impl Abort, alloc: Global, count: usize) -> Arena<usize> {
    let mut arena = Arena::new(alloc);
    for number in 0..count {
        let node = arena.add(number).expect(rt, NO_MEMORY);
        assert!(rt; node == Node(number));
    }
    arena
}

#[test]
fn last_items_are_taken_away(rt: HostRuntime) {
    for count in COUNTS {
        let mut arena = numbers_below(&rt, rt.alloc(), count);
        for number in (0..count).rev() {
            assert!(rt; arena.last_node() == Some(Node(number)));
            assert!(rt; arena.pop() == Some(number));
        }
        assert!(rt; arena.last_node().is_none());
        assert!(rt; arena.pop().is_none());
    }
}

// The item of the number is replaced by 5, which is taken, and then set to 7.
fn change(rt: &impl Abort, arena: &mut Arena<usize>, number: usize) {
    assert!(rt; number < arena.len());
    let before = arena.replace(Node(number), 5);
    assert!(rt; before == number);
    assert!(rt; number < arena.len());
    let taken = arena.take(Node(number));
    assert!(rt; taken == 5);
    assert!(rt; number < arena.len());
    let item = arena.get_mut(Node(number));
    assert!(rt; *item == 0);
    *item = 7;
}

#[test]
fn items_are_changed_one_by_one(rt: HostRuntime) {
    for count in COUNTS {
        let mut arena = numbers_below(&rt, rt.alloc(), count);
        for number in 0..count {
            change(&rt, &mut arena, number);
        }
        for _ in 0..count {
            assert!(rt; arena.pop() == Some(7));
        }
    }
}

// Inputs of a slice are appended from the last on, behind those that stand there.
#[test]
fn inputs_are_appended_in_reverse(rt: HostRuntime) {
    let slice = AExpr::Slice {
        input: Node(1),
        offset: Node(2),
        length: Node(3),
    };
    let length = AExpr::Len;
    for count in COUNTS {
        let mut nodes = length.inputs(rt.alloc()).expect(&rt, NO_MEMORY);
        for _ in 0..count {
            slice.inputs_rev(&mut nodes).expect(&rt, NO_MEMORY);
        }
        let three = [Node(3), Node(2), Node(1)];
        let want = three
            .as_slice()
            .repeat(rt.alloc(), count)
            .expect(&rt, NO_MEMORY);
        assert!(rt; nodes.as_slice() == want.as_slice());
        drop(nodes);
        drop(want);
    }
    drop(length);
    drop(slice);
}

// The expression is copied, and a copy that keeps a type is copied with it.
fn assert_copied(rt: &impl Abort, alloc: Global, expr_ir: ExprIR) {
    let copy = expr_ir.try_clone(alloc).expect(rt, NO_MEMORY);
    let typed = copy.with_dtype(DataType::Int8);
    let copy = typed.try_clone(alloc).expect(rt, NO_MEMORY);
    drop(typed);
    assert_same(rt, &copy, &expr_ir);
    drop(copy);
    drop(expr_ir);
}

// Both are the same, at the fourth node.
fn assert_same(rt: &impl Abort, copy: &ExprIR, expr_ir: &ExprIR) {
    assert!(rt; *copy == *expr_ir);
    assert!(rt; Node::from(copy.as_ref()) == Node(3));
}

#[test]
fn expressions_are_copied(rt: HostRuntime) {
    for length in LENGTHS {
        let name = OutputName::LiteralLhs(long_name(&rt, rt.alloc(), length));
        assert_copied(&rt, rt.alloc(), ExprIR::new(Node(3), name));
        let name = OutputName::ColumnLhs(long_name(&rt, rt.alloc(), length));
        assert_copied(&rt, rt.alloc(), ExprIR::new(Node(3), name));
        let name = OutputName::Alias(long_name(&rt, rt.alloc(), length));
        assert_copied(&rt, rt.alloc(), ExprIR::new(Node(3), name));
        let name = OutputName::Field(long_name(&rt, rt.alloc(), length));
        assert_copied(&rt, rt.alloc(), ExprIR::new(Node(3), name));
    }
    let none = OutputName::None.try_clone(rt.alloc());
    drop(none.expect(&rt, NO_MEMORY));
    assert!(rt; Node::from(ColumnNode(Node(3))) == Node(3));
}
