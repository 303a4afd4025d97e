//! Properties of expressions that take memory.

use crate::fixtures::{NO_MEMORY, column};
use crate::functions::{columns, function_of, predicates};
use crate::sums::sum_of;
use plan_arena::arena::Arena;
use plan_dsl::expr::Expr;
use plan_dsl::function_expr::FunctionExpr;
use plan_dsl::udfs::Udfs;
use plan_lower::conversion::expr_to_ir::to_aexpr;
use plan_properties::properties::is_elementwise;
use std::alloc::Global;
use std::process::Abort;

// The inputs of the expression's top are appended so often.
fn append_inputs(rt: &impl Abort, alloc: Global, expr: Expr, times: usize) {
    let udfs = Udfs::new(alloc);
    let mut arena = Arena::new(alloc);
    match to_aexpr(expr, &mut arena) {
        Err(_) => panic!(rt; "{NO_MEMORY}"),
        Ok(node) => {
            assert!(rt; node.0 < arena.len());
            let item = arena.get(node);
            let mut nodes = item.inputs(alloc).expect(rt, NO_MEMORY);
            for _ in 0..times {
                let yes = is_elementwise(&mut nodes, item, &arena, &udfs).expect(rt, NO_MEMORY);
                assert!(rt; yes);
            }
            drop(nodes);
        }
    }
    drop(arena);
}

#[test]
fn inputs_of_elementwise_nodes_are_appended(rt: HostRuntime) {
    for times in [0, 1, 2, 1_000] {
        append_inputs(&rt, rt.alloc(), column(&rt, rt.alloc(), "part 0"), times);
        let sum = sum_of(rt.alloc(), "part 0", 1).expect(&rt, NO_MEMORY);
        append_inputs(&rt, rt.alloc(), sum, times);
    }
}

#[test]
fn any_number_of_inputs_is_appended(rt: HostRuntime) {
    append_inputs(&rt, rt.alloc(), predicates(&rt, rt.alloc(), 1), 2);
    for count in [128, 1_000] {
        let input = columns(&rt, rt.alloc(), count);
        let all = function_of(FunctionExpr::AllHorizontal, input);
        append_inputs(&rt, rt.alloc(), all, 2);
    }
}
