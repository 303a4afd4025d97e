//! Fields of expressions of any size.
ghost use Rattle.plan_arena.specs.Items.{expression_layer};
ghost use Rattle.plan_infer.specs.ItemTrees.{HasOperands};

use crate::fixtures::{NO_MEMORY, assert_number};
use crate::schemas::schema_of;
use crate::sums::sum_of;
use plan_arena::aexpr::AExpr;
use plan_arena::arena::{Arena, Node};
use plan_dsl::udfs::Udfs;
use plan_infer::aexpr_field::{AExprFields, AExprTyping, ToFieldContext};
use plan_infer::expr_ir_field::ExprIRTyping;
use plan_infer::field::Context;
use plan_infer::taken_types::TakenTypes;
use plan_infer::type_table::{Inferred, TypeTable};
use plan_lower::conversion::expr_field::ExprTyping;
use plan_lower::conversion::expr_to_ir::{to_aexpr, to_expr_ir};
use plan_types::dtype::DataType;
use plan_types::schema::Schema;
use std::alloc::Global;
use std::process::Abort;

// The field of so many additions is told, in groups.
fn ask_sum(rt: &impl Abort, alloc: Global, schema: &Schema, additions: usize) {
    let udfs = Udfs::new(alloc);
    let sum = sum_of(alloc, "part 0", additions).expect(rt, NO_MEMORY);
    let field = sum.to_field(alloc, schema, Context::Aggregation, &udfs);
    drop(field.expect(rt, NO_MEMORY));
    drop(sum);
}

#[test]
fn fields_of_sums_of_any_length_are_told(rt: HostRuntime) {
    let schema = schema_of(&rt, rt.alloc(), 1, &DataType::Int8);
    for additions in [0, 1, 2, 1_000] {
        ask_sum(&rt, rt.alloc(), &schema, additions);
    }
    drop(schema);
}

// The field of so many additions is told of a recorded expression.
fn ask_recorded(rt: &impl Abort, alloc: Global, schema: &Schema, additions: usize) {
    let udfs = Udfs::new(alloc);
    let mut arena = Arena::new(alloc);
    let sum = sum_of(alloc, "part 0", additions).expect(rt, NO_MEMORY);
    match to_expr_ir(sum, &mut arena) {
        Err(_) => panic!(rt; "{NO_MEMORY}"),
        Ok(expr) => {
            let field = expr.field(alloc, schema, Context::Default, &arena, &udfs);
            drop(field.expect(rt, NO_MEMORY));
            drop(expr);
        }
    }
    drop(arena);
}

// The type and the field of an item are told, alone and in groups.
fn ask_types(
    rt: &impl Abort,
    alloc: Global,
    item: &AExpr,
    schema: &Schema,
    arena: &Arena<AExpr>,
    udfs: &Udfs,
)
    requires { HasOperands arena.now (expression_layer item.now) }
{
    let dtype = item.to_dtype(alloc, schema, Context::Default, arena, udfs);
    drop(dtype.expect(rt, NO_MEMORY));
    let dtype = item.get_type(alloc, schema, Context::Aggregation, arena, udfs);
    drop(dtype.expect(rt, NO_MEMORY));
    let field = item.to_field_and_validate(alloc, schema, Context::Default, arena, udfs);
    drop(field.expect(rt, NO_MEMORY));
}

// The field of so many additions is told of the item on top, which is many.
fn ask_item(rt: &impl Abort, alloc: Global, schema: &Schema, additions: usize) {
    let udfs = Udfs::new(alloc);
    let mut arena = Arena::new(alloc);
    let sum = sum_of(alloc, "part 0", additions).expect(rt, NO_MEMORY);
    match to_aexpr(sum, &mut arena) {
        Err(_) => panic!(rt; "{NO_MEMORY}"),
        Ok(node) => {
            let context = ToFieldContext {
                schema,
                ctx: Context::Default,
                arena: &arena,
                udfs: &udfs,
            };
            let mut many = true;
            assert!(rt; node.0 < arena.len());
            ask_types(rt, alloc, arena.get(node), schema, &arena, &udfs);
            let field = arena.get(node).to_field_impl(alloc, &context, &mut many);
            drop(field.expect(rt, NO_MEMORY));
            assert!(rt; many);
        }
    }
    drop(arena);
}

#[test]
fn fields_of_nodes_of_any_depth_are_told(rt: HostRuntime) {
    let schema = schema_of(&rt, rt.alloc(), 1, &DataType::Int8);
    for additions in [0, 1, 2, 1_000] {
        ask_recorded(&rt, rt.alloc(), &schema, additions);
        ask_item(&rt, rt.alloc(), &schema, additions);
    }
    drop(schema);
}

// A type that is kept for a node, in front of all that are.
fn keep_in_front(rt: &impl Abort, node: usize, types: &mut TypeTable) {
    let own = Inferred {
        name: Node(node),
        dtype: DataType::Int8,
        many: true,
        operands: TakenTypes::none(),
    };
    types.keep(Node(node), own).expect(rt, NO_MEMORY);
}

#[test]
fn types_are_kept_in_front_of_any_number(rt: HostRuntime) {
    for count in [1, 2, 1_000] {
        let mut types = TypeTable::new(rt.alloc());
        for number in 0..count {
            keep_in_front(&rt, 2 * (count - number), &mut types);
        }
        assert_number(&rt, types.len(), count);
        drop(types);
    }
}
