//! Rules of one's own at work, over so many nodes.
ghost use Rattle.std.specs.Prelude.{IfOk};
ghost use Rattle.plan_arena.specs.Denotation.{DenotesTree};
ghost use Rattle.plan_arena.specs.Items.{HoldsExpression};

use crate::coercions::{Scope, added, coerce_root};
use crate::expressions::boxed;
use crate::fixtures::{NO_MEMORY, assert_number, column};
use own_rule::op_change_rule::OpChangeRule;
use own_rule::plain_ands::PlainAnds;
use own_rule::relax::relax_casts;
use plan_arena::aexpr::AExpr;
use plan_arena::arena::{Arena, Node};
use plan_dsl::expr::Expr;
use plan_dsl::operator::Operator;
use plan_dsl::udfs::Udfs;
use plan_types::dtype::{CastOptions, DataType};
use plan_types::error::PlanError;
use plan_types::schema::Schema;
use plan_types::text::PlSmallStr;
use std::alloc::Global;
use std::process::Abort;

fn add_column(arena: &mut Arena<AExpr>, name: PlSmallStr) -> Result<Node, PlanError>
    ensures { IfOk result (λ node. DenotesTree (HoldsExpression arena.new) node.0) }
{
    let node = arena.add(AExpr::Column(name))?;
    Ok(node)
}

// A strict cast of a node.
fn add_cast(arena: &mut Arena<AExpr>, input: Node, dtype: DataType) -> Result<Node, PlanError>
    requires { DenotesTree (HoldsExpression arena.old) input.0 }
    ensures { IfOk result (λ node. DenotesTree (HoldsExpression arena.new) node.0) }
{
    let node = arena.add(AExpr::Cast {
        expr: input,
        dtype,
        options: CastOptions::Strict,
    })?;
    Ok(node)
}

// The column a, and so many casts, each over the one before.
fn casts_of(
    alloc: Global,
    arena: &mut Arena<AExpr>,
    dtype: &DataType,
    count: usize,
) -> Result<Node, PlanError>
    ensures { IfOk result (λ node. DenotesTree (HoldsExpression arena.new) node.0) }
{
    let name = PlSmallStr::new(alloc, "a")?;
    let mut node = add_column(arena, name)?;
    for _ in 0..count {
        let dtype = dtype.try_clone(alloc)?;
        node = add_cast(arena, node, dtype)?;
    }
    Ok(node)
}

// The node is a cast, strict or not.
fn assert_cast(rt: &impl Abort, arena: &Arena<AExpr>, number: usize, strict: bool) {
    assert!(rt; number < arena.len());
    match arena.get(Node(number)) {
        AExpr::Cast { options, .. } => assert!(rt; options.strict() == strict),
        _ => panic!(rt; "it is a cast"),
    }
}

// So many casts of a column of the type Int32, of which the first alone may stay strict.
fn relax(rt: &impl Abort, alloc: Global, dtype: &DataType, count: usize, first: bool) {
    let mut schema = Schema::new(alloc);
    let name = PlSmallStr::new(alloc, "a").expect(rt, NO_MEMORY);
    schema
        .with_column(name, DataType::Int32)
        .expect(rt, NO_MEMORY);
    let mut arena = Arena::new(alloc);
    let node = casts_of(alloc, &mut arena, dtype, count).expect(rt, NO_MEMORY);
    let udfs = Udfs::new(alloc);
    relax_casts(node, &mut arena, &schema, &udfs).expect(rt, NO_MEMORY);
    assert_cast(rt, &arena, 1, first);
    for number in 2..arena.len() {
        assert_cast(rt, &arena, number, false);
    }
    drop(arena);
    drop(schema);
}

#[test]
fn casts_to_another_type_stay_strict(rt: HostRuntime) {
    for count in [1, 2, 1_000] {
        relax(&rt, rt.alloc(), &DataType::Int32, count, false);
        relax(&rt, rt.alloc(), &DataType::Int64, count, true);
    }
}

// So many of LogicalAnd, one over another, of columns of truth values.
fn logical_ands(rt: &impl Abort, alloc: Global, count: usize) -> Expr {
    let mut expr = column(rt, alloc, "a");
    for _ in 0..count {
        expr = Expr::BinaryExpr {
            left: boxed(rt, alloc, expr),
            op: Operator::LogicalAnd,
            right: boxed(rt, alloc, column(rt, alloc, "b")),
        };
    }
    expr
}

// How many nodes have that operator.
fn operators_of(arena: &Arena<AExpr>, operator: Operator) -> usize {
    let mut count: usize = 0;
    for number in 0..arena.len() {
        if let AExpr::BinaryExpr { op, .. } = arena.get(Node(number)) {
            if *op == operator {
                count = count.saturating_add(1);
            }
        }
    }
    count
}

#[test]
fn each_logical_and_of_truths_is_made_plain(rt: HostRuntime) {
    for count in [1, 2, 60, 1_000] {
        let mut schema = Schema::new(rt.alloc());
        for name in ["a", "b"] {
            let name = PlSmallStr::new(rt.alloc(), name).expect(&rt, NO_MEMORY);
            schema
                .with_column(name, DataType::Boolean)
                .expect(&rt, NO_MEMORY);
        }
        let scope = Scope {
            schema,
            udfs: Udfs::new(rt.alloc()),
        };
        let mut arena = Arena::new(rt.alloc());
        let expr = logical_ands(&rt, rt.alloc(), count);
        let root = added(&rt, expr, &mut arena);
        coerce_root(
            &rt,
            &OpChangeRule(PlainAnds),
            root,
            &mut arena,
            &scope,
            &DataType::Boolean,
        );
        assert_number(&rt, operators_of(&arena, Operator::LogicalAnd), 0);
        assert_number(&rt, operators_of(&arena, Operator::And), count);
        drop(arena);
        drop(scope);
    }
}
