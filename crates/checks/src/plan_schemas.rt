//! Schemas of nodes of lowered plans, at any depth and of any number of columns.
ghost use Rattle.plan_arena.specs.PlanSchemas.{DenotesSomePlan, IsRightCache};

use crate::fixtures::{NO_MEMORY, assert_number};
use crate::functions::columns;
use crate::plans::{filters_over, scan_of, select_of};
use plan_arena::arena::{Arena, Node};
use plan_arena::ir::IR;
use plan_arena::plan::IRPlan;
use plan_dsl::builder::DslBuilder;
use plan_dsl::plan::{DslPlan, ProjectionOptions};
use plan_dsl::udfs::Udfs;
use plan_lower::conversion::dsl_to_ir::PlanLowering;
use plan_types::dtype::DataType;
use plan_types::schema::Schema;
use std::alloc::Global;
use std::collections::BTreeMap;
use std::process::Abort;

fn assert_columns(rt: &impl Abort, schema: Schema, want: usize) {
    assert_number(rt, schema.len(), want);
    drop(schema);
}

// The input of the filter at the node. Any other node has none below it that is asked.
fn node_below(arena: &Arena<IR>, node: Node) -> Node
    requires { DenotesSomePlan arena.now node.0 }
    ensures { DenotesSomePlan arena.now result.0 }
{
    match arena.get(node) {
        IR::Filter { input, .. } => *input,
        _ => node,
    }
}

// With one cache the schema of the frame of the node is told, and of each node below it.
fn assert_each(
    rt: &impl Abort,
    alloc: Global,
    top: Node,
    arena: &Arena<IR>,
    cache: &mut BTreeMap<Node, Schema, Global>,
    columns: usize,
)
    requires plan { DenotesSomePlan arena.now top.0 }
    requires right { IsRightCache arena.now cache.old }
    ensures { IsRightCache arena.now cache.new }
{
    let udfs = Udfs::new(alloc);
    let mut node = top;
    for _ in 0..arena.len() {
        let told = IR::schema_with_cache(alloc, node, arena, cache, &udfs);
        assert_columns(rt, told.expect(rt, NO_MEMORY), columns);
        node = node_below(arena, node);
    }
}

// The schemas of the nodes' frames are told, and told once more of what was kept; and that of what goes into the top.
fn assert_schemas(rt: &impl Abort, alloc: Global, filters: usize, columns: usize) {
    let udfs = Udfs::new(alloc);
    let scan = scan_of(rt, alloc, Some(3), columns, &DataType::Boolean);
    match filters_over(rt, alloc, scan, filters).to_alp(alloc, &udfs) {
        Err(_) => panic!(rt; "{NO_MEMORY}"),
        Ok(plan) => {
            let (node, arena) = (plan.lp_top, &plan.lp_arena);
            let mut cache = BTreeMap::new(alloc);
            assert_each(rt, alloc, node, arena, &mut cache, columns);
            assert_each(rt, alloc, node, arena, &mut cache, columns);
            assert_number(rt, cache.len(), arena.len());
            drop(cache);
            assert!(rt; node.0 < arena.len());
            let input = arena.get(node).input_schema(alloc, arena, &udfs);
            let input = input.expect(rt, NO_MEMORY);
            assert_columns(rt, input.expect(rt, "a scan has its own"), columns);
            drop(plan);
        }
    }
}

#[test]
fn schemas_of_nodes_of_any_depth_are_told(rt: HostRuntime) {
    for (filters, columns) in &[(0, 0), (0, 1), (1, 1), (2, 2), (200, 1), (1, 1_000)] {
        assert_schemas(&rt, rt.alloc(), *filters, *columns);
    }
}

/// The item on top of the lowered plan is copied.
pub(crate) fn assert_copied(rt: &impl Abort, alloc: Global, plan: DslPlan) {
    let udfs = Udfs::new(alloc);
    match plan.to_alp(alloc, &udfs) {
        Err(_) => panic!(rt; "{NO_MEMORY}"),
        Ok(plan) => {
            assert!(rt; plan.lp_top.0 < plan.lp_arena.len());
            let copy = plan.lp_arena.get(plan.lp_top).try_clone(alloc);
            drop(copy.expect(rt, NO_MEMORY));
            drop(plan);
        }
    }
}

#[test]
fn items_of_plans_of_any_size_are_copied(rt: HostRuntime) {
    let alloc = rt.alloc();
    for count in [1, 2, 300] {
        let scan = scan_of(&rt, alloc, Some(3), count, &DataType::Boolean);
        assert_copied(&rt, alloc, scan);
        let scan = scan_of(&rt, alloc, Some(3), count, &DataType::Boolean);
        assert_copied(&rt, alloc, filters_over(&rt, alloc, scan, 1));
        let scan = scan_of(&rt, alloc, Some(3), count, &DataType::Boolean);
        assert_copied(
            &rt,
            alloc,
            select_of(&rt, alloc, columns(&rt, alloc, count), scan),
        );
        let scan = scan_of(&rt, alloc, Some(3), count, &DataType::Boolean);
        let options = ProjectionOptions::default();
        let stacked = DslBuilder::from(scan).with_columns(
            alloc,
            columns(&rt, alloc, count),
            options,
        );
        assert_copied(&rt, alloc, stacked.expect(&rt, NO_MEMORY).build());
        let scan = scan_of(&rt, alloc, Some(3), count, &DataType::Boolean);
        let keys = columns(&rt, alloc, count);
        let grouped = DslBuilder::from(scan).group_by(alloc, keys, Vec::new(alloc), true);
        assert_copied(&rt, alloc, grouped.expect(&rt, NO_MEMORY).build());
    }
}
