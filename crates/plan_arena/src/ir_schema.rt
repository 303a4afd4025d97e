//! Schemas that go into nodes of a lowered plan, and schemas that are kept by node.
ghost use Rattle.std.specs.Prelude.{◌≡◌, ◌≢◌, [], List, MatchOption, IfOk, IfErr, OnErr, Some, slice_get};
ghost use Rattle.std.specs.BTreeMap.{IsUnchanged};
ghost use Rattle.std.specs.Option.{option_map};
ghost use Rattle.plan_types.specs.Errors.{no_memory};
ghost use Rattle.plan_types.specs.Schemas.{columns};
ghost use Rattle.plan_types.specs.declared.schema.Schema.{Schema};
ghost use Rattle.plan_dsl.specs.Trees.{Trees, node};
ghost use Rattle.plan_dsl.specs.Ops.{Expression};
ghost use Rattle.plan_dsl.specs.Plans.{Named, PlanOp};
ghost use Rattle.plan_dsl.specs.Registry.{Registry};
ghost use Rattle.plan_arena.specs.Items.{plan_layer, DenotesItem, HasInputs};
ghost use Rattle.plan_arena.specs.Layers.{inputs_of, op_of};
ghost use Rattle.plan_arena.specs.PlanSchemas.{cached_at, scanned, schema_into, DenotesSomePlan, IsRightCache, IsSchemaAt};
ghost use Rattle.plan_arena.specs.RecordedSchemas.{recorded_into, IsRecordedAt, KeepsRecorded};
ghost use Rattle.plan_arena.specs.Runs.{AllAccepted};
ghost use Rattle.plan_arena.specs.Unchecked.{unchecked_into, AllKeepOtherRules, IsUncheckedAt, KeepsUnchecked};
ghost use Rattle.plan_arena.specs.declared.aexpr.AExpr.{AExpr};

use crate::arena::{Arena, Node};
use crate::ir::IR;
use plan_dsl::udfs::Udfs;
use plan_types::error::PlanError;
use plan_types::schema::Schema;
use std::alloc::Global;
use std::collections::BTreeMap;

impl IR {
    /// The schema of the frame that goes into the node: that of its first input, and a scan's own. A node without
    /// inputs that is no scan has none.
    pub fn input_schema(
        &self,
        alloc: Global,
        arena: &Arena<IR>,
        udfs: &Udfs,
    ) -> Result<Option<Schema>, PlanError>
        requires { HasInputs arena.now self.now }
        ensures denoted { IfOk result (λ schema. (expressions : List AExpr) (op : PlanOp (Named Expression)) (inputs : Trees (PlanOp (Named Expression))) →
            DenotesItem expressions arena.now self.now (node op inputs) → option_map columns schema ≡ recorded_into op.kind inputs) }
        ensures unchecked { IfOk result (λ schema. (expressions : List AExpr) (registry : Registry) (op : PlanOp (Named Expression)) (inputs : Trees (PlanOp (Named Expression))) →
            DenotesItem expressions arena.now self.now (node op inputs) → AllKeepOtherRules registry inputs → option_map columns schema ≡ unchecked_into registry op.kind inputs) }
        ensures rule { IfOk result (λ schema. (expressions : List AExpr) (registry : Registry) (op : PlanOp (Named Expression)) (inputs : Trees (PlanOp (Named Expression))) →
            DenotesItem expressions arena.now self.now (node op inputs) → AllAccepted registry inputs → option_map columns schema ≡ schema_into registry op.kind inputs) }
        ensures err { IfErr result (λ error. error ≡ no_memory) }
    {
        match self.get_input() {
            Some(first) => {
                let schema = arena.get(first).schema(alloc, arena, udfs)?;
                Ok(Some(schema))
            }
            None => {
                let schema = self.scanned_schema(alloc)?;
                Ok(schema)
            }
        }
    }

    /// The first input, if there is one.
    pub fn get_input(&self) -> Option<Node>
        ensures { MatchOption result (inputs_of (plan_layer self.now) ≡ []) (λ first. slice_get (inputs_of (plan_layer self.now)) 0 ≡ Some first.0) }
    {
        match self {
            IR::Cache { input, .. }
            | IR::Distinct { input, .. }
            | IR::Filter { input, .. }
            | IR::GroupBy { input, .. }
            | IR::HStack { input, .. }
            | IR::MapFunction { input, .. }
            | IR::Select { input, .. }
            | IR::SimpleProjection { input, .. }
            | IR::Sink { input, .. }
            | IR::Slice { input, .. }
            | IR::Sort { input, .. } => Some(*input),
            IR::DataFrameScan { .. } | IR::Invalid => None,
        }
    }

    // A scan's own schema.
    fn scanned_schema(&self, alloc: Global) -> Result<Option<Schema>, PlanError>
        ensures ok { IfOk result (λ schema. option_map columns schema ≡ scanned (op_of (plan_layer self.now)).kind) }
        ensures err { IfErr result (λ error. error ≡ no_memory) }
    {
        match self {
            IR::DataFrameScan { schema, .. } => {
                let schema = schema.try_clone(alloc)?;
                Ok(Some(schema))
            }
            _ => Ok(None),
        }
    }

    /// The schema of the frame of the node, by what is kept of it or else by `schema`, and then kept. What is kept of
    /// other nodes stays, and nothing more is kept of them; after a refusal the cache is as it was.
    pub fn schema_with_cache(
        alloc: Global,
        node: Node,
        arena: &Arena<IR>,
        cache: &mut BTreeMap<Node, Schema, Global>,
        udfs: &Udfs,
    ) -> Result<Schema, PlanError>
        requires plan { DenotesSomePlan arena.now node.0 }
        requires right { IsRightCache arena.now cache.old }
        ensures ok { IfOk result (λ schema. IsSchemaAt arena.now node.0 (columns schema)) }
        ensures kept { IfOk result (λ schema. option_map columns (cached_at cache.new node) ≡ Some (columns schema)) }
        ensures stays { (n : Node) (kept : Schema) → cached_at cache.old n ≡ Some kept → cached_at cache.new n ≡ Some kept }
        ensures denoted { KeepsRecorded arena.now cache.old → IfOk result (λ schema. IsRecordedAt arena.now node.0 (columns schema)) }
        ensures recorded { KeepsRecorded arena.now cache.old → KeepsRecorded arena.now cache.new }
        ensures unchecked { KeepsUnchecked arena.now cache.old → IfOk result (λ schema. IsUncheckedAt arena.now node.0 (columns schema)) }
        ensures keeps_unchecked { KeepsUnchecked arena.now cache.old → KeepsUnchecked arena.now cache.new }
        ensures others { (n : Node) → n ≢ node → cached_at cache.new n ≡ cached_at cache.old n }
        ensures unchanged { OnErr result (IsUnchanged cache.old cache.new) }
        ensures right { IsRightCache arena.now cache.new }
        ensures err { IfErr result (λ error. error ≡ no_memory) }
    {
        if let Some(kept) = cache.get(&node) {
            let schema = kept.try_clone(alloc)?;
            return Ok(schema);
        }
        let schema = arena.get(node).schema(alloc, arena, udfs)?;
        let kept = schema.try_clone(alloc)?;
        cache.insert(node, kept)?;
        Ok(schema)
    }
}
