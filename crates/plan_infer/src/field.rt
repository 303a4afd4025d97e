//! The name and type of a node's column.
ghost use Rattle.std.specs.Prelude.{◌≡◌, ◌<◌, ◌≤◌, ◌+◌, IfOk, IfErr, OnOk, OnErr};
ghost use Rattle.plan_types.specs.Errors.{no_memory};
ghost use Rattle.plan_types.specs.Schemas.{columns};
ghost use Rattle.plan_types.specs.Types.{ty};
ghost use Rattle.plan_dsl.specs.Ops.{Expression};
ghost use Rattle.plan_dsl.specs.Registry.{registry};
ghost use Rattle.plan_arena.specs.Denotation.{Denotes, DenotesTree};
ghost use Rattle.plan_arena.specs.Items.{HoldsExpression};
ghost use Rattle.plan_infer.specs.Fields.{IsFieldOf, type_in};
ghost use Rattle.plan_infer.specs.KeptTypes.{Extends, IsKept, IsRight, kept_count, typed_of};
ghost use Rattle.plan_infer.specs.Typed.{IsNodeRefusal};

use crate::steps::Steps;
use crate::type_table::{Inferred, TypeTable};
use crate::typing::type_node;
use plan_arena::aexpr::AExpr;
use plan_arena::arena::{Arena, Node};
use plan_dsl::udfs::Udfs;
use plan_types::dtype::DataType;
use plan_types::error::PlanError;
use plan_types::field::Field;
use plan_types::schema::Schema;
use std::alloc::Global;
use std::marker::Brand;
use std::sync::ledger::{Blank, Ledger};

/// What an expression is asked for: a column of its own, or one value for each group of rows.
#[derive(Clone, Copy, Debug)]
pub enum Context {
    Default,
    Aggregation,
}

impl Default for Context {
    ghost use Rattle.std.specs.Prelude.{◌≡◌};
    ghost use Rattle.plan_infer.specs.declared.field.Context.TheVariants as contexts;

    ghost is_default = { λ context. context ≡ contexts.Default };

    fn default() -> Self {
        Context::Default
    }
}

impl TypeTable {
    /// The name and type of the column of a node over a frame of the schema. In an aggregation a column that may have
    /// another length than one is a list. `typings` is ticked where the rule is used, and rises by the
    /// number of entries that are added, and by at most one more where the answer is a refusal.
    pub fn field_of<M: Ledger>(
        &mut self,
        node: Node,
        schema: &Schema,
        ctxt: Context,
        arena: &Arena<AExpr>,
        udfs: &Udfs,
        typings: &mut Steps<M>,
    ) -> Result<Field, PlanError>
        requires tree { DenotesTree (HoldsExpression arena.now) node.0 }
        requires right { IsRight (registry udfs.now) (columns schema.now) arena.now self.old }
        ensures ok { IfOk result (λ field. (t : Expression) → Denotes (HoldsExpression arena.now) node.0 t →
            IsFieldOf (registry udfs.now) (columns schema.now) ctxt t field) }
        ensures kept { OnOk result (IsKept self.new node.0) }
        ensures right { IsRight (registry udfs.now) (columns schema.now) arena.now self.new }
        ensures extends { Extends self.old self.new }
        ensures counted { OnOk result (typings.new + kept_count self.old ≡ typings.old + kept_count self.new) }
        ensures refused { OnErr result (typings.new + kept_count self.old ≤ typings.old + kept_count self.new + 1) }
        ensures err { IfErr result (IsNodeRefusal (registry udfs.now) (columns schema.now) arena.now node.0) }
    {
        type_node(node, arena, schema, udfs, self, typings)?;
        let label = self.output_name(node, arena)?;
        let name = label.unwrap().try_clone(arena.allocator())?;
        let dtype = dtype_in(ctxt, self.get(node), arena.allocator())?;
        Ok(Field { name, dtype })
    }

    /// Keeps what is inferred of a node, where nobody counts the uses of the rule.
    pub fn infer(
        &mut self,
        node: Node,
        schema: &Schema,
        arena: &Arena<AExpr>,
        udfs: &Udfs,
    ) -> Result<(), PlanError>
        requires tree { DenotesTree (HoldsExpression arena.now) node.0 }
        requires right { IsRight (registry udfs.now) (columns schema.now) arena.now self.old }
        ensures kept { OnOk result (IsKept self.new node.0) }
        ensures right { IsRight (registry udfs.now) (columns schema.now) arena.now self.new }
        ensures extends { Extends self.old self.new }
        ensures err { IfErr result (IsNodeRefusal (registry udfs.now) (columns schema.now) arena.now node.0) }
    {
        self.infer_by::<Brand>(node, schema, arena, udfs, Blank::new(1))
    }

    // Keeps what is inferred of a node, with a ledger of its own.
    fn infer_by<M: Ledger>(
        &mut self,
        node: Node,
        schema: &Schema,
        arena: &Arena<AExpr>,
        udfs: &Udfs,
        blank: Blank,
    ) -> Result<(), PlanError>
        requires name { blank.name ≡ M.name }
        requires parts { blank.parts ≡ M.parts }
        requires some { 0 < blank.parts }
        requires tree { DenotesTree (HoldsExpression arena.now) node.0 }
        requires right { IsRight (registry udfs.now) (columns schema.now) arena.now self.old }
        ensures kept { OnOk result (IsKept self.new node.0) }
        ensures right { IsRight (registry udfs.now) (columns schema.now) arena.now self.new }
        ensures extends { Extends self.old self.new }
        ensures err { IfErr result (IsNodeRefusal (registry udfs.now) (columns schema.now) arena.now node.0) }
    {
        let mut typings = Steps::<M>::new(blank);
        type_node(node, arena, schema, udfs, self, &mut typings)
    }
}

/// The type that a column has in a context.
pub fn dtype_in(ctxt: Context, own: &Inferred, alloc: Global) -> Result<DataType, PlanError>
    ensures ok { IfOk result (λ dtype. ty dtype ≡ type_in ctxt (typed_of own.now)) }
    ensures err { IfErr result (λ error. error ≡ no_memory) }
{
    let dtype = own.dtype.try_clone(alloc)?;
    match ctxt {
        Context::Default => Ok(dtype),
        Context::Aggregation => {
            if !own.many {
                return Ok(dtype);
            }
            let item = Box::new(alloc, dtype)?;
            Ok(DataType::List(item))
        }
    }
}
