//! The name and type of the column of an expression of a lowered plan.
ghost use Rattle.std.specs.Prelude.{◌≡◌, ℕ, IfOk, IfErr};
ghost use Rattle.plan_types.specs.Schemas.{columns};
ghost use Rattle.plan_dsl.specs.Ops.{Expression};
ghost use Rattle.plan_dsl.specs.Plans.{Named};
ghost use Rattle.plan_dsl.specs.Registry.{registry};
ghost use Rattle.plan_arena.specs.Denotation.{Denotes, DenotesTree};
ghost use Rattle.plan_arena.specs.Items.{HoldsExpression, named_node};
ghost use Rattle.plan_infer.specs.ItemTrees.{IsTypeOf};
ghost use Rattle.plan_infer.specs.Typed.{IsNodeRefusal};

use crate::field::{Context, dtype_in};
use crate::type_table::TypeTable;
use plan_arena::aexpr::AExpr;
use plan_arena::arena::Arena;
use plan_arena::expr_ir::ExprIR;
use plan_dsl::udfs::Udfs;
use plan_types::dtype::DataType;
use plan_types::error::PlanError;
use plan_types::field::Field;
use plan_types::schema::Schema;
use std::alloc::Global;

/// Fields of expressions of a lowered plan. What is kept with one as its type is not asked.
pub trait ExprIRTyping {
    // The node, with the name of its column.
    ghost named: { Self → Named ℕ };

    /// The type of the column over a frame of the schema. In an aggregation a column that may have another length than
    /// one is a list.
    fn dtype(
        &self,
        alloc: Global,
        schema: &Schema,
        ctxt: Context,
        arena: &Arena<AExpr>,
        udfs: &Udfs,
    ) -> Result<DataType, PlanError>
        requires { DenotesTree (HoldsExpression arena.now) (named self.now).expression }
        ensures ok { IfOk result (λ dtype. (t : Expression) → Denotes (HoldsExpression arena.now) (named self.now).expression t →
            IsTypeOf (registry udfs.now) (columns schema.now) ctxt t dtype) }
        ensures err { IfErr result (IsNodeRefusal (registry udfs.now) (columns schema.now) arena.now (named self.now).expression) };

    /// That type, with the name under which the expression is recorded.
    fn field(
        &self,
        alloc: Global,
        schema: &Schema,
        ctxt: Context,
        arena: &Arena<AExpr>,
        udfs: &Udfs,
    ) -> Result<Field, PlanError>
        requires { DenotesTree (HoldsExpression arena.now) (named self.now).expression }
        ensures name { IfOk result (λ field. field.name ≡ (named self.now).label.name) }
        ensures dtype { IfOk result (λ field. (t : Expression) → Denotes (HoldsExpression arena.now) (named self.now).expression t →
            IsTypeOf (registry udfs.now) (columns schema.now) ctxt t field.dtype) }
        ensures err { IfErr result (IsNodeRefusal (registry udfs.now) (columns schema.now) arena.now (named self.now).expression) };
}

impl ExprIRTyping for ExprIR {
    ghost named = { named_node };

    fn dtype(
        &self,
        alloc: Global,
        schema: &Schema,
        ctxt: Context,
        arena: &Arena<AExpr>,
        udfs: &Udfs,
    ) -> Result<DataType, PlanError> {
        let node = self.node();
        let mut types = TypeTable::new(alloc);
        types.infer(node, schema, arena, udfs)?;
        let dtype = dtype_in(ctxt, types.get(node), alloc)?;
        Ok(dtype)
    }

    fn field(
        &self,
        alloc: Global,
        schema: &Schema,
        ctxt: Context,
        arena: &Arena<AExpr>,
        udfs: &Udfs,
    ) -> Result<Field, PlanError> {
        let dtype = self.dtype(alloc, schema, ctxt, arena, udfs)?;
        let name = self.output_name().try_clone(alloc)?;
        Ok(Field { name, dtype })
    }
}
