//! The name and type of the column of a query's expression.
ghost use Rattle.std.specs.Prelude.{◌≡◌, false, true, IfOk, IfErr, OnOk};
ghost use Rattle.plan_types.specs.Schemas.{columns};
ghost use Rattle.plan_dsl.specs.Aliases.{pruned};
ghost use Rattle.plan_dsl.specs.Expressions.{tree_of};
ghost use Rattle.plan_dsl.specs.Names.{name_of};
ghost use Rattle.plan_dsl.specs.Registry.{registry};
ghost use Rattle.plan_dsl.specs.Sources.{Source, is_plain, unwritten};
ghost use Rattle.plan_infer.specs.Fields.{IsFieldOf};
ghost use Rattle.plan_lower.specs.ExpressionFields.{IsFieldRefusal};
ghost use Rattle.plan_lower.specs.TopNumbers.{settled_at_top, settles_at_top};

use crate::conversion::expr_to_ir::{Pruning, add_settled};
use plan_arena::arena::Arena;
use plan_dsl::expr::Expr;
use plan_dsl::udfs::Udfs;
use plan_infer::aexpr_field::AExprFields;
use plan_infer::field::Context;
use plan_types::error::PlanError;
use plan_types::field::Field;
use plan_types::schema::Schema;
use std::alloc::Global;

/// Fields of a query's expressions.
pub trait ExprTyping {
    // The expression as a query writes it.
    ghost source: { Self → Source };

    /// The name and type of the column over a frame of the schema. In an aggregation a column that may have another
    /// length than one is a list. A number without a type at the top, or directly under an alias there, gets the one that it
    /// has alone. A marker or a renaming form has no field.
    fn to_field(
        &self,
        alloc: Global,
        schema: &Schema,
        ctxt: Context,
        udfs: &Udfs,
    ) -> Result<Field, PlanError>
        ensures ok { IfOk result (IsFieldOf (registry udfs.now) (columns schema.now) ctxt (pruned true false (settled_at_top (unwritten (source self.now))))) }
        ensures name { IfOk result (λ field. field.name ≡ name_of (unwritten (source self.now))) }
        ensures plain { OnOk result (is_plain (source self.now) ≡ true) }
        ensures settles { OnOk result (settles_at_top (unwritten (source self.now)) ≡ true) }
        ensures err { IfErr result (IsFieldRefusal (registry udfs.now) (columns schema.now) (source self.now)) };
}

impl ExprTyping for Expr {
    ghost source = { tree_of };

    fn to_field(
        &self,
        alloc: Global,
        schema: &Schema,
        ctxt: Context,
        udfs: &Udfs,
    ) -> Result<Field, PlanError> {
        let mut arena = Arena::new(alloc);
        let copy = self.try_clone(alloc)?;
        let pruning = Pruning {
            keep: true,
            write: false,
        };
        let node = add_settled(copy, pruning, &mut arena)?;
        let field = arena.get(node).to_field(alloc, schema, ctxt, &arena, udfs)?;
        Ok(field)
    }
}
