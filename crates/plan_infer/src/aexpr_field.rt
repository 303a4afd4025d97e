//! The name and type of the column of an item that is handed over by itself.
ghost use Rattle.std.specs.Prelude.{◌≡◌, ◌≢◌, ◌<◌, IfOk, IfErr, OnOk, OnErr};
ghost use Rattle.std.specs.List.{AllByRecursion};
ghost use Rattle.plan_types.specs.Errors.{IsRefusal, no_memory};
ghost use Rattle.plan_types.specs.Schemas.{columns};
ghost use Rattle.plan_dsl.specs.Names.{label_of};
ghost use Rattle.plan_dsl.specs.Ops.{Expression, Op};
ghost use Rattle.plan_dsl.specs.Registry.{registry};
ghost use Rattle.plan_dsl.specs.Typing.{typing, typing_rule};
ghost use Rattle.plan_arena.specs.Layers.{Layer, inputs_of, op_of};
ghost use Rattle.plan_arena.specs.Items.{expression_layer, numbers, output_label};
ghost use Rattle.plan_infer.specs.ItemTrees.{HasOperands, IsItemField, IsItemRefusal, IsItemType, LayerDenotes, StaysWhereMany};
ghost use Rattle.plan_infer.specs.KeptTypes.{HasRightTypes, IsKept, IsRight, IsRuled, typed_of, typings_at};

use crate::field::{Context, dtype_in};
use crate::steps::Steps;
use crate::type_table::{Inferred, TypeTable};
use crate::typing::own_typing;
use plan_arena::aexpr::AExpr;
use plan_arena::arena::{Arena, Node};
use plan_arena::expr_ir::OutputName;
use plan_dsl::udfs::Udfs;
use plan_types::dtype::DataType;
use plan_types::error::PlanError;
use plan_types::field::Field;
use plan_types::schema::Schema;
use plan_types::text::PlSmallStr;
use std::alloc::Global;
use std::marker::Brand;
use std::sync::ledger::{Blank, Ledger};

/// Over which frames an item is asked for its field, in which context, and what it names.
#[derive(Clone, Copy)]
pub struct ToFieldContext<'a> {
    pub schema: &'a Schema,
    pub ctx: Context,
    pub arena: &'a Arena<AExpr>,
    pub udfs: &'a Udfs,
}

/// Fields of items. An item's inputs denote expressions, and it needs no number of its own.
pub trait AExprFields {
    // What the item does, and over which nodes.
    ghost item: { Self → Layer Op };

    /// The name and type of the column over a frame of the schema. In an aggregation a column that may have another
    /// length than one is a list.
    fn to_field(
        &self,
        alloc: Global,
        schema: &Schema,
        ctxt: Context,
        arena: &Arena<AExpr>,
        udfs: &Udfs,
    ) -> Result<Field, PlanError>
        requires { HasOperands arena.now (item self.now) }
        ensures ok { IfOk result (IsItemField (registry udfs.now) (columns schema.now) ctxt arena.now (item self.now)) }
        ensures err { IfErr result (IsItemRefusal (registry udfs.now) (columns schema.now) arena.now (item self.now)) };

    /// The name and type of the column, by `to_field`: a field is never asked for without typing every input.
    fn to_field_and_validate(
        &self,
        alloc: Global,
        schema: &Schema,
        ctxt: Context,
        arena: &Arena<AExpr>,
        udfs: &Udfs,
    ) -> Result<Field, PlanError>
        requires { HasOperands arena.now (item self.now) }
        ensures ok { IfOk result (IsItemField (registry udfs.now) (columns schema.now) ctxt arena.now (item self.now)) }
        ensures err { IfErr result (IsItemRefusal (registry udfs.now) (columns schema.now) arena.now (item self.now)) }
    {
        self.to_field(alloc, schema, ctxt, arena, udfs)
    }
}

impl AExprFields for AExpr {
    ghost item = { expression_layer };

    fn to_field(
        &self,
        alloc: Global,
        schema: &Schema,
        ctxt: Context,
        arena: &Arena<AExpr>,
        udfs: &Udfs,
    ) -> Result<Field, PlanError> {
        let mut types = TypeTable::new(alloc);
        let own = type_item(self, alloc, schema, arena, udfs, &mut types)?;
        let name = item_name(self, alloc, arena, &types)?;
        let dtype = dtype_in(ctxt, &own, alloc)?;
        Ok(Field { name, dtype })
    }
}

/// Types of items, of which the same holds.
pub trait AExprTyping {
    // What the item does, and over which nodes.
    ghost item: { Self → Layer Op };

    /// The name, and the type that the column has whatever the context is. The flag stays true only where the column
    /// may have another length than one.
    fn to_field_impl(
        &self,
        alloc: Global,
        ctx: &ToFieldContext<'_>,
        agg_list: &mut bool,
    ) -> Result<Field, PlanError>
        requires { HasOperands ctx.now.arena.now (item self.now) }
        ensures ok { IfOk result (IsItemField (registry ctx.now.udfs.now) (columns ctx.now.schema.now) Context.Default ctx.now.arena.now (item self.now)) }
        ensures flag { OnOk result (StaysWhereMany (registry ctx.now.udfs.now) (columns ctx.now.schema.now) ctx.now.arena.now (item self.now) agg_list.old agg_list.new) }
        ensures stays { OnErr result (agg_list.new ≡ agg_list.old) }
        ensures err { IfErr result (IsItemRefusal (registry ctx.now.udfs.now) (columns ctx.now.schema.now) ctx.now.arena.now (item self.now)) };

    /// The type of the column.
    fn to_dtype(
        &self,
        alloc: Global,
        schema: &Schema,
        ctxt: Context,
        arena: &Arena<AExpr>,
        udfs: &Udfs,
    ) -> Result<DataType, PlanError>
        requires { HasOperands arena.now (item self.now) }
        ensures ok { IfOk result (IsItemType (registry udfs.now) (columns schema.now) ctxt arena.now (item self.now)) }
        ensures err { IfErr result (IsItemRefusal (registry udfs.now) (columns schema.now) arena.now (item self.now)) };

    /// The type of the column, by `to_dtype`.
    fn get_type(
        &self,
        alloc: Global,
        schema: &Schema,
        ctxt: Context,
        arena: &Arena<AExpr>,
        udfs: &Udfs,
    ) -> Result<DataType, PlanError>
        requires { HasOperands arena.now (item self.now) }
        ensures ok { IfOk result (IsItemType (registry udfs.now) (columns schema.now) ctxt arena.now (item self.now)) }
        ensures err { IfErr result (IsItemRefusal (registry udfs.now) (columns schema.now) arena.now (item self.now)) }
    {
        self.to_dtype(alloc, schema, ctxt, arena, udfs)
    }
}

impl AExprTyping for AExpr {
    ghost item = { expression_layer };

    fn to_field_impl(
        &self,
        alloc: Global,
        ctx: &ToFieldContext<'_>,
        agg_list: &mut bool,
    ) -> Result<Field, PlanError> {
        let mut types = TypeTable::new(alloc);
        let own = type_item(self, alloc, ctx.schema, ctx.arena, ctx.udfs, &mut types)?;
        let name = item_name(self, alloc, ctx.arena, &types)?;
        let dtype = own.dtype.try_clone(alloc)?;
        *agg_list = *agg_list && own.many;
        Ok(Field { name, dtype })
    }

    fn to_dtype(
        &self,
        alloc: Global,
        schema: &Schema,
        ctxt: Context,
        arena: &Arena<AExpr>,
        udfs: &Udfs,
    ) -> Result<DataType, PlanError> {
        let mut types = TypeTable::new(alloc);
        let own = type_item(self, alloc, schema, arena, udfs, &mut types)?;
        let dtype = dtype_in(ctxt, &own, alloc)?;
        Ok(dtype)
    }
}

// What the rule of an item says, whose inputs are typed in the table first.
fn type_item(
    item: &AExpr,
    alloc: Global,
    schema: &Schema,
    arena: &Arena<AExpr>,
    udfs: &Udfs,
    types: &mut TypeTable,
) -> Result<Inferred, PlanError>
    requires operands { HasOperands arena.now (expression_layer item.now) }
    requires right { IsRight (registry udfs.now) (columns schema.now) arena.now types.old }
    ensures ok { IfOk result (λ own. (t : Expression) → LayerDenotes arena.now (expression_layer item.now) t →
        typing (registry udfs.now) (columns schema.now) t ≡ Ok (typed_of own)) }
    ensures kept { OnOk result (AllByRecursion (IsKept types.new) (inputs_of (expression_layer item.now))) }
    ensures right { OnOk result (IsRight (registry udfs.now) (columns schema.now) arena.now types.new) }
    ensures err { IfErr result (IsItemRefusal (registry udfs.now) (columns schema.now) arena.now (expression_layer item.now)) }
{
    let nodes = item.inputs(alloc)?;
    let inputs = nodes.as_slice();
    for index in 0..inputs.len() {
        types.infer(inputs[index], schema, arena, udfs)?;
    }
    // The item has no number, and its name is asked for apart.
    let blank = Blank::new(1);
    let own = own_alone::<Brand>(item, inputs, types, schema, udfs, alloc, blank)?;
    Ok(own)
}

// What the rule of an item says, whose inputs are typed, with a ledger of its own.
fn own_alone<M: Ledger>(
    item: &AExpr,
    inputs: &[Node],
    types: &TypeTable,
    schema: &Schema,
    udfs: &Udfs,
    alloc: Global,
    blank: Blank,
) -> Result<Inferred, PlanError>
    requires name { blank.name ≡ M.name }
    requires parts { blank.parts ≡ M.parts }
    requires some { 0 < blank.parts }
    requires listed { numbers inputs.now ≡ inputs_of (expression_layer item.now) }
    requires inputs { AllByRecursion (IsKept types.now) (numbers inputs.now) }
    ensures ok { IfOk result (IsRuled (registry udfs.now) (columns schema.now) (op_of (expression_layer item.now)) (typings_at types.now (numbers inputs.now))) }
    ensures err { IfErr result (IsRefusal (typing_rule (registry udfs.now) (columns schema.now) (op_of (expression_layer item.now)) (typings_at types.now (numbers inputs.now)))) }
{
    let mut typings = Steps::<M>::new(blank);
    let step = typings.step();
    own_typing(Node(0), item, inputs, types, schema, udfs, alloc, step)
}

// The name of an item whose inputs are typed.
fn item_name(
    item: &AExpr,
    alloc: Global,
    arena: &Arena<AExpr>,
    types: &TypeTable,
) -> Result<PlSmallStr, PlanError>
    requires kept { AllByRecursion (IsKept types.now) (inputs_of (expression_layer item.now)) }
    requires right { HasRightTypes arena.now types.now }
    ensures ok { IfOk result (λ name. (t : Expression) → LayerDenotes arena.now (expression_layer item.now) t → name ≡ (label_of t).name) }
    ensures err { IfErr result (λ error. error ≡ no_memory) }
{
    let label = item_label(item, alloc, arena, types)?;
    let name = label.unwrap().try_clone(alloc)?;
    Ok(name)
}

// The name of an item whose inputs are typed, with what it comes from.
fn item_label(
    item: &AExpr,
    alloc: Global,
    arena: &Arena<AExpr>,
    types: &TypeTable,
) -> Result<OutputName, PlanError>
    requires kept { AllByRecursion (IsKept types.now) (inputs_of (expression_layer item.now)) }
    requires right { HasRightTypes arena.now types.now }
    ensures ok { IfOk result (λ name. (t : Expression) → LayerDenotes arena.now (expression_layer item.now) t → output_label name ≡ label_of t) }
    ensures set { IfOk result (λ name. name ≢ OutputName.None) }
    ensures err { IfErr result (λ error. error ≡ no_memory) }
{
    if let Some(name) = item.own_name(alloc)? {
        return Ok(name);
    }
    match item.input_nodes().first() {
        Some(first) => {
            let name = types.output_name(first, arena)?;
            Ok(name)
        }
        None => {
            let name = PlSmallStr::new(alloc, "literal")?;
            Ok(OutputName::LiteralLhs(name))
        }
    }
}
