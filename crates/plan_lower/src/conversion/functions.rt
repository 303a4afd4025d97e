//! Functions from a frame to a frame, over an input that is lowered.
ghost use Rattle.std.specs.Prelude.{◌≡◌, ◌==◌, ◌&&◌, [], ◌∷◌, length, not, Ok, IfOk, IfErr};
ghost use Rattle.plan_types.specs.Schemas.{columns};
ghost use Rattle.plan_dsl.specs.Drops.{have_names};
ghost use Rattle.plan_dsl.specs.Expressions.{selector_trees};
ghost use Rattle.plan_dsl.specs.Markers.{names_of_selectors};
ghost use Rattle.plan_dsl.specs.Plans.{CallWork, DropWork};
ghost use Rattle.plan_dsl.specs.Registry.{registry};
ghost use Rattle.plan_dsl.specs.TableCalls.{has_some};
ghost use Rattle.plan_dsl.specs.TableFunctions.{ExplodeCall, RenameCall, UnnestCall, UnpivotCall};
ghost use Rattle.plan_expand.specs.Refusals.{IsUnexpanded};
ghost use Rattle.plan_lower.specs.Lowering.{Records, columns_at};
ghost use Rattle.plan_lower.specs.Steps.{AddsFunction, LowersPlainly, LowersStep};
ghost use Rattle.plan_lower.specs.declared.conversion.step.Step.{Step};

use crate::conversion::drops::columns_left;
use crate::conversion::nodes::{input_of, recorded_schema};
use crate::conversion::statistics::lower_stats;
use crate::conversion::step::{LoweredNode, Step};
use plan_arena::aexpr::AExpr;
use plan_arena::arena::Arena;
use plan_arena::ir::IR;
use plan_dsl::distinct_options::ColumnNames;
use plan_dsl::function::{DropFunction, DslFunction, FunctionIR};
use plan_dsl::function_schema::has_each;
use plan_dsl::selector::Selectors;
use plan_dsl::udfs::Udfs;
use plan_dsl::unpivot_args::{UnpivotArgsDSL, UnpivotArgsIR};
use plan_expand::selectors::expand_selectors;
use plan_types::error::{ErrorKind, PlanError};
use plan_types::schema::Schema;
use plan_types::text::PlSmallStr;

/// Adds a function over a lowered input.
pub(crate) fn lower_function(
    input: LoweredNode,
    function: DslFunction,
    expr_arena: &mut Arena<AExpr>,
    lp_arena: &mut Arena<IR>,
    udfs: &Udfs,
) -> Result<LoweredNode, PlanError>
    requires { Records lp_arena.old input.schema_node.0 }
    ensures { LowersStep (registry udfs.now) (Step.Function function) input expr_arena.old expr_arena.new lp_arena.old lp_arena.new result }
{
    match function {
        DslFunction::Drop(function) => lower_drop(input, function, lp_arena),
        DslFunction::Explode {
            columns,
            allow_empty,
        } => lower_explode(input, columns, allow_empty, lp_arena, udfs),
        DslFunction::FunctionIR(function) => add_function(input, function, lp_arena, udfs),
        DslFunction::Rename {
            existing,
            new,
            strict,
        } => lower_rename(input, existing, new, strict, lp_arena, udfs),
        DslFunction::RowIndex { name, offset } => {
            add_function(input, FunctionIR::RowIndex { name, offset }, lp_arena, udfs)
        }
        DslFunction::Stats(statistic) => lower_stats(input, statistic, expr_arena, lp_arena, udfs),
        DslFunction::Unnest(columns) => lower_unnest(input, columns, lp_arena, udfs),
        DslFunction::Unpivot { args } => lower_unpivot(input, args, lp_arena, udfs),
    }
}

// Adds a function over a lowered input, whose columns it knows by name.
fn add_function(
    input: LoweredNode,
    function: FunctionIR,
    lp_arena: &mut Arena<IR>,
    udfs: &Udfs,
) -> Result<LoweredNode, PlanError>
    requires { Records lp_arena.old input.schema_node.0 }
    ensures { AddsFunction function input lp_arena.old lp_arena.new result }
{
    let before = recorded_schema(lp_arena, input.schema_node);
    let schema = function.schema(lp_arena.allocator(), before, udfs)?;
    let node = lp_arena.add(IR::MapFunction {
        input: input.node,
        function,
        schema,
    })?;
    Ok(LoweredNode {
        node,
        schema_node: node,
    })
}

// Adds a drop over a lowered input: a simple projection of what it leaves.
fn lower_drop(
    input: LoweredNode,
    function: DropFunction,
    lp_arena: &mut Arena<IR>,
) -> Result<LoweredNode, PlanError>
    requires { Records lp_arena.old input.schema_node.0 }
    ensures { LowersPlainly (DropWork function.strict) (selector_trees function.to_drop ∷ []) [] input lp_arena.old lp_arena.new result }
{
    let schema = recorded_schema(lp_arena, input.schema_node);
    let columns = columns_left(lp_arena.allocator(), function, schema)?;
    let under = input_of(columns.len(), input.node, lp_arena)?;
    let node = lp_arena.add(IR::SimpleProjection {
        input: under,
        columns,
    })?;
    Ok(LoweredNode {
        node,
        schema_node: node,
    })
}

// Adds an explode over a lowered input. One of no columns, where it is allowed, is the input itself.
fn lower_explode(
    input: LoweredNode,
    columns: Selectors,
    allow_empty: bool,
    lp_arena: &mut Arena<IR>,
    udfs: &Udfs,
) -> Result<LoweredNode, PlanError>
    requires { Records lp_arena.old input.schema_node.0 }
    ensures { LowersPlainly (CallWork (ExplodeCall allow_empty)) (selector_trees columns ∷ []) [] input lp_arena.old lp_arena.new result }
{
    let columns = names_of(input, columns, lp_arena)?;
    if allow_empty && columns.items.is_empty() {
        return Ok(input);
    }
    add_function(input, FunctionIR::Explode { columns }, lp_arena, udfs)
}

// The names that selectors make over a lowered input.
fn names_of(
    input: LoweredNode,
    selectors: Selectors,
    lp_arena: &Arena<IR>,
) -> Result<ColumnNames, PlanError>
    requires { Records lp_arena.now input.schema_node.0 }
    ensures ok { IfOk result (λ names. names_of_selectors (columns_at lp_arena.now input.schema_node.0) (selector_trees selectors) ≡ Ok names.items.items) }
    ensures err { IfErr result (IsUnexpanded (names_of_selectors (columns_at lp_arena.now input.schema_node.0) (selector_trees selectors))) }
{
    let schema = recorded_schema(lp_arena, input.schema_node);
    let items = expand_selectors(lp_arena.allocator(), selectors.items, schema)?;
    Ok(ColumnNames { items })
}

// Adds a rename over a lowered input. Of a strict one each of as many names as there are new ones must stand.
fn lower_rename(
    input: LoweredNode,
    existing: ColumnNames,
    new: ColumnNames,
    strict: bool,
    lp_arena: &mut Arena<IR>,
    udfs: &Udfs,
) -> Result<LoweredNode, PlanError>
    requires { Records lp_arena.old input.schema_node.0 }
    ensures { LowersPlainly (CallWork (RenameCall existing.items.items new.items.items strict)) [] [] input lp_arena.old lp_arena.new result }
{
    let schema = recorded_schema(lp_arena, input.schema_node);
    if lacks_some(schema, &existing, &new, strict) {
        return Err(PlanError::at_top(ErrorKind::ColumnNotFound));
    }
    let swapping = has_some(schema, new.items.as_slice());
    let function = FunctionIR::Rename {
        existing,
        new,
        swapping,
    };
    add_function(input, function, lp_arena, udfs)
}

// Whether a strict rename of as many columns as there are new names is of one that the schema lacks.
fn lacks_some(schema: &Schema, existing: &ColumnNames, new: &ColumnNames, strict: bool) -> bool
    ensures { result ≡ (length existing.now.items.items == length new.now.items.items && (strict && not (have_names (columns schema.now) existing.now.items.items))) }
{
    existing.items.len() == new.items.len()
        && strict
        && !has_each(schema, existing.items.as_slice())
}

// Whether the schema has a column of one of the names.
fn has_some(schema: &Schema, names: &[PlSmallStr]) -> bool
    ensures { result ≡ has_some (columns schema.now) names.now }
{
    for name in names {
        if schema.contains(name) {
            return true;
        }
    }
    false
}

// Adds an unnest over a lowered input.
fn lower_unnest(
    input: LoweredNode,
    columns: Selectors,
    lp_arena: &mut Arena<IR>,
    udfs: &Udfs,
) -> Result<LoweredNode, PlanError>
    requires { Records lp_arena.old input.schema_node.0 }
    ensures { LowersPlainly (CallWork UnnestCall) (selector_trees columns ∷ []) [] input lp_arena.old lp_arena.new result }
{
    let columns = names_of(input, columns, lp_arena)?;
    add_function(input, FunctionIR::Unnest { columns }, lp_arena, udfs)
}

// Adds an unpivot over a lowered input.
fn lower_unpivot(
    input: LoweredNode,
    args: UnpivotArgsDSL,
    lp_arena: &mut Arena<IR>,
    udfs: &Udfs,
) -> Result<LoweredNode, PlanError>
    requires { Records lp_arena.old input.schema_node.0 }
    ensures { LowersPlainly (CallWork (UnpivotCall args.variable_name args.value_name)) (selector_trees args.on ∷ selector_trees args.index ∷ []) [] input lp_arena.old lp_arena.new result }
{
    let UnpivotArgsDSL {
        on,
        index,
        variable_name,
        value_name,
    } = args;
    let on = names_of(input, on, lp_arena)?;
    let index = names_of(input, index, lp_arena)?;
    let args = UnpivotArgsIR {
        on,
        index,
        variable_name,
        value_name,
    };
    add_function(input, FunctionIR::Unpivot { args }, lp_arena, udfs)
}
