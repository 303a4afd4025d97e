//! The columns that drops leave.
ghost use Rattle.std.specs.Prelude.{◌≡◌, ◌&&◌, not, Ok, IfOk, IfErr, OnOk, if◌then◌else◌};
ghost use Rattle.plan_types.specs.Errors.{no_memory};
ghost use Rattle.plan_types.specs.Schemas.{columns, is_among, with_column};
ghost use Rattle.plan_types.specs.Types.{ty};
ghost use Rattle.plan_dsl.specs.Drops.{columns_but, drop_leaves, have_names};
ghost use Rattle.plan_dsl.specs.Expressions.{selector_trees};
ghost use Rattle.plan_expand.specs.Refusals.{IsUnexpanded};

use crate::conversion::put_copy::put_copy;
use indexmap::IndexSet;
use plan_dsl::function::DropFunction;
use plan_dsl::function_schema::has_each;
use plan_expand::selectors::selected_names;
use plan_types::dtype::DataType;
use plan_types::error::{ErrorKind, PlanError};
use plan_types::schema::Schema;
use plan_types::text::PlSmallStr;
use std::alloc::Global;

/// The columns that a drop leaves of a schema's.
pub(crate) fn columns_left(
    alloc: Global,
    function: DropFunction,
    schema: &Schema,
) -> Result<Schema, PlanError>
    ensures ok { IfOk result (λ own. drop_leaves (columns schema.now) (selector_trees function.to_drop) function.strict ≡ Ok (columns own)) }
    ensures err { IfErr result (IsUnexpanded (drop_leaves (columns schema.now) (selector_trees function.to_drop) function.strict)) }
{
    let DropFunction { to_drop, strict } = function;
    let names = selected_names(alloc, to_drop.items, schema)?;
    if lacks_some(strict, schema, &names) {
        return Err(PlanError::at_top(ErrorKind::ColumnNotFound));
    }
    let own = schema_without(alloc, schema, &names)?;
    Ok(own)
}

// Whether a strict drop is of a name that the schema lacks.
fn lacks_some(strict: bool, schema: &Schema, names: &IndexSet<PlSmallStr>) -> bool
    ensures { result ≡ (strict && not (have_names (columns schema.now) names.now.keys)) }
{
    strict && !has_each(schema, names.as_slice())
}

// A copy of the schema without the columns of these names.
fn schema_without(
    alloc: Global,
    schema: &Schema,
    names: &IndexSet<PlSmallStr>,
) -> Result<Schema, PlanError>
    ensures ok { IfOk result (λ own. columns own ≡ columns_but names.now.keys (columns schema.now)) }
    ensures err { IfErr result (λ error. error ≡ no_memory) }
{
    let mut own = Schema::with_capacity(alloc, schema.len())?;
    for index in 0..schema.len() {
        if let Some((name, dtype)) = schema.get_at_index(index) {
            put_unless(&mut own, names, name, dtype, alloc)?;
        }
    }
    Ok(own)
}

// Puts a copy of a column into the schema, unless it is of one of the names.
fn put_unless(
    schema: &mut Schema,
    names: &IndexSet<PlSmallStr>,
    name: &PlSmallStr,
    dtype: &DataType,
    alloc: Global,
) -> Result<(), PlanError>
    ensures ok { OnOk result (columns schema.new ≡ (if is_among name.now names.now.keys then columns schema.old else with_column (columns schema.old) name.now (ty dtype.now))) }
    ensures err { IfErr result (λ error. error ≡ no_memory) }
{
    if !names.contains(name) {
        put_copy(schema, name, dtype, alloc)?;
    }
    Ok(())
}
