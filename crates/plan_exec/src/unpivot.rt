//! Unpivots.
ghost use Rattle.std.specs.Prelude.{◌≡◌, ◌++◌, [], None, true, false, filter, is_none, map, not, IfOk, IfErr, OnOk};
ghost use Rattle.plan_types.specs.Casts.{can_cast, cast};
ghost use Rattle.plan_types.specs.Errors.{no_memory};
ghost use Rattle.plan_types.specs.FrameFaults.{frame_fault, heads_of, shown, vals_of};
ghost use Rattle.plan_types.specs.FrameViews.{frame_of};
ghost use Rattle.plan_types.specs.Schemas.{columns as schema_columns, is_among};
ghost use Rattle.plan_types.specs.Types.{TextType, ty};
ghost use Rattle.plan_types.specs.Values.{all_fit, fits};
ghost use Rattle.plan_types.specs.ValueViews.{val_of};
ghost use Rattle.plan_types.specs.declared.dtype.CastOptions.TheVariants.{NonStrict};
ghost use Rattle.plan_dsl.specs.Drops.{have_names};
ghost use Rattle.plan_dsl.specs.TableFrames.{given_or_null, unpivoted_on};
ghost use Rattle.plan_dsl.specs.TableRules.{unpivot_kinds, value_columns, value_name, value_type, variable_name};
ghost use Rattle.plan_exec.specs.ColumnFunctions.{AllCast, below_type, cast_values, column_times, columns_named, name_values, names_below, times, unpivoted_shown, values_below};

use plan_dsl::function_schema::{name_or, names_in, value_dtype};
use plan_dsl::unpivot_args::UnpivotArgsIR;
use plan_types::cast::cast_value;
use plan_types::column::{Column, Values};
use plan_types::dtype::{CastOptions, DataType};
use plan_types::error::{CastError, ErrorKind, PlanError};
use plan_types::frame::Frame;
use plan_types::schema::Schema;
use plan_types::text::PlSmallStr;
use plan_types::value::Value;
use std::alloc::Global;

/// The values of columns below each other, each beside its column's name and the row's values under the index.
pub fn unpivoted(alloc: Global, args: &UnpivotArgsIR, frame: Frame) -> Result<Frame, PlanError>
    requires { unpivot_kinds (frame_of frame).schema args.now.on.items.items args.now.index.items.items args.now.variable_name args.now.value_name ≡ [] }
    ensures ok { IfOk result (λ made. frame_of made ≡ unpivoted_on args.now.on.items.items args.now.index.items.items args.now.variable_name args.now.value_name (frame_of frame)) }
    ensures err { IfErr result (λ error. error ≡ no_memory) }
{
    let schema = frame.schema(alloc)?;
    let columns = frame.into_columns();
    let made = unpivoted_columns(alloc, args, &schema, columns.as_slice())?;
    Ok(Frame::new_no_checks(made))
}

// The columns of the index, then one of names and one of values.
fn unpivoted_columns(
    alloc: Global,
    args: &UnpivotArgsIR,
    schema: &Schema,
    columns: &[Column],
) -> Result<Vec<Column>, PlanError>
    requires schema { schema_columns schema.now ≡ heads_of columns.now }
    requires sound { frame_fault columns.now ≡ None }
    requires kinds { unpivot_kinds (heads_of columns.now) args.now.on.items.items args.now.index.items.items args.now.variable_name args.now.value_name ≡ [] }
    ensures ok { IfOk result (λ made. map shown made.items ≡ unpivoted_shown args.now.on.items.items args.now.index.items.items args.now.variable_name args.now.value_name (map shown columns.now)) }
    ensures err { IfErr result (λ error. error ≡ no_memory) }
{
    let on = value_columns(alloc, args, schema, columns)?;
    let index = columns_under(alloc, args.index.items.as_slice(), schema, columns)?;
    let mut made = repeated_columns(alloc, index.as_slice(), on.len())?;
    made.push(names_column(alloc, &args.variable_name, on.as_slice())?)?;
    made.push(values_column(alloc, args, schema, on.as_slice())?)?;
    Ok(made)
}

// The columns of these names, in the order of the names.
fn columns_under<'a>(
    alloc: Global,
    names: &[PlSmallStr],
    schema: &Schema,
    columns: &'a [Column],
) -> Result<Vec<&'a Column>, PlanError>
    requires schema { schema_columns schema.now ≡ heads_of columns.now }
    requires there { have_names (heads_of columns.now) names.now ≡ true }
    ensures ok { IfOk result (λ found. map (λ column. shown column.now) found.items ≡ columns_named (map shown columns.now) names.now) }
    ensures err { IfErr result (λ error. error ≡ no_memory) }
{
    let mut found = Vec::with_capacity(alloc, names.len())?;
    for name in names {
        if let Some((place, _, _)) = schema.get_full(name) {
            found.push(&columns[place])?;
        }
    }
    Ok(found)
}

// The columns that aren't of these names.
fn columns_beside<'a>(
    alloc: Global,
    names: &[PlSmallStr],
    columns: &'a [Column],
) -> Result<Vec<&'a Column>, PlanError>
    ensures ok { IfOk result (λ found. map (λ column. shown column.now) found.items ≡ filter (λ column. not (is_among column.0.0 names.now)) (map shown columns.now)) }
    ensures err { IfErr result (λ error. error ≡ no_memory) }
{
    let names = names_in(alloc, names)?;
    let mut found = Vec::with_capacity(alloc, columns.len())?;
    for column in columns {
        let name = &column.name;
        if !names.contains(&name) {
            found.push(column)?;
        }
    }
    Ok(found)
}

// The columns whose values are put below each other.
fn value_columns<'a>(
    alloc: Global,
    args: &UnpivotArgsIR,
    schema: &Schema,
    columns: &'a [Column],
) -> Result<Vec<&'a Column>, PlanError>
    requires schema { schema_columns schema.now ≡ heads_of columns.now }
    requires there { have_names (heads_of columns.now) args.now.on.items.items ≡ true }
    ensures ok { IfOk result (λ found. map (λ column. shown column.now) found.items ≡ columns_named (map shown columns.now) (value_columns (heads_of columns.now) args.now.on.items.items args.now.index.items.items)) }
    ensures err { IfErr result (λ error. error ≡ no_memory) }
{
    let on = args.on.items.as_slice();
    if on.is_empty() {
        let found = columns_beside(alloc, args.index.items.as_slice(), columns)?;
        Ok(found)
    } else {
        let found = columns_under(alloc, on, schema, columns)?;
        Ok(found)
    }
}

// Columns of the same names and types, whose values stand so often, one after the other.
fn repeated_columns(
    alloc: Global,
    columns: &[&Column],
    count: usize,
) -> Result<Vec<Column>, PlanError>
    ensures ok { IfOk result (λ made. map shown made.items ≡ map (column_times count) (map (λ column. shown column.now) columns.now)) }
    ensures err { IfErr result (λ error. error ≡ no_memory) }
{
    let mut made = Vec::with_capacity(alloc, columns.len().saturating_add(2))?;
    for column in columns {
        made.push(Column {
            name: column.name.try_clone(alloc)?,
            dtype: column.dtype.try_clone(alloc)?,
            values: repeated_values(alloc, &column.values, count)?,
        })?;
    }
    Ok(made)
}

// The values so often, one after the other.
fn repeated_values(alloc: Global, values: &Values, count: usize) -> Result<Values, PlanError>
    ensures ok { IfOk result (λ made. vals_of made ≡ times count (vals_of values.now)) }
    ensures err { IfErr result (λ error. error ≡ no_memory) }
{
    let mut made = Vec::with_capacity(alloc, values.len().saturating_mul(count))?;
    for _ in 0..count {
        push_copies(&mut made, values, alloc)?;
    }
    Ok(Values::from_values(made))
}

// Puts copies of the values behind the others.
fn push_copies(made: &mut Vec<Value>, values: &Values, alloc: Global) -> Result<(), PlanError>
    ensures ok { OnOk result (map val_of made.new.items ≡ map val_of made.old.items ++ vals_of values.now) }
    ensures err { IfErr result (λ error. error ≡ no_memory) }
{
    for row in 0..values.len() {
        let copy = values.value_at(row).try_clone(alloc)?;
        made.push(copy)?;
    }
    Ok(())
}

// Of each column its name, for each row.
fn names_column(
    alloc: Global,
    name: &Option<PlSmallStr>,
    columns: &[&Column],
) -> Result<Column, PlanError>
    ensures ok { IfOk result (λ made. shown made ≡ ((variable_name name.now, TextType), names_below (map (λ column. shown column.now) columns.now))) }
    ensures err { IfErr result (λ error. error ≡ no_memory) }
{
    let name = name_or(name, "variable", alloc)?;
    let mut names = Vec::new(alloc);
    for column in columns {
        push_names(&mut names, column, alloc)?;
    }
    Ok(Column {
        name,
        dtype: DataType::String,
        values: Values::from_values(names),
    })
}

// Puts the column's name behind the others, for each row.
fn push_names(names: &mut Vec<Value>, column: &Column, alloc: Global) -> Result<(), PlanError>
    ensures ok { OnOk result (map val_of names.new.items ≡ map val_of names.old.items ++ name_values (shown column.now)) }
    ensures err { IfErr result (λ error. error ≡ no_memory) }
{
    for _ in 0..column.values.len() {
        let own = column.name.try_clone(alloc)?;
        names.push(Value::Text(own))?;
    }
    Ok(())
}

// The values of the columns in their common type, one column's after another's.
fn values_column(
    alloc: Global,
    args: &UnpivotArgsIR,
    schema: &Schema,
    columns: &[&Column],
) -> Result<Column, PlanError>
    requires common { is_none (value_type (schema_columns schema.now) args.now.on.items.items args.now.index.items.items) ≡ false }
    requires casts { AllCast (below_type (schema_columns schema.now) args.now.on.items.items args.now.index.items.items) (map (λ column. shown column.now) columns.now) }
    ensures ok { IfOk result (λ made. shown made ≡ ((value_name args.now.value_name, below_type (schema_columns schema.now) args.now.on.items.items args.now.index.items.items), values_below (below_type (schema_columns schema.now) args.now.on.items.items args.now.index.items.items) (map (λ column. shown column.now) columns.now))) }
    ensures err { IfErr result (λ error. error ≡ no_memory) }
{
    let name = name_or(&args.value_name, "value", alloc)?;
    let on = args.on.items.as_slice();
    let Some(dtype) = value_dtype(alloc, on, args.index.items.as_slice(), schema)? else {
        unreachable!()
    };
    let mut values = Vec::new(alloc);
    for column in columns {
        push_cast(&mut values, column, &dtype, alloc)?;
    }
    Ok(Column {
        name,
        dtype,
        values: Values::from_values(values),
    })
}

// Puts a column's values behind the others, cast to the type.
fn push_cast(
    values: &mut Vec<Value>,
    column: &Column,
    dtype: &DataType,
    alloc: Global,
) -> Result<(), PlanError>
    requires known { can_cast (ty column.now.dtype) (ty dtype.now) ≡ true }
    requires fits { all_fit (vals_of column.now.values) (ty column.now.dtype) ≡ true }
    ensures ok { OnOk result (map val_of values.new.items ≡ map val_of values.old.items ++ cast_values (ty dtype.now) (shown column.now)) }
    ensures err { IfErr result (λ error. error ≡ no_memory) }
{
    for row in 0..column.values.len() {
        let value = cast_or_null(alloc, column.values.value_at(row), &column.dtype, dtype)?;
        values.push(value)?;
    }
    Ok(())
}

// The value in the type, or null where it has no place there.
fn cast_or_null(
    alloc: Global,
    value: &Value,
    from: &DataType,
    to: &DataType,
) -> Result<Value, PlanError>
    requires known { can_cast (ty from.now) (ty to.now) ≡ true }
    requires fits { fits (val_of value.now) (ty from.now) ≡ true }
    ensures ok { IfOk result (λ made. val_of made ≡ given_or_null (cast (val_of value.now) (ty from.now) (ty to.now) NonStrict)) }
    ensures err { IfErr result (λ error. error ≡ no_memory) }
{
    match cast_value(alloc, value, from, to, CastOptions::NonStrict) {
        Ok(value) => Ok(value),
        Err(CastError::Failing) => Ok(Value::Null),
        Err(CastError::NoMemory) => Err(PlanError::at_top(ErrorKind::NoMemory)),
    }
}
