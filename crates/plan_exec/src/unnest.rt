//! Unnests.
ghost use Rattle.std.specs.Prelude.{◌≡◌, ◌++◌, [], drop, map, IfOk, IfErr, OnOk};
ghost use Rattle.std.specs.List.{flat_map};
ghost use Rattle.std.specs.Vec.Iter.{into_iter_items};
ghost use Rattle.plan_types.specs.Errors.{no_memory};
ghost use Rattle.plan_types.specs.FrameFaults.{shown, vals_of};
ghost use Rattle.plan_types.specs.FrameViews.{frame_of};
ghost use Rattle.plan_types.specs.Types.{fields_of};
ghost use Rattle.plan_types.specs.ValueViews.{val_of};
ghost use Rattle.plan_dsl.specs.Aggregates.{first_value};
ghost use Rattle.plan_dsl.specs.TableFrames.{unnested_on};
ghost use Rattle.plan_dsl.specs.TableRules.{unnest_kinds};
ghost use Rattle.plan_exec.specs.ColumnFunctions.{is_kept, parted, parts_in, unnested_column};

use indexmap::IndexSet;
use plan_dsl::function_schema::names_in;
use plan_types::column::{Column, Values};
use plan_types::dtype::{DataType, Fields};
use plan_types::error::PlanError;
use plan_types::field::Field;
use plan_types::frame::Frame;
use plan_types::text::PlSmallStr;
use plan_types::value::Value;
use std::alloc::Global;
use std::vec::IntoIter;

/// The frame with the fields of structs in place of these.
pub fn unnested(alloc: Global, names: &[PlSmallStr], frame: Frame) -> Result<Frame, PlanError>
    requires { unnest_kinds (frame_of frame).schema names.now ≡ [] }
    ensures ok { IfOk result (λ made. frame_of made ≡ unnested_on names.now (frame_of frame)) }
    ensures err { IfErr result (λ error. error ≡ no_memory) }
{
    let names = names_in(alloc, names)?;
    let columns = unnested_columns(alloc, &names, frame.into_columns())?;
    Ok(Frame::new_no_checks(columns))
}

// The columns, with those of fields in place of those of structs of these names.
fn unnested_columns(
    alloc: Global,
    names: &IndexSet<&PlSmallStr>,
    columns: Vec<Column>,
) -> Result<Vec<Column>, PlanError>
    ensures ok { IfOk result (λ made. map shown made.items ≡ flat_map (unnested_column (is_kept names.now.keys)) (map shown columns.items)) }
    ensures err { IfErr result (λ error. error ≡ no_memory) }
{
    let mut made = Vec::with_capacity(alloc, columns.len())?;
    for column in columns {
        push_unnested(&mut made, names, column, alloc)?;
    }
    Ok(made)
}

// Puts a column behind the others, or those of its fields where it is of one of the names.
fn push_unnested(
    made: &mut Vec<Column>,
    names: &IndexSet<&PlSmallStr>,
    column: Column,
    alloc: Global,
) -> Result<(), PlanError>
    ensures ok { OnOk result (map shown made.new.items ≡ map shown made.old.items ++ unnested_column (is_kept names.now.keys) (shown column)) }
    ensures err { IfErr result (λ error. error ≡ no_memory) }
{
    let Column {
        name,
        dtype,
        values,
    } = column;
    let listed = is_listed(names, &name);
    match dtype {
        DataType::Struct(fields) if listed => push_fields(made, fields, values, alloc)?,
        dtype => made.push(Column {
            name,
            dtype,
            values,
        })?,
    }
    Ok(())
}

// Whether the name is one of the names.
fn is_listed(names: &IndexSet<&PlSmallStr>, name: &PlSmallStr) -> bool
    ensures { result ≡ is_kept names.now.keys name.now }
{
    names.contains(&name)
}

// Puts a column for each field of the structs behind the others.
fn push_fields(
    made: &mut Vec<Column>,
    fields: Fields,
    values: Values,
    alloc: Global,
) -> Result<(), PlanError>
    ensures ok { OnOk result (map shown made.new.items ≡ map shown made.old.items ++ parted (fields_of fields) (map parts_in (vals_of values))) }
    ensures err { IfErr result (λ error. error ≡ no_memory) }
{
    let mut rows = rows_of(alloc, values)?;
    for field in fields.items {
        let Field { name, dtype } = field;
        let values = next_of_each(&mut rows, alloc)?;
        made.push(Column {
            name,
            dtype,
            values,
        })?;
    }
    Ok(())
}

// The parts of each struct, of which a null has none.
fn rows_of(alloc: Global, values: Values) -> Result<Vec<IntoIter<Value>>, PlanError>
    ensures ok { IfOk result (λ rows. map (λ row. map val_of (into_iter_items row)) rows.items ≡ map parts_in (vals_of values)) }
    ensures err { IfErr result (λ error. error ≡ no_memory) }
{
    let mut rows = Vec::with_capacity(alloc, values.len())?;
    for value in values.into_values() {
        rows.push(parts_of(value, alloc).into_iter())?;
    }
    Ok(rows)
}

// The parts of a struct. Any other value has none.
fn parts_of(value: Value, alloc: Global) -> Vec<Value>
    ensures { map val_of result.items ≡ parts_in (val_of value) }
{
    match value {
        Value::Struct(parts) => parts.items,
        _ => Vec::new(alloc),
    }
}

// The next part of each row, and null where there is none.
fn next_of_each(rows: &mut Vec<IntoIter<Value>>, alloc: Global) -> Result<Values, PlanError>
    ensures ok { IfOk result (λ values. vals_of values ≡ map first_value (map (λ row. map val_of (into_iter_items row)) rows.old.items)) }
    ensures left { OnOk result (map (λ row. map val_of (into_iter_items row)) rows.new.items ≡ map (drop 1) (map (λ row. map val_of (into_iter_items row)) rows.old.items)) }
    ensures err { IfErr result (λ error. error ≡ no_memory) }
{
    let mut values = Vec::with_capacity(alloc, rows.len())?;
    for row in rows.iter_mut() {
        let value = match row.next() {
            Some(value) => value,
            None => Value::Null,
        };
        values.push(value)?;
    }
    Ok(Values::from_values(values))
}
