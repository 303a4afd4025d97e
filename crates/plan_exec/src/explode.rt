//! Explodes.
ghost use Rattle.std.specs.Prelude.{◌≡◌, ◌++◌, [], true, length, map, replicate, Decides, IfOk, IfErr, OnOk};
ghost use Rattle.plan_types.specs.Errors.{no_memory};
ghost use Rattle.plan_types.specs.FrameFaults.{shown, vals_of};
ghost use Rattle.plan_types.specs.FrameViews.{frame_of};
ghost use Rattle.plan_types.specs.ValueViews.{val_of};
ghost use Rattle.plan_dsl.specs.Picks.{exploded, explode_values, or_null};
ghost use Rattle.plan_types.specs.Types.{ty};
ghost use Rattle.plan_dsl.specs.Plans.{FunctionWork};
ghost use Rattle.plan_dsl.specs.Signatures.{own_type};
ghost use Rattle.plan_dsl.specs.declared.signature.OwnType.TheVariants.{Item};
ghost use Rattle.plan_dsl.specs.TableFunctions.{ExplodeFunction};
ghost use Rattle.plan_dsl.specs.TableRules.{explode_kinds};
ghost use Rattle.plan_exec.specs.ColumnFunctions.{AllMake, Disagree, counts_in, exploded_column, is_kept, repeated, some_listed};
ghost use Rattle.plan_exec.specs.Evaluations.{IsEvaluation};

use crate::error::{ExecError, out_of_memory};
use indexmap::IndexSet;
use plan_dsl::function_schema::names_in;
use plan_types::column::{Column, Values};
use plan_types::dtype::DataType;
use plan_types::error::PlanError;
use plan_types::frame::Frame;
use plan_types::text::PlSmallStr;
use plan_types::value::Value;
use std::alloc::Global;

/// A row for each item of the lists in the columns of these names. Lists of one row that make different numbers of rows
/// are a fault.
pub fn exploded(alloc: Global, names: &[PlSmallStr], frame: Frame) -> Result<Frame, ExecError>
    requires { explode_kinds (frame_of frame).schema names.now ≡ [] }
    ensures { IsEvaluation (FunctionWork (ExplodeFunction names.now)) (frame_of frame) result }
{
    let names = names_in(alloc, names).map_err(out_of_memory)?;
    let columns = frame.into_columns();
    let counts = row_counts(alloc, &names, columns.as_slice())?;
    let columns = exploded_columns(alloc, &names, counts.as_slice(), columns).map_err(
        out_of_memory,
    )?;
    Ok(Frame::new_no_checks(columns))
}

// How many rows each row makes, in which the columns of these names must agree.
fn row_counts(
    alloc: Global,
    names: &IndexSet<&PlSmallStr>,
    columns: &[Column],
) -> Result<Vec<usize>, ExecError>
    requires { some_listed (is_kept names.now.keys) (map shown columns.now) ≡ true }
    ensures ok { IfOk result (λ counts. AllMake (is_kept names.now.keys) counts.items (map shown columns.now)) }
    ensures err { IfErr result (λ error. error ≡ ExecError.DataFault → Disagree (is_kept names.now.keys) (map shown columns.now)) }
{
    let mut found: Option<Vec<usize>> = None;
    for column in columns {
        let name = &column.name;
        if names.contains(&name) {
            if let Some(counts) = &found {
                if !make_as_many(&column.values, counts.as_slice()) {
                    return Err(ExecError::DataFault);
                }
            } else {
                found = Some(counts_of(alloc, &column.values)?);
            }
        }
    }
    match found {
        Some(counts) => Ok(counts),
        None => unreachable!(),
    }
}

// How many rows each of these values makes.
fn counts_of(alloc: Global, values: &Values) -> Result<Vec<usize>, ExecError>
    ensures ok { IfOk result (λ counts. counts.items ≡ counts_in (vals_of values.now)) }
    ensures err { IfErr result (λ error. error ≡ ExecError.NoMemory) }
{
    let mut counts = Vec::with_capacity(alloc, values.len())?;
    for row in 0..values.len() {
        counts.push(row_count(values.value_at(row)))?;
    }
    Ok(counts)
}

// How many rows the value makes: a list one for each item, and an empty list and a null one.
fn row_count(value: &Value) -> usize
    ensures { result ≡ length (exploded (val_of value.now)) }
{
    match value {
        Value::List(parts) => parts.items.len().max(1),
        _ => 1,
    }
}

// Whether the values make as many rows.
fn make_as_many(values: &Values, counts: &[usize]) -> bool
    ensures { Decides result (counts_in (vals_of values.now) ≡ counts.now) }
{
    if values.len() != counts.len() {
        return false;
    }
    for row in 0..counts.len() {
        if row_count(values.value_at(row)) != counts[row] {
            return false;
        }
    }
    true
}

// The columns, with the items of lists under these names, and other values as often as their rows make rows.
fn exploded_columns(
    alloc: Global,
    names: &IndexSet<&PlSmallStr>,
    counts: &[usize],
    columns: Vec<Column>,
) -> Result<Vec<Column>, PlanError>
    ensures ok { IfOk result (λ made. map shown made.items ≡ map (exploded_column (is_kept names.now.keys) counts.now) (map shown columns.items)) }
    ensures err { IfErr result (λ error. error ≡ no_memory) }
{
    let room = sum(counts);
    let mut made = Vec::with_capacity(alloc, columns.len())?;
    for column in columns {
        let Column {
            name,
            dtype,
            values,
        } = column;
        let key = &name;
        let column = if names.contains(&key) {
            Column {
                dtype: item_dtype(dtype),
                values: items_of(alloc, values, room)?,
                name,
            }
        } else {
            Column {
                values: repeated(alloc, values, counts, room)?,
                dtype,
                name,
            }
        };
        made.push(column)?;
    }
    Ok(made)
}

// All rows that are made, or the greatest number where there are more.
fn sum(counts: &[usize]) -> usize {
    let mut sum: usize = 0;
    for count in counts {
        sum = sum.saturating_add(*count);
    }
    sum
}

// The type of a list's items. Any other type stays.
fn item_dtype(dtype: DataType) -> DataType
    ensures { ty result ≡ own_type Item (ty dtype) }
{
    match dtype {
        DataType::List(item) => Box::into_inner(item),
        _ => dtype,
    }
}

// The items of lists, one list's behind another's.
fn items_of(alloc: Global, values: Values, room: usize) -> Result<Values, PlanError>
    ensures ok { IfOk result (λ items. vals_of items ≡ explode_values (vals_of values)) }
    ensures err { IfErr result (λ error. error ≡ no_memory) }
{
    let mut items = Vec::with_capacity(alloc, room)?;
    for value in values.into_values() {
        push_items(&mut items, value)?;
    }
    Ok(Values::from_values(items))
}

// Puts what the value explodes to behind the items.
fn push_items(items: &mut Vec<Value>, value: Value) -> Result<(), PlanError>
    ensures ok { OnOk result (map val_of items.new.items ≡ map val_of items.old.items ++ exploded (val_of value)) }
    ensures err { IfErr result (λ error. error ≡ no_memory) }
{
    match value {
        Value::List(parts) => push_list(items, parts.items)?,
        value => items.push(value)?,
    }
    Ok(())
}

// Puts a list's own items behind the items, and a null in place of none.
fn push_list(items: &mut Vec<Value>, own: Vec<Value>) -> Result<(), PlanError>
    ensures ok { OnOk result (map val_of items.new.items ≡ map val_of items.old.items ++ or_null (map val_of own.items)) }
    ensures err { IfErr result (λ error. error ≡ no_memory) }
{
    if own.is_empty() {
        items.push(Value::Null)?;
        return Ok(());
    }
    push_all(items, own)
}

// Puts values behind the others.
fn push_all(values: &mut Vec<Value>, own: Vec<Value>) -> Result<(), PlanError>
    ensures ok { OnOk result (map val_of values.new.items ≡ map val_of values.old.items ++ map val_of own.items) }
    ensures err { IfErr result (λ error. error ≡ no_memory) }
{
    for value in own {
        values.push(value)?;
    }
    Ok(())
}

// Each value as often as its row makes rows.
fn repeated(
    alloc: Global,
    values: Values,
    counts: &[usize],
    room: usize,
) -> Result<Values, PlanError>
    ensures ok { IfOk result (λ made. vals_of made ≡ repeated counts.now (vals_of values)) }
    ensures err { IfErr result (λ error. error ≡ no_memory) }
{
    let mut made = Vec::with_capacity(alloc, room)?;
    for (value, count) in values.into_values().into_iter().zip(counts) {
        push_times(&mut made, value, *count, alloc)?;
    }
    Ok(Values::from_values(made))
}

// Puts the value behind the others so often.
fn push_times(
    values: &mut Vec<Value>,
    value: Value,
    count: usize,
    alloc: Global,
) -> Result<(), PlanError>
    ensures ok { OnOk result (map val_of values.new.items ≡ map val_of values.old.items ++ replicate count (val_of value)) }
    ensures err { IfErr result (λ error. error ≡ no_memory) }
{
    if count == 0 {
        return Ok(());
    }
    for _ in 0..count - 1 {
        let copy = value.try_clone(alloc)?;
        values.push(copy)?;
    }
    values.push(value)?;
    Ok(())
}
