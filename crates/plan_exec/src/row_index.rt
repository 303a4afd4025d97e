//! Row indices.
ghost use Rattle.std.specs.Prelude.{◌≡◌, ◌+◌, [], false, map, IfOk, IfErr};
ghost use Rattle.std.specs.List.{range_with_len};
ghost use Rattle.plan_types.specs.Errors.{no_memory};
ghost use Rattle.plan_types.specs.FrameFaults.{vals_of};
ghost use Rattle.plan_types.specs.FrameViews.{frame_of};
ghost use Rattle.plan_types.specs.Types.{Integer};
ghost use Rattle.plan_dsl.specs.Aggregates.{count_value};
ghost use Rattle.plan_dsl.specs.TableFrames.{indexed_on};
ghost use Rattle.plan_dsl.specs.TableFunctions.{RowIndexFunction};
ghost use Rattle.plan_dsl.specs.TableRules.{function_kinds};

use plan_types::column::{Column, Values};
use plan_types::dtype::DataType;
use plan_types::error::PlanError;
use plan_types::frame::Frame;
use plan_types::text::PlSmallStr;
use plan_types::value::Value;
use std::alloc::Global;

/// The frame behind a column of its rows' numbers.
pub fn indexed(
    alloc: Global,
    name: &PlSmallStr,
    offset: Option<u32>,
    frame: Frame,
) -> Result<Frame, PlanError>
    requires { function_kinds (RowIndexFunction name.now offset) (frame_of frame).schema ≡ [] }
    ensures ok { IfOk result (λ made. frame_of made ≡ indexed_on name.now offset (frame_of frame)) }
    ensures err { IfErr result (λ error. error ≡ no_memory) }
{
    let values = row_numbers(alloc, offset.unwrap_or(0), frame.height())?;
    let name = name.try_clone(alloc)?;
    let mut columns = frame.into_columns();
    columns.insert(
        0,
        Column {
            name,
            dtype: DataType::UInt32,
            values,
        },
    )?;
    Ok(Frame::new_no_checks(columns))
}

// The numbers of so many rows, counted from the first on, in 32 bits.
fn row_numbers(alloc: Global, first: u32, height: usize) -> Result<Values, PlanError>
    ensures ok { IfOk result (λ values. vals_of values ≡ map (λ number. count_value (Integer false 32) (first + number)) (range_with_len 0 height)) }
    ensures err { IfErr result (λ error. error ≡ no_memory) }
{
    let mut values = Vec::with_capacity(alloc, height)?;
    let mut number = first;
    for _ in 0..height {
        values.push(Value::Int(i128::from(number)))?;
        number = number.wrapping_add(1);
    }
    Ok(Values::from_values(values))
}
