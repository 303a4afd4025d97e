//! Operands of arithmetic of which one is a time.
ghost use Rattle.std.specs.Prelude.{◌≡◌, true, Ok, IfOk, IfErr, OnOk};
ghost use Rattle.plan_types.specs.Errors.{IsRefusal};
ghost use Rattle.plan_types.specs.Types.{DateType, DatetimeType, DurationType, Integer, TimeType, ty};
ghost use Rattle.plan_types.specs.declared.dtype.TimeUnit.{TimeUnit};
ghost use Rattle.plan_types.specs.declared.dtype.TimeUnit.TheVariants.{Milliseconds, Nanoseconds};
ghost use Rattle.plan_dsl.specs.OperatorTypes.{pair_to, time_difference_types, time_product_types, time_sum_types, time_types};

use super::OperandTypes;
use plan_dsl::operator::Operator;
use plan_types::dtype::{DataType, TimeUnit, get_time_units};
use plan_types::error::{ErrorKind, PlanError};

// Times are added, subtracted and multiplied, each by rows of its own.
pub(super) fn time_types(
    left: &DataType,
    op: Operator,
    right: &DataType,
) -> Result<OperandTypes, PlanError>
    ensures ok { IfOk result (λ taken. time_types op (ty left.now) (ty right.now) ≡ Ok (pair_to (ty taken.left) (ty taken.right) (ty taken.result))) }
    ensures err { IfErr result (IsRefusal (time_types op (ty left.now) (ty right.now))) }
{
    match op {
        Operator::Plus => time_sum_types(left, right),
        Operator::Minus => time_difference_types(left, right),
        Operator::Multiply => time_product_types(left, right),
        _ => Err(PlanError::at_top(ErrorKind::InvalidOperation)),
    }
}

// Spans are added to spans and to moments, in the coarser unit.
fn time_sum_types(left: &DataType, right: &DataType) -> Result<OperandTypes, PlanError>
    ensures ok { IfOk result (λ taken. time_sum_types (ty left.now) (ty right.now) ≡ Ok (pair_to (ty taken.left) (ty taken.right) (ty taken.result))) }
    ensures err { IfErr result (IsRefusal (time_sum_types (ty left.now) (ty right.now))) }
{
    match left {
        DataType::Duration(unit) => match right {
            DataType::Duration(other) => Ok(two_spans(get_time_units(*unit, *other))),
            DataType::Datetime(other) => Ok(span_and_moment(get_time_units(*unit, *other))),
            _ => Err(PlanError::at_top(ErrorKind::InvalidOperation)),
        },
        DataType::Datetime(unit) => match right {
            DataType::Duration(other) => Ok(moment_and_span(get_time_units(*unit, *other))),
            _ => Err(PlanError::at_top(ErrorKind::InvalidOperation)),
        },
        _ => Err(PlanError::at_top(ErrorKind::InvalidOperation)),
    }
}

// Between two times lies a span, and a span before a moment is a moment.
fn time_difference_types(left: &DataType, right: &DataType) -> Result<OperandTypes, PlanError>
    ensures ok { IfOk result (λ taken. time_difference_types (ty left.now) (ty right.now) ≡ Ok (pair_to (ty taken.left) (ty taken.right) (ty taken.result))) }
    ensures err { IfErr result (IsRefusal (time_difference_types (ty left.now) (ty right.now))) }
{
    match left {
        DataType::Date => match right {
            DataType::Date => Ok(two_dates()),
            DataType::Datetime(unit) => Ok(two_moments(*unit)),
            _ => Err(PlanError::at_top(ErrorKind::InvalidOperation)),
        },
        DataType::Time => match right {
            DataType::Time => Ok(two_times()),
            _ => Err(PlanError::at_top(ErrorKind::InvalidOperation)),
        },
        DataType::Datetime(unit) => match right {
            DataType::Date => Ok(two_moments(*unit)),
            DataType::Datetime(other) => Ok(two_moments(get_time_units(*unit, *other))),
            DataType::Duration(other) => Ok(moment_and_span(get_time_units(*unit, *other))),
            _ => Err(PlanError::at_top(ErrorKind::InvalidOperation)),
        },
        DataType::Duration(unit) => match right {
            DataType::Duration(other) => Ok(two_spans(get_time_units(*unit, *other))),
            _ => Err(PlanError::at_top(ErrorKind::InvalidOperation)),
        },
        _ => Err(PlanError::at_top(ErrorKind::InvalidOperation)),
    }
}

// Two days, which have their milliseconds between them.
fn two_dates() -> OperandTypes
    ensures { pair_to (ty result.left) (ty result.right) (ty result.result) ≡ pair_to DateType DateType (DurationType Milliseconds) }
{
    OperandTypes {
        left: DataType::Date,
        right: DataType::Date,
        result: DataType::Duration(TimeUnit::Milliseconds),
    }
}

// Two times of a day, which are counted in nanoseconds.
fn two_times() -> OperandTypes
    ensures { pair_to (ty result.left) (ty result.right) (ty result.result) ≡ pair_to TimeType TimeType (DurationType Nanoseconds) }
{
    OperandTypes {
        left: DataType::Time,
        right: DataType::Time,
        result: DataType::Duration(TimeUnit::Nanoseconds),
    }
}

// A span and another.
fn two_spans(unit: TimeUnit) -> OperandTypes
    ensures { pair_to (ty result.left) (ty result.right) (ty result.result) ≡ pair_to (DurationType unit) (DurationType unit) (DurationType unit) }
{
    OperandTypes {
        left: DataType::Duration(unit),
        right: DataType::Duration(unit),
        result: DataType::Duration(unit),
    }
}

// A moment and the span behind or before it.
fn moment_and_span(unit: TimeUnit) -> OperandTypes
    ensures { pair_to (ty result.left) (ty result.right) (ty result.result) ≡ pair_to (DatetimeType unit) (DurationType unit) (DatetimeType unit) }
{
    OperandTypes {
        left: DataType::Datetime(unit),
        right: DataType::Duration(unit),
        result: DataType::Datetime(unit),
    }
}

fn span_and_moment(unit: TimeUnit) -> OperandTypes
    ensures { pair_to (ty result.left) (ty result.right) (ty result.result) ≡ pair_to (DurationType unit) (DatetimeType unit) (DatetimeType unit) }
{
    OperandTypes {
        left: DataType::Duration(unit),
        right: DataType::Datetime(unit),
        result: DataType::Datetime(unit),
    }
}

// Two moments, between which a span lies.
fn two_moments(unit: TimeUnit) -> OperandTypes
    ensures { pair_to (ty result.left) (ty result.right) (ty result.result) ≡ pair_to (DatetimeType unit) (DatetimeType unit) (DurationType unit) }
{
    OperandTypes {
        left: DataType::Datetime(unit),
        right: DataType::Datetime(unit),
        result: DataType::Duration(unit),
    }
}

// A span is taken as many times as an integer says.
fn time_product_types(left: &DataType, right: &DataType) -> Result<OperandTypes, PlanError>
    ensures ok { IfOk result (λ taken. time_product_types (ty left.now) (ty right.now) ≡ Ok (pair_to (ty taken.left) (ty taken.right) (ty taken.result))) }
    ensures err { IfErr result (IsRefusal (time_product_types (ty left.now) (ty right.now))) }
{
    match left {
        DataType::Duration(unit) => {
            check_factor(right)?;
            Ok(OperandTypes {
                left: DataType::Duration(*unit),
                right: DataType::Int64,
                result: DataType::Duration(*unit),
            })
        }
        _ => match right {
            DataType::Duration(unit) => {
                check_factor(left)?;
                Ok(OperandTypes {
                    left: DataType::Int64,
                    right: DataType::Duration(*unit),
                    result: DataType::Duration(*unit),
                })
            }
            _ => Err(PlanError::at_top(ErrorKind::InvalidOperation)),
        },
    }
}

// What a span is taken by: an integer of a type whose numbers 64 bits with a sign hold.
fn check_factor(factor: &DataType) -> Result<(), PlanError>
    ensures ok { OnOk result ((unit : TimeUnit) →
        (time_product_types (DurationType unit) (ty factor.now) ≡ Ok (pair_to (DurationType unit) (Integer true 64) (DurationType unit)))
        × (time_product_types (ty factor.now) (DurationType unit) ≡ Ok (pair_to (Integer true 64) (DurationType unit) (DurationType unit)))) }
    ensures err { IfErr result (λ error. (unit : TimeUnit) →
        IsRefusal (time_product_types (DurationType unit) (ty factor.now)) error × IsRefusal (time_product_types (ty factor.now) (DurationType unit)) error) }
{
    if !factor.is_integer() {
        return Err(PlanError::at_top(ErrorKind::InvalidOperation));
    }
    match factor {
        DataType::UInt64 => Err(PlanError::at_top(ErrorKind::SchemaMismatch)),
        _ => Ok(()),
    }
}
