//! Casts of values from one type to another.
ghost use Rattle.std.specs.Prelude.{◌≡◌, ◌+ℤ◌, ◌-ℤ◌, ◌≤ℤ◌, ◌<ℤ◌, ◌*ℤ◌, neg_ℤ, ◌||◌, pos, int_lt, true, if◌then◌else◌, encode_utf8_all, ℤ, Some, IfOk, IfErr, MatchOption, FitsSigned};
ghost use Rattle.std.specs.Fmt.{signed_decimal};
ghost use Rattle.std.specs.Int.{int_div_euclid, w128};
ghost use Rattle.plan_types.specs.Errors.{no_memory};
ghost use Rattle.plan_types.specs.Casts.{Gives, can_cast, can_cast_fields, cast, cast_items, cast_parts, integer_to, no_place, number_in, number_to, placed, text_to, truth_text, truth_to, wrapped};
ghost use Rattle.plan_types.specs.Types.{fields_in, per_day, ty, is_integer, is_text};
ghost use Rattle.plan_types.specs.Values.{fits, in_range, items_fit, parts_fit};
ghost use Rattle.plan_types.specs.ValueViews.{parts_of, val_of, values_in, IsCastError, IsPartsError};

use crate::dtype::{CastOptions, DataType, TimeUnit};
use crate::error::{CastError, ErrorKind, PlanError};
use crate::field::Field;
use crate::text::PlSmallStr;
use crate::value::{Parts, Value};
use std::alloc::Global;

// Out of memory, where nothing else can come.
fn out_of_memory(error: PlanError) -> CastError
    requires { error ≡ no_memory }
    ensures { result ≡ CastError.NoMemory }
{
    let PlanError { kind, place: _ } = error;
    match kind {
        ErrorKind::NoMemory => CastError::NoMemory,
        _other => unreachable!(),
    }
}

/// Whether there is a cast from the one type to the other: each type of columns is cast to itself, and null to each.
/// Lists are cast where their items are, and structs of as many fields where these are, by place and whatever their names.
#[cycle(cast_pairs)]
pub fn can_cast(from: &DataType, to: &DataType) -> bool
    ensures { result ≡ can_cast (ty from.now) (ty to.now) }
{
    match from {
        DataType::Null => to.is_known(),
        DataType::Boolean => is_written(to) || matches!(to, DataType::Boolean),
        DataType::String => is_written(to),
        DataType::Date => matches!(to, DataType::Date | DataType::Datetime(_) | DataType::Int64),
        DataType::Time => matches!(to, DataType::Time | DataType::Int64),
        DataType::Datetime(_) => matches!(
            to,
            DataType::Date | DataType::Datetime(_) | DataType::Int64
        ),
        DataType::Duration(_) => matches!(to, DataType::Duration(_) | DataType::Int64),
        DataType::List(item) => match to {
            DataType::List(other) => can_cast(item, other),
            _ => false,
        },
        DataType::Struct(fields) => match to {
            DataType::Struct(others) => {
                can_cast_fields(fields.items.as_slice(), others.items.as_slice())
            }
            _ => false,
        },
        DataType::Unknown(_) => false,
        DataType::Int64 => is_written(to) || matches!(to, DataType::Boolean) || to.is_temporal(),
        _integer => is_written(to) || matches!(to, DataType::Boolean),
    }
}

// Whether there is a cast for each field, by place.
#[cycle(cast_pairs)]
fn can_cast_fields(from: &[Field], to: &[Field]) -> bool
    ensures { result ≡ can_cast_fields (fields_in from.now) (fields_in to.now) }
{
    if from.len() != to.len() {
        return false;
    }
    for index in 0..from.len() {
        if !can_cast(&from[index].dtype, &to[index].dtype) {
            return false;
        }
    }
    true
}

// Whether it is the type of texts or one of integers.
fn is_written(dtype: &DataType) -> bool
    ensures { result ≡ (is_integer (ty dtype.now) || is_text (ty dtype.now)) }
{
    dtype.is_integer() || matches!(dtype, DataType::String)
}

/// The value in another type, where the cast has one for it. Null stays null. Texts are read as an optional sign and
/// digits, and numbers and truth values are written; times are counted in the target's unit and rounded down. Lists are
/// cast by their items, and structs by their parts, in order: where one fails, the whole fails, and where one has no
/// place in a cast that isn't strict, it alone becomes null.
#[cycle(value_casts)]
#[tactic(auto, using(crate::proofs::PartLemmas::list_values))]
pub fn cast_value(
    alloc: Global,
    value: &Value,
    from: &DataType,
    to: &DataType,
    options: CastOptions,
) -> Result<Value, CastError>
    requires known { can_cast (ty from.now) (ty to.now) ≡ true }
    requires fits { fits (val_of value.now) (ty from.now) ≡ true }
    ensures ok { IfOk result (λ converted. cast (val_of value.now) (ty from.now) (ty to.now) options ≡ Gives (val_of converted)) }
    ensures err { IfErr result (IsCastError (cast (val_of value.now) (ty from.now) (ty to.now) options)) }
{
    match value {
        Value::Null => Ok(Value::Null),
        Value::Boolean(truth) => truth_to(alloc, *truth, to, options),
        Value::Int(number) => number_to(alloc, from, *number, to, options),
        Value::Text(text) => text_to(alloc, text, to, options),
        Value::List(items) => match (from, to) {
            (DataType::List(from), DataType::List(to)) => {
                let items = cast_items(alloc, items.items.as_slice(), from, to, options)?;
                Ok(Value::List(items))
            }
            _ => no_place(options),
        },
        Value::Struct(parts) => match (from, to) {
            (DataType::Struct(from), DataType::Struct(to)) => {
                let parts = parts.items.as_slice();
                let parts = cast_parts(
                    alloc,
                    parts,
                    from.items.as_slice(),
                    to.items.as_slice(),
                    options,
                )?;
                Ok(Value::Struct(parts))
            }
            _ => no_place(options),
        },
    }
}

// The items of a list in another type.
#[cycle(value_casts)]
fn cast_items(
    alloc: Global,
    items: &[Value],
    from: &DataType,
    to: &DataType,
    options: CastOptions,
) -> Result<Parts, CastError>
    requires known { can_cast (ty from.now) (ty to.now) ≡ true }
    requires fits { items_fit (values_in items.now) (ty from.now) ≡ true }
    ensures ok { IfOk result (λ converted. cast_items (values_in items.now) (ty from.now) (ty to.now) options ≡ Some (parts_of converted)) }
    ensures err { IfErr result (IsPartsError (cast_items (values_in items.now) (ty from.now) (ty to.now) options)) }
{
    let mut converted = Vec::new(alloc);
    for item in items {
        let item = cast_value(alloc, item, from, to, options)?;
        converted.push(item)?;
    }
    Ok(Parts { items: converted })
}

// The parts of a struct in other types, in order.
#[cycle(value_casts)]
fn cast_parts(
    alloc: Global,
    parts: &[Value],
    from: &[Field],
    to: &[Field],
    options: CastOptions,
) -> Result<Parts, CastError>
    requires known { can_cast_fields (fields_in from.now) (fields_in to.now) ≡ true }
    requires fits { parts_fit (values_in parts.now) (fields_in from.now) ≡ true }
    ensures ok { IfOk result (λ converted. cast_parts (values_in parts.now) (fields_in from.now) (fields_in to.now) options ≡ Some (parts_of converted)) }
    ensures err { IfErr result (IsPartsError (cast_parts (values_in parts.now) (fields_in from.now) (fields_in to.now) options)) }
{
    let mut converted = Vec::new(alloc);
    for index in 0..parts.len() {
        let part = cast_value(
            alloc,
            &parts[index],
            &from[index].dtype,
            &to[index].dtype,
            options,
        )?;
        converted.push(part)?;
    }
    Ok(Parts { items: converted })
}

// A truth value in another type: as a number it is 0 or 1.
fn truth_to(
    alloc: Global,
    truth: bool,
    to: &DataType,
    options: CastOptions,
) -> Result<Value, CastError>
    ensures ok { IfOk result (λ converted. truth_to truth (ty to.now) options ≡ Gives (val_of converted)) }
    ensures err { IfErr result (IsCastError (truth_to truth (ty to.now) options)) }
{
    match to {
        DataType::Boolean => Ok(Value::Boolean(truth)),
        DataType::String => {
            let text = truth_text(alloc, truth).map_err(out_of_memory)?;
            Ok(Value::Text(text))
        }
        _other => {
            if to.is_integer() {
                integer_to(alloc, if truth { 1 } else { 0 }, to, options)
            } else {
                no_place(options)
            }
        }
    }
}

// How a truth value is written.
fn truth_text(alloc: Global, truth: bool) -> Result<PlSmallStr, PlanError>
    ensures ok { IfOk result (λ text. text ≡ truth_text truth) }
    ensures err { IfErr result (λ error. error ≡ no_memory) }
{
    if truth {
        PlSmallStr::new(alloc, "true")
    } else {
        PlSmallStr::new(alloc, "false")
    }
}

// A number of the type in another type.
fn number_to(
    alloc: Global,
    from: &DataType,
    number: i128,
    to: &DataType,
    options: CastOptions,
) -> Result<Value, CastError>
    requires range { in_range (ty from.now) number ≡ true }
    ensures ok { IfOk result (λ converted. number_to (ty from.now) number (ty to.now) options ≡ Gives (val_of converted)) }
    ensures err { IfErr result (IsCastError (number_to (ty from.now) number (ty to.now) options)) }
{
    match (from, to) {
        (DataType::Date, DataType::Datetime(unit)) => {
            placed(rescaled(1, unit.per_day(), number), to, options)
        }
        (DataType::Datetime(unit), DataType::Date) => {
            placed(rescaled(unit.per_day(), 1, number), to, options)
        }
        (DataType::Datetime(unit), DataType::Datetime(other))
        | (DataType::Duration(unit), DataType::Duration(other)) => placed(
            rescaled(unit.per_day(), other.per_day(), number),
            to,
            options,
        ),
        _ => integer_to(alloc, number, to, options),
    }
}

// A number of an integer type in another type.
fn integer_to(
    alloc: Global,
    number: i128,
    to: &DataType,
    options: CastOptions,
) -> Result<Value, CastError>
    ensures ok { IfOk result (λ converted. integer_to number (ty to.now) options ≡ Gives (val_of converted)) }
    ensures err { IfErr result (IsCastError (integer_to number (ty to.now) options)) }
{
    if matches!(to, DataType::Boolean) {
        return Ok(Value::Boolean(number != 0));
    }
    if matches!(to, DataType::String) {
        let text = digits(alloc, number).map_err(out_of_memory)?;
        return Ok(Value::Text(text));
    }
    let overflows = matches!(options, CastOptions::Overflowing) && to.is_integer();
    if overflows && !to.has_number(number) {
        return Ok(Value::Int(wrapped(number, to)));
    }
    placed(number, to, options)
}

// A number in decimal digits.
fn digits(alloc: Global, number: i128) -> Result<PlSmallStr, PlanError>
    ensures ok { IfOk result (λ text. text ≡ signed_decimal number) }
    ensures err { IfErr result (λ error. error ≡ no_memory) }
{
    let text = format!(in alloc; "{number}")?;
    PlSmallStr::new(alloc, text.as_str())
}

// A text in another type: an optional sign and digits are a number.
fn text_to(
    alloc: Global,
    text: &PlSmallStr,
    to: &DataType,
    options: CastOptions,
) -> Result<Value, CastError>
    ensures ok { IfOk result (λ converted. text_to text.now (ty to.now) options ≡ Gives (val_of converted)) }
    ensures err { IfErr result (IsCastError (text_to text.now (ty to.now) options)) }
{
    if matches!(to, DataType::String) {
        let text = text.try_clone(alloc).map_err(out_of_memory)?;
        return Ok(Value::Text(text));
    }
    if !to.is_integer() {
        return no_place(options);
    }
    match number_in(text) {
        Some(number) => placed(number, to, options),
        None => no_place(options),
    }
}

// The number that a text writes, where it has so many bits.
fn number_in(text: &PlSmallStr) -> Option<i128>
    ensures { MatchOption result ((number : ℤ) → number_in (encode_utf8_all text.now) ≡ Some number → FitsSigned w128 number → ⊥)
        (λ number. number_in (encode_utf8_all text.now) ≡ Some number) }
{
    match text.as_str().parse::<i128>() {
        Ok(number) => Some(number),
        Err(_) => None,
    }
}

// A number that has a place in the target where its range has it.
fn placed(number: i128, to: &DataType, options: CastOptions) -> Result<Value, CastError>
    ensures ok { IfOk result (λ converted. placed options (ty to.now) number ≡ Gives (val_of converted)) }
    ensures err { IfErr result (IsCastError (placed options (ty to.now) number)) }
{
    if to.has_number(number) {
        return Ok(Value::Int(number));
    }
    no_place(options)
}

// What has no place in the target: a strict cast fails, and another gives null.
fn no_place(options: CastOptions) -> Result<Value, CastError>
    ensures ok { IfOk result (λ converted. no_place options ≡ Gives (val_of converted)) }
    ensures err { IfErr result (IsCastError (no_place options)) }
{
    match options {
        CastOptions::Strict => Err(CastError::Failing),
        CastOptions::NonStrict | CastOptions::Overflowing => Ok(Value::Null),
    }
}

// A number of so many to a day, counted in another number to a day and rounded down.
fn rescaled(from: i128, target: i128, number: i128) -> i128
    requires from { (pos 0 <ℤ from) × (from ≤ℤ pos (per_day TimeUnit.Nanoseconds)) }
    requires target { (pos 0 <ℤ target) × (target ≤ℤ pos (per_day TimeUnit.Nanoseconds)) }
    requires number { (neg_ℤ (pos 9223372036854775808) ≤ℤ number) × (number ≤ℤ pos 9223372036854775807) }
    ensures { result ≡ int_div_euclid (number *ℤ target) from }
{
    (number * target).div_euclid(from)
}

/// The number of an integer type with the same low bits.
pub fn wrapped(number: i128, dtype: &DataType) -> i128
    requires integer { is_integer (ty dtype.now) ≡ true }
    ensures { result ≡ wrapped (ty dtype.now) number }
{
    match dtype {
        DataType::Int8 => signed(number.rem_euclid(256), 128),
        DataType::Int16 => signed(number.rem_euclid(65_536), 32_768),
        DataType::Int32 => signed(number.rem_euclid(4_294_967_296), 2_147_483_648),
        DataType::Int64 => signed(
            number.rem_euclid(18_446_744_073_709_551_616),
            9_223_372_036_854_775_808,
        ),
        DataType::UInt8 => number.rem_euclid(256),
        DataType::UInt16 => number.rem_euclid(65_536),
        DataType::UInt32 => number.rem_euclid(4_294_967_296),
        DataType::UInt64 => number.rem_euclid(18_446_744_073_709_551_616),
        _other => number,
    }
}

// The low bits as a signed number, of a type with so many numbers from 0 on.
fn signed(low: i128, half: i128) -> i128
    requires low { pos 0 ≤ℤ low }
    requires half { half ≤ℤ pos 9223372036854775808 }
    requires positive { pos 0 ≤ℤ half }
    requires below { low <ℤ (half +ℤ half) }
    ensures { result ≡ (if int_lt low half then low else low -ℤ (half +ℤ half)) }
{
    if low < half { low } else { low - half - half }
}
