//! Casts of values of any size, and those that fail at the last of many parts.

use crate::fixtures::{LENGTHS, LEVELS, NO_MEMORY, SIZES, deep_type, long_name, struct_type};
use crate::values::{deep_value, parts_of};
use plan_types::cast::{can_cast, cast_value};
use plan_types::dtype::CastOptions;
use plan_types::dtype::DataType::{
    self, Boolean, Date, Datetime, Duration, Int8, Int64, Null, String as Text, Time, UInt8,
};
use plan_types::dtype::TimeUnit::{Milliseconds, Nanoseconds};
use plan_types::error::CastError;
use plan_types::text::PlSmallStr;
use plan_types::value::Value;
use std::alloc::Global;
use std::process::Abort;

// A cast gives that value, or it fails.
fn assert_one_cast(
    rt: &impl Abort,
    alloc: Global,
    value: &Value,
    from: &DataType,
    to: &DataType,
    options: CastOptions,
    want: Option<&Value>,
) {
    assert!(rt; can_cast(from, to));
    assert!(rt; value.fits(from));
    match cast_value(alloc, value, from, to, options) {
        Ok(found) => {
            assert!(rt; want == Some(&found));
            drop(found);
        }
        Err(CastError::Failing) => assert!(rt; want.is_none()),
        Err(CastError::NoMemory) => panic!(rt; "there is memory"),
    }
}

// Each way to cast gives this value.
fn assert_cast(
    rt: &impl Abort,
    alloc: Global,
    value: &Value,
    from: &DataType,
    to: &DataType,
    want: &Value,
) {
    for options in [
        CastOptions::Strict,
        CastOptions::NonStrict,
        CastOptions::Overflowing,
    ] {
        assert_one_cast(rt, alloc, value, from, to, options, Some(want));
    }
}

// The strict cast fails.
fn assert_failing(rt: &impl Abort, alloc: Global, value: &Value, from: &DataType, to: &DataType) {
    assert_one_cast(rt, alloc, value, from, to, CastOptions::Strict, None);
}

// The cast that isn't strict gives this value.
fn assert_nulled(
    rt: &impl Abort,
    alloc: Global,
    value: &Value,
    from: &DataType,
    to: &DataType,
    want: &Value,
) {
    assert_one_cast(
        rt,
        alloc,
        value,
        from,
        to,
        CastOptions::NonStrict,
        Some(want),
    );
}

#[test]
fn values_without_parts_are_cast(rt: HostRuntime) {
    for (value, from, to, want) in &[
        (Value::Null, Null, Date, Value::Null),
        (Value::Null, Int8, Text, Value::Null),
        (Value::Boolean(true), Boolean, Boolean, Value::Boolean(true)),
        (Value::Boolean(true), Boolean, Int8, Value::Int(1)),
        (Value::Int(2), Int8, Boolean, Value::Boolean(true)),
        (Value::Int(5), Int64, UInt8, Value::Int(5)),
        (Value::Int(5), Int64, Time, Value::Int(5)),
        (
            Value::Int(1),
            Date,
            Datetime(Milliseconds),
            Value::Int(86_400_000),
        ),
        (Value::Int(-1), Datetime(Nanoseconds), Date, Value::Int(-1)),
        (
            Value::Int(7),
            Duration(Milliseconds),
            Duration(Nanoseconds),
            Value::Int(7_000_000),
        ),
        (Value::Int(9), Duration(Milliseconds), Int64, Value::Int(9)),
    ] {
        assert_cast(&rt, rt.alloc(), value, from, to, want);
    }
}

// Each way to cast the value to the type of texts gives that text.
fn assert_written(rt: &impl Abort, alloc: Global, value: &Value, from: &DataType, want: &str) {
    let text = PlSmallStr::new(alloc, want).expect(rt, NO_MEMORY);
    let want = Value::Text(text);
    assert_cast(rt, alloc, value, from, &Text, &want);
    drop(want);
}

#[test]
fn values_are_cast_to_texts(rt: HostRuntime) {
    for (value, from, want) in &[
        (Value::Boolean(true), Boolean, "true"),
        (Value::Boolean(false), Boolean, "false"),
        (Value::Int(0), Int8, "0"),
        (
            Value::Int(-9_223_372_036_854_775_808),
            Int64,
            "-9223372036854775808",
        ),
    ] {
        assert_written(&rt, rt.alloc(), value, from, want);
    }
}

#[test]
fn texts_of_any_length_stay_texts(rt: HostRuntime) {
    for length in LENGTHS {
        let value = Value::Text(long_name(&rt, rt.alloc(), length));
        assert_cast(&rt, rt.alloc(), &value, &Text, &Text, &value);
        drop(value);
    }
}

// A text of so many digits, each of which is 0.
fn zeros(rt: &impl Abort, alloc: Global, count: usize) -> Value {
    let digits = "0".repeat(alloc, count).expect(rt, NO_MEMORY);
    Value::Text(PlSmallStr::new(alloc, digits.as_str()).expect(rt, NO_MEMORY))
}

#[test]
fn texts_of_any_length_are_read_as_numbers(rt: HostRuntime) {
    for count in [1, 2, 1_001, 100_000] {
        let value = zeros(&rt, rt.alloc(), count);
        assert_cast(&rt, rt.alloc(), &value, &Text, &Int8, &Value::Int(0));
        drop(value);
    }
}

#[test]
fn lists_of_any_size_are_cast(rt: HostRuntime) {
    let from = deep_type(&rt, rt.alloc(), 1, &Int64);
    let to = deep_type(&rt, rt.alloc(), 1, &Boolean);
    for count in [0, 1, 2, 300, 100_000] {
        let value = Value::List(parts_of(&rt, rt.alloc(), count, &Value::Int(5)));
        let want = Value::List(parts_of(&rt, rt.alloc(), count, &Value::Boolean(true)));
        assert_cast(&rt, rt.alloc(), &value, &from, &to, &want);
        drop(value);
        drop(want);
    }
    drop(from);
    drop(to);
}

#[test]
fn structs_of_any_size_are_cast(rt: HostRuntime) {
    for count in SIZES {
        let from = struct_type(&rt, rt.alloc(), count, &Int64);
        let to = struct_type(&rt, rt.alloc(), count, &Boolean);
        let value = Value::Struct(parts_of(&rt, rt.alloc(), count, &Value::Int(5)));
        let want = Value::Struct(parts_of(&rt, rt.alloc(), count, &Value::Boolean(true)));
        assert_cast(&rt, rt.alloc(), &value, &from, &to, &want);
        drop(value);
        drop(want);
        drop(from);
        drop(to);
    }
}

#[test]
fn lists_of_any_depth_are_cast(rt: HostRuntime) {
    for levels in LEVELS {
        let from = deep_type(&rt, rt.alloc(), levels, &Int64);
        let to = deep_type(&rt, rt.alloc(), levels, &UInt8);
        let value = deep_value(&rt, rt.alloc(), levels, 5);
        assert_cast(&rt, rt.alloc(), &value, &from, &to, &value);
        drop(value);
        let value = deep_value(&rt, rt.alloc(), levels, 300);
        assert_failing(&rt, rt.alloc(), &value, &from, &to);
        drop(value);
        drop(from);
        drop(to);
    }
}

// A list of so many values and a last one.
fn with_last(rt: &impl Abort, alloc: Global, others: usize, last: Value) -> Value {
    let mut parts = parts_of(rt, alloc, others, &Value::Int(5));
    parts.items.push(last).expect(rt, NO_MEMORY);
    Value::List(parts)
}

#[test]
fn a_cast_fails_at_the_last_of_any_items(rt: HostRuntime) {
    let from = deep_type(&rt, rt.alloc(), 1, &Int64);
    let to = deep_type(&rt, rt.alloc(), 1, &Int8);
    for others in [0, 1, 2, 300, 100_000] {
        let value = with_last(&rt, rt.alloc(), others, Value::Int(300));
        assert_failing(&rt, rt.alloc(), &value, &from, &to);
        let want = with_last(&rt, rt.alloc(), others, Value::Null);
        assert_nulled(&rt, rt.alloc(), &value, &from, &to, &want);
        drop(value);
        drop(want);
    }
    drop(from);
    drop(to);
}
