//! Values: copies.

use crate::fixtures::{LENGTHS, LEVELS, NO_MEMORY, SIZES, assert_alike, long_name};
use plan_types::value::{Parts, Value};
use std::alloc::Global;
use std::process::Abort;

/// So many copies of the value.
pub(crate) fn parts_of(rt: &impl Abort, alloc: Global, count: usize, value: &Value) -> Parts {
    let mut items = Vec::new(alloc);
    for _ in 0..count {
        let item = value.try_clone(alloc).expect(rt, NO_MEMORY);
        items.push(item).expect(rt, NO_MEMORY);
    }
    Parts { items }
}

/// A list of a list, so many levels deep, of the number.
pub(crate) fn deep_value(rt: &impl Abort, alloc: Global, levels: usize, number: i128) -> Value {
    let mut deep = Value::Int(number);
    for _ in 0..levels {
        let mut items = Vec::new(alloc);
        items.push(deep).expect(rt, NO_MEMORY);
        deep = Value::List(Parts { items });
    }
    deep
}

fn assert_copied(rt: &impl Abort, alloc: Global, value: &Value) {
    let copy = value.try_clone(alloc).expect(rt, NO_MEMORY);
    assert_alike(rt, copy, value);
}

#[test]
fn values_without_parts_are_copied(rt: HostRuntime) {
    for value in &[
        Value::Null,
        Value::Boolean(false),
        Value::Boolean(true),
        Value::Int(0),
        Value::Int(i128::MAX),
    ] {
        assert_copied(&rt, rt.alloc(), value);
    }
}

#[test]
fn texts_of_any_length_are_copied(rt: HostRuntime) {
    for length in LENGTHS {
        let value = Value::Text(long_name(&rt, rt.alloc(), length));
        assert_copied(&rt, rt.alloc(), &value);
        drop(value);
    }
}

#[test]
fn lists_and_structs_of_any_size_are_copied(rt: HostRuntime) {
    for count in SIZES {
        let list = Value::List(parts_of(&rt, rt.alloc(), count, &Value::Int(7)));
        assert_copied(&rt, rt.alloc(), &list);
        let record = Value::Struct(parts_of(&rt, rt.alloc(), count, &list));
        assert_copied(&rt, rt.alloc(), &record);
        drop(list);
        drop(record);
    }
}

#[test]
fn values_of_any_depth_are_copied(rt: HostRuntime) {
    for levels in LEVELS {
        let value = deep_value(&rt, rt.alloc(), levels, 127);
        assert_copied(&rt, rt.alloc(), &value);
        drop(value);
    }
}
