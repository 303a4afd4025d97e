//! Schemas of any number of columns.

use crate::fixtures::{LENGTHS, NO_MEMORY, SIZES, assert_refused, long_name, numbered};
use plan_types::dtype::DataType::{self, Date, Int8, Int16, UInt8};
use plan_types::error::ErrorKind;
use plan_types::schema::Schema;
use std::alloc::Global;
use std::process::Abort;

// Gives so many columns the type.
fn put(rt: &impl Abort, alloc: Global, schema: &mut Schema, count: usize, dtype: &DataType) {
    for number in 0..count {
        let name = numbered(rt, alloc, number);
        let dtype = dtype.try_clone(alloc).expect(rt, NO_MEMORY);
        schema.with_column(name, dtype).expect(rt, NO_MEMORY);
    }
}

/// So many columns of the type.
pub(crate) fn schema_of(rt: &impl Abort, alloc: Global, count: usize, dtype: &DataType) -> Schema {
    let mut schema = Schema::new(alloc);
    put(rt, alloc, &mut schema, count, dtype);
    schema
}

/// There are so many columns, each of the type.
pub(crate) fn assert_columns(
    rt: &impl Abort,
    alloc: Global,
    schema: &Schema,
    count: usize,
    dtype: &DataType,
) {
    let want = schema_of(rt, alloc, count, dtype);
    schema.matches_schema(&want).expect(rt, NO_MEMORY);
    drop(want);
}

#[test]
fn columns_of_any_number_are_copied_and_replaced(rt: HostRuntime) {
    for count in SIZES {
        let schema = schema_of(&rt, rt.alloc(), count, &Int8);
        let mut copy = schema.try_clone(rt.alloc()).expect(&rt, NO_MEMORY);
        assert_columns(&rt, rt.alloc(), &copy, count, &Int8);
        put(&rt, rt.alloc(), &mut copy, count, &UInt8);
        assert_columns(&rt, rt.alloc(), &copy, count, &UInt8);
        drop(copy);
        drop(schema);
    }
}

// Puts in a column of that number's name in front.
fn put_in_front(rt: &impl Abort, alloc: Global, schema: &mut Schema, number: usize) {
    let name = numbered(rt, alloc, number);
    assert!(rt; 0 <= schema.len());
    schema.insert_at_index(0, name, Int8).expect(rt, NO_MEMORY);
}

#[test]
fn columns_are_put_in_front(rt: HostRuntime) {
    for count in SIZES {
        let mut schema = Schema::new(rt.alloc());
        for number in (0..count).rev() {
            put_in_front(&rt, rt.alloc(), &mut schema, number);
        }
        assert_columns(&rt, rt.alloc(), &schema, count, &Int8);
        drop(schema);
    }
}

#[test]
fn a_name_that_stands_is_not_put_in(rt: HostRuntime) {
    let mut schema = schema_of(&rt, rt.alloc(), 300, &Int8);
    let name = numbered(&rt, rt.alloc(), 299);
    assert!(rt; 0 <= schema.len());
    let answer = schema.insert_at_index(0, name, UInt8);
    assert_refused(&rt, answer, ErrorKind::Duplicate);
    drop(schema);
}

// So many columns of the first type, beside as many of the second, get the common types.
fn assert_common(
    rt: &impl Abort,
    alloc: Global,
    count: usize,
    first: &DataType,
    second: &DataType,
) {
    let mut schema = schema_of(rt, alloc, count, first);
    let other = schema_of(rt, alloc, count, second);
    schema.to_supertype(&other).expect(rt, NO_MEMORY);
    drop(other);
    assert_columns(rt, alloc, &schema, count, &Int16);
    drop(schema);
}

#[test]
fn columns_of_any_number_get_common_types(rt: HostRuntime) {
    for count in SIZES {
        assert_common(&rt, rt.alloc(), count, &UInt8, &Int8);
        assert_common(&rt, rt.alloc(), count, &Int16, &UInt8);
    }
}

#[test]
fn columns_without_common_types_are_refused(rt: HostRuntime) {
    let mut schema = schema_of(&rt, rt.alloc(), 300, &Int8);
    let mut other = schema_of(&rt, rt.alloc(), 299, &Int8);
    let answer = schema.to_supertype(&other);
    assert_refused(&rt, answer, ErrorKind::InvalidOperation);
    let last = numbered(&rt, rt.alloc(), 299);
    other.with_column(last, Date).expect(&rt, NO_MEMORY);
    let answer = schema.to_supertype(&other);
    assert_refused(&rt, answer, ErrorKind::SchemaMismatch);
    drop(schema);
    drop(other);
}

// A schema of a column of so long a name is copied.
fn assert_long(rt: &impl Abort, alloc: Global, length: usize) {
    let mut schema = Schema::new(alloc);
    let name = long_name(rt, alloc, length);
    schema.with_column(name, Int8).expect(rt, NO_MEMORY);
    let copy = schema.try_clone(alloc).expect(rt, NO_MEMORY);
    schema.matches_schema(&copy).expect(rt, NO_MEMORY);
    drop(copy);
    drop(schema);
}

#[test]
fn columns_of_long_names_are_copied(rt: HostRuntime) {
    for length in LENGTHS {
        assert_long(&rt, rt.alloc(), length);
    }
}
