//! Names and types: copies, and common types of operands.

use crate::fixtures::{
    LENGTHS, LEVELS, NO_MEMORY, SIZES, assert_alike, bare_types, deep_type, long_name, struct_type,
};
use plan_types::common_type::try_get_common_type;
use plan_types::dtype::{DataType, UnknownKind};
use plan_types::field::Field;
use plan_types::whole_number::WholeNumber;
use std::alloc::Global;
use std::process::Abort;

fn assert_copied(rt: &impl Abort, alloc: Global, dtype: &DataType) {
    let copy = dtype.try_clone(alloc).expect(rt, NO_MEMORY);
    assert_alike(rt, copy, dtype);
}

#[test]
fn types_of_each_kind_are_copied(rt: HostRuntime) {
    for dtype in &bare_types() {
        assert_copied(&rt, rt.alloc(), dtype);
    }
}

#[test]
fn structs_of_any_size_are_copied(rt: HostRuntime) {
    for count in SIZES {
        let dtype = struct_type(&rt, rt.alloc(), count, &DataType::Int8);
        assert_copied(&rt, rt.alloc(), &dtype);
        drop(dtype);
    }
}

#[test]
fn lists_of_any_depth_are_copied(rt: HostRuntime) {
    for levels in LEVELS {
        let dtype = deep_type(&rt, rt.alloc(), levels, &DataType::Int8);
        assert_copied(&rt, rt.alloc(), &dtype);
        drop(dtype);
    }
}

// A field of that name is copied, and its name with it.
fn assert_copied_field(rt: &impl Abort, alloc: Global, length: usize) {
    let field = Field::new(long_name(rt, alloc, length), DataType::Int8);
    let copy = field.try_clone(alloc).expect(rt, NO_MEMORY);
    assert_alike(rt, copy, &field);
    drop(field);
}

#[test]
fn fields_of_long_names_are_copied(rt: HostRuntime) {
    for length in LENGTHS {
        assert_copied_field(&rt, rt.alloc(), length);
    }
}

fn assert_common(rt: &impl Abort, alloc: Global, left: &DataType, right: &DataType) {
    let common = try_get_common_type(alloc, left, right).expect(rt, NO_MEMORY);
    drop(common);
}

#[test]
fn operands_of_any_size_have_a_common_type(rt: HostRuntime) {
    let number = DataType::Unknown(UnknownKind::Int(WholeNumber::new(5)));
    assert_common(&rt, rt.alloc(), &number, &number);
    drop(number);
    for count in SIZES {
        let left = struct_type(&rt, rt.alloc(), count, &DataType::Int8);
        let right = struct_type(&rt, rt.alloc(), count, &DataType::UInt8);
        assert_common(&rt, rt.alloc(), &left, &right);
        drop(left);
        drop(right);
    }
}
