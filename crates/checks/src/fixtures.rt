//! Names, types, columns and hashes that the tests share.

use plan_dsl::expr::Expr;
use plan_types::dtype::TimeUnit::{Microseconds, Milliseconds, Nanoseconds};
use plan_types::dtype::{DataType, Fields, UnknownKind};
use plan_types::error::{ErrorKind, PlanError};
use plan_types::field::Field;
use plan_types::text::PlSmallStr;
use plan_types::whole_number::WholeNumber;
use std::alloc::Global;
use std::hash::{FoldHasher, Hash, Hasher};
use std::process::Abort;

/// What a test says that finds no memory.
pub(crate) const NO_MEMORY: &str = "there is memory";

/// How many parts the tests give to what has parts.
pub(crate) const SIZES: [usize; 5] = [0, 1, 2, 50, 300];

/// How many bytes the tests give to a name.
pub(crate) const LENGTHS: [usize; 5] = [0, 1, 2, 1_001, 1_000_000];

/// How many levels the tests give to what is nested.
pub(crate) const LEVELS: [usize; 5] = [0, 1, 2, 3, 60];

pub(crate) fn hash_of<T: Hash>(value: &T) -> u64 {
    let mut hasher = FoldHasher::default();
    value.hash(&mut hasher);
    hasher.finish()
}

/// Both are equal and hashed alike.
pub(crate) fn assert_alike<T: Eq + Hash + Drop>(rt: &impl Abort, copy: T, value: &T) {
    assert!(rt; copy == *value);
    assert!(rt; hash_of(&copy) == hash_of(value));
}

/// The text is the one that is wanted.
pub(crate) fn assert_text(rt: &impl Abort, found: &str, want: &str) {
    assert_eq!(rt; found, want);
}

/// The number is the one that is wanted.
pub(crate) fn assert_number(rt: &impl Abort, found: usize, want: usize) {
    assert_eq!(rt; found, want);
}

/// The name of the part of that number.
pub(crate) fn numbered(rt: &impl Abort, alloc: Global, number: usize) -> PlSmallStr {
    let text = format!(in alloc; "part {number}").expect(rt, NO_MEMORY);
    let name = PlSmallStr::new(alloc, text.as_str()).expect(rt, NO_MEMORY);
    name
}

/// A name of so many bytes.
pub(crate) fn long_name(rt: &impl Abort, alloc: Global, length: usize) -> PlSmallStr {
    let text = "n".repeat(alloc, length).expect(rt, NO_MEMORY);
    let name = PlSmallStr::new(alloc, text.as_str()).expect(rt, NO_MEMORY);
    name
}

/// Each type without parts, and those of two numbers without one.
pub(crate) fn bare_types() -> [DataType; 21] {
    [
        DataType::Null,
        DataType::Boolean,
        DataType::Int8,
        DataType::Int16,
        DataType::Int32,
        DataType::Int64,
        DataType::UInt8,
        DataType::UInt16,
        DataType::UInt32,
        DataType::UInt64,
        DataType::String,
        DataType::Date,
        DataType::Time,
        DataType::Datetime(Nanoseconds),
        DataType::Datetime(Microseconds),
        DataType::Datetime(Milliseconds),
        DataType::Duration(Nanoseconds),
        DataType::Duration(Microseconds),
        DataType::Duration(Milliseconds),
        DataType::Unknown(UnknownKind::Int(WholeNumber::new(1))),
        DataType::Unknown(UnknownKind::Int(WholeNumber::new(-1))),
    ]
}

/// The column of that name.
pub(crate) fn column(rt: &impl Abort, alloc: Global, name: &str) -> Expr {
    let name = PlSmallStr::new(alloc, name).expect(rt, NO_MEMORY);
    Expr::Column(name)
}

/// The type of structs of so many fields of the type.
pub(crate) fn struct_type(
    rt: &impl Abort,
    alloc: Global,
    count: usize,
    dtype: &DataType,
) -> DataType {
    let mut items = Vec::new(alloc);
    for number in 0..count {
        let name = numbered(rt, alloc, number);
        let dtype = dtype.try_clone(alloc).expect(rt, NO_MEMORY);
        items.push(Field::new(name, dtype)).expect(rt, NO_MEMORY);
    }
    DataType::Struct(Fields { items })
}

/// The type of lists of lists, so many levels deep, of the type.
pub(crate) fn deep_type(
    rt: &impl Abort,
    alloc: Global,
    levels: usize,
    dtype: &DataType,
) -> DataType {
    let mut deep = dtype.try_clone(alloc).expect(rt, NO_MEMORY);
    for _ in 0..levels {
        deep = deep.implode(alloc).expect(rt, NO_MEMORY);
    }
    deep
}

/// The answer is a refusal of that kind, at the top.
pub(crate) fn assert_refused<T: Drop>(
    rt: &impl Abort,
    answer: Result<T, PlanError>,
    kind: ErrorKind,
) {
    match answer {
        Ok(_) => panic!(rt; "it is refused"),
        Err(error) => {
            assert!(rt; error.kind == kind);
            assert!(rt; error.place.depth() == 0);
        }
    }
}
