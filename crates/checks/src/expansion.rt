//! Expressions with markers and renaming forms: copies, and expansion at any depth.

use crate::expressions::{Kind, assert_copied, boxed, nested};
use crate::fixtures::{LENGTHS, NO_MEMORY, long_name, numbered};
use crate::schemas::schema_of;
use plan_dsl::expr::Expr;
use plan_dsl::marker::{Excluded, RenameAliasFn};
use plan_dsl::selector::Selector;
use plan_dsl::udfs::Udfs;
use plan_expand::expr_expansion::{expand_filter, rewrite_projections};
use plan_types::dtype::DataType;
use plan_types::schema::Schema;
use plan_types::text::PlSmallStr;
use std::alloc::Global;
use std::process::Abort;

// How many parts the tests give to a marker.
const PARTS: [usize; 4] = [0, 1, 2, 1_000];

// How many levels the tests give to what has markers.
const DEPTHS: [usize; 4] = [0, 1, 2, 100];

// A marker, by what it has.
#[derive(Clone, Copy)]
enum Marker {
    All,
    Names,
    Types,
    Places,
    Excluded,
    Selected,
}

const MARKERS: [Marker; 6] = [
    Marker::All,
    Marker::Names,
    Marker::Types,
    Marker::Places,
    Marker::Excluded,
    Marker::Selected,
];

fn names(rt: &impl Abort, alloc: Global, count: usize) -> Vec<PlSmallStr> {
    let mut names = Vec::new(alloc);
    for number in 0..count {
        let name = numbered(rt, alloc, number);
        names.push(name).expect(rt, NO_MEMORY);
    }
    names
}

// So many types. Only the last is that of the columns.
fn types(rt: &impl Abort, alloc: Global, count: usize) -> Vec<DataType> {
    let mut types = Vec::new(alloc);
    for number in 0..count {
        let is_last = number + 1 == count;
        let dtype = if is_last {
            DataType::Int8
        } else {
            DataType::Date
        };
        types.push(dtype).expect(rt, NO_MEMORY);
    }
    types
}

// The place of the column of that number.
fn place(number: usize) -> i64 {
    i64::try_from(number).unwrap_or(0)
}

fn places(rt: &impl Abort, alloc: Global, count: usize) -> Vec<i64> {
    let mut places = Vec::new(alloc);
    for number in 0..count {
        places.push(place(number)).expect(rt, NO_MEMORY);
    }
    places
}

// The names from one number to another, with a type behind each that no column has.
fn excluded(rt: &impl Abort, alloc: Global, start: usize, end: usize) -> Vec<Excluded> {
    let mut excluded = Vec::new(alloc);
    for number in start..end {
        let name = numbered(rt, alloc, number);
        excluded.push(Excluded::Name(name)).expect(rt, NO_MEMORY);
        let dtype = Excluded::Dtype(DataType::Date);
        excluded.push(dtype).expect(rt, NO_MEMORY);
    }
    excluded
}

// A marker of so many parts.
fn marker_of(rt: &impl Abort, alloc: Global, kind: Marker, count: usize) -> Expr {
    match kind {
        Marker::All => Expr::Wildcard,
        Marker::Names => Expr::Columns(names(rt, alloc, count)),
        Marker::Types => Expr::DtypeColumn(types(rt, alloc, count)),
        Marker::Places => Expr::IndexColumn(places(rt, alloc, count)),
        Marker::Excluded => {
            let all = boxed(rt, alloc, Expr::Wildcard);
            Expr::Exclude(all, excluded(rt, alloc, count, count.saturating_add(count)))
        }
        Marker::Selected => {
            let listed = Expr::Columns(names(rt, alloc, count));
            Expr::Selector(Selector::Root(boxed(rt, alloc, listed)))
        }
    }
}

#[test]
fn markers_of_any_number_of_parts_are_copied(rt: HostRuntime) {
    for kind in &MARKERS {
        for count in PARTS {
            assert_copied(&rt, rt.alloc(), marker_of(&rt, rt.alloc(), *kind, count));
        }
    }
}

// What the renaming form is over is copied with it.
fn assert_renamed(rt: &impl Abort, alloc: Global, function: RenameAliasFn) {
    let expr = boxed(rt, alloc, Expr::Nth(-1));
    assert_copied(rt, alloc, Expr::RenameAlias { function, expr });
}

#[test]
fn renaming_forms_of_any_length_are_copied(rt: HostRuntime) {
    for length in LENGTHS {
        let text = long_name(&rt, rt.alloc(), length);
        assert_renamed(&rt, rt.alloc(), RenameAliasFn::Prefix(text));
        let text = long_name(&rt, rt.alloc(), length);
        assert_renamed(&rt, rt.alloc(), RenameAliasFn::Suffix(text));
        let text = long_name(&rt, rt.alloc(), length);
        assert_renamed(&rt, rt.alloc(), RenameAliasFn::Fixed(text));
    }
}

// One expression is expanded over a schema.
fn assert_expanded(rt: &impl Abort, alloc: Global, expr: Expr, schema: &Schema) {
    let exprs = vec![in alloc; expr].expect(rt, NO_MEMORY);
    let answer = rewrite_projections(alloc, exprs, schema, &[], &Udfs::new(alloc));
    drop(answer.expect(rt, NO_MEMORY));
}

// So many expressions of the kind, one over another and over a marker, keep their name: as an expression over two
// columns, and as a predicate over one.
fn assert_nested(rt: &impl Abort, alloc: Global, kind: Kind, levels: usize) {
    let schema = schema_of(rt, alloc, 2, &DataType::Int8);
    let expr = boxed(rt, alloc, nested(rt, alloc, kind, levels, Expr::Wildcard));
    assert_expanded(rt, alloc, Expr::KeepName(expr), &schema);
    drop(schema);
    let expr = boxed(rt, alloc, nested(rt, alloc, kind, levels, Expr::Wildcard));
    assert_predicate(rt, alloc, Expr::KeepName(expr), 1);
}

#[test]
fn expressions_of_any_depth_are_expanded(rt: HostRuntime) {
    for kind in &[
        Kind::Left,
        Kind::Right,
        Kind::Cast,
        Kind::Slice,
        Kind::Explode,
        Kind::Gather,
        Kind::Index,
        Kind::Filter,
        Kind::Condition,
        Kind::Sort,
        Kind::Alias,
        Kind::Key,
        Kind::Truthy,
        Kind::Predicate,
        Kind::Falsy,
        Kind::Filled,
        Kind::Filling,
        Kind::Selected,
    ] {
        for levels in DEPTHS {
            assert_nested(&rt, rt.alloc(), *kind, levels);
        }
    }
}

// A predicate is expanded over a schema of so many columns.
fn assert_predicate(rt: &impl Abort, alloc: Global, predicate: Expr, count: usize) {
    let schema = schema_of(rt, alloc, count, &DataType::Int8);
    let answer = expand_filter(alloc, predicate, &schema, &Udfs::new(alloc));
    drop(answer.expect(rt, NO_MEMORY));
    drop(schema);
}

// The column at that place.
fn root_at(rt: &impl Abort, alloc: Global, number: usize) -> Selector {
    Selector::Root(boxed(rt, alloc, Expr::Nth(place(number))))
}

// What the selector has and the column at the place hasn't, or the other way round.
fn either(rt: &impl Abort, alloc: Global, selector: Selector, number: usize) -> Selector {
    let first = Box::new(alloc, selector).expect(rt, NO_MEMORY);
    let second = Box::new(alloc, root_at(rt, alloc, number)).expect(rt, NO_MEMORY);
    Selector::ExclusiveOr(first, second)
}

// A selector of so many rules, one over another, as a marker.
fn ruled(rt: &impl Abort, alloc: Global, levels: usize) -> Expr {
    let mut selector = root_at(rt, alloc, 0);
    for number in 0..levels {
        selector = either(rt, alloc, selector, number);
    }
    Expr::Selector(selector)
}

#[test]
fn selectors_of_any_depth_are_copied_and_expanded(rt: HostRuntime) {
    let schema = schema_of(&rt, rt.alloc(), 100, &DataType::Int8);
    for levels in DEPTHS {
        assert_copied(&rt, rt.alloc(), ruled(&rt, rt.alloc(), levels));
        assert_expanded(&rt, rt.alloc(), ruled(&rt, rt.alloc(), levels), &schema);
    }
    drop(schema);
}
