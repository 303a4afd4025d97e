//! The names for which markers stand.
ghost use Rattle.std.specs.Prelude.{◌≡◌, ◌&&◌, map, not, Ok, IfOk, IfErr};
ghost use Rattle.std.specs.List.{flat_map, list_any};
ghost use Rattle.std.specs.Option.{ok_or, option_map};
ghost use Rattle.plan_types.specs.Errors.{no_memory, IsRefusal};
ghost use Rattle.plan_types.specs.Schemas.{columns, is_among, names_of};
ghost use Rattle.plan_types.specs.Types.{same_type, ty};
ghost use Rattle.plan_dsl.specs.Expressions.{excluded_of, tree_of};
ghost use Rattle.plan_dsl.specs.Markers.{marker_names, name_at, names_of_types, once, without, without_excluded};
ghost use Rattle.plan_dsl.specs.Refusals.{each_ok};
ghost use Rattle.plan_dsl.specs.Slices.{slice_start};
ghost use Rattle.plan_expand.specs.Names.{as_number, excluded_name, excluded_type, is_of_type};

use crate::selectors::{lacking, listed, selected};
use indexmap::IndexSet;
use plan_dsl::expr::Expr;
use plan_dsl::marker::Excluded;
use plan_types::dtype::DataType;
use plan_types::error::{ErrorKind, PlanError};
use plan_types::schema::Schema;
use plan_types::text::PlSmallStr;
use std::alloc::Global;

// The names for which a marker stands, in order. An expression that is no marker is refused.
#[cycle(names)]
pub(crate) fn marker_names(
    alloc: Global,
    marker: &Expr,
    schema: &Schema,
    keys: &IndexSet<PlSmallStr>,
) -> Result<Vec<PlSmallStr>, PlanError>
    ensures ok { IfOk result (λ names. marker_names keys.now.keys (columns schema.now) (tree_of marker.now) ≡ Ok names.items) }
    ensures err { IfErr result (IsRefusal (marker_names keys.now.keys (columns schema.now) (tree_of marker.now))) }
{
    match marker {
        Expr::Wildcard => Ok(all_names(alloc, schema, keys)?),
        Expr::Columns(names) => Ok(copies(alloc, names)?),
        Expr::DtypeColumn(types) => Ok(names_of_types(alloc, types, schema, keys)?),
        Expr::IndexColumn(places) => Ok(names_at(alloc, places, schema)?),
        Expr::Nth(place) => Ok(names_at(alloc, &[*place], schema)?),
        Expr::Exclude(inner, excluded) => {
            let names = marker_names(alloc, inner, schema, keys)?;
            let kept = without_excluded(alloc, names, excluded, schema, keys)?;
            Ok(kept)
        }
        Expr::Selector(selector) => {
            let names = selected(alloc, selector, schema, keys)?;
            let list = listed(alloc, lacking(names, keys))?;
            Ok(list)
        }
        _ => Err(PlanError::at_top(ErrorKind::InvalidOperation)),
    }
}

// The names of all columns but keys.
fn all_names(
    alloc: Global,
    schema: &Schema,
    keys: &IndexSet<PlSmallStr>,
) -> Result<Vec<PlSmallStr>, PlanError>
    ensures ok { IfOk result (λ names. names.items ≡ without keys.now.keys (names_of (columns schema.now))) }
    ensures err { IfErr result (λ error. error ≡ no_memory) }
{
    let mut names = Vec::new(alloc);
    for name in schema.iter_names() {
        if !keys.contains(name) {
            names.push(name.try_clone(alloc)?)?;
        }
    }
    Ok(names)
}

fn copies(alloc: Global, names: &[PlSmallStr]) -> Result<Vec<PlSmallStr>, PlanError>
    ensures ok { IfOk result (λ copies. copies.items ≡ names.now) }
    ensures err { IfErr result (λ error. error ≡ no_memory) }
{
    let mut copies = Vec::with_capacity(alloc, names.len())?;
    for name in names {
        copies.push(name.try_clone(alloc)?)?;
    }
    Ok(copies)
}

// The names of the columns of one of these types, but keys.
fn names_of_types(
    alloc: Global,
    types: &[DataType],
    schema: &Schema,
    keys: &IndexSet<PlSmallStr>,
) -> Result<Vec<PlSmallStr>, PlanError>
    ensures ok { IfOk result (λ names. names.items ≡ without keys.now.keys (names_of_types (columns schema.now) (map ty types.now))) }
    ensures err { IfErr result (λ error. error ≡ no_memory) }
{
    let mut names = Vec::new(alloc);
    for index in 0..schema.len() {
        if let Some((name, dtype)) = schema.get_at_index(index) {
            if is_wanted(name, dtype, types, keys) {
                names.push(name.try_clone(alloc)?)?;
            }
        }
    }
    Ok(names)
}

// Whether a column is of one of these types, and no key.
fn is_wanted(
    name: &PlSmallStr,
    dtype: &DataType,
    types: &[DataType],
    keys: &IndexSet<PlSmallStr>,
) -> bool
    ensures { result ≡ (list_any (same_type (ty dtype.now)) (map ty types.now) && not (is_among name.now keys.now.keys)) }
{
    types.contains(dtype) && !keys.contains(name)
}

// The names of the columns at these places.
fn names_at(alloc: Global, places: &[i64], schema: &Schema) -> Result<Vec<PlSmallStr>, PlanError>
    ensures ok { IfOk result (λ names. each_ok (name_at (names_of (columns schema.now))) places.now ≡ Ok names.items) }
    ensures err { IfErr result (IsRefusal (each_ok (name_at (names_of (columns schema.now))) places.now)) }
{
    let mut names = Vec::with_capacity(alloc, places.len())?;
    for &place in places {
        let Some(name) = name_at(schema, place) else {
            return Err(PlanError::at_top(ErrorKind::ColumnNotFound));
        };
        names.push(name.try_clone(alloc)?)?;
    }
    Ok(names)
}

// The name of the column at a place.
fn name_at(schema: &Schema, place: i64) -> Option<&PlSmallStr>
    ensures { ok_or (option_map (λ name. name.now) result) ErrorKind.ColumnNotFound ≡ name_at (names_of (columns schema.now)) place }
{
    let number = column_number(place, schema.len())?;
    let (name, _dtype) = schema.get_at_index(number)?;
    Some(name)
}

// The number of the column at a place, of so many. A place below 0 counts from the end, and may lie in front of all.
pub(crate) fn column_number(place: i64, count: usize) -> Option<usize>
    ensures { result ≡ as_number (slice_start place count) }
{
    let distance = place.unsigned_abs() as usize;
    if place >= 0 {
        Some(distance)
    } else if distance <= count {
        Some(count - distance)
    } else {
        None
    }
}

// The names that are neither excluded nor keys.
fn without_excluded(
    alloc: Global,
    mut names: Vec<PlSmallStr>,
    excluded: &[Excluded],
    schema: &Schema,
    keys: &IndexSet<PlSmallStr>,
) -> Result<Vec<PlSmallStr>, PlanError>
    ensures ok { IfOk result (λ kept. kept.items ≡ without keys.now.keys (without_excluded (columns schema.now) (map excluded_of excluded.now) names.items)) }
    ensures err { IfErr result (λ error. error ≡ no_memory) }
{
    let left_out = excluded_names(alloc, excluded)?;
    let types = excluded_types(alloc, excluded)?;
    names.retain(|name| {
        !left_out.contains(name) && !is_of_types(schema, name, &types) && !keys.contains(name)
    });
    Ok(names)
}

// The names that are excluded.
fn excluded_names(alloc: Global, excluded: &[Excluded]) -> Result<IndexSet<PlSmallStr>, PlanError>
    ensures ok { IfOk result (λ names. names.keys ≡ once (flat_map excluded_name (map excluded_of excluded.now))) }
    ensures err { IfErr result (λ error. error ≡ no_memory) }
{
    let mut names = IndexSet::new(alloc);
    for item in excluded {
        if let Excluded::Name(name) = item {
            names.insert(name.try_clone(alloc)?)?;
        }
    }
    Ok(names)
}

// The types that are excluded.
fn excluded_types(alloc: Global, excluded: &[Excluded]) -> Result<Vec<&DataType>, PlanError>
    ensures ok { IfOk result (λ types. map (λ dtype. ty dtype.now) types.items ≡ flat_map excluded_type (map excluded_of excluded.now)) }
    ensures err { IfErr result (λ error. error ≡ no_memory) }
{
    let mut types = Vec::new(alloc);
    for item in excluded {
        if let Excluded::Dtype(dtype) = item {
            types.push(dtype)?;
        }
    }
    Ok(types)
}

// Whether a column has the name, and is of one of these types.
fn is_of_types(schema: &Schema, name: &PlSmallStr, types: &[&DataType]) -> bool
    ensures { result ≡ list_any (is_of_type (columns schema.now) name.now) (map (λ dtype. ty dtype.now) types.now) }
{
    let Some(dtype) = schema.get(name) else {
        return false;
    };
    for own in types {
        if **own == *dtype {
            return true;
        }
    }
    false
}
