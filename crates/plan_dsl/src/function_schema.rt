//! Schemas of what functions make of frames.
ghost use Rattle.std.specs.Prelude.{◌≡◌, ◌++◌, ℕ, Bool, Option, [], ◌∷◌, length, map, false, true, unwrap_or, IfOk, IfErr, OnOk, if◌then◌else◌};
ghost use Rattle.std.specs.List.{list_all, list_any};
ghost use Rattle.std.specs.Option.{option_map};
ghost use Rattle.std.specs.Str.{chars};
ghost use Rattle.plan_types.specs.Errors.{no_memory, IsMemoryOr};
ghost use Rattle.plan_types.specs.SchemaCalls.{types_of};
ghost use Rattle.plan_types.specs.TypeOrder.{folded_type};
ghost use Rattle.plan_types.specs.Schemas.{Name, columns, is_among, names_of, repeats, same_name};
ghost use Rattle.plan_types.specs.Types.{TextType, field_of, fields_of, ty};
ghost use Rattle.plan_dsl.specs.Drops.{columns_but, have_names};
ghost use Rattle.plan_dsl.specs.FunctionSchemas.{HasWorkSchema, found_name};
ghost use Rattle.plan_dsl.specs.Plans.{FunctionWork, function_work};
ghost use Rattle.plan_dsl.specs.Signatures.{is_list, own_type};
ghost use Rattle.plan_dsl.specs.declared.signature.OwnType.TheVariants.{Item};
ghost use Rattle.plan_dsl.specs.TableFunctions.{ExplodeFunction, RenameFunction, RowIndexFunction, UnnestFunction, UnpivotFunction};
ghost use Rattle.plan_dsl.specs.TableRules.{columns_under, exploded_columns, field_columns, is_struct, new_name, opened_type, renamed_columns, unnested_columns, value_columns, value_name, value_type, variable_name};

use crate::function::FunctionIR;
use crate::udfs::Udfs;
use crate::unpivot_args::UnpivotArgsIR;
use indexmap::{IndexMap, IndexSet};
use plan_types::dtype::{DataType, Fields};
use plan_types::error::{ErrorKind, PlanError};
use plan_types::field::Field;
use plan_types::schema::Schema;
use plan_types::supertype::get_supertype;
use plan_types::text::PlSmallStr;
use std::alloc::Global;

impl FunctionIR {
    /// The schema of what the function makes of a frame of that schema.
    pub fn schema(
        &self,
        alloc: Global,
        input_schema: &Schema,
        _udfs: &Udfs,
    ) -> Result<Schema, PlanError>
        ensures { HasWorkSchema (function_work self.now) (columns input_schema.now) result }
    {
        match self {
            FunctionIR::Explode { columns } => {
                exploded_schema(alloc, columns.items.as_slice(), input_schema)
            }
            FunctionIR::Rechunk => {
                let schema = input_schema.try_clone(alloc)?;
                Ok(schema)
            }
            FunctionIR::Rename { existing, new, .. } => {
                renamed_schema(
                    alloc,
                    existing.items.as_slice(),
                    new.items.as_slice(),
                    input_schema,
                )
            }
            FunctionIR::RowIndex { name, .. } => indexed_schema(alloc, name, input_schema),
            FunctionIR::Unnest { columns } => {
                unnested_schema(alloc, columns.items.as_slice(), input_schema)
            }
            FunctionIR::Unpivot { args } => unpivoted_schema(alloc, args, input_schema),
        }
    }
}

/// Whether the schema has a column of each of the names.
pub fn has_each(schema: &Schema, names: &[PlSmallStr]) -> bool
    ensures { result ≡ have_names (columns schema.now) names.now }
{
    for name in names {
        if !schema.contains(name) {
            return false;
        }
    }
    true
}

// Puts a copy of a column behind the others.
fn push_column(
    fields: &mut Vec<Field>,
    name: &PlSmallStr,
    dtype: &DataType,
    alloc: Global,
) -> Result<(), PlanError>
    ensures ok { OnOk result (map field_of fields.new.items ≡ map field_of fields.old.items ++ (name.now, ty dtype.now) ∷ []) }
    ensures err { IfErr result (λ error. error ≡ no_memory) }
{
    let name = name.try_clone(alloc)?;
    let dtype = dtype.try_clone(alloc)?;
    fields.push(Field { name, dtype })?;
    Ok(())
}

// The schema of these columns, whose names must be distinct.
fn distinct_schema(alloc: Global, fields: Vec<Field>) -> Result<Schema, PlanError>
    ensures ok { IfOk result (λ schema. columns schema ≡ map field_of fields.items) }
    ensures err { IfErr result (IsMemoryOr ErrorKind.Duplicate (repeats (names_of (map field_of fields.items)) ≡ true)) }
{
    let mut schema = Schema::with_capacity(alloc, fields.len())?;
    for field in fields {
        let Field { name, dtype } = field;
        schema.insert_at_index(schema.len(), name, dtype)?;
    }
    Ok(schema)
}

// The schema with a new first column of row numbers.
fn indexed_schema(alloc: Global, name: &PlSmallStr, schema: &Schema) -> Result<Schema, PlanError>
    ensures { (offset : Option ℕ) → HasWorkSchema (FunctionWork (RowIndexFunction name.now offset)) (columns schema.now) result }
{
    let mut fields = Vec::new(alloc);
    push_column(&mut fields, name, &DataType::UInt32, alloc)?;
    for index in 0..schema.len() {
        if let Some((name, dtype)) = schema.get_at_index(index) {
            push_column(&mut fields, name, dtype, alloc)?;
        }
    }
    distinct_schema(alloc, fields)
}

// The schema with the items of lists in place of these.
fn exploded_schema(
    alloc: Global,
    names: &[PlSmallStr],
    schema: &Schema,
) -> Result<Schema, PlanError>
    ensures { HasWorkSchema (FunctionWork (ExplodeFunction names.now)) (columns schema.now) result }
{
    if names.is_empty() {
        return Err(PlanError::at_top(ErrorKind::InvalidOperation));
    }
    if !has_each(schema, names) {
        return Err(PlanError::at_top(ErrorKind::ColumnNotFound));
    }
    if !are_lists(schema, names) {
        return Err(PlanError::at_top(ErrorKind::InvalidOperation));
    }
    let fields = exploded_fields(alloc, names, schema)?;
    distinct_schema(alloc, fields)
}

// Whether the columns of these names, which the schema has, are of lists.
fn are_lists(schema: &Schema, names: &[PlSmallStr]) -> bool
    requires { have_names (columns schema.now) names.now ≡ true }
    ensures { result ≡ list_all is_list (types_of (columns_under (columns schema.now) names.now)) }
{
    for name in names {
        if !matches!(schema.get(name), Some(DataType::List(_))) {
            return false;
        }
    }
    true
}

// The columns, those of the names with the types of their items.
fn exploded_fields(
    alloc: Global,
    names: &[PlSmallStr],
    schema: &Schema,
) -> Result<Vec<Field>, PlanError>
    ensures ok { IfOk result (λ fields. map field_of fields.items ≡ exploded_columns names.now (columns schema.now)) }
    ensures err { IfErr result (λ error. error ≡ no_memory) }
{
    let names = names_in(alloc, names)?;
    let mut fields = Vec::with_capacity(alloc, schema.len())?;
    for index in 0..schema.len() {
        if let Some((name, dtype)) = schema.get_at_index(index) {
            let dtype = exploded_dtype(&names, name, dtype);
            push_column(&mut fields, name, dtype, alloc)?;
        }
    }
    Ok(fields)
}

// The type of a column that is exploded where it is of one of the names.
fn exploded_dtype<'a>(
    names: &IndexSet<&PlSmallStr>,
    name: &PlSmallStr,
    dtype: &'a DataType,
) -> &'a DataType
    ensures { ty result.now ≡ (if list_any (λ kept. same_name name.now kept.now) names.now.keys then own_type Item (ty dtype.now) else ty dtype.now) }
{
    match dtype {
        DataType::List(item) if names.contains(&name) => item,
        _ => dtype,
    }
}

/// The names, each once.
pub fn names_in(alloc: Global, names: &[PlSmallStr]) -> Result<IndexSet<&PlSmallStr>, PlanError>
    ensures ok { IfOk result (λ set. (name : Name) → list_any (λ kept. same_name name kept.now) set.keys ≡ is_among name names.now) }
    ensures err { IfErr result (λ error. error ≡ no_memory) }
{
    let mut set = IndexSet::with_capacity(alloc, names.len())?;
    for name in names {
        set.insert(name)?;
    }
    Ok(set)
}

// The schema under new names.
fn renamed_schema(
    alloc: Global,
    existing: &[PlSmallStr],
    new: &[PlSmallStr],
    schema: &Schema,
) -> Result<Schema, PlanError>
    ensures { (swapping : Bool) → HasWorkSchema (FunctionWork (RenameFunction existing.now new.now swapping)) (columns schema.now) result }
{
    if existing.len() != new.len() {
        return Err(PlanError::at_top(ErrorKind::InvalidOperation));
    }
    let fields = renamed_fields(alloc, existing, new, schema)?;
    distinct_schema(alloc, fields)
}

// The columns under new names.
fn renamed_fields(
    alloc: Global,
    existing: &[PlSmallStr],
    new: &[PlSmallStr],
    schema: &Schema,
) -> Result<Vec<Field>, PlanError>
    requires { length existing.now ≡ length new.now }
    ensures ok { IfOk result (λ fields. map field_of fields.items ≡ renamed_columns existing.now new.now (columns schema.now)) }
    ensures err { IfErr result (λ error. error ≡ no_memory) }
{
    let names = new_names(alloc, existing, new)?;
    let mut fields = Vec::with_capacity(alloc, schema.len())?;
    for index in 0..schema.len() {
        if let Some((name, dtype)) = schema.get_at_index(index) {
            let own = match names.get(&name) {
                Some(own) => *own,
                None => name,
            };
            push_column(&mut fields, own, dtype, alloc)?;
        }
    }
    Ok(fields)
}

/// The new name of each old one. Of two for one the later counts.
pub fn new_names<'a>(
    alloc: Global,
    existing: &'a [PlSmallStr],
    new: &'a [PlSmallStr],
) -> Result<IndexMap<&'a PlSmallStr, &'a PlSmallStr>, PlanError>
    requires { length existing.now ≡ length new.now }
    ensures ok { IfOk result (λ names. (name : Name) → found_name names.entries name ≡ new_name existing.now new.now name) }
    ensures err { IfErr result (λ error. error ≡ no_memory) }
{
    let mut names = IndexMap::with_capacity(alloc, existing.len())?;
    for place in 0..existing.len() {
        names.insert(&existing[place], &new[place])?;
    }
    Ok(names)
}

// The schema with the fields of structs in place of these.
fn unnested_schema(
    alloc: Global,
    names: &[PlSmallStr],
    schema: &Schema,
) -> Result<Schema, PlanError>
    ensures { HasWorkSchema (FunctionWork (UnnestFunction names.now)) (columns schema.now) result }
{
    if !has_each(schema, names) {
        return Err(PlanError::at_top(ErrorKind::ColumnNotFound));
    }
    if !are_structs(schema, names) {
        return Err(PlanError::at_top(ErrorKind::SchemaMismatch));
    }
    let fields = unnested_fields(alloc, names, schema)?;
    distinct_schema(alloc, fields)
}

// Whether the columns of these names, which the schema has, are of structs.
fn are_structs(schema: &Schema, names: &[PlSmallStr]) -> bool
    requires { have_names (columns schema.now) names.now ≡ true }
    ensures { result ≡ list_all is_struct (types_of (columns_under (columns schema.now) names.now)) }
{
    for name in names {
        if !matches!(schema.get(name), Some(DataType::Struct(_))) {
            return false;
        }
    }
    true
}

// The columns, with the fields of those of the names in place of these.
fn unnested_fields(
    alloc: Global,
    names: &[PlSmallStr],
    schema: &Schema,
) -> Result<Vec<Field>, PlanError>
    ensures ok { IfOk result (λ fields. map field_of fields.items ≡ unnested_columns names.now (columns schema.now)) }
    ensures err { IfErr result (λ error. error ≡ no_memory) }
{
    let names = names_in(alloc, names)?;
    let mut fields = Vec::with_capacity(alloc, schema.len())?;
    for index in 0..schema.len() {
        if let Some((name, dtype)) = schema.get_at_index(index) {
            push_unnested(&mut fields, &names, name, dtype, alloc)?;
        }
    }
    Ok(fields)
}

// Puts a copy of a column behind the others, or of its fields where it is of one of the names.
fn push_unnested(
    fields: &mut Vec<Field>,
    names: &IndexSet<&PlSmallStr>,
    name: &PlSmallStr,
    dtype: &DataType,
    alloc: Global,
) -> Result<(), PlanError>
    ensures ok { OnOk result (map field_of fields.new.items ≡ map field_of fields.old.items ++ (if list_any (λ kept. same_name name.now kept.now) names.now.keys then opened_type name.now (ty dtype.now) else (name.now, ty dtype.now) ∷ [])) }
    ensures err { IfErr result (λ error. error ≡ no_memory) }
{
    match dtype {
        DataType::Struct(own) if names.contains(&name) => push_fields(fields, own, alloc),
        _ => push_column(fields, name, dtype, alloc),
    }
}

// Puts copies of a struct's fields behind the others.
fn push_fields(fields: &mut Vec<Field>, own: &Fields, alloc: Global) -> Result<(), PlanError>
    ensures ok { OnOk result (map field_of fields.new.items ≡ map field_of fields.old.items ++ field_columns (fields_of own.now)) }
    ensures err { IfErr result (λ error. error ≡ no_memory) }
{
    for field in own.items.as_slice() {
        push_column(fields, &field.name, &field.dtype, alloc)?;
    }
    Ok(())
}

// The schema of an unpivot: its index, and two columns.
fn unpivoted_schema(
    alloc: Global,
    args: &UnpivotArgsIR,
    schema: &Schema,
) -> Result<Schema, PlanError>
    ensures { HasWorkSchema (FunctionWork (UnpivotFunction args.now.on.items.items args.now.index.items.items args.now.variable_name args.now.value_name)) (columns schema.now) result }
{
    let on = args.on.items.as_slice();
    let index = args.index.items.as_slice();
    if !has_both(schema, on, index) {
        return Err(PlanError::at_top(ErrorKind::ColumnNotFound));
    }
    let Some(dtype) = value_dtype(alloc, on, index, schema)? else {
        return Err(PlanError::at_top(ErrorKind::SchemaMismatch));
    };
    let fields = unpivoted_fields(alloc, args, &dtype, schema)?;
    distinct_schema(alloc, fields)
}

// Whether the schema has a column of each of the names of both lists.
fn has_both(schema: &Schema, names: &[PlSmallStr], others: &[PlSmallStr]) -> bool
    ensures { result ≡ have_names (columns schema.now) (names.now ++ others.now) }
{
    has_each(schema, names) && has_each(schema, others)
}

// The index's columns, then one of names and one of values of the type.
fn unpivoted_fields(
    alloc: Global,
    args: &UnpivotArgsIR,
    dtype: &DataType,
    schema: &Schema,
) -> Result<Vec<Field>, PlanError>
    requires { have_names (columns schema.now) args.now.index.items.items ≡ true }
    ensures ok { IfOk result (λ fields. map field_of fields.items ≡ columns_under (columns schema.now) args.now.index.items.items ++ (variable_name args.now.variable_name, TextType) ∷ (value_name args.now.value_name, ty dtype.now) ∷ []) }
    ensures err { IfErr result (λ error. error ≡ no_memory) }
{
    let variable = name_or(&args.variable_name, "variable", alloc)?;
    let value = name_or(&args.value_name, "value", alloc)?;
    let mut fields = fields_under(alloc, args.index.items.as_slice(), schema)?;
    push_column(&mut fields, &variable, &DataType::String, alloc)?;
    push_column(&mut fields, &value, dtype, alloc)?;
    Ok(fields)
}

// The columns of these names, in the order of the names.
fn fields_under(
    alloc: Global,
    names: &[PlSmallStr],
    schema: &Schema,
) -> Result<Vec<Field>, PlanError>
    requires { have_names (columns schema.now) names.now ≡ true }
    ensures ok { IfOk result (λ fields. map field_of fields.items ≡ columns_under (columns schema.now) names.now) }
    ensures err { IfErr result (λ error. error ≡ no_memory) }
{
    let mut fields = Vec::with_capacity(alloc, names.len())?;
    for name in names {
        if let Some(dtype) = schema.get(name) {
            push_column(&mut fields, name, dtype, alloc)?;
        }
    }
    Ok(fields)
}

/// A copy of the name, or else the text.
pub fn name_or(
    name: &Option<PlSmallStr>,
    text: &str,
    alloc: Global,
) -> Result<PlSmallStr, PlanError>
    ensures ok { IfOk result (λ own. own ≡ unwrap_or name.now (chars text.now)) }
    ensures err { IfErr result (λ error. error ≡ no_memory) }
{
    match name {
        Some(name) => name.try_clone(alloc),
        None => PlSmallStr::new(alloc, text),
    }
}

/// The common type of the values that an unpivot puts below each other, where there is one that columns have.
pub fn value_dtype(
    alloc: Global,
    on: &[PlSmallStr],
    index: &[PlSmallStr],
    schema: &Schema,
) -> Result<Option<DataType>, PlanError>
    ensures ok { IfOk result (λ found. option_map ty found ≡ value_type (columns schema.now) on.now index.now) }
    ensures err { IfErr result (λ error. error ≡ no_memory) }
{
    match common_dtype(alloc, on, index, schema)? {
        Some(dtype) if dtype.is_known() => Ok(Some(dtype)),
        _ => Ok(None),
    }
}

// The common type of those values, where there is one.
fn common_dtype(
    alloc: Global,
    on: &[PlSmallStr],
    index: &[PlSmallStr],
    schema: &Schema,
) -> Result<Option<DataType>, PlanError>
    ensures ok { IfOk result (λ found. option_map ty found ≡ folded_type (types_of (columns_under (columns schema.now) (value_columns (columns schema.now) on.now index.now)))) }
    ensures err { IfErr result (λ error. error ≡ no_memory) }
{
    if on.is_empty() {
        let found = type_beside(alloc, index, schema)?;
        Ok(found)
    } else {
        let found = type_among(alloc, on, schema)?;
        Ok(found)
    }
}

// The common type of the columns of these names.
fn type_among(
    alloc: Global,
    names: &[PlSmallStr],
    schema: &Schema,
) -> Result<Option<DataType>, PlanError>
    ensures ok { IfOk result (λ found. option_map ty found ≡ folded_type (types_of (columns_under (columns schema.now) names.now))) }
    ensures err { IfErr result (λ error. error ≡ no_memory) }
{
    let mut found = DataType::Null;
    for name in names {
        if let Some(dtype) = schema.get(name) {
            match get_supertype(alloc, &found, dtype)? {
                Some(common) => found = common,
                None => return Ok(None),
            }
        }
    }
    Ok(Some(found))
}

// The common type of the columns that aren't of these names.
fn type_beside(
    alloc: Global,
    names: &[PlSmallStr],
    schema: &Schema,
) -> Result<Option<DataType>, PlanError>
    ensures ok { IfOk result (λ found. option_map ty found ≡ folded_type (types_of (columns_but names.now (columns schema.now)))) }
    ensures err { IfErr result (λ error. error ≡ no_memory) }
{
    let set = names_in(alloc, names)?;
    let mut found = DataType::Null;
    for index in 0..schema.len() {
        if let Some((name, dtype)) = schema.get_at_index(index) {
            if !set.contains(&name) {
                match get_supertype(alloc, &found, dtype)? {
                    Some(common) => found = common,
                    None => return Ok(None),
                }
            }
        }
    }
    Ok(Some(found))
}
