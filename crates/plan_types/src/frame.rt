//! Frames: columns of one length, whose names are distinct and whose values fit their types.
ghost use Rattle.std.specs.Prelude.{◌≡◌, [], None, true, is_none, IfOk, IfErr, OnOk};
ghost use Rattle.plan_types.specs.Errors.{no_memory};
ghost use Rattle.plan_types.specs.FrameFaults.{count_of, frame_fault, head_of, height_of, misfit, misfit_from, other_length, repeated_name, shown, vals_of, IsFault};
ghost use Rattle.plan_types.specs.Schemas.{columns as schema_columns, type_at, with_column};
ghost use Rattle.plan_types.specs.Types.{ty};

use crate::column::Column;
use crate::error::{ErrorKind, PlanError};
use crate::schema::Schema;
use crate::text::PlSmallStr;
use indexmap::IndexSet;
use std::alloc::Global;
use thiserror::Error;

/// Why columns are no frame.
#[derive(Debug, Drop, Error)]
pub enum FrameError {
    /// A column has the name of one before it.
    #[error("two columns are named \"{name}\"")]
    Duplicate {
        name: PlSmallStr,
    },
    /// A column has another number of values than the first.
    #[error("column \"{name}\" has {found} values in place of {wanted}")]
    Length {
        name: PlSmallStr,
        found: usize,
        wanted: usize,
    },
    /// A value doesn't fit its column's type.
    #[error("the value of column \"{name}\" in row {row} doesn't fit its type")]
    Misfit {
        name: PlSmallStr,
        row: usize,
    },
    /// Memory ran out. It may stand in place of any other answer.
    #[error("no memory")]
    NoMemory,
}

/// A frame. Contracts see its schema and its rows as `frame_of`.
#[derive(Drop)]
pub struct Frame {
    columns: Vec<Column>,
    ghost sound: { is_none (frame_fault columns.items) ≡ true },
}

impl Frame {
    ghost use Rattle.std.specs.Prelude.{◌<◌, ℕ, length, map, slice_get, IfSome, Some};
    ghost use Rattle.std.specs.Option.{option_map};
    ghost use Rattle.plan_types.specs.FrameViews.{columns_of, frame_of};
    ghost use Rattle.plan_types.specs.Frames.{value_in, row_at, IsFrame};

    /// The frame of these columns. A name that stands before is refused first, then the first length that isn't the
    /// first column's, then the first value that doesn't fit.
    pub fn new(alloc: Global, columns: Vec<Column>) -> Result<Frame, FrameError>
        ensures ok { IfOk result (λ frame. columns_of frame ≡ columns.items) }
        ensures sound { OnOk result (frame_fault columns.items ≡ None) }
        ensures frame { IfOk result (λ frame. IsFrame (frame_of frame)) }
        ensures err { IfErr result (IsFault (frame_fault columns.items)) }
    {
        check_names(alloc, columns.as_slice())?;
        check_lengths(alloc, columns.as_slice())?;
        check_values(alloc, columns.as_slice())?;
        Ok(Frame { columns })
    }

    /// The frame of these columns, which nothing keeps from being one. They aren't looked at.
    pub fn new_no_checks(columns: Vec<Column>) -> Frame
        requires { frame_fault columns.items ≡ None }
        ensures { columns_of result ≡ columns.items }
    {
        Frame { columns }
    }

    /// How many rows there are.
    pub fn height(&self) -> usize
        ensures { result ≡ length (frame_of self.now).rows }
    {
        height(self.columns.as_slice())
    }

    /// How many columns there are.
    pub fn width(&self) -> usize
        ensures { result ≡ length (frame_of self.now).schema }
    {
        self.columns.len()
    }

    /// A copy of the columns' names and types.
    pub fn schema(&self, alloc: Global) -> Result<Schema, PlanError>
        ensures ok { IfOk result (λ schema. schema_columns schema ≡ (frame_of self.now).schema) }
        ensures err { IfErr result (λ error. error ≡ no_memory) }
    {
        let mut schema = Schema::new(alloc);
        for column in self.columns.as_slice() {
            add_head(alloc, &mut schema, column)?;
        }
        Ok(schema)
    }

    pub fn try_clone(&self, alloc: Global) -> Result<Frame, PlanError>
        ensures ok { IfOk result (λ copy. map shown (columns_of copy) ≡ map shown (columns_of self.now)) }
        ensures frame { IfOk result (λ copy. frame_of copy ≡ frame_of self.now) }
        ensures err { IfErr result (λ error. error ≡ no_memory) }
    {
        let mut columns = Vec::new(alloc);
        for column in self.columns.as_slice() {
            let copy = column.try_clone(alloc)?;
            columns.push(copy)?;
        }
        Ok(Frame { columns })
    }

    /// The column of that number.
    pub fn column(&self, index: usize) -> &Column
        requires { index < length (columns_of self.now) }
        ensures column { slice_get (columns_of self.now) index ≡ Some result.now }
        ensures head { slice_get (frame_of self.now).schema index ≡ Some (head_of result.now) }
        ensures height { count_of result.now ≡ length (frame_of self.now).rows }
        ensures values { (number : ℕ) → number < count_of result.now
            → slice_get (vals_of result.now.values) number ≡ Some (value_in (frame_of self.now).schema result.now.name (row_at (frame_of self.now) number)) }
    {
        &self.columns[index]
    }

    /// The column of that name, in time linear in the number of columns.
    pub fn column_named(&self, name: &PlSmallStr) -> Option<&Column>
        ensures dtype { option_map (λ column. ty column.now.dtype) result ≡ type_at (frame_of self.now).schema name.now }
        ensures name { IfSome result (λ column. column.now.name ≡ name.now) }
        ensures height { IfSome result (λ column. count_of column.now ≡ length (frame_of self.now).rows) }
        ensures values { IfSome result (λ column. (number : ℕ) → number < count_of column.now
            → slice_get (vals_of column.now.values) number ≡ Some (value_in (frame_of self.now).schema name.now (row_at (frame_of self.now) number))) }
    {
        for column in self.columns.as_slice() {
            if column.name == *name {
                return Some(column);
            }
        }
        None
    }

    /// The columns, moved out.
    pub fn into_columns(self) -> Vec<Column>
        ensures columns { result.items ≡ columns_of self }
        ensures sound { frame_fault result.items ≡ None }
    {
        self.columns
    }
}

// How many values the first column has.
fn height(columns: &[Column]) -> usize
    ensures { result ≡ height_of columns.now }
{
    match columns.first() {
        Some(column) => column.values.len(),
        None => 0,
    }
}

// Refuses the first name that stands before.
fn check_names(alloc: Global, columns: &[Column]) -> Result<(), FrameError>
    ensures ok { OnOk result (repeated_name [] columns.now ≡ None) }
    ensures err { IfErr result (IsFault (repeated_name [] columns.now)) }
{
    let mut seen = IndexSet::new(alloc);
    for column in columns {
        let Ok(new) = seen.insert(&column.name) else {
            return Err(FrameError::NoMemory);
        };
        if !new {
            let name = column.name.try_clone(alloc).map_err(out_of_memory)?;
            return Err(FrameError::Duplicate { name });
        }
    }
    Ok(())
}

// Gives the schema a copy of the column's name and type.
fn add_head(alloc: Global, schema: &mut Schema, column: &Column) -> Result<(), PlanError>
    ensures ok { OnOk result (schema_columns schema.new ≡ with_column (schema_columns schema.old) column.now.name (ty column.now.dtype)) }
    ensures err { IfErr result (λ error. error ≡ no_memory) }
{
    let name = column.name.try_clone(alloc)?;
    let dtype = column.dtype.try_clone(alloc)?;
    schema.with_column(name, dtype)?;
    Ok(())
}

// Out of memory, where nothing else can come.
fn out_of_memory(error: PlanError) -> FrameError
    requires { error ≡ no_memory }
    ensures { result ≡ FrameError.NoMemory }
{
    let PlanError { kind, place: _ } = error;
    match kind {
        ErrorKind::NoMemory => FrameError::NoMemory,
        _other => unreachable!(),
    }
}

// Refuses the first column that has another number of values than the first.
fn check_lengths(alloc: Global, columns: &[Column]) -> Result<(), FrameError>
    ensures ok { OnOk result (other_length (height_of columns.now) columns.now ≡ None) }
    ensures err { IfErr result (IsFault (other_length (height_of columns.now) columns.now)) }
{
    let wanted = height(columns);
    for column in columns {
        let found = column.values.len();
        if found != wanted {
            let name = column.name.try_clone(alloc).map_err(out_of_memory)?;
            return Err(FrameError::Length {
                name,
                found,
                wanted,
            });
        }
    }
    Ok(())
}

// Refuses the first value that doesn't fit its column's type.
fn check_values(alloc: Global, columns: &[Column]) -> Result<(), FrameError>
    ensures ok { OnOk result (misfit columns.now ≡ None) }
    ensures err { IfErr result (IsFault (misfit columns.now)) }
{
    for column in columns {
        check_column(alloc, column)?;
    }
    Ok(())
}

// Refuses the column's first value that doesn't fit its type.
fn check_column(alloc: Global, column: &Column) -> Result<(), FrameError>
    ensures ok { OnOk result (misfit_from 0 column.now.name (ty column.now.dtype) (vals_of column.now.values) ≡ None) }
    ensures err { IfErr result (IsFault (misfit_from 0 column.now.name (ty column.now.dtype) (vals_of column.now.values))) }
{
    for row in 0..column.values.len() {
        if !column.values.value_at(row).fits(&column.dtype) {
            let name = column.name.try_clone(alloc).map_err(out_of_memory)?;
            return Err(FrameError::Misfit { name, row });
        }
    }
    Ok(())
}
