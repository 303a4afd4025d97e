//! The functions that are run.

use plan_dsl::distinct_options::ColumnNames;
use plan_dsl::function::FunctionIR;
use plan_dsl::unpivot_args::UnpivotArgsIR;
use plan_types::error::PlanError;
use plan_types::text::PlSmallStr;
use std::alloc::Global;

/// The functions, each with what it is to show.
pub fn functions(alloc: Global) -> Result<Vec<(&'static str, FunctionIR)>, PlanError> {
    let mut made = Vec::new(alloc);
    made.push(("row numbers wrap around", row_index(alloc)?))?;
    made.push((
        "an empty list and a null make a row",
        explode(alloc, &["l"])?,
    ))?;
    made.push((
        "lists of one row differ in length",
        explode(alloc, &["l", "m"])?,
    ))?;
    made.push(("a column that isn't of lists", explode(alloc, &["k"])?))?;
    made.push((
        "two columns are swapped",
        rename(alloc, &["a", "b"], &["b", "a"])?,
    ))?;
    made.push((
        "columns below each other",
        unpivot(alloc, &["a", "b"], &["k"])?,
    ))?;
    made.push(("a null struct has nulls", unnest(alloc, &["s"])?))?;
    Ok(made)
}

// Names of columns.
fn names(alloc: Global, texts: &[&str]) -> Result<ColumnNames, PlanError> {
    let mut items = Vec::with_capacity(alloc, texts.len())?;
    for text in texts {
        let name = PlSmallStr::new(alloc, text)?;
        items.push(name)?;
    }
    Ok(ColumnNames { items })
}

// A row index from the greatest number of 32 bits on.
fn row_index(alloc: Global) -> Result<FunctionIR, PlanError> {
    let name = PlSmallStr::new(alloc, "row")?;
    Ok(FunctionIR::RowIndex {
        name,
        offset: Some(u32::MAX),
    })
}

// An explode of columns.
fn explode(alloc: Global, columns: &[&str]) -> Result<FunctionIR, PlanError> {
    let columns = names(alloc, columns)?;
    Ok(FunctionIR::Explode { columns })
}

// A rename of columns.
fn rename(alloc: Global, existing: &[&str], new: &[&str]) -> Result<FunctionIR, PlanError> {
    let existing = names(alloc, existing)?;
    let new = names(alloc, new)?;
    Ok(FunctionIR::Rename {
        existing,
        new,
        swapping: true,
    })
}

// An unpivot of columns, beside an index.
fn unpivot(alloc: Global, on: &[&str], index: &[&str]) -> Result<FunctionIR, PlanError> {
    let on = names(alloc, on)?;
    let index = names(alloc, index)?;
    let args = UnpivotArgsIR {
        on,
        index,
        variable_name: None,
        value_name: None,
    };
    Ok(FunctionIR::Unpivot { args })
}

// An unnest of columns.
fn unnest(alloc: Global, columns: &[&str]) -> Result<FunctionIR, PlanError> {
    let columns = names(alloc, columns)?;
    Ok(FunctionIR::Unnest { columns })
}
