//! Functions from a frame to a frame.
ghost use Rattle.std.specs.Prelude.{◌≡◌, IfOk, IfErr};
ghost use Rattle.plan_types.specs.Errors.{no_memory};
ghost use Rattle.plan_dsl.specs.Expressions.{selector_trees};
ghost use Rattle.plan_dsl.specs.Plans.{call_lists, call_option, call_work, expands_rows, function_work, is_streamable};

use crate::distinct_options::ColumnNames;
use crate::selector::Selectors;
use crate::unpivot_args::{UnpivotArgsDSL, UnpivotArgsIR};
use plan_types::error::PlanError;
use plan_types::text::PlSmallStr;
use std::alloc::Global;

/// The columns that a drop takes away. A strict one is refused where the frame lacks one of them.
#[derive(Drop)]
pub struct DropFunction {
    pub to_drop: Selectors,
    pub strict: bool,
}

impl DropFunction {
    pub fn try_clone(&self, alloc: Global) -> Result<DropFunction, PlanError>
        ensures selectors { IfOk result (λ copy. selector_trees copy.to_drop ≡ selector_trees self.now.to_drop) }
        ensures strict { IfOk result (λ copy. copy.strict ≡ self.now.strict) }
        ensures err { IfErr result (λ error. error ≡ no_memory) }
    {
        let to_drop = self.to_drop.try_clone(alloc)?;
        Ok(DropFunction {
            to_drop,
            strict: self.strict,
        })
    }
}

/// What statistics are taken of each column: the sum, the least value or the greatest.
#[derive(Clone, Copy)]
pub enum StatsFunction {
    Sum,
    Min,
    Max,
}

/// A function from a frame to a frame, whose columns are known by name.
#[derive(Drop, PartialEq, Eq, Hash)]
pub enum FunctionIR {
    /// A row for each item of the columns' lists, of which an empty one and a null count as one null.
    Explode {
        columns: ColumnNames,
    },
    /// The frame, laid anew in memory.
    Rechunk,
    /// The columns under new names, by place. Whether a new name stood before means nothing.
    Rename {
        existing: ColumnNames,
        new: ColumnNames,
        swapping: bool,
    },
    /// The rows behind their numbers, which are counted from the offset on, or from 0, and wrap around in 32 bits.
    RowIndex {
        name: PlSmallStr,
        offset: Option<u32>,
    },
    /// The fields of the columns' structs in place of these.
    Unnest {
        columns: ColumnNames,
    },
    /// The values of columns below each other.
    Unpivot {
        args: UnpivotArgsIR,
    },
}

impl FunctionIR {
    pub fn try_clone(&self, alloc: Global) -> Result<FunctionIR, PlanError>
        ensures ok { IfOk result (λ copy. function_work copy ≡ function_work self.now) }
        ensures err { IfErr result (λ error. error ≡ no_memory) }
    {
        match self {
            FunctionIR::Explode { columns } => Ok(FunctionIR::Explode {
                columns: columns.try_clone(alloc)?,
            }),
            FunctionIR::Rechunk => Ok(FunctionIR::Rechunk),
            FunctionIR::Rename {
                existing,
                new,
                swapping,
            } => {
                let (existing, new) = both_copied(existing, new, alloc)?;
                Ok(FunctionIR::Rename {
                    existing,
                    new,
                    swapping: *swapping,
                })
            }
            FunctionIR::RowIndex { name, offset } => Ok(FunctionIR::RowIndex {
                name: name.try_clone(alloc)?,
                offset: *offset,
            }),
            FunctionIR::Unnest { columns } => Ok(FunctionIR::Unnest {
                columns: columns.try_clone(alloc)?,
            }),
            FunctionIR::Unpivot { args } => Ok(FunctionIR::Unpivot {
                args: args.try_clone(alloc)?,
            }),
        }
    }

    /// Whether each part of the rows can be handed in by itself, and what comes out put together.
    pub fn is_streamable(&self) -> bool
        ensures { result ≡ is_streamable self.now }
    {
        !matches!(self, FunctionIR::Rechunk | FunctionIR::RowIndex { .. })
    }

    /// Whether there may be more rows than were handed in.
    pub fn expands_rows(&self) -> bool
        ensures { result ≡ expands_rows self.now }
    {
        matches!(
            self,
            FunctionIR::Explode { .. } | FunctionIR::Unpivot { .. }
        )
    }
}

// Copies of two lists of names.
fn both_copied(
    first: &ColumnNames,
    second: &ColumnNames,
    alloc: Global,
) -> Result<(ColumnNames, ColumnNames), PlanError>
    ensures first { IfOk result (λ copies. copies.0.items.items ≡ first.now.items.items) }
    ensures second { IfOk result (λ copies. copies.1.items.items ≡ second.now.items.items) }
    ensures err { IfErr result (λ error. error ≡ no_memory) }
{
    let first = first.try_clone(alloc)?;
    let second = second.try_clone(alloc)?;
    Ok((first, second))
}

/// A function from a frame to a frame, as a query has it.
#[derive(Drop)]
pub enum DslFunction {
    /// The frame without some columns.
    Drop(DropFunction),
    /// A row for each item of the columns' lists. Whether no columns are allowed is said by the flag: then it is the frame.
    Explode {
        columns: Selectors,
        allow_empty: bool,
    },
    FunctionIR(FunctionIR),
    /// The columns under new names, by place. A strict one is refused where the frame lacks one of them.
    Rename {
        existing: ColumnNames,
        new: ColumnNames,
        strict: bool,
    },
    /// The rows behind their numbers, which are counted from the offset on, or from 0, and wrap around in 32 bits.
    RowIndex {
        name: PlSmallStr,
        offset: Option<u32>,
    },
    /// One row, with a statistic of each column or a null.
    Stats(StatsFunction),
    /// The fields of the columns' structs in place of these.
    Unnest(Selectors),
    /// The values of columns below each other.
    Unpivot {
        args: UnpivotArgsDSL,
    },
}

impl From<FunctionIR> for DslFunction {
    ghost use Rattle.std.specs.Prelude.{◌≡◌};
    ghost use Rattle.plan_dsl.specs.declared.function.DslFunction.TheVariants.{FunctionIR as OfFunctionIR};

    ghost from_gives = { λ function own. own ≡ OfFunctionIR function };

    fn from(function: FunctionIR) -> Self {
        DslFunction::FunctionIR(function)
    }
}

impl DslFunction {
    pub fn try_clone(&self, alloc: Global) -> Result<DslFunction, PlanError>
        ensures work { IfOk result (λ copy. call_work copy ≡ call_work self.now) }
        ensures lists { IfOk result (λ copy. call_lists copy ≡ call_lists self.now) }
        ensures option { IfOk result (λ copy. call_option copy ≡ call_option self.now) }
        ensures err { IfErr result (λ error. error ≡ no_memory) }
    {
        match self {
            DslFunction::Drop(function) => Ok(DslFunction::Drop(function.try_clone(alloc)?)),
            DslFunction::Explode {
                columns,
                allow_empty,
            } => Ok(DslFunction::Explode {
                columns: columns.try_clone(alloc)?,
                allow_empty: *allow_empty,
            }),
            DslFunction::FunctionIR(function) => {
                Ok(DslFunction::FunctionIR(function.try_clone(alloc)?))
            }
            DslFunction::Rename {
                existing,
                new,
                strict,
            } => {
                let (existing, new) = both_copied(existing, new, alloc)?;
                Ok(DslFunction::Rename {
                    existing,
                    new,
                    strict: *strict,
                })
            }
            DslFunction::RowIndex { name, offset } => Ok(DslFunction::RowIndex {
                name: name.try_clone(alloc)?,
                offset: *offset,
            }),
            DslFunction::Stats(statistic) => Ok(DslFunction::Stats(*statistic)),
            DslFunction::Unnest(columns) => Ok(DslFunction::Unnest(columns.try_clone(alloc)?)),
            DslFunction::Unpivot { args } => Ok(DslFunction::Unpivot {
                args: args.try_clone(alloc)?,
            }),
        }
    }
}
