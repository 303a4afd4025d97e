//! Functions of the values of expressions.
ghost use Rattle.std.specs.Prelude.{◌≡◌, IfOk, IfErr};
ghost use Rattle.plan_types.specs.Errors.{no_memory};
ghost use Rattle.plan_dsl.specs.Functions.{apply_kind, function_flags, function_rank, is_expanded_function, same_function};
ghost use Rattle.plan_dsl.specs.Words.{function_name};

use crate::function_options::{ApplyOptions, FunctionFlags, FunctionOptions};
use bitflags::Flags;
use plan_types::error::PlanError;
use plan_types::text::PlSmallStr;
use std::alloc::Global;
use std::hash::{Hash, Hasher};

/// A function of the values of its operands. Two are equal where they are one, of one name and flag.
#[derive(Drop)]
pub enum FunctionExpr {
    /// Whether all values are true.
    AllHorizontal,
    /// Whether any value is true.
    AnyHorizontal,
    /// Whether a value is null.
    IsNull,
    /// Whether it isn't.
    IsNotNull,
    /// The first value, and where it is null the second.
    FillNull,
    /// Whether the second operand has a value: its lists, each for the value beside it, or else its column.
    IsIn,
    /// The values moved down by the second operand, up where that is below 0, and the third in the places that are left.
    ShiftAndFill,
    /// The value of a list at a place. A number below 0 counts from the end. Past the list there is null where the flag
    /// is set, else it is a fault.
    ListGet(bool),
    /// The values of a struct's first field of that name.
    FieldByName(PlSmallStr),
    /// The values of a struct's field at a place, which expansion names. A number below 0 counts from the end.
    FieldByIndex(i64),
}

impl FunctionExpr {
    pub fn try_clone(&self, alloc: Global) -> Result<FunctionExpr, PlanError>
        ensures ok { IfOk result (λ copy. copy ≡ self.now) }
        ensures err { IfErr result (λ error. error ≡ no_memory) }
    {
        match self {
            FunctionExpr::AllHorizontal => Ok(FunctionExpr::AllHorizontal),
            FunctionExpr::AnyHorizontal => Ok(FunctionExpr::AnyHorizontal),
            FunctionExpr::IsNull => Ok(FunctionExpr::IsNull),
            FunctionExpr::IsNotNull => Ok(FunctionExpr::IsNotNull),
            FunctionExpr::FillNull => Ok(FunctionExpr::FillNull),
            FunctionExpr::IsIn => Ok(FunctionExpr::IsIn),
            FunctionExpr::ShiftAndFill => Ok(FunctionExpr::ShiftAndFill),
            FunctionExpr::ListGet(null_on_oob) => Ok(FunctionExpr::ListGet(*null_on_oob)),
            FunctionExpr::FieldByName(name) => {
                Ok(FunctionExpr::FieldByName(name.try_clone(alloc)?))
            }
            FunctionExpr::FieldByIndex(place) => Ok(FunctionExpr::FieldByIndex(*place)),
        }
    }

    /// What a query calls it.
    pub fn name(&self) -> &'static str
        ensures { result.now ≡ function_name self.now }
    {
        match self {
            FunctionExpr::AllHorizontal => "AllHorizontal",
            FunctionExpr::AnyHorizontal => "AnyHorizontal",
            FunctionExpr::IsNull => "IsNull",
            FunctionExpr::IsNotNull => "IsNotNull",
            FunctionExpr::FillNull => "FillNull",
            FunctionExpr::IsIn => "IsIn",
            FunctionExpr::ShiftAndFill => "ShiftAndFill",
            FunctionExpr::ListGet(null_on_oob) => {
                if *null_on_oob {
                    "ListGetOrNull"
                } else {
                    "ListGet"
                }
            }
            FunctionExpr::FieldByName(_) => "field",
            FunctionExpr::FieldByIndex(_) => "field_at",
        }
    }

    /// Whether the function goes row by row, whether its inputs are expanded in place, and whether it can have no data
    /// fault.
    pub fn options(&self) -> FunctionOptions
        ensures kind { result.collect_groups ≡ apply_kind self.now }
        ensures flags { result.flags.0 ≡ function_flags self.now }
    {
        let (collect_groups, flags) = match self {
            FunctionExpr::IsIn | FunctionExpr::ShiftAndFill => (
                ApplyOptions::GroupWise,
                FunctionFlags::empty(),
            ),
            FunctionExpr::ListGet(false) => (ApplyOptions::ElementWise, FunctionFlags::empty()),
            FunctionExpr::AllHorizontal | FunctionExpr::AnyHorizontal => (
                ApplyOptions::ElementWise,
                FunctionFlags::INPUT_WILDCARD_EXPANSION.union(FunctionFlags::NEVER_FAULTS),
            ),
            _ => (ApplyOptions::ElementWise, FunctionFlags::NEVER_FAULTS),
        };
        FunctionOptions {
            collect_groups,
            flags,
        }
    }

    /// Whether expansion leaves it as it is: a field's place becomes its name.
    pub fn is_expanded(&self) -> bool
        ensures { result ≡ is_expanded_function self.now }
    {
        !matches!(self, FunctionExpr::FieldByIndex(_))
    }

    // The function's number: no two have the same, but for names and flags.
    fn rank(&self) -> u8
        ensures { result ≡ function_rank self.now }
    {
        match self {
            FunctionExpr::IsNull => 0,
            FunctionExpr::IsNotNull => 1,
            FunctionExpr::FillNull => 2,
            FunctionExpr::IsIn => 3,
            FunctionExpr::ShiftAndFill => 4,
            FunctionExpr::ListGet(_) => 5,
            FunctionExpr::FieldByName(_) => 6,
            FunctionExpr::AllHorizontal => 7,
            FunctionExpr::AnyHorizontal => 8,
            FunctionExpr::FieldByIndex(_) => 9,
        }
    }

    // Whether both are one.
    fn is_same(&self, other: &FunctionExpr) -> bool
        ensures { result ≡ same_function self.now other.now }
    {
        match (self, other) {
            (FunctionExpr::ListGet(flag), FunctionExpr::ListGet(own)) => *flag == *own,
            (FunctionExpr::FieldByName(name), FunctionExpr::FieldByName(own)) => *name == *own,
            (FunctionExpr::FieldByIndex(place), FunctionExpr::FieldByIndex(own)) => *place == *own,
            _ => self.rank() == other.rank(),
        }
    }
}

impl PartialEq for FunctionExpr {
    ghost use Rattle.std.specs.Cmp.{partial_equiv_from_equiv};
    ghost use Rattle.plan_dsl.specs.Functions.{same_function};
    ghost use Rattle.plan_dsl.specs.ViewLaws.{same_function_is_equivalence};

    ghost eq = { same_function };

    ghost laws = { partial_equiv_from_equiv same_function_is_equivalence };

    fn eq(&self, other: &FunctionExpr) -> bool {
        self.is_same(other)
    }
}

impl Eq for FunctionExpr {
    ghost use Rattle.plan_dsl.specs.ViewLaws.{same_function_is_equivalence};

    ghost laws = { same_function_is_equivalence };
}

impl Hash for FunctionExpr {
    ghost use Rattle.plan_dsl.specs.Functions.{function_writes};
    ghost use Rattle.plan_dsl.specs.ViewLaws.{same_function_hash};

    ghost hash_input = { function_writes };

    ghost respects_eq = { same_function_hash };

    fn hash<H: Hasher>(&self, state: &mut H) {
        state.write_u8(self.rank());
        match self {
            FunctionExpr::ListGet(flag) => flag.hash(state),
            FunctionExpr::FieldByName(name) => name.hash(state),
            FunctionExpr::FieldByIndex(place) => place.hash(state),
            _ => {}
        }
    }
}
