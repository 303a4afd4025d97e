//! What markers and renaming forms hold.
ghost use Rattle.std.specs.Prelude.{◌≡◌, map, IfOk, IfErr};
ghost use Rattle.plan_types.specs.Errors.{no_memory};
ghost use Rattle.plan_types.specs.Types.{ty};
ghost use Rattle.plan_dsl.specs.Expressions.{excluded_of, renaming_of};
ghost use Rattle.plan_dsl.specs.Sources.{same_excluded, same_renaming};

use plan_types::dtype::DataType;
use plan_types::error::PlanError;
use plan_types::text::PlSmallStr;
use std::alloc::Global;
use std::hash::{Hash, Hasher};

/// What an exclude leaves out. Two are equal where they are of one sort, name and type.
#[derive(Drop)]
pub enum Excluded {
    /// The column of that name.
    Name(PlSmallStr),
    /// The columns of that type.
    Dtype(DataType),
}

impl Excluded {
    pub fn try_clone(&self, alloc: Global) -> Result<Excluded, PlanError>
        ensures ok { IfOk result (λ copy. excluded_of copy ≡ excluded_of self.now) }
        ensures err { IfErr result (λ error. error ≡ no_memory) }
    {
        match self {
            Excluded::Name(name) => Ok(Excluded::Name(name.try_clone(alloc)?)),
            Excluded::Dtype(dtype) => Ok(Excluded::Dtype(dtype.try_clone(alloc)?)),
        }
    }

    // Whether both leave out the same.
    fn is_same(&self, other: &Excluded) -> bool
        ensures { result ≡ same_excluded (excluded_of self.now) (excluded_of other.now) }
    {
        match (self, other) {
            (Excluded::Name(name), Excluded::Name(own)) => *name == *own,
            (Excluded::Dtype(dtype), Excluded::Dtype(own)) => *dtype == *own,
            _ => false,
        }
    }
}

impl PartialEq for Excluded {
    ghost use Rattle.std.specs.Cmp.{partial_equiv_from_equiv};
    ghost use Rattle.plan_dsl.specs.Expressions.{excluded_of};
    ghost use Rattle.plan_dsl.specs.Sources.{same_excluded};
    ghost use Rattle.plan_dsl.specs.ViewLaws.{same_excluded_is_equivalence};

    ghost eq = { λ a b. same_excluded (excluded_of a) (excluded_of b) };

    ghost laws = { partial_equiv_from_equiv same_excluded_is_equivalence };

    fn eq(&self, other: &Excluded) -> bool {
        self.is_same(other)
    }
}

impl Eq for Excluded {
    ghost use Rattle.plan_dsl.specs.ViewLaws.{same_excluded_is_equivalence};

    ghost laws = { same_excluded_is_equivalence };
}

impl Hash for Excluded {
    ghost use Rattle.plan_dsl.specs.Expressions.{excluded_of};
    ghost use Rattle.plan_dsl.specs.Sources.{excluded_writes};
    ghost use Rattle.plan_dsl.specs.ViewLaws.{same_excluded_hash};

    ghost hash_input = { λ a. excluded_writes (excluded_of a) };

    ghost respects_eq = { same_excluded_hash };

    fn hash<H: Hasher>(&self, state: &mut H) {
        match self {
            Excluded::Name(name) => {
                state.write_u8(0);
                name.hash(state);
            }
            Excluded::Dtype(dtype) => {
                state.write_u8(1);
                dtype.hash(state);
            }
        }
    }
}

/// What a renaming form makes of the name of the first column. Two are equal where they make the same of it.
#[derive(Drop)]
pub enum RenameAliasFn {
    /// The text in front of the name.
    Prefix(PlSmallStr),
    /// The text behind the name.
    Suffix(PlSmallStr),
    /// The text in place of the name. No column need be there.
    Fixed(PlSmallStr),
}

impl RenameAliasFn {
    pub fn try_clone(&self, alloc: Global) -> Result<RenameAliasFn, PlanError>
        ensures ok { IfOk result (λ copy. renaming_of copy ≡ renaming_of self.now) }
        ensures err { IfErr result (λ error. error ≡ no_memory) }
    {
        match self {
            RenameAliasFn::Prefix(text) => Ok(RenameAliasFn::Prefix(text.try_clone(alloc)?)),
            RenameAliasFn::Suffix(text) => Ok(RenameAliasFn::Suffix(text.try_clone(alloc)?)),
            RenameAliasFn::Fixed(text) => Ok(RenameAliasFn::Fixed(text.try_clone(alloc)?)),
        }
    }

    // Whether both make the same of a name.
    fn is_same(&self, other: &RenameAliasFn) -> bool
        ensures { result ≡ same_renaming (renaming_of self.now) (renaming_of other.now) }
    {
        match (self, other) {
            (RenameAliasFn::Prefix(text), RenameAliasFn::Prefix(own))
            | (RenameAliasFn::Suffix(text), RenameAliasFn::Suffix(own))
            | (RenameAliasFn::Fixed(text), RenameAliasFn::Fixed(own)) => *text == *own,
            _ => false,
        }
    }
}

impl PartialEq for RenameAliasFn {
    ghost use Rattle.std.specs.Cmp.{partial_equiv_from_equiv};
    ghost use Rattle.plan_dsl.specs.Expressions.{renaming_of};
    ghost use Rattle.plan_dsl.specs.Sources.{same_renaming};
    ghost use Rattle.plan_dsl.specs.ViewLaws.{same_renaming_is_equivalence};

    ghost eq = { λ a b. same_renaming (renaming_of a) (renaming_of b) };

    ghost laws = { partial_equiv_from_equiv same_renaming_is_equivalence };

    fn eq(&self, other: &RenameAliasFn) -> bool {
        self.is_same(other)
    }
}

impl Eq for RenameAliasFn {
    ghost use Rattle.plan_dsl.specs.ViewLaws.{same_renaming_is_equivalence};

    ghost laws = { same_renaming_is_equivalence };
}

impl Hash for RenameAliasFn {
    ghost use Rattle.plan_dsl.specs.Expressions.{renaming_of};
    ghost use Rattle.plan_dsl.specs.Sources.{renaming_writes};
    ghost use Rattle.plan_dsl.specs.ViewLaws.{same_renaming_hash};

    ghost hash_input = { λ a. renaming_writes (renaming_of a) };

    ghost respects_eq = { same_renaming_hash };

    fn hash<H: Hasher>(&self, state: &mut H) {
        state.write_u8(19);
        let (number, text) = match self {
            RenameAliasFn::Prefix(text) => (0, text),
            RenameAliasFn::Suffix(text) => (1, text),
            RenameAliasFn::Fixed(text) => (2, text),
        };
        state.write_u8(number);
        text.hash(state);
    }
}

// Copies of names, in order.
pub(crate) fn names_copied(
    names: &[PlSmallStr],
    alloc: Global,
) -> Result<Vec<PlSmallStr>, PlanError>
    ensures ok { IfOk result (λ copies. copies.items ≡ names.now) }
    ensures err { IfErr result (λ error. error ≡ no_memory) }
{
    let mut copies = Vec::with_capacity(alloc, names.len())?;
    for name in names {
        copies.push(name.try_clone(alloc)?)?;
    }
    Ok(copies)
}

// Copies of types, in order.
pub(crate) fn types_copied(types: &[DataType], alloc: Global) -> Result<Vec<DataType>, PlanError>
    ensures ok { IfOk result (λ copies. map ty copies.items ≡ map ty types.now) }
    ensures err { IfErr result (λ error. error ≡ no_memory) }
{
    let mut copies = Vec::with_capacity(alloc, types.len())?;
    for dtype in types {
        copies.push(dtype.try_clone(alloc)?)?;
    }
    Ok(copies)
}

// Copies of what an exclude leaves out, in order.
pub(crate) fn excluded_copied(
    excluded: &[Excluded],
    alloc: Global,
) -> Result<Vec<Excluded>, PlanError>
    ensures ok { IfOk result (λ copies. map excluded_of copies.items ≡ map excluded_of excluded.now) }
    ensures err { IfErr result (λ error. error ≡ no_memory) }
{
    let mut copies = Vec::with_capacity(alloc, excluded.len())?;
    for item in excluded {
        copies.push(item.try_clone(alloc)?)?;
    }
    Ok(copies)
}
