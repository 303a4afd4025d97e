//! A column's name and type.
ghost use Rattle.std.specs.Prelude.{◌≡◌, IfOk, IfErr};
ghost use Rattle.plan_types.specs.Errors.{no_memory};
ghost use Rattle.plan_types.specs.Types.{field_of, same_field};

use crate::dtype::DataType;
use crate::error::PlanError;
use crate::text::PlSmallStr;
use std::alloc::Global;
use std::hash::{Hash, Hasher};

/// A column's name and type.
#[derive(Drop)]
#[cycle(data_type)]
pub struct Field {
    pub name: PlSmallStr,
    pub dtype: DataType,
}

impl Field {
    pub fn new(name: PlSmallStr, dtype: DataType) -> Field
        ensures { result ≡ record { name = name; dtype = dtype } }
    {
        Field { name, dtype }
    }

    pub fn name(&self) -> &PlSmallStr
        ensures { result.now ≡ self.now.name }
    {
        &self.name
    }

    pub fn dtype(&self) -> &DataType
        ensures { result.now ≡ self.now.dtype }
    {
        &self.dtype
    }

    /// Replaces the type.
    pub fn coerce(&mut self, dtype: DataType)
        ensures { self.new ≡ record self.old { dtype = dtype } }
    {
        self.dtype = dtype;
    }

    /// Whether both have the same name and type.
    #[cycle(same_types)]
    pub fn is_same(&self, other: &Field) -> bool
        ensures { result ≡ same_field (field_of self.now) (field_of other.now) }
    {
        self.name == other.name && self.dtype.is_same(&other.dtype)
    }

    #[cycle(type_copies)]
    pub fn try_clone(&self, alloc: Global) -> Result<Field, PlanError>
        ensures ok { IfOk result (λ copy. field_of copy ≡ field_of self.now) }
        ensures err { IfErr result (λ error. error ≡ no_memory) }
    {
        let name = self.name.try_clone(alloc)?;
        let dtype = self.dtype.try_clone(alloc)?;
        Ok(Field { name, dtype })
    }
}

impl PartialEq for Field {
    ghost use Rattle.std.specs.Cmp.{partial_equiv_from_equiv};
    ghost use Rattle.plan_types.specs.Types.{field_of, same_field};
    ghost use Rattle.plan_types.specs.TypeLaws.{same_field_is_equivalence};

    ghost eq = { λ a b. same_field (field_of a) (field_of b) };

    ghost laws = { partial_equiv_from_equiv same_field_is_equivalence };

    fn eq(&self, other: &Field) -> bool {
        self.is_same(other)
    }
}

impl Eq for Field {
    ghost use Rattle.plan_types.specs.TypeLaws.{same_field_is_equivalence};

    ghost laws = { same_field_is_equivalence };
}

impl Hash for Field {
    ghost use Rattle.plan_types.specs.Types.{field_of, field_writes};
    ghost use Rattle.plan_types.specs.TypeLaws.{same_field_hash};

    ghost hash_input = { λ a. field_writes (field_of a) };

    ghost respects_eq = { same_field_hash };

    fn hash<H: Hasher>(&self, state: &mut H) {
        self.name.hash(state);
        self.dtype.hash(state);
    }
}
