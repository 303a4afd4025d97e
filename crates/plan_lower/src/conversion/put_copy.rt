//! Copies of columns.
ghost use Rattle.std.specs.Prelude.{◌≡◌, OnOk, IfErr};
ghost use Rattle.plan_types.specs.Errors.{no_memory};
ghost use Rattle.plan_types.specs.Schemas.{columns, with_column};
ghost use Rattle.plan_types.specs.Types.{ty};

use plan_types::dtype::DataType;
use plan_types::error::PlanError;
use plan_types::schema::Schema;
use plan_types::text::PlSmallStr;
use std::alloc::Global;

/// Puts a copy of a column into the schema: in place of its namesake, or behind the others.
pub(crate) fn put_copy(
    schema: &mut Schema,
    name: &PlSmallStr,
    dtype: &DataType,
    alloc: Global,
) -> Result<(), PlanError>
    ensures ok { OnOk result (columns schema.new ≡ with_column (columns schema.old) name.now (ty dtype.now)) }
    ensures err { IfErr result (λ error. error ≡ no_memory) }
{
    let name = name.try_clone(alloc)?;
    let dtype = dtype.try_clone(alloc)?;
    schema.put(name, dtype)?;
    Ok(())
}
