//! Renames.
ghost use Rattle.std.specs.Prelude.{◌≡◌, [], length, map, IfOk, IfErr};
ghost use Rattle.plan_types.specs.Errors.{no_memory};
ghost use Rattle.plan_types.specs.FrameFaults.{shown};
ghost use Rattle.plan_types.specs.FrameViews.{frame_of};
ghost use Rattle.plan_dsl.specs.FunctionSchemas.{found_name};
ghost use Rattle.plan_dsl.specs.TableFrames.{renamed_on};
ghost use Rattle.plan_dsl.specs.TableRules.{rename_kinds};
ghost use Rattle.plan_exec.specs.ColumnFunctions.{renamed_column};

use indexmap::IndexMap;
use plan_dsl::function_schema::new_names;
use plan_types::column::Column;
use plan_types::error::PlanError;
use plan_types::frame::Frame;
use plan_types::text::PlSmallStr;
use std::alloc::Global;

/// The frame under new names.
pub fn renamed<'a>(
    alloc: Global,
    existing: &'a [PlSmallStr],
    new: &'a [PlSmallStr],
    frame: Frame,
) -> Result<Frame, PlanError>
    requires { rename_kinds (frame_of frame).schema existing.now new.now ≡ [] }
    ensures ok { IfOk result (λ made. frame_of made ≡ renamed_on existing.now new.now (frame_of frame)) }
    ensures err { IfErr result (λ error. error ≡ no_memory) }
{
    let columns = renamed_columns(alloc, existing, new, frame.into_columns())?;
    Ok(Frame::new_no_checks(columns))
}

// The columns under new names.
fn renamed_columns<'a>(
    alloc: Global,
    existing: &'a [PlSmallStr],
    new: &'a [PlSmallStr],
    columns: Vec<Column>,
) -> Result<Vec<Column>, PlanError>
    requires { length existing.now ≡ length new.now }
    ensures ok { IfOk result (λ made. map shown made.items ≡ map (renamed_column existing.now new.now) (map shown columns.items)) }
    ensures err { IfErr result (λ error. error ≡ no_memory) }
{
    let names = new_names(alloc, existing, new)?;
    let mut made = Vec::with_capacity(alloc, columns.len())?;
    for column in columns {
        let Column {
            name,
            dtype,
            values,
        } = column;
        let name = match name_in(&names, &name, alloc)? {
            Some(own) => own,
            None => name,
        };
        made.push(Column {
            name,
            dtype,
            values,
        })?;
    }
    Ok(made)
}

// A copy of the name's new name, where it has one.
fn name_in(
    names: &IndexMap<&PlSmallStr, &PlSmallStr>,
    name: &PlSmallStr,
    alloc: Global,
) -> Result<Option<PlSmallStr>, PlanError>
    ensures ok { IfOk result (λ own. own ≡ found_name names.now.entries name.now) }
    ensures err { IfErr result (λ error. error ≡ no_memory) }
{
    match names.get(&name) {
        Some(own) => Ok(Some(own.try_clone(alloc)?)),
        None => Ok(None),
    }
}
