//! Fields of structs at a place, which get their names.
ghost use Rattle.std.specs.Prelude.{◌≡◌, [], ◌∷◌, Ok, Some, IfOk, IfErr, IfNone, IfSome, OnOk};
ghost use Rattle.std.specs.Option.{ok_or, option_map};
ghost use Rattle.plan_types.specs.Errors.{no_memory, IsRefusal};
ghost use Rattle.plan_types.specs.Schemas.{columns, type_at};
ghost use Rattle.plan_types.specs.Types.{ty};
ghost use Rattle.plan_types.specs.declared.error.ErrorKind.TheVariants.{InvalidOperation};
ghost use Rattle.plan_dsl.specs.Expansion.{column_field, field_at, field_named, fields_named, markers_in};
ghost use Rattle.plan_dsl.specs.Expressions.{tree_of, trees_of};
ghost use Rattle.plan_dsl.specs.Sources.{FieldAtOp};
ghost use Rattle.plan_dsl.specs.Trees.{children_from, node};
ghost use Rattle.plan_expand.specs.Changes.{KeepsField, only_column, own_field_named};

use crate::markers::column_number;
use crate::operands::swap_operand;
use crate::walks::operand_count;
use plan_dsl::expr::{Expr, Exprs};
use plan_dsl::function_expr::FunctionExpr;
use plan_types::dtype::DataType;
use plan_types::error::{ErrorKind, PlanError};
use plan_types::schema::Schema;
use plan_types::text::PlSmallStr;
use std::alloc::Global;
use std::mem;

// Names all fields at a place in an expression without markers.
#[cycle(name_fields)]
pub(crate) fn name_fields(alloc: Global, expr: &mut Expr, schema: &Schema) -> Result<(), PlanError>
    requires { markers_in (tree_of expr.old) ≡ [] }
    ensures ok { OnOk result (fields_named (columns schema.now) (tree_of expr.old) ≡ Ok (tree_of expr.new)) }
    ensures err { IfErr result (IsRefusal (fields_named (columns schema.now) (tree_of expr.old))) }
{
    let Some(count) = operand_count(expr) else {
        return Ok(());
    };
    for place in 0..count {
        let mut operand = Expr::Len;
        swap_operand(expr, place, &mut operand);
        let named = name_fields(alloc, &mut operand, schema);
        swap_operand(expr, place, &mut operand);
        drop(operand);
        named?;
    }
    name_field(alloc, expr, schema)?;
    Ok(())
}

// Names the field, if the node is one at a place.
fn name_field(alloc: Global, expr: &mut Expr, schema: &Schema) -> Result<(), PlanError>
    ensures ok { OnOk result (own_field_named (columns schema.now) (tree_of expr.old) ≡ Ok (tree_of expr.new)) }
    ensures err { IfErr result (IsRefusal (own_field_named (columns schema.now) (tree_of expr.old))) }
{
    let Some((input, place)) = field_of(expr) else {
        return Ok(());
    };
    let named = named_field(alloc, input, place, schema)?;
    let spare = mem::replace(expr, named);
    drop(spare);
    Ok(())
}

// The operands and the place, if the node is a field at a place.
fn field_of(expr: &Expr) -> Option<(&Exprs, i64)>
    ensures some { IfSome result (λ field. tree_of expr.now ≡ node (FieldAtOp field.1) (children_from (trees_of field.0.now))) }
    ensures none { IfNone result (KeepsField (tree_of expr.now)) }
{
    match expr {
        Expr::Function { input, function } => match function {
            FunctionExpr::FieldByIndex(place) => Some((input, *place)),
            _ => None,
        },
        _ => None,
    }
}

// The field at the place of a column, by its name. Its operands must be that column.
fn named_field(alloc: Global, input: &Exprs, place: i64, schema: &Schema) -> Result<Expr, PlanError>
    ensures ok { IfOk result (λ named. field_named (columns schema.now) (FieldAtOp place) (children_from (trees_of input.now)) ≡ Ok (tree_of named)) }
    ensures err { IfErr result (IsRefusal (field_named (columns schema.now) (FieldAtOp place) (children_from (trees_of input.now)))) }
{
    let Some(column) = only_column(input) else {
        return Err(PlanError::at_top(ErrorKind::InvalidOperation));
    };
    let field = field_at(alloc, column, place, schema)?;
    let named = column_field(alloc, column, field)?;
    Ok(named)
}

// The name of the only column.
fn only_column(input: &Exprs) -> Option<&PlSmallStr>
    ensures { option_map (λ name. name.now) result ≡ only_column (trees_of input.now) }
{
    let exprs = input.items.as_slice();
    if exprs.len() != 1 {
        return None;
    }
    match &exprs[0] {
        Expr::Column(name) => Some(name),
        _ => None,
    }
}

// The name of the field at a place of the column of that name.
fn field_at(
    alloc: Global,
    column: &PlSmallStr,
    place: i64,
    schema: &Schema,
) -> Result<PlSmallStr, PlanError>
    ensures ok { IfOk result (λ field. field_at (type_at (columns schema.now) column.now) place ≡ Ok field) }
    ensures err { IfErr result (IsRefusal (field_at (type_at (columns schema.now) column.now) place)) }
{
    let Some(dtype) = schema.get(column) else {
        return Err(PlanError::at_top(ErrorKind::ColumnNotFound));
    };
    let Some(field) = field_in(dtype, place) else {
        return Err(PlanError::at_top(ErrorKind::InvalidOperation));
    };
    let field = field.try_clone(alloc)?;
    Ok(field)
}

// The name of the field at a place of a type.
fn field_in(dtype: &DataType, place: i64) -> Option<&PlSmallStr>
    ensures { ok_or (option_map (λ name. name.now) result) InvalidOperation ≡ field_at (Some (ty dtype.now)) place }
{
    let DataType::Struct(fields) = dtype else {
        return None;
    };
    let fields = fields.items.as_slice();
    let Some(number) = column_number(place, fields.len()) else {
        return None;
    };
    let field = fields.get(number)?;
    Some(&field.name)
}

// A column's field of that name.
fn column_field(alloc: Global, column: &PlSmallStr, field: PlSmallStr) -> Result<Expr, PlanError>
    ensures ok { IfOk result (λ made. tree_of made ≡ column_field column.now field) }
    ensures err { IfErr result (λ error. error ≡ no_memory) }
{
    let column = Expr::Column(column.try_clone(alloc)?);
    let input = only(alloc, column)?;
    Ok(Expr::Function {
        input,
        function: FunctionExpr::FieldByName(field),
    })
}

// The expression alone.
fn only(alloc: Global, expr: Expr) -> Result<Exprs, PlanError>
    ensures ok { IfOk result (λ exprs. trees_of exprs ≡ tree_of expr ∷ []) }
    ensures err { IfErr result (λ error. error ≡ no_memory) }
{
    let items = vec![in alloc; expr]?;
    Ok(Exprs { items })
}
