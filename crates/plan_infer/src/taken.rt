//! Nodes over two inputs that are taken to types which a table gives.
ghost use Rattle.std.specs.Prelude.{◌≡◌, ◌||◌, [], ◌∷◌, length, map, Ok, IfOk, IfErr};
ghost use Rattle.std.specs.List.{AllByRecursion};
ghost use Rattle.plan_types.specs.Errors.{no_memory};
ghost use Rattle.plan_types.specs.Types.{ty};
ghost use Rattle.plan_dsl.specs.OperatorTypes.{pair_to};
ghost use Rattle.plan_dsl.specs.Typing.{ruled_as, some_many};
ghost use Rattle.plan_arena.specs.Items.{numbers};
ghost use Rattle.plan_infer.specs.KeptTypes.{AreOperands, IsKept, Says, typed_of, typings_at};

use crate::operator_types::OperandTypes;
use crate::taken_types::TakenTypes;
use crate::type_table::{Inferred, TypeTable};
use plan_arena::arena::Node;
use plan_types::dtype::DataType;
use plan_types::error::PlanError;
use std::alloc::Global;

/// What is inferred of a node that takes its two inputs to these types, and has that name.
pub(crate) fn taken_typing(
    name: Node,
    taken: OperandTypes,
    inputs: &[Node],
    types: &TypeTable,
    alloc: Global,
) -> Result<Inferred, PlanError>
    requires two { length inputs.now ≡ 2 }
    requires inputs { AllByRecursion (IsKept types.now) (numbers inputs.now) }
    ensures ok { IfOk result (λ own. let typed = typings_at types.now (numbers inputs.now) in
        Says (ruled_as (Ok (pair_to (ty taken.left) (ty taken.right) (ty taken.result))) (some_many typed)) typed own) }
    ensures name { IfOk result (λ own. own.name ≡ name) }
    ensures err { IfErr result (λ error. error ≡ no_memory) }
{
    let OperandTypes {
        left,
        right,
        result: dtype,
    } = taken;
    let first = types.get(inputs[0]);
    let second = types.get(inputs[1]);
    let operands = pair_unless_own(left, right, first, second, alloc)?;
    Ok(Inferred {
        name,
        dtype,
        many: either_many(first, second),
        operands,
    })
}

/// What is inferred of a node that takes two inputs to a type which neither or one has, and that is its own type.
#[inline(always)]
pub(crate) fn widened(
    left: &Inferred,
    right: &Inferred,
    common: DataType,
    alloc: Global,
) -> Result<Inferred, PlanError>
    ensures ok { IfOk result (λ own. let typed = typed_of left.now ∷ typed_of right.now ∷ [] in
        Says (ruled_as (Ok (pair_to (ty common) (ty common) (ty common))) (some_many typed)) typed own) }
    ensures name { IfOk result (λ own. own.name ≡ left.now.name) }
    ensures err { IfErr result (λ error. error ≡ no_memory) }
{
    let operand = common.try_clone(alloc)?;
    Ok(Inferred {
        name: left.name,
        dtype: common,
        many: either_many(left, right),
        operands: TakenTypes::both(operand),
    })
}

// Whether one of two inputs may have another length than one.
fn either_many(first: &Inferred, second: &Inferred) -> bool
    ensures { result ≡ some_many (typed_of first.now ∷ typed_of second.now ∷ []) }
{
    first.many || second.many
}

// Two types to which inputs are taken, or none where they have them.
fn pair_unless_own(
    left: DataType,
    right: DataType,
    first: &Inferred,
    second: &Inferred,
    alloc: Global,
) -> Result<TakenTypes, PlanError>
    ensures ok { IfOk result (λ types. AreOperands (map ty types) (ty first.now.dtype ∷ ty second.now.dtype ∷ []) (ty left ∷ ty right ∷ [])) }
    ensures err { IfErr result (λ error. error ≡ no_memory) }
{
    if first.dtype == left && second.dtype == right {
        return Ok(TakenTypes::none());
    }
    let types = pair(left, right, alloc)?;
    Ok(TakenTypes::listed(types))
}

// Two types in a list that has room for no more.
#[inline(always)]
fn pair(left: DataType, right: DataType, alloc: Global) -> Result<Vec<DataType>, PlanError>
    ensures ok { IfOk result (λ types. types.items ≡ left ∷ right ∷ []) }
    ensures err { IfErr result (λ error. error ≡ no_memory) }
{
    let mut types = Vec::with_capacity(alloc, 2)?;
    types.push_reserved(left);
    types.push_reserved(right);
    Ok(types)
}
