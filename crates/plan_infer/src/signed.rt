//! Types of nodes whose kind goes by a signature.
ghost use Rattle.std.specs.Prelude.{◌≡◌, ◌==◌, ◌++◌, suc, [], Ok, Err, Some, None, List, cond, length, map, get_or, IfOk, IfErr};
ghost use Rattle.std.specs.List.{AllByRecursion};
ghost use Rattle.plan_types.specs.Errors.{IsMemoryOr, IsRefusal, no_memory};
ghost use Rattle.plan_types.specs.CommonTypes.{type_alone};
ghost use Rattle.plan_types.specs.Types.{Ty, NullType, ty};
ghost use Rattle.plan_dsl.specs.declared.signature.OwnType.TheVariants.{Item};
ghost use Rattle.plan_dsl.specs.Signatures.{asked_at, asked_target, function_signature, has_flags, horizontal_ask, horizontal_signature, is_asked, is_summable, method_signature, own_type, signature, sum_type};
ghost use Rattle.plan_dsl.specs.Sorting.{are_for};
ghost use Rattle.plan_dsl.specs.Typing.{Typed, many_of, shared_at, shared_type, signed, some_many, taken_alone, taken_by, taken_from, types_of};
ghost use Rattle.plan_arena.specs.Layers.{op_of, inputs_of};
ghost use Rattle.plan_dsl.specs.Ops.{SortByOp, WindowOp};
ghost use Rattle.plan_arena.specs.Items.{expression_layer, numbers, numbers_named, ordered, ordering};
ghost use Rattle.plan_infer.specs.KeptTypes.{AreOperands, IsKept, Says, name_at, typed_of, typings_at};
ghost use Rattle.plan_infer.specs.Operands.{common_with};

use crate::steps::Step;
use crate::taken_types::TakenTypes;
use crate::type_table::{Inferred, TypeTable};
use plan_arena::aexpr::AExpr;
use plan_arena::arena::Node;
use plan_arena::expr_ir::ExprIRs;
use plan_arena::inputs::NodeList;
use plan_dsl::aggregate::GroupByMethod;
use plan_dsl::function_expr::FunctionExpr;
use plan_dsl::signature::{Ask, Many, OwnType, Sharing, Signature, asks, asks_one, shares, takes};
use plan_dsl::sort_options::{Flags, SortMultipleOptions, SortOptions};
use plan_types::cast::can_cast;
use plan_types::common_type::{materialize_dyn_int, try_get_common_type};
use plan_types::dtype::DataType;
use plan_types::error::{ErrorKind, PlanError};
use std::alloc::Global;

/// What the kind of an item asks of its inputs, where it goes by a signature.
pub(crate) fn signature(item: &AExpr) -> Result<Signature, ErrorKind>
    ensures { result ≡ signature (op_of (expression_layer item.now)) (length (inputs_of (expression_layer item.now))) }
{
    use Ask::{Any, Boolean, Length, Place, Sortable};
    use Many::{Always, AsFirst, Never, WhereAny};
    use OwnType::{Count, First, Item};
    use Sharing::WithThird;
    match item {
        AExpr::Len => takes(asks(Any), asks(Any), asks(Any), Count, Never),
        AExpr::Slice { .. } => takes(asks(Any), asks_one(Place), asks_one(Length), First, Always),
        AExpr::Explode(_) => takes(asks(Any), asks(Any), asks(Any), Item, Always),
        AExpr::Gather { returns_scalar, .. } => {
            if *returns_scalar {
                takes(asks(Any), asks_one(Place), asks(Any), First, Never)
            } else {
                takes(asks(Any), asks(Place), asks(Any), First, Always)
            }
        }
        AExpr::Filter { .. } => takes(asks(Any), asks(Boolean), asks(Any), First, Always),
        AExpr::Sort { .. } => takes(asks(Sortable), asks(Any), asks(Any), First, AsFirst),
        AExpr::SortBy {
            by,
            sort_options,
            ..
        } => sort_by_signature(by, sort_options),
        AExpr::Agg(aggregate) => method_signature(GroupByMethod::from(*aggregate)),
        AExpr::Window {
            partition_by,
            order_by,
            ..
        } => window_signature(partition_by, order_by),
        AExpr::Ternary { .. } => shares(WithThird, asks(Any), asks(Boolean), asks(Any), WhereAny),
        AExpr::Function { input, function } => function_signature(function, input),
        _ => Err(ErrorKind::SchemaMismatch),
    }
}

// What an aggregate asks of its input, by its method.
fn method_signature(method: GroupByMethod) -> Result<Signature, ErrorKind>
    ensures { result ≡ method_signature method }
{
    let (ask, own) = match method {
        GroupByMethod::Min | GroupByMethod::NanMin | GroupByMethod::Max | GroupByMethod::NanMax => (
            Ask::Sortable,
            OwnType::First,
        ),
        GroupByMethod::NUnique | GroupByMethod::Count { .. } => (Ask::Any, OwnType::Count),
        GroupByMethod::First | GroupByMethod::Last => (Ask::Any, OwnType::First),
        GroupByMethod::Implode => (Ask::Any, OwnType::ListOf),
        GroupByMethod::Sum => (Ask::Summable, OwnType::Total),
        GroupByMethod::Groups => (Ask::Any, OwnType::Rows),
    };
    takes(asks(ask), asks(Ask::Any), asks(Ask::Any), own, Many::Never)
}

// What a window asks of its inputs, by its keys and by what its rows are ordered by.
fn window_signature(
    keys: &NodeList,
    order: &Option<(Node, SortOptions)>,
) -> Result<Signature, ErrorKind>
    ensures { result ≡ signature (WindowOp (ordered order.now)) (suc (length (ordering order.now ++ numbers keys.now.items.items))) }
{
    if keys.items.is_empty() {
        return Err(ErrorKind::InvalidOperation);
    }
    let second = match order {
        None => Ask::Any,
        Some(_) => Ask::Sortable,
    };
    takes(
        asks(Ask::Any),
        asks(second),
        asks(Ask::Any),
        OwnType::First,
        Many::Always,
    )
}

// What a sort by keys asks of its inputs.
fn sort_by_signature(by: &NodeList, options: &SortMultipleOptions) -> Result<Signature, ErrorKind>
    ensures { result ≡ signature (SortByOp options.now.descending.items.value.items options.now.nulls_last.items.value.items) (suc (length (numbers by.now.items.items))) }
{
    if !has_flags(options, by) {
        return Err(ErrorKind::ComputeError);
    }
    takes(
        asks(Ask::Any),
        asks(Ask::Sortable),
        asks(Ask::Sortable),
        OwnType::First,
        Many::AsFirst,
    )
}

// What a function asks of its inputs, of which it has so many. Those with a rule of their own have none.
fn function_signature(function: &FunctionExpr, input: &ExprIRs) -> Result<Signature, ErrorKind>
    ensures { result ≡ function_signature function.now (length (numbers_named input.now.items.items)) }
{
    use Ask::{Any, Listed, Place};
    use Many::{Always, WhereAny};
    use OwnType::{Item, Truths};
    use Sharing::{WithSecond, WithThird};
    let count = input.items.len();
    match function {
        FunctionExpr::IsNull | FunctionExpr::IsNotNull => over(
            1,
            count,
            takes(asks(Any), asks(Any), asks(Any), Truths, WhereAny),
        ),
        FunctionExpr::FillNull => over(
            2,
            count,
            shares(WithSecond, asks(Any), asks(Any), asks(Any), WhereAny),
        ),
        FunctionExpr::ShiftAndFill => over(
            3,
            count,
            shares(WithThird, asks(Any), asks_one(Place), asks_one(Any), Always),
        ),
        FunctionExpr::ListGet(_) => over(
            2,
            count,
            takes(asks(Listed), asks(Place), asks(Any), Item, WhereAny),
        ),
        FunctionExpr::AllHorizontal | FunctionExpr::AnyHorizontal => horizontal_signature(count),
        FunctionExpr::IsIn | FunctionExpr::FieldByName(_) => Err(ErrorKind::ComputeError),
        FunctionExpr::FieldByIndex(_) => Err(ErrorKind::InvalidOperation),
    }
}

// What a horizontal asks of so many inputs.
fn horizontal_signature(count: usize) -> Result<Signature, ErrorKind>
    ensures { result ≡ horizontal_signature count }
{
    takes(
        asks(horizontal_ask(count)),
        asks(Ask::Boolean),
        asks(Ask::Boolean),
        OwnType::Truths,
        Many::WhereAny,
    )
}

// What it asks of the first: of one alone that it can be cast to truth values.
fn horizontal_ask(count: usize) -> Ask
    ensures { result ≡ horizontal_ask count }
{
    match count {
        1 => Ask::Castable,
        _ => Ask::Boolean,
    }
}

// A function's signature over its own number of inputs, where there are so many.
fn over(
    own: usize,
    count: usize,
    found: Result<Signature, ErrorKind>,
) -> Result<Signature, ErrorKind>
    ensures { result ≡ cond (count == own) found (Err ErrorKind.ComputeError) }
{
    if count != own {
        return Err(ErrorKind::ComputeError);
    }
    found
}

// Whether a sort has flags for its keys.
fn has_flags(options: &SortMultipleOptions, by: &NodeList) -> bool
    ensures { result ≡ has_flags options.now.descending.items.value.items options.now.nulls_last.items.value.items (length (numbers by.now.items.items)) }
{
    let keys = by.items.len();
    are_for(&options.descending, keys) && are_for(&options.nulls_last, keys)
}

// Whether there is a flag for each of so many keys, or one for all.
fn are_for(flags: &Flags, keys: usize) -> bool
    ensures { result ≡ are_for flags.now.items.value.items keys }
{
    flags.items.len() == keys || flags.items.len() == 1
}

/// What a signature says of a node over these inputs, which are typed. It has the name of its first input.
pub(crate) fn signed_typing(
    node: Node,
    found: Result<Signature, ErrorKind>,
    inputs: &[Node],
    types: &TypeTable,
    alloc: Global,
    _step: Step,
) -> Result<Inferred, PlanError>
    requires inputs { AllByRecursion (IsKept types.now) (numbers inputs.now) }
    ensures ok { IfOk result (λ own. let typed = typings_at types.now (numbers inputs.now) in Says (signed found typed) typed own) }
    ensures name { IfOk result (λ own. own.name.0 ≡ name_at types.now node.0 (numbers inputs.now)) }
    ensures err { IfErr result (IsRefusal (signed found (typings_at types.now (numbers inputs.now)))) }
{
    let signature = match found {
        Ok(signature) => signature,
        Err(kind) => return Err(PlanError::at_top(kind)),
    };
    let shared = shared_dtype(signature.sharing, inputs, types, alloc)?;
    let targets = targets(signature, &shared, inputs, types, alloc)?;
    let first = first_dtype(targets.as_slice(), alloc)?;
    let dtype = own_dtype(signature.own, first, alloc)?;
    Ok(Inferred {
        name: name_over(node, inputs, types),
        dtype,
        many: is_many(signature.many, inputs, types),
        operands: unless_own(targets, inputs, types),
    })
}

// The type to which inputs are taken that share one, which matters to no kind where none do.
fn shared_dtype(
    sharing: Sharing,
    inputs: &[Node],
    types: &TypeTable,
    alloc: Global,
) -> Result<DataType, PlanError>
    requires inputs { AllByRecursion (IsKept types.now) (numbers inputs.now) }
    ensures ok { IfOk result (λ shared. shared_type sharing (typings_at types.now (numbers inputs.now)) ≡ Ok (ty shared)) }
    ensures err { IfErr result (IsRefusal (shared_type sharing (typings_at types.now (numbers inputs.now)))) }
{
    match sharing {
        Sharing::Alone => Ok(DataType::Null),
        Sharing::WithSecond => common_dtype(1, inputs, types, alloc),
        Sharing::WithThird => common_dtype(2, inputs, types, alloc),
    }
}

// The common type of the first input and of the one at a place.
fn common_dtype(
    place: usize,
    inputs: &[Node],
    types: &TypeTable,
    alloc: Global,
) -> Result<DataType, PlanError>
    requires inputs { AllByRecursion (IsKept types.now) (numbers inputs.now) }
    ensures ok { IfOk result (λ shared. common_with place (typings_at types.now (numbers inputs.now)) ≡ Ok (ty shared)) }
    ensures err { IfErr result (IsRefusal (common_with place (typings_at types.now (numbers inputs.now)))) }
{
    if inputs.len() <= place {
        return Err(PlanError::at_top(ErrorKind::SchemaMismatch));
    }
    let first = types.get(inputs[0]);
    let other = types.get(inputs[place]);
    let shared = try_get_common_type(alloc, &first.dtype, &other.dtype)?;
    Ok(shared)
}

// The types to which a signature takes its inputs, of which some may be taken to the shared one.
fn targets(
    signature: Signature,
    shared: &DataType,
    inputs: &[Node],
    types: &TypeTable,
    alloc: Global,
) -> Result<Vec<DataType>, PlanError>
    requires inputs { AllByRecursion (IsKept types.now) (numbers inputs.now) }
    ensures ok { IfOk result (λ targets. taken_from (ty shared.now) signature 0 (typings_at types.now (numbers inputs.now)) ≡ Some (map ty targets.items)) }
    ensures err { IfErr result (IsMemoryOr ErrorKind.InvalidOperation (taken_from (ty shared.now) signature 0 (typings_at types.now (numbers inputs.now)) ≡ None)) }
{
    let mut targets = Vec::new(alloc);
    for index in 0..inputs.len() {
        let target = target(signature, index, shared, types.get(inputs[index]), alloc)?;
        targets.push(target)?;
    }
    Ok(targets)
}

// The type to which the operand at a place is taken.
fn target(
    signature: Signature,
    place: usize,
    shared: &DataType,
    operand: &Inferred,
    alloc: Global,
) -> Result<DataType, PlanError>
    ensures ok { IfOk result (λ target. taken_by (shared_at signature.sharing (ty shared.now) place) (asked_at signature place) (typed_of operand.now) ≡ Some (ty target)) }
    ensures err { IfErr result (IsMemoryOr ErrorKind.InvalidOperation (taken_by (shared_at signature.sharing (ty shared.now) place) (asked_at signature place) (typed_of operand.now) ≡ None)) }
{
    let asked = signature.asked(place);
    if asked.one && operand.many {
        return Err(PlanError::at_top(ErrorKind::InvalidOperation));
    }
    if is_shared(signature.sharing, place) {
        let target = shared.try_clone(alloc)?;
        return Ok(target);
    }
    let target = target_alone(asked.ask, &operand.dtype, alloc)?;
    Ok(target)
}

// Whether the operand at a place has the shared type.
fn is_shared(sharing: Sharing, place: usize) -> bool
    ensures { (shared : Ty) → shared_at sharing shared place ≡ cond result (Some shared) None }
{
    match sharing {
        Sharing::Alone => false,
        Sharing::WithSecond => place == 0 || place == 1,
        Sharing::WithThird => place == 0 || place == 2,
    }
}

// The type to which an operand is taken by its own type.
fn target_alone(ask: Ask, operand: &DataType, alloc: Global) -> Result<DataType, PlanError>
    ensures ok { IfOk result (λ target. taken_alone ask (type_alone (ty operand.now)) ≡ Some (ty target)) }
    ensures err { IfErr result (IsMemoryOr ErrorKind.InvalidOperation (taken_alone ask (type_alone (ty operand.now)) ≡ None)) }
{
    let alone = type_alone(alloc, operand)?;
    if !is_asked(ask, &alone) {
        return Err(PlanError::at_top(ErrorKind::InvalidOperation));
    }
    Ok(asked_target(ask, alone))
}

fn is_asked(ask: Ask, alone: &DataType) -> bool
    ensures { result ≡ is_asked ask (ty alone.now) }
{
    match ask {
        Ask::Any => true,
        Ask::Sortable => matches!(alone, DataType::Null) || alone.is_ord(),
        Ask::Boolean => matches!(alone, DataType::Null | DataType::Boolean),
        Ask::Castable => can_cast(alone, &DataType::Boolean),
        Ask::Place => alone.is_integer(),
        Ask::Length => matches!(alone, DataType::Null) || alone.is_integer(),
        Ask::Summable => is_summable(alone),
        Ask::Listed => matches!(alone, DataType::List(_)),
    }
}

// Whether values of the type are added up.
fn is_summable(dtype: &DataType) -> bool
    ensures { result ≡ is_summable (ty dtype.now) }
{
    matches!(dtype, DataType::Boolean | DataType::Duration(_)) || dtype.is_integer()
}

fn asked_target(ask: Ask, alone: DataType) -> DataType
    ensures { ty result ≡ asked_target ask (ty alone) }
{
    match ask {
        Ask::Any | Ask::Sortable | Ask::Summable | Ask::Listed => alone,
        Ask::Boolean | Ask::Castable => DataType::Boolean,
        Ask::Place | Ask::Length => DataType::Int64,
    }
}

// The type to which the first input is taken, which matters to no kind without inputs.
fn first_dtype(targets: &[DataType], alloc: Global) -> Result<DataType, PlanError>
    ensures ok { IfOk result (λ dtype. ty dtype ≡ get_or (map ty targets.now) 0 NullType) }
    ensures err { IfErr result (λ error. error ≡ no_memory) }
{
    match targets.first() {
        Some(first) => first.try_clone(alloc),
        None => Ok(DataType::Null),
    }
}

// The own type over a first operand of that type.
fn own_dtype(own: OwnType, first: DataType, alloc: Global) -> Result<DataType, PlanError>
    ensures ok { IfOk result (λ dtype. ty dtype ≡ own_type own (ty first)) }
    ensures err { IfErr result (λ error. error ≡ no_memory) }
{
    match own {
        OwnType::First => Ok(first),
        OwnType::Item => item_dtype(&first, alloc),
        OwnType::ListOf => first.implode(alloc),
        OwnType::Count => Ok(DataType::UInt32),
        OwnType::Total => Ok(sum_dtype(first)),
        OwnType::Rows => DataType::UInt32.implode(alloc),
        OwnType::Truths => Ok(DataType::Boolean),
    }
}

// The type of a sum of values of the type.
fn sum_dtype(first: DataType) -> DataType
    ensures { ty result ≡ sum_type (ty first) }
{
    match first {
        DataType::Boolean => DataType::UInt32,
        DataType::Int8 | DataType::Int16 | DataType::UInt8 | DataType::UInt16 => DataType::Int64,
        first => first,
    }
}

fn item_dtype(first: &DataType, alloc: Global) -> Result<DataType, PlanError>
    ensures ok { IfOk result (λ dtype. ty dtype ≡ own_type Item (ty first.now)) }
    ensures err { IfErr result (λ error. error ≡ no_memory) }
{
    match first {
        DataType::List(item) => item.try_clone(alloc),
        _ => first.try_clone(alloc),
    }
}

// The node that names a node over these inputs: the one that names the first, or itself where there is none.
fn name_over(node: Node, inputs: &[Node], types: &TypeTable) -> Node
    requires inputs { AllByRecursion (IsKept types.now) (numbers inputs.now) }
    ensures { result.0 ≡ name_at types.now node.0 (numbers inputs.now) }
{
    if inputs.is_empty() {
        return node;
    }
    types.get(inputs[0]).name
}

fn is_many(many: Many, inputs: &[Node], types: &TypeTable) -> bool
    requires inputs { AllByRecursion (IsKept types.now) (numbers inputs.now) }
    ensures { result ≡ many_of many (typings_at types.now (numbers inputs.now)) }
{
    match many {
        Many::Never => false,
        Many::Always => true,
        Many::AsFirst => !inputs.is_empty() && types.get(inputs[0]).many,
        Many::WhereAny => some_many(inputs, types),
    }
}

// Whether some input may have another length than one.
fn some_many(inputs: &[Node], types: &TypeTable) -> bool
    requires inputs { AllByRecursion (IsKept types.now) (numbers inputs.now) }
    ensures { result ≡ some_many (typings_at types.now (numbers inputs.now)) }
{
    for index in 0..inputs.len() {
        if types.get(inputs[index]).many {
            return true;
        }
    }
    false
}

/// The types to which inputs are taken, or none where they have them.
pub(crate) fn unless_own(targets: Vec<DataType>, inputs: &[Node], types: &TypeTable) -> TakenTypes
    requires inputs { AllByRecursion (IsKept types.now) (numbers inputs.now) }
    requires targets { length targets.items ≡ length inputs.now }
    ensures { AreOperands (map ty result) (types_of (typings_at types.now (numbers inputs.now))) (map ty targets.items) }
{
    for index in 0..inputs.len() {
        if types.get(inputs[index]).dtype != targets[index] {
            return TakenTypes::listed(targets);
        }
    }
    TakenTypes::none()
}

/// The type that an operand has alone: of columns, or the one that a number without a type gets.
pub(crate) fn type_alone(alloc: Global, operand: &DataType) -> Result<DataType, PlanError>
    ensures ok { IfOk result (λ own. type_alone (ty operand.now) ≡ Some (ty own)) }
    ensures err { IfErr result (IsMemoryOr ErrorKind.InvalidOperation (type_alone (ty operand.now) ≡ None)) }
{
    let Some(number) = operand.untyped_number() else {
        if !operand.is_known() {
            return Err(PlanError::at_top(ErrorKind::InvalidOperation));
        }
        let own = operand.try_clone(alloc)?;
        return Ok(own);
    };
    match materialize_dyn_int(number) {
        Some(own) => Ok(own),
        None => Err(PlanError::at_top(ErrorKind::InvalidOperation)),
    }
}
