//! Whether expressions go row by row, may be moved past a filter, have one value, or can be computed in parts.
ghost use Rattle.std.specs.Prelude.{◌≡◌, ◌&&◌, ◌++◌, ℕ, if◌then◌else◌, reverse, IfOk, IfErr, OnErr};
ghost use Rattle.plan_types.specs.Errors.{no_memory};
ghost use Rattle.plan_dsl.specs.declared.aggregate.GroupByMethod.{GroupByMethod};
ghost use Rattle.plan_dsl.specs.Properties.{has_column, has_single_functions, is_elementwise, is_own_elementwise, is_scalar, permits_pushdown};
ghost use Rattle.plan_arena.specs.Aggregates.{input_at, method_at};
ghost use Rattle.plan_arena.specs.Denotation.{DenotesTree};
ghost use Rattle.plan_arena.specs.Items.{HoldsExpression, expression_layer, numbers, numbers_named, passed};
ghost use Rattle.plan_arena.specs.Layers.{inputs_of, op_of};
ghost use Rattle.plan_properties.specs.Asking.{AllDenote, SaysOfAll, SaysOfItem, SaysOfNode, literals_at};
ghost use Rattle.plan_properties.specs.Properties.{can_pre_agg, merges};

use crate::asked::{Asked, holds_of, holds_of_all, holds_of_item, is_own_elementwise};
use plan_arena::aexpr::{AExpr, Nodes};
use plan_arena::aggregate::IRAggExpr;
use plan_arena::arena::{Arena, Node};
use plan_arena::expr_ir::ExprIR;
use plan_arena::inputs::Inputs;
use plan_dsl::aggregate::GroupByMethod;
use plan_dsl::udfs::Udfs;
use plan_types::error::PlanError;

/// Whether the item has a value for each row, whatever its inputs are, of which it is asked only which are literals. Where it
/// is so its inputs are appended, as passes go over them.
pub fn is_elementwise(
    stack: &mut Nodes,
    ae: &AExpr,
    arena: &Arena<AExpr>,
    _udfs: &Udfs,
) -> Result<bool, PlanError>
    ensures ok { IfOk result (λ yes. yes ≡ is_own_elementwise (op_of (expression_layer ae.now)) (literals_at arena.now (inputs_of (expression_layer ae.now)))) }
    ensures pushed { IfOk result (λ yes. numbers stack.new.items ≡ (if yes then numbers stack.old.items ++ reverse (passed (expression_layer ae.now)) else numbers stack.old.items)) }
    ensures unchanged { OnErr result (stack.new.items ≡ stack.old.items) }
    ensures err { IfErr result (λ error. error ≡ no_memory) }
{
    if is_own_elementwise(ae, arena) {
        ae.inputs_rev(stack)?;
        Ok(true)
    } else {
        Ok(false)
    }
}

/// Whether each row has a value of its own, of the expression of an item.
pub fn is_elementwise_rec(ae: &AExpr, arena: &Arena<AExpr>, _udfs: &Udfs) -> bool
    requires { AllDenote arena.now (inputs_of (expression_layer ae.now)) }
    ensures { SaysOfItem arena.now (expression_layer ae.now) is_elementwise result }
{
    holds_of_item(Asked::Elementwise, ae, arena)
}

/// Whether each row has a value of its own, whatever casts there are: there are no categories to which one could lead.
pub fn is_elementwise_rec_no_cat_cast(ae: &AExpr, arena: &Arena<AExpr>, udfs: &Udfs) -> bool
    requires { AllDenote arena.now (inputs_of (expression_layer ae.now)) }
    ensures { SaysOfItem arena.now (expression_layer ae.now) is_elementwise result }
{
    is_elementwise_rec(ae, arena, udfs)
}

/// Whether it is so, and a filter may come before it: no data fault is its own.
pub fn permits_filter_pushdown_rec(ae: &AExpr, arena: &Arena<AExpr>, _udfs: &Udfs) -> bool
    requires { AllDenote arena.now (inputs_of (expression_layer ae.now)) }
    ensures { SaysOfItem arena.now (expression_layer ae.now) permits_pushdown result }
{
    holds_of_item(Asked::Harmless, ae, arena)
}

/// Whether each row has a value of its own, of all expressions.
pub fn all_elementwise(exprs: &[ExprIR], arena: &Arena<AExpr>, _udfs: &Udfs) -> bool
    requires { AllDenote arena.now (numbers_named exprs.now) }
    ensures { SaysOfAll arena.now (numbers_named exprs.now) is_elementwise result }
{
    holds_of_all(Asked::Elementwise, &Inputs::of_exprs(exprs), arena)
}

/// Whether the expression at a node has one value.
pub fn is_scalar_ae(node: Node, arena: &Arena<AExpr>, _udfs: &Udfs) -> bool
    requires { DenotesTree (HoldsExpression arena.now) node.0 }
    ensures { SaysOfNode arena.now node.0 is_scalar result }
{
    holds_of(Asked::Scalar, node, arena)
}

/// Properties of recorded expressions.
pub trait ExprIRProperties {
    // The number of the node.
    ghost node: { Self → ℕ };

    /// Whether it has one value.
    fn is_scalar(&self, arena: &Arena<AExpr>, udfs: &Udfs) -> bool
        requires { DenotesTree (HoldsExpression arena.now) (node self.now) }
        ensures { SaysOfNode arena.now (node self.now) is_scalar result };
}

impl ExprIRProperties for ExprIR {
    ghost node = { λ expr. expr.node.0 };

    fn is_scalar(&self, arena: &Arena<AExpr>, udfs: &Udfs) -> bool {
        is_scalar_ae(self.node(), arena, udfs)
    }
}

/// Whether an aggregate of the rows can be made of those of parts of them: a count of rows, or one by a method whose
/// values can be merged, of an expression that has a value for each row, names a column, and has functions of one input alone.
pub fn can_pre_agg(agg: Node, arena: &Arena<AExpr>, _udfs: &Udfs) -> bool
    requires { DenotesTree (HoldsExpression arena.now) agg.0 }
    ensures { SaysOfNode arena.now agg.0 can_pre_agg result }
{
    match arena.get(agg) {
        AExpr::Len => true,
        AExpr::Agg(aggregate) => is_made_of_parts(*aggregate, arena),
        _ => false,
    }
}

// Whether it is by such a method and of such an expression.
fn is_made_of_parts(aggregate: IRAggExpr, arena: &Arena<AExpr>) -> bool
    requires { DenotesTree (HoldsExpression arena.now) (input_at aggregate).0 }
    ensures { SaysOfNode arena.now (input_at aggregate).0 (λ t. merges (method_at aggregate) && (is_elementwise t && (has_single_functions t && has_column t))) result }
{
    let input = aggregate.get_input().first();
    if !merges(GroupByMethod::from(aggregate)) {
        return false;
    }
    if !holds_of(Asked::Elementwise, input, arena) {
        return false;
    }
    if !holds_of(Asked::Single, input, arena) {
        return false;
    }
    !holds_of(Asked::Columnless, input, arena)
}

// Whether the values of parts can be merged.
fn merges(method: GroupByMethod) -> bool
    ensures { result ≡ merges method }
{
    match method {
        GroupByMethod::Min
        | GroupByMethod::NanMin
        | GroupByMethod::Max
        | GroupByMethod::NanMax
        | GroupByMethod::First
        | GroupByMethod::Last
        | GroupByMethod::Sum => true,
        GroupByMethod::Count { include_nulls } => include_nulls,
        GroupByMethod::NUnique | GroupByMethod::Implode | GroupByMethod::Groups => false,
    }
}

/// Whether it can be made so of all expressions.
pub fn can_pre_agg_exprs(exprs: &[ExprIR], arena: &Arena<AExpr>, udfs: &Udfs) -> bool
    requires { AllDenote arena.now (numbers_named exprs.now) }
    ensures { SaysOfAll arena.now (numbers_named exprs.now) can_pre_agg result }
{
    for expr in exprs {
        if !can_pre_agg(expr.node(), arena, udfs) {
            return false;
        }
    }
    true
}
