//! What is asked of expressions, node by node.
ghost use Rattle.std.specs.Prelude.{◌≡◌, List, slice_get, true, false};
ghost use Rattle.plan_dsl.specs.Ops.{Op};
ghost use Rattle.plan_dsl.specs.Properties.{asks_literal, gives_one, is_no_column, is_own_elementwise, is_own_harmless, is_own_single, keeps_one};
ghost use Rattle.plan_arena.specs.declared.aexpr.AExpr.{AExpr};
ghost use Rattle.plan_arena.specs.Denotation.{DenotesTree};
ghost use Rattle.plan_arena.specs.Items.{HoldsExpression, expression_layer};
ghost use Rattle.plan_arena.specs.Layers.{inputs_of, op_of};
ghost use Rattle.plan_properties.specs.Asking.{AllDenote, SaysOfAll, SaysOfItem, SaysOfNode, hands_on, holds_of, is_literal_item, literals_at, settles};

use plan_arena::aexpr::AExpr;
use plan_arena::arena::{Arena, Node};
use plan_arena::inputs::Inputs;
use plan_dsl::function_expr::FunctionExpr;
use plan_types::dtype::CastOptions;

/// What is asked.
#[derive(Clone, Copy)]
pub(crate) enum Asked {
    /// Whether each row has a value of its own.
    Elementwise,
    /// Whether it is so, without a data fault.
    Harmless,
    /// Whether there is one value.
    Scalar,
    /// Whether each function has one input.
    Single,
    /// Whether no column is named.
    Columnless,
}

impl Asked {
    /// Whether the item settles it, whatever its inputs are.
    fn settles(self, item: &AExpr) -> bool
        ensures { result ≡ settles self (op_of (expression_layer item.now)) }
    {
        match self {
            Asked::Scalar => gives_one(item),
            Asked::Elementwise | Asked::Harmless | Asked::Single | Asked::Columnless => false,
        }
    }

    /// Whether it holds where it holds of all inputs.
    fn hands_on(self, item: &AExpr, arena: &Arena<AExpr>) -> bool
        ensures { result ≡ hands_on self (op_of (expression_layer item.now)) (literals_at arena.now (inputs_of (expression_layer item.now))) }
    {
        match self {
            Asked::Elementwise => is_own_elementwise(item, arena),
            Asked::Harmless => is_own_harmless(item, arena),
            Asked::Scalar => keeps_one(item),
            Asked::Single => is_own_single(item),
            Asked::Columnless => !matches!(item, AExpr::Column(_)),
        }
    }
}

/// Whether a node has a value for each row, whatever its inputs are. Of these it is asked only which are literals.
pub(crate) fn is_own_elementwise(item: &AExpr, arena: &Arena<AExpr>) -> bool
    ensures { result ≡ is_own_elementwise (op_of (expression_layer item.now)) (literals_at arena.now (inputs_of (expression_layer item.now))) }
{
    match item {
        AExpr::Column(_)
        | AExpr::Literal(_)
        | AExpr::BinaryExpr { .. }
        | AExpr::Cast { .. }
        | AExpr::Alias(_, _)
        | AExpr::Ternary { .. } => true,
        AExpr::Function { function, .. } => {
            function.options().is_elementwise()
                || asks_literal(function, &item.input_nodes(), arena)
        }
        _ => false,
    }
}

// Whether the function asks if a value is in a literal.
fn asks_literal(function: &FunctionExpr, inputs: &Inputs<'_>, arena: &Arena<AExpr>) -> bool
    ensures { result ≡ asks_literal function.now (literals_at arena.now inputs.now) }
{
    match function {
        FunctionExpr::IsIn => inputs.len() > 1 && is_literal(inputs.at(1), arena),
        _ => false,
    }
}

// Whether there is a literal at the node.
fn is_literal(node: Node, arena: &Arena<AExpr>) -> bool
    ensures { result ≡ is_literal_item (slice_get arena.now node.0) }
{
    node.0 < arena.len() && matches!(arena.get(node), AExpr::Literal(_))
}

// Whether it is so, and has no data fault of its own.
fn is_own_harmless(item: &AExpr, arena: &Arena<AExpr>) -> bool
    ensures { result ≡ is_own_harmless (op_of (expression_layer item.now)) (literals_at arena.now (inputs_of (expression_layer item.now))) }
{
    match item {
        AExpr::Cast { options, .. } => match options {
            CastOptions::Strict => false,
            CastOptions::NonStrict | CastOptions::Overflowing => true,
        },
        AExpr::Function { function, .. } => match function {
            FunctionExpr::ListGet(null_on_oob) => *null_on_oob,
            _ => is_own_elementwise(item, arena),
        },
        _ => is_own_elementwise(item, arena),
    }
}

// Whether a node has one value, whatever its inputs are.
fn gives_one(item: &AExpr) -> bool
    ensures { result ≡ gives_one (op_of (expression_layer item.now)) }
{
    matches!(item, AExpr::Literal(_) | AExpr::Len | AExpr::Agg(_))
}

// Whether a node has one value where each input has.
fn keeps_one(item: &AExpr) -> bool
    ensures { result ≡ keeps_one (op_of (expression_layer item.now)) }
{
    matches!(
        item,
        AExpr::BinaryExpr { .. }
            | AExpr::Cast { .. }
            | AExpr::Alias(_, _)
            | AExpr::Ternary { .. }
            | AExpr::Function { .. }
    )
}

// Whether a node is no function of another number of inputs than one.
fn is_own_single(item: &AExpr) -> bool
    ensures { (items : List AExpr) → result ≡ is_own_single (op_of (expression_layer item.now)) (literals_at items (inputs_of (expression_layer item.now))) }
{
    match item {
        AExpr::Function { .. } => item.input_nodes().len() == 1,
        _ => true,
    }
}

/// Whether it holds of the expression of an item.
pub(crate) fn holds_of_item(asked: Asked, item: &AExpr, arena: &Arena<AExpr>) -> bool
    requires { AllDenote arena.now (inputs_of (expression_layer item.now)) }
    ensures { SaysOfItem arena.now (expression_layer item.now) (holds_of asked) result }
{
    if asked.settles(item) {
        return true;
    }
    if !asked.hands_on(item, arena) {
        return false;
    }
    holds_of_all(asked, &item.input_nodes(), arena)
}

/// Whether it holds of the expression at a node.
#[cycle(asking)]
pub(crate) fn holds_of(asked: Asked, node: Node, arena: &Arena<AExpr>) -> bool
    requires { DenotesTree (HoldsExpression arena.now) node.0 }
    ensures { SaysOfNode arena.now node.0 (holds_of asked) result }
{
    let item = arena.get(node);
    if asked.settles(item) {
        return true;
    }
    if !asked.hands_on(item, arena) {
        return false;
    }
    holds_of_all(asked, &item.input_nodes(), arena)
}

/// Whether it holds of all expressions that inputs denote.
#[cycle(asking)]
pub(crate) fn holds_of_all(asked: Asked, inputs: &Inputs<'_>, arena: &Arena<AExpr>) -> bool
    requires { AllDenote arena.now inputs.now }
    ensures { SaysOfAll arena.now inputs.now (holds_of asked) result }
{
    for index in 0..inputs.len() {
        if !holds_of(asked, inputs.at(index), arena) {
            return false;
        }
    }
    true
}
