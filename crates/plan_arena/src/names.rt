//! Names of nodes.
ghost use Rattle.std.specs.Prelude.{◌≡◌, ◌≢◌, [], ◌∷◌, List, codes, true, IfOk, IfErr, IfSome, MatchOption};
ghost use Rattle.std.specs.Option.{option_map_or};
ghost use Rattle.plan_types.specs.Errors.{no_memory};
ghost use Rattle.plan_dsl.specs.Names.{Label, first_label, function_label, label_of, literal_label, op_label, recorded_or};
ghost use Rattle.plan_dsl.specs.Aliases.{is_core_op};
ghost use Rattle.plan_dsl.specs.Ops.{AliasOp, Expression};
ghost use Rattle.plan_arena.specs.Denotation.{Denotes, DenotesTree};
ghost use Rattle.plan_arena.specs.Items.{AreNamesOver, expression_layer, named_node, output_label, recorded, HoldsExpression};
ghost use Rattle.plan_arena.specs.Layers.{inputs_of, layer, op_of};

use crate::aexpr::AExpr;
use crate::arena::{Arena, Node};
use crate::expr_ir::{ExprIR, ExprIRs, OutputName};
use plan_dsl::function_expr::FunctionExpr;
use plan_types::error::PlanError;
use plan_types::text::PlSmallStr;
use std::alloc::Global;

impl AExpr {
    /// The name that a node has whatever its inputs are. Any other has that of its first input.
    pub fn own_name(&self, alloc: Global) -> Result<Option<OutputName>, PlanError>
        ensures ok { IfOk result (λ name. (labels : List Label) →
            op_label (op_of (expression_layer self.now)) labels ≡ option_map_or output_label name (first_label labels)) }
        ensures set { IfOk result (λ name. IfSome name (λ own. own ≢ OutputName.None)) }
        ensures err { IfErr result (λ error. error ≡ no_memory) }
    {
        match self {
            AExpr::Column(name) => {
                let name = name.try_clone(alloc)?;
                Ok(Some(OutputName::ColumnLhs(name)))
            }
            AExpr::Literal(_) => {
                let name = literal_name(alloc)?;
                Ok(Some(name))
            }
            AExpr::Len => Ok(Some(OutputName::LiteralLhs(PlSmallStr::new(alloc, "len")?))),
            AExpr::Alias(_, name) => {
                let name = name.try_clone(alloc)?;
                Ok(Some(OutputName::Alias(name)))
            }
            AExpr::Function { input, function } => function_name(input, function, alloc),
            _ => Ok(None),
        }
    }

    /// The node of which it is an alias, with the name.
    pub fn alias(&self) -> Option<(Node, &PlSmallStr)>
        ensures { MatchOption result (is_core_op (op_of (expression_layer self.now)) ≡ true) (λ alias.
            expression_layer self.now ≡ layer (AliasOp alias.1.now) (alias.0.0 ∷ [])) }
    {
        match self {
            AExpr::Alias(expr, name) => Some((*expr, name)),
            _ => None,
        }
    }

    /// The name of a node that hasn't that of an input: one of its own, or without inputs that of a literal.
    pub fn given_name(&self, alloc: Global) -> Result<OutputName, PlanError>
        requires { (label : Label) × ((labels : List Label) → AreNamesOver (inputs_of (expression_layer self.now)) labels → op_label (op_of (expression_layer self.now)) labels ≡ label) }
        ensures ok { IfOk result (λ name. (labels : List Label) → AreNamesOver (inputs_of (expression_layer self.now)) labels → op_label (op_of (expression_layer self.now)) labels ≡ output_label name) }
        ensures set { IfOk result (λ name. name ≢ OutputName.None) }
        ensures err { IfErr result (λ error. error ≡ no_memory) }
    {
        match self.own_name(alloc)? {
            Some(name) => Ok(name),
            None => literal_name(alloc),
        }
    }
}

impl ExprIR {
    /// The expression at the node, under the name of the topmost alias, field or name kept by a function on the way
    /// down first inputs, or else of the leftmost column, literal or count of rows.
    pub fn from_node(alloc: Global, node: Node, arena: &Arena<AExpr>) -> Result<ExprIR, PlanError>
        requires { DenotesTree (HoldsExpression arena.now) node.0 }
        ensures node { IfOk result (λ expr_ir. (named_node expr_ir).expression ≡ node.0) }
        ensures name { IfOk result (λ expr_ir. (tree : Expression) → Denotes (HoldsExpression arena.now) node.0 tree →
            (named_node expr_ir).label ≡ label_of tree) }
        ensures err { IfErr result (λ error. error ≡ no_memory) }
    {
        let name = output_name(alloc, node, arena)?;
        Ok(ExprIR::new(node, name))
    }
}

// The name of the expression at the node.
fn output_name(alloc: Global, node: Node, arena: &Arena<AExpr>) -> Result<OutputName, PlanError>
    requires { DenotesTree (HoldsExpression arena.now) node.0 }
    ensures ok { IfOk result (λ name. (tree : Expression) → Denotes (HoldsExpression arena.now) node.0 tree → output_label name ≡ label_of tree) }
    ensures set { IfOk result (λ name. name ≢ OutputName.None) }
    ensures err { IfErr result (λ error. error ≡ no_memory) }
{
    let item = arena.get(node);
    if let Some(name) = item.own_name(alloc)? {
        return Ok(name);
    }
    match item.input_nodes().first() {
        Some(first) => {
            let name = output_name(alloc, first, arena)?;
            Ok(name)
        }
        None => {
            let name = literal_name(alloc)?;
            Ok(name)
        }
    }
}

// The name of a function: that of its field, or else the one that is kept of its first input.
fn function_name(
    input: &ExprIRs,
    function: &FunctionExpr,
    alloc: Global,
) -> Result<Option<OutputName>, PlanError>
    ensures ok { IfOk result (λ name. (labels : List Label) →
        function_label function.now (recorded_or (recorded input.now.items.items) labels) ≡ option_map_or output_label name (first_label labels)) }
    ensures set { IfOk result (λ name. IfSome name (λ own. own ≢ OutputName.None)) }
    ensures err { IfErr result (λ error. error ≡ no_memory) }
{
    if let FunctionExpr::FieldByName(name) = function {
        let name = name.try_clone(alloc)?;
        return Ok(Some(OutputName::Field(name)));
    }
    match input.items.first() {
        Some(first) => {
            let name = first.output_name_inner().try_clone(alloc)?;
            Ok(Some(name))
        }
        None => Ok(None),
    }
}

// The name of a literal's column.
fn literal_name(alloc: Global) -> Result<OutputName, PlanError>
    ensures ok { IfOk result (λ name. output_label name ≡ literal_label (codes "literal")) }
    ensures set { IfOk result (λ name. name ≢ OutputName.None) }
    ensures err { IfErr result (λ error. error ≡ no_memory) }
{
    let name = PlSmallStr::new(alloc, "literal")?;
    Ok(OutputName::LiteralLhs(name))
}
