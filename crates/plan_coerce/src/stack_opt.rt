//! The stack of coercion, and its loop over any rule.
ghost use Rattle.std.specs.Prelude.{◌≡◌, ◌≢◌, ◌⊎◌, ℕ, ◌<◌, ◌≤◌, ◌+◌, ◌*◌, List, [], ◌∷◌, ◌++◌, IsTrue, Some, true, false, ◌↔◌, length, map, reverse, set, slice_get, IfOk, IfErr, OnErr, OnOk};
ghost use Rattle.std.specs.List.{AllByRecursion};
ghost use Rattle.plan_types.specs.Errors.{IsRefusal, no_memory};
ghost use Rattle.plan_types.specs.Schemas.{Columns, columns};
ghost use Rattle.plan_dsl.specs.Ops.{Expression};
ghost use Rattle.plan_dsl.specs.Plans.{FilterKind, Named, PlanKind};
ghost use Rattle.plan_dsl.specs.Registry.{Registry, registry};
ghost use Rattle.plan_dsl.specs.Typing.{typing};
ghost use Rattle.plan_arena.specs.Denotation.{Denotes, DenotesTree};
ghost use Rattle.plan_arena.specs.Items.{Grows, HoldsExpression, expression_layer, named_node, numbers};
ghost use Rattle.plan_arena.specs.Layers.{inputs_of};
ghost use Rattle.plan_infer.specs.KeptTypes.{Extends, IsRight};
ghost use Rattle.plan_coerce.specs.Optimizer.{AreTrees, HasTyping, IsCoercionRefusal, IsPlanTurn, LoopEnds, LoopKeeps, LoopLeaves, StaysOver, all_with_inputs, roots_of, stacked, with_inputs};
ghost use Rattle.plan_coerce.specs.Reaching.{Among};
ghost use Rattle.plan_coerce.specs.Rules.{HasUncheckedInputs, KeepsNone, KeepsNumber, RefusesPredicate, SettlesNoNumber, StandsOver};
ghost use Rattle.plan_coerce.specs.Turns.{IsStopped, IsTurn, TurnKeeps};

use crate::coercion_rule::infer_once;
use crate::rule::OptimizationRule;
use plan_arena::aexpr::{AExpr, Nodes};
use plan_arena::arena::{Arena, Node};
use plan_arena::expr_ir::ExprIR;
use plan_arena::ir::IR;
use plan_dsl::udfs::Udfs;
use plan_infer::steps::Steps;
use plan_infer::type_table::TypeTable;
use plan_types::error::{ErrorKind, PlanError};
use plan_types::schema::Schema;
use smallvec::SmallVec;
use std::alloc::Global;
use std::sync::ledger::Ledger;

/// Puts nodes in place of others, as a rule says, from stacked roots on.
#[derive(Drop)]
pub struct ConversionOptimizer {
    roots: Nodes,
    scratch: Nodes,
}

impl ConversionOptimizer {
    /// One that has nothing stacked.
    pub fn new(alloc: Global) -> ConversionOptimizer
        ensures roots { roots_of result ≡ [] }
        ensures stacked { stacked result ≡ [] }
    {
        ConversionOptimizer {
            roots: SmallVec::new(alloc),
            scratch: SmallVec::new(alloc),
        }
    }

    /// Stacks a root, and then its inputs, as passes go over them.
    pub fn push_scratch(&mut self, node: Node, expr_arena: &Arena<AExpr>) -> Result<(), PlanError>
        requires { node.0 < length expr_arena.now }
        ensures roots { OnOk result (roots_of self.new ≡ roots_of self.old ++ node.0 ∷ []) }
        ensures stacked { OnOk result (stacked self.new ≡ stacked self.old ++ with_inputs expr_arena.now node.0) }
        ensures same_roots { OnErr result (roots_of self.new ≡ roots_of self.old) }
        ensures same_stack { OnErr result (stacked self.new ≡ stacked self.old) }
        ensures err { IfErr result (λ error. error ≡ no_memory) }
    {
        let before = self.scratch.len();
        match self.push_root(node, expr_arena) {
            Ok(()) => Ok(()),
            Err(error) => {
                self.scratch.truncate(before);
                Err(error)
            }
        }
    }

    // Stacks a root, and then its inputs. After a refusal more may be stacked.
    fn push_root(&mut self, node: Node, expr_arena: &Arena<AExpr>) -> Result<(), PlanError>
        requires { node.0 < length expr_arena.now }
        ensures roots { OnOk result (roots_of self.new ≡ roots_of self.old ++ node.0 ∷ []) }
        ensures stacked { OnOk result (stacked self.new ≡ stacked self.old ++ with_inputs expr_arena.now node.0) }
        ensures same_roots { OnErr result (roots_of self.new ≡ roots_of self.old) }
        ensures more { OnErr result (Grows (stacked self.old) (stacked self.new)) }
        ensures err { IfErr result (λ error. error ≡ no_memory) }
    {
        self.scratch.push(node)?;
        expr_arena.get(node).inputs_rev(&mut self.scratch)?;
        self.roots.push(node)?;
        Ok(())
    }

    /// Stacks the expressions' nodes in turn.
    pub fn fill_scratch(
        &mut self,
        exprs: &[ExprIR],
        expr_arena: &Arena<AExpr>,
    ) -> Result<(), PlanError>
        requires { AllByRecursion (λ n. n < length expr_arena.now) (map (λ e. (named_node e).expression) exprs.now) }
        ensures roots { OnOk result (roots_of self.new ≡ roots_of self.old ++ map (λ e. (named_node e).expression) exprs.now) }
        ensures stacked { OnOk result (stacked self.new ≡ stacked self.old ++ all_with_inputs expr_arena.now (map (λ e. (named_node e).expression) exprs.now)) }
        ensures same_roots { OnErr result (roots_of self.new ≡ roots_of self.old) }
        ensures same_stack { OnErr result (stacked self.new ≡ stacked self.old) }
        ensures err { IfErr result (λ error. error ≡ no_memory) }
    {
        let roots = self.roots.len();
        let before = self.scratch.len();
        match self.push_all(exprs, expr_arena) {
            Ok(()) => Ok(()),
            Err(error) => {
                self.roots.truncate(roots);
                self.scratch.truncate(before);
                Err(error)
            }
        }
    }

    // Stacks the expressions' nodes in turn, each with its inputs. After a refusal more may be stacked.
    fn push_all(&mut self, exprs: &[ExprIR], expr_arena: &Arena<AExpr>) -> Result<(), PlanError>
        requires { AllByRecursion (λ n. n < length expr_arena.now) (map (λ e. (named_node e).expression) exprs.now) }
        ensures roots { OnOk result (roots_of self.new ≡ roots_of self.old ++ map (λ e. (named_node e).expression) exprs.now) }
        ensures stacked { OnOk result (stacked self.new ≡ stacked self.old ++ all_with_inputs expr_arena.now (map (λ e. (named_node e).expression) exprs.now)) }
        ensures more_roots { Grows (roots_of self.old) (roots_of self.new) }
        ensures more { Grows (stacked self.old) (stacked self.new) }
        ensures err { IfErr result (λ error. error ≡ no_memory) }
    {
        for expr in exprs {
            self.push_scratch(expr.node(), expr_arena)?;
        }
        Ok(())
    }

    /// Stacks a root alone, without its inputs. `coerce_expressions` starts from roots.
    pub fn push_root_alone(&mut self, node: Node) -> Result<(), PlanError>
        ensures roots { OnOk result (roots_of self.new ≡ roots_of self.old ++ node.0 ∷ []) }
        ensures same_roots { OnErr result (roots_of self.new ≡ roots_of self.old) }
        ensures same_stack { stacked self.new ≡ stacked self.old }
        ensures err { IfErr result (λ error. error ≡ no_memory) }
    {
        self.roots.push(node)?;
        Ok(())
    }

    /// Stacks the expressions' nodes in turn, without their inputs.
    pub fn fill_roots(&mut self, exprs: &[ExprIR]) -> Result<(), PlanError>
        ensures roots { OnOk result (roots_of self.new ≡ roots_of self.old ++ map (λ e. (named_node e).expression) exprs.now) }
        ensures same_roots { OnErr result (roots_of self.new ≡ roots_of self.old) }
        ensures same_stack { stacked self.new ≡ stacked self.old }
        ensures err { IfErr result (λ error. error ≡ no_memory) }
    {
        self.roots.reserve(exprs.len())?;
        self.push_roots(exprs);
        Ok(())
    }

    // Stacks the expressions' nodes in turn, where there is room for them.
    fn push_roots(&mut self, exprs: &[ExprIR])
        requires { length self.old.roots.items + length exprs.now ≤ self.old.roots.capacity }
        ensures roots { roots_of self.new ≡ roots_of self.old ++ map (λ e. (named_node e).expression) exprs.now }
        ensures same_stack { stacked self.new ≡ stacked self.old }
    {
        for expr in exprs {
            self.roots.push_reserved(expr.node());
        }
    }

    /// Goes from the stacked roots on over what they reach, a node before its inputs: what the rule answers for a node
    /// is put in its place, and the rule is asked again; where it answers none, the inputs are next. The types that are
    /// kept are those over a frame of the schema. A root without a typing is refused by its kind, whatever the rule says of
    /// it. Afterwards nothing is stacked. `steps` counts each visit of a node, and
    /// each time that a node is replaced.
    pub fn coerce_expressions<R: OptimizationRule, M: Ledger, L: Ledger>(
        &mut self,
        rule: &R,
        expr_arena: &mut Arena<AExpr>,
        schema: &Schema,
        udfs: &Udfs,
        types: &mut TypeTable,
        typings: &mut Steps<M>,
        steps: &mut Steps<L>,
    ) -> Result<(), PlanError>
        requires trees { AreTrees expr_arena.old (roots_of self.old) }
        requires right { IsRight (registry udfs.now) (columns schema.now) expr_arena.old types.old }
        ensures leaves { LoopLeaves (R.settled rule.now (registry udfs.now) (columns schema.now)) (R.related rule.now (registry udfs.now) (columns schema.now)) (R.turns rule.now) (registry udfs.now) (columns schema.now) expr_arena.old expr_arena.new (roots_of self.old) types.new steps.old steps.new }
        ensures done { OnOk result (LoopEnds (R.settled rule.now (registry udfs.now) (columns schema.now)) (R.related rule.now (registry udfs.now) (columns schema.now)) (R.turns rule.now) (registry udfs.now) (columns schema.now) expr_arena.old expr_arena.new (roots_of self.old)) }
        ensures kept { OnOk result (LoopKeeps (R.forgets rule.now) (R.settled rule.now (registry udfs.now) (columns schema.now)) (registry udfs.now) (columns schema.now) expr_arena.old (roots_of self.old) types.old types.new) }
        ensures no_roots { roots_of self.new ≡ [] }
        ensures none_stacked { stacked self.new ≡ [] }
        ensures err { IfErr result (λ error. IsCoercionRefusal (R.settled rule.now (registry udfs.now) (columns schema.now)) (R.turns rule.now) (registry udfs.now) (columns schema.now) expr_arena.old expr_arena.new (roots_of self.old) error) }
    {
        self.scratch.clear();
        let done = coerce_stacked(
            &mut self.roots,
            rule,
            expr_arena,
            schema,
            udfs,
            types,
            typings,
            steps,
        );
        self.roots.clear();
        done
    }

    /// Asks the rule what is to be put in place of the plan's node, and then goes over the expressions, as
    /// `coerce_expressions` does. Where the plan's node is a filter, the schema is the one of its input.
    pub fn coerce_types<R: OptimizationRule, M: Ledger, L: Ledger>(
        &mut self,
        rule: &R,
        expr_arena: &mut Arena<AExpr>,
        lp_arena: &mut Arena<IR>,
        node: Node,
        schema: &Schema,
        udfs: &Udfs,
        types: &mut TypeTable,
        typings: &mut Steps<M>,
        steps: &mut Steps<L>,
    ) -> Result<(), PlanError>
        requires inputs { HasUncheckedInputs (registry udfs.now) expr_arena.old lp_arena.old node.0 }
        requires over { StaysOver (registry udfs.now) expr_arena.old lp_arena.old node.0 (columns schema.now) }
        requires trees { AreTrees expr_arena.old (roots_of self.old) }
        requires right { IsRight (registry udfs.now) (columns schema.now) expr_arena.old types.old }
        ensures leaves { LoopLeaves (R.settled rule.now (registry udfs.now) (columns schema.now)) (R.related rule.now (registry udfs.now) (columns schema.now)) (R.turns rule.now) (registry udfs.now) (columns schema.now) expr_arena.old expr_arena.new (roots_of self.old) types.new steps.old steps.new }
        ensures done { OnOk result (LoopEnds (R.settled rule.now (registry udfs.now) (columns schema.now)) (R.related rule.now (registry udfs.now) (columns schema.now)) (R.turns rule.now) (registry udfs.now) (columns schema.now) expr_arena.old expr_arena.new (roots_of self.old)) }
        ensures kept { OnOk result (LoopKeeps (R.forgets rule.now) (R.settled rule.now (registry udfs.now) (columns schema.now)) (registry udfs.now) (columns schema.now) expr_arena.old (roots_of self.old) types.old types.new) }
        ensures no_roots { roots_of self.new ≡ [] }
        ensures none_stacked { stacked self.new ≡ [] }
        ensures plans { (n : ℕ) → n ≢ node.0 → slice_get lp_arena.new n ≡ slice_get lp_arena.old n }
        ensures count { length lp_arena.new ≡ length lp_arena.old }
        ensures plan { OnOk result (IsPlanTurn (R.settled_plan rule.now) (R.replaces_plans rule.now) (registry udfs.now) expr_arena.old lp_arena.old lp_arena.new node.0) }
        ensures plan_same { R.replaces_plans rule.now ≡ false → lp_arena.new ≡ lp_arena.old }
        ensures plan_stays { (kind : PlanKind (Named Expression)) (over : Columns) → StandsOver (registry udfs.now) expr_arena.old lp_arena.old node.0 kind over →
            R.settled_plan rule.now (registry udfs.now) over kind ≡ true → lp_arena.new ≡ lp_arena.old }
        ensures err { IfErr result (λ error. ((kind : PlanKind (Named Expression)) (over : Columns) → StandsOver (registry udfs.now) expr_arena.old lp_arena.old node.0 kind over →
            RefusesPredicate (λ checked. IsRefusal checked error) (error ≡ no_memory) (registry udfs.now) over kind)
            ⊎ IsCoercionRefusal (R.settled rule.now (registry udfs.now) (columns schema.now)) (R.turns rule.now) (registry udfs.now) (columns schema.now) expr_arena.old expr_arena.new (roots_of self.old) error) }
    {
        match place_plan(rule, expr_arena, lp_arena, node, udfs, types, typings) {
            Ok(()) => self.coerce_expressions(
                rule, expr_arena, schema, udfs, types, typings, steps,
            ),
            Err(error) => {
                self.roots.clear();
                self.scratch.clear();
                Err(error)
            }
        }
    }
}

// Puts in place of a plan's node what the rule answers, if anything.
fn place_plan<R: OptimizationRule, M: Ledger>(
    rule: &R,
    expr_arena: &Arena<AExpr>,
    lp_arena: &mut Arena<IR>,
    node: Node,
    udfs: &Udfs,
    types: &mut TypeTable,
    typings: &mut Steps<M>,
) -> Result<(), PlanError>
    requires inputs { HasUncheckedInputs (registry udfs.now) expr_arena.now lp_arena.old node.0 }
    requires right { (predicate : Named Expression) (schema : Columns) → StandsOver (registry udfs.now) expr_arena.now lp_arena.old node.0 (FilterKind predicate) schema →
        IsRight (registry udfs.now) schema expr_arena.now types.old }
    ensures plans { (n : ℕ) → n ≢ node.0 → slice_get lp_arena.new n ≡ slice_get lp_arena.old n }
    ensures count { length lp_arena.new ≡ length lp_arena.old }
    ensures plan { OnOk result (IsPlanTurn (R.settled_plan rule.now) (R.replaces_plans rule.now) (registry udfs.now) expr_arena.now lp_arena.old lp_arena.new node.0) }
    ensures plan_same { R.replaces_plans rule.now ≡ false → lp_arena.new ≡ lp_arena.old }
    ensures plan_stays { (kind : PlanKind (Named Expression)) (over : Columns) → StandsOver (registry udfs.now) expr_arena.now lp_arena.old node.0 kind over →
        R.settled_plan rule.now (registry udfs.now) over kind ≡ true → lp_arena.new ≡ lp_arena.old }
    ensures right { (schema : Columns) → IsRight (registry udfs.now) schema expr_arena.now types.old → StaysOver (registry udfs.now) expr_arena.now lp_arena.old node.0 schema →
        IsRight (registry udfs.now) schema expr_arena.now types.new }
    ensures kept { Extends types.old types.new }
    ensures refused { OnErr result (lp_arena.new ≡ lp_arena.old) }
    ensures err { IfErr result (λ error. (kind : PlanKind (Named Expression)) (over : Columns) → StandsOver (registry udfs.now) expr_arena.now lp_arena.old node.0 kind over →
        RefusesPredicate (λ checked. IsRefusal checked error) (error ≡ no_memory) (registry udfs.now) over kind) }
{
    match rule.optimize_plan(expr_arena, lp_arena, node, udfs, types, typings)? {
        None => Ok(()),
        Some(item) => {
            lp_arena.replace(node, item);
            Ok(())
        }
    }
}

// Types each of the nodes.
fn type_nodes<M: Ledger>(
    nodes: &[Node],
    schema: &Schema,
    arena: &Arena<AExpr>,
    udfs: &Udfs,
    types: &mut TypeTable,
    typings: &mut Steps<M>,
) -> Result<(), PlanError>
    requires trees { AreTrees arena.now (numbers nodes.now) }
    requires right { IsRight (registry udfs.now) (columns schema.now) arena.now types.old }
    ensures ok { OnOk result (AllByRecursion (HasTyping (registry udfs.now) (columns schema.now) arena.now) (numbers nodes.now)) }
    ensures kept { Extends types.old types.new }
    ensures right { IsRight (registry udfs.now) (columns schema.now) arena.now types.new }
    ensures err { IfErr result (λ error. (n : ℕ) × Among (numbers nodes.now) n × ((t : Expression) → Denotes (HoldsExpression arena.now) n t →
        IsRefusal (typing (registry udfs.now) (columns schema.now) t) error)) }
{
    for node in nodes {
        infer_once(*node, schema, arena, udfs, types, typings)?;
    }
    Ok(())
}

// Goes over what the roots on the stack reach, where each has a typing. After a refusal some may be left there.
fn coerce_stacked<R: OptimizationRule, M: Ledger, L: Ledger>(
    stack: &mut Nodes,
    rule: &R,
    arena: &mut Arena<AExpr>,
    schema: &Schema,
    udfs: &Udfs,
    types: &mut TypeTable,
    typings: &mut Steps<M>,
    steps: &mut Steps<L>,
) -> Result<(), PlanError>
    requires trees { AreTrees arena.old (numbers stack.old.items) }
    requires right { IsRight (registry udfs.now) (columns schema.now) arena.old types.old }
    ensures leaves { LoopLeaves (R.settled rule.now (registry udfs.now) (columns schema.now)) (R.related rule.now (registry udfs.now) (columns schema.now)) (R.turns rule.now) (registry udfs.now) (columns schema.now) arena.old arena.new (numbers stack.old.items) types.new steps.old steps.new }
    ensures done { OnOk result (LoopEnds (R.settled rule.now (registry udfs.now) (columns schema.now)) (R.related rule.now (registry udfs.now) (columns schema.now)) (R.turns rule.now) (registry udfs.now) (columns schema.now) arena.old arena.new (numbers stack.old.items)) }
    ensures kept { OnOk result (LoopKeeps (R.forgets rule.now) (R.settled rule.now (registry udfs.now) (columns schema.now)) (registry udfs.now) (columns schema.now) arena.old (numbers stack.old.items) types.old types.new) }
    ensures err { IfErr result (λ error. IsCoercionRefusal (R.settled rule.now (registry udfs.now) (columns schema.now)) (R.turns rule.now) (registry udfs.now) (columns schema.now) arena.old arena.new (numbers stack.old.items) error) }
{
    type_nodes(stack.as_slice(), schema, arena, udfs, types, typings)?;
    // A finite tree has no end of turns, but no stack lives to see so many.
    for _turn in 0..u64::MAX {
        let node = match stack.pop() {
            None => return Ok(()),
            Some(node) => node,
        };
        visit(
            node, stack, rule, arena, schema, udfs, types, typings, steps,
        )?;
    }
    Err(PlanError::at_top(ErrorKind::NoMemory))
}

// Asks the rule about a node that was taken from the stack. It is put back where it is replaced, else its inputs are.
fn visit<R: OptimizationRule, M: Ledger, L: Ledger>(
    node: Node,
    stack: &mut Nodes,
    rule: &R,
    arena: &mut Arena<AExpr>,
    schema: &Schema,
    udfs: &Udfs,
    types: &mut TypeTable,
    typings: &mut Steps<M>,
    steps: &mut Steps<L>,
) -> Result<(), PlanError>
    requires tree { DenotesTree (HoldsExpression arena.old) node.0 }
    requires right { IsRight (registry udfs.now) (columns schema.now) arena.old types.old }
    ensures ok { OnOk result (IsTurn (R.settled rule.now (registry udfs.now) (columns schema.now)) (R.measure rule.now (registry udfs.now) (columns schema.now)) (R.related rule.now (registry udfs.now) (columns schema.now)) (R.turns rule.now) (registry udfs.now) (columns schema.now) arena.old arena.new node.0 (numbers stack.old.items) (numbers stack.new.items) steps.old steps.new) }
    ensures stopped { OnErr result (IsStopped (R.settled rule.now (registry udfs.now) (columns schema.now)) (R.measure rule.now (registry udfs.now) (columns schema.now)) (R.related rule.now (registry udfs.now) (columns schema.now)) (R.turns rule.now) (registry udfs.now) (columns schema.now) arena.old arena.new node.0) }
    ensures refused { IfErr result (λ error. (error ≡ no_memory) ⊎ Grows arena.old arena.new) }
    ensures kept { OnOk result (TurnKeeps (R.forgets rule.now) (R.settled rule.now (registry udfs.now) (columns schema.now)) (registry udfs.now) (columns schema.now) arena.old node.0 types.old types.new) }
    ensures steps { steps.new ≤ steps.old + 2 }
    ensures right { IsRight (registry udfs.now) (columns schema.now) arena.new types.new }
    ensures err { IfErr result (λ error. (t : Expression) → Denotes (HoldsExpression arena.old) node.0 t → IsRefusal (typing (registry udfs.now) (columns schema.now) t) error) }
{
    steps.tick();
    match rule.optimize_expr(arena, node, schema, udfs, types, typings)? {
        None => {
            if push_below(arena.get(node), stack) {
                Ok(())
            } else {
                Err(PlanError::at_top(ErrorKind::NoMemory))
            }
        }
        Some(item) => {
            steps.tick();
            put_in_place(node, item, arena, types);
            stack.push(node)?;
            Ok(())
        }
    }
}

// Stacks the inputs of an item. Answers whether it did: it doesn't where there is no memory.
#[inline(always)]
fn push_below(item: &AExpr, stack: &mut Nodes) -> bool
    ensures ok { result ≡ true → numbers stack.new.items ≡ numbers stack.old.items ++ reverse (inputs_of (expression_layer item.now)) }
{
    match item {
        AExpr::Column(_) | AExpr::Literal(_) => true,
        AExpr::Cast { expr, .. } => stack.push(*expr).is_ok(),
        AExpr::BinaryExpr { left, right, .. } => {
            stack.push(*right).is_ok() && stack.push(*left).is_ok()
        }
        _ => item.push_inputs(stack).is_ok(),
    }
}

// Puts an item in place of a node. Where a number's type is kept for the node, what is kept is forgotten.
#[inline(always)]
fn put_in_place(node: Node, item: AExpr, arena: &mut Arena<AExpr>, types: &mut TypeTable)
    requires there { node.0 < length arena.old }
    ensures item { arena.new ≡ set arena.old node.0 item }
    ensures kept { (types.new ≡ types.old) ⊎ (KeepsNumber types.old node.0 × KeepsNone types.new) }
    ensures right { (registry : Registry) (schema : Columns) → (¬ (KeepsNumber types.old node.0) → IsRight registry schema (set arena.old node.0 item) types.old) →
        IsRight registry schema arena.new types.new }
{
    if keeps_number(node, types) {
        types.clear();
    }
    arena.replace(node, item);
}

// Whether the type of a number without one is kept for the node.
fn keeps_number(node: Node, types: &TypeTable) -> bool
    ensures { IsTrue result ↔ KeepsNumber types.now node.0 }
{
    match types.kept(node) {
        None => false,
        Some(own) => own.dtype.untyped_number().is_some(),
    }
}
