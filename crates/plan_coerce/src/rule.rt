//! Rules that coercion goes by.
ghost use Rattle.std.specs.Prelude.{◌≡◌, ◌≢◌, ◌≤◌, ℕ, Bool, true, false, List, Option, None, Some, Ok, MatchOption, set, ◌∷◌, [], IfOk, IfErr};
ghost use Rattle.plan_types.specs.Errors.{IsRefusal, no_memory};
ghost use Rattle.plan_types.specs.Types.{is_known};
ghost use Rattle.plan_types.specs.Schemas.{Columns, columns};
ghost use Rattle.plan_dsl.specs.Ops.{Expression};
ghost use Rattle.plan_dsl.specs.Plans.{Named, PlanKind, FilterKind};
ghost use Rattle.plan_dsl.specs.Registry.{Registry, registry};
ghost use Rattle.plan_dsl.specs.Typing.{Typed, typing};
ghost use Rattle.plan_arena.specs.declared.aexpr.AExpr.{AExpr};
ghost use Rattle.plan_arena.specs.Denotation.{Denotes, DenotesTree};
ghost use Rattle.plan_arena.specs.Items.{Grows, HoldsExpression};
ghost use Rattle.plan_infer.specs.declared.type_table.TypeTable.{TypeTable};
ghost use Rattle.plan_infer.specs.KeptTypes.{Extends, IsRight};
ghost use Rattle.plan_coerce.specs.Reaching.{IsClosed, StaysOnce};
ghost use Rattle.plan_coerce.specs.Rules.{ExtendsUnless, HasUncheckedInputs, IsCongruent, IsPlanReplacement, IsReplacement, IsSettledPlan, IsSteady, IsTransitive, KeepsNumber, RefusesPredicate, SettlesNoNumber, StandsOver};

use plan_arena::aexpr::AExpr;
use plan_arena::arena::{Arena, Node};
use plan_arena::ir::IR;
use plan_dsl::udfs::Udfs;
use plan_infer::steps::Steps;
use plan_infer::type_table::TypeTable;
use plan_types::error::PlanError;
use plan_types::schema::Schema;
use std::sync::ledger::Ledger;

/// A rule that answers for a node what is to be put in its place, if anything.
pub trait OptimizationRule {
    // Whether a node that denotes the expression is settled.
    ghost settled: { Self → Registry → Columns → Expression → Bool };

    // The measure of such a node, which falls as it is replaced.
    ghost measure: { Self → Registry → Columns → Expression → ℕ };

    // How often a node may be replaced, if that is known.
    ghost turns: { Self → Option ℕ };

    // What else what is put in place has in common with what was there.
    ghost related: { Self → Registry → Columns → Expression → Expression → Type 0 };

    // Where it may forget what is kept of types, as it puts an item in place of a node.
    ghost forgets: { Self → List AExpr → TypeTable → ℕ → Type 0 };

    // Whether it may put anything in place of a plan's node.
    ghost replaces_plans: { Self → Bool };

    // Whether a plan's node over an input of the schema is settled.
    ghost settled_plan: { Self → Registry → Columns → PlanKind (Named Expression) → Bool };

    /// What is to be put in place of a plan's node, if anything. The types that are kept are those of a filter's
    /// predicate; for any other node the table isn't touched.
    fn optimize_plan<M: Ledger>(
        &self,
        expr_arena: &Arena<AExpr>,
        lp_arena: &Arena<IR>,
        node: Node,
        udfs: &Udfs,
        types: &mut TypeTable,
        typings: &mut Steps<M>,
    ) -> Result<Option<IR>, PlanError>
        requires inputs { HasUncheckedInputs (registry udfs.now) expr_arena.now lp_arena.now node.0 }
        requires right { (predicate : Named Expression) (schema : Columns) → StandsOver (registry udfs.now) expr_arena.now lp_arena.now node.0 (FilterKind predicate) schema →
            IsRight (registry udfs.now) schema expr_arena.now types.old }
        ensures answer { IfOk result (λ answer. MatchOption answer
            ((kind : PlanKind (Named Expression)) (schema : Columns) → StandsOver (registry udfs.now) expr_arena.now lp_arena.now node.0 kind schema →
            settled_plan self.now (registry udfs.now) schema kind ≡ true)
            (λ item. IsPlanReplacement (registry udfs.now) expr_arena.now lp_arena.now (set lp_arena.now node.0 item) node.0)) }
        ensures stays { IfOk result (λ answer. (kind : PlanKind (Named Expression)) (schema : Columns) → StandsOver (registry udfs.now) expr_arena.now lp_arena.now node.0 kind schema →
            settled_plan self.now (registry udfs.now) schema kind ≡ true → answer ≡ None) }
        ensures settles { IfOk result (λ answer. MatchOption answer Unit (λ item. IsSettledPlan (settled_plan self.now) (registry udfs.now) expr_arena.now (set lp_arena.now node.0 item) node.0)) }
        ensures none { replaces_plans self.now ≡ false → IfOk result (λ answer. answer ≡ None) }
        ensures right { (schema : Columns) → IsRight (registry udfs.now) schema expr_arena.now types.old →
            ((predicate : Named Expression) (into : Columns) → StandsOver (registry udfs.now) expr_arena.now lp_arena.now node.0 (FilterKind predicate) into → into ≡ schema) →
            IsRight (registry udfs.now) schema expr_arena.now types.new }
        ensures kept { Extends types.old types.new }
        ensures untouched { ((predicate : Named Expression) (schema : Columns) → ¬ (StandsOver (registry udfs.now) expr_arena.now lp_arena.now node.0 (FilterKind predicate) schema)) →
            types.new ≡ types.old }
        ensures err { IfErr result (λ error. (kind : PlanKind (Named Expression)) (schema : Columns) → StandsOver (registry udfs.now) expr_arena.now lp_arena.now node.0 kind schema →
            RefusesPredicate (λ checked. IsRefusal checked error) (error ≡ no_memory) (registry udfs.now) schema kind) };

    /// What is to be put in place of an expression's node, if anything. Nodes may be added for it.
    fn optimize_expr<M: Ledger>(
        &self,
        expr_arena: &mut Arena<AExpr>,
        node: Node,
        schema: &Schema,
        udfs: &Udfs,
        types: &mut TypeTable,
        typings: &mut Steps<M>,
    ) -> Result<Option<AExpr>, PlanError>
        requires tree { DenotesTree (HoldsExpression expr_arena.old) node.0 }
        requires right { IsRight (registry udfs.now) (columns schema.now) expr_arena.old types.old }
        ensures answer { IfOk result (λ answer. (t : Expression) → Denotes (HoldsExpression expr_arena.old) node.0 t → MatchOption answer
            (settled self.now (registry udfs.now) (columns schema.now) t ≡ true)
            (λ item. IsReplacement (related self.now (registry udfs.now) (columns schema.now)) (measure self.now (registry udfs.now) (columns schema.now)) (registry udfs.now) (columns schema.now)
            expr_arena.old (set expr_arena.new node.0 item) node.0 t)) }
        ensures numbers { IfOk result (λ answer. (t : Expression) (typed : Typed) → answer ≢ None → Denotes (HoldsExpression expr_arena.old) node.0 t →
            typing (registry udfs.now) (columns schema.now) t ≡ Ok typed → is_known typed.type ≡ false → SettlesNoNumber (settled self.now (registry udfs.now) (columns schema.now)) (registry udfs.now) (columns schema.now)) }
        ensures reaches { IfOk result (λ answer. MatchOption answer Unit (λ item. (n : ℕ) → turns self.now ≡ Some n →
            IsClosed expr_arena.old (node.0 ∷ []) (set expr_arena.new node.0 item))) }
        ensures once { IfOk result (λ answer. MatchOption answer Unit (λ item. (n : ℕ) → turns self.now ≡ Some n →
            StaysOnce expr_arena.old (set expr_arena.new node.0 item) node.0)) }
        ensures grows { Grows expr_arena.old expr_arena.new }
        ensures same { IfOk result (λ answer. answer ≡ None → expr_arena.new ≡ expr_arena.old) }
        ensures kept { IfOk result (λ answer. ExtendsUnless ((answer ≢ None) × forgets self.now expr_arena.old types.old node.0) types.old types.new) }
        ensures right { IsRight (registry udfs.now) (columns schema.now) expr_arena.new types.new }
        ensures placed { IfOk result (λ answer. MatchOption answer Unit (λ item. ¬ (KeepsNumber types.new node.0) →
            IsRight (registry udfs.now) (columns schema.now) (set expr_arena.new node.0 item) types.new)) }
        ensures err { IfErr result (λ error. (t : Expression) → Denotes (HoldsExpression expr_arena.old) node.0 t →
            IsRefusal (typing (registry udfs.now) (columns schema.now) t) error) };

    // What the meanings keep: related children make related nodes, and so does one replacement after another.
    ghost congruent: { (rule : Self) (registry : Registry) (schema : Columns) → IsCongruent (related rule registry schema) registry schema };

    ghost transitive: { (rule : Self) (registry : Registry) (schema : Columns) → IsTransitive (related rule registry schema) };

    // A node that is settled stays so while its inputs are replaced. Where that is said of nodes by their ops and by the names
    // and typings of their inputs, it holds by `said_steady`.
    ghost steady: { (rule : Self) (registry : Registry) (schema : Columns) → IsSteady (settled rule registry schema) (related rule registry schema) registry schema };

    // A measure is at most the number of turns, where there is one.
    ghost bounded: { (rule : Self) (registry : Registry) (schema : Columns) (t : Expression) (n : ℕ) →
        turns rule ≡ Some n → measure rule registry schema t ≤ n };
}
