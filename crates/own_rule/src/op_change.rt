//! Nodes that do something else with the same inputs.
ghost use Rattle.std.specs.Prelude.{◌≡◌, false, List, Ok, Result, MatchOption, IfErr, IfOk};
ghost use Rattle.std.specs.List.{AllByRecursion};
ghost use Rattle.plan_types.specs.Errors.{no_memory};
ghost use Rattle.plan_types.specs.declared.error.ErrorKind.{ErrorKind};
ghost use Rattle.plan_dsl.specs.Typing.{Typed};
ghost use Rattle.plan_arena.specs.Items.{expression_layer};
ghost use Rattle.plan_arena.specs.Layers.{inputs_of, op_of};
ghost use Rattle.plan_infer.specs.KeptTypes.{AllKept, IsKept};
ghost use Rattle.own_rule.specs.OpChanges.{Change, Finds, IsChangedItem};

use plan_arena::aexpr::AExpr;
use plan_infer::type_table::TypeTable;
use plan_types::error::PlanError;
use std::alloc::Global;

/// Nodes that are to do something else with the same inputs, by what they do and by how these are typed.
pub trait OpChange {
    // Whether a node is one.
    ghost finds: { Self → Finds };

    // What it is to do.
    ghost change: { Self → Change };

    /// Whether a node of the item may be one.
    fn concerns(&self, item: &AExpr) -> bool
        ensures { result ≡ false → (typings : Result (List Typed) ErrorKind) → finds self.now (op_of (expression_layer item.now)) typings ≡ false };

    /// What is to be put in place of a node of the item, if it is one, by what is kept of its inputs.
    fn in_place_of(
        &self,
        item: &AExpr,
        types: &TypeTable,
        alloc: Global,
    ) -> Result<Option<AExpr>, PlanError>
        requires { AllByRecursion (IsKept types.now) (inputs_of (expression_layer item.now)) }
        ensures ok { IfOk result (λ answer. (typed : List Typed) → AllKept types.now (inputs_of (expression_layer item.now)) typed → MatchOption answer
            (finds self.now (op_of (expression_layer item.now)) (Ok typed) ≡ false)
            (λ made. IsChangedItem (finds self.now) (change self.now) item.now made typed)) }
        ensures err { IfErr result (λ error. error ≡ no_memory) };
}
