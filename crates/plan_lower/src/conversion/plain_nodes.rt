//! Plan nodes without expressions, which have the schema of their input.
ghost use Rattle.std.specs.Prelude.{◌≡◌, List, [], ◌∷◌, slice_get, map, None, Some, true, IfOk, IfErr};
ghost use Rattle.plan_types.specs.Errors.{no_memory};
ghost use Rattle.plan_dsl.specs.PlanRules.{keeps_schema};
ghost use Rattle.plan_dsl.specs.Plans.{Work, over_op};
ghost use Rattle.plan_dsl.specs.Sources.{Source};
ghost use Rattle.plan_arena.specs.Items.{plan_layer};
ghost use Rattle.plan_arena.specs.Layers.{layer};
ghost use Rattle.plan_arena.specs.Options.{option_of};
ghost use Rattle.plan_lower.specs.Lowering.{Records, columns_at};
ghost use Rattle.plan_lower.specs.Steps.{AddsStep, LowersPlainly, plain_option, plain_work};
ghost use Rattle.plan_lower.specs.Works.{IsPlain, IsPlainAt};

use crate::conversion::step::{LoweredNode, Plain};
use plan_arena::arena::{Arena, Node};
use plan_arena::ir::IR;
use plan_types::error::PlanError;

// Nobody knows how often a cache is to be read.
const UNKNOWN_HITS: u32 = u32::MAX;

/// Adds a node without expressions over a lowered input.
pub(crate) fn lower_plain(
    input: LoweredNode,
    plain: Plain,
    lp_arena: &mut Arena<IR>,
) -> Result<LoweredNode, PlanError>
    requires { Records lp_arena.old input.schema_node.0 }
    ensures { LowersPlainly (plain_work plain) [] (plain_option plain) input lp_arena.old lp_arena.new result }
{
    let item = plain_item(plain, input.node);
    let lowered = add_plain(input, item, lp_arena)?;
    Ok(lowered)
}

// The item of a node without expressions over an input.
fn plain_item(plain: Plain, input: Node) -> IR
    ensures layer { plan_layer result ≡ layer (over_op (plain_work plain) [] None) (input.0 ∷ []) }
    ensures option { option_of result ≡ plain_option plain }
{
    match plain {
        Plain::Slice(offset, len) => IR::Slice { input, offset, len },
        Plain::Cache(id) => IR::Cache {
            input,
            id,
            cache_hits: UNKNOWN_HITS,
        },
        Plain::Sink(payload) => IR::Sink { input, payload },
    }
}

/// Adds an item over a lowered input, whose schema it has.
pub(crate) fn add_plain(
    input: LoweredNode,
    item: IR,
    lp_arena: &mut Arena<IR>,
) -> Result<LoweredNode, PlanError>
    requires { Records lp_arena.old input.schema_node.0 }
    ensures plain { IfOk result (λ lowered. (work own : Work) (lists : List (List Source)) → IsPlain (columns_at lp_arena.old input.schema_node.0) work lists own → keeps_schema own ≡ true → plan_layer item ≡ layer (over_op own [] None) (input.node.0 ∷ []) →
        IsPlainAt (columns_at lp_arena.old input.schema_node.0) lp_arena.new lowered.node.0 input.node.0 work lists (columns_at lp_arena.new lowered.schema_node.0)) }
    ensures ok { IfOk result (λ lowered. slice_get (map plan_layer lp_arena.new) lowered.node.0 ≡ Some (plan_layer item)) }
    ensures schema { IfOk result (λ lowered. columns_at lp_arena.new lowered.schema_node.0 ≡ columns_at lp_arena.old input.schema_node.0) }
    ensures err { IfErr result (λ error. error ≡ no_memory) }
    ensures adds { AddsStep lp_arena.old lp_arena.new (option_of item) result }
{
    let node = lp_arena.add(item)?;
    Ok(LoweredNode {
        node,
        schema_node: input.schema_node,
    })
}
