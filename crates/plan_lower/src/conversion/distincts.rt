//! Distincts over an input that is lowered.
ghost use Rattle.std.specs.Prelude.{◌≡◌, [], ◌∷◌, None, Some, IfOk, IfErr};
ghost use Rattle.std.specs.Option.{option_map};
ghost use Rattle.plan_types.specs.Schemas.{columns};
ghost use Rattle.plan_dsl.specs.Expressions.{selector_trees};
ghost use Rattle.plan_dsl.specs.Plans.{DistinctWork, OrderOption, column_names, subset_lists};
ghost use Rattle.plan_dsl.specs.declared.distinct_options.UniqueKeepStrategy.{UniqueKeepStrategy};
ghost use Rattle.plan_lower.specs.Lowering.{Records};
ghost use Rattle.plan_lower.specs.Steps.{LowersPlainly};
ghost use Rattle.plan_lower.specs.Works.{IsPlain, IsPlainRefusal};

use crate::conversion::nodes::recorded_schema;
use crate::conversion::plain_nodes::add_plain;
use crate::conversion::step::LoweredNode;
use plan_arena::arena::Arena;
use plan_arena::ir::IR;
use plan_dsl::distinct_options::{ColumnNames, DistinctOptionsDSL, DistinctOptionsIR};
use plan_dsl::function_schema::has_each;
use plan_dsl::selector::Selectors;
use plan_expand::selectors::expand_selectors;
use plan_types::error::{ErrorKind, PlanError};
use plan_types::schema::Schema;
use std::alloc::Global;

/// Adds a distinct over a lowered input.
pub(crate) fn lower_distinct(
    input: LoweredNode,
    options: DistinctOptionsDSL,
    lp_arena: &mut Arena<IR>,
) -> Result<LoweredNode, PlanError>
    requires { Records lp_arena.old input.schema_node.0 }
    ensures { LowersPlainly (DistinctWork options.keep_strategy None) (subset_lists (option_map selector_trees options.subset)) (OrderOption options.maintain_order ∷ [])
        input lp_arena.old lp_arena.new result }
{
    let schema = recorded_schema(lp_arena, input.schema_node);
    let options = options_over(options, schema, lp_arena.allocator())?;
    let item = IR::Distinct {
        input: input.node,
        options,
    };
    let lowered = add_plain(input, item, lp_arena)?;
    Ok(lowered)
}

// The options with names of the schema in place of selectors.
fn options_over(
    options: DistinctOptionsDSL,
    schema: &Schema,
    alloc: Global,
) -> Result<DistinctOptionsIR, PlanError>
    ensures plain { IfOk result (λ own. IsPlain (columns schema.now) (DistinctWork options.keep_strategy None) (subset_lists (option_map selector_trees options.subset)) (DistinctWork own.keep_strategy (column_names own.subset))) }
    ensures order { IfOk result (λ own. own.maintain_order ≡ options.maintain_order) }
    ensures err { IfErr result (IsPlainRefusal (columns schema.now) (DistinctWork options.keep_strategy None) (subset_lists (option_map selector_trees options.subset))) }
{
    let DistinctOptionsDSL {
        subset,
        maintain_order,
        keep_strategy,
    } = options;
    match subset {
        Some(selectors) => {
            let names = subset_names(selectors, schema, alloc)?;
            Ok(DistinctOptionsIR {
                subset: Some(names),
                maintain_order,
                keep_strategy,
            })
        }
        None => Ok(DistinctOptionsIR {
            subset: None,
            maintain_order,
            keep_strategy,
        }),
    }
}

// The names that selectors make, each of which must stand in the schema.
fn subset_names(
    selectors: Selectors,
    schema: &Schema,
    alloc: Global,
) -> Result<ColumnNames, PlanError>
    ensures ok { IfOk result (λ names. (keep : UniqueKeepStrategy) → IsPlain (columns schema.now) (DistinctWork keep None) (selector_trees selectors ∷ []) (DistinctWork keep (Some names.items.items))) }
    ensures err { IfErr result (λ error. (keep : UniqueKeepStrategy) → IsPlainRefusal (columns schema.now) (DistinctWork keep None) (selector_trees selectors ∷ []) error) }
{
    let items = expand_selectors(alloc, selectors.items, schema)?;
    if !has_each(schema, items.as_slice()) {
        return Err(PlanError::at_top(ErrorKind::ColumnNotFound));
    }
    Ok(ColumnNames { items })
}
