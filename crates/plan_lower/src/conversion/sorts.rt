//! Sorts over an input that is lowered.
ghost use Rattle.std.specs.Prelude.{◌≡◌, [], ◌∷◌, true, length, replicate, Ok, IfOk, IfErr, MatchOption};
ghost use Rattle.std.specs.List.{list_all};
ghost use Rattle.plan_types.specs.Errors.{no_memory};
ghost use Rattle.plan_types.specs.Schemas.{Columns, columns};
ghost use Rattle.plan_dsl.specs.Expansion.{expansions};
ghost use Rattle.plan_dsl.specs.Expressions.{plain_trees, trees_of};
ghost use Rattle.plan_dsl.specs.Plans.{sort_work};
ghost use Rattle.plan_dsl.specs.Registry.{registry};
ghost use Rattle.plan_dsl.specs.Resolving.{expanded_over};
ghost use Rattle.plan_dsl.specs.SortFlags.{both_served, each_served, flags_served, key_counts, keys_served};
ghost use Rattle.plan_dsl.specs.Sources.{is_plain};
ghost use Rattle.plan_expand.specs.Refusals.{IsUnexpanded};
ghost use Rattle.plan_lower.specs.Lowering.{Records};
ghost use Rattle.plan_lower.specs.Outputs.{AreExpandedTo};
ghost use Rattle.plan_lower.specs.Sorts.{HasKeys, falling, nulls_behind};
ghost use Rattle.plan_lower.specs.Steps.{LowersStep};
ghost use Rattle.plan_lower.specs.declared.conversion.step.Step.{Step};

use crate::conversion::asked::Asked;
use crate::conversion::nodes::recorded_schema;
use crate::conversion::plain_nodes::add_plain;
use crate::conversion::projection::{expanded, project_asked};
use crate::conversion::step::LoweredNode;
use plan_arena::aexpr::AExpr;
use plan_arena::arena::Arena;
use plan_arena::ir::IR;
use plan_dsl::expr::{Expr, Exprs};
use plan_dsl::sort_options::{Flags, SortMultipleOptions};
use plan_dsl::udfs::Udfs;
use plan_types::error::{ErrorKind, PlanError};
use plan_types::schema::Schema;
use std::alloc::Global;

// Keys of a sort that are expanded, and how many of them each flag serves.
#[derive(Drop)]
struct CountedKeys {
    exprs: Exprs,
    counts: Vec<usize>,
}

// Keys of a sort that are expanded, and a flag for each of them, or one for all.
#[derive(Drop)]
struct FlaggedKeys {
    exprs: Exprs,
    options: SortMultipleOptions,
}

/// Adds a sort over a lowered input.
pub(crate) fn lower_sort(
    input: LoweredNode,
    by: Exprs,
    sort_options: SortMultipleOptions,
    expr_arena: &mut Arena<AExpr>,
    lp_arena: &mut Arena<IR>,
    udfs: &Udfs,
) -> Result<LoweredNode, PlanError>
    requires { Records lp_arena.old input.schema_node.0 }
    ensures { LowersStep (registry udfs.now) (Step.Sort by sort_options) input expr_arena.old expr_arena.new lp_arena.old lp_arena.new result }
{
    let schema = recorded_schema(lp_arena, input.schema_node);
    let alloc = expr_arena.allocator();
    let keys = sort_keys(by, sort_options, schema, udfs, alloc)?;
    let projection = project_asked(keys.exprs, schema, expr_arena, udfs, Asked::Order)?;
    let item = IR::Sort {
        input: input.node,
        by_column: projection.expr,
        sort_options: keys.options,
    };
    let lowered = add_plain(input, item, lp_arena)?;
    Ok(lowered)
}

// ---- expansion

// What the expressions of a sort are expanded to over the schema, with a flag for each key, or one for all.
fn sort_keys(
    by: Exprs,
    options: SortMultipleOptions,
    schema: &Schema,
    udfs: &Udfs,
    alloc: Global,
) -> Result<FlaggedKeys, PlanError>
    ensures ok { IfOk result (λ keys. HasKeys (columns schema.now) (trees_of by) options (plain_trees keys.exprs) keys.options) }
    ensures plain { IfOk result (λ keys. list_all is_plain (trees_of keys.exprs) ≡ true) }
    ensures err { IfErr result (IsUnexpanded (expanded_over (columns schema.now) (sort_work options) (trees_of by ∷ []))) }
{
    let CountedKeys { exprs, counts } = expanded_keys(by, schema, udfs, alloc)?;
    match served_options(options, counts.as_slice(), alloc) {
        Ok(options) => Ok(FlaggedKeys { exprs, options }),
        Err(error) => {
            drop(exprs);
            Err(error)
        }
    }
}

// What the expressions of a sort are expanded to over the schema, and how many keys each flag serves.
fn expanded_keys(
    by: Exprs,
    schema: &Schema,
    udfs: &Udfs,
    alloc: Global,
) -> Result<CountedKeys, PlanError>
    ensures ok { IfOk result (λ keys. AreExpandedTo [] (columns schema.now) (trees_of by) keys.exprs) }
    ensures counts { IfOk result (λ keys. keys.counts.items ≡ keys_served (columns schema.now) (trees_of by)) }
    ensures err { IfErr result (IsUnexpanded (expansions [] (columns schema.now) (trees_of by))) }
{
    let names = names_alone(&by);
    let keys = counted_keys(by, schema, udfs, alloc)?;
    match names {
        Some(count) => {
            let counts = vec![in alloc; 1; count]?;
            Ok(CountedKeys {
                exprs: keys.exprs,
                counts,
            })
        }
        None => Ok(keys),
    }
}

// How many names there are in a list of names that stands alone: there each flag serves one of them.
fn names_alone(by: &Exprs) -> Option<usize>
    ensures { MatchOption result ((schema : Columns) → keys_served schema (trees_of by.now) ≡ key_counts schema (trees_of by.now))
        (λ count. (schema : Columns) → keys_served schema (trees_of by.now) ≡ replicate count 1) }
{
    if by.items.len() != 1 {
        return None;
    }
    match &by.items[0] {
        Expr::Columns(names) => Some(names.len()),
        _ => None,
    }
}

// What the expressions are expanded to over the schema, and how many keys each of them.
fn counted_keys(
    by: Exprs,
    schema: &Schema,
    udfs: &Udfs,
    alloc: Global,
) -> Result<CountedKeys, PlanError>
    ensures ok { IfOk result (λ keys. AreExpandedTo [] (columns schema.now) (trees_of by) keys.exprs) }
    ensures counts { IfOk result (λ keys. keys.counts.items ≡ key_counts (columns schema.now) (trees_of by)) }
    ensures err { IfErr result (IsUnexpanded (expansions [] (columns schema.now) (trees_of by))) }
{
    let mut keys = Vec::with_capacity(alloc, by.items.len())?;
    let mut counts = Vec::with_capacity(alloc, by.items.len())?;
    for expr in by.items {
        let items = vec![in alloc; expr]?;
        let mut more = expanded(Exprs { items }, schema, udfs, alloc)?;
        let count = more.items.len();
        counts.push(count)?;
        keys.append(&mut more.items)?;
    }
    Ok(CountedKeys {
        exprs: Exprs { items: keys },
        counts,
    })
}

// ---- flags

// Flags of both sorts for keys, of which each flag serves so many.
fn served_options(
    options: SortMultipleOptions,
    counts: &[usize],
    alloc: Global,
) -> Result<SortMultipleOptions, PlanError>
    ensures ok { IfOk result (λ own. both_served counts.now (falling options) (nulls_behind options) ≡ Ok (falling own, nulls_behind own)) }
    ensures err { IfErr result (IsUnexpanded (both_served counts.now (falling options) (nulls_behind options))) }
{
    let SortMultipleOptions {
        descending,
        nulls_last,
    } = options;
    let descending = served_flags(descending, counts, alloc)?;
    let nulls_last = served_flags(nulls_last, counts, alloc)?;
    Ok(SortMultipleOptions {
        descending,
        nulls_last,
    })
}

// The flags for keys, of which each serves so many: one for all stays alone, and another number of them is refused.
fn served_flags(flags: Flags, counts: &[usize], alloc: Global) -> Result<Flags, PlanError>
    ensures ok { IfOk result (λ own. flags_served counts.now flags.items.value.items ≡ Ok own.items.value.items) }
    ensures err { IfErr result (IsUnexpanded (flags_served counts.now flags.items.value.items)) }
{
    if flags.items.len() == 1 {
        return Ok(flags);
    }
    if flags.items.len() != counts.len() {
        return Err(PlanError::at_top(ErrorKind::ComputeError));
    }
    let items = each_served(flags.items.as_slice(), counts, alloc)?;
    Ok(Flags {
        items: Box::new(alloc, items)?,
    })
}

// Each flag as often as it serves.
fn each_served(flags: &[bool], counts: &[usize], alloc: Global) -> Result<Vec<bool>, PlanError>
    requires { length flags.now ≡ length counts.now }
    ensures ok { IfOk result (λ served. served.items ≡ each_served counts.now flags.now) }
    ensures err { IfErr result (λ error. error ≡ no_memory) }
{
    let mut served = Vec::with_capacity(alloc, flags.len())?;
    for index in 0..counts.len() {
        let mut own = vec![in alloc; flags[index]; counts[index]]?;
        served.append(&mut own)?;
    }
    Ok(served)
}
