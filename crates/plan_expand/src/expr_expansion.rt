//! What expressions are expanded to.
ghost use Rattle.std.specs.Prelude.{◌≡◌, ◌∷◌, ◌++◌, [], map, true, false, Some, None, Ok, Err, IfOk, IfErr, OnOk};
ghost use Rattle.std.specs.List.{list_all};
ghost use Rattle.plan_types.specs.Errors.{at_top, no_memory, IsRefusal};
ghost use Rattle.plan_types.specs.Schemas.{columns};
ghost use Rattle.plan_types.specs.declared.error.ErrorKind.TheVariants.{ComputeError, InvalidOperation};
ghost use Rattle.plan_dsl.specs.Expansion.{aliased, as_expression, expanded_alone, expansion, expansions, key_names, markers_in, name_given, only_one, plain, predicate_expansion, root_name, under_alias, with_column_put};
ghost use Rattle.plan_dsl.specs.Expressions.{plain_tree, renaming_of, tree_of};
ghost use Rattle.plan_dsl.specs.Markers.{once};
ghost use Rattle.plan_dsl.specs.Refusals.{each_ok, joined, then_ok, with_kinds};
ghost use Rattle.plan_dsl.specs.Sources.{KeepRoot, is_plain};
ghost use Rattle.plan_expand.specs.Refusals.{IsUnexpanded};
ghost use Rattle.plan_expand.specs.Walks.{first_marker};

use crate::fields::name_fields;
use crate::markers::marker_names;
use crate::spreading::spread_inputs;
use crate::walks::{first_marker, has_only, root_name};
use indexmap::IndexSet;
use plan_dsl::expr::Expr;
use plan_dsl::marker::RenameAliasFn;
use plan_dsl::udfs::Udfs;
use plan_types::error::{ErrorKind, PlanError};
use plan_types::schema::Schema;
use plan_types::text::PlSmallStr;
use std::alloc::Global;

/// What the expressions are expanded to over the schema, in order. Markers pass over the columns that are keys, but for
/// lists of names and places.
// No registered function is expanded yet, so the registry isn't asked.
pub fn rewrite_projections(
    alloc: Global,
    exprs: Vec<Expr>,
    schema: &Schema,
    keys: &[Expr],
    _udfs: &Udfs,
) -> Result<Vec<Expr>, PlanError>
    ensures ok { IfOk result (λ expanded. expansions (key_names (map tree_of keys.now)) (columns schema.now) (map tree_of exprs.items) ≡ Ok (map plain_tree expanded.items)) }
    ensures plain { IfOk result (λ expanded. list_all is_plain (map tree_of expanded.items) ≡ true) }
    ensures err { IfErr result (IsUnexpanded (expansions (key_names (map tree_of keys.now)) (columns schema.now) (map tree_of exprs.items))) }
{
    let key_names = key_names(alloc, keys)?;
    let expanded = all_expanded(alloc, exprs, schema, &key_names)?;
    Ok(expanded)
}

// What the expressions are expanded to, by the names of keys. Where all are plain, they stay where they are.
fn all_expanded(
    alloc: Global,
    exprs: Vec<Expr>,
    schema: &Schema,
    keys: &IndexSet<PlSmallStr>,
) -> Result<Vec<Expr>, PlanError>
    ensures ok { IfOk result (λ expanded. expansions keys.now.keys (columns schema.now) (map tree_of exprs.items) ≡ Ok (map plain_tree expanded.items)) }
    ensures plain { IfOk result (λ expanded. list_all is_plain (map tree_of expanded.items) ≡ true) }
    ensures err { IfErr result (IsUnexpanded (expansions keys.now.keys (columns schema.now) (map tree_of exprs.items))) }
{
    if are_plain(exprs.as_slice()) {
        return Ok(exprs);
    }
    let mut expanded = Vec::with_capacity(alloc, exprs.len())?;
    for expr in exprs {
        add_expansion(alloc, &mut expanded, expr, schema, keys)?;
    }
    Ok(expanded)
}

// Whether each has plans' ops alone.
fn are_plain(exprs: &[Expr]) -> bool
    ensures { result ≡ list_all is_plain (map tree_of exprs.now) }
{
    for expr in exprs {
        if !expr.is_plain() {
            return false;
        }
    }
    true
}

// Adds what an expression is expanded to behind others.
fn add_expansion(
    alloc: Global,
    expanded: &mut Vec<Expr>,
    expr: Expr,
    schema: &Schema,
    keys: &IndexSet<PlSmallStr>,
) -> Result<(), PlanError>
    ensures ok { OnOk result (joined (Ok (map plain_tree expanded.old.items)) (with_kinds (expansion keys.now.keys (columns schema.now) (tree_of expr))) ≡ Ok (map plain_tree expanded.new.items)) }
    ensures plain { OnOk result (list_all is_plain (map tree_of expanded.new.items) ≡ list_all is_plain (map tree_of expanded.old.items)) }
    ensures err { IfErr result (IsRefusal (expansion keys.now.keys (columns schema.now) (tree_of expr))) }
{
    if expr.is_plain() {
        expanded.push(expr)?;
        return Ok(());
    }
    let mut more = expansion(alloc, expr, schema, keys)?;
    expanded.append(&mut more)?;
    Ok(())
}

/// The one expression to which a predicate is expanded. Where it is expanded to none or to several, that is refused.
pub fn expand_filter(
    alloc: Global,
    predicate: Expr,
    schema: &Schema,
    _udfs: &Udfs,
) -> Result<Expr, PlanError>
    ensures ok { IfOk result (λ expanded. predicate_expansion (columns schema.now) (tree_of predicate) ≡ Ok (plain_tree expanded)) }
    ensures plain { IfOk result (λ expanded. is_plain (tree_of expanded) ≡ true) }
    ensures err { IfErr result (IsRefusal (predicate_expansion (columns schema.now) (tree_of predicate))) }
{
    if predicate.is_plain() {
        return Ok(predicate);
    }
    let keys = IndexSet::new(alloc);
    let expanded = expansion(alloc, predicate, schema, &keys)?;
    let only = only_one(expanded)?;
    Ok(only)
}

// The only one of some expressions.
fn only_one(mut exprs: Vec<Expr>) -> Result<Expr, PlanError>
    ensures ok { IfOk result (λ only. exprs.items ≡ only ∷ []) }
    ensures err { IfErr result (λ error. (error ≡ at_top ComputeError) × (only_one (map plain_tree exprs.items) ≡ Err ComputeError)) }
{
    if exprs.len() != 1 {
        return Err(PlanError::at_top(ErrorKind::ComputeError));
    }
    exprs
        .pop()
        .ok_or(PlanError::at_top(ErrorKind::ComputeError))
}

// The names of the keys that are columns.
fn key_names(alloc: Global, keys: &[Expr]) -> Result<IndexSet<PlSmallStr>, PlanError>
    ensures ok { IfOk result (λ names. names.keys ≡ once (key_names (map tree_of keys.now))) }
    ensures err { IfErr result (λ error. error ≡ no_memory) }
{
    let mut names = IndexSet::new(alloc);
    for key in keys {
        if let Expr::Column(name) = key {
            names.insert(name.try_clone(alloc)?)?;
        }
    }
    Ok(names)
}

// What an expression is expanded to: first the inputs of its horizontals, in place.
fn expansion(
    alloc: Global,
    mut expr: Expr,
    schema: &Schema,
    keys: &IndexSet<PlSmallStr>,
) -> Result<Vec<Expr>, PlanError>
    ensures ok { IfOk result (λ expanded. expansion keys.now.keys (columns schema.now) (tree_of expr) ≡ Ok (map plain_tree expanded.items)) }
    ensures plain { IfOk result (λ expanded. list_all is_plain (map tree_of expanded.items) ≡ true) }
    ensures err { IfErr result (IsRefusal (expansion keys.now.keys (columns schema.now) (tree_of expr))) }
{
    match spread_inputs(alloc, &mut expr, schema, keys) {
        Ok(()) => {
            let expanded = expanded_alone(alloc, expr, schema, keys)?;
            Ok(expanded)
        }
        Err(error) => {
            drop(expr);
            Err(error)
        }
    }
}

// What an expression is expanded to whose horizontals have their inputs in place: itself, or where it has markers a copy
// for each name for which they stand.
pub(crate) fn expanded_alone(
    alloc: Global,
    expr: Expr,
    schema: &Schema,
    keys: &IndexSet<PlSmallStr>,
) -> Result<Vec<Expr>, PlanError>
    ensures ok { IfOk result (λ expanded. expanded_alone keys.now.keys (columns schema.now) (tree_of expr) ≡ Ok (map plain_tree expanded.items)) }
    ensures plain { IfOk result (λ expanded. list_all is_plain (map tree_of expanded.items) ≡ true) }
    ensures err { IfErr result (IsRefusal (expanded_alone keys.now.keys (columns schema.now) (tree_of expr))) }
{
    let Some(marker) = first_marker(&expr) else {
        return alone(alloc, expr, schema);
    };
    let expanded = marked(alloc, &expr, marker, schema, keys);
    drop(expr);
    expanded
}

// What an expression without markers is expanded to.
fn alone(alloc: Global, expr: Expr, schema: &Schema) -> Result<Vec<Expr>, PlanError>
    requires { markers_in (tree_of expr) ≡ [] }
    ensures ok { IfOk result (λ expanded. each_ok (as_expression (columns schema.now)) (tree_of expr ∷ []) ≡ Ok (map plain_tree expanded.items)) }
    ensures plain { IfOk result (λ expanded. list_all is_plain (map tree_of expanded.items) ≡ true) }
    ensures err { IfErr result (IsRefusal (each_ok (as_expression (columns schema.now)) (tree_of expr ∷ []))) }
{
    let own = as_expression(alloc, expr, schema)?;
    let alone = vec![in alloc; own]?;
    Ok(alone)
}

// What an expression is expanded to that has that marker, before any other. All others must be the same.
fn marked(
    alloc: Global,
    expr: &Expr,
    marker: &Expr,
    schema: &Schema,
    keys: &IndexSet<PlSmallStr>,
) -> Result<Vec<Expr>, PlanError>
    requires { first_marker (tree_of expr.now) ≡ Some (tree_of marker.now) }
    ensures ok { IfOk result (λ expanded. expanded_alone keys.now.keys (columns schema.now) (tree_of expr.now) ≡ Ok (map plain_tree expanded.items)) }
    ensures plain { IfOk result (λ expanded. list_all is_plain (map tree_of expanded.items) ≡ true) }
    ensures err { IfErr result (IsRefusal (expanded_alone keys.now.keys (columns schema.now) (tree_of expr.now))) }
{
    if !has_only(expr, marker) {
        return Err(PlanError::at_top(ErrorKind::InvalidOperation));
    }
    let names = marker_names(alloc, marker, schema, keys)?;
    let expanded = repeated(alloc, expr, &names, schema)?;
    Ok(expanded)
}

// The expression for each name, with its column in place of all markers.
fn repeated(
    alloc: Global,
    expr: &Expr,
    names: &[PlSmallStr],
    schema: &Schema,
) -> Result<Vec<Expr>, PlanError>
    ensures ok { IfOk result (λ expanded. each_ok (as_expression (columns schema.now)) (map (λ name. with_column_put name (tree_of expr.now)) names.now) ≡ Ok (map plain_tree expanded.items)) }
    ensures plain { IfOk result (λ expanded. list_all is_plain (map tree_of expanded.items) ≡ true) }
    ensures err { IfErr result (IsRefusal (each_ok (as_expression (columns schema.now)) (map (λ name. with_column_put name (tree_of expr.now)) names.now))) }
{
    let mut repeated = Vec::with_capacity(alloc, names.len())?;
    for name in names {
        let copy = expr.with_column(name, alloc)?;
        let own = as_expression(alloc, copy, schema)?;
        repeated.push(own)?;
    }
    Ok(repeated)
}

// An expression without markers: its fields are named, and a renaming form at its top is made an alias.
fn as_expression(alloc: Global, mut expr: Expr, schema: &Schema) -> Result<Expr, PlanError>
    requires { markers_in (tree_of expr) ≡ [] }
    ensures ok { IfOk result (λ own. as_expression (columns schema.now) (tree_of expr) ≡ Ok (plain_tree own)) }
    ensures plain { IfOk result (λ own. is_plain (tree_of own) ≡ true) }
    ensures err { IfErr result (IsRefusal (as_expression (columns schema.now) (tree_of expr))) }
{
    match name_fields(alloc, &mut expr, schema) {
        Ok(()) => {
            let own = aliased(alloc, expr)?;
            Ok(own)
        }
        Err(error) => {
            drop(expr);
            Err(error)
        }
    }
}

// An expression without markers, with a renaming form at its top made an alias.
fn aliased(alloc: Global, expr: Expr) -> Result<Expr, PlanError>
    ensures ok { IfOk result (λ own. aliased (tree_of expr) ≡ Ok (plain_tree own)) }
    ensures plain { IfOk result (λ own. is_plain (tree_of own) ≡ true) }
    ensures err { IfErr result (IsRefusal (aliased (tree_of expr))) }
{
    match expr {
        Expr::KeepName(expr) => under_root(alloc, expr),
        Expr::RenameAlias { function, expr } => renamed(alloc, function, expr),
        expr => as_plain(expr),
    }
}

// An expression that has neither a marker nor a renaming form, as it is.
fn as_plain(expr: Expr) -> Result<Expr, PlanError>
    ensures ok { IfOk result (λ own. plain (tree_of expr) ≡ Ok (plain_tree own)) }
    ensures plain { IfOk result (λ own. is_plain (tree_of own) ≡ true) }
    ensures err { IfErr result (IsRefusal (plain (tree_of expr))) }
{
    if expr.is_plain() {
        return Ok(expr);
    }
    drop(expr);
    Err(PlanError::at_top(ErrorKind::InvalidOperation))
}

// Refuses an expression that has a marker or a renaming form.
fn check_plain(expr: &Expr) -> Result<(), PlanError>
    ensures ok { OnOk result (is_plain (tree_of expr.now) ≡ true) }
    ensures err { IfErr result (λ error. (error ≡ at_top InvalidOperation) × (is_plain (tree_of expr.now) ≡ false)) }
{
    if expr.is_plain() {
        Ok(())
    } else {
        Err(PlanError::at_top(ErrorKind::InvalidOperation))
    }
}

// The expression under the name of its first column.
fn under_root(alloc: Global, expr: Box<Expr>) -> Result<Expr, PlanError>
    ensures ok { IfOk result (λ own. then_ok (plain (tree_of expr.value)) (under_alias KeepRoot) ≡ Ok (plain_tree own)) }
    ensures plain { IfOk result (λ own. is_plain (tree_of own) ≡ true) }
    ensures err { IfErr result (IsRefusal (then_ok (plain (tree_of expr.value)) (under_alias KeepRoot))) }
{
    check_plain(&expr)?;
    let name = root(&expr)?.try_clone(alloc)?;
    Ok(Expr::Alias(expr, name))
}

// The expression under the name that a renaming makes.
fn renamed(alloc: Global, function: RenameAliasFn, expr: Box<Expr>) -> Result<Expr, PlanError>
    ensures ok { IfOk result (λ own. then_ok (plain (tree_of expr.value)) (under_alias (renaming_of function)) ≡ Ok (plain_tree own)) }
    ensures plain { IfOk result (λ own. is_plain (tree_of own) ≡ true) }
    ensures err { IfErr result (IsRefusal (then_ok (plain (tree_of expr.value)) (under_alias (renaming_of function)))) }
{
    check_plain(&expr)?;
    let name = name_given(alloc, function, &expr)?;
    Ok(Expr::Alias(expr, name))
}

// The name that a renaming makes of that of the expression's first column.
fn name_given(alloc: Global, function: RenameAliasFn, expr: &Expr) -> Result<PlSmallStr, PlanError>
    ensures ok { IfOk result (λ name. name_given (renaming_of function) (root_name (plain_tree expr.now)) ≡ Ok name) }
    ensures err { IfErr result (IsRefusal (name_given (renaming_of function) (root_name (plain_tree expr.now)))) }
{
    match function {
        RenameAliasFn::Fixed(text) => Ok(text),
        RenameAliasFn::Prefix(text) => {
            let name = root(expr)?;
            Ok(joined(alloc, &text, name)?)
        }
        RenameAliasFn::Suffix(text) => {
            let name = root(expr)?;
            Ok(joined(alloc, name, &text)?)
        }
    }
}

// The name of the expression's first column, which must be there.
fn root(expr: &Expr) -> Result<&PlSmallStr, PlanError>
    ensures ok { IfOk result (λ name. root_name (plain_tree expr.now) ≡ Some name.now) }
    ensures err { IfErr result (λ error. (error ≡ at_top InvalidOperation) × (root_name (plain_tree expr.now) ≡ None)) }
{
    match root_name(expr) {
        Some(name) => Ok(name),
        None => Err(PlanError::at_top(ErrorKind::InvalidOperation)),
    }
}

// The second text behind the first.
fn joined(alloc: Global, first: &PlSmallStr, second: &PlSmallStr) -> Result<PlSmallStr, PlanError>
    ensures ok { IfOk result (λ text. text ≡ first.now ++ second.now) }
    ensures err { IfErr result (λ error. error ≡ no_memory) }
{
    let mut text = String::from_str(alloc, first.as_str())?;
    text.push_str(second.as_str())?;
    let copy = PlSmallStr::new(alloc, text.as_str())?;
    Ok(copy)
}
