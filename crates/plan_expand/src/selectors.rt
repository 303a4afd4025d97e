//! The names that selectors make.
ghost use Rattle.std.specs.Prelude.{◌≡◌, [], ◌∷◌, map, false, Ok, Err, IfOk, IfErr};
ghost use Rattle.plan_types.specs.Errors.{at_top, no_memory, IsRefusal};
ghost use Rattle.plan_types.specs.Schemas.{columns, repeats};
ghost use Rattle.plan_types.specs.declared.error.ErrorKind.TheVariants.{InvalidOperation};
ghost use Rattle.plan_dsl.specs.Expressions.{selector_tree, tree_of};
ghost use Rattle.plan_dsl.specs.Markers.{once, set_of, selector_names, names_of_selectors};
ghost use Rattle.plan_dsl.specs.Sources.{Add, Sub, Intersect, ExclusiveOr, RootOp};
ghost use Rattle.plan_dsl.specs.Trees.{node, no_more, more};
ghost use Rattle.plan_expand.specs.Names.{parts_tree, selected, set_rule};
ghost use Rattle.plan_expand.specs.Refusals.{IsUnexpanded};

use crate::markers::marker_names;
use indexmap::IndexSet;
use plan_dsl::expr::Expr;
use plan_dsl::selector::Selector;
use plan_types::error::{ErrorKind, PlanError};
use plan_types::schema::Schema;
use plan_types::text::PlSmallStr;
use std::alloc::Global;

/// The names that the selectors make, each once, at its first place. A name that is written is given whether or not a
/// column of the schema has it.
pub fn expand_selectors(
    alloc: Global,
    selectors: Vec<Selector>,
    schema: &Schema,
) -> Result<Vec<PlSmallStr>, PlanError>
    ensures ok { IfOk result (λ names. names_of_selectors (columns schema.now) (map selector_tree selectors.items) ≡ Ok names.items) }
    ensures err { IfErr result (IsUnexpanded (names_of_selectors (columns schema.now) (map selector_tree selectors.items))) }
{
    let names = selected_names(alloc, selectors, schema)?;
    let list = listed(alloc, names)?;
    Ok(list)
}

/// The names that the selectors make, as a set in order.
pub fn selected_names(
    alloc: Global,
    selectors: Vec<Selector>,
    schema: &Schema,
) -> Result<IndexSet<PlSmallStr>, PlanError>
    ensures ok { IfOk result (λ names. names_of_selectors (columns schema.now) (map selector_tree selectors.items) ≡ Ok names.keys) }
    ensures err { IfErr result (IsUnexpanded (names_of_selectors (columns schema.now) (map selector_tree selectors.items))) }
{
    let keys = IndexSet::new(alloc);
    let names = all_selected(alloc, selectors.as_slice(), schema, &keys);
    drop(selectors);
    names
}

// The names of selectors that are lent, where there are no keys.
fn all_selected(
    alloc: Global,
    selectors: &[Selector],
    schema: &Schema,
    keys: &IndexSet<PlSmallStr>,
) -> Result<IndexSet<PlSmallStr>, PlanError>
    requires { keys.now.keys ≡ [] }
    ensures ok { IfOk result (λ names. names_of_selectors (columns schema.now) (map selector_tree selectors.now) ≡ Ok names.keys) }
    ensures err { IfErr result (IsUnexpanded (names_of_selectors (columns schema.now) (map selector_tree selectors.now))) }
{
    let mut names = IndexSet::new(alloc);
    for selector in selectors {
        let mut more = selected(alloc, selector, schema, keys)?;
        names.append(&mut more)?;
    }
    Ok(names)
}

// The names of a set, in order.
pub(crate) fn listed(
    alloc: Global,
    names: IndexSet<PlSmallStr>,
) -> Result<Vec<PlSmallStr>, PlanError>
    ensures ok { IfOk result (λ list. list.items ≡ names.keys) }
    ensures err { IfErr result (λ error. error ≡ no_memory) }
{
    let mut list = Vec::with_capacity(alloc, names.len())?;
    for name in names {
        list.push(name)?;
    }
    Ok(list)
}

// How one list of names is made of two.
#[derive(Clone, Copy)]
enum Rule {
    Add,
    Sub,
    ExclusiveOr,
    Intersect,
}

// What a selector is made of.
enum Parts<'a> {
    Root(&'a Expr),
    Two(Rule, &'a Selector, &'a Selector),
}

// The parts of a selector.
fn made_of(selector: &Selector) -> Parts<'_>
    ensures { selector_tree selector.now ≡ parts_tree result }
{
    match selector {
        Selector::Root(expr) => Parts::Root(expr),
        Selector::Add(first, second) => Parts::Two(Rule::Add, first, second),
        Selector::Sub(first, second) => Parts::Two(Rule::Sub, first, second),
        Selector::ExclusiveOr(first, second) => Parts::Two(Rule::ExclusiveOr, first, second),
        Selector::Intersect(first, second) => Parts::Two(Rule::Intersect, first, second),
    }
}

// The names that a selector makes, each once. Markers pass over the columns that are keys, but for lists of names and
// places.
#[cycle(names)]
pub(crate) fn selected(
    alloc: Global,
    selector: &Selector,
    schema: &Schema,
    keys: &IndexSet<PlSmallStr>,
) -> Result<IndexSet<PlSmallStr>, PlanError>
    ensures ok { IfOk result (λ names. selected keys.now.keys (columns schema.now) (selector_tree selector.now) ≡ Ok names.keys) }
    ensures once { IfOk result (λ names. repeats names.keys ≡ false) }
    ensures err { IfErr result (IsRefusal (selector_names keys.now.keys (columns schema.now) (selector_tree selector.now))) }
{
    match made_of(selector) {
        Parts::Root(expr) => rooted(alloc, expr, schema, keys),
        Parts::Two(rule, first, second) => {
            let names = selected(alloc, first, schema, keys)?;
            let others = selected(alloc, second, schema, keys)?;
            let joined = by_rule(alloc, rule, names, others)?;
            Ok(joined)
        }
    }
}

// The names of a column or a marker, each once.
#[cycle(names)]
fn rooted(
    alloc: Global,
    expr: &Expr,
    schema: &Schema,
    keys: &IndexSet<PlSmallStr>,
) -> Result<IndexSet<PlSmallStr>, PlanError>
    ensures ok { IfOk result (λ names. selected keys.now.keys (columns schema.now) (node RootOp (more (tree_of expr.now) no_more)) ≡ Ok names.keys) }
    ensures once { IfOk result (λ names. repeats names.keys ≡ false) }
    ensures err { IfErr result (IsRefusal (selector_names keys.now.keys (columns schema.now) (node RootOp (more (tree_of expr.now) no_more)))) }
{
    if let Expr::Column(name) = expr {
        let mut names = IndexSet::new(alloc);
        names.insert(name.try_clone(alloc)?)?;
        return Ok(names);
    }
    let listed = marker_names(alloc, expr, schema, keys)?;
    let names = distinct(alloc, listed)?;
    Ok(names)
}

// The names of a list, each once.
fn distinct(alloc: Global, list: Vec<PlSmallStr>) -> Result<IndexSet<PlSmallStr>, PlanError>
    ensures ok { IfOk result (λ names. names.keys ≡ once list.items) }
    ensures err { IfErr result (λ error. error ≡ no_memory) }
{
    let mut names = IndexSet::with_capacity(alloc, list.len())?;
    for name in list {
        names.insert(name)?;
    }
    Ok(names)
}

// The names that a rule makes of two sets.
fn by_rule(
    alloc: Global,
    rule: Rule,
    names: IndexSet<PlSmallStr>,
    others: IndexSet<PlSmallStr>,
) -> Result<IndexSet<PlSmallStr>, PlanError>
    requires names { repeats names.keys ≡ false }
    requires others { repeats others.keys ≡ false }
    ensures ok { IfOk result (λ joined. joined.keys ≡ set_of (set_rule rule) names.keys others.keys) }
    ensures once { IfOk result (λ joined. repeats joined.keys ≡ false) }
    ensures err { IfErr result (λ error. error ≡ no_memory) }
{
    match rule {
        Rule::Add => added(names, others),
        Rule::Sub => Ok(lacking(names, &others)),
        Rule::ExclusiveOr => in_one(alloc, &names, &others),
        Rule::Intersect => Ok(in_both(names, &others)),
    }
}

// The names of the first, and then those that are new in the second.
fn added(
    mut names: IndexSet<PlSmallStr>,
    mut others: IndexSet<PlSmallStr>,
) -> Result<IndexSet<PlSmallStr>, PlanError>
    requires names { repeats names.keys ≡ false }
    requires others { repeats others.keys ≡ false }
    ensures ok { IfOk result (λ both. both.keys ≡ set_of Add names.keys others.keys) }
    ensures once { IfOk result (λ both. repeats both.keys ≡ false) }
    ensures err { IfErr result (λ error. error ≡ no_memory) }
{
    names.append(&mut others)?;
    Ok(names)
}

// The names of the first that the second lacks.
pub(crate) fn lacking(
    mut names: IndexSet<PlSmallStr>,
    others: &IndexSet<PlSmallStr>,
) -> IndexSet<PlSmallStr>
    ensures names { result.keys ≡ set_of Sub names.keys others.now.keys }
    ensures once { repeats result.keys ≡ false }
{
    names.retain(|name| !others.contains(name));
    names
}

// The names of the first that the second has.
fn in_both(mut names: IndexSet<PlSmallStr>, others: &IndexSet<PlSmallStr>) -> IndexSet<PlSmallStr>
    ensures names { result.keys ≡ set_of Intersect names.keys others.now.keys }
    ensures once { repeats result.keys ≡ false }
{
    names.retain(|name| others.contains(name));
    names
}

// The names that one has and the other lacks.
fn in_one(
    alloc: Global,
    names: &IndexSet<PlSmallStr>,
    others: &IndexSet<PlSmallStr>,
) -> Result<IndexSet<PlSmallStr>, PlanError>
    ensures ok { IfOk result (λ apart. apart.keys ≡ set_of ExclusiveOr names.now.keys others.now.keys) }
    ensures once { IfOk result (λ apart. repeats apart.keys ≡ false) }
    ensures err { IfErr result (λ error. error ≡ no_memory) }
{
    let mut apart = IndexSet::new(alloc);
    for name in names.symmetric_difference(others) {
        let name = name.try_clone(alloc)?;
        apart.insert(name)?;
    }
    Ok(apart)
}
