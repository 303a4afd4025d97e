//! What is read of a key's value, item by item, and taking it apart again.
ghost use Rattle.std.specs.Prelude.{◌≡◌, ◌∷◌, [], ℕ, false, true, length, map, take, Some};
ghost use Rattle.std.specs.Option.{option_map};
ghost use Rattle.plan_dsl.specs.Expressions.{excluded_of, order_trees, selector_tree, selector_trees, tree_of, trees_of, way_of};
ghost use Rattle.plan_dsl.specs.Literals.{literal_op};
ghost use Rattle.plan_dsl.specs.Plans.{plan_tree};
ghost use Rattle.plan_types.specs.Schemas.{columns};
ghost use Rattle.plan_types.specs.Types.{ty};
ghost use Rattle.plan_json.specs.Arguments.{arg_view, args_view, items_seen};
ghost use Rattle.plan_json.specs.Forms.{AllFit, Asked, Fits, optional, optional_read, chosen_read, columns_read, expression, expression_read, leaf, leaves_read, literal_read, many, many_read, method_read, function_read, mode_read, name_read, operator_read, order, order_items, order_read, order_says, plan, plan_read, reads_of, selector, selector_read, table_read, type_read, nothing_read, flag_read, index_read, natural_read, keep_read, optional_name_read, optional_natural_read, statistic_read, subset_read, excluded_read, is_literal};
ghost use Rattle.plan_json.specs.Queries.{has_flags};
ghost use Rattle.plan_json.specs.declared.forms.Leaf.TheVariants as leaves;
ghost use Rattle.plan_json.specs.declared.forms.SmallLeaf.TheVariants as smalls;

use plan_dsl::aggregate::GroupByMethod;
use plan_dsl::distinct_options::UniqueKeepStrategy;
use plan_dsl::expr::{Expr, Exprs};
use plan_dsl::function::StatsFunction;
use plan_dsl::function_expr::FunctionExpr;
use plan_dsl::literal::LiteralValue;
use plan_dsl::marker::Excluded;
use plan_dsl::operator::Operator;
use plan_dsl::plan::DslPlan;
use plan_dsl::selector::{Selector, Selectors};
use plan_dsl::sort_options::{Flags, SortOptions};
use plan_types::dtype::{CastOptions, DataType};
use plan_types::schema::Schema;
use plan_types::text::PlSmallStr;

// What is read at one place. What is wide stands in a box, since it goes through several hands.
#[derive(Drop)]
pub(crate) enum Arg {
    Name(Box<PlSmallStr>),
    OptionalName(Box<Option<PlSmallStr>>),
    Literal(Box<LiteralValue>),
    Operator(Operator),
    Method(GroupByMethod),
    Function(Box<FunctionExpr>),
    Dtype(Box<DataType>),
    Mode(CastOptions),
    Table(u32, Box<Schema>),
    Columns(Box<Schema>),
    Nothing,
    Flag(bool),
    Index(i64),
    Natural(u32),
    OptionalNatural(Option<u32>),
    Keep(UniqueKeepStrategy),
    Statistic(StatsFunction),
    Excluded(Box<Excluded>),
    Order(Option<(Box<Expr>, SortOptions)>),
    Expression(Box<Expr>),
    Selector(Box<Selector>),
    Plan(Box<DslPlan>),
    Expressions(Box<Exprs>),
    Selectors(Box<Selectors>),
    Names(Box<Vec<PlSmallStr>>),
    Dtypes(Box<Vec<DataType>>),
    Flags(Box<Vec<bool>>),
    Indexes(Box<Vec<i64>>),
    AllExcluded(Box<Vec<Excluded>>),
}

// What is read of the items of a list, in order: so many, and nothing behind them. They stand in place.
#[derive(Drop)]
pub(crate) struct Items {
    pub(crate) count: usize,
    pub(crate) first: Arg,
    pub(crate) second: Arg,
    pub(crate) third: Arg,
    pub(crate) fourth: Arg,
    pub(crate) fifth: Arg,
}

// What is read of a key's value.
#[derive(Drop)]
pub(crate) enum Args {
    One(Arg),
    Listed(Items),
}

// Drops what was read. A caller that drops it itself has a case for each variant.
#[inline(never)]
pub(crate) fn discard(_arg: Arg) {}

// Drops what stands behind the last, which is nothing.
fn spare(arg: Arg) {
    match arg {
        Arg::Nothing => {}
        other => discard(other),
    }
}

// What stands in the five places.
#[inline(always)]
fn parts(args: Args) -> (Arg, Arg, Arg, Arg, Arg)
    ensures { (count : ℕ) → length (args_view args) ≡ count
        → args_view args ≡ take count (arg_view result.0 ∷ arg_view result.1 ∷ arg_view result.2 ∷ arg_view result.3 ∷ arg_view result.4 ∷ []) }
{
    match args {
        Args::One(first) => (
            first,
            Arg::Nothing,
            Arg::Nothing,
            Arg::Nothing,
            Arg::Nothing,
        ),
        Args::Listed(
            Items {
                first,
                second,
                third,
                fourth,
                fifth,
                ..
            },
        ) => (first, second, third, fourth, fifth),
    }
}

#[inline(always)]
pub(crate) fn one(args: Args) -> Arg
    requires { length (args_view args) ≡ 1 }
    ensures all { args_view args ≡ arg_view result ∷ [] }
    ensures first { (p : Asked) → AllFit (p ∷ []) (args_view args) → Fits p (arg_view result) }
{
    let (first, second, third, fourth, fifth) = parts(args);
    spare(second);
    spare(third);
    spare(fourth);
    spare(fifth);
    first
}

#[inline(always)]
pub(crate) fn two(args: Args) -> (Arg, Arg)
    requires { length (args_view args) ≡ 2 }
    ensures all { args_view args ≡ arg_view result.0 ∷ arg_view result.1 ∷ [] }
    ensures first { (p q : Asked) → AllFit (p ∷ q ∷ []) (args_view args) → Fits p (arg_view result.0) }
    ensures second { (p q : Asked) → AllFit (p ∷ q ∷ []) (args_view args) → Fits q (arg_view result.1) }
{
    let (first, second, third, fourth, fifth) = parts(args);
    spare(third);
    spare(fourth);
    spare(fifth);
    (first, second)
}

#[inline(always)]
pub(crate) fn three(args: Args) -> (Arg, Arg, Arg)
    requires { length (args_view args) ≡ 3 }
    ensures all { args_view args ≡ arg_view result.0 ∷ arg_view result.1 ∷ arg_view result.2 ∷ [] }
    ensures first { (p q r : Asked) → AllFit (p ∷ q ∷ r ∷ []) (args_view args) → Fits p (arg_view result.0) }
    ensures second { (p q r : Asked) → AllFit (p ∷ q ∷ r ∷ []) (args_view args) → Fits q (arg_view result.1) }
    ensures third { (p q r : Asked) → AllFit (p ∷ q ∷ r ∷ []) (args_view args) → Fits r (arg_view result.2) }
{
    let (first, second, third, fourth, fifth) = parts(args);
    spare(fourth);
    spare(fifth);
    (first, second, third)
}

#[inline(always)]
pub(crate) fn four(args: Args) -> (Arg, Arg, Arg, Arg)
    requires { length (args_view args) ≡ 4 }
    ensures all { args_view args ≡ arg_view result.0 ∷ arg_view result.1 ∷ arg_view result.2 ∷ arg_view result.3 ∷ [] }
    ensures first { (p q r s : Asked) → AllFit (p ∷ q ∷ r ∷ s ∷ []) (args_view args) → Fits p (arg_view result.0) }
    ensures second { (p q r s : Asked) → AllFit (p ∷ q ∷ r ∷ s ∷ []) (args_view args) → Fits q (arg_view result.1) }
    ensures third { (p q r s : Asked) → AllFit (p ∷ q ∷ r ∷ s ∷ []) (args_view args) → Fits r (arg_view result.2) }
    ensures fourth { (p q r s : Asked) → AllFit (p ∷ q ∷ r ∷ s ∷ []) (args_view args) → Fits s (arg_view result.3) }
{
    let (first, second, third, fourth, fifth) = parts(args);
    spare(fifth);
    (first, second, third, fourth)
}

#[inline(always)]
pub(crate) fn five(args: Args) -> (Arg, Arg, Arg, Arg, Arg)
    requires { length (args_view args) ≡ 5 }
    ensures all { args_view args ≡ arg_view result.0 ∷ arg_view result.1 ∷ arg_view result.2 ∷ arg_view result.3 ∷ arg_view result.4 ∷ [] }
    ensures first { (p q r s t : Asked) → AllFit (p ∷ q ∷ r ∷ s ∷ t ∷ []) (args_view args) → Fits p (arg_view result.0) }
    ensures second { (p q r s t : Asked) → AllFit (p ∷ q ∷ r ∷ s ∷ t ∷ []) (args_view args) → Fits q (arg_view result.1) }
    ensures third { (p q r s t : Asked) → AllFit (p ∷ q ∷ r ∷ s ∷ t ∷ []) (args_view args) → Fits r (arg_view result.2) }
    ensures fourth { (p q r s t : Asked) → AllFit (p ∷ q ∷ r ∷ s ∷ t ∷ []) (args_view args) → Fits s (arg_view result.3) }
    ensures fifth { (p q r s t : Asked) → AllFit (p ∷ q ∷ r ∷ s ∷ t ∷ []) (args_view args) → Fits t (arg_view result.4) }
{
    parts(args)
}

// What stands in an argument of that kind.
macro_rules! taken {
    ($arg:ident, $kind:pat => $taken:expr) => {
        match $arg {
            $kind => $taken,
            _ => unreachable!(),
        }
    };
}

pub(crate) fn name(arg: Arg) -> PlSmallStr
    requires { Fits (leaf leaves.Name) (arg_view arg) }
    ensures { arg_view arg ≡ name_read result }
{
    taken!(arg, Arg::Name(name) => Box::into_inner(name))
}

// A text, if there is one.
pub(crate) fn optional_name(arg: Arg) -> Option<PlSmallStr>
    requires { Fits (leaf leaves.OptionalName) (arg_view arg) }
    ensures { arg_view arg ≡ optional_name_read result }
{
    taken!(arg, Arg::OptionalName(name) => Box::into_inner(name))
}

// A literal, however it was written.
pub(crate) fn literal(arg: Arg) -> LiteralValue
    requires { is_literal (arg_view arg) ≡ true }
    ensures { arg_view arg ≡ literal_read (literal_op result) }
{
    taken!(arg, Arg::Literal(literal) => Box::into_inner(literal))
}

pub(crate) fn operator(arg: Arg) -> Operator
    requires { Fits (leaf (leaves.Small smalls.Operator)) (arg_view arg) }
    ensures { arg_view arg ≡ operator_read result }
{
    taken!(arg, Arg::Operator(operator) => operator)
}

pub(crate) fn method(arg: Arg) -> GroupByMethod
    requires { Fits (leaf (leaves.Small smalls.Method)) (arg_view arg) }
    ensures { arg_view arg ≡ method_read result }
{
    taken!(arg, Arg::Method(method) => method)
}

pub(crate) fn function(arg: Arg) -> FunctionExpr
    requires { Fits (leaf leaves.Function) (arg_view arg) }
    ensures { arg_view arg ≡ function_read result }
{
    taken!(arg, Arg::Function(function) => Box::into_inner(function))
}

pub(crate) fn dtype(arg: Arg) -> DataType
    requires { Fits (leaf leaves.Dtype) (arg_view arg) }
    ensures { arg_view arg ≡ type_read (ty result) }
{
    taken!(arg, Arg::Dtype(dtype) => Box::into_inner(dtype))
}

pub(crate) fn mode(arg: Arg) -> CastOptions
    requires { Fits (leaf (leaves.Small smalls.Mode)) (arg_view arg) }
    ensures { arg_view arg ≡ mode_read result }
{
    taken!(arg, Arg::Mode(mode) => mode)
}

pub(crate) fn table(arg: Arg) -> (u32, Schema)
    requires { Fits (leaf leaves.Table) (arg_view arg) }
    ensures { arg_view arg ≡ table_read result.0 (columns result.1) }
{
    taken!(arg, Arg::Table(number, schema) => (number, Box::into_inner(schema)))
}

pub(crate) fn columns(arg: Arg) -> Schema
    requires { Fits (leaf leaves.Columns) (arg_view arg) }
    ensures { arg_view arg ≡ columns_read (columns result) }
{
    taken!(arg, Arg::Columns(schema) => Box::into_inner(schema))
}

// Nothing is taken out, but what was read is dropped.
pub(crate) fn nothing(arg: Arg)
    requires { Fits (leaf (leaves.Small smalls.Nothing)) (arg_view arg) }
    ensures { arg_view arg ≡ nothing_read }
{
    taken!(arg, Arg::Nothing => {})
}

pub(crate) fn flag(arg: Arg) -> bool
    requires { Fits (leaf (leaves.Small smalls.Flag)) (arg_view arg) }
    ensures { arg_view arg ≡ flag_read result }
{
    taken!(arg, Arg::Flag(flag) => flag)
}

pub(crate) fn index(arg: Arg) -> i64
    requires { Fits (leaf (leaves.Small smalls.Index)) (arg_view arg) }
    ensures { arg_view arg ≡ index_read result }
{
    taken!(arg, Arg::Index(index) => index)
}

pub(crate) fn natural(arg: Arg) -> u32
    requires { Fits (leaf (leaves.Small smalls.Natural)) (arg_view arg) }
    ensures { arg_view arg ≡ natural_read result }
{
    taken!(arg, Arg::Natural(natural) => natural)
}

pub(crate) fn optional_natural(arg: Arg) -> Option<u32>
    requires { Fits (leaf (leaves.Small smalls.OptionalNatural)) (arg_view arg) }
    ensures { arg_view arg ≡ optional_natural_read result }
{
    taken!(arg, Arg::OptionalNatural(natural) => natural)
}

pub(crate) fn keep(arg: Arg) -> UniqueKeepStrategy
    requires { Fits (leaf (leaves.Small smalls.Keep)) (arg_view arg) }
    ensures { arg_view arg ≡ keep_read result }
{
    taken!(arg, Arg::Keep(keep) => keep)
}

pub(crate) fn statistic(arg: Arg) -> StatsFunction
    requires { Fits (leaf (leaves.Small smalls.Statistic)) (arg_view arg) }
    ensures { arg_view arg ≡ statistic_read result }
{
    taken!(arg, Arg::Statistic(statistic) => statistic)
}

// How rows are put in order, and by which expression, if they are.
pub(crate) fn order(arg: Arg) -> Option<(Box<Expr>, SortOptions)>
    requires { Fits order (arg_view arg) }
    ensures { arg_view arg ≡ order_read (way_of result) (order_trees result) }
{
    taken!(arg, Arg::Order(order) => order)
}

// The order that a list says.
pub(crate) fn listed_order(items: Items) -> Arg
    requires { AllFit order_items (items_seen items) }
    ensures says { order_says (items_seen items) ≡ Some (arg_view result) }
    ensures fit { Fits order (arg_view result) }
{
    let (by, descending, nulls_last) = three(Args::Listed(items));
    let options = SortOptions {
        descending: flag(descending),
        nulls_last: flag(nulls_last),
    };
    Arg::Order(Some((expression(by), options)))
}

pub(crate) fn expression(arg: Arg) -> Box<Expr>
    requires { Fits expression (arg_view arg) }
    ensures { arg_view arg ≡ expression_read (tree_of result.value) }
{
    taken!(arg, Arg::Expression(expr) => expr)
}

pub(crate) fn selector(arg: Arg) -> Box<Selector>
    requires { Fits selector (arg_view arg) }
    ensures { arg_view arg ≡ selector_read (selector_tree result.value) }
{
    taken!(arg, Arg::Selector(selector) => selector)
}

pub(crate) fn plan(arg: Arg) -> Box<DslPlan>
    requires { Fits plan (arg_view arg) }
    ensures tree { arg_view arg ≡ plan_read (plan_tree result.value) }
    ensures flags { has_flags result.value ≡ false }
{
    taken!(arg, Arg::Plan(plan) => plan)
}

// A list of expressions.
pub(crate) fn expressions(arg: Arg) -> Exprs
    requires { Fits (many expression) (arg_view arg) }
    ensures { arg_view arg ≡ many_read (reads_of (map expression_read (trees_of result))) }
{
    taken!(arg, Arg::Expressions(exprs) => Box::into_inner(exprs))
}

// A list of expressions, if there is one.
pub(crate) fn some_expressions(arg: Arg) -> Option<Vec<Expr>>
    requires { Fits (optional expression) (arg_view arg) }
    ensures { arg_view arg ≡ optional_read (option_map (λ exprs. map tree_of exprs.items) result) }
{
    match arg {
        Arg::Nothing => None,
        Arg::Expressions(exprs) => Some(Box::into_inner(exprs).items),
        _ => unreachable!(),
    }
}

// A list of selectors.
pub(crate) fn selectors(arg: Arg) -> Selectors
    requires { Fits (many selector) (arg_view arg) }
    ensures { arg_view arg ≡ chosen_read (reads_of (map selector_read (selector_trees result))) }
{
    taken!(arg, Arg::Selectors(selectors) => Box::into_inner(selectors))
}

// A list of selectors, if there is one.
pub(crate) fn some_selectors(arg: Arg) -> Option<Selectors>
    requires { Fits (optional selector) (arg_view arg) }
    ensures { arg_view arg ≡ subset_read (option_map selector_trees result) }
{
    match arg {
        Arg::Nothing => None,
        Arg::Selectors(selectors) => Some(Box::into_inner(selectors)),
        _ => unreachable!(),
    }
}

// A list of texts.
pub(crate) fn names(arg: Arg) -> Vec<PlSmallStr>
    requires { Fits (many (leaf leaves.Name)) (arg_view arg) }
    ensures { arg_view arg ≡ leaves_read leaves.Name (reads_of (map name_read result.items)) }
{
    taken!(arg, Arg::Names(names) => Box::into_inner(names))
}

// A list of truth values, in the box in which it was read.
pub(crate) fn flags(arg: Arg) -> Flags
    requires { Fits (many (leaf (leaves.Small smalls.Flag))) (arg_view arg) }
    ensures { arg_view arg ≡ leaves_read (leaves.Small smalls.Flag) (reads_of (map flag_read result.items.value.items)) }
{
    taken!(arg, Arg::Flags(items) => Flags { items })
}

// A list of what an exclude leaves out.
pub(crate) fn excluded(arg: Arg) -> Vec<Excluded>
    requires { Fits (many (leaf leaves.Excluded)) (arg_view arg) }
    ensures { arg_view arg ≡ leaves_read leaves.Excluded (reads_of (map (λ item. excluded_read (excluded_of item)) result.items)) }
{
    taken!(arg, Arg::AllExcluded(excluded) => Box::into_inner(excluded))
}
