//! Reading what a place asks for, by the table of forms.
ghost use Rattle.std.specs.Prelude.{◌+◌, ◌≡◌, ◌≤◌, Some, length, map, option_and_then, IfOk, IfErr};
ghost use Rattle.serde_json.specs.Data.{array};
ghost use Rattle.serde_json.specs.View.{view, items_view};
ghost use Rattle.plan_dsl.specs.Expressions.{selector_trees, tree_of, trees_of};
ghost use Rattle.plan_types.specs.Schemas.{columns, names_of};
ghost use Rattle.plan_json.specs.Arguments.{arg_view, args_view, items_seen};
ghost use Rattle.plan_json.specs.Errors.{IsErrorOf, IsListErrorOf};
ghost use Rattle.plan_json.specs.Faults.{a_scan, items_of, leaf_form, places_form, nothing_form, small_form};
ghost use Rattle.plan_json.specs.Forms.{AllFit, a_form, asked_in, asks, bin_key, expression, expression_read, leaf, listed_leaf, chosen_read, many, many_read, optional, order, place_view, places_view, reads_of, says, selector, selector_read, nothing_read};
ghost use Rattle.plan_json.specs.Leaves.{table_at, text_of};
ghost use Rattle.plan_json.specs.Queries.{IsItem, leaf_of, list_as, places_as, read_as, these_as, nothing_of, small_of};
ghost use Rattle.plan_json.specs.Readers.{IsReadAs, IsReadBy, IsReading};
ghost use Rattle.plan_json.specs.Tables.{Declared, declared};
ghost use Rattle.plan_json.specs.declared.forms.Key.TheVariants as keys;

use super::arguments::{Arg, Args, Items, discard, listed_order, selector};
use super::columns::read_columns;
use super::dtype::{read_text, read_type};
use super::error::{JsonError, Step};
use super::excluded::read_excluded;
use super::expression::assemble_expression;
use super::forms::{
    ExpressionKey, Key, Kind, Leaf, ListLeaf, Place, Places, SmallLeaf, expression_places,
    find_expression, find_key, order_places, places_of,
};
use super::function::read_function;
use super::keep::read_keep;
use super::lists::{read_flag, read_index, read_list, read_natural};
use super::literal::read_written;
use super::method::read_method;
use super::operator::{read_mode, read_operator};
use super::optional::{read_optional_natural, read_optional_text};
use super::plan::assemble_plan;
use super::selector::assemble_selector;
use super::statistic::read_statistic;
use super::tables::Tables;
use super::value::{items, keyed, only_member, three_items};
use plan_dsl::expr::{Expr, Exprs};
use plan_dsl::selector::Selectors;
use plan_types::schema::Schema;
use serde_json::Value;
use std::alloc::Global;

// What was read, as the argument of its kind.
macro_rules! plain {
    ($read:expr, $kind:path) => {
        match $read {
            Ok(read) => Ok($kind(read)),
            Err(error) => Err(error),
        }
    };
}

// What was read, in a box as the argument of its kind, since it is wide.
macro_rules! boxed {
    ($alloc:ident, $read:expr, $kind:path) => {
        match $read {
            Ok(read) => {
                let read = Box::new($alloc, read)?;
                Ok($kind(read))
            }
            Err(error) => Err(error),
        }
    };
}

// An object of one key, which names a form of the kind.
#[cycle(forms)]
#[tactic(auto, using(crate::proofs::Lemmas::less_deep))]
pub(crate) fn read_form(
    alloc: Global,
    tables: &Tables,
    kind: Kind,
    value: &Value,
) -> Result<Arg, JsonError>
    ensures { IsReadAs (declared tables.now) (a_form kind) (view value.now) result arg_view }
{
    keyed!(alloc, value, word => find_key(kind, word), (key, inner) => read_keyed(alloc, tables, key, inner))
}

// What a key says of its value.
#[cycle(forms)]
fn read_keyed(alloc: Global, tables: &Tables, key: Key, value: &Value) -> Result<Arg, JsonError>
    ensures { IsReadBy (declared tables.now) key (view value.now) result arg_view }
{
    match key {
        Key::Expression(key) => plain!(read_boxed_of(alloc, tables, key, value), Arg::Expression),
        Key::Selector(_) | Key::Plan(_) => {
            match read_places(alloc, tables, places_of(key), value) {
                Err(error) => Err(error),
                Ok(args) => {
                    let arg = assemble(alloc, key, args)?;
                    Ok(arg)
                }
            }
        }
    }
}

// An expression, without a box: an object of one key, which names its form.
#[cycle(forms)]
#[tactic(auto, using(crate::proofs::Lemmas::less_deep))]
fn read_expression(alloc: Global, tables: &Tables, value: &Value) -> Result<Expr, JsonError>
    ensures { IsReadAs (declared tables.now) expression (view value.now) result (λ expr. expression_read (tree_of expr)) }
{
    keyed!(alloc, value, word => find_expression(word), (key, inner) => read_expression_of(alloc, tables, key, inner))
}

// What a key of expressions says of its value.
#[cycle(forms)]
fn read_expression_of(
    alloc: Global,
    tables: &Tables,
    key: ExpressionKey,
    value: &Value,
) -> Result<Expr, JsonError>
    ensures { IsReadBy (declared tables.now) (keys.Expression key) (view value.now) result (λ expr. expression_read (tree_of expr)) }
{
    match key {
        // Most forms are columns, whose name goes through no arguments.
        ExpressionKey::Col => match read_text(alloc, value) {
            Err(error) => Err(error),
            Ok(name) => Ok(Expr::Column(name)),
        },
        ExpressionKey::Bin => read_bin(alloc, tables, value),
        _ => match read_places(alloc, tables, expression_places(key), value) {
            Err(error) => Err(error),
            Ok(args) => {
                let expr = assemble_expression(alloc, key, args)?;
                Ok(expr)
            }
        },
    }
}

// An expression, in a box.
#[cycle(forms)]
#[tactic(auto, using(crate::proofs::Lemmas::less_deep))]
fn read_boxed(alloc: Global, tables: &Tables, value: &Value) -> Result<Box<Expr>, JsonError>
    ensures { IsReadAs (declared tables.now) expression (view value.now) result (λ expr. expression_read (tree_of expr.value)) }
{
    keyed!(alloc, value, word => find_expression(word), (key, inner) => read_boxed_of(alloc, tables, key, inner))
}

// What a key of expressions says of its value, in a box. A column is put there at once.
#[cycle(forms)]
#[inline(always)]
fn read_boxed_of(
    alloc: Global,
    tables: &Tables,
    key: ExpressionKey,
    value: &Value,
) -> Result<Box<Expr>, JsonError>
    ensures { IsReadBy (declared tables.now) (keys.Expression key) (view value.now) result (λ expr. expression_read (tree_of expr.value)) }
{
    match key {
        ExpressionKey::Col => match read_text(alloc, value) {
            Err(error) => Err(error),
            Ok(name) => {
                let column = Box::new(alloc, Expr::Column(name))?;
                Ok(column)
            }
        },
        _ => match read_expression_of(alloc, tables, key, value) {
            Err(error) => Err(error),
            Ok(expr) => {
                let expr = Box::new(alloc, expr)?;
                Ok(expr)
            }
        },
    }
}

// An operator and its two operands, which go through no arguments.
#[cycle(forms)]
#[tactic(auto, using(crate::proofs::BinLemmas::less_deep))]
fn read_bin(alloc: Global, tables: &Tables, value: &Value) -> Result<Expr, JsonError>
    ensures { IsReadBy (declared tables.now) bin_key (view value.now) result (λ expr. expression_read (tree_of expr)) }
{
    let Some((op, left, right)) = three_items(value) else {
        return Err(JsonError::shape(alloc, value));
    };
    let op = match read_operator(alloc, op) {
        Ok(op) => op,
        Err(error) => return Err(error.below(alloc, Step::Item(0))),
    };
    let left = match read_boxed(alloc, tables, left) {
        Ok(left) => left,
        Err(error) => return Err(error.below(alloc, Step::Item(1))),
    };
    match read_boxed(alloc, tables, right) {
        Ok(right) => Ok(Expr::BinaryExpr { left, op, right }),
        Err(error) => {
            drop(left);
            Err(error.below(alloc, Step::Item(2)))
        }
    }
}

// The value of a key, by its places.
#[cycle(forms)]
fn read_places(
    alloc: Global,
    tables: &Tables,
    places: Places,
    value: &Value,
) -> Result<Args, JsonError>
    requires { length (asked_in (places_view places)) ≤ 5 }
    ensures { IsReading (places_as (declared tables.now) (places_view places)) (places_form (names_of (declared tables.now)) (places_view places)) (view value.now) result args_view }
{
    match places {
        Places::One(place) => match read_place(alloc, tables, place, value) {
            Ok(arg) => Ok(Args::One(arg)),
            Err(error) => Err(error),
        },
        Places::Listed(places) => match read_listed(alloc, tables, places, value) {
            Ok(items) => Ok(Args::Listed(items)),
            Err(error) => Err(error),
        },
    }
}

// A list of exactly these.
#[cycle(forms)]
#[tactic(auto, using(crate::proofs::Lemmas::listing))]
fn read_listed(
    alloc: Global,
    tables: &Tables,
    places: &[Place],
    value: &Value,
) -> Result<Items, JsonError>
    requires { length places.now ≤ 5 }
    ensures { IsReading (list_as (declared tables.now) (map place_view places.now)) (items_of (names_of (declared tables.now)) (map place_view places.now)) (view value.now) result items_seen }
{
    match items(value) {
        None => Err(JsonError::shape(alloc, value)),
        Some(values) => {
            if values.len() != places.len() {
                return Err(JsonError::shape(alloc, value));
            }
            match read_items(alloc, tables, places, values) {
                Ok(items) => Ok(items),
                Err(error) => Err(error),
            }
        }
    }
}

// Each item by its place.
#[cycle(forms)]
#[tactic(auto, using(crate::proofs::FormLemmas::five_read))]
fn read_items(
    alloc: Global,
    tables: &Tables,
    places: &[Place],
    values: &[Value],
) -> Result<Items, JsonError>
    requires count { length values.now ≡ length places.now }
    requires short { length places.now ≤ 5 }
    ensures ok { IfOk result (λ items. these_as (declared tables.now) (map place_view places.now) (items_view values.now)
        ≡ Some (items_seen items)) }
    ensures err { IfErr result (IsErrorOf (items_of (names_of (declared tables.now)) (map place_view places.now))
        (array (items_view values.now))) }
{
    let (first, second) = match read_two(alloc, tables, places, values, 0) {
        Ok(two) => two,
        Err(error) => return Err(error),
    };
    let (third, fourth) = match read_two(alloc, tables, places, values, 2) {
        Ok(two) => two,
        Err(error) => {
            discard(first);
            discard(second);
            return Err(error);
        }
    };
    match read_item(alloc, tables, places, values, 4) {
        Err(error) => {
            discard(first);
            discard(second);
            discard(third);
            discard(fourth);
            Err(error)
        }
        Ok(fifth) => Ok(Items {
            count: places.len(),
            first,
            second,
            third,
            fourth,
            fifth,
        }),
    }
}

// The items of that number and the next.
#[cycle(forms)]
#[inline(always)]
fn read_two(
    alloc: Global,
    tables: &Tables,
    places: &[Place],
    values: &[Value],
    number: usize,
) -> Result<(Arg, Arg), JsonError>
    requires count { length values.now ≡ length places.now }
    requires small { number ≤ 2 }
    ensures first { IfOk result (λ two. IsItem (declared tables.now) (map place_view places.now) (items_view values.now) number
        (arg_view two.0)) }
    ensures second { IfOk result (λ two. IsItem (declared tables.now) (map place_view places.now) (items_view values.now) (number + 1)
        (arg_view two.1)) }
    ensures err { IfErr result (IsErrorOf (items_of (names_of (declared tables.now)) (map place_view places.now))
        (array (items_view values.now))) }
{
    let first = match read_item(alloc, tables, places, values, number) {
        Ok(first) => first,
        Err(error) => return Err(error),
    };
    match read_item(alloc, tables, places, values, number + 1) {
        Ok(second) => Ok((first, second)),
        Err(error) => {
            discard(first);
            Err(error)
        }
    }
}

// The item of that number by its place, and nothing behind the last.
#[cycle(forms)]
#[inline(always)]
#[tactic(auto, using(crate::proofs::FormLemmas::item_read))]
fn read_item(
    alloc: Global,
    tables: &Tables,
    places: &[Place],
    values: &[Value],
    number: usize,
) -> Result<Arg, JsonError>
    requires { length values.now ≡ length places.now }
    ensures ok { IfOk result (λ arg. IsItem (declared tables.now) (map place_view places.now) (items_view values.now) number
        (arg_view arg)) }
    ensures err { IfErr result (IsErrorOf (items_of (names_of (declared tables.now)) (map place_view places.now))
        (array (items_view values.now))) }
{
    if number >= places.len() {
        return Ok(Arg::Nothing);
    }
    match read_place(alloc, tables, places[number], &values[number]) {
        Ok(arg) => Ok(arg),
        Err(error) => Err(error.below(alloc, Step::Item(number))),
    }
}

// What is at one place.
#[cycle(forms)]
fn read_place(alloc: Global, tables: &Tables, place: Place, value: &Value) -> Result<Arg, JsonError>
    ensures { IsReadAs (declared tables.now) (place_view place) (view value.now) result arg_view }
{
    match place {
        Place::Form(kind) => match read_form(alloc, tables, kind, value) {
            Ok(arg) => Ok(arg),
            Err(error) => Err(error),
        },
        Place::Leaf(leaf) => match read_leaf(alloc, tables, leaf, value) {
            Ok(arg) => Ok(arg),
            Err(error) => Err(error),
        },
        Place::Expressions => {
            boxed!(
                alloc,
                read_expressions(alloc, tables, value),
                Arg::Expressions
            )
        }
        Place::Selectors => { boxed!(alloc, read_selectors(alloc, tables, value), Arg::Selectors) }
        Place::Order => match read_order(alloc, tables, value) {
            Ok(arg) => Ok(arg),
            Err(error) => Err(error),
        },
        Place::OptionalExpressions => match read_optional(alloc, tables, value) {
            Ok(arg) => Ok(arg),
            Err(error) => Err(error),
        },
        Place::OptionalSelectors => match read_optional_selectors(alloc, tables, value) {
            Ok(arg) => Ok(arg),
            Err(error) => Err(error),
        },
        Place::Leaves(which) => match read_leaves(alloc, which, value) {
            Ok(arg) => Ok(arg),
            Err(error) => Err(error),
        },
    }
}

// A list of any number of what has no forms.
fn read_leaves(alloc: Global, which: ListLeaf, value: &Value) -> Result<Arg, JsonError>
    ensures ok { (tables : Declared) → IfOk result (λ arg. read_as tables (many (leaf (listed_leaf which))) (view value.now)
        ≡ Some (arg_view arg)) }
    ensures err { IfErr result (IsListErrorOf (listed_leaf which) (view value.now)) }
{
    match which {
        ListLeaf::Name => plain!(read_list(alloc, value), Arg::Names),
        ListLeaf::Dtype => plain!(read_list(alloc, value), Arg::Dtypes),
        ListLeaf::Flag => plain!(read_list(alloc, value), Arg::Flags),
        ListLeaf::Index => plain!(read_list(alloc, value), Arg::Indexes),
        ListLeaf::Excluded => plain!(read_list(alloc, value), Arg::AllExcluded),
    }
}

// Null, or a list of an expression and two flags.
#[cycle(forms)]
#[inline(never)]
#[tactic(auto, using(crate::proofs::FormLemmas::order_listed, crate::proofs::FormLemmas::order_error))]
fn read_order(alloc: Global, tables: &Tables, value: &Value) -> Result<Arg, JsonError>
    ensures { IsReadAs (declared tables.now) order (view value.now) result arg_view }
{
    match value.as_null() {
        Some(()) => Ok(Arg::Order(None)),
        None => match read_listed(alloc, tables, order_places(), value) {
            Ok(items) => Ok(listed_order(items)),
            Err(error) => Err(error),
        },
    }
}

// Null, or a list of any number of expressions.
#[cycle(forms)]
#[inline(never)]
#[tactic(auto, using(crate::proofs::FormLemmas::optional_listed, crate::proofs::FormLemmas::optional_error))]
fn read_optional(alloc: Global, tables: &Tables, value: &Value) -> Result<Arg, JsonError>
    ensures { IsReadAs (declared tables.now) (optional expression) (view value.now) result arg_view }
{
    match value.as_null() {
        Some(()) => Ok(Arg::Nothing),
        None => {
            boxed!(
                alloc,
                read_expressions(alloc, tables, value),
                Arg::Expressions
            )
        }
    }
}

// Null, or a list of any number of selectors.
#[cycle(forms)]
#[inline(never)]
#[tactic(auto, using(crate::proofs::FormLemmas::optional_listed, crate::proofs::FormLemmas::optional_error))]
fn read_optional_selectors(alloc: Global, tables: &Tables, value: &Value) -> Result<Arg, JsonError>
    ensures { IsReadAs (declared tables.now) (optional selector) (view value.now) result arg_view }
{
    match value.as_null() {
        Some(()) => Ok(Arg::Nothing),
        None => { boxed!(alloc, read_selectors(alloc, tables, value), Arg::Selectors) }
    }
}

// A list of any number of expressions.
#[cycle(forms)]
#[inline(never)]
#[tactic(auto, using(crate::proofs::Lemmas::less_deep))]
fn read_expressions(alloc: Global, tables: &Tables, value: &Value) -> Result<Exprs, JsonError>
    ensures { IsReadAs (declared tables.now) (many expression) (view value.now) result (λ exprs. many_read (reads_of (map expression_read (trees_of exprs)))) }
{
    match items(value) {
        None => Err(JsonError::shape(alloc, value)),
        Some(values) => {
            let mut items = Vec::with_capacity(alloc, values.len())?;
            for (number, value) in values.iter().enumerate() {
                match read_expression(alloc, tables, value) {
                    Ok(expr) => items.push(expr)?,
                    Err(error) => return Err(error.below(alloc, Step::Item(number))),
                }
            }
            Ok(Exprs { items })
        }
    }
}

// A list of any number of selectors.
#[cycle(forms)]
#[inline(never)]
#[tactic(auto, using(crate::proofs::Lemmas::less_deep))]
fn read_selectors(alloc: Global, tables: &Tables, value: &Value) -> Result<Selectors, JsonError>
    ensures { IsReadAs (declared tables.now) (many selector) (view value.now) result (λ selectors. chosen_read (reads_of (map selector_read (selector_trees selectors)))) }
{
    match items(value) {
        None => Err(JsonError::shape(alloc, value)),
        Some(values) => {
            let mut items = Vec::with_capacity(alloc, values.len())?;
            for (number, value) in values.iter().enumerate() {
                match read_form(alloc, tables, Kind::Selector, value) {
                    Ok(arg) => items.push(Box::into_inner(selector(arg)))?,
                    Err(error) => return Err(error.below(alloc, Step::Item(number))),
                }
            }
            Ok(Selectors { items })
        }
    }
}

// What has no forms.
fn read_leaf(alloc: Global, tables: &Tables, which: Leaf, value: &Value) -> Result<Arg, JsonError>
    ensures { IsReading (leaf_of (declared tables.now) which) (leaf_form (names_of (declared tables.now)) which) (view value.now) result arg_view }
{
    match which {
        Leaf::Name => boxed!(alloc, read_text(alloc, value), Arg::Name),
        Leaf::Literal(how) => boxed!(alloc, read_written(alloc, how, value), Arg::Literal),
        Leaf::Dtype => boxed!(alloc, read_type(alloc, value), Arg::Dtype),
        Leaf::Table => match read_table_name(alloc, tables, value) {
            Ok((number, schema)) => Ok(Arg::Table(number, schema)),
            Err(error) => Err(error),
        },
        Leaf::Columns => boxed!(alloc, read_columns(alloc, value), Arg::Columns),
        Leaf::Excluded => boxed!(alloc, read_excluded(alloc, value), Arg::Excluded),
        Leaf::Function => boxed!(alloc, read_function(alloc, value), Arg::Function),
        Leaf::OptionalName => boxed!(alloc, read_optional_text(alloc, value), Arg::OptionalName),
        Leaf::Small(which) => match read_small(alloc, which, value) {
            Ok(arg) => Ok(arg),
            Err(error) => Err(error),
        },
    }
}

// What has no forms and needs no box.
fn read_small(alloc: Global, which: SmallLeaf, value: &Value) -> Result<Arg, JsonError>
    ensures { IsReading (small_of which) (small_form which) (view value.now) result arg_view }
{
    match which {
        SmallLeaf::Operator => plain!(read_operator(alloc, value), Arg::Operator),
        SmallLeaf::Method => plain!(read_method(alloc, value), Arg::Method),
        SmallLeaf::Mode => plain!(read_mode(alloc, value), Arg::Mode),
        SmallLeaf::Nothing => match read_nothing(alloc, value) {
            Ok(()) => Ok(Arg::Nothing),
            Err(error) => Err(error),
        },
        SmallLeaf::Flag => plain!(read_flag(alloc, value), Arg::Flag),
        SmallLeaf::Index => plain!(read_index(alloc, value), Arg::Index),
        SmallLeaf::Natural => plain!(read_natural(alloc, value), Arg::Natural),
        SmallLeaf::OptionalNatural => {
            plain!(read_optional_natural(alloc, value), Arg::OptionalNatural)
        }
        SmallLeaf::Keep => plain!(read_keep(alloc, value), Arg::Keep),
        SmallLeaf::Statistic => plain!(read_statistic(alloc, value), Arg::Statistic),
    }
}

// Null.
fn read_nothing(alloc: Global, value: &Value) -> Result<(), JsonError>
    ensures { IsReading nothing_of nothing_form (view value.now) result (λ _. nothing_read) }
{
    match value.as_null() {
        None => Err(JsonError::shape(alloc, value)),
        Some(()) => Ok(()),
    }
}

// The number and the columns of the table of that name.
#[inline(never)]
fn read_table_name(
    alloc: Global,
    tables: &Tables,
    value: &Value,
) -> Result<(u32, Box<Schema>), JsonError>
    ensures { IsReading (λ d. option_and_then (table_at (declared tables.now)) (text_of d)) (a_scan (names_of (declared tables.now))) (view value.now) result (λ table. (table.0, columns table.1.value)) }
{
    match read_text(alloc, value) {
        Err(error) => Err(error),
        Ok(name) => match tables.find(&name) {
            None => Err(JsonError::name(alloc)),
            Some((number, schema)) => match schema.try_clone(alloc) {
                Ok(schema) => {
                    let schema = Box::new(alloc, schema)?;
                    Ok((number, schema))
                }
                Err(error) => Err(JsonError::out_of_memory(error)),
            },
        },
    }
}

// What a key says of what was read of its value.
fn assemble(alloc: Global, key: Key, args: Args) -> Result<Arg, JsonError>
    requires { AllFit (asked_in (asks key)) (args_view args) }
    ensures ok { IfOk result (λ arg. says key (args_view args) ≡ Some (arg_view arg)) }
    ensures err { IfErr result (λ error. error ≡ JsonError.NoMemory) }
{
    match key {
        Key::Expression(key) => {
            let expr = assemble_expression(alloc, key, args)?;
            let expr = Box::new(alloc, expr)?;
            Ok(Arg::Expression(expr))
        }
        Key::Selector(key) => {
            let selector = Box::new(alloc, assemble_selector(key, args))?;
            Ok(Arg::Selector(selector))
        }
        Key::Plan(key) => {
            let plan = assemble_plan(alloc, key, args)?;
            let plan = Box::new(alloc, plan)?;
            Ok(Arg::Plan(plan))
        }
    }
}
