//! Expressions, from what was read of a key's value: one function for each key of more than one item.
ghost use Rattle.std.specs.Prelude.{◌≡◌, [], ◌∷◌, Some, IfOk, IfErr};
ghost use Rattle.plan_dsl.specs.Expressions.{function_source, tree_of};
ghost use Rattle.plan_dsl.specs.Trees.{more, no_more, node};
ghost use Rattle.plan_json.specs.Arguments.{arg_view, args_view};
ghost use Rattle.plan_json.specs.Forms.{AllFit, Fits, asked_in, expression_asks, expression_says, leaf, many, marker_asks, marker_says};
ghost use Rattle.plan_json.specs.declared.forms.ExpressionKey.TheVariants as of;
ghost use Rattle.plan_json.specs.declared.forms.Leaf.TheVariants as leaves;
ghost use Rattle.plan_json.specs.declared.forms.MarkerKey.TheVariants as marks;
ghost use Rattle.plan_json.specs.declared.forms.SmallLeaf.TheVariants as smalls;

use super::arguments::{
    Arg, Args, dtype, excluded, expression, expressions, flag, flags, four, function, index,
    literal, method, mode, name, nothing, one, operator, order, selector, three, two,
};
use super::error::JsonError;
use super::forms::{ExpressionKey, MarkerKey, NamedKey};
use plan_dsl::aggregate::AggExpr;
use plan_dsl::expr::{Expr, Exprs};
use plan_dsl::function_expr::FunctionExpr;
use plan_dsl::marker::RenameAliasFn;
use plan_dsl::sort_options::{SortMultipleOptions, SortOptions};
use plan_dsl::window::WindowType;
use std::alloc::Global;

// The expression of that key. Of columns and operators none is asked for: they are read without arguments.
pub(crate) fn assemble_expression(
    alloc: Global,
    key: ExpressionKey,
    args: Args,
) -> Result<Expr, JsonError>
    requires { AllFit (asked_in (expression_asks key)) (args_view args) }
    ensures ok { IfOk result (λ expr. expression_says key (args_view args) ≡ Some (tree_of expr)) }
    ensures err { IfErr result (λ error. error ≡ JsonError.NoMemory) }
{
    match key {
        ExpressionKey::Col => Ok(Expr::Column(name(one(args)))),
        ExpressionKey::Literal(_) => Ok(Expr::Literal(literal(one(args)))),
        ExpressionKey::Bin => Ok(bin(args)),
        ExpressionKey::Cast => Ok(cast(args)),
        ExpressionKey::Len => {
            nothing(one(args));
            Ok(Expr::Len)
        }
        ExpressionKey::Slice => Ok(slice(args)),
        ExpressionKey::Explode => Ok(Expr::Explode(expression(one(args)))),
        ExpressionKey::Gather => Ok(gather(args)),
        ExpressionKey::Filter => Ok(filter(args)),
        ExpressionKey::Sort => Ok(sort(args)),
        ExpressionKey::SortBy => Ok(sort_by(args)),
        ExpressionKey::Agg => Ok(agg(args)),
        ExpressionKey::Over => Ok(over(args)),
        ExpressionKey::If => Ok(ternary(args)),
        ExpressionKey::Fn => Ok(apply(args)),
        ExpressionKey::Field => field(alloc, args),
        ExpressionKey::FieldAt => field_at(alloc, args),
        ExpressionKey::KeepName => Ok(Expr::KeepName(expression(one(args)))),
        ExpressionKey::Named(key) => Ok(named(key, args)),
        ExpressionKey::Marker(key) => Ok(marker(key, args)),
    }
}

fn bin(args: Args) -> Expr
    requires { AllFit (asked_in (expression_asks of.Bin)) (args_view args) }
    ensures { expression_says of.Bin (args_view args) ≡ Some (tree_of result) }
{
    let (op, left, right) = three(args);
    Expr::BinaryExpr {
        left: expression(left),
        op: operator(op),
        right: expression(right),
    }
}

fn cast(args: Args) -> Expr
    requires { AllFit (asked_in (expression_asks of.Cast)) (args_view args) }
    ensures { expression_says of.Cast (args_view args) ≡ Some (tree_of result) }
{
    let (operand, target, options) = three(args);
    Expr::Cast {
        expr: expression(operand),
        dtype: dtype(target),
        options: mode(options),
    }
}

fn slice(args: Args) -> Expr
    requires { AllFit (asked_in (expression_asks of.Slice)) (args_view args) }
    ensures { expression_says of.Slice (args_view args) ≡ Some (tree_of result) }
{
    let (input, offset, length) = three(args);
    Expr::Slice {
        input: expression(input),
        offset: expression(offset),
        length: expression(length),
    }
}

fn gather(args: Args) -> Expr
    requires { AllFit (asked_in (expression_asks of.Gather)) (args_view args) }
    ensures { expression_says of.Gather (args_view args) ≡ Some (tree_of result) }
{
    let (input, index, scalar) = three(args);
    Expr::Gather {
        expr: expression(input),
        idx: expression(index),
        returns_scalar: flag(scalar),
    }
}

fn filter(args: Args) -> Expr
    requires { AllFit (asked_in (expression_asks of.Filter)) (args_view args) }
    ensures { expression_says of.Filter (args_view args) ≡ Some (tree_of result) }
{
    let (input, by) = two(args);
    Expr::Filter {
        input: expression(input),
        by: expression(by),
    }
}

fn sort(args: Args) -> Expr
    requires { AllFit (asked_in (expression_asks of.Sort)) (args_view args) }
    ensures { expression_says of.Sort (args_view args) ≡ Some (tree_of result) }
{
    let (input, descending, nulls_last) = three(args);
    Expr::Sort {
        expr: expression(input),
        options: SortOptions {
            descending: flag(descending),
            nulls_last: flag(nulls_last),
        },
    }
}

fn sort_by(args: Args) -> Expr
    requires { AllFit (asked_in (expression_asks of.SortBy)) (args_view args) }
    ensures { expression_says of.SortBy (args_view args) ≡ Some (tree_of result) }
{
    let (input, keys, descending, nulls_last) = four(args);
    Expr::SortBy {
        expr: expression(input),
        by: expressions(keys),
        sort_options: SortMultipleOptions {
            descending: flags(descending),
            nulls_last: flags(nulls_last),
        },
    }
}

fn agg(args: Args) -> Expr
    requires { AllFit (asked_in (expression_asks of.Agg)) (args_view args) }
    ensures { expression_says of.Agg (args_view args) ≡ Some (tree_of result) }
{
    let (made, input) = two(args);
    Expr::Agg(AggExpr::of(method(made), expression(input)))
}

fn over(args: Args) -> Expr
    requires { AllFit (asked_in (expression_asks of.Over)) (args_view args) }
    ensures { expression_says of.Over (args_view args) ≡ Some (tree_of result) }
{
    let (function, keys, by) = three(args);
    Expr::Window {
        function: expression(function),
        partition_by: expressions(keys),
        order_by: order(by),
        options: WindowType::GroupsToRows,
    }
}

fn ternary(args: Args) -> Expr
    requires { AllFit (asked_in (expression_asks of.If)) (args_view args) }
    ensures { expression_says of.If (args_view args) ≡ Some (tree_of result) }
{
    let (predicate, truthy, falsy) = three(args);
    Expr::Ternary {
        predicate: expression(predicate),
        truthy: expression(truthy),
        falsy: expression(falsy),
    }
}

// A function of expressions.
fn apply(args: Args) -> Expr
    requires { AllFit (asked_in (expression_asks of.Fn)) (args_view args) }
    ensures { expression_says of.Fn (args_view args) ≡ Some (tree_of result) }
{
    let (applied, input) = two(args);
    Expr::Function {
        input: expressions(input),
        function: function(applied),
    }
}

// A field of a struct.
fn field(alloc: Global, args: Args) -> Result<Expr, JsonError>
    requires { AllFit (asked_in (expression_asks of.Field)) (args_view args) }
    ensures ok { IfOk result (λ expr. expression_says of.Field (args_view args) ≡ Some (tree_of expr)) }
    ensures err { IfErr result (λ error. error ≡ JsonError.NoMemory) }
{
    let (input, text) = two(args);
    let expr = over_one(
        alloc,
        expression(input),
        FunctionExpr::FieldByName(name(text)),
    )?;
    Ok(expr)
}

// The field of a struct at a place.
fn field_at(alloc: Global, args: Args) -> Result<Expr, JsonError>
    requires { AllFit (asked_in (expression_asks of.FieldAt)) (args_view args) }
    ensures ok { IfOk result (λ expr. expression_says of.FieldAt (args_view args) ≡ Some (tree_of expr)) }
    ensures err { IfErr result (λ error. error ≡ JsonError.NoMemory) }
{
    let (input, place) = two(args);
    let expr = over_one(
        alloc,
        expression(input),
        FunctionExpr::FieldByIndex(index(place)),
    )?;
    Ok(expr)
}

// A function over one expression.
fn over_one(alloc: Global, input: Box<Expr>, function: FunctionExpr) -> Result<Expr, JsonError>
    ensures ok { IfOk result (λ expr. tree_of expr ≡ node (function_source function) (more (tree_of input.value) no_more)) }
    ensures err { IfErr result (λ error. error ≡ JsonError.NoMemory) }
{
    let mut items = Vec::with_capacity(alloc, 1)?;
    items.push(Box::into_inner(input))?;
    Ok(Expr::Function {
        input: Exprs { items },
        function,
    })
}

// An expression and a name.
fn named(key: NamedKey, args: Args) -> Expr
    requires { AllFit (asked_in (expression_asks (of.Named key))) (args_view args) }
    ensures { expression_says (of.Named key) (args_view args) ≡ Some (tree_of result) }
{
    let (operand, text) = two(args);
    let (expr, text) = (expression(operand), name(text));
    match key {
        NamedKey::Alias => Expr::Alias(expr, text),
        NamedKey::Prefix => Expr::RenameAlias {
            function: RenameAliasFn::Prefix(text),
            expr,
        },
        NamedKey::Suffix => Expr::RenameAlias {
            function: RenameAliasFn::Suffix(text),
            expr,
        },
        NamedKey::Fixed => Expr::RenameAlias {
            function: RenameAliasFn::Fixed(text),
            expr,
        },
    }
}

// The marker of that key.
fn marker(key: MarkerKey, args: Args) -> Expr
    requires { AllFit (asked_in (marker_asks key)) (args_view args) }
    ensures { marker_says key (args_view args) ≡ Some (tree_of result) }
{
    match key {
        MarkerKey::Cols => cols(one(args)),
        MarkerKey::Dtypes => dtype_columns(one(args)),
        MarkerKey::At => at(one(args)),
        MarkerKey::Nth => Expr::Nth(index(one(args))),
        MarkerKey::All => {
            nothing(one(args));
            Expr::Wildcard
        }
        MarkerKey::Exclude => exclude(args),
        MarkerKey::Selector => Expr::Selector(Box::into_inner(selector(one(args)))),
    }
}

// Columns by their names.
#[tactic(auto, using(crate::proofs::FormLemmas::names_read))]
fn cols(arg: Arg) -> Expr
    requires { Fits (many (leaf leaves.Name)) (arg_view arg) }
    ensures { marker_says marks.Cols (arg_view arg ∷ []) ≡ Some (tree_of result) }
{
    match arg {
        Arg::Names(names) => Expr::Columns(Box::into_inner(names)),
        _ => unreachable!(),
    }
}

// Columns by their types.
#[tactic(auto, using(crate::proofs::FormLemmas::types_read))]
fn dtype_columns(arg: Arg) -> Expr
    requires { Fits (many (leaf leaves.Dtype)) (arg_view arg) }
    ensures { marker_says marks.Dtypes (arg_view arg ∷ []) ≡ Some (tree_of result) }
{
    match arg {
        Arg::Dtypes(dtypes) => Expr::DtypeColumn(Box::into_inner(dtypes)),
        _ => unreachable!(),
    }
}

// Columns by their places.
#[tactic(auto, using(crate::proofs::FormLemmas::indexes_read))]
fn at(arg: Arg) -> Expr
    requires { Fits (many (leaf (leaves.Small smalls.Index))) (arg_view arg) }
    ensures { marker_says marks.At (arg_view arg ∷ []) ≡ Some (tree_of result) }
{
    match arg {
        Arg::Indexes(indexes) => Expr::IndexColumn(Box::into_inner(indexes)),
        _ => unreachable!(),
    }
}

#[tactic(auto, using(crate::proofs::FormLemmas::all_excluded_read))]
fn exclude(args: Args) -> Expr
    requires { AllFit (asked_in (marker_asks marks.Exclude)) (args_view args) }
    ensures { marker_says marks.Exclude (args_view args) ≡ Some (tree_of result) }
{
    let (marker, left_out) = two(args);
    Expr::Exclude(expression(marker), excluded(left_out))
}
