//! Expressions over the columns of a frame.
ghost use Rattle.std.specs.Prelude.{◌≡◌, ◌&&◌, true, false, IfOk, IfErr};
ghost use Rattle.std.specs.List.{fold, list_all};
ghost use Rattle.plan_dsl.specs.Trees.{children_from, top_op};
ghost use Rattle.plan_dsl.specs.Expressions.{order_trees, tree_of, trees_of, way_of};
ghost use Rattle.plan_dsl.specs.Copies.{has_several, put};
ghost use Rattle.plan_dsl.specs.Expansion.{with_column_put};
ghost use Rattle.plan_dsl.specs.SameExpressions.{operator_rank, options_rank, order_writes, same_order, same_trees, trees_writes};
ghost use Rattle.plan_dsl.specs.Sources.{is_plain, same_source, same_source_op, source_op_writes, source_writes};
ghost use Rattle.plan_types.specs.Errors.{no_memory};

use crate::aggregate::{AggExpr, method_rank};
use crate::copies::{copied, exprs_copied};
use crate::function_expr::FunctionExpr;
use crate::literal::LiteralValue;
use crate::marker::{Excluded, RenameAliasFn};
use crate::operator::Operator;
use crate::selector::Selector;
use crate::sort_options::{SortMultipleOptions, SortOptions};
use crate::window::WindowType;
use plan_types::dtype::{CastOptions, DataType};
use plan_types::error::PlanError;
use plan_types::text::PlSmallStr;
use std::alloc::Global;
use std::hash::{Hash, Hasher};

/// The expressions of a node, in order.
#[derive(Drop)]
#[cycle(expr)]
pub struct Exprs {
    pub items: Vec<Expr>,
}

impl Exprs {
    pub fn try_clone(&self, alloc: Global) -> Result<Exprs, PlanError>
        ensures ok { IfOk result (λ copy. trees_of copy ≡ trees_of self.now) }
        ensures err { IfErr result (λ error. error ≡ no_memory) }
    {
        let copy = exprs_copied(self, None, alloc)?;
        Ok(copy)
    }

    // Whether none has a marker, a renaming form or a field at a place.
    #[cycle(plain_exprs)]
    fn are_plain(&self) -> bool
        ensures { result ≡ list_all is_plain (trees_of self.now) }
    {
        for expr in self.items.as_slice() {
            if !expr.is_plain() {
                return false;
            }
        }
        true
    }

    // Whether both have the same expressions, in the same order.
    #[cycle(same_exprs)]
    fn is_same(&self, other: &Exprs) -> bool
        ensures { result ≡ same_trees same_source_op (children_from (trees_of self.now)) (children_from (trees_of other.now)) }
    {
        let (left, right) = (self.items.as_slice(), other.items.as_slice());
        if left.len() != right.len() {
            return false;
        }
        for index in 0..left.len() {
            if !left[index].is_same(&right[index]) {
                return false;
            }
        }
        true
    }

    // Feeds each expression to the hasher, in order.
    #[cycle(expr_hashes)]
    fn feed<H: Hasher>(&self, state: &mut H)
        ensures { state.new ≡ fold H.write state.old (trees_writes source_op_writes (children_from (trees_of self.now))) }
    {
        for expr in self.items.as_slice() {
            expr.feed(state);
        }
    }
}

/// An expression. Contracts see its tree. Two expressions are equal where these are, and each node is hashed.
#[derive(Drop)]
#[cycle(expr)]
pub enum Expr {
    /// The column of that name.
    Column(PlSmallStr),
    /// A value.
    Literal(LiteralValue),
    /// An operator between two expressions.
    BinaryExpr {
        left: Box<Expr>,
        op: Operator,
        right: Box<Expr>,
    },
    /// A cast to another type.
    Cast {
        expr: Box<Expr>,
        dtype: DataType,
        options: CastOptions,
    },
    /// How many rows there are.
    Len,
    /// So many values from a place on.
    Slice {
        input: Box<Expr>,
        /// A number below 0 counts from the end.
        offset: Box<Expr>,
        length: Box<Expr>,
    },
    /// The values of each list, and a null in place of none. Values of other types stay.
    Explode(Box<Expr>),
    /// The value at each index.
    Gather {
        expr: Box<Expr>,
        /// A number below 0 counts from the end.
        idx: Box<Expr>,
        /// Whether there is one index, and so one value.
        returns_scalar: bool,
    },
    /// The values beside which the other expression is true.
    Filter {
        input: Box<Expr>,
        by: Box<Expr>,
    },
    /// The values in order. Those that are the same stay in order.
    Sort {
        expr: Box<Expr>,
        options: SortOptions,
    },
    /// The values in the order of the keys beside them, of which the first that differ decide. Those of the same keys
    /// stay in order.
    SortBy {
        expr: Box<Expr>,
        by: Exprs,
        sort_options: SortMultipleOptions,
    },
    /// An expression under another name.
    Alias(Box<Expr>, PlSmallStr),
    /// One value that is made of an expression's.
    Agg(AggExpr),
    /// The values of a function that is asked on each group of rows, of which the keys are the same.
    Window {
        function: Box<Expr>,
        partition_by: Exprs,
        /// The values by which the rows of a group are put in order, and how.
        order_by: Option<(Box<Expr>, SortOptions)>,
        options: WindowType,
    },
    /// The truthy values where the predicate is true, and the falsy ones elsewhere.
    Ternary {
        predicate: Box<Expr>,
        truthy: Box<Expr>,
        falsy: Box<Expr>,
    },
    /// A function of the values of expressions.
    Function {
        input: Exprs,
        function: FunctionExpr,
    },
    /// A marker: the columns of these names, whether they stand or not.
    Columns(Vec<PlSmallStr>),
    /// A marker: the columns of one of these types.
    DtypeColumn(Vec<DataType>),
    /// A marker: the columns at these places. A number below 0 counts from the end.
    IndexColumn(Vec<i64>),
    /// A marker: the column at that place. A number below 0 counts from the end.
    Nth(i64),
    /// A marker: all columns.
    Wildcard,
    /// A marker: the columns of another marker but some.
    Exclude(Box<Expr>, Vec<Excluded>),
    /// A marker: the columns that the selector names.
    Selector(Selector),
    /// An expression under the name of its first column.
    KeepName(Box<Expr>),
    /// An expression under a name made of that of its first column.
    RenameAlias {
        function: RenameAliasFn,
        expr: Box<Expr>,
    },
}

// Whether two expressions are one tree, by their kind: of those that are listed the operands and the other fields, each
// with a name for that of the other expression.
macro_rules! compared {
    ($expr:expr, $other:expr, $($kind:ident { $($input:ident $own:ident),* } [$($field:ident $own_field:ident),*])*) => {
        match ($expr, $other) {
            (Expr::Column(name), Expr::Column(own)) => *name == *own,
            (Expr::Literal(value), Expr::Literal(own)) => value.is_same(own),
            (Expr::Len, Expr::Len) | (Expr::Wildcard, Expr::Wildcard) => true,
            $((
                Expr::$kind { $($input,)* $($field),* },
                Expr::$kind { $($input: $own,)* $($field: $own_field),* },
            ) => $(*$field == *$own_field &&)* $($input.is_same($own))&&*,)*
            (Expr::Explode(input), Expr::Explode(own)) => input.is_same(own),
            (Expr::Alias(expr, name), Expr::Alias(own, own_name)) => *name == *own_name && expr.is_same(own),
            (Expr::Columns(names), Expr::Columns(own)) => *names == *own,
            (Expr::DtypeColumn(types), Expr::DtypeColumn(own)) => *types == *own,
            (Expr::IndexColumn(places), Expr::IndexColumn(own)) => *places == *own,
            (Expr::Nth(place), Expr::Nth(own)) => *place == *own,
            (Expr::Exclude(marker, excluded), Expr::Exclude(own, own_excluded)) => {
                *excluded == *own_excluded && marker.is_same(own)
            }
            (Expr::Selector(selector), Expr::Selector(own)) => selector.is_same(own),
            (Expr::KeepName(expr), Expr::KeepName(own)) => expr.is_same(own),
            (Expr::Agg(aggregate), Expr::Agg(own)) => aggregate.is_same(own),
            (
                Expr::Window { function, partition_by, order_by, .. },
                Expr::Window { function: own, partition_by: own_keys, order_by: own_order, .. },
            ) => is_same_order(order_by, own_order) && function.is_same(own) && partition_by.is_same(own_keys),
            (
                Expr::Ternary { predicate, truthy, falsy },
                Expr::Ternary { predicate: own, truthy: own_truthy, falsy: own_falsy },
            ) => truthy.is_same(own_truthy) && predicate.is_same(own) && falsy.is_same(own_falsy),
            (Expr::Function { input, function }, Expr::Function { input: own, function: own_function }) => {
                *function == *own_function && input.is_same(own)
            }
            _ => false,
        }
    };
}

// Feeds what a node does to the hasher, by its kind: of those that are listed a number of their own, and fields. What is
// fed of others is given.
macro_rules! fed_own {
    (
        $expr:expr, $state:expr, [$($own:pat => $feed:expr),*],
        $($kind:pat => $number:literal [$($field:ident),*])*
    ) => {
        match $expr {
            $($own => $feed,)*
            $($kind => {
                $state.write_u8($number);
                $($field.hash($state);)*
            })*
        }
    };
}

// Feeds the operands to the hasher, by the kind: of those that are listed in that order.
macro_rules! feed_operands {
    ($expr:expr, $state:expr, $($kind:ident { $($input:ident),* })*) => {
        match $expr {
            Expr::Column(_)
            | Expr::Literal(_)
            | Expr::Len
            | Expr::Columns(_)
            | Expr::DtypeColumn(_)
            | Expr::IndexColumn(_)
            | Expr::Nth(_)
            | Expr::Wildcard => {}
            $(Expr::$kind { $($input,)* .. } => {
                $($input.feed($state);)*
            })*
            Expr::Explode(input) => input.feed($state),
            Expr::Alias(expr, _) => expr.feed($state),
            Expr::Exclude(marker, _) => marker.feed($state),
            Expr::Selector(selector) => selector.feed($state),
            Expr::KeepName(expr) => expr.feed($state),
            Expr::Agg(aggregate) => aggregate.as_ref().feed($state),
            Expr::Window { function, partition_by, order_by, .. } => {
                function.feed($state);
                feed_order(order_by, $state);
                partition_by.feed($state);
            }
            Expr::Function { input, .. } => input.feed($state),
        }
    };
}

impl Expr {
    pub fn try_clone(&self, alloc: Global) -> Result<Expr, PlanError>
        ensures ok { IfOk result (λ copy. tree_of copy ≡ tree_of self.now) }
        ensures err { IfErr result (λ error. error ≡ no_memory) }
    {
        let copy = copied(self, None, alloc)?;
        Ok(copy)
    }

    /// Whether it is over two operands or three.
    pub fn has_several(&self) -> bool
        ensures { result ≡ has_several (top_op (tree_of self.now)) }
    {
        matches!(
            self,
            Expr::BinaryExpr { .. }
                | Expr::Slice { .. }
                | Expr::Gather { .. }
                | Expr::Filter { .. }
                | Expr::Ternary { .. }
        )
    }

    /// A copy with the column of that name in place of all markers.
    pub fn with_column(&self, name: &PlSmallStr, alloc: Global) -> Result<Expr, PlanError>
        ensures ok { IfOk result (λ copy. tree_of copy ≡ with_column_put name.now (tree_of self.now)) }
        ensures err { IfErr result (λ error. error ≡ no_memory) }
    {
        let copy = copied(self, Some(name), alloc)?;
        Ok(copy)
    }

    /// Whether it has neither a marker, a renaming form nor a field at a place.
    #[cycle(plain_exprs)]
    pub fn is_plain(&self) -> bool
        ensures { result ≡ is_plain (tree_of self.now) }
    {
        match self {
            Expr::Column(_) | Expr::Literal(_) | Expr::Len => true,
            Expr::BinaryExpr { left, right, .. } => left.is_plain() && right.is_plain(),
            Expr::Cast { expr, .. } | Expr::Sort { expr, .. } => expr.is_plain(),
            Expr::Slice {
                input,
                offset,
                length,
            } => input.is_plain() && offset.is_plain() && length.is_plain(),
            Expr::Explode(input) => input.is_plain(),
            Expr::Gather { expr, idx, .. } => expr.is_plain() && idx.is_plain(),
            Expr::Filter { input, by } => input.is_plain() && by.is_plain(),
            Expr::SortBy { expr, by, .. } => expr.is_plain() && by.are_plain(),
            Expr::Alias(expr, _) => expr.is_plain(),
            Expr::Agg(aggregate) => aggregate.as_ref().is_plain(),
            Expr::Window {
                function,
                partition_by,
                order_by,
                ..
            } => { function.is_plain() && is_plain_order(order_by) && partition_by.are_plain() }
            Expr::Ternary {
                predicate,
                truthy,
                falsy,
            } => truthy.is_plain() && predicate.is_plain() && falsy.is_plain(),
            Expr::Function { input, function } => function.is_expanded() && input.are_plain(),
            Expr::Columns(_)
            | Expr::DtypeColumn(_)
            | Expr::IndexColumn(_)
            | Expr::Nth(_)
            | Expr::Wildcard
            | Expr::Exclude(_, _)
            | Expr::Selector(_)
            | Expr::KeepName(_)
            | Expr::RenameAlias { .. } => false,
        }
    }

    // Whether both are one tree: the same nodes in the same places.
    #[cycle(same_exprs)]
    pub(crate) fn is_same(&self, other: &Expr) -> bool
        ensures { result ≡ same_source (tree_of self.now) (tree_of other.now) }
    {
        compared!(self, other,
            BinaryExpr { left own_left, right own_right } [op own_op]
            Cast { expr own_expr } [dtype own_dtype, options own_options]
            Slice { input own_input, offset own_offset, length own_length } []
            Gather { expr own_expr, idx own_idx } [returns_scalar own_scalar]
            Filter { input own_input, by own_by } []
            Sort { expr own_expr } [options own_options]
            SortBy { expr own_expr, by own_by } [sort_options own_options]
            RenameAlias { expr own_expr } [function own_function]
        )
    }

    // Feeds each node to the hasher, before its operands.
    #[cycle(expr_hashes)]
    pub(crate) fn feed<H: Hasher>(&self, state: &mut H)
        ensures { state.new ≡ fold H.write state.old (source_writes (tree_of self.now)) }
    {
        self.feed_own(state);
        feed_operands!(self, state,
            BinaryExpr { left, right }
            Cast { expr }
            Slice { input, offset, length }
            Gather { expr, idx }
            Filter { input, by }
            Sort { expr }
            SortBy { expr, by }
            RenameAlias { expr }
            Ternary { truthy, predicate, falsy }
        )
    }

    // Feeds what the node does, without its operands.
    fn feed_own<H: Hasher>(&self, state: &mut H)
        ensures { state.new ≡ fold H.write state.old (source_op_writes (top_op (tree_of self.now))) }
    {
        fed_own!(self, state, [
                Expr::BinaryExpr { op, .. } => {
                    state.write_u8(2);
                    state.write_u8(operator_rank(*op));
                },
                Expr::Cast { dtype, options, .. } => {
                    state.write_u8(3);
                    dtype.hash(state);
                    state.write_u8(options_rank(*options));
                },
                Expr::RenameAlias { function, .. } => function.hash(state),
                Expr::Agg(aggregate) => {
                    state.write_u8(21);
                    state.write_u8(method_rank(aggregate.method()));
                },
                Expr::Window { order_by, .. } => {
                    state.write_u8(22);
                    feed_way(order_by, state);
                },
                Expr::Function { function, .. } => {
                    state.write_u8(24);
                    function.hash(state);
                }
            ],
            Expr::Column(name) => 0 [name]
            Expr::Literal(value) => 1 [value]
            Expr::Len => 4 []
            Expr::Slice { .. } => 5 []
            Expr::Explode(_) => 6 []
            Expr::Gather { returns_scalar, .. } => 7 [returns_scalar]
            Expr::Filter { .. } => 8 []
            Expr::Sort { options, .. } => 9 [options]
            Expr::Alias(_, name) => 10 [name]
            Expr::SortBy { sort_options, .. } => 11 [sort_options]
            Expr::Columns(names) => 12 [names]
            Expr::DtypeColumn(types) => 13 [types]
            Expr::IndexColumn(places) => 14 [places]
            Expr::Wildcard => 15 []
            Expr::Exclude(_, excluded) => 16 [excluded]
            Expr::KeepName(_) => 17 []
            Expr::Nth(place) => 18 [place]
            Expr::Selector(_) => 20 []
            Expr::Ternary { .. } => 23 []
        )
    }
}

// Whether what orders the groups of a window, if anything does, has neither a marker nor a renaming form.
#[cycle(plain_exprs)]
fn is_plain_order(order: &Option<(Box<Expr>, SortOptions)>) -> bool
    ensures { result ≡ list_all is_plain (order_trees order.now) }
{
    match order {
        None => true,
        Some((expr, _)) => expr.is_plain(),
    }
}

// Whether groups are put in order by the same and in the same way, or neither are.
#[cycle(same_exprs)]
fn is_same_order(
    order: &Option<(Box<Expr>, SortOptions)>,
    other: &Option<(Box<Expr>, SortOptions)>,
) -> bool
    ensures { result ≡ (same_order (way_of order.now) (way_of other.now) && same_trees same_source_op (children_from (order_trees order.now)) (children_from (order_trees other.now))) }
{
    match (order, other) {
        (None, None) => true,
        (Some((expr, options)), Some((own, own_options))) => *options == *own_options
            && expr.is_same(own),
        _ => false,
    }
}

// Feeds the expression by which groups are put in order to the hasher, if there is one.
#[cycle(expr_hashes)]
fn feed_order<H: Hasher>(order: &Option<(Box<Expr>, SortOptions)>, state: &mut H)
    ensures { state.new ≡ fold H.write state.old (trees_writes source_op_writes (children_from (order_trees order.now))) }
{
    match order {
        None => {}
        Some((expr, _)) => expr.feed(state),
    }
}

// Feeds whether groups are put in order, and how.
fn feed_way<H: Hasher>(order: &Option<(Box<Expr>, SortOptions)>, state: &mut H)
    ensures { state.new ≡ fold H.write state.old (order_writes (way_of order.now)) }
{
    match order {
        None => state.write_u8(0),
        Some((_, options)) => {
            state.write_u8(1);
            options.hash(state);
        }
    }
}

// An operator's number: no two have the same.
fn operator_rank(operator: Operator) -> u8
    ensures { result ≡ operator_rank operator }
{
    operator as u8
}

// The number of a way to cast.
fn options_rank(options: CastOptions) -> u8
    ensures { result ≡ options_rank options }
{
    options as u8
}

impl PartialEq for Expr {
    ghost use Rattle.std.specs.Cmp.{partial_equiv_from_equiv};
    ghost use Rattle.plan_dsl.specs.Expressions.{tree_of};
    ghost use Rattle.plan_dsl.specs.Sources.{same_source};
    ghost use Rattle.plan_dsl.specs.ViewLaws.{same_expression_is_equivalence};

    ghost eq = { λ a b. same_source (tree_of a) (tree_of b) };

    ghost laws = { partial_equiv_from_equiv same_expression_is_equivalence };

    fn eq(&self, other: &Expr) -> bool {
        self.is_same(other)
    }
}

impl Eq for Expr {
    ghost use Rattle.plan_dsl.specs.ViewLaws.{same_expression_is_equivalence};

    ghost laws = { same_expression_is_equivalence };
}

impl Hash for Expr {
    ghost use Rattle.plan_dsl.specs.Expressions.{tree_of};
    ghost use Rattle.plan_dsl.specs.Sources.{source_writes};
    ghost use Rattle.plan_dsl.specs.ViewLaws.{same_expression_hash};

    ghost hash_input = { λ a. source_writes (tree_of a) };

    ghost respects_eq = { same_expression_hash };

    fn hash<H: Hasher>(&self, state: &mut H) {
        self.feed(state);
    }
}

impl Default for Expr {
    ghost use Rattle.std.specs.Prelude.{◌≡◌};
    ghost use Rattle.plan_types.specs.Types.{NullType};
    ghost use Rattle.plan_types.specs.Values.{NullValue};
    ghost use Rattle.plan_dsl.specs.Expressions.{tree_of};
    ghost use Rattle.plan_dsl.specs.Ops.{LiteralOp};
    ghost use Rattle.plan_dsl.specs.Sources.{Plain};
    ghost use Rattle.plan_dsl.specs.Trees.{node, no_more};

    ghost is_default = { λ expr. tree_of expr ≡ node (Plain (LiteralOp NullType NullValue)) no_more };

    /// The literal of no value.
    fn default() -> Self {
        Expr::Literal(LiteralValue::Null)
    }
}
