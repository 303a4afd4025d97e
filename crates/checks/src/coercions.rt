//! Coercion under a rule: what it leaves at the nodes that roots reach, at any depth and of any number of inputs.
//!
//! How many steps it takes is a clause of its contract, `bounded`, and isn't asked here.
ghost use Rattle.std.specs.Prelude.{◌≡◌, ◌<◌, [], length, map};
ghost use Rattle.std.specs.List.{AllByRecursion};
ghost use Rattle.plan_types.specs.Schemas.{Columns, columns};
ghost use Rattle.plan_dsl.specs.Registry.{Registry, registry};
ghost use Rattle.plan_arena.specs.Denotation.{DenotesTree};
ghost use Rattle.plan_arena.specs.Items.{HoldsExpression, named_node};
ghost use Rattle.plan_infer.specs.KeptTypes.{IsRight};
ghost use Rattle.plan_coerce.specs.Optimizer.{AreTrees, StaysFinite, roots_of};

use crate::expressions::{Kind, boxed, nested, plus};
use crate::fixtures::{NO_MEMORY, assert_number, assert_refused, column, numbered};
use crate::keys::flags;
use plan_arena::aexpr::{AExpr, Nodes};
use plan_arena::arena::{Arena, Node};
use plan_arena::expr_ir::{ExprIR, OutputName};
use plan_coerce::coercion_rule::TypeCoercionRule;
use plan_coerce::rule::OptimizationRule;
use plan_coerce::stack_opt::ConversionOptimizer;
use plan_coerce::type_check::TypeCheckRule;
use plan_coerce::uncounted::coerce_uncounted;
use plan_dsl::expr::{Expr, Exprs};
use plan_dsl::literal::LiteralValue;
use plan_dsl::sort_options::SortMultipleOptions;
use plan_dsl::udfs::Udfs;
use plan_infer::type_table::{Inferred, TypeTable};
use plan_lower::conversion::expr_to_ir::to_aexpr;
use plan_types::dtype::DataType;
use plan_types::error::{ErrorKind, PlanError};
use plan_types::schema::Schema;
use plan_types::text::PlSmallStr;
use std::alloc::Global;
use std::process::Abort;

/// What expressions are typed over.
#[derive(Drop)]
pub(crate) struct Scope {
    pub(crate) schema: Schema,
    pub(crate) udfs: Udfs,
}

// A frame of the columns a of Int8, b of Int32 and d of dates.
fn typing_scope(rt: &impl Abort, alloc: Global) -> Scope {
    let mut schema = Schema::new(alloc);
    for (name, dtype) in [
        ("a", DataType::Int8),
        ("b", DataType::Int32),
        ("d", DataType::Date),
    ] {
        let name = PlSmallStr::new(alloc, name).expect(rt, NO_MEMORY);
        schema.with_column(name, dtype).expect(rt, NO_MEMORY);
    }
    Scope {
        schema,
        udfs: Udfs::new(alloc),
    }
}

// The expression and the column of that name.
fn plus_column(rt: &impl Abort, alloc: Global, left: Expr, name: &str) -> Expr {
    let right = column(rt, alloc, name);
    plus(boxed(rt, alloc, left), boxed(rt, alloc, right))
}

// The column a and the one of that name.
fn a_plus(rt: &impl Abort, alloc: Global, name: &str) -> Expr {
    plus_column(rt, alloc, column(rt, alloc, "a"), name)
}

// So many sums, one over another: a and b, to which the column of that name is added so often.
fn chain(rt: &impl Abort, alloc: Global, sums: usize, name: &str) -> Expr {
    let mut sum = a_plus(rt, alloc, "b");
    for _ in 1..sums {
        sum = plus_column(rt, alloc, sum, name);
    }
    sum
}

/// The node of the expression, which is added.
pub(crate) fn added(rt: &impl Abort, expr: Expr, arena: &mut Arena<AExpr>) -> Node
    ensures tree { DenotesTree (HoldsExpression arena.new) result.0 }
    ensures finite { StaysFinite arena.old arena.new }
{
    to_aexpr(expr, arena).expect(rt, NO_MEMORY)
}

/// Stacks one more root.
pub(crate) fn push(
    rt: &impl Abort,
    optimizer: &mut ConversionOptimizer,
    root: Node,
    arena: &Arena<AExpr>,
)
    requires trees { AreTrees arena.now (roots_of optimizer.old) }
    requires tree { DenotesTree (HoldsExpression arena.now) root.0 }
    ensures trees { AreTrees arena.now (roots_of optimizer.new) }
{
    optimizer.push_scratch(root, arena).expect(rt, NO_MEMORY);
}

// The rule goes over what the stacked roots reach.
fn coerce<R: OptimizationRule>(
    rule: &R,
    optimizer: &mut ConversionOptimizer,
    arena: &mut Arena<AExpr>,
    scope: &Scope,
    types: &mut TypeTable,
) -> Result<(), PlanError>
    requires trees { AreTrees arena.old (roots_of optimizer.old) }
    requires right { IsRight (registry scope.now.udfs) (columns scope.now.schema) arena.old types.old }
    ensures idle { roots_of optimizer.new ≡ [] }
    ensures finite { StaysFinite arena.old arena.new }
    ensures right { IsRight (registry scope.now.udfs) (columns scope.now.schema) arena.new types.new }
{
    coerce_uncounted(optimizer, rule, arena, &scope.schema, &scope.udfs, types)
}

// How many nodes of some sorts a root reaches.
#[derive(Clone, Copy, Default)]
struct Tally {
    casts: usize,
    numbers: usize,
    loose: usize,
}

impl Tally {
    // Counts a node where it is a cast, or a number without a type.
    fn count(&mut self, item: &AExpr) {
        if matches!(item, AExpr::Cast { .. }) {
            self.casts = self.casts.saturating_add(1);
        }
        if matches!(item, AExpr::Literal(LiteralValue::Int(_))) {
            self.numbers = self.numbers.saturating_add(1);
        }
    }

    // Counts a node that takes operands to other types than they have.
    fn count_own(&mut self, own: &Inferred) {
        if !own.is_strict() {
            self.loose = self.loose.saturating_add(1);
        }
    }
}

// What is inferred of the node.
fn own_of<'a>(rt: &impl Abort, types: &'a TypeTable, node: Node) -> &'a Inferred {
    match types.kept(node) {
        Some(own) => own,
        None => panic!(rt; "it is typed"),
    }
}

// The inputs of the node.
fn inputs_at(rt: &impl Abort, arena: &Arena<AExpr>, node: Node) -> Nodes {
    assert!(rt; node.0 < arena.len());
    arena
        .get(node)
        .inputs(arena.allocator())
        .expect(rt, NO_MEMORY)
}

// Counts a node, and stacks its inputs.
fn visit(
    rt: &impl Abort,
    node: Node,
    arena: &Arena<AExpr>,
    types: &TypeTable,
    nodes: &mut Vec<Node>,
    tally: &mut Tally,
) {
    assert!(rt; node.0 < arena.len());
    tally.count(arena.get(node));
    tally.count_own(own_of(rt, types, node));
    let inputs = inputs_at(rt, arena, node);
    for index in 0..inputs.len() {
        nodes.push(inputs[index]).expect(rt, NO_MEMORY);
    }
    drop(inputs);
}

// What the root reaches.
fn tally_of(rt: &impl Abort, root: Node, arena: &Arena<AExpr>, types: &TypeTable) -> Tally {
    let mut tally = Tally::default();
    let mut nodes = vec![in arena.allocator(); root].expect(rt, NO_MEMORY);
    for _ in 0..arena.len() {
        match nodes.pop() {
            None => return tally,
            Some(node) => visit(rt, node, arena, types, &mut nodes, &mut tally),
        }
    }
    assert!(rt; nodes.is_empty());
    tally
}

/// A table that keeps nothing yet of the arena's nodes.
pub(crate) fn no_types(arena: &Arena<AExpr>) -> TypeTable
    ensures { (registry : Registry) (schema : Columns) → IsRight registry schema arena.now result }
{
    TypeTable::new(arena.allocator())
}

// A fresh table of what is inferred of what the root reaches. The root has that type.
fn typed(
    rt: &impl Abort,
    root: Node,
    arena: &Arena<AExpr>,
    scope: &Scope,
    dtype: &DataType,
) -> TypeTable
    requires { DenotesTree (HoldsExpression arena.now) root.0 }
    ensures { IsRight (registry scope.now.udfs) (columns scope.now.schema) arena.now result }
{
    let mut types = no_types(arena);
    let done = types.infer(root, &scope.schema, arena, &scope.udfs);
    done.expect(rt, "it has a type");
    assert!(rt; own_of(rt, &types, root).dtype == *dtype);
    types
}

// The root has that type, and reaches so many casts. Each node that it reaches has a type, and takes its operands as they
// are.
fn assert_strict(
    rt: &impl Abort,
    root: Node,
    arena: &Arena<AExpr>,
    scope: &Scope,
    casts: usize,
    dtype: &DataType,
)
    requires { DenotesTree (HoldsExpression arena.now) root.0 }
{
    let types = typed(rt, root, arena, scope, dtype);
    let found = tally_of(rt, root, arena, &types);
    drop(types);
    assert_number(rt, found.casts, casts);
    assert_number(rt, found.numbers, 0);
    assert_number(rt, found.loose, 0);
}

/// The rule goes over the root, which has that type. A use of the typing rule adds an entry for a node, so there are at most
/// as many as nodes.
pub(crate) fn coerce_root<R: OptimizationRule>(
    rt: &impl Abort,
    rule: &R,
    root: Node,
    arena: &mut Arena<AExpr>,
    scope: &Scope,
    dtype: &DataType,
)
    requires { DenotesTree (HoldsExpression arena.old) root.0 }
    ensures { StaysFinite arena.old arena.new }
{
    let mut types = typed(rt, root, arena, scope, dtype);
    let mut optimizer = ConversionOptimizer::new(arena.allocator());
    push(rt, &mut optimizer, root, arena);
    let done = coerce(rule, &mut optimizer, arena, scope, &mut types);
    done.expect(rt, NO_MEMORY);
    assert!(rt; types.len() <= arena.len());
    drop(types);
    drop(optimizer);
}

// The rule of coercion goes over the root, which is strict then, in an arena of so many nodes.
fn assert_round(
    rt: &impl Abort,
    root: Node,
    arena: &mut Arena<AExpr>,
    scope: &Scope,
    nodes: usize,
    casts: usize,
    dtype: &DataType,
)
    requires { DenotesTree (HoldsExpression arena.old) root.0 }
    ensures { StaysFinite arena.old arena.new }
{
    coerce_root(rt, &TypeCoercionRule, root, arena, scope, dtype);
    assert_number(rt, arena.len(), nodes);
    assert_strict(rt, root, arena, scope, casts, dtype);
}

// The check of predicates leaves the expression as it is. Coercion adds so many nodes, of which so many are casts, and a
// second time nothing changes.
fn assert_coerced(
    rt: &impl Abort,
    alloc: Global,
    expr: Expr,
    more: usize,
    casts: usize,
    dtype: &DataType,
) {
    let scope = typing_scope(rt, alloc);
    let mut arena = Arena::new(alloc);
    let root = added(rt, expr, &mut arena);
    let before = arena.len();
    coerce_root(rt, &TypeCheckRule, root, &mut arena, &scope, dtype);
    assert_number(rt, arena.len(), before);
    let nodes = before.saturating_add(more);
    assert_round(rt, root, &mut arena, &scope, nodes, casts, dtype);
    let inputs = inputs_at(rt, &arena, root);
    assert_round(rt, root, &mut arena, &scope, nodes, casts, dtype);
    assert!(rt; inputs_at(rt, &arena, root).as_slice() == inputs.as_slice());
    drop(inputs);
    drop(arena);
    drop(scope);
}

#[test]
fn numbers_beside_a_column_get_its_type(rt: HostRuntime) {
    for kind in [Kind::Left, Kind::Right] {
        for levels in [1, 2, 200] {
            let lowest = column(&rt, rt.alloc(), "a");
            let expr = nested(&rt, rt.alloc(), kind, levels, lowest);
            assert_coerced(&rt, rt.alloc(), expr, levels, 0, &DataType::Int8);
        }
    }
}

#[test]
fn an_operand_is_cast_once_at_each_of_many_sums(rt: HostRuntime) {
    for sums in [1, 2, 1_000] {
        let expr = chain(&rt, rt.alloc(), sums, "a");
        assert_coerced(&rt, rt.alloc(), expr, sums, sums, &DataType::Int32);
    }
}

#[test]
fn an_operand_is_cast_below_any_number_of_sums(rt: HostRuntime) {
    for sums in [1, 2, 2_000] {
        let expr = chain(&rt, rt.alloc(), sums, "b");
        assert_coerced(&rt, rt.alloc(), expr, 1, 1, &DataType::Int32);
    }
}

// The column a, sorted by so many copies of the key.
fn sorted_by(rt: &impl Abort, alloc: Global, key: &Expr, count: usize) -> Expr {
    let mut items = Vec::new(alloc);
    for _ in 0..count {
        let key = key.try_clone(alloc).expect(rt, NO_MEMORY);
        items.push(key).expect(rt, NO_MEMORY);
    }
    Expr::SortBy {
        expr: boxed(rt, alloc, column(rt, alloc, "a")),
        by: Exprs { items },
        sort_options: SortMultipleOptions {
            descending: flags(rt, alloc, count),
            nulls_last: flags(rt, alloc, count),
        },
    }
}

#[test]
fn nodes_of_any_number_of_inputs_are_coerced(rt: HostRuntime) {
    for (name, casts) in [("a", 0), ("b", 1)] {
        let key = a_plus(&rt, rt.alloc(), name);
        for count in [1, 2, 300] {
            let expr = sorted_by(&rt, rt.alloc(), &key, count);
            let more = casts * count;
            assert_coerced(&rt, rt.alloc(), expr, more, more, &DataType::Int8);
        }
        drop(key);
    }
}

// Both roots are coerced in one call, and once more by the same optimizer.
fn assert_both(rt: &impl Abort, alloc: Global, left: Expr, right: Expr) {
    let scope = typing_scope(rt, alloc);
    let mut arena = Arena::new(alloc);
    let first = added(rt, left, &mut arena);
    let second = added(rt, right, &mut arena);
    let mut types = no_types(&arena);
    let mut optimizer = ConversionOptimizer::new(alloc);
    for _ in 0..2 {
        push(rt, &mut optimizer, first, &arena);
        push(rt, &mut optimizer, second, &arena);
        let done = coerce(
            &TypeCoercionRule,
            &mut optimizer,
            &mut arena,
            &scope,
            &mut types,
        );
        done.expect(rt, NO_MEMORY);
        assert_strict(rt, first, &arena, &scope, 1, &DataType::Int32);
        assert_strict(rt, second, &arena, &scope, 2, &DataType::Int32);
    }
    assert_number(rt, arena.len(), 11);
    drop(arena);
    drop(scope);
    drop(types);
    drop(optimizer);
}

#[test]
fn two_roots_are_coerced_at_once(rt: HostRuntime) {
    let left = chain(&rt, rt.alloc(), 1, "a");
    let right = chain(&rt, rt.alloc(), 2, "a");
    assert_both(&rt, rt.alloc(), left, right);
}

// Beside a + b a root without a type is refused, in front of it or behind it. Then a + b has its type still, and the same
// optimizer puts in its cast.
fn assert_refused_beside(
    rt: &impl Abort,
    alloc: Global,
    name: &str,
    kind: ErrorKind,
    is_first: bool,
) {
    let scope = typing_scope(rt, alloc);
    let mut arena = Arena::new(alloc);
    let root = added(rt, a_plus(rt, alloc, "b"), &mut arena);
    let other = added(rt, a_plus(rt, alloc, name), &mut arena);
    let mut types = no_types(&arena);
    let mut optimizer = ConversionOptimizer::new(alloc);
    let (first, second) = if is_first {
        (root, other)
    } else {
        (other, root)
    };
    push(rt, &mut optimizer, first, &arena);
    push(rt, &mut optimizer, second, &arena);
    let answer = coerce(
        &TypeCoercionRule,
        &mut optimizer,
        &mut arena,
        &scope,
        &mut types,
    );
    assert_refused(rt, answer, kind);
    drop(typed(rt, root, &arena, &scope, &DataType::Int32));
    push(rt, &mut optimizer, root, &arena);
    let done = coerce(
        &TypeCoercionRule,
        &mut optimizer,
        &mut arena,
        &scope,
        &mut types,
    );
    done.expect(rt, NO_MEMORY);
    assert_strict(rt, root, &arena, &scope, 1, &DataType::Int32);
    drop(arena);
    drop(scope);
    drop(types);
    drop(optimizer);
}

#[test]
fn a_refusal_leaves_other_roots_typed(rt: HostRuntime) {
    for (name, kind) in [
        ("d", ErrorKind::InvalidOperation),
        ("missing", ErrorKind::ColumnNotFound),
    ] {
        assert_refused_beside(&rt, rt.alloc(), name, kind, true);
        assert_refused_beside(&rt, rt.alloc(), name, kind, false);
    }
}

// So many expressions at the node.
fn expressions_at(rt: &impl Abort, node: Node, arena: &Arena<AExpr>, count: usize) -> Vec<ExprIR>
    requires { node.0 < length arena.now }
    ensures { AllByRecursion (λ n. n < length arena.now) (map (λ e. (named_node e).expression) result.items) }
{
    let alloc = arena.allocator();
    let mut exprs = Vec::new(alloc);
    for number in 0..count {
        let name = OutputName::Alias(numbered(rt, alloc, number));
        exprs.push(ExprIR::new(node, name)).expect(rt, NO_MEMORY);
    }
    exprs
}

// So many expressions at the node are stacked, each with its inputs, and once more by the same optimizer.
fn stack_all(rt: &impl Abort, node: Node, arena: &Arena<AExpr>, count: usize) {
    assert!(rt; node.0 < arena.len());
    let exprs = expressions_at(rt, node, arena, count);
    let mut optimizer = ConversionOptimizer::new(arena.allocator());
    for _ in 0..2 {
        let done = optimizer.fill_scratch(exprs.as_slice(), arena);
        done.expect(rt, NO_MEMORY);
    }
    drop(exprs);
    drop(optimizer);
}

#[test]
fn any_number_of_expressions_is_stacked_with_its_inputs(rt: HostRuntime) {
    let mut arena = Arena::new(rt.alloc());
    let sum = added(&rt, a_plus(&rt, rt.alloc(), "b"), &mut arena);
    for count in &[0, 1, 2, 300] {
        stack_all(&rt, sum, &arena, *count);
    }
    drop(arena);
}

// Of three roots the second has no type: they are refused by its kind, whatever the rule.
fn assert_second_refused<R: OptimizationRule>(rt: &impl Abort, alloc: Global, rule: &R) {
    let scope = typing_scope(rt, alloc);
    let mut arena = Arena::new(alloc);
    let first = added(rt, a_plus(rt, alloc, "b"), &mut arena);
    let second = added(rt, a_plus(rt, alloc, "c"), &mut arena);
    let third = added(rt, a_plus(rt, alloc, "a"), &mut arena);
    let mut types = no_types(&arena);
    let mut optimizer = ConversionOptimizer::new(alloc);
    push(rt, &mut optimizer, first, &arena);
    push(rt, &mut optimizer, second, &arena);
    push(rt, &mut optimizer, third, &arena);
    let answer = coerce(rule, &mut optimizer, &mut arena, &scope, &mut types);
    assert_refused(rt, answer, ErrorKind::ColumnNotFound);
    drop(arena);
    drop(scope);
    drop(types);
    drop(optimizer);
}

#[test]
fn a_root_without_a_type_is_refused_by_any_rule(rt: HostRuntime) {
    assert_second_refused(&rt, rt.alloc(), &TypeCoercionRule);
    assert_second_refused(&rt, rt.alloc(), &TypeCheckRule);
}
