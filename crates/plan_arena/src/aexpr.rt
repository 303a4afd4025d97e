//! Expressions in an arena.
ghost use Rattle.std.specs.Prelude.{◌≡◌, ◌+◌, ◌≤◌, [], ◌∷◌, ◌++◌, length, map, reverse, IfOk, OnOk, OnErr, IfErr};
ghost use Rattle.plan_types.specs.Errors.{no_memory};
ghost use Rattle.plan_arena.specs.Aggregates.{input_at, method_at};
ghost use Rattle.plan_arena.specs.Layers.{layer, op_of, inputs_of};
ghost use Rattle.plan_arena.specs.Items.{expression_layer, numbers, numbers_named, ordered, ordering, passed, recorded};

use crate::aggregate::IRAggExpr;
use crate::arena::Node;
use crate::expr_ir::{ExprIR, ExprIRs};
use crate::inputs::{Inputs, NodeList};
use plan_dsl::function_expr::FunctionExpr;
use plan_dsl::literal::LiteralValue;
use plan_dsl::operator::Operator;
use plan_dsl::sort_options::{SortMultipleOptions, SortOptions};
use plan_dsl::window::WindowType;
use plan_types::dtype::{CastOptions, DataType};
use plan_types::error::PlanError;
use plan_types::text::PlSmallStr;
use smallvec::SmallVec;
use std::alloc::Global;

/// Numbers of nodes. Few of them need no allocation.
pub type Nodes = SmallVec<Node, 8>;

/// One node of an expression, which names its inputs by number. Contracts see it as a layer.
#[derive(Default, Drop)]
pub enum AExpr {
    /// The column of that name.
    Column(PlSmallStr),
    /// A value.
    Literal(LiteralValue),
    /// An operator between two nodes.
    BinaryExpr {
        left: Node,
        op: Operator,
        right: Node,
    },
    /// A cast of a node.
    Cast {
        expr: Node,
        dtype: DataType,
        options: CastOptions,
    },
    /// How many rows there are.
    #[default]
    Len,
    /// So many values of a node from a place on.
    Slice {
        input: Node,
        offset: Node,
        length: Node,
    },
    /// The values of each list, and a null in place of none. Values of other types stay.
    Explode(Node),
    /// The value at each index, or at the one index.
    Gather {
        expr: Node,
        idx: Node,
        returns_scalar: bool,
    },
    /// The values beside which the other node is true.
    Filter {
        input: Node,
        by: Node,
    },
    /// The values in order.
    Sort {
        expr: Node,
        options: SortOptions,
    },
    /// The values in the order of the keys beside them.
    SortBy {
        expr: Node,
        by: NodeList,
        sort_options: SortMultipleOptions,
    },
    /// A node under another name.
    Alias(Node, PlSmallStr),
    /// One value that is made of a node's.
    Agg(IRAggExpr),
    /// What the function gives on the rows of each group by the keys, which are in order if one is given.
    Window {
        function: Node,
        partition_by: NodeList,
        order_by: Option<(Node, SortOptions)>,
        options: WindowType,
    },
    /// The truthy values where the predicate is true, and the falsy ones elsewhere.
    Ternary {
        predicate: Node,
        truthy: Node,
        falsy: Node,
    },
    /// A function of the values of nodes, of which it keeps the names.
    Function {
        input: ExprIRs,
        function: FunctionExpr,
    },
}

// The inputs of each kind in order, the one from which the name comes first: what the functions give of none, one, two
// or three of them, or of one and a list, of the one of an aggregate, of those of a window, and of those with names.
macro_rules! by_inputs {
    ($item:expr, $none:expr, $one:path, $two:path, $three:path, $listed:path, $below:path, $window:path, $named:path $(, $given:expr)?) => {
        match $item {
            AExpr::Column(_) | AExpr::Literal(_) | AExpr::Len => $none,
            AExpr::BinaryExpr { left, right, .. } => $two(left, right $(, $given)?),
            AExpr::Cast { expr, .. } => $one(expr $(, $given)?),
            AExpr::Explode(input) => $one(input $(, $given)?),
            AExpr::Gather { expr, idx, .. } => $two(expr, idx $(, $given)?),
            AExpr::Filter { input, by } => $two(input, by $(, $given)?),
            AExpr::Sort { expr, .. } => $one(expr $(, $given)?),
            AExpr::SortBy { expr, by, .. } => $listed(expr, by $(, $given)?),
            AExpr::Alias(expr, _) => $one(expr $(, $given)?),
            AExpr::Agg(aggregate) => $below(aggregate $(, $given)?),
            AExpr::Window { function, partition_by, order_by, .. } => $window(function, partition_by, order_by $(, $given)?),
            AExpr::Slice { input, offset, length } => $three(input, offset, length $(, $given)?),
            AExpr::Ternary { predicate, truthy, falsy } => $three(truthy, predicate, falsy $(, $given)?),
            AExpr::Function { input, .. } => $named(input $(, $given)?),
        }
    };
}

// A copy of an item by its kind: of those that are listed all fields are copied, and the other kinds are told.
macro_rules! copied {
    ($item:expr, [$($pattern:pat => $copy:expr),*], $($kind:ident [$($field:ident),*])*) => {
        match $item {
            $($pattern => $copy,)*
            $(AExpr::$kind { $($field),* } => Ok(AExpr::$kind { $($field: *$field),* })),*
        }
    };
}

impl AExpr {
    /// A copy of the node, over its inputs.
    pub fn try_clone(&self, alloc: Global) -> Result<AExpr, PlanError>
        ensures ok { IfOk result (λ copy. expression_layer copy ≡ expression_layer self.now) }
        ensures err { IfErr result (λ error. error ≡ no_memory) }
    {
        copied!(self, [
                AExpr::Column(name) => column_copy(name, alloc),
                AExpr::Literal(value) => literal_copy(value, alloc),
                AExpr::Cast { expr, dtype, options } => cast_copy(*expr, dtype, *options, alloc),
                AExpr::Len => Ok(AExpr::Len),
                AExpr::Explode(input) => Ok(AExpr::Explode(*input)),
                AExpr::SortBy { expr, by, sort_options } => sort_by_copy(*expr, by, sort_options, alloc),
                AExpr::Alias(expr, name) => alias_copy(*expr, name, alloc),
                AExpr::Agg(aggregate) => Ok(AExpr::Agg(*aggregate)),
                AExpr::Window { function, partition_by, order_by, options } => {
                    window_copy(*function, partition_by, *order_by, *options, alloc)
                },
                AExpr::Function { input, function } => function_copy(input, function, alloc)
            ],
            BinaryExpr [left, op, right]
            Slice [input, offset, length]
            Gather [expr, idx, returns_scalar]
            Filter [input, by]
            Sort [expr, options]
            Ternary [predicate, truthy, falsy]
        )
    }

    /// The inputs in order.
    pub fn input_nodes(&self) -> Inputs<'_>
        ensures { result ≡ inputs_of (expression_layer self.now) }
    {
        by_inputs!(
            self,
            Inputs::none(),
            Inputs::one,
            Inputs::two,
            Inputs::three,
            Inputs::listed,
            one_below,
            Inputs::window,
            Inputs::named
        )
    }

    /// Appends the inputs in reverse, as passes go over them: the one from which the name comes is the last.
    #[tactic(auto, using(crate::proofs::WindowLemmas::passed_window))]
    pub fn inputs_rev(&self, nodes: &mut Nodes) -> Result<(), PlanError>
        ensures ok { OnOk result (numbers nodes.new.items ≡ numbers nodes.old.items ++ reverse (passed (expression_layer self.now))) }
        ensures unchanged { OnErr result (nodes.new.items ≡ nodes.old.items) }
        ensures err { IfErr result (λ error. error ≡ no_memory) }
    {
        match self {
            AExpr::Window {
                function,
                partition_by,
                order_by,
                ..
            } => push_passed(nodes, function, partition_by, order_by),
            AExpr::Ternary {
                predicate,
                truthy,
                falsy,
            } => push_reversed(nodes, &Inputs::three(truthy, falsy, predicate)),
            _ => push_reversed(nodes, &self.input_nodes()),
        }
    }

    /// Appends the inputs in reverse, in their own order.
    pub fn push_inputs(&self, nodes: &mut Nodes) -> Result<(), PlanError>
        ensures ok { OnOk result (numbers nodes.new.items ≡ numbers nodes.old.items ++ reverse (inputs_of (expression_layer self.now))) }
        ensures unchanged { OnErr result (nodes.new.items ≡ nodes.old.items) }
        ensures err { IfErr result (λ error. error ≡ no_memory) }
    {
        match self {
            AExpr::Column(_) | AExpr::Literal(_) => Ok(()),
            AExpr::BinaryExpr { left, right, .. } => push_two(nodes, *right, *left),
            AExpr::Cast { expr, .. } => push_one(nodes, *expr),
            _ => push_reversed(nodes, &self.input_nodes()),
        }
    }

    /// The inputs in order.
    pub fn inputs(&self, alloc: Global) -> Result<Nodes, PlanError>
        ensures ok { IfOk result (λ nodes. numbers nodes.items ≡ inputs_of (expression_layer self.now)) }
        ensures err { IfErr result (λ error. error ≡ no_memory) }
    {
        let mut nodes: Nodes = SmallVec::new(alloc);
        if let AExpr::BinaryExpr { left, right, .. } = self {
            push_two(&mut nodes, *left, *right)?;
            return Ok(nodes);
        }
        self.push_inputs(&mut nodes)?;
        nodes.as_mut_slice().reverse();
        Ok(nodes)
    }

    /// The node over other inputs, as many as it has, as passes go over them.
    pub fn replace_inputs(self, inputs: &[Node]) -> AExpr
        requires { length inputs.now ≡ length (inputs_of (expression_layer self)) }
        ensures op { op_of (expression_layer result) ≡ op_of (expression_layer self) }
        ensures inputs { passed (expression_layer result) ≡ numbers inputs.now }
        ensures same { numbers inputs.now ≡ passed (expression_layer self) → result ≡ self }
    {
        let mut item = self;
        item.set_passed(inputs);
        item
    }

    #[tactic(auto, using(crate::proofs::WindowLemmas::passed_window))]
    fn set_passed(&mut self, inputs: &[Node])
        requires { length inputs.now ≡ length (inputs_of (expression_layer self.old)) }
        ensures op { op_of (expression_layer self.new) ≡ op_of (expression_layer self.old) }
        ensures inputs { passed (expression_layer self.new) ≡ numbers inputs.now }
        ensures same { numbers inputs.now ≡ passed (expression_layer self.old) → self.new ≡ self.old }
    {
        match self {
            AExpr::Window {
                function,
                partition_by,
                order_by,
                ..
            } => set_passed_window(function, partition_by, order_by, inputs),
            AExpr::Ternary {
                predicate,
                truthy,
                falsy,
            } => set_three(truthy, falsy, predicate, inputs),
            _ => self.set_inputs(inputs),
        }
    }

    /// Puts other inputs in place of the node's, as many as it has, in their own order.
    pub fn set_inputs(&mut self, inputs: &[Node])
        requires { length inputs.now ≡ length (inputs_of (expression_layer self.old)) }
        ensures layer { expression_layer self.new ≡ layer (op_of (expression_layer self.old)) (numbers inputs.now) }
        ensures same { numbers inputs.now ≡ inputs_of (expression_layer self.old) → self.new ≡ self.old }
    {
        by_inputs!(
            self,
            (),
            set_one,
            set_two,
            set_three,
            set_listed,
            set_below,
            set_window,
            set_named,
            inputs
        )
    }
}

// Copies of items with a field that takes memory.

fn column_copy(name: &PlSmallStr, alloc: Global) -> Result<AExpr, PlanError>
    ensures ok { IfOk result (λ copy. copy ≡ AExpr.Column name.now) }
    ensures err { IfErr result (λ error. error ≡ no_memory) }
{
    let name = name.try_clone(alloc)?;
    Ok(AExpr::Column(name))
}

fn literal_copy(value: &LiteralValue, alloc: Global) -> Result<AExpr, PlanError>
    ensures ok { IfOk result (λ copy. expression_layer copy ≡ expression_layer (AExpr.Literal value.now)) }
    ensures err { IfErr result (λ error. error ≡ no_memory) }
{
    let value = value.try_clone(alloc)?;
    Ok(AExpr::Literal(value))
}

fn cast_copy(
    expr: Node,
    dtype: &DataType,
    options: CastOptions,
    alloc: Global,
) -> Result<AExpr, PlanError>
    ensures ok { IfOk result (λ copy. expression_layer copy ≡ expression_layer (AExpr.Cast expr dtype.now options)) }
    ensures err { IfErr result (λ error. error ≡ no_memory) }
{
    let dtype = dtype.try_clone(alloc)?;
    Ok(AExpr::Cast {
        expr,
        dtype,
        options,
    })
}

fn sort_by_copy(
    expr: Node,
    by: &NodeList,
    sort_options: &SortMultipleOptions,
    alloc: Global,
) -> Result<AExpr, PlanError>
    ensures ok { IfOk result (λ copy. expression_layer copy ≡ expression_layer (AExpr.SortBy expr by.now sort_options.now)) }
    ensures err { IfErr result (λ error. error ≡ no_memory) }
{
    let by = by.try_clone(alloc)?;
    let sort_options = sort_options.try_clone(alloc)?;
    Ok(AExpr::SortBy {
        expr,
        by,
        sort_options,
    })
}

fn alias_copy(expr: Node, name: &PlSmallStr, alloc: Global) -> Result<AExpr, PlanError>
    ensures ok { IfOk result (λ copy. copy ≡ AExpr.Alias expr name.now) }
    ensures err { IfErr result (λ error. error ≡ no_memory) }
{
    let name = name.try_clone(alloc)?;
    Ok(AExpr::Alias(expr, name))
}

fn window_copy(
    function: Node,
    partition_by: &NodeList,
    order_by: Option<(Node, SortOptions)>,
    options: WindowType,
    alloc: Global,
) -> Result<AExpr, PlanError>
    ensures ok { IfOk result (λ copy. expression_layer copy ≡ expression_layer (AExpr.Window function partition_by.now order_by options)) }
    ensures err { IfErr result (λ error. error ≡ no_memory) }
{
    let partition_by = partition_by.try_clone(alloc)?;
    Ok(AExpr::Window {
        function,
        partition_by,
        order_by,
        options,
    })
}

fn function_copy(
    input: &ExprIRs,
    function: &FunctionExpr,
    alloc: Global,
) -> Result<AExpr, PlanError>
    ensures ok { IfOk result (λ copy. expression_layer copy ≡ expression_layer (AExpr.Function input.now function.now)) }
    ensures err { IfErr result (λ error. error ≡ no_memory) }
{
    let input = input.try_clone(alloc)?;
    let function = function.try_clone(alloc)?;
    Ok(AExpr::Function { input, function })
}

// The one input of an aggregate.
fn one_below<'a>(aggregate: &IRAggExpr) -> Inputs<'a>
    ensures { result ≡ (input_at aggregate.now).0 ∷ [] }
{
    Inputs::one(&aggregate.get_input().first())
}

fn set_below(aggregate: &mut IRAggExpr, inputs: &[Node])
    requires { length inputs.now ≡ 1 }
    ensures list { inputs.now ≡ input_at aggregate.new ∷ [] }
    ensures method { method_at aggregate.new ≡ method_at aggregate.old }
    ensures same { numbers inputs.now ≡ (input_at aggregate.old).0 ∷ [] → aggregate.new ≡ aggregate.old }
{
    aggregate.set_input(inputs[0]);
}

fn set_one(first: &mut Node, inputs: &[Node])
    requires { length inputs.now ≡ 1 }
    ensures { inputs.now ≡ first.new ∷ [] }
{
    *first = inputs[0];
}

fn set_two(first: &mut Node, second: &mut Node, inputs: &[Node])
    requires { length inputs.now ≡ 2 }
    ensures { inputs.now ≡ first.new ∷ second.new ∷ [] }
{
    *first = inputs[0];
    *second = inputs[1];
}

fn set_three(first: &mut Node, second: &mut Node, third: &mut Node, inputs: &[Node])
    requires { length inputs.now ≡ 3 }
    ensures { inputs.now ≡ first.new ∷ second.new ∷ third.new ∷ [] }
{
    *first = inputs[0];
    *second = inputs[1];
    *third = inputs[2];
}

fn set_listed(first: &mut Node, rest: &mut NodeList, inputs: &[Node])
    requires { length inputs.now ≡ 1 + length rest.old.items.items }
    ensures list { inputs.now ≡ first.new ∷ rest.new.items.items }
    ensures same { numbers inputs.now ≡ numbers (first.old ∷ rest.old.items.items) → rest.new ≡ rest.old }
{
    *first = inputs[0];
    rest.items.as_mut_slice().copy_from_slice(&inputs[1..]);
}

// A window's inputs in their own order: the function, what its rows are ordered by, if anything, and the keys.
fn set_window(
    function: &mut Node,
    keys: &mut NodeList,
    order: &mut Option<(Node, SortOptions)>,
    inputs: &[Node],
)
    requires { length inputs.now ≡ length (function.old.0 ∷ (ordering order.old ++ numbers keys.old.items.items)) }
    ensures list { numbers inputs.now ≡ function.new.0 ∷ (ordering order.new ++ numbers keys.new.items.items) }
    ensures ordered { ordered order.new ≡ ordered order.old }
    ensures same_keys { numbers inputs.now ≡ function.old.0 ∷ (ordering order.old ++ numbers keys.old.items.items) → keys.new ≡ keys.old }
    ensures same_order { numbers inputs.now ≡ function.old.0 ∷ (ordering order.old ++ numbers keys.old.items.items) → order.new ≡ order.old }
{
    match order {
        None => set_listed(function, keys, inputs),
        Some((by, _)) => {
            *function = inputs[0];
            set_listed(by, keys, &inputs[1..]);
        }
    }
}

fn set_named(exprs: &mut ExprIRs, inputs: &[Node])
    requires { length inputs.now ≡ length (numbers_named exprs.old.items.items) }
    ensures list { numbers_named exprs.new.items.items ≡ numbers inputs.now }
    ensures names { recorded exprs.new.items.items ≡ recorded exprs.old.items.items }
    ensures same { numbers inputs.now ≡ numbers_named exprs.old.items.items → exprs.new ≡ exprs.old }
{
    set_nodes(exprs.items.as_mut_slice(), inputs);
}

// Other nodes under the same names.
fn set_nodes(exprs: &mut [ExprIR], inputs: &[Node])
    requires { length inputs.now ≡ length exprs.old }
    ensures list { map (λ e. e.node) exprs.new ≡ inputs.now }
    ensures names { map (λ e. e.output_name) exprs.new ≡ map (λ e. e.output_name) exprs.old }
{
    for index in 0..inputs.len() {
        exprs[index].set_node(inputs[index]);
    }
}

// Writes a window's inputs as passes go over them: its function, its keys, and what its rows are ordered by.
fn set_passed_window(
    function: &mut Node,
    keys: &mut NodeList,
    order: &mut Option<(Node, SortOptions)>,
    inputs: &[Node],
)
    requires { length inputs.now ≡ length (function.old.0 ∷ (ordering order.old ++ numbers keys.old.items.items)) }
    ensures list { numbers inputs.now ≡ function.new.0 ∷ (numbers keys.new.items.items ++ ordering order.new) }
    ensures ordered { ordered order.new ≡ ordered order.old }
    ensures same_function { numbers inputs.now ≡ function.old.0 ∷ (numbers keys.old.items.items ++ ordering order.old) → function.new ≡ function.old }
    ensures same_keys { numbers inputs.now ≡ function.old.0 ∷ (numbers keys.old.items.items ++ ordering order.old) → keys.new ≡ keys.old }
    ensures same_order { numbers inputs.now ≡ function.old.0 ∷ (numbers keys.old.items.items ++ ordering order.old) → order.new ≡ order.old }
{
    match order {
        None => set_listed(function, keys, inputs),
        Some((by, _)) => {
            let last = inputs.len() - 1;
            *by = inputs[last];
            set_listed(function, keys, &inputs[..last]);
        }
    }
}

// Appends a window's inputs in reverse, as passes go over them: the function, the keys, and what its rows are ordered by,
// if anything. All or none.
fn push_passed(
    nodes: &mut Nodes,
    function: &Node,
    keys: &NodeList,
    order: &Option<(Node, SortOptions)>,
) -> Result<(), PlanError>
    ensures ok { OnOk result (numbers nodes.new.items ≡ numbers nodes.old.items ++ reverse (function.now.0 ∷ (numbers keys.now.items.items ++ ordering order.now))) }
    ensures unchanged { OnErr result (nodes.new.items ≡ nodes.old.items) }
    ensures err { IfErr result (λ error. error ≡ no_memory) }
{
    let front = Inputs::listed(function, keys);
    match order {
        None => push_reversed(nodes, &front),
        Some((by, _)) => {
            nodes.reserve(keys.items.len() + 2)?;
            nodes.push_reserved(*by);
            push_in_room(nodes, &front);
            Ok(())
        }
    }
}

// Appends a node.
fn push_one(nodes: &mut Nodes, node: Node) -> Result<(), PlanError>
    ensures ok { OnOk result (numbers nodes.new.items ≡ numbers nodes.old.items ++ (node.0 ∷ [])) }
    ensures unchanged { OnErr result (nodes.new.items ≡ nodes.old.items) }
    ensures err { IfErr result (λ error. error ≡ no_memory) }
{
    nodes.push(node)?;
    Ok(())
}

// Appends two nodes, both or none.
fn push_two(nodes: &mut Nodes, first: Node, second: Node) -> Result<(), PlanError>
    ensures ok { OnOk result (numbers nodes.new.items ≡ numbers nodes.old.items ++ (first.0 ∷ second.0 ∷ [])) }
    ensures unchanged { OnErr result (nodes.new.items ≡ nodes.old.items) }
    ensures err { IfErr result (λ error. error ≡ no_memory) }
{
    nodes.reserve(2)?;
    nodes.push_reserved(first);
    nodes.push_reserved(second);
    Ok(())
}

// Appends a node's inputs in reverse, all or none.
fn push_reversed(nodes: &mut Nodes, inputs: &Inputs<'_>) -> Result<(), PlanError>
    ensures ok { OnOk result (numbers nodes.new.items ≡ numbers nodes.old.items ++ reverse inputs.now) }
    ensures unchanged { OnErr result (nodes.new.items ≡ nodes.old.items) }
    ensures err { IfErr result (λ error. error ≡ no_memory) }
{
    nodes.reserve(inputs.len())?;
    push_in_room(nodes, inputs);
    Ok(())
}

// Appends a node's inputs in reverse, where there is room for them.
fn push_in_room(nodes: &mut Nodes, inputs: &Inputs<'_>)
    requires { length nodes.old.items + length inputs.now ≤ nodes.old.capacity }
    ensures { numbers nodes.new.items ≡ numbers nodes.old.items ++ reverse inputs.now }
{
    let mut left = inputs.len();
    while left > 0 {
        left -= 1;
        nodes.push_reserved(inputs.at(left));
    }
}
