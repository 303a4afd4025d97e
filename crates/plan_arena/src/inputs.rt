//! The inputs of a node, without a list in memory but one that the node keeps.
ghost use Rattle.std.specs.Prelude.{◌≡◌, ◌+◌, ◌<◌, ◌≤◌, [], ◌∷◌, ◌++◌, Some, length, slice_get, take, MatchOption, IfOk, IfErr};
ghost use Rattle.plan_types.specs.Errors.{no_memory};
ghost use Rattle.plan_arena.specs.Items.{numbers, numbers_named, ordering};

use crate::arena::Node;
use crate::expr_ir::{ExprIR, ExprIRs};
use plan_dsl::sort_options::SortOptions;
use plan_types::error::PlanError;
use std::alloc::Global;
use std::marker::Model;

/// Nodes in a list of any length.
#[derive(Drop)]
pub struct NodeList {
    pub items: Vec<Node>,
}

impl NodeList {
    pub fn try_clone(&self, alloc: Global) -> Result<NodeList, PlanError>
        ensures ok { IfOk result (λ copy. copy.items.items ≡ self.now.items.items) }
        ensures err { IfErr result (λ error. error ≡ no_memory) }
    {
        let items = Vec::from_slice(alloc, self.items.as_slice())?;
        Ok(NodeList { items })
    }
}

/// The inputs of a node in order: at most three, and then those of a list that the node keeps, of nodes or of nodes
/// with names. Contracts see their numbers.
#[derive(Drop)]
pub struct Inputs<'a> {
    count: usize,
    first: Node,
    second: Node,
    third: Node,
    rest: &'a [Node],
    named: &'a [ExprIR],
}

impl<'a> Model for Inputs<'a> {
    ghost use Rattle.std.specs.Prelude.{ℕ, ◌≤◌, List, [], ◌∷◌, ◌++◌, map, take};

    ghost Value = { List ℕ };

    ghost view = { λ inputs. take inputs.count (inputs.first.0 ∷ inputs.second.0 ∷ inputs.third.0 ∷ []) ++ (map (λ n. n.0) inputs.rest.now ++ map (λ e. e.node.0) inputs.named.now) };

    ghost invariant = { λ inputs. inputs.count ≤ 3 };
}

impl<'a> Inputs<'a> {
    pub(crate) fn none() -> Inputs<'a>
        ensures { result ≡ [] }
    {
        Inputs::some(0, Node(0), Node(0), Node(0), &[], &[])
    }

    pub(crate) fn one(first: &Node) -> Inputs<'a>
        ensures { result ≡ first.now.0 ∷ [] }
    {
        Inputs::some(1, *first, *first, *first, &[], &[])
    }

    pub(crate) fn two(first: &Node, second: &Node) -> Inputs<'a>
        ensures { result ≡ first.now.0 ∷ second.now.0 ∷ [] }
    {
        Inputs::some(2, *first, *second, *second, &[], &[])
    }

    pub(crate) fn three(first: &Node, second: &Node, third: &Node) -> Inputs<'a>
        ensures { result ≡ first.now.0 ∷ second.now.0 ∷ third.now.0 ∷ [] }
    {
        Inputs::some(3, *first, *second, *third, &[], &[])
    }

    // One, and then a list.
    pub(crate) fn listed(first: &Node, rest: &'a NodeList) -> Inputs<'a>
        ensures { result ≡ first.now.0 ∷ numbers rest.now.items.items }
    {
        Inputs::some(1, *first, *first, *first, rest.items.as_slice(), &[])
    }

    // Those of a window: the function, what its rows are ordered by, if anything, and the keys.
    pub(crate) fn window(
        function: &Node,
        keys: &'a NodeList,
        order: &Option<(Node, SortOptions)>,
    ) -> Inputs<'a>
        ensures { result ≡ function.now.0 ∷ (ordering order.now ++ numbers keys.now.items.items) }
    {
        match order {
            None => Inputs::listed(function, keys),
            Some((by, _)) => Inputs::some(2, *function, *by, *by, keys.items.as_slice(), &[]),
        }
    }

    pub(crate) fn named(exprs: &'a ExprIRs) -> Inputs<'a>
        ensures { result ≡ numbers_named exprs.now.items.items }
    {
        Inputs::of_exprs(exprs.items.as_slice())
    }

    /// A list of nodes with names.
    pub fn of_exprs(exprs: &'a [ExprIR]) -> Inputs<'a>
        ensures { result ≡ numbers_named exprs.now }
    {
        Inputs::some(0, Node(0), Node(0), Node(0), &[], exprs)
    }

    // So many of these, and then two lists.
    fn some(
        count: usize,
        first: Node,
        second: Node,
        third: Node,
        rest: &'a [Node],
        named: &'a [ExprIR],
    ) -> Inputs<'a>
        requires { count ≤ 3 }
        ensures { result ≡ take count (first.0 ∷ second.0 ∷ third.0 ∷ []) ++ (numbers rest.now ++ numbers_named named.now) }
    {
        Inputs {
            count,
            first,
            second,
            third,
            rest,
            named,
        }
    }

    /// How many there are.
    pub fn len(&self) -> usize
        ensures { result ≡ length self.now }
    {
        self.count + self.rest.len() + self.named.len()
    }

    /// The input of that number.
    pub fn at(&self, index: usize) -> Node
        requires { index < length self.now }
        ensures { slice_get self.now index ≡ Some result.0 }
    {
        if index >= self.count {
            return behind(self.rest, self.named, index - self.count);
        }
        if index == 0 {
            return self.first;
        }
        if index == 1 {
            return self.second;
        }
        self.third
    }

    /// The first input, if there is one.
    pub fn first(&self) -> Option<Node>
        ensures { MatchOption result (self.now ≡ []) (λ first. slice_get self.now 0 ≡ Some first.0) }
    {
        if self.len() == 0 {
            return None;
        }
        Some(self.at(0))
    }
}

// The node of that number in two lists, the one behind the other.
fn behind(rest: &[Node], named: &[ExprIR], index: usize) -> Node
    requires { index < length rest.now + length named.now }
    ensures { slice_get (numbers rest.now ++ numbers_named named.now) index ≡ Some result.0 }
{
    if index < rest.len() {
        return rest[index];
    }
    named[index - rest.len()].node()
}
