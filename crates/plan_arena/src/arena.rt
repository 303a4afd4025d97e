//! An arena: a list of items, each known by its number.
ghost use Rattle.std.specs.Prelude.{◌≡◌, ◌+◌, ◌<◌, ◌↔◌, [], ◌∷◌, ◌++◌, length, slice_get, slice_set, IsTrue, IfNone, IfSome, IfOk, IfErr, OnOk, OnErr, Some};
ghost use Rattle.std.specs.Borrow.{sem};
ghost use Rattle.plan_types.specs.Errors.{no_memory};
ghost use Rattle.plan_arena.specs.Layers.{inputs_of};
ghost use Rattle.plan_arena.specs.Lending.{LendsItem};
ghost use Rattle.plan_arena.specs.Items.{expression_layer, numbers, Rewired};

use crate::aexpr::AExpr;
use plan_types::error::PlanError;
use std::alloc::Global;
use std::marker::Model;
use std::mem;

/// The number of an item.
#[derive(Clone, Copy, Debug, Default, PartialEq, Eq, PartialOrd, Ord, Hash)]
pub struct Node(pub usize);

/// Items in the order in which they were added. Contracts see their list.
#[derive(Drop)]
pub struct Arena<T> {
    items: Vec<T>,
}

impl<T> Model for Arena<T> {
    ghost use Rattle.std.specs.Prelude.{List};

    ghost Value = { List T };

    ghost view = { λ arena. arena.items.items };
}

impl<T> Arena<T> {
    pub fn new(alloc: Global) -> Arena<T>
        ensures { result ≡ [] }
    {
        Arena {
            items: Vec::new(alloc),
        }
    }

    /// Asks for room for so many more items. No clause speaks of room.
    pub fn reserve(&mut self, additional: usize) -> Result<(), PlanError>
        ensures same { self.new ≡ self.old }
        ensures err { IfErr result (λ error. error ≡ no_memory) }
    {
        self.items.reserve(additional)?;
        Ok(())
    }

    /// How many items there are.
    pub fn len(&self) -> usize
        ensures { result ≡ length self.now }
    {
        self.items.len()
    }

    /// The allocator that the arena keeps.
    pub fn allocator(&self) -> Global {
        *self.items.allocator()
    }

    pub fn is_empty(&self) -> bool
        ensures { IsTrue result ↔ (self.now ≡ []) }
    {
        self.items.is_empty()
    }

    pub fn get(&self, node: Node) -> &T
        requires { node.0 < length self.now }
        ensures { slice_get self.now node.0 ≡ Some result.now }
    {
        &self.items[node.0]
    }

    /// The item at the node, to be changed.
    pub fn get_mut(&mut self, node: Node) -> &mut T
        requires { node.0 < length self.old }
        ensures* writes_back { sem 𝓛 (LendsItem T.row self.entry node.0 result) }
        ensures value { slice_get self.old node.0 ≡ Some result.now }
    {
        &mut self.items[node.0]
    }

    /// The last node, if there is one.
    pub fn last_node(&self) -> Option<Node>
        ensures none { IfNone result (self.now ≡ []) }
        ensures some { IfSome result (λ node. node.0 + 1 ≡ length self.now) }
    {
        if self.items.is_empty() {
            return None;
        }
        Some(Node(self.items.len() - 1))
    }

    /// Takes the last item away, if there is one, and answers it.
    pub fn pop(&mut self) -> Option<T>
        ensures none { IfNone result ((self.old ≡ []) × (self.new ≡ [])) }
        ensures some { IfSome result (λ item. self.old ≡ self.new ++ item ∷ []) }
    {
        self.items.pop()
    }

    /// Puts the item in place of the one at the node, and answers that one.
    pub fn replace(&mut self, node: Node, item: T) -> T
        requires { node.0 < length self.old }
        ensures old { slice_get self.old node.0 ≡ Some result }
        ensures items { self.new ≡ slice_set self.old node.0 item }
    {
        mem::replace(&mut self.items[node.0], item)
    }
}

impl<T: Default> Arena<T> {
    /// Leaves the default in place of the item at the node, and answers that item.
    pub fn take(&mut self, node: Node) -> T
        requires { node.0 < length self.old }
        ensures old { slice_get self.old node.0 ≡ Some result }
        ensures items { (item : T) × (T.is_default item) × (self.new ≡ slice_set self.old node.0 item) }
    {
        mem::take(&mut self.items[node.0])
    }
}

impl<T: Drop> Arena<T> {
    /// Adds the item at the end, and answers its number.
    #[inline(always)]
    pub fn add(&mut self, item: T) -> Result<Node, PlanError>
        ensures ok { OnOk result (self.new ≡ self.old ++ item ∷ []) }
        ensures node { IfOk result (λ node. node.0 ≡ length self.old) }
        ensures unchanged { OnErr result (self.new ≡ self.old) }
        ensures err { IfErr result (λ error. error ≡ no_memory) }
    {
        let node = Node(self.items.len());
        self.items.reserve(1)?;
        self.items.push_reserved(item);
        Ok(node)
    }
}

impl Arena<AExpr> {
    /// Puts other inputs in place of those of the item at the node, as many as it has, in their own order.
    pub fn replace_inputs(&mut self, node: Node, inputs: &[Node])
        requires there { node.0 < length self.old }
        requires count { (item : AExpr) → slice_get self.old node.0 ≡ Some item → length inputs.now ≡ length (inputs_of (expression_layer item)) }
        ensures { Rewired self.old self.new node.0 (numbers inputs.now) }
    {
        self.items[node.0].set_inputs(inputs);
    }
}
