//! What is inferred of nodes, kept by node.
ghost use Rattle.std.specs.Prelude.{◌≡◌, ◌<◌, ◌≤◌, ◌↔◌, ◌⊎◌, ◌+◌, ℕ, true, [], IsTrue, Some, length, slice_get, if◌then◌else◌, MatchOption, IfOk, IfErr, OnOk, OnErr};
ghost use Rattle.plan_types.specs.Errors.{no_memory};
ghost use Rattle.plan_infer.specs.declared.type_table.Inferred.{Inferred};
ghost use Rattle.plan_infer.specs.KeptTypes.{KeepsEntry, IsKept, kept_count, some_count};

use crate::taken_types::TakenTypes;
use plan_arena::arena::Node;
use plan_types::dtype::DataType;
use plan_types::error::PlanError;
use std::alloc::Global;

/// What is inferred of a node.
#[derive(Drop)]
pub struct Inferred {
    /// The node whose item gives the name.
    pub name: Node,
    pub dtype: DataType,
    /// Whether its column may have another length than one.
    pub many: bool,
    /// The types to which the node takes its operands. There are none where it takes them as they are.
    pub operands: TakenTypes,
}

impl Inferred {
    /// Whether the node takes its operands as they are.
    pub fn is_strict(&self) -> bool
        ensures { IsTrue result ↔ (self.now.operands ≡ []) }
    {
        self.operands.is_empty()
    }

    /// The type to which the node takes the operand of that number.
    pub fn operand(&self, index: usize) -> &DataType
        requires { index < length self.now.operands }
        ensures { slice_get self.now.operands index ≡ Some result.now }
    {
        self.operands.get(index)
    }
}

/// What is inferred of an arena's nodes. Contracts see what it keeps as `KeepsEntry`.
#[derive(Drop)]
pub struct TypeTable {
    first: usize,
    entries: Vec<Option<Inferred>>,
}

impl TypeTable {
    /// A table that keeps nothing yet.
    pub fn new(alloc: Global) -> TypeTable
        ensures { (n : ℕ) → ¬ (IsKept result n) }
    {
        TypeTable {
            first: 0,
            entries: Vec::new(alloc),
        }
    }

    /// A table that keeps nothing yet, with room for so many nodes.
    pub fn with_capacity(alloc: Global, room: usize) -> Result<TypeTable, PlanError>
        ensures ok { IfOk result (λ types. (n : ℕ) → ¬ (IsKept types n)) }
        ensures err { IfErr result (λ error. error ≡ no_memory) }
    {
        Ok(TypeTable {
            first: 0,
            entries: Vec::with_capacity(alloc, room)?,
        })
    }

    /// Of how many nodes something is kept.
    pub fn len(&self) -> usize
        ensures { result ≡ kept_count self.now }
    {
        let mut count = 0;
        let entries = self.entries.as_slice();
        for index in 0..entries.len() {
            count += one_if(entries[index].is_some());
        }
        count
    }

    /// Forgets what is kept.
    pub fn clear(&mut self)
        ensures { (n : ℕ) → ¬ (IsKept self.new n) }
    {
        self.entries.clear();
    }

    /// What is kept for a node.
    pub fn kept(&self, node: Node) -> Option<&Inferred>
        ensures { MatchOption result (¬ (IsKept self.now node.0)) (λ own. KeepsEntry self.now node.0 own.now) }
    {
        if node.0 < self.first {
            return None;
        }
        match self.entries.get(node.0 - self.first) {
            None => None,
            Some(own) => own.as_ref(),
        }
    }

    /// What is kept for a node of which something is.
    #[inline]
    pub fn get(&self, node: Node) -> &Inferred
        requires { IsKept self.now node.0 }
        ensures { KeepsEntry self.now node.0 result.now }
    {
        match self.kept(node) {
            Some(own) => own,
            None => unreachable!(),
        }
    }

    /// Keeps what is inferred of a node, unless something is kept of it.
    #[inline(always)]
    pub fn keep(&mut self, node: Node, own: Inferred) -> Result<(), PlanError>
        ensures kept { OnOk result (IsKept self.new node.0) }
        ensures stays { (n : ℕ) (other : Inferred) → KeepsEntry self.old n other → KeepsEntry self.new n other }
        ensures only { (n : ℕ) (other : Inferred) → KeepsEntry self.new n other →
            KeepsEntry self.old n other ⊎ ((n ≡ node.0) × (other ≡ own)) }
        ensures count { OnOk result (¬ (IsKept self.old node.0) → kept_count self.new ≡ kept_count self.old + 1) }
        ensures count_stays { OnErr result (kept_count self.new ≡ kept_count self.old) }
        ensures err { IfErr result (λ error. error ≡ no_memory) }
    {
        if self.is_next(node) {
            return self.push_next(own);
        }
        self.keep_within(node, own)
    }

    // Keeps what is inferred of a node whose entry isn't the next, unless something is kept of it.
    fn keep_within(&mut self, node: Node, own: Inferred) -> Result<(), PlanError>
        ensures kept { OnOk result (IsKept self.new node.0) }
        ensures stays { (n : ℕ) (other : Inferred) → KeepsEntry self.old n other → KeepsEntry self.new n other }
        ensures only { (n : ℕ) (other : Inferred) → KeepsEntry self.new n other →
            KeepsEntry self.old n other ⊎ ((n ≡ node.0) × (other ≡ own)) }
        ensures count { OnOk result (¬ (IsKept self.old node.0) → kept_count self.new ≡ kept_count self.old + 1) }
        ensures count_stays { OnErr result (kept_count self.new ≡ kept_count self.old) }
        ensures err { IfErr result (λ error. error ≡ no_memory) }
    {
        if self.kept(node).is_some() {
            return Ok(());
        }
        self.add_within(node, own)
    }

    /// Keeps what is inferred of a node of which nothing is kept.
    #[inline(always)]
    pub(crate) fn add(&mut self, node: Node, own: Inferred) -> Result<(), PlanError>
        requires { ¬ (IsKept self.old node.0) }
        ensures kept { OnOk result (IsKept self.new node.0) }
        ensures stays { (n : ℕ) (other : Inferred) → KeepsEntry self.old n other → KeepsEntry self.new n other }
        ensures only { (n : ℕ) (other : Inferred) → KeepsEntry self.new n other →
            KeepsEntry self.old n other ⊎ ((n ≡ node.0) × (other ≡ own)) }
        ensures count { OnOk result (kept_count self.new ≡ kept_count self.old + 1) }
        ensures count_stays { OnErr result (kept_count self.new ≡ kept_count self.old) }
        ensures err { IfErr result (λ error. error ≡ no_memory) }
    {
        if self.is_next(node) {
            return self.push_next(own);
        }
        self.add_within(node, own)
    }

    // Keeps what is inferred of a node whose entry isn't the next, and of which nothing is kept.
    fn add_within(&mut self, node: Node, own: Inferred) -> Result<(), PlanError>
        requires { ¬ (IsKept self.old node.0) }
        ensures kept { OnOk result (IsKept self.new node.0) }
        ensures stays { (n : ℕ) (other : Inferred) → KeepsEntry self.old n other → KeepsEntry self.new n other }
        ensures only { (n : ℕ) (other : Inferred) → KeepsEntry self.new n other →
            KeepsEntry self.old n other ⊎ ((n ≡ node.0) × (other ≡ own)) }
        ensures count { OnOk result (kept_count self.new ≡ kept_count self.old + 1) }
        ensures count_stays { OnErr result (kept_count self.new ≡ kept_count self.old) }
        ensures err { IfErr result (λ error. error ≡ no_memory) }
    {
        self.start_at(node.0)?;
        let index = node.0 - self.first;
        self.make_room(index)?;
        self.entries[index] = Some(own);
        Ok(())
    }

    // Keeps what is inferred of the node whose entry is the next.
    #[inline(always)]
    fn push_next(&mut self, own: Inferred) -> Result<(), PlanError>
        ensures kept { OnOk result (IsKept self.new (self.old.first + length self.old.entries.items)) }
        ensures stays { (n : ℕ) (other : Inferred) → KeepsEntry self.old n other → KeepsEntry self.new n other }
        ensures only { (n : ℕ) (other : Inferred) → KeepsEntry self.new n other →
            KeepsEntry self.old n other ⊎ ((n ≡ self.old.first + length self.old.entries.items) × (other ≡ own)) }
        ensures count { OnOk result (kept_count self.new ≡ kept_count self.old + 1) }
        ensures count_stays { OnErr result (kept_count self.new ≡ kept_count self.old) }
        ensures err { IfErr result (λ error. error ≡ no_memory) }
    {
        self.entries.reserve(1)?;
        self.entries.push_reserved(Some(own));
        Ok(())
    }

    // Whether the node's entry is the one behind those that there are.
    #[inline(always)]
    fn is_next(&self, node: Node) -> bool
        ensures { result ≡ true → node.0 ≡ self.now.first + length self.now.entries.items }
    {
        self.first <= node.0 && node.0 - self.first == self.entries.len()
    }

    // Sets the first number of an empty table, and makes room in front of others.
    fn start_at(&mut self, node: usize) -> Result<(), PlanError>
        ensures first { OnOk result (self.new.first ≤ node) }
        ensures kept { (n : ℕ) (own : Inferred) → KeepsEntry self.old n own ↔ KeepsEntry self.new n own }
        ensures count { kept_count self.new ≡ kept_count self.old }
        ensures err { IfErr result (λ error. error ≡ no_memory) }
    {
        if self.entries.is_empty() {
            self.first = node;
            return Ok(());
        }
        if self.first <= node {
            return Ok(());
        }
        // As much room again as the table has, so that making it is rare.
        let first = node - usize::min(node, self.entries.len());
        self.make_front(first)?;
        Ok(())
    }

    // Makes room for the nodes from a number on.
    fn make_front(&mut self, first: usize) -> Result<(), PlanError>
        requires { first ≤ self.old.first }
        ensures first { OnOk result (self.new.first ≡ first) }
        ensures kept { (n : ℕ) (own : Inferred) → KeepsEntry self.old n own ↔ KeepsEntry self.new n own }
        ensures count { kept_count self.new ≡ kept_count self.old }
        ensures err { IfErr result (λ error. error ≡ no_memory) }
    {
        let mut entries = Vec::new(*self.entries.allocator());
        for _place in first..self.first {
            entries.push(None)?;
        }
        entries.append(&mut self.entries)?;
        self.entries = entries;
        self.first = first;
        Ok(())
    }

    // Makes room for an entry at an index.
    fn make_room(&mut self, index: usize) -> Result<(), PlanError>
        ensures room { OnOk result (index < length self.new.entries.items) }
        ensures first { self.new.first ≡ self.old.first }
        ensures kept { (n : ℕ) (own : Inferred) → KeepsEntry self.old n own ↔ KeepsEntry self.new n own }
        ensures count { kept_count self.new ≡ kept_count self.old }
        ensures err { IfErr result (λ error. error ≡ no_memory) }
    {
        while self.entries.len() <= index {
            self.entries.push(None)?;
        }
        Ok(())
    }
}

// How many an entry is.
fn one_if(is_some: bool) -> usize
    ensures { result ≡ (if is_some then 1 else 0) }
{
    if is_some { 1 } else { 0 }
}
