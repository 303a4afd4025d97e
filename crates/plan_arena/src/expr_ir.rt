//! Expressions of a lowered plan: a node, and the name of its column.
ghost use Rattle.std.specs.Prelude.{◌≡◌, ◌≢◌, ℕ, List, IfOk, IfErr, MatchOption};
ghost use Rattle.plan_types.specs.Errors.{no_memory};
ghost use Rattle.plan_arena.specs.Items.{named_node, output_label};

use crate::arena::Node;
use plan_types::dtype::DataType;
use plan_types::error::PlanError;
use plan_types::text::PlSmallStr;
use std::alloc::Global;
use std::marker::Model;

/// Where the name of a column comes from.
#[derive(Debug, Default, PartialEq, Eq, Hash, Drop)]
pub enum OutputName {
    /// It isn't set.
    #[default]
    None,
    /// A literal at the left end of the expression.
    LiteralLhs(PlSmallStr),
    /// The leftmost column of the expression.
    ColumnLhs(PlSmallStr),
    /// An alias.
    Alias(PlSmallStr),
    /// A field of a struct.
    Field(PlSmallStr),
}

impl OutputName {
    /// The name, if it is set.
    pub fn get(&self) -> Option<&PlSmallStr>
        ensures { MatchOption result (self.now ≡ OutputName.None) (λ name. (self.now ≢ OutputName.None) × (name.now ≡ (output_label self.now).name)) }
    {
        match self {
            OutputName::LiteralLhs(name)
            | OutputName::ColumnLhs(name)
            | OutputName::Alias(name)
            | OutputName::Field(name) => Some(name),
            OutputName::None => None,
        }
    }

    /// The name that is set.
    pub fn unwrap(&self) -> &PlSmallStr
        requires { self.now ≢ OutputName.None }
        ensures { result.now ≡ (output_label self.now).name }
    {
        match self.get() {
            Some(name) => name,
            None => unreachable!(),
        }
    }

    pub fn try_clone(&self, alloc: Global) -> Result<OutputName, PlanError>
        ensures ok { IfOk result (λ copy. copy ≡ self.now) }
        ensures err { IfErr result (λ error. error ≡ no_memory) }
    {
        match self {
            OutputName::None => Ok(OutputName::None),
            OutputName::LiteralLhs(name) => {
                let name = name.try_clone(alloc)?;
                Ok(OutputName::LiteralLhs(name))
            }
            OutputName::ColumnLhs(name) => {
                let name = name.try_clone(alloc)?;
                Ok(OutputName::ColumnLhs(name))
            }
            OutputName::Alias(name) => {
                let name = name.try_clone(alloc)?;
                Ok(OutputName::Alias(name))
            }
            OutputName::Field(name) => {
                let name = name.try_clone(alloc)?;
                Ok(OutputName::Field(name))
            }
        }
    }
}

/// An expression of a lowered plan. Contracts see its node with its name, which is set.
#[derive(Drop)]
pub struct ExprIR {
    node: Node,
    output_name: OutputName,
    output_dtype: Option<DataType>,
}

impl Model for ExprIR {
    ghost use Rattle.std.specs.Prelude.{◌≢◌};
    ghost use Rattle.plan_arena.specs.NamedNodes.{NamedNode};
    ghost use Rattle.plan_arena.specs.declared.expr_ir.OutputName.TheVariants as name;

    ghost Value = { NamedNode };

    ghost view = { λ e. record { node = e.node; output_name = e.output_name } };

    ghost invariant = { λ e. e.output_name ≢ name.None };
}

impl ExprIR {
    /// The expression at the node, under the name.
    pub fn new(node: Node, output_name: OutputName) -> ExprIR
        requires { output_name ≢ OutputName.None }
        ensures { result ≡ record { node = node; output_name = output_name } }
    {
        ExprIR {
            node,
            output_name,
            output_dtype: None,
        }
    }

    /// Keeps a type with the expression, which nothing reads but a copy.
    pub fn with_dtype(self, dtype: DataType) -> ExprIR
        ensures { result ≡ self }
    {
        let mut expr_ir = self;
        expr_ir.output_dtype = Some(dtype);
        expr_ir
    }

    /// Another node under the name. A kept type goes.
    pub fn set_node(&mut self, node: Node)
        ensures { self.new ≡ record { node = node; output_name = self.old.output_name } }
    {
        self.node = node;
        self.output_dtype = None;
    }

    pub fn node(&self) -> Node
        ensures { result.0 ≡ (named_node self.now).expression }
    {
        self.node
    }

    /// The name, with what it comes from.
    pub fn output_name_inner(&self) -> &OutputName
        ensures name { result.now ≡ self.now.output_name }
        ensures set { result.now ≢ OutputName.None }
    {
        &self.output_name
    }

    /// The name.
    pub fn output_name(&self) -> &PlSmallStr
        ensures { result.now ≡ (named_node self.now).label.name }
    {
        self.output_name.unwrap()
    }

    /// The name, where it was given as another.
    pub fn get_alias(&self) -> Option<&PlSmallStr>
        ensures { MatchOption result ((name : List ℕ) → self.now.output_name ≢ OutputName.Alias name) (λ name. self.now.output_name ≡ OutputName.Alias name.now) }
    {
        match &self.output_name {
            OutputName::Alias(name) => Some(name),
            _ => None,
        }
    }

    pub fn try_clone(&self, alloc: Global) -> Result<ExprIR, PlanError>
        ensures ok { IfOk result (λ copy. copy ≡ self.now) }
        ensures err { IfErr result (λ error. error ≡ no_memory) }
    {
        let output_name = self.output_name.try_clone(alloc)?;
        let copy = ExprIR::new(self.node, output_name);
        match &self.output_dtype {
            None => Ok(copy),
            Some(dtype) => {
                let dtype = dtype.try_clone(alloc)?;
                Ok(copy.with_dtype(dtype))
            }
        }
    }
}

impl PartialEq for ExprIR {
    ghost use Rattle.std.specs.Cmp.{partial_equiv_from_equiv};
    ghost use Rattle.plan_arena.specs.NamedNodes.{same_named, same_named_is_equivalence};

    ghost eq = { same_named };

    ghost laws = { partial_equiv_from_equiv same_named_is_equivalence };

    fn eq(&self, other: &ExprIR) -> bool {
        self.node == other.node && self.output_name == other.output_name
    }
}

impl Eq for ExprIR {
    ghost use Rattle.plan_arena.specs.NamedNodes.{same_named_is_equivalence};

    ghost laws = { same_named_is_equivalence };
}

impl AsRef<ExprIR> for ExprIR {
    fn as_ref(&self) -> &ExprIR
        ensures { result.now ≡ self.now }
    {
        self
    }
}

/// The node of a column.
#[derive(Clone, Copy, Debug, PartialEq, Eq, PartialOrd, Ord, Hash)]
pub struct ColumnNode(pub Node);

impl From<ColumnNode> for Node {
    ghost use Rattle.std.specs.Prelude.{◌≡◌};

    ghost from_gives = { λ column node. node ≡ column.0 };

    fn from(value: ColumnNode) -> Node {
        value.0
    }
}

impl From<&ExprIR> for Node {
    ghost use Rattle.std.specs.Prelude.{◌≡◌};

    ghost from_gives = { λ expr_ir node. node ≡ expr_ir.now.node };

    fn from(value: &ExprIR) -> Node {
        value.node()
    }
}

/// The expressions of a node of a lowered plan, in order.
#[derive(Drop)]
pub struct ExprIRs {
    pub items: Vec<ExprIR>,
}

impl ExprIRs {
    pub fn try_clone(&self, alloc: Global) -> Result<ExprIRs, PlanError>
        ensures ok { IfOk result (λ copy. copy.items.items ≡ self.now.items.items) }
        ensures err { IfErr result (λ error. error ≡ no_memory) }
    {
        let mut items = Vec::new(alloc);
        for expr in self.items.as_slice() {
            let copy = expr.try_clone(alloc)?;
            items.push(copy)?;
        }
        Ok(ExprIRs { items })
    }
}
