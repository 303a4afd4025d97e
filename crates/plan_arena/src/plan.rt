//! A lowered plan: its top, and the arenas that hold its nodes.
ghost use Rattle.std.specs.Prelude.{◌≡◌, ◌<◌, length, slice_get, Some};

use crate::aexpr::AExpr;
use crate::arena::{Arena, Node};
use crate::ir::IR;

/// A lowered plan.
#[derive(Drop)]
pub struct IRPlan {
    pub lp_top: Node,
    pub lp_arena: Arena<IR>,
    pub expr_arena: Arena<AExpr>,
}

impl IRPlan {
    pub fn new(lp_top: Node, lp_arena: Arena<IR>, expr_arena: Arena<AExpr>) -> IRPlan
        ensures { result ≡ record { lp_top = lp_top; lp_arena = lp_arena; expr_arena = expr_arena } }
    {
        IRPlan {
            lp_top,
            lp_arena,
            expr_arena,
        }
    }

    /// The plan, lent.
    pub fn as_ref(&self) -> IRPlanRef<'_>
        ensures top { result.lp_top ≡ self.now.lp_top }
        ensures plans { result.lp_arena.now ≡ self.now.lp_arena }
        ensures expressions { result.expr_arena.now ≡ self.now.expr_arena }
    {
        IRPlanRef {
            lp_top: self.lp_top,
            lp_arena: &self.lp_arena,
            expr_arena: &self.expr_arena,
        }
    }

    /// The top node.
    pub fn root(&self) -> &IR
        requires { self.now.lp_top.0 < length self.now.lp_arena }
        ensures { slice_get self.now.lp_arena self.now.lp_top.0 ≡ Some result.now }
    {
        self.as_ref().root()
    }
}

/// A lowered plan that is lent.
#[derive(Clone, Copy)]
pub struct IRPlanRef<'a> {
    pub lp_top: Node,
    pub lp_arena: &'a Arena<IR>,
    pub expr_arena: &'a Arena<AExpr>,
}

impl<'a> IRPlanRef<'a> {
    /// The top node.
    pub fn root(self) -> &'a IR
        requires { self.lp_top.0 < length self.lp_arena.now }
        ensures { slice_get self.entry.lp_arena.now self.entry.lp_top.0 ≡ Some result.now }
    {
        self.lp_arena.get(self.lp_top)
    }

    /// The arenas as they are lent, from another node.
    pub fn with_root(self, root: Node) -> IRPlanRef<'a>
        ensures top { result.lp_top ≡ root }
        ensures plans { result.lp_arena.now ≡ self.entry.lp_arena.now }
        ensures expressions { result.expr_arena.now ≡ self.entry.expr_arena.now }
    {
        IRPlanRef {
            lp_top: root,
            lp_arena: self.lp_arena,
            expr_arena: self.expr_arena,
        }
    }
}
