//! Selectors: of which columns a call is.
ghost use Rattle.std.specs.Prelude.{◌≡◌, map, IfOk, IfErr};
ghost use Rattle.std.specs.List.{fold};
ghost use Rattle.plan_types.specs.Errors.{no_memory};
ghost use Rattle.plan_dsl.specs.Expressions.{selector_tree, selector_trees};
ghost use Rattle.plan_dsl.specs.Sources.{same_source, source_writes};

use crate::copies::boxed_copy;
use crate::expr::Expr;
use plan_types::error::PlanError;
use std::alloc::Global;
use std::hash::{Hash, Hasher};

/// Selectors, in order.
#[derive(Drop)]
pub struct Selectors {
    pub items: Vec<Selector>,
}

impl Selectors {
    pub fn try_clone(&self, alloc: Global) -> Result<Selectors, PlanError>
        ensures ok { IfOk result (λ copy. selector_trees copy ≡ selector_trees self.now) }
        ensures err { IfErr result (λ error. error ≡ no_memory) }
    {
        let mut items = Vec::new(alloc);
        for selector in self.items.as_slice() {
            let copy = selector.try_clone(alloc)?;
            items.push(copy)?;
        }
        Ok(Selectors { items })
    }
}

/// A selector, which makes a list of names. Contracts see its tree. Two selectors are equal where these are, and each
/// node is hashed.
#[derive(Drop)]
#[cycle(expr)]
pub enum Selector {
    /// The names of a column or a marker.
    Root(Box<Expr>),
    /// The names of the first, and then those that are new in the second.
    Add(Box<Selector>, Box<Selector>),
    /// The names of the first that the second lacks.
    Sub(Box<Selector>, Box<Selector>),
    /// The names that one has and the other lacks, those of the first before those of the second.
    ExclusiveOr(Box<Selector>, Box<Selector>),
    /// The names of the first that the second has.
    Intersect(Box<Selector>, Box<Selector>),
}

// A copy of a selector, by its kind: those of two selectors are listed.
macro_rules! copied {
    ($selector:expr, $alloc:expr, $($kind:ident)*) => {
        match $selector {
            Selector::Root(expr) => Ok(Selector::Root(boxed_copy(expr, None, $alloc)?)),
            $(Selector::$kind(first, second) => {
                let first = first.boxed_copy($alloc)?;
                let second = second.boxed_copy($alloc)?;
                Ok(Selector::$kind(first, second))
            })*
        }
    };
}

// Whether two selectors are one tree, by their kind.
macro_rules! compared {
    ($selector:expr, $other:expr, $($kind:ident)*) => {
        match ($selector, $other) {
            (Selector::Root(expr), Selector::Root(own)) => expr.is_same(own),
            $((Selector::$kind(first, second), Selector::$kind(own, own_second)) => {
                first.is_same(own) && second.is_same(own_second)
            })*
            _ => false,
        }
    };
}

// Feeds each node to the hasher, before those below it, by the kind: of two selectors each is listed with its number.
macro_rules! fed {
    ($selector:expr, $state:expr, $($kind:ident $number:literal)*) => {
        match $selector {
            Selector::Root(expr) => {
                $state.write_u8(0);
                expr.feed($state);
            }
            $(Selector::$kind(first, second) => {
                $state.write_u8($number);
                first.feed($state);
                second.feed($state);
            })*
        }
    };
}

impl Selector {
    #[cycle(expr_copies)]
    pub fn try_clone(&self, alloc: Global) -> Result<Selector, PlanError>
        ensures ok { IfOk result (λ copy. selector_tree copy ≡ selector_tree self.now) }
        ensures err { IfErr result (λ error. error ≡ no_memory) }
    {
        copied!(self, alloc, Add Sub ExclusiveOr Intersect)
    }

    // A copy in a box.
    #[cycle(expr_copies)]
    fn boxed_copy(&self, alloc: Global) -> Result<Box<Selector>, PlanError>
        ensures ok { IfOk result (λ copy. selector_tree copy.value ≡ selector_tree self.now) }
        ensures err { IfErr result (λ error. error ≡ no_memory) }
    {
        let copy = self.try_clone(alloc)?;
        let copy = Box::new(alloc, copy)?;
        Ok(copy)
    }

    // Whether both are one tree: the same nodes in the same places.
    #[cycle(same_exprs)]
    pub(crate) fn is_same(&self, other: &Selector) -> bool
        ensures { result ≡ same_source (selector_tree self.now) (selector_tree other.now) }
    {
        compared!(self, other, Add Sub ExclusiveOr Intersect)
    }

    // Feeds each node to the hasher, before those below it.
    #[cycle(expr_hashes)]
    pub(crate) fn feed<H: Hasher>(&self, state: &mut H)
        ensures { state.new ≡ fold H.write state.old (source_writes (selector_tree self.now)) }
    {
        fed!(self, state, Add 1 Sub 2 ExclusiveOr 3 Intersect 4);
    }
}

impl PartialEq for Selector {
    ghost use Rattle.std.specs.Cmp.{partial_equiv_from_equiv};
    ghost use Rattle.plan_dsl.specs.Sources.{same_source};
    ghost use Rattle.plan_dsl.specs.Expressions.{selector_tree};
    ghost use Rattle.plan_dsl.specs.ViewLaws.{same_selector_is_equivalence};

    ghost eq = { λ a b. same_source (selector_tree a) (selector_tree b) };

    ghost laws = { partial_equiv_from_equiv same_selector_is_equivalence };

    fn eq(&self, other: &Selector) -> bool {
        self.is_same(other)
    }
}

impl Eq for Selector {
    ghost use Rattle.plan_dsl.specs.ViewLaws.{same_selector_is_equivalence};

    ghost laws = { same_selector_is_equivalence };
}

impl Hash for Selector {
    ghost use Rattle.plan_dsl.specs.Expressions.{selector_tree};
    ghost use Rattle.plan_dsl.specs.Sources.{source_writes};
    ghost use Rattle.plan_dsl.specs.ViewLaws.{same_selector_hash};

    ghost hash_input = { λ a. source_writes (selector_tree a) };

    ghost respects_eq = { same_selector_hash };

    fn hash<H: Hasher>(&self, state: &mut H) {
        self.feed(state);
    }
}
