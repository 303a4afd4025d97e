//! Refusals: of a plan, which rule is broken, and where; of a cast of a value, why.
ghost use Rattle.std.specs.Prelude.{◌≡◌, ◌<◌, [], ◌∷◌, IfOk, length, slice_index};

use std::alloc::{AllocError, AllocFailed, Global};
use std::fmt;
use std::marker::Model;
use thiserror::Error;

/// The rule that a plan breaks.
#[derive(Clone, Copy, Debug, PartialEq, Eq, Hash)]
pub enum ErrorKind {
    /// An expression names a column that the schema at that place lacks.
    ColumnNotFound,
    /// Two outputs of one node have one name.
    Duplicate,
    /// A place that needs a common type has none.
    SchemaMismatch,
    /// A rule of types that names this kind is broken.
    InvalidOperation,
    /// What is to be made can't be: flags of a sort are of a wrong number.
    ComputeError,
    /// Memory ran out. It may stand in place of any other answer.
    NoMemory,
}

/// Where a node stands in a plan: the numbers of the children on the way from the top to it.
#[derive(Debug, Drop)]
pub struct Place {
    // The step that leads to the node itself comes first; none where no step was taken.
    steps: Option<Vec<u64>>,
}

impl Model for Place {
    ghost use Rattle.std.specs.Prelude.{ℕ, List};
    ghost use Rattle.plan_types.specs.Places.{outermost_first};

    ghost Value = { List ℕ };

    ghost view = { λ place. outermost_first place.steps };
}

impl Place {
    /// The place of the top node.
    pub fn top() -> Place
        ensures { result ≡ [] }
    {
        Place { steps: None }
    }

    /// The place as a plan sees it that has the place's plan as its child of that number.
    pub fn below(self, alloc: Global, child: u64) -> Result<Place, AllocError>
        ensures { IfOk result (λ place. place ≡ child ∷ self) }
    {
        let mut steps = match self.steps {
            Some(steps) => steps,
            None => Vec::new(alloc),
        };
        steps.push(child)?;
        Ok(Place { steps: Some(steps) })
    }

    /// How many steps lead from the top to the node.
    pub fn depth(&self) -> usize
        ensures { result ≡ length self.now }
    {
        match &self.steps {
            Some(steps) => steps.len(),
            None => 0,
        }
    }

    /// The step of that number, counted from the top.
    pub fn step(&self, number: usize) -> u64
        requires { number < length self.now }
        ensures { result ≡ slice_index self.now number }
    {
        match &self.steps {
            Some(steps) => steps[steps.len() - 1 - number],
            None => 0,
        }
    }
}

/// A dot and its number for each step from the top down, and a dot alone at the top.
impl fmt::Display for Place {
    fn fmt<W: fmt::Write>(&self, f: &mut fmt::Formatter<W>) -> fmt::Result {
        if self.depth() == 0 {
            f.write_str(".")?;
        }
        for number in 0..self.depth() {
            write!(f, ".{}", self.step(number))?;
        }
        Ok(())
    }
}

/// A refusal: the rule, and the place of the node that breaks it.
#[derive(Debug, Drop, Error)]
#[error("{kind:?} at {place}")]
pub struct PlanError {
    pub kind: ErrorKind,
    pub place: Place,
}

impl PlanError {
    /// A refusal at the top.
    pub fn at_top(kind: ErrorKind) -> PlanError
        ensures { result ≡ record { kind = kind; place = [] } }
    {
        PlanError {
            kind,
            place: Place::top(),
        }
    }
}

impl From<AllocError> for PlanError {
    ghost use Rattle.std.specs.Prelude.{◌≡◌};
    ghost use Rattle.plan_types.specs.Errors.{no_memory};

    ghost from_gives = { λ _ error. error ≡ no_memory };

    fn from(_error: AllocError) -> PlanError {
        PlanError::at_top(ErrorKind::NoMemory)
    }
}

impl<T: Drop> From<AllocFailed<T>> for PlanError {
    ghost use Rattle.std.specs.Prelude.{◌≡◌};
    ghost use Rattle.plan_types.specs.Errors.{no_memory};

    ghost from_gives = { λ _ error. error ≡ no_memory };

    fn from(_error: AllocFailed<T>) -> PlanError {
        PlanError::at_top(ErrorKind::NoMemory)
    }
}

/// Why a cast of a value gives none.
#[derive(Debug, Drop, Error)]
pub enum CastError {
    /// The value has no place in the target, and the cast is strict.
    #[error("the value has no place in the type that it is cast to")]
    Failing,
    /// Memory ran out. It may stand in place of any other answer.
    #[error("no memory")]
    NoMemory,
}

impl From<AllocError> for CastError {
    ghost use Rattle.std.specs.Prelude.{◌≡◌};
    ghost use Rattle.plan_types.specs.declared.error.CastError.TheVariants.{NoMemory};

    ghost from_gives = { λ _ error. error ≡ NoMemory };

    fn from(_error: AllocError) -> CastError {
        CastError::NoMemory
    }
}

impl<T: Drop> From<AllocFailed<T>> for CastError {
    ghost use Rattle.std.specs.Prelude.{◌≡◌};
    ghost use Rattle.plan_types.specs.declared.error.CastError.TheVariants.{NoMemory};

    ghost from_gives = { λ _ error. error ≡ NoMemory };

    fn from(_error: AllocFailed<T>) -> CastError {
        CastError::NoMemory
    }
}
