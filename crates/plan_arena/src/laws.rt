//! Laws of lowered plans. The functions do nothing: their clauses are the laws.
ghost use Rattle.plan_arena.specs.Laws.{AcceptedRunsSoundly, DenotesOnePlan, ExpressionsStay, PlansStay};

/// What is accepted and strict runs soundly, and a lowered plan is one plan.
pub fn plan_laws()
    ensures sound { AcceptedRunsSoundly }
    ensures one { DenotesOnePlan }
{}

/// What nodes denote stays as arenas grow.
pub fn growth_laws()
    ensures expressions { ExpressionsStay }
    ensures plans { PlansStay }
{}
