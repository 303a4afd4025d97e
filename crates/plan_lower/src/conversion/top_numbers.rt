//! Numbers without a type at the top of an expression, which get the one that they have alone.
ghost use Rattle.std.specs.Prelude.{◌≡◌};
ghost use Rattle.plan_dsl.specs.Expressions.{plain_tree, tree_of};
ghost use Rattle.plan_dsl.specs.Literals.{settled};
ghost use Rattle.plan_dsl.specs.Sources.{is_plain};
ghost use Rattle.plan_lower.specs.TopNumbers.{settled_at_top, settled_own, settles_at_top, settles_own};

use plan_dsl::expr::Expr;
use plan_dsl::literal::LiteralValue;
use plan_types::common_type::materialize_dyn_int;

/// Whether a number without a type at the top, or directly under an alias there, has one alone.
pub(crate) fn settles_at_top(expr: &Expr) -> bool
    ensures { result ≡ settles_at_top (plain_tree expr.now) }
{
    match expr {
        Expr::Alias(expr, _) => settles_own(expr),
        _ => settles_own(expr),
    }
}

// Whether a number without a type at the top has one alone.
fn settles_own(expr: &Expr) -> bool
    ensures { result ≡ settles_own (plain_tree expr.now) }
{
    match expr {
        Expr::Literal(LiteralValue::Int(number)) => materialize_dyn_int(*number).is_some(),
        _ => true,
    }
}

/// Makes of an expression what is added by itself: a number without a type at the top, or directly under an alias there,
/// gets the one that it has alone.
pub(crate) fn settle_at_top(expr: &mut Expr)
    ensures settled { plain_tree expr.new ≡ settled_at_top (plain_tree expr.old) }
    ensures plain { is_plain (tree_of expr.new) ≡ is_plain (tree_of expr.old) }
{
    match expr {
        Expr::Alias(expr, _) => settle_own(expr),
        _ => settle_own(expr),
    }
}

// A number without a type at the top, but not under an alias, gets the one that it has alone.
fn settle_own(expr: &mut Expr)
    ensures settled { plain_tree expr.new ≡ settled_own (plain_tree expr.old) }
    ensures plain { is_plain (tree_of expr.new) ≡ is_plain (tree_of expr.old) }
{
    match expr {
        Expr::Literal(value) => value.settle(),
        _ => {}
    }
}

/// Makes of an expression what a plan's node takes: a number without a type at its top, maybe under aliases, gets the
/// one that it has alone.
pub(crate) fn settle(expr: &mut Expr)
    ensures settled { plain_tree expr.new ≡ settled (plain_tree expr.old) }
    ensures plain { is_plain (tree_of expr.new) ≡ is_plain (tree_of expr.old) }
{
    match expr {
        Expr::Alias(expr, _) => settle(expr),
        _ => settle_own(expr),
    }
}
