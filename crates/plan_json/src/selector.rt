//! Selectors, from what was read of a key's value.
ghost use Rattle.std.specs.Prelude.{◌≡◌, Some};
ghost use Rattle.plan_dsl.specs.Expressions.{selector_tree};
ghost use Rattle.plan_json.specs.Arguments.{args_view};
ghost use Rattle.plan_json.specs.Forms.{AllFit, asked_in, selector_asks, selector_says};
ghost use Rattle.plan_json.specs.declared.forms.SelectorKey.TheVariants as from;

use super::arguments::{Args, expression, one, selector, two};
use super::forms::{Joining, SelectorKey};
use plan_dsl::selector::Selector;

// The selector of that key.
pub(crate) fn assemble_selector(key: SelectorKey, args: Args) -> Selector
    requires { AllFit (asked_in (selector_asks key)) (args_view args) }
    ensures { selector_says key (args_view args) ≡ Some (selector_tree result) }
{
    match key {
        SelectorKey::Root => Selector::Root(expression(one(args))),
        SelectorKey::Joined(by) => joined(by, args),
    }
}

// Two selectors, joined.
fn joined(by: Joining, args: Args) -> Selector
    requires { AllFit (asked_in (selector_asks (from.Joined by))) (args_view args) }
    ensures { selector_says (from.Joined by) (args_view args) ≡ Some (selector_tree result) }
{
    let (first, second) = two(args);
    let (first, second) = (selector(first), selector(second));
    match by {
        Joining::Add => Selector::Add(first, second),
        Joining::Sub => Selector::Sub(first, second),
        Joining::And => Selector::Intersect(first, second),
        Joining::Xor => Selector::ExclusiveOr(first, second),
    }
}
