//! The report of a lowered plan, and of a refusal.
ghost use Rattle.std.specs.Prelude.{◌≡◌, ◌++◌, string_bytes, IfOk, OnOk, Some};
ghost use Rattle.plan_types.specs.Schemas.{columns};
ghost use Rattle.plan_types.specs.Types.{ty};
ghost use Rattle.plan_dsl.specs.Plans.{Plan};
ghost use Rattle.plan_arena.specs.Denotation.{Denotes, DenotesTree};
ghost use Rattle.plan_dsl.specs.PlanRules.{schema_of};
ghost use Rattle.plan_dsl.specs.Registry.{Registry};
ghost use Rattle.plan_arena.specs.Items.{HoldsPlan};
ghost use Rattle.plan_arena.specs.Runs.{IsAccepted};
ghost use Rattle.plan_report.specs.Report.{line_text, plan_lines, casts_line, report_text, refusal_text};
ghost use Rattle.plan_report.specs.Texts.{schema_text, type_text};

use crate::casts::plan_casts;
use crate::texts::{kind_name, push_number, push_path, push_schema, push_type};
use plan_arena::arena::Node;
use plan_arena::plan::IRPlan;
use plan_types::dtype::DataType;
use plan_types::error::{Place, PlanError};
use plan_types::schema::Schema;
use std::alloc::{AllocError, Global};

// The number of an only input among the inputs of its node.
const ONLY_INPUT: u64 = 0;

/// The report of a lowered plan. Of one that is accepted it shows the schemas that the rules give.
pub fn report(alloc: Global, plan: &IRPlan) -> Result<String, AllocError>
    requires { DenotesTree (HoldsPlan plan.now.expr_arena plan.now.lp_arena) plan.now.lp_top.0 }
    ensures { IfOk result (λ text. (registry : Registry) (tree : Plan)
        → Denotes (HoldsPlan plan.now.expr_arena plan.now.lp_arena) plan.now.lp_top.0 tree
        → IsAccepted registry tree → string_bytes text ≡ report_text registry tree) }
{
    let mut text = String::new(alloc);
    let mut path = Vec::new(alloc);
    let schema = plan.root().schema_ref(&plan.lp_arena);
    push_lines(alloc, &mut text, &mut path, plan, plan.lp_top, schema)?;
    let casts = plan_casts(plan, plan.lp_top)?;
    push_casts_line(alloc, &mut text, casts)?;
    Ok(text)
}

/// The line that is printed of a refusal.
pub fn refusal(alloc: Global, error: &PlanError) -> Result<String, AllocError>
    ensures { IfOk result (λ text. string_bytes text ≡ refusal_text error.now.kind error.now.place) }
{
    let mut text = String::from_str(alloc, "refused ")?;
    text.push_str(kind_name(error.kind))?;
    text.push_str(" ")?;
    let steps = steps_of(alloc, &error.place)?;
    push_path(alloc, &mut text, steps.as_slice())?;
    text.push_str("\n")?;
    Ok(text)
}

/// The text of a type, as a report has it.
pub fn dtype_text(alloc: Global, dtype: &DataType) -> Result<String, AllocError>
    ensures { IfOk result (λ text. string_bytes text ≡ type_text (ty dtype.now)) }
{
    let mut text = String::new(alloc);
    push_type(alloc, &mut text, dtype)?;
    Ok(text)
}

/// The text of a schema, as a report has it.
pub fn schema_text(alloc: Global, schema: &Schema) -> Result<String, AllocError>
    ensures { IfOk result (λ text. string_bytes text ≡ schema_text (columns schema.now)) }
{
    let mut text = String::new(alloc);
    push_schema(alloc, &mut text, schema)?;
    Ok(text)
}

// The steps from the top to the place.
fn steps_of(alloc: Global, place: &Place) -> Result<Vec<u64>, AllocError>
    ensures { IfOk result (λ steps. steps.items ≡ place.now) }
{
    let mut steps = Vec::new(alloc);
    for number in 0..place.depth() {
        steps.push(place.step(number))?;
    }
    Ok(steps)
}

// Appends the lines of a node's only input, whose frame has the schema.
macro_rules! lines_below {
    ($alloc:ident, $text:ident, $path:ident, $plan:ident, $input:expr, $schema:expr) => {{
        $path.push(ONLY_INPUT)?;
        push_lines($alloc, $text, $path, $plan, $input, $schema)?;
        $path.pop();
        Ok(())
    }};
}

// Appends the lines of the plan at the node, to which the path leads, and whose frame has the schema.
fn push_lines(
    alloc: Global,
    text: &mut String,
    path: &mut Vec<u64>,
    plan: &IRPlan,
    node: Node,
    schema: &Schema,
) -> Result<(), AllocError>
    requires { DenotesTree (HoldsPlan plan.now.expr_arena plan.now.lp_arena) node.0 }
    ensures lines { OnOk result ((registry : Registry) (tree : Plan)
        → Denotes (HoldsPlan plan.now.expr_arena plan.now.lp_arena) node.0 tree
        → IsAccepted registry tree → schema_of registry tree ≡ Some (columns schema.now)
        → string_bytes text.new ≡ string_bytes text.old ++ plan_lines registry path.old.items tree) }
    ensures path { OnOk result (path.new.items ≡ path.old.items) }
{
    let item = plan.lp_arena.get(node);
    push_line(alloc, text, path.as_slice(), item.name(), schema)?;
    match item.kept_input() {
        Some(kept) => lines_below!(alloc, text, path, plan, kept, schema),
        None => match item.get_input() {
            None => Ok(()),
            Some(input) => {
                let schema = plan.lp_arena.get(input).schema_ref(&plan.lp_arena);
                lines_below!(alloc, text, path, plan, input, schema)
            }
        },
    }
}

// Appends the line of one node.
fn push_line(
    alloc: Global,
    text: &mut String,
    path: &[u64],
    name: &str,
    schema: &Schema,
) -> Result<(), AllocError>
    ensures { OnOk result (string_bytes text.new
        ≡ string_bytes text.old ++ line_text path.now name.now (columns schema.now)) }
{
    push_path(alloc, text, path)?;
    text.push_str(" ")?;
    text.push_str(name)?;
    text.push_str(" ")?;
    push_schema(alloc, text, schema)?;
    text.push_str("\n")
}

fn push_casts_line(alloc: Global, text: &mut String, casts: u64) -> Result<(), AllocError>
    ensures { OnOk result (string_bytes text.new ≡ string_bytes text.old ++ casts_line casts) }
{
    text.push_str("casts ")?;
    push_number(alloc, text, casts)?;
    text.push_str("\n")
}
