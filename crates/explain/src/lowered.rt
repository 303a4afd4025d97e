//! The expressions of a lowered plan, as a person reads them: by the words that a query has for them. Kinds of plans and of
//! expressions are told here alone.
ghost use Rattle.std.specs.Prelude.{map};
ghost use Rattle.plan_arena.specs.Denotation.{DenotesTree};
ghost use Rattle.plan_arena.specs.Items.{HoldsExpression, HoldsPlan, named_node};
ghost use Rattle.plan_report.specs.Casts.{DenoteOutputs};

use plan_arena::aexpr::AExpr;
use plan_arena::arena::{Arena, Node};
use plan_arena::expr_ir::ExprIR;
use plan_arena::ir::IR;
use plan_arena::plan::IRPlan;
use plan_dsl::aggregate::GroupByMethod;
use plan_dsl::distinct_options::{ColumnNames, DistinctOptionsIR, UniqueKeepStrategy};
use plan_dsl::function::FunctionIR;
use plan_dsl::function_expr::FunctionExpr;
use plan_dsl::literal::LiteralValue;
use plan_dsl::sort_options::SortOptions;
use plan_dsl::udfs::Udfs;
use plan_dsl::unpivot_args::UnpivotArgsIR;
use plan_infer::aexpr_field::AExprTyping;
use plan_infer::field::Context;
use plan_report::report::dtype_text;
use plan_types::dtype::CastOptions;
use plan_types::schema::Schema;
use plan_types::text::PlSmallStr;
use serde_json::Value;
use std::alloc::{AllocError, Global};
use std::fmt::Write;

/// Where expressions stand: in an arena, over a frame of a schema.
#[derive(Drop)]
struct Site<'a> {
    alloc: Global,
    arena: &'a Arena<AExpr>,
    schema: &'a Schema,
    udfs: &'a Udfs,
}

/// For each node of a lowered plan, a node before those below it, a line for each of its expressions.
pub(crate) fn notes(alloc: Global, plan: &IRPlan, udfs: &Udfs) -> Result<Vec<String>, AllocError>
    requires { DenotesTree (HoldsPlan plan.now.expr_arena plan.now.lp_arena) plan.now.lp_top.0 }
{
    let mut notes = Vec::new(alloc);
    let mut node = plan.lp_top;
    for _level in 0..plan.lp_arena.len() {
        let item = plan.lp_arena.get(node);
        let Some(input) = item.get_input() else {
            break;
        };
        let site = Site {
            alloc,
            arena: &plan.expr_arena,
            schema: schema_at(plan, input),
            udfs,
        };
        let (outputs, aggs) = item.expressions();
        let outputs = site.lines(item, outputs, Context::Default)?;
        let aggs = site.lines(item, aggs, Context::Aggregation)?;
        let options = options_line(alloc, item)?;
        notes.push(format!(in alloc; "{outputs}{aggs}{options}")?)?;
        node = input;
    }
    Ok(notes)
}

/// The schema of a node's frame.
pub(crate) fn schema_at(plan: &IRPlan, node: Node) -> &Schema
    requires { DenotesTree (HoldsPlan plan.now.expr_arena plan.now.lp_arena) node.0 }
{
    plan.lp_arena.get(node).schema_ref(&plan.lp_arena)
}

impl Site<'_> {
    // A line for each of a node's expressions, with its name where that is one of a column.
    fn lines(&self, item: &IR, outputs: &[ExprIR], context: Context) -> Result<String, AllocError>
        requires { DenoteOutputs self.now.arena.now (map named_node outputs.now) }
    {
        let mut lines = String::new(self.alloc);
        for output in outputs {
            let text = self.typed(output.node(), context)?;
            let name = naming(self.alloc, item, output)?;
            write!(lines, "    {text}{name}\n")?;
        }
        Ok(lines)
    }

    // The text of the expression at a node, and its type. In a lowered plan each has one, so only memory can be lacking.
    #[cycle(words)]
    fn typed(&self, node: Node, context: Context) -> Result<String, AllocError>
        requires { DenotesTree (HoldsExpression self.now.arena.now) node.0 }
    {
        let text = self.words(node, node, false)?;
        let item = self.arena.get(node);
        let dtype = item
            .to_dtype(self.alloc, self.schema, context, self.arena, self.udfs)
            .map_err(|_| AllocError)?;
        format!(in self.alloc; "{text}: {}", dtype_text(self.alloc, &dtype)?)
    }

    // The text of the expression at a node, in parentheses where it is asked for and needs any. Lowering adds the nodes that
    // a query has from the bottom up, and behind all of them the casts that it puts in. So a cast was put in where its
    // number is greater than that of the node over it.
    #[cycle(words)]
    fn words(&self, node: Node, over: Node, closed: bool) -> Result<String, AllocError>
        requires { DenotesTree (HoldsExpression self.now.arena.now) node.0 }
    {
        let item = self.arena.get(node);
        if let AExpr::Cast { expr, dtype, .. } = item
            && node.0 > over.0
        {
            let input = self.typed(*expr, Context::Default)?;
            let dtype = dtype_text(self.alloc, dtype)?;
            return format!(in self.alloc; "cast({input} to {dtype})");
        }
        let is_open = matches!(item, AExpr::BinaryExpr { .. } | AExpr::Cast { .. });
        let inputs = item.input_nodes();
        let mut texts = Vec::new(self.alloc);
        for index in 0..inputs.len() {
            texts.push(self.words(inputs.at(index), node, is_open)?)?;
        }
        let text = item_words(self.alloc, item, texts.as_slice())?;
        if closed && is_open {
            return format!(in self.alloc; "({text})");
        }
        Ok(text)
    }
}

// What a line says of the name of an expression: predicates and keys of a sort give no columns.
fn naming(alloc: Global, item: &IR, output: &ExprIR) -> Result<String, AllocError> {
    match item {
        IR::Filter { .. } | IR::Sort { .. } => Ok(String::new(alloc)),
        _ => format!(in alloc; " as {}", quoted(alloc, output.output_name().as_str())?),
    }
}

// A line of what a node does besides its expressions, where it says more than its name.
fn options_line(alloc: Global, item: &IR) -> Result<String, AllocError> {
    match item {
        IR::Cache { id, .. } => format!(in alloc; "    id {id}\n"),
        IR::Distinct { options, .. } => distinct_line(alloc, options),
        IR::MapFunction { function, .. } => {
            format!(in alloc; "    {}\n", function_words(alloc, function)?)
        }
        IR::Slice { offset, len, .. } => format!(in alloc; "    offset {offset}, length {len}\n"),
        IR::Sort { sort_options, .. } => {
            let descending = sort_options.descending.items.as_slice();
            let nulls_last = sort_options.nulls_last.items.as_slice();
            format!(in alloc; "    descending {descending:?}, nulls last {nulls_last:?}\n")
        }
        _ => Ok(String::new(alloc)),
    }
}

// Which of equal rows a distinct keeps, and by which columns rows are equal where it isn't by all.
fn distinct_line(alloc: Global, options: &DistinctOptionsIR) -> Result<String, AllocError> {
    let keep = match options.keep_strategy {
        UniqueKeepStrategy::First => "first",
        UniqueKeepStrategy::Last => "last",
        UniqueKeepStrategy::None => "none",
        UniqueKeepStrategy::Any => "any",
    };
    let Some(subset) = &options.subset else {
        return format!(in alloc; "    keep {keep}\n");
    };
    format!(in alloc; "    keep {keep} by {}\n", columns_words(alloc, subset)?)
}

// What a function does, and with which columns and names.
fn function_words(alloc: Global, function: &FunctionIR) -> Result<String, AllocError> {
    match function {
        FunctionIR::Explode { columns } => {
            format!(in alloc; "explode {}", columns_words(alloc, columns)?)
        }
        FunctionIR::Rechunk => String::from_str(alloc, "rechunk"),
        FunctionIR::Rename { existing, new, .. } => rename_words(alloc, existing, new),
        FunctionIR::RowIndex { name, offset } => {
            let name = quoted(alloc, name.as_str())?;
            format!(in alloc; "row index as {name}, offset {}", offset.unwrap_or(0))
        }
        FunctionIR::Unnest { columns } => {
            format!(in alloc; "unnest {}", columns_words(alloc, columns)?)
        }
        FunctionIR::Unpivot { args } => unpivot_words(alloc, args),
    }
}

// Each column that gets a new name, and that name.
fn rename_words(
    alloc: Global,
    existing: &ColumnNames,
    new: &ColumnNames,
) -> Result<String, AllocError> {
    let mut pairs = Vec::new(alloc);
    for (column, name) in existing.items.iter().zip(new.items.iter()) {
        let column = name_words(alloc, column.as_str())?;
        let name = quoted(alloc, name.as_str())?;
        pairs.push(format!(in alloc; "{column} as {name}")?)?;
    }
    format!(in alloc; "rename [{}]", pairs.as_slice().join(alloc, ", ")?)
}

// The columns whose values an unpivot puts below each other, those beside which they stand, and the names of its own two.
fn unpivot_words(alloc: Global, args: &UnpivotArgsIR) -> Result<String, AllocError> {
    let on = if args.on.items.is_empty() {
        String::from_str(alloc, "all other columns")?
    } else {
        columns_words(alloc, &args.on)?
    };
    let index = columns_words(alloc, &args.index)?;
    let variable = quoted_or(alloc, &args.variable_name, "variable")?;
    let value = quoted_or(alloc, &args.value_name, "value")?;
    format!(in alloc; "unpivot {on} beside {index} as {variable}, {value}")
}

// The name in quotes, or else the text.
fn quoted_or(alloc: Global, name: &Option<PlSmallStr>, text: &str) -> Result<String, AllocError> {
    match name {
        Some(name) => quoted(alloc, name.as_str()),
        None => quoted(alloc, text),
    }
}

// Columns' names, in their order.
fn columns_words(alloc: Global, columns: &ColumnNames) -> Result<String, AllocError> {
    let mut names = Vec::new(alloc);
    for name in columns.items.as_slice() {
        names.push(name_words(alloc, name.as_str())?)?;
    }
    format!(in alloc; "[{}]", names.as_slice().join(alloc, ", ")?)
}

// The text of an item over the texts of its inputs, in their order.
fn item_words(alloc: Global, item: &AExpr, inputs: &[String]) -> Result<String, AllocError> {
    match (item, inputs) {
        (AExpr::Column(name), _) => name_words(alloc, name.as_str()),
        (AExpr::Literal(value), _) => literal_words(alloc, value),
        (AExpr::BinaryExpr { op, .. }, [left, right]) => format!(in alloc; "{left} {op} {right}"),
        (AExpr::Cast { dtype, options, .. }, [input]) => {
            // What it does with a value that has no place in its target.
            let mode = match options {
                CastOptions::Strict => "",
                CastOptions::NonStrict => " or null",
                CastOptions::Overflowing => " wrapping",
            };
            format!(in alloc; "{input} as {}{mode}", dtype_text(alloc, dtype)?)
        }
        (AExpr::Ternary { .. }, [truthy, predicate, falsy]) => {
            format!(in alloc; "if({predicate}, {truthy}, {falsy})")
        }
        (AExpr::Window { order_by, .. }, [function, keys @ ..]) => match (order_by, keys) {
            (Some((_, options)), [by, keys @ ..]) => {
                let keys = keys.join(alloc, ", ")?;
                let order = sort_words(alloc, *options)?;
                format!(in alloc; "over({function}, [{keys}], [{by}{order}])")
            }
            _ => format!(in alloc; "over({function}, [{}])", keys.join(alloc, ", ")?),
        },
        _ => call_words(alloc, item, inputs),
    }
}

// A word, the inputs in parentheses, and what the item says beside them, as a query has it.
fn call_words(alloc: Global, item: &AExpr, inputs: &[String]) -> Result<String, AllocError> {
    let word = match item {
        AExpr::Len => "len",
        AExpr::Slice { .. } => "slice",
        AExpr::Explode(_) => "explode",
        AExpr::Gather { .. } => "gather",
        AExpr::Filter { .. } => "filter",
        AExpr::Sort { .. } => "sort",
        AExpr::SortBy { .. } => "sort_by",
        AExpr::Alias(_, _) => "alias",
        AExpr::Agg(aggregate) => GroupByMethod::from(*aggregate).name(),
        AExpr::Function { function, .. } => function.name(),
        _ => "",
    };
    let inputs = inputs.join(alloc, ", ")?;
    let options = option_words(alloc, item)?;
    format!(in alloc; "{word}({inputs}{options})")
}

// What an item that is written as a call says beside its inputs.
fn option_words(alloc: Global, item: &AExpr) -> Result<String, AllocError> {
    match item {
        AExpr::Gather { returns_scalar, .. } => format!(in alloc; ", {returns_scalar}"),
        AExpr::Sort { options, .. } => sort_words(alloc, *options),
        AExpr::SortBy { sort_options, .. } => {
            let descending = sort_options.descending.items.as_slice();
            let nulls_last = sort_options.nulls_last.items.as_slice();
            format!(in alloc; ", {descending:?}, {nulls_last:?}")
        }
        AExpr::Alias(_, name)
        | AExpr::Function {
            function: FunctionExpr::FieldByName(name),
            ..
        } => format!(in alloc; ", {}", quoted(alloc, name.as_str())?),
        _ => Ok(String::new(alloc)),
    }
}

fn sort_words(alloc: Global, options: SortOptions) -> Result<String, AllocError> {
    format!(in alloc; ", {}, {}", options.descending, options.nulls_last)
}

/// A text in quotes, as JSON has it.
pub(crate) fn quoted(alloc: Global, text: &str) -> Result<String, AllocError> {
    Value::try_from_str(alloc, text)?.to_string(alloc)
}

// A column's name: as it is where it is of letters, digits and underlines, with no digit in front; else in quotes.
fn name_words(alloc: Global, name: &str) -> Result<String, AllocError> {
    let is_word = name
        .chars()
        .all(|each| each.is_ascii_alphanumeric() || each == '_');
    match name.chars().next() {
        Some(first) if is_word && !first.is_ascii_digit() => String::from_str(alloc, name),
        _ => format!(in alloc; "col({})", quoted(alloc, name)?),
    }
}

// The literal's value. One of time has its type's word in front.
fn literal_words(alloc: Global, value: &LiteralValue) -> Result<String, AllocError> {
    match value {
        LiteralValue::Null => String::from_str(alloc, "null"),
        LiteralValue::Boolean(truth) => truth.to_string(alloc),
        LiteralValue::String(text) => quoted(alloc, text.as_str()),
        LiteralValue::Int(number) => number.to_string(alloc),
        LiteralValue::Int8(number) => number.to_string(alloc),
        LiteralValue::Int16(number) => number.to_string(alloc),
        LiteralValue::Int32(number) => number.to_string(alloc),
        LiteralValue::Int64(number) => number.to_string(alloc),
        LiteralValue::UInt8(number) => number.to_string(alloc),
        LiteralValue::UInt16(number) => number.to_string(alloc),
        LiteralValue::UInt32(number) => number.to_string(alloc),
        LiteralValue::UInt64(number) => number.to_string(alloc),
        LiteralValue::Date(number) => format!(in alloc; "Date {number}"),
        LiteralValue::Time(number) => format!(in alloc; "Time {number}"),
        LiteralValue::DateTime(number, _) => format!(in alloc; "Datetime {number}"),
        LiteralValue::Duration(number, _) => format!(in alloc; "Duration {number}"),
    }
}
