//! What is at fault in a query, and where. A part of a plan is asked about by a query of its own, a select of it over the
//! plan below, and a name that may stand twice by the plan with another one. So no kind of plan or expression is told here.

use crate::answers::Refusal;
use crate::check::lower_text;
use crate::lowered::{quoted, schema_at};
use plan_dsl::udfs::Udfs;
use plan_json::error::JsonError;
use plan_report::report::schema_text;
use plan_types::error::{ErrorKind, Place, PlanError};
use plan_types::schema::Schema;
use serde_json::Value;
use std::alloc::{AllocError, Global};
use std::fmt::Write;

/// The most characters of a value that are shown.
const SHOWN: usize = 60;

/// A query, of which parts are asked about. The parts are named by JSON pointers.
#[derive(Drop)]
struct Asked<'a> {
    alloc: Global,
    query: &'a Value,
    udfs: &'a Udfs,
}

/// A part that is at fault: a plan, or the smallest part of one that is refused by itself for breaking a rule of that kind.
#[derive(Drop)]
struct Fault {
    path: String,
    is_plan: bool,
    // What its operands give.
    operands: Vec<(String, Schema)>,
    // The names that the plan is given beside them.
    names: Vec<String>,
}

/// By what a text has no typed plan: the value at fault where it is no query. Else the smallest part of the query that is
/// refused by itself for breaking a rule of that kind, what its operands give, and the columns that are there.
pub(crate) fn detail(
    alloc: Global,
    text: &[u8],
    refusal: &Refusal,
    udfs: &Udfs,
) -> Result<String, AllocError> {
    let query = match Value::from_slice(alloc, text) {
        Ok(query) => query,
        Err(error) if error.is_memory() => return Err(AllocError),
        Err(_) => return Ok(String::new(alloc)),
    };
    let asked = Asked {
        alloc,
        query: &query,
        udfs,
    };
    match refusal {
        Refusal::Plan(error) => asked.plan_detail(error, text.len()),
        Refusal::Text(
            JsonError::Shape { path } | JsonError::Float { path } | JsonError::Name { path },
        ) => format!(in alloc; "  there stands {}\n", asked.shown(path.as_str())?),
        Refusal::Text(JsonError::NotJson | JsonError::NoMemory) => Ok(String::new(alloc)),
    }
}

impl Asked<'_> {
    // What is said of a plan that breaks a rule. Smaller parts that break one of that kind are looked for, so many at most.
    fn plan_detail(&self, error: &PlanError, parts: usize) -> Result<String, AllocError> {
        let plan = self.plan_at(&error.place)?;
        let input = self.input_of(plan.as_str())?;
        let input = self.text_of(input.as_str())?;
        let fault = self.smallest(plan.as_str(), input.as_str(), error.kind, parts)?;
        self.told(&fault, input.as_str(), error.kind)
    }

    // What is said of a part that is at fault, over a plan's text.
    fn told(&self, fault: &Fault, input: &str, kind: ErrorKind) -> Result<String, AllocError> {
        let part = self.shown(fault.path.as_str())?;
        let given = self.given(fault)?;
        let again = if fault.is_plan && kind == ErrorKind::Duplicate {
            self.name_again(fault.path.as_str(), fault.names.as_slice())?
        } else {
            String::new(self.alloc)
        };
        let there = self.columns_of(input)?;
        format!(in self.alloc; "  at {}: {part}\n{given}{again}{there}", fault.path)
    }

    // The smallest part of a plan over that input that breaks a rule of the kind by itself, or the plan.
    fn smallest(
        &self,
        plan: &str,
        input: &str,
        kind: ErrorKind,
        parts: usize,
    ) -> Result<Fault, AllocError> {
        let mut fault = self.fault(plan, true)?;
        let mut left = self.parts_of(self.first_of(plan)?.as_str())?;
        // The first part is the plan below.
        drop(left.pop());
        for _part in 0..parts {
            let Some(path) = left.pop() else {
                break;
            };
            let is_name = fault.is_plan && self.is_text(path.as_str());
            match self.ask_over(input, path.as_str(), is_name)? {
                Ok(_) if is_name => fault.names.push(path)?,
                Ok(schema) => fault.operands.push((path, schema))?,
                Err(Refusal::Text(_)) => left.append(&mut self.parts_of(path.as_str())?)?,
                Err(Refusal::Plan(broken)) => {
                    if broken.kind == kind {
                        left = self.parts_of(path.as_str())?;
                        fault = self.fault(path.as_str(), false)?;
                    } else if is_name {
                        fault.names.push(path)?;
                    }
                }
            }
        }
        Ok(fault)
    }

    // A part that is at fault, of which nothing more is known yet.
    fn fault(&self, path: &str, is_plan: bool) -> Result<Fault, AllocError> {
        Ok(Fault {
            path: String::from_str(self.alloc, path)?,
            is_plan,
            operands: Vec::new(self.alloc),
            names: Vec::new(self.alloc),
        })
    }

    // What a select of a part over a plan's text is answered: of the part itself, and of a name of the column of that name.
    fn ask_over(
        &self,
        input: &str,
        path: &str,
        is_name: bool,
    ) -> Result<Result<Schema, Refusal>, AllocError> {
        let part = self.text_of(path)?;
        let select = if is_name {
            format!(in self.alloc; "{{\"select\":[{input},[{{\"col\":{part}}}]]}}")?
        } else {
            format!(in self.alloc; "{{\"select\":[{input},[{part}]]}}")?
        };
        self.ask(select.as_str())
    }

    // A line for the first of some names of a plan that stands twice: one in whose place another name makes a column of the
    // plan's frame. That other name is the text of the whole query, in which no name is as long.
    fn name_again(&self, plan: &str, names: &[String]) -> Result<String, AllocError> {
        let other = self.text_of("")?;
        for path in names {
            let changed = self.text_with(plan, path.as_str(), other.as_str())?;
            if let Ok(schema) = self.ask(changed.as_str())?
                && schema
                    .iter_names()
                    .any(|name| name.as_str() == other.as_str())
            {
                let name = self.text_of(path.as_str())?;
                return format!(in self.alloc; "  {name} stands twice\n");
            }
        }
        Ok(String::new(self.alloc))
    }

    // The text of a plan with another name at the path.
    fn text_with(&self, plan: &str, path: &str, name: &str) -> Result<String, AllocError> {
        let mut query = self.query.clone()?;
        if let Some(place) = query.pointer_mut(path) {
            *place = Value::try_from_str(self.alloc, name)?;
        }
        let changed = query.pointer(plan).unwrap_or(&Value::Null);
        changed.to_string(self.alloc)
    }

    // A line for the columns that a plan's text gives, where it gives some.
    fn columns_of(&self, plan: &str) -> Result<String, AllocError> {
        match self.ask(plan)? {
            Ok(schema) => {
                let columns = schema_text(self.alloc, &schema)?;
                format!(in self.alloc; "  the columns there are {columns}\n")
            }
            Err(_) => Ok(String::new(self.alloc)),
        }
    }

    // A line for what each operand gives, and behind it, of operands of a plan, one for each name that comes again.
    fn given(&self, fault: &Fault) -> Result<String, AllocError> {
        let mut words = String::new(self.alloc);
        let mut names = Vec::new(self.alloc);
        for (path, schema) in fault.operands.as_slice() {
            let columns = schema_text(self.alloc, schema)?;
            let part = self.shown(path.as_str())?;
            write!(words, "  {path} gives {columns}: {part}\n")?;
            for name in schema.iter_names() {
                if fault.is_plan && names.contains(&name) {
                    let name = quoted(self.alloc, name.as_str())?;
                    write!(words, "  {name} stands twice\n")?;
                }
                names.push(name)?;
            }
        }
        Ok(words)
    }

    // What a plan's text is answered: the columns that it gives, or why it is refused.
    fn ask(&self, plan: &str) -> Result<Result<Schema, Refusal>, AllocError> {
        let tables = self.text_of("/tables")?;
        let query = format!(in self.alloc; "{{\"tables\":{tables},\"plan\":{plan}}}")?;
        match lower_text(self.alloc, query.as_bytes(), self.udfs) {
            Ok(plan) => match schema_at(&plan, plan.lp_top).try_clone(self.alloc) {
                Ok(schema) => Ok(Ok(schema)),
                Err(_) => Err(AllocError),
            },
            Err(Refusal::Text(JsonError::NoMemory)) => Err(AllocError),
            Err(Refusal::Plan(error)) => match error.kind {
                ErrorKind::NoMemory => Err(AllocError),
                _ => Ok(Err(Refusal::Plan(error))),
            },
            Err(refusal) => Ok(Err(refusal)),
        }
    }

    // The parts of a value, the first one last.
    fn parts_of(&self, path: &str) -> Result<Vec<String>, AllocError> {
        let mut parts = Vec::new(self.alloc);
        let value = self.query.pointer(path);
        if let Some(Value::Object(members)) = value {
            for key in members.keys() {
                parts.push(format!(in self.alloc; "{path}/{key}")?)?;
            }
        }
        if let Some(Value::Array(items)) = value {
            for number in (0..items.len()).rev() {
                parts.push(format!(in self.alloc; "{path}/{number}")?)?;
            }
        }
        Ok(parts)
    }

    // The path of the plan at a place.
    fn plan_at(&self, place: &Place) -> Result<String, AllocError> {
        let mut plan = String::from_str(self.alloc, "/plan")?;
        for _step in 0..place.depth() {
            plan = self.input_of(plan.as_str())?;
        }
        Ok(plan)
    }

    // The plan below a plan: what stands under its key, or the first item of the list there.
    fn input_of(&self, plan: &str) -> Result<String, AllocError> {
        let path = self.first_of(plan)?;
        match self.query.pointer(path.as_str()) {
            Some(Value::Array(_)) => self.first_of(path.as_str()),
            _ => Ok(path),
        }
    }

    // Whether a part is a text.
    fn is_text(&self, path: &str) -> bool {
        matches!(self.query.pointer(path), Some(Value::String(_)))
    }

    // The first part of a value that has one: of a plan what stands under its key.
    fn first_of(&self, path: &str) -> Result<String, AllocError> {
        Ok(
            self.parts_of(path)?
                .pop()
                .unwrap_or(String::new(self.alloc)),
        )
    }

    // The text of a value.
    fn text_of(&self, path: &str) -> Result<String, AllocError> {
        let value = self.query.pointer(path).unwrap_or(&Value::Null);
        value.to_string(self.alloc)
    }

    // The text of a value, or its front and two dots where it is long.
    fn shown(&self, path: &str) -> Result<String, AllocError> {
        let text = self.text_of(path)?;
        let mut front: String = text.chars().take(SHOWN).collect(self.alloc)?;
        if front.len() < text.len() {
            front.push_str("..")?;
        }
        Ok(front)
    }
}
