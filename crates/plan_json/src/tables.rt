//! The tables that a query declares.
ghost use Rattle.std.specs.Prelude.{◌<◌, ◌^◌, length};

use super::error::JsonError;
use indexmap::IndexMap;
use plan_types::schema::Schema;
use plan_types::text::PlSmallStr;
use std::alloc::Global;

/// A table's name and its columns.
#[derive(Drop)]
pub(crate) struct Table {
    pub(crate) name: PlSmallStr,
    pub(crate) schema: Schema,
}

/// Tables, numbered from 0. No two have one name. Contracts see their list as `declared`.
#[derive(Drop)]
pub struct Tables {
    items: IndexMap<PlSmallStr, Schema>,
    ghost numbered: { length items.entries < 2 ^ 32 },
}

impl Tables {
    ghost use Rattle.std.specs.Prelude.{◌≡◌, ◌+◌, ◌↔◌, [], ◌∷◌, ◌++◌, false, slice_get, IsTrue, OnOk, OnErr, IfErr};
    ghost use Rattle.std.specs.Option.{option_map};
    ghost use Rattle.plan_types.specs.Schemas.{columns, names_of, is_among};
    ghost use Rattle.plan_json.specs.Leaves.{table_at};
    ghost use Rattle.plan_json.specs.Tables.{declared};

    /// No tables.
    pub(crate) fn new(alloc: Global) -> Tables
        ensures { declared result ≡ [] }
    {
        Tables {
            items: IndexMap::new(alloc),
        }
    }

    /// How many tables there are.
    pub fn len(&self) -> usize
        ensures { result ≡ length (declared self.now) }
    {
        self.items.len()
    }

    pub fn is_empty(&self) -> bool
        ensures { IsTrue result ↔ (declared self.now ≡ []) }
    {
        self.items.is_empty()
    }

    /// The name and the columns of the table of that number.
    pub fn get_at_index(&self, number: usize) -> Option<(&PlSmallStr, &Schema)>
        ensures { option_map (λ table. (table.0.now, columns table.1.now)) result
            ≡ slice_get (declared self.now) number }
    {
        self.items.get_index(number)
    }

    #[tactic(auto, using(crate::proofs::Lemmas::of_tables))]
    pub(crate) fn contains(&self, name: &PlSmallStr) -> bool
        ensures { result ≡ is_among name.now (names_of (declared self.now)) }
    {
        self.items.contains_key(name)
    }

    /// The number and the columns of the table of that name.
    #[tactic(auto, using(crate::proofs::Lemmas::of_tables))]
    pub(crate) fn find(&self, name: &PlSmallStr) -> Option<(u32, &Schema)>
        ensures { option_map (λ table. (table.0, columns table.1.now)) result
            ≡ table_at (declared self.now) name.now }
    {
        match self.items.get_full(name) {
            None => None,
            Some((number, _, schema)) => Some((number as u32, schema)),
        }
    }

    /// Declares one more table.
    #[tactic(auto, using(crate::proofs::Lemmas::of_tables))]
    pub(crate) fn push(&mut self, table: Table) -> Result<(), JsonError>
        requires new { is_among table.name (names_of (declared self.old)) ≡ false }
        requires room { length (declared self.old) + 1 < 2 ^ 32 }
        ensures ok { OnOk result (declared self.new
            ≡ declared self.old ++ (table.name, columns table.schema) ∷ []) }
        ensures unchanged { OnErr result (declared self.new ≡ declared self.old) }
        ensures err { IfErr result (λ error. error ≡ JsonError.NoMemory) }
    {
        let Table { name, schema } = table;
        self.items.insert(name, schema)?;
        Ok(())
    }
}
