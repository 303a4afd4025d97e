//! What a kind of expression asks of its operands, and what it makes of them.
ghost use Rattle.std.specs.Prelude.{◌≡◌};
ghost use Rattle.plan_dsl.specs.Signatures.{asked_at, asks, asks_one, shares, takes};

use plan_types::error::ErrorKind;

/// What is asked of the type that an operand has alone, and the type to which it is taken.
#[derive(Clone, Copy)]
pub enum Ask {
    /// Any type, which is kept.
    Any,
    /// A type whose values are in an order, or null, which is kept.
    Sortable,
    /// Truth values or null, taken to truth values.
    Boolean,
    /// A type that can be cast to truth values, taken to these.
    Castable,
    /// An integer, taken to places.
    Place,
    /// An integer or null, taken to places.
    Length,
    /// A type whose values are added up: an integer, truth values or a span of time, which is kept.
    Summable,
    /// A type of lists, which is kept.
    Listed,
}

/// What is asked of an operand.
#[derive(Clone, Copy)]
pub struct Asked {
    pub ask: Ask,
    /// Whether its column must have one value.
    pub one: bool,
}

/// The own type of a kind.
#[derive(Clone, Copy)]
pub enum OwnType {
    /// That of the first operand.
    First,
    /// That of its items where it is a list, else its own.
    Item,
    /// Lists of it.
    ListOf,
    /// That of counts.
    Count,
    /// That of its sums.
    Total,
    /// Lists of row numbers.
    Rows,
    /// Truth values.
    Truths,
}

/// Which operand is taken to the common type of the first operand and itself, with the first. What is asked of the types
/// of these two is nothing else.
#[derive(Clone, Copy)]
pub enum Sharing {
    Alone,
    WithSecond,
    WithThird,
}

/// Whether the column of a kind may have another length than one.
#[derive(Clone, Copy)]
pub enum Many {
    Never,
    Always,
    /// Where that of the first operand may.
    AsFirst,
    /// Where that of some operand may.
    WhereAny,
}

/// What a kind of expression asks of its operands, one by one, and what it makes of them.
#[derive(Clone, Copy)]
pub struct Signature {
    pub first: Asked,
    pub second: Asked,
    /// Of each operand after the second.
    pub rest: Asked,
    pub own: OwnType,
    pub many: Many,
    pub sharing: Sharing,
}

impl Signature {
    /// What is asked of the operand at a place.
    pub fn asked(&self, place: usize) -> Asked
        ensures { result ≡ asked_at self.now place }
    {
        match place {
            0 => self.first,
            1 => self.second,
            _ => self.rest,
        }
    }
}

/// An operand is asked for this, of whatever length its column is.
pub fn asks(ask: Ask) -> Asked
    ensures { result ≡ asks ask }
{
    Asked { ask, one: false }
}

/// An operand of one value is asked for this.
pub fn asks_one(ask: Ask) -> Asked
    ensures { result ≡ asks_one ask }
{
    Asked { ask, one: true }
}

/// The signature of a kind: what it asks of its first operand, of its second and of each other, and what it makes of them.
pub fn takes(
    first: Asked,
    second: Asked,
    rest: Asked,
    own: OwnType,
    many: Many,
) -> Result<Signature, ErrorKind>
    ensures { result ≡ takes first second rest own many }
{
    Ok(Signature {
        first,
        second,
        rest,
        own,
        many,
        sharing: Sharing::Alone,
    })
}

/// The signature of a kind whose first operand has a common type with another, which is its own: what it asks of its
/// first operand, of its second and of each other.
pub fn shares(
    sharing: Sharing,
    first: Asked,
    second: Asked,
    rest: Asked,
    many: Many,
) -> Result<Signature, ErrorKind>
    ensures { result ≡ shares sharing first second rest many }
{
    Ok(Signature {
        first,
        second,
        rest,
        own: OwnType::First,
        many,
        sharing,
    })
}
