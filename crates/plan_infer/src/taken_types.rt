//! The types to which a node takes its operands.
ghost use Rattle.std.specs.Prelude.{◌≡◌, ◌<◌, ◌↔◌, [], ◌∷◌, IsTrue, Some, length, slice_get};

use plan_types::dtype::DataType;
use std::marker::Model;

/// The types to which a node takes its operands, in order. There are none where it takes them as they are. Two that are
/// one type take no memory of their own. Contracts see the list.
#[derive(Drop)]
pub struct TakenTypes {
    kept: Kept,
}

// How the types are kept.
#[derive(Drop)]
enum Kept {
    Nothing,
    Both(DataType),
    Listed(Vec<DataType>),
}

impl Model for TakenTypes {
    ghost use Rattle.std.specs.Coded.{codes};
    ghost use Rattle.std.specs.Prelude.{List};
    ghost use Rattle.plan_types.specs.contracts.dtype.DataType as dtypes;
    ghost use Rattle.plan_types.specs.declared.dtype.DataType.{DataType};
    ghost use Rattle.plan_infer.specs.TakenTypes.{kept_types};

    ghost Value = { List DataType };

    ghost coded = { Prim.hlevel (codes, dtypes.the_row.coded) };

    ghost view = { λ types. kept_types types.kept };
}

impl TakenTypes {
    /// Those of a node that takes its operands as they are.
    pub fn none() -> TakenTypes
        ensures { result ≡ [] }
    {
        TakenTypes {
            kept: Kept::Nothing,
        }
    }

    /// Those of two operands that are both taken to the type.
    pub fn both(dtype: DataType) -> TakenTypes
        ensures { result ≡ dtype ∷ dtype ∷ [] }
    {
        TakenTypes {
            kept: Kept::Both(dtype),
        }
    }

    pub fn listed(types: Vec<DataType>) -> TakenTypes
        ensures { result ≡ types.items }
    {
        TakenTypes {
            kept: Kept::Listed(types),
        }
    }

    pub fn is_empty(&self) -> bool
        ensures { IsTrue result ↔ (self.now ≡ []) }
    {
        match &self.kept {
            Kept::Nothing => true,
            Kept::Both(_) => false,
            Kept::Listed(types) => types.is_empty(),
        }
    }

    /// The type of that number.
    pub fn get(&self, index: usize) -> &DataType
        requires { index < length self.now }
        ensures { slice_get self.now index ≡ Some result.now }
    {
        match &self.kept {
            Kept::Nothing => unreachable!(),
            Kept::Both(dtype) => dtype,
            Kept::Listed(types) => &types[index],
        }
    }
}
