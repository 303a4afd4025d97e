//! Laws of the definitions. The functions do nothing: their clauses are the laws.
ghost use Rattle.std.specs.Prelude.{◌≡◌, ◌⊎◌, ℕ, List, Some, None, true, false};
ghost use Rattle.serde_json.specs.Data.{Data, Num, number};
ghost use Rattle.serde_json.specs.Find.{as_i64, as_u64};
ghost use Rattle.plan_dsl.specs.Words.{function_name, method_name};
ghost use Rattle.plan_dsl.specs.declared.aggregate.GroupByMethod.{GroupByMethod};
ghost use Rattle.plan_dsl.specs.declared.function_expr.FunctionExpr.{FunctionExpr};
ghost use Rattle.plan_json.specs.Bytes.{IsRefusalOf, IsTextOf, WritesQuery};
ghost use Rattle.plan_json.specs.Errors.{IsErrorOf};
ghost use Rattle.plan_json.specs.Faults.{BadFloat, BadShape, Form, a_query, own_fault};
ghost use Rattle.plan_json.specs.Leaves.{function_named, method_named};
ghost use Rattle.plan_json.specs.Looking.{is_float};
ghost use Rattle.plan_json.specs.Queries.{QueryModel};
ghost use Rattle.plan_json.specs.declared.error.JsonError.{JsonError};
ghost use Rattle.plan_json.specs.declared.error.JsonError.TheVariants.{NoMemory, NotJson};

/// Bytes write one query at most. Those that write one are refused by no error but out of memory, those of a JSON text by a
/// fault of its value, which is never that they are none, and all others because they are none.
pub fn query_laws()
    ensures one_query { (bytes : List ℕ) (query other : QueryModel)
        → WritesQuery bytes query → WritesQuery bytes other → query ≡ other }
    ensures refused { (bytes : List ℕ) (query : QueryModel) (error : JsonError)
        → WritesQuery bytes query → IsRefusalOf bytes error → error ≡ NoMemory }
    ensures told { (bytes : List ℕ) (d : Data) (error : JsonError)
        → IsTextOf bytes d → IsRefusalOf bytes error → IsErrorOf a_query d error }
    ensures not_json { (bytes : List ℕ) (d : Data) → IsTextOf bytes d → ¬ IsRefusalOf bytes NotJson }
    ensures no_text { (bytes : List ℕ) (error : JsonError) → ((d : Data) → ¬ IsTextOf bytes d)
        → IsRefusalOf bytes error → (error ≡ NotJson) ⊎ (error ≡ NoMemory) }
{}

/// A number that is held neither as an i64 nor as a u64 is a float, whatever its place asks for. Its fault is
/// that of a float, and no other value has such a fault.
pub fn float_laws()
    ensures no_integer { (n : Num) → is_float (number n) ≡ true → (as_i64 n ≡ None) × (as_u64 n ≡ None) }
    ensures neither { (n : Num) → as_i64 n ≡ None → as_u64 n ≡ None → is_float (number n) ≡ true }
    ensures float { (form : Form) (d : Data) → own_fault form d ≡ Some BadFloat → is_float d ≡ true }
    ensures shape { (form : Form) (d : Data) → own_fault form d ≡ Some BadShape → is_float d ≡ false }
{}

/// A word from which a method or a function is read is the one that it is called by.
pub fn word_laws()
    ensures methods { (word : List ℕ) (method : GroupByMethod) → method_named word ≡ Some method → method_name method ≡ word }
    ensures functions { (word : List ℕ) (function : FunctionExpr) → function_named word ≡ Some function → function_name function ≡ word }
{}
