//! Worked examples of errors, of their paths and pointers, and of the query that a `Query` is.
#![tactic(auto, unfolding(crate::proofs::OnLiterals::values_on_literals))]

ghost use Rattle.std.specs.Prelude.{◌≡◌, ℕ, [], ◌∷◌, Bool, Err, Ok, Option, None, false, true, String, codes, string_bytes};
ghost use Rattle.std.specs.Global.{Global};
ghost use Rattle.plan_types.specs.declared.schema.Schema.{Schema};
ghost use Rattle.plan_dsl.specs.Ops.{LenOp};
ghost use Rattle.plan_dsl.specs.Plans.{empty_table, plan_tree};
ghost use Rattle.plan_dsl.specs.Sources.{Plain};
ghost use Rattle.plan_dsl.specs.Trees.{no_more, node};
ghost use Rattle.plan_dsl.specs.declared.expr.Expr.{Expr};
ghost use Rattle.plan_dsl.specs.declared.plan.DslPlan.TheVariants.{DataFrameScan, Filter', GroupBy', HStack', Select'};
ghost use Rattle.plan_dsl.specs.declared.expr.Exprs.{Exprs};
ghost use Rattle.plan_dsl.specs.declared.plan.ProjectionOptions.{ProjectionOptions};
ghost use Rattle.plan_types.specs.Schemas.{columns};
ghost use Rattle.serde_json.specs.Data.{boolean, null};
ghost use Rattle.serde_json.specs.Find.{as_bool};
ghost use Rattle.plan_json.specs.Errors.{IsBelow, IsErrorOf, IsListErrorOf, IsOwn, IsPlain, escaped, pointer_text, step_of};
ghost use Rattle.plan_json.specs.Faults.{BadFloat, BadName, BadShape, a_column, a_text, flag_form, key, number};
ghost use Rattle.plan_json.specs.Forms.{columns_read, expression_read, flag_read, leaf};
ghost use Rattle.plan_json.specs.Queries.{has_flags, query_model};
ghost use Rattle.plan_json.specs.Readers.{IsPlanOf, IsReadAs, IsReadBy, IsReading};
ghost use Rattle.plan_json.specs.Samples.{Gives, list, query, to, word};
ghost use Rattle.plan_json.specs.Tables.{declared};
ghost use Rattle.plan_json.specs.declared.error.JsonError.{JsonError};
ghost use Rattle.plan_json.specs.declared.error.JsonError.TheVariants.{NotJson, Shape, Float, Name, NoMemory};
ghost use Rattle.plan_json.specs.declared.error.Step.TheVariants.{Item, Key};
ghost use Rattle.plan_json.specs.declared.forms.ExpressionKey.TheVariants as of;
ghost use Rattle.plan_json.specs.declared.forms.Key.TheVariants as keys;
ghost use Rattle.plan_json.specs.declared.forms.PlanKey.TheVariants as by;
ghost use Rattle.plan_json.specs.declared.forms.Leaf.TheVariants as leaves;
ghost use Rattle.plan_json.specs.declared.forms.SmallLeaf.TheVariants as smalls;
ghost use Rattle.plan_json.specs.declared.read.Query.{Query};

/// An error of a value itself has the empty path, and the name of its kind. An error tells a fault of the value by kind and pointer, out of memory tells none.
pub fn error_examples()
    ensures own { (path : String Global) → string_bytes path ≡ [] → IsOwn BadShape (Shape path) × IsOwn BadFloat (Float path) × IsOwn BadName (Name path) }
    ensures of_another_kind { (path : String Global) → ¬ (IsOwn BadShape (Float path)) × ¬ (IsOwn BadFloat (Shape path)) × ¬ (IsOwn BadName (Shape path)) }
    ensures of_a_part { (path : String Global) → string_bytes path ≡ codes "/1" → ¬ (IsOwn BadShape (Shape path)) }
    ensures not_own { ¬ (IsOwn BadShape NotJson) × ¬ (IsOwn BadShape NoMemory) }
    ensures told { (path : String Global) → string_bytes path ≡ codes "/0" → IsErrorOf a_column (list (null ∷ word "Int8" ∷ [])) (Shape path) }
    ensures of_a_list { (path : String Global) → string_bytes path ≡ codes "/0" → IsListErrorOf (leaves.Small smalls.Flag) (list (null ∷ [])) (Shape path) }
    ensures not_told { (path : String Global) → ¬ (IsErrorOf a_text (word "a") (Shape path)) }
    ensures memory { IsErrorOf a_text (word "a") NoMemory × ¬ (IsErrorOf a_text null NotJson) }
    // The error of a part is told with the step to the part in front of its path, or as out of memory.
    ensures item { (path longer : String Global) → string_bytes path ≡ codes "/bin/0" → string_bytes longer ≡ codes "/12/bin/0" → IsBelow (number 12) (Shape path) (Shape longer) }
    ensures member { (path longer : String Global) → string_bytes path ≡ [] → string_bytes longer ≡ codes "/lit" → IsBelow (key (codes "lit")) (Float path) (Float longer) }
    ensures table { (path longer : String Global) → string_bytes path ≡ codes "/scan" → string_bytes longer ≡ codes "/plan/scan" → IsBelow (key (codes "plan")) (Name path) (Name longer) }
    ensures without_the_step { (path longer : String Global) → string_bytes path ≡ codes "/lit" → string_bytes longer ≡ codes "/lit" → ¬ (IsBelow (number 1) (Shape path) (Shape longer)) }
    ensures step_behind { (path longer : String Global) → string_bytes path ≡ codes "/lit" → string_bytes longer ≡ codes "/lit/1" → ¬ (IsBelow (number 1) (Shape path) (Shape longer)) }
    ensures of_memory { (path longer : String Global) → ¬ (IsBelow (number 1) (Float path) (Shape longer)) × IsBelow (number 1) (Shape path) NoMemory
        × IsBelow (number 1) NoMemory NoMemory × ¬ (IsBelow (number 1) NoMemory (Shape longer)) }
    // A pointer has each step behind a slash. In a key, `~` is `~0` and `/` is `~1`; the code's steps need no such escape.
    ensures steps { (word : _) → (step_of (Item 12) ≡ number 12) × (step_of (Key word) ≡ key word.now) }
    ensures plain { IsPlain (key (codes "columns")) × IsPlain (number 12) × ¬ (IsPlain (key (codes "a/b"))) × ¬ (IsPlain (key (codes "m~n"))) }
    ensures keys { Gives (λ name. escaped (codes name)) (("columns", codes "columns") ∷ ("a/b", codes "a~1b") ∷ ("m~n", codes "m~0n") ∷ ("~1/~0", codes "~01~1~00") ∷ []) }
    ensures paths { Gives pointer_text (
        ([], []) ∷ (to "tables" (number 0 ∷ to "columns" (number 12 ∷ [])), codes "/tables/0/columns/12") ∷ (to "~/" (key [] ∷ to "0" []), codes "/~0~1//0") ∷ []) }
{}

/// A reader answers what the value means, or an error of its form. A plan is what its key says of what was read, without options that are set.
pub fn reader_examples()
    ensures read { IsReading as_bool flag_form (boolean true) (Ok true) (λ flag. flag) × ¬ (IsReading as_bool flag_form (boolean true) (Ok false) (λ flag. flag)) }
    ensures refused { IsReading as_bool flag_form (boolean true) (Err NoMemory) (λ (flag : Bool). flag) × ¬ (IsReading as_bool flag_form (boolean true) (Err NotJson) (λ (flag : Bool). flag)) }
    ensures asked { let a_flag = leaf (leaves.Small smalls.Flag) in IsReadAs [] a_flag (boolean true) (Ok true) (λ flag. flag_read flag) × ¬ (IsReadAs [] a_flag null (Ok true) (λ flag. flag_read flag)) }
    ensures keyed { let rows = expression_read (node (Plain LenOp) no_more) in IsReadBy [] (keys.Expression of.Len) null (Ok rows) (λ r. r) × ¬ (IsReadBy [] (keys.Expression of.Len) (boolean true) (Ok rows) (λ r. r)) }
    ensures plan { (schema : Schema) → columns schema ≡ [] → IsPlanOf by.Empty (columns_read [] ∷ []) (DataFrameScan None schema) }
    ensures other { (expr : Exprs) (p : _) (schema : Schema) (found : _) → ¬ (IsPlanOf by.Select found (Select' expr p (DataFrameScan None schema) (record { duplicate_check = true }))) }
{}

/// A query shows its tables in order, and the tree of its plan. A plan has flags where some select, hstack or group-by of it has its option set.
pub fn models_of_queries()
    ensures tables_and_plan { (read : Query) → let tables = (codes "t", []) ∷ (codes "s", []) ∷ [] in
        declared read.tables ≡ tables → plan_tree read.plan ≡ empty_table → query_model read ≡ query tables empty_table }
    ensures no_flags { (expr : Exprs) (p : _) (table : Option ℕ) (schema : Schema) → let options : ProjectionOptions = record { duplicate_check = false } in
        (has_flags (DataFrameScan table schema) ≡ false) × (has_flags (Select' expr p (DataFrameScan None schema) options) ≡ false)
        × (has_flags (HStack' expr p (DataFrameScan None schema) options) ≡ false) × (has_flags (GroupBy' p (DataFrameScan None schema) expr expr false) ≡ false) }
    ensures flags { (expr : Exprs) (predicate : Expr) (p q : _) (schema : Schema) → let options : ProjectionOptions = record { duplicate_check = true } in
        (has_flags (Select' expr p (DataFrameScan None schema) options) ≡ true)
        × (has_flags (HStack' expr p (DataFrameScan None schema) options) ≡ true) × (has_flags (GroupBy' p (DataFrameScan None schema) expr expr true) ≡ true)
        × (has_flags (Filter' p (Select' expr q (DataFrameScan None schema) options) predicate) ≡ true) }
{}
