//! Worked examples of ternaries and of functions.
#![tactic(auto, unfolding(crate::proofs::OnLiterals::values_on_literals))]

ghost use Rattle.std.specs.Prelude.{◌≡◌, [], ◌∷◌, Float, Some, None, codes, false, negsuc, pos, true};
ghost use Rattle.serde_json.specs.Data.{Data, boolean, float, null, number};
ghost use Rattle.plan_dsl.specs.declared.function_expr.FunctionExpr.TheVariants.{AllHorizontal, AnyHorizontal, IsNull, IsNotNull, FillNull, IsIn, ShiftAndFill, ListGet, FieldByName};
ghost use Rattle.plan_dsl.specs.Samples.{all};
ghost use Rattle.plan_dsl.specs.Ops.{FunctionOp, TernaryOp};
ghost use Rattle.plan_dsl.specs.Sources.{FieldAtOp, Plain, written};
ghost use Rattle.plan_dsl.specs.Trees.{node, no_more, more};
ghost use Rattle.plan_json.specs.Faults.{BadFloat, BadShape, a_function, an_expression, own_fault};
ghost use Rattle.plan_json.specs.Leaves.{function_of};
ghost use Rattle.plan_json.specs.Samples.{Gives, GivesAll, ReadAs, below_zero, choice, col, column, every_column, expression_of, fault_along, keyed, list, of_values, to, whole, word};
ghost use Rattle.plan_json.specs.Faults as fault;

/// A ternary: its predicate, and what it gives where that is true and elsewhere. Its tree has the second in front.
pub fn ternary_examples()
    ensures read { let p = col "p" in let a = col "a" in let b = col "b" in let inner = keyed "if" (list (p ∷ b ∷ a ∷ [])) in
        ReadAs ((keyed "if" (list (p ∷ a ∷ b ∷ [])), choice (column "p") (column "a") (column "b")) ∷
        (keyed "if" (list (inner ∷ inner ∷ b ∷ [])), choice (choice (column "p") (column "b") (column "a")) (choice (column "p") (column "b") (column "a")) (column "b")) ∷ []) }
    ensures of_marker { expression_of (keyed "if" (list (every_column ∷ every_column ∷ every_column ∷ []))) ≡ Some (node (Plain TernaryOp) (more all (more all (more all no_more)))) }
    ensures unread { let a = col "a" in
        GivesAll expression_of None (keyed "if" (list (a ∷ a ∷ [])) ∷ keyed "if" (list (a ∷ a ∷ a ∷ a ∷ [])) ∷ keyed "if" (list []) ∷ keyed "if" a ∷ keyed "if" null ∷
        keyed "if" (list (boolean true ∷ a ∷ a ∷ [])) ∷ keyed "if" (list (a ∷ null ∷ a ∷ [])) ∷ keyed "if" (list (a ∷ a ∷ word "a" ∷ [])) ∷ keyed "If" (list (a ∷ a ∷ a ∷ [])) ∷ []) }
    ensures faults { (x : Float) → let at : Data → Data = λ value. keyed "if" (list (value ∷ keyed "neg" null ∷ keyed "lit" value ∷ [])) in
        Gives fault_along (((an_expression, keyed "if" (list (null ∷ null ∷ [])), to "if" []), Some BadShape) ∷ ((an_expression, at null, []), None) ∷ ((an_expression, at null, to "if" []), None) ∷
        ((an_expression, at null, to "if" (fault.number 0 ∷ [])), Some BadShape) ∷ ((an_expression, at null, to "if" (fault.number 1 ∷ [])), Some BadShape) ∷
        ((an_expression, at null, to "if" (fault.number 2 ∷ to "lit" [])), None) ∷ ((an_expression, at (number (float x)), to "if" (fault.number 2 ∷ to "lit" [])), Some BadFloat) ∷
        ((an_expression, keyed "if" (number (float x)), to "if" []), Some BadFloat) ∷ []) }
{}

/// A function: its name, and a list of any number of expressions. A value past a list is a fault, or null.
pub fn function_examples()
    ensures names { Gives (λ name. function_of (word name)) (("AllHorizontal", Some AllHorizontal) ∷ ("AnyHorizontal", Some AnyHorizontal) ∷ ("IsNull", Some IsNull) ∷ ("IsNotNull", Some IsNotNull) ∷ ("FillNull", Some FillNull) ∷ ("IsIn", Some IsIn) ∷
        ("ShiftAndFill", Some ShiftAndFill) ∷ ("ListGet", Some (ListGet false)) ∷ ("ListGetOrNull", Some (ListGet true)) ∷ []) }
    ensures none { GivesAll function_of None (word "isnull" ∷ word "FieldByName" ∷ word "FieldByIndex" ∷ word "all_horizontal" ∷ word "MaxHorizontal" ∷ word "" ∷ whole 0 ∷ null ∷ list [] ∷ []) }
    ensures read { let a = col "a" in let b = col "b" in let missing = keyed "fn" (list (word "IsNull" ∷ list (a ∷ []) ∷ [])) in
        ReadAs ((missing, of_values IsNull (column "a" ∷ [])) ∷ (keyed "fn" (list (word "IsNotNull" ∷ list (missing ∷ []) ∷ [])), of_values IsNotNull (of_values IsNull (column "a" ∷ []) ∷ [])) ∷
        (keyed "fn" (list (word "FillNull" ∷ list (a ∷ b ∷ []) ∷ [])), of_values FillNull (column "a" ∷ column "b" ∷ [])) ∷
        (keyed "fn" (list (word "IsIn" ∷ list (b ∷ a ∷ []) ∷ [])), of_values IsIn (column "b" ∷ column "a" ∷ [])) ∷
        (keyed "fn" (list (word "ShiftAndFill" ∷ list (a ∷ a ∷ b ∷ []) ∷ [])), of_values ShiftAndFill (column "a" ∷ column "a" ∷ column "b" ∷ [])) ∷
        (keyed "fn" (list (word "AnyHorizontal" ∷ list (a ∷ b ∷ a ∷ []) ∷ [])), of_values AnyHorizontal (column "a" ∷ column "b" ∷ column "a" ∷ [])) ∷
        (keyed "fn" (list (word "ListGet" ∷ list (a ∷ b ∷ []) ∷ [])), of_values (ListGet false) (column "a" ∷ column "b" ∷ [])) ∷
        (keyed "fn" (list (word "ListGetOrNull" ∷ list (a ∷ b ∷ []) ∷ [])), of_values (ListGet true) (column "a" ∷ column "b" ∷ [])) ∷ []) }
    // Their number is no matter of shape.
    ensures any_number { let a = col "a" in
        ReadAs ((keyed "fn" (list (word "AllHorizontal" ∷ list [] ∷ [])), of_values AllHorizontal []) ∷ (keyed "fn" (list (word "IsNull" ∷ list [] ∷ [])), of_values IsNull []) ∷ (keyed "fn" (list (word "IsIn" ∷ list (a ∷ []) ∷ [])), of_values IsIn (column "a" ∷ [])) ∷
        (keyed "fn" (list (word "IsNull" ∷ list (a ∷ a ∷ a ∷ a ∷ a ∷ []) ∷ [])), of_values IsNull (column "a" ∷ column "a" ∷ column "a" ∷ column "a" ∷ column "a" ∷ [])) ∷ []) }
    ensures of_marker { expression_of (keyed "fn" (list (word "IsNull" ∷ list (every_column ∷ []) ∷ []))) ≡ Some (node (Plain (FunctionOp IsNull [])) (more all no_more)) }
    ensures unread { let a = col "a" in let one = list (a ∷ []) in
        GivesAll expression_of None (keyed "fn" (list (word "IsNull" ∷ [])) ∷ keyed "fn" (list (word "IsNull" ∷ a ∷ [])) ∷ keyed "fn" (list (word "IsNull" ∷ a ∷ a ∷ [])) ∷
        keyed "fn" (list (word "IsNull" ∷ one ∷ one ∷ [])) ∷ keyed "fn" (list (one ∷ word "IsNull" ∷ [])) ∷ keyed "fn" (list (word "is_null" ∷ one ∷ [])) ∷
        keyed "fn" (list (word "SumHorizontal" ∷ one ∷ [])) ∷ keyed "fn" (list (null ∷ one ∷ [])) ∷ keyed "fn" (list (word "IsNull" ∷ list (a ∷ null ∷ []) ∷ [])) ∷
        keyed "fn" (word "IsNull") ∷ keyed "IsNull" one ∷ []) }
    ensures own { Gives (own_fault a_function) ((word "ListGetOrNull", None) ∷ (word "ListGetOrFault", Some BadShape) ∷ (null, Some BadShape) ∷ []) }
    ensures faults { (x : Float) → let of : Data → Data → Data = λ name input. keyed "fn" (list (name ∷ list (null ∷ input ∷ []) ∷ [])) in
        Gives fault_along (((an_expression, keyed "fn" (list (null ∷ [])), to "fn" []), Some BadShape) ∷ ((an_expression, of null null, to "fn" []), None) ∷
        ((an_expression, of (word "MinHorizontal") null, to "fn" (fault.number 0 ∷ [])), Some BadShape) ∷ ((an_expression, of (number (float x)) null, to "fn" (fault.number 0 ∷ [])), Some BadFloat) ∷
        ((an_expression, of (word "IsIn") null, to "fn" (fault.number 0 ∷ [])), None) ∷ ((an_expression, of null null, to "fn" (fault.number 1 ∷ [])), None) ∷
        ((an_expression, of null (keyed "neg" null), to "fn" (fault.number 1 ∷ fault.number 1 ∷ [])), Some BadShape) ∷
        ((an_expression, of null (keyed "col" null), to "fn" (fault.number 1 ∷ fault.number 1 ∷ to "col" [])), Some BadShape) ∷
        ((an_expression, keyed "fn" (list (null ∷ word "a" ∷ [])), to "fn" (fault.number 1 ∷ [])), Some BadShape) ∷ []) }
{}

/// A field of a struct: an expression, and the field's name.
pub fn field_examples()
    ensures read { let a = col "a" in
        ReadAs ((keyed "field" (list (a ∷ word "x" ∷ [])), of_values (FieldByName (codes "x")) (column "a" ∷ [])) ∷
        (keyed "field" (list (keyed "field" (list (a ∷ word "x" ∷ [])) ∷ word "" ∷ [])), of_values (FieldByName []) (of_values (FieldByName (codes "x")) (column "a" ∷ []) ∷ [])) ∷ []) }
    ensures unread { let a = col "a" in
        GivesAll expression_of None (keyed "field" (list (a ∷ [])) ∷ keyed "field" (list (a ∷ word "x" ∷ word "y" ∷ [])) ∷ keyed "field" (list (word "x" ∷ a ∷ [])) ∷
        keyed "field" (list (a ∷ whole 0 ∷ [])) ∷ keyed "field" (list (list (a ∷ []) ∷ word "x" ∷ [])) ∷ keyed "field" a ∷ []) }
    ensures faults { (x : Float) → Gives fault_along (((an_expression, keyed "field" (list []), to "field" []), Some BadShape) ∷
        ((an_expression, keyed "field" (list (keyed "neg" null ∷ null ∷ [])), to "field" (fault.number 0 ∷ [])), Some BadShape) ∷
        ((an_expression, keyed "field" (list (null ∷ number (float x) ∷ [])), to "field" (fault.number 1 ∷ [])), Some BadFloat) ∷
        ((an_expression, keyed "field" (list (null ∷ word "x" ∷ [])), to "field" (fault.number 1 ∷ [])), None) ∷ []) }
{}

/// A field of a struct at a place: an expression, and a whole number of 64 bits with a sign.
pub fn field_at_examples()
    ensures read { let a = col "a" in let first = keyed "field_at" (list (a ∷ whole 0 ∷ [])) in
        Gives expression_of ((first, Some (node (FieldAtOp (pos 0)) (more (written (column "a")) no_more))) ∷
        (keyed "field_at" (list (first ∷ below_zero 0 ∷ [])), Some (node (FieldAtOp (negsuc 0)) (more (node (FieldAtOp (pos 0)) (more (written (column "a")) no_more)) no_more))) ∷
        (keyed "field_at" (list (every_column ∷ whole 9223372036854775807 ∷ [])), Some (node (FieldAtOp (pos 9223372036854775807)) (more all no_more))) ∷ []) }
    ensures unread { let a = col "a" in
        GivesAll expression_of None (keyed "field_at" (list (a ∷ [])) ∷ keyed "field_at" (list (a ∷ word "x" ∷ [])) ∷ keyed "field_at" (list (a ∷ whole 9223372036854775808 ∷ [])) ∷
        keyed "field_at" (list (a ∷ whole 0 ∷ whole 0 ∷ [])) ∷ keyed "field_at" (list (whole 0 ∷ a ∷ [])) ∷ keyed "field_at" (list (list (a ∷ []) ∷ whole 0 ∷ [])) ∷ keyed "field_at" a ∷ []) }
    ensures faults { (x : Float) → Gives fault_along (((an_expression, keyed "field_at" (list []), to "field_at" []), Some BadShape) ∷
        ((an_expression, keyed "field_at" (list (keyed "neg" null ∷ null ∷ [])), to "field_at" (fault.number 0 ∷ [])), Some BadShape) ∷
        ((an_expression, keyed "field_at" (list (null ∷ number (float x) ∷ [])), to "field_at" (fault.number 1 ∷ [])), Some BadFloat) ∷
        ((an_expression, keyed "field_at" (list (null ∷ whole 0 ∷ [])), to "field_at" (fault.number 1 ∷ [])), None) ∷ []) }
{}
