//! Worked examples of faults: values that break the form that their place asks for, the parts of values, and the paths to faults.
#![tactic(auto, unfolding(crate::proofs::OnLiterals::values_on_literals))]

ghost use Rattle.std.specs.Prelude.{◌≡◌, [], ◌∷◌, Float, List, Some, None, codes, nat_lt, false, true};
ghost use Rattle.plan_types.specs.Types.{TimeType, DateType};
ghost use Rattle.plan_types.specs.Schemas.{Name};
ghost use Rattle.serde_json.specs.Data.{Data, Items, array, float, member, no_members, null, number, object};
ghost use Rattle.serde_json.specs.Events.{items_len};
ghost use Rattle.plan_json.specs.Faults.{BadFloat, BadName, BadShape, Path, key, own_fault, part};
ghost use Rattle.plan_json.specs.Samples.{a_cast, a_filter, a_selection, an_exclude, leaf_list, expression_list, expression_over, operands, GivesAll, fault_along, below_zero, bin, cast_value, col, column_value, fault_in, int8, keyed, keyed_twice, list, moments, query_value, scan_value, select_value, table_value, to, whole, word, Gives, in_turn, parts_in, under};
ghost use Rattle.plan_json.specs.Leaves.{table_limit};
ghost use Rattle.plan_json.specs.Faults as fault;
ghost use Rattle.plan_json.specs.declared.forms.Leaf.TheVariants as leaves;
ghost use Rattle.plan_json.specs.declared.forms.SmallLeaf.TheVariants as smalls;

/// A value that breaks its form itself, and one that doesn't, whatever its parts are. A number that is held as a float is one in place of anything else.
pub fn fault_examples()
    ensures none { let a = list (word "a" ∷ null ∷ []) in let big_a = list (word "A" ∷ null ∷ []) in
        GivesAll fault_in None ((fault.a_query, keyed_twice "plan" null "tables" null) ∷ (fault.a_text, word "a") ∷
        (fault.a_type, word "UInt64") ∷ (fault.a_type, keyed "Duration" null) ∷ (fault.a_type, keyed "List" null) ∷ (fault.a_type, keyed "Struct" null) ∷
        (fault.a_unit, word "ns") ∷ (fault.field_list, list (a ∷ a ∷ [])) ∷ (fault.column_list, list (a ∷ big_a ∷ [])) ∷
        (fault.a_new_name (codes "s" ∷ []), word "t") ∷ (fault.a_scan (codes "s" ∷ codes "t" ∷ []), word "t") ∷ (fault.a_plan [], keyed "scan" null) ∷
        (fault.an_expression, keyed "bin" null) ∷ (fault.an_operator, word "NotEq") ∷ (a_cast, list (null ∷ null ∷ null ∷ [])) ∷
        (fault.an_index, below_zero 9223372036854775807) ∷ (fault.an_excluded, keyed "name" null) ∷ (fault.an_excluded, keyed "dtype" null) ∷ (leaf_list (leaves.Small smalls.Index), list (null ∷ [])) ∷
        (fault.a_mode, word "Overflowing") ∷ (expression_list [], list []) ∷ (a_filter [], list (null ∷ null ∷ [])) ∷ []) }
    ensures shape { let a = list (word "a" ∷ null ∷ []) in
        GivesAll fault_in (Some BadShape) ((fault.a_query, object (member (codes "plan") null (member (codes "tables") null (member (codes "x") null no_members)))) ∷
        (fault.a_text, whole 1) ∷ (fault.a_type, word "int8") ∷ (fault.a_type, word "Datetime") ∷ (fault.a_type, keyed "duration" null) ∷
        (fault.a_type, keyed_twice "Datetime" null "Duration" null) ∷ (fault.a_type, object no_members) ∷ (fault.a_type, list (word "Date" ∷ [])) ∷
        (fault.a_unit, word "s") ∷ (fault.field_list, object no_members) ∷ (fault.a_column, list (null ∷ null ∷ null ∷ [])) ∷
        (fault.a_column, list (null ∷ [])) ∷ (fault.column_list, list (a ∷ null ∷ a ∷ [])) ∷ (fault.a_new_name (codes "s" ∷ []), null) ∷
        (fault.a_plan [], keyed "store" null) ∷ (fault.a_plan [], keyed_twice "empty" null "scan" null) ∷ (fault.an_expression, keyed "neg" (whole 1)) ∷
        (fault.an_operator, word "Power") ∷ (fault.an_operator, below_zero 0) ∷ (a_cast, list (null ∷ word "Int8" ∷ [])) ∷ (fault.a_mode, word "strict") ∷
        (fault.an_index, whole 9223372036854775808) ∷ (fault.an_index, null) ∷ (fault.an_excluded, keyed "col" null) ∷ (fault.an_excluded, keyed_twice "dtype" null "name" null) ∷
        (fault.an_excluded, word "a") ∷ (leaf_list leaves.Name, word "a") ∷ (leaf_list leaves.Excluded, keyed "name" null) ∷
        (operands, list (word "Plus" ∷ null ∷ [])) ∷ (a_filter [], list (null ∷ [])) ∷ (a_filter [], list (null ∷ null ∷ null ∷ [])) ∷
        (fault.table_list, object no_members) ∷ []) }
    ensures name { GivesAll fault_in (Some BadName) ((fault.a_new_name (codes "s" ∷ codes "t" ∷ []), word "t") ∷ (fault.a_scan (codes "s" ∷ []), word "t") ∷ []) }
    ensures none_of_forms { (names : List Name) (d e f : Data) → GivesAll fault_in None (
        (fault.a_table names, keyed_twice "columns" null "name" null) ∷ (fault.a_column, list (d ∷ e ∷ [])) ∷
        (a_selection names, list (d ∷ e ∷ [])) ∷ (operands, list (d ∷ e ∷ f ∷ [])) ∷ []) }
    ensures shape_of_forms { (names : List Name) (d e f g : Data) → GivesAll fault_in (Some BadShape) (
        (fault.a_table names, keyed "name" null) ∷ (fault.a_table names, keyed_twice "cols" null "name" null) ∷ (fault.a_scan names, whole 0) ∷
        (a_selection names, list (d ∷ [])) ∷ (a_selection names, list (d ∷ e ∷ f ∷ [])) ∷ (expression_list [], object no_members) ∷
        (operands, list (d ∷ e ∷ f ∷ g ∷ [])) ∷ (a_cast, list (d ∷ e ∷ f ∷ g ∷ [])) ∷ (fault.a_typed_literal, list (d ∷ e ∷ f ∷ [])) ∷ []) }
    ensures too_many_tables { (tables : Items) → nat_lt (items_len tables) table_limit ≡ false → own_fault fault.table_list (array tables) ≡ Some BadShape }
    ensures few_tables { (tables : Items) → nat_lt (items_len tables) table_limit ≡ true → own_fault fault.table_list (array tables) ≡ None }
    ensures none_of_literals { GivesAll fault_in None (
        (fault.a_literal, below_zero 0) ∷ (fault.a_literal, null) ∷ (fault.a_number_text, word "-0") ∷ (fault.a_typed_literal, list (null ∷ null ∷ [])) ∷
        (fault.a_counted_type, word "Time") ∷ (fault.a_counted_type, keyed "List" null) ∷ (fault.a_number_of int8, whole 127) ∷ []) }
    ensures shape_of_literals { GivesAll fault_in (Some BadShape) (
        (fault.a_literal, list []) ∷ (fault.a_number_text, word "+0") ∷ (fault.a_number_text, whole 1) ∷ (fault.a_typed_literal, list (null ∷ [])) ∷
        (fault.a_counted_type, word "String") ∷ (fault.a_counted_type, keyed "List" (word "Int8")) ∷ (fault.a_counted_type, word "int8") ∷
        (fault.a_number_of int8, whole 128) ∷ (fault.a_number_of TimeType, word "1") ∷ []) }
    ensures float { (names : List Name) (x : Float) → GivesAll (λ form. own_fault form (number (float x))) (Some BadFloat) (
        fault.a_query ∷ fault.table_list ∷ fault.a_table names ∷ fault.a_new_name [] ∷ fault.column_list ∷ fault.a_column ∷ fault.a_text ∷ fault.a_type ∷
        fault.field_list ∷ fault.a_unit ∷ fault.a_plan [] ∷ fault.a_scan (codes "t" ∷ []) ∷ a_filter [] ∷ a_selection names ∷
        expression_list [] ∷ fault.an_expression ∷ operands ∷ fault.an_operator ∷ a_cast ∷ fault.a_mode ∷ fault.a_literal ∷
        fault.a_number_text ∷ fault.a_typed_literal ∷ fault.a_counted_type ∷ fault.a_number_of int8 ∷ []) }
    ensures list_of_float { (x : Float) → GivesAll fault_in (Some BadShape) ((fault.a_column, list (number (float x) ∷ [])) ∷ (fault.a_literal, list (number (float x) ∷ [])) ∷ []) }
    // The parts of a value: the step to each, and what its place asks for. A type, a plan and an expression have what their only key names.
    ensures parts_of_declarations { (names : List Name) (d e : Data) → let t = table_value "t" null in let s = table_value "s" null in let declared = under "tables" fault.table_list (list (t ∷ null ∷ [])) in
        Gives parts_in (((fault.a_query, query_value (t ∷ null ∷ []) d), (key (codes "plan"), part (fault.a_plan (codes "t" ∷ [])) d) ∷ declared) ∷
        ((fault.table_list, list (t ∷ s ∷ d ∷ [])), in_turn ((fault.a_table [], t) ∷ (fault.a_table (codes "t" ∷ []), s) ∷ (fault.a_table (codes "t" ∷ codes "s" ∷ []), d) ∷ [])) ∷
        ((fault.a_table names, keyed_twice "columns" d "name" e), (key (codes "columns"), part fault.column_list d) ∷ under "name" (fault.a_new_name names) e) ∷
        ((fault.column_list, list (d ∷ e ∷ [])), in_turn ((fault.a_column, d) ∷ (fault.a_column, e) ∷ [])) ∷
        ((fault.a_column, list (d ∷ e ∷ [])), in_turn ((fault.a_text, d) ∷ (fault.a_type, e) ∷ [])) ∷ []) }
    ensures no_parts_of_declarations { (names : List Name) (d e : Data) → GivesAll parts_in [] ((fault.a_column, list (d ∷ [])) ∷ (fault.a_table names, keyed_twice "cols" d "name" e) ∷ []) }
    ensures parts_of_types { (d e : Data) → Gives parts_in (
        ((fault.a_type, keyed "Datetime" d), under "Datetime" fault.a_unit d) ∷ ((fault.a_type, keyed "Duration" d), under "Duration" fault.a_unit d) ∷
        ((fault.a_type, keyed "List" d), under "List" fault.a_type d) ∷ ((fault.a_type, keyed "Struct" d), under "Struct" fault.field_list d) ∷
        ((fault.field_list, list (d ∷ e ∷ [])), in_turn ((fault.a_column, d) ∷ (fault.a_column, e) ∷ [])) ∷
        ((fault.a_counted_type, keyed "Duration" d), under "Duration" fault.a_unit d) ∷ []) }
    ensures no_parts_of_types { (d : Data) → GivesAll parts_in [] ((fault.a_type, word "Int8") ∷ (fault.a_type, keyed "Date" d) ∷ []) }
    ensures parts_of_plans { (names : List Name) (d e : Data) → Gives parts_in (
        ((fault.a_plan names, keyed "scan" d), under "scan" (fault.a_scan names) d) ∷ ((fault.a_plan names, keyed "empty" d), under "empty" fault.column_list d) ∷
        ((fault.a_plan names, keyed "filter" d), under "filter" (a_filter names) d) ∷ ((fault.a_plan names, keyed "select" d), under "select" (a_selection names) d) ∷
        ((a_filter names, list (d ∷ e ∷ [])), in_turn ((fault.a_plan names, d) ∷ (expression_over names, e) ∷ [])) ∷
        ((a_selection names, list (d ∷ e ∷ [])), in_turn ((fault.a_plan names, d) ∷ (expression_list names, e) ∷ [])) ∷
        ((expression_list [], list (d ∷ e ∷ [])), in_turn ((fault.an_expression, d) ∷ (fault.an_expression, e) ∷ [])) ∷ []) }
    ensures no_parts_of_plans { (names : List Name) (d e : Data) → GivesAll parts_in [] ((fault.a_plan names, keyed "store" d) ∷ (fault.a_plan names, keyed_twice "empty" d "scan" e) ∷ []) }
    ensures parts_of_expressions { (d e f : Data) → Gives parts_in (
        ((fault.an_expression, keyed "col" d), under "col" fault.a_text d) ∷ ((fault.an_expression, keyed "lit" d), under "lit" fault.a_literal d) ∷
        ((fault.an_expression, keyed "int" d), under "int" fault.a_number_text d) ∷ ((fault.an_expression, keyed "typed" d), under "typed" fault.a_typed_literal d) ∷
        ((fault.an_expression, keyed "bin" d), under "bin" operands d) ∷ ((fault.an_expression, keyed "cast" d), under "cast" a_cast d) ∷
        ((operands, list (d ∷ e ∷ f ∷ [])), in_turn ((fault.an_operator, d) ∷ (fault.an_expression, e) ∷ (fault.an_expression, f) ∷ [])) ∷
        ((a_cast, list (d ∷ e ∷ f ∷ [])), in_turn ((fault.an_expression, d) ∷ (fault.a_type, e) ∷ (fault.a_mode, f) ∷ [])) ∷ []) }
    ensures parts_of_markers { (d e : Data) → Gives parts_in (
        ((fault.an_expression, keyed "cols" d), under "cols" (leaf_list leaves.Name) d) ∷ ((fault.an_expression, keyed "dtypes" d), under "dtypes" (leaf_list leaves.Dtype) d) ∷
        ((fault.an_expression, keyed "at" d), under "at" (leaf_list (leaves.Small smalls.Index)) d) ∷ ((fault.an_expression, keyed "nth" d), under "nth" fault.an_index d) ∷
        ((fault.an_expression, keyed "exclude" d), under "exclude" an_exclude d) ∷ ((an_exclude, list (d ∷ e ∷ [])), in_turn ((fault.an_expression, d) ∷ (leaf_list leaves.Excluded, e) ∷ [])) ∷
        ((leaf_list leaves.Dtype, list (d ∷ e ∷ [])), in_turn ((fault.a_type, d) ∷ (fault.a_type, e) ∷ [])) ∷ ((leaf_list leaves.Excluded, list (d ∷ [])), in_turn ((fault.an_excluded, d) ∷ [])) ∷
        ((fault.an_excluded, keyed "name" d), under "name" fault.a_text d) ∷ ((fault.an_excluded, keyed "dtype" d), under "dtype" fault.a_type d) ∷ ((fault.an_excluded, keyed "col" d), []) ∷ []) }
    ensures no_parts_of_expressions { (d : Data) → GivesAll parts_in [] ((fault.an_expression, keyed "neg" d) ∷ (fault.a_literal, list (d ∷ [])) ∷ []) }
    ensures parts_of_typed_literals { (d : Data) → Gives parts_in (
        ((fault.a_typed_literal, list (word "Date" ∷ d ∷ [])), in_turn ((fault.a_counted_type, word "Date") ∷ (fault.a_number_of DateType, d) ∷ [])) ∷
        ((fault.a_typed_literal, list (word "String" ∷ d ∷ [])), in_turn ((fault.a_counted_type, word "String") ∷ [])) ∷ []) }
    // A fault stands at the end of a path of keys and item numbers. Nothing is asked below a key that names no form, nor of the number beside a type without numbers.
    ensures places_in_queries { (x : Float) → let t = table_value "t" (list []) in let twice = table_value "t" (list (column_value "a" "Int8" ∷ column_value "a" "Int8" ∷ [])) in
        let sum = bin (word "Plus" ∷ col "a" ∷ keyed "neg" null ∷ []) in
        Gives fault_along (((fault.a_query, null, []), Some BadShape) ∷ ((fault.a_query, query_value [] (scan_value "t"), to "plan" (to "scan" [])), Some BadName) ∷
        ((fault.a_query, query_value (t ∷ t ∷ []) null, to "tables" (fault.number 1 ∷ to "name" [])), Some BadName) ∷
        ((fault.a_query, query_value (twice ∷ []) null, to "tables" (fault.number 0 ∷ to "columns" [])), Some BadShape) ∷
        ((fault.a_query, query_value [] (select_value (null ∷ list (col "a" ∷ sum ∷ []) ∷ [])), to "plan" (to "select" (fault.number 1 ∷ fault.number 1 ∷ to "bin" (fault.number 2 ∷ [])))), Some BadShape) ∷
        ((fault.a_query, query_value [] (keyed "filter" (list (null ∷ keyed "lit" (number (float x)) ∷ []))), to "plan" (to "filter" (fault.number 1 ∷ to "lit" []))), Some BadFloat) ∷ []) }
    ensures places_in_expressions { (x : Float) → let wrapping = cast_value (null ∷ null ∷ word "Wrapping" ∷ []) in
        Gives fault_along (((fault.an_expression, cast_value (keyed "neg" null ∷ null ∷ null ∷ []), to "cast" (fault.number 0 ∷ [])), Some BadShape) ∷
        ((fault.an_expression, cast_value (null ∷ word "bool" ∷ null ∷ []), to "cast" (fault.number 1 ∷ [])), Some BadShape) ∷
        ((fault.an_expression, cast_value (null ∷ moments "s" ∷ null ∷ []), to "cast" (fault.number 1 ∷ to "Datetime" [])), Some BadShape) ∷
        ((fault.an_expression, cast_value (wrapping ∷ null ∷ null ∷ []), to "cast" (fault.number 0 ∷ to "cast" (fault.number 2 ∷ []))), Some BadShape) ∷
        ((fault.an_expression, keyed "int" (word "1x"), to "int" []), Some BadShape) ∷
        ((fault.an_expression, keyed "typed" (list (word "Int8" ∷ whole 128 ∷ [])), to "typed" (fault.number 1 ∷ [])), Some BadShape) ∷
        ((fault.an_expression, keyed "typed" (list (word "Int8" ∷ number (float x) ∷ [])), to "typed" (fault.number 1 ∷ [])), Some BadFloat) ∷
        ((fault.an_expression, keyed "typed" (list (word "String" ∷ whole 1 ∷ [])), to "typed" (fault.number 0 ∷ [])), Some BadShape) ∷
        ((fault.an_expression, keyed "typed" (list (moments "s" ∷ whole 1 ∷ [])), to "typed" (fault.number 0 ∷ to "Datetime" [])), Some BadShape) ∷ []) }
    ensures places_in_markers { (x : Float) → let left_out : Data → Data = λ item. keyed "exclude" (list (null ∷ list (item ∷ []) ∷ [])) in
        Gives fault_along (((fault.an_expression, keyed "nth" (whole 9223372036854775808), to "nth" []), Some BadShape) ∷ ((fault.an_expression, keyed "nth" (number (float x)), to "nth" []), Some BadFloat) ∷
        ((fault.an_expression, keyed "at" (list (whole 0 ∷ number (float x) ∷ [])), to "at" (fault.number 1 ∷ [])), Some BadFloat) ∷ ((fault.an_expression, keyed "cols" (list (null ∷ [])), to "cols" (fault.number 0 ∷ [])), Some BadShape) ∷
        ((fault.an_expression, keyed "dtypes" (list (keyed "List" (moments "s") ∷ [])), to "dtypes" (fault.number 0 ∷ to "List" (to "Datetime" []))), Some BadShape) ∷
        ((fault.an_expression, left_out (keyed "type" null), to "exclude" (fault.number 1 ∷ fault.number 0 ∷ [])), Some BadShape) ∷ ((fault.an_expression, left_out (keyed "name" null), to "exclude" (fault.number 1 ∷ fault.number 0 ∷ to "name" [])), Some BadShape) ∷
        ((fault.an_expression, left_out (keyed "dtype" (moments "s")), to "exclude" (fault.number 1 ∷ fault.number 0 ∷ to "dtype" (to "Datetime" []))), Some BadShape) ∷
        ((fault.an_expression, keyed "selector" (keyed "root" (keyed "neg" null)), to "selector" (to "root" [])), Some BadShape) ∷
        ((fault.an_expression, keyed "prefix" (list (null ∷ number (float x) ∷ [])), to "prefix" (fault.number 1 ∷ [])), Some BadFloat) ∷ []) }
    ensures places_in_types { (x : Float) → let field = list (null ∷ keyed "List" null ∷ []) in
        Gives fault_along (((fault.column_list, list (list (null ∷ keyed "Duration" (number (float x)) ∷ []) ∷ []), fault.number 0 ∷ fault.number 1 ∷ to "Duration" []), Some BadFloat) ∷
        ((fault.a_type, keyed "List" (word "int8"), to "List" []), Some BadShape) ∷ ((fault.a_type, keyed "List" (moments "s"), to "List" (to "Datetime" [])), Some BadShape) ∷
        ((fault.a_type, keyed "Struct" (number (float x)), to "Struct" []), Some BadFloat) ∷
        ((fault.a_type, keyed "Struct" (list (null ∷ list (word "a" ∷ []) ∷ [])), to "Struct" (fault.number 1 ∷ [])), Some BadShape) ∷
        ((fault.a_type, keyed "Struct" (list (list (null ∷ null ∷ []) ∷ [])), to "Struct" (fault.number 0 ∷ fault.number 0 ∷ [])), Some BadShape) ∷
        ((fault.a_type, keyed "Struct" (list (field ∷ [])), to "Struct" (fault.number 0 ∷ fault.number 1 ∷ to "List" [])), Some BadShape) ∷ []) }
    ensures other_places { (x : Float) (path : Path) → let t = table_value "t" (list []) in let key_too_many = member (codes "tables") null (member (codes "x/y") null no_members) in
        GivesAll fault_along None ((fault.a_query, query_value (t ∷ t ∷ []) null, to "tables" (fault.number 0 ∷ to "name" [])) ∷
        (fault.a_type, keyed "Date" (word "s"), to "Date" path) ∷ (fault.a_type, keyed "list" (word "s"), to "list" path) ∷
        (fault.a_query, object (member (codes "plan") null key_too_many), to "x/y" path) ∷
        (fault.a_typed_literal, list (word "String" ∷ null ∷ []), fault.number 1 ∷ path) ∷ []) }
{}
