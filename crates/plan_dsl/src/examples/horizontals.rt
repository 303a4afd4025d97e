//! Horizontals: written out where they are few, with values of their own where they are many. Their inputs are expanded in
//! place. Fields of structs at places get their names.

ghost use Rattle.std.specs.Prelude.{◌≡◌, [], ◌∷◌, ◌++◌, pos, neg_ℤ, replicate, codes, true, false, Some, None, Ok, Err};
ghost use Rattle.plan_types.specs.Types.{Ty, Truth, NullType, TextType, DateType};
ghost use Rattle.plan_types.specs.Outcomes.{Done, Fault};
ghost use Rattle.plan_types.specs.Schemas.{Columns};
ghost use Rattle.plan_types.specs.declared.dtype.CastOptions.TheVariants.{NonStrict};
ghost use Rattle.plan_types.specs.declared.error.ErrorKind.TheVariants.{ColumnNotFound, InvalidOperation, ComputeError};
ghost use Rattle.plan_dsl.specs.declared.function_expr.FunctionExpr.{FunctionExpr};
ghost use Rattle.plan_dsl.specs.declared.function_expr.FunctionExpr.TheVariants.{AllHorizontal, AnyHorizontal, FieldByName, FillNull, IsNull, IsNotNull};
ghost use Rattle.plan_dsl.specs.declared.operator.Operator.TheVariants.{LogicalAnd, LogicalOr};
ghost use Rattle.plan_dsl.specs.declared.signature.Ask.TheVariants.{Boolean, Castable};
ghost use Rattle.plan_dsl.specs.Aliases.{core, is_written_out, pruned, spelled};
ghost use Rattle.plan_dsl.specs.Expansion.{expansion, field_at, in_place, predicate_expansion};
ghost use Rattle.plan_dsl.specs.FunctionValues.{all_true, any_true, function_values};
ghost use Rattle.plan_dsl.specs.Kernels.{operator_values};
ghost use Rattle.plan_dsl.specs.Names.{alias_label, column_label, label_of, literal_label};
ghost use Rattle.plan_dsl.specs.Ops.{Expression, FunctionOp, LiteralOp};
ghost use Rattle.plan_dsl.specs.Plans.{all_known_values, nulls_filled, source_call};
ghost use Rattle.plan_dsl.specs.Signatures.{horizontal_ask};
ghost use Rattle.plan_dsl.specs.Strictness.{is_strict};
ghost use Rattle.plan_dsl.specs.Sources.{FieldAtOp, KeepRoot, Source, is_plain, written};
ghost use Rattle.plan_dsl.specs.Trees.{node, no_more, more};
ghost use Rattle.plan_dsl.specs.Typing.{kinds_in, typing};
ghost use Rattle.plan_dsl.specs.Samples.{Gives, GivesOfTwo, int8, null, yes, no, number, struct_type, a, b, c, d, s, t, u, one, nothing, sum, binary, equal, cast_as, alias, call, of_many, of_one, means, alone, beside, schema_ab, all_names, all, columns_named, columns_of_type, nth, but_named, selecting, root, form, prefix, plus, equals, source_alias};

/// In a lowered plan a horizontal over nothing is a literal, over one operand a cast, and over more a chain from the left.
/// Aliases go, and are kept where they are. From 128 operands on it stays, and so does one that has recorded names. What it is
/// written out to has its type.
pub fn written_out_horizontals()
    ensures spelled { let literal : Expression = node (LiteralOp Truth yes) no_more in
        let other : Expression = node (LiteralOp Truth no) no_more in
        Gives spelled (
        (call AllHorizontal [], literal) ∷ (call AnyHorizontal [], other) ∷ (call AllHorizontal (a ∷ []), cast_as NonStrict Truth a) ∷ (call AnyHorizontal (t ∷ []), cast_as NonStrict Truth t) ∷
        (call AllHorizontal (a ∷ b ∷ []), binary LogicalAnd a b) ∷ (call AnyHorizontal (a ∷ b ∷ c ∷ []), binary LogicalOr (binary LogicalOr a b) c) ∷
        (call AllHorizontal (a ∷ b ∷ c ∷ t ∷ []), binary LogicalAnd (binary LogicalAnd (binary LogicalAnd a b) c) t) ∷
        (call AllHorizontal (alias "x" a ∷ call AnyHorizontal (b ∷ alias "y" c ∷ []) ∷ []), binary LogicalAnd a (binary LogicalOr b c)) ∷
        (alias "z" (call AllHorizontal (a ∷ b ∷ [])), binary LogicalAnd a b) ∷ []) }
    ensures kept { Gives (pruned true true) (
        (call AllHorizontal (alias "x" a ∷ b ∷ []), binary LogicalAnd (alias "x" a) b) ∷ (alias "z" (call AnyHorizontal (alias "x" a ∷ [])), alias "z" (cast_as NonStrict Truth (alias "x" a))) ∷ []) }
    ensures names { Gives label_of ((call AllHorizontal (alias "x" a ∷ b ∷ []), alias_label (codes "x")) ∷ (call AllHorizontal [], literal_label (codes "literal")) ∷ []) }
    ensures sizes { GivesOfTwo (is_written_out true) (
        (FunctionOp AllHorizontal [], 0, true) ∷ (FunctionOp AllHorizontal [], 127, true) ∷ (FunctionOp AllHorizontal [], 128, false) ∷ (FunctionOp AnyHorizontal [], 127, true) ∷ (FunctionOp AnyHorizontal [], 300, false) ∷
        (FunctionOp AllHorizontal (alias_label (codes "x") ∷ []), 1, false) ∷ (FunctionOp IsNull [], 1, false) ∷ []) }
    ensures typed { Gives (typing [] schema_ab) ((spelled (call AllHorizontal (equal a one ∷ equal b one ∷ [])), of_many Truth) ∷ (spelled (call AllHorizontal (a ∷ [])), of_many Truth) ∷ (spelled (call AllHorizontal (a ∷ b ∷ [])), Err InvalidOperation) ∷ (spelled (call AnyHorizontal []), of_one Truth) ∷ []) }
{}

/// Without its aliases an expression keeps its horizontals as nodes over any number of operands, whose names they record.
/// Its rules are those of the nodes: the chain over a wrong operand is refused for it beside an unknown column too.
pub fn horizontals_as_nodes()
    ensures cores { let both = alias_label (codes "x") ∷ column_label (codes "b") ∷ [] in
        let below = node (FunctionOp AnyHorizontal both) (more a (more b no_more)) in
        Gives core (
        (call AllHorizontal [], call AllHorizontal []) ∷ (call AllHorizontal (a ∷ []), node (FunctionOp AllHorizontal (column_label (codes "a") ∷ [])) (more a no_more)) ∷
        (call AnyHorizontal (alias "x" a ∷ b ∷ []), below) ∷ (alias "z" (call AllHorizontal (call AnyHorizontal (alias "x" a ∷ b ∷ []) ∷ [])), node (FunctionOp AllHorizontal (alias_label (codes "x") ∷ [])) (more below no_more)) ∷ []) }
    ensures kept { Gives (pruned true false) (
        (alias "z" (call AnyHorizontal (alias "x" a ∷ [])), alias "z" (node (FunctionOp AnyHorizontal (alias_label (codes "x") ∷ [])) (more a no_more))) ∷ (sum (alias "x" a) one, sum (alias "x" a) one) ∷ []) }
    ensures sizes { GivesOfTwo (is_written_out false) ((FunctionOp AllHorizontal [], 0, false) ∷ (FunctionOp AnyHorizontal [], 127, false) ∷ (FunctionOp AllHorizontal [], 128, false) ∷ []) }
    ensures kinds { let columns : Columns = (codes "a", int8) ∷ (codes "t", Truth) ∷ [] in
        Gives (kinds_in [] columns) (
        (core (call AllHorizontal (a ∷ t ∷ c ∷ [])), ColumnNotFound ∷ []) ∷ (spelled (call AllHorizontal (a ∷ t ∷ c ∷ [])), InvalidOperation ∷ ColumnNotFound ∷ []) ∷
        (core (call AllHorizontal (a ∷ t ∷ [])), InvalidOperation ∷ []) ∷ (core (call AllHorizontal (c ∷ [])), ColumnNotFound ∷ []) ∷ []) }
{}

/// A horizontal asks nothing over no operand. One alone can be cast to truth values, and each of more is of truth values or
/// null. Each is taken to truth values.
pub fn operands_of_horizontals()
    ensures asks { Gives horizontal_ask ((0, Boolean) ∷ (1, Castable) ∷ (2, Boolean) ∷ (127, Boolean) ∷ (128, Boolean) ∷ []) }
    ensures types { let columns : Columns = (codes "t", Truth) ∷ (codes "u", NullType) ∷ (codes "a", int8) ∷ (codes "d", DateType) ∷ [] in
        Gives (typing [] columns) (
        (call AllHorizontal [], of_one Truth) ∷ (call AnyHorizontal (a ∷ []), of_many Truth) ∷ (call AllHorizontal (t ∷ []), of_many Truth) ∷ (call AllHorizontal (nothing ∷ []), of_one Truth) ∷ (call AnyHorizontal (one ∷ []), of_one Truth) ∷
        (call AnyHorizontal (d ∷ []), Err InvalidOperation) ∷ (call AllHorizontal (c ∷ []), Err ColumnNotFound) ∷
        (call AllHorizontal (t ∷ u ∷ []), of_many Truth) ∷ (call AnyHorizontal (u ∷ u ∷ []), of_many Truth) ∷ (call AllHorizontal (nothing ∷ node (LiteralOp Truth yes) no_more ∷ []), of_one Truth) ∷
        (call AllHorizontal (a ∷ t ∷ []), Err InvalidOperation) ∷ (call AllHorizontal (t ∷ a ∷ []), Err InvalidOperation) ∷ (call AllHorizontal (t ∷ one ∷ []), Err InvalidOperation) ∷ (call AnyHorizontal (a ∷ t ∷ c ∷ []), Err ColumnNotFound) ∷
        (call AllHorizontal (replicate 127 t), of_many Truth) ∷ (call AllHorizontal (replicate 128 t), of_many Truth) ∷ (call AnyHorizontal (a ∷ replicate 126 t), Err InvalidOperation) ∷ (call AnyHorizontal (a ∷ replicate 127 t), Err InvalidOperation) ∷
        (call AnyHorizontal (replicate 126 t ++ a ∷ []), Err InvalidOperation) ∷ (call AllHorizontal (replicate 127 t ++ a ∷ []), Err InvalidOperation) ∷ []) }
    ensures kinds { let columns : Columns = (codes "a", int8) ∷ (codes "t", Truth) ∷ [] in
        Gives (kinds_in [] columns) (
        (call AllHorizontal (a ∷ t ∷ c ∷ []), ColumnNotFound ∷ []) ∷ (call AllHorizontal (a ∷ t ∷ []), InvalidOperation ∷ []) ∷ []) }
    ensures values { let table = beside Truth int8 ((yes, number 0) ∷ (no, number 2) ∷ (null, null) ∷ []) in
        Gives (means table) (
        (call AllHorizontal [], Done (yes ∷ [])) ∷ (call AnyHorizontal [], Done (no ∷ [])) ∷ (call AllHorizontal (a ∷ []), Done (yes ∷ no ∷ null ∷ [])) ∷ (call AnyHorizontal (b ∷ []), Done (no ∷ yes ∷ null ∷ [])) ∷
        (call AllHorizontal (b ∷ []), Done (no ∷ yes ∷ null ∷ [])) ∷ (call AnyHorizontal (one ∷ []), Done (yes ∷ [])) ∷ (call AllHorizontal (nothing ∷ []), Done (null ∷ [])) ∷
        (call AllHorizontal (a ∷ equal b one ∷ []), Done (no ∷ no ∷ null ∷ [])) ∷ (call AnyHorizontal (a ∷ nothing ∷ equal b b ∷ []), Done (yes ∷ yes ∷ null ∷ [])) ∷ []) }
    ensures strict { let columns : Columns = (codes "t", Truth) ∷ (codes "a", int8) ∷ [] in
        Gives (is_strict [] columns) ((call AllHorizontal (t ∷ []), true) ∷ (call AllHorizontal (a ∷ []), false) ∷ (call AllHorizontal (cast_as NonStrict Truth a ∷ []), true) ∷ (call AnyHorizontal [], true) ∷ (call AnyHorizontal (t ∷ nothing ∷ []), false) ∷ []) }
{}

/// From 128 operands on each is of truth values or null. They have a common length.
pub fn many_operands()
    ensures typed { let columns : Columns = (codes "t", Truth) ∷ (codes "u", NullType) ∷ (codes "a", int8) ∷ [] in
        Gives (λ operand. typing [] columns (core (call AllHorizontal (operand ∷ replicate 127 t)))) ((t, of_many Truth) ∷ (u, of_many Truth) ∷ (nothing, of_many Truth) ∷ (a, Err InvalidOperation) ∷ (one, Err InvalidOperation) ∷ (c, Err ColumnNotFound) ∷ []) }
    ensures values { let truths = alone Truth (yes ∷ null ∷ no ∷ []) in
        Gives (λ function. means truths (core (call function (nothing ∷ replicate 127 a)))) ((AllHorizontal, Done (null ∷ null ∷ no ∷ [])) ∷ (AnyHorizontal, Done (yes ∷ null ∷ null ∷ [])) ∷ []) }
    ensures one_value { typing [] [] (core (call AnyHorizontal (replicate 128 (node (LiteralOp Truth yes) no_more)))) ≡ of_one Truth }
{}

/// All are true where none is false or null, and false where any is; any is true where one is. The chain gives the same.
pub fn values_of_horizontals()
    ensures all { Gives all_true (
        ([], yes) ∷ (yes ∷ yes ∷ yes ∷ [], yes) ∷ (yes ∷ no ∷ null ∷ [], no) ∷ (null ∷ no ∷ yes ∷ [], no) ∷ (yes ∷ null ∷ yes ∷ [], null) ∷ (null ∷ null ∷ [], null) ∷ (no ∷ [], no) ∷ []) }
    ensures any { Gives any_true (
        ([], no) ∷ (no ∷ no ∷ [], no) ∷ (no ∷ yes ∷ null ∷ [], yes) ∷ (null ∷ yes ∷ no ∷ [], yes) ∷ (no ∷ null ∷ no ∷ [], null) ∷ (null ∷ null ∷ [], null) ∷ (yes ∷ [], yes) ∷ []) }
    ensures chained { let left = yes ∷ yes ∷ yes ∷ no ∷ no ∷ no ∷ null ∷ null ∷ null ∷ [] in
        let right = yes ∷ no ∷ null ∷ yes ∷ no ∷ null ∷ yes ∷ no ∷ null ∷ [] in
        Gives (λ (function : FunctionExpr). function_values function (Truth ∷ Truth ∷ []) (left ∷ right ∷ [])) (
        (AllHorizontal, operator_values LogicalAnd Truth Truth left right) ∷ (AnyHorizontal, operator_values LogicalOr Truth Truth left right) ∷ []) }
    ensures lengths { Gives (function_values AllHorizontal []) (((yes ∷ no ∷ []) ∷ (yes ∷ []) ∷ [], Done (yes ∷ no ∷ [])) ∷ ((yes ∷ no ∷ []) ∷ (yes ∷ yes ∷ yes ∷ []) ∷ [], Fault) ∷ []) }
{}

/// What each input is expanded to stands in its place, also where the whole is then repeated for no name. So it is inside
/// inputs, and in horizontals alone.
pub fn inputs_in_place()
    ensures one { Gives (expansion [] schema_ab) (
        (source_call AllHorizontal (all ∷ []), Ok (call AllHorizontal (a ∷ b ∷ []) ∷ [])) ∷ (source_call AnyHorizontal (all ∷ written one ∷ all ∷ []), Ok (call AnyHorizontal (a ∷ b ∷ one ∷ a ∷ b ∷ []) ∷ [])) ∷
        (source_call AllHorizontal (columns_of_type TextType ∷ []), Ok (call AllHorizontal [] ∷ [])) ∷ (source_call AllHorizontal [], Ok (call AllHorizontal [] ∷ [])) ∷
        (source_call AllHorizontal (source_call IsNotNull (all ∷ []) ∷ []), Ok (call AllHorizontal (call IsNotNull (a ∷ []) ∷ call IsNotNull (b ∷ []) ∷ []) ∷ [])) ∷
        (source_call AnyHorizontal (source_call AllHorizontal (all ∷ []) ∷ written a ∷ []), Ok (call AnyHorizontal (call AllHorizontal (a ∷ b ∷ []) ∷ a ∷ []) ∷ [])) ∷
        (source_call AllHorizontal (prefix "p" (written a) ∷ form KeepRoot all ∷ []), Ok (call AllHorizontal (alias "pa" a ∷ alias "a" a ∷ alias "b" b ∷ []) ∷ [])) ∷ []) }
    ensures beside { Gives (expansion [] schema_ab) (
        (equals (source_call AnyHorizontal (all ∷ [])) all, Ok (equal (call AnyHorizontal (a ∷ b ∷ [])) a ∷ equal (call AnyHorizontal (a ∷ b ∷ [])) b ∷ [])) ∷
        (equals all (source_call AnyHorizontal (all ∷ [])), Ok (equal a (call AnyHorizontal (a ∷ b ∷ [])) ∷ equal b (call AnyHorizontal (a ∷ b ∷ [])) ∷ [])) ∷
        (source_call FillNull (all ∷ written one ∷ []), Ok (call FillNull (a ∷ one ∷ []) ∷ call FillNull (b ∷ one ∷ []) ∷ [])) ∷
        (source_alias "x" (source_call AllHorizontal (all ∷ [])), Ok (alias "x" (call AllHorizontal (a ∷ b ∷ [])) ∷ [])) ∷ []) }
    ensures refused { Gives (expansion [] schema_ab) (
        (source_call AllHorizontal (nth (pos 9) ∷ []), Err ColumnNotFound) ∷ (plus (source_call AllHorizontal (nth (pos 9) ∷ [])) (columns_named []), Err ColumnNotFound) ∷
        (source_call AllHorizontal (plus all (nth (pos 0)) ∷ []), Err InvalidOperation) ∷ (source_call AllHorizontal (form KeepRoot (written one) ∷ []), Err InvalidOperation) ∷
        (source_call AllHorizontal (source_alias "x" (form KeepRoot (written a)) ∷ []), Err InvalidOperation) ∷ (source_call FillNull (prefix "p" (written a) ∷ []), Err InvalidOperation) ∷ []) }
    ensures keys { Gives (expansion (all_names ("a" ∷ [])) schema_ab) (
        (source_call AllHorizontal (all ∷ []), Ok (call AllHorizontal (b ∷ []) ∷ [])) ∷ (source_call AllHorizontal (written one ∷ all ∷ []), Ok (call AllHorizontal (one ∷ b ∷ []) ∷ [])) ∷
        (equals (written a) (source_call AllHorizontal (all ∷ [])), Ok (equal a (call AllHorizontal (b ∷ [])) ∷ [])) ∷ []) }
    ensures inside_markers { Gives (in_place [] schema_ab) (
        (but_named "a" all, Ok (but_named "a" all)) ∷
        (selecting (root (source_call AllHorizontal (nth (pos 9) ∷ []))), Ok (selecting (root (source_call AllHorizontal (nth (pos 9) ∷ []))))) ∷ []) }
    ensures predicates { Gives (predicate_expansion schema_ab) (
        (all_known_values None, Ok (call AllHorizontal (call IsNotNull (a ∷ []) ∷ call IsNotNull (b ∷ []) ∷ []))) ∷ (all_known_values (Some []), Ok (call AllHorizontal [])) ∷
        (all_known_values (Some (written b ∷ [])), Ok (call AllHorizontal (call IsNotNull (b ∷ []) ∷ []))) ∷ (nulls_filled (written one), Err ComputeError) ∷ []) }
    ensures filled { expansion [] schema_ab (nulls_filled (written one)) ≡ Ok (call FillNull (a ∷ one ∷ []) ∷ call FillNull (b ∷ one ∷ []) ∷ []) }
{}

/// A field at a place of a column of structs gets its name; a place below 0 counts from the end. Nothing else has one.
pub fn fields_at_places()
    ensures plain { Gives is_plain ((node (FieldAtOp (pos 0)) (more (written a) no_more), false) ∷ (source_call (FieldByName (codes "x")) (written a ∷ []), true) ∷ []) }
    ensures names { let pair : Ty = struct_type ((codes "x", int8) ∷ (codes "y", TextType) ∷ []) in
        Gives (field_at (Some pair)) ((pos 0, Ok (codes "x")) ∷ (pos 1, Ok (codes "y")) ∷ (pos 2, Err InvalidOperation) ∷ (neg_ℤ (pos 1), Ok (codes "y")) ∷ (neg_ℤ (pos 2), Ok (codes "x")) ∷ (neg_ℤ (pos 3), Err InvalidOperation) ∷ []) }
    ensures columns { let columns : Columns = (codes "s", struct_type ((codes "x", int8) ∷ (codes "y", TextType) ∷ [])) ∷ (codes "a", int8) ∷ [] in
        let last : Source → Source = λ source. node (FieldAtOp (neg_ℤ (pos 1))) (more source no_more) in
        let named = call (FieldByName (codes "y")) (s ∷ []) in
        Gives (expansion [] columns) (
        (last (written s), Ok (named ∷ [])) ∷ (last (written a), Err InvalidOperation) ∷ (last (written b), Err ColumnNotFound) ∷ (last (written (sum s s)), Err InvalidOperation) ∷ (last (last (written s)), Err InvalidOperation) ∷
        (last (columns_named ("s" ∷ [])), Ok (named ∷ [])) ∷ (last all, Err InvalidOperation) ∷ (form KeepRoot (last (written s)), Ok (alias "s" named ∷ [])) ∷ (source_alias "z" (last (written s)), Ok (alias "z" named ∷ [])) ∷
        (plus (written a) (last (written s)), Ok (sum a named ∷ [])) ∷ (plus (last (written s)) (last (written b)), Err ColumnNotFound) ∷
        (source_call AllHorizontal (last (written s) ∷ last all ∷ []), Err InvalidOperation) ∷ (source_call AllHorizontal (last (written s) ∷ []), Ok (call AllHorizontal (named ∷ []) ∷ [])) ∷
        (node (FieldAtOp (pos 0)) no_more, Err InvalidOperation) ∷ (node (FieldAtOp (pos 0)) (more (written s) (more (written s) no_more)), Err InvalidOperation) ∷ []) }
{}
