//! Windows.

ghost use Rattle.std.specs.Prelude.{◌≡◌, [], ◌∷◌, pos, codes, Some, None, true, false, Err};
ghost use Rattle.std.specs.Global.{Box};
ghost use Rattle.plan_types.specs.Types.{TextType, ListType};
ghost use Rattle.plan_types.specs.Outcomes.{Done, Fault, Stuck};
ghost use Rattle.plan_types.specs.declared.dtype.CastOptions.TheVariants.{Strict};
ghost use Rattle.plan_types.specs.declared.error.ErrorKind.TheVariants.{ColumnNotFound, InvalidOperation};
ghost use Rattle.plan_dsl.specs.declared.expr.Expr.{Expr, Window};
ghost use Rattle.plan_dsl.specs.declared.expr.Exprs.{Exprs};
ghost use Rattle.plan_dsl.specs.declared.sort_options.SortOptions.{SortOptions};
ghost use Rattle.plan_dsl.specs.declared.window.WindowType.{WindowType};
ghost use Rattle.plan_dsl.specs.Expressions.{tree_of, trees_of};
ghost use Rattle.plan_dsl.specs.Sources.{Plain};
ghost use Rattle.plan_dsl.specs.declared.aggregate.GroupByMethod.TheVariants.{First, Implode, Sum, Groups};
ghost use Rattle.plan_dsl.specs.Meaning.{meaning};
ghost use Rattle.plan_dsl.specs.Names.{name_of};
ghost use Rattle.plan_dsl.specs.Ops.{LiteralOp, WindowOp};
ghost use Rattle.plan_dsl.specs.Strictness.{is_strict};
ghost use Rattle.plan_dsl.specs.Trees.{children_from, more, node, no_more};
ghost use Rattle.plan_dsl.specs.Typing.{typing, kinds_in};
ghost use Rattle.plan_dsl.specs.WindowLaws.{AreOfGroups, HaveWhatIsGiven, are_for_rows, of_each};
ghost use Rattle.plan_dsl.specs.Windows.{put_in_order, spots_from, value_at, window_values};
ghost use Rattle.plan_dsl.specs.Samples.{Gives, GivesAll, GivesOfTwo, int8, int32, uint32, null, number, a, b, c, agg, beside, cast_as, count, five, huge, list, literal, means, of_many, one, over, over_by, rising, runs, schema_ab, slice, sort_as, spot, sum, text, turns, way, yes, no};

/// A window has its function as the first child, then what orders its groups, if anything does, and the keys behind it, in order.
pub fn trees_of_windows()
    ensures unordered { (function : Box Expr) (keys : Exprs) (options : WindowType) → tree_of (Window function keys None options)
        ≡ node (Plain (WindowOp None)) (more (tree_of function.value) (children_from (trees_of keys))) }
    ensures ordered { (function order : Box Expr) (way : SortOptions) (keys : Exprs) (options : WindowType) → tree_of (Window function keys (Some (order, way)) options)
        ≡ node (Plain (WindowOp (Some way))) (more (tree_of function.value) (more (tree_of order.value) (children_from (trees_of keys)))) }
{}

/// A window has the name and the type of its function, and may have any number of values. It has a key, and its order is one of
/// values that are sorted.
pub fn types_of_windows()
    ensures names { Gives name_of ((over (b ∷ []) a, codes "a") ∷ (over (a ∷ []) (sum b a), codes "b") ∷ (over (a ∷ []) count, codes "len") ∷ []) }
    ensures types { Gives (typing [] schema_ab) (
        (over (a ∷ []) (agg Sum b), of_many int32) ∷ (over (a ∷ []) count, of_many uint32) ∷ (over (a ∷ b ∷ []) b, of_many int32) ∷ (over (a ∷ []) five, of_many int32) ∷
        (over (five ∷ []) (agg Implode a), of_many (ListType int8)) ∷ (over_by rising b (a ∷ []) a, of_many int8) ∷ (over_by rising five (a ∷ []) a, of_many int8) ∷ []) }
    ensures refused { Gives (typing [] schema_ab) (
        (over [] a, Err InvalidOperation) ∷ (over_by rising b [] a, Err InvalidOperation) ∷ (over_by rising (agg Implode b) (a ∷ []) a, Err InvalidOperation) ∷
        (over (c ∷ []) a, Err ColumnNotFound) ∷ (over (a ∷ []) c, Err ColumnNotFound) ∷ (over (huge ∷ []) a, Err InvalidOperation) ∷ (node (WindowOp (Some rising)) no_more, Err InvalidOperation) ∷ []) }
    ensures kinds { Gives (kinds_in [] schema_ab) ((over [] a, InvalidOperation ∷ []) ∷ (over [] c, ColumnNotFound ∷ []) ∷ (over (a ∷ []) b, []) ∷ []) }
    ensures strict { Gives (is_strict [] schema_ab) ((over (b ∷ []) a, true) ∷ (over (five ∷ []) a, false) ∷ (over (b ∷ []) five, false) ∷ []) }
{}

/// The function is asked on the rows of each group, of which those of a null key are one. One value is for all rows of a group,
/// and as many as it has go to these in turn.
pub fn values_of_windows()
    ensures groups { let rows = beside int8 int32 ((number 1, number 10) ∷ (number 2, number 20) ∷ (number 1, number 30) ∷ (null, number 40) ∷ (number 2, number 50) ∷ (null, number 60) ∷ []) in
        Gives (means rows) (
        (over (a ∷ []) (agg Sum b), Done (number 40 ∷ number 70 ∷ number 40 ∷ number 100 ∷ number 70 ∷ number 100 ∷ [])) ∷
        (over (a ∷ []) b, Done (number 10 ∷ number 20 ∷ number 30 ∷ number 40 ∷ number 50 ∷ number 60 ∷ [])) ∷
        (over (a ∷ []) (sort_as (way true true) b), Done (number 30 ∷ number 50 ∷ number 10 ∷ number 60 ∷ number 20 ∷ number 40 ∷ [])) ∷
        (over (a ∷ []) count, Done (number 2 ∷ number 2 ∷ number 2 ∷ number 2 ∷ number 2 ∷ number 2 ∷ [])) ∷
        (over (one ∷ []) (agg Sum b), Done (number 210 ∷ number 210 ∷ number 210 ∷ number 210 ∷ number 210 ∷ number 210 ∷ [])) ∷
        (over (a ∷ b ∷ []) count, Done (number 1 ∷ number 1 ∷ number 1 ∷ number 1 ∷ number 1 ∷ number 1 ∷ [])) ∷
        (over (a ∷ []) five, Done (number 5 ∷ number 5 ∷ number 5 ∷ number 5 ∷ number 5 ∷ number 5 ∷ [])) ∷
        (over (a ∷ []) (over (b ∷ []) count), Done (number 1 ∷ number 1 ∷ number 1 ∷ number 1 ∷ number 1 ∷ number 1 ∷ [])) ∷ []) }
    ensures ordered { let rows = beside int8 int32 ((number 1, number 10) ∷ (number 1, null) ∷ (number 2, number 20) ∷ (number 1, number 30) ∷ []) in
        Gives (means rows) (
        (over_by rising b (a ∷ []) (agg First b), Done (null ∷ null ∷ number 20 ∷ null ∷ [])) ∷
        (over_by (way true true) b (a ∷ []) (agg First b), Done (number 30 ∷ number 30 ∷ number 20 ∷ number 30 ∷ [])) ∷
        (over_by (way true true) b (a ∷ []) b, Done (number 10 ∷ null ∷ number 20 ∷ number 30 ∷ [])) ∷
        (over_by rising one (a ∷ []) (agg First b), Done (number 10 ∷ number 10 ∷ number 20 ∷ number 10 ∷ [])) ∷ (
          over_by (way true false) b (a ∷ []) (agg Groups b),
          Done (list (number 1 ∷ number 3 ∷ number 0 ∷ []) ∷ list (number 1 ∷ number 3 ∷ number 0 ∷ []) ∷ list (number 2 ∷ []) ∷ list (number 1 ∷ number 3 ∷ number 0 ∷ []) ∷ []),
        ) ∷ []) }
    ensures some_rows { meaning [] (beside int8 int32 ((number 1, number 10) ∷ (number 2, number 20) ∷ (number 1, number 30) ∷ [])) (over (a ∷ []) (agg Sum b)) (2 ∷ 1 ∷ 2 ∷ [])
        ≡ Done (number 60 ∷ number 20 ∷ number 60 ∷ []) }
    ensures runs { let rows = beside int8 int32 ((number 1, number 10) ∷ (number 1, number 30) ∷ []) in
        Gives (runs rows) ((over (a ∷ []) (agg Sum b), Done (number 40 ∷ number 40 ∷ [])) ∷ (over (a ∷ []) five, Stuck) ∷ (over (one ∷ []) b, Stuck) ∷ []) }
{}

/// A wrong number of values in a group is a fault, and so is one of a key or of an order. Where there are no rows nothing of the
/// function is asked, which would be a fault there too.
pub fn windows_at_fault()
    ensures numbers { let rows = beside int8 int32 ((number 1, number 10) ∷ (number 1, number 20) ∷ (number 1, number 30) ∷ []) in
        let two = slice b (literal (pos 0)) (literal (pos 2)) in
        GivesAll (means rows) Fault (over (a ∷ []) two ∷ over (two ∷ []) b ∷ over_by rising two (a ∷ []) b ∷ []) }
    ensures none { let wrong = cast_as Strict int8 (node (LiteralOp TextType (text "x")) no_more) in
        (means (beside int8 int32 []) wrong ≡ Fault) × (means (beside int8 int32 []) (over (a ∷ []) wrong) ≡ Done []) × (means (beside int8 int32 []) (over (wrong ∷ []) b) ≡ Fault) }
{}

/// Rows have their places, and are put in order by the values beside them: from the greatest on they are turned round.
pub fn spots_in_order()
    ensures spots { spots_from 4 (7 ∷ 5 ∷ []) (null ∷ number 1 ∷ []) ≡ spot 4 7 null ∷ spot 5 5 (number 1) ∷ [] }
    ensures orders { Gives (λ order. put_in_order order (spot 0 7 (number 1) ∷ spot 1 8 (number 2) ∷ spot 2 7 null ∷ spot 3 9 (number 2) ∷ [])) (
        (None, spot 0 7 (number 1) ∷ spot 1 8 (number 2) ∷ spot 2 7 null ∷ spot 3 9 (number 2) ∷ []) ∷
        (Some rising, spot 2 7 null ∷ spot 0 7 (number 1) ∷ spot 1 8 (number 2) ∷ spot 3 9 (number 2) ∷ []) ∷
        (Some (way true true), spot 1 8 (number 2) ∷ spot 3 9 (number 2) ∷ spot 0 7 (number 1) ∷ spot 2 7 null ∷ []) ∷ []) }
    ensures places { Gives (value_at ((3, yes) ∷ (0, no) ∷ [])) ((3, yes) ∷ (0, no) ∷ (1, null) ∷ []) }
{}

/// A function that tells rows their turns within their group, and one of a value for each row: over rows that are asked for
/// twice, keys that are null, an order that turns a group round, and values that no group has room for.
pub fn windows_over_functions()
    ensures turns { Gives (window_values None turns (7 ∷ 5 ∷ 7 ∷ 6 ∷ [])) (
        ((yes ∷ []) ∷ [], Done (number 0 ∷ number 1 ∷ number 2 ∷ number 3 ∷ [])) ∷
        ((null ∷ yes ∷ null ∷ yes ∷ []) ∷ [], Done (number 0 ∷ number 0 ∷ number 1 ∷ number 1 ∷ [])) ∷
        ((null ∷ yes ∷ null ∷ yes ∷ []) ∷ (null ∷ null ∷ yes ∷ null ∷ []) ∷ [], Done (number 0 ∷ number 0 ∷ number 0 ∷ number 1 ∷ [])) ∷ []) }
    ensures turned { Gives (λ order. window_values (Some order) turns (7 ∷ 5 ∷ 7 ∷ 6 ∷ []) ((number 1 ∷ number 2 ∷ null ∷ number 3 ∷ []) ∷ (no ∷ yes ∷ no ∷ no ∷ []) ∷ [])) (
        (rising, Done (number 1 ∷ number 0 ∷ number 0 ∷ number 2 ∷ [])) ∷ (way true true, Done (number 1 ∷ number 0 ∷ number 2 ∷ number 0 ∷ [])) ∷ []) }
    ensures without_order { window_values (Some rising) turns (7 ∷ []) [] ≡ Stuck }
    ensures columns { let rows = 7 ∷ 5 ∷ 7 ∷ [] in let keys = (null ∷ yes ∷ null ∷ []) ∷ [] in
        (of_each number rows ≡ Done (number 7 ∷ number 5 ∷ number 7 ∷ [])) × (window_values None (of_each number) rows keys ≡ of_each number rows) ×
        (window_values (Some (way true true)) (of_each number) rows ((number 1 ∷ number 2 ∷ number 3 ∷ []) ∷ keys) ≡ of_each number rows) }
    ensures numbers { Gives (λ rows. window_values None (λ numbers. Done (yes ∷ no ∷ [])) rows ((null ∷ []) ∷ [])) (
        ([], Done []) ∷ (7 ∷ 5 ∷ [], Done (yes ∷ no ∷ [])) ∷ (7 ∷ 5 ∷ 7 ∷ [], Fault) ∷ (7 ∷ [], Fault) ∷ []) }
    ensures keys { GivesOfTwo are_for_rows (
        (2, [], true) ∷ (2, (yes ∷ no ∷ []) ∷ (null ∷ []) ∷ [], true) ∷ (2, (null ∷ []) ∷ (yes ∷ no ∷ yes ∷ []) ∷ [], false) ∷ (0, (null ∷ []) ∷ [] ∷ [], true) ∷ (1, [] ∷ [], false) ∷ []) }
{}

/// What rows are given stands at their places: not in their order, and not at others.
pub fn values_that_rows_are_given()
    ensures each { HaveWhatIsGiven (of_each number) (spot 2 7 null ∷ spot 0 5 null ∷ []) (number 5 ∷ null ∷ number 7 ∷ []) }
    ensures one { HaveWhatIsGiven (λ rows. Done (yes ∷ [])) (spot 2 7 null ∷ spot 0 5 null ∷ []) (yes ∷ null ∷ yes ∷ []) }
    ensures in_order { ¬ (HaveWhatIsGiven (of_each number) (spot 2 7 null ∷ spot 0 5 null ∷ []) (number 7 ∷ null ∷ number 5 ∷ [])) }
    ensures too_few { ¬ (HaveWhatIsGiven (of_each number) (spot 2 7 null ∷ spot 0 5 null ∷ []) (number 5 ∷ null ∷ [])) }
    ensures wrong_number { ¬ (HaveWhatIsGiven (λ rows. Done (yes ∷ no ∷ [])) (spot 0 7 null ∷ spot 1 5 null ∷ spot 2 6 null ∷ []) (yes ∷ no ∷ yes ∷ [])) }
    ensures by_groups { ¬ (AreOfGroups None (of_each number) (7 ∷ 5 ∷ 6 ∷ []) (Done (null ∷ null ∷ null ∷ [])) ((yes ∷ no ∷ yes ∷ []) ∷ []) (number 7 ∷ number 6 ∷ number 5 ∷ [])) }
{}
