//! Rules: which nodes are settled, how often they are replaced, and what may be put in place.

ghost use Rattle.std.specs.Prelude.{◌≡◌, [], ◌∷◌, pos, codes, true, false, map, None, Ok, Err};
ghost use Rattle.plan_types.specs.Types.{Truth, Untyped};
ghost use Rattle.plan_types.specs.declared.error.ErrorKind.TheVariants.{ColumnNotFound, InvalidOperation};
ghost use Rattle.plan_dsl.specs.Ops.{AliasOp};
ghost use Rattle.plan_dsl.specs.Plans.{named, FilterKind, SelectKind, ScanKind};
ghost use Rattle.plan_dsl.specs.Samples.{count};
ghost use Rattle.plan_dsl.specs.Strictness.{IsSame};
ghost use Rattle.plan_dsl.specs.Trees.{node, no_more, more};
ghost use Rattle.plan_dsl.specs.Names.{column_label, literal_label};
ghost use Rattle.plan_dsl.specs.declared.operator.Operator.TheVariants.{Eq, LogicalAnd, LogicalOr, Plus};
ghost use Rattle.plan_infer.specs.Samples.{int8, int16, int32, one_column, two_columns, a, b, c, five, literal, binary, cast_to, sum, pair, columns_and, sum_items, strictly_cast_to};
ghost use Rattle.plan_coerce.specs.CoercionRule.{IsCoercion};
ghost use Rattle.plan_coerce.specs.Reaching.{AreOnce, HasNodes};
ghost use Rattle.plan_coerce.specs.Rules.{AllKnown, HasSameWritten, IsReplacement, IsSameOnFrames, IsTransitive, SettlesNoNumber, has_truth, is_settled, is_strict_node, said, seen, truth_of, until_settled};
ghost use Rattle.plan_coerce.specs.Samples.{no_truth, strict_sum, truth};

/// A node is strict where its operands have the types to which it takes them. A number without a type is not, nor what
/// stands over one, nor what has no type.
pub fn nodes_that_are_strict()
    ensures strict { map (said (is_strict_node [] two_columns) [] two_columns) (a ∷ strict_sum ∷ literal int8 (pos 5) ∷ strictly_cast_to int8 b ∷ [])
        ≡ true ∷ true ∷ true ∷ true ∷ [] }
    ensures not_strict { map (said (is_strict_node [] two_columns) [] two_columns) (sum ∷ five ∷ node (AliasOp (codes "x")) (more five no_more) ∷ binary Plus a five ∷ binary Plus a c ∷ [])
        ≡ false ∷ false ∷ false ∷ false ∷ false ∷ [] }
    ensures below { said (is_strict_node [] two_columns) [] two_columns (strictly_cast_to int8 sum) ≡ true }
{}

/// A strict node is settled, unless it is a cast that can be told beforehand, maybe once what stands under it is coerced.
/// Such a cast is replaced once, or three times; what isn't strict is replaced twice more.
pub fn nodes_that_are_settled()
    ensures settled { map (is_settled [] two_columns) (a ∷ strict_sum ∷ literal int8 (pos 5) ∷ cast_to int8 b ∷ cast_to int8 sum ∷ cast_to int8 (literal int32 (pos 300)) ∷ [])
        ≡ true ∷ true ∷ true ∷ true ∷ true ∷ true ∷ [] }
    ensures told { map (is_settled [] two_columns) (cast_to int8 (literal int32 (pos 5)) ∷ cast_to int16 (cast_to int8 five) ∷ cast_to Truth (binary LogicalAnd truth no_truth) ∷ cast_to Truth (cast_to Truth (binary LogicalOr truth no_truth)) ∷ [])
        ≡ false ∷ false ∷ false ∷ false ∷ [] }
    ensures unsettled { map (is_settled [] two_columns) (sum ∷ five ∷ cast_to int8 five ∷ binary LogicalAnd truth no_truth ∷ []) ≡ false ∷ false ∷ false ∷ false ∷ [] }
    ensures times { map (until_settled [] two_columns) (a ∷ strict_sum ∷ cast_to int8 (literal int32 (pos 5)) ∷ sum ∷ five ∷ cast_to int8 five ∷ cast_to Truth (binary LogicalAnd truth no_truth) ∷ [])
        ≡ 0 ∷ 0 ∷ 1 ∷ 2 ∷ 2 ∷ 3 ∷ 3 ∷ [] }
{}

/// Of inputs their names and typings are seen, or why one has none.
pub fn inputs_that_are_seen()
    ensures names { (seen [] two_columns (more a (more five no_more))).labels ≡ column_label (codes "a") ∷ literal_label (codes "literal") ∷ [] }
    ensures typings { (seen [] two_columns (more a (more five no_more))).typings
        ≡ Ok (record { type = int8; many = true } ∷ record { type = Untyped (pos 5); many = false } ∷ []) }
    ensures refused { (seen [] two_columns (more a (more c no_more))).typings ≡ Err ColumnNotFound }
{}

/// A filter's predicate has the type of truth values. Nothing is asked of other nodes.
pub fn predicates_that_are_checked()
    ensures truth { has_truth [] two_columns (FilterKind (named (binary Eq a b))) ≡ true }
    ensures number { has_truth [] two_columns (FilterKind (named a)) ≡ false }
    ensures number_without_a_type { has_truth [] two_columns (FilterKind (named five)) ≡ false }
    ensures refused { has_truth [] two_columns (FilterKind (named c)) ≡ false }
    ensures select { has_truth [] two_columns (SelectKind (named a ∷ [])) ≡ true }
    ensures scan { has_truth [] two_columns (ScanKind None two_columns) ≡ true }
    ensures kept { truth_of (Ok (record { type = Truth; many = false })) ≡ Ok (record { type = Truth; many = false }) }
    ensures other_type { truth_of (Ok (record { type = int8; many = true })) ≡ Err InvalidOperation }
    ensures same_kind { truth_of (Err ColumnNotFound) ≡ Err ColumnNotFound }
{}

/// Meanings are compared on rows that a frame has. One without columns has no rows, so there a count of rows is the same
/// twice over: of a row that isn't there it is not, and neither is it over a column.
pub fn rows_that_are_compared()
    ensures no_rows { IsSameOnFrames [] [] count (binary Plus count count) }
    ensures other_rows { ¬ (IsSame [] [] count (binary Plus count count)) }
    ensures rows { ¬ (IsSameOnFrames [] (one_column int8) count (binary Plus count count)) }
{}

/// A node that stays as it is is put in place of none, and neither is one that says another thing. A rule that calls every
/// node settled settles numbers without a type.
pub fn what_is_no_replacement()
    ensures unchanged { ¬ (IsReplacement (IsCoercion [] two_columns) (until_settled [] two_columns) [] two_columns sum_items sum_items 2 sum) }
    ensures other { ¬ (HasSameWritten [] two_columns sum a) }
    ensures same_written { HasSameWritten [] two_columns sum strict_sum }
    ensures any_node { ¬ (SettlesNoNumber (λ t. true) [] two_columns) }
    ensures no_node { SettlesNoNumber (λ t. false) [] two_columns }
    ensures same { IsTransitive (λ before after. before ≡ after) }
{}

/// A child without a typing has no type that isn't one of columns; what stands beside it may have one.
pub fn children_of_known_types()
    ensures column { AllKnown [] two_columns (more a no_more) }
    ensures number { ¬ (AllKnown [] two_columns (more a (more five no_more))) }
    ensures no_such_column { AllKnown [] [] (more a no_more) }
    ensures number_beside { ¬ (AllKnown [] [] (more a (more five no_more))) }
{}

/// The nodes of a tree are listed as often as each stands there.
pub fn nodes_of_trees()
    ensures listed { HasNodes sum_items 2 sum (2 ∷ 0 ∷ 1 ∷ []) }
    ensures twice { HasNodes (columns_and (pair 0 Plus 0 ∷ [])) 2 (binary Plus a a) (2 ∷ 0 ∷ 0 ∷ []) }
    ensures other_node { ¬ (HasNodes sum_items 2 sum (1 ∷ [])) }
    ensures once { AreOnce (2 ∷ 0 ∷ 1 ∷ []) }
    ensures not_once { ¬ (AreOnce (2 ∷ 0 ∷ 0 ∷ [])) }
{}
