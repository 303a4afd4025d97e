//! Laws of plans. The functions do nothing: their clauses are the laws.
ghost use Rattle.plan_types.specs.Frames.{Row};
ghost use Rattle.plan_dsl.specs.FrameRowLaws.{SlicesArePartsOfRows, LongSlicesAreAllRows, OffsetsCountFromTheEnd, AllRowsFromTheEndAreTheFront, SortsHaveTheRows, SortsPutRowsInOrder, RowsAreKeptOnce, FirstRowsStandInOrder, AnyRowIsTheFirst, OneRowIsKeptOfOneKey};
ghost use Rattle.plan_dsl.specs.GroupLaws.{EachIsInOneGroup, ItemsGoToTheEnd};
ghost use Rattle.plan_dsl.specs.Laws.{TypedBreaksNothing, RefusalIsBroken, BrokenIsIllFormed, NoSchemaIsBroken, MeaningHasSchema, WrittenIsExpanded, PlainIsWritten, WrittenIsPlain, SameSourcesAreOne, ListsAreExpandedApart, MarkersNameOnce, SelectorsNameOnce, UnresolvedIsTold, PlacesStay, ResolvedBreaksNothing, NothingIsToldAboveARefusal, ScansStay, QueryHasSchema, OwnColumnsGiveTheFrame, DropsHaveSchemas, SortsHaveFlags};
ghost use Rattle.plan_dsl.specs.TableLaws.{ExplodesHaveTheItems, IndexesChangeNoOtherColumn, OneColumnExplodes, OtherNamesStay, RenamesCanBeUndone, RenamesKeepRowsAndTypes, RowsAreNumbered, TheLastNameCounts, UnpivotsGiveARowForEachValue, UnpivotsGoColumnByColumn, UnpivotsKeepValuesOfTheType};

/// What is typed breaks no rule, what is refused breaks the rule that the refusal names, and a plan in
/// which a rule is broken at some place is not well formed. A node without a schema, whose inputs have one,
/// breaks a rule.
pub fn rule_laws()
    ensures typed { TypedBreaksNothing }
    ensures refused { RefusalIsBroken }
    ensures broken { BrokenIsIllFormed }
    ensures without_schema { NoSchemaIsBroken }
{}

/// What a well-formed plan means on fitting tables is a frame of its schema, or a data fault. A simple projection in a
/// frame's own columns gives the frame.
pub fn frame_laws()
    ensures schema { MeaningHasSchema }
    ensures own_columns { OwnColumnsGiveTheFrame }
{}

/// Markers that compare equal are one. Expressions are expanded one by one. A marker other than names or places as they
/// are listed stands for no name twice, and neither do selectors together. A drop that isn't refused has the columns that
/// it leaves, and a sort that isn't has flags for its keys. What can't be resolved over inputs that have schemas is refused by some kind of rule.
pub fn expansion_laws()
    ensures same { SameSourcesAreOne }
    ensures apart { ListsAreExpandedApart }
    ensures once { MarkersNameOnce }
    ensures selectors { SelectorsNameOnce }
    ensures drops { DropsHaveSchemas }
    ensures sorts { SortsHaveFlags }
    ensures told { UnresolvedIsTold }
{}

/// What has plans' ops alone is the expression that is written so, and no other source expression is one. An expression
/// with nothing to expand is its own expansion. A query's plan keeps its places when it is resolved. A
/// node of it that has a schema breaks no rule, and one over an input without schema has none and breaks none. A
/// well-formed query scans the same tables, and means on them a frame of its schema, or a data fault.
pub fn query_laws()
    ensures plain { PlainIsWritten }
    ensures writing { WrittenIsPlain }
    ensures written { WrittenIsExpanded }
    ensures places { PlacesStay }
    ensures resolved { ResolvedBreaksNothing }
    ensures above { NothingIsToldAboveARefusal }
    ensures scans { ScansStay }
    ensures schema { QueryHasSchema }
{}

/// A slice has the rows between two places, which are brought to where there are rows, and of as many rows as there are all.
/// An offset below 0 counts from the end: as far from it as there are rows is the front. A sort has the rows of its input,
/// in the order of the keys beside them, and ties as they stood. A distinct keeps the first, the last or the only row of
/// those beside the same keys, and the kept rows stand as their keys first occur. Any row of some is the first, and one more
/// row is kept behind the first ones where its keys are new. Of rows beside one key at most one is kept.
pub fn row_laws()
    ensures slices { SlicesArePartsOfRows }
    ensures long_slices { LongSlicesAreAllRows }
    ensures from_end { OffsetsCountFromTheEnd }
    ensures from_front { AllRowsFromTheEndAreTheFront }
    ensures sorted { SortsHaveTheRows }
    ensures in_order { SortsPutRowsInOrder }
    ensures groups { EachIsInOneGroup Row × ItemsGoToTheEnd Row }
    ensures once { RowsAreKeptOnce }
    ensures first { FirstRowsStandInOrder }
    ensures any { AnyRowIsTheFirst }
    ensures one_key { OneRowIsKeptOfOneKey }
{}

/// A row index puts its number in front of each row, counted from an offset on, and changes no other column. An unpivot has a
/// row for each row and each column of values, those of one column behind those of another, and a value that is of the common
/// type stays. A rename changes names alone, and of these only the given ones; of two new names for one the later counts. One
/// of names that stand, none of them twice, is undone by a rename the other way round.
pub fn table_row_laws()
    ensures numbered { RowsAreNumbered }
    ensures others { IndexesChangeNoOtherColumn }
    ensures each_value { UnpivotsGiveARowForEachValue }
    ensures by_column { UnpivotsGoColumnByColumn }
    ensures values { UnpivotsKeepValuesOfTheType }
    ensures renamed { RenamesKeepRowsAndTypes }
    ensures other_names { OtherNamesStay }
    ensures last_name { TheLastNameCounts }
    ensures undone { RenamesCanBeUndone }
{}

/// A column of lists explodes as it does alone, and the row's own values stand beside its items. An explode of one column has
/// no fault, and makes as many rows of each row as its value explodes to.
pub fn explode_laws()
    ensures items { ExplodesHaveTheItems }
    ensures one_column { OneColumnExplodes }
{}
