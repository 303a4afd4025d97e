//! Laws of the definitions. The functions do nothing: their clauses are the laws.
ghost use Rattle.std.specs.Prelude.{◌≡◌, ℕ, Bool, List, false};
ghost use Rattle.plan_types.specs.Schemas.{Name};
ghost use Rattle.plan_types.specs.Types.{Ty, Fields};
ghost use Rattle.plan_types.specs.Values.{Val, Vals};
ghost use Rattle.plan_dsl.specs.GroupLaws.{EachIsInOneGroup, ItemsGoToTheEnd, SameKeysAreOne};
ghost use Rattle.plan_dsl.specs.declared.operator.Operator.{Operator};
ghost use Rattle.plan_dsl.specs.Evaluations.{Evaluated};
ghost use Rattle.plan_dsl.specs.FunctionValues.{is_missing};
ghost use Rattle.plan_dsl.specs.HorizontalLaws.{HorizontalsAreTheirChains};
ghost use Rattle.plan_dsl.specs.ListLaws.{AggregatesAreOfAll, CastsAreOfEach, ColumnsAreForRows, ColumnsExplodeApart, FiltersKeepTrue, FramesTakeColumns, GatherGivesEach, GroupsGiveEach, IndicesArePlaces, MembersAreFound, OneIsLess, OperandsGiveEach, OperatorsGiveEach, PartsAreFound, RowsGiveEach, RowsHaveColumns, SeriesAreOfEach, ShiftsMoveValues, SlicesAreBetween};
ghost use Rattle.plan_dsl.specs.Laws.{TakenTypesStay, TakenOperandsSaySame, SwappedOperandsSaySame, StrictRunIsMeaning, MeaningHasType, OnlyNumbersAreUntyped, CoresSaySame, SpelledSaySame};
ghost use Rattle.plan_dsl.specs.SortLaws.{ValuesHaveAnOrder, KeysHaveAnOrder, ValuesAreSorted, RowsAreSorted, SortsByKeysAreSorted, SortedByKeysAreTheSame};
ghost use Rattle.plan_dsl.specs.WindowLaws.{WindowsHaveAValueForEachRow, RowsHaveWhatTheirGroupIsGiven, GroupsArePutInOrder, WindowsOfColumnsAreTheColumns};
ghost use Rattle.plan_dsl.specs.Windows.{Spot};

/// Operands that were taken to their types stay, and a node over operands that were made of those types says
/// the same. Where an operator has one for swapped operands, that takes them to the same types and gives the same.
/// A strict expression without aliases gives what it means as it is written.
/// What a typed expression means has its type on every frame, and is never stuck.
/// Only a number that is written without a type has no type of columns.
/// A horizontal over any number of operands has the name, type and meaning of the chain for which it is written out.
/// Without its aliases a typed expression has the same type, and means the same on any rows. With its horizontals written out
/// it has a type just where it has one without its aliases alone, that type, and means the same on frames.
pub fn expression_laws()
    ensures taken_stay { TakenTypesStay }
    ensures taken_operands { TakenOperandsSaySame }
    ensures swapped { SwappedOperandsSaySame }
    ensures strict_run { StrictRunIsMeaning }
    ensures has_type { MeaningHasType }
    ensures untyped { OnlyNumbersAreUntyped }
    ensures horizontals { HorizontalsAreTheirChains }
    ensures cores { CoresSaySame }
    ensures spelled { SpelledSaySame }
{}

/// Values of a type are in an order, and so are keys of types. A sorted column has the values of its input, in order, and
/// those of which none comes before the other stay as they stood: by itself, and each value beside its keys.
/// A sort by columns of keys gives the values of rows so sorted, which are those of its input, whatever the keys.
pub fn sort_laws()
    ensures order { ValuesHaveAnOrder }
    ensures key_order { KeysHaveAnOrder }
    ensures values { ValuesAreSorted }
    ensures rows { RowsAreSorted }
    ensures keys { SortsByKeysAreSorted }
    ensures same { SortedByKeysAreTheSame }
{}

/// Keys that are found the same are one. Each item is in one group, beside its own keys, no group is empty, and no two have
/// the same keys. An item more goes to the end of its group, or into a new one behind the others: so groups stand in the
/// order in which their keys first occur, and their items as they stood. Both of numbers of rows and of spots of windows.
pub fn group_laws()
    ensures same { SameKeysAreOne }
    ensures one_group { EachIsInOneGroup ℕ × EachIsInOneGroup Spot }
    ensures order { ItemsGoToTheEnd ℕ × ItemsGoToTheEnd Spot }
{}

/// A window gives a value for each row on which it is asked. In each group of rows, which is put in order, these have what
/// the function gives on them, each at its place. Of a column, with a value of its own for each row, a window gives that
/// column, whatever the keys and the order.
pub fn window_laws()
    ensures each_row { WindowsHaveAValueForEachRow }
    ensures groups { RowsHaveWhatTheirGroupIsGiven }
    ensures order { GroupsArePutInOrder }
    ensures columns { WindowsOfColumnsAreTheColumns }
{}

/// What goes over a list goes over all of it, whatever its length. Aggregates are of all values, columns explode apart,
/// slices have the values between two places, and members and parts are found wherever they stand. Gathering, casts,
/// functions, operands, columns and aggregates in groups give what each of theirs gives. Operators and rows have the values
/// of their columns at each place, also where a column is put into a frame; a filter keeps what stands beside true values,
/// and a shift keeps the number of values. Of two values in an order one is less, or both are one.
pub fn list_laws()
    ensures aggregates { (type : Ty) (rows : List ℕ) → AggregatesAreOfAll type rows }
    ensures exploded { ColumnsExplodeApart }
    ensures parts { (name : Name) (type : Ty) (fields : Fields) (value : Val) (parts : Vals) → PartsAreFound name type fields value parts }
    ensures slices { (front middle back : List Val) → SlicesAreBetween front middle back }
    ensures members { (before after : List Val) (value : Val) → is_missing value ≡ false → MembersAreFound before after value }
    ensures gathered { (returns_scalar : Bool) (values : List Val) → GatherGivesEach returns_scalar values }
    ensures indices { (before after : List Val) (value : Val) → IndicesArePlaces before after value }
    ensures casts { CastsAreOfEach }
    ensures by_row { RowsGiveEach }
    ensures operands { OperandsGiveEach }
    ensures series { SeriesAreOfEach }
    ensures groups { (aggs : List Evaluated) → GroupsGiveEach aggs }
    ensures operators { (operator : Operator) (from type : Ty) → OperatorsGiveEach operator from type }
    ensures for_rows { (count : ℕ) → ColumnsAreForRows count }
    ensures rows { RowsHaveColumns }
    ensures stacked { FramesTakeColumns }
    ensures filters { (truths : List Val) → FiltersKeepTrue truths }
    ensures shifts { (fill : Val) → ShiftsMoveValues fill }
    ensures order { OneIsLess }
{}
