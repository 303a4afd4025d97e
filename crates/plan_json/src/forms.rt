//! The table of forms: the keys of an object of one key, and what each asks of its value.
ghost use Rattle.std.specs.Prelude.{◌≡◌, ◌≤◌, IfSome, length, map};
ghost use Rattle.std.specs.Option.{option_map};
ghost use Rattle.plan_json.specs.Errors.{escaped};
ghost use Rattle.plan_json.specs.Forms.{asked_in, asks, excluded_rows, expression_asks, key_named, marker_asks, order_items, place_view, places_view, plan_asks, row_named, selector_asks, type_rows};
ghost use Rattle.plan_json.specs.declared.forms.Key.TheVariants as keys;
ghost use Rattle.plan_json.specs.declared.forms.Kind.TheVariants as kinds;

// What an object of one key can be.
#[derive(Clone, Copy)]
pub(crate) enum Kind {
    Expression,
    Selector,
    Plan,
}

// What has no forms.
#[derive(Clone, Copy)]
pub(crate) enum Leaf {
    // A text.
    Name,
    Literal(Writing),
    // A type.
    Dtype,
    // The name of a declared table.
    Table,
    // A list of columns.
    Columns,
    // What an exclude leaves out.
    Excluded,
    // The name of a function.
    Function,
    // Null, or a text.
    OptionalName,
    Small(SmallLeaf),
}

// How a literal is written.
#[derive(Clone, Copy)]
pub(crate) enum Writing {
    // As it is.
    AsIs,
    // A text that writes a number.
    Digits,
    // A number with its type.
    Typed,
}

// What has no forms and needs no box.
#[derive(Clone, Copy)]
pub(crate) enum SmallLeaf {
    Operator,
    // What an aggregate makes of its input.
    Method,
    // What a cast does with a value that has no place in its target.
    Mode,
    // Null, where a key has nothing to say.
    Nothing,
    // True or false.
    Flag,
    // A whole number of 64 bits with a sign.
    Index,
    // A whole number of 32 bits without a sign.
    Natural,
    // Null, or a whole number of 32 bits without a sign.
    OptionalNatural,
    // Which row is kept of equal ones.
    Keep,
    // What is taken of each column.
    Statistic,
}

// What has no forms and stands in lists.
#[derive(Clone, Copy)]
pub(crate) enum ListLeaf {
    Name,
    Dtype,
    Flag,
    Index,
    Excluded,
}

// What is asked for at one place.
#[derive(Clone, Copy)]
pub(crate) enum Place {
    Form(Kind),
    Leaf(Leaf),
    // A list of any number of expressions.
    Expressions,
    // A list of any number of selectors.
    Selectors,
    // Null, or a list of an expression and two flags.
    Order,
    // Null, or a list of any number of expressions.
    OptionalExpressions,
    // Null, or a list of any number of selectors.
    OptionalSelectors,
    // A list of any number of these.
    Leaves(ListLeaf),
}

// What a key asks of its value: one thing, or a list of exactly these, of which there are five at most.
#[derive(Clone, Copy)]
pub(crate) enum Places {
    One(Place),
    Listed(&'static [Place]),
}

#[derive(Clone, Copy)]
pub(crate) enum ExpressionKey {
    Col,
    Literal(Writing),
    Bin,
    Cast,
    Len,
    Slice,
    Explode,
    Gather,
    Filter,
    Sort,
    SortBy,
    Agg,
    Over,
    If,
    Fn,
    Field,
    FieldAt,
    KeepName,
    Named(NamedKey),
    Marker(MarkerKey),
}

// The keys of an expression and a name.
#[derive(Clone, Copy)]
pub(crate) enum NamedKey {
    Alias,
    Prefix,
    Suffix,
    Fixed,
}

#[derive(Clone, Copy)]
pub(crate) enum MarkerKey {
    Cols,
    Dtypes,
    At,
    Nth,
    All,
    Exclude,
    Selector,
}

#[derive(Clone, Copy)]
pub(crate) enum SelectorKey {
    Root,
    Joined(Joining),
}

// The keys of two selectors.
#[derive(Clone, Copy)]
pub(crate) enum Joining {
    Add,
    Sub,
    And,
    Xor,
}

#[derive(Clone, Copy)]
pub(crate) enum PlanKey {
    Scan,
    Empty,
    Filter,
    Select,
    WithColumns,
    GroupBy,
    Sort,
    Distinct,
    Slice,
    Cache,
    Sink,
    Rechunk,
    Drop,
    DropNulls,
    FillNull,
    RowIndex,
    Explode,
    Unpivot,
    Rename,
    Unnest,
    Stats,
}

// The keys of types that have parts.
#[derive(Clone, Copy)]
pub(crate) enum TypeKey {
    Datetime,
    Duration,
    List,
    Struct,
}

// The keys of what an exclude leaves out.
#[derive(Clone, Copy)]
pub(crate) enum ExcludedKey {
    Name,
    Dtype,
}

#[derive(Clone, Copy)]
pub(crate) enum Key {
    Expression(ExpressionKey),
    Selector(SelectorKey),
    Plan(PlanKey),
}

const EXPRESSION: Place = Place::Form(Kind::Expression);

const EXPRESSIONS: Place = Place::Expressions;

const SELECTOR: Place = Place::Form(Kind::Selector);

const SELECTORS: Place = Place::Selectors;

const ORDER: Place = Place::Order;

const OPTIONAL_EXPRESSIONS: Place = Place::OptionalExpressions;

const OPTIONAL_SELECTORS: Place = Place::OptionalSelectors;

const NAMES: Place = Place::Leaves(ListLeaf::Name);

const DTYPES: Place = Place::Leaves(ListLeaf::Dtype);

const FLAGS: Place = Place::Leaves(ListLeaf::Flag);

const INDEXES: Place = Place::Leaves(ListLeaf::Index);

const EXCLUDED: Place = Place::Leaves(ListLeaf::Excluded);

const PLAN: Place = Place::Form(Kind::Plan);

const NAME: Place = Place::Leaf(Leaf::Name);

const OPTIONAL_NAME: Place = Place::Leaf(Leaf::OptionalName);

const OPERATOR: Place = Place::Leaf(Leaf::Small(SmallLeaf::Operator));

const METHOD: Place = Place::Leaf(Leaf::Small(SmallLeaf::Method));

const FUNCTION: Place = Place::Leaf(Leaf::Function);

const DTYPE: Place = Place::Leaf(Leaf::Dtype);

const MODE: Place = Place::Leaf(Leaf::Small(SmallLeaf::Mode));

const TABLE: Place = Place::Leaf(Leaf::Table);

const COLUMNS: Place = Place::Leaf(Leaf::Columns);

const NOTHING: Place = Place::Leaf(Leaf::Small(SmallLeaf::Nothing));

const FLAG: Place = Place::Leaf(Leaf::Small(SmallLeaf::Flag));

const INDEX: Place = Place::Leaf(Leaf::Small(SmallLeaf::Index));

const NATURAL: Place = Place::Leaf(Leaf::Small(SmallLeaf::Natural));

const OPTIONAL_NATURAL: Place = Place::Leaf(Leaf::Small(SmallLeaf::OptionalNatural));

const KEEP: Place = Place::Leaf(Leaf::Small(SmallLeaf::Keep));

const STATISTIC: Place = Place::Leaf(Leaf::Small(SmallLeaf::Statistic));

// A word is looked for from the first row on, so common ones stand in front.
const EXPRESSION_ROWS: [(&'static str, ExpressionKey); 31] = [
    ("col", ExpressionKey::Col),
    ("bin", ExpressionKey::Bin),
    ("lit", ExpressionKey::Literal(Writing::AsIs)),
    ("int", ExpressionKey::Literal(Writing::Digits)),
    ("typed", ExpressionKey::Literal(Writing::Typed)),
    ("cast", ExpressionKey::Cast),
    ("len", ExpressionKey::Len),
    ("slice", ExpressionKey::Slice),
    ("explode", ExpressionKey::Explode),
    ("gather", ExpressionKey::Gather),
    ("filter", ExpressionKey::Filter),
    ("sort", ExpressionKey::Sort),
    ("sort_by", ExpressionKey::SortBy),
    ("alias", ExpressionKey::Named(NamedKey::Alias)),
    ("agg", ExpressionKey::Agg),
    ("over", ExpressionKey::Over),
    ("if", ExpressionKey::If),
    ("fn", ExpressionKey::Fn),
    ("field", ExpressionKey::Field),
    ("field_at", ExpressionKey::FieldAt),
    ("cols", ExpressionKey::Marker(MarkerKey::Cols)),
    ("dtypes", ExpressionKey::Marker(MarkerKey::Dtypes)),
    ("at", ExpressionKey::Marker(MarkerKey::At)),
    ("nth", ExpressionKey::Marker(MarkerKey::Nth)),
    ("all", ExpressionKey::Marker(MarkerKey::All)),
    ("exclude", ExpressionKey::Marker(MarkerKey::Exclude)),
    ("selector", ExpressionKey::Marker(MarkerKey::Selector)),
    ("keep_name", ExpressionKey::KeepName),
    ("prefix", ExpressionKey::Named(NamedKey::Prefix)),
    ("suffix", ExpressionKey::Named(NamedKey::Suffix)),
    ("fixed", ExpressionKey::Named(NamedKey::Fixed)),
];

const SELECTOR_ROWS: [(&'static str, SelectorKey); 5] = [
    ("root", SelectorKey::Root),
    ("add", SelectorKey::Joined(Joining::Add)),
    ("sub", SelectorKey::Joined(Joining::Sub)),
    ("and", SelectorKey::Joined(Joining::And)),
    ("xor", SelectorKey::Joined(Joining::Xor)),
];

const PLAN_ROWS: [(&'static str, PlanKey); 21] = [
    ("scan", PlanKey::Scan),
    ("empty", PlanKey::Empty),
    ("filter", PlanKey::Filter),
    ("select", PlanKey::Select),
    ("with_columns", PlanKey::WithColumns),
    ("group_by", PlanKey::GroupBy),
    ("sort", PlanKey::Sort),
    ("distinct", PlanKey::Distinct),
    ("slice", PlanKey::Slice),
    ("cache", PlanKey::Cache),
    ("sink", PlanKey::Sink),
    ("rechunk", PlanKey::Rechunk),
    ("drop", PlanKey::Drop),
    ("drop_nulls", PlanKey::DropNulls),
    ("fill_null", PlanKey::FillNull),
    ("row_index", PlanKey::RowIndex),
    ("explode", PlanKey::Explode),
    ("unpivot", PlanKey::Unpivot),
    ("rename", PlanKey::Rename),
    ("unnest", PlanKey::Unnest),
    ("stats", PlanKey::Stats),
];

const TYPE_ROWS: [(&'static str, TypeKey); 4] = [
    ("Datetime", TypeKey::Datetime),
    ("Duration", TypeKey::Duration),
    ("List", TypeKey::List),
    ("Struct", TypeKey::Struct),
];

const EXCLUDED_ROWS: [(&'static str, ExcludedKey); 2] = [
    ("name", ExcludedKey::Name),
    ("dtype", ExcludedKey::Dtype),
];

// The first row of that word.
fn find<K: Copy>(rows: &[(&'static str, K)], word: &str) -> Option<(&'static str, K)>
    ensures row { option_map (λ row. (row.0.now, row.1)) result ≡ row_named (map (λ row. (row.0.now, row.1)) rows.now) word.now }
    ensures word { IfSome result (λ row. row.0.now ≡ word.now) }
{
    for row in rows {
        if row.0 == word {
            return Some((row.0, row.1));
        }
    }
    None
}

// The key of that kind and word.
pub(crate) fn find_key(kind: Kind, word: &str) -> Option<(&'static str, Key)>
    ensures row { option_map (λ row. (row.0.now, row.1)) result ≡ key_named kind word.now }
    ensures word { IfSome result (λ row. row.0.now ≡ word.now) }
    // It needs no escape in a pointer.
    ensures plain { IfSome result (λ row. escaped row.0.now ≡ row.0.now) }
{
    match kind {
        Kind::Expression => match find_expression(word) {
            None => None,
            Some((word, key)) => Some((word, Key::Expression(key))),
        },
        Kind::Plan => match find(&PLAN_ROWS, word) {
            None => None,
            Some((word, key)) => Some((word, Key::Plan(key))),
        },
        Kind::Selector => match find(&SELECTOR_ROWS, word) {
            None => None,
            Some((word, key)) => Some((word, Key::Selector(key))),
        },
    }
}

// The key of expressions of that word. Most forms are columns and operators, whose words are told by their bytes.
#[inline(always)]
pub(crate) fn find_expression(word: &str) -> Option<(&'static str, ExpressionKey)>
    ensures row { option_map (λ row. (row.0.now, keys.Expression row.1)) result ≡ key_named kinds.Expression word.now }
    ensures word { IfSome result (λ row. row.0.now ≡ word.now) }
    ensures plain { IfSome result (λ row. escaped row.0.now ≡ row.0.now) }
{
    match word.as_bytes() {
        b"col" => Some(("col", ExpressionKey::Col)),
        b"bin" => Some(("bin", ExpressionKey::Bin)),
        _ => match find(&EXPRESSION_ROWS, word) {
            None => None,
            Some((word, key)) => Some((word, key)),
        },
    }
}

// The key of types of that word.
pub(crate) fn find_type(word: &str) -> Option<(&'static str, TypeKey)>
    ensures row { option_map (λ row. (row.0.now, row.1)) result ≡ row_named type_rows word.now }
    ensures word { IfSome result (λ row. row.0.now ≡ word.now) }
    ensures plain { IfSome result (λ row. escaped row.0.now ≡ row.0.now) }
{
    match find(&TYPE_ROWS, word) {
        None => None,
        Some((word, key)) => Some((word, key)),
    }
}

// The key of that word, of what an exclude leaves out.
pub(crate) fn find_excluded(word: &str) -> Option<(&'static str, ExcludedKey)>
    ensures row { option_map (λ row. (row.0.now, row.1)) result ≡ row_named excluded_rows word.now }
    ensures word { IfSome result (λ row. row.0.now ≡ word.now) }
    ensures plain { IfSome result (λ row. escaped row.0.now ≡ row.0.now) }
{
    match find(&EXCLUDED_ROWS, word) {
        None => None,
        Some((word, key)) => Some((word, key)),
    }
}

// What an order asks for where it is no null.
pub(crate) fn order_places() -> &'static [Place]
    ensures asks { map place_view result.now ≡ order_items }
    ensures short { length result.now ≤ 5 }
{
    &[EXPRESSION, FLAG, FLAG]
}

// What the key asks of its value.
pub(crate) fn places_of(key: Key) -> Places
    ensures asks { places_view result ≡ asks key }
    ensures short { length (asked_in (places_view result)) ≤ 5 }
{
    match key {
        Key::Expression(key) => expression_places(key),
        Key::Plan(key) => plan_places(key),
        Key::Selector(key) => selector_places(key),
    }
}

pub(crate) fn expression_places(key: ExpressionKey) -> Places
    ensures asks { places_view result ≡ expression_asks key }
    ensures short { length (asked_in (places_view result)) ≤ 5 }
{
    match key {
        ExpressionKey::Col => Places::One(NAME),
        ExpressionKey::Literal(how) => Places::One(Place::Leaf(Leaf::Literal(how))),
        ExpressionKey::Bin => Places::Listed(&[OPERATOR, EXPRESSION, EXPRESSION]),
        ExpressionKey::Agg => Places::Listed(&[METHOD, EXPRESSION]),
        ExpressionKey::Over => Places::Listed(&[EXPRESSION, EXPRESSIONS, ORDER]),
        ExpressionKey::If => Places::Listed(&[EXPRESSION, EXPRESSION, EXPRESSION]),
        ExpressionKey::Fn => Places::Listed(&[FUNCTION, EXPRESSIONS]),
        ExpressionKey::Field => Places::Listed(&[EXPRESSION, NAME]),
        ExpressionKey::FieldAt => Places::Listed(&[EXPRESSION, INDEX]),
        ExpressionKey::Cast => Places::Listed(&[EXPRESSION, DTYPE, MODE]),
        ExpressionKey::Len => Places::One(NOTHING),
        ExpressionKey::Slice => Places::Listed(&[EXPRESSION, EXPRESSION, EXPRESSION]),
        ExpressionKey::Explode => Places::One(EXPRESSION),
        ExpressionKey::Gather => Places::Listed(&[EXPRESSION, EXPRESSION, FLAG]),
        ExpressionKey::Filter => Places::Listed(&[EXPRESSION, EXPRESSION]),
        ExpressionKey::Sort => Places::Listed(&[EXPRESSION, FLAG, FLAG]),
        ExpressionKey::SortBy => Places::Listed(&[EXPRESSION, EXPRESSIONS, FLAGS, FLAGS]),
        ExpressionKey::KeepName => Places::One(EXPRESSION),
        ExpressionKey::Named(_) => Places::Listed(&[EXPRESSION, NAME]),
        ExpressionKey::Marker(key) => marker_places(key),
    }
}

fn marker_places(key: MarkerKey) -> Places
    ensures asks { places_view result ≡ marker_asks key }
    ensures short { length (asked_in (places_view result)) ≤ 5 }
{
    match key {
        MarkerKey::Cols => Places::One(NAMES),
        MarkerKey::Dtypes => Places::One(DTYPES),
        MarkerKey::At => Places::One(INDEXES),
        MarkerKey::Nth => Places::One(INDEX),
        MarkerKey::All => Places::One(NOTHING),
        MarkerKey::Exclude => Places::Listed(&[EXPRESSION, EXCLUDED]),
        MarkerKey::Selector => Places::One(SELECTOR),
    }
}

fn plan_places(key: PlanKey) -> Places
    ensures asks { places_view result ≡ plan_asks key }
    ensures short { length (asked_in (places_view result)) ≤ 5 }
{
    match key {
        PlanKey::Scan => Places::One(TABLE),
        PlanKey::Empty => Places::One(COLUMNS),
        PlanKey::Filter => Places::Listed(&[PLAN, EXPRESSION]),
        PlanKey::Select => Places::Listed(&[PLAN, EXPRESSIONS]),
        PlanKey::WithColumns => Places::Listed(&[PLAN, EXPRESSIONS]),
        PlanKey::GroupBy => Places::Listed(&[PLAN, EXPRESSIONS, EXPRESSIONS]),
        PlanKey::Sort => Places::Listed(&[PLAN, EXPRESSIONS, FLAGS, FLAGS]),
        PlanKey::Distinct => Places::Listed(&[PLAN, OPTIONAL_SELECTORS, KEEP]),
        PlanKey::Slice => Places::Listed(&[PLAN, INDEX, NATURAL]),
        PlanKey::Cache => Places::Listed(&[PLAN, NATURAL]),
        PlanKey::Sink => Places::One(PLAN),
        PlanKey::Rechunk => Places::One(PLAN),
        PlanKey::Drop => Places::Listed(&[PLAN, SELECTORS, FLAG]),
        PlanKey::DropNulls => Places::Listed(&[PLAN, OPTIONAL_EXPRESSIONS]),
        PlanKey::FillNull => Places::Listed(&[PLAN, EXPRESSION]),
        PlanKey::RowIndex => Places::Listed(&[PLAN, NAME, OPTIONAL_NATURAL]),
        PlanKey::Explode => Places::Listed(&[PLAN, SELECTORS, FLAG]),
        PlanKey::Unpivot => {
            Places::Listed(&[PLAN, SELECTORS, SELECTORS, OPTIONAL_NAME, OPTIONAL_NAME])
        }
        PlanKey::Rename => Places::Listed(&[PLAN, NAMES, NAMES, FLAG]),
        PlanKey::Unnest => Places::Listed(&[PLAN, SELECTORS]),
        PlanKey::Stats => Places::Listed(&[PLAN, STATISTIC]),
    }
}

fn selector_places(key: SelectorKey) -> Places
    ensures asks { places_view result ≡ selector_asks key }
    ensures short { length (asked_in (places_view result)) ≤ 5 }
{
    match key {
        SelectorKey::Root => Places::One(EXPRESSION),
        SelectorKey::Joined(_) => Places::Listed(&[SELECTOR, SELECTOR]),
    }
}
