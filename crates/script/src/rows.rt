// The table of kinds: what a record of each kind is, the bounds of its fields, and its parts.
ghost use Rattle.std.specs.Prelude.{◌≡◌, ◌<◌, slice_index_or};
ghost use Rattle.script.specs.Rows.{rows, row_of, unknown, amount, part_count, suits, within};

use crate::record::Record;

// What a record is. `Declaration` is only ever wanted: a variable declaration or a function suits it. `Unknown` is a sort
// and no Option: trees are defined of any records, known or not, so every kind has a row with a sort and parts.
#[derive(Clone, Copy, PartialEq, Eq, Debug)]
pub enum Sort {
    Unknown,
    Expression,
    Statement,
    Variable,
    Function,
    Parameter,
    Program,
    Declaration,
}

impl Sort {
    // May a record of the sort `found` stand where this sort is wanted?
    pub(crate) fn suited_by(self, found: Sort) -> bool
        ensures { result ≡ suits self found }
    {
        match self {
            Sort::Declaration => matches!(found, Sort::Variable | Sort::Function),
            _ => self == found,
        }
    }
}

// The operator of an expression with two parts.
#[derive(Clone, Copy, PartialEq, Eq, Debug)]
pub enum Operator {
    Sum,
    Difference,
    Greater,
}

// Which node of the language a record is; an unknown kind is a node too, for the same reason.
#[derive(Clone, Copy, PartialEq, Eq, Debug)]
pub enum NodeKind {
    Unknown,
    Number,
    Variable,
    TwoPart(Operator),
    Assignment,
    Call,
    BayRead,
    BayWrite,
    ExpressionStatement,
    If,
    While,
    Return,
    Block,
    VariableDeclaration,
    Function,
    Parameter,
    Program,
}

// How many parts of one sort a record has: always as many, or as many as a field says.
#[derive(Clone, Copy, PartialEq, Eq, Debug)]
pub enum Count {
    Fixed(u16),
    FieldA,
    FieldV,
}

impl Count {
    pub fn of(self, node: Record) -> usize
        ensures { result ≡ amount self node }
    {
        match self {
            Count::Fixed(n) => usize::from(n),
            Count::FieldA => usize::from(node.a),
            // a negative number counts no parts: the bounds of a field that counts exclude it
            Count::FieldV => usize::try_from(node.v).unwrap_or(0),
        }
    }
}

// May a field whose largest value is `most` have this one?
pub(crate) fn allows(most: Option<u16>, value: i32) -> bool
    ensures { result ≡ within most value }
{
    most.is_none_or(|most| (0..=i32::from(most)).contains(&value))
}

#[derive(Clone, Copy, PartialEq, Eq, Debug)]
pub struct Parts {
    pub count: Count,
    pub sort: Sort,
}

// A field, `a` or `v`, may be 0 up to the largest value that stands here, and anything where none does. A record's parts
// are its `first` parts, then its `second` parts.
#[derive(Clone, Copy, PartialEq, Eq, Debug)]
pub struct Row {
    pub node: NodeKind,
    pub sort: Sort,
    pub a: Option<u16>,
    pub v: Option<u16>,
    pub first: Parts,
    pub second: Parts,
}

const NAME: Option<u16> = Some(255);

const BLANK: Option<u16> = Some(0);

const ANY: Option<u16> = None;

const ARGUMENTS: Option<u16> = Some(15);

// Parts that there are none of are of no sort that a record has.
const NO_PARTS: Parts = Parts {
    count: Count::Fixed(0),
    sort: Sort::Unknown,
};

const ONE_EXPRESSION: Parts = Parts {
    count: Count::Fixed(1),
    sort: Sort::Expression,
};

const TWO_EXPRESSIONS: Parts = Parts {
    count: Count::Fixed(2),
    sort: Sort::Expression,
};

const ONE_STATEMENT: Parts = Parts {
    count: Count::Fixed(1),
    sort: Sort::Statement,
};

const TWO_STATEMENTS: Parts = Parts {
    count: Count::Fixed(2),
    sort: Sort::Statement,
};

// What a row leaves out has no parts, and fields without a meaning.
const UNKNOWN: Row = Row {
    node: NodeKind::Unknown,
    sort: Sort::Unknown,
    a: BLANK,
    v: BLANK,
    first: NO_PARTS,
    second: NO_PARTS,
};

const NUMBER: Row = Row {
    node: NodeKind::Number,
    sort: Sort::Expression,
    v: ANY,
    ..UNKNOWN
};

const VARIABLE: Row = Row {
    node: NodeKind::Variable,
    sort: Sort::Expression,
    a: NAME,
    ..UNKNOWN
};

const SUM: Row = Row {
    node: NodeKind::TwoPart(Operator::Sum),
    sort: Sort::Expression,
    first: TWO_EXPRESSIONS,
    ..UNKNOWN
};

const DIFFERENCE: Row = Row {
    node: NodeKind::TwoPart(Operator::Difference),
    ..SUM
};

const GREATER: Row = Row {
    node: NodeKind::TwoPart(Operator::Greater),
    ..SUM
};

const ASSIGNMENT: Row = Row {
    node: NodeKind::Assignment,
    sort: Sort::Expression,
    a: NAME,
    first: ONE_EXPRESSION,
    ..UNKNOWN
};

const CALL: Row = Row {
    node: NodeKind::Call,
    sort: Sort::Expression,
    a: NAME,
    v: ARGUMENTS,
    first: Parts {
        count: Count::FieldV,
        sort: Sort::Expression,
    },
    ..UNKNOWN
};

const BAY_READ: Row = Row {
    node: NodeKind::BayRead,
    sort: Sort::Expression,
    first: ONE_EXPRESSION,
    ..UNKNOWN
};

const BAY_WRITE: Row = Row {
    node: NodeKind::BayWrite,
    ..SUM
};

const EXPRESSION_STATEMENT: Row = Row {
    node: NodeKind::ExpressionStatement,
    sort: Sort::Statement,
    first: ONE_EXPRESSION,
    ..UNKNOWN
};

const IF: Row = Row {
    node: NodeKind::If,
    second: TWO_STATEMENTS,
    ..EXPRESSION_STATEMENT
};

const WHILE: Row = Row {
    node: NodeKind::While,
    second: ONE_STATEMENT,
    ..EXPRESSION_STATEMENT
};

const RETURN: Row = Row {
    node: NodeKind::Return,
    ..EXPRESSION_STATEMENT
};

const BLOCK: Row = Row {
    node: NodeKind::Block,
    sort: Sort::Statement,
    a: Some(63),
    v: Some(1023),
    first: Parts {
        count: Count::FieldA,
        sort: Sort::Variable,
    },
    second: Parts {
        count: Count::FieldV,
        sort: Sort::Statement,
    },
};

const VARIABLE_DECLARATION: Row = Row {
    node: NodeKind::VariableDeclaration,
    sort: Sort::Variable,
    a: NAME,
    v: ANY,
    ..UNKNOWN
};

const FUNCTION: Row = Row {
    node: NodeKind::Function,
    sort: Sort::Function,
    a: NAME,
    v: ARGUMENTS,
    first: Parts {
        count: Count::FieldV,
        sort: Sort::Parameter,
    },
    second: ONE_STATEMENT,
};

const PARAMETER: Row = Row {
    node: NodeKind::Parameter,
    sort: Sort::Parameter,
    a: NAME,
    ..UNKNOWN
};

const PROGRAM: Row = Row {
    node: NodeKind::Program,
    sort: Sort::Program,
    a: Some(128),
    first: Parts {
        count: Count::FieldA,
        sort: Sort::Declaration,
    },
    second: ONE_STATEMENT,
    ..UNKNOWN
};

// One row for each kind below 32, the kind as its index.
pub const ROWS: &[Row; 32] = &[
    // 0
    UNKNOWN,
    NUMBER,
    VARIABLE,
    SUM,
    // 4
    DIFFERENCE,
    GREATER,
    ASSIGNMENT,
    CALL,
    // 8
    BAY_READ,
    BAY_WRITE,
    UNKNOWN,
    UNKNOWN,
    UNKNOWN,
    UNKNOWN,
    UNKNOWN,
    UNKNOWN,
    // 16
    EXPRESSION_STATEMENT,
    IF,
    WHILE,
    RETURN,
    BLOCK,
    UNKNOWN,
    UNKNOWN,
    UNKNOWN,
    // 24
    VARIABLE_DECLARATION,
    FUNCTION,
    PARAMETER,
    PROGRAM,
    UNKNOWN,
    UNKNOWN,
    UNKNOWN,
    UNKNOWN,
];

// The row of any kind; a kind past the table is unknown too.
#[tactic(auto, unfolding(crate::specs::Rows::row_of))]
pub fn row_of(kind: u8) -> Row
    ensures { result ≡ row_of kind }
{
    ROWS.get(usize::from(kind)).copied().unwrap_or(UNKNOWN)
}

// How many parts follow a record, by its row.
pub fn part_count(node: Record) -> usize
    ensures { result ≡ part_count node }
{
    let row = row_of(node.kind);
    row.first.count.of(node) + row.second.count.of(node)
}
