// Queries as they are parsed.
use chunk_data::{Bytes, ColumnType, List};

/// A column as it is named in a query, with its table where it is qualified.
#[derive(Debug, Drop)]
pub struct ColumnRef {
    pub table: Option<Bytes>,
    pub name: Bytes,
}

/// A plain number: its digits' value, and whether `-` stands in front. `-0` is 0.
#[derive(Clone, Copy, PartialEq, Eq)]
pub struct Number {
    pub negative: bool,
    pub size: u64,
}

/// `+`, `-` and `*`.
#[derive(Clone, Copy, Debug, PartialEq, Eq)]
pub enum ArithOp {
    Add,
    Sub,
    Mul,
}

/// `=`, `!=`, `<`, `<=`, `>` and `>=`.
#[derive(Clone, Copy, Debug, PartialEq, Eq)]
pub enum CompareOp {
    Eq,
    Ne,
    Lt,
    Le,
    Gt,
    Ge,
}

/// The aggregates `count`, `sum`, `min` and `max`.
#[derive(Clone, Copy, Debug, PartialEq, Eq)]
pub enum AggOp {
    Count,
    Sum,
    Min,
    Max,
}

/// An expression over columns: names in a parsed query, places in a checked one.
#[derive(Drop)]
pub enum ExprOf<C> {
    Column(C),
    Number(Number),
    Arith(ArithOp, Box<ExprOf<C>>, Box<ExprOf<C>>),
}

/// A call of an aggregate; `count` has no argument, each other has one.
#[derive(Drop)]
pub struct AggCall<C> {
    pub op: AggOp,
    pub arg: Option<ExprOf<C>>,
}

/// A side of a comparison. A call stands only in HAVING of a parsed query.
#[derive(Drop)]
pub enum Operand<C> {
    Plain(ExprOf<C>),
    Text(Bytes),
    Agg(AggCall<C>),
    Null,
}

/// A condition on rows; `x IS NOT NULL` is `Not(IsNull(x))`.
#[derive(Drop)]
pub enum CondOf<C> {
    Compare(CompareOp, Operand<C>, Operand<C>),
    And(Box<CondOf<C>>, Box<CondOf<C>>),
    Or(Box<CondOf<C>>, Box<CondOf<C>>),
    Not(Box<CondOf<C>>),
    IsNull(Operand<C>),
}

/// What an item of SELECT is.
#[derive(Drop)]
pub enum ItemKind {
    Plain(ExprOf<ColumnRef>),
    Agg(AggCall<ColumnRef>),
}

/// An item of SELECT, with its name behind AS.
#[derive(Drop)]
pub struct Item {
    pub what: ItemKind,
    pub alias: Option<Bytes>,
}

/// All columns, or a list of items.
#[derive(Drop)]
pub enum Items {
    Star,
    Listed(List<Item>),
}

/// A declared table, or `numbers(N)`.
#[derive(Debug, Drop)]
pub enum TableRef {
    Named(Bytes),
    Numbers(u64),
}

/// A pair of columns of ON, as it is written.
#[derive(Debug, Drop)]
pub struct NamePair {
    pub left: ColumnRef,
    pub right: ColumnRef,
}

/// The table that is joined, and the pairs of ON.
#[derive(Debug, Drop)]
pub struct Join {
    pub table: TableRef,
    pub pairs: List<NamePair>,
}

/// A key of ORDER BY: the name of an item, and whether DESC stands behind it.
#[derive(Drop)]
pub struct OrderKey {
    pub name: Bytes,
    pub descending: bool,
}

/// LIMIT and OFFSET; `skip` is 0 where there is no OFFSET.
#[derive(Clone, Copy, PartialEq, Eq)]
pub struct Span {
    pub count: u64,
    pub skip: u64,
}

/// A query as it is parsed. `keys` are those of GROUP BY, `filter` is the condition of WHERE.
#[derive(Drop)]
pub struct Query {
    pub items: Items,
    pub from: TableRef,
    pub join: Option<Join>,
    pub filter: Option<CondOf<ColumnRef>>,
    pub keys: List<ColumnRef>,
    pub having: Option<CondOf<ColumnRef>>,
    pub order: List<OrderKey>,
    pub limit: Option<Span>,
}

/// A declared column.
#[derive(Drop)]
pub struct ColumnDecl {
    pub name: Bytes,
    pub kind: ColumnType,
}

/// A table's name and columns.
#[derive(Drop)]
pub struct Schema {
    pub name: Bytes,
    pub columns: List<ColumnDecl>,
}

/// The paths of a table's parts, or the path of the file that lists them.
#[derive(Drop)]
pub enum PartsDecl {
    Paths(List<Bytes>),
    ListFile(Bytes),
}

/// A declared table.
#[derive(Drop)]
pub struct TableDecl {
    pub schema: Schema,
    pub parts: PartsDecl,
}

/// Why a query is refused, in the order of the causes. A name is carried as it is written, `t.c`
/// where it is qualified.
#[derive(Debug, Drop)]
pub enum Refusal {
    UnknownTable(Bytes),
    UnknownColumn(Bytes),
    AmbiguousColumn(Bytes),
    BadJoinKey,
    TypeMismatch,
    NotGrouped(Bytes),
    BadOrderKey(Bytes),
    TooWide,
    Memory,
}
