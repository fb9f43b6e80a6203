ghost use Rattle.std.specs.Prelude.{◌≡◌, false, true};
ghost use Rattle.proc_api.specs.KindRows.{kind_name, row_of, stock_of};

use query_model::processor_spec::Kind;

/// All kinds, in their order.
pub const KINDS: [Kind; 13] = [
    Kind::Csv,
    Kind::List,
    Kind::Numbers,
    Kind::Filter,
    Kind::Expression,
    Kind::Resize,
    Kind::PartialAggregate,
    Kind::MergeAggregate,
    Kind::HashJoin,
    Kind::Sort,
    Kind::MergeSorted,
    Kind::Limit,
    Kind::Collect,
];

/// What is said of a kind by itself.
#[derive(Clone, Copy)]
pub struct KindRow {
    /// As lines print it.
    pub name: &'static [u8],
    /// How many boxes of it the standard stock has.
    pub stock: u32,
    /// Whether its work is longer than a thread takes to start.
    pub works_long: bool,
    /// Whether what it pulls leaves as it is, so that there is nothing to work.
    pub passes_on: bool,
    /// Whether it hands out the chunks that it gathered.
    pub hands_out: bool,
    /// Whether it reads a list's file, so that boxes are kept for the parts that this names.
    pub reads_list: bool,
}

pub fn kind_row(kind: Kind) -> KindRow
    ensures name { result.name.now ≡ kind_name kind }
    ensures stock { result.stock ≡ stock_of kind }
    ensures long { result.works_long ≡ (row_of kind).works_long }
    ensures passes { result.passes_on ≡ (row_of kind).passes_on }
    ensures hands { result.hands_out ≡ (row_of kind).hands_out }
    ensures lists { result.reads_list ≡ (row_of kind).reads_list }
{
    match kind {
        Kind::Csv => usual_row(b"Csv", 64),
        Kind::List => KindRow {
            reads_list: true,
            ..usual_row(b"List", 2)
        },
        Kind::Numbers => usual_row(b"Numbers", 2),
        // A filter or an expression goes once over a chunk.
        Kind::Filter => KindRow {
            works_long: false,
            ..usual_row(b"Filter", 17)
        },
        Kind::Expression => KindRow {
            works_long: false,
            ..usual_row(b"Expression", 17)
        },
        Kind::Resize => KindRow {
            passes_on: true,
            ..usual_row(b"Resize", 4)
        },
        Kind::PartialAggregate => usual_row(b"PartialAggregate", 16),
        Kind::MergeAggregate => usual_row(b"MergeAggregate", 1),
        Kind::HashJoin => usual_row(b"HashJoin", 1),
        Kind::Sort => usual_row(b"Sort", 16),
        Kind::MergeSorted => usual_row(b"MergeSorted", 1),
        Kind::Limit => usual_row(b"Limit", 1),
        Kind::Collect => KindRow {
            hands_out: true,
            ..usual_row(b"Collect", 1)
        },
    }
}

// A kind whose chunks are worked one after the other, and leave by its outputs.
fn usual_row(name: &'static [u8], stock: u32) -> KindRow
    ensures name { result.name.now ≡ name.now }
    ensures stock { result.stock ≡ stock }
    ensures long { result.works_long ≡ true }
    ensures passes { result.passes_on ≡ false }
    ensures hands { result.hands_out ≡ false }
    ensures lists { result.reads_list ≡ false }
{
    KindRow {
        name,
        stock,
        works_long: true,
        passes_on: false,
        hands_out: false,
        reads_list: false,
    }
}
