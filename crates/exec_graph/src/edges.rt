ghost use Rattle.std.specs.Prelude.{◌≡◌, ◌<◌, ◌&&◌, nat_lt, length};
ghost use Rattle.proc_api.specs.Graphs.{rank_at};

use chunk_data::List;
use port_word::Wire;

/// The most inputs that a node has.
const MOST_INPUTS: u32 = 32;

/// The most outputs that a node has.
const MOST_OUTPUTS: u32 = 16;

/// Whether the edge goes from a lower rank to a higher one.
#[tactic(auto, unfolding(proc_api::specs::Graphs::rank_at))]
pub(crate) fn is_ranked(ranks: &List<u32>, wire: &Wire) -> bool
    requires from_in_range { wire.now.from < length ranks.now }
    requires to_in_range { wire.now.to < length ranks.now }
    ensures { result ≡ nat_lt (rank_at ranks.now wire.now.from) (rank_at ranks.now wire.now.to) }
{
    *ranks.get(wire.from as usize) < *ranks.get(wire.to as usize)
}

/// Whether the edge's ports are within the limits.
pub(crate) fn has_small_ports(wire: &Wire) -> bool
    ensures { result ≡ (nat_lt wire.now.input 32 && nat_lt wire.now.out 16) }
{
    wire.input < MOST_INPUTS && wire.out < MOST_OUTPUTS
}
