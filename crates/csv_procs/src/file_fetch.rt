ghost use Rattle.std.specs.Prelude.{◌≡◌, ◌+◌, nat_lt};
ghost use Rattle.csv_procs.specs.Names.{FetchGives, IsAfter, IsSome};

use crate::feeds::Feeds;
use chunk_data::Bytes;
use outside_io::{Failed, Got};
use proc_api::WorkFault;

/// The most bytes that one read asks for.
pub(crate) const BLOCK: usize = 65536;

/// What one read gave.
#[derive(Clone, Copy, PartialEq, Eq)]
pub enum Fetched {
    More,
    /// The file's end was read.
    Whole,
    Pending,
}

// Whether so many bytes held and so many more are more than the limit.
fn passes_limit(held: usize, more: usize, limit: u64) -> bool
    ensures { result ≡ nat_lt limit (held + more) }
{
    let held = held as u64;
    held > limit || more as u64 > limit - held
}

/// Makes one read of at most 65,536 bytes, and adds what it gave to the held bytes.
///
/// The held bytes never pass the limit; after a fault they are as they were.
pub fn fetch<F: Feeds>(reader: &mut F, held: &mut Bytes, limit: u64) -> Result<Fetched, WorkFault>
    requires { IsSome (F.reader reader.old).position }
    ensures after { IsAfter (F.reader reader.old) (F.reader reader.new) }
    ensures gives { FetchGives limit (F.reader reader.old) (F.reader reader.new) held.old held.new
        result }
{
    let mut buffer = [0; BLOCK];
    fetch_by(reader, &mut buffer, held, limit)
}

/// The same by a buffer that serves for many reads.
pub(crate) fn fetch_by<F: Feeds>(
    reader: &mut F,
    buffer: &mut [u8; BLOCK],
    held: &mut Bytes,
    limit: u64,
) -> Result<Fetched, WorkFault>
    requires { IsSome (F.reader reader.old).position }
    ensures after { IsAfter (F.reader reader.old) (F.reader reader.new) }
    ensures gives { FetchGives limit (F.reader reader.old) (F.reader reader.new) held.old held.new
        result }
{
    match reader.read_block(buffer) {
        Ok(Got::Bytes(n)) => {
            let block = &buffer[..n];
            if passes_limit(held.len(), block.len(), limit) {
                return Err(WorkFault::TooLong);
            }
            match held.extend_from_slice(block) {
                Ok(()) => Ok(Fetched::More),
                Err(_) => Err(WorkFault::Memory),
            }
        }
        Ok(Got::End) => Ok(Fetched::Whole),
        Ok(Got::Pending) => Ok(Fetched::Pending),
        Err(Failed) => Err(WorkFault::Read),
    }
}
