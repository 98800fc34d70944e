//! The bytes of an input.
ghost use Rattle.std.specs.Prelude.{◌≡◌, ◌<◌, ◌≤◌, length, IfErr, IfOk, OnOk, IfSome, vec_len};
ghost use Rattle.std.specs.Io.KnownBytes.{IsAtEnd};
ghost use Rattle.officer.specs.Inputs.{most_input_bytes, most_reads, read_count, Fails, FailsAfterReads, TakesIn};

use std::alloc::{AllocError, Global};
use std::io::{ErrorKind, Read};
use thiserror::Error;

/// How many bytes an input may have.
pub const MOST_BYTES: usize = 67_108_864;

/// How many reads an input may take: one for each byte, and one that finds the end.
const MOST_READS: usize = 67_108_865;

/// Why an input was not fetched.
#[derive(Debug, Drop, Error)]
pub enum FetchFault {
    /// A read failed.
    #[error("cannot read")]
    Unreadable,
    /// There are more than `MOST_BYTES` bytes, or 67,108,865 reads, interrupted ones among them,
    /// did not come to the end.
    #[error("too large")]
    TooLarge,
    /// No memory was left for the bytes.
    #[error("no memory")]
    Memory,
}

impl From<AllocError> for FetchFault {
    ghost use Rattle.std.specs.Prelude.{◌≡◌};
    ghost use Rattle.officer.specs.declared.fetch.FetchFault.TheVariants.{Memory};

    ghost from_gives = { λ _ fault. fault ≡ Memory };

    fn from(_error: AllocError) -> FetchFault {
        FetchFault::Memory
    }
}

/// How many reads did not end a fetch.
#[derive(Drop)]
pub struct Reads {
    /// Those that gave bytes.
    pub gave: usize,
    /// Those that were interrupted, and gave none.
    pub interrupted: usize,
}

// Appends the bytes of one read, none of one that was interrupted, and counts it. It answers whether
// the reader was at its end.
fn read_on<R: Read>(
    reader: &mut R,
    piece: &mut [u8],
    bytes: &mut Vec<u8>,
    reads: &mut Reads,
) -> Result<bool, FetchFault>
    requires room { 0 < length piece.old }
    requires within { vec_len bytes.old ≤ most_input_bytes }
    requires few { read_count reads.old < most_reads }
    ensures { TakesIn (R.remaining reader.old) (R.remaining reader.new)
        bytes.old.items bytes.new.items reads.old reads.new result }
{
    let count = match reader.read(piece) {
        Ok(0) => return Ok(true),
        Ok(count) => count,
        Err(error) if error.kind() == ErrorKind::Interrupted => {
            reads.interrupted += 1;
            return Ok(false);
        }
        Err(_) => return Err(FetchFault::Unreadable),
    };
    if count > MOST_BYTES - bytes.len() {
        return Err(FetchFault::TooLarge);
    }
    bytes.extend_from_slice(&piece[..count])?;
    reads.gave += 1;
    Ok(false)
}

/// All bytes that a reader gives up to its end, and how many reads there were, with those that were
/// interrupted before. A read that was interrupted is tried again.
///
/// Its errors: `TooLarge` where there are more than `MOST_BYTES` bytes, or where 67,108,865 reads, those
/// interrupted before among them, did not come to the end; `Unreadable` where a read failed; `Memory`
/// where there was none for the bytes. What was read is lost then.
pub fn fetch_counting<R: Read>(
    alloc: Global,
    reader: &mut R,
    reads: &mut Reads,
) -> Result<Vec<u8>, FetchFault>
    requires none_gave { reads.old.gave ≡ 0 }
    requires few { reads.old.interrupted ≤ most_reads }
    ensures whole { IfOk result
        (λ bytes. IfSome (R.remaining reader.old) (λ given. bytes.items ≡ given)) }
    ensures within { IfOk result (λ bytes. vec_len bytes ≤ most_input_bytes) }
    ensures ended { OnOk result (IsAtEnd (R.remaining reader.new)) }
    ensures failed { IfErr result
        (λ fault. Fails (R.remaining reader.old) (R.remaining reader.new) reads.new fault) }
{
    let mut piece = [0; 65_536];
    let mut bytes = Vec::new(alloc);
    while reads.gave + reads.interrupted < MOST_READS {
        if read_on(reader, &mut piece, &mut bytes, reads)? {
            return Ok(bytes);
        }
    }
    Err(FetchFault::TooLarge)
}

/// All bytes that a reader gives up to its end. A read that was interrupted is tried again.
///
/// Its errors are those of `fetch_counting`, with no read interrupted before. Its contract says only that
/// some number of reads fits, which says nothing of an input that is too large.
pub fn fetch<R: Read>(alloc: Global, reader: &mut R) -> Result<Vec<u8>, FetchFault>
    ensures whole { IfOk result
        (λ bytes. IfSome (R.remaining reader.old) (λ given. bytes.items ≡ given)) }
    ensures within { IfOk result (λ bytes. vec_len bytes ≤ most_input_bytes) }
    ensures ended { OnOk result (IsAtEnd (R.remaining reader.new)) }
    ensures failed { IfErr result
        (λ fault. FailsAfterReads (R.remaining reader.old) (R.remaining reader.new) fault) }
{
    let mut reads = Reads {
        gave: 0,
        interrupted: 0,
    };
    fetch_counting(alloc, reader, &mut reads)
}
