//! The bytes of a report, on their way out.
ghost use Rattle.std.specs.Prelude.{OnOk};
ghost use Rattle.std.specs.Io.KnownBytes.{Appends};

use std::io::Write;
use thiserror::Error;

/// Why bytes were not delivered.
#[derive(Debug, Drop, Error)]
pub enum DeliverFault {
    /// A write or the flush failed. How many bytes the writer took is not known.
    #[error("cannot write")]
    CannotWrite,
}

/// Writes all bytes, and flushes the writer.
pub fn deliver<W: Write>(writer: &mut W, bytes: &[u8]) -> Result<(), DeliverFault>
    ensures { OnOk result (Appends (W.contents writer.old) (W.contents writer.new) bytes.now) }
{
    if writer.write_all(bytes).is_err() {
        return Err(DeliverFault::CannotWrite);
    }
    if writer.flush().is_err() {
        return Err(DeliverFault::CannotWrite);
    }
    Ok(())
}
