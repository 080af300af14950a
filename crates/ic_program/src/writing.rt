//! How the program writes bytes, as far as a writer takes them.
//!
//! ```text
//! write_whole(&mut writer, b"ok\n")? // writes all three bytes, in as many calls as that takes
//! ```

ghost use Rattle.std.specs.Prelude.{IsTrue, IfOk, IfErr, OnOk, OnErr};
ghost use Rattle.std.specs.Io.KnownBytes.{Keeps, append_known};
ghost use Rattle.ic_program.specs.Played.{CutTo};
ghost use Rattle.ic_program.specs.HowFar.{is_loss};

use crate::fault::Fault;
use std::io::{ErrorKind, Write};

/// Writes the bytes. After a fault, the writer has a beginning of the bytes.
pub(crate) fn write_whole<W: Write>(writer: &mut W, bytes: &[u8]) -> Result<(), Fault>
    ensures written { OnOk result (Keeps (append_known (W.contents writer.old) bytes.now) (W.contents writer.new)) }
    ensures cut { OnErr result (CutTo (append_known (W.contents writer.old) bytes.now) (W.contents writer.new)) }
    ensures lost { IfErr result (λ fault. IsTrue (is_loss fault)) }
{
    let mut rest = bytes;
    for _turn in 0..u64::MAX {
        if rest.is_empty() {
            return Ok(());
        }
        rest = write_first(writer, rest)?;
    }
    // The writer needs more calls than the counter can count.
    Err(Fault::Writing)
}

// Writes a beginning of the bytes, and returns the rest of them.
fn write_first<'b, W: Write>(writer: &mut W, bytes: &'b [u8]) -> Result<&'b [u8], Fault>
    ensures written { IfOk result (λ rest. Keeps (append_known (W.contents writer.old) bytes.now) (append_known (W.contents writer.new) rest.now)) }
    ensures cut { OnErr result (CutTo (append_known (W.contents writer.old) bytes.now) (W.contents writer.new)) }
    ensures lost { IfErr result (λ fault. IsTrue (is_loss fault)) }
{
    match writer.write(bytes) {
        Ok(0) => Err(Fault::Writing),
        Ok(taken) => Ok(&bytes[taken..]),
        // The write was interrupted, and the next write tries again.
        Err(error) if error.kind() == ErrorKind::Interrupted => Ok(bytes),
        Err(error) => Err(Fault::of_writer(&error)),
    }
}
