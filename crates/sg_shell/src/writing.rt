//! Writes an output whole.
ghost use Rattle.std.specs.Prelude.{◌≡◌, OnOk, OnErr};
ghost use Rattle.sg_edge.specs.Edge.{behind};
ghost use Rattle.sg_edge.specs.Puts.{PutCause};
ghost use Rattle.sg_shell.specs.Outputs.{StopsInside};

use sg_edge::{PutError, Sink};

/// Puts bytes until a sink has them all.
pub(crate) fn write_all<K: Sink>(sink: &mut K, bytes: &[u8]) -> Result<(), PutError>
    ensures ok { OnOk result (K.given sink.new ≡ behind bytes.now (K.given sink.old)) }
    ensures err { OnErr result (StopsInside K.given bytes.now sink.old sink.new) }
    ensures cause { PutCause (K.faults sink.old) (K.faults sink.new) result }
{
    let mut written = 0;
    while written < bytes.len() {
        written += sink.put(&bytes[written..])?;
    }
    Ok(())
}
