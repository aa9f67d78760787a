//! The bytes of a source.

ghost use Rattle.std.specs.Prelude.{◌≡◌, IfOk, IfErr, OnOk};
ghost use Rattle.std.specs.Io.KnownBytes.{Appends};
ghost use Rattle.plane.specs.SourceChange.{IsWholeInput, IsReadRefusal};

use plane::{Refusal, Source};
use std::alloc::Global;

// How many bytes are asked for at a time.
const CHUNK: usize = 8192;

/// All bytes of the source, up to its end. It refuses `NoMemory`, or `ReadFailed` where the source
/// failed in this call; what was read until then is dropped.
pub fn load<R: Source>(alloc: Global, source: &mut R) -> Result<Vec<u8>, Refusal>
    ensures whole { IfOk result (λ bytes. IsWholeInput (R.remaining source.old) bytes.items) }
    ensures given { IfOk result (λ bytes.
        Appends (R.given source.old) (R.given source.new) bytes.items) }
    ensures end { OnOk result (R.has_ended source.new) }
    ensures unfailed { OnOk result (R.failure_count source.new ≡ R.failure_count source.old) }
    ensures refused { IfErr result
        (IsReadRefusal (R.failure_count source.old) (R.failure_count source.new)) }
{
    let mut bytes = Vec::new(alloc);
    let mut chunk = [0; CHUNK];
    'reading: loop {
        let Ok(count) = source.read_some(&mut chunk) else {
            return Err(Refusal::ReadFailed);
        };
        if count == 0 {
            return Ok(bytes);
        }
        bytes.extend_from_slice(&chunk[..count])?;
    }
}
