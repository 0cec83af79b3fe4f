// Writing to the last byte.
ghost use Rattle.std.specs.Prelude.{◌≡◌, ◌⊎◌, ◌<◌, ◌≤◌, length, take, IfErr, OnOk, OnErr};
ghost use Rattle.wire_io.specs.Counts.{Rose};
ghost use Rattle.wire_io.specs.Sink.{Grows, KeepsRoom};

use crate::{Failed, Sink, WriteFailed};

/// Writes all of `bytes`, in as many pieces as the sink wants. A write that fails or takes nothing
/// ends it, and the answer has the number of bytes that were written before.
pub fn put_all<O: Sink>(sink: &mut O, bytes: &[u8]) -> Result<(), WriteFailed>
    ensures ok { OnOk result (Grows (O.written sink.old) (O.written sink.new) bytes.now) }
    ensures front { IfErr result (λ e. Grows (O.written sink.old) (O.written sink.new) (take e.taken bytes.now)) }
    ensures proper { IfErr result (λ e. e.taken < length bytes.now) }
    ensures failed { OnErr result (Rose (O.faults sink.old) (O.faults sink.new) ⊎ Rose (O.stalls sink.old) (O.stalls sink.new)) }
    // What every call keeps.
    ensures room { KeepsRoom (O.room sink.old) (O.room sink.new) (O.stalls sink.old) (O.stalls sink.new) (O.written sink.new) }
    ensures later { O.faults sink.old ≤ O.faults sink.new }
    ensures stalls_later { O.stalls sink.old ≤ O.stalls sink.new }
{
    let mut taken = 0;
    while taken < bytes.len() {
        match sink.put(&bytes[taken..]) {
            Ok(0) | Err(Failed) => return Err(WriteFailed {
                taken: taken as u64,
            }),
            Ok(count) => taken += count as usize,
        }
    }
    Ok(())
}
