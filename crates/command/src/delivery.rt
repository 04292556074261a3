//! How a reply is written.
ghost use Rattle.std.specs.Prelude.{◌≡◌, ℕ, ◌<◌, ◌≤◌, ◌⊎◌, OnOk, OnErr, length};
ghost use Rattle.mc_world.specs.Count.{one_more};
ghost use Rattle.command.specs.Written.{Wrote, IsWritten, IsCutShort};

use mc_world::{Sink, SinkFault};
use replies::Reply;

/// Writes the reply's text, and returns the status that the program ends with: the reply's own, or 8 where the sink failed.
pub fn deliver<K: Sink>(reply: &Reply, out: &mut K) -> u8
    ensures { IsWritten reply.now result (K.state out.old) (K.state out.new)
        ⊎ IsCutShort reply.now result (K.state out.old) (K.state out.new) }
{
    match write_whole(out, reply.text()) {
        Ok(()) => reply.status(),
        Err(SinkFault) => 8,
    }
}

// Writes all of the text, or stops where the sink fails. If the sink takes no byte of a piece, that is such a fault.
fn write_whole<K: Sink>(out: &mut K, text: &[u8]) -> Result<(), SinkFault>
    ensures whole { OnOk result (Wrote (length text.now) text.now (K.state out.old) (K.state out.new)) }
    ensures calm { OnOk result ((K.state out.new).faults ≡ (K.state out.old).faults) }
    ensures part { OnErr result ((n : ℕ) × (n ≤ length text.now) × Wrote n text.now (K.state out.old) (K.state out.new)) }
    ensures once { OnErr result ((K.state out.new).faults ≡ one_more (K.state out.old).faults) }
    ensures last { OnErr result ((K.state out.new).since_fault ≡ 0) }
{
    let mut done = 0;
    'pieces: while done < text.len() {
        let (_, rest) = text.split_at(done);
        match out.write(rest) {
            Ok(n) if 0 < n => done += n,
            _ => return Err(SinkFault),
        }
    }
    Ok(())
}
