// Where text goes.
ghost use Rattle.std.specs.Prelude.{OnOk, OnErr, IfErr};
ghost use Rattle.remap_io.specs.Held.{Gains, GainsPart};
ghost use Rattle.remap_io.specs.Outside.{SinkSeen, IsPutRefusal, NoPutCountFalls};

use crate::files::PutErr;

/// A place that bytes are appended to, with counts of what failed. No count ever falls, and one
/// that stands at 2^64 - 1 stays there.
pub trait Sink {
    /// The bytes that it holds, where they are told: told or not told, they stay so. And how many
    /// puts failed, and how many found no memory.
    ghost seen: { Self → SinkSeen };

    /// Appends `bytes`. After a refusal some prefix of `bytes` was appended, perhaps an empty one.
    fn put(&mut self, bytes: &[u8]) -> Result<(), PutErr>
        ensures ok { OnOk result
            (Gains (seen self.old).contents (seen self.new).contents bytes.now) }
        ensures err { OnErr result
            (GainsPart (seen self.old).contents (seen self.new).contents bytes.now) }
        ensures refusal { IfErr result (IsPutRefusal (seen self.old) (seen self.new)) }
        ensures counts { NoPutCountFalls (seen self.old) (seen self.new) };
}
