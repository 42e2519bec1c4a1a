// The line of a refusal.
ghost use Rattle.std.specs.Prelude.{flat_map, MatchBool, ⊤};
ghost use Rattle.remap_io.specs.Held.{Gains, GainsPart};
ghost use Rattle.remap_io.specs.Outside.{NoPutCountFalls};
ghost use Rattle.fault_lines.specs.Lines.{IsPutRefused, PutsText};

use remap_io::{PutErr, Sink};

// Puts a part, and says whether the whole of it went out.
fn put_part<E: Sink>(err: &mut E, part: &[u8]) -> bool
    ensures gained { MatchBool result
        (Gains (E.seen err.old).contents (E.seen err.new).contents part.now)
        (GainsPart (E.seen err.old).contents (E.seen err.new).contents part.now) }
    ensures cause { MatchBool result ⊤ (IsPutRefused (E.seen err.old) (E.seen err.new)) }
    ensures counts { NoPutCountFalls (E.seen err.old) (E.seen err.new) }
{
    match err.put(part) {
        Ok(()) => true,
        Err(PutErr::Failed) => false,
        Err(PutErr::NoMemory) => false,
    }
}

/// Puts the line of these parts. Where a put is refused, nothing more is put. It takes no memory.
pub fn put_line<E: Sink>(err: &mut E, parts: &[&str])
    ensures line { PutsText (E.seen err.old) (E.seen err.new)
        (flat_map (λ part. part.now) parts.now) }
{
    if !put_part(err, b"tempest: ") {
        return;
    }
    for part in parts {
        if !put_part(err, part.as_bytes()) {
            return;
        }
    }
    put_part(err, b"\n");
}
