// What can be written without standing in memory whole.
ghost use Rattle.std.specs.Prelude.{List, ℕ, OnOk};
ghost use Rattle.std.specs.Io.KnownBytes.{Appends};

use std::io::{self, Write};

/// What has bytes, and writes them.
pub trait Content {
    /// What holds of one that can be written.
    ghost can_write: { Self → Type 0 };

    /// Its bytes.
    ghost bytes: { Self → List ℕ };

    /// Writes its bytes, in as many parts as it likes. After an error some prefix of them may have
    /// been written.
    fn write_to<W: Write>(&self, out: &mut W) -> io::Result<()>
        requires { can_write self.now }
        ensures { OnOk result
            (Appends (W.contents out.old) (W.contents out.new) (bytes self.now)) };
}

/// Bytes that stand in memory.
#[derive(Drop)]
pub struct InMemory<'a> {
    pub bytes: &'a [u8],
}

impl Content for InMemory<'_> {
    ghost use Rattle.std.specs.Prelude.{⊤};

    ghost can_write = { λ _. ⊤ };

    ghost bytes = { λ c. c.bytes.now };

    fn write_to<W: Write>(&self, out: &mut W) -> io::Result<()> {
        out.write_all(self.bytes)?;
        Ok(())
    }
}
