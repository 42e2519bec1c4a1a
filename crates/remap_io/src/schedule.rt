// Which calls are to fail.
ghost use Rattle.std.specs.Prelude.{◌≡◌, ◌↔◌, IsTrue};
ghost use Rattle.remap_io.specs.Causes.{held_sum};
ghost use Rattle.remap_io.specs.Memory.{IsToFail};

/// The numbers of the calls that are to fail, counted from 1, and how many calls there were.
#[derive(Drop)]
pub struct Schedule {
    pub fail: Vec<u32>,
    pub calls: u64,
}

impl Schedule {
    /// Counts a call, and says whether it is to fail.
    pub fn next_fails(&mut self) -> bool
        ensures fails { IsTrue result ↔ IsToFail self.old.fail.items self.old.calls }
        ensures calls { self.new.calls ≡ held_sum self.old.calls 1 }
        ensures same { self.new.fail.items ≡ self.old.fail.items }
    {
        self.calls = self.calls.saturating_add(1);
        self.fail.iter().any(|n| u64::from(*n) == self.calls)
    }
}
