// Numbers that need not stand in memory.
ghost use Rattle.std.specs.Prelude.{◌≡◌, ◌<◌, ◌+◌, ◌≤◌, length, slice_range};
ghost use Rattle.nc_write.specs.Made.{Made, listed};

use crate::PART;

/// What says which numbers the lists of a document stand for, and makes them part by part while the
/// document is written.
pub trait MadeNumbers {
    /// The numbers that the lists of the document stand for.
    ghost numbers: { Self → Made };

    /// How many numbers are best made at once.
    fn at_once(&self) -> usize
        ensures { 0 < result };

    /// How many numbers a list of 32-bit numbers stands for.
    fn count_ints(&self, ints: &[i32]) -> usize
        ensures { result ≡ length ((numbers self.now).ints ints.now) };

    /// Puts the numbers that a list of 32-bit numbers stands for, from a place on, as many as `into`
    /// has.
    fn put_ints(&self, ints: &[i32], from: usize, into: &mut [i32])
        requires { from + length into.old ≤ length ((numbers self.now).ints ints.now) }
        ensures { into.new
            ≡ slice_range ((numbers self.now).ints ints.now) from (from + length into.old) };

    /// How many numbers a list of 64-bit numbers stands for.
    fn count_longs(&self, longs: &[i64]) -> usize
        ensures { result ≡ length ((numbers self.now).longs longs.now) };

    /// Puts the numbers that a list of 64-bit numbers stands for, from a place on, as many as `into`
    /// has.
    fn put_longs(&self, longs: &[i64], from: usize, into: &mut [i64])
        requires { from + length into.old ≤ length ((numbers self.now).longs longs.now) }
        ensures { into.new
            ≡ slice_range ((numbers self.now).longs longs.now) from (from + length into.old) };
}

/// Lists that stand for themselves.
#[derive(Clone, Copy)]
pub struct Listed;

impl MadeNumbers for Listed {
    ghost numbers = { λ _. listed };

    fn at_once(&self) -> usize {
        PART / 8
    }

    fn count_ints(&self, ints: &[i32]) -> usize {
        ints.len()
    }

    fn put_ints(&self, ints: &[i32], from: usize, into: &mut [i32]) {
        into.copy_from_slice(&ints[from..from + into.len()]);
    }

    fn count_longs(&self, longs: &[i64]) -> usize {
        longs.len()
    }

    fn put_longs(&self, longs: &[i64], from: usize, into: &mut [i64]) {
        into.copy_from_slice(&longs[from..from + into.len()]);
    }
}

/// What the parts of a document are made and spelled in, used again for each.
#[derive(Drop)]
pub struct Room {
    pub bytes: Vec<u8>,
    pub ints: Vec<i32>,
    pub longs: Vec<i64>,
}
