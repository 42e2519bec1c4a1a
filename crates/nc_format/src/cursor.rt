// Fields, read one behind another.
ghost use Rattle.std.specs.Prelude.{◌≡◌, ◌==◌, ◌≤◌, ◌<◌, ◌^◌, ℕ, length, IfOk};
ghost use Rattle.nc_write.specs.Widths.{width, begin_width};
ghost use Rattle.vec_exact.specs.Answers.{Answers};
ghost use Rattle.nc_format.specs.declared.fault.NcFault.TheVariants.{NoMemory};
ghost use Rattle.nc_format.specs.Parts.{field, number, padded};
ghost use Rattle.nc_format.specs.Grammar.{bounded, name, tag, count, nc_type, numrecs, all_ff};

use crate::NcFault;
use byteorder::{BigEndian, ByteOrder};
use nc_write::extents::rounded;
use nc_write::kinds::kind_numbered;
use nc_write::{Name, NcKind};
use std::alloc::Global;

// The greatest count or length.
const MAX: u64 = 4_294_967_295;

/// A place in the bytes of a header of a version.
#[derive(Drop)]
pub struct Cursor<'a> {
    pub bytes: &'a [u8],
    pub at: usize,
    pub version: u8,
    ghost inside: { at ≤ length bytes.now },
}

impl<'a> Cursor<'a> {
    #[tactic(auto, unfolding(crate::specs::Parts::field))]
    pub fn field(&mut self, len: u64) -> Result<&'a [u8], NcFault>
        ensures read { Answers NoMemory (λ f. (f.now, self.new.at)) result
            ((field len).read self.old.bytes.now self.old.at) }
        ensures bytes { self.new.bytes ≡ self.old.bytes }
        ensures version { self.new.version ≡ self.old.version }
        ensures len { IfOk result (λ f. length f.now ≡ len) }
    {
        let left = self.bytes.len() - self.at;
        if (left as u64) < len {
            return Err(NcFault::Truncated(self.at as u64));
        }
        let end = self.at + len as usize;
        let bytes = self.bytes;
        let field = &bytes[self.at..end];
        self.at = end;
        Ok(field)
    }

    #[tactic(auto, unfolding(crate::specs::Parts::number))]
    pub fn number4(&mut self) -> Result<u32, NcFault>
        ensures read { Answers NoMemory (λ n. (n, self.new.at)) result
            ((number 4).read self.old.bytes.now self.old.at) }
        ensures bytes { self.new.bytes ≡ self.old.bytes }
        ensures version { self.new.version ≡ self.old.version }
    {
        let field = self.field(4)?;
        Ok(BigEndian::read_u32(field))
    }

    #[tactic(auto, unfolding(crate::specs::Parts::number))]
    pub fn number8(&mut self) -> Result<u64, NcFault>
        ensures read { Answers NoMemory (λ n. (n, self.new.at)) result
            ((number 8).read self.old.bytes.now self.old.at) }
        ensures bytes { self.new.bytes ≡ self.old.bytes }
        ensures version { self.new.version ≡ self.old.version }
    {
        let field = self.field(8)?;
        Ok(BigEndian::read_u64(field))
    }

    /// A number of records, a count, a length, the number of a dimension, or a vsize.
    #[tactic(auto, unfolding(nc_write::specs::Widths::width))]
    pub fn wide(&mut self) -> Result<u64, NcFault>
        ensures read { Answers NoMemory (λ n. (n, self.new.at)) result
            ((number (width self.old.version)).read self.old.bytes.now self.old.at) }
        ensures bytes { self.new.bytes ≡ self.old.bytes }
        ensures version { self.new.version ≡ self.old.version }
    {
        if self.version == 5 {
            self.number8()
        } else {
            Ok(u64::from(self.number4()?))
        }
    }

    #[tactic(auto, unfolding(nc_write::specs::Widths::begin_width))]
    pub fn begin(&mut self) -> Result<u64, NcFault>
        ensures read { Answers NoMemory (λ n. (n, self.new.at)) result
            ((number (begin_width self.old.version)).read self.old.bytes.now self.old.at) }
        ensures bytes { self.new.bytes ≡ self.old.bytes }
        ensures version { self.new.version ≡ self.old.version }
    {
        if self.version == 1 {
            Ok(u64::from(self.number4()?))
        } else {
            self.number8()
        }
    }

    #[tactic(auto, unfolding(crate::specs::Grammar::bounded))]
    pub fn bounded(&mut self) -> Result<u32, NcFault>
        ensures read { Answers NoMemory (λ n. (n, self.new.at)) result
            ((bounded self.old.version).read self.old.bytes.now self.old.at) }
        ensures bytes { self.new.bytes ≡ self.old.bytes }
        ensures version { self.new.version ≡ self.old.version }
    {
        let at = self.at as u64;
        let number = self.wide()?;
        if number > MAX {
            return Err(NcFault::BadField(at));
        }
        Ok(number as u32)
    }

    #[tactic(auto, unfolding(crate::specs::Parts::padded))]
    pub fn padded(&mut self, len: u64) -> Result<&'a [u8], NcFault>
        requires { len < 2 ^ 40 }
        ensures read { Answers NoMemory (λ f. (f.now, self.new.at)) result
            ((padded len).read self.old.bytes.now self.old.at) }
        ensures bytes { self.new.bytes ≡ self.old.bytes }
        ensures version { self.new.version ≡ self.old.version }
        ensures len { IfOk result (λ f. length f.now ≡ len) }
    {
        let field = self.field(rounded(len))?;
        Ok(&field[..len as usize])
    }

    #[tactic(auto, unfolding(crate::specs::Grammar::name))]
    pub fn name(&mut self, alloc: Global) -> Result<Name, NcFault>
        ensures read { Answers NoMemory (λ x. (x, self.new.at)) result
            ((name self.old.version).read self.old.bytes.now self.old.at) }
        ensures bytes { self.new.bytes ≡ self.old.bytes }
        ensures version { self.new.version ≡ self.old.version }
    {
        let len = self.bounded()?;
        let text = self.padded(u64::from(len))?;
        Ok(Name {
            items: Vec::from_slice(alloc, text)?,
        })
    }

    /// The tag of a list, its own or 0.
    #[tactic(auto, unfolding(crate::specs::Grammar::tag))]
    pub fn tag(&mut self, own: u32) -> Result<u32, NcFault>
        ensures read { Answers NoMemory (λ t. (t, self.new.at)) result
            ((tag own).read self.old.bytes.now self.old.at) }
        ensures bytes { self.new.bytes ≡ self.old.bytes }
        ensures version { self.new.version ≡ self.old.version }
    {
        let at = self.at as u64;
        let tag = self.number4()?;
        if tag != own && tag != 0 {
            return Err(NcFault::BadField(at));
        }
        Ok(tag)
    }

    /// The count behind a tag.
    #[tactic(auto, unfolding(crate::specs::Grammar::count))]
    pub fn count(&mut self, own: u32, tag: u32) -> Result<u32, NcFault>
        ensures read { Answers NoMemory (λ n. (n, self.new.at)) result
            ((count self.old.version own tag).read self.old.bytes.now self.old.at) }
        ensures bytes { self.new.bytes ≡ self.old.bytes }
        ensures version { self.new.version ≡ self.old.version }
    {
        let at = self.at as u64;
        let count = self.bounded()?;
        if tag != own && count != 0 {
            return Err(NcFault::BadField(at));
        }
        Ok(count)
    }

    #[tactic(auto, unfolding(crate::specs::Grammar::nc_type))]
    pub fn kind(&mut self) -> Result<NcKind, NcFault>
        ensures read { Answers NoMemory (λ k. (k, self.new.at)) result
            ((nc_type self.old.version).read self.old.bytes.now self.old.at) }
        ensures bytes { self.new.bytes ≡ self.old.bytes }
        ensures version { self.new.version ≡ self.old.version }
    {
        let at = self.at as u64;
        let number = self.number4()?;
        let last = if self.version == 5 { 11 } else { 6 };
        if number < 1 || number > last {
            return Err(NcFault::BadField(at));
        }
        Ok(kind_numbered(number))
    }

    #[tactic(auto, unfolding(crate::specs::Grammar::numrecs))]
    pub fn records(&mut self) -> Result<u32, NcFault>
        ensures read { Answers NoMemory (λ n. (n, self.new.at)) result
            ((numrecs self.old.version).read self.old.bytes.now self.old.at) }
        ensures bytes { self.new.bytes ≡ self.old.bytes }
        ensures version { self.new.version ≡ self.old.version }
    {
        let at = self.at as u64;
        let number = self.wide()?;
        if number == all_ff(self.version) {
            return Err(NcFault::Streaming);
        }
        if number > MAX {
            return Err(NcFault::BadField(at));
        }
        Ok(number as u32)
    }
}

// The number of records of a streaming file.
fn all_ff(version: u8) -> u64
    ensures { result ≡ all_ff version }
{
    if version == 5 {
        u64::MAX
    } else {
        u64::from(u32::MAX)
    }
}
