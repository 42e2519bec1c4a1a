// A document as the content of a file.
use nc_write::{MadeNumbers, NcDoc, write_made};
use remap_io::Content;
use std::alloc::Global;
use std::io::{self, Write};

/// The file of what a document stands for, whose bytes never stand in memory whole: its lists stand
/// for those that `made` makes.
#[derive(Drop)]
pub struct DocumentFile<'a, M> {
    pub alloc: Global,
    pub doc: &'a NcDoc,
    pub made: &'a M,
}

impl<M: MadeNumbers> Content for DocumentFile<'_, M> {
    ghost use Rattle.nc_write.specs.File.{file_of};
    ghost use Rattle.nc_write.specs.Form.{IsWellFormed};
    ghost use Rattle.nc_write.specs.Made.{made_doc};

    ghost can_write = { λ c. IsWellFormed (made_doc (M.numbers c.made.now) c.doc.now) };

    ghost bytes = { λ c. file_of (made_doc (M.numbers c.made.now) c.doc.now) };

    fn write_to<W: Write>(&self, out: &mut W) -> io::Result<()> {
        write_made(self.alloc, self.doc, self.made, out)
    }
}
