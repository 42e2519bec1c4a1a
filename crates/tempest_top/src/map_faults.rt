// The lines of faults of overlap files.
ghost use Rattle.std.specs.Prelude.{◌≡◌};
ghost use Rattle.fault_lines.specs.Lines.{PutsText};
ghost use Rattle.fault_lines.specs.Faults.{status_of, text_of};
ghost use Rattle.tempest_top.specs.MapFaults.{overlap_words};

use fault_lines::{Status, refuse_file_fault, refuse_load};
use overlap_load::OverlapRefusal;
use remap_io::Sink;
use remap_load::FileRefusal;

/// Refuses an overlap file.
pub fn refuse_overlap_file<E: Sink>(err: &mut E, file: &str, why: OverlapRefusal) -> Status
    ensures status { result ≡ status_of overlap_words why }
    ensures line { PutsText (E.seen err.old) (E.seen err.new)
        (text_of overlap_words file.now why) }
{
    match why {
        FileRefusal::Load(fault) => refuse_load(err, file, fault),
        FileRefusal::Content(fault) => refuse_file_fault(err, file, fault),
    }
}
