// The lines of faults of map files and data files, and of variables that a map makes no field of.
ghost use Rattle.std.specs.Prelude.{◌≡◌};
ghost use Rattle.fault_lines.specs.Lines.{PutsText};
ghost use Rattle.fault_lines.specs.Faults.{status_of, text_of};
ghost use Rattle.tempest_top.specs.FieldFaults.{map_words, data_words, no_fit_text, fill_text};

use command_line::Text;
use data_load::DataRefusal;
use fault_lines::{Status, put_line, put_name_fault, put_numbered, refuse_file_fault, refuse_load};
use itoa::Buffer;
use map_load::MapRefusal;
use remap_io::Sink;
use remap_load::FileRefusal;

/// Refuses a map file.
pub fn refuse_map_file<E: Sink>(err: &mut E, file: &str, why: MapRefusal) -> Status
    ensures status { result ≡ status_of map_words why }
    ensures line { PutsText (E.seen err.old) (E.seen err.new) (text_of map_words file.now why) }
{
    match why {
        FileRefusal::Load(fault) => refuse_load(err, file, fault),
        FileRefusal::Content(fault) => refuse_file_fault(err, file, fault),
    }
}

/// Refuses a data file. `--var` gave the name `var`.
pub fn refuse_data_file<E: Sink>(err: &mut E, file: &str, var: &str, why: DataRefusal) -> Status
    ensures status { result ≡ status_of (data_words var.now) why }
    ensures line { PutsText (E.seen err.old) (E.seen err.new)
        (text_of (data_words var.now) file.now why) }
{
    match why {
        FileRefusal::Load(fault) => refuse_load(err, file, fault),
        FileRefusal::Content(fault) => {
            put_name_fault(err, file, var, fault);
            Status::Names
        }
    }
}

// Puts the line that a variable has no fit.
fn put_no_fit<E: Sink>(err: &mut E, file: &str, last_len: u32, n_a: u32)
    ensures { PutsText (E.seen err.old) (E.seen err.new) (no_fit_text file.now last_len n_a) }
{
    let mut length = Buffer::new();
    let mut sources = Buffer::new();
    put_line(
        err,
        &[
            file,
            ": length ",
            length.format(last_len),
            " map ",
            sources.format(n_a),
        ],
    );
}

/// Refuses a variable whose last dimension has this length, for a map with so many sources.
pub fn refuse_no_fit<E: Sink>(err: &mut E, file: &Text, last_len: u32, n_a: u32) -> Status
    ensures status { result ≡ Status.Field }
    ensures line { PutsText (E.seen err.old) (E.seen err.new)
        (no_fit_text file.now last_len n_a) }
{
    put_no_fit(err, file.text.as_str(), last_len, n_a);
    Status::Field
}

/// Refuses a value that is the fill value, by its place.
pub fn refuse_fill<E: Sink>(err: &mut E, file: &Text, place: u64) -> Status
    ensures status { result ≡ Status.Field }
    ensures line { PutsText (E.seen err.old) (E.seen err.new) (fill_text file.now place) }
{
    put_numbered(err, file.text.as_str(), ": fill value at ", place);
    Status::Field
}
