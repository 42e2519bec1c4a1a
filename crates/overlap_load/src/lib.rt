//! An overlap file by its name: the overlap that it holds, or why there is none.
#![tactic(auto)]

mod laws;
mod loading;
mod refusal;
mod windows;

use exodus_mesh::FileFault;
pub use laws::law_one_overlap_file;
pub use loading::load_overlap;
use remap_load::FileRefusal;
pub use windows::{OverlapReader, open_overlap};

/// Why no overlap was loaded from a file. A fault of what the file holds is `FileFault::Name` or
/// `FileFault::Row`; it names no area, and it is never want of memory.
pub type OverlapRefusal = FileRefusal<FileFault>;
