//! A map file by its name: the map that it holds, or why there is none.
#![tactic(auto)]

mod laws;
mod loading;
mod refusal;
mod values;

use exodus_mesh::FileFault;
pub use laws::law_one_map_file;
pub use loading::load_map;
use remap_load::FileRefusal;

/// Why no map was loaded from a file. A fault of what the file holds is never want of memory.
pub type MapRefusal = FileRefusal<FileFault>;
