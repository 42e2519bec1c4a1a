//! A data file by its name: the variable that a field is taken from, or why there is none.
#![tactic(auto)]

mod laws;
mod loading;
mod refusal;

use exodus_mesh::NameFault;
pub use laws::law_one_data_file;
pub use loading::load_data;
use nc_format::NcFile;
use remap_load::FileRefusal;
use vec_exact::Ints;

/// The variable of a data file that a field is taken from. How it lies over the sources of a map
/// isn't said: that is for `fit_field` of `field_files`.
#[derive(Drop)]
pub struct DataVar {
    /// The header of the file.
    pub file: NcFile,
    /// The place of the variable in the file, from 0.
    pub var: u32,
    /// All its values, in row-major order.
    pub values: Ints,
    /// Its fill value, where there is one.
    pub fill: Option<i32>,
}

/// Why no variable was loaded from a file. A fault of what the file holds is one of the variable's
/// name, type or dimensions; it is never want of memory.
pub type DataRefusal = FileRefusal<NameFault>;
