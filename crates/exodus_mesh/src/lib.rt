//! Meshes in files: the names of Exodus II, with whole-number coordinates.
#![tactic(auto)]

mod columns;
mod connect;
mod coord;
mod document;
mod faults;
mod finding;
mod ids;
mod kinds;
mod laws;
mod lens;
mod names;
mod pairs;
mod places;
mod reading;
mod values;
mod variables;
mod vars;

pub use columns::{find_column, put_variable};
pub use document::mesh_doc;
pub use faults::{FileFault, file_fault};
pub use finding::find_mesh;
pub use ids::{NameFault, NameId};
pub use kinds::NumberKind;
pub use laws::law_mesh_read_again;
pub use lens::{find_named, var_len, var_lens};
pub use names::{make_dimension, make_name};
pub use pairs::{has_good_faces, is_within};
pub use reading::{block_places, coord_places, read_ints, read_lists, read_longs, read_mesh};
pub use values::mesh_from;
pub use vars::{BlockVar, BlockVars, CoordVars, MeshVars};
