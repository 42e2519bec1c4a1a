//! Overlaps in files.
#![tactic(auto)]

mod column_document;
mod columns;
mod document;
mod finding;
mod laws;
mod lengths;
mod names;
mod reading;
mod rows;
mod vars;

pub use column_document::{columns_doc, columns_length};
pub use document::overlap_doc;
pub use finding::find_overlap;
pub use laws::law_overlap_read_again;
pub use lengths::{corner_count, overlap_length};
pub use reading::read_overlap;
pub use rows::{OverlapRows, check_rows, overlap_from, piece_of_row, ring_len, rows_of};
pub use vars::OverlapVars;
