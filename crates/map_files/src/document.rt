// The document of a map.
ghost use Rattle.std.specs.Prelude.{◌≡◌, ◌≤◌, ◌<◌, ◌^◌, ◌*◌, ℤ, List, [], ◌∷◌, All, length, codes, IfOk, Ok};
ghost use Rattle.map_rows.specs.Maps.{MapParts, IsSoundMap, IsSoundRow};
ghost use Rattle.nc_write.specs.File.{file_of};
ghost use Rattle.nc_write.specs.Form.{IsWellFormed};
ghost use Rattle.nc_write.specs.declared.Values.TheVariants.{Int, Long};
ghost use Rattle.nc_format.specs.declared.NcFile.{NcFile};
ghost use Rattle.nc_format.specs.Header.{IsHeader};
ghost use Rattle.exodus_mesh.specs.Columns.{variable_of};
ghost use Rattle.map_files.specs.MapIn.{map_in};
ghost use Rattle.map_files.specs.MapDocument.{col_column, row_column, measure_column, map_dims, map_vars, map_document, map_file_len};

use exodus_mesh::{make_dimension, put_variable};
use map_rows::{Map, MapRow};
use nc_write::{DocAtts, DocDim, DocDims, DocVar, DocVars, NcDoc, Values};
use std::alloc::{AllocError, Global};
use vec_exact::{Ints, Longs, NoMemory};

fn make_dimensions(alloc: Global, n_a: u32, n_b: u32, n_s: u32) -> Result<Vec<DocDim>, AllocError>
    ensures { IfOk result (λ dims. dims.items ≡ map_dims n_a n_b n_s) }
{
    let mut dims = Vec::with_capacity(alloc, 3)?;
    dims.push(make_dimension(alloc, "n_a", n_a)?)?;
    dims.push(make_dimension(alloc, "n_b", n_b)?)?;
    dims.push(make_dimension(alloc, "n_s", n_s)?)?;
    Ok(dims)
}

fn cols(alloc: Global, rows: &[MapRow]) -> Result<Vec<i32>, AllocError>
    requires { All (λ (r : MapRow). r.col < 2 ^ 31) rows.now }
    ensures { IfOk result (λ values. values.items ≡ col_column rows.now) }
{
    let mut values = Vec::with_capacity(alloc, rows.len())?;
    for row in rows {
        values.push(row.col as i32)?;
    }
    Ok(values)
}

fn row_numbers(alloc: Global, rows: &[MapRow]) -> Result<Vec<i32>, AllocError>
    requires { All (λ (r : MapRow). r.row < 2 ^ 31) rows.now }
    ensures { IfOk result (λ values. values.items ≡ row_column rows.now) }
{
    let mut values = Vec::with_capacity(alloc, rows.len())?;
    for row in rows {
        values.push(row.row as i32)?;
    }
    Ok(values)
}

fn measures(alloc: Global, rows: &[MapRow]) -> Result<Vec<i64>, AllocError>
    ensures { IfOk result (λ values. values.items ≡ measure_column rows.now) }
{
    let mut values = Vec::with_capacity(alloc, rows.len())?;
    for row in rows {
        values.push(row.s)?;
    }
    Ok(values)
}

fn ints(items: Vec<i32>) -> Values
    ensures { result ≡ Int items.items }
{
    Values::Int(Ints { items })
}

fn longs(items: Vec<i64>) -> Values
    ensures { result ≡ Long items.items }
{
    Values::Long(Longs { items })
}

// The variables of the rows.
fn row_variables(alloc: Global, map: &Map) -> Result<Vec<DocVar>, AllocError>
    ensures { IfOk result (λ vars. vars.items
        ≡ variable_of (codes "col") (2 ∷ []) (Int (col_column map.now.rows))
        ∷ variable_of (codes "row") (2 ∷ []) (Int (row_column map.now.rows))
        ∷ variable_of (codes "S") (2 ∷ []) (Long (measure_column map.now.rows))
        ∷ []) }
{
    let rows = map.rows.items.as_slice();
    let mut vars = Vec::with_capacity(alloc, 5)?;
    let col = ints(cols(alloc, rows)?);
    put_variable(alloc, &mut vars, "col", &[2], col)?;
    let row = ints(row_numbers(alloc, rows)?);
    put_variable(alloc, &mut vars, "row", &[2], row)?;
    let s = longs(measures(alloc, rows)?);
    put_variable(alloc, &mut vars, "S", &[2], s)?;
    Ok(vars)
}

fn make_variables(alloc: Global, map: &Map) -> Result<Vec<DocVar>, AllocError>
    ensures { IfOk result (λ vars. vars.items
        ≡ map_vars map.now.rows map.now.area_a map.now.area_b) }
{
    let mut vars = row_variables(alloc, map)?;
    let area_a = longs(Vec::from_slice(alloc, &map.area_a.items)?);
    put_variable(alloc, &mut vars, "area_a", &[0], area_a)?;
    let area_b = longs(Vec::from_slice(alloc, &map.area_b.items)?);
    put_variable(alloc, &mut vars, "area_b", &[1], area_b)?;
    Ok(vars)
}

#[tactic(auto, unfolding(crate::specs::MapDocument::map_document))]
fn make_document(alloc: Global, map: &Map) -> Result<NcDoc, AllocError>
    ensures document { IfOk result (λ doc. doc ≡ map_document map.now) }
    ensures kept { IsSoundMap map.now }
{
    let dims = make_dimensions(alloc, map.n_a, map.n_b, map.rows.items.len() as u32)?;
    let vars = make_variables(alloc, map)?;
    Ok(NcDoc {
        records: 0,
        dims: DocDims { items: dims },
        atts: DocAtts {
            items: Vec::new(alloc),
        },
        vars: DocVars { items: vars },
    })
}

/// The document of a map: the dimensions `n_a`, `n_b` and `n_s`, and the variables `col` and `row`,
/// which are INT, and `S`, `area_a` and `area_b`, which are INT64, so that its file is of version 5.
/// The whole form is our own. Its only error is want of memory.
pub fn map_doc(alloc: Global, map: &Map) -> Result<NcDoc, NoMemory>
    ensures document { IfOk result (λ doc. doc ≡ map_document map.now) }

    // It is a document that can be written, and its file has this length.
    ensures well_formed { IfOk result IsWellFormed }
    ensures file_length { IfOk result (λ doc. length (file_of doc)
        ≡ map_file_len map.now.n_a map.now.n_b (length map.now.rows)) }

    // The map is read again from it.
    ensures read_again { IfOk result (λ doc. (f : NcFile)
        → IsHeader (file_of doc) (length (file_of doc)) f → map_in f (file_of doc) ≡ Ok map.now) }
{
    let doc = make_document(alloc, map)?;
    Ok(doc)
}

/// The length, in bytes, of the file of a map of meshes with so many faces, with so many rows: at
/// most 8,388,608. It is known before the document is made.
#[tactic(auto, using(crate::proofs::MapLength::length_map_file))]
pub fn map_length(n_a: u32, n_b: u32, n_s: u32) -> u64
    ensures formula { result ≡ map_file_len n_a n_b n_s }
    // It is the length of the one file of the document of each such map.
    ensures file_length { (m : MapParts) → IsSoundMap m → m.n_a ≡ n_a → m.n_b ≡ n_b
        → length m.rows ≡ n_s → length (file_of (map_document m)) ≡ result }
{
    416 + 16 * u64::from(n_s) + 8 * (u64::from(n_a) + u64::from(n_b))
}
