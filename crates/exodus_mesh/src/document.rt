// The document of a mesh.
ghost use Rattle.std.specs.Prelude.{◌≡◌, ◌≢◌, ◌<◌, ◌≤◌, ◌^◌, ◌+◌, ◌*◌, IfOk, OnOk, All, length, [], Ok};
ghost use Rattle.vec_exact.specs.Counts.{AreAllowedCounts};
ghost use Rattle.nc_format.specs.declared.NcFile.{NcFile};
ghost use Rattle.nc_format.specs.Header.{IsHeader};
ghost use Rattle.mesh_check.specs.Mesh.{IsAcceptedMesh};
ghost use Rattle.exodus_mesh.specs.MeshIn.{mesh_in};
ghost use Rattle.nc_write.specs.File.{file_of};
ghost use Rattle.nc_write.specs.Form.{IsWellFormed};
ghost use Rattle.exodus_mesh.specs.MeshDocument.{dimensions_of, mesh_document, width_of};

use crate::connect::{make_connect, width};
use crate::coord::make_coord;
use crate::names::make_dimension;
use nc_write::{DocAtts, DocDim, DocDims, DocVars, NcDoc};
use std::alloc::{AllocError, Global};
use vec_exact::{NoMemory, RawMesh};

fn make_dimensions(
    alloc: Global,
    nodes: u32,
    faces: u32,
    width: u32,
) -> Result<Vec<DocDim>, AllocError>
    ensures { IfOk result (λ dims. dims.items ≡ dimensions_of nodes faces width) }
{
    let mut dims = Vec::with_capacity(alloc, 6)?;
    dims.push(make_dimension(alloc, "num_dim", 3)?)?;
    dims.push(make_dimension(alloc, "num_nodes", nodes)?)?;
    dims.push(make_dimension(alloc, "num_elem", faces)?)?;
    dims.push(make_dimension(alloc, "num_el_blk", 1)?)?;
    dims.push(make_dimension(alloc, "num_el_in_blk1", faces)?)?;
    dims.push(make_dimension(alloc, "num_nod_per_el1", width)?)?;
    Ok(dims)
}

#[tactic(auto, unfolding(crate::specs::MeshDocument::mesh_document))]
fn make_document(alloc: Global, raw: &RawMesh, most: usize) -> Result<NcDoc, AllocError>
    requires counts { AreAllowedCounts (length raw.now.nodes) (length raw.now.faces) }
    requires is_width { most ≡ width_of raw.now.faces }
    requires width { most < 2 ^ 32 }
    requires all { All (λ face. length face ≤ most) raw.now.faces }
    ensures { IfOk result (λ doc. doc ≡ mesh_document raw.now) }
{
    let nodes = &raw.nodes.items;
    let faces = &raw.faces.items;
    let dims = make_dimensions(alloc, nodes.len() as u32, faces.len() as u32, most as u32)?;
    let mut vars = Vec::with_capacity(alloc, 2)?;
    vars.push(make_coord(alloc, nodes)?)?;
    vars.push(make_connect(alloc, faces, most)?)?;
    Ok(NcDoc {
        records: 0,
        dims: DocDims { items: dims },
        atts: DocAtts {
            items: Vec::new(alloc),
        },
        vars: DocVars { items: vars },
    })
}

// Each node has three numbers, as its type says.
fn triples(nodes: &[[i32; 3]])
    ensures { All (λ node. length node ≡ 3) nodes.now }
{
    let _nodes = nodes;
}

/// The document of a mesh: the dimensions `num_dim`, `num_nodes`, `num_elem`, `num_el_blk`,
/// `num_el_in_blk1` and `num_nod_per_el1`, and the variables `coord` and `connect1`, both INT
/// (names of Exodus II). A face with fewer nodes than the widest one repeats its last number.
///
/// The mesh has a node and a face, no face is empty, and the counts are within the limits. Its only
/// error is want of memory.
pub fn mesh_doc(alloc: Global, raw: &RawMesh) -> Result<NcDoc, NoMemory>
    requires nodes { 1 ≤ length raw.now.nodes }
    requires faces { 1 ≤ length raw.now.faces }
    requires counts { AreAllowedCounts (length raw.now.nodes) (length raw.now.faces) }
    requires no_empty_face { All (λ face. face ≢ []) raw.now.faces }
    requires widths { All (λ face. length face ≤ 4294967295) raw.now.faces }
    ensures document { IfOk result (λ doc. doc ≡ mesh_document raw.now) }

    // It is a document that can be written, and its file has this length.
    ensures well_formed { IfOk result IsWellFormed }
    ensures file_length { IfOk result
        (λ doc. length (file_of doc)
        ≡ 248 + 12 * length raw.now.nodes + 4 * (length raw.now.faces * width_of raw.now.faces)) }

    // An accepted mesh is read again from it.
    ensures read_again { IfOk result
        (λ doc. IsAcceptedMesh raw.now → (f : NcFile)
        → IsHeader (file_of doc) (length (file_of doc)) f → mesh_in f (file_of doc) ≡ Ok raw.now) }
{
    let most = width(&raw.faces.items);
    triples(&raw.nodes.items);
    let doc = make_document(alloc, raw, most)?;
    Ok(doc)
}
