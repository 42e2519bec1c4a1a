// What holds of every mesh.
ghost use Rattle.std.specs.Prelude.{◌≡◌, length, Ok};
ghost use Rattle.vec_exact.specs.declared.RawMesh.{RawMesh};
ghost use Rattle.nc_write.specs.File.{file_of};
ghost use Rattle.nc_format.specs.declared.NcFile.{NcFile};
ghost use Rattle.nc_format.specs.Header.{IsHeader};
ghost use Rattle.mesh_check.specs.Mesh.{IsAcceptedMesh};
ghost use Rattle.exodus_mesh.specs.MeshDocument.{mesh_document};
ghost use Rattle.exodus_mesh.specs.MeshIn.{mesh_in, HasTriples};

/// An accepted mesh is read again from the file of its document.
pub fn law_mesh_read_again()
    ensures { (raw : RawMesh) (f : NcFile) → IsAcceptedMesh raw → HasTriples raw
        → IsHeader (file_of (mesh_document raw)) (length (file_of (mesh_document raw))) f
        → mesh_in f (file_of (mesh_document raw)) ≡ Ok raw }
{}
