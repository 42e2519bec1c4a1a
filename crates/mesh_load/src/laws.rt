// What holds of every name in a folder.
ghost use Rattle.std.specs.Prelude.{◌≡◌, ◌+◌, ℕ, List, length, Some, Ok};
ghost use Rattle.vec_exact.specs.declared.RawMesh.{RawMesh};
ghost use Rattle.remap_io.specs.Folder.{Folder, file_at};
ghost use Rattle.nc_format.specs.declared.NcFile.{NcFile};
ghost use Rattle.nc_format.specs.Header.{IsHeader};
ghost use Rattle.exodus_mesh.specs.declared.vars.MeshVars.{MeshVars};
ghost use Rattle.exodus_mesh.specs.MeshNames.{mesh_vars_in};
ghost use Rattle.remap_load.specs.declared.refusal.FileRefusal.{FileRefusal};
ghost use Rattle.remap_load.specs.Heads.{header_cost};
ghost use Rattle.mesh_load.specs.declared.MeshFileFault.{MeshFileFault};
ghost use Rattle.mesh_load.specs.MeshFile.{IsMeshFile, IsRefusedMesh, mesh_bytes, mesh_cost};

/// A name holds one mesh or has one refusal, and not both. What reading the mesh costs is counted by
/// its header, of which there is one, and by the variables that the mesh needs.
pub fn law_one_mesh()
    ensures mesh { (m : Folder) (name : List ℕ) (a b : RawMesh)
        → IsMeshFile m name a → IsMeshFile m name b → a ≡ b }
    ensures refusal { (m : Folder) (name : List ℕ) (a b : FileRefusal MeshFileFault)
        → IsRefusedMesh m name a → IsRefusedMesh m name b → a ≡ b }
    ensures either { (m : Folder) (name : List ℕ) (mesh : RawMesh)
        (refusal : FileRefusal MeshFileFault)
        → IsMeshFile m name mesh → IsRefusedMesh m name refusal → ⊥ }
    ensures cost { (m : Folder) (name bytes : List ℕ) (file : NcFile) (vars : MeshVars)
        (h : IsHeader bytes (length bytes) file)
        → file_at m name ≡ Some bytes → mesh_vars_in file ≡ Ok vars
        → mesh_cost m name ≡ header_cost (length h.header) + mesh_bytes file vars }
{}
