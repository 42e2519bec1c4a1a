// What holds of every name in a folder.
ghost use Rattle.std.specs.Prelude.{◌≡◌, ◌+◌, ℕ, List, length, Some, Ok};
ghost use Rattle.clip.specs.Overlaps.{OverlapParts};
ghost use Rattle.remap_io.specs.Folder.{Folder, file_at};
ghost use Rattle.nc_format.specs.declared.NcFile.{NcFile};
ghost use Rattle.nc_format.specs.Header.{IsHeader};
ghost use Rattle.exodus_mesh.specs.declared.faults.FileFault.{FileFault};
ghost use Rattle.remap_files.specs.declared.vars.OverlapVars.{OverlapVars};
ghost use Rattle.remap_files.specs.OverlapNames.{overlap_vars_in};
ghost use Rattle.remap_load.specs.declared.refusal.FileRefusal.{FileRefusal};
ghost use Rattle.remap_load.specs.Heads.{header_cost};
ghost use Rattle.overlap_load.specs.OverlapFile.{IsOverlapFile, IsRefusedOverlap, overlap_bytes, overlap_cost};

/// A name holds one overlap or has one refusal, and not both. What reading the overlap costs is
/// counted by its header, of which there is one, and by the variables that the overlap needs.
pub fn law_one_overlap_file()
    ensures overlap { (m : Folder) (name : List ℕ) (a b : OverlapParts)
        → IsOverlapFile m name a → IsOverlapFile m name b → a ≡ b }
    ensures refusal { (m : Folder) (name : List ℕ) (a b : FileRefusal FileFault)
        → IsRefusedOverlap m name a → IsRefusedOverlap m name b → a ≡ b }
    ensures either { (m : Folder) (name : List ℕ) (overlap : OverlapParts)
        (refusal : FileRefusal FileFault)
        → IsOverlapFile m name overlap → IsRefusedOverlap m name refusal → ⊥ }
    ensures cost { (m : Folder) (name bytes : List ℕ) (file : NcFile) (vars : OverlapVars)
        (h : IsHeader bytes (length bytes) file)
        → file_at m name ≡ Some bytes → overlap_vars_in file ≡ Ok vars
        → overlap_cost m name ≡ header_cost (length h.header) + overlap_bytes file vars }
{}
