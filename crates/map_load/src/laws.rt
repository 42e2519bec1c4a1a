// What holds of every name in a folder.
ghost use Rattle.std.specs.Prelude.{◌≡◌, ◌+◌, ℕ, List, length, Some, Ok};
ghost use Rattle.map_rows.specs.Maps.{MapParts};
ghost use Rattle.remap_io.specs.Folder.{Folder, file_at};
ghost use Rattle.nc_format.specs.declared.NcFile.{NcFile};
ghost use Rattle.nc_format.specs.Header.{IsHeader};
ghost use Rattle.exodus_mesh.specs.declared.faults.FileFault.{FileFault};
ghost use Rattle.map_files.specs.declared.vars.MapVars.{MapVars};
ghost use Rattle.map_files.specs.MapNames.{map_vars_in};
ghost use Rattle.remap_load.specs.declared.refusal.FileRefusal.{FileRefusal};
ghost use Rattle.remap_load.specs.Heads.{header_cost};
ghost use Rattle.map_load.specs.MapFile.{IsMapFile, IsRefusedMap, map_bytes, map_cost};

/// A name holds one map or has one refusal, and not both. What reading the map costs is counted by
/// its header, of which there is one, and by the variables that the map needs.
pub fn law_one_map_file()
    ensures map { (m : Folder) (name : List ℕ) (a b : MapParts)
        → IsMapFile m name a → IsMapFile m name b → a ≡ b }
    ensures refusal { (m : Folder) (name : List ℕ) (a b : FileRefusal FileFault)
        → IsRefusedMap m name a → IsRefusedMap m name b → a ≡ b }
    ensures either { (m : Folder) (name : List ℕ) (parts : MapParts)
        (refusal : FileRefusal FileFault)
        → IsMapFile m name parts → IsRefusedMap m name refusal → ⊥ }
    ensures cost { (m : Folder) (name bytes : List ℕ) (file : NcFile) (vars : MapVars)
        (h : IsHeader bytes (length bytes) file)
        → file_at m name ≡ Some bytes → map_vars_in file ≡ Ok vars
        → map_cost m name ≡ header_cost (length h.header) + map_bytes file vars }
{}
