// What holds of every name in a folder.
ghost use Rattle.std.specs.Prelude.{◌≡◌, ◌+◌, ℕ, List, length, Some, Ok};
ghost use Rattle.remap_io.specs.Folder.{Folder, file_at};
ghost use Rattle.nc_format.specs.declared.NcFile.{NcFile};
ghost use Rattle.nc_format.specs.Header.{IsHeader};
ghost use Rattle.exodus_mesh.specs.declared.ids.NameFault.{NameFault};
ghost use Rattle.field_files.specs.FieldNames.{field_var};
ghost use Rattle.field_files.specs.FieldIn.{field_in};
ghost use Rattle.remap_load.specs.declared.refusal.FileRefusal.{FileRefusal};
ghost use Rattle.remap_load.specs.Heads.{header_cost};
ghost use Rattle.remap_load.specs.Pieces.{bytes_at};
ghost use Rattle.data_load.specs.declared.DataVar.{DataVar};
ghost use Rattle.data_load.specs.DataFile.{data_in, laid_over, IsDataFile, IsRefusedData, data_cost};

/// A name holds one variable of the name `var`, or has one refusal, and not both. What reading it
/// costs is counted by the header of the file, of which there is one, and by the variable. Laid over
/// the sources of a map it is the field that the file has for the map.
pub fn law_one_data_file()
    ensures variable { (m : Folder) (name var : List ℕ) (a b : DataVar)
        → IsDataFile m name var a → IsDataFile m name var b → a ≡ b }
    ensures refusal { (m : Folder) (name var : List ℕ) (a b : FileRefusal NameFault)
        → IsRefusedData m name var a → IsRefusedData m name var b → a ≡ b }
    ensures either { (m : Folder) (name var : List ℕ) (found : DataVar)
        (refusal : FileRefusal NameFault)
        → IsDataFile m name var found → IsRefusedData m name var refusal → ⊥ }
    ensures cost { (m : Folder) (name var bytes : List ℕ) (file : NcFile) (place : ℕ)
        (h : IsHeader bytes (length bytes) file)
        → file_at m name ≡ Some bytes → field_var file var ≡ Ok place
        → data_cost m name var ≡ header_cost (length h.header) + bytes_at file place }
    ensures field { (file : NcFile) (bytes var : List ℕ) (found : DataVar) (n_a : ℕ)
        → data_in file bytes var ≡ Ok found
        → field_in file bytes var n_a ≡ laid_over found n_a }
{}
