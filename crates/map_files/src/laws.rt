// What holds of every map.
ghost use Rattle.std.specs.Prelude.{◌≡◌, length, Ok};
ghost use Rattle.nc_write.specs.File.{file_of};
ghost use Rattle.nc_format.specs.declared.NcFile.{NcFile};
ghost use Rattle.nc_format.specs.Header.{IsHeader};
ghost use Rattle.map_rows.specs.Maps.{MapParts, IsSoundMap};
ghost use Rattle.map_files.specs.MapDocument.{map_document};
ghost use Rattle.map_files.specs.MapIn.{map_in};

/// A map is read again from the file of its document.
pub fn law_map_read_again()
    ensures { (m : MapParts) (f : NcFile) → IsSoundMap m
        → IsHeader (file_of (map_document m)) (length (file_of (map_document m))) f
        → map_in f (file_of (map_document m)) ≡ Ok m }
{}
