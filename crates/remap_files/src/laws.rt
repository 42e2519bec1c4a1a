// What holds of every overlap.
ghost use Rattle.std.specs.Prelude.{◌≡◌, length, Ok};
ghost use Rattle.clip.specs.Overlaps.{OverlapParts, IsSoundOverlap};
ghost use Rattle.nc_write.specs.File.{file_of};
ghost use Rattle.nc_format.specs.declared.NcFile.{NcFile};
ghost use Rattle.nc_format.specs.Header.{IsHeader};
ghost use Rattle.remap_files.specs.OverlapDocument.{overlap_document, HasCorners};
ghost use Rattle.remap_files.specs.OverlapIn.{overlap_in};

/// An overlap is read again from the file of its document.
pub fn law_overlap_read_again()
    ensures { (o : OverlapParts) (f : NcFile) → IsSoundOverlap o → HasCorners o
        → IsHeader (file_of (overlap_document o)) (length (file_of (overlap_document o))) f
        → overlap_in f (file_of (overlap_document o)) ≡ Ok o }
{}
