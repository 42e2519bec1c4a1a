// Laws of headers.
ghost use Rattle.std.specs.Prelude.{◌≡◌, ◌↔◌, ◌≤◌, ◌<◌, ◌++◌, ℕ, List, length, take, All, None, Some};
ghost use Rattle.std.specs.List.{AllZip};
ghost use Rattle.nc_write.specs.declared.NcDoc.{NcDoc};
ghost use Rattle.nc_write.specs.File.{file_of, header_len, numbers_of};
ghost use Rattle.nc_write.specs.Form.{IsWellFormed};
ghost use Rattle.nc_format.specs.declared.NcFile.{NcFile};
ghost use Rattle.nc_format.specs.declared.fault.NcFault.{NcFault};
ghost use Rattle.nc_format.specs.declared.fault.NcFault.TheVariants.{NotNetcdf, Truncated};
ghost use Rattle.nc_format.specs.Written.{header_of, HasTypedValues, IsOfDoc, IsWhole};
ghost use Rattle.nc_format.specs.Numbers.{gathered, numbers_in};
ghost use Rattle.nc_format.specs.Sound.{IsSound};
ghost use Rattle.nc_format.specs.Header.{IsHeader, IsFirstFault, IsSettled, first_fault};

/// There is one header, which is sound, or one first fault. All fields before a first fault are
/// spelled as the grammar says, and the field there breaks the rule that the fault names.
pub fn law_first_fault()
    ensures fault { (b : List ℕ) (len : ℕ) (e : NcFault)
        → (first_fault b len ≡ Some e) ↔ IsFirstFault b len e }
    ensures header { (b : List ℕ) (len : ℕ)
        → (first_fault b len ≡ None) ↔ ((f : NcFile) × IsHeader b len f) }
    ensures one { (b : List ℕ) (len : ℕ) (f g : NcFile)
        → IsHeader b len f → IsHeader b len g → f ≡ g }
    ensures sound { (b : List ℕ) (len : ℕ) (f : NcFile) → IsHeader b len f → IsSound f }
{}

/// More bytes change neither a header nor a first fault that is not `Truncated`.
pub fn law_prefix()
    ensures header { (b more : List ℕ) (len : ℕ) (f : NcFile)
        → IsHeader b len f → IsHeader (b ++ more) len f }
    ensures fault { (b more : List ℕ) (len : ℕ) → 4 ≤ length b
        → IsSettled (first_fault b len) → first_fault (b ++ more) len ≡ first_fault b len }
{}

/// Of the file of a document, cut to its first c bytes: which fault there is.
pub fn law_cut()
    ensures magic { (doc : NcDoc) (c : ℕ) → c < length (file_of doc) → c < 4
        → first_fault (take c (file_of doc)) c ≡ Some NotNetcdf }
    ensures header { (doc : NcDoc) → IsWellFormed doc → (c : ℕ) → c < length (file_of doc)
        → 4 ≤ c → c < header_len doc
        → (o : ℕ) × (o ≤ c) × (first_fault (take c (file_of doc)) c ≡ Some (Truncated o)) }
    ensures data { (doc : NcDoc) → IsWellFormed doc → (c : ℕ) → c < length (file_of doc)
        → header_len doc ≤ c → IsWhole (first_fault (take c (file_of doc)) c) }
{}

/// What is written is read again: the file of a document has the document's header, and the pieces
/// of each variable spell its values.
pub fn law_written()
    ensures header { (doc : NcDoc) → IsWellFormed doc
        → IsHeader (file_of doc) (length (file_of doc)) (header_of doc) }
    ensures fields { (doc : NcDoc) → IsOfDoc doc (header_of doc) }
    ensures values { (doc : NcDoc) → IsWellFormed doc → All HasTypedValues doc.vars
        → AllZip (λ w v. numbers_in w.kind (gathered w (file_of doc)) ≡ numbers_of v.values)
        (header_of doc).vars doc.vars }
{}
