// The overlap of a whole file.
ghost use Rattle.std.specs.Prelude.{◌≡◌, length, IfOk, IfErr, Ok};
ghost use Rattle.nc_format.specs.Header.{IsHeader};
ghost use Rattle.nc_format.specs.Answers.{IsFaultOf};
ghost use Rattle.exodus_mesh.specs.declared.faults.FileFault.TheVariants.{NoMemory};
ghost use Rattle.exodus_mesh.specs.Answers.{file_fault_of, SaysMemoryAlone, IsOfNamesOrRows};
ghost use Rattle.remap_files.specs.OverlapIn.{overlap_in};

use crate::{find_overlap, overlap_from};
use clip::Overlap;
use exodus_mesh::{FileFault, file_fault, read_lists};
use nc_format::{NcFile, law_first_fault};
use std::alloc::Global;

/// The overlap in the file with the bytes `bytes` and the header `file`.
///
/// A fault is the first one: `Name` for those of `find_overlap`, and behind them `Row` for those of
/// `overlap_from`. It never names an area.
pub fn read_overlap(alloc: Global, file: &NcFile, bytes: &[u8]) -> Result<Overlap, FileFault>
    requires header { IsHeader bytes.now (length bytes.now) file.now }
    ensures overlap { IfOk result (λ overlap. overlap_in file.now bytes.now ≡ Ok overlap) }
    // A fault that is answered is the first one, unless memory ran out.
    ensures fault { IfErr result (IsFaultOf NoMemory (overlap_in file.now bytes.now)) }
    ensures memory { IfErr result SaysMemoryAlone }
    ensures of_names_or_rows { IfErr result IsOfNamesOrRows }
{
    // Every header is sound.
    law_first_fault();
    let vars = match find_overlap(alloc, file) {
        Ok(vars) => vars,
        Err(fault) => return Err(file_fault(fault)),
    };
    let lists = read_lists(alloc, file, bytes, &vars.vars.items)?;
    overlap_from(alloc, &vars, &lists)
}
