// Words that are refused.
use crate::runs::{Run, same_at};
use std::test::Fail;
use tempest_top::Status;

const REFUSED: [&str; 26] = [
    "GenerateCSMesh --res 0 --file cs1.g",
    "GenerateCSMesh --res 401 --file cs1.g",
    "GenerateCSMesh --res 1 --res 1 --file cs1.g",
    "GenerateCSMesh --res 0000001 --file cs1.g",
    "GenerateICOMesh --dual=yes --res 1 --file d.g",
    "ApplyOfflineMap --map m.nc --var x --in_data i.nc --out_data o.nc --masked=yes",
    "GenerateRLLMesh --lon 2 --lat 2 --file r.g",
    "GenerateOverlapMesh --a cs2.g --b cs3.g --out o.g --workers 0",
    "GenerateOverlapMesh --a cs2.g --b cs3.g --out o.g --workers 65",
    "SelfRun --n 0",
    "SelfRun --n 101",
    "GenerateCSMesh",
    "GenerateCSMesh --res 1",
    "GenerateCSMesh --res 1 --file",
    "GenerateCSMesh --res 1 --file cs1.g stray",
    "GenerateCSMesh --res 1 --file cs1.g --",
    "GenerateCSMesh -r 1 --file cs1.g",
    "GenerateCSMesh --res +1 --file cs1.g",
    "GenerateCSMesh --res -1 --file cs1.g",
    "GenerateCSMesh --res= --file cs1.g",
    "GenerateCSMesh --res 1 --file=-cs1.g",
    "GenerateCSMesh --res 1 --file cs1.g --dual",
    "GenerateCSMesh --help",
    "--version",
    "generatecsmesh --res 1 --file cs1.g",
    "",
];

#[test]
fn words_out_of_the_grammar_are_refused(rt: HostRuntime) -> Result<(), Fail> {
    for text in REFUSED {
        let mut row = Run::new(rt.alloc());
        let status = row.go(&rt, rt.alloc(), text)?;
        same_at(&rt, &status, &Status::Usage, &text);
        row.tells(&rt, b"tempest: usage\n");
        row.puts(&rt, b"");
        row.holds(&rt, "cs1.g", None);
    }
    Ok(())
}
