// Words of the command line, and what they ask for.
use crate::compare::same_at;
use command_line::{Chosen, OptFault, options};
use std::alloc::{AllocError, Global};
use std::test::Fail;

// Words, and the command with its options in the order of the fields.
static GOOD: [(&str, &str); 20] = [
    ("GenerateCSMesh --res 1 --file cs1.g", "Cs 1 cs1.g"),
    ("GenerateCSMesh --res=1 --file=cs1.g", "Cs 1 cs1.g"),
    ("GenerateCSMesh --res 000001 --file cs1.g", "Cs 1 cs1.g"),
    ("GenerateCSMesh --file cs1.g --res=400", "Cs 400 cs1.g"),
    ("GenerateCSMesh --file=a=b --res 1", "Cs 1 a=b"),
    (
        "GenerateRLLMesh --lon 3 --lat 360 --file r.g",
        "Rll 3 360 r.g",
    ),
    (
        "GenerateRLLMesh --lat 2 --lon 720 --file r.g",
        "Rll 720 2 r.g",
    ),
    ("GenerateICOMesh --res 200 --file i.g", "Ico 200 false i.g"),
    (
        "GenerateICOMesh --dual --res 1 --file d.g",
        "Ico 1 true d.g",
    ),
    (
        "GenerateOverlapMesh --a cs2.g --b cs3.g --out o.g",
        "Overlap cs2.g cs3.g o.g 1",
    ),
    (
        "GenerateOverlapMesh --b cs3.g --workers 64 --out o.g --a cs2.g",
        "Overlap cs2.g cs3.g o.g 64",
    ),
    (
        "GenerateOfflineMap --in_mesh a --out_mesh b --ov_mesh c --out_map d",
        "OfflineMap a b c d",
    ),
    (
        "ApplyOfflineMap --map m --var v --in_data i --out_data o",
        "Apply m v i o false",
    ),
    (
        "ApplyOfflineMap --masked --out_data=o --in_data=i --var=v --map=m",
        "Apply m v i o true",
    ),
    ("SelfRun --n 100", "SelfRun 100 1"),
    ("SelfRun --workers=7 --n=1", "SelfRun 1 7"),
    ("CheckCoverage --a s.g --b t.g", "Coverage s.g t.g"),
    ("CheckCoverage --b t.g --a s.g", "Coverage s.g t.g"),
    ("CheckMesh --file m.g", "Check m.g 1"),
    ("CheckMesh --workers 2 --file m.g", "Check m.g 2"),
];

static REFUSED: [&str; 40] = [
    "",
    "GenerateCSMesh",
    "generatecsmesh --res 1 --file cs1.g",
    "--res 1 --file cs1.g",
    "GenerateCSMesh --res 0 --file cs1.g",
    "GenerateCSMesh --res 401 --file cs1.g",
    "GenerateCSMesh --res 1 --res 1 --file cs1.g",
    "GenerateCSMesh --res 0000001 --file cs1.g",
    "GenerateCSMesh --res +1 --file cs1.g",
    "GenerateCSMesh --res 1x --file cs1.g",
    "GenerateCSMesh --res -1 --file cs1.g",
    "GenerateCSMesh --res=-1 --file cs1.g",
    "GenerateCSMesh --res= --file cs1.g",
    "GenerateCSMesh --res 1",
    "GenerateCSMesh --file cs1.g",
    "GenerateCSMesh --res 1 --file",
    "GenerateCSMesh --res 1 --file ",
    "GenerateCSMesh --res 1 --file=",
    "GenerateCSMesh --res 1 --file -x",
    "GenerateCSMesh --res 1 --file=-x",
    "GenerateCSMesh --res 1 --file cs1.g --",
    "GenerateCSMesh --res 1 --file cs1.g -x",
    "GenerateCSMesh --res 1 --file cs1.g stray",
    "GenerateCSMesh stray --res 1 --file cs1.g",
    "GenerateCSMesh --res 1 --file cs1.g --help",
    "GenerateCSMesh --res 1 --file cs1.g --version",
    "GenerateCSMesh --res 1 --file cs1.g --dual",
    "GenerateCSMesh --res 1 --fil cs1.g",
    "GenerateICOMesh --dual=yes --res 1 --file d.g",
    "GenerateICOMesh --dual yes --res 1 --file d.g",
    "GenerateICOMesh --dual --dual --res 1 --file d.g",
    "GenerateRLLMesh --lon 2 --lat 2 --file r.g",
    "GenerateRLLMesh --lon 3 --lat 361 --file r.g",
    "GenerateOverlapMesh --a cs2.g --b cs3.g --out o.g --workers 0",
    "GenerateOverlapMesh --a cs2.g --b cs3.g --out o.g --workers 65",
    "GenerateOfflineMap --in_mesh a --out_mesh b --ov_mesh c",
    "ApplyOfflineMap --map m --var v --in_data i --out_data o --masked=yes",
    "SelfRun --n 0",
    "SelfRun --n 101",
    "--help",
];

fn asked_by(alloc: Global, text: &str) -> Result<Result<Chosen, OptFault>, AllocError> {
    let mut words = Vec::new(alloc);
    for word in text.split(' ') {
        words.push(String::from_str(alloc, word)?)?;
    }
    Ok(options(alloc, &words))
}

fn shown(alloc: Global, chosen: &Chosen) -> Result<String, AllocError> {
    match chosen {
        Chosen::Cs { res, file } => format!(in alloc; "Cs {res} {}", file.text),
        Chosen::Rll { lon, lat, file } => format!(in alloc; "Rll {lon} {lat} {}", file.text),
        Chosen::Ico { res, dual, file } => format!(in alloc; "Ico {res} {dual} {}", file.text),
        Chosen::Overlap { a, b, out, workers } => {
            format!(in alloc; "Overlap {} {} {} {workers}", a.text, b.text, out.text)
        }
        Chosen::OfflineMap {
            in_mesh,
            out_mesh,
            ov_mesh,
            out_map,
        } => {
            format!(in alloc;
                "OfflineMap {} {} {} {}",
                in_mesh.text, out_mesh.text, ov_mesh.text, out_map.text
            )
        }
        Chosen::Apply {
            map,
            var,
            in_data,
            out_data,
            masked,
        } => {
            format!(in alloc;
                "Apply {} {} {} {} {masked}",
                map.text, var.text, in_data.text, out_data.text
            )
        }
        Chosen::SelfRun { n, workers } => format!(in alloc; "SelfRun {n} {workers}"),
        Chosen::Coverage { a, b } => format!(in alloc; "Coverage {} {}", a.text, b.text),
        Chosen::Check { file, workers } => format!(in alloc; "Check {} {workers}", file.text),
    }
}

#[test]
fn good_words_give_their_options(rt: HostRuntime) -> Result<(), Fail> {
    let alloc = rt.alloc();
    for (text, want) in &GOOD {
        match asked_by(alloc, text)? {
            Ok(chosen) => same_at(&rt, &shown(alloc, &chosen)?.as_str(), want, text),
            Err(fault) => panic!(rt; "{fault:?} at {text}"),
        }
    }
    Ok(())
}

#[test]
fn other_words_are_refused(rt: HostRuntime) -> Result<(), Fail> {
    let alloc = rt.alloc();
    for text in &REFUSED {
        let refused = matches!(asked_by(alloc, text)?, Err(OptFault::Usage));
        assert!(rt; refused, "at {text}");
    }
    Ok(())
}
