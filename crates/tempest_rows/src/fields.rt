// Fields that are carried over, by whole runs.
use crate::runs::{Run, same, same_at};
use crate::spelled::*;
use remap_io::{MemFiles, MemSink};
use std::alloc::{AllocError, Global};
use std::process::Abort;
use std::test::Fail;
use std::thread::Threads;
use tempest_top::Status;

const WORDS: &str = "ApplyOfflineMap --map m.nc --var x --in_data i.nc --out_data o.nc";

const MASKED: &str = "ApplyOfflineMap --masked --map m.nc --var x --in_data i.nc --out_data o.nc";

// A row: the map, the data, the words, the text, and the field file.
type Row = (
    &'static str,
    &'static str,
    &'static str,
    &'static str,
    &'static str,
);

const MINUS_THREE: &str = "slices 1 source_mass -3 target_mass -3\n";

const MINUS_FIVE: &str = "slices 1 source_mass -5 target_mass -5\n";

const ROWS: [Row; 13] = [
    (
        TWO_ROWS,
        MINUS_ONE_AND_ONE,
        WORDS,
        "slices 1 source_mass 1 target_mass 1\n",
        ONE_LEFT,
    ),
    (TWO_ROWS, MINUS_FIVE_AND_ONE, WORDS, MINUS_THREE, NONE_LEFT),
    (TWO_ROWS, MINUS_FIVE_AND_ZERO, WORDS, MINUS_FIVE, BELOW_ZERO),
    (
        TWO_ROWS_IN_32_BITS,
        MINUS_ONE_AND_ONE,
        WORDS,
        "slices 1 source_mass 1 target_mass 1\n",
        ONE_LEFT,
    ),
    (
        TWO_ROWS_IN_32_BITS,
        MINUS_FIVE_AND_ONE,
        WORDS,
        MINUS_THREE,
        NONE_LEFT,
    ),
    (
        TWO_ROWS_IN_32_BITS,
        MINUS_FIVE_AND_ZERO,
        WORDS,
        MINUS_FIVE,
        BELOW_ZERO,
    ),
    (
        TWO_ROWS,
        THREE_RECORDS,
        WORDS,
        "slices 3 source_mass -7 target_mass -7\n",
        IN_THREE_RECORDS,
    ),
    (
        TWO_ROWS,
        BEHIND_ANOTHER,
        WORDS,
        "slices 3 source_mass -7 target_mass -7\n",
        IN_THREE_RECORDS,
    ),
    (
        TWO_ROWS,
        NO_RECORD,
        WORDS,
        "slices 0 source_mass 0 target_mass 0\n",
        IN_NO_RECORD,
    ),
    (
        TWO_ROWS,
        FILLED,
        MASKED,
        "slices 1 source_mass -5 target_mass -5 masked 0\n",
        ONE_PART,
    ),
    (
        TWO_ROWS,
        ALL_FILLED,
        MASKED,
        "slices 1 source_mass 0 target_mass 0 masked 1\n",
        NO_PART,
    ),
    (
        TWO_ROWS,
        OTHER_FILL,
        MASKED,
        "slices 1 source_mass -2 target_mass -2 masked 0\n",
        WHOLE_PART,
    ),
    (
        TWO_ROWS,
        THREE_RECORDS,
        MASKED,
        "slices 3 source_mass -7 target_mass -7 masked 0\n",
        PARTS_IN_RECORDS,
    ),
];

// The map `m.nc` and the data `i.nc`.
fn with_map_and_data(alloc: Global, map: &str, data: &str) -> Result<Run, AllocError> {
    let mut row = Run::new(alloc);
    row.place("m.nc", &bytes_of(alloc, map)?)?;
    row.place("i.nc", &bytes_of(alloc, data)?)?;
    Ok(row)
}

#[test]
fn fields_are_carried_over(rt: HostRuntime) -> Result<(), Fail> {
    for (map, data, text, put, field) in ROWS {
        let mut row = with_map_and_data(rt.alloc(), map, data)?;
        let status = row.go(&rt, rt.alloc(), text)?;
        row.tells(&rt, b"");
        same_at(&rt, &status, &Status::Done, &put);
        row.puts(&rt, put.as_bytes());
        let want = bytes_of(rt.alloc(), field)?;
        row.holds(&rt, "o.nc", Some(want.as_slice()));
    }
    Ok(())
}

// A refusal: the map, the data, the words, the status, and the line.
type Refusal = (
    &'static str,
    &'static str,
    &'static str,
    Status,
    &'static str,
);

const OTHER_NAME: &str = "ApplyOfflineMap --map m.nc --var y --in_data i.nc --out_data o.nc";

const REFUSALS: [Refusal; 12] = [
    (
        TWO_ROWS,
        THREE_VALUES,
        WORDS,
        Status::Field,
        "i.nc: length 3 map 2",
    ),
    (
        TWO_ROWS,
        THREE_VALUES,
        MASKED,
        Status::Field,
        "i.nc: length 3 map 2",
    ),
    (
        TWO_ROWS,
        FILLED,
        WORDS,
        Status::Field,
        "i.nc: fill value at 2",
    ),
    (
        TWO_ROWS,
        FILLED,
        OTHER_NAME,
        Status::Names,
        "i.nc: missing y",
    ),
    (TWO_ROWS, FLOATS, WORDS, Status::Names, "i.nc: kind of x"),
    (TWO_ROWS, DOUBLES, WORDS, Status::Names, "i.nc: kind of x"),
    (
        TWO_ROWS,
        WITHOUT_A_DIMENSION,
        WORDS,
        Status::Names,
        "i.nc: shape of x",
    ),
    (WRONG_SOURCE, FLOATS, WORDS, Status::Rows, "m.nc: area_a 2"),
    (WRONG_TARGET, FLOATS, WORDS, Status::Rows, "m.nc: area_b 1"),
    (UNSIGNED, FLOATS, WORDS, Status::Names, "m.nc: kind of S"),
    (FLOATS, FLOATS, WORDS, Status::Names, "m.nc: missing col"),
    ("", FLOATS, WORDS, Status::Format, "m.nc: not netCDF"),
];

// The line of a refusal.
fn line_of(alloc: Global, text: &str) -> Result<String, AllocError> {
    format!(in alloc; "tempest: {text}\n")
}

#[test]
fn maps_and_data_at_fault_are_told(rt: HostRuntime) -> Result<(), Fail> {
    for (map, data, text, want, told) in REFUSALS {
        let mut row = with_map_and_data(rt.alloc(), map, data)?;
        let status = row.go(&rt, rt.alloc(), text)?;
        same_at(&rt, &status, &want, &told);
        let line = line_of(rt.alloc(), told)?;
        row.tells(&rt, line.as_bytes());
        row.puts(&rt, b"");
        row.holds(&rt, "o.nc", None);
    }
    Ok(())
}

// Rows that are out of order, and whose measure is out of range, are told by their numbers.
#[test]
fn rows_of_maps_at_fault_are_told(rt: HostRuntime) -> Result<(), Fail> {
    for (map, number) in [(OUT_OF_ORDER, 2), (OUT_OF_RANGE, 1)] {
        let mut row = with_map_and_data(rt.alloc(), map, FLOATS)?;
        let status = row.go(&rt, rt.alloc(), WORDS)?;
        same(&rt, &status, &Status::Rows);
        let line = format!(in rt.alloc(); "tempest: m.nc: row {number}\n")?;
        row.tells(&rt, line.as_bytes());
    }
    Ok(())
}

// Runs the words where call k of the files fails, and then again.
fn with_a_failing_call<R: Abort + Threads>(
    rt: &R,
    alloc: Global,
    call: u32,
    want: Status,
    told: &str,
) -> Result<(), Fail> {
    let mut row = Run::new(alloc);
    row.files = MemFiles::new(alloc, [call].to_vec(alloc)?);
    row.place("m.nc", &bytes_of(alloc, TWO_ROWS)?)?;
    row.place("i.nc", &bytes_of(alloc, MINUS_FIVE_AND_ZERO)?)?;
    let status = row.go(rt, alloc, WORDS)?;
    same_at(rt, &status, &want, &call);
    row.tells(rt, told.as_bytes());
    row.puts(rt, b"");
    row.holds(rt, "o.nc", None);
    row.renew_sinks(alloc);
    let again = row.go(rt, alloc, WORDS)?;
    same_at(rt, &again, &Status::Done, &call);
    row.puts(rt, MINUS_FIVE.as_bytes());
    Ok(())
}

#[test]
fn each_failing_call_is_told(rt: HostRuntime) -> Result<(), Fail> {
    for (call, want, told) in [
        (1, Status::ReadFault, "tempest: read fault on m.nc\n"),
        (2, Status::ReadFault, "tempest: read fault on m.nc\n"),
        (3, Status::ReadFault, "tempest: read fault on i.nc\n"),
        (4, Status::ReadFault, "tempest: read fault on i.nc\n"),
        (5, Status::WriteFault, "tempest: write fault on o.nc\n"),
    ] {
        with_a_failing_call(&rt, rt.alloc(), call, want, told)?;
    }
    Ok(())
}

#[test]
fn a_failing_output_leaves_the_whole_field(rt: HostRuntime) -> Result<(), Fail> {
    let mut row = with_map_and_data(rt.alloc(), TWO_ROWS, MINUS_FIVE_AND_ZERO)?;
    row.out = MemSink::new(rt.alloc(), [1].to_vec(rt.alloc())?);
    let status = row.go(&rt, rt.alloc(), WORDS)?;
    same(&rt, &status, &Status::WriteFault);
    row.tells(&rt, b"tempest: write fault on output\n");
    let want = bytes_of(rt.alloc(), BELOW_ZERO)?;
    row.holds(&rt, "o.nc", Some(want.as_slice()));
    Ok(())
}

// A missing file, by its name.
#[test]
fn missing_files_are_told(rt: HostRuntime) -> Result<(), Fail> {
    let mut row = Run::new(rt.alloc());
    let status = row.go(&rt, rt.alloc(), WORDS)?;
    same(&rt, &status, &Status::NoFile);
    row.tells(&rt, b"tempest: no file m.nc\n");
    row.place("m.nc", &bytes_of(rt.alloc(), TWO_ROWS)?)?;
    row.renew_sinks(rt.alloc());
    let status = row.go(&rt, rt.alloc(), WORDS)?;
    same(&rt, &status, &Status::NoFile);
    row.tells(&rt, b"tempest: no file i.nc\n");
    Ok(())
}

// Makes a map of these meshes.
fn with_a_map<R: Abort + Threads>(
    rt: &R,
    alloc: Global,
    source: &str,
    target: &str,
    data: &str,
) -> Result<Run, Fail> {
    let mut row = Run::new(alloc);
    for words in [
        source,
        target,
        "GenerateOverlapMesh --a a.g --b b.g --out ab.g",
        "GenerateOfflineMap --in_mesh a.g --out_mesh b.g --ov_mesh ab.g --out_map m.nc",
    ] {
        let status = row.go(rt, alloc, words)?;
        same_at(rt, &status, &Status::Done, &words);
    }
    row.place("i.nc", &bytes_of(alloc, data)?)?;
    row.renew_sinks(alloc);
    Ok(row)
}

#[test]
fn a_field_on_octants_stays(rt: HostRuntime) -> Result<(), Fail> {
    let mut row = with_a_map(
        &rt,
        rt.alloc(),
        "GenerateRLLMesh --lon 4 --lat 2 --file a.g",
        "GenerateRLLMesh --lon 4 --lat 2 --file b.g",
        OCTANTS,
    )?;
    let status = row.go(&rt, rt.alloc(), WORDS)?;
    same(&rt, &status, &Status::Done);
    row.puts(
        &rt,
        b"slices 1 source_mass 3885995363328 target_mass 3885995363328\n",
    );
    let want = bytes_of(rt.alloc(), TO_EIGHT)?;
    row.holds(&rt, "o.nc", Some(want.as_slice()));
    Ok(())
}

// Whether the two masses of a text on one slice are spelled alike.
fn has_equal_masses(text: &[u8]) -> bool {
    let front = b"slices 1 source_mass ".len();
    let between = b" target_mass ".len();
    if text.len() < front + between + 1 {
        return false;
    }
    let digits = (text.len() - front - between - 1) / 2;
    let source = &text[front..front + digits];
    let target = &text[front + digits + between..front + digits + between + digits];
    source == target
}

// A constant field on the cube stays constant, and one that jumps between the ends keeps its mass.
#[test]
fn fields_on_crossing_cubes(rt: HostRuntime) -> Result<(), Fail> {
    for (data, field) in [(SEVENS, Some(ALL_SEVENS)), (ENDS, None)] {
        let mut row = with_a_map(
            &rt,
            rt.alloc(),
            "GenerateCSMesh --res 2 --file a.g",
            "GenerateCSMesh --res 3 --file b.g",
            data,
        )?;
        let status = row.go(&rt, rt.alloc(), WORDS)?;
        same(&rt, &status, &Status::Done);
        assert!(rt; has_equal_masses(row.out.bytes()));
        let written = row.files.get("o.nc").map(|bytes| bytes.len());
        same(&rt, &written, &Some(840));
        if let Some(field) = field {
            let want = bytes_of(rt.alloc(), field)?;
            row.holds(&rt, "o.nc", Some(want.as_slice()));
        }
    }
    Ok(())
}
