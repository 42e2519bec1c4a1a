// What holds of the outcomes of the program.
ghost use Rattle.std.specs.Prelude.{◌≡◌, Option};
ghost use Rattle.remap_io.specs.Folder.{Folder};
ghost use Rattle.command_line.specs.declared.choices.Chosen.{Chosen};
ghost use Rattle.tempest_top.specs.Outcome.{Outcome, IsOutcome};
ghost use Rattle.tempest_top.specs.CommandLaws.{MapAfterOverlap, FieldAfterMap};

/// From one command and one folder the program comes to one outcome at most. It takes no memory.
pub fn law_one_outcome()
    ensures { (chosen : Option Chosen) (m : Option Folder) (o p : Outcome)
        → IsOutcome chosen m o → IsOutcome chosen m p → o ≡ p }
{}

/// `GenerateOverlapMesh` on two meshes, and then `GenerateOfflineMap` on these and on the file that
/// was written: the second one's only outcomes are that it is done, and the file is that of the map
/// of the overlap of the two meshes, which is read again; or that a target face meets no source face.
/// It holds for every folder and takes no memory.
pub fn law_commands()
    ensures { MapAfterOverlap }
{}

/// From two mesh files to the field: `GenerateOverlapMesh` on two meshes, `GenerateOfflineMap` on
/// these and on the file that was written, and then `ApplyOfflineMap` on the map file and a data file
/// that is none of the two. Where the first two are done, the third one's only outcomes are refusals
/// of the data file as it was at the start, or of a field that would be too long, and that it is done:
/// then its file holds what the map of the exact overlap of the two meshes makes of the variable, and
/// its text tells two masses that are equal. It holds for every folder and takes no memory.
pub fn law_three_commands()
    ensures { FieldAfterMap }
{}
