// What the words of the command line ask for.
ghost use Rattle.std.specs.Prelude.{◌≡◌};
ghost use Rattle.command_line.specs.declared.choices.OptFault.TheVariants.{NoMemory};

use std::alloc::AllocError;
use std::marker::Model;

/// A text of the command line, seen as the list of its bytes. Where `options` answers with it, it
/// has at least one byte, and the first is no dash.
#[derive(Drop)]
pub struct Text {
    pub text: String,
}

impl Model for Text {
    ghost use Rattle.std.specs.Prelude.{List, ℕ, string_bytes};

    ghost Value = { List ℕ };

    ghost view = { λ t. string_bytes t.text };
}

/// A command with its options. Every `Text` but `var` is the name of a file.
#[derive(Drop)]
pub enum Chosen {
    /// Make the cubed sphere with `res` by `res` faces on each of its six panels, 1 to 400.
    Cs {
        res: u32,
        file: Text,
    },
    /// Make the latitude-longitude mesh of `lon` columns, 3 to 720, and `lat` rows, 2 to 360.
    Rll {
        lon: u32,
        lat: u32,
        file: Text,
    },
    /// Make the icosahedral mesh of resolution `res`, 1 to 200, or its dual.
    Ico {
        res: u32,
        dual: bool,
        file: Text,
    },
    /// Find the pieces that the source mesh `a` and the target mesh `b` share, with 1 to 64
    /// workers.
    Overlap {
        a: Text,
        b: Text,
        out: Text,
        workers: u32,
    },
    /// Make a conservative map from the overlap file `ov_mesh`.
    OfflineMap {
        in_mesh: Text,
        out_mesh: Text,
        ov_mesh: Text,
        out_map: Text,
    },
    /// Carry the variable `var` of `in_data` over with a map. With `masked`, fill values count as
    /// absent.
    Apply {
        map: Text,
        var: Text,
        in_data: Text,
        out_data: Text,
        masked: bool,
    },
    /// Run the whole chain in memory, on meshes made from `n`, 1 to 100, with 1 to 64 workers.
    SelfRun {
        n: u32,
        workers: u32,
    },
    /// Count the faces of the target mesh `b` that the source mesh `a` covers.
    Coverage {
        a: Text,
        b: Text,
    },
    /// Tell whether the faces of a mesh tile the sphere, with 1 to 64 workers.
    Check {
        file: Text,
        workers: u32,
    },
}

/// Why there is no command.
#[derive(Clone, Copy, Debug, PartialEq, Eq)]
pub enum OptFault {
    /// The words are outside the grammar.
    Usage,
    /// Memory ran out.
    NoMemory,
}

impl From<AllocError> for OptFault {
    ghost from_gives = { λ _ e. e ≡ NoMemory };

    fn from(_error: AllocError) -> OptFault {
        OptFault::NoMemory
    }
}
