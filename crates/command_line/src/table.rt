// The table of commands and their options.
ghost use Rattle.std.specs.Prelude.{◌≡◌, map};
ghost use Rattle.command_line.specs.Table.{command_named, rules_of, word_of};
ghost use Rattle.command_line.specs.Views.{rule_of};

/// A command, by its word on the command line.
#[derive(Clone, Copy, Debug, PartialEq, Eq)]
pub enum Command {
    GenerateCSMesh,
    GenerateRLLMesh,
    GenerateICOMesh,
    GenerateOverlapMesh,
    GenerateOfflineMap,
    ApplyOfflineMap,
    SelfRun,
    CheckCoverage,
    CheckMesh,
}

/// What stands behind the name of an option.
#[derive(Clone, Copy, Debug, PartialEq, Eq)]
pub enum Form {
    /// A text.
    Text,
    /// A whole number from `low` to `high`.
    Number { low: u32, high: u32 },
    /// Nothing: the option is a flag.
    Flag,
}

/// An option of a command: its name, whether the command needs it, and what stands behind the name.
#[derive(Clone, Copy)]
pub struct Rule {
    pub name: &'static str,
    pub required: bool,
    pub form: Form,
}

// A static can't call a function, so the rows below are made by macros.
macro_rules! required {
    ($name:literal) => {
        Rule {
            name: $name,
            required: true,
            form: Form::Text,
        }
    };
    ($name:literal, $low:literal, $high:literal) => {
        Rule {
            name: $name,
            required: true,
            form: Form::Number {
                low: $low,
                high: $high,
            },
        }
    };
}

macro_rules! optional {
    ($name:literal, $form:expr) => {
        Rule {
            name: $name,
            required: false,
            form: $form,
        }
    };
}

const WORKERS: Rule = optional!("workers", Form::Number { low: 1, high: 64 });

static CUBED_SPHERE: [Rule; 2] = [required!("res", 1, 400), required!("file")];

static LATITUDE_LONGITUDE: [Rule; 3] = [
    required!("lon", 3, 720),
    required!("lat", 2, 360),
    required!("file"),
];

static ICOSAHEDRAL: [Rule; 3] = [
    required!("res", 1, 200),
    required!("file"),
    optional!("dual", Form::Flag),
];

static OVERLAP: [Rule; 4] = [required!("a"), required!("b"), required!("out"), WORKERS];

static OFFLINE_MAP: [Rule; 4] = [
    required!("in_mesh"),
    required!("out_mesh"),
    required!("ov_mesh"),
    required!("out_map"),
];

static APPLY: [Rule; 5] = [
    required!("map"),
    required!("var"),
    required!("in_data"),
    required!("out_data"),
    optional!("masked", Form::Flag),
];

static SELF_RUN: [Rule; 2] = [required!("n", 1, 100), WORKERS];

static COVERAGE: [Rule; 2] = [required!("a"), required!("b")];

static CHECK: [Rule; 2] = [required!("file"), WORKERS];

static COMMANDS: [Command; 9] = [
    Command::GenerateCSMesh,
    Command::GenerateRLLMesh,
    Command::GenerateICOMesh,
    Command::GenerateOverlapMesh,
    Command::GenerateOfflineMap,
    Command::ApplyOfflineMap,
    Command::SelfRun,
    Command::CheckCoverage,
    Command::CheckMesh,
];

impl Command {
    /// The word of the command.
    pub fn word(self) -> &'static str
        ensures { result.now ≡ word_of self }
    {
        match self {
            Command::GenerateCSMesh => "GenerateCSMesh",
            Command::GenerateRLLMesh => "GenerateRLLMesh",
            Command::GenerateICOMesh => "GenerateICOMesh",
            Command::GenerateOverlapMesh => "GenerateOverlapMesh",
            Command::GenerateOfflineMap => "GenerateOfflineMap",
            Command::ApplyOfflineMap => "ApplyOfflineMap",
            Command::SelfRun => "SelfRun",
            Command::CheckCoverage => "CheckCoverage",
            Command::CheckMesh => "CheckMesh",
        }
    }

    /// The options of the command, in the order of the table.
    pub fn rules(self) -> &'static [Rule]
        ensures { map rule_of result.now ≡ rules_of self }
    {
        match self {
            Command::GenerateCSMesh => &CUBED_SPHERE,
            Command::GenerateRLLMesh => &LATITUDE_LONGITUDE,
            Command::GenerateICOMesh => &ICOSAHEDRAL,
            Command::GenerateOverlapMesh => &OVERLAP,
            Command::GenerateOfflineMap => &OFFLINE_MAP,
            Command::ApplyOfflineMap => &APPLY,
            Command::SelfRun => &SELF_RUN,
            Command::CheckCoverage => &COVERAGE,
            Command::CheckMesh => &CHECK,
        }
    }

    /// The command that the word names, or none.
    pub fn named(word: &str) -> Option<Command>
        ensures { result ≡ command_named word.now }
    {
        COMMANDS
            .iter()
            .copied()
            .find(|command| word == command.word())
    }
}
