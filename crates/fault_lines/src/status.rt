// How the program ends.
ghost use Rattle.std.specs.Prelude.{◌≡◌};

/// How the program ends.
#[derive(Clone, Copy, Debug, PartialEq, Eq)]
pub enum Status {
    Done,
    Usage,
    NoFile,
    Format,
    Names,
    Mesh,
    Rows,
    Uncovered,
    Limit,
    Field,
    ReadFault,
    WriteFault,
    NoMemory,
}

impl Status {
    ghost use Rattle.fault_lines.specs.Code.{code_of};

    /// Its number.
    pub fn code(self) -> u8
        ensures { result ≡ code_of self }
    {
        match self {
            Status::Done => 0,
            Status::Usage => 2,
            Status::NoFile => 3,
            Status::Format => 4,
            Status::Names => 5,
            Status::Mesh => 6,
            Status::Rows => 7,
            Status::Uncovered => 8,
            Status::Limit => 9,
            Status::Field => 10,
            Status::ReadFault => 11,
            Status::WriteFault => 12,
            Status::NoMemory => 13,
        }
    }
}
