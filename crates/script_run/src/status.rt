ghost use Rattle.std.specs.Prelude.{◌≡◌};
ghost use Rattle.script_run.specs.Top.{finish_number};

/// How a call of the program ended: the number of a `Finish`. Source: this project's own.
#[derive(Clone, Copy, Debug, PartialEq, Eq)]
pub struct Status {
    /// The number, as a process gives it.
    pub number: u8,
}

/// What a call of the program comes to. Source: this project's own.
#[derive(Clone, Copy, Debug, PartialEq, Eq)]
pub enum Finish {
    /// 0: the script came to its `end`.
    Done,
    /// 2: the words are no form of the program.
    Usage,
    /// 3: a line is bad, or the last one isn't whole.
    BadLine,
    /// 4: the source failed.
    ReadFault,
    /// 5: the sink failed.
    WriteFault,
    /// 7: a limit was reached.
    Limit,
    /// 8: memory ran out.
    NoMemory,
}

impl Finish {
    /// The number by which a process answers it.
    pub fn number(self) -> u8
        ensures { result ≡ finish_number self }
    {
        match self {
            Finish::Done => 0,
            Finish::Usage => 2,
            Finish::BadLine => 3,
            Finish::ReadFault => 4,
            Finish::WriteFault => 5,
            Finish::Limit => 7,
            Finish::NoMemory => 8,
        }
    }

    /// The status with its number.
    pub fn status(self) -> Status
        ensures { result.number ≡ finish_number self }
    {
        Status {
            number: self.number(),
        }
    }
}
