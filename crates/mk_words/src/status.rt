ghost use Rattle.std.specs.Prelude.{◌≡◌};
ghost use Rattle.mk_words.specs.Lines.{status_number};

/// How a run ends.
#[derive(Clone, Copy, Debug, PartialEq, Eq)]
pub enum Status {
    /// The whole text was written.
    Done,
    /// A code or certificate was refused by the checker.
    Refused,
    /// The words are no command.
    Words,
    /// The source was refused.
    Source,
    /// The bundle text was refused.
    Bundle,
    /// The inputs were refused.
    Inputs,
    /// Reading failed.
    ReadFault,
    /// Writing failed.
    WriteFault,
    /// Memory was wanted and not found.
    Memory,
    /// There are too many random tapes to count.
    Tapes,
    /// More bytes came than the limit.
    TooLong,
}

/// The status with which the program ends, from 0 for `Done` to 10 for `TooLong`.
pub fn code_of(status: Status) -> u8
    ensures { result ≡ status_number status }
{
    match status {
        Status::Done => 0,
        Status::Refused => 1,
        Status::Words => 2,
        Status::Source => 3,
        Status::Bundle => 4,
        Status::Inputs => 5,
        Status::ReadFault => 6,
        Status::WriteFault => 7,
        Status::Memory => 8,
        Status::Tapes => 9,
        Status::TooLong => 10,
    }
}
