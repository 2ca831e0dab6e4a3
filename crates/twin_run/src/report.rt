ghost use Rattle.std.specs.Prelude.{◌≡◌};
ghost use Rattle.twin_run.specs.Report.{exit_code};

use crate::ending::Status;
use std::fmt;

impl Status {
    /// The exit code of the program.
    pub fn code(self) -> u8
        ensures { result ≡ exit_code self }
    {
        match self {
            Status::Done => 0,
            Status::BadWords => 2,
            Status::BadLine(_) => 3,
            Status::ReadFault => 4,
            Status::WriteFault => 5,
            Status::Volume => 6,
            Status::Corrupt => 7,
            Status::Memory => 8,
            Status::TooLong => 9,
        }
    }
}

impl fmt::Display for Status {
    ghost use Rattle.std.specs.Prelude.{Some};
    ghost use Rattle.twin_run.specs.Report.{status_text};

    ghost output = { λ s. Some (status_text s) };

    fn fmt<W: fmt::Write>(&self, f: &mut fmt::Formatter<W>) -> fmt::Result {
        match self {
            Status::Done => Ok(()),
            Status::BadWords => { f.write_str("twins: usage: twins [FOLDER] [--gen NUMBER COUNT]") }
            Status::BadLine(n) => write!(f, "twins: line {n}: not a command"),
            Status::ReadFault => f.write_str("twins: cannot read input"),
            Status::WriteFault => f.write_str("twins: cannot write output"),
            Status::Volume => f.write_str("twins: volume failed"),
            Status::Corrupt => f.write_str("twins: volume holds no valid state"),
            Status::Memory => f.write_str("twins: out of memory"),
            Status::TooLong => f.write_str("twins: input longer than 16777216 bytes"),
        }
    }
}
