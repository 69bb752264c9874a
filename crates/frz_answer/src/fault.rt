//! The faults that stop a command.
ghost use Rattle.std.specs.Prelude.{◌≡◌};
ghost use Rattle.frz_answer.specs.Statuses.{fault_code, fault_line};

/// A fault that stops a command before its end and that a line names. A fault of the sink is none
/// of these, since no line can be written then.
#[derive(Clone, Copy, Debug, PartialEq, Eq, Drop)]
pub enum Fault {
    Store,
    Input,
    NoMemory,
}

impl Fault {
    /// The status with which the program ends at this fault: 8, 10 or 11.
    pub fn code(self) -> u8
        ensures { result ≡ fault_code self }
    {
        match self {
            Fault::Store => 8,
            Fault::Input => 10,
            Fault::NoMemory => 11,
        }
    }

    /// The line that names the fault, with its line feed.
    pub fn line(self) -> &'static [u8]
        ensures { result.now ≡ fault_line self }
    {
        match self {
            Fault::Store => b"store fault\n",
            Fault::Input => b"input fault\n",
            Fault::NoMemory => b"no memory\n",
        }
    }
}
