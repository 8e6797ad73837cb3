//! The status of a program whose report is written.
ghost use Rattle.std.specs.Prelude.{◌≡◌};
ghost use Rattle.ovl_program.specs.Status.{ending_of, ending_status};

/// How the program ends where what it prints is written.
#[derive(Clone, Copy, Debug, PartialEq, Eq)]
pub enum Ending {
    /// There was no fault to be found, or none was looked for.
    Clean,
    /// The report has faults of the layers or the blobs.
    Faulty,
}

impl Ending {
    /// The ending for an answer that is clean or not.
    pub fn of(clean: bool) -> Ending
        ensures { result ≡ ending_of clean }
    {
        if clean { Ending::Clean } else { Ending::Faulty }
    }

    /// The status that the program ends with.
    pub fn status(self) -> u8
        ensures { result ≡ ending_status self }
    {
        match self {
            Ending::Clean => 0,
            Ending::Faulty => 1,
        }
    }
}
