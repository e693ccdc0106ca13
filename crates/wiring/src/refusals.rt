//! Why a call is refused.
ghost use Rattle.std.specs.Prelude.{◌≡◌};
ghost use Rattle.wiring.specs.Refusals.{number_of};

/// The refusals, each with a number of its own.
#[derive(Clone, Copy, PartialEq, Eq, Debug)]
pub enum Refusal {
    /// a file under 11 bytes, or a length field unlike the byte count or unlike what the header says
    FileLength = 1,
    /// a version byte that is not 1
    Version = 2,
    /// more nodes or places than a sheet or a wiring may have
    Size = 3,
    /// a sign that is neither 0 nor 1
    Sign = 4,
    /// a tail that is not below its head, or a head that is not below the node count
    Ends = 5,
    /// a delay over the limit, or not lawful for its kind
    Delay = 6,
    /// a lead laid at a taken place
    Taken = 7,
    /// a retiming or lifting at a vacant place
    Vacant = 8,
    /// a place that is not below the place count
    Place = 9,
    /// a table or a row that is too short
    Room = 10,
}

impl Refusal {
    /// The refusal's number, from 1 to 10.
    pub fn number(self) -> u8
        ensures { result ≡ number_of self }
    {
        self as u8
    }
}
