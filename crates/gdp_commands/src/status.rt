//! How a call of the program ends.
ghost use Rattle.std.specs.Prelude.{◌≡◌, IsTrue, ◌↔◌};
ghost use Rattle.gdp_commands.specs.Statuses.{number_of, IsOut};

/// How a call of the program ends.
#[derive(Clone, Copy, Debug, PartialEq, Eq)]
pub enum Status {
    /// The command is done.
    Done,
    /// The point fails.
    No,
    /// A text is refused.
    Text,
    /// A number passed 128 bits.
    GaveUp,
    /// The model can't be rewritten.
    Rewrite,
    /// A text was not read, since a call of the shelf failed.
    Read,
    /// The answer was not written, since a call of the sink failed.
    Write,
    /// The words are of no form.
    Words,
    /// Memory ran out.
    Memory,
}

impl Status {
    /// The number that the program ends with.
    pub fn code(self) -> u8
        ensures { result ≡ number_of self }
    {
        match self {
            Status::Done => 0,
            Status::No => 1,
            Status::Text => 2,
            Status::GaveUp => 3,
            Status::Rewrite => 4,
            Status::Read => 5,
            Status::Write => 6,
            Status::Words => 7,
            Status::Memory => 8,
        }
    }

    /// Whether the text of the status goes to `out`.
    pub fn goes_out(self) -> bool
        ensures { IsTrue result ↔ IsOut self }
    {
        matches!(self, Status::Done | Status::No | Status::GaveUp)
    }
}
