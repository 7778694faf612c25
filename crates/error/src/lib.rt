// The refusals: what is answered where a call can't be carried out (the Rust's `BlurayError`).
#![tactic(auto)]

ghost use Rattle.std.specs.Prelude.{◌≡◌};
ghost use Rattle.error.specs.Rules.{number_of, refused_if, first_of};

#[derive(Clone, Copy, Debug, PartialEq, Eq)]
pub enum Refusal {
    TooLong,
    BadHeader,
    BadBody,
    BadEntry,
    NoRoom,
    BadBuffer,
    BadBudget,
    BadSession,
    NotEncodable,
    NotAnEntry,
}

impl Refusal {
    // The paper's number.
    pub fn number(self) -> u8
        ensures { result ≡ number_of self }
    {
        match self {
            Refusal::TooLong => 1,
            Refusal::BadHeader => 2,
            Refusal::BadBody => 3,
            Refusal::BadEntry => 4,
            Refusal::NoRoom => 5,
            Refusal::BadBuffer => 6,
            Refusal::BadBudget => 7,
            Refusal::BadSession => 8,
            Refusal::NotEncodable => 9,
            Refusal::NotAnEntry => 10,
        }
    }

    // What a test of the input finds: this refusal where it is met.
    pub fn refused_if(self, bad: bool) -> Result<(), Refusal>
        ensures { result ≡ refused_if bad self }
    {
        if bad {
            return Err(self);
        }
        Ok(())
    }
}

// The first refusal of two tests made in this order.
pub fn first_of(first: Result<(), Refusal>, later: Result<(), Refusal>) -> Result<(), Refusal>
    ensures { result ≡ first_of first later }
{
    first?;
    later
}
