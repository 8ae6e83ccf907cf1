// Why an event, a fresh board, a run, an export or a question for driven lines is refused, and the number of each refusal. Document 01,
// "Records" and "Runs"; document 02, Ask 1.
#![tactic(auto)]

ghost use Rattle.std.specs.Prelude.{◌≡◌};
ghost use Rattle.refusals.specs.Numbers.{number_of};

#[derive(Clone, Copy, PartialEq, Eq)]
pub enum Refusal {
    // of an event: a kind above 7
    Kind = 16,
    // a place that is not on the board, or not 0 in an event of the whole board
    Place = 17,
    // a value not allowed for the kind, or a fourth byte that is not 0
    Value = 18,
    // a control word of no defined form
    NoForm = 19,
    // a mode 2 word to a B port
    NotOnB = 20,
    // bytes that are not whole records
    Length = 32,
    // a size outside 1 to 4
    Size = 33,
    // an answer buffer without the room
    Room = 34,
    // a board that is not sound
    Unsound = 35,
    // more records than an export takes
    Records = 36,
    // a text longer than its buffer
    Text = 40,
    // other than two stamp bytes for each record
    Stamps = 41,
}

impl From<Refusal> for u8 {
    ghost from_gives = { λ r n. n ≡ number_of r };

    fn from(r: Refusal) -> u8
        ensures { result ≡ number_of r }
    {
        r as u8
    }
}
