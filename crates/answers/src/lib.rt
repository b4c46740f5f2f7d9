// "Numbers that come back", by name: why something is refused, and at which place. Accepted is no refusal, so an answer is a `Result`.
#![tactic(auto)]

ghost use Rattle.std.specs.Prelude.{◌≡◌};
ghost use Rattle.answers.specs.Numbers.{number_of, none_at};

// In the order of their numbers. What names two of them by one word in the paper, "kind unknown, plan / action", is two here.
#[derive(Clone, Copy, Debug, PartialEq, Eq)]
pub enum Refusal {
    // of a plan
    KindUnknown = 1,
    CutShort = 2,
    OutOfOrder = 3,
    TooMany = 4,
    OutOfRange = 5,
    Untied = 6,
    Lost = 7,
    Inside = 8,
    NotOne = 9,
    Unjoined = 10,
    // of an action
    ActionUnknown = 11,
    ActionCutShort = 12,
    NoSuchNode = 13,
    NoSuchLink = 14,
    LastRoundOver = 15,
    NeedMissing = 16,
    NotInRange = 17,
    QueueFull = 18,
    // of the program's input, of a table, and of a layout
    TooLong = 19,
    MoreRoundsThanPlanned = 20,
    BufferTooShort = 21,
    TooDeep = 22,
    NoRoom = 23,
}

impl Refusal {
    pub fn number(self) -> u8
        ensures { result ≡ number_of self }
    {
        self as u8
    }
}

// What is refused at a place: of a record the offset, of a plan's check the node or the link, and 0 where there is no place to tell.
#[derive(Clone, Copy, Debug, PartialEq, Eq)]
pub struct Refused {
    pub refusal: Refusal,
    pub place: usize,
}

// What a check found is where the plan is refused.
pub fn none_at(found: Option<usize>, refusal: Refusal) -> Result<(), Refused>
    ensures { result ≡ none_at found refusal }
{
    found.map_or(Ok(()), |place| Err(Refused { refusal, place }))
}
