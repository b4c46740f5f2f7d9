// "Numbers that come back", by name.

// Why something is refused. 0 stands for no refusal, and 19 is the bench program's own.
#[derive(Clone, Copy, Debug, PartialEq, Eq)]
pub enum Refusal {
    UnknownRecord = 1,
    CutRecord = 2,
    OutOfOrder = 3,
    TooMany = 4,
    OutOfRange = 5,
    NoParent = 6,
    NoRoot = 7,
    PreferredInside = 8,
    NotOnePreferred = 9,
    NotJoined = 10,
    UnknownAction = 11,
    CutAction = 12,
    NoSuchNode = 13,
    NoSuchAction = 14,
    LastRoundOver = 15,
    NeedMissing = 16,
    Outside = 17,
    QueueFull = 18,
    TooManyRounds = 20,
    BufferShort = 21,
    TooDeep = 22,
    NoRoomForPlan = 23,
}

impl Refusal {
    pub fn number(self) -> u8 {
        self as u8
    }

    // The refusal with its place.
    pub fn at(self, place: usize) -> Refused {
        Refused {
            refusal: self,
            place,
        }
    }
}

// A refusal and its place.
#[derive(Clone, Copy, Debug, PartialEq, Eq)]
pub struct Refused {
    pub refusal: Refusal,
    pub place: usize,
}

// A list of actions that was taken whole: where it ends and how many were taken.
#[derive(Clone, Copy, Debug, PartialEq, Eq)]
pub struct Ran {
    pub place: usize,
    pub taken: usize,
}

// A list of actions that stopped at a refusal: "its number, its place and how many were taken".
#[derive(Clone, Copy, Debug, PartialEq, Eq)]
pub struct Stopped {
    pub refusal: Refusal,
    pub place: usize,
    pub taken: usize,
}

// What a call says in numbers, since it is held against the bench's number by number: 0 or the refusal's, the place, and of a list how many were
// taken.
#[derive(Clone, Copy, Debug, PartialEq, Eq)]
pub struct Answer {
    pub number: u8,
    pub place: usize,
    pub taken: usize,
}

impl From<Result<(), Refusal>> for Answer {
    fn from(said: Result<(), Refusal>) -> Answer {
        let number = said.map_or_else(Refusal::number, |()| 0);
        Answer {
            number,
            place: 0,
            taken: 0,
        }
    }
}

impl From<Result<usize, Refused>> for Answer {
    fn from(said: Result<usize, Refused>) -> Answer {
        let (number, place) = match said {
            Ok(place) => (0, place),
            Err(refused) => (refused.refusal.number(), refused.place),
        };
        Answer {
            number,
            place,
            taken: 0,
        }
    }
}

impl From<Result<Ran, Stopped>> for Answer {
    fn from(said: Result<Ran, Stopped>) -> Answer {
        match said {
            Ok(Ran { place, taken }) => Answer {
                number: 0,
                place,
                taken,
            },
            Err(
                Stopped {
                    refusal,
                    place,
                    taken,
                },
            ) => Answer {
                number: refusal.number(),
                place,
                taken,
            },
        }
    }
}
