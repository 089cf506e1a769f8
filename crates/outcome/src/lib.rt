// How a call answers (specs/): what it refuses for, and for C its number back and its second number, in one.
#![tactic(auto)]

ghost use Rattle.std.specs.Prelude.{◌≡◌, ◌^◌, ◌/◌, ◌%◌};
ghost use Rattle.outcome.specs.Reply.{Replies};
ghost use Rattle.outcome.specs.Result.{number_of, Gives, Ends};

// Why a call refuses: the conditions of document 01 and of the requests, by their numbers.
#[derive(Clone, Copy, Debug, PartialEq, Eq)]
pub enum Refusal {
    WrongSize = 1,
    SlotUnsound = 2,
    RecordsClash = 3,
    LinksAstray = 4,
    StateUnsound = 5,
    WrongList = 6,
    PageInFlight = 7,
    VersionsExhausted = 8,
    PageNotInFlight = 9,
    PageWritten = 10,
    SlotNotBlank = 11,
    MayNotErase = 12,
    NothingToErase = 13,
    NoCommittedRecord = 14,
    TooFewBlank = 15,
    WouldBury = 16,
    WrongBlocks = 17,
    NothingToLookAt = 18,
    TooManyDoubtful = 19,
    NoFillingRecovers = 20,
}

impl Refusal {
    // Its number in C.
    pub fn number(self) -> u32
        ensures { result ≡ number_of self }
    {
        self as u32
    }
}

// "… for C in the upper 32 bits of one 64-bit number": the answer in the lower 32 bits, the second number in the upper.
pub fn reply(answer: u32, second: u32) -> u64
    ensures { Replies result answer second }
{
    ((second as u64) << 32) | (answer as u64)
}

// The answer in a call's number.
pub fn answer_of(r: u64) -> u32
    ensures { result ≡ r % 2 ^ 32 }
{
    (r % 4294967296) as u32
}

// The second number in a call's number.
pub fn second_of(r: u64) -> u32
    ensures { result ≡ r / 2 ^ 32 }
{
    (r / 4294967296) as u32
}

// What a call gives back, for C: its second number with answer 0, or the refusal's number with `refused_second`.
pub fn reply_of(given: Result<u32, Refusal>, refused_second: u32) -> u64
    ensures { Gives result refused_second given }
{
    match given {
        Ok(second) => reply(0, second),
        Err(refusal) => reply(refusal.number(), refused_second),
    }
}

// The same of a call without a second number, which is then 0.
pub fn reply_done(given: Result<(), Refusal>) -> u64
    ensures { Ends result given }
{
    reply_of(given.map(|()| 0), 0)
}
