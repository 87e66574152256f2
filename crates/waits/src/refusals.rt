// What a refusal says: a line of the paper's table, and the row that it is about.
ghost use Rattle.std.specs.Prelude.{◌≡◌, [], ◌∷◌, Err};
ghost use Rattle.waits.specs.Numbers.{line, first_said, reason_number};

use nodes::Node;

// The lines of the table, each with its number there. Those of the crates above stand here too, so that the table is in one place.
#[derive(Clone, Copy, Debug, PartialEq, Eq)]
pub enum Reason {
    WrongCount = 1,
    StrangeKind = 2,
    StrangeMember = 3,
    WaitsOnItself = 4,
    WrongThreshold = 5,
    ExtraSet = 6,
    BadSets = 7,
    ManyEdges = 8,
    NoNode = 9,
    CannotOpen = 10,
    NoStep = 11,
    FullRoom = 12,
    StrangeState = 13,
    StrangeEntry = 14,
    ShortRoom = 15,
    NotAscending = 18,
}

impl Reason {
    // The number in the table, by which it is known outside.
    pub fn number(self) -> u64
        ensures { result ≡ reason_number self }
    {
        self as u64
    }
}

// A refusal, and its row: 0 for a reason that is not of a row.
#[derive(Clone, Copy, Debug, PartialEq, Eq)]
pub struct Refusal {
    pub reason: Reason,
    pub row: Node,
}

pub fn refused(reason: Reason, row: Node) -> Result<(), Refusal>
    ensures { result ≡ Err (record { reason = reason; row = row }) }
{
    Err(Refusal { reason, row })
}

// A line of the table: its refusal, if it says so.
pub fn refused_if(says: bool, reason: Reason, row: Node) -> Result<(), Refusal>
    ensures { result ≡ first_said (line reason row.0 says ∷ []) }
{
    if says {
        return refused(reason, row);
    }
    Ok(())
}
