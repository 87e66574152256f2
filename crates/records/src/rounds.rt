// Rounds: which there are, and the one place where two of them are compared.
ghost use Rattle.std.specs.Prelude.{◌≡◌};
ghost use Rattle.records.specs.Rounds.{compare_of, no_round, cannot_open};
ghost use Rattle.records.specs.Rounds.{behind as behind_of, ahead as ahead_of};

use nodes::Round;
use std::cmp::Ordering;

// The last round.
pub const LAST: u64 = 65_535;

// How a round stands to a record's: less is behind it, greater ahead of it.
#[tactic(auto, unfolding(crate::specs::Rounds::compare_of))]
fn compare(round: Round, own: Round) -> Ordering
    ensures { result ≡ compare_of round.0 own.0 }
{
    round.cmp(&own)
}

#[tactic(auto, unfolding(crate::specs::Rounds::behind))]
pub fn behind(round: Round, own: Round) -> bool
    ensures { result ≡ behind_of round.0 own.0 }
{
    compare(round, own).is_lt()
}

#[tactic(auto, unfolding(crate::specs::Rounds::ahead))]
pub fn ahead(round: Round, own: Round) -> bool
    ensures { result ≡ ahead_of round.0 own.0 }
{
    compare(round, own).is_gt()
}

// Whether no round that can be opened has this number.
#[tactic(auto, unfolding(crate::specs::Rounds::no_round))]
pub fn no_round(round: Round) -> bool
    ensures { result ≡ no_round round.0 }
{
    round.0 == 0 || LAST < round.0
}

// Number 10: no such round, or not above the highest so far.
#[tactic(auto, unfolding(crate::specs::Rounds::cannot_open))]
pub fn cannot_open(own: Round, round: Round) -> bool
    ensures { result ≡ cannot_open own.0 round.0 }
{
    no_round(round) || !ahead(round, own)
}
