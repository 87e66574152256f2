// Messages in a lent list: one number each.
ghost use Rattle.std.specs.Prelude.{◌≡◌, map, ◌+◌, ◌≤◌, ◌<◌, length};
ghost use Rattle.std.proofs.lemmas.List.Edits.{sets};
ghost use Rattle.nodes.specs.Sets.{Inside, below, size};
ghost use Rattle.nodes.specs.Words.{num, places};
ghost use Rattle.records.specs.declared.messages.Kind.{Kind};
ghost use Rattle.records.specs.Rounds.{last_round};
ghost use Rattle.step.specs.Letters.{letters, letters_of, how_many};
ghost use Rattle.step.specs.Sent.{to_whom};
ghost use Rattle.step.specs.Views.{receivers_of};
ghost use Rattle.lent.specs.Coded.{message_of, number_of, base_of};

use nodes::{Node, Round, Set};
use records::{Kind, Message};
use step::Sends;

// The message that a number stands for.
#[tactic(auto, unfolding(crate::specs::Coded::message_of))]
pub fn message_of(x: u64) -> Message
    ensures { result ≡ message_of x }
{
    Message {
        kind: x / 65_536 % 256,
        from: Node((x / 256 % 256) as usize),
        to: Node((x % 256) as usize),
        round: Round(x / 16_777_216),
    }
}

// How many messages a step sends. The bound spares callers the width of a set.
pub fn total(sends: Sends) -> usize
    ensures { (result ≡ how_many (receivers_of sends)) × (result ≤ 256) }
{
    let count = sends.notify.size() + sends.grant.size() + sends.ack.size() + sends.done.size();
    count as usize
}

// The number of a message to node 0: one to node k is k more.
fn base(kind: Kind, from: Node, round: Round) -> u64
    requires { (from.0 < places) × (round.0 ≤ last_round) }
    ensures { (result ≡ base_of kind from.0 round.0) × (result ≤ 1099511627776) }
{
    round.0 * 16_777_216 + kind as u64 * 65_536 + from.0 as u64 * 256
}

// Writes a message of one kind to each node of a set, by ascending receiver, from a place on.
fn send_kind(
    messages: &mut [u64],
    at: usize,
    kind: Kind,
    from: Node,
    round: Round,
    to: Set,
) -> usize
    requires { (at + size (num to) ≤ length messages.old) × Inside (num to) (below places) × (from.0 < places) × (round.0 ≤ last_round) }
    ensures { (result ≡ at + size (num to)) × (messages.new ≡ sets messages.old at (map number_of (letters kind from.0 round.0 (num to)))) }
{
    let first = base(kind, from, round);
    let mut place = at;
    for k in to.members() {
        messages[place] = first + k.0 as u64;
        place += 1;
    }
    place
}

// Writes the messages of a step, in their order.
pub fn send(messages: &mut [u64], at: usize, from: Node, round: Round, sends: Sends) -> usize
    requires { (at + how_many (receivers_of sends) ≤ length messages.old) × ((k : Kind) → Inside (to_whom (receivers_of sends) k) (below places)) × (from.0 < places) × (round.0 ≤ last_round) }
    ensures { (result ≡ at + how_many (receivers_of sends)) × (messages.new ≡ sets messages.old at (map number_of (letters_of from.0 round.0 (receivers_of sends)))) }
{
    let second = send_kind(messages, at, Kind::Notify, from, round, sends.notify);
    let third = send_kind(messages, second, Kind::Grant, from, round, sends.grant);
    let fourth = send_kind(messages, third, Kind::Ack, from, round, sends.ack);
    send_kind(messages, fourth, Kind::Done, from, round, sends.done)
}
