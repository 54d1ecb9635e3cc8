// Which base a recovery doesn't refuse.
ghost use Rattle.std.specs.Prelude.{◌≡◌, ◌==◌, ◌&&◌, ◌≤◌, nat_le, sum, IsTrue};
ghost use Rattle.std.specs.List.{list_all};
ghost use Rattle.ken_store.specs.Numbers.{outs_follow, outputs_after};
ghost use Rattle.ken_store.specs.Bases.{are_unused, messages_follow, last_after, reach, messages_stand, outs_stand, counts_stand, is_short_due, is_short_out, texts_stand, base_stands, goes_on};

use crate::numbers::{NODES, are_within, is_next, take_outs};
use crate::owner::Owner;
use ken_model::{MAX_TEXT, Out};
use ken_record::{Base, Due, Header};

// The most messages, and the most outputs, of a turn.
const PER_TURN: u128 = 16;

// Whether a base may stand behind its header.
pub(crate) fn base_stands(owner: &Owner, header: &Header, base: &Base) -> bool
    requires { owner.now.nodes ≤ 8 }
    ensures { result ≡ base_stands owner.now header.now base.now }
{
    counts_stand(owner, header, base)
        && are_within(owner.pages, base.pages.as_slice())
        && messages_stand(owner.nodes, base)
        && outs_stand(base.outputs, base.outs.as_slice())
        && texts_stand(base)
}

fn counts_stand(owner: &Owner, header: &Header, base: &Base) -> bool
    requires { owner.now.nodes ≤ 8 }
    ensures { result ≡ counts_stand owner.now header.now base.now }
{
    let most = PER_TURN * u128::from(header.turns);
    are_unused(owner.nodes, base.consumed.as_slice())
        && are_unused(owner.nodes, base.sent.as_slice())
        && u128::from(base.outputs) <= most
        && sum_is_within(base.sent.as_slice(), most)
}

// Whether the entries of nodes that aren't of the run are 0.
fn are_unused(nodes: u8, counts: &[u64]) -> bool
    requires { nodes ≤ 8 }
    ensures { result ≡ are_unused nodes counts.now }
{
    let nodes = nodes as usize;
    counts
        .iter()
        .skip(nodes)
        .take(NODES - nodes)
        .all(|count| *count == 0)
}

// Whether the counts are together at most so many.
fn sum_is_within(counts: &[u64], most: u128) -> bool
    ensures { result ≡ nat_le (sum counts.now) most }
{
    let mut left = most;
    for count in counts {
        let count = u128::from(*count);
        if left < count {
            return false;
        }
        left -= count;
    }
    true
}

fn messages_stand(nodes: u8, base: &Base) -> bool
    requires { nodes ≤ 8 }
    ensures { result ≡ messages_stand nodes base.now }
{
    let mut last = [0; NODES];
    take_messages(&mut last, nodes, base.stamp, base.messages.as_slice())
        && reach(&last, base.sent.as_slice())
}

// Whether the messages go on with the numbers of their links; then these are the last ones.
fn take_messages(last: &mut [u64; NODES], nodes: u8, stamp: u64, messages: &[Due]) -> bool
    requires { nodes ≤ 8 }
    ensures follow { result ≡ messages_follow nodes stamp last.old messages.now }
    ensures taken { IsTrue result → last.new ≡ last_after last.old messages.now }
{
    for message in messages {
        if message.to >= nodes {
            return false;
        }
        let to = message.to as usize;
        if message.stamp == 0 || message.stamp > stamp || !goes_on(last[to], message.number) {
            return false;
        }
        last[to] = message.number;
    }
    true
}

// Whether a number comes after another, or is a first one.
fn goes_on(last: u64, number: u64) -> bool
    ensures { result ≡ goes_on last number }
{
    number > 0 && (last == 0 || is_next(last, number))
}

// Whether the last messages are the last that were sent.
fn reach(last: &[u64], sent: &[u64]) -> bool
    ensures { result ≡ reach last.now sent.now }
{
    last.iter()
        .zip(sent)
        .all(|(last, sent)| *last == 0 || last == sent)
}

// Whether outputs go up by one to the last.
fn outs_stand(outputs: u64, outs: &[Out]) -> bool
    ensures { result ≡ outs_stand outputs outs.now }
{
    match outs {
        [] => true,
        [first, rest @ ..] => first.number > 0 && reach_output(first.number, outputs, rest),
    }
}

// Whether outputs go on from one up to another.
fn reach_output(first: u64, last: u64, outs: &[Out]) -> bool
    ensures { result ≡ (outs_follow first outs.now && (outputs_after first outs.now == last)) }
{
    let mut reached = first;
    take_outs(&mut reached, outs) && reached == last
}

// Whether no message and no output has more than 512 bytes.
fn texts_stand(base: &Base) -> bool
    ensures { result ≡ texts_stand base.now }
{
    messages_are_short(base.messages.as_slice()) && outs_are_short(base.outs.as_slice())
}

fn messages_are_short(messages: &[Due]) -> bool
    ensures { result ≡ list_all is_short_due messages.now }
{
    messages
        .iter()
        .all(|message| message.bytes.len() <= MAX_TEXT)
}

fn outs_are_short(outs: &[Out]) -> bool
    ensures { result ≡ list_all is_short_out outs.now }
{
    outs.iter().all(|out| out.text.len() <= MAX_TEXT)
}
