// Wires and nets over them, whose ends lie with several threads.
ghost use Rattle.std.specs.Prelude.{◌≡◌, ◌<◌, ◌≤◌, length, IfOk, IfSome};
ghost use Rattle.ken_net.specs.Puts.{MayPut};
ghost use Rattle.ken_wire.specs.Ends.{from_of, to_of};
ghost use Rattle.ken_wire.specs.Nets.{AreFrom};

use ken_model::{Message, Octets};
use ken_net::{Act, Handed, LinkAct, Links, Lossy, Net};
use ken_packet::{Packet, decode, encode_mail, reading};
use ken_wire::{SendEnd, TakeEnd, Wire, WireNet, close, hand_out, takers};
use std::alloc::{AllocError, Global};
use std::marker::Brand;
use std::sync::Wait;
use std::sync::atomic::{AtomicU64, Ordering};
use std::thread;
use std::thread::Threads;

const MAILS: u64 = 10;

fn message(alloc: Global, from: u8, to: u8, number: u64) -> Result<Message, AllocError>
    ensures { IfOk result (λ m. (m.from ≡ from) × (m.to ≡ to) × (m.number ≡ number) × (m.stamp ≡ number) × (length m.bytes ≡ 1)) }
{
    Ok(Message {
        from,
        to,
        number,
        stamp: number,
        bytes: Octets::new(Vec::from_slice(alloc, b"1")?),
    })
}

// Puts a packet, with what is handed in for the message.
fn put_of<H: Handed, R: Wait>(rt: &R, end: &mut SendEnd, message: &Message, bytes: Octets) -> bool
    requires { MayPut (from_of end.old) (to_of end.old) H.sealed H.consumed bytes }
{
    let _message = &*message;
    end.put::<H, R>(rt, bytes).is_ok()
}

// Puts a mail with a number above 0 on a wire between nodes, and tells whether it was put.
fn put_mail<R: Wait>(
    rt: &R,
    alloc: Global,
    end: &mut SendEnd,
    number: u64,
) -> Result<bool, AllocError> {
    if end.from() > 7 || end.to() > 7 || number == 0 {
        return Ok(false);
    }
    reading();
    let message = message(alloc, end.from(), end.to(), number)?;
    let bytes = encode_mail(alloc, &message)?;
    Ok(put_of::<Brand, R>(rt, end, &message, bytes))
}

// Puts the mails from number 1 on, tells how many were put, and says that it has ended.
fn put_all<R: Wait>(rt: &R, alloc: Global, mut end: SendEnd, ended: &AtomicU64) -> u64 {
    let mut put = 0;
    for before in 0..MAILS {
        if let Ok(true) = put_mail(rt, alloc, &mut end, before + 1) {
            put += 1;
        }
    }
    ended.fetch_add(1, Ordering::SeqCst);
    put
}

fn put_both<R: Threads + Wait + Sync>(
    rt: &R,
    alloc: Global,
    first: SendEnd,
    second: SendEnd,
    ended: &AtomicU64,
) -> (u64, u64) {
    thread::join(
        rt,
        move || put_all(rt, alloc, first, ended),
        move || put_all(rt, alloc, second, ended),
    )
}

// Whether a packet is the next mail of node 0 or 1, whose last numbers are kept.
fn is_next(alloc: Global, last: &mut [u64; 2], bytes: &Octets) -> bool {
    let Ok(Packet::Mail(message)) = decode(alloc, bytes.as_slice()) else {
        return false;
    };
    let from = usize::from(message.from);
    if from > 1 || message.number != last[from].saturating_add(1) {
        return false;
    }
    last[from] = message.number;
    true
}

// Takes until two senders have ended and the wire is empty, and tells the last number of each sender whose mails came in
// order, or zeros.
fn take_all<R: Wait>(rt: &R, alloc: Global, mut take: TakeEnd, ended: &AtomicU64) -> [u64; 2] {
    let mut last = [0; 2];
    for _ in rt.forever() {
        let both_ended = ended.load(Ordering::SeqCst) == 2;
        match take.take(rt) {
            Some(bytes) => {
                if !is_next(alloc, &mut last, &bytes) {
                    return [0; 2];
                }
            }
            None => {
                if both_ended {
                    return last;
                }
                thread::yield_now();
            }
        }
    }
    unreachable!()
}

// How many mails two threads put into one wire to node 2, and what a third took of each.
fn relayed<R: Threads + Wait + Sync>(
    rt: &R,
    alloc: Global,
) -> Result<((u64, u64), [u64; 2]), AllocError> {
    let mut take = TakeEnd::new(alloc, 2)?;
    let first = take.seat()?;
    let second = take.seat()?;
    let ended = AtomicU64::new(0);
    let (put, taken) = thread::join(
        rt,
        || put_both(rt, alloc, first, second, &ended),
        || take_all(rt, alloc, take, &ended),
    );
    Ok((put, taken))
}

#[test]
fn a_third_thread_takes_what_two_put(rt: HostRuntime) -> Result<(), AllocError> {
    for _ in 0..100 {
        let (put, taken) = relayed(&rt, rt.alloc())?;
        assert_eq!(rt; put, (MAILS, MAILS));
        assert_eq!(rt; taken, [MAILS, MAILS]);
    }
    Ok(())
}

#[test]
fn a_full_wire_gives_back(rt: HostRuntime) -> Result<(), AllocError> {
    let mut take = TakeEnd::new(rt.alloc(), 1)?;
    let mut end = take.seat()?;
    for before in 0..64 {
        assert_eq!(rt; put_mail(&rt, rt.alloc(), &mut end, before + 1)?, true);
    }
    assert_eq!(rt; put_mail(&rt, rt.alloc(), &mut end, 65)?, false);
    assert_eq!(rt; take.take(&rt).is_some(), true);
    assert_eq!(rt; put_mail(&rt, rt.alloc(), &mut end, 65)?, true);
    Ok(())
}

#[test]
fn a_new_wire_is_closed(rt: HostRuntime) -> Result<(), AllocError> {
    let (sends, take) = Wire::pair(rt.alloc(), 1, 3)?;
    assert_eq!(rt; sends.len(), 3);
    close(sends, take);
    Ok(())
}

// Puts a packet on a net, with what is handed in for the message.
fn put_as<N: Net, H: Handed>(
    net: &mut N,
    to: u8,
    message: &Message,
    bytes: Octets,
) -> Result<(), AllocError>
    requires to { to < N.nodes net.old }
    requires may { MayPut (N.node net.old) to H.sealed H.consumed bytes }
    ensures { (N.node net.new ≡ N.node net.old) × (N.nodes net.new ≡ N.nodes net.old) }
{
    let _message = &*message;
    net.put::<H>(to, bytes)
}

// Sends a mail from the net's node.
fn send<N: Net>(alloc: Global, net: &mut N, from: u8, to: u8, number: u64) -> Result<(), AllocError>
    requires from { (N.node net.old ≡ from) × (from < 8) }
    requires to { (to < N.nodes net.old) × (to < 8) }
    requires number { 1 ≤ number }
    ensures { (N.node net.new ≡ N.node net.old) × (N.nodes net.new ≡ N.nodes net.old) }
{
    reading();
    let message = message(alloc, from, to, number)?;
    let bytes = encode_mail(alloc, &message)?;
    put_as::<N, Brand>(net, to, &message, bytes)
}

// The number of the mail that a net gives, or 0.
fn next_number<N: Net>(alloc: Global, net: &mut N) -> u64 {
    let Some(bytes) = net.take() else {
        return 0;
    };
    match decode(alloc, bytes.as_slice()) {
        Ok(Packet::Mail(message)) => message.number,
        _ => 0,
    }
}

// A node's net, where the taking end is one of a wire to it.
fn net_of<'a, R: Wait>(
    rt: &'a R,
    node: u8,
    take: Option<TakeEnd>,
    sends: Vec<SendEnd>,
) -> Option<WireNet<'a, R>>
    requires own { AreFrom node sends.items }
    requires two { length sends.items ≡ 2 }
    ensures { IfSome result (λ n. (n.node ≡ node) × (length n.sends.items ≡ 2)) }
{
    let take = take?;
    if take.to() != node {
        return None;
    }
    Some(WireNet::new(rt, node, take, sends))
}

// The numbers of the mails that a net gives in three takes.
fn three_takes<N: Net>(alloc: Global, mut net: N) -> [u64; 3]
where
    N: Drop,
{
    let first = next_number(alloc, &mut net);
    let second = next_number(alloc, &mut net);
    [first, second, next_number(alloc, &mut net)]
}

// Node 0 sends mails 1 to 3 to node 1, and the first is lost: what node 1 then takes in another thread.
fn taken_of_three<R: Threads + Wait + Sync>(
    rt: &R,
    alloc: Global,
) -> Result<Option<[u64; 3]>, AllocError> {
    let mut takes = takers(alloc, 2)?;
    let first = hand_out(alloc, 0, takes.as_mut_slice())?;
    let second = hand_out(alloc, 1, takes.as_mut_slice())?;
    let one = takes.pop();
    let zero = takes.pop();
    let (Some(base), Some(receiver)) = (net_of(rt, 0, zero, first), net_of(rt, 1, one, second))
    else {
        return Ok(None);
    };
    let acts = [LinkAct {
        from: 0,
        to: 1,
        n: 1,
        act: Act::Lose,
    }];
    let mut sender = Lossy::over(Links::new(alloc, 0, 2, &acts)?, base);
    send(alloc, &mut sender, 0, 1, 1)?;
    send(alloc, &mut sender, 0, 1, 2)?;
    send(alloc, &mut sender, 0, 1, 3)?;
    let (taken, ()) = thread::join(rt, move || three_takes(alloc, receiver), || ());
    Ok(Some(taken))
}

#[test]
fn nets_put_and_take_over_wires(rt: HostRuntime) -> Result<(), AllocError> {
    assert_eq!(rt; taken_of_three(&rt, rt.alloc())?, Some([2, 3, 0]));
    Ok(())
}
