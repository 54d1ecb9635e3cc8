// The same items through the ring that `ken_links` stands on.
use crate::rings::ROUND;
use rtrb::{Consumer, Producer, RingBuffer};
use std::alloc::{AllocError, Global};

const SLOTS: usize = 64;

// Pushes so many numbers, and moves them to a list.
fn round(
    producer: &mut Producer<u64>,
    consumer: &mut Consumer<u64>,
    list: &mut Vec<u64>,
    first: u64,
    count: u64,
) -> Result<(), AllocError> {
    for place in 0..count {
        let _ = producer.push(first.wrapping_add(place));
    }
    for _ in 0..count {
        if let Ok(item) = consumer.pop() {
            list.push(item)?;
        }
    }
    Ok(())
}

/// Sends so many items through a bare ring, in rounds of 48, and says how many came out.
pub(crate) fn through_bare_ring(alloc: Global, items: u64) -> Result<u64, AllocError> {
    let (mut producer, mut consumer) = RingBuffer::new(alloc, SLOTS)?;
    let mut list = Vec::with_capacity(alloc, SLOTS)?;
    let mut moved: u64 = 0;
    for place in 0..items.div_ceil(ROUND) {
        let first = place * ROUND;
        list.clear();
        round(
            &mut producer,
            &mut consumer,
            &mut list,
            first,
            ROUND.min(items - first),
        )?;
        moved = moved.saturating_add(list.len() as u64);
    }
    Ok(moved)
}
