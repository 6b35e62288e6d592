// The links of blocks beside the delays of all their pairs: the one says as much as the other.
use super::blocks::good_block;
use super::delays::{DELAYED, Delayed, LATENT};
use super::descriptions::{LONG, Numbers, SHORT, T1, T2, T3, described};
use block_links::Link;
use latency_deps::{GoodBlock, delays};
use machine_desc::{Generation, Mdes};
use operation::lat_kind;
use serial_order::Delays;
use std::alloc::Global;

/// The descriptions under which they are compared.
const UNDER: [Numbers; 5] = [T1, T2, T3, LONG, SHORT];

/// The latency of an operation, if there is one of this number.
fn latency<G: Generation>(block: &GoodBlock, g: &G, i: u16) -> Option<u8> {
    if i < block.count() {
        Some(g.latency(lat_kind(&block.op(i).op)))
    } else {
        None
    }
}

/// The delay of a link of operation i.
fn link_delay<G: Generation>(block: &GoodBlock, g: &G, i: u16, link: &Link) -> Option<i16> {
    Some(link.delay(latency(block, g, i)?, latency(block, g, link.to)?))
}

/// The greater of two sums, if there are any.
fn greater(a: Option<i16>, b: Option<i16>) -> Option<i16> {
    match (a, b) {
        (Some(x), Some(y)) => Some(x.max(y)),
        (Some(x), None) => Some(x),
        (None, b) => b,
    }
}

/// The greatest sum of delays along the links from operation i to j, where `best` has those from others.
fn sum_from<G: Generation>(
    block: &GoodBlock,
    g: &G,
    best: &[Option<i16>],
    i: u16,
    j: u16,
) -> Option<i16> {
    if i >= block.count() {
        return None;
    }
    let mut sum = None;
    for link in block.links().of(i) {
        let rest = if link.to == j {
            Some(0)
        } else {
            best.get(link.to as usize).copied()?
        };
        let delay = link_delay(block, g, i, link)?;
        sum = greater(sum, rest.map(|r: i16| r.saturating_add(delay)));
    }
    sum
}

/// The greatest sums of delays along links to operation j, from each operation. No way has more links than there are
/// operations.
fn sums_to<G: Generation>(
    alloc: Global,
    block: &GoodBlock,
    g: &G,
    j: u16,
) -> Option<Vec<Option<i16>>> {
    let n = block.count();
    let mut best = vec![in alloc; None; n as usize].ok()?;
    for _ in 0..n {
        for i in 0..n {
            let sum = sum_from(block, g, &best, i, j);
            if let Some(place) = best.get_mut(i as usize) {
                *place = sum;
            }
        }
    }
    Some(best)
}

fn sum_at(sums: &[Option<i16>], i: u16) -> Option<i16> {
    sums.get(i as usize).copied()?
}

/// The delay of one operation before another, if it is.
fn delay_of(d: &Delays, i: u16, j: u16) -> Option<i16> {
    if i < d.count() && j < d.count() {
        d.get(i, j).map(|delay: i8| i16::from(delay))
    } else {
        None
    }
}

/// Whether each link of operation i is a pair of the table, with at most its delay.
fn are_pairs<G: Generation>(block: &GoodBlock, g: &G, d: &Delays, i: u16) -> bool {
    i < block.count()
        && block.links().of(i).iter().all(|link| {
            match (link_delay(block, g, i, link), delay_of(d, i, link.to)) {
                (Some(along), Some(delay)) => along <= delay,
                _ => false,
            }
        })
}

/// Whether for each pair of the table with operation j behind some way along links adds up to at least the delay.
fn are_reached<G: Generation>(alloc: Global, block: &GoodBlock, g: &G, d: &Delays, j: u16) -> bool {
    let Some(sums) = sums_to(alloc, block, g, j) else {
        return false;
    };
    (0..block.count()).all(|i| {
        match (delay_of(d, i, j), sum_at(&sums, i)) {
            (None, _) => true,
            (Some(delay), Some(sum)) => delay <= sum,
            (Some(_), None) => false,
        }
    })
}

/// Whether the links of a block say as much as the delays of all its pairs.
fn say_as_much(alloc: Global, block: &GoodBlock, g: &Mdes) -> bool {
    let Ok(d) = delays(alloc, block, g) else {
        return false;
    };
    (0..block.count()).all(|i| are_pairs(block, g, &d, i) && are_reached(alloc, block, g, &d, i))
}

/// Whether they do, for the block of a case and under each description.
fn say_as_much_under_all(alloc: Global, case: &Delayed) -> bool {
    let Some(block) = good_block(alloc, &case.0, case.1) else {
        return false;
    };
    UNDER.iter().all(|numbers| match described(numbers) {
        Some(g) => say_as_much(alloc, &block, &g),
        None => false,
    })
}

#[test]
fn links_say_as_much_as_all_pairs(rt: HostRuntime) {
    for (row, case) in DELAYED.iter().enumerate() {
        assert!(rt; say_as_much_under_all(rt.alloc(), case), "row {row}");
    }
    for (row, case) in LATENT.iter().enumerate() {
        assert!(rt; say_as_much_under_all(rt.alloc(), case), "row {row}");
    }
}
