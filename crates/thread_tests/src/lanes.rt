//! Parcels through lanes, on one thread and on two.
ghost use Rattle.std.specs.Prelude.{◌≡◌};
ghost use Rattle.log_rings.specs.Lanes.{SameSender, SameReceiver};

use base_words::Memory;
use host_log::LogBuffer;
use log_rings::{Lane, Parcel, Receiver, Sender, Settled};
use std::alloc::Global;
use std::test::Fail;
use std::thread::join_mut;

// A parcel whose buffer has the one byte of a next epoch.
fn parcel(alloc: Global, number: u64, last: bool) -> Result<Parcel, Memory> {
    Ok(Parcel {
        number,
        buffer: LogBuffer::of(alloc, b"\x08")?,
        last,
    })
}

// What a parcel is told by: its number, how many bytes it has, and its mark.
fn told(parcel: Option<Parcel>) -> Option<(u64, usize, bool)> {
    let parcel = parcel?;
    Some((parcel.number, parcel.buffer.bytes().len(), parcel.last))
}

#[test]
fn what_finds_no_slot_is_handed_back(rt: HostRuntime) -> Result<(), Fail> {
    let (mut sender, mut receiver) = Lane::new(rt.alloc(), 2)?;
    assert_eq!(rt; told(sender.offer(parcel(rt.alloc(), 0, false)?)), None);
    assert_eq!(rt; told(sender.offer(parcel(rt.alloc(), 1, false)?)), None);
    let third = sender
        .offer(parcel(rt.alloc(), 2, true)?)
        .ok_or("the third was taken")?;
    assert_eq!(rt; told(receiver.poll()), Some((0, 1, false)));
    assert_eq!(rt; told(receiver.poll()), Some((1, 1, false)));
    assert_eq!(rt; told(receiver.poll()), None);
    assert_eq!(rt; told(sender.offer(third)), None);
    let settled = Lane::settle(&mut sender, &mut receiver);
    assert_eq!(rt;
        settled,
        Settled {
            received: 2,
            left: 1
        }
    );
    assert_eq!(rt; told(Some(receiver.next())), Some((2, 1, true)));
    assert_eq!(rt; told(receiver.poll()), None);
    Ok(())
}

#[test]
fn room_comes_back_once_a_parcel_is_received(rt: HostRuntime) -> Result<(), Fail> {
    let (mut sender, mut receiver) = Lane::new(rt.alloc(), 1)?;
    assert_eq!(rt; sender.room(), 1);
    sender.send(parcel(rt.alloc(), 7, true)?);
    assert_eq!(rt; sender.room(), 0);
    assert_eq!(rt; told(receiver.poll()), Some((7, 1, true)));
    assert_eq!(rt; sender.room(), 1);
    Ok(())
}

// Offers so many parcels, and keeps what the lane doesn't take, and all behind it.
fn work(alloc: Global, sender: &mut Sender, count: u64) -> Result<Vec<Parcel>, Memory>
    ensures lane { SameSender sender.old sender.new }
{
    let mut backlog = Vec::new(alloc);
    for number in 0..count {
        let parcel = parcel(alloc, number, number == count - 1)?;
        if !backlog.is_empty() {
            backlog.push(parcel)?;
        } else if let Some(back) = sender.offer(parcel) {
            backlog.push(back)?;
        }
    }
    Ok(backlog)
}

// The numbers of the parcels that come, up to the last of the round or so many polls.
fn watch(alloc: Global, receiver: &mut Receiver, polls: u32) -> Result<Vec<u64>, Memory>
    ensures lane { SameReceiver receiver.old receiver.new }
{
    let mut numbers = Vec::new(alloc);
    for _ in 0..polls {
        if let Some(parcel) = receiver.poll() {
            numbers.push(parcel.number)?;
            if parcel.last {
                return Ok(numbers);
            }
        }
    }
    Ok(numbers)
}

#[test]
fn a_round_loses_nothing_and_keeps_the_order(rt: HostRuntime) -> Result<(), Fail> {
    let alloc = rt.alloc();
    for polls in [0, 1, 50, 100_000] {
        let (mut sender, mut receiver) = Lane::new(alloc, 16)?;
        let (backlog, numbers) = join_mut(
            &rt,
            &mut || work(alloc, &mut sender, 200),
            &mut || watch(alloc, &mut receiver, polls),
        );
        let (backlog, mut numbers) = (backlog?, numbers?);
        let settled = Lane::settle(&mut sender, &mut receiver);
        assert_eq!(rt; usize::try_from(settled.received)?, numbers.len());
        for _ in 0..settled.left {
            let parcel = receiver.poll().ok_or("nothing is left over")?;
            numbers.push(parcel.number)?;
        }
        for parcel in &backlog {
            numbers.push(parcel.number)?;
        }
        assert_eq!(rt; numbers.len(), 200);
        for (place, number) in numbers.iter().enumerate() {
            assert_eq!(rt; usize::try_from(*number)?, place);
        }
    }
    Ok(())
}
