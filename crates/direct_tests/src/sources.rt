use blocks::block::FrameBlock;
use blocks::number::FrameNumber;
use frames::boot_list::BootList;
use frames::buddy::Buddy;
use frames::laws::{count_by_taking, take_pair};
use frames::quota::Quota;
use frames::refusal::{BadSource, GiveError, TakeError};
use frames::source::FrameSource;
use std::alloc::Global;
use std::process::Abort;
use std::test::Fail;

// A call and what it answers: a take its first frame.
#[derive(Clone, Copy, PartialEq, Eq, Debug)]
enum Step {
    Take(u8, Result<u16, TakeError>),
    Give(u16, u8, Result<(), GiveError>),
    Available(u16),
    // Taken one by one and given back.
    Count(u16),
    // Taken together, the first frame of each.
    Pair(u8, u8, Result<(u16, u16), TakeError>),
}

use Step::{Available, Count, Give, Pair, Take};

const NONE: Result<u16, TakeError> = Err(TakeError::NoBlock { depth: 0 });

const DEEP: Result<u16, TakeError> = Err(TakeError::NoBlock { depth: 1 });

const DEEPER: Result<u16, TakeError> = Err(TakeError::NoBlock { depth: 2 });

const BAD_ORDER: Result<u16, TakeError> = Err(TakeError::BadOrder);

const PAST_END: Result<(), GiveError> = Err(GiveError::PastEnd);

const FREE: Result<(), GiveError> = Err(GiveError::AlreadyFree);

fn first_taken<S: FrameSource>(source: &mut S, order: u8) -> Result<u16, TakeError> {
    Ok(source.take(order)?.first().0)
}

fn pair_taken<S: FrameSource>(source: &mut S, one: u8, other: u8) -> Result<(u16, u16), TakeError> {
    let (first, second) = take_pair(source, one, other)?;
    Ok((first.first().0, second.first().0))
}

fn play<S: FrameSource>(rt: &impl Abort, source: &mut S, step: &Step) -> Result<(), Fail> {
    match step {
        Take(order, says) => {
            assert_eq!(rt; first_taken(source, *order), *says);
            Ok(())
        },
        Give(first, order, says) => {
            let block = FrameBlock::new(FrameNumber(*first), *order)?;
            assert_eq!(rt; source.give(block), *says);
            Ok(())
        }
        Available(says) => {
            assert_eq!(rt; source.available(), *says);
            Ok(())
        },
        Count(says) => {
            assert_eq!(rt; count_by_taking(source), *says);
            Ok(())
        },
        Pair(one, other, says) => {
            assert_eq!(rt; pair_taken(source, *one, *other), *says);
            Ok(())
        },
    }
}

fn run<S: FrameSource>(rt: &impl Abort, source: &mut S, steps: &[Step]) -> Result<(), Fail> {
    for step in steps {
        play(rt, source, step)?;
    }
    Ok(())
}

pub(crate) fn buddy(frames: u16) -> Result<Buddy, BadSource> {
    Ok(Buddy::make(Buddy::check(frames)?))
}

#[test]
fn buddies(rt: HostRuntime) -> Result<(), Fail> {
    let sixteen = [
        Count(16),
        Pair(4, 0, Err(TakeError::NoBlock { depth: 0 })),
        Pair(3, 0, Ok((0, 8))),
        Count(7),
        Take(10, BAD_ORDER),
        Give(8, 3, FREE),
        Give(16, 4, PAST_END),
        Give(0, 3, Ok(())),
        Give(8, 0, Ok(())),
        Take(4, Ok(0)),
        Take(0, NONE),
        Take(10, BAD_ORDER),
    ];
    run(&rt, &mut buddy(16)?, &sixteen)?;
    let five = [
        Take(2, Ok(0)),
        Take(2, NONE),
        Take(0, Ok(4)),
        Take(0, NONE),
        Give(0, 1, Ok(())),
        Give(4, 0, Ok(())),
        Take(0, Ok(4)),
    ];
    run(&rt, &mut buddy(5)?, &five)
}

// A boot list of the places given, or none where it is refused.
fn boot_list(
    rt: &impl Abort,
    heap: Global,
    frames: u16,
    places: &[u16],
    filled: u16,
) -> Result<Option<BootList>, Fail> {
    match BootList::check(frames, places.to_vec(heap)?, filled) {
        Ok(accepted) => Ok(Some(BootList::make(accepted))),
        Err(refused) => {
            assert_eq!(rt; refused.given.as_slice(), places);
            Ok(None)
        }
    }
}

#[test]
fn boot_lists(rt: HostRuntime) -> Result<(), Fail> {
    let mut list = boot_list(&rt, rt.alloc(), 4, &[2, 0, 3, 1], 3)?.ok_or("four places")?;
    let steps = [
        Take(0, Ok(3)),
        Take(0, Ok(0)),
        Take(1, NONE),
        Take(10, BAD_ORDER),
        Give(2, 1, FREE),
        Give(4, 1, PAST_END),
        Give(0, 1, Ok(())),
        Available(3),
        Take(0, Ok(1)),
        Give(1, 0, Ok(())),
        Count(3),
    ];
    run(&rt, &mut list, &steps)?;
    let (places, filled) = list.into_parts();
    // What was counted came back in rising order; place 3 was never written.
    assert_eq!(rt; places.as_slice(), [0, 1, 2, 1].as_slice());
    assert_eq!(rt; filled, 3);
    Ok(())
}

fn quota<S: FrameSource + Drop>(limit: u16, below: S) -> Result<Quota<S>, Fail> {
    let accepted = Quota::check(limit, below).map_err(|_| Fail::new("refused"))?;
    Ok(Quota::make(accepted))
}

#[test]
fn quotas(rt: HostRuntime) -> Result<(), Fail> {
    let over_buddy = [
        Available(9),
        Take(10, BAD_ORDER),
        Take(3, Ok(0)),
        Take(3, NONE),
        Take(0, Ok(8)),
        Take(0, NONE),
        Give(9, 0, FREE),
        Give(0, 3, Ok(())),
        Available(8),
    ];
    run(&rt, &mut quota(9, buddy(16)?)?, &over_buddy)?;
    let list = boot_list(&rt, rt.alloc(), 2, &[1, 0], 2)?.ok_or("two places")?;
    let over_quota = [
        Available(1),
        Take(1, DEEP),
        Take(0, Ok(0)),
        Take(0, DEEP),
        Give(0, 0, Ok(())),
        Count(1),
    ];
    run(&rt, &mut quota(3, quota(1, list)?)?, &over_quota)?;
    let empty = boot_list(&rt, rt.alloc(), 1, &[0], 0)?.ok_or("one place")?;
    run(
        &rt,
        &mut quota(2, quota(2, empty)?)?,
        &[Take(1, DEEPER), Take(0, DEEPER)],
    )
}

#[test]
fn makings(rt: HostRuntime) -> Result<(), Fail> {
    for (frames, places, filled, made) in [
        (0, 0, 0, false),
        (1, 1, 1, true),
        (2048, 2048, 1, true),
        (2049, 2049, 1, false),
        (4, 3, 1, false),
        (4, 5, 1, false),
        (4, 4, 5, false),
        (4, 4, 2, false),
    ] {
        let zeros = vec![in rt.alloc(); 0u16; places]?;
        assert_eq!(rt; BootList::check(frames, zeros, filled).is_ok(), made);
    }
    assert!(rt; boot_list(&rt, rt.alloc(), 2, &[1, 2], 1)?.is_some());
    assert!(rt; boot_list(&rt, rt.alloc(), 2, &[1, 2], 2)?.is_none());
    for (frames, made) in [(0, false), (1, true), (2048, true), (2049, false)] {
        assert_eq!(rt; Buddy::check(frames).is_ok(), made);
    }
    for (limit, made) in [(0, true), (2048, true), (2049, false)] {
        assert_eq!(rt; Quota::check(limit, buddy(1)?).is_ok(), made);
    }
    assert_eq!(rt; BadSource.number(), 14);
    Ok(())
}
