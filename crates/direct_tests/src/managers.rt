use crate::boards::alpha;
use crate::sources::buddy;
use blocks::number::{ObjectPage, PageNumber};
use frames::boot_list::BootList;
use frames::buddy::Buddy;
use manager::refusal::Refusal;
use manager::state::Manager;
use mapping::alpha::Alpha;
use mapping::board::Board;
use mapping::hardware::MappingHardware;
use std::alloc::Global;
use std::test::Fail;

// The number of a refusal, 0 where there is none: the cases have the numbers as the rules give them.
fn number_of<T: Drop>(res: Result<T, Refusal>) -> u8 {
    match res {
        Ok(_) => 0,
        Err(refusal) => refusal.number(),
    }
}

// The number by which a start over a buddy of 4 frames is refused, 0 where it is not, as its cases have it.
fn start_number(heap: Global, words_a_page: u16, memory: usize) -> Result<u8, Fail> {
    let memory = vec![in heap; 0u32; memory]?;
    match Manager::check(buddy(4)?, alpha(heap)?, words_a_page, memory.as_slice()) {
        Ok(_) => Ok(0),
        Err(refused) => Ok(refused.refusal.number()),
    }
}

#[test]
fn start_refuses(rt: HostRuntime) -> Result<(), Fail> {
    let cases = [
        (0, 0, 1),
        (3, 12, 1),
        (4096, 16384, 1),
        (1, 4, 0),
        (1, 3, 2),
        (1, 5, 2),
        (2, 8, 0),
        (2048, 8192, 0),
        (2048, 8191, 2),
        (0, 4, 1),
    ];
    for (words, memory, number) in cases {
        assert_eq!(rt;
            start_number(rt.alloc(), words, memory)?,
            number,
            "words, memory"
        );
    }
    Ok(())
}

// Four frames of 4 words from a boot list, which gives the last place first.
fn listed(heap: Global, memory: &[u32]) -> Result<Manager<BootList, Alpha>, Fail> {
    let places = vec![in heap; 2u16, 0, 3, 1]?;
    let list = BootList::check(4, places, 4).map_err(|_| Fail::new("list"))?;
    let accepted = Manager::check(BootList::make(list), alpha(heap)?, 4, memory).map_err(
        |_| Fail::new("start"),
    )?;
    Ok(Manager::start(accepted))
}

#[test]
fn words_of_a_page(rt: HostRuntime) -> Result<(), Fail> {
    let mut memory = vec![in rt.alloc(); 9u32; 16]?;
    let mut m = listed(rt.alloc(), memory.as_slice())?;
    assert_eq!(rt; number_of(m.open(1, 8)), 0);
    let p = ObjectPage::new(1, 5);
    assert_eq!(rt; number_of(m.load(&mut memory, p, 4)), 8);
    assert_eq!(rt;
        number_of(m.load(&mut memory[0..15], p, 4)),
        2,
        "the memory is looked at first"
    );
    assert_eq!(rt; number_of(m.store(&mut memory, p, 2, 77)), 0);
    assert_eq!(rt;
        memory.as_slice(),
        [9, 9, 9, 9, 0, 0, 77, 0, 9, 9, 9, 9, 9, 9, 9, 9].as_slice(),
        "frame 1 is zeroed and one word set"
    );
    assert_eq!(rt; m.load(&mut memory, p, 2).ok(), Some(77));
    assert_eq!(rt; m.load(&mut memory, p, 3).ok(), Some(0));
    assert_eq!(rt;
        m.load(&mut memory, ObjectPage::new(1, 0), 0).ok(),
        Some(0),
        "the next frame is 3"
    );
    assert_eq!(rt;
        memory.as_slice(),
        [9, 9, 9, 9, 0, 0, 77, 0, 9, 9, 9, 9, 0, 0, 0, 0].as_slice()
    );
    Ok(())
}

#[test]
fn short_lists(rt: HostRuntime) -> Result<(), Fail> {
    let mut memory = vec![in rt.alloc(); 0u32; 16]?;
    let mut m = listed(rt.alloc(), memory.as_slice())?;
    assert_eq!(rt; number_of(m.open(0, 8)), 0);
    assert_eq!(rt;
        number_of(m.store(&mut memory, ObjectPage::new(0, 6), 0, 1)),
        0
    );
    assert_eq!(rt; number_of(m.load(&mut memory, ObjectPage::new(0, 4), 0)), 0);
    assert_eq!(rt;
        number_of(m.store(&mut memory, ObjectPage::new(0, 2), 0, 1)),
        0
    );
    let mut one = [50u16];
    assert_eq!(rt; number_of(m.flush(0, &mut one)), 10);
    assert_eq!(rt; one[0], 50, "a refused flush writes nothing");
    let mut three = [50u16, 51, 52];
    assert_eq!(rt; m.flush(0, &mut three).ok(), Some(2));
    assert_eq!(rt;
        three.as_slice(),
        [2, 6, 52].as_slice(),
        "later places stay"
    );
    assert_eq!(rt; m.flush(0, &mut one).ok(), Some(0), "the marks are gone");
    Ok(())
}

#[test]
fn questions(rt: HostRuntime) -> Result<(), Fail> {
    let mut memory = vec![in rt.alloc(); 0u32; 16]?;
    let accepted = Manager::check(buddy(16)?, alpha(rt.alloc())?, 1, memory.as_slice()).map_err(
        |_| Fail::new("start"),
    )?;
    let mut m = Manager::start(accepted);
    assert_eq!(rt; number_of(m.leaf(ObjectPage::new(4, 0))), 3);
    assert_eq!(rt; number_of(m.reservation(ObjectPage::new(0, 0))), 6);
    assert_eq!(rt; number_of(m.open(0, 12)), 0);
    assert_eq!(rt; number_of(m.leaf(ObjectPage::new(0, 12))), 7);
    assert_eq!(rt; number_of(m.load(&mut memory, ObjectPage::new(0, 3), 0)), 0);
    assert_eq!(rt; number_of(m.load(&mut memory, ObjectPage::new(0, 9), 0)), 0);
    let found = m
        .reservation(ObjectPage::new(0, 7))
        .map_err(|_| Fail::new("page 7 is there"))?;
    let blocks = found.ok_or("page 7 is reserved")?;
    assert_eq!(rt;
        (
            blocks.pages.first().0,
            blocks.frames.first().0,
            blocks.frames.order(),
        ),
        (0, 0, 3)
    );
    let other = m
        .reservation(ObjectPage::new(0, 9))
        .map_err(|_| Fail::new("page 9 is there"))?;
    assert!(rt; other.is_none(), "a base page is not reserved");
    match m.leaf(ObjectPage::new(0, 9)) {
        Ok(Some(leaf)) => assert_eq!(rt; leaf.frame_of(PageNumber(9)).0, 8),
        _ => return Err(Fail::new("page 9 is present")),
    }
    let counts = m.counts();
    assert_eq!(rt;
        (counts.present, counts.empty_reserved, counts.available),
        (2, 7, 7)
    );
    Ok(())
}
