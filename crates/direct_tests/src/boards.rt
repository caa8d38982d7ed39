use blocks::block::{ObjectBlock, PageBlock};
use blocks::number::{FrameNumber, ObjectPage, PageNumber};
use mapping::alpha::Alpha;
use mapping::board::{AcceptedTable, Board};
use mapping::client::clear_object;
use mapping::hardware::MappingHardware;
use mapping::leaf::Leaf;
use mapping::sv39::Sv39;
use std::alloc::Global;
use std::test::Fail;

// A table whose entries are 7, and the refusal's number where a board has no use for one of this length.
fn sevens<B: Board>(heap: Global, length: usize) -> Result<Result<AcceptedTable<B>, u8>, Fail> {
    Ok(B::check(vec![in heap; 7u64; length]?).map_err(|refused| refused.refusal.number()))
}

pub(crate) fn alpha(heap: Global) -> Result<Alpha, Fail> {
    let accepted = sevens(heap, 4096)?.map_err(|_| Fail::new("refused"))?;
    Ok(Alpha::make(accepted))
}

fn sv39(heap: Global) -> Result<Sv39, Fail> {
    let accepted = sevens(heap, 4104)?.map_err(|_| Fail::new("refused"))?;
    Ok(Sv39::make(accepted))
}

// 0, or the number of the refusal: the tables below have the numbers as the rules give them.
fn put<H: MappingHardware>(
    hardware: &mut H,
    object: u8,
    first: u16,
    order: u8,
    frame: u16,
    writable: bool,
) -> u8 {
    match PageBlock::new(PageNumber(first), order) {
        Err(bad) => bad.number(),
        Ok(pages) => {
            match hardware.put(ObjectBlock { object, pages }, FrameNumber(frame), writable) {
                Ok(()) => 0,
                Err(refused) => refused.number(),
            }
        }
    }
}

// The order, or the number of the refusal, as the cases have it.
fn clear<H: MappingHardware>(hardware: &mut H, object: u8, number: u16) -> u8 {
    match hardware.clear(ObjectPage::new(object, number)) {
        Ok(order) => order,
        Err(refused) => refused.number(),
    }
}

fn entry(table: &[u64], place: usize) -> u64 {
    table.get(place).copied().unwrap_or(1)
}

#[test]
fn entries_as_worked(rt: HostRuntime) -> Result<(), Fail> {
    let mut a = alpha(rt.alloc())?;
    assert_eq!(rt; put(&mut a, 0, 8, 3, 16, false), 0);
    for (place, worked) in [
        (7, 0),
        (8, 0x0000001000001125),
        (10, 0x0000001200001125),
        (15, 0x0000001700001125),
        (16, 0),
    ] {
        assert_eq!(rt; entry(a.entries(), place), worked);
    }
    let mut s = sv39(rt.alloc())?;
    assert_eq!(rt; put(&mut s, 1, 600, 0, 8, true), 0);
    assert_eq!(rt; entry(s.entries(), 3), 0xC01);
    assert_eq!(rt; entry(s.entries(), 1632), 0x20C7);
    assert_eq!(rt; put(&mut s, 1, 512, 9, 512, false), 0);
    assert_eq!(rt; entry(s.entries(), 3), 0x80043);
    assert_eq!(rt; entry(s.entries(), 1632), 0);
    let leaf = Leaf {
        first: PageNumber(512),
        order: 9,
        frame: FrameNumber(512),
        writable: false,
    };
    assert_eq!(rt; s.leaf(ObjectPage::new(1, 600)), Some(leaf));
    Ok(())
}

// The number of the refusal, or the last entry of the table, as the cases have it.
fn alpha_of(heap: Global, length: usize) -> Result<u64, Fail> {
    match sevens(heap, length)? {
        Ok(accepted) => Ok(entry(Alpha::make(accepted).entries(), 4095)),
        Err(number) => Ok(u64::from(number)),
    }
}

// The same of the other board: see `make`.
fn sv39_of(heap: Global, length: usize) -> Result<u64, Fail> {
    match sevens(heap, length)? {
        Ok(accepted) => Ok(entry(Sv39::make(accepted).entries(), 4103)),
        Err(number) => Ok(u64::from(number)),
    }
}

#[test]
fn tables_of_other_lengths(rt: HostRuntime) -> Result<(), Fail> {
    for (length, told) in [(0, 18), (4095, 18), (4096, 0), (4097, 18)] {
        assert_eq!(rt; alpha_of(rt.alloc(), length)?, told);
    }
    for (length, told) in [(4096, 19), (4103, 19), (4104, 0), (4105, 19)] {
        assert_eq!(rt; sv39_of(rt.alloc(), length)?, told);
    }
    Ok(())
}

#[test]
fn refusals_of_put(rt: HostRuntime) -> Result<(), Fail> {
    let mut a = alpha(rt.alloc())?;
    let mut s = sv39(rt.alloc())?;
    // object, first page, order, frame, and the numbers of Alpha and Sv39
    for (object, first, order, frame, alpha_told, sv39_told) in [
        (0, 512, 9, 512, 0, 0),
        (0, 512, 3, 8, 16, 15),
        (0, 1023, 0, 8, 16, 16),
        (1, 0, 1, 0, 15, 15),
        (1, 0, 3, 8, 0, 15),
        (1, 512, 9, 8, 15, 15),
        (1, 8, 3, 12, 15, 15),
        (4, 0, 0, 0, 15, 15),
        (3, 1023, 0, 2047, 0, 0),
        (3, 1024, 0, 2047, 15, 15),
        (3, 1022, 0, 2048, 15, 15),
        (3, 512, 9, 2048, 15, 15),
        (2, 512, 9, 1536, 0, 0),
    ] {
        assert_eq!(rt; put(&mut a, object, first, order, frame, true), alpha_told);
        assert_eq!(rt; put(&mut s, object, first, order, frame, true), sv39_told);
    }
    Ok(())
}

#[test]
fn refusals_of_clear(rt: HostRuntime) -> Result<(), Fail> {
    let mut a = alpha(rt.alloc())?;
    let mut s = sv39(rt.alloc())?;
    assert_eq!(rt; put(&mut a, 3, 512, 9, 0, true), 0);
    assert_eq!(rt; put(&mut s, 3, 512, 9, 0, true), 0);
    for (object, page, told) in [
        (3, 511, 17),
        (2, 600, 17),
        (4, 600, 17),
        (3, 1024, 17),
        (3, 600, 9),
        (3, 600, 17),
    ] {
        assert_eq!(rt; clear(&mut a, object, page), told);
        assert_eq!(rt; clear(&mut s, object, page), told);
    }
    Ok(())
}

#[test]
fn pointer_stands_while_its_table_has_a_leaf(rt: HostRuntime) -> Result<(), Fail> {
    let mut s = sv39(rt.alloc())?;
    for (page, frame) in [(512, 5), (1023, 6), (512, 7)] {
        assert_eq!(rt; put(&mut s, 0, page, 0, frame, false), 0);
        assert_eq!(rt; entry(s.entries(), 1), 0x401);
    }
    for (page, upper) in [(1023, 0x401), (512, 0)] {
        assert_eq!(rt; clear(&mut s, 0, page), 0);
        assert_eq!(rt; entry(s.entries(), 1), upper);
    }
    assert_eq!(rt; put(&mut s, 0, 700, 0, 5, true), 0);
    assert_eq!(rt; put(&mut s, 0, 512, 9, 512, true), 0);
    assert_eq!(rt; clear(&mut s, 0, 700), 9);
    assert_eq!(rt; entry(s.entries(), 1), 0);
    assert_eq!(rt; entry(s.entries(), 8 + 700), 0);
    assert_eq!(rt; put(&mut s, 0, 3, 0, 5, true), 0);
    assert_eq!(rt; put(&mut s, 0, 512, 9, 512, true), 0);
    clear_object(&mut s, 0);
    assert_eq!(rt; entry(s.entries(), 0), 0);
    assert_eq!(rt; entry(s.into_parts().as_slice(), 1), 0);
    Ok(())
}

#[test]
fn small_leaves_go_under_a_greater_one(rt: HostRuntime) -> Result<(), Fail> {
    let mut a = alpha(rt.alloc())?;
    for (first, order, frame) in [
        (64, 0, 9),
        (71, 0, 9),
        (72, 3, 8),
        (64, 6, 128),
        (128, 0, 3),
    ] {
        assert_eq!(rt; put(&mut a, 2, first, order, frame, true), 0);
    }
    for (page, own) in [
        (63, 0),
        (64, 0x0000008000001141),
        (71, 0x0000008700001141),
        (127, 0x000000BF00001141),
        (128, 0x0000000300001101),
    ] {
        assert_eq!(rt; entry(a.entries(), 2048 + page), own);
    }
    clear_object(&mut a, 2);
    assert_eq!(rt; entry(a.entries(), 2048 + 64), 0);
    assert_eq!(rt; entry(a.entries(), 2048 + 128), 0);
    let table = a.into_parts();
    assert_eq!(rt; table.len(), 4096);
    Ok(())
}
