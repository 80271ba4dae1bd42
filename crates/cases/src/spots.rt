//! Packed spots.
use cellcode::RingCode;
use grid::{Cell, Grid};
use numlist::{Cut, Fixed};
use sheet::{Call, Entry};
use spot::{Make, run_and_pack};
use std::process::Abort;
use std::test::Fail;

/// The seven hits of the worked spot.
const SEVEN: [(u32, u32); 7] = [(8, 6), (4, 7), (10, 3), (2, 11), (5, 3), (12, 8), (2, 5)];

/// Their spot on a grid of side 16.
const SPOT: [u8; 36] = [
    0x11, 0x4c, 0x4b, 0, 0x20, 0x19, 0x33, 0, 0, 0, 0, 0, 12, 0, 0, 0, 7, 0, 0, 0, 5, 0, 0, 0, 3,
    0, 0, 0, 16, 0, 0, 0, 1, 0, 1, 0,
];

/// The list of the worked spot: cut 8 over cut 8 over fixed 26.
fn list() -> Result<Cut<Cut<Fixed>>, Fail> {
    let lowest = Fixed::new(26).map_err(|_| Fail::new("a fixed list"))?;
    let lower = Cut::new(8, lowest).map_err(|_| Fail::new("a cut"))?;
    Cut::new(8, lower).map_err(|_| Fail::new("a cut over a cut"))
}

/// The calls that put the seven hits in the order of some places, and then ask how many are held.
fn calls(order: [usize; 7]) -> [Entry; 8] {
    let mut journal = [Entry::new(Call::Held); 8];
    for (entry, hit) in journal.iter_mut().zip(order) {
        let (x, y) = SEVEN[hit.min(6)];
        *entry = Entry::new(Call::Put(Cell { x, y }));
    }
    journal
}

/// The hits are put in the order of some places, and packed: the number of bytes, or that of the refusal.
fn packed(order: [usize; 7], codes: &mut [u64], out: &mut [u8]) -> Result<Result<usize, u8>, Fail> {
    let grid = Grid::new(16).map_err(|_| Fail::new("a grid"))?;
    let make = Make::new(RingCode, list()?, 1).map_err(|_| Fail::new("a make"))?;
    let mut journal = calls(order);
    let mut cells = [Cell { x: 0, y: 0 }; 9];
    let answer = run_and_pack(&make, grid, &mut cells, &mut journal, codes, out);
    Ok(answer.map_err(u8::from))
}

fn the_worked_spot(rt: &impl Abort, order: [usize; 7]) -> Result<(), Fail> {
    let mut out = [7; 40];
    assert_eq!(rt; packed(order, &mut [0; 7], &mut out)?, Ok(36));
    assert!(rt; out.starts_with(&SPOT));
    assert!(rt; out.iter().skip(36).all(|byte| *byte == 7));
    Ok(())
}

#[test]
fn any_order_gives_the_worked_spot(rt: HostRuntime) -> Result<(), Fail> {
    the_worked_spot(&rt, [0, 1, 2, 3, 4, 5, 6])?;
    the_worked_spot(&rt, [6, 5, 4, 3, 2, 1, 0])?;
    the_worked_spot(&rt, [3, 0, 6, 2, 5, 1, 4])
}

#[test]
fn short_memory_is_refused(rt: HostRuntime) -> Result<(), Fail> {
    let order = [0, 1, 2, 3, 4, 5, 6];
    let mut out = [7; 35];
    assert_eq!(rt; packed(order, &mut [0; 6], &mut out)?, Err(6));
    assert_eq!(rt; packed(order, &mut [0; 7], &mut out)?, Err(5));
    assert!(rt; out == [7; 35]);
    Ok(())
}
