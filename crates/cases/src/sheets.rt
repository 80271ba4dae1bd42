//! Runs of calls on sheets.
use grid::{Cell, Grid};
use sheet::{Call, Entry, run_new};
use std::test::Fail;

#[test]
fn a_run_answers_each_call(rt: HostRuntime) -> Result<(), Fail> {
    let grid = Grid::new(4).map_err(|_| Fail::new("a side of 4"))?;
    let here = Cell { x: 1, y: 3 };
    let there = Cell { x: 3, y: 1 };
    let off = Cell { x: 4, y: 0 };
    let mut cells = [off; 2];
    let mut journal = [
        Entry::new(Call::Held),
        Entry::new(Call::TakeBack(here)),
        Entry::new(Call::Put(off)),
        Entry::new(Call::Put(here)),
        Entry::new(Call::Put(here)),
        Entry::new(Call::Put(there)),
        Entry::new(Call::TakeBack(there)),
        Entry::new(Call::TakeBack(here)),
        Entry::new(Call::Put(there)),
        Entry::new(Call::Held),
        Entry::new(Call::Clear),
        Entry::new(Call::TakeBack(off)),
    ];
    let sheet = run_new(grid, &mut cells, &mut journal);
    assert_eq!(rt; sheet.held(), 0);
    let answers = journal.map(|entry| entry.answer.map_err(u8::from));
    let expected = [
        Ok(0),
        Err(4),
        Err(2),
        Ok(1),
        Ok(2),
        Err(3),
        Err(4),
        Ok(1),
        Ok(2),
        Ok(2),
        Ok(0),
        Err(2),
    ];
    assert_eq!(rt; answers, expected);
    Ok(())
}

#[test]
fn sides_of_grids(rt: HostRuntime) {
    assert!(rt; Grid::new(0).is_err());
    assert!(rt; Grid::new(1).is_ok());
    assert!(rt; Grid::new(1_048_576).is_ok());
    assert!(rt; Grid::new(1_048_577).is_err());
    assert!(rt; Grid::new(4_294_967_295).is_err());
}
