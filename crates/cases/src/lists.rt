//! Number lists: there and back, and the first fault of damaged bytes.
use numlist::{Cut, Fixed, NumberList, OpenRefused, comes_back};
use std::test::Fail;

/// Whether the numbers come back out of a list.
fn do_come_back<L: NumberList>(list: &L, numbers: &[u64]) -> bool {
    let mut out = [165; 64];
    comes_back(list, numbers, &mut out) == Ok(true)
}

/// A cut of 3 bits over one of 2 over a fixed list of 4.
fn three_levels() -> Option<Cut<Cut<Fixed>>> {
    let fixed = Fixed::new(4).ok()?;
    let lower = Cut::new(2, fixed).ok()?;
    Cut::new(3, lower).ok()
}

#[test]
fn numbers_come_back(rt: HostRuntime) -> Result<(), Fail> {
    let fixed = Fixed::new(26).map_err(|_| Fail::new("a fixed list of 26 bits"))?;
    assert!(rt; do_come_back(&fixed, &[67_108_863, 0, 1, 25, 67_108_863]));
    let two = three_levels().ok_or_else(|| Fail::new("two cuts"))?;
    assert!(rt; do_come_back(&two, &[25, 2, 70, 10, 511, 0, 8, 7]));
    assert!(rt; !do_come_back(&two, &[25, 512]));
    let three = Cut::new(16, two).map_err(|_| Fail::new("three cuts"))?;
    assert!(rt; do_come_back(&three, &[33_554_431, 65_535, 65_536, 0, 524_288, 1]));
    Ok(())
}

/// The first fault of the string of 25, 2, 70, 10 at three levels, cut off at a length and with one byte exchanged: ten
/// times the level and the test, or 0 where there is none.
fn fault_of(length: usize, place: usize, byte: u8) -> usize {
    let mut bytes = [145, 5, 13, 0, 0, 0, 0, 19, 2, 0, 0, 0, 0, 2];
    let Some(list) = three_levels() else {
        return 99;
    };
    if length > 14 || place >= 14 {
        return 99;
    }
    bytes[place] = byte;
    match list.open(&bytes[0..length], 4) {
        Ok(_) => 0,
        Err(OpenRefused::TooMany) => 99,
        Err(OpenRefused::Faulty(fault)) => {
            10 * fault.level.min(8) + usize::from(u8::from(fault.test))
        }
    }
}

#[test]
fn each_test_fails_at_each_level(rt: HostRuntime) {
    let cases = [
        (14, 0, 145, 0),
        (6, 0, 145, 1),
        (14, 1, 21, 2),
        (14, 2, 29, 2),
        (14, 3, 1, 3),
        (14, 7, 3, 4),
        (12, 0, 145, 11),
        (14, 7, 83, 12),
        (14, 9, 1, 13),
        (14, 13, 0, 14),
        (13, 0, 145, 21),
        (14, 13, 18, 22),
    ];
    for (length, place, byte, fault) in cases {
        assert_eq!(rt; fault_of(length, place, byte), fault);
    }
}
