//! Each public call, and what worked rows leave.
use crate::RisingMap;
use std::fmt::Debug;
use std::process::Abort;
use std::test::Fail;

/// Two values are equal, of a number.
fn is_at<T: PartialEq + Debug + Drop>(rt: &impl Abort, found: T, want: T, number: u64) {
    assert_eq!(rt; found, want, "at {number}");
}

#[test]
fn a_number_has_what_was_put_last(rt: HostRuntime) -> Result<(), Fail> {
    let mut map = RisingMap::new(rt.alloc());
    is_at(&rt, map.has(3), false, 3);
    let puts = [
        (3, 30),
        (5, 50),
        (9, 90),
        (4, 40),
        (5, 51),
        (0, 1),
        (9, 91),
        (4, 41),
        (u64::MAX, 70),
        (10, 100),
    ];
    for (number, value) in puts {
        map.insert(number, value)?;
    }
    let rows = [
        (0, Some(1)),
        (1, None),
        (3, Some(30)),
        (4, Some(41)),
        (5, Some(51)),
        (6, None),
        (9, Some(91)),
        (10, Some(100)),
        (11, None),
        (u64::MAX, Some(70)),
    ];
    for (number, want) in rows {
        is_at(&rt, map.get(number).copied(), want, number);
        is_at(&rt, map.has(number), want.is_some(), number);
    }
    Ok(())
}

#[test]
fn late_numbers_stand_among_those_that_rose(rt: HostRuntime) -> Result<(), Fail> {
    let mut map = RisingMap::new(rt.alloc());
    for k in 0..1000u64 {
        map.insert(2 * k, k)?;
    }
    for k in 0..300u64 {
        map.insert(3 * k, 7)?;
    }
    for k in 0..2000u64 {
        let want = if k < 900 && k % 3 == 0 {
            Some(7)
        } else if k % 2 == 0 {
            Some(k / 2)
        } else {
            None
        };
        is_at(&rt, map.get(k).copied(), want, k);
    }
    Ok(())
}

#[test]
fn a_value_gives_its_memory_back_where_another_takes_its_place(
    rt: HostRuntime,
) -> Result<(), Fail> {
    let mut map = RisingMap::new(rt.alloc());
    for number in [4, 8, 4, 2, 2] {
        map.insert(number, Vec::from_slice(rt.alloc(), &[number, 1])?)?;
    }
    for number in [2, 4, 8] {
        let length = map.get(number).map(|value| value.len());
        is_at(&rt, length, Some(2), number);
    }
    Ok(())
}
