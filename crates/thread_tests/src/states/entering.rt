// Permits on one seat.
use crate::said::{holds, same};
use shared_state::{Permits, Refused};
use std::test::*;

#[test]
fn a_third_permit_of_two_is_refused(rt: HostRuntime) -> Result<(), Fail> {
    let (permits, mut seats) = Permits::new(rt.alloc(), 2, 1)?;
    let mut seat = seats.take_one().ok_or("a seat")?;
    holds(&rt, seats.take_one().is_none());
    let Ok(first) = permits.enter(&mut seat) else {
        panic!(rt; "the first permit was refused")
    };
    let Ok(second) = permits.enter(&mut seat) else {
        panic!(rt; "the second permit was refused")
    };
    let found = match permits.enter(&mut seat) {
        Ok(permit) => {
            permits.leave(&mut seat, permit);
            0
        }
        Err(refused) => refused.found,
    };
    permits.leave(&mut seat, first);
    let Ok(third) = permits.enter(&mut seat) else {
        panic!(rt; "after a leave the permit was refused")
    };
    permits.leave(&mut seat, second);
    permits.leave(&mut seat, third);
    same(&rt, &found, &2);
    Ok(())
}

#[test]
fn of_no_permits_none_is_given(rt: HostRuntime) -> Result<(), Fail> {
    let (permits, mut seats) = Permits::new(rt.alloc(), 0, 1)?;
    let mut seat = seats.take_one().ok_or("a seat")?;
    match permits.enter(&mut seat) {
        Ok(permit) => {
            permits.leave(&mut seat, permit);
            panic!(rt; "a permit was given")
        }
        Err(refused) => same(&rt, &refused, &Refused { found: 0 }),
    }
    Ok(())
}
