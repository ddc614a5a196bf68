//! A reservation that may have few guards, of a slot that was just made.
use crate::place::Place;
use seize_calls::slot::Slot;
use seize_table::Refusal;
use seize_words::book::Condition;
use seize_words::words::Words;
use std::process::Abort;
use std::test::Fail;

struct AnyCode {}

impl Condition for AnyCode {
    ghost holds = { λ _ _. Unit {0} };
}

// Where there may be two guards, one stands while others come and go beside it. Beside two that stand a third is refused.
#[test]
fn no_guard_is_made_beyond_the_most(rt: HostRuntime) -> Result<(), Fail> {
    let alloc = rt.alloc();
    let (words, _permits, _pairs, mut porter, mut numbers, next) = Words::new::<AnyCode, AnyCode>(
        alloc, 0, 0, 2, 1,
    )?;
    porter.leave_home();
    let mut pass = porter.pass();
    let made = Slot::make(&words, alloc, next, &mut numbers, &mut pass);
    let (slot, _next) = made.map_err(|(refusal, _)| refusal)?;
    let mut place = Place::new(&words, &porter, slot, 2);
    place.enter()?;
    assert!(rt; place.visit()?);
    assert!(rt; place.visit()?);
    place.enter()?;
    assert!(rt; matches!(place.visit(), Err(Refusal::TooManyGuards)));
    assert!(rt; matches!(place.enter(), Err(Refusal::TooManyGuards)));
    Ok(())
}
