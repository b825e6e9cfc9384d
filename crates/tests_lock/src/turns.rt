// Turns of one thread.
use crate::log::{Author, Hold, lock_of, write_line};
use std::alloc::AllocError;
use std::marker::Send;
use std::test::Fail;
use turn_lock::LockFault;

#[test]
fn want_of_memory_has_a_text_and_turns_into_that_of_std(rt: HostRuntime) -> Result<(), Fail> {
    let fault = LockFault::from(AllocError::from(LockFault::Memory));
    assert_eq!(rt; fault, LockFault::Memory);
    let text = format!(in rt.alloc(); "{fault}")?;
    assert_eq!(rt; text.as_str(), "out of memory");
    Ok(())
}

fn goes_to_a_thread<T: Send>(_: &T) {}

#[test]
fn a_turn_lends_the_value_and_gives_it_back(rt: HostRuntime) -> Result<(), Fail> {
    let (lock, mut pass) = lock_of(rt.alloc(), 3)?;
    goes_to_a_thread(&lock);
    let turn = lock.enter(&rt, &mut pass);
    let empty = turn.value().lines.is_empty();
    lock.leave(&mut pass, turn);
    assert!(rt; empty && pass.left() == 2);
    Ok(())
}

#[test]
fn a_line_is_named_by_its_author(rt: HostRuntime) -> Result<(), Fail> {
    let (lock, mut pass) = lock_of(rt.alloc(), 1)?;
    let author = Author { name: 4 };
    let mut turn = lock.enter(&rt, &mut pass);
    turn.value_mut().push(author.name)?;
    lock.commit_by(&mut pass, turn, &author);
    let Ok((log, _)) = lock.close(pass) else {
        panic!(rt; "no other pass was made")
    };
    assert_eq!(rt; log.lines.as_slice(), [4].as_slice());
    Ok(())
}

#[test]
fn a_lock_is_closed_beside_a_pass_that_entered_no_turn(rt: HostRuntime) -> Result<(), Fail> {
    let (lock, mut pass) = lock_of(rt.alloc(), 3)?;
    let unused = lock.split(&mut pass, 2)?;
    write_line(&rt, &lock, &mut pass, 1, Hold::Looks(0))?;
    let Ok((log, _)) = lock.close(pass) else {
        panic!(rt; "the other pass entered no turn")
    };
    assert!(rt; log.lines.len() == 1 && unused.left() == 2);
    Ok(())
}

#[test]
fn a_lock_is_handed_back_while_another_pass_has_entered(rt: HostRuntime) -> Result<(), Fail> {
    let (lock, mut pass) = lock_of(rt.alloc(), 2)?;
    let mut other = lock.split(&mut pass, 1)?;
    write_line(&rt, &lock, &mut other, 1, Hold::Looks(0))?;
    let Err((lock, mut pass)) = lock.close(pass) else {
        panic!(rt; "a pass was outside")
    };
    lock.join(&mut pass, other);
    let Ok((log, _)) = lock.close(pass) else {
        panic!(rt; "all passes were joined")
    };
    assert!(rt; log.lines.len() == 1);
    Ok(())
}
