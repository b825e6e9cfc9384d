// Octets and their holders, want of memory, and the list of failing calls.
use octet_core::{FailingCalls, Memory, Octets};
use std::alloc::AllocError;
use std::test::Fail;
use std::thread;

#[test]
fn octets_are_kept_in_their_order(rt: HostRuntime) -> Result<(), Fail> {
    let mut kept = Octets::copy_of(rt.alloc(), b"ab")?;
    kept.append(b"cd")?;
    assert_eq!(rt; kept.as_slice(), b"abcd".as_slice());
    assert_eq!(rt; kept.len(), 4);
    kept.clear();
    assert!(rt; kept.is_empty() && Octets::new(rt.alloc()) == kept);
    let vector = [1, 2].to_vec(rt.alloc())?;
    let shared = Octets::from_vec(rt.alloc(), vector)?;
    assert_eq!(rt; shared.as_slice(), [1, 2].as_slice());
    Ok(())
}

// Takes octets along, as a thread that gets them does.
fn length_of(octets: Octets) -> usize {
    octets.len()
}

#[test]
fn a_second_holder_may_go_to_another_thread(rt: HostRuntime) -> Result<(), Fail> {
    let kept = Octets::copy_of(rt.alloc(), b"abc")?;
    let second = kept.clone()?;
    let shared = &kept;
    let lengths = thread::join(&rt, move || length_of(second), || shared.len());
    assert_eq!(rt; lengths, (3, 3));
    Ok(())
}

#[test]
fn want_of_memory_has_a_text_and_turns_into_that_of_std(rt: HostRuntime) -> Result<(), Fail> {
    assert_eq!(rt; Memory::from(AllocError::from(Memory)), Memory);
    let text = format!(in rt.alloc(); "{}", Memory)?;
    assert_eq!(rt; text.as_str(), "out of memory");
    Ok(())
}

#[test]
fn listed_calls_fail_and_each_call_is_counted(rt: HostRuntime) -> Result<(), Fail> {
    let mut calls = FailingCalls::new(vec![in rt.alloc(); 3, 1]?);
    for fails in [true, false, true, false] {
        assert_eq!(rt; calls.fails_next(), fails);
        assert_eq!(rt; calls.count_call(), fails);
    }
    assert_eq!(rt; calls.made(), 4);
    Ok(())
}
