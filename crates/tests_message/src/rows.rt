// Rows of octets (CCSDS 911.1-B and 911.2-B, annex A; CCSDS 913.1-B; X.690), without credentials.
use crate::items::{frame, loss};
use crate::told::unsigned;
use frame_select::Item;
use return_pdu::ReturnKind;
use sle_numbers::ReturnProductionStatus;
use std::alloc::Global;
use std::process::Abort;
use std::test::Fail;

const RAF: ReturnKind = ReturnKind::Raf;

const RCF: ReturnKind = ReturnKind::Rcf;

const TWO_FRAMES: &str = "010000000000003ea83ca01c800080084e20000003e800008101410201ff0201008000\
    04030010a1a01c800080084e20000007d00000810141020100020100800004030010a2";

// Where a buffer of these items has other octets than these.
fn check(
    rt: &impl Abort,
    alloc: Global,
    service: ReturnKind,
    items: &[Item],
    octets: &str,
) -> Result<(), Fail> {
    let told = unsigned(rt, alloc, service, items)?;
    assert_eq!(rt; told.as_str(), octets);
    Ok(())
}

#[test]
fn frames_are_told_with_their_continuities(rt: HostRuntime) -> Result<(), Fail> {
    let alloc = rt.alloc();
    let first = frame(alloc, 1_000, -1, &[0, 0x10, 0xa1])?;
    let second = frame(alloc, 2_000, 0, &[0, 0x10, 0xa2])?;
    check(&rt, alloc, RAF, &[first, second], TWO_FRAMES)
}

#[test]
fn a_channel_tells_no_quality(rt: HostRuntime) -> Result<(), Fail> {
    let alloc = rt.alloc();
    let items = [frame(alloc, 1_000, -1, &[0x40, 0x7f, 0xa1])?];
    let octets = "010000000000001da81ba019800080084e20000003e800008101410201ff80000403407fa1";
    check(&rt, alloc, RCF, &items, octets)
}

#[test]
fn each_notification_has_its_form(rt: HostRuntime) -> Result<(), Fail> {
    let alloc = rt.alloc();
    for service in [RAF, RCF] {
        let backlog = "0100000000000008a806a10480008200";
        check(&rt, alloc, service, &[Item::Backlog], backlog)?;
        let end = "0100000000000008a806a10480008300";
        check(&rt, alloc, service, &[Item::EndOfData], end)?;
        let lost = "010000000000001ba819a1178000a01380084e20000005dc0000020100020103020101";
        check(&rt, alloc, service, &[loss()], lost)?;
        let halted = Item::Production {
            place: 0,
            status: ReturnProductionStatus::Halted,
        };
        check(
            &rt,
            alloc,
            service,
            &[halted],
            "0100000000000009a807a1058000810102",
        )?;
    }
    Ok(())
}

#[test]
fn no_items_are_an_empty_buffer(rt: HostRuntime) -> Result<(), Fail> {
    check(&rt, rt.alloc(), RAF, &[], "0100000000000002a800")
}
