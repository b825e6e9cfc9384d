// What the service tells unasked (CCSDS 912.1-B, annex A).
ghost use Rattle.std.specs.Prelude.{◌≡◌, pos};
ghost use Rattle.sle_common.specs.Credentials.{credentials as credentials_element, credentials_of};
ghost use Rattle.sle_common.specs.Numbers.{number as number_element};
ghost use Rattle.fcltu_pdu.specs.Async.{notice_of, notice_pdu};
ghost use Rattle.fcltu_pdu.specs.Notice.{HasNumber};
ghost use Rattle.fcltu_pdu.specs.Processed.{last_processed, last_ok};
ghost use Rattle.fcltu_pdu.specs.Report.{report_of, report_pdu};
ghost use Rattle.fcltu_service.specs.Telling.{processed_told, ok_told, number_told, notice_told};
ghost use Rattle.fcltu_service.specs.Telling.{report_told};

use cds_time::Cds;
use cltu_queue::{LastOk, Notice, Processed, UplinkView};
use fcltu_numbers::CltuNotificationType;
use fcltu_pdu::{Async, CltuReport};
use sle_common::Credentials;
use sle_numbers::Numbered;

// The number of a value of a table.
#[tactic(auto, using(crate::proofs::Fits::small_fits))]
fn number<T: Numbered>(value: T) -> i128
    ensures exact { result ≡ pos (T.number_of value) }
    ensures fits { number_element.Fits result }
{
    i128::from(value.number())
}

// A count.
#[tactic(auto, using(crate::proofs::Fits::small_fits))]
fn count(value: u32) -> i128
    ensures exact { result ≡ pos value }
    ensures fits { number_element.Fits result }
{
    i128::from(value)
}

// The CLTU that was processed last.
#[tactic(auto, using(crate::proofs::Fits::conditional_fits))]
fn processed_told(processed: Processed) -> Option<(u32, Option<Cds>, i128)>
    ensures exact { result ≡ processed_told processed }
    ensures fits { last_processed.Fits result }
{
    match processed {
        Processed::None => None,
        Processed::Some { id, start, status } => Some((id, start, number(status))),
    }
}

// The CLTU that was radiated last without a fault.
#[tactic(auto, using(crate::proofs::Fits::time_fits))]
fn ok_told(ok: LastOk) -> Option<(u32, Cds)>
    ensures exact { result ≡ ok_told ok }
    ensures fits { last_ok.Fits result }
{
    match ok {
        LastOk::None => None,
        LastOk::Some { id, stop } => Some((id, stop)),
    }
}

// The number of an event's invocation that a notice of this kind has.
fn number_told(kind: CltuNotificationType) -> Option<u32>
    ensures exact { result ≡ number_told kind }
    ensures fits { HasNumber kind result }
{
    match kind {
        CltuNotificationType::ActionListCompleted
        | CltuNotificationType::ActionListNotCompleted
        | CltuNotificationType::EventConditionEvFalse => Some(0),
        CltuNotificationType::CltuRadiated
        | CltuNotificationType::SlduExpired
        | CltuNotificationType::ProductionInterrupted
        | CltuNotificationType::ProductionHalted
        | CltuNotificationType::ProductionOperational
        | CltuNotificationType::BufferEmpty => None,
    }
}

/// CLTU-ASYNC-NOTIFY of a notice, with these credentials.
pub fn notify<'a>(credentials: Credentials<'a>, notice: Notice) -> Async<'a>
    requires { credentials_element.Fits (credentials_of credentials) }
    ensures seen { notice_of result ≡ notice_told (credentials_of credentials.entry) notice }
    ensures fits { notice_pdu.Fits (notice_of result) }
{
    Async {
        credentials,
        kind: notice.kind,
        number: number_told(notice.kind),
        processed: processed_told(notice.processed),
        ok: ok_told(notice.ok),
        production: number(notice.production),
        uplink: number(notice.status),
    }
}

/// CLTU-STATUS-REPORT of the book's view, with these credentials.
pub fn status_report<'a>(credentials: Credentials<'a>, view: UplinkView) -> CltuReport<'a>
    requires { credentials_element.Fits (credentials_of credentials) }
    ensures seen { report_of result ≡ report_told (credentials_of credentials.entry) view }
    ensures fits { report_pdu.Fits (report_of result) }
{
    CltuReport {
        credentials,
        processed: processed_told(view.processed),
        ok: ok_told(view.ok),
        production: number(view.production),
        uplink: number(view.status),
        received: count(view.received),
        taken: count(view.taken),
        radiated: count(view.radiated),
        free: count(view.free),
    }
}
