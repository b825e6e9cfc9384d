// A bound instance of a return service in a session (CCSDS 911.1-B and 911.2-B): what is made for a
// BIND, what is asked of it, and its status report.
ghost use Rattle.std.specs.Prelude.{◌≡◌, ◌+◌, ◌≤◌, ◌++◌, IfOk, length, option_copied, pos};
ghost use Rattle.isp1_tml.specs.Message.{spelling};
ghost use Rattle.station_config.specs.Validity.{IsReturn};
ghost use Rattle.return_pdu.specs.Reporting.{raf_report, rcf_report};
ghost use Rattle.return_pdu.specs.Seen.{raf_report_of, rcf_report_of};
ghost use Rattle.return_service.specs.Requested.{AskedFits};
ghost use Rattle.session_services.specs.Service.{invocation_of};
ghost use Rattle.session_services.specs.ReturnServed.{return_made, channels_of, return_asked};
ghost use Rattle.session_services.specs.ReturnServed.{return_told};

use crate::block::Block;
use crate::service::Invocation;
use crate::signature::{Signature, signed_with};
use octet_core::Memory;
use report_cycle::PICOS_A_SECOND;
use return_core::Delivery;
use return_pdu::{RafReport, RcfReport, ReturnKind, ReturnNumbers};
use return_service::{ReturnInvocation, ReturnService};
use sle_common::Gvcid;
use sle_numbers::ReturnDeliveryMode;
use station_config::Service;
use std::alloc::Global;

// An instance at its BIND: its service, its mode, the most items of a buffer, the latency limit and
// the return timeout in seconds. It takes the memory of a buffer's items.
pub(crate) fn return_made(
    alloc: Global,
    kind: ReturnKind,
    mode: ReturnDeliveryMode,
    size: u32,
    latency: u32,
    timeout: u16,
) -> Result<ReturnService, Memory>
    requires { IsReturn mode size latency }
    ensures { IfOk result (λ made. made ≡ return_made kind mode size latency timeout) }
{
    let latency = Some(u128::from(latency) * PICOS_A_SECOND);
    let Ok(delivery) = Delivery::new(alloc, mode, size, latency) else {
        return Err(Memory);
    };
    Ok(ReturnService::new(kind, delivery, mode, size, latency, timeout))
}

/// What an invocation asks of it.
pub fn return_asked(invocation: &Invocation<'_>) -> ReturnInvocation
    ensures asked { result ≡ return_asked (invocation_of invocation.now) }
    ensures fits { AskedFits result }
{
    match invocation {
        Invocation::ReturnStart(start) => ReturnInvocation::Start(start.asks()),
        Invocation::Stop(_) => ReturnInvocation::Stop,
        Invocation::Schedule(schedule) => ReturnInvocation::Report(schedule.report),
        Invocation::Get(get) => ReturnInvocation::Get(get.name),
        _ => ReturnInvocation::Nothing,
    }
}

/// The channels that a START may ask for of a service.
pub fn channels_of(service: Option<&Service>) -> &[Gvcid]
    ensures { result.now ≡ channels_of (option_copied service.entry) }
{
    match service {
        Some(Service::Rcf { channels, .. }) => channels.as_slice(),
        _ => &[],
    }
}

// A status report of RAF with these numbers.
#[tactic(auto, using(return_service::specs::Fits::number_fits))]
fn raf_report(signature: &Option<Signature>, numbers: ReturnNumbers) -> RafReport<'_>
    ensures seen { raf_report_of result ≡ record {
      credentials = signature.now;
      error_free = pos numbers.error_free;
      delivered = pos numbers.delivered;
      frame_sync = pos numbers.frame_sync;
      symbol = pos numbers.symbol;
      subcarrier = pos numbers.subcarrier;
      carrier = pos numbers.carrier;
      production = pos numbers.production;
    } }
    ensures fits { raf_report.Fits (raf_report_of result) }
{
    RafReport {
        credentials: signed_with(signature),
        error_free: i128::from(numbers.error_free),
        delivered: i128::from(numbers.delivered),
        frame_sync: i128::from(numbers.frame_sync),
        symbol: i128::from(numbers.symbol),
        subcarrier: i128::from(numbers.subcarrier),
        carrier: i128::from(numbers.carrier),
        production: i128::from(numbers.production),
    }
}

// One of RCF.
#[tactic(auto, using(return_service::specs::Fits::number_fits))]
fn rcf_report(signature: &Option<Signature>, numbers: ReturnNumbers) -> RcfReport<'_>
    ensures seen { rcf_report_of result ≡ record {
      credentials = signature.now;
      delivered = pos numbers.delivered;
      frame_sync = pos numbers.frame_sync;
      symbol = pos numbers.symbol;
      subcarrier = pos numbers.subcarrier;
      carrier = pos numbers.carrier;
      production = pos numbers.production;
    } }
    ensures fits { rcf_report.Fits (rcf_report_of result) }
{
    RcfReport {
        credentials: signed_with(signature),
        delivered: i128::from(numbers.delivered),
        frame_sync: i128::from(numbers.frame_sync),
        symbol: i128::from(numbers.symbol),
        subcarrier: i128::from(numbers.subcarrier),
        carrier: i128::from(numbers.carrier),
        production: i128::from(numbers.production),
    }
}

/// Appends its status report with these numbers to the block.
pub fn add_return_report(
    block: &mut Block,
    signature: &Option<Signature>,
    kind: ReturnKind,
    numbers: ReturnNumbers,
)
    requires { length block.old ≤ 3064 }
    ensures added { block.new ≡ block.old ++ spelling (return_told kind numbers signature.now) }
    ensures few { length block.new ≤ length block.old + 1032 }
{
    match kind {
        ReturnKind::Raf => block.add(&raf_report(signature, numbers)),
        ReturnKind::Rcf => block.add(&rcf_report(signature, numbers)),
    }
}
