// The messages that a script's peer sends.
ghost use Rattle.std.specs.Prelude.{◌≡◌, ◌≤◌, true, IfOk, length};
ghost use Rattle.ber_core.specs.Spelling.{canonical};
ghost use Rattle.ber_shape.specs.Members.{structured};
ghost use Rattle.bind_pdu.specs.Binding.{bind};
ghost use Rattle.bind_pdu.specs.Unbinding.{unbind};
ghost use Rattle.fcltu_pdu.specs.Start.{start_pdu};
ghost use Rattle.fcltu_pdu.specs.Transfer.{transfer_pdu};
ghost use Rattle.return_pdu.specs.Starting.{raf_start, rcf_start};
ghost use Rattle.return_pdu.specs.Stopping.{stop};
ghost use Rattle.return_pdu.specs.Scheduling.{schedule};
ghost use Rattle.return_pdu.specs.Getting.{get_parameter};
ghost use Rattle.sle_common.specs.Gvcid.{gvcid};
ghost use Rattle.isp1_tml.specs.Message.{pdu, context, header, spelling};
ghost use Rattle.drill_text.specs.Asks.{ask};
ghost use Rattle.station_links.specs.Asked.{message_of, unbind_asked, bind_asked, start_asked};
ghost use Rattle.station_links.specs.Asked.{channel_asked, stop_asked, report_asked, get_asked};
ghost use Rattle.station_links.specs.Asked.{cltu_start_asked, cltu_asked, is_short};

use ber_core::Writer;
use ber_shape::Pdu;
use bind_pdu::{Bind, Unbind};
use cds_time::Cds;
use drill_text::AskLine;
use fcltu_pdu::{CltuStart, CltuTransfer};
use isp1_tml::head;
use octet_core::{Memory, Octets};
use return_pdu::{GetParameter, RafStart, RcfStart, Schedule, Stop};
use sle_common::{Credentials, Gvcid, InstanceId, InstanceRef, ReportKind};
use sle_numbers::{Numbered, RequestedFrameQuality, UnbindReason};
use std::alloc::{AllocError, Global};

// The port from which a script's peer binds.
const PORT: &[u8] = b"PORT1";

// What a context's body begins with: the protocol's name, three zeros, and the version.
const PROTOCOL: &[u8] = b"ISP1\0\0\0\x01";

/// The octets of a message, as one piece.
pub(crate) fn message_of(alloc: Global, line: &AskLine) -> Result<Octets, Memory>
    requires { ask.Fits line.now }
    ensures { IfOk result (λ octets. octets ≡ spelling (message_of line.now)) }
{
    match line {
        AskLine::Context { interval, factor } => context_message(alloc, *interval, *factor),
        AskLine::Bind {
            name,
            service,
            version,
            id,
        } => bind_message(alloc, name, *service, *version, id),
        AskLine::Unbind => unbind_message(alloc),
        AskLine::StartRaf {
            start,
            stop,
            quality,
        } => start_message(alloc, *start, *stop, *quality),
        AskLine::StartRcf {
            start,
            stop,
            channel,
        } => channel_message(alloc, *start, *stop, *channel),
        AskLine::StartCltu { first } => cltu_start_message(alloc, *first),
        AskLine::Stop => stop_message(alloc),
        AskLine::Report(kind) => report_message(alloc, *kind),
        AskLine::Get { name } => get_message(alloc, *name),
        AskLine::Cltu {
            id,
            earliest,
            latest,
            radiation_delay,
            wanted,
            octets,
        } => cltu_message(
            alloc,
            *id,
            *earliest,
            *latest,
            *radiation_delay,
            *wanted,
            octets,
        ),
    }
}

fn context_message(alloc: Global, interval: u16, factor: u16) -> Result<Octets, Memory>
    ensures { IfOk result (λ octets. octets ≡ spelling (context interval factor)) }
{
    let mut octets = Octets::copy_of(alloc, &head(2, 12))?;
    octets.append(PROTOCOL)?;
    octets.append(&interval.to_be_bytes())?;
    octets.append(&factor.to_be_bytes())?;
    Ok(octets)
}

// A PDU's message is begun: room for so many octets is left.
fn begin(alloc: Global, length: usize) -> Result<Writer, Memory>
    requires { length ≤ 131072 }
    ensures { IfOk result (λ writer. writer ≡ record {
      octets = header 1 length;
      room = length;
    }) }
{
    let mut writer = Writer::new(alloc, 8 + length).map_err(AllocError::from)?;
    writer.raw(&head(1, length as u32));
    Ok(writer)
}

// The message of a PDU.
#[tactic(auto, using(crate::proofs::Fits::few_pdu))]
fn pdu_message<'a, P: Pdu<'a>>(alloc: Global, sent: &P) -> Result<Octets, Memory>
    requires fits { P.Members.shape.Fits (P.Members.seen sent.now) }
    requires short { is_short (structured P.tag P.Members.shape P.is_tag) ≡ true }
    ensures { IfOk result (λ octets. octets ≡ spelling (pdu (canonical
        ((structured P.tag P.Members.shape P.is_tag).tree (P.Members.seen sent.now))))) }
{
    let mut writer = begin(alloc, sent.length())?;
    sent.encode(&mut writer);
    Octets::copy_of(alloc, writer.octets())
}

fn bind_message<'a>(
    alloc: Global,
    name: &'a Octets,
    service: u16,
    version: u16,
    id: &'a InstanceId,
) -> Result<Octets, Memory>
    requires { bind.Fits (bind_asked name.now service version id.now) }
    ensures { IfOk result (λ octets. octets
        ≡ spelling (pdu (canonical (bind.tree (bind_asked name.now service version id.now))))) }
{
    let sent = Bind {
        credentials: Credentials::Unused,
        initiator: name.as_slice(),
        port: PORT,
        service,
        version,
        instance: InstanceRef::Own(id),
    };
    pdu_message(alloc, &sent)
}

fn unbind_message(alloc: Global) -> Result<Octets, Memory>
    ensures { IfOk result (λ octets. octets
        ≡ spelling (pdu (canonical (unbind.tree unbind_asked)))) }
{
    let sent = Unbind {
        credentials: Credentials::Unused,
        reason: UnbindReason::End.number(),
    };
    pdu_message(alloc, &sent)
}

#[tactic(auto, using(crate::proofs::Fits::conditional_fits))]
fn start_message(
    alloc: Global,
    start: Option<Cds>,
    stop: Option<Cds>,
    quality: RequestedFrameQuality,
) -> Result<Octets, Memory>
    ensures { IfOk result (λ octets. octets
        ≡ spelling (pdu (canonical (raf_start.tree (start_asked start stop quality))))) }
{
    let sent = RafStart {
        credentials: Credentials::Unused,
        invoke: 0,
        start,
        stop,
        quality,
    };
    pdu_message(alloc, &sent)
}

#[tactic(auto, using(crate::proofs::Fits::conditional_fits))]
fn channel_message(
    alloc: Global,
    start: Option<Cds>,
    stop: Option<Cds>,
    channel: Gvcid,
) -> Result<Octets, Memory>
    requires { gvcid.Fits channel }
    ensures { IfOk result (λ octets. octets
        ≡ spelling (pdu (canonical (rcf_start.tree (channel_asked start stop channel))))) }
{
    let sent = RcfStart {
        credentials: Credentials::Unused,
        invoke: 0,
        start,
        stop,
        channel,
    };
    pdu_message(alloc, &sent)
}

fn cltu_start_message(alloc: Global, first: u32) -> Result<Octets, Memory>
    ensures { IfOk result (λ octets. octets
        ≡ spelling (pdu (canonical (start_pdu.tree (cltu_start_asked first))))) }
{
    let sent = CltuStart {
        credentials: Credentials::Unused,
        invoke: 0,
        first,
    };
    pdu_message(alloc, &sent)
}

fn stop_message(alloc: Global) -> Result<Octets, Memory>
    ensures { IfOk result (λ octets. octets
        ≡ spelling (pdu (canonical (stop.tree stop_asked)))) }
{
    let sent = Stop {
        credentials: Credentials::Unused,
        invoke: 0,
    };
    pdu_message(alloc, &sent)
}

fn report_message(alloc: Global, report: ReportKind) -> Result<Octets, Memory>
    ensures { IfOk result (λ octets. octets
        ≡ spelling (pdu (canonical (schedule.tree (report_asked report))))) }
{
    let sent = Schedule {
        credentials: Credentials::Unused,
        invoke: 0,
        report,
    };
    pdu_message(alloc, &sent)
}

fn get_message(alloc: Global, name: u16) -> Result<Octets, Memory>
    ensures { IfOk result (λ octets. octets
        ≡ spelling (pdu (canonical (get_parameter.tree (get_asked name))))) }
{
    let sent = GetParameter {
        credentials: Credentials::Unused,
        invoke: 0,
        name,
    };
    pdu_message(alloc, &sent)
}

#[tactic(auto, using(crate::proofs::Fits::conditional_fits))]
fn cltu_message(
    alloc: Global,
    id: u32,
    earliest: Option<Cds>,
    latest: Option<Cds>,
    radiation_delay: u32,
    wanted: bool,
    octets: &Octets,
) -> Result<Octets, Memory>
    requires some { 1 ≤ length octets.now }
    requires few { length octets.now ≤ 65536 }
    ensures { IfOk result (λ message. message ≡ spelling (pdu (canonical
        (transfer_pdu.tree
        (cltu_asked id earliest latest radiation_delay wanted octets.now))))) }
{
    let sent = CltuTransfer {
        credentials: Credentials::Unused,
        invoke: 0,
        id,
        earliest,
        latest,
        radiation_delay,
        wanted,
        octets: octets.as_slice(),
    };
    pdu_message(alloc, &sent)
}
