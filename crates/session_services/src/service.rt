// What a bound user says to its service.
//
// What their PDUs say, what kind of message that is, whose credentials it has, and whether a started
// service goes on behind it. A service has its variants of `Invocation` and its arms in the functions
// of this file, the same in `specs/Service.antt`. What is asked and answered is the
// service's (`service_state.rt`, `service_steps.rt`).
ghost use Rattle.std.specs.Prelude.{◌≡◌, []};
ghost use Rattle.ber_shape.specs.Exact.{whole};
ghost use Rattle.return_pdu.specs.Starting.{raf_start, rcf_start};
ghost use Rattle.return_pdu.specs.Stopping.{stop};
ghost use Rattle.return_pdu.specs.Scheduling.{schedule};
ghost use Rattle.return_pdu.specs.Getting.{get_parameter};
ghost use Rattle.fcltu_pdu.specs.Start.{start_pdu};
ghost use Rattle.fcltu_pdu.specs.Transfer.{transfer_pdu};
ghost use Rattle.fcltu_pdu.specs.Throw.{throw_pdu};
ghost use Rattle.sle_common.specs.Credentials.{credentials_of as octets_of};
ghost use Rattle.assoc_core.specs.Kind.{kind_of, initiator_of};
ghost use Rattle.session_services.specs.Service.{get_read, schedule_read, stop_read, raf_read};
ghost use Rattle.session_services.specs.Service.{rcf_read, throw_read, transfer_read, cltu_read};
ghost use Rattle.session_services.specs.Service.{invocation_in, invocation_kind};
ghost use Rattle.session_services.specs.Service.{invocation_credentials, invoke_of, leaves_running};
ghost use Rattle.session_services.specs.Service.{invocation_of};

use crate::return_start::StartRead;
use assoc_core::PduKind;
use ber_shape::Pdu;
use fcltu_pdu::{CltuStart, CltuTransfer, Throw};
use return_pdu::{GetParameter, RafStart, RcfStart, Schedule, Stop};
use sle_common::Credentials;
use station_config::Service;

/// What a bound user says to its service.
#[derive(Drop)]
pub enum Invocation<'a> {
    /// A START of RAF or of RCF.
    ReturnStart(StartRead<'a>),
    /// A START of FCLTU.
    CltuStart(CltuStart<'a>),
    /// A TRANSFER-DATA of FCLTU.
    Transfer(CltuTransfer<'a>),
    /// A THROW-EVENT of FCLTU.
    Throw(Throw<'a>),
    /// A STOP.
    Stop(Stop<'a>),
    /// A SCHEDULE-STATUS-REPORT.
    Schedule(Schedule<'a>),
    /// A GET-PARAMETER.
    Get(GetParameter<'a>),
    /// These octets, which the service doesn't decode.
    Undecoded(&'a [u8]),
}

// What a PDU says to RAF: a START, or else what every service decodes.
fn raf_read(octets: &[u8]) -> Invocation<'_>
    ensures { invocation_of result ≡ raf_read (whole raf_start.read octets.now) octets.now }
{
    match RafStart::decode(octets) {
        Ok(start) => Invocation::ReturnStart(StartRead::of_raf(start)),
        Err(_) => stop_read(octets),
    }
}

// What a PDU says to RCF.
fn rcf_read(octets: &[u8]) -> Invocation<'_>
    ensures { invocation_of result ≡ rcf_read (whole rcf_start.read octets.now) octets.now }
{
    match RcfStart::decode(octets) {
        Ok(start) => Invocation::ReturnStart(StartRead::of_rcf(start)),
        Err(_) => stop_read(octets),
    }
}

// What a PDU says to FCLTU: a START, a TRANSFER-DATA, a THROW-EVENT, or else what every service
// decodes.
fn cltu_read(octets: &[u8]) -> Invocation<'_>
    ensures { invocation_of result ≡ cltu_read (whole start_pdu.read octets.now) octets.now }
{
    match CltuStart::decode(octets) {
        Ok(start) => Invocation::CltuStart(start),
        Err(_) => transfer_read(octets),
    }
}

fn transfer_read(octets: &[u8]) -> Invocation<'_>
    ensures { invocation_of result
        ≡ transfer_read (whole transfer_pdu.read octets.now) octets.now }
{
    match CltuTransfer::decode(octets) {
        Ok(transfer) => Invocation::Transfer(transfer),
        Err(_) => throw_read(octets),
    }
}

fn throw_read(octets: &[u8]) -> Invocation<'_>
    ensures { invocation_of result ≡ throw_read (whole throw_pdu.read octets.now) octets.now }
{
    match Throw::decode(octets) {
        Ok(throw) => Invocation::Throw(throw),
        Err(_) => stop_read(octets),
    }
}

fn stop_read(octets: &[u8]) -> Invocation<'_>
    ensures { invocation_of result ≡ stop_read (whole stop.read octets.now) octets.now }
{
    match Stop::decode(octets) {
        Ok(stop) => Invocation::Stop(stop),
        Err(_) => schedule_read(octets),
    }
}

fn schedule_read(octets: &[u8]) -> Invocation<'_>
    ensures { invocation_of result ≡ schedule_read (whole schedule.read octets.now) octets.now }
{
    match Schedule::decode(octets) {
        Ok(schedule) => Invocation::Schedule(schedule),
        Err(_) => get_read(octets),
    }
}

fn get_read(octets: &[u8]) -> Invocation<'_>
    ensures { invocation_of result ≡ get_read (whole get_parameter.read octets.now) }
{
    match GetParameter::decode(octets) {
        Ok(get) => Invocation::Get(get),
        Err(_) => Invocation::Undecoded(octets),
    }
}

impl<'a> Invocation<'a> {
    /// What a PDU says to a service.
    pub fn read(service: &Service, octets: &'a [u8]) -> Invocation<'a>
        ensures { invocation_of result ≡ invocation_in service.now octets.now }
    {
        match service {
            Service::Raf { .. } => raf_read(octets),
            Service::Rcf { .. } => rcf_read(octets),
            Service::Cltu { .. } => cltu_read(octets),
        }
    }

    /// Its kind.
    pub fn kind(&self) -> PduKind<'a>
        ensures kind { kind_of result ≡ invocation_kind (invocation_of self.now) }
        ensures initiator { initiator_of result ≡ [] }
    {
        match self {
            Invocation::ReturnStart(_) | Invocation::CltuStart(_) => PduKind::Start,
            Invocation::Transfer(_) => PduKind::Transfer,
            Invocation::Throw(_) => PduKind::Throw,
            Invocation::Stop(_) => PduKind::Stop,
            Invocation::Schedule(_) => PduKind::Report,
            Invocation::Get(_) => PduKind::Parameter,
            Invocation::Undecoded(_) => PduKind::Undecoded,
        }
    }

    /// Its credentials; unused ones where it has none.
    pub fn credentials(&self) -> Credentials<'a>
        ensures { octets_of result ≡ invocation_credentials (invocation_of self.now) }
    {
        match self {
            Invocation::ReturnStart(start) => start.credentials(),
            Invocation::CltuStart(start) => start.credentials,
            Invocation::Transfer(transfer) => transfer.credentials,
            Invocation::Throw(throw) => throw.credentials,
            Invocation::Stop(stop) => stop.credentials,
            Invocation::Schedule(schedule) => schedule.credentials,
            Invocation::Get(get) => get.credentials,
            Invocation::Undecoded(_) => Credentials::Unused,
        }
    }

    /// Its number, which its return repeats.
    pub fn invoke(&self) -> u16
        ensures { result ≡ invoke_of (invocation_of self.now) }
    {
        match self {
            Invocation::ReturnStart(start) => start.invoke(),
            Invocation::CltuStart(start) => start.invoke,
            Invocation::Transfer(transfer) => transfer.invoke,
            Invocation::Throw(throw) => throw.invoke,
            Invocation::Stop(stop) => stop.invoke,
            Invocation::Schedule(schedule) => schedule.invoke,
            Invocation::Get(get) => get.invoke,
            Invocation::Undecoded(_) => 0,
        }
    }

    /// Whether a started service goes on behind it, where it passes.
    pub fn leaves_running(&self) -> bool
        ensures { result ≡ leaves_running (invocation_of self.now) }
    {
        match self {
            Invocation::Transfer(_)
            | Invocation::Throw(_)
            | Invocation::Schedule(_)
            | Invocation::Get(_) => true,
            Invocation::ReturnStart(_)
            | Invocation::CltuStart(_)
            | Invocation::Stop(_)
            | Invocation::Undecoded(_) => false,
        }
    }
}
