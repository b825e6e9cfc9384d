// The messages of invocations.
ghost use Rattle.std.specs.Prelude.{◌≡◌, ◌++◌, ◌<◌, ◌≤◌, true, IsTrue, OnOk, length};
ghost use Rattle.ber_shape.specs.Members.{structured};
ghost use Rattle.bind_pdu.specs.Binding.{bind};
ghost use Rattle.cds_time.specs.declared.cds.TheConstants.{MOMENT_END};
ghost use Rattle.fcltu_pdu.specs.Transfer.{transfer_of, transfer_pdu};
ghost use Rattle.isp1_auth.specs.declared.random_numbers.TheConstants.{GREATEST_NUMBER};
ghost use Rattle.sle_common.specs.Credentials.{credentials as credentials_element, credentials_of};
ghost use Rattle.sle_common.specs.Time.{time as time_element, conditional_time};
ghost use Rattle.return_pdu.specs.Scheduling.{schedule};
ghost use Rattle.return_pdu.specs.Seen.{raf_start_of, rcf_start_of};
ghost use Rattle.return_pdu.specs.Starting.{raf_start, rcf_start};
ghost use Rattle.user_task.specs.Fitting.{fits_gvcid, fits_said, fits_start, fits_line, is_name};
ghost use Rattle.user_task.specs.Invocation.{said_of};
ghost use Rattle.user_task.specs.Message.{message_of, is_short, bind_said, schedule_said, transfer_said};
ghost use Rattle.user_task.specs.Message.{start_message, message, credentials_of_task};

use crate::cltus::CltuLine;
use crate::invocation::Invocation;
use crate::signature::Signature;
use crate::task::{Signing, Task};
use crate::work::Work;
use ber_core::Writer;
use ber_shape::Pdu;
use bind_pdu::{Bind, Unbind};
use cds_time::Cds;
use fcltu_pdu::{CltuStart, CltuTransfer};
use isp1_tml::{HEADER, head};
use return_pdu::{RafStart, RcfStart, Schedule, Stop};
use sle_common::{Credentials, InstanceRef, ReportKind};
use sle_numbers::{Numbered, UnbindReason};
use std::alloc::{AllocError, Global};

// The port from which a user binds.
const PORT: &[u8] = b"PORT1";

// The version of the services that a user binds to.
const VERSION: u16 = 5;

// The kind of a transport message that is a PDU.
const PDU: u8 = 1;

impl Task {
    /// Appends the message of one of its invocations. `invoke` is its invoke identifier, where it
    /// has one; where the user has a password, its credentials are made at `now`, in picoseconds
    /// since 1958-01-01, with `number`.
    pub fn put(
        &self,
        alloc: Global,
        invocation: Invocation<'_>,
        invoke: u16,
        number: u32,
        now: u128,
        into: &mut Vec<u8>,
    ) -> Result<(), AllocError>
        requires fits { IsTrue (fits_said self.now (said_of invocation)) }
        requires number { number ≤ GREATEST_NUMBER }
        requires moment { now < MOMENT_END }
        ensures { OnOk result (into.new.items ≡ into.old.items
            ++ message self.now (said_of invocation.entry) invoke
            (credentials_of_task self.now number now)) }
    {
        match &self.signing {
            Signing::Unused => {
                self.put_with(alloc, invocation, invoke, Credentials::Unused, into)
            }
            Signing::Used { hash, octets } => {
                let name = self.name.as_slice();
                let signature = Signature::of(name, *hash, octets.as_slice(), number, now);
                let credentials = signature.credentials();
                self.put_with(alloc, invocation, invoke, credentials, into)
            }
        }
    }

    fn put_with(
        &self,
        alloc: Global,
        invocation: Invocation<'_>,
        invoke: u16,
        credentials: Credentials<'_>,
        into: &mut Vec<u8>,
    ) -> Result<(), AllocError>
        requires fits { IsTrue (fits_said self.now (said_of invocation)) }
        requires signed { credentials_element.Fits (credentials_of credentials) }
        ensures { OnOk result (into.new.items ≡ into.old.items
            ++ message self.now (said_of invocation.entry) invoke
            (credentials_of credentials.entry)) }
    {
        match invocation {
            Invocation::Bind => self.put_bind(alloc, credentials, into),
            Invocation::Start => put_start(alloc, &self.work, invoke, credentials, into),
            Invocation::Schedule(cycle) => put_schedule(alloc, cycle, invoke, credentials, into),
            Invocation::Transfer(line) => put_transfer(alloc, line, invoke, credentials, into),
            Invocation::Stop => {
                let stop = Stop {
                    credentials,
                    invoke,
                };
                put_pdu(alloc, &stop, into)
            }
            Invocation::Unbind => {
                let reason = UnbindReason::End.number();
                let unbind = Unbind {
                    credentials,
                    reason,
                };
                put_pdu(alloc, &unbind, into)
            }
        }
    }

    #[tactic(auto, using(crate::proofs::Fits::bind_fits))]
    fn put_bind(
        &self,
        alloc: Global,
        credentials: Credentials<'_>,
        into: &mut Vec<u8>,
    ) -> Result<(), AllocError>
        requires name { IsTrue (is_name self.now.name) }
        requires signed { credentials_element.Fits (credentials_of credentials) }
        ensures { OnOk result (into.new.items ≡ into.old.items
            ++ message_of bind (bind_said self.now (credentials_of credentials.entry))) }
    {
        let service = u16::from(self.work.service().number());
        self.instance.parts();
        let bind = Bind {
            credentials,
            initiator: self.name.as_slice(),
            port: PORT,
            service,
            version: VERSION,
            instance: InstanceRef::Own(&self.instance),
        };
        put_pdu(alloc, &bind, into)
    }
}

fn put_start(
    alloc: Global,
    work: &Work,
    invoke: u16,
    credentials: Credentials<'_>,
    into: &mut Vec<u8>,
) -> Result<(), AllocError>
    requires fits { IsTrue (fits_start work.now) }
    requires signed { credentials_element.Fits (credentials_of credentials) }
    ensures { OnOk result (into.new.items ≡ into.old.items
        ++ start_message work.now invoke (credentials_of credentials.entry)) }
{
    match work {
        Work::Show { .. } => Ok(()),
        Work::Raf {
            start,
            stop,
            quality,
            ..
        } => {
            let said = RafStart {
                credentials,
                invoke,
                start: *start,
                stop: *stop,
                quality: *quality,
            };
            put_raf(alloc, said, into)
        }
        Work::Rcf {
            start,
            stop,
            channel,
            ..
        } => {
            let said = RcfStart {
                credentials,
                invoke,
                start: *start,
                stop: *stop,
                channel: *channel,
            };
            put_rcf(alloc, said, into)
        }
        Work::Cltu { first, .. } => {
            let said = CltuStart {
                credentials,
                invoke,
                first: *first,
            };
            put_pdu(alloc, &said, into)
        }
    }
}

// The fields of a time fit in their octets, by their types.
#[tactic(auto, using(crate::proofs::Fits::time_fits))]
fn time_fits(time: Cds)
    ensures { time_element.Fits time }
{
    let _ = time;
}

#[tactic(auto, using(crate::proofs::Fits::conditional_fits))]
fn conditional_fits(time: Option<Cds>)
    ensures { conditional_time.Fits time }
{
    if let Some(time) = time {
        time_fits(time);
    }
}

#[tactic(auto, using(crate::proofs::Fits::raf_fits))]
fn put_raf(alloc: Global, said: RafStart<'_>, into: &mut Vec<u8>) -> Result<(), AllocError>
    requires { credentials_element.Fits (credentials_of said.credentials) }
    ensures { OnOk result (into.new.items ≡ into.old.items
        ++ message_of raf_start (raf_start_of said.entry)) }
{
    conditional_fits(said.start);
    conditional_fits(said.stop);
    put_pdu(alloc, &said, into)
}

#[tactic(auto, using(crate::proofs::Fits::rcf_fits))]
fn put_rcf(alloc: Global, said: RcfStart<'_>, into: &mut Vec<u8>) -> Result<(), AllocError>
    requires signed { credentials_element.Fits (credentials_of said.credentials) }
    requires channel { IsTrue (fits_gvcid said.channel) }
    ensures { OnOk result (into.new.items ≡ into.old.items
        ++ message_of rcf_start (rcf_start_of said.entry)) }
{
    conditional_fits(said.start);
    conditional_fits(said.stop);
    put_pdu(alloc, &said, into)
}

// Asks for a status report each so many seconds.
#[tactic(auto, using(crate::proofs::Fits::schedule_fits))]
fn put_schedule(
    alloc: Global,
    cycle: u16,
    invoke: u16,
    credentials: Credentials<'_>,
    into: &mut Vec<u8>,
) -> Result<(), AllocError>
    requires { credentials_element.Fits (credentials_of credentials) }
    ensures { OnOk result (into.new.items ≡ into.old.items
        ++ message_of schedule (schedule_said cycle invoke (credentials_of credentials.entry))) }
{
    let schedule = Schedule {
        credentials,
        invoke,
        report: ReportKind::Cycle(cycle),
    };
    put_pdu(alloc, &schedule, into)
}

#[tactic(auto, using(crate::proofs::Fits::line_parts))]
fn put_transfer(
    alloc: Global,
    line: &CltuLine,
    invoke: u16,
    credentials: Credentials<'_>,
    into: &mut Vec<u8>,
) -> Result<(), AllocError>
    requires fits { IsTrue (fits_line line.now) }
    requires signed { credentials_element.Fits (credentials_of credentials) }
    ensures { OnOk result (into.new.items ≡ into.old.items
        ++ message_of transfer_pdu
        (transfer_said line.now invoke (credentials_of credentials.entry))) }
{
    let transfer = CltuTransfer {
        credentials,
        invoke,
        id: line.id,
        earliest: line.earliest,
        latest: line.latest,
        radiation_delay: line.radiation_delay,
        wanted: line.wanted,
        octets: line.octets.as_slice(),
    };
    put_transferred(alloc, transfer, into)
}

#[tactic(auto, using(crate::proofs::Fits::transfer_fits))]
fn put_transferred(
    alloc: Global,
    transfer: CltuTransfer<'_>,
    into: &mut Vec<u8>,
) -> Result<(), AllocError>
    requires signed { credentials_element.Fits (credentials_of transfer.credentials) }
    requires some { 1 ≤ length transfer.octets.now }
    requires few { length transfer.octets.now ≤ 65536 }
    ensures { OnOk result (into.new.items ≡ into.old.items
        ++ message_of transfer_pdu (transfer_of transfer.entry)) }
{
    conditional_fits(transfer.earliest);
    conditional_fits(transfer.latest);
    put_pdu(alloc, &transfer, into)
}

// Appends the message of a PDU.
#[tactic(auto, using(crate::proofs::Fits::few_octets))]
fn put_pdu<'a, P: Pdu<'a>>(alloc: Global, pdu: &P, into: &mut Vec<u8>) -> Result<(), AllocError>
    requires fits { P.Members.shape.Fits (P.Members.seen pdu.now) }
    requires short { is_short (structured P.tag P.Members.shape P.is_tag) ≡ true }
    ensures { OnOk result (into.new.items ≡ into.old.items
        ++ message_of (structured P.tag P.Members.shape P.is_tag) (P.Members.seen pdu.now)) }
{
    let length = pdu.length();
    let mut writer = Writer::new(alloc, HEADER + length).map_err(AllocError::from)?;
    writer.raw(&head(PDU, length as u32));
    pdu.encode(&mut writer);
    into.extend_from_slice(writer.octets())
}
