// The PDUs of the forward service in words.

use crate::in_words::InWords;
use crate::text::Text;
use crate::time::{put_time, put_when};
use crate::values::{
    put_confirmation, put_credentials, put_diagnostic, put_invoker, put_named, put_performer,
};
use cds_time::Cds;
use fcltu_numbers::{
    CltuProductionStatus, CltuStartDiagnostic, CltuStatus, CltuThrowEventDiagnostic,
    CltuTransferDataDiagnostic, UplinkStatus,
};
use fcltu_pdu::{
    Async, CltuReport, CltuStart, CltuStartReturn, CltuTransfer, Throw, ThrowReturn, TransferReturn,
};
use sle_numbers::Numbered;

impl InWords for CltuStart<'_> {
    fn put_words(&self, text: &mut Text) {
        put_invoker(&self.credentials, self.invoke, text);
        text.number("firstCltuIdentification", i128::from(self.first));
    }
}

impl InWords for CltuStartReturn<'_> {
    fn put_words(&self, text: &mut Text) {
        put_performer(&self.credentials, self.invoke, text);
        match &self.result {
            Ok((start, stop)) => {
                put_time("startRadiationTime", start, text);
                put_when("stopRadiationTime", stop, text);
            }
            Err(diagnostic) => put_diagnostic::<CltuStartDiagnostic>(diagnostic, text),
        }
    }
}

impl InWords for CltuTransfer<'_> {
    fn put_words(&self, text: &mut Text) {
        put_invoker(&self.credentials, self.invoke, text);
        text.number("cltuIdentification", i128::from(self.id));
        put_when("earliestTransmissionTime", &self.earliest, text);
        put_when("latestTransmissionTime", &self.latest, text);
        text.begin("delayTime");
        text.put_number(i128::from(self.radiation_delay));
        text.put(" us");
        text.end();
        let notification = if self.wanted {
            "produceNotification"
        } else {
            "doNotProduceNotification"
        };
        text.field("slduRadiationNotification", notification);
        text.hex("cltuData", self.octets);
    }
}

impl InWords for TransferReturn<'_> {
    fn put_words(&self, text: &mut Text) {
        put_performer(&self.credentials, self.invoke, text);
        text.number("cltuIdentification", i128::from(self.next));
        put_room(self.free, text);
        put_confirmation::<CltuTransferDataDiagnostic>(&self.result, text);
    }
}

/// Appends how many octets are free for CLTUs.
pub fn put_room(free: i128, text: &mut Text) {
    text.begin("cltuBufferAvailable");
    text.put_number(free);
    text.put(" octets");
    text.end();
}

impl InWords for Throw<'_> {
    fn put_words(&self, text: &mut Text) {
        put_invoker(&self.credentials, self.invoke, text);
        text.number("eventInvocationIdentification", i128::from(self.number));
        text.number("eventIdentifier", i128::from(self.event));
        text.hex("eventQualifier", self.qualifier);
    }
}

impl InWords for ThrowReturn<'_> {
    fn put_words(&self, text: &mut Text) {
        put_performer(&self.credentials, self.invoke, text);
        text.number("eventInvocationIdentification", i128::from(self.number));
        put_confirmation::<CltuThrowEventDiagnostic>(&self.result, text);
    }
}

impl InWords for Async<'_> {
    fn put_words(&self, text: &mut Text) {
        put_credentials("invokerCredentials", &self.credentials, text);
        text.field("cltuNotification", self.kind.word());
        if let Some(number) = self.number {
            text.number("eventInvocationIdentification", i128::from(number));
        }
        put_processed(&self.processed, text);
        put_radiated(&self.ok, text);
        put_statuses(self.production, self.uplink, text);
    }
}

impl InWords for CltuReport<'_> {
    fn put_words(&self, text: &mut Text) {
        put_credentials("invokerCredentials", &self.credentials, text);
        put_processed(&self.processed, text);
        put_radiated(&self.ok, text);
        put_statuses(self.production, self.uplink, text);
        put_counts([self.received, self.taken, self.radiated], text);
        put_room(self.free, text);
    }
}

/// Appends the status of production and that of the uplink.
pub fn put_statuses(production: i128, uplink: i128, text: &mut Text) {
    put_named::<CltuProductionStatus>("cltuProductionStatus", production, text);
    put_named::<UplinkStatus>("uplinkStatus", uplink, text);
}

/// Appends how many CLTUs were received, processed and radiated.
pub fn put_counts(counts: [i128; 3], text: &mut Text) {
    let [received, processed, radiated] = counts;
    text.number("numberOfCltusReceived", received);
    text.number("numberOfCltusProcessed", processed);
    text.number("numberOfCltusRadiated", radiated);
}

// Appends the last CLTU that was taken to radiate.
fn put_processed(processed: &Option<(u32, Option<Cds>, i128)>, text: &mut Text) {
    match processed {
        None => text.field("cltuLastProcessed", "noCltuProcessed"),
        Some((id, start, status)) => {
            text.number("cltuLastProcessed, cltuIdentification", i128::from(*id));
            put_when("cltuLastProcessed, radiationStartTime", start, text);
            put_named::<CltuStatus>("cltuLastProcessed, cltuStatus", *status, text);
        }
    }
}

// Appends the last CLTU that was radiated.
fn put_radiated(radiated: &Option<(u32, Cds)>, text: &mut Text) {
    match radiated {
        None => text.field("cltuLastOk", "noCltuOk"),
        Some((id, stop)) => {
            text.number("cltuLastOk, cltuIdentification", i128::from(*id));
            put_time("cltuLastOk, radiationStopTime", stop, text);
        }
    }
}
