// The PDUs of the return services in words.

use crate::in_words::InWords;
use crate::text::Text;
use crate::time::{put_time, put_when};
use crate::values::{
    put_antenna, put_channel, put_confirmation, put_credentials, put_invoker, put_named,
    put_performer,
};
use cds_time::Cds;
use return_pdu::{
    Notification, RafReport, RafStart, RcfReport, RcfStart, StartReturn, TransferBuffer,
    TransferItem,
};
use sle_numbers::{LockStatus, Numbered, ReturnProductionStatus, ReturnStartDiagnostic};

impl InWords for RafStart<'_> {
    fn put_words(&self, text: &mut Text) {
        put_invoker(&self.credentials, self.invoke, text);
        put_when("startTime", &self.start, text);
        put_when("stopTime", &self.stop, text);
        text.field("requestedFrameQuality", self.quality.word());
    }
}

impl InWords for RcfStart<'_> {
    fn put_words(&self, text: &mut Text) {
        put_invoker(&self.credentials, self.invoke, text);
        put_when("startTime", &self.start, text);
        put_when("stopTime", &self.stop, text);
        put_channel(&self.channel, text);
    }
}

impl InWords for StartReturn<'_> {
    fn put_words(&self, text: &mut Text) {
        put_performer(&self.credentials, self.invoke, text);
        put_confirmation::<ReturnStartDiagnostic>(&self.result, text);
    }
}

/// Appends a transfer buffer: each of its items.
pub fn put_items(buffer: TransferBuffer<'_>, text: &mut Text) {
    let mut buffer = buffer;
    while let Some(item) = buffer.next() {
        put_item(&item, text);
    }
}

fn put_item(item: &TransferItem<'_>, text: &mut Text) {
    match item {
        TransferItem::Frame { .. } => put_frame(item, text),
        TransferItem::Told {
            credentials,
            notice,
        } => {
            text.title("SYNC-NOTIFY invocation");
            put_credentials("invokerCredentials", credentials, text);
            put_notice(notice, text);
        }
    }
}

fn put_frame(item: &TransferItem<'_>, text: &mut Text) {
    if let TransferItem::Frame {
        credentials,
        ert,
        antenna,
        continuity,
        quality,
        note,
        octets,
    } = item
    {
        text.title("TRANSFER-DATA invocation");
        put_credentials("invokerCredentials", credentials, text);
        put_time("earthReceiveTime", ert, text);
        put_antenna(antenna, text);
        put_continuity(u32::try_from(*continuity).ok(), text);
        if let Some(quality) = quality {
            text.field("deliveredFrameQuality", quality.word());
        }
        match note {
            Some(note) => text.hex("privateAnnotation", note),
            None => text.field("privateAnnotation", "null"),
        }
        text.hex("data", octets);
    }
}

/// Appends how many frames are missing before one, where it is known.
pub fn put_continuity(missing: Option<u32>, text: &mut Text) {
    match missing {
        Some(missing) => {
            text.begin("dataLinkContinuity");
            text.put_number(i128::from(missing));
            text.put(" frames missing");
            text.end();
        }
        None => text.field("dataLinkContinuity", "not known"),
    }
}

/// Appends what a station tells between frames.
pub fn put_notice(notice: &Notification, text: &mut Text) {
    match notice {
        Notification::Loss {
            at,
            carrier,
            subcarrier,
            symbol,
        } => {
            text.field("notification", "lossFrameSync");
            put_loss(at, [*carrier, *subcarrier, *symbol], text);
        }
        Notification::Production(status) => {
            text.field("notification", "productionStatusChange");
            put_named::<ReturnProductionStatus>("productionStatus", *status, text);
        }
        Notification::Backlog => text.field("notification", "excessiveDataBacklog"),
        Notification::EndOfData => text.field("notification", "endOfData"),
    }
}

/// Appends when the frame synchroniser lost its lock, and the statuses of the carrier's, the
/// subcarrier's and the symbols' lock.
pub fn put_loss(at: &Cds, locks: [LockStatus; 3], text: &mut Text) {
    let [carrier, subcarrier, symbol] = locks;
    put_time("time", at, text);
    text.field("carrierLockStatus", carrier.word());
    text.field("subcarrierLockStatus", subcarrier.word());
    text.field("symbolSyncLockStatus", symbol.word());
}

impl InWords for RafReport<'_> {
    fn put_words(&self, text: &mut Text) {
        put_credentials("invokerCredentials", &self.credentials, text);
        text.number("errorFreeFrameNumber", self.error_free);
        text.number("deliveredFrameNumber", self.delivered);
        put_locks(
            [self.frame_sync, self.symbol, self.subcarrier, self.carrier],
            text,
        );
        put_named::<ReturnProductionStatus>("productionStatus", self.production, text);
    }
}

impl InWords for RcfReport<'_> {
    fn put_words(&self, text: &mut Text) {
        put_credentials("invokerCredentials", &self.credentials, text);
        text.number("deliveredFrameNumber", self.delivered);
        put_locks(
            [self.frame_sync, self.symbol, self.subcarrier, self.carrier],
            text,
        );
        put_named::<ReturnProductionStatus>("productionStatus", self.production, text);
    }
}

/// Appends the locks of the frame synchroniser, the symbol synchroniser, the subcarrier and the
/// carrier.
pub fn put_locks(locks: [i128; 4], text: &mut Text) {
    let [frame_sync, symbol, subcarrier, carrier] = locks;
    put_named::<LockStatus>("frameSyncLockStatus", frame_sync, text);
    put_named::<LockStatus>("symbolSyncLockStatus", symbol, text);
    put_named::<LockStatus>("subcarrierLockStatus", subcarrier, text);
    put_named::<LockStatus>("carrierLockStatus", carrier, text);
}
