// What the lines of a list say.

use explain_words::{Text, put_loss, put_time};
use record_form::Entry;
use sle_numbers::Numbered;

/// Appends what a line of a list says.
pub fn put_entry(entry: &Entry, text: &mut Text) {
    match entry {
        Entry::Frame { .. } => put_frame(entry, text),
        Entry::LossOfSync {
            at,
            carrier,
            subcarrier,
            symbol,
        } => {
            text.title("frame synchronisation was lost");
            put_loss(at, [*carrier, *subcarrier, *symbol], text);
        }
        Entry::Production { status } => {
            text.title("the production status changed");
            text.field("productionStatus", status.word());
        }
        Entry::Seal { at } => {
            text.title("the archive is sealed: each later frame has a later time");
            put_time("time", at, text);
        }
    }
}

fn put_frame(entry: &Entry, text: &mut Text) {
    if let Entry::Frame {
        ert,
        quality,
        antenna,
        lost,
        octets,
    } = entry
    {
        text.title("a frame was received");
        put_time("earthReceiveTime", ert, text);
        text.field("deliveredFrameQuality", quality.word());
        text.hex("antennaId", antenna.as_slice());
        text.number("frames lost before it", i128::from(*lost));
        text.hex("data", octets.as_slice());
    }
}
