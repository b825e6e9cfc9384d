// What a START selects.
ghost use Rattle.std.specs.Prelude.{◌≡◌, ◌&&◌, option_map};
ghost use Rattle.cds_time.specs.Moment.{moment_of};
ghost use Rattle.archive_terms.specs.Archive.{Frame, frame};
ghost use Rattle.archive_terms.specs.Selection.{channel_of, is_not_before, is_not_after, admits};
ghost use Rattle.sle_numbers.specs.FrameQuality.{number_of as quality_number};
ghost use Rattle.record_form.specs.Entry.{entry_of};
ghost use Rattle.frame_select.specs.Selection.{id_of, selection_of};

use crate::channel::channel_of;
use crate::filter::Filter;
use record_form::Entry;
use sle_common::Gvcid;
use sle_numbers::FrameQuality;

/// A START's selection of the archive.
#[derive(Clone, Copy, Debug, PartialEq, Eq)]
pub struct Selection {
    pub filter: Filter,
    /// The first moment and the last one, in picoseconds since 1958, where they are known.
    pub start: Option<u128>,
    pub stop: Option<u128>,
    /// The first position: a place in the archive, from 0.
    pub first: u64,
    /// Whether losses of synchronisation and production changes are told, as online modes do.
    pub notices: bool,
}

impl Selection {
    /// Whether a frame at this place is asked for, by the moment of its time, its quality and its
    /// channel.
    pub fn admits_frame(
        &self,
        place: u64,
        moment: Option<u128>,
        quality: FrameQuality,
        channel: Option<Gvcid>,
    ) -> bool
        ensures { (f : Frame) → moment_of f.ert ≡ moment → f.quality ≡ quality_number quality
            → channel_of f.octets ≡ option_map id_of channel
            → result ≡ admits (selection_of self.now) place (frame f) }
    {
        self.first <= place
            && self.filter.fits(quality, channel)
            && moment.is_some_and(|time| self.spans(time))
    }

    // Whether a moment lies between start and stop, where they are known.
    fn spans(&self, time: u128) -> bool
        ensures { result ≡ (is_not_before self.now.start time && is_not_after self.now.stop time) }
    {
        self.start.is_none_or(|start| start <= time) && self.stop.is_none_or(|stop| time <= stop)
    }
}

/// Whether the entry at a place is a frame that the selection asks for.
pub fn admits(selection: &Selection, place: u64, entry: &Entry) -> bool
    ensures { result ≡ admits (selection_of selection.now) place (entry_of entry.now) }
{
    match entry {
        Entry::Frame {
            ert,
            quality,
            octets,
            ..
        } => {
            let channel = channel_of(octets.as_slice());
            selection.admits_frame(place, ert.moment(), *quality, channel)
        }
        _ => false,
    }
}
