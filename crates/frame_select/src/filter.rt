// What a START asks of a frame's quality or channel.
ghost use Rattle.std.specs.Prelude.{◌≡◌, option_map};
ghost use Rattle.archive_terms.specs.Archive.{Frame};
ghost use Rattle.archive_terms.specs.Selection.{channel_of, fits};
ghost use Rattle.sle_numbers.specs.FrameQuality.{number_of as quality_number};
ghost use Rattle.frame_select.specs.Selection.{id_of};

use crate::channel::is_of_channel;
use sle_common::Gvcid;
use sle_numbers::{FrameQuality, RequestedFrameQuality};

/// Which frames a START asks for.
#[derive(Clone, Copy, Debug, PartialEq, Eq)]
pub enum Filter {
    /// RAF: the frames of a quality, or all (CCSDS 911.1-B, requested-frame-quality).
    Quality(RequestedFrameQuality),
    /// RCF: the good frames of a channel (CCSDS 911.2-B, requested-global-VCID).
    Channel(Gvcid),
}

impl Filter {
    ghost use Rattle.frame_select.specs.Selection.{filter_of};

    // Whether a frame of this quality and channel is asked for.
    pub(crate) fn fits(&self, quality: FrameQuality, channel: Option<Gvcid>) -> bool
        ensures { (f : Frame) → f.quality ≡ quality_number quality
            → channel_of f.octets ≡ option_map id_of channel
            → result ≡ fits (filter_of self.now) f }
    {
        match self {
            Filter::Quality(wanted) => match wanted {
                RequestedFrameQuality::GoodFramesOnly => quality == FrameQuality::Good,
                RequestedFrameQuality::ErredFrameOnly => quality == FrameQuality::Erred,
                RequestedFrameQuality::AllFrames => true,
            },
            Filter::Channel(wanted) => {
                quality == FrameQuality::Good
                    && channel.is_some_and(|found| is_of_channel(wanted, &found))
            }
        }
    }
}
