// The words of delivery modes.
ghost use Rattle.std.specs.Prelude.{◌≡◌};
ghost use Rattle.station_config.specs.Kinds.{is_latency};

use sle_numbers::ReturnDeliveryMode;
use std::alloc::{AllocError, Global};
use words::{Unread, Word};

const TIMELY: &[u8] = b"timely";

const COMPLETE: &[u8] = b"complete";

const OFFLINE: &[u8] = b"offline";

/// A delivery mode: `timely`, `complete` or `offline`.
pub(crate) struct ModeWord;

impl Word for ModeWord {
    ghost use Rattle.sle_numbers.specs.declared.return_delivery_mode.ReturnDeliveryMode.{ReturnDeliveryMode};
    ghost use Rattle.station_config.specs.Kinds.{mode};

    type Value = ReturnDeliveryMode;

    ghost Seen = { ReturnDeliveryMode };

    ghost kind = { mode };

    ghost seen = { λ value. value };

    fn read(_: Global, word: &[u8]) -> Result<ReturnDeliveryMode, Unread> {
        if word == TIMELY {
            Ok(ReturnDeliveryMode::TimelyOnline)
        } else if word == COMPLETE {
            Ok(ReturnDeliveryMode::CompleteOnline)
        } else if word == OFFLINE {
            Ok(ReturnDeliveryMode::Offline)
        } else {
            Err(Unread::Bad)
        }
    }

    fn write(value: &ReturnDeliveryMode, into: &mut Vec<u8>) -> Result<(), AllocError> {
        into.extend_from_slice(match value {
            ReturnDeliveryMode::TimelyOnline => TIMELY,
            ReturnDeliveryMode::CompleteOnline => COMPLETE,
            ReturnDeliveryMode::Offline => OFFLINE,
        })
    }
}

/// Whether an instance of a mode may have this latency: an offline one has none, any other one at
/// least 1 second.
pub(crate) fn may_have_latency(mode: ReturnDeliveryMode, latency: u32) -> bool
    ensures { result ≡ is_latency mode latency }
{
    match mode {
        ReturnDeliveryMode::TimelyOnline | ReturnDeliveryMode::CompleteOnline => latency >= 1,
        ReturnDeliveryMode::Offline => latency == 0,
    }
}
