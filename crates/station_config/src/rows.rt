// The rows of words that only a configuration has.

use crate::channels::Channels;
use crate::heartbeat::Heartbeat;
use crate::mode_word::{ModeWord, may_have_latency};
use octet_core::Octets;
use sle_numbers::ReturnDeliveryMode;
use std::alloc::Global;
use words::{ChannelWord, Last, Many, Number, Octet, Short, Then, Unread, Words};

type SpanWords = Then<Short<1, 3_600>, Then<Short<1, 3_600>, FactorWords>>;

type FactorWords = Then<Short<2, 100>, Last<Short<2, 100>>>;

/// `A B C D`: intervals from A to B, and dead factors from C to D.
pub(crate) struct HeartbeatRow;

impl Words for HeartbeatRow {
    ghost use Rattle.station_config.specs.Grammar.{Spans, heartbeat_row};

    type Value = Heartbeat;

    ghost Seen = { Spans };

    ghost kinds = { heartbeat_row };

    ghost seen = { λ h. (h.interval_from, (h.interval_to, (h.factor_from, h.factor_to))) };

    fn read(alloc: Global, separator: u8, words: Option<&[u8]>) -> Result<Heartbeat, Unread> {
        let (interval_from, (interval_to, (factor_from, factor_to))) = SpanWords::read(
            alloc, separator, words,
        )?;
        if interval_from <= interval_to && factor_from <= factor_to {
            Ok(Heartbeat {
                interval_from,
                interval_to,
                factor_from,
                factor_to,
            })
        } else {
            Err(Unread::Bad)
        }
    }

    fn takes(count: usize) -> bool {
        SpanWords::takes(count)
    }
}

type VersionWords = Many<Octet<4, 9>, 1, 4>;

/// `N..`: 1 to 4 versions.
pub(crate) struct VersionsRow;

impl Words for VersionsRow {
    ghost use Rattle.std.specs.Prelude.{ℕ, List};
    ghost use Rattle.station_config.specs.Grammar.{versions_row};

    type Value = Octets;

    ghost Seen = { List ℕ };

    ghost kinds = { versions_row };

    ghost seen = { λ octets. octets };

    #[tactic(auto, using(crate::specs::Same::same_values))]
    fn read(alloc: Global, separator: u8, words: Option<&[u8]>) -> Result<Octets, Unread> {
        let versions = VersionWords::read(alloc, separator, words)?;
        Ok(Octets::from_vec(alloc, versions)?)
    }

    fn takes(count: usize) -> bool {
        VersionWords::takes(count)
    }
}

type DeliveryWords = Then<ModeWord, Then<Number<1, 1_000>, TimeWords>>;

type TimeWords = Then<Number<0, 3_600>, Last<Short<1, 600>>>;

/// `MODE SIZE LATENCY TIMEOUT`.
pub(crate) struct DeliveryRow;

impl Words for DeliveryRow {
    ghost use Rattle.station_config.specs.Grammar.{Delivery, delivery_row};

    type Value = (ReturnDeliveryMode, (u32, (u32, u16)));

    ghost Seen = { Delivery };

    ghost kinds = { delivery_row };

    ghost seen = { λ value. (value.0, (value.1.0, (value.1.1.0, value.1.1.1))) };

    fn read(
        alloc: Global,
        separator: u8,
        words: Option<&[u8]>,
    ) -> Result<(ReturnDeliveryMode, (u32, (u32, u16))), Unread> {
        let (mode, (size, (latency, timeout))) = DeliveryWords::read(alloc, separator, words)?;
        if may_have_latency(mode, latency) {
            Ok((mode, (size, (latency, timeout))))
        } else {
            Err(Unread::Bad)
        }
    }

    fn takes(count: usize) -> bool {
        DeliveryWords::takes(count)
    }
}

type ChannelDeliveryWords = Then<ModeWord, Then<Number<1, 1_000>, ChannelTimeWords>>;

type ChannelTimeWords = Then<Number<0, 3_600>, Then<Short<1, 600>, Many<ChannelWord, 1, 8>>>;

/// `MODE SIZE LATENCY TIMEOUT CHANNEL..`.
pub(crate) struct ChannelDeliveryRow;

impl Words for ChannelDeliveryRow {
    ghost use Rattle.station_config.specs.Grammar.{ChannelDelivery, channel_delivery_row};

    type Value = (ReturnDeliveryMode, (u32, (u32, (u16, Channels))));

    ghost Seen = { ChannelDelivery };

    ghost kinds = { channel_delivery_row };

    ghost seen = { λ value. (value.0, (value.1.0, (value.1.1.0, (value.1.1.1.0, value.1.1.1.1)))) };

    #[tactic(auto, using(crate::specs::Same::same_values))]
    fn read(
        alloc: Global,
        separator: u8,
        words: Option<&[u8]>,
    ) -> Result<(ReturnDeliveryMode, (u32, (u32, (u16, Channels)))), Unread> {
        let (mode, (size, (latency, (timeout, channels)))) = ChannelDeliveryWords::read(
            alloc, separator, words,
        )?;
        if may_have_latency(mode, latency) {
            let channels = Channels::from_vec(channels);
            Ok((mode, (size, (latency, (timeout, channels)))))
        } else {
            Err(Unread::Bad)
        }
    }

    fn takes(count: usize) -> bool {
        ChannelDeliveryWords::takes(count)
    }
}
