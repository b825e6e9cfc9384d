// A START of a return service that was decoded.
ghost use Rattle.std.specs.Prelude.{◌≡◌};
ghost use Rattle.sle_common.specs.Credentials.{credentials_of as octets_of};
ghost use Rattle.sle_common.specs.Gvcid.{gvcid};
ghost use Rattle.return_pdu.specs.Seen.{raf_start_of, rcf_start_of};
ghost use Rattle.return_service.specs.Requested.{FilterFits};
ghost use Rattle.session_services.specs.Starting.{of_raf, of_rcf};

use frame_select::Filter;
use return_pdu::{RafStart, RcfStart};
use return_service::ReturnStart;
use sle_common::Credentials;
use std::marker::Model;

/// Who sends it, its number, and what it asks for. A channel has its numbers in their ranges, as one
/// that was decoded has.
#[derive(Drop)]
pub struct StartRead<'a> {
    credentials: Credentials<'a>,
    invoke: u16,
    asks: ReturnStart,
}

impl<'a> Model for StartRead<'a> {
    ghost use Rattle.sle_common.specs.Credentials.{credentials_of};
    ghost use Rattle.return_service.specs.Requested.{FilterFits};
    ghost use Rattle.session_services.specs.Starting.{Starting};

    ghost Value = { Starting };

    ghost view = { λ s. record {
      credentials = credentials_of s.credentials;
      invoke = s.invoke;
      asks = s.asks;
    } };

    ghost invariant = { λ s. FilterFits s.asks.filter };
}

impl<'a> StartRead<'a> {
    // One of RAF.
    pub(crate) fn of_raf(start: RafStart<'a>) -> StartRead<'a>
        ensures { result ≡ of_raf (raf_start_of start.entry) }
    {
        StartRead {
            credentials: start.credentials,
            invoke: start.invoke,
            asks: ReturnStart {
                start: start.start,
                stop: start.stop,
                filter: Filter::Quality(start.quality),
            },
        }
    }

    // One of RCF.
    pub(crate) fn of_rcf(start: RcfStart<'a>) -> StartRead<'a>
        requires { gvcid.Fits start.channel }
        ensures { result ≡ of_rcf (rcf_start_of start.entry) }
    {
        StartRead {
            credentials: start.credentials,
            invoke: start.invoke,
            asks: ReturnStart {
                start: start.start,
                stop: start.stop,
                filter: Filter::Channel(start.channel),
            },
        }
    }

    pub(crate) fn credentials(&self) -> Credentials<'a>
        ensures { octets_of result ≡ self.now.credentials }
    {
        self.credentials
    }

    pub(crate) fn invoke(&self) -> u16
        ensures { result ≡ self.now.invoke }
    {
        self.invoke
    }

    pub(crate) fn asks(&self) -> ReturnStart
        ensures exact { result ≡ self.now.asks }
        ensures fits { FilterFits result.filter }
    {
        self.asks
    }
}
