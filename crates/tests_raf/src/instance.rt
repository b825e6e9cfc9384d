// An instance of RAF or RCF.
ghost use Rattle.std.specs.Prelude.{◌<◌};
ghost use Rattle.cds_time.specs.declared.cds.TheConstants.{MOMENT_END};

use crate::words;
use frame_select::{Glimpse, Item, Want};
use octet_core::Offer;
use raf_service::Raf;
use rcf_service::Rcf;
use return_core::{Delivery, are_of_archive};
use return_pdu::{ReturnAnswer, ReturnNumbers};
use sle_common::Gvcid;
use sle_numbers::ReturnDeliveryMode;
use std::alloc::{AllocError, Global};

/// The services, of which RCF has the channels `1/1/63` and `2/0/*`.
#[derive(Clone, Copy, Debug, PartialEq, Eq)]
pub enum Kind {
    Raf,
    Rcf,
}

/// What an instance is made of: buffers of so many items, which wait so many seconds, and a return
/// timeout of 60 seconds.
#[derive(Clone, Copy)]
pub struct Terms {
    pub kind: Kind,
    pub mode: ReturnDeliveryMode,
    pub size: u32,
    pub latency: u32,
}

#[derive(Drop)]
pub enum Instance {
    Raf(Raf),
    Rcf(Rcf),
}

const TIMEOUT: u16 = 60;

const PICOS_A_SECOND: u128 = 1_000_000_000_000;

impl Instance {
    pub fn of(alloc: Global, terms: &Terms) -> Result<Instance, AllocError> {
        let latency = Some(u128::from(terms.latency) * PICOS_A_SECOND);
        if terms.size == 0 {
            return Err(AllocError);
        }
        let Ok(delivery) = Delivery::new(alloc, terms.mode, terms.size, latency) else {
            return Err(AllocError);
        };
        let (mode, size) = (terms.mode, terms.size);
        Ok(match terms.kind {
            Kind::Raf => Instance::Raf(Raf::new(delivery, mode, size, latency, TIMEOUT)),
            Kind::Rcf => Instance::Rcf(Rcf::new(delivery, mode, size, latency, TIMEOUT)),
        })
    }

    pub fn prepare(&self, asked: &str) -> Want {
        match self {
            Instance::Raf(raf) => raf.prepare(&words::raf_invocation(asked)),
            Instance::Rcf(rcf) => rcf.prepare(&words::rcf_invocation(asked)),
        }
    }

    pub fn conclude(&mut self, asked: &str, glimpse: &Glimpse, now: u128) -> ReturnAnswer {
        let channels: [Gvcid; 2] = [words::channel("1/1/63"), words::channel("2/0/*")];
        match self {
            Instance::Raf(raf) => raf.conclude(&words::raf_invocation(asked), glimpse, now),
            Instance::Rcf(rcf) => {
                rcf.conclude(&words::rcf_invocation(asked), &channels, glimpse, now)
            }
        }
    }

    pub fn report(&mut self, glimpse: &Glimpse, now: u128) -> Option<ReturnNumbers>
        requires { now < MOMENT_END }
    {
        match self {
            Instance::Raf(raf) => raf.report(glimpse, now),
            Instance::Rcf(rcf) => rcf.report(glimpse, now),
        }
    }

    pub fn step(&mut self, glimpse: Glimpse, now: u128) -> bool {
        if !are_of_archive(&glimpse.items) {
            return false;
        }
        match self {
            Instance::Raf(raf) => raf.step(glimpse, now),
            Instance::Rcf(rcf) => rcf.step(glimpse, now),
        }
    }

    pub fn is_offering(&self) -> bool {
        match self {
            Instance::Raf(raf) => raf.is_offering(),
            Instance::Rcf(rcf) => rcf.is_offering(),
        }
    }

    pub fn current(&self) -> &[Item] {
        match self {
            Instance::Raf(raf) => raf.current(),
            Instance::Rcf(rcf) => rcf.current(),
        }
    }

    pub fn settle(&mut self, answer: Offer) {
        match self {
            Instance::Raf(raf) => raf.settle(answer),
            Instance::Rcf(rcf) => rcf.settle(answer),
        }
    }
}
