// The service of a connection.

use ber_shape::Pdu;
use bind_pdu::Bind;
use isp1_tml::{Message, Messages};
use sle_numbers::{Numbered, ServiceType};

// How many connections there are, with the desk.
const CONNECTIONS: usize = 17;

// The services of the connections, by what their users asked for.
#[derive(Clone, Copy, Debug)]
pub struct Services {
    services: [ServiceType; CONNECTIONS],
}

impl Services {
    // RAF, as the desk has it.
    pub(crate) fn new() -> Services {
        Services {
            services: [ServiceType::RtnAllFrames; CONNECTIONS],
        }
    }

    pub(crate) fn of(&self, c: u32) -> ServiceType {
        match self.services.get(c as usize) {
            Some(service) => *service,
            None => ServiceType::RtnAllFrames,
        }
    }

    // A user asks for the service of this number.
    pub(crate) fn bind(&mut self, c: u32, number: u16) {
        let Some(service) = service_of(number) else {
            return;
        };
        if let Some(place) = self.services.get_mut(c as usize) {
            *place = service;
        }
    }

    // Octets come from a user, maybe with a BIND.
    pub(crate) fn hear(&mut self, c: u32, octets: &[u8]) {
        if let Some(number) = bound_in(octets) {
            self.bind(c, number);
        }
    }
}

fn service_of(number: u16) -> Option<ServiceType> {
    ServiceType::from_number(u8::try_from(number).ok()?)
}

// The number of the service that the first BIND of these octets asks for.
fn bound_in(octets: &[u8]) -> Option<u16> {
    let mut messages = Messages::new(octets, 0);
    while let Ok(Some(message)) = messages.next_message() {
        if let Some(number) = bound_by(message) {
            return Some(number);
        }
    }
    None
}

fn bound_by(message: Message<'_>) -> Option<u16> {
    let Message::Pdu(octets) = message else {
        return None;
    };
    match Bind::decode(octets) {
        Ok(bind) => Some(bind.service),
        Err(_) => None,
    }
}

// The short name of a service.
pub(crate) fn short_name(service: ServiceType) -> &'static str {
    match service {
        ServiceType::RtnAllFrames => "RAF",
        ServiceType::RtnChFrames => "RCF",
        ServiceType::FwdCltu => "CLTU",
    }
}
