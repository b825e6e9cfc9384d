// The words of services.

use sle_numbers::ServiceType;
use std::alloc::{AllocError, Global};
use words::{Unread, Word};

const RAF: &[u8] = b"raf";

const RCF: &[u8] = b"rcf";

const CLTU: &[u8] = b"cltu";

/// A service: `raf`, `rcf` or `cltu`.
pub(crate) struct ServiceWord;

impl Word for ServiceWord {
    ghost use Rattle.sle_numbers.specs.declared.service_type.ServiceType.{ServiceType};
    ghost use Rattle.user_words.specs.Kinds.{service};

    type Value = ServiceType;

    ghost Seen = { ServiceType };

    ghost kind = { service };

    ghost seen = { λ value. value };

    fn read(_: Global, word: &[u8]) -> Result<ServiceType, Unread> {
        if word == RAF {
            Ok(ServiceType::RtnAllFrames)
        } else if word == RCF {
            Ok(ServiceType::RtnChFrames)
        } else if word == CLTU {
            Ok(ServiceType::FwdCltu)
        } else {
            Err(Unread::Bad)
        }
    }

    fn write(value: &ServiceType, into: &mut Vec<u8>) -> Result<(), AllocError> {
        into.extend_from_slice(match value {
            ServiceType::RtnAllFrames => RAF,
            ServiceType::RtnChFrames => RCF,
            ServiceType::FwdCltu => CLTU,
        })
    }
}
