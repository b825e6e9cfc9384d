// The words of the command line.

use sle_numbers::ServiceType;

/// Which lines the input has.
#[derive(Clone, Copy, Debug, PartialEq, Eq)]
pub enum Asked {
    /// Those of a transcript whose messages are of RAF, as the desk's are, and those of a list.
    List,
    /// Those of a transcript whose messages are of a service, and those of a stream that its user
    /// hears.
    Stream(ServiceType),
}

impl Asked {
    /// The service whose messages a transcript has.
    pub fn service(self) -> ServiceType {
        match self {
            Asked::List => ServiceType::RtnAllFrames,
            Asked::Stream(service) => service,
        }
    }
}

/// What the words ask for that stand behind the program's name: `explain`, and then nothing or the
/// name of a service; none where they are outside this grammar.
pub fn plan(command: Option<&str>, service: Option<&str>, more: bool) -> Option<Asked> {
    if command? != "explain" || more {
        return None;
    }
    match service {
        None => Some(Asked::List),
        Some(word) => Some(Asked::Stream(service_of(word)?)),
    }
}

fn service_of(word: &str) -> Option<ServiceType> {
    if word == "raf" {
        Some(ServiceType::RtnAllFrames)
    } else if word == "rcf" {
        Some(ServiceType::RtnChFrames)
    } else if word == "cltu" {
        Some(ServiceType::FwdCltu)
    } else {
        None
    }
}
