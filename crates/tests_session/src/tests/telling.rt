// What a session did, as a text: a word for each call of its link, and what its round came to.
use link_model::{Call, Heard};
use octet_core::Offer;
use session_core::Spoken;
use std::alloc::{AllocError, Global};
use std::fmt::Write;

fn heard_told(poll: &Heard, told: &mut String) -> Result<(), AllocError> {
    match poll {
        Heard::Arrived(octets) => write!(told, "heard {} ", octets.len()),
        Heard::Nothing => told.push_str("silence "),
        Heard::Closed => told.push_str("close "),
        Heard::Failed => told.push_str("unheard "),
    }
}

// Octets are told in hexadecimal digits.
fn offer_told(
    alloc: Global,
    octets: &[u8],
    answer: &Offer,
    told: &mut String,
) -> Result<(), AllocError> {
    let word = match answer {
        Offer::Whole => "sent",
        Offer::Stalled => "stalled",
        Offer::Failed => "unsent",
    };
    let digits = hex::encode(alloc, octets)?;
    write!(told, "{word} {digits} ")
}

// Of a poll, the space is told where it isn't that of a piece.
fn call_told(alloc: Global, call: &Call, told: &mut String) -> Result<(), AllocError> {
    match call {
        Call::Polled { space, heard } => {
            if *space != 65_536 {
                write!(told, "space {space} ")?;
            }
            heard_told(heard, told)
        }
        Call::Offered { octets, answer } => offer_told(alloc, octets.as_slice(), answer, told),
    }
}

/// Appends these calls, each with a blank behind it.
pub fn calls_told(alloc: Global, calls: &[Call], told: &mut String) -> Result<(), AllocError> {
    for call in calls {
        call_told(alloc, call, told)?;
    }
    Ok(())
}

/// Appends what a round came to, where the session doesn't go on.
pub fn spoken_told(spoken: Spoken, told: &mut String) -> Result<(), AllocError> {
    match spoken {
        Spoken::Going => Ok(()),
        Spoken::Ended(end) => write!(told, "{end:?} "),
        Spoken::LinkFault => told.push_str("LinkFault "),
    }
}

// How many items of a service's message were dropped, if it stalled and was.
pub fn dropped_told(dropped: Option<u32>, told: &mut String) -> Result<(), AllocError> {
    match dropped {
        None => Ok(()),
        Some(items) => write!(told, "dropped {items} "),
    }
}
