// The returns of association (CCSDS 911.1-B, annex A).
ghost use Rattle.std.specs.Prelude.{◌≡◌};
ghost use Rattle.bind_pdu.specs.Binding.{bind_return, bind_result as bind_result_element};
ghost use Rattle.bind_pdu.specs.Unbinding.{unbind_return};
ghost use Rattle.bind_pdu.specs.Seen.{bind_of, bind_return_of, unbind_return_of};
ghost use Rattle.station_config.specs.Validity.{IsSite};
ghost use Rattle.session_core.specs.Handling.{bind_result, is_forward_at, bind_outcome};
ghost use Rattle.session_core.specs.Handling.{place_bound};
ghost use Rattle.session_core.specs.Returns.{as_integers};

use crate::bind_places::BindPlaces;
use assoc_core::Outcome;
use bind_pdu::{Bind, BindReturn, UnbindReturn};
use session_services::{Signature, signed_with};
use sle_numbers::{BindDiagnostic, Numbered};
use station_book::BookReply;
use station_config::Site;

// What a BIND that passed is answered, where the book replied so: its version, or why there is
// none.
pub(crate) fn bind_result(
    bind: &Bind<'_>,
    places: BindPlaces,
    reply: BookReply,
) -> Result<u16, BindDiagnostic>
    ensures { result ≡ bind_result (bind_of bind.now) places.instance reply }
{
    places.instance?;
    match reply {
        BookReply::Bound => Ok(bind.version),
        _ => Err(BindDiagnostic::AlreadyBound),
    }
}

// Whether the instance at a place of the site is one of a forward service.
fn is_forward_at(site: &Site, place: u32) -> bool
    ensures { result ≡ is_forward_at site.now place }
{
    match site.instances.as_slice().get(place as usize) {
        Some(instance) => instance.service.is_forward(),
        None => false,
    }
}

// What a BIND that passed led to, where the book replied so.
pub(crate) fn bind_outcome(site: &Site, places: BindPlaces, reply: BookReply) -> Outcome
    ensures { result ≡ bind_outcome site.now places.peer places.instance reply }
{
    match (places.instance, reply) {
        (Ok(place), BookReply::Bound) => Outcome::Bound {
            peer: places.peer.unwrap_or(0),
            forward: is_forward_at(site, place),
        },
        _ => Outcome::Kept,
    }
}

// The place of the instance that a BIND bound, where the book replied so.
pub(crate) fn place_bound(places: BindPlaces, reply: BookReply) -> Option<u32>
    ensures { result ≡ place_bound places.instance reply }
{
    match (places.instance, reply) {
        (Ok(place), BookReply::Bound) => Some(place),
        _ => None,
    }
}

// A version or a diagnostic as a return has it.
#[tactic(auto, using(crate::proofs::Fits::number_fits))]
fn integers_of(bound: Result<u16, BindDiagnostic>) -> Result<i128, i128>
    ensures exact { result ≡ as_integers bound }
    ensures fits { bind_result_element.Fits result }
{
    match bound {
        Ok(version) => Ok(i128::from(version)),
        Err(why) => Err(i128::from(why.number())),
    }
}

// A return of BIND.
#[tactic(auto, using(crate::proofs::Fits::name_fits))]
pub(crate) fn bind_return<'a>(
    site: &'a Site,
    signature: &'a Option<Signature>,
    bound: Result<u16, BindDiagnostic>,
) -> BindReturn<'a>
    requires { IsSite site.now }
    ensures seen { bind_return_of result ≡ record {
      credentials = signature.now;
      responder = site.now.provider;
      result = as_integers bound;
    } }
    ensures fits { bind_return.Fits (bind_return_of result) }
{
    BindReturn {
        credentials: signed_with(signature),
        responder: site.provider.as_slice(),
        result: integers_of(bound),
    }
}

// A return of UNBIND.
pub(crate) fn unbind_return(signature: &Option<Signature>) -> UnbindReturn<'_>
    ensures seen { unbind_return_of result ≡ record { credentials = signature.now } }
    ensures fits { unbind_return.Fits (unbind_return_of result) }
{
    UnbindReturn {
        credentials: signed_with(signature),
    }
}
