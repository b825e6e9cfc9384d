// What a site gives a book.
ghost use Rattle.std.specs.Prelude.{◌≡◌, IfOk};
ghost use Rattle.station_book.specs.Origin.{kind_of, kinds_of, forward_place, limits_of};
ghost use Rattle.station_book.specs.Origin.{forward_limits};

use crate::limits::Limits;
use crate::service_kind::ServiceKind;
use station_config::{Instance, Service};
use std::alloc::{AllocError, Global};

fn kind_of(service: &Service) -> ServiceKind
    ensures { result ≡ kind_of service.now }
{
    match service {
        Service::Raf { .. } => ServiceKind::Raf,
        Service::Rcf { .. } => ServiceKind::Rcf,
        Service::Cltu { .. } => ServiceKind::Cltu,
    }
}

// The services of instances, by number.
pub(crate) fn kinds_of(
    alloc: Global,
    instances: &[Instance],
) -> Result<Vec<ServiceKind>, AllocError>
    ensures { IfOk result (λ kinds. kinds.items ≡ kinds_of instances.now) }
{
    instances
        .iter()
        .map(|instance| kind_of(&instance.service))
        .collect(alloc)
}

// Where the forward service's instance stands.
fn forward_place(instances: &[Instance]) -> Option<usize>
    ensures { result ≡ forward_place instances.now }
{
    instances
        .iter()
        .position(|instance| instance.service.is_forward())
}

fn limits_of(service: &Service) -> Limits
    ensures { result ≡ limits_of service.now }
{
    match service {
        Service::Cltu { room, longest } => Limits {
            room: *room,
            longest: *longest,
        },
        _ => Limits::NONE,
    }
}

// What the queue of the forward service's instance may hold, and nothing where there is none.
pub(crate) fn forward_limits(instances: &[Instance]) -> Limits
    ensures { result ≡ forward_limits instances.now }
{
    let forward = forward_place(instances).and_then(|place| instances.get(place));
    match forward {
        Some(instance) => limits_of(&instance.service),
        None => Limits::NONE,
    }
}
