// The checks of a BIND, but for its credentials and for what the book says of it.
ghost use Rattle.std.specs.Prelude.{◌≡◌, ◌==◌};
ghost use Rattle.std.specs.List.{list_any};
ghost use Rattle.sle_common.specs.InstanceRef.{parts_of};
ghost use Rattle.station_config.specs.Drafts.{same_id};
ghost use Rattle.station_config.specs.Validity.{IsSite};
ghost use Rattle.assoc_core.specs.Bind.{ask_of, bind_answer, instance_place, is_type, type_of};

use sle_common::{InstanceId, InstanceRef};
use sle_numbers::{BindDiagnostic, Numbered, ServiceType};
use station_config::{Instance, Service, Site};

/// The place of the instance that a BIND asks for, among the site's, or the first cause for which
/// it is refused. `peer` is the place of the peer that sends it, and none where it may not bind:
/// where its initiator is no peer (`peer_of`), or its credentials fail (`Association::invoke`).
/// That an instance is bound already is the book's to say. It takes no memory, and goes over the
/// site's instances once.
pub fn check_bind(
    site: &Site,
    peer: Option<u32>,
    service: u16,
    version: u16,
    instance: &InstanceRef<'_>,
) -> Result<u32, BindDiagnostic>
    requires { IsSite site.now }
    ensures { result ≡ bind_answer site.now (ask_of peer service version instance.now) }
{
    let Some(peer) = peer else {
        return Err(BindDiagnostic::AccessDenied);
    };
    if !is_type(service) {
        return Err(BindDiagnostic::ServiceTypeNotSupported);
    }
    if !has_version(site.versions.as_slice(), version) {
        return Err(BindDiagnostic::VersionNotSupported);
    }
    let instances = site.instances.as_slice();
    let Some(place) = place_of(instances, instance) else {
        return Err(BindDiagnostic::NoSuchServiceInstance);
    };
    let wanted = &instances[place];
    if wanted.owner != peer {
        return Err(BindDiagnostic::SiNotAccessibleToThisInitiator);
    }
    if type_of(&wanted.service) != service {
        return Err(BindDiagnostic::InconsistentServiceType);
    }
    Ok(place as u32)
}

// Whether a number is one of a service type.
fn is_type(number: u16) -> bool
    ensures { result ≡ is_type number }
{
    match u8::try_from(number) {
        Ok(number) => ServiceType::from_number(number).is_some(),
        Err(_) => false,
    }
}

// The number of the type by which a BIND asks for a service.
fn type_of(service: &Service) -> u16
    ensures { result ≡ type_of service.now }
{
    u16::from(service.service_type().number())
}

fn has_version(versions: &[u8], version: u16) -> bool
    ensures { result ≡ list_any (λ own. own == version) versions.now }
{
    versions.iter().any(|own| u16::from(*own) == version)
}

// The place of the instance that a BIND names.
fn place_of(instances: &[Instance], reference: &InstanceRef<'_>) -> Option<usize>
    ensures { result ≡ instance_place instances.now (parts_of reference.now) }
{
    instances
        .iter()
        .position(|instance| names(reference, &instance.id))
}

// Whether a BIND names this identifier.
fn names(reference: &InstanceRef<'_>, id: &InstanceId) -> bool
    ensures { result ≡ same_id (parts_of reference.now) id.now }
{
    reference.names(id)
}
