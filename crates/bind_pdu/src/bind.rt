use crate::authority_identifier::AuthorityIdentifier;
use ber_core::{BerFault, Reader, Writer, element_length, integer_length};
use ber_shape::{Element, Members, Pdu};
use sle_common::{Credentials, InstanceRef};

/// BIND (CCSDS 911.1-B, annex A): an initiator asks for an association with a service instance.
#[derive(Clone, Copy)]
pub struct Bind<'a> {
    pub credentials: Credentials<'a>,
    /// The initiator's name: 3 to 16 characters from 20 to 7E.
    pub initiator: &'a [u8],
    /// The responder's port: 1 to 128 characters from 20 to 7E.
    pub port: &'a [u8],
    /// The number of a `ServiceType` of `sle_numbers`, or one that it doesn't have.
    pub service: u16,
    /// The version of the service, from 1.
    pub version: u16,
    /// 1 to 8 attributes with their values.
    pub instance: InstanceRef<'a>,
}

impl<'a> Members<'a> for Bind<'a> {
    ghost use Rattle.std.specs.Prelude.{refl};
    ghost use Rattle.bind_pdu.specs.Binding.{BindContent, bind_fields};
    ghost use Rattle.bind_pdu.specs.Seen.{bind_of};

    type Value = Bind<'a>;

    ghost Seen = { BindContent };

    ghost shape = { bind_fields };

    ghost is_shallow = { refl };

    ghost seen = { bind_of };

    fn read(reader: &mut Reader<'a>) -> Result<Bind<'a>, BerFault> {
        Ok(Bind {
            credentials: Credentials::read(reader)?,
            initiator: AuthorityIdentifier::read(reader)?,
            port: PortIdentifier::read(reader)?,
            service: ServiceType::read(reader)?,
            version: VersionNumber::read(reader)?,
            instance: InstanceRef::read(reader)?,
        })
    }

    #[tactic(auto, using(ber_core::specs::Parts::lengths))]
    fn size(bind: &Bind<'a>) -> usize {
        Credentials::size(&bind.credentials)
            + AuthorityIdentifier::size(&bind.initiator)
            + PortIdentifier::size(&bind.port)
            + ServiceType::size(&bind.service)
            + VersionNumber::size(&bind.version)
            + InstanceRef::size(&bind.instance)
    }

    #[tactic(auto, unfolding(ber_core::specs::Spelling::canonical))]
    fn write(bind: &Bind<'a>, writer: &mut Writer) {
        Credentials::write(&bind.credentials, writer);
        AuthorityIdentifier::write(&bind.initiator, writer);
        PortIdentifier::write(&bind.port, writer);
        ServiceType::write(&bind.service, writer);
        VersionNumber::write(&bind.version, writer);
        InstanceRef::write(&bind.instance, writer);
    }
}

impl<'a> Pdu<'a> for Bind<'a> {
    ghost use Rattle.std.specs.Prelude.{◌≡◌, refl, [], ◌∷◌};

    ghost tag = { 0xbf ∷ 0x64 ∷ [] };

    ghost is_tag = { refl };

    ghost is_small = { refl };

    fn identifier() -> &'static [u8]
        ensures { result.now ≡ 0xbf ∷ 0x64 ∷ [] }
    {
        &[0xbf, 0x64]
    }
}

// VisibleString of 1 to 128 characters.
struct PortIdentifier;

impl<'a> Element<'a> for PortIdentifier {
    ghost use Rattle.std.specs.Prelude.{ℕ, List, refl};
    ghost use Rattle.bind_pdu.specs.Binding.{port_identifier};

    type Value = &'a [u8];

    ghost Seen = { List ℕ };

    ghost shape = { port_identifier };

    ghost is_shallow = { refl };

    ghost seen = { λ port. port.now };

    fn read(reader: &mut Reader<'a>) -> Result<&'a [u8], BerFault> {
        reader.visible(&[0x1a], 1, 128)
    }

    #[tactic(auto, using(ber_core::specs::Parts::lengths))]
    fn size(port: &&'a [u8]) -> usize {
        element_length(&[0x1a], port.len())
    }

    fn write(port: &&'a [u8], writer: &mut Writer) {
        writer.octet_string(&[0x1a], port);
    }
}

// INTEGER 0 to 65535.
struct ServiceType;

impl<'a> Element<'a> for ServiceType {
    ghost use Rattle.std.specs.Prelude.{ℕ, refl};
    ghost use Rattle.bind_pdu.specs.Binding.{service_type};

    type Value = u16;

    ghost Seen = { ℕ };

    ghost shape = { service_type };

    ghost is_shallow = { refl };

    ghost seen = { λ service. service };

    fn read(reader: &mut Reader<'a>) -> Result<u16, BerFault> {
        let service = reader.integer(&[0x02], 0, 65535)?;
        Ok(service as u16)
    }

    #[tactic(auto, using(ber_core::specs::Parts::lengths))]
    fn size(service: &u16) -> usize {
        element_length(&[0x02], integer_length(i128::from(*service)))
    }

    fn write(service: &u16, writer: &mut Writer) {
        writer.integer(&[0x02], i128::from(*service));
    }
}

// INTEGER 1 to 65535.
struct VersionNumber;

impl<'a> Element<'a> for VersionNumber {
    ghost use Rattle.std.specs.Prelude.{ℕ, refl};
    ghost use Rattle.bind_pdu.specs.Binding.{version_number};

    type Value = u16;

    ghost Seen = { ℕ };

    ghost shape = { version_number };

    ghost is_shallow = { refl };

    ghost seen = { λ version. version };

    fn read(reader: &mut Reader<'a>) -> Result<u16, BerFault> {
        let version = reader.integer(&[0x02], 1, 65535)?;
        Ok(version as u16)
    }

    #[tactic(auto, using(ber_core::specs::Parts::lengths))]
    fn size(version: &u16) -> usize {
        element_length(&[0x02], integer_length(i128::from(*version)))
    }

    fn write(version: &u16, writer: &mut Writer) {
        writer.integer(&[0x02], i128::from(*version));
    }
}
