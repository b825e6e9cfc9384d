// Lines by their words.
ghost use Rattle.station_config.specs.Grammar.{configuration, instance_line};
ghost use Rattle.words.specs.Lines.{reading};
ghost use Rattle.words.specs.Reading.{Judges, parts_behind};

use crate::hash_word::HashWord;
use crate::instance_line::InstanceLine;
use crate::level::Level;
use crate::line::Line;
use crate::owner_word::OwnerWord;
use crate::peer::Peer;
use crate::rows::{ChannelDeliveryRow, DeliveryRow, HeartbeatRow, VersionsRow};
use std::alloc::Global;
use words::{
    Cause, Hex, Identifier, Last, LineFault, Name, Number, OneOf, Short, Then, read_row, split_part,
};

const PROVIDER: &[u8] = b"provider";

type ProviderRow = Last<Name<3, 16>>;

const PASSWORD: &[u8] = b"password";

type PasswordRow = Last<Hex<6, 16>>;

const CAPACITY: &[u8] = b"capacity";

type CapacityRow = Last<Number<64, 268_435_456>>;

const HEARTBEAT: &[u8] = b"heartbeat";

const VERSIONS: &[u8] = b"versions";

const PEER: &[u8] = b"peer";

type PeerRow = Then<Name<3, 16>, Then<OneOf<Level>, Then<HashWord, SecretWords>>>;

type SecretWords = Then<Number<1, 86_400>, Last<Hex<6, 16>>>;

const RAF: &[u8] = b"raf";

type RafRow = Then<Identifier, Then<OwnerWord, DeliveryRow>>;

const RCF: &[u8] = b"rcf";

type RcfRow = Then<Identifier, Then<OwnerWord, ChannelDeliveryRow>>;

const CLTU: &[u8] = b"cltu";

type CltuRow = Then<Identifier, Then<OwnerWord, Then<Number<1, 16_777_216>, LongestWords>>>;

type LongestWords = Then<Number<1, 65_536>, Last<Short<1, 600>>>;

/// What a line says, its end left away, or the first cause why it says nothing.
pub(crate) fn parse_line(alloc: Global, line: &[u8]) -> Result<Line, LineFault>
    ensures { Judges (λ says. says) result (reading configuration line.now) }
{
    let (word, words) = split_part(b' ', line);
    if word == PROVIDER {
        Ok(Line::Provider(read_row::<ProviderRow>(alloc, words)?))
    } else if word == PASSWORD {
        Ok(Line::Password(read_row::<PasswordRow>(alloc, words)?))
    } else if word == CAPACITY {
        Ok(Line::Capacity(read_row::<CapacityRow>(alloc, words)?))
    } else if word == HEARTBEAT {
        Ok(Line::Beat(read_row::<HeartbeatRow>(alloc, words)?))
    } else if word == VERSIONS {
        Ok(Line::Versions(read_row::<VersionsRow>(alloc, words)?))
    } else if word == PEER {
        let (name, (level, (sha256, (credential_age, pass)))) = read_row::<PeerRow>(alloc, words)?;
        Ok(Line::Peer(Peer {
            name,
            level,
            sha256,
            credential_age,
            pass,
        }))
    } else {
        Ok(Line::Instance(parse_instance(alloc, word, words)?))
    }
}

fn parse_instance(
    alloc: Global,
    word: &[u8],
    words: Option<&[u8]>,
) -> Result<InstanceLine, LineFault>
    ensures { Judges (λ says. says) result (instance_line.read word.now
        (parts_behind 32 words.entry)) }
{
    if word == RAF {
        let (id, (owner, (mode, (size, (latency, timeout))))) = read_row::<RafRow>(alloc, words)?;
        Ok(InstanceLine::Raf {
            id,
            owner,
            mode,
            size,
            latency,
            timeout,
        })
    } else if word == RCF {
        let (id, (owner, (mode, (size, (latency, (timeout, channels)))))) = read_row::<RcfRow>(
            alloc, words,
        )?;
        Ok(InstanceLine::Rcf {
            id,
            owner,
            mode,
            size,
            latency,
            timeout,
            channels,
        })
    } else if word == CLTU {
        let (id, (owner, (room, (longest, timeout)))) = read_row::<CltuRow>(alloc, words)?;
        Ok(InstanceLine::Cltu {
            id,
            owner,
            room,
            longest,
            timeout,
        })
    } else {
        Err(LineFault::Line(Cause::FirstWord))
    }
}
