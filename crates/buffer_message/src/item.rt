// One item of a buffer, with its credentials.
ghost use Rattle.std.specs.Prelude.{◌≡◌, ◌+◌, ◌≤◌, ◌<◌, IsTrue, Some, None, option_map, length};
ghost use Rattle.ber_core.specs.Spelling.{canonical};
ghost use Rattle.ber_core.specs.Written.{HasRoom, Appends};
ghost use Rattle.cds_time.specs.declared.cds.TheConstants.{MOMENT_END};
ghost use Rattle.sle_common.specs.Credentials as common;
ghost use Rattle.sle_common.specs.Credentials.{credentials_of};
ghost use Rattle.sle_numbers.specs.FrameQuality.{number_of};
ghost use Rattle.archive_terms.specs.Delivery.{frame_octets};
ghost use Rattle.cds_time.specs.Octets.{FieldsFit};
ghost use Rattle.cds_time.specs.Moment.{octets_of, in_micros};
ghost use Rattle.isp1_auth.specs.Signed.{signed};
ghost use Rattle.isp1_auth.specs.declared.random_numbers.TheConstants.{GREATEST_NUMBER};
ghost use Rattle.return_pdu.specs.TransferItem.{item_tree, ItemFits};
ghost use Rattle.return_pdu.specs.Seen as seen;
ghost use Rattle.frame_select.specs.Item.{item_of};
ghost use Rattle.buffer_message.specs.Signing.{signing_of, secret_by, credentials_by};
ghost use Rattle.buffer_message.specs.Content.{quality_in, content_of, notice_content, TimeFits};
ghost use Rattle.buffer_message.specs.Fitting.{is_in_range};
ghost use Rattle.buffer_message.specs.Measured.{HasMoment};

use crate::credentials::credentials_length;
use crate::limits::BESIDE_FRAME;
use crate::signature::Signature;
use crate::signer::Signer;
use ber_core::Writer;
use cds_time::Cds;
use frame_select::Item;
use return_pdu::{Notification, ReturnKind, TransferItem};
use sle_common::{AntennaId, Credentials};
use sle_numbers::{FrameQuality, Numbered};

// As many octets as credentials may have; their number alone counts.
const BLANK: [u8; 64] = [0; 64];

#[tactic(auto, using(crate::proofs::Contents::quality_known))]
fn quality_in(service: ReturnKind, quality: FrameQuality) -> Option<FrameQuality>
    ensures { result ≡ quality_in service (number_of quality) }
{
    match service {
        ReturnKind::Raf => Some(quality),
        ReturnKind::Rcf => None,
    }
}

fn told(credentials: Credentials<'_>, notice: Notification) -> TransferItem<'_>
    ensures { seen.item_of result ≡ notice_content (credentials_of credentials.entry) notice }
{
    TransferItem::Told {
        credentials,
        notice,
    }
}

// The fields of a time fit in their octets, by their types.
fn fields_fit(time: Cds)
    ensures { FieldsFit time }
{
    let _ = time;
}

// An item as the transfer buffer has it.
#[tactic(auto, using(crate::proofs::Contents::lock_known))]
fn said<'a>(service: ReturnKind, item: &'a Item, credentials: Credentials<'a>) -> TransferItem<'a>
    requires { IsTrue (is_in_range (item_of item.now)) }
    ensures content { seen.item_of result ≡ content_of service
        (credentials_of credentials.entry) (item_of item.now) }
    ensures time { TimeFits (item_of item.now) }
{
    match item {
        Item::Frame {
            ert,
            quality,
            antenna,
            continuity,
            octets,
            ..
        } => {
            fields_fit(*ert);
            TransferItem::Frame {
                credentials,
                ert: *ert,
                antenna: AntennaId::Local(antenna.as_slice()),
                continuity: *continuity,
                quality: quality_in(service, *quality),
                note: None,
                octets: octets.as_slice(),
            }
        }
        Item::Loss {
            at,
            carrier,
            subcarrier,
            symbol,
            ..
        } => told(
            credentials,
            Notification::Loss {
                at: *at,
                carrier: *carrier,
                subcarrier: *subcarrier,
                symbol: *symbol,
            },
        ),
        Item::Production { status, .. } => told(
            credentials,
            Notification::Production(i128::from(status.number())),
        ),
        Item::Backlog => told(credentials, Notification::Backlog),
        Item::EndOfData => told(credentials, Notification::EndOfData),
    }
}

// The same, with what there is to know of it.
fn transfer_item<'a>(
    service: ReturnKind,
    item: &'a Item,
    credentials: Credentials<'a>,
) -> TransferItem<'a>
    requires in_range { IsTrue (is_in_range (item_of item.now)) }
    requires signed { common.credentials.Fits (credentials_of credentials) }
    ensures content { seen.item_of result ≡ content_of service
        (credentials_of credentials.entry) (item_of item.now) }
    ensures fits { ItemFits (seen.item_of result) }
    ensures time { TimeFits (item_of item.now) }
    ensures small { length (canonical (item_tree (seen.item_of result)))
        ≤ frame_octets (item_of item.now).0 + BESIDE_FRAME }
{
    said(service, item, credentials)
}

fn unsigned_length(service: ReturnKind, item: &Item) -> usize
    requires { IsTrue (is_in_range (item_of item.now)) }
    ensures exact { result ≡ length (canonical (item_tree (content_of service None
        (item_of item.now)))) }
    ensures time { TimeFits (item_of item.now) }
    ensures small { result ≤ frame_octets (item_of item.now).0 + BESIDE_FRAME }
{
    transfer_item(service, item, Credentials::Unused).length()
}

// As many octets as a signer's credentials with a number.
fn blank_octets(signer: &Signer<'_>, number: u32) -> &'static [u8]
    ensures many { length result.now ≡ length (signed (secret_by (signing_of signer.now))
        (octets_of (in_micros signer.now.moment)) number) }
    ensures least { 8 ≤ length result.now }
    ensures most { length result.now ≤ 64 }
{
    &BLANK[..credentials_length(signer, number)]
}

fn signed_length(service: ReturnKind, signer: &Signer<'_>, number: u32, item: &Item) -> usize
    requires { IsTrue (is_in_range (item_of item.now)) }
    ensures exact { result ≡ length (canonical (item_tree (content_of service
        (credentials_by (Some (signing_of signer.now)) number) (item_of item.now)))) }
    ensures time { TimeFits (item_of item.now) }
    ensures small { result ≤ frame_octets (item_of item.now).0 + BESIDE_FRAME }
{
    let blank = blank_octets(signer, number);
    transfer_item(service, item, Credentials::Used(blank)).length()
}

/// The number of octets of an item in its buffer.
pub(crate) fn item_length(
    service: ReturnKind,
    signer: &Option<Signer<'_>>,
    number: u32,
    item: &Item,
) -> usize
    requires { IsTrue (is_in_range (item_of item.now)) }
    ensures exact { result ≡ length (canonical (item_tree (content_of service
        (credentials_by (option_map signing_of signer.now) number) (item_of item.now)))) }
    ensures time { TimeFits (item_of item.now) }
    ensures small { result ≤ frame_octets (item_of item.now).0 + BESIDE_FRAME }
{
    match signer {
        None => unsigned_length(service, item),
        Some(signer) => signed_length(service, signer, number, item),
    }
}

/// Appends an item.
pub(crate) fn put_item(
    service: ReturnKind,
    signer: &Option<Signer<'_>>,
    number: u32,
    item: &Item,
    writer: &mut Writer,
)
    requires in_range { IsTrue (is_in_range (item_of item.now)) }
    requires moment { HasMoment (option_map signing_of signer.now) }
    requires number { number ≤ GREATEST_NUMBER }
    requires room { HasRoom writer.old (canonical (item_tree (content_of service
        (credentials_by (option_map signing_of signer.now) number) (item_of item.now)))) }
    ensures { Appends writer.old writer.new (canonical (item_tree (content_of service
        (credentials_by (option_map signing_of signer.now) number) (item_of item.now)))) }
{
    match signer {
        None => put_with(service, item, Credentials::Unused, writer),
        Some(signer) => put_signed(service, signer, number, item, writer),
    }
}

fn put_signed(
    service: ReturnKind,
    signer: &Signer<'_>,
    number: u32,
    item: &Item,
    writer: &mut Writer,
)
    requires in_range { IsTrue (is_in_range (item_of item.now)) }
    requires moment { signer.now.moment < MOMENT_END }
    requires number { number ≤ GREATEST_NUMBER }
    requires room { HasRoom writer.old (canonical (item_tree (content_of service
        (credentials_by (Some (signing_of signer.now)) number) (item_of item.now)))) }
    ensures { Appends writer.old writer.new (canonical (item_tree (content_of service
        (credentials_by (Some (signing_of signer.now)) number) (item_of item.now)))) }
{
    let signature = Signature::of(signer, number);
    let credentials = signature.credentials();
    put_with(service, item, credentials, writer);
}

fn put_with(service: ReturnKind, item: &Item, credentials: Credentials<'_>, writer: &mut Writer)
    requires in_range { IsTrue (is_in_range (item_of item.now)) }
    requires signed { common.credentials.Fits (credentials_of credentials) }
    requires room { HasRoom writer.old (canonical (item_tree (content_of service
        (credentials_of credentials) (item_of item.now)))) }
    ensures { Appends writer.old writer.new (canonical (item_tree (content_of service
        (credentials_of credentials.entry) (item_of item.now)))) }
{
    transfer_item(service, item, credentials).encode(writer);
}
