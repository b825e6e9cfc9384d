// The outer tags.
ghost use Rattle.std.specs.Prelude.{◌≡◌, Some};
ghost use Rattle.user_lines.specs.Tag.{number_of, number_in, tag_numbered, tag_of};

use ber_core::Reader;

/// The outer tag of a PDU: a context tag (CCSDS 911.1-B, 911.2-B and 912.1-B, annex A). Two of them
/// name another PDU in the forward service than in the return services.
#[derive(Clone, Copy, Debug, PartialEq, Eq)]
pub enum Tag {
    Start = 0,
    StartReturn = 1,
    Stop = 2,
    StopReturn = 3,
    /// SCHEDULE-STATUS-REPORT.
    Schedule = 4,
    ScheduleReturn = 5,
    GetParameter = 6,
    ParameterReturn = 7,
    /// A transfer buffer; THROW-EVENT of the forward service.
    BufferOrThrow = 8,
    /// A status report; the return of THROW-EVENT of the forward service.
    ReportOrThrowReturn = 9,
    /// TRANSFER-DATA.
    Transfer = 10,
    TransferReturn = 11,
    /// ASYNC-NOTIFY.
    Notify = 12,
    /// The status report of the forward service.
    CltuReport = 13,
    Bind = 100,
    BindReturn = 101,
    Unbind = 102,
    UnbindReturn = 103,
    PeerAbort = 104,
}

const ALL: [Tag; 19] = [
    Tag::Start,
    Tag::StartReturn,
    Tag::Stop,
    Tag::StopReturn,
    Tag::Schedule,
    Tag::ScheduleReturn,
    Tag::GetParameter,
    Tag::ParameterReturn,
    Tag::BufferOrThrow,
    Tag::ReportOrThrowReturn,
    Tag::Transfer,
    Tag::TransferReturn,
    Tag::Notify,
    Tag::CltuReport,
    Tag::Bind,
    Tag::BindReturn,
    Tag::Unbind,
    Tag::UnbindReturn,
    Tag::PeerAbort,
];

impl Tag {
    /// Its number.
    pub fn number(self) -> u8
        ensures { result ≡ number_of self }
    {
        self as u8
    }

    /// The tag in front of a PDU's octets; none where they begin with no tag of a PDU.
    pub fn of(octets: &[u8]) -> Option<Tag>
        ensures { result ≡ tag_of octets.now }
    {
        match Reader::new(octets).identifier() {
            Some(identifier) => Tag::with_identifier(identifier),
            None => None,
        }
    }

    fn with_identifier(identifier: &[u8]) -> Option<Tag>
        ensures { result ≡ tag_numbered (number_in identifier.now) }
    {
        match number_in(identifier) {
            Some(number) => Tag::numbered(number),
            None => None,
        }
    }

    fn numbered(number: u8) -> Option<Tag>
        ensures { result ≡ tag_numbered (Some number) }
    {
        ALL.iter().copied().find(|tag| tag.number() == number)
    }
}

// The number that identifier octets have.
fn number_in(identifier: &[u8]) -> Option<u8>
    ensures { result ≡ number_in identifier.now }
{
    if identifier.len() == 1 {
        if identifier[0] >= 0xa0 {
            Some(identifier[0] - 0xa0)
        } else {
            None
        }
    } else if identifier.len() == 2 {
        Some(identifier[1])
    } else {
        None
    }
}
