// Where a file says nothing else, its octets were made by OpenSSL 3.0.19 from the fields alone:
// `openssl asn1parse -genconf` encodes a text such as `IMPLICIT:1,SEQUENCE` of `IMPLICIT:0,NULL`,
// `INTEGER:7`, .. in DER, which for these types is the shortest spelling. The faulty ones are its
// too: a field past its range, an alternative that there isn't, a field missing or too many. The
// places of faults were counted by X.690. What stands beside octets are the fields that they were
// made from. Octets of whole dialogues were put together by hand from CCSDS 911.1-B and 911.2-B,
// annex A, and X.690.
use crate::kind::Kind;
use crate::rows::check;
use std::test::Fail;

mod binds;
mod buffers;
mod cltu_starts;
mod identifiers;
mod notices;
mod parameters;
mod plain_items;
mod primitives;
mod reports;
mod shared_types;
mod starts;
mod stops;
mod throws;
mod transfers;

// What octets are decoded as, and rows of them.
const TABLE: [(Kind, &str); 40] = [
    (Kind::Bind, binds::BINDS),
    (Kind::Bind, binds::ENDS),
    (Kind::Bind, binds::FAULTS),
    (Kind::BindReturn, binds::BIND_RETURN),
    (Kind::Unbind, binds::UNBIND),
    (Kind::UnbindReturn, binds::UNBIND_RETURN),
    (Kind::PeerAbort, binds::PEER_ABORT),
    (Kind::RafBuffer, buffers::RAF_BUFFER),
    (Kind::RcfBuffer, buffers::RCF_BUFFER),
    (Kind::CltuStart, cltu_starts::CLTU_START),
    (Kind::CltuStartReturn, cltu_starts::CLTU_START_RETURN),
    (Kind::InstanceRef, identifiers::IDENTIFIER),
    (Kind::Async, notices::ASYNC),
    (Kind::GetParameter, parameters::GET_PARAMETER),
    (Kind::ParameterReturn, parameters::PARAMETER_RETURN),
    (Kind::RafReport, reports::RAF_REPORT),
    (Kind::RcfReport, reports::RCF_REPORT),
    (Kind::CltuReport, reports::CLTU_REPORT),
    (Kind::Number, shared_types::NUMBER),
    (Kind::InvokeId, shared_types::INVOKE_ID),
    (Kind::Credentials, shared_types::CREDENTIALS),
    (Kind::Time, shared_types::TIME),
    (Kind::ConditionalTime, shared_types::CONDITIONAL_TIME),
    (Kind::Channel, shared_types::CHANNEL),
    (Kind::AntennaId, shared_types::ANTENNA_ID),
    (Kind::Annotation, shared_types::ANNOTATION),
    (Kind::Diagnostic, shared_types::DIAGNOSTIC),
    (Kind::ReportKind, shared_types::REPORT_KIND),
    (Kind::Parameter, shared_types::PARAMETER),
    (Kind::RafStart, starts::RAF_START),
    (Kind::RcfStart, starts::RCF_START),
    (Kind::StartReturn, starts::START_RETURN),
    (Kind::Stop, stops::STOP),
    (Kind::StopReturn, stops::STOP_RETURN),
    (Kind::Schedule, stops::SCHEDULE),
    (Kind::ScheduleReturn, stops::SCHEDULE_RETURN),
    (Kind::Throw, throws::THROW),
    (Kind::ThrowReturn, throws::THROW_RETURN),
    (Kind::CltuTransfer, transfers::CLTU_TRANSFER),
    (Kind::TransferReturn, transfers::TRANSFER_RETURN),
];

#[test]
fn octets_are_decoded_as_the_standards_say(rt: HostRuntime) -> Result<(), Fail> {
    for (kind, rows) in TABLE {
        check(&rt, rt.alloc(), kind, rows)?;
    }
    Ok(())
}
