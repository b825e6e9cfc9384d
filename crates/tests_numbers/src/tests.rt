// The numbers and words of the ASN.1 of CCSDS 911.1-B, 911.2-B and 912.1-B, annex A, as far as this
// product has them.
use crate::rows::check;
use fcltu_numbers::{
    CltuDeliveryMode, CltuNotificationType, CltuProductionStatus, CltuStartDiagnostic, CltuStatus,
    CltuThrowEventDiagnostic, CltuTransferDataDiagnostic, UplinkStatus,
};
use sle_numbers::{
    BindDiagnostic, CommonDiagnostic, FrameQuality, GetParameterDiagnostic, LockStatus,
    PeerAbortDiagnostic, RequestedFrameQuality, ReturnDeliveryMode, ReturnProductionStatus,
    ReturnStartDiagnostic, ScheduleDiagnostic, ServiceType, UnbindReason,
};
use std::test::Fail;

#[test]
fn what_all_services_share(rt: HostRuntime) -> Result<(), Fail> {
    let alloc = rt.alloc();
    check::<ServiceType>(&rt, alloc, "0 rtnAllFrames 2 rtnChFrames 16 fwdCltu")?;
    check::<BindDiagnostic>(
        &rt,
        alloc,
        "0 accessDenied 1 serviceTypeNotSupported 2 versionNotSupported 3 noSuchServiceInstance
         4 alreadyBound 5 siNotAccessibleToThisInitiator 6 inconsistentServiceType 7 invalidTime
         8 outOfService 127 otherReason",
    )?;
    check::<PeerAbortDiagnostic>(
        &rt,
        alloc,
        "0 accessDenied 1 unexpectedResponderId 2 operationalRequirement 3 protocolError
         4 communicationsFailure 5 encodingError 6 returnTimeout 7 endOfServiceProvisionPeriod
         8 unsolicitedInvokeId 127 otherReason",
    )?;
    check::<UnbindReason>(
        &rt,
        alloc,
        "0 end 1 suspend 2 versionNotSupported 127 other",
    )?;
    check::<CommonDiagnostic>(&rt, alloc, "100 duplicateInvokeId 127 otherReason")?;
    check::<ScheduleDiagnostic>(
        &rt,
        alloc,
        "0 notSupportedInThisDeliveryMode 1 alreadyStopped 2 invalidReportingCycle",
    )?;
    check::<GetParameterDiagnostic>(&rt, alloc, "0 unknownParameter")?;
    Ok(())
}

#[test]
fn what_return_services_have(rt: HostRuntime) -> Result<(), Fail> {
    let alloc = rt.alloc();
    check::<ReturnDeliveryMode>(
        &rt,
        alloc,
        "0 rtnTimelyOnline 1 rtnCompleteOnline 2 rtnOffline",
    )?;
    check::<ReturnStartDiagnostic>(
        &rt,
        alloc,
        "0 outOfService 1 unableToComply 2 invalidStartTime 3 invalidStopTime 4 missingTimeValue
         5 invalidGvcId",
    )?;
    check::<ReturnProductionStatus>(&rt, alloc, "0 running 1 interrupted 2 halted")?;
    check::<LockStatus>(&rt, alloc, "0 inLock 1 outOfLock 2 notInUse 3 unknown")?;
    check::<FrameQuality>(&rt, alloc, "0 good 1 erred 2 undetermined")?;
    check::<RequestedFrameQuality>(&rt, alloc, "0 goodFramesOnly 1 erredFrameOnly 2 allFrames")?;
    Ok(())
}

#[test]
fn what_the_forward_service_has(rt: HostRuntime) -> Result<(), Fail> {
    let alloc = rt.alloc();
    check::<CltuDeliveryMode>(&rt, alloc, "3 fwdOnline")?;
    check::<CltuStartDiagnostic>(
        &rt,
        alloc,
        "0 outOfService 1 unableToComply 2 productionTimeExpired 3 invalidCltuId",
    )?;
    check::<CltuTransferDataDiagnostic>(
        &rt,
        alloc,
        "0 unableToProcess 1 unableToStore 2 outOfSequence 3 inconsistentTimeRange 4 invalidTime
         5 lateSldu 6 invalidDelayTime 7 cltuError",
    )?;
    check::<CltuThrowEventDiagnostic>(
        &rt,
        alloc,
        "0 operationNotSupported 1 eventInvocIdOutOfSequence 2 noSuchEvent",
    )?;
    check::<CltuProductionStatus>(
        &rt,
        alloc,
        "0 operational 1 configured 2 interrupted 3 halted",
    )?;
    check::<UplinkStatus>(
        &rt,
        alloc,
        "0 uplinkStatusNotAvailable 1 noRfAvailable 2 noBitLock 3 nominal",
    )?;
    check::<CltuStatus>(
        &rt,
        alloc,
        "0 radiated 1 expired 2 interrupted 4 radiationStarted",
    )?;
    check::<CltuNotificationType>(
        &rt,
        alloc,
        "0 cltuRadiated 1 slduExpired 2 productionInterrupted 3 productionHalted
         4 productionOperational 5 bufferEmpty 6 actionListCompleted 7 actionListNotCompleted
         8 eventConditionEvFalse",
    )?;
    Ok(())
}
