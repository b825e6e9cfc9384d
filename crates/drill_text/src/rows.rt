// The rows of words behind the first words of script lines.

use crate::ask_row::AskRow;
use crate::pick::Pick;
use fcltu_numbers::{CltuProductionStatus, UplinkStatus};
use sle_numbers::{FrameQuality, LockStatus, RequestedFrameQuality, ReturnProductionStatus};
use words::{Hex, Last, Number, NumberOf, OneOf, Then, Time};

type Connection = Number<1, 16>;

type Times = Number<1, 1_000>;

type Lock = NumberOf<LockStatus>;

type FrameOctets = Then<Hex<1, 16>, Then<Number<0, 16_777_215>, Last<Hex<1, 4_294_967_295>>>>;

pub(crate) type Frame = Then<Time, Then<NumberOf<FrameQuality>, FrameOctets>>;

pub(crate) type Loss = Then<Time, Then<Lock, Then<Lock, Last<Lock>>>>;

pub(crate) type Start = Then<Time, Then<Time, Last<NumberOf<RequestedFrameQuality>>>>;

pub(crate) type Piece = Then<Connection, Last<Hex<1, 65_536>>>;

pub(crate) type Uplink = Then<NumberOf<CltuProductionStatus>, Last<NumberOf<UplinkStatus>>>;

pub(crate) type Crash = Then<Number<0, 1_000>, Last<OneOf<Pick>>>;

pub(crate) type Production = Last<NumberOf<ReturnProductionStatus>>;

pub(crate) type Mark = Last<Time>;

pub(crate) type OfConnection = Last<Connection>;

pub(crate) type Ask = Then<Connection, AskRow>;

pub(crate) type Repeated = Then<Connection, Last<Times>>;

pub(crate) type Fault = Last<Times>;
