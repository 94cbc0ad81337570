use mc_nbt::Memory;
use std::alloc::{AllocError, AllocFailed};
use std::fmt;
use test_lines::Stop;
use wm_decode::DecodeFault;
use wm_frame::FrameFault;
use wm_profile::ProfileFault;
use wm_valid::ValidFault;

/// Why a call gives nothing. It is printed as the fault is.
#[derive(Clone, Copy)]
pub enum Refusal {
    Frame(FrameFault),
    Decode(DecodeFault),
    Profile(ProfileFault),
    Valid(ValidFault),
    /// The module has no function.
    NoFunction,
    /// The row is not of the format.
    Row,
    /// There was no memory.
    Memory,
}

impl fmt::Display for Refusal {
    fn fmt<W: fmt::Write>(&self, f: &mut fmt::Formatter<W>) -> fmt::Result {
        match self {
            Refusal::Frame(fault) => fault.fmt(f),
            Refusal::Decode(fault) => fault.fmt(f),
            Refusal::Profile(fault) => fault.fmt(f),
            Refusal::Valid(fault) => fault.fmt(f),
            Refusal::NoFunction => f.write_str("no function"),
            Refusal::Row => f.write_str("no row"),
            Refusal::Memory => f.write_str("no memory"),
        }
    }
}

impl From<FrameFault> for Refusal {
    fn from(fault: FrameFault) -> Self {
        Refusal::Frame(fault)
    }
}

impl From<DecodeFault> for Refusal {
    fn from(fault: DecodeFault) -> Self {
        Refusal::Decode(fault)
    }
}

impl From<ProfileFault> for Refusal {
    fn from(fault: ProfileFault) -> Self {
        Refusal::Profile(fault)
    }
}

impl From<Stop> for Refusal {
    fn from(stop: Stop) -> Self {
        match stop {
            Stop::Memory => Refusal::Memory,
            _ => Refusal::Row,
        }
    }
}

impl From<Memory> for Refusal {
    fn from(_: Memory) -> Self {
        Refusal::Memory
    }
}

impl From<AllocError> for Refusal {
    fn from(_: AllocError) -> Self {
        Refusal::Memory
    }
}

impl<T: Drop> From<AllocFailed<T>> for Refusal {
    fn from(_: AllocFailed<T>) -> Self {
        Refusal::Memory
    }
}
