//! Faults as texts.

use crate::fault::{Fault, FaultCode, ReadFault};
use std::fmt;

impl fmt::Display for FaultCode {
    fn fmt<W: fmt::Write>(&self, f: &mut fmt::Formatter<W>) -> fmt::Result {
        write!(f, "{self:?}")
    }
}

impl fmt::Display for Fault {
    fn fmt<W: fmt::Write>(&self, f: &mut fmt::Formatter<W>) -> fmt::Result {
        match str::from_utf8(self.path.as_bytes()) {
            Ok(path) => write!(f, "{} {path}", self.code),
            Err(_) => write!(f, "{}", self.code),
        }
    }
}

impl fmt::Display for ReadFault {
    fn fmt<W: fmt::Write>(&self, f: &mut fmt::Formatter<W>) -> fmt::Result {
        match self {
            ReadFault::Memory => write!(f, "out of memory"),
            ReadFault::Fault(fault) => write!(f, "{fault}"),
        }
    }
}
