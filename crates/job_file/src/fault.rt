// What an input that is no job has wrong, and where.
use std::alloc::{AllocError, AllocFailed};
use std::error::Error;
use std::{fmt, io};

#[derive(Clone, Copy, Debug, PartialEq, Eq)]
pub enum Wrong {
    NoMark,
    NoType,
    BadDetect,
    BadPromote,
    NoFlags,
    ManyColumns,
    CutHead,
    CutColumn,
    NoColumnType,
    CutName,
    NoItem,
    CutEvent,
    CutProperty,
    LongText,
    CutText,
}

impl fmt::Display for Wrong {
    fn fmt<W: fmt::Write>(&self, f: &mut fmt::Formatter<W>) -> fmt::Result {
        f.write_str(match self {
            Wrong::NoMark => "it does not begin with JOB1,",
            Wrong::NoType => "no such geometry type",
            Wrong::BadDetect => "detect is neither 0 nor 1",
            Wrong::BadPromote => "promote is neither 0 nor 1",
            Wrong::NoFlags => "no such flags",
            Wrong::ManyColumns => "more than 32 columns",
            Wrong::CutHead => "cut short within its head",
            Wrong::CutColumn => "cut short within a column",
            Wrong::NoColumnType => "no such column type",
            Wrong::CutName => "cut short within a column's name",
            Wrong::NoItem => "no event, property or end of a feature",
            Wrong::CutEvent => "cut short within an event",
            Wrong::CutProperty => "cut short within a property",
            Wrong::LongText => "a text of more than 65,536 bytes",
            Wrong::CutText => "cut short within a text",
        })
    }
}

// Places are counted from 0.
#[derive(Clone, Copy, Debug, PartialEq, Eq)]
pub struct Fault {
    pub wrong: Wrong,
    pub place: u64,
}

impl fmt::Display for Fault {
    fn fmt<W: fmt::Write>(&self, f: &mut fmt::Formatter<W>) -> fmt::Result {
        let wrong = self.wrong;
        let place = self.place;
        write!(f, "NOT A JOB: {wrong} at byte {place}")
    }
}

// Why a job does not come to its end: it is none, or it could not be kept or told. An input that cannot be read ends there.
#[derive(Debug, Drop)]
pub enum JobError {
    NoJob(Fault),
    Io(io::Error),
}

impl fmt::Display for JobError {
    fn fmt<W: fmt::Write>(&self, f: &mut fmt::Formatter<W>) -> fmt::Result {
        match self {
            JobError::NoJob(fault) => fault.fmt(f),
            JobError::Io(error) => error.fmt(f),
        }
    }
}

impl Error for JobError {}

impl From<Fault> for JobError {
    fn from(fault: Fault) -> JobError {
        JobError::NoJob(fault)
    }
}

impl From<io::Error> for JobError {
    fn from(error: io::Error) -> JobError {
        JobError::Io(error)
    }
}

impl From<AllocError> for JobError {
    fn from(error: AllocError) -> JobError {
        JobError::Io(io::Error::from(error))
    }
}

impl<T: Drop> From<AllocFailed<T>> for JobError {
    fn from(error: AllocFailed<T>) -> JobError {
        JobError::Io(io::Error::from(error))
    }
}
