// Why a file is not read on: what is wrong with a record, its payload or its call, and where.
ghost use Rattle.std.specs.Prelude.{◌≡◌};
ghost use Rattle.records.specs.Faults.{cause_number, error_at, layer_of, run_fault};
ghost use Rattle.records.specs.declared.fault.Cause.TheVariants.{Record, Payload, Case};

use refusals::Refusal;
use runs::RunFault;
use thiserror::Error;

/// What is wrong with a record.
#[derive(Clone, Copy, PartialEq, Eq, Debug, Error)]
pub enum RecordFault {
    /// 21: one to three bytes are left where the head of a record is due, or the start lies past the end of the file.
    #[error("there are fewer than four bytes for the head of a record")]
    ShortHead = 21,
    /// 22: the payload passes the end of the file.
    #[error("the payload passes the end of the file")]
    PayloadCut = 22,
    /// 25: the front ends without a seal record.
    #[error("the front ends without a seal record")]
    NoSeal = 25,
}

/// What is wrong with a payload.
#[derive(Clone, Copy, PartialEq, Eq, Debug, Error)]
pub enum PayloadFault {
    /// 23: the kind is not allowed in this part of the file.
    #[error("a record of this kind is not allowed in this part of the file")]
    KindNotAllowed = 23,
    /// 24: the length is not that of the kind.
    #[error("the length is not that of the record's kind")]
    WrongLength = 24,
    /// 26: the payload of a refutation gives no run.
    #[error("the bytes give no run")]
    NoRun = 26,
}

/// Why a file is not read on.
#[derive(Clone, Copy, PartialEq, Eq, Debug, Error)]
pub enum Cause {
    /// Layer 1: a record is wrong, or is missing.
    #[error("wrong record: {0}")]
    Record(RecordFault),
    /// Layer 2: what a record holds is wrong.
    #[error("wrong payload: {0}")]
    Payload(PayloadFault),
    /// Layer 3: the case refused the call that a record asks for. This is its refusal, whole.
    #[error("refused by the case: {0}")]
    Case(Refusal),
}

/// A cause, and the offset of the record's head, or of where one was due, in bytes from the start of the file.
#[derive(Clone, Copy, PartialEq, Eq, Debug, Error)]
#[error("at byte {offset}, {cause}")]
pub struct Fault {
    pub cause: Cause,
    pub offset: usize,
}

/// An error that becomes a cause, held beside the offset that its fault tells.
#[derive(Clone, Copy)]
pub struct ErrorAt<E> {
    pub error: E,
    pub offset: usize,
}

/// An answer about the record at an offset: its error is held beside the offset.
pub fn with_offset<T, E>(offset: usize, answer: Result<T, E>) -> Result<T, ErrorAt<E>>
    ensures { result ≡ error_at offset answer }
{
    answer.map_err(|error| ErrorAt { error, offset })
}

impl From<RunFault> for PayloadFault {
    ghost from_gives = { λ e f. f ≡ run_fault e };

    fn from(fault: RunFault) -> PayloadFault {
        match fault {
            RunFault::WrongLength => PayloadFault::WrongLength,
            RunFault::NoRun => PayloadFault::NoRun,
        }
    }
}

impl From<RecordFault> for Cause {
    ghost from_gives = { λ e c. c ≡ Record e };

    fn from(fault: RecordFault) -> Cause {
        Cause::Record(fault)
    }
}

impl From<PayloadFault> for Cause {
    ghost from_gives = { λ e c. c ≡ Payload e };

    fn from(fault: PayloadFault) -> Cause {
        Cause::Payload(fault)
    }
}

impl From<Refusal> for Cause {
    ghost from_gives = { λ e c. c ≡ Case e };

    fn from(refusal: Refusal) -> Cause {
        Cause::Case(refusal)
    }
}

impl<E: Into<Cause>> From<ErrorAt<E>> for Fault {
    ghost from_gives = { λ e f. E.converts e.error f.cause × (f.offset ≡ e.offset) };

    fn from(e: ErrorAt<E>) -> Fault {
        Fault {
            cause: e.error.into(),
            offset: e.offset,
        }
    }
}

impl Fault {
    /// The layer: 1 for a record, 2 for a payload, 3 for the case.
    pub fn layer(self) -> u8
        ensures { result ≡ layer_of self.cause }
    {
        match self.cause {
            Cause::Record(_) => 1,
            Cause::Payload(_) => 2,
            Cause::Case(_) => 3,
        }
    }

    /// The number that a caller is told: 21, 22 or 25 for a record, 23, 24 or 26 for a payload, the refusal's own for the case.
    pub fn number(self) -> u8
        ensures { result ≡ cause_number self.cause }
    {
        match self.cause {
            Cause::Record(e) => e as u8,
            Cause::Payload(e) => e as u8,
            Cause::Case(e) => e.number(),
        }
    }
}
