// What the records of a file's front ask for.
ghost use Rattle.std.specs.Prelude.{◌≡◌};
ghost use Rattle.runs.specs.Bytes.{word};
ghost use Rattle.records.specs.Payloads.{long, record_of_front};
ghost use Rattle.records.specs.declared.front_record.FrontRecord.TheVariants.{AssumeRecord, SealRecord};

use crate::fault::PayloadFault;
use crate::payload::{Form, RecordKind, form_record};
use crate::record::Record;

/// A record of the front.
#[derive(Clone, Copy)]
pub enum FrontRecord {
    /// Kind 1: a formula to be entered.
    FormRecord(Form),
    /// Kind 2: the number of an entered formula that is to be assumed.
    AssumeRecord(u16),
    /// Kind 3: the front ends.
    SealRecord,
}

/// What a record of the front asks for. Other kinds than 1, 2 and 3 are not allowed (23); a form record has 5 bytes, an
/// assume record 2, a seal record none (24).
impl TryFrom<Record<'_>> for FrontRecord {
    type Error = PayloadFault;

    ghost try_from_gives = { λ x r. r ≡ record_of_front x.kind x.payload.now };

    fn try_from(record: Record<'_>) -> Result<FrontRecord, PayloadFault> {
        match RecordKind::try_from(record.kind)? {
            RecordKind::Form => Ok(FrontRecord::FormRecord(form_record(record.payload)?)),
            RecordKind::Assume => assume_record(record.payload),
            RecordKind::Seal => seal_record(record.payload),
            RecordKind::Line | RecordKind::Table | RecordKind::Pulses => {
                Err(PayloadFault::KindNotAllowed)
            }
        }
    }
}

// The number of an entered formula, in two bytes.
fn assume_record(payload: &[u8]) -> Result<FrontRecord, PayloadFault>
    ensures { result ≡ long 2 payload.now (AssumeRecord (word payload.now 0)) }
{
    let [low, high] = payload else {
        return Err(PayloadFault::WrongLength);
    };
    Ok(FrontRecord::AssumeRecord(u16::from_le_bytes([*low, *high])))
}

// A seal record says nothing but that it is there.
fn seal_record(payload: &[u8]) -> Result<FrontRecord, PayloadFault>
    ensures { result ≡ long 0 payload.now SealRecord }
{
    let [] = payload else {
        return Err(PayloadFault::WrongLength);
    };
    Ok(FrontRecord::SealRecord)
}
