// What the records of a file's body ask for.
ghost use Rattle.std.specs.Prelude.{◌≡◌};
ghost use Rattle.runs.specs.Pulses.{pulse_check, pulse_run};
ghost use Rattle.runs.specs.Tables.{table_check, table_run};
ghost use Rattle.records.specs.Payloads.{refutation_written, line_written, long, place_of, record_of_body, refute_in};
ghost use Rattle.records.specs.Requests.{requested};

use crate::fault::PayloadFault;
use crate::payload::{Form, RecordKind, form_record};
use crate::record::Record;
use model::{Line, Refutation};
use runs::{PulseRun, TableRun};

// In a field for a place: no place.
const EMPTY_PLACE: u16 = 65_535;

/// A record of the body. A run stands over the record's bytes, which are not copied.
#[derive(Clone, Copy)]
pub enum BodyRecord<'a> {
    /// Kind 1: a formula to be entered.
    FormRecord(Form),
    /// Kind 4: a line to be held.
    LineRecord(Line),
    /// Kind 5: a refutation by a table.
    TableRecord(Refutation, TableRun<'a>),
    /// Kind 6: a refutation by pulses.
    PulseRecord(Refutation, PulseRun<'a>),
}

/// What a record of the body asks for. Other kinds than 1, 4, 5 and 6 are not allowed (23), a form record has 5 bytes and a
/// line record 8 (24), and a refutation 4 and a run's: these are of a wrong length (24) or give no run (26).
impl<'a> TryFrom<Record<'a>> for BodyRecord<'a> {
    type Error = PayloadFault;

    ghost try_from_gives = { λ x r. requested r ≡ record_of_body x.kind x.payload.now };

    fn try_from(record: Record<'a>) -> Result<BodyRecord<'a>, PayloadFault> {
        match RecordKind::try_from(record.kind)? {
            RecordKind::Form => Ok(BodyRecord::FormRecord(form_record(record.payload)?)),
            RecordKind::Line => Ok(BodyRecord::LineRecord(line_record(record.payload)?)),
            RecordKind::Table => table_record(record.payload),
            RecordKind::Pulses => pulse_record(record.payload),
            RecordKind::Assume | RecordKind::Seal => Err(PayloadFault::KindNotAllowed),
        }
    }
}

// The numbers of a formula and of a position, in two bytes each.
fn refutation(bytes: &[u8; 4]) -> Refutation
    ensures { result ≡ refutation_written bytes.now }
{
    let [formula_low, formula_high, position_low, position_high] = *bytes;
    Refutation {
        formula: u16::from_le_bytes([formula_low, formula_high]),
        position: u16::from_le_bytes([position_low, position_high]),
    }
}

// A rule, a formula and two places, in two bytes each.
fn line_record(payload: &[u8]) -> Result<Line, PayloadFault>
    ensures { result ≡ long 8 payload.now (line_written payload.now) }
{
    let [
        rule_low,
        rule_high,
        formula_low,
        formula_high,
        first_low,
        first_high,
        second_low,
        second_high,
    ] = payload
    else {
        return Err(PayloadFault::WrongLength);
    };
    Ok(Line {
        rule: u16::from_le_bytes([*rule_low, *rule_high]),
        formula: u16::from_le_bytes([*formula_low, *formula_high]),
        first: place(u16::from_le_bytes([*first_low, *first_high])),
        second: place(u16::from_le_bytes([*second_low, *second_high])),
    })
}

// The place that a field gives, if any.
fn place(field: u16) -> Option<u16>
    ensures { result ≡ place_of field }
{
    if field == EMPTY_PLACE {
        None
    } else {
        Some(field)
    }
}

// A formula and a position, and a run that tells each position's atoms.
fn table_record(payload: &[u8]) -> Result<BodyRecord<'_>, PayloadFault>
    ensures { requested result ≡ refute_in table_check table_run payload.now }
{
    let (numbers, run) = payload
        .split_first_chunk()
        .ok_or(PayloadFault::WrongLength)?;
    Ok(BodyRecord::TableRecord(refutation(numbers), TableRun::try_from(run)?))
}

// A formula and a position, and a run whose atoms come in pulses.
fn pulse_record(payload: &[u8]) -> Result<BodyRecord<'_>, PayloadFault>
    ensures { requested result ≡ refute_in pulse_check pulse_run payload.now }
{
    let (numbers, run) = payload
        .split_first_chunk()
        .ok_or(PayloadFault::WrongLength)?;
    Ok(BodyRecord::PulseRecord(refutation(numbers), PulseRun::try_from(run)?))
}
