// The kinds of records, and what the front and the body have in common: a formula to be entered.
ghost use Rattle.std.specs.Prelude.{◌≡◌};
ghost use Rattle.records.specs.Payloads.{form_in, long, record_kind_numbered};

use crate::fault::PayloadFault;

// The kinds of records.
#[derive(Clone, Copy)]
pub(crate) enum RecordKind {
    Form,
    Assume,
    Seal,
    Line,
    Table,
    Pulses,
}

/// A formula to be entered: its kind and its two fields.
#[derive(Clone, Copy)]
pub struct Form {
    pub kind: u8,
    pub left: u16,
    pub right: u16,
}

impl TryFrom<u16> for RecordKind {
    type Error = PayloadFault;

    ghost try_from_gives = { λ kind r. r ≡ record_kind_numbered kind };

    fn try_from(kind: u16) -> Result<RecordKind, PayloadFault> {
        match kind {
            1 => Ok(RecordKind::Form),
            2 => Ok(RecordKind::Assume),
            3 => Ok(RecordKind::Seal),
            4 => Ok(RecordKind::Line),
            5 => Ok(RecordKind::Table),
            6 => Ok(RecordKind::Pulses),
            _ => Err(PayloadFault::KindNotAllowed),
        }
    }
}

// A formula's kind in one byte, and its fields in two bytes each, the low one first.
pub(crate) fn form_record(payload: &[u8]) -> Result<Form, PayloadFault>
    ensures { result ≡ long 5 payload.now (form_in payload.now) }
{
    let [kind, left_low, left_high, right_low, right_high] = payload else {
        return Err(PayloadFault::WrongLength);
    };
    Ok(Form {
        kind: *kind,
        left: u16::from_le_bytes([*left_low, *left_high]),
        right: u16::from_le_bytes([*right_low, *right_high]),
    })
}
