// The records of a file, one after another.
ghost use Rattle.std.specs.Prelude.{◌≡◌, ◌+◌, ◌-◌, length, MatchOption, IfOk};
ghost use Rattle.std.specs.Iterator.{at_most};
ghost use Rattle.records.specs.Contents.{content, content_at, IsPlaced, NextGives, NextYields};

use crate::fault::{ErrorAt, RecordFault, with_offset};

// The length of a record's head.
const HEAD: usize = 4;

/// A record where it stands in a file: the offset of its head, its kind, its payload, and the offset after it.
#[derive(Clone, Copy)]
pub struct Record<'a> {
    pub offset: usize,
    pub kind: u16,
    pub payload: &'a [u8],
    pub behind: usize,
}

/// The records of a file from an offset on, which may lie past its end. A fault is the last item: nothing tells where the next head would stand.
#[derive(Drop)]
pub struct Records<'a> {
    file: &'a [u8],
    offset: usize,
}

impl<'a> Records<'a> {
    /// The records of a file from an offset on, in bytes.
    #[tactic(auto, using(crate::proofs::NextItem::next_yields))]
    pub fn new(file: &'a [u8], offset: usize) -> Records<'a>
        ensures file { result.file.now ≡ file.now }
        ensures offset { result.offset ≡ offset }
        ensures yields { NextYields }
    {
        Records { file, offset }
    }
}

impl<'a> Iterator for Records<'a> {
    type Item = Result<Record<'a>, ErrorAt<RecordFault>>;

    ghost next_gives = { NextGives };

    ghost remaining = { λ s. at_most ((length s.file.now - s.offset) + (s.offset - length s.file.now)) };

    fn next(&mut self) -> Option<Self::Item> {
        let record = with_offset(self.offset, record_at(self.file, self.offset)).transpose()?;
        self.offset = record.map_or(self.file.len(), |found| found.behind);
        Some(record)
    }
}

// The record whose head stands at an offset of a file, or none at the file's end.
fn record_at(file: &[u8], offset: usize) -> Result<Option<Record<'_>>, RecordFault>
    ensures value { content result ≡ content_at file.now offset }
    ensures place { IfOk result (λ o. MatchOption o (offset ≡ length file.now) (IsPlaced file.now offset)) }
{
    let bytes = file.get(offset..).ok_or(RecordFault::ShortHead)?;
    match bytes {
        [] => Ok(None),
        [length_low, length_high, kind_low, kind_high, rest @ ..] => {
            let length = usize::from(u16::from_le_bytes([*length_low, *length_high]));
            let payload = rest.get(..length).ok_or(RecordFault::PayloadCut)?;
            Ok(Some(Record {
                offset,
                kind: u16::from_le_bytes([*kind_low, *kind_high]),
                payload,
                behind: offset + HEAD + length,
            }))
        }
        _ => Err(RecordFault::ShortHead),
    }
}
