// Reads the front of a file: what a case is told before it is sealed.
ghost use Rattle.std.specs.Prelude.{◌≡◌};
ghost use Rattle.cases.specs.Model.{opened};
ghost use Rattle.model.specs.Making.{OneMade};
ghost use Rattle.files.specs.CallsMade.{FrontMakesHistory};
ghost use Rattle.files.specs.FileReads.{FrontExact};
ghost use Rattle.files.specs.Reading.{front};

use cases::OpenCase;
use records::{ErrorAt, Fault, FrontRecord, RecordFault, Records, with_offset};

/// Makes the calls that the records ask for, up to the seal record, and answers the offset after it, in bytes from the start
/// of the file. In every history the reading counts as these calls.
///
/// A fault ends the reading, and what was done before it stays: no head of four bytes (21) or no whole payload (22) stands
/// where a record is due, a record is not of the front (23) or has another length than its kind (24), the case refuses its
/// call, by the refusal's own number, or the file ends without a seal record (25).
#[tactic(auto, using(crate::proofs::Start::front_from, crate::proofs::FileReads::front_exact, crate::proofs::CallsMade::front_makes_history, model::proofs::Making::one_made))]
pub fn read_front(case: &mut OpenCase, file: &[u8]) -> Result<usize, Fault>
    ensures answer { result ≡ (front (opened case.old) file.now).answer }
    ensures after { opened case.new ≡ (front (opened case.old) file.now).after }
    ensures exact { FrontExact }
    ensures history { FrontMakesHistory }
    ensures one { OneMade }
{
    for record in Records::new(file, 0) {
        let record = record?;
        // a call answers a number or a place, which reading needs no more
        match with_offset(record.offset, FrontRecord::try_from(record))? {
            FrontRecord::FormRecord(form) => with_offset(
                record.offset,
                case.form(form.kind, form.left, form.right),
            )?,
            FrontRecord::AssumeRecord(formula) => with_offset(record.offset, case.assume(formula))?,
            FrontRecord::SealRecord => return Ok(record.behind),
        };
    }
    let unsealed = ErrorAt {
        error: RecordFault::NoSeal,
        offset: file.len(),
    };
    Err(unsealed.into())
}
