// Reads the body of a file: what a sealed case is told.
ghost use Rattle.std.specs.Prelude.{◌≡◌};
ghost use Rattle.std.specs.Result.{result_err};
ghost use Rattle.cases.specs.Model.{sealed};
ghost use Rattle.model.specs.History.{after_call};
ghost use Rattle.model.specs.Making.{OneMade};
ghost use Rattle.files.specs.CallsMade.{BodyMakesHistory};
ghost use Rattle.files.specs.FileReads.{BodyExact};
ghost use Rattle.files.specs.Reading.{body, call_for, refusal_of, scratch_after};

use cases::SealedCase;
use records::{BodyRecord, Fault, Records, with_offset};
use refusals::Refusal;
use rules::RulePage;

/// Makes the calls that the records from a start offset on ask for, up to the end of the file. Lines are entered under a
/// page of rules. In every history the reading counts as these calls.
///
/// A fault ends the reading, and what was done before it stays: no head of four bytes (21) or no whole payload (22) stands
/// where a record is due, the start may lie past the end (21), a record is not of the body (23), has another length than its
/// kind (24) or gives no run (26), or the case refuses its call, by the refusal's own number. The scratch words hold the rows
/// of the last refutation that was judged, if one was.
#[tactic(auto, using(crate::proofs::Start::body_from, crate::proofs::FileReads::body_exact, crate::proofs::CallsMade::body_makes_history, model::proofs::Making::one_made))]
pub fn read_body<P: RulePage>(
    case: &mut SealedCase,
    page: &P,
    file: &[u8],
    start: usize,
    scratch: &mut [u64],
) -> Result<(), Fault>
    ensures answer { result
        ≡ (body (P.meaning page.now) (sealed case.old) start scratch.old file.now).answer }
    ensures after { sealed case.new
        ≡ (body (P.meaning page.now) (sealed case.old) start scratch.old file.now).after }
    ensures words { scratch.new
        ≡ (body (P.meaning page.now) (sealed case.old) start scratch.old file.now).carried.scratch }
    ensures exact { BodyExact }
    ensures history { BodyMakesHistory }
    ensures one { OneMade }
{
    for record in Records::new(file, start) {
        let record = record?;
        let request = with_offset(record.offset, BodyRecord::try_from(record))?;
        with_offset(record.offset, make_call(case, page, request, scratch))?;
    }
    Ok(())
}

// Makes the call that a record asks for, and answers its number, which reading needs no more.
fn make_call<P: RulePage>(
    case: &mut SealedCase,
    page: &P,
    request: BodyRecord<'_>,
    scratch: &mut [u64],
) -> Result<u16, Refusal>
    ensures refusal { result_err result
        ≡ refusal_of (sealed case.old) (call_for (P.meaning page.now) scratch.old request.entry) }
    ensures after { sealed case.new
        ≡ after_call (sealed case.old) (call_for (P.meaning page.now) scratch.old request.entry) }
    ensures words { scratch.new
        ≡ scratch_after (sealed case.old) (call_for (P.meaning page.now) scratch.old request.entry) scratch.old }
{
    match request {
        BodyRecord::FormRecord(form) => case.form(form.kind, form.left, form.right),
        BodyRecord::LineRecord(line) => case.line(page, line),
        BodyRecord::TableRecord(refutation, table) => {
            case.refute(&table, refutation.formula, refutation.position, scratch)
        }
        BodyRecord::PulseRecord(refutation, pulses) => {
            case.refute(&pulses, refutation.formula, refutation.position, scratch)
        }
    }
}
