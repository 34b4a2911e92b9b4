// Prints what is said to people of each refusal and each fault, beside its number.
#![tactic(auto)]

use checker::Unwritten;
use listing::ListingRefusal;
use records::{Cause, Fault, PayloadFault, RecordFault};
use refusals::{FormRefusal, Refusal};
use runs::RunFault;

const REFUSALS: [Refusal; 16] = [
    Refusal::Form(FormRefusal::UnknownKind),
    Refusal::Form(FormRefusal::BadField),
    Refusal::Form(FormRefusal::FormulasFull),
    Refusal::NotEntered,
    Refusal::AssumptionsFull,
    Refusal::LineNotHeld,
    Refusal::LinesFull,
    Refusal::NotAdmitted,
    Refusal::BeyondLimit,
    Refusal::RunTooLong,
    Refusal::PastRun,
    Refusal::ScratchTooShort,
    Refusal::AssumptionFalse {
        place: 3,
        position: 150,
    },
    Refusal::FormulaTrue,
    Refusal::RefutationsFull,
    Refusal::RefutationNotHeld,
];

const CAUSES: [Cause; 7] = [
    Cause::Record(RecordFault::ShortHead),
    Cause::Record(RecordFault::PayloadCut),
    Cause::Payload(PayloadFault::KindNotAllowed),
    Cause::Payload(PayloadFault::WrongLength),
    Cause::Record(RecordFault::NoSeal),
    Cause::Payload(PayloadFault::NoRun),
    Cause::Case(Refusal::LinesFull),
];

fn main(rt: HostRuntime) -> anyhow::Result<()> {
    for refusal in REFUSALS {
        println!(rt; "{} {refusal}", refusal.number())?;
    }
    for cause in CAUSES {
        let fault = Fault { cause, offset: 30 };
        println!(rt; "{} {} {fault}", fault.layer(), fault.number())?;
    }
    for fault in [RunFault::WrongLength, RunFault::NoRun] {
        println!(rt; "{fault}")?;
    }
    let short = ListingRefusal::BufferTooShort;
    println!(rt; "{} {short}", short.number())?;
    for unwritten in [Unwritten::BufferTooShort, Unwritten::NoMemory] {
        println!(rt; "{} {unwritten}", unwritten.number())?;
    }
    Ok(())
}
