// The lines that say what was answered. They are functions and no Display, since other crates have the types but one, and
// that one is told like the others.
ghost use Rattle.std.specs.Prelude.{◌≡◌, IfOk, string_bytes};
ghost use Rattle.scripts.specs.Telling.{duty_left_bare, refused_text, answer_line, claim_line, excuse_line, unread_line};

use claims::refusal::ClaimRefusal;
use goals::refusal::NotExcused;
use sheets::refusal::Refusal;
use sheets::reply::Reply;
use std::alloc::{AllocError, Global};

// The duty that would be left bare, of the refusal that names one.
fn duty_left_bare(refusal: Refusal) -> Option<u32>
    ensures { result ≡ duty_left_bare refusal }
{
    match refusal {
        Refusal::DutyLeftBare(duty) => Some(duty),
        _ => None,
    }
}

// `refused` and the number, and the duty where one is named.
fn refused_line(heap: Global, number: u16, duty: Option<u32>) -> Result<String, AllocError>
    ensures { IfOk result (λ text. string_bytes text ≡ refused_text number duty) }
{
    match duty {
        Some(duty) => format!(in heap; "refused {number} {duty}"),
        None => format!(in heap; "refused {number}"),
    }
}

// The line of a call: the answer in decimal, `ok` where there is none, or `refused`, the number, and of a duty left bare the duty.
pub fn answer_line(heap: Global, answer: Result<Reply, Refusal>) -> Result<String, AllocError>
    ensures { IfOk result (λ text. string_bytes text ≡ answer_line answer) }
{
    match answer {
        Ok(reply) => match reply.number() {
            Some(number) => format!(in heap; "{number}"),
            None => String::from_str(heap, "ok"),
        },
        Err(refusal) => refused_line(heap, refusal.number(), duty_left_bare(refusal)),
    }
}

// The line of a duty that was to be excused.
pub fn excuse_line(heap: Global, answer: Result<(), NotExcused>) -> Result<String, AllocError>
    ensures { IfOk result (λ text. string_bytes text ≡ excuse_line answer) }
{
    match answer {
        Ok(_) => String::from_str(heap, "ok"),
        Err(refusal) => refused_line(heap, refusal.number(), None),
    }
}

// The line of a claim: its length, or `refused`, the number and the places. Each line stands here whole, as in the definition:
// with the number put in, the proof that the texts are the same did not close.
pub fn claim_line(heap: Global, verdict: Result<u16, ClaimRefusal>) -> Result<String, AllocError>
    ensures { IfOk result (λ text. string_bytes text ≡ claim_line verdict) }
{
    match verdict {
        Ok(length) => format!(in heap; "{length}"),
        Err(ClaimRefusal::TooMany) => String::from_str(heap, "refused 34"),
        Err(ClaimRefusal::NoSuchDuty { place }) => format!(in heap; "refused 29 {place}"),
        Err(ClaimRefusal::NamedBefore { place }) => format!(in heap; "refused 30 {place}"),
        Err(ClaimRefusal::NotWanted { place }) => format!(in heap; "refused 31 {place}"),
        Err(ClaimRefusal::NotCoverable { place }) => format!(in heap; "refused 32 {place}"),
        Err(ClaimRefusal::CoveredTogether { earlier, later }) => {
            format!(in heap; "refused 33 {earlier} {later}")
        }
    }
}

// The line of a script line that is not understood; lines count from 1.
pub fn unread_line(heap: Global, line: usize) -> Result<String, AllocError>
    ensures { IfOk result (λ text. string_bytes text ≡ unread_line line) }
{
    format!(in heap; "line {line}: not understood")
}
