// What a run gives back.
use claims::refusal::ClaimRefusal;
use sheets::refusal::Refusal;
use sheets::reply::Reply;
use sheets::sheet::Sheet;

// The sheet with no row out, what each call answered, and the verdict on the claim.
#[derive(Drop)]
pub struct Finished<G> {
    pub sheet: Sheet<G>,
    pub answers: Vec<Result<Reply, Refusal>>,
    pub verdict: Result<u16, ClaimRefusal>,
}
