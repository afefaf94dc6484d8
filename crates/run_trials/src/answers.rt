// What a sheet lists and what a run answers, held to what is expected.
use goals::goal::Goal;
use sheets::refusal::Refusal;
use sheets::reply::Reply;
use sheets::sheet::Sheet;
use std::process::Abort;
use std::test::Fail;

// The rows in place, as they are listed.
pub(crate) fn listed<G: Goal>(
    rt: &impl Abort,
    sheet: &Sheet<G>,
    expected: &[u8],
) -> Result<(), Fail> {
    let mut text = [b'.'; 64];
    let length = match sheet.list(&mut text) {
        Ok(length) => length,
        Err(_) => return Err(Fail::new("too short")),
    };
    assert_eq!(rt; length, expected.len());
    assert!(rt; text.starts_with(expected));
    Ok(())
}

// The answers of a run, one by one.
pub(crate) fn answered(
    rt: &impl Abort,
    answers: &[Result<Reply, Refusal>],
    expected: &[Result<Reply, Refusal>],
) {
    assert!(rt; answers.len() == expected.len());
    for i in 0..expected.len() {
        assert_eq!(rt; &answers[i], &expected[i]);
    }
}
