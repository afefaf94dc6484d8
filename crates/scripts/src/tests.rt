// Worked examples: each expected value is written out by hand.
use crate::cubing::cube_of;
use crate::numbers::{number_of, serial_of};
use crate::parsing::read_script;
use crate::script::Unreadable;
use crate::telling::{answer_line, claim_line};
use claims::refusal::ClaimRefusal;
use sheets::refusal::Refusal;
use sheets::reply::Reply;
use std::test::Fail;

#[test]
fn numbers_and_cubes(rt: HostRuntime) -> Result<(), Fail> {
    assert_eq!(rt; number_of(b"4294967295"), Some(4294967295));
    assert_eq!(rt; number_of(b"4294967296"), None);
    assert_eq!(rt; number_of(b""), None);
    assert_eq!(rt; number_of(b"1x"), None);
    assert_eq!(rt; serial_of(b"0065535"), Some(65535));
    assert_eq!(rt; serial_of(b"65536"), None);
    let Some(cube) = cube_of(b"0X1") else {
        return Err(Fail::new("no cube"));
    };
    assert_eq!(rt; cube.zeros(), 1);
    assert_eq!(rt; cube.ones(), 4);
    assert!(rt; cube_of(b"-").is_some());
    assert!(rt; cube_of(b"01010101010101010").is_none());
    assert!(rt; cube_of(b"0-").is_none());
    Ok(())
}

#[test]
fn scripts_are_read(rt: HostRuntime) -> Result<(), Fail> {
    let heap = rt.alloc();
    let script = read_script(
        heap,
        b"# remark\r\n excuse\t7 \n\ncover 0\r\nsweep\nclaim\n",
    )?;
    assert_eq!(rt; script.excused.len(), 1);
    assert_eq!(rt; script.calls.len(), 2);
    assert!(rt; script.claimed.is_some());
    let bad = Some(Unreadable::NotUnderstood { line: 3 });
    assert_eq!(rt; read_script(heap, b"sweep\n\nexcuse 1").err(), bad);
    assert_eq!(rt; read_script(heap, b"claim 1\n#\nsweep").err(), bad);
    assert_eq!(rt; read_script(heap, b"\n\njoin 1 65536\n").err(), bad);
    Ok(())
}

#[test]
fn answers_are_told(rt: HostRuntime) -> Result<(), Fail> {
    let heap = rt.alloc();
    assert_eq!(rt; answer_line(heap, Ok(Reply::Already))?.as_str(), "0");
    assert_eq!(rt; answer_line(heap, Ok(Reply::Done))?.as_str(), "ok");
    assert_eq!(rt;
        answer_line(heap, Err(Refusal::DutyLeftBare(12)))?.as_str(),
        "refused 27 12"
    );
    assert_eq!(rt;
        answer_line(heap, Err(Refusal::SheetFull))?.as_str(),
        "refused 22"
    );
    let clash = ClaimRefusal::CoveredTogether {
        earlier: 3,
        later: 10,
    };
    assert_eq!(rt; claim_line(heap, Err(clash))?.as_str(), "refused 33 3 10");
    Ok(())
}
