// Program workbench: `workbench BOARD detect|tell|both` reads a board file by name and a script from standard input,
// makes the script's calls on a sheet over detection, distinction or the two joined, and prints what each answered and
// then the listing. For a refused board, and for a script that is not understood, it prints the line that says so.
#![tactic(auto)]

mod bench;

use anyhow::{Context, anyhow};
use bench::work;
use boards::board::Board;
use console::saying::say_refused;
use scripts::kind::Kind;
use scripts::kinds::kind_of;
use scripts::parsing::read_script;
use scripts::script::Unreadable;
use scripts::telling::unread_line;
use std::io::Read;
use std::{env, fs};

// The board's name and the kind of goal.
fn arguments(rt: &HostRuntime) -> anyhow::Result<(String, Kind)> {
    let mut words = env::args(rt)?;
    let _ = words.next();
    let name = words.next().context("no board is named")?;
    let word = words.next().context("no goal is named")?;
    let kind = kind_of(word.as_bytes()).context("the goal is detect, tell or both")?;
    Ok((name, kind))
}

// All of standard input.
fn script_text(rt: &HostRuntime) -> anyhow::Result<Vec<u8>> {
    let mut text = Vec::new(rt.alloc());
    rt.stdin().read_to_end(&mut text)?;
    Ok(text)
}

fn run(rt: &HostRuntime) -> anyhow::Result<()> {
    let heap = rt.alloc();
    let (name, kind) = arguments(rt)?;
    let bytes = fs::read(rt, name.as_str())?;
    let mut board = Board::new(heap)?;
    if let Err(unread) = board.read(&bytes) {
        say_refused(rt, unread)?;
        return Ok(());
    }
    let text = script_text(rt)?;
    match read_script(heap, &text) {
        Ok(script) => work(rt, board, kind, &script),
        Err(Unreadable::NotUnderstood { line }) => {
            rt.println(unread_line(heap, line)?)?;
            Ok(())
        }
        Err(Unreadable::NoMemory) => Err(anyhow!("no memory")),
    }
}

fn main(rt: HostRuntime) -> anyhow::Result<()> {
    run(&rt)
}
