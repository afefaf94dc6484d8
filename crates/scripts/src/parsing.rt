// Reading a script.
ghost use Rattle.std.specs.Prelude.{◌≡◌, drop};
ghost use Rattle.scripts.specs.Words.{texts};
ghost use Rattle.scripts.specs.Scripts.{plan, empty, with_excuse, with_call, with_claim, all_numbers, adds, Added, Read};

use crate::claiming::numbers_of;
use crate::lines::line_of;
use crate::refusal::LineRefusal;
use crate::script::{Line, Script, Unreadable};
use crate::words::{lines_of, without_return, words_of};
use sheets::call::Call;
use std::alloc::Global;

impl Script {
    // A script that asks nothing.
    fn new(heap: Global) -> Script
        ensures { plan result ≡ empty }
    {
        Script {
            excused: Vec::new(heap),
            calls: Vec::new(heap),
            claimed: None,
        }
    }

    // Adds a duty to excuse, unless a call or the claim came before.
    fn add_excuse(&mut self, duty: u32) -> Result<(), LineRefusal>
        ensures { Added (with_excuse (plan self.old) duty) (plan self.new) result }
    {
        if self.claimed.is_some() || !self.calls.is_empty() {
            return Err(LineRefusal::NotUnderstood);
        }
        self.excused.push(duty)?;
        Ok(())
    }

    // Adds a call, unless the claim came before.
    fn add_call(&mut self, call: Call) -> Result<(), LineRefusal>
        ensures { Added (with_call (plan self.old) call) (plan self.new) result }
    {
        if self.claimed.is_some() {
            return Err(LineRefusal::NotUnderstood);
        }
        self.calls.push(call)?;
        Ok(())
    }

    // Adds the claim, unless there is one.
    fn add_claim(&mut self, heap: Global, words: &[&[u8]]) -> Result<(), LineRefusal>
        ensures { Added (with_claim (plan self.old) (all_numbers (drop 1 (texts words.now)))) (plan self.new) result }
    {
        if self.claimed.is_some() {
            return Err(LineRefusal::NotUnderstood);
        }
        self.claimed = Some(numbers_of(heap, words)?);
        Ok(())
    }

    // Adds what a line asks, by its words.
    fn add_line(&mut self, heap: Global, words: &[&[u8]]) -> Result<(), LineRefusal>
        ensures { Added (adds (plan self.old) (texts words.now)) (plan self.new) result }
    {
        match line_of(words).ok_or(LineRefusal::NotUnderstood)? {
            Line::Nothing => Ok(()),
            Line::Excuse(duty) => self.add_excuse(duty),
            Line::Do(call) => self.add_call(call),
            Line::Claim => self.add_claim(heap, words),
        }
    }
}

// Reads a script, one call a line; or names the first line that is not understood.
pub fn read_script(heap: Global, text: &[u8]) -> Result<Script, Unreadable>
    ensures { Read text.now result }
{
    let lines = lines_of(heap, text)?;
    let mut script = Script::new(heap);
    for (i, line) in lines.iter().enumerate() {
        let words = words_of(heap, without_return(line))?;
        // No `map_err`: of the two refusals one alone names the line.
        match script.add_line(heap, &words) {
            Ok(()) => {}
            Err(LineRefusal::NotUnderstood) => {
                return Err(Unreadable::NotUnderstood { line: i + 1 });
            }
            Err(LineRefusal::NoMemory) => return Err(Unreadable::NoMemory),
        }
    }
    Ok(script)
}
