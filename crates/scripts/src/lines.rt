// What one line asks, by its words.
ghost use Rattle.std.specs.Prelude.{◌≡◌, [], length};
ghost use Rattle.scripts.specs.Words.{texts};
ghost use Rattle.scripts.specs.Lines.{passed_over, verb_of, takes, asks, line_of};

use crate::cubing::cube_of;
use crate::numbers::{number_of, serial_of};
use crate::script::{Line, Verb};
use crate::words::word_at;
use sheets::call::Call;

// A line with this first word is passed over: there is no word, or it begins with #.
fn is_passed_over(word: &[u8]) -> bool
    ensures { result ≡ passed_over word.now }
{
    matches!(word, [] | [b'#', ..])
}

// The verb that a word is.
fn verb_of(word: &[u8]) -> Option<Verb>
    ensures { result ≡ verb_of word.now }
{
    match word {
        b"excuse" => Some(Verb::Excuse),
        b"enter" => Some(Verb::Enter),
        b"cover" => Some(Verb::Cover),
        b"pull" => Some(Verb::Pull),
        b"back" => Some(Verb::Back),
        b"strike" => Some(Verb::Strike),
        b"exchange" => Some(Verb::Exchange),
        b"join" => Some(Verb::Join),
        b"sweep" => Some(Verb::Sweep),
        b"claim" => Some(Verb::Claim),
        _ => None,
    }
}

// A line with this verb may have so many words, the verb among them.
fn may_take(verb: Verb, words: usize) -> bool
    ensures { result ≡ takes verb words }
{
    match verb {
        Verb::Excuse | Verb::Enter | Verb::Cover => words == 2,
        Verb::Pull | Verb::Back | Verb::Strike => words == 2,
        Verb::Exchange | Verb::Join => words == 3,
        Verb::Sweep => words == 1,
        Verb::Claim => true,
    }
}

// What a line with this verb asks, by the two words after it; a word that is not there is empty.
fn asked(verb: Verb, first: &[u8], second: &[u8]) -> Option<Line>
    ensures { result ≡ asks verb first.now second.now }
{
    match verb {
        Verb::Excuse => Some(Line::Excuse(number_of(first)?)),
        Verb::Enter => Some(Line::Do(Call::Enter(cube_of(first)?))),
        Verb::Cover => Some(Line::Do(Call::Cover(number_of(first)?))),
        Verb::Pull => Some(Line::Do(Call::Pull(serial_of(first)?))),
        Verb::Back => Some(Line::Do(Call::PutBack(serial_of(first)?))),
        Verb::Strike => Some(Line::Do(Call::Strike(serial_of(first)?))),
        Verb::Exchange => Some(Line::Do(Call::Exchange(serial_of(first)?, cube_of(second)?))),
        Verb::Join => Some(Line::Do(Call::Join(serial_of(first)?, serial_of(second)?))),
        Verb::Sweep => Some(Line::Do(Call::Sweep)),
        Verb::Claim => Some(Line::Claim),
    }
}

// What a line asks, by its words; none where it is not understood. The numbers of a claim are read apart.
pub fn line_of(words: &[&[u8]]) -> Option<Line>
    ensures { result ≡ line_of (texts words.now) }
{
    let word = word_at(words, 0);
    if is_passed_over(word) {
        return Some(Line::Nothing);
    }
    let verb = verb_of(word)?;
    if !may_take(verb, words.len()) {
        return None;
    }
    asked(verb, word_at(words, 1), word_at(words, 2))
}
