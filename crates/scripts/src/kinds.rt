// The goals that a sheet can be worked on for, by the word that names each.
ghost use Rattle.std.specs.Prelude.{◌≡◌};
ghost use Rattle.scripts.specs.Kinds.{kind_of};

use crate::kind::Kind;

// The kind of goal that a word names.
pub fn kind_of(word: &[u8]) -> Option<Kind>
    ensures { result ≡ kind_of word.now }
{
    match word {
        b"detect" => Some(Kind::Detect),
        b"tell" => Some(Kind::Tell),
        b"both" => Some(Kind::Both),
        _ => None,
    }
}
