// Cubes from their letters.
ghost use Rattle.std.specs.Prelude.{◌≡◌, ◌≤◌, length};
ghost use Rattle.scripts.specs.Cubing.{cube_of, dash, is_letter, letters_only, inputs_of};
ghost use Rattle.cubes.specs.Cubes.{of_masks};

use cubes::cube::Cube;
use cubes::mask::Mask;

// The byte is 0, 1 or X.
fn is_letter(byte: u8) -> bool
    ensures { result ≡ is_letter byte }
{
    matches!(byte, b'0' | b'1' | b'X')
}

// Every byte is 0, 1 or X.
fn has_letters_only(word: &[u8]) -> bool
    ensures { result ≡ letters_only word.now }
{
    word.iter().all(|byte| is_letter(*byte))
}

// The inputs that have this letter: input i has the letter at place i.
fn inputs_of(letter: u8, word: &[u8]) -> Mask
    requires { length word.now ≤ 16 }
    ensures { result ≡ inputs_of letter word.now (length word.now) }
{
    let mut inputs = 0;
    for (i, byte) in word.iter().enumerate() {
        inputs |= Mask::from(*byte == letter) << i;
    }
    inputs
}

// The cube with these inputs 0 and 1.
fn cube_with(zeros: Mask, ones: Mask) -> Option<Cube>
    ensures { result ≡ of_masks zeros ones }
{
    Cube::from_masks(zeros, ones).ok()
}

// The word is a dash.
fn is_dash(word: &[u8]) -> bool
    ensures { result ≡ dash word.now }
{
    matches!(word, [b'-'])
}

// The cube of one to 16 letters 0, 1 or X, input 0 first; inputs with no letter are unknown, and a dash alone is the cube
// that knows nothing.
pub fn cube_of(word: &[u8]) -> Option<Cube>
    ensures { result ≡ cube_of word.now }
{
    if word.is_empty() || word.len() > 16 {
        return None;
    }
    if is_dash(word) {
        return cube_with(0, 0);
    }
    if !has_letters_only(word) {
        return None;
    }
    cube_with(inputs_of(b'0', word), inputs_of(b'1', word))
}
