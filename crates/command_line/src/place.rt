//! What is seen of the words before the parse and beside it.

ghost use Rattle.std.specs.Prelude.{◌≡◌, ◌==◌, ◌≤◌, false, not, length};
ghost use Rattle.std.specs.List.{list_any};
ghost use Rattle.command_line.specs.Items.{texts_of};
ghost use Rattle.command_line.specs.Uses.{has_dashes, mesh_from};

use crate::limits::MOST_WORDS;
use text_words::starts_minus;

/// Whether a word is `--`, behind which `clap` would take each word as the MESH word.
pub fn has_dashes(words: &[String]) -> bool
    ensures { result ≡ has_dashes (texts_of words.now) }
{
    for word in words {
        if word.as_str().as_bytes() == b"--".as_slice() {
            return true;
        }
    }
    false
}

/// The place of the first word that is neither an option nor an option's value; places are counted from 0.
pub fn mesh_place(words: &[String]) -> Option<u32>
    requires { length words.now ≤ MOST_WORDS }
    ensures { result ≡ mesh_from false 0 (texts_of words.now) }
{
    let mut is_value = false;
    for (place, word) in words.iter().enumerate() {
        let text = word.as_str().as_bytes();
        if is_value {
            is_value = false;
        } else if starts_minus(text) {
            is_value = !has_equals_sign(text);
        } else {
            return Some(place as u32);
        }
    }
    None
}

fn has_equals_sign(text: &[u8]) -> bool
    ensures { result ≡ list_any (λ b. b == 61) text.now }
{
    text.iter().any(|b| *b == b'=')
}
