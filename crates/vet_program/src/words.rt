//! The words of a process, as texts.
ghost use Rattle.std.specs.Prelude.{◌≡◌, ◌∷◌, ℕ, List, IfOk, option_map, string_bytes};
ghost use Rattle.vet_program.specs.Words.{untold_of, IsText};

use std::alloc::{AllocError, Global};
use std::env::FillError;
use std::rt::Env;
use std::str;

// The word at the place, or none past the last one.
fn read_word<E: Env>(alloc: Global, rt: &E, place: usize) -> Result<Option<Vec<u8>>, AllocError> {
    let mut room = 256usize;
    for _ in 0..usize::BITS {
        let mut word = Vec::new(alloc);
        word.resize(room, 0)?;
        match rt.arg(place, &mut word) {
            Ok(taken) => {
                word.truncate(taken);
                return Ok(Some(word));
            }
            Err(FillError::NotPresent) => return Ok(None),
            Err(FillError::TooLong) => room = room.saturating_add(room),
        }
    }
    Err(AllocError)
}

// The word behind a mark, with an escape for each byte that is not UTF-8. The mark is a character
// that no word of a process has, so that no path and no file is meant by it.
fn marked(alloc: Global, word: &[u8]) -> Result<String, AllocError>
    ensures { IfOk result (λ text. (rest : List ℕ) × (string_bytes text ≡ 0 ∷ rest)) }
{
    let mut escaped = String::new(alloc);
    for chunk in word.utf8_chunks() {
        escaped.push_str(chunk.valid())?;
        for byte in chunk.invalid() {
            let byte = *byte;
            write!(escaped, "\\x{byte:02x}")?;
        }
    }
    format!(in alloc; "\0{escaped}")
}

// The word as a text.
#[tactic(auto, using(crate::proofs::Untold::utf8_text, crate::proofs::Untold::other_text))]
fn text_of(alloc: Global, word: &[u8]) -> Result<String, AllocError>
    ensures { IfOk result (λ text. IsText word.now (string_bytes text)) }
{
    match str::from_utf8(word) {
        Ok(text) => String::from_str(alloc, text),
        Err(_) => marked(alloc, word),
    }
}

/// The words, of which the first is the program's name. Of one that is not UTF-8 `untold` says so.
pub(crate) fn read_words<E: Env + AllocGlobal>(rt: &E) -> Result<Vec<String>, AllocError> {
    let alloc = rt.alloc();
    let mut words = Vec::new(alloc);
    for place in 0..usize::MAX {
        match read_word(alloc, rt, place)? {
            Some(word) => words.push(text_of(alloc, &word)?)?,
            None => break,
        }
    }
    Ok(words)
}

/// What is shown of a word that is not UTF-8; none of any other.
pub(crate) fn untold(word: &str) -> Option<&str>
    ensures { option_map (λ s. s.now) result ≡ untold_of word.now }
{
    word.strip_prefix('\0')
}
