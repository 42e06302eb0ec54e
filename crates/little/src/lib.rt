// Words of 64 bits as bytes, the lowest byte first: eight bytes to a word.
#![tactic(auto)]

ghost use Rattle.std.specs.Prelude.{◌≡◌, cond, ◌*◌, ◌≤◌, length, leb};
ghost use Rattle.output.specs.Output.{front, answer};
ghost use Rattle.little.specs.Little.{bytes_of, words_in};

use output::PutError;

// The words' bytes at the front of out.
pub fn put_words(words: &[u64], out: &mut [u8]) -> Result<usize, PutError>
    ensures { (result ≡ answer (bytes_of words.now) out.old) × (out.new ≡ front (bytes_of words.now) out.old) }
{
    if out.len() / 8 < words.len() {
        return Err(PutError::TooShort);
    }
    // Stays by places: after a zip over `as_chunks_mut` it is not known what out ends as, so the
    // proof did not close.
    for (i, word) in words.iter().enumerate() {
        let at = 8 * i;
        out[at..at + 8].copy_from_slice(&word.to_le_bytes());
    }
    Ok(8 * words.len())
}

// The words at the front of b, as many as the list has places; false where b has fewer.
// Stays a bool beside a list: an array in the answer, which was tried and proved, would ask callers
// to know the number of words when they are compiled.
pub fn get_words(b: &[u8], words: &mut [u64]) -> bool
    ensures value { result ≡ leb (8 * length words.old) (length b.now) }
    ensures words_after { words.new ≡ cond (leb (8 * length words.old) (length b.now)) (words_in (length words.old) b.now) words.old }
{
    let (parts, _) = b.as_chunks::<8>();
    if parts.len() < words.len() {
        return false;
    }
    // Stays by places: after a zip it is not known what was written, so the proof did not close.
    for (i, word) in words.iter_mut().enumerate() {
        *word = u64::from_le_bytes(parts[i]);
    }
    true
}
