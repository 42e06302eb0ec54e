// Eight bytes of a text as one word of 64 bits, the lowest byte first, so that they can be looked
// at at once.
#![tactic(auto)]

ghost use Rattle.std.specs.Prelude.{◌≡◌, ◌+◌, ◌≤◌, length, take, drop};
ghost use Rattle.word.specs.Word.{number};

// The compiler makes one load of it.
fn eight_at(s: &[u8], at: usize) -> u64
    requires { at + 8 ≤ length s.now }
    ensures { result ≡ number (take 8 (drop at s.now)) }
{
    match s[at..].first_chunk::<8>() {
        Some(bytes) => u64::from_le_bytes(*bytes),
        None => 0,
    }
}

// The bytes from `at` on, of fewer than eight.
fn few_at(s: &[u8], at: usize) -> u64
    requires { (at ≤ length s.now) × (length s.now ≤ 7) }
    ensures { result ≡ number (drop at s.now) }
{
    let mut word = 0;
    for b in s[at..].iter().rev() {
        word = u64::from(*b) + 256 * word;
    }
    word
}

// The word of the bytes from `at` on: of eight, or of as many as there are, with 0 for those that
// are not there. Near the text's end the last eight are read, and those in front of `at` are
// shifted out.
pub fn word_at(s: &[u8], at: usize) -> u64
    ensures { result ≡ number (take 8 (drop at s.now)) }
{
    if s.len() <= at {
        return 0;
    }
    if 8 <= s.len() - at {
        return eight_at(s, at);
    }
    if s.len() < 8 {
        return few_at(s, at);
    }
    let base = s.len() - 8;
    eight_at(s, base) >> (8 * (at - base) as u64)
}
