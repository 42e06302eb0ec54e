// Path records out of a line of cases, for the test programs of the path crates.
#![tactic(auto)]

fn byte_numbers(s: &[u8], out: &mut [u32]) -> usize {
    for (place, b) in out.iter_mut().zip(s) {
        *place = u32::from(*b);
    }
    s.len().min(out.len())
}

fn word_numbers(s: &[u8], out: &mut [u32]) -> usize {
    let (words, _) = s.as_chunks::<4>();
    for (place, word) in out.iter_mut().zip(words) {
        *place = u32::from_be_bytes(*word);
    }
    words.len().min(out.len())
}

fn digits(s: &[u8], out: &mut [u8]) -> usize {
    for (place, b) in out.iter_mut().zip(s) {
        *place = b.saturating_sub(b'0');
    }
    s.len().min(out.len())
}

// How many of each a record has.
#[derive(Clone, Copy, Default)]
pub struct Loaded {
    pub kinds: usize,
    pub lengths: usize,
    pub numbers: usize,
}

// The places that a record is read into; the first of them are the record's.
// Stays three arrays with their counts: no heap is used, so no Vec.
#[derive(Drop)]
pub struct Lists {
    pub kinds: [u8; 64],
    pub lengths: [u32; 64],
    pub numbers: [u32; 256],
    pub loaded: Loaded,
}

impl Lists {
    ghost use Rattle.std.specs.Prelude.{◌≡◌, take};

    // The record's kinds, lengths and numbers.
    pub fn parts(&self) -> (&[u8], &[u32], &[u32])
        ensures kinds { result.0.now ≡ take self.now.loaded.kinds self.now.kinds }
        ensures lengths { result.1.now ≡ take self.now.loaded.lengths self.now.lengths }
        ensures numbers { result.2.now ≡ take self.now.loaded.numbers self.now.numbers }
    {
        (
            cases::first(&self.kinds, self.loaded.kinds),
            cases::first(&self.lengths, self.loaded.lengths),
            cases::first(&self.numbers, self.loaded.numbers),
        )
    }

    // The same, to be changed.
    pub fn parts_mut(&mut self) -> (&mut [u8], &mut [u32], &mut [u32])
        ensures kinds { result.0.now ≡ take self.old.loaded.kinds self.old.kinds }
        ensures lengths { result.1.now ≡ take self.old.loaded.lengths self.old.lengths }
        ensures numbers { result.2.now ≡ take self.old.loaded.numbers self.old.numbers }
    {
        let Lists {
            kinds,
            lengths,
            numbers,
            loaded,
        } = self;
        (
            cases::first_mut(kinds, loaded.kinds),
            cases::first_mut(lengths, loaded.lengths),
            cases::first_mut(numbers, loaded.numbers),
        )
    }
}

// The record of three fields: `bytes` reads a field, and `numbers` the third one's bytes.
fn load_fields<B: Fn(&[u8], &mut [u8]) -> usize, N: Fn(&[u8], &mut [u32]) -> usize>(
    fields: [&[u8]; 3],
    bytes: B,
    numbers: N,
) -> Lists
    requires { B.IsAlwaysCallable bytes × N.IsAlwaysCallable numbers }
{
    let mut lists = Lists {
        kinds: [0; 64],
        lengths: [0; 64],
        numbers: [0; 256],
        loaded: Loaded::default(),
    };
    // As many bytes as the numbers of a field take, and no more, since they are cleared for each.
    let mut s = [0; 1024];
    lists.loaded.kinds = bytes(fields[0], &mut lists.kinds);
    let n = bytes(fields[1], &mut s);
    lists.loaded.lengths = byte_numbers(cases::first(&s, n), &mut lists.lengths);
    let n = bytes(fields[2], &mut s);
    lists.loaded.numbers = numbers(cases::first(&s, n), &mut lists.numbers);
    lists
}

// The record whose kinds are the field `first`.
pub fn load(line: &[u8], first: usize) -> Lists {
    let [second, third] = if first == 1 { [2, 3] } else { [7, 8] };
    let fields = [first, second, third].map(|n| cases::field(line, n));
    load_fields(fields, |s, out| cases::hex(s, out).len(), word_numbers)
}

// The record of an `all`, with one digit for each kind, length and number.
pub fn load_digits(line: &[u8]) -> Lists {
    let fields = [1, 2, 3].map(|n| cases::field(line, n));
    load_fields(fields, digits, byte_numbers)
}
