// Text written into lent lists, for every crate that prints.
#![tactic(auto)]

ghost use Rattle.std.specs.Prelude.{◌≡◌, ◌+◌, ◌<◌, ◌≤◌, [], ◌∷◌, length, take, drop};
ghost use Rattle.std.proofs.Math.Seq.{paste};
ghost use Rattle.output.specs.Output.{answer, front};
ghost use Rattle.output.specs.Writing.{Writes};

// Why a call refuses that prints into a lent list (01, Where a call says no): 9.
#[derive(Debug, Clone, Copy, PartialEq, Eq)]
pub enum PutError {
    TooShort,
}

// The N bytes from `at` on, in the place of those of out. By way of an array, which surely lies
// apart from both, they are one load and one store.
fn copy_step<const N: usize>(text: &[u8], out: &mut [u8], at: usize)
    requires { (at + N ≤ length text.now) × (length out.old ≡ length text.now) }
    ensures { out.new ≡ paste out.old at (drop at text.now) N }
{
    if let Some(step) = text[at..].first_chunk::<N>() {
        let step = *step;
        out[at..at + N].copy_from_slice(&step);
    }
}

// The text, N bytes at once. Of the last N some may stand there already: they are written again,
// so that no step is shorter.
fn copy_many<const N: usize>(text: &[u8], out: &mut [u8])
    requires { (0 < N) × (N ≤ length text.now) × (length out.old ≡ length text.now) }
    ensures { out.new ≡ text.now }
{
    let last = text.len() - N;
    // Stays by places: both lists are cut at the same ones, and the last step overlaps.
    for i in (0..last).step_by(N) {
        copy_step::<N>(text, out, i);
    }
    copy_step::<N>(text, out, last);
}

// The text, its first N bytes and its last N at once: some may be written twice.
fn copy_ends<const N: usize>(text: &[u8], out: &mut [u8])
    requires { (N ≤ length text.now) × (length text.now ≤ N + N) × (length out.old ≡ length text.now) }
    ensures { out.new ≡ text.now }
{
    let behind = text.len() - N;
    copy_step::<N>(text, out, 0);
    copy_step::<N>(text, out, behind);
}

// The text in the place of as many bytes.
fn copy(text: &[u8], out: &mut [u8])
    requires { length out.old ≡ length text.now }
    ensures { out.new ≡ text.now }
{
    match text.len() {
        8.. => copy_many::<8>(text, out),
        4.. => copy_ends::<4>(text, out),
        2.. => copy_ends::<2>(text, out),
        _ => out.copy_from_slice(text),
    }
}

// The first bytes of a text, as many as the list has places. It takes no writer, so that one whose
// texts have room can stay in registers.
#[cold]
fn copy_first(text: &[u8], out: &mut [u8]) -> usize
    requires { length out.old ≤ length text.now }
    ensures { (out.new ≡ take (length out.old) text.now) × (result ≡ length out.old) }
{
    let n = out.len();
    copy(&text[..n], out);
    n
}

// All of the text at the list's front, or a refusal where the list is too short.
// Stays without a closure that writes the text: a public function asks nothing of its callers, and
// one that takes a closure asks that it may be called.
#[tactic(auto, unfolding(crate::specs::Output::answer, crate::specs::Output::front))]
pub fn put(text: &[u8], out: &mut [u8]) -> Result<usize, PutError>
    ensures { (result ≡ answer text.now out.old) × (out.new ≡ front text.now out.old) }
{
    let n = text.len();
    if out.len() < n {
        return Err(PutError::TooShort);
    }
    copy(text, &mut out[..n]);
    Ok(n)
}

// A lent list with the place in it up to which text stands. A text is written as far as there is
// room, so texts one after another need no measuring.
#[derive(Drop)]
pub struct Writer<'a> {
    pub out: &'a mut [u8],
    pub at: usize,
}

impl<'a> Writer<'a> {
    // A writer of the whole list, from its front on.
    #[inline(always)]
    pub fn new(out: &'a mut [u8]) -> Writer<'a>
        ensures { (result.at ≡ 0) × (result.out.ghost_name ≡ out.entry.ghost_name) × (result.out.now ≡ out.old) }
    {
        Writer { out, at: 0 }
    }

    // What stands in the list up to the place: all of it where the place is past its end.
    #[inline(always)]
    pub fn text(&self) -> &[u8]
        ensures { result.now ≡ take self.now.at self.now.out.now }
    {
        &self.out[..self.at.min(self.out.len())]
    }

    // Most texts have room; one whose length is known is then a few stores.
    #[inline(always)]
    pub fn bytes(&mut self, text: &[u8])
        ensures { Writes text.now self.old self.new }
    {
        let at = self.at;
        if self.out.len() <= at {
            return;
        }
        let n = text.len();
        if n <= self.out.len() - at {
            copy(text, &mut self.out[at..at + n]);
            self.at = at + n;
        } else {
            self.at = at + copy_first(text, &mut self.out[at..]);
        }
    }

    #[inline(always)]
    pub fn byte(&mut self, b: u8)
        ensures { Writes (b ∷ []) self.old self.new }
    {
        let at = self.at;
        if at < self.out.len() {
            self.out[at] = b;
            self.at = at + 1;
        }
    }
}
