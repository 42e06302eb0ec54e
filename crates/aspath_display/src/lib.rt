// A path printed as the Rust prints it.
#![tactic(auto)]

ghost use Rattle.std.specs.Prelude.{ℕ, List, ◌≡◌, true, [], ◌∷◌, ◌++◌, ◌≤◌, length};
ghost use Rattle.std.specs.Iterator.{IsFinite, Drains};
ghost use Rattle.decimal_display.specs.Printed.{decimal};
ghost use Rattle.output.specs.Writing.{Writes};
ghost use Rattle.aspath.specs.Segments.{kind_number, segments_in, path_of};
ghost use Rattle.aspath_display.specs.Display.{separated, WritesEach, segment_text, path_text, Measured, Displayed};

use aspath::{AsPath, PathRecord, Segment, SegmentKind, Spoilt};
use output::Writer;

#[derive(Debug, Clone, Copy, PartialEq, Eq)]
pub enum DisplayError {
    TooShort,
    Spoilt,
}

impl From<Spoilt> for DisplayError {
    ghost use Rattle.aspath_display.specs.declared.DisplayError.TheVariants.{Spoilt};

    ghost from_gives = { λ _ e. e ≡ Spoilt };

    fn from(_spoilt: Spoilt) -> DisplayError {
        DisplayError::Spoilt
    }
}

// Each number with a separator after it, less the last one's.
// Stays two, measure and write, as the pairs below: one walk over a trait that a writer and a count
// of bytes implement was written out, and took 23 lines more than the pairs, shorter now, did then.
fn numbers_len(numbers: &[u32]) -> usize
    requires { length numbers.now ≤ 16384 }
    ensures { (sep : ℕ) → Measured (separated sep decimal true numbers.now) 344064 result }
{
    numbers
        .iter()
        .map(|number| 1 + decimal_display::decimal_len(u64::from(*number)))
        .sum::<usize>()
        .saturating_sub(1)
}

// Each item as `write` writes it, with the separator between each two. It calls `write` at one
// place: where it did at two, for the first item and for the others, LLVM inlined neither, and
// table2psv took 1.4 % more time.
// Stays private, and ip_display's write_groups apart from it: a public function that takes a
// closure has to require that it may be called, which none of this project does.
fn write_each<I: Iterator, F: Fn(I::Item, &mut Writer)>(items: I, sep: u8, write: F, w: &mut Writer)
    requires { I.can_next items × IsFinite (I.remaining items) × F.IsAlwaysCallable write }
    ensures { (text : I.Item → List ℕ) → WritesEach (F.post write) text → (xs : List I.Item) × Drains I.next_gives items xs × Writes (separated sep text true xs) w.old w.new }
{
    let mut first = true;
    for item in items {
        if !first {
            w.byte(sep);
        }
        first = false;
        write(item, w);
    }
}

pub fn write_numbers(numbers: &[u32], sep: u8, w: &mut Writer)
    ensures { Writes (separated sep decimal true numbers.now) w.old w.new }
{
    write_each(numbers.iter().copied(), sep, decimal_display::write_u32, w);
}

fn segment_len(segment: Segment) -> usize
    ensures { Measured (segment_text (kind_number segment.entry.kind) segment.entry.numbers.now) 344066 result }
{
    match segment.kind {
        SegmentKind::AsSet | SegmentKind::ConfedSet => 2 + numbers_len(segment.numbers),
        SegmentKind::AsSequence | SegmentKind::ConfedSequence => numbers_len(segment.numbers),
    }
}

fn write_set(part: &[u32], w: &mut Writer)
    ensures { Writes ((123 ∷ []) ++ separated 44 decimal true part.now ++ (125 ∷ [])) w.old w.new }
{
    w.byte(b'{');
    write_numbers(part, b',', w);
    w.byte(b'}');
}

fn write_segment(segment: Segment, w: &mut Writer)
    ensures { Writes (segment_text (kind_number segment.entry.kind) segment.entry.numbers.now) w.old w.new }
{
    match segment.kind {
        SegmentKind::AsSet | SegmentKind::ConfedSet => write_set(segment.numbers, w),
        SegmentKind::AsSequence | SegmentKind::ConfedSequence => {
            write_numbers(segment.numbers, b' ', w)
        }
    }
}

fn path_len(path: AsPath) -> usize
    ensures { result ≡ length (path_text true (segments_in path.entry)) }
{
    path.segments()
        .map(|segment| 1 + segment_len(segment))
        .sum::<usize>()
        .saturating_sub(1)
}

fn write_path(path: AsPath, w: &mut Writer)
    ensures { Writes (path_text true (segments_in path.entry)) w.old w.new }
{
    write_each(path.segments(), b' ', write_segment, w);
}

pub fn display(lent: PathRecord, out: &mut [u8]) -> Result<usize, DisplayError>
    ensures { Displayed (path_of lent.entry) out.old result out.new }
{
    let path = lent.check()?;
    if out.len() < path_len(path) {
        return Err(DisplayError::TooShort);
    }
    let mut w = Writer::new(out);
    write_path(path, &mut w);
    Ok(w.at)
}
