// Whether two paths are equivalent, by their normal forms.
#![tactic(auto)]

ghost use Rattle.std.specs.Prelude.{◌≡◌, ◌≤◌, length, take};
ghost use Rattle.aspath_normal.specs.Normal.{dedup_coalesce};
ghost use Rattle.aspath_normal.specs.Lent.{path_lent, LeftAs};
ghost use Rattle.aspath_equivalence.specs.Routing.{both, equivalence};

use aspath::Spoilt;
use aspath_normal::{Counts, LentPath};

// Whether two paths are equivalent, and what there is of both records then.
#[derive(Debug, Clone, Copy, PartialEq, Eq)]
pub struct Equivalence {
    pub equivalent: bool,
    pub first: Counts,
    pub second: Counts,
}

// A path's normal form, as it stands in three lists.
#[derive(Clone, Copy, PartialEq)]
struct NormalForm<'a> {
    kinds: &'a [u8],
    lengths: &'a [u32],
    numbers: &'a [u32],
}

impl<'a> NormalForm<'a> {
    fn new(lent: &'a LentPath<'_>, counts: Counts) -> NormalForm<'a>
        requires { (counts.segments ≤ length lent.now.kinds.now) × (counts.segments ≤ length lent.now.lengths.now) × (counts.numbers ≤ length lent.now.numbers.now) }
        ensures { (result.kinds.now ≡ take counts.segments lent.now.kinds.now) × (result.lengths.now ≡ take counts.segments lent.now.lengths.now) × (result.numbers.now ≡ take counts.numbers lent.now.numbers.now) }
    {
        NormalForm {
            kinds: &lent.kinds[..counts.segments],
            lengths: &lent.lengths[..counts.segments],
            numbers: &lent.numbers[..counts.numbers],
        }
    }
}

// AsPath::has_equivalent_routing, which leaves both paths in their normal form. The second is
// tested before the first is changed; the answer does not tell which of two was spoilt.
#[tactic(auto, using(crate::proofs::Routing::refusals))]
pub fn has_equivalent_routing(
    lent: &mut LentPath,
    lent2: &mut LentPath,
) -> Result<Equivalence, Spoilt>
    ensures value { result ≡ equivalence (path_lent lent.old) (path_lent lent2.old) }
    ensures lists { LeftAs dedup_coalesce (both (path_lent lent.old) (path_lent lent2.old)) lent.old lent.new }
    ensures lists2 { LeftAs dedup_coalesce (both (path_lent lent2.old) (path_lent lent.old)) lent2.old lent2.new }
{
    lent2.record().check()?;
    let first = aspath_normal::dedup_coalesce(lent)?;
    let second = aspath_normal::dedup_coalesce(lent2)?;
    let form = NormalForm::new(lent, first);
    let form2 = NormalForm::new(lent2, second);
    Ok(Equivalence {
        equivalent: form == form2,
        first,
        second,
    })
}
