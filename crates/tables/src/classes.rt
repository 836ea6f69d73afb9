// A variable's classes, kept as a mask: its width by leading zeros equals its count of ones exactly when no class is missing.
ghost use Rattle.std.specs.Prelude.{◌≡◌, ℕ, ◌-◌, ◌<◌, ◌≤◌};
ghost use Rattle.std.specs.Int.Count.{count_leading_zeros};
ghost use Rattle.meaning.specs.Limits.{most_values};
ghost use Rattle.meaning.specs.Split.{count_of};
ghost use Rattle.tables.specs.Layout.{row_at};
ghost use Rattle.tables.specs.Inside.Masks.{mask_found, classes_of};
ghost use Rattle.tables.specs.Task.{was};

use crate::readers::row_at;

// Why the classes of a variable's values are not 0 to k - 1: one of these is missing, or a class is not below the number of values.
#[derive(Clone, Copy, Debug, PartialEq, Eq)]
pub enum ClassFault {
    Missing,
    Outside,
}

// What a row says at a value, as a word.
pub fn word_of(facts: &[u8], row: u32, x: u32) -> u32
    ensures { result ≡ row_at (was facts) row x }
{
    u32::from(row_at(facts, row, x))
}

// The mask of the classes of a variable with so many values, each class below that number.
fn mask_of(facts: &[u8], dom: u32, row: u32) -> Option<u32>
    requires { dom ≤ most_values }
    ensures { result ≡ mask_found (row_at (was facts) row) dom }
{
    let mut mask = 0u32;
    for x in 0..dom {
        let k = word_of(facts, row, x);
        if dom <= k {
            return None;
        }
        mask |= 1 << k;
    }
    Some(mask)
}

// The width of a mask: one more than its largest class.
fn width(mask: u32) -> u32
    ensures { result ≡ 32 - count_leading_zeros 32 mask }
{
    32 - mask.leading_zeros()
}

// How many classes a variable with so many values has, where none is missing and none is outside.
pub fn classes_of(facts: &[u8], dom: u32, row: u32) -> Result<u32, ClassFault>
    requires { dom ≤ most_values }
    ensures { result ≡ classes_of (row_at (was facts) row) dom }
{
    let Some(mask) = mask_of(facts, dom, row) else {
        return Err(ClassFault::Outside);
    };
    let k = width(mask);
    if k == mask.count_ones() {
        Ok(k)
    } else {
        Err(ClassFault::Missing)
    }
}

// How many classes a variable has whose classes are all below its number of values.
pub fn count_of(facts: &[u8], dom: u32, row: u32) -> u32
    requires { (dom ≤ most_values) × ((x : ℕ) → x < dom → row_at facts.now row x < dom) }
    ensures { result ≡ count_of (row_at (was facts) row) dom }
{
    width(mask_of(facts, dom, row).unwrap())
}
