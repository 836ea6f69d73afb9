// The lent tables of an accepted task: its numbers in their first places, and 0 in every place beyond.
ghost use Rattle.std.specs.Prelude.{◌≡◌, ◌≤◌, length, get_or, take};
ghost use Rattle.grammar.specs.Fields.{filled};
ghost use Rattle.tables.specs.Layout.{shares_room};
ghost use Rattle.text.specs.Inside.Area.{threes, shares_byte};

use crate::area::word_at;

// Bytes are copied as they are, and words made of three bytes each: so two functions.
#[tactic(auto, unfolding(grammar::specs::Fields::filled))]
pub fn fill_bytes(w: &[u8], n: usize, out: &mut [u8])
    requires { (n ≤ length w.now) × (n ≤ length out.old) }
    ensures { out.new ≡ filled n (take n w.now) out.old }
{
    let (first, beyond) = out.split_at_mut(n);
    first.copy_from_slice(&w[..n]);
    beyond.fill(0);
}

pub fn nth_word(w: &[u8], n: usize, at: usize, i: usize) -> u32
    requires { (n ≤ shares_room) × (at ≤ shares_byte) }
    ensures { result ≡ get_or (threes n at w.now) i 0 }
{
    if i < n { word_at(w, at + 3 * i) } else { 0 }
}

pub fn fill_words(w: &[u8], n: usize, at: usize, out: &mut [u32])
    requires { (n ≤ shares_room) × (at ≤ shares_byte) × (n ≤ length out.old) }
    ensures { out.new ≡ filled n (threes n at w.now) out.old }
{
    for (i, x) in out.iter_mut().enumerate() {
        *x = nth_word(w, n, at, i);
    }
}
