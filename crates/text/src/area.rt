// The work area: bytes, and numbers in 3 bytes. Every place may be asked for: past the end stands 0, and nothing is stored there.
ghost use Rattle.std.specs.Prelude.{◌≡◌, ◌+◌, ◌<◌, get_or};
ghost use Rattle.text.specs.Inside.Area.{put_byte, word_in, put_word, dom_in};

use tables::readers::get_or;

// A test and no `get_mut`: after that a proof speaks of the place only by names that Rattle makes, and none was found.
#[tactic(auto, unfolding(crate::specs::Inside::Area::put_byte))]
pub fn put_byte(w: &mut [u8], i: usize, v: u32)
    ensures { w.new ≡ put_byte w.old i v }
{
    if i < w.len() {
        w[i] = (v % 256) as u8;
    }
}

// A number in 3 bytes, the lowest first.
#[tactic(auto, unfolding(crate::specs::Inside::Area::word_in))]
pub fn word_at(w: &[u8], i: usize) -> u32
    requires { i < 1099511627776 }
    ensures { (result ≡ word_in w.now i) × (result < 16777216) }
{
    let a = u32::from(get_or(w, i, 0));
    let b = u32::from(get_or(w, i + 1, 0));
    let c = u32::from(get_or(w, i + 2, 0));
    a + 256 * b + 65536 * c
}

#[tactic(auto, unfolding(crate::specs::Inside::Area::put_word))]
pub fn put_word(w: &mut [u8], i: usize, v: u32)
    requires { i < 1099511627776 }
    ensures { w.new ≡ put_word w.old i v }
{
    put_byte(w, i, v);
    put_byte(w, i + 1, v / 256);
    put_byte(w, i + 2, v / 65536);
}

// How many values a variable has.
pub fn values_of(w: &[u8], v: u32) -> u32
    ensures { result ≡ dom_in w.now v }
{
    u32::from(get_or(w, v as usize, 0))
}
