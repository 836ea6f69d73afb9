// A text so far in lent words: taken out of them, and written back into them.
#![tactic(auto)]

ghost use Rattle.std.specs.Prelude.{◌≡◌, ◌≤◌, length};
ghost use Rattle.lent_texts.specs.Lent.{text_words, text_short, halt_word, halt_of, ended_word, so_far_in, words_with, words_ended};

use pieces::SoFar;
use tables::Counts;
use text::{Ctrl, Digits, Halt, Seen, Spot, Turn};

// The words that a text so far takes.
pub const TEXT_WORDS: usize = 20;

// The lent words are too few.
#[tactic(auto, unfolding(crate::specs::Lent::text_short))]
pub fn text_short(words: &[u32]) -> bool
    ensures { result ≡ text_short words.now }
{
    words.len() < TEXT_WORDS
}

// Why a reading stopped, as a word. This and the way back are functions and no conversions of the type: the words are this crate's, and the type is the reader's.
fn halt_word(k: Halt) -> u32
    ensures { result ≡ halt_word k }
{
    match k {
        Halt::Going => 0,
        Halt::Form => 1,
        Halt::Range => 2,
        Halt::Order => 3,
        Halt::Missing => 4,
        Halt::States => 5,
        Halt::Idle => 6,
    }
}

// The same of a word; one that tells nothing is as off the form.
#[tactic(auto, unfolding(crate::specs::Lent::halt_of))]
fn halt_of(n: u32) -> Halt
    ensures { result ≡ halt_of n }
{
    match n {
        0 => Halt::Going,
        2 => Halt::Range,
        3 => Halt::Order,
        4 => Halt::Missing,
        5 => Halt::States,
        6 => Halt::Idle,
        _ => Halt::Form,
    }
}

// The text so far that stands in lent words.
#[tactic(auto, unfolding(crate::specs::Lent::so_far_in))]
pub fn text_in(words: &[u32]) -> SoFar
    requires { text_words ≤ length words.now }
    ensures { result ≡ so_far_in words.now }
{
    SoFar {
        at: Ctrl {
            line: words[3],
            spot: Spot {
                part: words[4],
                field: words[5],
                key: words[6],
                row: words[7],
            },
            digits: Digits {
                run: words[8],
                val: words[9],
            },
            turn: Turn {
                var: words[10],
                least: words[11],
                item: words[12],
            },
            seen: Seen {
                mask: words[13],
                prod: words[14],
            },
            counts: Counts {
                vars: words[15],
                ops: words[16],
                maps: words[17],
                edition: words[18],
                quota: words[19],
            },
            halt: halt_of(words[2]),
        },
        bytes: words[1],
        ended: words[0] != 0,
    }
}

// Whether a text has ended, as a word.
fn ended_word(ended: bool) -> u32
    ensures { result ≡ ended_word ended }
{
    ended as u32
}

// Writes a text so far into lent words, one place after the other; those beyond stay.
#[tactic(auto, unfolding(crate::specs::Lent::words_with, crate::specs::Lent::words_of))]
pub fn put_text(s: SoFar, words: &mut [u32])
    requires { text_words ≤ length words.old }
    ensures { words.new ≡ words_with s words.old }
{
    let c = s.at;
    words[..TEXT_WORDS].copy_from_slice(&[
        ended_word(s.ended),
        s.bytes,
        halt_word(c.halt),
        c.line,
        c.spot.part,
        c.spot.field,
        c.spot.key,
        c.spot.row,
        c.digits.run,
        c.digits.val,
        c.turn.var,
        c.turn.least,
        c.turn.item,
        c.seen.mask,
        c.seen.prod,
        c.counts.vars,
        c.counts.ops,
        c.counts.maps,
        c.counts.edition,
        c.counts.quota,
    ]);
}

// Ends the text so far in lent words: no other word moves.
#[tactic(auto, unfolding(crate::specs::Lent::words_ended))]
pub fn put_ended(words: &mut [u32])
    requires { text_words ≤ length words.old }
    ensures { words.new ≡ words_ended words.old }
{
    words[0] = 1;
}
