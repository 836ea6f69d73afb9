// A tree of least keys: 16 nodes, 256 below them, and a leaf for each of 4,096 states.
ghost use Rattle.std.specs.Prelude.{◌≡◌, ◌+◌, ◌*◌, ◌≤◌, ◌<◌, min, length, get_or, set, replicate, MatchOption};
ghost use Rattle.waiting.specs.Trees.{NOKEY, lowest, leaf, Tree, Leafed};

// The key of a leaf that isn't waiting. A number, so that the least of 16 keys is a minimum whether or not their states wait (`lowest`).
pub const NO_KEY: u64 = 72057594037927936;

// The room for the tree.
pub const TREE_ROOM: usize = 4368;

// The states that wait, in one array: the 16 children of the node at place i stand from place 16 + 16 × i on, and the leaves from place 272 on.
#[derive(Drop)]
pub struct Waiting {
    pub keys: [u64; TREE_ROOM],
    ghost room: { length keys ≡ 4368 },
    ghost tree: { Tree keys },
}

// The least of the 16 keys from place `at` on.
pub fn low(keys: &[u64], at: usize) -> u64
    requires { at + 16 ≤ length keys.now }
    ensures { result ≡ lowest keys.now at 16 }
{
    let mut least = NO_KEY;
    for key in &keys[at..at + 16] {
        least = least.min(*key);
    }
    least
}

// Sets a node to the least of its children.
fn mend(keys: &mut [u64], node: usize)
    requires { (length keys.old ≡ 4368) × (node < 272) }
    ensures keys_after { keys.new ≡ set keys.old node (lowest keys.old (16 + 16 * node) 16) }
    ensures keys_len_unchanged { length keys.new ≡ length keys.old }
{
    let least = low(keys, 16 + 16 * node);
    keys[node] = least;
}

// Lowers a node to a key.
fn sink(keys: &mut [u64], node: usize, key: u64)
    requires { node < length keys.old }
    ensures keys_after { keys.new ≡ set keys.old node (min (get_or keys.old node 0) key) }
    ensures keys_len_unchanged { length keys.new ≡ length keys.old }
{
    keys[node] = keys[node].min(key);
}

// A state waits no more.
pub fn take(keys: &mut [u64], a: usize)
    requires { (length keys.old ≡ 4368) × (a < 4096) × Tree keys.old }
    ensures { Leafed a NOKEY keys.old keys.new }
{
    keys[272 + a] = NO_KEY;
    mend(keys, 16 + a / 16);
    mend(keys, a / 256);
}

// A state waits with a key that is at most the one it had.
pub fn put(keys: &mut [u64], a: usize, key: u64)
    requires { (length keys.old ≡ 4368) × (a < 4096) × Tree keys.old × (key ≤ leaf keys.old a) }
    ensures { Leafed a key keys.old keys.new }
{
    keys[272 + a] = key;
    sink(keys, 16 + a / 16, key);
    sink(keys, a / 256, key);
}

impl Waiting {
    // No state waits.
    pub fn none() -> Waiting
        ensures { result.keys ≡ replicate 4368 NOKEY }
    {
        Waiting {
            keys: [NO_KEY; TREE_ROOM],
        }
    }

    // The least key, where a state waits.
    pub fn least(&self) -> Option<u64>
        ensures { MatchOption result (NOKEY ≤ lowest self.now.keys 0 16) (λ key. (key ≡ lowest self.now.keys 0 16) × (key < NOKEY)) }
    {
        let key = low(&self.keys, 0);
        if key < NO_KEY { Some(key) } else { None }
    }

    // A state waits no more.
    pub fn take(&mut self, a: usize)
        requires { a < 4096 }
        ensures { Leafed a NOKEY self.old.keys self.new.keys }
    {
        take(&mut self.keys, a);
    }

    // A state waits with a key that is at most the one it had.
    pub fn put(&mut self, a: usize, key: u64)
        requires { (a < 4096) × (key ≤ leaf self.old.keys a) }
        ensures { Leafed a key self.old.keys self.new.keys }
    {
        put(&mut self.keys, a, key);
    }
}
