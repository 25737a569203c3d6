// A port's buffer (document 01, "Sizes"): counters over the port's own stretch of the lent token
// memory, which is a ring. The same counters serve queues of any other capacity.
#![tactic(auto)]

pub mod words;

ghost use Rattle.std.specs.Prelude.{◌≡◌, ◌+◌, ◌%◌, ◌^◌, ◌≤◌, ◌<◌, length, get_or};
ghost use Rattle.ports.specs.Queue.{capacity, Fair};
ghost use Rattle.ports.specs.Memory.{place, stretch, put_memory};
ghost use Rattle.ports.specs.Ring.{empty_counters, put_counters, put_words, take_counters, take_words, first_word, take_memory, first_of, Serves};
ghost use Rattle.ports.specs.Ring as Ring;

use names::Slot;
use names::size::PORTS;
use words::Words;

// A queue's counters: where in the ring the oldest token lies, and how many are held behind it.
#[derive(Clone, Copy)]
pub struct Counters {
    pub head: u32,
    pub held: u32,
}

// What taking gives: the counters after it, and the token.
#[derive(Clone, Copy)]
pub struct Taken {
    pub counters: Counters,
    pub token: u16,
}

// On the stretch of a queue that is a ring of N words
impl Counters {
    pub const CAPACITY: u32 = 64;

    // Those of an empty queue.
    pub fn new() -> Self
        ensures { result ≡ empty_counters }
    {
        Self { head: 0, held: 0 }
    }

    // Where in the ring the i-th lies, the oldest at 0.
    fn at<const N: u32>(self, i: u32) -> usize
        requires { (self.head < N) × (i ≤ N) × Serves N }
        ensures { result ≡ (self.head + i) % N }
    {
        ((self.head + i) % N) as usize
    }

    // The i-th from the head on, the oldest at 0.
    pub fn word<const N: u32>(self, stretch: &[u16], i: u32) -> u16
        requires { (self.head < N) × (i < N) × (length stretch.now ≡ N) × Serves N }
        ensures { result ≡ get_or stretch.now ((self.head + i) % N) 0 }
    {
        let at = self.at::<N>(i);
        stretch[at]
    }

    // Puts a token behind those held. Every caller has the counters from a sound state, and room
    // from a test of its own: Full, credit, or an empty port.
    pub fn put<const N: u32>(self, stretch: &mut [u16], token: u16) -> Self
        requires { Ring.Fair N self × (self.held < N) × (length stretch.old ≡ N) × Serves N }
        ensures { (result ≡ put_counters self) × (stretch.new ≡ put_words N self stretch.old token) }
    {
        let at = self.at::<N>(self.held);
        stretch[at] = token;
        Self {
            head: self.head,
            held: self.held + 1,
        }
    }

    // Takes the oldest token and clears the word that it leaves. Every caller has the counters from
    // a sound state, and looks first whether a token is held.
    pub fn take<const N: u32>(self, stretch: &mut [u16]) -> Taken
        requires { Ring.Fair N self × (0 < self.held) × (length stretch.old ≡ N) × Serves N }
        ensures { (result.counters ≡ take_counters N self) × (result.token ≡ first_word self stretch.old) × (stretch.new ≡ take_words self stretch.old) }
    {
        let at = self.head as usize;
        let token = stretch[at];
        stretch[at] = 0;
        let counters = Self {
            head: (self.head + 1) % N,
            held: self.held - 1,
        };
        Taken { counters, token }
    }
}

// A whole memory of queues: MANY for each node, each on its own stretch, a ring of N words. Callers
// have a memory that reaches past the stretch.
pub struct Queues<const MANY: usize, const N: u32>;

impl<const MANY: usize, const N: u32> Queues<MANY, N> {
    // Where the stretch of a node's queue begins.
    fn place(slot: Slot, queue: usize) -> usize
        requires { (Ring.place MANY N slot.0 queue < 2 ^ 64) × Serves N }
        ensures { result ≡ Ring.place MANY N slot.0 queue }
    {
        (slot.0 * MANY + queue) * N as usize
    }

    // A queue's own stretch, to look at.
    pub fn stretch(memory: &[u16], slot: Slot, queue: usize) -> &[u16]
        requires { (Ring.place MANY N slot.0 queue + N ≤ length memory.now) × Serves N }
        ensures { result.now ≡ Ring.stretch N memory.now (Ring.place MANY N slot.0 queue) }
    {
        let a = Self::place(slot, queue);
        let e = a + N as usize;
        &memory[a..e]
    }

    // The i-th from the head on, the oldest at 0.
    #[tactic(auto, using(laws::proofs::Row::row_at))]
    pub fn word(c: Counters, memory: &[u16], slot: Slot, queue: usize, i: u32) -> u16
        requires { (c.head < N) × (i < N) × (Ring.place MANY N slot.0 queue + N ≤ length memory.now) × Serves N }
        ensures { result ≡ get_or memory.now (Ring.place MANY N slot.0 queue + (c.head + i) % N) 0 }
    {
        c.word::<N>(Self::stretch(memory, slot, queue), i)
    }

    // What a queue holds, word by word.
    #[tactic(auto, using(laws::proofs::Row::row_long))]
    pub fn words<'a>(c: Counters, memory: &'a [u16], slot: Slot, queue: usize) -> Words<'a, N>
        requires { Ring.Fair N c × (Ring.place MANY N slot.0 queue + N ≤ length memory.now) × Serves N }
        ensures { result ≡ Ring.held N c memory.now (Ring.place MANY N slot.0 queue) }
    {
        Words::new(c, Self::stretch(memory, slot, queue))
    }

    // Puts a token behind those held.
    #[tactic(auto, using(laws::proofs::Row::part_set))]
    pub fn put(c: Counters, memory: &mut [u16], slot: Slot, queue: usize, token: u16) -> Counters
        requires { Ring.Fair N c × (c.held < N) × (Ring.place MANY N slot.0 queue + N ≤ length memory.old) × Serves N }
        ensures { (result ≡ put_counters c) × (memory.new ≡ Ring.put_memory N c memory.old (Ring.place MANY N slot.0 queue) token) }
    {
        let a = Self::place(slot, queue);
        let e = a + N as usize;
        c.put::<N>(&mut memory[a..e], token)
    }

    // Takes the oldest token, and clears the word that it leaves.
    #[tactic(auto, using(laws::proofs::Row::part_set, laws::proofs::Row::row_at))]
    pub fn take(c: Counters, memory: &mut [u16], slot: Slot, queue: usize) -> Taken
        requires { Ring.Fair N c × (0 < c.held) × (Ring.place MANY N slot.0 queue + N ≤ length memory.old) × Serves N }
        ensures { (result.counters ≡ take_counters N c) × (result.token ≡ first_of c memory.old (Ring.place MANY N slot.0 queue))
            × (memory.new ≡ take_memory c memory.old (Ring.place MANY N slot.0 queue)) }
    {
        let a = Self::place(slot, queue);
        let e = a + N as usize;
        c.take::<N>(&mut memory[a..e])
    }
}

// The token memory: the ports of each node.
pub type Ports = Queues<PORTS, { Counters::CAPACITY }>;

// What a port holds.
pub type PortWords<'a> = Words<'a, { Counters::CAPACITY }>;

// A port's own stretch of the whole memory, to look at.
pub fn stretch(memory: &[u16], slot: Slot, port: usize) -> &[u16]
    requires { place slot.0 port + capacity ≤ length memory.now }
    ensures { result.now ≡ stretch memory.now (place slot.0 port) }
{
    Ports::stretch(memory, slot, port)
}

// Puts a token into a port, on that port's own stretch of the whole memory. The memory has such a
// stretch for each port of each slot that is there.
pub fn put_at(p: Counters, memory: &mut [u16], slot: Slot, port: usize, token: u16) -> Counters
    requires { Fair p × (p.held < capacity) × (place slot.0 port + capacity ≤ length memory.old) }
    ensures { (result ≡ put_counters p) × (memory.new ≡ put_memory p memory.old (place slot.0 port) token) }
{
    Ports::put(p, memory, slot, port, token)
}

// Takes the oldest token of a port, on that port's own stretch of the whole memory.
pub fn take_at(p: Counters, memory: &mut [u16], slot: Slot, port: usize) -> Taken
    requires { Fair p × (0 < p.held) × (place slot.0 port + capacity ≤ length memory.old) }
    ensures { (result.counters ≡ take_counters capacity p) × (result.token ≡ first_of p memory.old (place slot.0 port)) × (memory.new ≡ take_memory p memory.old (place slot.0 port)) }
{
    Ports::take(p, memory, slot, port)
}
