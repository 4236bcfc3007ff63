ghost use Rattle.reading.specs.Slots.{buffers};
ghost use Rattle.reading.specs.Sound.{Sound};
ghost use Rattle.reading.specs.Single.{Sound-prop};

use crate::slot::Slot;
use crate::slots::slot_of;
use crate::validity::Validity;
use table::PathNode;

// The nodes from the root to one leaf, over the buffers that they read.
#[derive(Clone, Copy)]
pub struct Branch<'a> {
    pub nodes: &'a [PathNode],
    pub validity: &'a [u8],
    pub offsets32: &'a [i32],
    pub offsets64: &'a [i64],
    pub ghost sound: { Sound (buffers validity.now offsets32.now offsets64.now) nodes.now } by { Sound-prop (buffers validity.now offsets32.now offsets64.now) nodes.now },
}

// Each clause names the node that it is asked about: no plainer by a name for it.
impl Branch<'_> {
    ghost use Rattle.std.specs.Prelude.{◌≡◌, ◌+◌, ◌<◌, ◌≤◌, length};
    ghost use Rattle.reading.specs.Bits.{SameRun};
    ghost use Rattle.reading.specs.Packed.{packed};
    ghost use Rattle.reading.specs.Slots.{valid, slot_at};
    ghost use Rattle.reading.specs.Reading.{node_on};
    ghost use Rattle.reading.specs.Along.{inside, along};

    // The validity of the slots of node k.
    fn validity(&self, k: usize) -> Validity<'_>
        requires { k < length (along self.now) }
        ensures bytes { result.bytes.now ≡ (inside self.now).bytes }
        ensures start { result.start ≡ (node_on (along self.now) k).validity }
        ensures slots { result.slots ≡ (node_on (along self.now) k).slots }
    {
        let n = self.nodes[k];
        Validity {
            bytes: self.validity,
            start: n.validity,
            slots: n.slots,
        }
    }

    // Whether slot i of node k is valid.
    pub fn is_valid(&self, k: usize, i: usize) -> bool
        requires node { k < length (along self.now) }
        requires slot { i < (node_on (along self.now) k).slots }
        ensures { result ≡ valid (inside self.now) (node_on (along self.now) k).validity i }
    {
        self.validity(k).is_valid(i)
    }

    // Which of the slots i..i + count of node k are valid, slot i lowest.
    pub fn valid_bits(&self, k: usize, i: usize, count: usize) -> u64
        requires node { k < length (along self.now) }
        requires few { count ≤ Validity.TOGETHER }
        requires range { i + count ≤ (node_on (along self.now) k).slots }
        ensures { result ≡ packed (valid (inside self.now) (node_on (along self.now) k).validity) count i }
    {
        self.validity(k).bits(i, count)
    }

    // How many slots of node k from `from` on, below `end`, are valid or null as that one is. Inlined, as that of `Validity` is.
    #[inline(always)]
    pub fn same_from(&self, k: usize, from: usize, end: usize) -> usize
        requires node { k < length (along self.now) }
        requires some { from < end }
        requires end { end ≤ (node_on (along self.now) k).slots }
        ensures { SameRun (inside self.now).bytes (node_on (along self.now) k).validity from end result }
    {
        self.validity(k).same_from(from, end)
    }

    // What slot i of node k holds, over the node below it; leaves and structs hold no elements.
    pub fn slot(&self, k: usize, i: usize) -> Slot
        requires child { k + 1 < length (along self.now) }
        requires slot { i < (node_on (along self.now) k).slots }
        ensures { result ≡ slot_at (inside self.now) (node_on (along self.now) k) (node_on (along self.now) (k + 1)).slots i }
    {
        let most = self.nodes[k + 1].slots;
        slot_of(
            self.validity,
            self.offsets32,
            self.offsets64,
            self.nodes[k],
            most,
            i,
        )
    }
}
