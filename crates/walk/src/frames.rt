ghost use Rattle.std.specs.Prelude.{◌≡◌, ◌+◌, ◌-◌, ◌<◌, ◌≤◌, length, slice_set};
ghost use Rattle.reading.specs.Along.{along};
ghost use Rattle.walk.specs.Frames.{innermost, passed, FramesIn};

use crate::visit::{Frame, Look, Stretch, Visit};
use arrayvec::ArrayVec;
use table::Fault;
use tally::SlotRange;

// The innermost frame goes past so many elements.
pub fn pass(frames: &mut ArrayVec<Frame, 8>, count: usize)
    requires some { 0 < length frames.old.items }
    requires fits { (innermost frames.old.items).next + count ≤ usize.MAX }
    ensures { frames.new.items ≡ slice_set frames.old.items (length frames.old.items - 1) (passed (innermost frames.old.items) count) }
{
    if let Some(innermost) = frames.last_mut() {
        innermost.next += count;
    }
}

// A walk over rows, that is slots of the node that it starts at: the row that it is in, a frame for each list there, the innermost last, and
// the rows after this one.
#[derive(Drop)]
pub struct Walk<'a> {
    pub rows: SlotRange<'a>,
    pub frames: ArrayVec<Frame, 8>,
    pub row: usize,
    ghost framed: { FramesIn (along rows.branch.now) frames.items },
    ghost deep: { length frames.items < length (along rows.branch.now) },
}

impl<'a> Walk<'a> {
    ghost use Rattle.std.specs.Prelude.{◌≡◌};
    ghost use Rattle.tally.specs.Answer.{slots_trace};
    ghost use Rattle.walk.specs.Walk.{rest, SlotIn, Ready, Advanced, Descended, Stepped};

    // A walk that stands before some rows.
    pub fn new(rows: SlotRange<'a>) -> Walk<'a>
        ensures { rest result ≡ slots_trace rows.entry }
    {
        Walk {
            rows,
            frames: ArrayVec::new(),
            row: rows.from,
        }
    }

    // Leaves the frames that have no element left.
    fn settle(&mut self)
        ensures same { rest self.new ≡ rest self.old }
        ensures ready { Ready self.new }
    {
        while let Some(innermost) = self.frames.last() {
            if innermost.next < innermost.end {
                return;
            }
            self.frames.pop();
        }
    }

    // The next slot to visit.
    fn advance(&mut self) -> Option<Visit>
        requires { Ready self.old }
        ensures { Advanced self.old self.new result }
    {
        if let Some(&innermost) = self.frames.last() {
            pass(&mut self.frames, 1);
            return Some(Visit {
                node: innermost.node,
                slot: innermost.next,
                rep: self.frames.len(),
                def: innermost.def,
            });
        }
        if self.rows.from == self.rows.to {
            return None;
        }
        self.row = self.rows.from;
        self.rows.from += 1;
        Some(Visit {
            node: self.rows.node,
            slot: self.row,
            rep: 0,
            def: 0,
        })
    }

    // The first stretch of what lies at and below v, whose other lists are left to the frames.
    fn descend(&mut self, mut v: Visit) -> Result<Stretch, Fault>
        requires { SlotIn self.old v }
        ensures { Descended self.old v self.new result }
    {
        // a loop: its arms go on, go on and push, or return
        'down: loop {
            match self.look_at(v)? {
                Look::Ends(entry) => return Ok(entry),
                Look::Passes(below) => v = below,
                Look::Enters(first, others) => {
                    v = first;
                    self.frames.push(others);
                }
            }
        }
    }

    // The next stretch, if there is one.
    pub fn step(&mut self) -> Result<Option<Stretch>, Fault>
        ensures { Stepped self.old self.new result }
    {
        self.settle();
        if let Some(run) = self.run()? {
            return Ok(Some(run));
        }
        let Some(v) = self.advance() else {
            return Ok(None);
        };
        Ok(Some(self.descend(v)?))
    }
}
