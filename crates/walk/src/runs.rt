use crate::frames::{Walk, pass};
use crate::visit::{Frame, Stretch, Visit};
use table::{Fault, Kind};

impl Walk<'_> {
    ghost use Rattle.std.specs.Prelude.{◌≡◌, ◌<◌};
    ghost use Rattle.reading.specs.Along.{along};
    ghost use Rattle.walk.specs.Frames.{Open};
    ghost use Rattle.walk.specs.Walk.{Ready, lists, ChainRun, RunOr};

    // The first slots of x that are valid or null alike, where only structs lie above their leaf.
    // Inlined always: out of line, a walk over leaves takes up to a third longer (measured).
    #[inline(always)]
    fn chain_run(&self, x: Frame) -> Result<Option<Stretch>, Fault>
        requires { Open (along self.now.rows.branch.now) x }
        ensures { ChainRun self.now x result }
    {
        let rep = self.frames.len();
        let mut def = x.def;
        let mut end = x.end;
        // by number: `Branch` asks by it
        for node in x.node..self.rows.branch.nodes.len() {
            let n = self.rows.branch.nodes[node];
            match n.kind {
                Kind::Leaf | Kind::Struct => {}
                _ => return Ok(None),
            }
            let valid = self.rows.branch.is_valid(node, x.next);
            let count = self.rows.branch.same_from(node, x.next, end);
            if !valid {
                let slot = x.next;
                let v = Visit {
                    node,
                    slot,
                    rep,
                    def,
                };
                return Ok(Some(self.nulls(v, count)?));
            }
            def += usize::from(n.nullable);
            if n.kind == Kind::Leaf {
                return Ok(Some(Stretch {
                    rep,
                    def,
                    count,
                    first: Some(x.next),
                }));
            }
            end = x.next + count;
        }
        unreachable!()
    }

    // A run of rows.
    fn run_rows(&mut self) -> Result<Option<Stretch>, Fault>
        requires flat { lists self.old ≡ 0 }
        requires some { self.old.rows.from < self.old.rows.to }
        ensures { RunOr self.old self.new result }
    {
        self.row = self.rows.from;
        let rows = Frame {
            node: self.rows.node,
            next: self.rows.from,
            end: self.rows.to,
            def: 0,
        };
        let found = self.chain_run(rows)?;
        if let Some(run) = found {
            self.rows.from += run.count;
        }
        Ok(found)
    }

    // A run of the slots that come next: of the innermost list's elements, or of rows.
    pub fn run(&mut self) -> Result<Option<Stretch>, Fault>
        requires { Ready self.old }
        ensures { RunOr self.old self.new result }
    {
        if let Some(&innermost) = self.frames.last() {
            let found = self.chain_run(innermost)?;
            if let Some(run) = found {
                pass(&mut self.frames, run.count);
            }
            Ok(found)
        } else if self.rows.from < self.rows.to {
            self.run_rows()
        } else {
            Ok(None)
        }
    }
}
