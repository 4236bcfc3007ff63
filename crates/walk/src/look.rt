use crate::frames::Walk;
use crate::visit::{Frame, Look, Stretch, Visit};
use reading::Slot;
use table::{Cause, Fault, Kind};

// Each clause names the node that it is asked about: no plainer by a name for it.
impl Walk<'_> {
    ghost use Rattle.std.specs.Prelude.{◌≡◌, ◌<◌, ◌≢◌, true, false, length, None, IfOk, IfErr};
    ghost use Rattle.reading.specs.Along.{along};
    ghost use Rattle.reading.specs.Reading.{null_fault, node_on};
    ghost use Rattle.walk.specs.Walk.{SlotIn, Looked};

    // What is wrong with a slot of this row.
    fn fault(&self, cause: Cause, v: Visit) -> Fault
        requires { v.node < length (along self.now.rows.branch.now) }
        ensures { result ≡ record { cause = cause; node = (node_on (along self.now.rows.branch.now) v.node).number; slot = v.slot; row = self.now.row } }
    {
        Fault {
            cause,
            node: self.rows.branch.nodes[v.node].number,
            slot: v.slot,
            row: self.row,
        }
    }

    // So many null slots from v's on: an entry each, unless their node is required.
    pub fn nulls(&self, v: Visit, count: usize) -> Result<Stretch, Fault>
        requires { v.node < length (along self.now.rows.branch.now) }
        ensures ok { IfOk result (λ s. ((node_on (along self.now.rows.branch.now) v.node).nullable ≡ true) × (s ≡ record { rep = v.rep; def = v.def; count = count; first = None })) }
        ensures err { IfErr result (λ fault. ((node_on (along self.now.rows.branch.now) v.node).nullable ≡ false) × (fault ≡ null_fault (node_on (along self.now.rows.branch.now) v.node) v.slot self.now.row)) }
    {
        if !self.rows.branch.nodes[v.node].nullable {
            return Err(self.fault(Cause::RequiredNull, v));
        }
        Ok(Stretch {
            rep: v.rep,
            def: v.def,
            count,
            first: None,
        })
    }

    // A slot of a list: what it holds is taken apart into its first element and the others.
    fn look_at_list(&self, v: Visit) -> Result<Look, Fault>
        requires slot { SlotIn self.now v }
        requires leaf { (node_on (along self.now.rows.branch.now) v.node).kind ≢ Kind.Leaf }
        requires group { (node_on (along self.now.rows.branch.now) v.node).kind ≢ Kind.Struct }
        ensures { Looked self.now v result }
    {
        let node = v.node + 1;
        let def = v.def + usize::from(self.rows.branch.nodes[v.node].nullable);
        match self.rows.branch.slot(v.node, v.slot) {
            Slot::Null => Ok(Look::Ends(self.nulls(v, 1)?)),
            Slot::Empty => Ok(Look::Ends(Stretch {
                rep: v.rep,
                def,
                count: 1,
                first: None,
            })),
            Slot::Wrong => Err(self.fault(Cause::WrongSpan, v)),
            Slot::Spanned((first, end)) => {
                let def = def + 1;
                Ok(Look::Enters(
                    Visit {
                        node,
                        slot: first,
                        rep: v.rep,
                        def,
                    },
                    Frame {
                        node,
                        next: first + 1,
                        end,
                        def,
                    },
                ))
            }
        }
    }

    // What a slot is.
    pub fn look_at(&self, v: Visit) -> Result<Look, Fault>
        requires { SlotIn self.now v }
        ensures { Looked self.now v result }
    {
        let n = self.rows.branch.nodes[v.node];
        match n.kind {
            Kind::Leaf | Kind::Struct => {}
            _ => return self.look_at_list(v),
        }
        if !self.rows.branch.is_valid(v.node, v.slot) {
            return Ok(Look::Ends(self.nulls(v, 1)?));
        }
        let def = v.def + usize::from(n.nullable);
        if n.kind == Kind::Leaf {
            return Ok(Look::Ends(Stretch {
                rep: v.rep,
                def,
                count: 1,
                first: Some(v.slot),
            }));
        }
        Ok(Look::Passes(Visit {
            node: v.node + 1,
            def,
            ..v
        }))
    }
}
