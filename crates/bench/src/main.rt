// Times `measure` on tables of one shape each. `bench` measures small tables and prints their counts;
// `bench SLOTS REPEATS` measures tables of about so many leaf slots and prints the least time an entry took.
#![tactic(auto)]

ghost use Rattle.std.specs.Prelude.{◌<◌};

use job_table::Table;
use std::alloc::{AllocError, Global};
use std::io;
use std::time::Duration;
use table::{Kind, NO_PARENT, Node};
use timing::{Trials, arguments, least_time, share};
use walk::{Measured, measure};

// A tenth of the slots, at random.
const TENTH: Nulls = Nulls::Percent(10);

// Numbers made up by xorshift.
#[derive(Clone, Copy)]
struct Random(u64);

impl Random {
    fn below(&mut self, bound: u64) -> u64
        requires { 0 < bound }
        ensures { result < bound }
    {
        self.0 ^= self.0 << 13;
        self.0 ^= self.0 >> 7;
        self.0 ^= self.0 << 17;
        (self.0.wrapping_mul(0x2545_F491_4F6C_DD1D) >> 11) % bound
    }

    // Eight bits, so many percent of which are 0.
    fn byte(&mut self, percent: u64) -> u8 {
        (0..8u32).fold(0, |byte, k| {
            byte | (u8::from(self.below(100) >= percent) << k)
        })
    }

    // The length of a list, 5 to 15.
    fn length(&mut self) -> i32 {
        5 + self.below(11) as i32
    }
}

// Which slots of a node are null.
#[derive(Clone, Copy)]
enum Nulls {
    NoBuffer,
    Percent(u64),
    EveryTenth,
}

// A table of one leaf and its buffers.
#[derive(Drop)]
struct Shape {
    table: Table,
    random: Random,
}

impl Shape {
    fn new(heap: Global) -> Shape {
        Shape {
            table: Table::new(heap),
            random: Random(0x9E37_79B9_7F4A_7C15),
        }
    }

    // The validity bits of some slots, from a whole byte on.
    fn bits(&mut self, slots: u32, nulls: Nulls) -> Result<Option<u64>, AllocError> {
        let validity = &mut self.table.validity;
        let start = validity.len() as u64;
        let bytes = slots / 8 + 1;
        match nulls {
            Nulls::NoBuffer => return Ok(None),
            Nulls::Percent(percent) => {
                validity.extend((0..bytes).map(|_| self.random.byte(percent)))?;
            }
            Nulls::EveryTenth => {
                let pattern: [u8; 5] = [254, 251, 239, 191, 255];
                validity.extend(pattern.iter().copied().cycle().take(bytes as usize))?;
            }
        }
        Ok(Some(start.wrapping_mul(8)))
    }

    // A node of a kind, with its validity and no more. What it has is told in the call, here and below:
    // a struct of parent, slots and nulls would be made in each call and taken apart here.
    fn node(
        &mut self,
        parent: u8,
        kind: Kind,
        slots: u32,
        nulls: Nulls,
    ) -> Result<Node, AllocError> {
        let validity = self.bits(slots, nulls)?;
        Ok(Node {
            parent,
            kind: kind as u8,
            nullable: true,
            slots,
            size: 0,
            validity,
            offsets: 0,
            sizes: 0,
        })
    }

    fn leaf(&mut self, parent: u8, slots: u32, nulls: Nulls) -> Result<(), AllocError> {
        let node = self.node(parent, Kind::Leaf, slots, nulls)?;
        self.table.add_node(node, None)
    }

    fn group(&mut self, slots: u32, nulls: Nulls) -> Result<(), AllocError> {
        let node = self.node(NO_PARENT, Kind::Struct, slots, nulls)?;
        self.table.add_node(node, None)
    }

    fn tens(&mut self, slots: u32) -> Result<(), AllocError> {
        let node = self.node(NO_PARENT, Kind::FixedSizeList, slots, Nulls::NoBuffer)?;
        self.table.add_node(Node { size: 10, ..node }, None)
    }

    // Lists of 5 to 15 elements each, whose spans follow one another; answers how many elements they have in all.
    fn lists(
        &mut self,
        parent: u8,
        kind: Kind,
        slots: u32,
        nulls: Nulls,
    ) -> Result<u32, AllocError> {
        let mut node = self.node(parent, kind, slots, nulls)?;
        let random = &mut self.random;
        let narrow = &mut self.table.offsets32;
        let wide = &mut self.table.offsets64;
        let elements = match kind {
            Kind::LargeList => {
                node.offsets = wide.len() as u64;
                push_offsets(wide, slots, random)?
            }
            Kind::ListView => {
                node.sizes = narrow.len() as u64;
                // the lengths that the starts go by, made twice: a list of them would take memory
                let mut same = *random;
                narrow.extend((0..slots).map(|_| same.length()))?;
                node.offsets = narrow.len() as u64;
                push_starts(narrow, slots, random)?
            }
            _ => {
                node.offsets = narrow.len() as u64;
                push_offsets(narrow, slots, random)?
            }
        };
        self.table.add_node(node, None)?;
        Ok(elements.unsigned_abs())
    }

    fn nested(&mut self, slots: u32, nulls: Nulls) -> Result<(), AllocError> {
        let outer = self.lists(NO_PARENT, Kind::List, slots / 100, nulls)?;
        let inner = self.lists(0, Kind::List, outer, nulls)?;
        self.leaf(1, inner, TENTH)
    }

    fn measure(&self) -> Option<Measured> {
        let source = self.table.source();
        let rows = source.nodes.first()?.slots as usize;
        measure(&source, source.nodes.len() - 1, 0, rows).ok()
    }
}

// Where so many spans begin that follow one another; answers where the last one ends.
fn push_starts<O: From<i32> + Drop>(
    buffer: &mut Vec<O>,
    spans: u32,
    random: &mut Random,
) -> Result<i32, AllocError> {
    let mut at: i32 = 0;
    for _ in 0..spans {
        buffer.push(at.into())?;
        at = at.wrapping_add(random.length());
    }
    Ok(at)
}

// The same, and where the last one ends.
fn push_offsets<O: From<i32> + Drop>(
    buffer: &mut Vec<O>,
    spans: u32,
    random: &mut Random,
) -> Result<i32, AllocError> {
    let end = push_starts(buffer, spans, random)?;
    buffer.push(end.into())?;
    Ok(end)
}

fn show(rt: &impl Print, what: &str, time: Duration, entries: usize) -> io::Result<()> {
    let hundredths = share(time, entries, 100);
    println!(rt;
        "  {what} {}.{:02} ns an entry",
        hundredths / 100,
        hundredths % 100
    )
}

// Measures the table that `make` makes, and times it where there are repeats.
fn run<F: FnOnce(&mut Shape) -> Result<(), AllocError>>(
    rt: &HostRuntime,
    name: &str,
    repeats: u64,
    make: F,
) -> io::Result<()>
    requires { F.IsAlwaysCallable make }
{
    let mut shape = Shape::new(rt.alloc());
    make(&mut shape)?;
    let Some(Measured { entries, values }) = shape.measure() else {
        return println!(rt; "{name}: refused");
    };
    println!(rt; "{name}: {entries} entries, {values} values")?;
    let measured = least_time(rt, repeats, |_| {
        let _ = shape.measure();
    })?;
    let Some(time) = measured else {
        return Ok(());
    };
    show(rt, "measure", time, entries)?;
    let mut levels: Vec<i16> = vec![in rt.alloc(); 0; entries]?;
    let filled = least_time(rt, repeats, |before| {
        levels.as_mut_slice().fill((before % 8) as i16)
    })?;
    if let Some(time) = filled {
        show(rt, "filling one stream of levels", time, entries)?;
    }
    Ok(())
}

// Tables whose slots are an entry each.
fn leaves(rt: &HostRuntime, slots: u32, repeats: u64) -> io::Result<()> {
    for (name, nulls) in [
        ("leaf, no validity", Nulls::NoBuffer),
        ("leaf, all valid", Nulls::Percent(0)),
        ("leaf, every tenth null", Nulls::EveryTenth),
        ("leaf, 10% null", TENTH),
    ] {
        run(rt, name, repeats, |s| s.leaf(NO_PARENT, slots, nulls))?;
    }
    run(rt, "struct 10% null over leaf 10% null", repeats, |s| {
        s.group(slots, TENTH)?;
        s.leaf(0, slots, TENTH)
    })
}

// Lists at the root, so many.
fn root_lists(rt: &HostRuntime, lists: u32, repeats: u64) -> io::Result<()> {
    for (name, kind, nulls) in [
        (
            "lists of ten over leaf 10% null",
            Kind::List,
            Nulls::NoBuffer,
        ),
        ("lists 10% null over leaf 10% null", Kind::List, TENTH),
        (
            "large lists over leaf 10% null",
            Kind::LargeList,
            Nulls::NoBuffer,
        ),
    ] {
        run(rt, name, repeats, |s| {
            let elements = s.lists(NO_PARENT, kind, lists, nulls)?;
            s.leaf(0, elements, TENTH)
        })?;
    }
    Ok(())
}

// Lists below lists and structs, and lists of the other kinds.
fn other_lists(rt: &HostRuntime, slots: u32, repeats: u64) -> io::Result<()> {
    let lists = slots / 10;
    for (name, nulls) in [
        ("lists of lists over leaf 10% null", Nulls::NoBuffer),
        ("lists of lists, all 10% null", TENTH),
    ] {
        run(rt, name, repeats, |s| s.nested(slots, nulls))?;
    }
    run(
        rt,
        "struct 10% null over lists over leaf 10% null",
        repeats,
        |s| {
            s.group(lists, TENTH)?;
            let elements = s.lists(0, Kind::List, lists, Nulls::NoBuffer)?;
            s.leaf(1, elements, TENTH)
        },
    )?;
    run(rt, "fixed size ten over leaf 10% null", repeats, |s| {
        s.tens(lists)?;
        s.leaf(0, slots / 10 * 10, TENTH)
    })?;
    run(rt, "views of ten over leaf 10% null", repeats, |s| {
        let elements = s.lists(NO_PARENT, Kind::ListView, lists, Nulls::NoBuffer)?;
        s.leaf(0, elements, TENTH)
    })
}

fn main(rt: HostRuntime) -> io::Result<()> {
    let Trials {
        items: slots,
        repeats,
    } = arguments(&rt, u64::MAX)?;
    leaves(&rt, slots, repeats)?;
    root_lists(&rt, slots / 10, repeats)?;
    other_lists(&rt, slots, repeats)
}
