// Reads a job, line by line, from the files that are named or from standard input, and prints what each action does.
#![tactic(auto)]

use answer::{Answer, Outcome, Refused, node_of};
use job::parse;
use job_table::Table;
use line_fault::LineFault;
use statement::Action;
use std::alloc::AllocError;
use std::fs::File;
use std::io::{BufRead, BufReader, BufWriter, Read, Stdout, Write};
use std::process::ExitCode;
use std::str::from_utf8;
use std::{env, io};
use table::{Refusal, survey};
use thiserror::Error;
use walk::measure;

// Why a job ended before its end.
#[derive(Debug, Drop, Error)]
enum Stop {
    #[error(transparent)]
    Io(#[from] io::Error),
    #[error(transparent)]
    Line(#[from] LineFault),
}

// By hand: a failed allocation is told as a fault of the line.
impl From<AllocError> for Stop {
    fn from(e: AllocError) -> Stop {
        Stop::Line(e.into())
    }
}

// What the lines so far have built, and where the answers go.
#[derive(Drop)]
struct Job {
    table: Table,
    out: BufWriter<Stdout>,
}

// What an action answers, or why it is refused.
fn answer_to(table: &Table, action: Action) -> Result<Answer, Refusal> {
    let source = table.source();
    Ok(match action {
        Action::Survey => Answer::Leaves(survey(&source)?),
        Action::Measure { leaf, rows } => Answer::Measured(measure(
            &source,
            leaf as usize,
            rows.from as usize,
            rows.to as usize,
        )?),
    })
}

// The same; a refusal goes with the name of the node that it speaks of.
fn answer_or_refused(table: &Table, action: Action) -> Result<Answer, Refused<'_>> {
    answer_to(table, action).map_err(|refusal| Refused {
        refusal,
        name: node_of(refusal).and_then(|node| table.name(node)),
    })
}

impl Job {
    // Does one line.
    fn line(&mut self, rt: &HostRuntime, line: &[u8]) -> Result<(), Stop> {
        let Some(statement) = parse(rt.alloc(), line)? else {
            return Ok(());
        };
        let Some(action) = self.table.apply(statement)? else {
            return Ok(());
        };
        let outcome = Outcome(answer_or_refused(&self.table, action));
        writeln!(self.out, "{action} -> {outcome}")?;
        Ok(())
    }

    // Does the lines of an input, and says where it stopped. The lines are numbered, and read into the same memory.
    fn input<R: Read + Drop>(
        &mut self,
        rt: &HostRuntime,
        name: &str,
        lines: R,
    ) -> Result<(), Stop> {
        let mut reader = BufReader::new(rt.alloc(), lines)?;
        let mut line = Vec::new(rt.alloc());
        // a loop that waits on input has to have an end, which no input reaches
        for number in 1..u64::MAX {
            line.clear();
            if reader.read_until(b'\n', &mut line)? == 0 {
                break;
            }
            if let Err(stop) = self.line(rt, line.as_slice()) {
                self.out.flush()?;
                let text = front(line.as_slice());
                eprint!(rt; "{name}, line {number}: {text}: ")?;
                return Err(stop);
            }
        }
        Ok(())
    }

    // Does the lines of a file. Which file cannot be opened is told at once, which needs no memory.
    fn file(&mut self, rt: &HostRuntime, name: &str) -> Result<(), Stop> {
        match File::open(rt, name) {
            Ok(file) => self.input(rt, name, file),
            Err(e) => {
                self.out.flush()?;
                eprint!(rt; "{name}: ")?;
                Err(Stop::Io(e))
            }
        }
    }

    // Does the files that are named. Where there are several, each has a line with its name.
    fn inputs(&mut self, rt: &HostRuntime) -> Result<(), Stop> {
        let names: Vec<String> = env::args(rt)?.skip(1).collect(rt.alloc())?;
        match names.as_slice() {
            [] => self.input(rt, "standard input", rt.stdin())?,
            [name] => self.file(rt, name.as_str())?,
            several => {
                for name in several {
                    writeln!(self.out, "file {name}")?;
                    self.file(rt, name.as_str())?;
                }
            }
        }
        self.out.flush()?;
        Ok(())
    }
}

// The front of a line as far as it is text, at most 80 bytes of it.
fn front(line: &[u8]) -> &str {
    let start = line.get(..80).unwrap_or(line);
    match from_utf8(start) {
        Ok(text) => text.trim_end(),
        Err(_) => start.utf8_chunks().next().map_or("", |chunk| chunk.valid()),
    }
}

// Where a job stopped has been told by then; `main` tells why.
fn main(rt: HostRuntime) -> Result<ExitCode, io::Error> {
    let mut job = Job {
        table: Table::new(rt.alloc()),
        out: BufWriter::new(rt.alloc(), rt.stdout())?,
    };
    match job.inputs(&rt) {
        Ok(()) => Ok(ExitCode::SUCCESS),
        Err(stop) => {
            eprintln!(rt; "{stop}")?;
            Ok(ExitCode::FAILURE)
        }
    }
}
