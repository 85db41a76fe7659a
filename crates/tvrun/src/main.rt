// The program of document 01: reads `problem.tbv`, `start.bin` and `tape.bin` of the folder that it is started in, and prints the answer
// of the run. Everything that matters is in the crate `files`; here are the calls on files.
#![tactic(auto)]

ghost use Rattle.std.specs.Prelude.{◌≤◌, IfOk, length};

use files::{PROBLEM_ROOM, TEXT_ROOM, WORDS_ROOM};
use std::fs::File;
use std::io::{ErrorKind, Read, Write};
use std::{fmt, io};

// What ends the program early.
#[derive(Clone, Copy, Debug, PartialEq, Eq)]
enum Fault {
    Unread(&'static str),
    Unwritten,
}

impl fmt::Display for Fault {
    fn fmt<W: fmt::Write>(&self, f: &mut fmt::Formatter<W>) -> fmt::Result {
        match self {
            Fault::Unread(name) => write!(f, "{name}: cannot be read"),
            Fault::Unwritten => write!(f, "standard output: cannot be written"),
        }
    }
}

// Reads until buf is full, the file ends or a read fails, and answers how many bytes were read. (A `while`: a read may bring less than
// there is room for, and brings nothing at the file's end.)
fn read_all<R: Read>(reader: &mut R, buf: &mut [u8]) -> io::Result<usize>
    ensures { IfOk result (λ n. n ≤ length buf.new) }
{
    let mut done: usize = 0;
    while done < buf.len() {
        let more = reader.read(&mut buf[done..])?;
        if more == 0 {
            return Ok(done);
        }
        done += more;
    }
    Ok(done)
}

// Reads a file's bytes. "A missing file reads as empty"; one that cannot be opened for another reason cannot be read.
fn load(rt: &HostRuntime, name: &'static str, buf: &mut [u8]) -> Result<usize, Fault>
    ensures { IfOk result (λ n. n ≤ length buf.new) }
{
    match File::open(rt, name) {
        Ok(mut file) => read_all(&mut file, buf).map_err(|_| Fault::Unread(name)),
        Err(fault) => {
            if fault.kind() == ErrorKind::NotFound {
                return Ok(0);
            }
            Err(Fault::Unread(name))
        }
    }
}

// Prints the answer of the run of the three files.
fn run(rt: &HostRuntime) -> Result<(), Fault> {
    let mut problem = [0u8; PROBLEM_ROOM];
    let p = load(rt, "problem.tbv", &mut problem)?;
    let mut start = [0u8; WORDS_ROOM];
    let s = load(rt, "start.bin", &mut start)?;
    let mut tape = [0u8; WORDS_ROOM];
    let t = load(rt, "tape.bin", &mut tape)?;
    let mut out = [0u8; TEXT_ROOM];
    let n = files::output(&problem, p, &start, s, &tape, t, &mut out);
    io::writer(rt)
        .write_all(&out[..n])
        .map_err(|_| Fault::Unwritten)
}

fn main(rt: HostRuntime) {
    if let Err(fault) = run(&rt) {
        let _ = eprintln!(rt; "tvrun: {fault}");
    }
}
