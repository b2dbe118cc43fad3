//! Runs the multicast routers of a scenario: `pimlab run FILE` does its moves and prints what they bring,
//! `pimlab check FILE` makes its routers.
#![tactic(auto)]

use pim_lab::{
    Answer, Begin, Command, Complaint, MemoryWire, States, UdpWire, Wire, WireKind, Words,
    check_text, load, play_saved, play_with, read_words,
};
use pim_types::Fault;
use std::alloc::{AllocError, AllocFailed};
use std::env;
use std::fs::{self, File};
use std::io::{self, ErrorKind, Write};
use std::process::ExitCode;

fn main(rt: HostRuntime) -> ExitCode {
    let code = match status(&rt) {
        Ok(code) => code,
        Err(_) => Complaint::Fault(Fault::Memory).tell(&mut rt.stderr()),
    };
    ExitCode::from(code)
}

// The status. The error is want of memory.
fn status(rt: &HostRuntime) -> io::Result<u8> {
    let given = match env::args(rt) {
        Ok(given) => given,
        Err(error) => return Ok(unread(&error).tell(&mut rt.stderr())),
    };
    let mut arguments = Vec::new(rt.alloc());
    for word in given {
        arguments.push(word)?;
    }
    let mut words = Vec::new(rt.alloc());
    // Help names the program so, whatever it was called by.
    words.push("pimlab")?;
    for argument in arguments.as_slice().iter().skip(1) {
        words.push(argument.as_str())?;
    }
    let answer = match read_words(rt.alloc(), &words) {
        Ok(answer) => answer,
        Err(fault) => return Ok(pim_lab::fault(&mut rt.stderr(), fault)),
    };
    Ok(match answer {
        Answer::Accepted(words) => obey(rt, &words),
        Answer::Refused => Complaint::CommandLine.tell(&mut rt.stderr()),
        Answer::Help(text) => match rt.stdout().write_all(text.as_bytes()) {
            Ok(()) => 0,
            Err(_) => Complaint::Fault(Fault::Wire).tell(&mut rt.stderr()),
        },
    })
}

// What is said of a command line that can't be read: a word that isn't UTF-8 is none that is known.
fn unread(error: &io::Error) -> Complaint<'static> {
    match error.kind() {
        ErrorKind::InvalidData => Complaint::CommandLine,
        _ => Complaint::Fault(Fault::Memory),
    }
}

// Does what the command line asks.
fn obey(rt: &HostRuntime, words: &Words<'_>) -> u8 {
    let mut err = rt.stderr();
    let read = if words.file == "-" {
        load(rt.alloc(), words.file, Some(rt.reader()), &mut err)
    } else {
        load(
            rt.alloc(),
            words.file,
            File::open(rt, words.file).ok(),
            &mut err,
        )
    };
    match (read, words.command) {
        (Err(status), _) => status,
        (Ok(text), Command::Check) => {
            check_text(rt.alloc(), text.as_str(), &mut rt.stdout(), &mut err)
        }
        (Ok(text), Command::Run) => run(rt, words, text.as_str()),
    }
}

// Does the moves of a scenario over the wire that was asked for.
fn run(rt: &HostRuntime, words: &Words<'_>, text: &str) -> u8 {
    match words.wire {
        WireKind::Memory => run_over(rt, MemoryWire::new(rt.alloc()), words, text),
        WireKind::Udp => match rt.clone() {
            Ok(net) => run_over(rt, UdpWire::new(rt.alloc(), net), words, text),
            Err(_) => Complaint::Fault(Fault::Memory).tell(&mut rt.stderr()),
        },
    }
}

fn run_over<W: Wire>(rt: &HostRuntime, wire: W, words: &Words<'_>, text: &str) -> u8 {
    if !words.from.is_empty() || !words.save.is_empty() {
        return run_saved(rt, wire, words, text);
    }
    play_with(
        rt.alloc(),
        text,
        wire,
        words.tables,
        &mut rt.stdout(),
        &mut rt.stderr(),
    )
}

// A router and a file of its state.
#[derive(Clone, Copy)]
struct Kept<'a> {
    router: &'a str,
    file: &'a str,
}

// What `ROUTER=FILE` says.
fn kept_in(word: &str) -> Option<Kept<'_>> {
    let (router, file) = word.split_once("=")?;
    Some(Kept { router, file })
}

// What stops a run with saved states before its first move, or after its last.
#[derive(Clone, Copy)]
enum Stop<'a> {
    Complaint(Complaint<'a>),
    NoMemory,
}

impl From<AllocError> for Stop<'_> {
    fn from(_refused: AllocError) -> Self {
        Stop::NoMemory
    }
}

impl<T: Drop> From<AllocFailed<T>> for Stop<'_> {
    fn from(_refused: AllocFailed<T>) -> Self {
        Stop::NoMemory
    }
}

// What the words of an option say.
fn all_kept<'a>(rt: &HostRuntime, words: &[&'a str]) -> Result<Vec<Kept<'a>>, Stop<'a>> {
    let mut all = Vec::new(rt.alloc());
    for word in words {
        let kept = kept_in(word).ok_or(Stop::Complaint(Complaint::CommandLine))?;
        all.push(kept)?;
    }
    Ok(all)
}

// The bytes of the files in which states are saved.
fn all_bytes<'a>(rt: &HostRuntime, from: &[Kept<'a>]) -> Result<Vec<Vec<u8>>, Stop<'a>> {
    let mut all = Vec::new(rt.alloc());
    for kept in from {
        let unread = Stop::Complaint(Complaint::File(kept.file));
        all.push(fs::read(rt, kept.file).map_err(|_| unread)?)?;
    }
    Ok(all)
}

// Does the moves of a scenario in which routers begin in saved states, or in which those of some are saved.
fn run_saved<W: Wire>(rt: &HostRuntime, wire: W, words: &Words<'_>, text: &str) -> u8 {
    match run_between(rt, wire, words, text) {
        Ok(status) => status,
        Err(Stop::Complaint(complaint)) => complaint.tell(&mut rt.stderr()),
        Err(Stop::NoMemory) => Complaint::Fault(Fault::Memory).tell(&mut rt.stderr()),
    }
}

// The same; the answer is the status.
fn run_between<'a, W: Wire>(
    rt: &HostRuntime,
    wire: W,
    words: &Words<'a>,
    text: &str,
) -> Result<u8, Stop<'a>> {
    let from = all_kept(rt, &words.from)?;
    let save = all_kept(rt, &words.save)?;
    let read = all_bytes(rt, &from)?;
    let mut begins = Vec::new(rt.alloc());
    for (kept, bytes) in from.iter().zip(read.iter()) {
        begins.push(Begin {
            router: kept.router,
            bytes,
        })?;
    }
    let mut names = Vec::new(rt.alloc());
    for kept in save.iter() {
        names.push(kept.router)?;
    }
    let states = States {
        from: &begins,
        save: &names,
    };
    let mut saved = Vec::new(rt.alloc());
    let status = play_saved(
        rt.alloc(),
        text,
        wire,
        words.tables,
        states,
        &mut saved,
        &mut rt.stdout(),
        &mut rt.stderr(),
    );
    if status == 0 {
        keep(rt, &save, &saved)?;
    }
    Ok(status)
}

// Writes states into their files.
fn keep<'a>(rt: &HostRuntime, save: &[Kept<'a>], saved: &[Vec<u8>]) -> Result<(), Stop<'a>> {
    for (kept, bytes) in save.iter().zip(saved.iter()) {
        let unwritten = Stop::Complaint(Complaint::Unwritten(kept.file));
        fs::write(rt, kept.file, bytes).map_err(|_| unwritten)?;
    }
    Ok(())
}
