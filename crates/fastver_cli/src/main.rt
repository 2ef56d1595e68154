//! The program `fastver`: it makes the real objects, calls the top, and exits with the number of the status.
//!
//! What it does is `fastver` of the crate `fastver_top`, on which alone it stands beside `fv_outside`.
#![tactic(auto)]

use fastver_top::{Status, fastver};
use fv_outside::{FileCounter, FileVault, FreeGate, StdSink, StdSource};
use std::alloc::{AllocError, Global};
use std::env::VarError;
use std::process::ExitCode;
use std::{env, io};

// The variable of the environment that names the file of the counter, and the file where it names none.
const COUNTER_VARIABLE: &str = "FASTVER_COUNTER";

const USUAL_COUNTER: &str = "fastver.counter";

// How the program was called: its words, its name first, and the path of the counter's file.
#[derive(Drop)]
struct Call {
    words: Vec<String>,
    counter: String,
}

fn main(rt: HostRuntime) -> ExitCode {
    let mut source = StdSource::new(rt.stdin());
    let mut out = StdSink::new(rt.stdout());
    let mut vault = FileVault::new(&rt);
    let status = match called(&rt) {
        Ok(call) => match (
            texts(rt.alloc(), &call.words),
            FileCounter::new(rt.alloc(), &rt, call.counter.as_str()),
        ) {
            (Ok(texts), Ok(mut counter)) => fastver(
                &rt,
                rt.alloc(),
                &texts,
                &mut source,
                &mut out,
                &mut vault,
                &FreeGate,
                &mut counter,
            ),
            _ => Status::Memory,
        },
        Err(status) => status,
    };
    if status.number() != 0 {
        say(&rt, &status);
    }
    ExitCode::from(status.number())
}

// How the program was called. The error is how it ends where it can't be known.
fn called(rt: &HostRuntime) -> Result<Call, Status> {
    Ok(Call {
        words: words(rt)?,
        counter: counter_path(rt)?,
    })
}

// The words that the program was called with. Those that are no text are no command's.
fn words(rt: &HostRuntime) -> Result<Vec<String>, Status> {
    match env::args(rt) {
        Ok(args) => args.collect(rt.alloc()).map_err(without_memory),
        Err(error) if error.kind() == io::ErrorKind::InvalidData => Err(Status::Usage),
        Err(_) => Err(Status::Memory),
    }
}

// The path of the counter's file: the one that the environment names, if it names one. One that is no text is refused as words are.
fn counter_path(rt: &HostRuntime) -> Result<String, Status> {
    match env::var(rt, COUNTER_VARIABLE) {
        Ok(path) if !path.is_empty() => Ok(path),
        Ok(_) | Err(VarError::NotPresent) => {
            String::from_str(rt.alloc(), USUAL_COUNTER).map_err(without_memory)
        }
        Err(VarError::NotUnicode) => Err(Status::Usage),
        Err(VarError::OutOfMemory) => Err(Status::Memory),
    }
}

// How the program ends where memory is wanting for its words.
fn without_memory(_: AllocError) -> Status {
    Status::Memory
}

// The texts of the words.
fn texts(alloc: Global, words: &[String]) -> Result<Vec<&str>, AllocError> {
    let mut texts = Vec::new(alloc);
    for word in words {
        texts.push(word.as_str())?;
    }
    Ok(texts)
}

// Says on standard error how the run ended. Nothing can be done where that fails.
fn say(rt: &HostRuntime, status: &Status) {
    let line = status.line();
    if let Ok(text) = str::from_utf8(line.as_slice()) {
        let _ = eprintln!(rt; "fastver: {text}");
    }
}
