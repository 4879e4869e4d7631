//! The program: the top call over standard input and standard output. Begin with `run`, which says how
//! the program ends; `main` is one call of it.
#![tactic(auto)]

ghost use Rattle.std.specs.Prelude.{◌≡◌, drop, map, string_bytes, IfOk, OnErr};
ghost use Rattle.std.specs.Process.{exit_status};
ghost use Rattle.volt_cmd.specs.declared.status.Status.{Status};
ghost use Rattle.volt_cmd.specs.Status.{exit_number};
ghost use Rattle.volt_main.specs.Program.{EndsWith};

use std::alloc::Global;
use std::process::ExitCode;
use std::rt::Env;
use std::thread::Threads;
use std::{env, io};
use volt_cmd::{Status, volt};
use volt_io::sink::Sink;
use volt_io::source::Source;
use volt_io::standard::{StdSink, StdSource};

fn main(rt: HostRuntime) -> ExitCode {
    run(
        &rt,
        rt.alloc(),
        words(&rt),
        &mut StdSource::new(rt.reader()),
        &mut StdSink::new(io::writer(&rt)),
    )
}

/// The words of the program, of which the first is its name.
fn words<R: Env + AllocGlobal>(rt: &R) -> io::Result<Vec<String>> {
    let words = env::args(rt)?.collect::<Vec<String>>(rt.alloc())?;
    Ok(words)
}

/// Runs the words behind the program's name over a source and a sink. The program ends with the
/// number of the status with which the top call ends; where the words weren't found, with that of
/// running out of memory.
fn run<R: Threads + Sync, S: Source, K: Sink>(
    rt: &R,
    alloc: Global,
    words: io::Result<Vec<String>>,
    source: &mut S,
    sink: &mut K,
) -> ExitCode
    ensures ends { IfOk words (λ words. (status : Status) × (exit_status result ≡ exit_number status)
        × EndsWith (map string_bytes (drop 1 words.items))
        (S.state source.old) (S.state source.new) (K.state sink.old) (K.state sink.new) status) }
    ensures no_words { OnErr words (exit_status result ≡ exit_number Status.NoMemory) }
    ensures unread { OnErr words (source.new ≡ source.old) }
    ensures unwritten { OnErr words (sink.new ≡ sink.old) }
{
    match words {
        Ok(words) => {
            let words = behind_first(words);
            exit_code(volt(rt, alloc, &words, source, sink))
        }
        Err(_) => exit_code(Status::NoMemory),
    }
}

/// All words but the first.
fn behind_first(mut words: Vec<String>) -> Vec<String>
    ensures { result.items ≡ drop 1 words.items }
{
    if !words.is_empty() {
        words.remove(0);
    }
    words
}

/// The program ends with the number of the status.
fn exit_code(status: Status) -> ExitCode
    ensures { exit_status result ≡ exit_number status }
{
    ExitCode::from(status.number())
}
