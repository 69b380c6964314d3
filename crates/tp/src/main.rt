//! The journey planner's program.
#![tactic(auto)]

mod disks;

use crate::disks::HostDisks;
use host_system::{HostSystem, stream_places};
use options::{given_words, out_of_memory, texts, unread};
use printing::Streams;
use std::io::BufReader;
use std::process::ExitCode;
use std::sync::Wait;
use std::thread::Threads;
use streams::Stream;
use whole_program::run_words;

// Does what the words say, with workers in such threads, and gives the status.
fn status<'r, T: Threads + Wait + Sync>(rt: &'r HostRuntime, threads: &'r T) -> u8 {
    let alloc = rt.alloc();
    let mut err = rt.stderr();
    let words = match given_words(rt) {
        Ok(words) => words,
        Err(error) => return unread("tp", &error, &mut err),
    };
    let Ok(texts) = texts(alloc, words.as_slice()) else {
        return out_of_memory("tp", &mut err);
    };
    let Ok(mut input) = BufReader::new(alloc, rt.stdin()) else {
        return out_of_memory("tp", &mut err);
    };
    let streams = Streams {
        out: Stream::new(rt.stdout()),
        err: Stream::new(err),
    };
    let system = HostSystem::new(rt, threads);
    let disks = HostDisks { rt };
    run_words(
        alloc,
        &system,
        &disks,
        texts.as_slice(),
        &mut input,
        streams,
    )
    .status
}

fn main(rt: HostRuntime) -> ExitCode {
    let _places = stream_places(&rt);
    ExitCode::from(status(&rt, &rt))
}
