//! The program of the commands that need no store. It is proved and built long before the whole one.
#![tactic(auto)]

use command_grammar::matches_of;
use command_line::read_words;
use commands::{SoFar, run_read};
use host_system::{HostSystem, stream_places};
use options::{given_words, out_of_memory, texts, unread};
use printing::Streams;
use std::process::ExitCode;
use std::sync::Wait;
use std::thread::Threads;
use streams::Stream;

// What is said in place of a command over a store.
const NO_STORES: &str =
    "tp: this program has no commands over a store: those of the whole one are proved by bin/tp\n";

// Does what the words say, with workers in such threads, and gives the status: that of a program that isn't built for a command over a
// store.
fn status<'r, T: Threads + Wait + Sync>(rt: &'r HostRuntime, threads: &'r T) -> u8 {
    let alloc = rt.alloc();
    let mut err = rt.stderr();
    let words = match given_words(rt) {
        Ok(words) => words,
        Err(error) => return unread("tp", &error, &mut err),
    };
    let Ok(texts) = texts(alloc, words.as_slice()) else {
        return out_of_memory("tp", &mut err);
    };
    let streams = Streams {
        out: Stream::new(rt.stdout()),
        err: Stream::new(err),
    };
    let system = HostSystem::new(rt, threads);
    let matched = matches_of(alloc, texts.as_slice());
    let mut shown = Vec::new(alloc);
    let read = read_words(&matched, &mut shown);
    let so_far = run_read(alloc, &system, &read, shown.as_slice(), streams);
    let SoFar {
        status,
        left,
        mut streams,
    } = so_far;
    if left.is_none() {
        return status;
    }
    streams.err.say(NO_STORES);
    70
}

fn main(rt: HostRuntime) -> ExitCode {
    let _places = stream_places(&rt);
    ExitCode::from(status(&rt, &rt))
}
