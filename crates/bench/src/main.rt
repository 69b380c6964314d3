//! Times the parts of the planner on a feed.
#![tactic(auto)]

mod asking;
mod building;
mod clock;
mod measuring;
mod questions;
mod storing;
mod texts;
mod total;
mod words;

use crate::measuring::measure;
use crate::words::read_words;
use options::{given_words, out_of_memory, show, texts, unread};
use std::io::Write;
use std::process::ExitCode;

fn status(rt: &HostRuntime) -> u8 {
    let alloc = rt.alloc();
    let words = match given_words(rt) {
        Ok(words) => words,
        Err(error) => return unread("bench", &error, &mut rt.stderr()),
    };
    let Ok(texts) = texts(alloc, words.as_slice()) else {
        return out_of_memory("bench", &mut rt.stderr());
    };
    let mut shown = Vec::new(alloc);
    let job = match read_words(alloc, texts.as_slice(), &mut shown) {
        Ok(job) => job,
        Err(status) => {
            return show(
                "bench",
                shown.as_slice(),
                status,
                &mut rt.stdout(),
                &mut rt.stderr(),
            );
        }
    };
    match measure(rt, &job) {
        Ok(()) => 0,
        Err(fault) => {
            let _ = writeln!(rt.stderr(), "bench: {fault}");
            fault.status()
        }
    }
}

fn main(rt: HostRuntime) -> ExitCode {
    ExitCode::from(status(&rt))
}
