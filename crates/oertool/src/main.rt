//! `oertool oer|coer [depth N] TYPE HEX` reads octets as a value of a type, and prints its canonical octets and what is left.
#![tactic(auto)]

use oertool_words::run::{run, run_without_text};
use std::process::ExitCode;
use std::rt::Env;
use std::{env, io};

/// The program's words, without its own name.
fn words<R: Env + AllocGlobal>(rt: &R) -> io::Result<Vec<String>> {
    let mut words = Vec::new(rt.alloc());
    let mut args = env::args(rt)?;
    let _program = args.next();
    for word in args {
        words.push(word)?;
    }
    Ok(words)
}

fn main(rt: HostRuntime) -> ExitCode {
    let mut out = io::writer(&rt);
    let status = match words(&rt) {
        Ok(words) => run(rt.alloc(), words.as_slice(), &mut out),
        Err(e) => run_without_text(e.kind(), &mut out),
    };
    ExitCode::from(status.code())
}
