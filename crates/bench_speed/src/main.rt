//! `bench_speed WORD encode|decode|lenient TIMES` reads a value's octets in hexadecimal on standard input, writes the value
//! canonically or reads its canonical octets canonically or leniently again and again, and prints how many octets it has and how
//! many nanoseconds one run takes. `bench_speed deep WORD COUNT TIMES` makes a value that may be too deep to be read, and writes it.
//! It is run by hand: scripts/speed_values.py prints the octets, and docs/PERFORMANCE.md has its figures.
#![tactic(auto)]

mod deep;
mod measuring;
mod words;

use anyhow::Result;
use deep::measure_deep;
use measuring::{Figures, Octets, Plan, Way};
use std::process::ExitCode;
use std::rt::{Clock, Env};
use std::{env, io};
use words::with_word;

const USAGE: &str =
    "usage: bench_speed WORD encode|decode|lenient TIMES, with octets in hexadecimal on standard input
       bench_speed deep nest|link|additions COUNT TIMES
WORD: one of oertool, or link, added, additions, times, colors or seqs";

/// What is done, and how often; nothing where the words don't say so.
fn plan_of(way: &str, times: &str) -> Option<Plan> {
    let way = match way {
        "encode" => Way::Encode,
        "decode" => Way::Decode,
        "lenient" => Way::Lenient,
        _ => return None,
    };
    match times.parse() {
        Ok(times) => Some(Plan { way, times }),
        Err(_) => None,
    }
}

/// Measures the value of that word's type whose octets stand on standard input; nothing where no type has the word.
fn measure_input<R: Clock + Input + AllocGlobal>(
    rt: &R,
    word: &str,
    plan: Plan,
) -> Result<Option<Figures>> {
    let alloc = rt.alloc();
    let text = io::read_to_string(alloc, rt.reader())?;
    let octets = hex::decode(alloc, text.as_str().trim_end())?;
    let work = Octets {
        clock: rt,
        alloc,
        plan,
        octets: octets.as_slice(),
    };
    match with_word(word, work) {
        Some(figures) => figures,
        None => Ok(None),
    }
}

fn answer<R: Clock + Env + Input + AllocGlobal>(rt: &R) -> Result<Option<Figures>> {
    let alloc = rt.alloc();
    let mut words = Vec::new(alloc);
    let mut args = env::args(rt)?;
    let _program = args.next();
    for word in args {
        words.push(word)?;
    }
    match words.as_slice() {
        [deep, word, count, times] if deep.as_str() == "deep" => {
            match (count.parse(), plan_of("encode", times.as_str())) {
                (Ok(count), Some(plan)) => measure_deep(rt, alloc, word.as_str(), count, &plan),
                _ => Ok(None),
            }
        }
        [word, way, times] => match plan_of(way.as_str(), times.as_str()) {
            Some(plan) => measure_input(rt, word.as_str(), plan),
            None => Ok(None),
        },
        _ => Ok(None),
    }
}

fn main(rt: HostRuntime) -> Result<ExitCode> {
    match answer(&rt)? {
        Some(it) => {
            println!(rt; "{} octets, {} ns", it.octets, it.nanoseconds)?;
            Ok(ExitCode::from(0))
        }
        None => {
            println!(rt; "{USAGE}")?;
            Ok(ExitCode::from(2))
        }
    }
}
