//! The program's words, and writers that fail.
use anyhow::{Error, Result};
use oertool_words::run::{Status, run, run_without_text};
use std::alloc::Global;
use std::io::{self, Write};

/// The words of a row, parted by a character; none where there is no row.
fn words_of(alloc: Global, row: Option<&str>, parting: char) -> Result<Vec<String>> {
    let mut words = Vec::new(alloc);
    let Some(row) = row else {
        return Ok(words);
    };
    for word in row.split(parting) {
        words.push(String::from_str(alloc, word)?)?;
    }
    Ok(words)
}

/// What was printed, a `|` for each line's end, and the status.
fn told(alloc: Global, out: Vec<u8>, status: Status) -> Result<String> {
    let text = String::from_utf8(out)?;
    let text = text.as_str().replace(alloc, "\n", "|")?;
    Ok(format!(in alloc; "{};{}", text, status.code())?)
}

/// What the program prints on these words.
pub fn printed(alloc: Global, row: Option<&str>, parting: char) -> Result<String> {
    let words = words_of(alloc, row, parting)?;
    let mut out = Vec::new(alloc);
    let status = run(alloc, words.as_slice(), &mut out);
    told(alloc, out, status)
}

/// What it prints where its words are no text, or found no memory.
pub fn stopped(alloc: Global, word: &str) -> Result<String> {
    let kind = match word {
        "InvalidData" => io::ErrorKind::InvalidData,
        "OutOfMemory" => io::ErrorKind::OutOfMemory,
        _ => return Err(Error::msg("no such kind")),
    };
    let mut out = Vec::new(alloc);
    let status = run_without_text(kind, &mut out);
    told(alloc, out, status)
}

/// A writer one of whose writes fails, which keeps what it was given before.
#[derive(Drop)]
struct Failing {
    written: Vec<u8>,
    calls: u32,
    failing: u32,
}

impl Write for Failing {
    fn write(&mut self, buf: &[u8]) -> io::Result<usize> {
        self.calls = self.calls.wrapping_add(1);
        if self.calls == self.failing {
            return Err(io::Error::from(io::ErrorKind::BrokenPipe));
        }
        self.written.extend_from_slice(buf)?;
        Ok(buf.len())
    }

    fn flush(&mut self) -> io::Result<()> {
        Ok(())
    }
}

/// What the program wrote before the write of that number, which fails.
pub fn broken(alloc: Global, row: &str) -> Result<String> {
    let (number, words) = row.split_once(' ').unwrap_or((row, ""));
    let words = words_of(alloc, Some(words), ',')?;
    let mut out = Failing {
        written: Vec::new(alloc),
        calls: 0,
        failing: number.parse::<u32>()?,
    };
    let status = run(alloc, words.as_slice(), &mut out);
    told(alloc, out.written, status)
}
