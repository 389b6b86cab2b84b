//! `oershow` shows where each part of a message lies in its octets, by a table of types or by ASN.1 modules, and writes the octets of JSON.
#![tactic(auto)]

mod messages;
mod page;
mod tables;
mod values;
mod words;

use anyhow::{Error, Result};
use base64::engine::general_purpose::STANDARD;
use messages::{Colours, PLAIN, TERMINAL, is_whole, read_message};
use oer_json::{Tables, octets_of as octets_of_json};
use page::Page;
use std::alloc::Global;
use std::io::{BufRead, BufReader, IsTerminal, Read};
use std::process::ExitCode;
use std::{env, fs};
use tables::{at_file, tables_of};
use words::{Output, USAGE, Wish, asked, is_module, wish_of};

/// What has been done of a wish.
#[derive(Drop)]
struct Done {
    alloc: Global,
    colours: Colours,
    page: Page,
    /// How many messages there were, and how many of them were whole.
    messages: u64,
    whole: u64,
    /// How many texts in JSON were refused.
    refused: u64,
}

/// A message that was read from a line: its type, its octets or its text in JSON, and what is to be written of it.
#[derive(Drop)]
struct Line<'l> {
    type_name: &'l str,
    octets: Vec<u8>,
    output: Output,
}

/// The octets of a text in hexadecimal, with or without blanks and colons, or in base64.
fn octets_of(alloc: Global, text: &str, is_base64: bool) -> Result<Vec<u8>> {
    if is_base64 {
        return match STANDARD.decode(alloc, text.trim().as_bytes()) {
            Ok(octets) => Ok(octets),
            Err(_) => Err(Error::msg("NoBase64: a message is no base64")),
        };
    }
    let mut digits = String::new(alloc);
    for character in text.trim().chars() {
        if character != ' ' && character != ':' {
            digits.push(character)?;
        }
    }
    match hex::decode(alloc, digits.as_str()) {
        Ok(octets) => Ok(octets),
        Err(_) => Err(Error::msg("NoHexadecimal: a message is no hexadecimal")),
    }
}

/// What is read of a message: of JSON the text itself.
fn input_of(alloc: Global, text: &str, output: Output, is_base64: bool) -> Result<Vec<u8>> {
    if output == Output::Octets {
        return Ok(Vec::from_slice(alloc, text.as_bytes())?);
    }
    octets_of(alloc, text, is_base64)
}

/// What a line says. With `-` for the type it stands in front, behind words for this message alone.
fn line_of<'l>(alloc: Global, wish: &Wish<'l>, line: &'l str) -> Result<Line<'l>> {
    if wish.type_name != "-" {
        return Ok(Line {
            type_name: wish.type_name,
            octets: input_of(alloc, line, wish.output, wish.is_base64)?,
            output: wish.output,
        });
    }
    let (is_json, line) = asked(line, "--json ");
    let (is_octets, line) = asked(line, "--from-json ");
    let (is_base64, line) = asked(line, "--base64 ");
    let (type_name, text) = line.split_once(" ").unwrap_or((line, ""));
    let output = match (is_json, is_octets) {
        (true, _) => Output::Json,
        (false, true) => Output::Octets,
        (false, false) => wish.output,
    };
    Ok(Line {
        type_name,
        octets: input_of(alloc, text, output, wish.is_base64 || is_base64)?,
        output,
    })
}

/// The number of the type of that name.
fn type_of(tables: &Tables, name: &str) -> Result<u32> {
    match tables.type_of(name) {
        Some(number) => Ok(number),
        None => Err(Error::msg("NoSuchType: the table has no such type")),
    }
}

impl Done {
    /// What is written of a message.
    fn text_of(
        &mut self,
        tables: &Tables,
        output: Output,
        type_name: &str,
        octets: &[u8],
    ) -> Result<String> {
        let type_number = type_of(tables, type_name)?;
        if output == Output::Octets {
            return self.octets_text(tables, type_number, octets);
        }
        if output == Output::Check && is_whole(tables, type_number, octets) {
            self.whole = self.whole.saturating_add(1);
            return Ok(String::new(self.alloc));
        }
        let message = read_message(self.alloc, tables, type_number, octets)?;
        match output {
            Output::Tree => message.tree(self.colours),
            Output::Json => message.json(),
            Output::Check => self.complaint(message.end()?.as_str()),
            Output::Page => {
                self.page.push(&message)?;
                Ok(String::new(self.alloc))
            }
            Output::Octets => Ok(String::new(self.alloc)),
        }
    }

    /// The line of a text in JSON: its canonical octets, or why it is refused.
    fn octets_text(&mut self, tables: &Tables, type_number: u32, text: &[u8]) -> Result<String> {
        match octets_of_json(self.alloc, tables, type_number, text) {
            Ok(octets) => {
                let digits = hex::encode(self.alloc, octets.as_slice())?;
                Ok(format!(in self.alloc; "{digits}\n")?)
            }
            Err(refusal) => {
                self.refused = self.refused.saturating_add(1);
                Ok(format!(in self.alloc; "refused: {refusal}\n")?)
            }
        }
    }

    /// The line of a message that isn't whole.
    fn complaint(&self, what: &str) -> Result<String> {
        let number = self.messages;
        Ok(format!(in self.alloc; "message {number}: {what}\n")?)
    }

    /// What is written of a line.
    fn text_of_line(&mut self, tables: &Tables, wish: &Wish<'_>, line: &str) -> Result<String> {
        self.messages = self.messages.saturating_add(1);
        let text = match line_of(self.alloc, wish, line) {
            Ok(it) => self.text_of(tables, it.output, it.type_name, it.octets.as_slice()),
            Err(e) => Err(e),
        };
        match text {
            Err(e) if wish.output == Output::Check => {
                let what = format!(in self.alloc; "{e}")?;
                self.complaint(what.as_str())
            }
            text => text,
        }
    }

    /// What is written of the octets of a file.
    fn text_of_file(&mut self, tables: &Tables, wish: &Wish<'_>, octets: &[u8]) -> Result<String> {
        self.messages = self.messages.saturating_add(1);
        self.text_of(tables, wish.output, wish.type_name, octets)
    }

    /// Shows the messages of the words, or of the lines of standard input.
    fn show_texts(&mut self, rt: &HostRuntime, tables: &Tables, wish: &Wish<'_>) -> Result<()> {
        for text in wish.messages.iter() {
            let shown = self.text_of_line(tables, wish, text.as_str())?;
            print!(rt; "{shown}")?;
        }
        if wish.messages.is_empty() {
            self.show_lines(rt, tables, wish)?;
        }
        Ok(())
    }

    /// Shows a message for each line of standard input.
    fn show_lines(&mut self, rt: &HostRuntime, tables: &Tables, wish: &Wish<'_>) -> Result<()> {
        for line in BufReader::new(self.alloc, rt.reader())?.lines(self.alloc) {
            let shown = self.text_of_line(tables, wish, line?.as_str())?;
            print!(rt; "{shown}")?;
        }
        Ok(())
    }

    /// Shows each file as a message, or standard input.
    fn show_binaries(&mut self, rt: &HostRuntime, tables: &Tables, wish: &Wish<'_>) -> Result<()> {
        for file in wish.messages.iter() {
            let octets = at_file(
                self.alloc,
                "NoFile",
                file.as_str(),
                fs::read(rt, file.as_str()),
            )?;
            let shown = self.text_of_file(tables, wish, octets.as_slice())?;
            print!(rt; "{shown}")?;
        }
        if wish.messages.is_empty() {
            let mut octets = Vec::new(self.alloc);
            rt.reader().read_to_end(&mut octets)?;
            let shown = self.text_of_file(tables, wish, octets.as_slice())?;
            print!(rt; "{shown}")?;
        }
        Ok(())
    }

    /// Writes what comes at the end; whether all is well.
    fn end(&mut self, rt: &HostRuntime, wish: &Wish<'_>) -> Result<bool> {
        match wish.output {
            Output::Tree | Output::Json | Output::Octets => Ok(self.refused == 0),
            Output::Page => {
                let alloc = self.alloc;
                let written = fs::write(rt, wish.file, self.page.end()?);
                at_file(alloc, "NoPage", wish.file, written)?;
                Ok(true)
            }
            Output::Check => {
                let (messages, whole) = (self.messages, self.whole);
                println!(rt; "{messages} messages, {whole} whole")?;
                Ok(messages == whole)
            }
        }
    }
}

/// Does what the words ask for; whether all is well.
fn run(rt: &HostRuntime, wish: &Wish<'_>) -> Result<bool> {
    let Some(tables) = tables_of(rt, wish)? else {
        return Ok(false);
    };
    let mut done = Done {
        alloc: rt.alloc(),
        colours: if rt.stdout().is_terminal() {
            TERMINAL
        } else {
            PLAIN
        },
        page: Page::new(rt.alloc())?,
        messages: 0,
        whole: 0,
        refused: 0,
    };
    if wish.is_binary {
        done.show_binaries(rt, &tables, wish)?;
    } else {
        done.show_texts(rt, &tables, wish)?;
    }
    done.end(rt, wish)
}

fn main(rt: HostRuntime) -> Result<ExitCode> {
    let mut words = Vec::new(rt.alloc());
    let mut modules = Vec::new(rt.alloc());
    let mut args = env::args(&rt)?;
    let _program = args.next();
    for word in args {
        if is_module(word.as_str()) {
            modules.push(word)?;
        } else {
            words.push(word)?;
        }
    }
    let Some(wish) = wish_of(words.as_slice(), modules.as_slice()) else {
        eprintln!(rt; "{USAGE}")?;
        return Ok(ExitCode::from(2));
    };
    match run(&rt, &wish) {
        Ok(true) => Ok(ExitCode::SUCCESS),
        Ok(false) => Ok(ExitCode::from(1)),
        Err(e) => {
            eprintln!(rt; "oershow: {e}")?;
            Ok(ExitCode::from(1))
        }
    }
}
