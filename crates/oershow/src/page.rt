//! One page of HTML that shows messages: octets on the left, their parts on the right. It needs no server and no network.

use crate::messages::Message;
use crate::values::push_quoted;
use anyhow::Result;
use std::alloc::Global;

/// What stands in front of the messages, which are JSON.
const HEAD: &str = r##"<!doctype html>
<html lang="en">
<head>
<meta charset="utf-8">
<meta name="viewport" content="width=device-width, initial-scale=1">
<title>oershow</title>
<style>
:root { color-scheme: light dark; --line: #8884; --mark: #ffd54f; --mark-text: #000; --head: #ff9800; --refused: #d32f2f; --soft: #777; }
body { font: 14px/1.5 system-ui, sans-serif; margin: 0 auto; max-width: 90rem; padding: 0 1rem 2rem; }
h1 { font-size: 1.1rem; margin: 1.2rem 0 .4rem; }
section { border-top: 1px solid var(--line); }
.columns { display: grid; grid-template-columns: max-content minmax(0, 1fr); gap: 2rem; align-items: start; }
.octets { font: 13px/1.6 ui-monospace, monospace; position: sticky; top: .5rem; max-height: 95vh; overflow-y: auto; }
.row { white-space: nowrap; }
.at { color: var(--soft); display: inline-block; min-width: 4rem; }
.octet { cursor: pointer; padding: .1rem .25rem; border-radius: .2rem; }
.octet.on { background: var(--mark); color: var(--mark-text); }
.octet.on.front { background: var(--head); }
.octet.refused { outline: 2px solid var(--refused); }
.part { cursor: pointer; padding: .05rem .4rem; border-radius: .2rem; border-left: 1px solid var(--line); overflow-wrap: anywhere; }
.part.on { background: var(--mark); color: var(--mark-text); }
.part.cut .name { color: var(--refused); font-weight: bold; }
.part.on.cut .name { color: inherit; }
.name { font-weight: 600; }
.type { color: var(--soft); margin: 0 .6rem; }
.on .type { color: inherit; }
.value { font-family: ui-monospace, monospace; }
.end.refused { color: var(--refused); font-weight: bold; }
.hint { color: var(--soft); }
@media (max-width: 60rem) { .columns { grid-template-columns: minmax(0, 1fr); } .octets { position: static; overflow-x: auto; } }
</style>
</head>
<body>
<p class="hint">Point at a part or at an octet to see the other; a click keeps the mark. What stands in front of a part's content, such as a length, is marked darker.</p>
<main></main>
<script id="messages" type="application/json">["##;

/// What stands behind them.
const TAIL: &str = r##"]</script>
<script>
"use strict";
// A part is [name, type, level, start, content, end or null, value].
const NAME = 0, TYPE = 1, LEVEL = 2, START = 3, CONTENT = 4, END = 5, VALUE = 6;
const ROW = 16;

function made(tag, name, text, parent) {
  const it = document.createElement(tag);
  it.className = name;
  it.textContent = text;
  parent.append(it);
  return it;
}

// The octets of a part; of one that isn't whole those from its first on.
function covers(part, at, count) {
  return at >= part[START] && at < (part[END] === null ? count : part[END]);
}

// The part with no part inside that has the octet: the last of those that have it.
function innermost(parts, at, count) {
  let found = -1;
  parts.forEach((part, number) => { if (covers(part, at, count)) found = number; });
  return found;
}

function show(message) {
  const section = made("section", "message", "", document.querySelector("main"));
  made("h1", "", message.type, section);
  const columns = made("div", "columns", "", section);
  const left = made("div", "octets", "", columns), right = made("div", "parts", "", columns);
  const octets = [], lines = [], count = message.octets.length / 2;
  let kept = -1;

  function mark(number) {
    const part = message.parts[number];
    octets.forEach((it, at) => {
      const on = part !== undefined && at < count && covers(part, at, count);
      it.classList.toggle("on", on);
      it.classList.toggle("front", on && at < part[CONTENT]);
    });
    lines.forEach((it, at) => it.classList.toggle("on", at === number));
  }
  function keep(number) {
    kept = kept === number ? -1 : number;
    mark(kept);
  }
  function listen(it, number) {
    it.addEventListener("mouseenter", () => mark(number()));
    it.addEventListener("mouseleave", () => mark(kept));
    it.addEventListener("click", () => keep(number()));
  }

  // One place more, where a refusal lies behind the last octet.
  const places = message.refused === count ? count + 1 : count;
  for (let at = 0; at < places; at += 1) {
    if (at % ROW === 0) made("span", "at", String(at), made("div", "row", "", left));
    const it = made("span", "octet", at < count ? message.octets.slice(2 * at, 2 * at + 2) : "\u00a0\u00a0", left.lastChild);
    it.classList.toggle("refused", at === message.refused);
    octets.push(it);
    listen(it, () => innermost(message.parts, at, count));
  }
  message.parts.forEach((part, number) => {
    const it = made("div", "part", "", right);
    it.style.marginLeft = `${Math.min(part[LEVEL], 40) * 1.2}rem`;
    it.classList.toggle("cut", part[END] === null);
    it.title = part[END] === null ? `octet ${part[START]}` : `octet ${part[START]}, ${part[END] - part[START]} octets`;
    made("span", "name", part[NAME], it);
    made("span", "type", part[TYPE], it);
    made("span", "value", part[VALUE], it);
    lines.push(it);
    listen(it, () => number);
  });
  made("p", message.refused === null ? "end" : "end refused", message.end, section);
}

JSON.parse(document.getElementById("messages").textContent).forEach(show);
</script>
</body>
</html>
"##;

/// A page, to which messages are put one behind another.
#[derive(Drop)]
pub struct Page {
    alloc: Global,
    text: String,
    count: usize,
}

/// A text as JSON that may stand in a page: no `<` begins a tag in it.
fn push_safe(alloc: Global, out: &mut String, text: &str) -> Result<()> {
    let mut quoted = String::new(alloc);
    push_quoted(alloc, &mut quoted, text)?;
    for character in quoted.as_str().chars() {
        if character == '<' {
            out.push_str("\\u003c")?;
        } else {
            out.push(character)?;
        }
    }
    Ok(())
}

impl Page {
    /// A page without messages.
    pub fn new(alloc: Global) -> Result<Page> {
        Ok(Page {
            alloc,
            text: String::from_str(alloc, HEAD)?,
            count: 0,
        })
    }

    /// Puts a message behind those that are there.
    pub fn push(&mut self, message: &Message<'_>) -> Result<()> {
        if self.count > 0 {
            self.text.push(',')?;
        }
        self.count = self.count.saturating_add(1);
        self.text.push_str("\n{\"type\":")?;
        push_safe(self.alloc, &mut self.text, message.type_name())?;
        self.text.push_str(",\"octets\":\"")?;
        self.text.push_str(message.digits()?.as_str())?;
        self.text.push_str("\",\"refused\":")?;
        self.text.push_str(message.refused_at()?.as_str())?;
        self.text.push_str(",\"end\":")?;
        push_safe(self.alloc, &mut self.text, message.end()?.as_str())?;
        self.text.push_str(",\"parts\":[")?;
        self.push_parts(message)?;
        Ok(self.text.push_str("]}")?)
    }

    fn push_parts(&mut self, message: &Message<'_>) -> Result<()> {
        for at in 0..message.count() {
            let part = message.part(at)?;
            let (level, start, content) = (part.level, part.start, part.content);
            self.text.push_str(if at > 0 { ",\n[" } else { "\n[" })?;
            push_safe(self.alloc, &mut self.text, part.name.as_str())?;
            self.text.push(',')?;
            push_safe(self.alloc, &mut self.text, part.type_name.as_str())?;
            let places = format!(in self.alloc; ",{level},{start},{content},")?;
            self.text.push_str(places.as_str())?;
            self.text.push_str(part.end.as_str())?;
            self.text.push(',')?;
            push_safe(self.alloc, &mut self.text, part.value.as_str())?;
            self.text.push(']')?;
        }
        Ok(())
    }

    /// Ends the page: all of it.
    pub fn end(&mut self) -> Result<&str> {
        self.text.push_str(TAIL)?;
        Ok(self.text.as_str())
    }
}
