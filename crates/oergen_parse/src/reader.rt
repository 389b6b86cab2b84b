//! A reader over the tokens of files.

use crate::lexer::{Kind, Token, TokenId};
use crate::refusal::Refusal;
use std::alloc::Global;

/// The tokens of files, each with its end, and how many of them have been taken; a file's end is taken by `next` alone.
#[derive(Clone, Copy)]
pub struct Reader<'a> {
    pub alloc: Global,
    tokens: &'a [Token<'a>],
    taken: usize,
    end: Token<'a>,
}

impl<'a> Reader<'a> {
    /// A reader over tokens; `end` stands for the end of the file.
    pub fn new(alloc: Global, tokens: &'a [Token<'a>], end: Token<'a>) -> Reader<'a> {
        Reader {
            alloc,
            tokens,
            taken: 0,
            end,
        }
    }

    /// It at another token.
    pub fn at(&self, id: TokenId) -> Reader<'a> {
        Reader {
            taken: id.index.min(self.tokens.len()),
            ..*self
        }
    }

    /// How many tokens are left.
    pub fn left(&self) -> usize {
        self.tokens.len().saturating_sub(self.taken)
    }

    /// All tokens.
    pub fn tokens(&self) -> &'a [Token<'a>] {
        self.tokens
    }

    /// The text of a token by its number.
    pub fn text(&self, id: TokenId) -> &'a str {
        match self.tokens.get(id.index) {
            Some(token) => token.text,
            None => "",
        }
    }

    /// The tokens that are left.
    pub fn rest(&self) -> &'a [Token<'a>] {
        self.tokens.get(self.taken..).unwrap_or(&[])
    }

    /// Takes so many tokens, as far as they are left.
    pub fn skip(&mut self, count: usize) {
        self.taken = self.taken.saturating_add(count).min(self.tokens.len());
    }

    /// The number of the next token.
    pub fn id(&self) -> TokenId {
        TokenId { index: self.taken }
    }

    /// The next token; the end, where none is left.
    pub fn peek(&self) -> Token<'a> {
        self.tokens.get(self.taken).copied().unwrap_or(self.end)
    }

    /// The token behind the next one.
    pub fn second(&self) -> Token<'a> {
        let second = self.taken.saturating_add(1);
        self.tokens.get(second).copied().unwrap_or(self.end)
    }

    /// Takes the next token, where one is left, and answers its number.
    pub fn next(&mut self) -> TokenId {
        let id = self.id();
        if self.left() != 0 {
            self.taken = self.taken.saturating_add(1);
        }
        id
    }

    /// Whether the next token is this one.
    pub fn is(&self, text: &str) -> bool {
        self.peek().text == text
    }

    /// Takes the next token where it is this one.
    pub fn eats(&mut self, text: &str) -> bool {
        let is = self.is(text);
        if is {
            let _ = self.next();
        }
        is
    }

    /// Takes the next token, which has to be this one.
    pub fn expects(&mut self, text: &str) -> Result<(), Refusal> {
        if self.eats(text) {
            return Ok(());
        }
        let reads = format!(in self.alloc; "'{text}'")?;
        Err(self.refused(reads.as_str()))
    }

    /// Takes the next token, which has to be of that kind; `reads` says what it is.
    pub fn takes(&mut self, kind: Kind, reads: &str) -> Result<TokenId, Refusal> {
        if self.peek().kind == kind {
            Ok(self.next())
        } else {
            Err(self.refused(reads))
        }
    }

    /// The refusal of the next token, where `reads` can be read.
    pub fn refused(&self, reads: &str) -> Refusal {
        Refusal::of(self.alloc, self.peek(), reads)
    }

    /// Passes over what stands between brackets, which begin with the next token.
    pub fn skip_brackets(&mut self) -> Result<(), Refusal> {
        let _ = self.next();
        self.skip_to_close()?;
        let _ = self.next();
        Ok(())
    }

    /// Passes over all up to the closing bracket of what has been opened, which is left.
    pub fn skip_to_close(&mut self) -> Result<(), Refusal> {
        let mut depth = 0usize;
        for _ in 0..self.left() {
            let next = self.peek();
            if next.kind == Kind::End {
                break;
            }
            match next.text {
                "{" | "(" | "[" | "[[" => depth = depth.saturating_add(1),
                "}" | ")" | "]" | "]]" => {
                    if depth == 0 {
                        return Ok(());
                    }
                    depth = depth.saturating_sub(1);
                }
                _ => {}
            }
            let _ = self.next();
        }
        Err(self.refused("a closing bracket"))
    }
}
