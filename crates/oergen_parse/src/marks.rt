//! Puts in the extension marks that the head of a module implies (X.680, 13.4): where the types are written, so that what stands for
//! them elsewhere has them too.

use crate::lexer::{Kind, Token};
use std::alloc::{AllocError, Global};

/// A bracket that is open.
#[derive(Clone, Copy, PartialEq, Eq)]
enum Bracket {
    /// That of a type that may have an extension mark, and has none so far.
    Unmarked,
    Other,
}

/// The tokens so far, the brackets that are open behind them, and whether marks are implied there.
#[derive(Drop)]
struct Walk<'a> {
    out: Vec<Token<'a>>,
    open: Vec<Bracket>,
    is_implied: bool,
}

impl<'a> Walk<'a> {
    /// The bracket that a token opens.
    fn bracket(&self, token: Token<'a>) -> Bracket {
        let before = match self.out.last() {
            Some(before) => before.text,
            None => "",
        };
        let is_type = matches!(before, "SEQUENCE" | "SET" | "CHOICE" | "ENUMERATED");
        if self.is_implied && is_type && token.text == "{" {
            Bracket::Unmarked
        } else {
            Bracket::Other
        }
    }

    /// The innermost bracket has a mark.
    fn mark(&mut self) -> Result<(), AllocError> {
        if self.open.pop().is_some() {
            self.open.push(Bracket::Other)?;
        }
        Ok(())
    }

    /// Puts a mark behind what stands in front of a token that closes a type.
    fn push_mark(&mut self, closes: Token<'a>) -> Result<(), AllocError> {
        let is_empty = match self.out.last() {
            Some(before) => before.text == "{",
            None => false,
        };
        let sign = Token {
            kind: Kind::Sign,
            note: "",
            ..closes
        };
        if !is_empty {
            self.out.push(Token { text: ",", ..sign })?;
        }
        self.out.push(Token {
            text: "...",
            ..sign
        })?;
        Ok(())
    }

    /// Takes one more token.
    fn take(&mut self, token: Token<'a>) -> Result<(), AllocError> {
        match token.text {
            "DEFINITIONS" => self.is_implied = false,
            "EXTENSIBILITY" => self.is_implied = true,
            "..." => self.mark()?,
            "{" | "(" | "[" | "[[" => {
                let bracket = self.bracket(token);
                self.open.push(bracket)?;
            }
            "}" | ")" | "]" | "]]" => {
                if self.open.pop() == Some(Bracket::Unmarked) {
                    self.push_mark(token)?;
                }
            }
            _ => {}
        }
        self.out.push(token)?;
        Ok(())
    }
}

/// A file's tokens, with a mark at the end of each type that may have one and has none, in each module whose head implies it.
pub fn with_marks<'a>(alloc: Global, tokens: &[Token<'a>]) -> Result<Vec<Token<'a>>, AllocError> {
    let mut walk = Walk {
        out: Vec::new(alloc),
        open: Vec::new(alloc),
        is_implied: false,
    };
    for token in tokens.iter() {
        walk.take(*token)?;
    }
    Ok(walk.out)
}
