//! Macros and their replacement.

ghost use Rattle.std.specs.Prelude.{◌≡◌, ◌↔◌, ◌≤◌, ◌<◌, ◌^◌, ◌+◌, ◌++◌, ◌∷◌, [], length, map, ℕ, List, reverse, IfOk, IfErr, OnOk, IsTrue, MatchOption, slice_set, slice_range, false, drop};
ghost use Rattle.xc_lex.specs.Macros.{bytes_of, replaced};
ghost use Rattle.xc_lex.specs.Numbering.{number_in};
ghost use Rattle.xc_lex.specs.State.{all_of, visible, index_of, AreApart, AreNumbered, tokens_of, is_set, is_in, shut, unmade, made_of, is_made, is_fixed, NamesNone, Names, Replaced, MadeFits, IsKept, moved, now_replaced, Passes};
ghost use Rattle.xc_lex.specs.InnerState.{IsSettled, AllSettled, NextOf, Entered, IsMadeBy, AreSpans, pending, unwound, AreWithin, now_cost, frames_cost, TurnFits};

use crate::numbers::Numbers;
use crate::stop::Stop;
use crate::token::{Token, TokenKind};
use std::alloc::{AllocError, AllocFailed, Global};
use xc_text_place::Span;

/// How many tokens a text may have once its macros are replaced.
pub const LIMIT: usize = 1 << 20;

/// A macro: its name and its tokens.
#[derive(Drop)]
pub struct Macro {
    pub name: Span,
    pub body: Vec<Token>,
}

/// A range of a text's tokens: what a macro stands for, as long as there are no more macros than
/// there were (0: it is not known). It is so where no macro is being replaced, and perhaps anywhere.
#[derive(Clone, Copy)]
pub struct Made {
    pub from: usize,
    pub to: usize,
    pub macros: usize,
    pub anywhere: bool,
}

/// The macros so far, which of them are being replaced, and where what they stand for was made.
#[derive(Drop)]
pub struct Macros {
    pub entries: Vec<Macro>,
    pub numbers: Numbers,
    pub opened: Vec<bool>,
    pub made: Vec<Made>,
}

/// A macro that is being replaced, the next of its tokens, and how many tokens the text had before.
#[derive(Clone, Copy)]
pub struct Frame {
    pub number: usize,
    pub next: usize,
    pub from: usize,
}

/// What becomes of a token: it is kept, or stands for what a macro made, or for the tokens of one.
#[derive(Clone, Copy)]
pub enum Turn {
    Keep,
    Copy(usize),
    Enter(usize),
}

/// The number of the macro of this name, or how many macros there are.
fn index_of(entries: &[Macro], source: &[u8], name: &[u8]) -> usize
    ensures value { result ≡ index_of source.now entries.now name.now }
    ensures within { result ≤ length entries.now }
{
    for (i, m) in entries.iter().enumerate() {
        if m.name.of(source) == name {
            return i;
        }
    }
    entries.len()
}

/// Adds the tokens of a range once more, at another place.
fn copy(made: Made, at: Span, tokens: &mut Vec<Token>) -> Result<(), Stop>
    requires ordered { made.from ≤ made.to }
    requires within { made.to ≤ length tokens.old.items }
    requires few { length tokens.old.items ≤ 2 ^ 20 }
    ensures ok { IfOk result (λ _. tokens.new.items ≡ tokens.old.items ++ map (moved at) (slice_range tokens.old.items made.from made.to)) }
    ensures few { IfOk result (λ _. length tokens.new.items ≤ 2 ^ 20) }
    ensures err { IfErr result (λ e. Passes at tokens.old.items (map (moved at) (slice_range tokens.old.items made.from made.to)) e) }
{
    if made.to - made.from > LIMIT - tokens.len() {
        return Err(Stop::At(at.start as usize));
    }
    for i in made.from..made.to {
        let token = tokens[i];
        tokens.push(Token { at, ..token })?;
    }
    Ok(())
}

impl Macros {
    /// No macros.
    pub fn new(alloc: Global) -> Macros
        ensures entries { result.entries.items ≡ [] }
        ensures opened { result.opened.items ≡ [] }
        ensures made { result.made.items ≡ [] }
    {
        Macros {
            entries: Vec::new(alloc),
            numbers: Numbers::new(alloc),
            opened: Vec::new(alloc),
            made: Vec::new(alloc),
        }
    }

    /// The number of the macro of a name, or how many macros there are.
    fn find(&self, source: &[u8], name: &[u8]) -> usize
        requires apart { AreApart source.now self.now.entries.items }
        requires numbered { AreNumbered source.now self.now.entries.items (number_in self.now.numbers) }
        ensures value { result ≡ index_of source.now self.now.entries.items name.now }
        ensures within { result ≤ length self.now.entries.items }
    {
        match self.numbers.get(name) {
            None => self.entries.len(),
            Some(number) => {
                if number < self.entries.len() {
                    let entry = &self.entries[number];
                    if entry.name.of(source) == name {
                        return number;
                    }
                }
                index_of(&self.entries, source, name)
            }
        }
    }

    /// Whether no macro has the name.
    pub fn is_new(&self, source: &[u8], name: &[u8]) -> bool
        requires apart { AreApart source.now self.now.entries.items }
        requires numbered { AreNumbered source.now self.now.entries.items (number_in self.now.numbers) }
        ensures { IsTrue result ↔ (index_of source.now self.now.entries.items name.now ≡ length self.now.entries.items) }
    {
        self.find(source, name) == self.entries.len()
    }

    /// Adds a macro.
    pub fn define(
        &mut self,
        alloc: Global,
        source: &[u8],
        name: Span,
        body: Vec<Token>,
    ) -> Result<(), Stop>
        requires { AreNumbered source.now self.old.entries.items (number_in self.old.numbers) }
        ensures entries { IfOk result (λ _. self.new.entries.items ≡ self.old.entries.items ++ record { name = name; body = body } ∷ []) }
        ensures numbered { IfOk result (λ _. AreNumbered source.now self.new.entries.items (number_in self.new.numbers)) }
        ensures opened { IfOk result (λ _. self.new.opened.items ≡ self.old.opened.items ++ false ∷ []) }
        ensures made { IfOk result (λ _. self.new.made.items ≡ self.old.made.items ++ unmade ∷ []) }
        ensures err { IfErr result (λ e. e ≡ Stop.NoMemory) }
    {
        self.numbers
            .insert(alloc, name.of(source), self.entries.len())?;
        self.entries.push(Macro { name, body })?;
        self.opened.push(false)?;
        self.made.push(Made {
            from: 0,
            to: 0,
            macros: 0,
            anywhere: false,
        })?;
        Ok(())
    }

    /// The number of the macro that a token names.
    fn number_of(&self, source: &[u8], word: Token) -> Option<usize>
        requires apart { AreApart source.now self.now.entries.items }
        requires numbered { AreNumbered source.now self.now.entries.items (number_in self.now.numbers) }
        ensures { MatchOption result (NamesNone source.now self.now.entries.items word) (λ i. Names source.now self.now.entries.items word i) }
    {
        if word.kind != TokenKind::Name {
            return None;
        }
        let i = self.find(source, word.text.of(source));
        if i < self.entries.len() {
            Some(i)
        } else {
            None
        }
    }

    /// Where the tokens were made that a macro stands for.
    fn made_of(&self, number: usize) -> Made
        requires { number < length self.now.made.items }
        ensures { result ≡ made_of self.now.made.items number }
    {
        self.made[number]
    }

    /// Whether what a macro stands for was made, behind the last `define`.
    fn is_made(&self, number: usize) -> bool
        requires { number < length self.now.made.items }
        ensures { result ≡ is_made self.now.entries.items self.now.made.items number }
    {
        self.made_of(number).macros == self.entries.len()
    }

    /// Whether it was, and is the same wherever the macro is met.
    fn is_fixed(&self, number: usize) -> bool
        requires { number < length self.now.made.items }
        ensures { result ≡ is_fixed self.now.entries.items self.now.made.items number }
    {
        self.is_made(number) && self.made_of(number).anywhere
    }

    /// What becomes of a token, of a macro or of the text itself.
    fn turn(&self, source: &[u8], word: Token, in_text: bool) -> Turn
        requires kept { IsKept source.now self.now.entries.items self.now.opened.items self.now.made.items }
        requires numbered { AreNumbered source.now self.now.entries.items (number_in self.now.numbers) }
        requires shut { IsTrue in_text → self.now.opened.items ≡ shut self.now.entries.items }
        ensures { TurnFits source.now self.now.entries.items self.now.opened.items self.now.made.items word result }
    {
        match self.number_of(source, word) {
            None => Turn::Keep,
            Some(i) => {
                if self.opened[i] {
                    Turn::Keep
                } else if self.is_fixed(i) || (in_text && self.is_made(i)) {
                    Turn::Copy(i)
                } else {
                    Turn::Enter(i)
                }
            }
        }
    }

    /// Whether a token is the name of no macro, or of one that stands for the same anywhere.
    #[tactic(auto, unfolding(crate::specs::InnerState::IsSettled))]
    fn is_settled(&self, source: &[u8], word: Token) -> bool
        requires kept { IsKept source.now self.now.entries.items self.now.opened.items self.now.made.items }
        requires numbered { AreNumbered source.now self.now.entries.items (number_in self.now.numbers) }
        ensures { IsTrue result → IsSettled source.now self.now.entries.items self.now.made.items word }
    {
        match self.number_of(source, word) {
            None => true,
            Some(i) => self.is_fixed(i),
        }
    }

    /// Whether each token of a macro is.
    fn is_settled_body(&self, source: &[u8], number: usize) -> bool
        requires kept { IsKept source.now self.now.entries.items self.now.opened.items self.now.made.items }
        requires numbered { AreNumbered source.now self.now.entries.items (number_in self.now.numbers) }
        requires within { number < length self.now.entries.items }
        ensures { IsTrue result → AllSettled source.now self.now.entries.items self.now.made.items (tokens_of self.now.entries.items number) }
    {
        for word in self.body(number) {
            if !self.is_settled(source, *word) {
                return false;
            }
        }
        true
    }

    /// Adds what a token stands for to the tokens, or a frame that gives it.
    fn enter(
        &mut self,
        source: &[u8],
        word: Token,
        at: Span,
        stack: &mut Vec<Frame>,
        tokens: &mut Vec<Token>,
    ) -> Result<(), Stop>
        requires kept { IsKept source.now self.old.entries.items self.old.opened.items self.old.made.items }
        requires numbered { AreNumbered source.now self.old.entries.items (number_in self.old.numbers) }
        requires fits { MadeFits source.now self.old.entries.items self.old.opened.items self.old.made.items tokens.old.items }
        requires few { length tokens.old.items ≤ 2 ^ 20 }
        requires shut { stack.old.items ≡ [] → self.old.opened.items ≡ shut self.old.entries.items }
        ensures entries { self.new.entries.items ≡ self.old.entries.items }
        ensures numbers { self.new.numbers ≡ self.old.numbers }
        ensures ok { IfOk result (λ _. Entered source.now at self.old.entries.items self.old.opened.items (reverse stack.old.items) tokens.old.items word self.new.opened.items self.new.made.items (reverse stack.new.items) tokens.new.items) }
        ensures err { IfErr result (λ e. Passes at tokens.old.items (now_replaced source.now at self.old.entries.items self.old.opened.items word) e) }
    {
        match self.turn(source, word, stack.is_empty()) {
            Turn::Keep => {
                if tokens.len() >= LIMIT {
                    return Err(Stop::At(at.start as usize));
                }
                tokens.push(Token { at, ..word })?;
            }
            Turn::Copy(number) => copy(self.made_of(number), at, tokens)?,
            Turn::Enter(number) => {
                let from = tokens.len();
                stack.push(Frame {
                    number,
                    next: 0,
                    from,
                })?;
                self.opened[number] = true;
            }
        }
        Ok(())
    }

    /// Ends the replacement of a macro, and notes where what it stands for was made, if that is so
    /// wherever it is met, or if it stands in the text itself.
    fn leave(&mut self, source: &[u8], frame: Frame, in_text: bool, tokens: &[Token])
        requires kept { IsKept source.now self.old.entries.items self.old.opened.items self.old.made.items }
        requires numbered { AreNumbered source.now self.old.entries.items (number_in self.old.numbers) }
        requires fits { MadeFits source.now self.old.entries.items self.old.opened.items self.old.made.items tokens.now }
        requires within { frame.number < length self.old.entries.items }
        requires made { IsMadeBy source.now self.old.entries.items self.old.opened.items tokens.now frame }
        requires shut { IsTrue in_text → slice_set self.old.opened.items frame.number false ≡ shut self.old.entries.items }
        ensures entries { self.new.entries.items ≡ self.old.entries.items }
        ensures numbers { self.new.numbers ≡ self.old.numbers }
        ensures opened { self.new.opened.items ≡ slice_set self.old.opened.items frame.number false }
        ensures kept { IsKept source.now self.old.entries.items self.new.opened.items self.new.made.items }
        ensures fits { MadeFits source.now self.old.entries.items self.new.opened.items self.new.made.items tokens.now }
    {
        let number = frame.number;
        self.opened[number] = false;
        if !self.is_made(number) {
            let anywhere = self.is_settled_body(source, number);
            if anywhere || in_text {
                self.made[number] = Made {
                    from: frame.from,
                    to: tokens.len(),
                    macros: self.entries.len(),
                    anywhere,
                };
            }
        }
    }

    /// The tokens of a macro.
    fn body(&self, number: usize) -> &[Token]
        requires { number < length self.now.entries.items }
        ensures { result.now ≡ tokens_of self.now.entries.items number }
    {
        let entry = &self.entries[number];
        &entry.body
    }

    /// The next token of a frame, and the frame behind it.
    fn next_of(&self, frame: Frame) -> Option<(Token, Frame)>
        requires { frame.number < length self.now.entries.items }
        ensures { MatchOption result (drop frame.next (tokens_of self.now.entries.items frame.number) ≡ []) (λ r. NextOf self.now.entries.items frame r.0 r.1) }
    {
        let body = self.body(frame.number);
        if frame.next < body.len() {
            let next = frame.next + 1;
            Some((body[frame.next], Frame { next, ..frame }))
        } else {
            None
        }
    }

    /// Adds to the tokens what a token of the text stands for.
    pub fn replace(
        &mut self,
        alloc: Global,
        source: &[u8],
        word: Token,
        tokens: &mut Vec<Token>,
    ) -> Result<(), Stop>
        requires kept { IsKept source.now self.old.entries.items self.old.opened.items self.old.made.items }
        requires numbered { AreNumbered source.now self.old.entries.items (number_in self.old.numbers) }
        requires fits { MadeFits source.now self.old.entries.items self.old.opened.items self.old.made.items tokens.old.items }
        requires few { length tokens.old.items ≤ 2 ^ 20 }
        requires shut { self.old.opened.items ≡ shut self.old.entries.items }
        ensures entries { self.new.entries.items ≡ self.old.entries.items }
        ensures numbers { self.new.numbers ≡ self.old.numbers }
        ensures ok { IfOk result (λ _. Replaced source.now self.old.entries.items self.old.opened.items tokens.old.items word self.new.opened.items self.new.made.items tokens.new.items) }
        ensures err { IfErr result (λ e. Passes word.at tokens.old.items (now_replaced source.now word.at self.old.entries.items self.old.opened.items word) e) }
    {
        let mut stack = Vec::new(alloc);
        self.enter(source, word, word.at, &mut stack, tokens)?;
        'frames: while let Some(frame) = stack.pop() {
            match self.next_of(frame) {
                None => self.leave(source, frame, stack.is_empty(), tokens),
                Some((inner, next)) => {
                    stack.push(next)?;
                    self.enter(source, inner, word.at, &mut stack, tokens)?;
                }
            }
        }
        Ok(())
    }
}
