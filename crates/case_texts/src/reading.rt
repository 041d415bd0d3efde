//! Reads files of cases, line by line; data/FORM.md has their form.
use crate::block::Block;
use crate::cases::{Case, Named, Part, found, put_named};
use crate::documents::{behind, examples, has};
use crate::escapes::put_unescaped;
use crate::faults::Wrong;
use std::alloc::Global;

/// What the lines of a block state.
#[derive(Drop)]
enum Target {
    Text(String),
    File(String),
    Wanted(Part, bool),
}

/// What was read so far.
#[derive(Drop)]
pub struct Reader {
    alloc: Global,
    /// The texts that were stated, the last one first.
    texts: Vec<Named>,
    /// What each case of the section begins with.
    section: Case,
    /// The case that is stated, or what the cases of the section are to begin with.
    current: Case,
    in_case: bool,
    open: Option<(Target, Block)>,
    cases: Vec<Case>,
}

impl Reader {
    /// Nothing is read.
    pub fn new(alloc: Global) -> Result<Reader, Wrong> {
        Ok(Reader {
            alloc,
            texts: Vec::new(alloc),
            section: Case::of_section(alloc, "")?,
            current: Case::of_section(alloc, "")?,
            in_case: false,
            open: None,
            cases: Vec::new(alloc),
        })
    }

    /// States a text.
    pub fn put_text(&mut self, name: &str, bytes: Vec<u8>) -> Result<(), Wrong> {
        Ok(put_named(self.alloc, &mut self.texts, name, bytes)?)
    }

    /// The cases of a file that was read to its end.
    pub fn finished(&mut self) -> Result<Vec<Case>, Wrong> {
        if self.open.is_some() {
            return Err(Wrong::Said("a block isn't ended by a full stop"));
        }
        self.begin_section("")?;
        Ok(std::mem::replace(&mut self.cases, Vec::new(self.alloc)))
    }

    /// Takes a line.
    pub fn take(&mut self, line: &str) -> Result<(), Wrong> {
        match &mut self.open {
            Some((_, block)) if line != "." => block.take(self.alloc, line),
            Some(_) => self.close(),
            None if line.is_empty() || line.starts_with('*') => Ok(()),
            None => {
                let (word, rest) = line.split_once(' ').unwrap_or((line, ""));
                self.state(word, rest)
            }
        }
    }

    /// Ends a block.
    fn close(&mut self) -> Result<(), Wrong> {
        match self.open.take() {
            Some((target, block)) => self.put(target, block.into_bytes()),
            None => Ok(()),
        }
    }

    /// States the bytes of a block.
    fn put(&mut self, target: Target, bytes: Vec<u8>) -> Result<(), Wrong> {
        match target {
            Target::Text(name) => self.put_text(name.as_str(), bytes),
            Target::File(name) => Ok(self.current.put_file(self.alloc, name.as_str(), bytes)?),
            Target::Wanted(part, is_whole) => Ok(self.current.want(part, is_whole, bytes)?),
        }
    }

    /// Takes a line that begins with this word.
    fn state(&mut self, word: &str, rest: &str) -> Result<(), Wrong> {
        match word {
            "section" => self.begin_section(rest),
            "case" => self.begin_case(rest),
            "why" => Ok(()),
            "text" => self.state_text(rest),
            "causes" => self.state_causes(rest),
            _ => self.state_run(word, rest),
        }
    }

    /// Takes a line that says how a run is begun.
    fn state_run(&mut self, word: &str, rest: &str) -> Result<(), Wrong> {
        match word {
            "words" => self.state_words(rest),
            "files" => self.state_files(rest),
            "file" => self.state_file(rest),
            "change" => self.change(rest),
            "shelf" => self.state_shelf(rest),
            "sink" => self.state_sink(rest),
            _ => self.state_wanted(word, rest),
        }
    }

    /// Takes a line that says what is wanted.
    fn state_wanted(&mut self, word: &str, rest: &str) -> Result<(), Wrong> {
        match word {
            "status" => self.want_line(Part::Status, true, rest),
            "refused" => self.want_refused(rest),
            "output" => self.want(Part::Output, rest),
            "error" => self.want(Part::Error, rest),
            "stated" => self.want(Part::Stated, rest),
            "nodes" => self.want(Part::Nodes, rest),
            "says" => self.says(rest),
            _ => Err(Wrong::Said("no line begins with that word")),
        }
    }

    /// Keeps the case that was stated.
    fn end_case(&mut self) -> Result<(), Wrong> {
        let begun = self.section.clone()?;
        let case = std::mem::replace(&mut self.current, begun);
        if self.in_case {
            self.cases.push(case)?;
        } else {
            self.section = case;
        }
        Ok(())
    }

    fn begin_section(&mut self, title: &str) -> Result<(), Wrong> {
        self.end_case()?;
        self.current = Case::of_section(self.alloc, title)?;
        self.in_case = false;
        Ok(())
    }

    fn begin_case(&mut self, title: &str) -> Result<(), Wrong> {
        self.end_case()?;
        self.current = self.section.titled(self.alloc, title)?;
        self.in_case = true;
        Ok(())
    }

    /// The text with this name.
    fn named(&self, name: &str) -> Result<&[u8], Wrong> {
        match found(&self.texts, name) {
            Some(text) => Ok(text),
            None => Err(Wrong::Said("no text has that name")),
        }
    }

    /// The bytes of the text with this name, or of the block of a document behind some words, `DOCUMENT behind WORDS`.
    fn text_of(&self, place: &str) -> Result<Vec<u8>, Wrong> {
        match place.split_once(" behind ") {
            Some((name, words)) => {
                let mut bytes = Vec::new(self.alloc);
                put_unescaped(&mut bytes, words)?;
                Ok(behind(self.named(name)?, &bytes)?.to_vec(self.alloc)?)
            }
            None => Ok(self.named(place)?.to_vec(self.alloc)?),
        }
    }

    /// Begins a block that states this.
    fn begin(&mut self, target: Target) {
        self.open = Some((target, Block::new(self.alloc)));
    }

    fn state_text(&mut self, rest: &str) -> Result<(), Wrong> {
        match rest.split_once(" from ") {
            Some((name, place)) => {
                let bytes = self.text_of(place)?;
                self.put_text(name, bytes)
            }
            None => {
                let name = String::from_str(self.alloc, rest)?;
                self.begin(Target::Text(name));
                Ok(())
            }
        }
    }

    fn state_file(&mut self, rest: &str) -> Result<(), Wrong> {
        match rest.split_once(" from ") {
            Some((name, place)) => {
                let bytes = self.text_of(place)?;
                Ok(self.current.put_file(self.alloc, name, bytes)?)
            }
            None => {
                let name = String::from_str(self.alloc, rest)?;
                self.begin(Target::File(name));
                Ok(())
            }
        }
    }

    /// States the files of a program: those texts whose names begin with it and a stroke.
    fn state_files(&mut self, program: &str) -> Result<(), Wrong> {
        let mut are_none = true;
        for (text, bytes) in &self.texts {
            if let Some((before, name)) = text.as_str().split_once('/') {
                if before == program {
                    let bytes = bytes.clone()?;
                    self.current.put_file(self.alloc, name, bytes)?;
                    are_none = false;
                }
            }
        }
        if are_none {
            return Err(Wrong::Said("no program has that name"));
        }
        Ok(())
    }

    /// Changes a file of the case, or else a text: `NAME |a piece of it|what stands in its place|`.
    fn change(&mut self, rest: &str) -> Result<(), Wrong> {
        let (name, pieces) = rest.split_once(' ').unwrap_or((rest, ""));
        if found(&self.current.files, name).is_some() {
            let bytes = changed(self.alloc, &self.current.files, name, pieces)?;
            return Ok(self.current.put_file(self.alloc, name, bytes)?);
        }
        let bytes = changed(self.alloc, &self.texts, name, pieces)?;
        self.put_text(name, bytes)
    }

    fn state_words(&mut self, rest: &str) -> Result<(), Wrong> {
        self.current.words = String::from_str(self.alloc, rest)?;
        Ok(())
    }

    fn state_shelf(&mut self, rest: &str) -> Result<(), Wrong> {
        if rest == "gives all" {
            self.current.gives_all = true;
            return Ok(());
        }
        self.current
            .failing_fetches
            .push(number_behind(rest, "fails ")?)?;
        Ok(())
    }

    fn state_sink(&mut self, rest: &str) -> Result<(), Wrong> {
        if rest.starts_with("takes ") {
            self.current.chunk = number_behind(rest, "takes ")?;
            return Ok(());
        }
        self.current
            .failing_puts
            .push(number_behind(rest, "fails ")?)?;
        Ok(())
    }

    /// Wants a line.
    fn want_line(&mut self, part: Part, is_whole: bool, line: &str) -> Result<(), Wrong> {
        let mut block = Block::new(self.alloc);
        block.take(self.alloc, line)?;
        Ok(self.current.want(part, is_whole, block.into_bytes())?)
    }

    /// Wants a refusal: its status and its line.
    fn want_refused(&mut self, rest: &str) -> Result<(), Wrong> {
        self.want_line(Part::Status, true, "3")?;
        let line = format!(in self.alloc; "refused {rest}")?;
        self.want_line(Part::Output, true, line.as_str())
    }

    /// Wants what stands behind the word: a line, the block of a document, or the block that follows; behind `has` these lines alone.
    fn want(&mut self, part: Part, rest: &str) -> Result<(), Wrong> {
        let (is_whole, line) = match rest.split_once(' ') {
            Some(("has", line)) => (false, line),
            _ => (rest != "has", rest),
        };
        if let Some(place) = line.strip_prefix("from ") {
            let bytes = self.text_of(place)?;
            return Ok(self.current.want(part, is_whole, bytes)?);
        }
        if rest.is_empty() || rest == "has" {
            self.begin(Target::Wanted(part, is_whole));
            return Ok(());
        }
        self.want_line(part, is_whole, line)
    }

    /// Looks whether a document has these words: `DOCUMENT WORDS`.
    fn says(&mut self, rest: &str) -> Result<(), Wrong> {
        let (name, words) = rest.split_once(' ').unwrap_or((rest, ""));
        has(self.named(name)?, words)
    }

    /// States a case for each example of a document on causes.
    fn state_causes(&mut self, name: &str) -> Result<(), Wrong> {
        let cases = examples(self.alloc, self.named(name)?, &self.current)?;
        for case in cases {
            self.cases.push(case)?;
        }
        Ok(())
    }
}

/// The number behind a word.
fn number_behind(rest: &str, word: &str) -> Result<u64, Wrong> {
    let number = rest
        .strip_prefix(word)
        .and_then(|digits| digits.parse::<u64>().ok());
    number.ok_or(Wrong::Said("there stands a number"))
}

/// A text with one piece in place of another.
fn changed(alloc: Global, texts: &[Named], name: &str, pieces: &str) -> Result<Vec<u8>, Wrong> {
    let inner = pieces
        .strip_prefix('|')
        .and_then(|rest| rest.strip_suffix('|'));
    let Some((old, new)) = inner.and_then(|rest| rest.split_once('|')) else {
        return Err(Wrong::Said("change NAME |a piece|what stands in its place|"));
    };
    let Some(text) = found(texts, name) else {
        return Err(Wrong::Said("no file and no text has that name"));
    };
    let mut piece = Vec::new(alloc);
    put_unescaped(&mut piece, old)?;
    with_piece(alloc, text, &piece, new)
}

/// A text in which what `new` stands for is in the first place of a piece.
fn with_piece(alloc: Global, text: &[u8], piece: &[u8], new: &str) -> Result<Vec<u8>, Wrong> {
    let (Ok(text), Ok(piece)) = (str::from_utf8(text), str::from_utf8(piece)) else {
        return Err(Wrong::Said("only UTF-8 can be changed"));
    };
    let Some((before, rest)) = text.split_once(piece) else {
        return Err(Wrong::Said("the text hasn't that piece"));
    };
    let mut bytes = before.as_bytes().to_vec(alloc)?;
    put_unescaped(&mut bytes, new)?;
    bytes.extend_from_slice(rest.as_bytes())?;
    Ok(bytes)
}
