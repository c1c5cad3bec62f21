//! A text that grows by pieces, each set as the layout wants it.
ghost use Rattle.std.specs.Prelude.{◌≡◌, ◌++◌, [], true, false, OnOk};
ghost use Rattle.c_tree.specs.CTokens.{Include};
ghost use Rattle.c_tree.specs.Layout.{Written, put, put_all, gap, Close, Spaced, Ending};
ghost use Rattle.c_tree.specs.Spelling as spec;

use crate::sign::Sign;
use crate::tree::CNum;
use crate::word::{elem_name, suffix};
use itoa::Buffer;
use plc_base::{Elem, Name, OutOfMemory};
use std::alloc::Global;
use std::marker::Model;

/// A text, and whether a letter, a digit or `_` stands last in it.
#[derive(Drop)]
pub struct Printer {
    text: Vec<u8>,
    wordy: bool,
}

impl Model for Printer {
    ghost use Rattle.c_tree.specs.Layout.{Written};

    ghost Value = { Written };

    ghost view = { λ p. record { text = p.text.items; wordy = p.wordy } };
}

impl Printer {
    /// An empty text.
    pub fn new(alloc: Global) -> Printer
        ensures { result ≡ record { text = []; wordy = false } }
    {
        Printer {
            text: Vec::new(alloc),
            wordy: false,
        }
    }

    /// The text.
    pub fn into_text(self) -> Vec<u8>
        ensures { result.items ≡ self.text }
    {
        self.text
    }

    // The first letters or digits of a piece, with a space before them where others stand there.
    fn letters(&mut self, bytes: &[u8]) -> Result<(), OutOfMemory>
        ensures { OnOk result (self.new ≡ record { text = self.old.text ++ (gap self.old.wordy true ++ bytes.now); wordy = true }) }
    {
        if self.wordy {
            self.text.push(b' ')?;
        }
        self.text.extend_from_slice(bytes)?;
        self.wordy = true;
        Ok(())
    }

    /// A word: a name, a type, a form or a word of the language.
    #[tactic(auto, unfolding(crate::specs::Layout::put))]
    pub fn word(&mut self, bytes: &[u8]) -> Result<(), OutOfMemory>
        ensures { OnOk result (self.new ≡ put self.old (spec.word bytes.now)) }
    {
        self.letters(bytes)
    }

    /// A declared name.
    pub fn name(&mut self, name: &Name) -> Result<(), OutOfMemory>
        ensures { OnOk result (self.new ≡ put self.old (spec.word name.now)) }
    {
        self.word(name.bytes())
    }

    /// A number with its suffix.
    #[tactic(auto, unfolding(crate::specs::Layout::put))]
    pub fn number(&mut self, value: u64, kind: CNum) -> Result<(), OutOfMemory>
        ensures { OnOk result (self.new ≡ put self.old (spec.number value kind)) }
    {
        let mut buffer = Buffer::new();
        self.letters(buffer.format(value).as_bytes())?;
        self.text.extend_from_slice(suffix(kind))?;
        Ok(())
    }

    /// A sign, close to its neighbours.
    #[tactic(auto, unfolding(crate::specs::Layout::put))]
    pub fn mark(&mut self, sign: Sign) -> Result<(), OutOfMemory>
        ensures { OnOk result (self.new ≡ put self.old (spec.mark sign)) }
    {
        self.text.extend_from_slice(sign.text())?;
        self.wordy = false;
        Ok(())
    }

    /// A sign between two spaces.
    #[tactic(auto, unfolding(crate::specs::Layout::put))]
    pub fn spaced(&mut self, sign: Sign) -> Result<(), OutOfMemory>
        ensures { OnOk result (self.new ≡ put self.old (Spaced sign)) }
    {
        self.text.push(b' ')?;
        self.text.extend_from_slice(sign.text())?;
        self.text.push(b' ')?;
        self.wordy = false;
        Ok(())
    }

    /// A sign at the end of a line.
    #[tactic(auto, unfolding(crate::specs::Layout::put))]
    pub fn ending(&mut self, sign: Sign) -> Result<(), OutOfMemory>
        ensures { OnOk result (self.new ≡ put self.old (Ending sign)) }
    {
        self.text.extend_from_slice(sign.text())?;
        self.text.push(b'\n')?;
        self.wordy = false;
        Ok(())
    }

    /// The line of the library.
    #[tactic(auto, unfolding(crate::specs::Layout::put))]
    pub fn include(&mut self) -> Result<(), OutOfMemory>
        ensures { OnOk result (self.new ≡ put self.old (Close Include)) }
    {
        self.text
            .extend_from_slice(b"#include \"iec_std_lib.h\"\n")?;
        self.wordy = false;
        Ok(())
    }

    /// An elementary type.
    pub fn elem(&mut self, elem: Elem) -> Result<(), OutOfMemory>
        ensures { OnOk result (self.new ≡ put self.old (spec.word (spec.elem_name elem))) }
    {
        self.word(elem_name(elem))
    }

    /// A word and the parenthesis behind it.
    #[tactic(auto, using(crate::proofs::GrowingText::pieces))]
    pub fn form(&mut self, form: &[u8]) -> Result<(), OutOfMemory>
        ensures { OnOk result (self.new ≡ put_all self.old (spec.form_pieces form.now)) }
    {
        self.word(form)?;
        self.mark(Sign::OpenParen)?;
        Ok(())
    }

    /// A close parenthesis, and the semicolon that ends a statement.
    #[tactic(auto, using(crate::proofs::GrowingText::pieces))]
    pub fn end_of_call(&mut self) -> Result<(), OutOfMemory>
        ensures { OnOk result (self.new ≡ put_all self.old spec.call_end) }
    {
        self.mark(Sign::CloseParen)?;
        self.ending(Sign::Semicolon)?;
        Ok(())
    }
}
