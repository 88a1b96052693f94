//! JSON text that is written token by token.

ghost use Rattle.std.specs.Prelude.{◌≡◌, ◌∷◌, ◌++◌, [], IfOk, OnOk};
ghost use Rattle.std.specs.Fmt.{signed_decimal};
ghost use Rattle.json.specs.Token.{begin_object, end_object, begin_array, end_array, key, string, number, boolean, null};
ghost use Rattle.json.specs.Print.{print};

use crate::stop::Stop;
use json::Writer;
use std::alloc::{AllocError, Global};
use std::marker::Model;

/// A JSON text without blanks. It is seen as its tokens, and places commas and colons by itself.
#[derive(Drop)]
pub struct Text {
    alloc: Global,
    writer: Writer,
}

impl Model for Text {
    ghost use Rattle.std.specs.Prelude.{◌≡◌, [], List};
    ghost use Rattle.json.specs.Token.{Token, tokens_code};

    ghost Value = { List Token };

    ghost coded = { tokens_code };

    ghost view = { λ text. text.writer.tokens };

    ghost invariant = { λ text. text.writer.before ≡ [] };
}

impl Text {
    /// No text, with room for so many bytes.
    pub fn new(alloc: Global, room: usize) -> Result<Text, Stop>
        ensures { IfOk result (λ text. text ≡ []) }
    {
        let bytes = Vec::with_capacity(alloc, room)?;
        Ok(Text {
            alloc,
            writer: Writer::new(bytes),
        })
    }

    /// What texts beside it are made with.
    pub fn alloc(&self) -> Global {
        self.alloc
    }

    /// The bytes of the text.
    pub fn into_bytes(self) -> Vec<u8>
        ensures { result.items ≡ print self }
    {
        self.writer.into_inner()
    }

    pub fn begin_object(&mut self) -> Result<(), Stop>
        ensures { OnOk result (self.new ≡ self.old ++ begin_object ∷ []) }
    {
        Ok(self.writer.begin_object()?)
    }

    pub fn end_object(&mut self) -> Result<(), Stop>
        ensures { OnOk result (self.new ≡ self.old ++ end_object ∷ []) }
    {
        Ok(self.writer.end_object()?)
    }

    pub fn begin_array(&mut self) -> Result<(), Stop>
        ensures { OnOk result (self.new ≡ self.old ++ begin_array ∷ []) }
    {
        Ok(self.writer.begin_array()?)
    }

    pub fn end_array(&mut self) -> Result<(), Stop>
        ensures { OnOk result (self.new ≡ self.old ++ end_array ∷ []) }
    {
        Ok(self.writer.end_array()?)
    }

    /// The name of a member.
    pub fn key(&mut self, name: &str) -> Result<(), Stop>
        ensures { OnOk result (self.new ≡ self.old ++ key name.now ∷ []) }
    {
        Ok(self.writer.key(name)?)
    }

    pub fn string(&mut self, text: &str) -> Result<(), Stop>
        ensures { OnOk result (self.new ≡ self.old ++ string text.now ∷ []) }
    {
        Ok(self.writer.string(text)?)
    }

    pub fn integer(&mut self, value: i64) -> Result<(), Stop>
        ensures { OnOk result (self.new ≡ self.old ++ number (signed_decimal value) ∷ []) }
    {
        Ok(self.writer.i64(value)?)
    }

    pub fn boolean(&mut self, flag: bool) -> Result<(), Stop>
        ensures { OnOk result (self.new ≡ self.old ++ boolean flag ∷ []) }
    {
        Ok(self.writer.boolean(flag)?)
    }

    pub fn null(&mut self) -> Result<(), Stop>
        ensures { OnOk result (self.new ≡ self.old ++ null ∷ []) }
    {
        Ok(self.writer.null()?)
    }
}
