//! Compact texts that are written piece by piece, so that no value of what is written is held.
ghost use Rattle.std.specs.Prelude.{◌≡◌, ◌++◌, ◌∷◌, [], List, Some, OnOk, IsUtf8};
ghost use Rattle.std.specs.List.{flat_map};
ghost use Rattle.json.specs.Token.{begin_array, end_array, begin_object, end_object, key as key_token};
ghost use Rattle.json_form.specs.Tokens.{tokens_of};

use std::alloc::{AllocError, Global};
use std::marker::Model;

/// A JSON text that is being written. Clauses see its tokens. Its numbers are of 64 bits, since no
/// other can be written.
#[derive(Drop)]
pub struct TextWriter {
    writer: json::Writer,
}

impl Model for TextWriter {
    ghost use Rattle.std.specs.Prelude.{◌≡◌, List, []};
    ghost use Rattle.json.specs.Token.{Token};
    ghost use Rattle.json_form.specs.Numbers.{AreShort};

    ghost Value = { List Token };

    ghost view = { λ a. a.writer.tokens };

    ghost invariant = { λ a. (a.writer.before ≡ []) × AreShort a.writer.tokens };
}

/// Writes a `T` as a JSON value, at the end of a text. The writer is a unit struct, or holds a
/// setting.
pub trait Writer<T> {
    ghost use Rattle.serde_json.specs.Data.{Data};

    ghost writes: { Self → T → Data };

    /// Writes the item. After want of memory a part of it may stand there.
    fn write(&self, alloc: Global, item: &T, out: &mut TextWriter) -> Result<(), AllocError>
        ensures { OnOk result (out.new ≡ out.old ++ tokens_of (writes self.now item.now)) };
}

impl TextWriter {
    ghost use Rattle.hex.specs.Hex.{encode_lower};
    ghost use Rattle.serde_json.specs.Data.{Data};
    ghost use Rattle.serde_json.specs.Read.{max_depth, read};
    ghost use Rattle.serde_json.specs.Written.{compact_text};
    ghost use Rattle.json_form.specs.Forms.{IsForm};
    ghost use Rattle.json_form.specs.meaning.Writing.{text as text_def, whole as whole_def, integer as integer_def, flag as flag_def, null as null_def, list_by};

    /// A text of nothing. It takes no memory before the first token.
    pub fn new(alloc: Global) -> TextWriter
        ensures { result ≡ [] }
    {
        TextWriter {
            writer: json::Writer::new(Vec::new(alloc)),
        }
    }

    /// Begins an array.
    pub fn begin_array(&mut self) -> Result<(), AllocError>
        ensures { OnOk result (self.new ≡ self.old ++ begin_array ∷ []) }
    {
        self.writer.begin_array()
    }

    /// Ends an array.
    pub fn end_array(&mut self) -> Result<(), AllocError>
        ensures { OnOk result (self.new ≡ self.old ++ end_array ∷ []) }
    {
        self.writer.end_array()
    }

    /// Begins an object. Its members follow in the order of their names' bytes.
    pub fn begin_object(&mut self) -> Result<(), AllocError>
        ensures { OnOk result (self.new ≡ self.old ++ begin_object ∷ []) }
    {
        self.writer.begin_object()
    }

    /// The name of the member whose value follows.
    pub fn name(&mut self, name: &str) -> Result<(), AllocError>
        ensures { OnOk result (self.new ≡ self.old ++ key_token name.now ∷ []) }
    {
        self.writer.key(name)
    }

    /// Ends an object.
    pub fn end_object(&mut self) -> Result<(), AllocError>
        ensures { OnOk result (self.new ≡ self.old ++ end_object ∷ []) }
    {
        self.writer.end_object()
    }

    /// The value `null`.
    pub fn null(&mut self) -> Result<(), AllocError>
        ensures { OnOk result (self.new ≡ self.old ++ tokens_of null_def) }
    {
        self.writer.null()
    }

    /// A bool.
    pub fn flag(&mut self, flag: bool) -> Result<(), AllocError>
        ensures { OnOk result (self.new ≡ self.old ++ tokens_of (flag_def flag)) }
    {
        self.writer.boolean(flag)
    }

    /// A whole number without a sign.
    pub fn whole(&mut self, number: u64) -> Result<(), AllocError>
        ensures { OnOk result (self.new ≡ self.old ++ tokens_of (whole_def number)) }
    {
        self.writer.u64(number)
    }

    /// A whole number with a sign.
    pub fn integer(&mut self, number: i64) -> Result<(), AllocError>
        ensures { OnOk result (self.new ≡ self.old ++ tokens_of (integer_def number)) }
    {
        self.writer.i64(number)
    }

    /// A text.
    pub fn text(&mut self, text: &str) -> Result<(), AllocError>
        ensures { OnOk result (self.new ≡ self.old ++ tokens_of (text_def text.now)) }
    {
        self.writer.string(text)
    }

    /// Octets as a text of two hexadecimal digits each, in lower case.
    pub fn octets(&mut self, alloc: Global, octets: &[u8]) -> Result<(), AllocError>
        ensures { OnOk result (self.new ≡ self.old
            ++ tokens_of (text_def (encode_lower octets.now))) }
    {
        let digits = hex::encode(alloc, octets)?;
        self.text(digits.as_str())
    }

    /// Each item, one after the other, with no bracket around them. The cost is that of the items.
    pub fn each<T, W: Writer<T>>(
        &mut self,
        alloc: Global,
        items: &[T],
        writer: &W,
    ) -> Result<(), AllocError>
        ensures { OnOk result (self.new ≡ self.old
            ++ flat_map (λ item. tokens_of (W.Writer.writes writer.now item)) items.now) }
    {
        for item in items {
            writer.write(alloc, item, self)?;
        }
        Ok(())
    }

    /// The array of what each item is written as. The cost is that of the items.
    pub fn array_of<T, W: Writer<T>>(
        &mut self,
        alloc: Global,
        items: &[T],
        writer: &W,
    ) -> Result<(), AllocError>
        ensures { OnOk result (self.new ≡ self.old
            ++ tokens_of (list_by (W.Writer.writes writer.now) items.now)) }
    {
        self.begin_array()?;
        self.each(alloc, items, writer)?;
        self.end_array()
    }

    /// The bytes of the text: of a value whose tokens these are, its compact text (RFC 8259), with
    /// no white space, from which a value of the form is read back. It takes no memory.
    pub fn into_bytes(self) -> Vec<u8>
        ensures text { (d : Data) → self ≡ tokens_of d → result.items ≡ compact_text d }
        ensures reads { (d : Data) → IsForm max_depth d → self ≡ tokens_of d
            → read result.items ≡ Some d }
        ensures utf8 { IsUtf8 result.items }
    {
        let TextWriter { writer } = self;
        writer.into_inner()
    }
}
