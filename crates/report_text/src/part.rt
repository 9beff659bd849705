//! Members of objects, and arrays that begin with a word.
ghost use Rattle.std.specs.Prelude.{◌≡◌, ◌++◌, ◌∷◌, [], OnOk};
ghost use Rattle.json.specs.Token.{begin_array, begin_object, key, string};
ghost use Rattle.json_form.specs.Tokens.{tokens_of};
ghost use Rattle.json_form.specs.meaning.Writing.{text as text_def, whole as whole_def, list_by};
ghost use Rattle.report_text.specs.meaning.Parts.{one as one_def, headed as headed_def, lone as lone_def};

use json_form::{TextWriter, Writer};
use std::alloc::{AllocError, Global};
use svc_values::Listed;

/// Begins an object of one member.
pub(crate) fn begin_one(out: &mut TextWriter, name: &str) -> Result<(), AllocError>
    ensures { OnOk result (out.new ≡ out.old ++ begin_object ∷ key name.now ∷ []) }
{
    out.begin_object()?;
    out.name(name)
}

/// Begins an array whose first item is this word.
pub(crate) fn begin_word(out: &mut TextWriter, word: &str) -> Result<(), AllocError>
    ensures { OnOk result (out.new ≡ out.old ++ begin_array ∷ string word.now ∷ []) }
{
    out.begin_array()?;
    out.text(word)
}

/// A member that is the array of what each item is written as.
pub(crate) fn list_member<T: Drop, W: Writer<T>>(
    alloc: Global,
    name: &str,
    items: &Listed<T>,
    writer: &W,
    out: &mut TextWriter,
) -> Result<(), AllocError>
    ensures { OnOk result (out.new
        ≡ out.old ++ key name.now ∷ tokens_of (list_by (W.Writer.writes writer.now) items.now)) }
{
    out.name(name)?;
    out.array_of(alloc, items.as_slice(), writer)
}

/// An array that is one word.
pub(crate) fn lone(out: &mut TextWriter, word: &str) -> Result<(), AllocError>
    ensures { OnOk result (out.new ≡ out.old ++ tokens_of (lone_def word.now)) }
{
    begin_word(out, word)?;
    out.end_array()
}

/// An array of a word and a number.
pub(crate) fn numbered(out: &mut TextWriter, word: &str, number: u64) -> Result<(), AllocError>
    ensures { OnOk result
        (out.new ≡ out.old ++ tokens_of (headed_def word.now (whole_def number ∷ []))) }
{
    begin_word(out, word)?;
    out.whole(number)?;
    out.end_array()
}

/// An object with one text.
pub(crate) fn one_text(out: &mut TextWriter, name: &str, text: &str) -> Result<(), AllocError>
    ensures { OnOk result (out.new ≡ out.old ++ tokens_of (one_def name.now (text_def text.now))) }
{
    begin_one(out, name)?;
    out.text(text)?;
    out.end_object()
}

/// An object with one whole number.
pub(crate) fn one_whole(out: &mut TextWriter, name: &str, number: u64) -> Result<(), AllocError>
    ensures { OnOk result (out.new ≡ out.old ++ tokens_of (one_def name.now (whole_def number))) }
{
    begin_one(out, name)?;
    out.whole(number)?;
    out.end_object()
}
