//! JSON Pointers (RFC 6901).
ghost use Rattle.std.specs.Prelude.{◌≡◌, [], ◌∷◌, ◌++◌, IfOk, OnOk, string_bytes};
ghost use Rattle.std.specs.Str.{chars};
ghost use Rattle.json_form.specs.meaning.Pointers.{escaped, escaped_char};

use std::alloc::{AllocError, Global};
use std::fmt::{Display, Error, Formatter, Write};
use std::marker::Model;

/// A JSON Pointer (RFC 6901): a slash and a member's name or an item's position from 0, for each
/// step from the document down to the value. The document itself has the empty pointer. Clauses see
/// the list of its bytes.
#[derive(Debug, Drop)]
pub struct Pointer {
    text: String,
}

impl Model for Pointer {
    ghost use Rattle.std.specs.Prelude.{List, ℕ, string_bytes};

    ghost Value = { List ℕ };

    ghost view = { λ p. string_bytes p.text };
}

impl Pointer {
    /// The pointer to the value itself.
    pub fn here(alloc: Global) -> Pointer
        ensures { result ≡ [] }
    {
        Pointer {
            text: String::new(alloc),
        }
    }

    /// The pointer one step further up: a slash and the step, as it stands in a pointer, go first.
    /// The cost is the length of the new pointer.
    pub(crate) fn under(&self, alloc: Global, step: &str) -> Result<Pointer, AllocError>
        ensures { IfOk result (λ p. p ≡ 47 ∷ step.now ++ self.now) }
    {
        let rest = self.as_str();
        Ok(Pointer {
            text: format!(in alloc; "/{step}{rest}")?,
        })
    }

    /// The pointer's text.
    pub fn as_str(&self) -> &str
        ensures { result.now ≡ self.now }
    {
        self.text.as_str()
    }
}

impl Display for Pointer {
    fn fmt<W: Write>(&self, f: &mut Formatter<W>) -> Result<(), Error> {
        f.write_str(self.as_str())
    }
}

/// One character of a name: `~` becomes `~0` and `/` becomes `~1`.
fn push_escaped(out: &mut String, c: char) -> Result<(), AllocError>
    ensures { OnOk result (string_bytes out.new ≡ string_bytes out.old ++ escaped_char c) }
{
    if c == '~' {
        return out.push_str("~0");
    }
    if c == '/' {
        return out.push_str("~1");
    }
    out.push(c)
}

fn chars_of(alloc: Global, text: &str) -> Result<Vec<char>, AllocError>
    ensures { IfOk result (λ v. v.items ≡ chars text.now) }
{
    text.chars().collect(alloc)
}

/// A member's name as it stands in a pointer.
pub(crate) fn escape(alloc: Global, name: &str) -> Result<String, AllocError>
    ensures { IfOk result (λ s. string_bytes s ≡ escaped name.now) }
{
    let mut out = String::new(alloc);
    let list = chars_of(alloc, name)?;
    for c in &list {
        push_escaped(&mut out, *c)?;
    }
    Ok(out)
}
