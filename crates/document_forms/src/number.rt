//! Numbers within the limits of a document.
ghost use Rattle.std.specs.Prelude.{◌≡◌};
ghost use Rattle.document_limits.specs.Limits.{number_limit};

use document_limits::Number;
use json_form::Whole;

/// The reader of this number.
pub(crate) fn whole(number: Number) -> Whole
    ensures { result ≡ record {
      low = (number_limit number).least;
      high =
          (number_limit number).most;
    } }
{
    let limit = number.limit();
    Whole::new(limit.least, limit.most)
}
