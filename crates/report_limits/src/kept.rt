//! What the type of a value keeps, and the same of each item of a list.
ghost use Rattle.std.specs.Prelude.{Bool, IsTrue, true, ◌&&◌, length, nat_le};
ghost use Rattle.std.specs.List.{AllByRecursion, list_all};
ghost use Rattle.hex.specs.Hex.{IsBytes};
ghost use Rattle.json_form.specs.meaning.Values.{fits_i64};
ghost use Rattle.report_limits.specs.meaning.Limits.{fits_u64};

use svc_values::{Limited, Listed, Shared};

/// A type whose values keep to limits. `fits` is the test of them, and `octets` says besides that
/// octets are bytes.
pub trait Kept {
    ghost fits: { Self → Bool } = { λ _. true };

    ghost octets: { Self → Type 0 } = { λ _. Unit {0} };

    /// Looks through the value, in a time linear in it, and takes no memory.
    fn kept(&self)
        ensures fits { IsTrue (fits self.now) }
        ensures octets { octets self.now };
}

/// A number without a sign has 64 bits.
pub(crate) fn number_kept(number: u64)
    ensures { IsTrue (fits_u64 number) }
{}

/// So has one with a sign.
pub(crate) fn integer_kept(number: i64)
    ensures { IsTrue (fits_i64 number) }
{}

/// Octets are bytes.
pub(crate) fn bytes_kept(octets: &[u8])
    ensures { IsBytes octets.now }
{}

/// Each item keeps to its limits.
fn each_kept<T: Kept>(items: &[T])
    ensures fits { IsTrue (list_all T.Kept.fits items.now) }
    ensures octets { AllByRecursion T.Kept.octets items.now }
{
    for item in items {
        item.kept();
    }
}

impl<T: Kept + Drop> Kept for Listed<T> {
    ghost fits = { list_all T.Kept.fits };

    ghost octets = { AllByRecursion T.Kept.octets };

    fn kept(&self) {
        each_kept(self.as_slice());
    }
}

impl<T: Kept + Drop, const LIMIT: usize> Kept for Limited<T, LIMIT> {
    ghost fits = { λ items. nat_le (length items) LIMIT && list_all T.Kept.fits items };

    ghost octets = { AllByRecursion T.Kept.octets };

    fn kept(&self) {
        each_kept(self.as_slice());
    }
}

impl<T: Kept + Drop, const LIMIT: usize> Kept for Shared<T, LIMIT> {
    ghost fits = { λ items. nat_le (length items) LIMIT && list_all T.Kept.fits items };

    ghost octets = { AllByRecursion T.Kept.octets };

    fn kept(&self) {
        each_kept(self.as_slice());
    }
}
