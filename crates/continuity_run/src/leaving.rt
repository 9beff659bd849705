//! What is left to the end of the process.

use std::mem;

/// Lets go of a value that is used no more, and does not give its memory back. A report is many
/// small pieces: to free them one by one is a tenth of a run, and the process, whose one piece of
/// work the top call is, gives all of them back at once when it ends. So this is for large values
/// behind which nothing large is made. Constant.
pub(crate) fn leave<T: Drop>(value: T) {
    mem::forget(value);
}
