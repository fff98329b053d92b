//! What a proof knows, told to the compiler.
ghost use Rattle.std.specs.Prelude.{IsTrue};

use std::ptr;

/// Tells the compiler that this holds, so that it leaves out a test of it. It does nothing.
///
/// A `match` in which the proof has ruled out an arm tests for it all the same, since `unreachable!()` stops the program there. A write to null is what the
/// compiler takes for impossible, so that nothing is left of the way there. As `std::hint::assert_unchecked`, but safe, since its caller has shown that it
/// holds.
#[inline]
pub fn assert_unchecked(holds: bool)
    requires { IsTrue holds }
{
    if holds {
        return;
    }
    unsafe { ptr::null_mut::<u8>().write(0) };
}
