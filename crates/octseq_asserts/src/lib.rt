//! What the tests of the libraries share: assertions that are calls, and tests over each representation of octets.
//!
//! The assertions call the function `equal` of the tests that use them, as no library may end a program.
#![tactic(auto)]

use arrayvec::ArrayVec;
use bytes::Bytes;
use octseq::array::Array;
use octseq::builder::AppendError;
use octseq::cow::CowOctets;
use octseq::octets::{Octets, OctetsFrom};
use smallvec::SmallVec;
use std::alloc::AllocGlobal;
use std::rc::RcSlice;

/// Ends the test if two values differ. A call is proved in a tenth of the time of an `assert_eq!`.
#[macro_export]
macro_rules! assert_equal {
    ($rt:expr, $left:expr, $right:expr $(,)?) => {
        crate::tests::equal($rt, stringify!($left), $left, $right)
    };
}

/// Ends the test if the condition is false.
#[macro_export]
macro_rules! assert_true {
    ($rt:expr, $holds:expr $(,)?) => {
        crate::tests::equal($rt, stringify!($holds), $holds, true)
    };
}

/// A test over octets, whatever holds them, with a runtime.
pub trait Case<H> {
    fn holds<R: Octets + Copy>(&self, rt: &H, octets: R);
}

/// Runs the test on the same octets in each representation that a parser may read.
pub fn over_each<H: AllocGlobal, C: Case<H>>(
    rt: &H,
    case: &C,
    octets: &[u8],
) -> Result<(), AppendError> {
    let alloc = rt.alloc();
    case.holds(rt, octets);
    case.holds(rt, &octets.to_vec(alloc)?);
    case.holds(rt, &CowOctets::borrowed(alloc, octets));
    case.holds(rt, &Bytes::copy_from_slice(alloc, octets)?);
    case.holds(rt, &RcSlice::<u8>::from_slice(alloc, octets)?);
    case.holds(rt, &SmallVec::<u8, 8>::from_slice(alloc, octets)?);
    case.holds(rt, &ArrayVec::<u8, 64>::try_octets_from(alloc, octets)?);
    case.holds(rt, &Array::<64>::try_from(octets)?);
    Ok(())
}
