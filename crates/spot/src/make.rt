//! The make: how a spot is packed.
ghost use Rattle.std.specs.Prelude.{◌≤◌};

use crate::MakeRefused;
use cellcode::CellCode;
use numlist::NumberList;
use std::alloc::AllocError;

/// The bits that the codes of any cell code need.
const CODE_BITS: u32 = 42;

/// A cell code, a number list that reaches far enough for it, and the number by which both are known.
pub struct Make<C: CellCode, L: NumberList> {
    pub(crate) code: C,
    pub(crate) list: L,
    pub(crate) number: u16,
    ghost far: { 42 ≤ (L.NumberList.meaning list).reach },
    ghost near: { (L.NumberList.meaning list).reach ≤ 64 },
}

// By hand, since a derive is refused over ghost fields that name a bound.
impl<C: CellCode + Copy, L: NumberList + Copy> Clone for Make<C, L> {
    ghost use Rattle.std.specs.Prelude.{◌≡◌};

    ghost is_clone = { λ make copy. copy ≡ make };

    ghost is_infallible = { λ _. Unit {0} };

    fn clone(&self) -> Result<Make<C, L>, AllocError> {
        Ok(*self)
    }
}

impl<C: CellCode + Copy, L: NumberList + Copy> Copy for Make<C, L> {}

impl<C: CellCode + Copy, L: NumberList + Copy> Make<C, L> {
    ghost use Rattle.std.specs.Prelude.{◌≡◌, Ok, Err};
    ghost use Rattle.spot.specs.Spots.{Wide, making};

    /// The make of a code, a list that reaches from 42 to 64 bits, and a number.
    pub fn new(code: C, list: L, number: u16) -> Result<Make<C, L>, MakeRefused>
        ensures { elim result [ Ok make ↦ Wide (making (C.CellCode.code code) (L.NumberList.meaning list) number) × (make.code ≡ code) × (make.list ≡ list) × (make.number ≡ number) | Err _ ↦ (Wide (making (C.CellCode.code code) (L.NumberList.meaning list) number) → ⊥) ] }
    {
        if list.reach() < CODE_BITS || list.is_past_64() {
            return Err(MakeRefused);
        }
        Ok(Make { code, list, number })
    }
}
