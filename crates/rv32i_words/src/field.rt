//! A field of a word.
ghost use Rattle.std.specs.Prelude.{◌≡◌, ◌+◌, ◌-◌, ◌*◌, ◌/◌, ◌%◌, ◌^◌, ◌<◌, ◌≤◌};
ghost use Rattle.base.specs.Refusals.{number, Says};
ghost use Rattle.base.specs.declared.refusal.Refusal.TheVariants.{NoWord};
ghost use Rattle.rv32i.specs.Signs.{signed};
ghost use Rattle.rv32i_words.specs.Immediates.{low_bits, IsInRange, branch_low};

use base::refusal::Refusal;
use rv32i::register::Register;

/// A number of so many bits.
#[derive(Clone, Copy)]
pub(crate) struct Field<const BITS: u32> {
    pub(crate) value: u32,
    ghost sized: { (0 < BITS) × (BITS ≤ 30) },
    ghost fits: { value < 2 ^ BITS },
}

impl<const BITS: u32> Field<BITS> {
    /// The bits of a word from the bit `low` on.
    #[tactic(auto, using(crate::proofs::Powers::masked))]
    pub(crate) fn at(word: u32, low: u32) -> Field<BITS>
        requires { (low < 32) × (0 < BITS) × (BITS ≤ 30) }
        ensures { result.value ≡ word / 2 ^ low % 2 ^ BITS }
    {
        Field {
            value: (word >> low) & ((1 << BITS) - 1),
        }
    }

    /// Its bits above those of another.
    pub(crate) fn above<const LOW: u32, const BOTH: u32>(self, low: Field<LOW>) -> Field<BOTH>
        requires { (BITS + LOW ≡ BOTH) × (BOTH ≤ 30) }
        ensures { result.value ≡ self.entry.value * 2 ^ LOW + low.entry.value }
    {
        Field {
            value: (self.value << LOW) | low.value,
        }
    }

    /// The least number with its top bit.
    #[tactic(auto, using(crate::proofs::Powers::shifted_one, crate::proofs::Powers::half_doubled, crate::proofs::Powers::half_small))]
    fn half(self) -> u32
        ensures value { result ≡ 2 ^ (BITS - 1) }
        ensures doubled { 2 * result ≡ 2 ^ BITS }
        ensures bound { result ≤ 2 ^ 29 }
    {
        1 << (BITS - 1)
    }

    /// Its number where the top bit is a sign.
    pub(crate) fn signed(self) -> i32
        ensures { result ≡ signed (2 ^ (BITS - 1)) self.entry.value }
    {
        let half = self.half();
        if self.value < half {
            self.value as i32
        } else {
            self.value as i32 - 2 * half as i32
        }
    }

    /// The field that has that signed number; refused where there is none.
    pub(crate) fn of_signed(signed_value: i32) -> Result<Field<BITS>, Refusal>
        requires { (0 < BITS) × (BITS ≤ 30) }
        ensures { let half = 2 ^ (BITS - 1) in
            Says (λ x. IsInRange half signed_value × (x.value ≡ low_bits half signed_value))
            (λ why. (why ≡ number NoWord) × ¬ IsInRange half signed_value) result }
    {
        let field = Field::at(signed_value.cast_unsigned(), 0);
        let half = field.half() as i32;
        if signed_value < -half || signed_value >= half {
            return Err(Refusal::NoWord);
        }
        Ok(field)
    }

    /// Itself; refused where it is odd.
    pub(crate) fn even(self) -> Result<Field<BITS>, Refusal>
        ensures { Says (λ x. (x.value ≡ self.entry.value) × (x.value % 2 ≡ 0))
            (λ why. (why ≡ number NoWord) × ¬ (self.entry.value % 2 ≡ 0)) result }
    {
        if self.value % 2 == 0 {
            Ok(self)
        } else {
            Err(Refusal::NoWord)
        }
    }

    /// The top bit and bits 10 to 5 of an offset, which stand in `funct7`.
    #[tactic(auto, using(crate::proofs::Powers::half_doubled))]
    pub(crate) fn offset_high(self) -> Field<7>
        ensures { result.value
            ≡ self.entry.value / 2 ^ (BITS - 1) * 2 ^ 6 + self.entry.value / 2 ^ 5 % 2 ^ 6 }
    {
        Field::<1>::at(self.value, BITS - 1).above(Field::<6>::at(self.value, 5))
    }

    /// Bits 4 to 1 and 11 of an offset, as the B format has them in `rd` and the J format in `rs2`.
    pub(crate) fn offset_low(self) -> Field<5>
        ensures { result.value ≡ branch_low self.entry.value }
    {
        Field::<4>::at(self.value, 1).above(Field::<1>::at(self.value, 11))
    }
}

impl From<Register> for Field<5> {
    ghost from_gives = { λ r x. x.value ≡ r.number };

    fn from(register: Register) -> Field<5> {
        Field {
            value: u32::from(register.number()),
        }
    }
}
