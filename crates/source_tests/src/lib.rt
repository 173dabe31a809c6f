// A source that is no register, a plain counter, through everything that is built on sources; and registers and loops, stacked.
#![tactic(auto)]

ghost use Rattle.std.specs.Prelude.{◌≡◌, ℕ, ◌+◌, ◌*◌, ◌%◌, ◌<◌, T, length, ◌≢◌, slice_index, slice_index_or};
ghost use Rattle.ring.specs.declared.Refusal.{Refusal as Reason};
ghost use Rattle.ring.specs.Refusals.{Passes, Refuses};
ghost use Rattle.recurrence.specs.Memory.{at};
ghost use Rattle.sources.specs.Makers.{stride_rows};
ghost use Rattle.registers.specs.Registers.{loop_rows, Registers};
ghost use Rattle.source_tests.specs.Numbers.{ring};

use registers::{Loop, Register};
use residue::Residue;
use ring::{Kind, Refusal};
use sources::adapters::{Scaling, Stride, Sum};
use sources::{Source, draw};

pub mod users;

// Counts up modulo the number of elements of its kind.
#[derive(Clone, Copy)]
pub struct Counter {
    pub kind: Residue,
    pub count: u32,
}

impl Source<Residue> for Counter {
    ghost kind_of = { λ s. s.kind };

    ghost list = { λ s t. (s.count + t) % s.kind.size };

    fn kind(&self) -> Residue {
        self.kind
    }

    fn next(&mut self) -> u32 {
        let word = self.count % self.kind.size;
        self.count = word + 1;
        word
    }
}

// Fills the buffer with every m-th number that the counter counts; with zeros for an m that is refused.
pub fn count_by(counter: Counter, m: usize, out: &mut [u32])
    ensures counted { Passes (stride_rows m) → (i : ℕ) → i < length out.old → slice_index out.new i ≡ (counter.count + m * i) % counter.kind.size }
    ensures refused { (e : Reason) → Refuses (stride_rows m) e → (i : ℕ) → i < length out.old → slice_index out.new i ≡ 0 }
{
    let len = out.len();
    let mut source = Stride::new(counter, m);
    let _ = draw(&mut source, out, 0, len);
}

// Fills the buffer with the sums of the numbers of two counters, the second times c; with zeros where they are not of one kind.
pub fn count_both(a: Counter, b: Counter, c: u32, out: &mut [u32])
    ensures summed { a.kind ≡ b.kind → T ((ring b.kind).lawful c) → (i : ℕ) → i < length out.old
        → slice_index out.new i ≡ (ring a.kind).add ((a.count + i) % a.kind.size) ((ring b.kind).mul c ((b.count + i) % b.kind.size)) }
    ensures refused { (a.kind ≢ b.kind) → (i : ℕ) → i < length out.old → slice_index out.new i ≡ 0 }
{
    let len = out.len();
    let mut source = Sum::new(a, Scaling::new(b, c));
    let _ = draw(&mut source, out, 0, len);
}

// Fills the buffer with the words of a register, each times c, plus every second element of a loop.
pub fn stacked<K: Kind>(
    kind: K,
    coefficients: &[K::Elem],
    stages: &mut [K::Elem],
    elements: &[K::Elem],
    c: K::Elem,
    out: &mut [K::Elem],
)
    ensures { (w : ℕ → K.Elem) × Registers (K.ring kind) coefficients.now stages.old w
        × (T ((K.ring kind).lawful c) → Passes (loop_rows (K.ring kind) elements.now) → (i : ℕ) → i < length out.old → (d : K.Elem)
        → slice_index_or out.new i d ≡ (K.ring kind).add ((K.ring kind).mul c (w i)) (at (K.ring kind) elements.now ((2 * i) % length elements.now))) }
{
    let len = out.len();
    let register = Register::new(kind, coefficients, stages);
    let scaled = Scaling::new(register, c);
    let strided = Stride::new(Loop::new(kind, elements), 2);
    let mut source = Sum::new(scaled, strided);
    let _ = draw(&mut source, out, 0, len);
}

#[cfg(test)]
mod tests {
    use super::*;
    use bits::Bits;
    use registers::{check_loop, check_register};
    use sources::adapters::{check_scaling, check_stride, check_sum};
    use std::test::Fail;
    use truncated::{Polynomial, Truncated};

    // The numbers modulo 4.
    fn modulo_4() -> Result<Residue, Fail> {
        let Ok(kind) = Residue::new(2, 2) else {
            return Err(Fail::new("no kind"));
        };
        Ok(kind)
    }

    #[test]
    fn edges_of_adapters(rt: HostRuntime) -> Result<(), Fail> {
        assert_eq!(rt; check_stride(0).map_err(Refusal::number), Err(11));
        assert_eq!(rt; check_stride(1).map_err(Refusal::number), Ok(()));
        assert_eq!(rt; check_stride(65_536).map_err(Refusal::number), Ok(()));
        assert_eq!(rt; check_stride(65_537).map_err(Refusal::number), Err(11));
        let counter = Counter {
            kind: modulo_4()?,
            count: 0,
        };
        assert_eq!(rt; check_scaling(&counter, 3).map_err(Refusal::number), Ok(()));
        assert_eq!(rt; check_scaling(&counter, 4).map_err(Refusal::number), Err(6));
        assert_eq!(rt;
            check_sum(&counter, &counter).map_err(Refusal::number),
            Ok(())
        );
        Ok(())
    }

    // Whether a register of numbers modulo 4 may be made, or the number of the refusal.
    fn register_of(coefficients: &[u32], stages: &[u32]) -> Result<Result<(), u8>, Fail> {
        Ok(check_register(&modulo_4()?, coefficients, stages).map_err(Refusal::number))
    }

    #[test]
    fn edges_of_stages(rt: HostRuntime) -> Result<(), Fail> {
        let mut longest = [0u32; 129];
        longest[128] = 1;
        let mut too_long = [0u32; 130];
        too_long[129] = 1;
        let stages = [0u32; 129];
        assert_eq!(rt; register_of(&longest, &stages)?, Ok(()));
        assert_eq!(rt; register_of(&too_long, &stages)?, Err(8));
        assert_eq!(rt; register_of(&longest, &stages[0..128])?, Ok(()));
        assert_eq!(rt; register_of(&longest, &stages[0..127])?, Err(4));
        Ok(())
    }

    #[test]
    fn edges_of_coefficients(rt: HostRuntime) -> Result<(), Fail> {
        assert_eq!(rt; register_of(&[], &[])?, Err(8));
        assert_eq!(rt; register_of(&[1], &[])?, Ok(()));
        assert_eq!(rt; register_of(&[4, 2], &[])?, Err(4));
        assert_eq!(rt; register_of(&[4, 2], &[0])?, Err(6));
        assert_eq!(rt; register_of(&[3, 2], &[0])?, Err(8));
        assert_eq!(rt; register_of(&[3, 1], &[0, 9])?, Ok(()));
        Ok(())
    }

    #[test]
    fn edges_of_loops(rt: HostRuntime) -> Result<(), Fail> {
        let kind = modulo_4()?;
        assert_eq!(rt; check_loop(&kind, &[]).map_err(Refusal::number), Err(11));
        assert_eq!(rt; check_loop(&kind, &[3]).map_err(Refusal::number), Ok(()));
        assert_eq!(rt; check_loop(&kind, &[3, 4]).map_err(Refusal::number), Err(6));
        Ok(())
    }

    #[test]
    fn words(rt: HostRuntime) -> Result<(), Fail> {
        let kind = modulo_4()?;
        let mut out = [9u32; 6];
        stacked(kind, &[3, 3, 1], &mut [0, 1], &[1, 2, 3], 2, &mut out);
        assert_eq!(rt; out, [1, 1, 0, 1, 1, 0]);
        count_by(Counter { kind, count: 2 }, 3, &mut out);
        assert_eq!(rt; out, [2, 1, 0, 3, 2, 1]);
        count_by(Counter { kind, count: 2 }, 65_537, &mut out);
        assert_eq!(rt; out, [0; 6]);
        Ok(())
    }

    #[test]
    fn words_of_bits(rt: HostRuntime) -> Result<(), Fail> {
        let Ok(kind) = Bits::new(2, 3) else {
            return Err(Fail::new("no kind"));
        };
        let mut out = [0u32; 6];
        stacked(kind, &[3, 6, 1], &mut [1, 5], &[7, 2, 4], 5, &mut out);
        assert_eq!(rt; out, [2, 5, 3, 2, 1, 3]);
        Ok(())
    }

    // a + b x
    fn linear(a: u8, b: u8) -> Polynomial {
        Polynomial {
            coefficients: [a, b, 0, 0, 0, 0, 0, 0],
        }
    }

    #[test]
    fn words_of_polynomials(rt: HostRuntime) -> Result<(), Fail> {
        let Ok(kind) = Truncated::new(3, 2) else {
            return Err(Fail::new("no kind"));
        };
        let coefficients = [linear(1, 2), linear(2, 1), linear(1, 0)];
        let mut stages = [linear(1, 1), linear(0, 2)];
        let elements = [linear(2, 2), linear(1, 0), linear(0, 1)];
        let mut out = [linear(0, 0); 6];
        stacked(
            kind,
            &coefficients,
            &mut stages,
            &elements,
            linear(2, 1),
            &mut out,
        );
        assert_eq!(rt;
            out,
            [
                linear(1, 2),
                linear(0, 2),
                linear(2, 0),
                linear(0, 0),
                linear(0, 2),
                linear(0, 1),
            ]
        );
        Ok(())
    }
}
