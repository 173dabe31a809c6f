// What code above may do with sources: rest on the range of a field, keep a stack in a field, move one to another thread, read one in two kinds,
// keep several in an array.
ghost use Rattle.std.specs.Prelude.{◌≡◌};

use bits::Bits;
use registers::{Loop, Register};
use residue::Residue;
use ring::Kind;
use sources::Source;
use sources::adapters::{Scaling, Stride, Sum};
use sources::delay::DelayLine;

// One byte again and again, of the numbers modulo 256: lawful, since a byte is below 256.
pub struct Steady {
    pub kind: Residue,
    pub byte: u8,
    ghost octet: { kind.size ≡ 256 },
}

impl Source<Residue> for Steady {
    ghost kind_of = { λ s. s.kind };

    ghost list = { λ s t. s.byte };

    fn kind(&self) -> Residue {
        let _byte = self.byte;
        self.kind
    }

    fn next(&mut self) -> u32 {
        u32::from(self.byte)
    }
}

// A register times a factor, plus every so manyth element of a loop.
#[derive(Drop)]
pub struct Mixer<'m, K: Kind> {
    pub source: Sum<Scaling<Register<'m, 'm, K>, K::Elem>, Stride<Loop<'m, K>>>,
}

pub fn mixed<'m, K: Kind>(mixer: &mut Mixer<'m, K>) -> K::Elem
    ensures { result ≡ ⟦<Sum<Scaling<Register<'m, 'm, K>, K::Elem>, Stride<Loop<'m, K>>> as Source<K>>⟧.list mixer.old.source 0 }
{
    mixer.source.next()
}

// The sum of two sources that may go to another thread may go there too.
pub fn movable<K: Kind, A: Source<K> + Send, B: Source<K> + Send>(a: A, b: B) -> Sum<A, B>
    ensures { (result.a ≡ a) × (result.b ≡ b) }
{
    let sum = Sum::new::<K>(a, b);
    sent(&sum);
    sum
}

fn sent<T: Send>(_value: &T) {}

// A sum of sources that have two kinds is a source of either.
pub fn bits_of<A: Source<Residue> + Source<Bits>, B: Source<Residue> + Source<Bits>>(
    both: &mut Sum<A, B>,
) -> u32
    ensures { result ≡ ⟦<Sum<A, B> as Source<Bits>>⟧.list both.old 0 }
{
    <Sum<A, B> as Source<Bits>>::next(both)
}

// Lines and loops are reached in an array that is lent.
fn through(lines: &mut [DelayLine<'_, u8>; 2], x: u8) -> u8 {
    let y = lines[0].push(x);
    lines[1].push(y)
}

fn second(loops: &mut [Loop<'_, Residue>; 2]) -> u32 {
    let _ = loops[0].next();
    loops[1].next()
}
