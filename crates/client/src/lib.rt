// A user of captures, who knows their contracts alone.
#![tactic(auto)]

ghost use Rattle.client.specs.Job.{Foreseen};

use capture::Open;
use recurrence::Record;
use ring::{Kind, Refusal};
use sources::Source;

// One job: a word is fed and taken back, m words are drawn, to take back more than a capture holds is refused, and the finding is found, let go and found again.
// If the source obeys a monic polynomial of degree at most m / 2, the buffer is then filled with its later elements, unless a call is refused.
pub fn foresee<K: Kind, S: Source<K>>(
    kind: K,
    source: &mut S,
    m: usize,
    word: &[K::Elem],
    words: &mut [K::Elem],
    record: &mut Record,
    finding: &mut [K::Elem],
    work: &mut [K::Elem],
    next: &mut [K::Elem],
) -> Result<(), Refusal>
    ensures { Foreseen (K.Kind.ring kind) (S.Source.list source.old) m result next.new }
{
    let mut open = Open::new(kind, 1, words)?;
    open.feed(words, word)?;
    open.take_back(1)?;
    open.draw(words, source, m)?;
    let _refused = open.take_back(129);
    let found = open
        .find(words, record, finding, work)
        .map_err(|(refusal, _)| refusal)?;
    let found = found
        .reopen()
        .find(words, record, finding, work)
        .map_err(|(refusal, _)| refusal)?;
    found.run_on(words, record, finding, next)
}
