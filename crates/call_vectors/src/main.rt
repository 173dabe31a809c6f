// Reads lists of calls from standard input, one list a line, carries them out on a capture, and prints every answer and what the
// memories hold as far as it is determined.
#![tactic(auto)]

mod memories;
mod on_found;
mod on_open;

use capture::{Found, Open};
use lines::Fields;
use memories::Memory;
use on_found::FoundCall;
use on_open::OpenCall;
use ring::Kind;
use std::io;
use vectors::{Failure, Program, Written, read_kind, run, size};

// More calls than any list has.
const CALLS: usize = 1000;

#[derive(Drop)]
enum State<K: Kind> {
    Taking(Open<K>),
    Standing(Found<K>),
}

impl<K: Written> State<K> {
    // Reads the call that the word names and carries it out; one that can't be read changes nothing.
    fn call<R: Print + AllocGlobal>(
        self,
        rt: &R,
        memory: &mut Memory<K>,
        word: &str,
        fields: &mut Fields<'_>,
    ) -> io::Result<State<K>> {
        match self {
            State::Taking(open) => match OpenCall::read(rt.alloc(), word, fields) {
                Ok(call) => call.carry_out(rt, open, memory),
                Err(failure) => {
                    failure.tell(rt)?;
                    Ok(State::Taking(open))
                }
            },
            State::Standing(found) => {
                match FoundCall::read(rt.alloc(), &memory.kind, word, fields) {
                    Ok(call) => call.carry_out(rt, found, memory),
                    Err(failure) => {
                        failure.tell(rt)?;
                        Ok(State::Standing(found))
                    }
                }
            }
        }
    }
}

#[derive(Drop)]
struct Calls;

impl Program for Calls {
    // A capture is opened, and the calls are carried out one after the other.
    fn carry_out<K: Written, R: Print + AllocGlobal>(
        rt: &R,
        fields: &mut Fields<'_>,
    ) -> Result<(), Failure> {
        let kind = read_kind::<K>(fields).or(Err(Failure::Unreadable))?;
        let channels = size(fields)?;
        let mut memory = Memory::new(rt.alloc(), kind, fields)?;
        let mut state = State::Taking(Open::new(kind, channels, memory.words.as_slice())?);
        rt.println("open")?;
        for _ in 0..CALLS {
            let word = fields.word();
            if word.is_empty() {
                break;
            }
            state = state.call(rt, &mut memory, word, fields)?;
        }
        Ok(())
    }
}

fn main(rt: HostRuntime) -> io::Result<()> {
    run::<Calls>(&rt)
}
