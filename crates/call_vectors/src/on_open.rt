// The calls on an open capture.
use crate::State;
use crate::memories::{Memory, digest, front, front_mut, put, size};
use capture::Open;
use generators::Generator;
use lines::Fields;
use ring::Kind;
use sources::Source;
use std::alloc::Global;
use std::io;
use vectors::{Answer, Element, Failure, Written, elements};

// How much of each memory a profile is handed.
#[derive(Clone, Copy)]
pub struct Profiled {
    words: usize,
    numbers: usize,
    work: usize,
    finding: usize,
}

// How much of each memory a find is handed.
#[derive(Clone, Copy)]
pub struct Sought {
    words: usize,
    finding: usize,
    work: usize,
}

// A call, with how much of each memory is handed in.
#[derive(Drop)]
pub enum OpenCall<K: Kind> {
    Feed {
        words: usize,
        word: Vec<K::Elem>,
    },
    Draw {
        words: usize,
        many: usize,
        from: Generator<K>,
    },
    TakeBack {
        many: usize,
    },
    Profile(Profiled),
    Find(Sought),
    PutWord {
        place: usize,
        element: K::Elem,
    },
}

impl<K: Written> OpenCall<K> {
    pub fn read(heap: Global, word: &str, fields: &mut Fields<'_>) -> Result<OpenCall<K>, Failure> {
        Ok(match word {
            "feed" => {
                let words = size(fields);
                let many = size(fields);
                let word = elements(heap, fields, many)?;
                OpenCall::Feed { words, word }
            }
            "draw" => OpenCall::Draw {
                words: size(fields),
                many: size(fields),
                from: Generator::read(heap, fields)?,
            },
            "back" => OpenCall::TakeBack { many: size(fields) },
            "profile" => OpenCall::Profile(Profiled {
                words: size(fields),
                numbers: size(fields),
                work: size(fields),
                finding: size(fields),
            }),
            "find" => OpenCall::Find(Sought {
                words: size(fields),
                finding: size(fields),
                work: size(fields),
            }),
            "words" => OpenCall::PutWord {
                place: size(fields),
                element: K::Elem::read(fields)?,
            },
            _ => return Err(Failure::Unreadable),
        })
    }
}

impl<K: Written> OpenCall<K> {
    // Carries the call out, and prints what it answers and what the memories hold then.
    pub fn carry_out<R: Print + AllocGlobal>(
        self,
        rt: &R,
        mut open: Open<K>,
        memory: &mut Memory<K>,
    ) -> io::Result<State<K>> {
        match self {
            OpenCall::Feed { words, word } => feed(rt, &mut open, memory, words, word.as_slice())?,
            OpenCall::Draw { words, many, from } => draw(rt, &mut open, memory, words, many, from)?,
            OpenCall::TakeBack { many } => take_back(rt, &mut open, memory, many)?,
            OpenCall::Profile(handed) => profile(rt, &mut open, memory, &handed)?,
            OpenCall::Find(handed) => return find(rt, open, memory, &handed),
            OpenCall::PutWord { place, element } => {
                rt.println(put(memory.words.as_mut_slice(), place, element))?;
            }
        }
        Ok(State::Taking(open))
    }
}

fn feed<K: Written, R: Print>(
    rt: &R,
    open: &mut Open<K>,
    memory: &mut Memory<K>,
    words: usize,
    word: &[K::Elem],
) -> io::Result<()> {
    let answer = open.feed(front_mut(memory.words.as_mut_slice(), words), word);
    if answer.is_ok() {
        memory.count = memory.count.saturating_add(1);
    }
    rt.print(Answer(answer.and(Ok("ok"))))?;
    memory.print_words(rt)?;
    rt.println("")
}

fn draw<K: Written, R: Print>(
    rt: &R,
    open: &mut Open<K>,
    memory: &mut Memory<K>,
    words: usize,
    many: usize,
    mut from: Generator<K>,
) -> io::Result<()> {
    let mut source = from.source();
    let answer = open.draw(
        front_mut(memory.words.as_mut_slice(), words),
        &mut source,
        many,
    );
    if answer.is_ok() {
        memory.count = memory.count.saturating_add(many);
    }
    rt.print(Answer(answer.and(Ok("ok"))))?;
    memory.print_words(rt)?;
    println!(rt; " then {}", source.next())
}

fn take_back<K: Written, R: Print>(
    rt: &R,
    open: &mut Open<K>,
    memory: &mut Memory<K>,
    many: usize,
) -> io::Result<()> {
    let answer = open.take_back(many);
    if answer.is_ok() {
        memory.count = memory.count.saturating_sub(many);
    }
    rt.println(Answer(answer.and(Ok("ok"))))
}

fn profile<K: Written, R: Print + AllocGlobal>(
    rt: &R,
    open: &mut Open<K>,
    memory: &mut Memory<K>,
    handed: &Profiled,
) -> io::Result<()> {
    let mut work = vec![in rt.alloc(); memory.kind.one(); handed.work]?;
    let mut finding = vec![in rt.alloc(); memory.kind.one(); handed.finding]?;
    let answer = open.profile(
        front(memory.words.as_slice(), handed.words),
        front_mut(memory.numbers.as_mut_slice(), handed.numbers),
        work.as_mut_slice(),
        finding.as_mut_slice(),
    );
    rt.print(Answer(answer.and(Ok("ok"))))?;
    memory.print_words(rt)?;
    rt.print(" numbers")?;
    for number in memory.numbers.iter() {
        print!(rt; " {number}")?;
    }
    rt.println("")
}

// Finds, with finding and work memory that hold ones before.
fn find<K: Written, R: Print + AllocGlobal>(
    rt: &R,
    open: Open<K>,
    memory: &mut Memory<K>,
    handed: &Sought,
) -> io::Result<State<K>> {
    let mut work = vec![in rt.alloc(); memory.kind.one(); memory.work]?;
    for cell in memory.finding.iter_mut() {
        *cell = memory.kind.one();
    }
    let answer = open.find(
        front(memory.words.as_slice(), handed.words),
        &mut memory.record,
        front_mut(memory.finding.as_mut_slice(), handed.finding),
        front_mut(work.as_mut_slice(), handed.work),
    );
    match answer {
        Ok(found) => {
            rt.print("ok")?;
            memory.print_words(rt)?;
            memory.print_leading(rt)?;
            memory.print_record(rt)?;
            rt.println("")?;
            Ok(State::Standing(found))
        }
        Err((refusal, open)) => {
            print!(rt; "refused {refusal}")?;
            memory.print_words(rt)?;
            print!(rt; " finding {}", digest(0, memory.finding.as_slice()))?;
            memory.print_record(rt)?;
            println!(rt; " work {}", digest(0, work.as_slice()))?;
            Ok(State::Taking(open))
        }
    }
}
