// Reads operations from standard input, one a line, runs each through the kind that it names, and prints the answers.
#![tactic(auto)]

use lines::Fields;
use ring::Kind;
use std::io;
use vectors::{Element, Failure, Program, Written, read_kind, run, yes_or_no};

// step^v × u
fn raised<K: Kind>(kind: &K, v: usize, u: K::Elem) -> K::Elem {
    (0..v).fold(u, |product, _| kind.mul(kind.step(), product))
}

// The valuation v, and whether the element is step^v × u with u × inverse(u) = one.
fn split<K: Written, R: Print>(rt: &R, kind: &K, a: K::Elem) -> io::Result<()> {
    let (v, u) = kind.split(a);
    let whole = raised(kind, v, u) == a;
    let unit = kind.mul(u, kind.inverse(u)) == kind.one();
    println!(rt; "{v} {}", if whole && unit { "ok" } else { "wrong" })
}

// An operation on elements.
fn operation<K: Written, R: Print>(
    rt: &R,
    kind: &K,
    word: &str,
    fields: &mut Fields<'_>,
) -> Result<(), Failure> {
    let a = K::Elem::read(fields)?;
    match word {
        "split" => split(rt, kind, a)?,
        "inverse" => rt.println(kind.inverse(a))?,
        "lawful" => rt.println(yes_or_no(kind.is_lawful(a)))?,
        "add" => rt.println(kind.add(a, K::Elem::read(fields)?))?,
        "sub" => rt.println(kind.sub(a, K::Elem::read(fields)?))?,
        "mul" => rt.println(kind.mul(a, K::Elem::read(fields)?))?,
        _ => return Err(Failure::Unreadable),
    }
    Ok(())
}

#[derive(Drop)]
struct Operations;

impl Program for Operations {
    fn carry_out<K: Written, R: Print + AllocGlobal>(
        rt: &R,
        fields: &mut Fields<'_>,
    ) -> Result<(), Failure> {
        let kind = read_kind::<K>(fields)?;
        match fields.word() {
            "make" => rt.println("ok")?,
            "zero" => rt.println(kind.zero())?,
            "one" => rt.println(kind.one())?,
            "step" => rt.println(kind.step())?,
            "depth" => rt.println(kind.depth())?,
            "same" => rt.println(yes_or_no(kind.same(&read_kind(fields)?)))?,
            word => operation(rt, &kind, word, fields)?,
        }
        Ok(())
    }
}

fn main(rt: HostRuntime) -> io::Result<()> {
    run::<Operations>(&rt)
}
