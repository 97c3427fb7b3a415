// One line of output for each request: what was asked, and what either line answered.
use crate::lines::IN_A_ROW;
use crate::trouble::Trouble;
use kind::summary::RunCell;
use line::reply::Reply;
use line::request::Request;
use line::values::Values;
use matrix::grid::Matrix;
use semiring::Semiring;
use semiring::costs::Costs;
use std::{fmt, io};

// A label in quotes, as it may be empty. The bytes of a label are characters.
#[derive(Clone, Copy)]
struct Quoted<'a>(&'a [u8]);

impl fmt::Display for Quoted<'_> {
    fn fmt<W: fmt::Write>(&self, f: &mut fmt::Formatter<W>) -> fmt::Result {
        f.write_str("\"")?;
        for &byte in self.0 {
            f.write_char(char::from(byte))?;
        }
        f.write_str("\"")
    }
}

// Status and codes.
#[derive(Clone, Copy)]
struct Put<'a>(&'a Values);

impl fmt::Display for Put<'_> {
    fn fmt<W: fmt::Write>(&self, f: &mut fmt::Formatter<W>) -> fmt::Result {
        let Values { status, up, down } = *self.0;
        write!(f, "{status}, up {up}, down {down}")
    }
}

// A request in words.
#[derive(Clone, Copy)]
struct Asked<'a>(&'a Request<'a>);

impl fmt::Display for Asked<'_> {
    fn fmt<W: fmt::Write>(&self, f: &mut fmt::Formatter<W>) -> fmt::Result {
        match self.0 {
            Request::Add { label, values } => write!(f, "add {}: {}", Quoted(label), Put(values)),
            Request::Close => f.write_str("close"),
            Request::Set { place, values } => write!(f, "set {place}: {}", Put(values)),
            Request::Try => f.write_str("try"),
            Request::Keep => f.write_str("keep"),
            Request::Back => f.write_str("back"),
            Request::Ask { first, last } => write!(f, "ask {first} to {last}"),
            Request::Ring => f.write_str("ring"),
        }
    }
}

// A figure, and the one that means none, on a line that has such a figure.
#[derive(Clone, Copy)]
struct Figure {
    figure: u64,
    none: Option<u64>,
}

impl fmt::Display for Figure {
    fn fmt<W: fmt::Write>(&self, f: &mut fmt::Formatter<W>) -> fmt::Result {
        let figure = self.figure;
        if self.none == Some(figure) {
            return f.write_str("none");
        }
        write!(f, "{figure}")
    }
}

// A reply, with the figure that means none on its line.
#[derive(Drop)]
struct Answered<'a, C> {
    reply: &'a Reply<C>,
    none: Option<u64>,
}

impl<C> Answered<'_, C> {
    fn figure(&self, figure: u64) -> Figure {
        let none = self.none;
        Figure { figure, none }
    }
}

impl<C> fmt::Display for Answered<'_, C> {
    fn fmt<W: fmt::Write>(&self, f: &mut fmt::Formatter<W>) -> fmt::Result {
        match self.reply {
            Reply::Done(number) => write!(f, "{number}"),
            Reply::Told(told) => {
                let first = self.figure(told.figures.first);
                let second = self.figure(told.figures.second);
                write!(f, "{first}, {second}, joins {}", told.joins)
            }
            Reply::Refused(refusal) => write!(f, "refused, {}", u8::from(*refusal)),
            Reply::OutOfTurn => f.write_str("out of turn"),
        }
    }
}

// What the columns are.
fn heads(rt: &HostRuntime) -> io::Result<()> {
    println!(rt; "A maintenance plan, played on a line of costs and on a line of runs")?;
    println!(rt; "costs: failing and working, where {IN_A_ROW} neighbours down in a row fail")?;
    println!(rt; "runs: longest and front run of a window, longest and seam run of the ring")?;
    println!(rt; "{:<52}{:<24}{}", "request", "costs", "runs")
}

// The requests in turn, each with both replies.
pub(crate) fn show(
    rt: &HostRuntime,
    plan: &[Request],
    costs: &[Reply<Matrix>],
    runs: &[Reply<RunCell>],
) -> Result<(), Trouble> {
    let alloc = rt.alloc();
    let none = Some(Costs.zero());
    heads(rt)?;
    for ((request, reply), beside) in plan.iter().zip(costs).zip(runs) {
        let asked = format!(in alloc; "{}", Asked(request))?;
        let costs = format!(in alloc; "{}", Answered { reply, none })?;
        let runs = Answered {
            reply: beside,
            none: None,
        };
        println!(rt; "{asked:<52}{costs:<24}{runs}")?;
    }
    Ok(())
}
