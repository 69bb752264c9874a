//! How a program uses the library: it solves the game of a rules text in memory and, for each FEN
//! among its arguments, prints the bounds of both sides and the line that keeps each.
#![tactic(auto)]

ghost use Rattle.std.specs.Prelude.{◌≡◌, ◌<◌};
ghost use Rattle.frz_fide.specs.Valid.{IsValid};

mod laws;
mod solved;

use frz_board::{Colour, Position};
use frz_fen::read_fen;
use frz_game::Bound;
use frz_rules::RulesError;
use frz_steps::Steps;
use frz_store::OutputSink;
use solved::Solved;
use std::alloc::{AllocError, Global};
use std::env;
use std::io::{self, ErrorKind};
use std::marker::Brand;
use std::sync::ledger::{Blank, Ledger};

/// A rook on h1 or h8 and a king on b6 against a king on a8 or b8.
const RULES: &[u8] = b"freezer 1
group white 1 K:b6
group white 1 R:h1,h8
group black 1 K:a8,b8
";

fn name(side: Colour) -> &'static str {
    match side {
        Colour::White => "white",
        Colour::Black => "black",
    }
}

/// Plays and prints the line of a side that wins or holds at the position: its bound, the moves, and
/// the end.
fn play<L: Ledger>(
    rt: &impl Print,
    alloc: Global,
    solved: &Solved,
    side: Colour,
    p: &Position,
    steps: &mut Steps<L>,
) -> io::Result<()>
    requires { IsValid p.now }
{
    let mut out = OutputSink::new(io::writer(rt));
    match solved.line(alloc, side, p, &mut out, steps) {
        Ok(_) => Ok(()),
        Err(_) => Err(io::Error::from(ErrorKind::Other)),
    }
}

/// Prints what a side has at the position. Where it has a bound to play for, that is its line.
fn tell_side<L: Ledger>(
    rt: &impl Print,
    alloc: Global,
    solved: &Solved,
    side: Colour,
    p: &Position,
    steps: &mut Steps<L>,
) -> io::Result<()>
    requires { IsValid p.now }
{
    match solved.bound(side, p) {
        None => println!(rt; "{}: outside the set", name(side)),
        Some(Bound::Fails(_)) => println!(rt; "{} none", name(side)),
        Some(_) => play(rt, alloc, solved, side, p, steps),
    }
}

/// Prints the bounds and lines of the position that a FEN stands for, or why it stands for none.
fn tell<L: Ledger>(
    rt: &impl Print,
    alloc: Global,
    solved: &Solved,
    fen: &str,
    steps: &mut Steps<L>,
) -> io::Result<()> {
    println!(rt; "{fen}")?;
    match read_fen(fen.as_bytes()) {
        Err(fault) => println!(rt; "no position: {fault:?}"),
        Ok(p) => {
            tell_side(rt, alloc, solved, Colour::White, &p, steps)?;
            tell_side(rt, alloc, solved, Colour::Black, &p, steps)
        }
    }
}

/// Solves the game of the rules, and tells the bounds and lines at the position of each FEN.
fn run<L: Ledger>(rt: &impl Print, alloc: Global, fens: env::Args, blank: Blank) -> io::Result<()>
    requires name { blank.name ≡ L.name }
    requires parts { blank.parts ≡ L.parts }
    requires some { 0 < blank.parts }
{
    let mut steps = Steps::<L>::new(blank);
    let solved = match Solved::new(alloc, RULES, &mut steps) {
        Ok(solved) => solved,
        Err(RulesError::NoMemory) => return Err(AllocError.into()),
        Err(RulesError::Bad(fault)) => {
            return println!(rt; "line {}: {:?}", fault.line, fault.cause);
        }
    };
    for fen in fens.skip(1) {
        tell(rt, alloc, &solved, &fen, &mut steps)?;
    }
    Ok(())
}

fn main(rt: HostRuntime) -> io::Result<()> {
    let fens = env::args(&rt)?;
    run::<Brand>(&rt, rt.alloc(), fens, Blank::new(1))
}
