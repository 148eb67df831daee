//! Runs each command of the program.

ghost use Rattle.std.specs.Prelude.{◌≡◌, ◌≢◌, ◌⊎◌};
ghost use Rattle.urlpat.specs.Commands.{MayPrintInPart, MayReport, RunsCommand, status_of_both};

use std::alloc::Global;
use std::io::{BufRead, Write};
use urlpat_commands::{Tables, covers, print_component, print_first, print_match};
use urlpat_explain::{ExplanationPrinter, explain, link};
use urlpat_matching::{Arguments, Command, DONE, FAILED, NO_MATCH};
use urlpat_tables::{FindingsPrinter, check, filter, list_unreachable, rewrite, route};

/// Runs a command. Returns the exit status.
///
/// `filter`, `route` and `rewrite` read lines from `input`; `filter`, `route`, `rewrite`,
/// `unreachable` and `check` read files from `tables`. Output is written to `out`, errors and notes
/// to `err`. `printer` prints what `explain`, `unreachable` and `check` find.
pub fn run<T: Tables, P: ExplanationPrinter + FindingsPrinter, In: BufRead, Out: Write, Err: Write>(
    alloc: Global,
    tables: &T,
    printer: &P,
    arguments: Arguments<'_, '_>,
    input: &mut In,
    out: &mut Out,
    err: &mut Err,
) -> u8
    ensures status { (result ≡ DONE) ⊎ (result ≡ NO_MATCH) ⊎ (result ≡ FAILED) }
    ensures answers { result ≢ FAILED
        → RunsCommand (record {
          Has = T.Has tables.now;
          PrintsExplained = P.ExplanationPrinter.Prints printer.now;
          PrintsFindings = P.FindingsPrinter.Prints printer.now;
          PrintsUnreached = P.PrintsUnreached printer.now;
        }) arguments.entry.flags arguments.entry.command result
        (In.remaining input.old) (Out.contents out.old) (Out.contents out.new) }
    ensures quiet { result ≢ FAILED → (err.new ≡ err.old)
        ⊎ MayReport (T.Has tables.now) arguments.entry.flags arguments.entry.command }
    ensures fails { result ≡ FAILED → (out.new ≡ out.old)
        ⊎ MayPrintInPart arguments.entry.flags arguments.entry.command }
{
    let flags = arguments.flags;
    match arguments.command {
        Command::Component(asked) => print_component(alloc, asked, flags, out, err),
        Command::Match(asked) => print_match(alloc, asked, flags, out, err),
        Command::First(asked) => print_first(alloc, asked, flags, out, err),
        Command::Filter(asked) => filter(alloc, tables, asked, flags, input, out, err),
        Command::Route(asked) => route(alloc, tables, asked, flags, input, out, err),
        Command::Rewrite(asked) => rewrite(alloc, tables, asked, flags, input, out, err),
        Command::Explain(asked) => explain(alloc, printer, asked, flags, out, err),
        Command::Link(asked) => link(alloc, asked, flags, out, err),
        Command::Covers(asked) => covers(alloc, asked, flags, out, err),
        Command::Unreachable(asked) => {
            list_unreachable(alloc, tables, printer, asked, flags, out, err)
        },
        Command::Check(asked) => check(alloc, tables, printer, asked, flags, out, err),
    }
}

/// The exit status of two runs: `FAILED` if one of them failed, else `DONE` if one of them has it.
pub fn status_of_both(one: u8, other: u8) -> u8
    ensures { result ≡ status_of_both one other }
{
    if one == FAILED || other == FAILED {
        FAILED
    } else if one == DONE || other == DONE {
        DONE
    } else {
        NO_MATCH
    }
}
