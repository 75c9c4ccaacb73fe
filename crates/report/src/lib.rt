// From input bytes to the lines that the program prints.
#![tactic(auto)]

ghost use Rattle.std.specs.Prelude.{◌≡◌, ◌+◌, ◌-◌, ◌^◌, ◌<◌, ◌++◌, length, drop, IfOk, vec_len, string_bytes, OnOk};
ghost use Rattle.net.specs.declared.net.Look.TheVariants.{Mark};
ghost use Rattle.net.specs.Looks.{looked};
ghost use Rattle.net.specs.States.{view};
ghost use Rattle.session.specs.Views.{opened};
ghost use Rattle.session.specs.Feeds.{fed, PlaceWithin};
ghost use Rattle.stream.specs.Streams.{reading};
ghost use Rattle.report.specs.Lines.{shown_place, shown_arc, place_lines, side_look, side_line, side_lines, transition_lines, arc_lines, step_lines, end_lines, house, reading_lines, reported};
ghost use Rattle.report.specs.Texts.{ended_line, printed};

mod line;

use house::{HouseFault, house};
pub use line::Line;
use net::{Draft, Look, MOST_PLACES, Net, SHEET_SIZE, Side};
use session::{Session, SessionFault};
use std::alloc::{AllocError, Global};
use stream::read;

// The most bytes of an input.
pub const MOST_INPUT: u16 = 32_768;

// The line of a place, if it stands.
fn place_line(net: &Net<'_>, p: usize) -> Option<Line>
    ensures { result ≡ shown_place p (looked (view net.now) (Mark p)) }
{
    net.look(Look::Mark(p))
        .ok()
        .map(|mark| Line::Place(p, mark))
}

// Adds the lines of the standing places.
fn place_lines(lines: &mut Vec<Line>, net: &Net<'_>) -> Result<(), AllocError>
    ensures { OnOk result (lines.new.items ≡ lines.old.items ++ place_lines (view net.now)) }
{
    lines.extend((0..MOST_PLACES).filter_map(|p| place_line(net, p)))
}

// The look for an arc on one side of a transition.
fn side_look(side: Side, t: usize, p: usize) -> Look
    ensures { result ≡ side_look side t p }
{
    match side {
        Side::Takes => Look::Take(t, p),
        Side::Puts => Look::Put(t, p),
    }
}

// The line of an arc on one side of a transition.
fn side_line(side: Side, t: usize, p: usize, weight: u32) -> Line
    ensures { result ≡ side_line side t p weight }
{
    match side {
        Side::Takes => Line::Take(t, p, weight),
        Side::Puts => Line::Put(t, p, weight),
    }
}

// The line of an arc, if there is one.
fn arc_line(net: &Net<'_>, side: Side, t: usize, p: usize) -> Option<Line>
    ensures { result ≡ shown_arc side t p (looked (view net.now) (side_look side t p)) }
{
    match net.look(side_look(side, t, p)) {
        Ok(0) | Err(_) => None,
        Ok(weight) => Some(side_line(side, t, p, weight)),
    }
}

// Adds the lines of all arcs: for each transition its takes by place, then its puts by place.
fn arc_lines(lines: &mut Vec<Line>, net: &Net<'_>) -> Result<(), AllocError>
    ensures { OnOk result (lines.new.items ≡ lines.old.items ++ arc_lines (view net.now)) }
{
    lines.extend((0..net.shape.transitions).flat_map(|t| {
        let takes = (0..MOST_PLACES).filter_map(move |p| arc_line(net, Side::Takes, t, p));
        let puts = (0..MOST_PLACES).filter_map(move |p| arc_line(net, Side::Puts, t, p));
        takes.chain(puts)
    }))
}

// Adds a line and a line feed.
fn print_line(out: &mut String, line: &Line) -> Result<(), AllocError>
    ensures { OnOk result (string_bytes out.new ≡ string_bytes out.old ++ ended_line line.now) }
{
    writeln!(out, "{line}")
}

// The text of all lines, each ended by a line feed.
pub fn print(heap: Global, lines: &[Line]) -> Result<String, AllocError>
    ensures { IfOk result (λ s. string_bytes s ≡ printed lines.now) }
{
    let mut out = String::new(heap);
    for line in lines {
        print_line(&mut out, line)?;
    }
    Ok(out)
}

// The lines of the steps that were fed from the given byte of an input on.
fn step_lines(
    heap: Global,
    used: usize,
    said: Result<usize, SessionFault<HouseFault>>,
) -> Result<Vec<Line>, AllocError>
    requires { PlaceWithin said (2 ^ 64 - 1 - used) }
    ensures { IfOk result (λ v. v.items ≡ step_lines used said) }
{
    match said {
        Ok(count) => Ok(vec![in heap; Line::Taken(count)]?),
        Err(fault) => {
            let told = fault.told();
            let at = told.origin.at;
            Ok(vec![in heap;
                Line::Taken(at.count),
                Line::Refused(told.number, used + at.byte),
            ]?)
        }
    }
}

// The lines for a net that was read from the first bytes of an input: the steps behind it, the rest of the input, are fed to a session.
fn session_lines(
    heap: Global,
    session: &mut Session<'_>,
    used: usize,
    rest: &[u8],
) -> Result<Vec<Line>, AllocError>
    requires { used + length rest.now < 2 ^ 64 }
    ensures { IfOk result (λ v. v.items ≡ end_lines used (fed house (opened session.old) rest.now)) }
{
    let said = session.feed(&house(), rest);
    let mut lines = step_lines(heap, used, said)?;
    place_lines(&mut lines, session.net())?;
    arc_lines(&mut lines, session.net())?;
    Ok(lines)
}

// A sheet of n numbers.
fn new_sheet(heap: Global, n: usize) -> Result<Vec<u32>, AllocError>
    ensures { IfOk result (λ v. vec_len v ≡ n) }
{
    vec![in heap; 0u32; n]
}

// The lines to print for an input: reads a net from its front and feeds the rest to a session, over a sheet of the size of a net's sheet,
// a slice, as a draft is lent it.
fn report_over(heap: Global, sheet: &mut [u32], input: &[u8]) -> Result<Vec<Line>, AllocError>
    requires { length sheet.old ≡ 12352 }
    ensures { IfOk result (λ v. v.items ≡ reading_lines (reading input.now) input.now) }
{
    let mut draft = Draft::start(sheet);
    match read(&mut draft, input) {
        Ok(used) => session_lines(heap, &mut Session::open(draft), used, &input[used..]),
        Err(fault) => Ok(vec![in heap; Line::from(fault)]?),
    }
}

// The lines to print for an input.
pub fn report(heap: Global, input: &[u8]) -> Result<Vec<Line>, AllocError>
    ensures { IfOk result (λ v. v.items ≡ reported input.now) }
{
    if input.len() > usize::from(MOST_INPUT) {
        return Ok(vec![in heap; Line::Long]?);
    }
    let mut sheet = new_sheet(heap, SHEET_SIZE)?;
    report_over(heap, &mut sheet, input)
}
