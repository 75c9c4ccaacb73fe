// Runs tables of cases through the report and compares what it prints, line by line.
// A line of a table has a name, the input in hex, and the expected lines joined by semicolons, with tabs between. The input is
// written in groups with spaces between; a group may be repeated, as 00x16. The expected lines of vectors.tsv come from an independent
// model of the formats and the rules, those of the other tables are worked out by hand.
#![tactic(auto)]

use anyhow::anyhow;
use report::{print, report};
use std::alloc::Global;
use std::fs;

// The value of a hex digit. The library `hex` is not used, since it reads capitals too, and refuses a group of odd length.
fn digit(byte: u8) -> anyhow::Result<u8> {
    match byte {
        b'0'..=b'9' => Ok(byte - b'0'),
        b'a'..=b'f' => Ok(byte - b'a' + 10),
        _ => Err(anyhow!("a table has a byte that is no hex digit")),
    }
}

// Adds the bytes of a group of hex digits. The last digit of an odd number of them is left out.
fn add_bytes(input: &mut Vec<u8>, digits: &[u8]) -> anyhow::Result<()> {
    for pair in digits.chunks_exact(2) {
        let high = digit(pair[0])?;
        let low = digit(pair[1])?;
        input.push((high & 15) * 16 + (low & 15))?;
    }
    Ok(())
}

// Adds a group of hex digits as often as it is repeated.
fn add_group(input: &mut Vec<u8>, group: &str) -> anyhow::Result<()> {
    let (digits, times) = group.split_once('x').unwrap_or((group, "1"));
    for _ in 0..times.parse::<u32>()? {
        add_bytes(input, digits.as_bytes())?;
    }
    Ok(())
}

// The input bytes of a case.
fn input_of(heap: Global, text: &str) -> anyhow::Result<Vec<u8>> {
    let mut input = Vec::new(heap);
    for group in text.split(' ') {
        add_group(&mut input, group)?;
    }
    Ok(input)
}

// The text that is expected of a case.
fn expected_of(heap: Global, lines: &str) -> anyhow::Result<String> {
    let mut text = String::new(heap);
    for line in lines.split(';') {
        text.push_str(line)?;
        text.push('\n')?;
    }
    Ok(text)
}

// Does the report print what the case expects?
fn passes(heap: Global, case: &str) -> anyhow::Result<bool> {
    let Some((_, rest)) = case.split_once('\t') else {
        return Err(anyhow!("a case has no input"));
    };
    let Some((hex, lines)) = rest.split_once('\t') else {
        return Err(anyhow!("a case has no lines"));
    };
    let input = input_of(heap, hex)?;
    let printed = print(heap, &report(heap, &input)?)?;
    let expected = expected_of(heap, lines)?;
    Ok(printed == expected)
}

// Runs a table, prints the cases that differ and the count.
fn run_table(rt: &HostRuntime, name: &str) -> anyhow::Result<()> {
    let table = fs::read_to_string(rt, name)?;
    let all = table.as_str().lines().count();
    let mut differ = 0u32;
    for (number, case) in (1u32..).zip(table.as_str().lines()) {
        if !passes(rt.alloc(), case)? {
            differ = differ.saturating_add(1);
            println!(rt; "{name}: case {number} differs")?;
        }
    }
    println!(rt; "{name}: {all} cases, {differ} differ")?;
    Ok(())
}

fn run(rt: &HostRuntime) -> anyhow::Result<()> {
    run_table(rt, "limits.tsv")?;
    run_table(rt, "steps.tsv")?;
    run_table(rt, "vectors.tsv")
}

fn main(rt: HostRuntime) -> anyhow::Result<()> {
    run(&rt)
}
