// The table of texts: each line of standard input is a text, and standard output says what the text is. In a line,
// \NNN stands for the byte with that decimal code, and {N:WORDS} for N times WORDS. A line that begins with 'cuts '
// asks how many of the text's beginnings are programs.
#![tactic(auto)]

ghost use Rattle.std.specs.Prelude.{◌<◌};

use language::nodes::Sizes;
use std::alloc::{AllocError, Global};
use std::io;
use text::judge::judge;
use text::load::load;

fn digit(b: u8) -> u32
    ensures { result < 10 }
{
    char::from(b).to_digit(10).unwrap_or(0)
}

// A piece of a line, with the bytes that its codes stand for.
fn push_piece(text: &mut Vec<u8>, piece: &str) -> Result<(), AllocError> {
    for (i, part) in piece.split('\\').enumerate() {
        match part.as_bytes() {
            [a, b, c, rest @ ..] if i > 0 => {
                let code = digit(*a) * 100 + digit(*b) * 10 + digit(*c);
                text.push((code % 256) as u8)?;
                text.extend_from_slice(rest)?;
            }
            plain => text.extend_from_slice(plain)?,
        }
    }
    Ok(())
}

// The text that a line stands for.
fn expand(heap: Global, line: &str) -> Result<Vec<u8>, AllocError> {
    let mut text = Vec::new(heap);
    for piece in line.split('{') {
        if let Some((repeated, tail)) = piece.split_once('}') {
            if let Some((count, words)) = repeated.split_once(':') {
                let times = count.parse::<u32>().unwrap_or(0);
                // One by one: the library's `repeat` makes a string as long again.
                let times = if words.is_empty() { 0 } else { times };
                for _ in 0..times {
                    text.extend_from_slice(words.as_bytes())?;
                }
            }
            push_piece(&mut text, tail)?;
        } else {
            push_piece(&mut text, piece)?;
        }
    }
    Ok(text)
}

// What is said of a text, where its verdict and what comes of loading it agree.
fn show(rt: &HostRuntime, line: &str, text: &[u8]) -> io::Result<()> {
    match (judge(text), load(text)) {
        (Ok(()), Ok(parsed)) => {
            let Sizes {
                globals,
                cells,
                procs,
                signs,
            } = parsed.sizes;
            println!(rt; "program {globals} {cells} {procs} {signs} <- {line}")
        }
        (Err(judged), Err(refused)) if judged == refused => println!(rt; "{refused} <- {line}"),
        _ => println!(rt; "DIFFERS <- {line}"),
    }
}

// How many beginnings of a text are programs within the limits, of how many.
fn show_cuts(rt: &HostRuntime, line: &str, text: &[u8]) -> io::Result<()> {
    let all = text.len();
    let programs = (0..all).filter(|i| judge(&text[..*i]).is_ok()).count();
    println!(rt; "{programs} of {all} cuts <- {line}")
}

fn main(rt: HostRuntime) -> io::Result<()> {
    for line in rt.lines(rt.alloc()) {
        let line = line?;
        if let Some(whole) = line.as_str().strip_prefix("cuts ") {
            let text = expand(rt.alloc(), whole)?;
            show_cuts(&rt, whole, text.as_slice())?;
        } else {
            let text = expand(rt.alloc(), line.as_str())?;
            show(&rt, line.as_str(), text.as_slice())?;
        }
    }
    Ok(())
}
