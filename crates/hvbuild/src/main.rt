// hvbuild: from the text of a program, on standard input, to the words of its image.
#![tactic(auto)]

mod listing;
mod used;

use anyhow::bail;
use compiler::build;
use console::exit::finish;
use console::text::read_text;
use listing::write_listing;
use std::env;
use std::io::{self, BufWriter, Write};
use std::process::ExitCode;
use used::used_length;

const HELP: &str = "usage: hvbuild [--listing] < TEXT

Builds the image of the program that TEXT is the writing of, and prints its words up to
the last that isn't 0, in decimal, one a line. A text that is no program, or a program
outside the limits, is refused with a message on standard error and status 1.

  --listing   print each word's place, the word, and its instruction
  --help      print this";

// A text has at most so many bytes.
const MOST_TEXT: usize = 1048576;

fn write_words(out: &mut impl Write, image: &[u16]) -> anyhow::Result<()> {
    for w in image {
        writeln!(out, "{w}")?;
    }
    Ok(())
}

// Builds the image and prints it.
fn print_image(rt: &HostRuntime, listing: bool) -> anyhow::Result<()> {
    let Some(text) = read_text(rt.alloc(), &mut rt.stdin(), MOST_TEXT)? else {
        bail!("the text has more than {MOST_TEXT} bytes");
    };
    let mut image = vec![in rt.alloc(); 0u16; 65536]?;
    build(text.as_slice(), image.as_mut_slice())?;
    let words = image.as_slice();
    let used = &words[0..used_length(words)];
    let mut out = BufWriter::new(rt.alloc(), rt.stdout())?;
    if listing {
        write_listing(&mut out, used)?;
    } else {
        write_words(&mut out, used)?;
    }
    out.flush()?;
    Ok(())
}

fn hvbuild(rt: &HostRuntime) -> anyhow::Result<()> {
    let mut listing = false;
    for arg in env::args(rt)?.skip(1) {
        match arg.as_str() {
            "--help" => {
                rt.println(HELP)?;
                return Ok(());
            }
            "--listing" => listing = true,
            option => bail!("unknown option (--help lists them): '{option}'"),
        }
    }
    print_image(rt, listing)
}

fn main(rt: HostRuntime) -> io::Result<ExitCode> {
    finish(&rt, "hvbuild", hvbuild(&rt))
}
