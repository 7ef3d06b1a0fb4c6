// The arguments of a program, all of them.
ghost use Rattle.std.specs.Prelude.{◌≡◌, ◌≤◌, false, IfOk, length};

use crate::request::{Request, RequestError};
use anyhow::bail;
use std::alloc::Global;
use std::env::Args;

// An option that a number follows, as `--fuel N`: its name, and what the number is.
#[derive(Clone, Copy)]
pub struct NumberOption {
    pub name: &'static str,
    pub what: &'static str,
}

// What a program's arguments ask for, behind its own name, with at most so many words for the tape. A refusal names what
// was given.
pub fn read_arguments(
    heap: Global,
    args: Args<Global>,
    option: Option<NumberOption>,
    most: usize,
) -> anyhow::Result<Request>
    ensures complete { IfOk result (λ r. r.number_next ≡ false) }
    ensures few { IfOk result (λ r. length r.tape.items ≤ most) }
{
    let (name, what) = option.map_or((None, ""), |o| (Some(o.name), o.what));
    let mut request = Request::new(heap);
    for arg in args.skip(1) {
        let text = arg.as_str();
        match request.take(name, text) {
            Ok(()) => {}
            Err(RequestError::NoNumber) => bail!("not {what}: '{text}'"),
            Err(RequestError::OutOfMemory) => bail!("{}", RequestError::OutOfMemory),
            Err(e) => bail!("{e}: '{text}'"),
        }
        if request.tape.len() > most {
            bail!("the tape has more than {most} words");
        }
    }
    if request.number_next {
        bail!("{} wants a number", name.unwrap_or(""));
    }
    Ok(request)
}
