// Arguments and texts as the programs are given them.
use crate::request::{Argument, Request, RequestError, classify};
use crate::text::{read_text, read_text_within};
use std::{env, io};

#[test]
fn asks_for_help_a_number_and_a_tape(rt: HostRuntime) {
    let mut request = Request::new(rt.alloc());
    assert_eq!(rt; request.take(Some("--limit"), "7"), Ok(()));
    assert_eq!(rt; request.take(Some("--limit"), "--limit"), Ok(()));
    assert_eq!(rt; request.take(Some("--limit"), "65535"), Ok(()));
    assert_eq!(rt; request.take(Some("--limit"), "65535"), Ok(()));
    assert_eq!(rt; request.take(Some("--limit"), "--help"), Ok(()));
    assert!(rt; request.help && !request.number_next);
    assert_eq!(rt; request.number, Some(65535));
    assert_eq!(rt; request.tape.as_slice(), [7, 65535].as_slice());
}

#[test]
fn refuses_what_it_does_not_know(rt: HostRuntime) {
    let option = Some("--fuel");
    assert_eq!(rt;
        classify(false, option, "--fuel"),
        Ok(Argument::NumberOption)
    );
    assert_eq!(rt;
        classify(false, None, "--fuel"),
        Err(RequestError::UnknownOption)
    );
    assert_eq!(rt;
        classify(false, option, "-1"),
        Err(RequestError::UnknownOption)
    );
    assert_eq!(rt; classify(false, option, "65536"), Err(RequestError::NoWord));
    assert_eq!(rt; classify(false, option, ""), Err(RequestError::NoWord));
    assert_eq!(rt;
        classify(true, option, "4294967294"),
        Ok(Argument::Number(4294967294))
    );
    assert_eq!(rt;
        classify(true, option, "4294967295"),
        Err(RequestError::NoNumber)
    );
    assert_eq!(rt;
        classify(true, option, "--help"),
        Err(RequestError::NoNumber)
    );
}

#[test]
fn reads_a_text_within_its_limit(rt: HostRuntime) -> io::Result<()> {
    let mut input = b"skip".as_slice();
    let text = read_text(rt.alloc(), &mut input, 4)?;
    assert!(rt; text.is_some_and(|t| t.as_slice() == b"skip".as_slice()));
    let mut longer = b"skip ".as_slice();
    let none = read_text(rt.alloc(), &mut longer, 4)?;
    assert!(rt; none.is_none());
    Ok(())
}

#[test]
fn reads_a_text_within_its_reads(rt: HostRuntime) -> io::Result<()> {
    let mut input = b"skip".as_slice();
    let text = read_text_within(rt.alloc(), &mut input, 4, 2)?;
    assert!(rt; text.is_some_and(|t| t.as_slice() == b"skip".as_slice()));
    let mut endless = b"skip".as_slice();
    let error = read_text_within(rt.alloc(), &mut endless, 4, 1).err();
    assert!(rt; error.is_some_and(|e| e.kind() == io::ErrorKind::Other));
    Ok(())
}
