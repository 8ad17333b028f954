//! `sec`: decides whether two circuits in BLIF behave alike.
#![tactic(auto)]

ghost use Rattle.std.specs.Prelude.{◌≡◌, ◌≢◌};

use base_shelves::{FileShelf, StdSink};
use sec_run::run;
use std::env;
use std::io::ErrorKind;
use std::process::ExitCode;
use std::rt::HostRuntime;

/// The exit status where the system doesn't give the words.
fn code_without_words(kind: ErrorKind) -> u8
    ensures memory { kind ≡ ErrorKind.OutOfMemory → result ≡ 8 }
    ensures other { kind ≢ ErrorKind.OutOfMemory → result ≡ 10 }
{
    match kind {
        ErrorKind::OutOfMemory => 8,
        _ => 10,
    }
}

fn main(rt: HostRuntime) -> ExitCode {
    let alloc = rt.alloc();
    let mut words = Vec::new(alloc);
    let args = match env::args(&rt) {
        Ok(args) => args,
        Err(error) => return ExitCode::from(code_without_words(error.kind())),
    };
    for word in args.skip(1) {
        if words.push(word).is_err() {
            return ExitCode::from(8);
        }
    }
    let mut shelf = FileShelf::new(&rt);
    let mut out = StdSink::new(&rt);
    let status = run(alloc, words.as_slice(), &mut shelf, &mut out);
    ExitCode::from(status.code())
}
