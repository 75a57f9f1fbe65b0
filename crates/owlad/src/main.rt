//! owlad: modules and atoms of OWL 2 ontologies, on the command line.
#![tactic(auto)]

use ad_base::{Memory, Word};
use ad_io::{StdSink, StdSource};
use ad_run::{memory, run_once, usage};
use std::alloc::Global;
use std::env::{self, Args};
use std::hash::RandomState;
use std::io::{BufReader, ErrorKind};
use std::process::ExitCode;

fn main(rt: HostRuntime) -> ExitCode {
    let alloc = rt.alloc();
    let mut notes = StdSink::new(rt.stderr());
    let arguments = match env::args(&rt) {
        Ok(arguments) => arguments,
        Err(error) if error.kind() == ErrorKind::OutOfMemory => return ExitCode::from(memory(
            &mut notes,
        )),
        // An argument isn't UTF-8: these are the words of no command.
        Err(_) => return ExitCode::from(usage(&mut notes)),
    };
    let Ok(words) = words_of(alloc, arguments) else {
        return ExitCode::from(memory(&mut notes));
    };
    let Ok(input) = BufReader::new(alloc, rt.stdin()) else {
        return ExitCode::from(memory(&mut notes));
    };
    // Where the system has no random keys to give, the run ends as for want of memory.
    let Ok(keys) = RandomState::new(&rt) else {
        return ExitCode::from(memory(&mut notes));
    };
    let mut source = StdSource::new(input);
    let mut sink = StdSink::new(rt.stdout());
    let code = run_once(
        &rt,
        alloc,
        keys,
        words.as_slice(),
        &mut source,
        &mut sink,
        &mut notes,
    );
    ExitCode::from(code)
}

// The arguments behind the program's name.
fn words_of(alloc: Global, arguments: Args) -> Result<Vec<Word>, Memory> {
    let mut words = Vec::new(alloc);
    for argument in arguments.skip(1) {
        words.push(Word::of(alloc, argument.as_str())?)?;
    }
    Ok(words)
}
