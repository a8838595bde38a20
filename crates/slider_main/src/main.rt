//! The program `slider`: it reads a script on standard input and at each run writes the job's answer over the present
//! window. `main` makes the devices of the process and the meters, and passes them to [`slider_program::run_program`],
//! which has the promises.
#![tactic(auto)]

use job_laws::CountMeter;
use slider_io::{NoGate, ReaderSource, WriterSink, put_all};
use slider_program::{BasicJobs, new_meters, run_program};
use std::env;
use std::io::ErrorKind;
use std::process::ExitCode;

fn main(rt: HostRuntime) -> ExitCode {
    let alloc = rt.alloc();
    let mut err = WriterSink::new(rt.stderr());
    let args = match env::args(&rt) {
        Ok(args) => args,
        Err(e) if e.kind() == ErrorKind::OutOfMemory => return ExitCode::from(6),
        Err(_) => {
            let _ = put_all(&mut err, b"usage words\n");
            return ExitCode::from(2);
        }
    };
    let mut words = Vec::new(alloc);
    for word in args.skip(1) {
        if words.push(word).is_err() {
            return ExitCode::from(6);
        }
    }
    let Ok(mut meters) = new_meters(alloc) else {
        return ExitCode::from(6);
    };
    let mut source = ReaderSource::new(rt.stdin());
    let mut out = WriterSink::new(rt.stdout());
    ExitCode::from(run_program(
        alloc,
        &rt,
        words.as_slice(),
        &BasicJobs::<CountMeter>::new(),
        &mut source,
        &mut out,
        &mut err,
        &mut meters,
        &NoGate,
    ))
}
