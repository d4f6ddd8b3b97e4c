// Prints the events of the sheet on standard input, one to a line.
#![tactic(auto)]

use streams::{Failure, Plain};

fn main(rt: HostRuntime) {
    // A failure is told on standard error alone; the exit status is 0 then too. Nobody could be told that this failed.
    if let Err(failure) = run(&rt) {
        let _ = match failure {
            Failure::Input(e) => eprintln!(rt; "demodulate: standard input: {}", Plain(&e)),
            Failure::Output(e) => eprintln!(rt; "demodulate: standard output: {}", Plain(&e.error)),
        };
    }
}

// The programs are written apart. A function for both would take `demodulate` as a closure, and so require that it may be called, where public
// functions require nothing; a trait for both, with the two sizes, would be longer than these lines.
fn run(rt: &HostRuntime) -> Result<(), Failure> {
    // What is behind these bytes changes nothing that is printed: `CutInput` of `demodulator`.
    let mut input = [0u8; demodulator::MOST_INPUT];
    let read = streams::read_all(rt, &mut rt.stdin(), &mut input).map_err(Failure::Input)?;
    let mut output = [0u8; demodulator::MOST_PRINTED];
    let made = demodulator::demodulate(&input[..read], &mut output);
    streams::write_all(rt, &mut rt.stdout(), &output[..made])?;
    Ok(())
}
